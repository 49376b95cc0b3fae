// What the benchmark of bench/ times, exported: a section of a trace by a call in place for each record. The bank is a
// local of the exported function, which can take no reference that leads to an enum.
#![tactic(auto)]

ghost use Rattle.std.specs.Prelude.{◌≡◌, [], ◌*◌, ◌≤◌, length};
ghost use Rattle.model.specs.Engine.{step};
ghost use Rattle.model.specs.Rings.{rings};
ghost use Rattle.answer.specs.Given.{controller, given_out};
ghost use Rattle.record_model.specs.Record.{each_record};
ghost use Rattle.playback_model.specs.Replay.{replay_begun, did, wrong};
ghost use Rattle.timing.specs.Timing.{timed, timed_of};

use answer::Out;
use bank::{Answer, Bank};
use model::Call;
use number::Refusal;
use playback_model::Report;

// A call in place on a bank in a local.
fn step_once(b: Bank, call: Call, store: &mut [u32], output: &mut [u32]) -> Out
    ensures { given_out result store.new output.new ≡ step rings (controller b store.old output.old) call }
{
    let mut bank = b;
    let answer = inplace::step_in_place(&mut bank, store, output, call);
    Out { bank, answer }
}

// The first `n` records, up to a wrong one, and what is told of them. Every call is lent an empty output.
fn replay_records(b: Bank, store: &mut [u32], records: &[u8], n: usize) -> Report
    requires { 12 * n ≤ length records.now }
    ensures { let r = each_record did wrong n records.now 0 (replay_begun 0 (controller b store.old [])) in (result ≡ r.told) × (store.new ≡ r.left.store) }
{
    let mut bank = b;
    let mut a = Answer {
        value: 0,
        number: 0,
    };
    let mut none = [0u32; 0];
    // By number, as `each_record` counts the records.
    for i in 0..n {
        let Some(call) = record::at(records, i) else {
            return Report {
                number: u32::from(Refusal::WrongRecord),
                count: i,
                answer: a,
            };
        };
        let out = step_once(bank, call, store, &mut none);
        bank = out.bank;
        a = out.answer;
    }
    Report {
        number: 0,
        count: n,
        answer: a,
    }
}

// Replays section 0 of a trace on a bank with every capacity `cap`, and gives how many records it did.
#[unsafe(no_mangle)]
pub extern "C" fn replay_each(cap: u32, store: &mut [u32], file: &[u8], last: &mut [u32]) -> u32
    ensures { timed result store.new last.new ≡ timed_of cap store.old file.now last.old }
{
    let records = trace::section(file, 0);
    // All of them: no section has more records than its file has bytes.
    let n = record::whole(file.len(), records);
    let told = replay_records(timing::fresh(cap), store, records, n);
    timing::keep(last, told.answer);
    (told.count % 4294967296) as u32
}
