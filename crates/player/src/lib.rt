// The records of a section, played one after another (`replay.calls`). It knows records and calls, and no file. The two
// tests of bank and store are made once, before the records: no call changes what they say (`formed.kept`).
#![tactic(auto)]

ghost use Rattle.std.specs.Prelude.{◌≡◌, ◌*◌, ◌≤◌, length};
ghost use Rattle.number.specs.Refusals.{told};
ghost use Rattle.answer.specs.Given.{bank_with, controller};
ghost use Rattle.answer.specs.Memory.{memory, lent, left, controller_of};
ghost use Rattle.faults.specs.Faults.{fault_number};
ghost use Rattle.record_model.specs.Record.{each_record};
ghost use Rattle.playback_model.specs.Replay.{replay_begun, did, wrong, played};
ghost use Rattle.replayed.specs.Given.{replayed_with};
ghost use Rattle.player.specs.Given.{reached_with};

use bank::{Bank, Heads, State};
use number::Refusal;
use replayed::{Reached, Replayed};

// The first `n` records, on a state and its lent tables: a layer, no interface.
pub fn replay_parts(
    st: State,
    heads: Heads,
    flags: &mut [u8; 128],
    commands: &mut [u32; 16],
    payloads: &mut [u32; 16],
    store: &mut [u32],
    output: &mut [u32],
    fault: Result<(), Refusal>,
    records: &[u8],
    n: usize,
) -> Reached
    requires { (let m = memory flags commands payloads store output in told fault ≡ fault_number (bank_with st heads m.tables) (length m.store)) × (12 * n ≤ length records.now) }
    ensures { reached_with result (left flags commands payloads store output) ≡ each_record did wrong n records.now 0 (replay_begun 0 (controller_of st heads (lent flags commands payloads store output))) }
{
    let mut s = st;
    let mut h = heads;
    let mut a = replayed::NO_ANSWER;
    // By number, as `each_record` counts the records.
    for i in 0..n {
        let Some(c) = record::at(records, i) else {
            return replayed::stopped(s, h, i, a);
        };
        let y = serve::step_parts(s, h, flags, commands, payloads, store, output, fault, c);
        // As one piece, two pairs of levels stay packed from record to record.
        s = y.state.by_field();
        h = y.heads;
        a = y.answer;
    }
    replayed::reach(s, h, 0, n, a)
}

// The records in some bytes, at most `limit` of them; a wrong one ends it. The output is lent to each call.
pub fn play(
    b: Bank,
    store: &mut [u32],
    output: &mut [u32],
    records: &[u8],
    limit: usize,
) -> Replayed
    ensures { replayed_with result store.new output.new ≡ played limit records.now (controller b store.old output.old) }
{
    let n = record::whole(limit, records);
    let fault = faults::fault(b, store.len());
    // Each table by itself: together they are zeroed by a function of the C library.
    let mut flags = b.flags;
    let mut commands = b.commands;
    let mut payloads = b.payloads;
    let y = replay_parts(
        b.state,
        b.heads,
        &mut flags,
        &mut commands,
        &mut payloads,
        store,
        output,
        fault,
        records,
        n,
    );
    let bank = Bank {
        state: y.state,
        heads: y.heads,
        flags,
        commands,
        payloads,
    };
    Replayed { bank, told: y.told }
}
