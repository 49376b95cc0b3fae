// What the benchmark of bench/ times, exported: a section of a trace by one call in place. The bank is a local of the
// exported function, which can take no reference that leads to an enum. A crate of its own, so that the loop is the
// only caller of the step and has it inlined.
#![tactic(auto)]

ghost use Rattle.std.specs.Prelude.{◌≡◌, []};
ghost use Rattle.answer.specs.Given.{controller};
ghost use Rattle.playback_model.specs.Replay.{replay_of};
ghost use Rattle.replayed.specs.Given.{replayed_out};
ghost use Rattle.timing.specs.Timing.{timed, timed_of};

use bank::Bank;
use replayed::Replayed;

// A replay in place on a bank in a local.
fn replay_once(b: Bank, store: &mut [u32], file: &[u8], i: u32, limit: usize) -> Replayed
    ensures { replayed_out result store.new ≡ replay_of file.now i limit (controller b store.old []) }
{
    let mut bank = b;
    let told = playback::replay_in_place(&mut bank, store, file, i, limit);
    Replayed { bank, told }
}

// Replays section 0 of a trace on a bank with every capacity `cap`, and gives how many records it did.
#[unsafe(no_mangle)]
pub extern "C" fn replay_trace(cap: u32, store: &mut [u32], file: &[u8], last: &mut [u32]) -> u32
    ensures { timed result store.new last.new ≡ timed_of cap store.old file.now last.old }
{
    let told = replay_once(timing::fresh(cap), store, file, 0, file.len()).told;
    timing::keep(last, told.answer);
    (told.count % 4294967296) as u32
}
