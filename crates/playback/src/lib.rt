// Replay of a section of a trace file (`replay.calls`, `replay.tells`): by value, and on a bank that is changed where
// it lies (`call.in-place`). Every call is lent an empty output (`burst.replay`).
#![tactic(auto)]

ghost use Rattle.std.specs.Prelude.{◌≡◌, []};
ghost use Rattle.answer.specs.Given.{controller};
ghost use Rattle.playback_model.specs.Replay.{replay_of};
ghost use Rattle.replayed.specs.Given.{replayed_out, replayed_place};

use bank::Bank;
use playback_model::Report;
use replayed::Replayed;

// Replay of section i, at most `limit` of its records.
pub fn replay(b: Bank, store: &mut [u32], file: &[u8], i: u32, limit: usize) -> Replayed
    ensures { replayed_out result store.new ≡ replay_of file.now i limit (controller b store.old []) }
{
    let records = match trace::part(file, i) {
        Ok(records) => records,
        Err(why) => return replayed::refused(b, u32::from(why)),
    };
    player::play(b, store, &mut [], records, limit)
}

// The same on a bank that is changed where it lies.
pub fn replay_in_place(
    bank: &mut Bank,
    store: &mut [u32],
    file: &[u8],
    i: u32,
    limit: usize,
) -> Report
    ensures { replayed_place bank.new result store.new ≡ replay_of file.now i limit (controller bank.old store.old []) }
{
    let out = replay(*bank, store, file, i, limit);
    *bank = out.bank;
    out.told
}
