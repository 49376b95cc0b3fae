// A part of well formed: in reset the queues are empty, no transfer and no burst is open, and syncs, pending bits and
// the words last read are 0 (`formed.reset`).
#![tactic(auto)]

ghost use Rattle.std.specs.Prelude.{◌≡◌};
ghost use Rattle.bank.specs.Fives.{Counts};
ghost use Rattle.bank.specs.Queues.{queues_of};
ghost use Rattle.bank.specs.Formed.{reset_ok};

use bank::{Control, Counts, Heads, Phase};
use queues::Five;
use ring::Words;

// Whether a bank is released, or is as `formed.reset` asks; capacities are not asked. Out of reset nothing is looked at
// (`||`, not `|`): few calls meet a bank in reset.
#[tactic(auto, unfolding(bank::specs::Formed::reset_ok, bank::specs::Formed::queues_clear, bank::specs::Formed::control_clear))]
pub fn reset_ok(c: Control, p: Phase, l: Counts, h: Heads) -> bool
    ensures { (k : Counts) → result ≡ reset_ok c p (queues_of k l h) }
{
    let clear = bank::cleared_control(true);
    !c.held
        || ((l == Five::every(Words(0)))
            & (h == Five::every(0))
            & (c == clear)
            & phases::is_idle(p))
}
