// A part of well formed: rings (`formed.set-up`), registers and device flags (`formed.fields`) are in range. It knows
// neither the open transfer nor a burst.
#![tactic(auto)]

ghost use Rattle.std.specs.Prelude.{◌≡◌};
ghost use Rattle.bank.specs.Queues.{ring, queues_of};
ghost use Rattle.bank.specs.Formed.{ring_ok, queues_ok, regs_ok, flags_ok};

use bank::{Counts, Heads, Regs};
use ring::Words;

// Whether capacity, head and level of one queue are in range (`formed.set-up`).
fn ring_ok(least: u32, cap: Words, head: u32, level: Words) -> bool
    ensures { result ≡ ring_ok least (ring cap head level) }
{
    bank::size_ok(least, cap.0) & (head < cap.0) & (level.0 <= cap.0)
}

// Whether those of all five are in range.
#[tactic(auto, unfolding(bank::specs::Formed::queues_ok))]
pub fn queues_ok(k: Counts, l: Counts, h: Heads) -> bool
    ensures { result ≡ queues_ok (queues_of k l h) }
{
    ring_ok(2, k.cmd, h.cmd, l.cmd)
        & ring_ok(1, k.cmdr, h.cmdr, l.cmdr)
        & ring_ok(1, k.sdo, h.sdo, l.sdo)
        & ring_ok(2, k.sdi, h.sdi, l.sdi)
        & ring_ok(1, k.ibi, h.ibi, l.ibi)
}

// Whether OPS, IBI_CONFIG and the selected address are in range (`formed.fields`).
#[tactic(auto, unfolding(bank::specs::Formed::regs_ok))]
pub fn regs_ok(g: Regs) -> bool
    ensures { result ≡ regs_ok g }
{
    (g.ops < 128) & (g.config < 4) & (g.selected < 128)
}

// By the largest flag byte: no early exit, so that it compiles to a vector maximum.
pub fn flags_ok(flags: &[u8]) -> bool
    ensures { result ≡ flags_ok flags.now }
{
    flags.iter().fold(0, |most, x| most.max(*x)) < 8
}
