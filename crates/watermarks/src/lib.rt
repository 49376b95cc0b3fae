// Watermarks as registers (`watermark.keeps`): the number of one queue among five, and a write to a watermark, as a
// decision. A register tells its queue by a number, in the order of `store.order`.
#![tactic(auto)]

ghost use Rattle.std.specs.Prelude.{◌≡◌};
ghost use Rattle.registers.specs.declared.Register.TheVariants.{Watermark};
ghost use Rattle.model.specs.View.{Tables};
ghost use Rattle.model.specs.Registers.{queue_at, count_of, counts_with, row, write};
ghost use Rattle.effect.specs.Effects.{effect_of, verdict};
ghost use Rattle.effect.specs.Seen.{Fronts, seen};

use bank::{Counts, Regs, State};
use effect::Effect;
use number::Refusal;
use queues::Queue;
use ring::Words;

// The queue of a watermark register.
fn queue_at(i: u32) -> Queue
    ensures { result ≡ queue_at i }
{
    match i {
        0 => Queue::Cmd,
        1 => Queue::Cmdr,
        2 => Queue::Sdo,
        3 => Queue::Sdi,
        _ => Queue::Ibi,
    }
}

// One of five numbers, by its queue.
pub fn count_at(m: Counts, i: u32) -> u32
    ensures { result ≡ count_of (queue_at i) m }
{
    m.of(queue_at(i)).0
}

// Five numbers with another for that queue.
fn counts_with(m: Counts, i: u32, x: u32) -> Counts
    ensures { result ≡ counts_with (queue_at i) x m }
{
    m.with(queue_at(i), Words(x))
}

// A write to a watermark: its low 16 bits, or 30 where they are above the capacity.
#[tactic(auto, unfolding(effect::specs::Effects::verdict))]
pub fn write_watermark(st: State, i: u32, x: u32) -> Effect
    ensures { (t : Tables) (f : Fronts) → effect_of result t ≡ verdict (λ v. write (row (Watermark i)) v x) (seen st t f) }
{
    let low = x % 0x10000;
    let cap = count_at(st.caps, i);
    if cap < low {
        return effect::refused(st, Refusal::WatermarkAboveCapacity);
    }
    let regs = Regs {
        marks: counts_with(st.regs.marks, i, low),
        ..st.regs
    };
    effect::done(State { regs, ..st }, 0, 0, None)
}
