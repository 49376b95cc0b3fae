// Register reads, row by row: one that shows a word, and one that takes the first word of a queue.
#![tactic(auto)]

ghost use Rattle.std.specs.Prelude.{◌≡◌, ℕ};
ghost use Rattle.number.specs.Names as number;
ghost use Rattle.queues.specs.Each.{of};
ghost use Rattle.model.specs.View.{Tables};
ghost use Rattle.model.specs.Decision.{unchanged, ◌with_value◌, ◌with_number◌};
ghost use Rattle.model.specs.Registers.{takes, latest_of, remembered, clears, read};
ghost use Rattle.effect.specs.Effects.{effect_of, verdict};
ghost use Rattle.effect.specs.Seen.{Fronts, seen};

use bank::{Control, State};
use effect::{Effect, Op};
use number::Refusal;
use queues::Queue;

// A read that changes nothing (`map.reads`).
pub fn show(st: State, value: u32) -> Effect
    ensures { (t : Tables) (f : Fronts) → effect_of result t ≡ (unchanged (seen st t f) with_value value) }
{
    effect::done(st, value, 0, None)
}

// A read of an empty queue: the word last read from it, with 3, and nothing changes (`take.empty`).
fn show_again(st: State, latest: u32) -> Effect
    ensures { (t : Tables) (f : Fronts) → effect_of result t ≡ (unchanged (seen st t f) with_value latest with_number number.empty) }
{
    effect::done(st, latest, u32::from(Refusal::Empty), None)
}

// The word last read from a queue.
fn latest_of(q: Queue, c: Control) -> u32
    ensures { result ≡ latest_of q c }
{
    match q {
        Queue::Cmdr => c.latest.cmdr,
        Queue::Sdi => c.latest.sdi,
        Queue::Ibi => c.latest.ibi,
        Queue::Cmd | Queue::Sdo => 0,
    }
}

// `w` is the word last read from a queue. A read that empties CMDR clears pending bit 5 (`source.receipt`), one that
// empties IBI bit 6 (`source.interrupt`).
fn taken(q: Queue, w: u32, empties: bool, c: Control) -> Control
    ensures { result ≡ remembered q w (clears q empties c) }
{
    let mut next = c;
    match q {
        Queue::Cmdr => {
            next.cmdrpending = !empties & c.cmdrpending;
            next.latest.cmdr = w;
        }
        Queue::Sdi => next.latest.sdi = w,
        Queue::Ibi => {
            next.ibipending = !empties & c.ibipending;
            next.latest.ibi = w;
        }
        Queue::Sdo => next.daapending = !empties & c.daapending,
        Queue::Cmd => {}
    }
    next
}

// A read of CMDR, SDI or IBI, whose first word is `word` (`take.read`, `take.empty`).
#[tactic(auto, unfolding(effect::specs::Effects::verdict))]
pub fn take(q: Queue, st: State, word: u32) -> Effect
    ensures { (t : Tables) (f : Fronts) → word ≡ (of q f).first → effect_of result t ≡ verdict (read (takes q)) (seen st t f) }
{
    let level = st.levels.of(q).0;
    if level == 0 {
        return show_again(st, latest_of(q, st.control));
    }
    let control = taken(q, word, level <= 1, st.control);
    effect::done(
        State { control, ..st },
        word,
        0,
        effect::on(q, true, Op::Take(1)),
    )
}
