// What the code of a replay gives: what it tells (`replay.tells`), with the state or the bank that it left; and the two
// ways in which it ends early, at a wrong record and refused as a whole. It knows no record and makes no call.
#![tactic(auto)]

ghost use Rattle.std.specs.Prelude.{◌≡◌, List, [], ℕ};
ghost use Rattle.model.specs.View.{Tables};
ghost use Rattle.answer.specs.Given.{bank_with, controller};
ghost use Rattle.playback_model.specs.Replay.{telling, replay_begun, wrong};
ghost use Rattle.replayed.specs.Given.{replay_reached, replayed_out};

use bank::{Answer, Bank, Heads, State};
use number::Refusal;
use playback_model::Report;

// The bank after a replay.
#[derive(Clone, Copy)]
pub struct Replayed {
    pub bank: Bank,
    pub told: Report,
}

// The state after some records; the tables stay where they are.
#[derive(Clone, Copy)]
pub struct Reached {
    pub state: State,
    pub heads: Heads,
    pub told: Report,
}

// The last answer before the first record (`replay.tells`).
pub const NO_ANSWER: Answer = Answer {
    value: 0,
    number: 0,
};

// What is told of some records, with the state that they left.
pub fn reach(state: State, heads: Heads, number: u32, count: usize, answer: Answer) -> Reached
    ensures { (t : Tables) (st : List ℕ) → replay_reached result t st ≡ telling number count answer (controller (bank_with state heads t) st t.output) }
{
    let told = Report {
        number,
        count,
        answer,
    };
    Reached { state, heads, told }
}

// A replay that ends at a wrong record, with 27 (`replay.calls`): `count` records were done before it, and `answer` is
// the last one's.
pub fn stopped(state: State, heads: Heads, count: usize, answer: Answer) -> Reached
    ensures { (t : Tables) (st : List ℕ) → replay_reached result t st ≡ wrong (telling 0 count answer (controller (bank_with state heads t) st t.output)) }
{
    let told = Report {
        number: u32::from(Refusal::WrongRecord),
        count,
        answer,
    };
    Reached { state, heads, told }
}

// A replay that is refused as a whole, by the number of its look-up: no record done, the bank as it was.
pub fn refused(bank: Bank, why: u32) -> Replayed
    ensures { (s : List ℕ) → replayed_out result s ≡ replay_begun why (controller bank s []) }
{
    let told = Report {
        number: why,
        count: 0,
        answer: NO_ANSWER,
    };
    Replayed { bank, told }
}
