// Address requests and address takes of ENTDAA, as decisions (`request.tests`, `request.opens`, `take.tests`,
// `take.address`). It knows the state, and of SDO its first word.
#![tactic(auto)]

ghost use Rattle.std.specs.Prelude.{◌≡◌, cond, ℕ, ◌/◌, ◌%◌, ◌^◌, eqb};
ghost use Rattle.std.specs.Int.Count.{ones};
ghost use Rattle.bank.specs.declared.Phase.TheVariants.{Requested, Answered};
ghost use Rattle.number.specs.Names as number;
ghost use Rattle.number.specs.Refusals.{told};
ghost use Rattle.model.specs.View.{Tables};
ghost use Rattle.model.specs.Calls.{asked, request, take_address};
ghost use Rattle.effect.specs.Effects.{effect_of, verdict, number};
ghost use Rattle.effect.specs.Seen.{Fronts, seen};

use bank::{Control, Phase, State, Transfer};
use effect::{Effect, Op};
use number::Refusal;
use queues::Queue;

// Pending bit 7, set where `b` holds (`source.address`).
fn ask(c: Control, b: bool) -> Control
    ensures { result ≡ asked b c }
{
    Control {
        daapending: c.daapending | b,
        ..c
    }
}

// The tests of an address request (`request.tests`).
#[tactic(auto, unfolding(model::specs::Calls::request))]
fn request_tests(st: State) -> Result<(), Refusal>
    ensures { (t : Tables) (f : Fronts) (v w : ℕ) → told result ≡ number (request (seen st t f) v w) }
{
    let p = st.phase;
    effect::while_open(st)?;
    if !phases::is_assigning(p) | phases::is_requested(p) {
        return Err(Refusal::NotThisKind);
    }
    if bank::room(st.caps.sdi.0, st.levels.sdi.0) < 2 {
        return Err(Refusal::NoRoom);
    }
    Ok(())
}

// An address request, whose two words go to SDI (`request.opens`).
pub fn request(st: State, x: u32, w: u32) -> Effect
    ensures { (t : Tables) (f : Fronts) → effect_of result t ≡ verdict (λ v. request v x w) (seen st t f) }
{
    let p = st.phase;
    if let Err(why) = request_tests(st) {
        return effect::refused(st, why);
    }
    let phase = Phase::Requested(phases::transfer_of(p));
    let control = ask(st.control, st.levels.sdo.0 == 0);
    effect::done(
        State {
            control,
            phase,
            ..st
        },
        0,
        0,
        effect::on(Queue::Sdi, true, Op::Push2(x, w)),
    )
}

// The tests of an address take (`take.tests`).
#[tactic(auto, unfolding(model::specs::Calls::take_address))]
fn take_tests(st: State) -> Result<(), Refusal>
    ensures { (t : Tables) (f : Fronts) → told result ≡ number (take_address (seen st t f)) }
{
    let p = st.phase;
    effect::while_open(st)?;
    if !phases::is_requested(p) {
        return Err(Refusal::NotThisKind);
    }
    if st.levels.sdo.0 == 0 {
        return Err(Refusal::SdoEmpty);
    }
    Ok(())
}

// Whether address and parity bit, 31:24, have an odd number of ones (`take.address`).
fn is_odd(w: u32) -> bool
    ensures { result ≡ eqb (ones (w / 2 ^ 24) % 2) 1 }
{
    (w / 0x1000000).count_ones() % 2 == 1
}

// The phase after an address was taken: with a wrong parity bit the request stays open.
fn replied(odd: bool, t: Transfer) -> Phase
    ensures { result ≡ cond odd (Answered t) (Requested t) }
{
    if odd {
        Phase::Answered(t)
    } else {
        Phase::Requested(t)
    }
}

// The number of a take that is made: 19 for a wrong parity bit.
fn parity_number(odd: bool) -> u32
    ensures { result ≡ cond odd 0 number.wrong_parity }
{
    if odd {
        0
    } else {
        u32::from(Refusal::WrongParity)
    }
}

// The address for the open request, taken from SDO, whose first word is `word` (`take.address`).
pub fn take_address(st: State, word: u32) -> Effect
    ensures { (t : Tables) (f : Fronts) → word ≡ f.sdo.first → effect_of result t ≡ verdict take_address (seen st t f) }
{
    let p = st.phase;
    if let Err(why) = take_tests(st) {
        return effect::refused(st, why);
    }
    let odd = is_odd(word);
    let phase = replied(odd, phases::transfer_of(p));
    let control = ask(st.control, !odd & (st.levels.sdo.0 <= 1));
    effect::done(
        State {
            control,
            phase,
            ..st
        },
        word / 0x2000000,
        parity_number(odd),
        effect::on(Queue::Sdo, true, Op::Take(1)),
    )
}
