// Sends and receives outside a burst, as decisions (`send.tests`, `send.byte`, `receive.tests`, `receive.byte`). It
// knows the state, and of SDO its first word.
#![tactic(auto)]

ghost use Rattle.std.specs.Prelude.{◌≡◌, ℕ, true};
ghost use Rattle.number.specs.Refusals.{told};
ghost use Rattle.bank.specs.Formed.{phase_ok};
ghost use Rattle.model.specs.View.{Tables};
ghost use Rattle.model.specs.Calls.{send, receive};
ghost use Rattle.effect.specs.Effects.{effect_of, verdict, number};
ghost use Rattle.effect.specs.Seen.{Fronts, seen};

use bank::{Phase, State};
use effect::{Effect, Op};
use number::Refusal;
use queues::Queue;

// The tests of a send (`send.tests`).
#[tactic(auto, unfolding(model::specs::Calls::send))]
fn send_tests(st: State) -> Result<(), Refusal>
    ensures { (t : Tables) (f : Fronts) → told result ≡ number (send (seen st t f)) }
{
    let p = st.phase;
    payload_bytes::byte_tests(st, phases::is_writing(p))?;
    let t = phases::transfer_of(p);
    if (t.moved.0 % 4 == 0) & (st.levels.sdo.0 == 0) {
        return Err(Refusal::SdoEmpty);
    }
    Ok(())
}

// A byte sent (`send.byte`): the first of a new SDO word, or the next of the part word. `word` is the first of SDO.
pub fn send(st: State, word: u32) -> Effect
    ensures { (t : Tables) (f : Fronts) → word ≡ f.sdo.first → effect_of result t ≡ verdict send (seen st t f) }
{
    let p = st.phase;
    if let Err(why) = send_tests(st) {
        return effect::refused(st, why);
    }
    let t = phases::transfer_of(p);
    let fresh = t.moved.0 % 4 == 0;
    let w = bank::select(fresh, word, t.part);
    let next = payload_bytes::advance(t, w % 0x1000000 * 0x100);
    let phase = Phase::Writing(next);
    effect::done(
        State { phase, ..st },
        w / 0x1000000 % 0x100,
        0,
        effect::on(Queue::Sdo, fresh, Op::Take(1)),
    )
}

// The tests of a receive (`receive.tests`).
#[tactic(auto, unfolding(model::specs::Calls::receive))]
fn receive_tests(st: State) -> Result<(), Refusal>
    ensures { (t : Tables) (f : Fronts) (byte : ℕ) → told result ≡ number (receive (seen st t f) byte) }
{
    let p = st.phase;
    payload_bytes::byte_tests(st, phases::is_reading(p))?;
    let t = phases::transfer_of(p);
    if (t.moved.0 % 4 == 3) & (st.caps.sdi.0 <= st.levels.sdi.0) {
        return Err(Refusal::NoRoom);
    }
    Ok(())
}

// A byte received (`receive.byte`): with the fourth of a word, the word goes to SDI.
pub fn receive(st: State, byte: u8) -> Effect
    requires { phase_ok st.phase ≡ true }
    ensures { (t : Tables) (f : Fronts) → effect_of result t ≡ verdict (λ v. receive v byte) (seen st t f) }
{
    let p = st.phase;
    if let Err(why) = receive_tests(st) {
        return effect::refused(st, why);
    }
    let t = phases::transfer_of(p);
    let fills = t.moved.0 % 4 == 3;
    let w = payload_bytes::gathered(t.part, t.moved.0, byte);
    let next = payload_bytes::advance(t, bank::select(fills, 0, w));
    let phase = Phase::Reading(next);
    effect::done(
        State { phase, ..st },
        0,
        0,
        effect::on(Queue::Sdi, fills, Op::Push(w)),
    )
}
