// A byte sent and a byte received in an open burst, as decisions (`burst.events`, `burst.bytes`). They know the state
// and the tables, and no queue.
#![tactic(auto)]

ghost use Rattle.std.specs.Prelude.{◌≡◌, true, List, ℕ, ◌-◌, ◌≤◌, length, get_or};
ghost use Rattle.number.specs.Refusals.{told};
ghost use Rattle.bank.specs.Bursts.{writes_in, bursting, place};
ghost use Rattle.bank.specs.Formed.{open_ok};
ghost use Rattle.model.specs.Bursts.{output_first, burst_send, burst_receive};
ghost use Rattle.model.specs.View.{tables};
ghost use Rattle.effect.specs.Effects.{effect_of, verdict, number};
ghost use Rattle.effect.specs.Seen.{Fronts, seen};

use bank::{Control, Phase, State};
use effect::Effect;
use number::Refusal;

// The offload data word of the open write, told by the writes before it (`burst.bytes`).
#[tactic(auto, unfolding(bank::specs::Bursts::reads_in))]
fn data_word(c: Control, commands: &[u32; 16], payloads: &[u32; 16]) -> u32
    requires { c.burst ≤ 15 }
    ensures { result ≡ get_or payloads.now (writes_in (place c) commands.now) 0 }
{
    let n = c.burst as usize;
    if n == 0 {
        return payloads[0];
    }
    let k = n - 1;
    payloads[k - burst_commands::reads_in(commands, k)]
}

// The tests of a send: 13 for the output, then `send.tests` without 12.
#[tactic(auto, unfolding(model::specs::Bursts::burst_send, model::specs::Bursts::short_in_burst))]
fn send_tests(st: State, commands: &[u32; 16], len: usize) -> Result<(), Refusal>
    requires { bursting st.control ≡ true }
    ensures { (a p o : List ℕ) (f : Fronts) → length o ≡ len → (let v = seen st (tables a commands.now p o) f in told result ≡ number (output_first v (burst_send v))) }
{
    let p = st.phase;
    trigger::output_tests(st.regs, commands, len)?;
    payload_bytes::byte_tests(st, phases::is_writing(p))
}

// A byte sent: of the data word, as many places from its top as bytes have moved.
pub fn send(st: State, commands: &[u32; 16], payloads: &[u32; 16], len: usize) -> Effect
    requires { (bursting st.control ≡ true) × (open_ok st.control st.regs st.phase commands.now ≡ true) }
    ensures { (a o : List ℕ) (f : Fronts) → length o ≡ len → (let t = tables a commands.now payloads.now o in effect_of result t ≡ verdict (λ v. output_first v (burst_send v)) (seen st t f)) }
{
    let p = st.phase;
    if let Err(why) = send_tests(st, commands, len) {
        return effect::refused(st, why);
    }
    let t = phases::transfer_of(p);
    let w = data_word(st.control, commands, payloads);
    let byte = w / payload_bytes::weight(t.moved.0) % 0x100;
    let phase = Phase::Writing(payload_bytes::advance(t, 0));
    effect::done(State { phase, ..st }, byte, 0, None)
}

// The tests of a receive: 13 for the output, then `receive.tests` without 13.
#[tactic(auto, unfolding(model::specs::Bursts::burst_receive, model::specs::Bursts::short_in_burst))]
fn receive_tests(st: State, commands: &[u32; 16], len: usize) -> Result<(), Refusal>
    requires { bursting st.control ≡ true }
    ensures { (a p o : List ℕ) (f : Fronts) (byte : ℕ) → length o ≡ len → (let v = seen st (tables a commands.now p o) f in told result ≡ number (output_first v (burst_receive v byte))) }
{
    let p = st.phase;
    trigger::output_tests(st.regs, commands, len)?;
    payload_bytes::byte_tests(st, phases::is_reading(p))
}

// A byte received: it stays in the part word until the finish.
pub fn receive(st: State, commands: &[u32; 16], len: usize, byte: u8) -> Effect
    requires { (bursting st.control ≡ true) × (open_ok st.control st.regs st.phase commands.now ≡ true) }
    ensures { (a p o : List ℕ) (f : Fronts) → length o ≡ len → (let t = tables a commands.now p o in effect_of result t ≡ verdict (λ v. output_first v (burst_receive v byte)) (seen st t f)) }
{
    let p = st.phase;
    if let Err(why) = receive_tests(st, commands, len) {
        return effect::refused(st, why);
    }
    let t = phases::transfer_of(p);
    let w = payload_bytes::gathered(t.part, t.moved.0, byte);
    let phase = Phase::Reading(payload_bytes::advance(t, w));
    effect::done(State { phase, ..st }, 0, 0, None)
}
