// The finish of a transfer in an open burst, as a decision (`burst.finish`): its word goes to the output, the next
// command's transfer opens. It knows the state and the tables, and no queue.
#![tactic(auto)]

ghost use Rattle.std.specs.Prelude.{◌≡◌, true, cond, ◌||◌, List, ℕ, ◌+◌, ◌-◌, ◌≤◌, length, get_or};
ghost use Rattle.number.specs.Refusals.{told};
ghost use Rattle.bank.specs.declared.Phase.TheVariants.{Idle};
ghost use Rattle.bank.specs.Bits.{bit, bits};
ghost use Rattle.bank.specs.Phases.{broadcast};
ghost use Rattle.bank.specs.Bursts.{bursting, place};
ghost use Rattle.bank.specs.Formed.{open_ok};
ghost use Rattle.model.specs.Commands.{Single, kind_of, begun};
ghost use Rattle.model.specs.Bursts.{output_first, burst_finish};
ghost use Rattle.model.specs.View.{tables};
ghost use Rattle.effect.specs.Effects.{effect_of, verdict, number};
ghost use Rattle.effect.specs.Seen.{Fronts, seen};

use bank::{Phase, State};
use effect::{Effect, Table};
use number::Refusal;

// The tests of a finish: 13 for the output, then 5, 7 and 14 of `finish.tests`.
#[tactic(auto, unfolding(model::specs::Bursts::burst_finish, model::specs::Bursts::short_in_burst))]
fn finish_tests(st: State, commands: &[u32; 16], len: usize, code: u8) -> Result<(), Refusal>
    requires { bursting st.control ≡ true }
    ensures { (a p o : List ℕ) (f : Fronts) → length o ≡ len → (let v = seen st (tables a commands.now p o) f in told result ≡ number (output_first v (burst_finish v code))) }
{
    let p = st.phase;
    trigger::output_tests(st.regs, commands, len)?;
    effect::while_open(st)?;
    if !endings::is_allowed(p, code) {
        return Err(Refusal::EndingNotAllowed);
    }
    Ok(())
}

// Where the burst stands after the transfer of command number `n`, counted from 1.
fn after(last: bool, n: u8) -> u8
    requires { n ≤ 15 }
    ensures { result ≡ cond last 0 (n + 1) }
{
    if last { 0 } else { n + 1 }
}

// The phase after a finish: the transfer of the next command, which notes attachment now, or none.
fn next_phase(last: bool, flags: &[u8; 128], w: u32) -> Phase
    ensures { result ≡ cond last Idle (begun (Single w) (broadcast (kind_of (Single w)) || bit 0 (get_or flags.now (bits 7 1 w) 0))) }
{
    if last {
        return Phase::Idle;
    }
    let at = (w / 2 % 0x80) as usize;
    start::private_phase(w, flags[at])
}

// The open transfer ends with a code: the word of a read goes to the output, and the next command's transfer opens
// (`burst.finish`).
pub fn finish(st: State, flags: &[u8; 128], commands: &[u32; 16], len: usize, code: u8) -> Effect
    requires { (bursting st.control ≡ true) × (open_ok st.control st.regs st.phase commands.now ≡ true) }
    ensures { (p o : List ℕ) (f : Fronts) → length o ≡ len → (let t = tables flags.now commands.now p o in effect_of result t ≡ verdict (λ v. output_first v (burst_finish v code)) (seen st t f)) }
{
    let p = st.phase;
    if let Err(why) = finish_tests(st, commands, len, code) {
        return effect::refused(st, why);
    }
    let t = phases::transfer_of(p);
    let k = st.control.burst as usize;
    let passed = k - 1;
    let place = burst_commands::reads_in(commands, passed) as u32;
    let last = burst_commands::span_of(st.regs) <= k;
    let w = commands[k];
    let phase = next_phase(last, flags, w);
    let control = trigger::burst_at(st.control, after(last, st.control.burst));
    let word = effect::table_if(phases::is_reading(p), Table::Output(place, t.part));
    effect::done_with(
        State {
            control,
            phase,
            ..st
        },
        0,
        0,
        None,
        word,
    )
}
