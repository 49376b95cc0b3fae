// The trigger of an offload burst, as a decision (`trigger.tests`, `trigger.opens`), and what the events of a burst
// share with it: the test of the output, and where a burst stands. It knows the state and the tables.
#![tactic(auto)]

ghost use Rattle.std.specs.Prelude.{◌≡◌, cond, List, ℕ, ltb, length};
ghost use Rattle.number.specs.Names as number;
ghost use Rattle.number.specs.Refusals.{told, told_or};
ghost use Rattle.bank.specs.Bursts.{span, reads_in};
ghost use Rattle.model.specs.Bursts.{burst_at, trigger};
ghost use Rattle.model.specs.View.{tables};
ghost use Rattle.effect.specs.Effects.{effect_of, verdict, number};
ghost use Rattle.effect.specs.Seen.{Fronts, seen};

use bank::{Control, Regs, State};
use effect::Effect;
use number::Refusal;

// Whether an output of `len` words is too short for the reads of the burst (`burst.output`).
pub fn is_output_short(g: Regs, commands: &[u32; 16], len: usize) -> bool
    ensures { result ≡ ltb len (reads_in (span g) commands.now) }
{
    len < burst_commands::reads_in(commands, burst_commands::span_of(g))
}

// The test of the output: 13 where it is too short (`burst.output`).
pub fn output_tests(g: Regs, commands: &[u32; 16], len: usize) -> Result<(), Refusal>
    ensures { (n : ℕ) → told_or n result ≡ cond (ltb len (reads_in (span g) commands.now)) number.no_room n }
{
    if is_output_short(g, commands, len) {
        Err(Refusal::NoRoom)
    } else {
        Ok(())
    }
}

// The control bits where the burst stands at command `n`, counted from 1; 0 closes it.
pub fn burst_at(c: Control, n: u8) -> Control
    ensures { result ≡ burst_at n c }
{
    Control { burst: n, ..c }
}

// The tests of a trigger (`trigger.tests`).
#[tactic(auto, unfolding(model::specs::Bursts::trigger))]
fn trigger_tests(st: State, commands: &[u32; 16], len: usize) -> Result<(), Refusal>
    ensures { (a p o : List ℕ) (f : Fronts) → length o ≡ len → told result ≡ number (trigger (seen st (tables a commands.now p o) f)) }
{
    effect::while_idle(st)?;
    if !burst_commands::is_offload(st.regs) {
        return Err(Refusal::NotInThisMode);
    }
    let span = burst_commands::span_of(st.regs);
    if span == 0 {
        return Err(Refusal::BurstHasNoCommands);
    }
    if !burst_commands::all_carried(commands, span) {
        return Err(Refusal::NotCarried);
    }
    output_tests(st.regs, commands, len)
}

// A burst begins with the transfer of its first command (`trigger.opens`).
pub fn trigger(st: State, flags: &[u8; 128], commands: &[u32; 16], len: usize) -> Effect
    ensures { (p o : List ℕ) (f : Fronts) → length o ≡ len → (let t = tables flags.now commands.now p o in effect_of result t ≡ verdict trigger (seen st t f)) }
{
    if let Err(why) = trigger_tests(st, commands, len) {
        return effect::refused(st, why);
    }
    let w = commands[0];
    let at = (w / 2 % 0x80) as usize;
    let phase = start::private_phase(w, flags[at]);
    let control = burst_at(st.control, 1);
    effect::done(
        State {
            control,
            phase,
            ..st
        },
        0,
        0,
        None,
    )
}
