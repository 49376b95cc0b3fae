// Every event in an open burst, as a decision: the three that run it, of `burst`, and those that it refuses
// (`burst.events`).
#![tactic(auto)]

ghost use Rattle.std.specs.Prelude.{◌≡◌, true, false, cond, List, ℕ, ltb, length};
ghost use Rattle.number.specs.Names as number;
ghost use Rattle.number.specs.Refusals.{number_of};
ghost use Rattle.bank.specs.Bursts.{span, reads_in, bursting};
ghost use Rattle.bank.specs.Formed.{open_ok};
ghost use Rattle.model.specs.View.{Tables};
ghost use Rattle.model.specs.Decision.{unchanged, ◌with_number◌};
ghost use Rattle.model.specs.Laws.{is_access};
ghost use Rattle.model.specs.Bursts.{misfit, decide};
ghost use Rattle.tables.specs.Shown.{tables_seen};
ghost use Rattle.effect.specs.Effects.{effect_of, verdict};
ghost use Rattle.effect.specs.Seen.{Fronts, seen};

use bank::State;
use effect::Effect;
use model::Call;
use number::Refusal;

// An event that an open burst refuses: with 13 where the output is too short (`burst.output`), else 5 in reset, else
// `n`. Small, so that it is inlined everywhere: an effect that a callee writes through a pointer stays in memory.
pub fn bar(st: State, lacks: bool, n: u32) -> Effect
    ensures { (t : Tables) (f : Fronts) → (let v = seen st t f in effect_of result t ≡ (unchanged v with_number cond lacks number.no_room (cond st.control.held number.held_in_reset n))) }
{
    let held = u32::from(Refusal::HeldInReset);
    let short = u32::from(Refusal::NoRoom);
    let m = bank::select(st.control.held, held, n);
    effect::refuse(st, bank::select(lacks, short, m))
}

// The same by what it looks at: the output of `len` words, and why the event is refused where no test comes before.
fn bar_event(st: State, commands: &[u32; 16], len: usize, why: Refusal) -> Effect
    ensures { (t : Tables) (f : Fronts) → (let v = seen st t f in effect_of result t ≡ (unchanged v with_number cond (ltb len (reads_in (span st.regs) commands.now)) number.no_room (cond st.control.held number.held_in_reset (number_of why)))) }
{
    let lacks = trigger::is_output_short(st.regs, commands, len);
    bar(st, lacks, u32::from(why))
}

// Any event that passes 18. What is given for an access is not promised: none comes here.
pub fn event(st: State, t: tables::Tables, len: usize, call: Call) -> Effect
    requires { (bursting st.control ≡ true) × (open_ok st.control st.regs st.phase t.commands.now ≡ true) }
    ensures { (o : List ℕ) (f : Fronts) → length o ≡ len → is_access call ≡ false → misfit call ≡ false → (let s = tables_seen t.entry o in effect_of result s ≡ verdict (λ v. decide v call) (seen st s f)) }
{
    match call {
        Call::Read(_) | Call::Write(_, _) => effect::refused(st, Refusal::NoRoom),
        Call::Start => bar_event(st, t.commands, len, Refusal::TransferOpen),
        Call::Send => burst_bytes::send(st, t.commands, t.payloads, len),
        Call::Receive(byte) => burst_bytes::receive(st, t.commands, len, byte),
        Call::Finish(code) => burst_finish::finish(st, t.flags, t.commands, len, code),
        Call::Interrupt(_, _) => bar_event(st, t.commands, len, Refusal::TransferOpen),
        Call::Request(_, _) => bar_event(st, t.commands, len, Refusal::NotThisKind),
        Call::Take => bar_event(st, t.commands, len, Refusal::NotThisKind),
        Call::Trigger => bar_event(st, t.commands, len, Refusal::TransferOpen),
    }
}
