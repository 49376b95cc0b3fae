// Register writes that move queues or control bits, as decisions: ENABLE, IRQ_PENDING, CMD and SDO. Each knows its own
// register.
#![tactic(auto)]

ghost use Rattle.std.specs.Prelude.{◌≡◌, true, false};
ghost use Rattle.number.specs.Refusals.{told};
ghost use Rattle.registers.specs.declared.Register.TheVariants.{Enable, IrqPending, CmdFifo, SdoFifo};
ghost use Rattle.model.specs.View.{Tables};
ghost use Rattle.model.specs.Registers.{acknowledged, enable, row, write};
ghost use Rattle.effect.specs.Effects.{effect_of, verdict};
ghost use Rattle.effect.specs.Seen.{Fronts, seen};
ghost use Rattle.write_control.specs.Numbers.{push_number};

use bank::{Control, Phase, State};
use effect::{Effect, Op};
use number::Refusal;
use queues::Queue;

// A 1 clears the pending bit at its place (`pending.clear`).
fn acknowledge(c: Control, x: u32) -> Control
    ensures { result ≡ acknowledged x c }
{
    Control {
        cmdrpending: !bank::bit(5, x) & c.cmdrpending,
        ibipending: !bank::bit(6, x) & c.ibipending,
        daapending: !bank::bit(7, x) & c.daapending,
        ..c
    }
}

#[tactic(auto, unfolding(effect::specs::Effects::verdict))]
pub fn write_pending(st: State, x: u32) -> Effect
    ensures { (t : Tables) (f : Fronts) → effect_of result t ≡ verdict (λ v. write (row IrqPending) v x) (seen st t f) }
{
    let control = acknowledge(st.control, x);
    effect::done(State { control, ..st }, 0, 0, None)
}

// ENABLE written 1 (`enable.reset`): the registers stay.
#[tactic(auto, unfolding(model::specs::Registers::enable))]
fn reset(st: State) -> Effect
    ensures { (t : Tables) (f : Fronts) → effect_of result t ≡ enable (seen st t f) true }
{
    let control = bank::cleared_control(true);
    let phase = Phase::Idle;
    effect::done(
        State {
            control,
            phase,
            ..st
        },
        0,
        0,
        effect::clear_all(),
    )
}

// ENABLE written 0 (`enable.release`).
#[tactic(auto, unfolding(model::specs::Registers::enable))]
fn release(st: State) -> Effect
    ensures { (t : Tables) (f : Fronts) → effect_of result t ≡ enable (seen st t f) false }
{
    let control = Control {
        held: false,
        ..st.control
    };
    effect::done(State { control, ..st }, 0, 0, None)
}

pub fn write_enable(st: State, x: u32) -> Effect
    ensures { (t : Tables) (f : Fronts) → effect_of result t ≡ verdict (λ v. write (row Enable) v x) (seen st t f) }
{
    if bank::bit(0, x) {
        reset(st)
    } else {
        release(st)
    }
}

// The tests of a push: 5 in reset, 1 where the queue is full (`cmd.push`, `sdo.push`).
fn push_tests(held: bool, cap: u32, level: u32) -> Result<(), Refusal>
    ensures { told result ≡ push_number held cap level }
{
    if held {
        return Err(Refusal::HeldInReset);
    }
    if cap <= level {
        return Err(Refusal::DroppedFull);
    }
    Ok(())
}

// A push to CMD (`cmd.push`).
pub fn write_cmd(st: State, x: u32) -> Effect
    ensures { (t : Tables) (f : Fronts) → effect_of result t ≡ verdict (λ v. write (row CmdFifo) v x) (seen st t f) }
{
    match push_tests(st.control.held, st.caps.cmd.0, st.levels.cmd.0) {
        Err(why) => effect::refused(st, why),
        Ok(()) => effect::done(st, 0, 0, effect::on(Queue::Cmd, true, Op::Push(x))),
    }
}

// A push to SDO (`sdo.push`), which clears pending bit 7 (`source.address`).
pub fn write_sdo(st: State, x: u32) -> Effect
    ensures { (t : Tables) (f : Fronts) → effect_of result t ≡ verdict (λ v. write (row SdoFifo) v x) (seen st t f) }
{
    if let Err(why) = push_tests(st.control.held, st.caps.sdo.0, st.levels.sdo.0) {
        return effect::refused(st, why);
    }
    let control = Control {
        daapending: false,
        ..st.control
    };
    effect::done(
        State { control, ..st },
        0,
        0,
        effect::on(Queue::Sdo, true, Op::Push(x)),
    )
}
