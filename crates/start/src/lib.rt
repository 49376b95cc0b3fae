// The start of a transfer, as a decision (`start.tests`, `start.opens`), and the transfer that a command opens, which
// bursts use too. It knows command words, the state, and the flags of one device.
#![tactic(auto)]

ghost use Rattle.std.specs.Prelude.{◌≡◌, true, false, cond, not, ◌||◌, eqb};
ghost use Rattle.number.specs.Refusals.{told};
ghost use Rattle.bank.specs.Phases.{broadcast};
ghost use Rattle.bank.specs.Bits.{bit};
ghost use Rattle.model.specs.View.{Tables};
ghost use Rattle.model.specs.Commands.{Single, kind_of, is_entdaa, opened, begun};
ghost use Rattle.model.specs.Calls.{start};
ghost use Rattle.effect.specs.Effects.{effect_of, verdict, number};
ghost use Rattle.effect.specs.Seen.{Fronts, seen, flags_of};
ghost use Rattle.start.specs.Word.{command_of};

use bank::{Kind, Phase, State, Transfer};
use effect::{Effect, Op};
use number::Refusal;
use queues::Queue;
use ring::Bytes;

// The kind of the command with first word `w` and, where it has two, second word `x` (`command.ccc`).
#[tactic(auto, unfolding(model::specs::Commands::kind_of))]
fn kind_of(two: bool, w: u32, x: u32) -> Kind
    ensures { result ≡ kind_of (command_of two w x) }
{
    if !two {
        return Kind::Private;
    }
    if bank::bit(7, x) {
        return Kind::Direct;
    }
    Kind::Broadcast
}

// Whether the command is ENTDAA (`command.entdaa`).
#[tactic(auto, using(crate::proofs::Words::entdaa_is))]
fn is_entdaa(two: bool, w: u32, x: u32) -> bool
    ensures { result ≡ is_entdaa (command_of two w x) }
{
    two & (x % 0x100 == 7)
}

// The transfer that a command opens (`command.word`).
#[tactic(auto, using(crate::proofs::Words::opened_is))]
fn opened_by(two: bool, w: u32, x: u32, attached: bool) -> Transfer
    ensures { result ≡ opened (command_of two w x) attached }
{
    let n = bank::select(is_entdaa(two, w, x), 0, w / 0x100 % 0x1000);
    Transfer {
        kind: kind_of(two, w, x),
        header: bank::bit(21, w),
        length: Bytes(n),
        moved: Bytes(0),
        attached,
        part: 0,
    }
}

// The phase that a command begins: ENTDAA, a read or a write.
#[tactic(auto, using(crate::proofs::Words::assigns, crate::proofs::Words::reads, crate::proofs::Words::writes))]
fn begun_by(two: bool, w: u32, x: u32, attached: bool) -> Phase
    ensures { result ≡ begun (command_of two w x) attached }
{
    let t = opened_by(two, w, x, attached);
    if is_entdaa(two, w, x) {
        return Phase::Unrequested(t);
    }
    if bank::bit(0, w) {
        return Phase::Reading(t);
    }
    Phase::Writing(t)
}

// Whether the device of a command is attached now (`start.attached`); a broadcast has none (`command.broadcast`).
fn is_attached(k: Kind, flags: u8) -> bool
    ensures { result ≡ (broadcast k || bit 0 flags) }
{
    phases::is_broadcast(k) | bank::bit(0, flags as u32)
}

// The phase that a private command begins, with the flags of its device now.
pub fn private_phase(w: u32, flags: u8) -> Phase
    ensures { result ≡ begun (Single w) (broadcast (kind_of (Single w)) || bit 0 flags) }
{
    let attached = is_attached(kind_of(false, w, 0), flags);
    begun_by(false, w, 0, attached)
}

// Whether the first command of CMD is there with all its words (9 of `start.tests`).
fn is_whole(level: u32, two: bool) -> bool
    ensures { result ≡ cond (eqb level 0) false (cond (eqb level 1) (not two) true) }
{
    match level {
        0 => false,
        1 => !two,
        _ => true,
    }
}

// The tests of a start (`start.tests`): `w` and `x` are the first words of CMD.
#[tactic(auto, unfolding(model::specs::Calls::start))]
fn start_tests(st: State, w: u32, x: u32) -> Result<(), Refusal>
    ensures { (t : Tables) (f : Fronts) → w ≡ f.cmd.first → x ≡ f.cmd.second → told result ≡ number (start (seen st t f)) }
{
    effect::while_idle(st)?;
    if bank::bit(0, st.regs.ops as u32) {
        return Err(Refusal::NotInThisMode);
    }
    let two = bank::bit(22, w);
    if !is_whole(st.levels.cmd.0, two) {
        return Err(Refusal::NoCommand);
    }
    if is_entdaa(two, w, x) & !(st.levels.sdo.0 == 0) {
        return Err(Refusal::SdoNotEmpty);
    }
    Ok(())
}

// A start (`start.opens`): `w` and `x` are the first words of CMD, `flags` those of the device that `w` names.
pub fn start(st: State, w: u32, x: u32, flags: u8) -> Effect
    ensures { (t : Tables) (f : Fronts) → w ≡ f.cmd.first → x ≡ f.cmd.second → flags ≡ flags_of w t → effect_of result t ≡ verdict start (seen st t f) }
{
    if let Err(why) = start_tests(st, w, x) {
        return effect::refused(st, why);
    }
    let two = bank::bit(22, w);
    let attached = is_attached(kind_of(two, w, x), flags);
    let phase = begun_by(two, w, x, attached);
    let words = bank::select(two, 2, 1);
    effect::done(
        State { phase, ..st },
        w,
        0,
        effect::on(Queue::Cmd, true, Op::Take(words)),
    )
}
