// Interrupt requests, as a decision (`interrupt.tests`, `interrupt.entry`), of an address that passed 18. It knows the
// state and the flags of that device.
#![tactic(auto)]

ghost use Rattle.std.specs.Prelude.{◌≡◌, ℕ, slice_index};
ghost use Rattle.number.specs.Refusals.{told};
ghost use Rattle.model.specs.View.{Tables};
ghost use Rattle.model.specs.Commands.{entry_word};
ghost use Rattle.model.specs.Calls.{interrupted, interrupt};
ghost use Rattle.effect.specs.Effects.{effect_of, verdict, number};
ghost use Rattle.effect.specs.Seen.{Fronts, seen};

use bank::{Control, State};
use effect::{Effect, Op};
use number::Refusal;
use queues::Queue;

// The tests of an interrupt request from a device with the flags `f` (`interrupt.tests`).
#[tactic(auto, unfolding(model::specs::Calls::interrupt))]
fn interrupt_tests(st: State, f: u8) -> Result<(), Refusal>
    ensures { (t : Tables) (x : Fronts) (address byte : ℕ) → f ≡ slice_index t.flags address → told result ≡ number (interrupt (seen st t x) address byte) }
{
    effect::while_idle(st)?;
    let config = st.regs.config as u32;
    let flags = f as u32;
    if !bank::bit(1, config) {
        return Err(Refusal::NotHeard);
    }
    if !(bank::bit(0, config) & bank::bit(0, flags) & bank::bit(1, flags)) {
        return Err(Refusal::NotAcknowledged);
    }
    if st.caps.ibi.0 <= st.levels.ibi.0 {
        return Err(Refusal::NoRoom);
    }
    Ok(())
}

// The entry of an interrupt (`entry.word`).
#[tactic(auto, unfolding(model::specs::Commands::entry_word))]
fn entry(address: u8, byte: u8, sync: u8) -> u32
    ensures { result ≡ entry_word address byte sync }
{
    address as u32 * 0x20000 + byte as u32 * 0x100 + sync as u32
}

// An interrupt accepted: the next sync of entries, and pending bit 6 (`source.interrupt`).
fn accept(c: Control) -> Control
    ensures { result ≡ interrupted c }
{
    Control {
        ibisync: c.ibisync.wrapping_add(1),
        ibipending: true,
        ..c
    }
}

// An interrupt request of the device at an address, which has the flags `f`; its entry, with the data byte of a device
// that sends one, is the value (`interrupt.entry`).
pub fn interrupt(st: State, f: u8, address: u8, byte: u8) -> Effect
    ensures { (t : Tables) (x : Fronts) → f ≡ slice_index t.flags address → effect_of result t ≡ verdict (λ v. interrupt v address byte) (seen st t x) }
{
    if let Err(why) = interrupt_tests(st, f) {
        return effect::refused(st, why);
    }
    let data = bank::select(bank::bit(2, f as u32), byte, 0);
    let w = entry(address, data, st.control.ibisync);
    let control = accept(st.control);
    effect::done(
        State { control, ..st },
        w,
        0,
        effect::on(Queue::Ibi, true, Op::Push(w)),
    )
}
