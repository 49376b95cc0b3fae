// Register writes that keep a value, as decisions, in the bits that the map names (`map.bits`). Each knows its own
// register, and whether an open burst holds it.
#![tactic(auto)]

ghost use Rattle.std.specs.Prelude.{◌≡◌, cond, ◌%◌, ◌^◌, eqb};
ghost use Rattle.number.specs.Refusals.{told};
ghost use Rattle.registers.specs.declared.Register.TheVariants.{Scratch, IrqMask, Ops, IbiConfig, DevChar, OffloadCmd, OffloadSdo};
ghost use Rattle.bank.specs.Bits.{word_if};
ghost use Rattle.bank.specs.Bursts.{bursting};
ghost use Rattle.model.specs.View.{Tables};
ghost use Rattle.model.specs.Decision.{keep_all, unchanged, ◌with_regs◌};
ghost use Rattle.model.specs.Registers.{row, write};
ghost use Rattle.effect.specs.Effects.{tables_by, effect_of, verdict};
ghost use Rattle.effect.specs.Seen.{Fronts, seen};

use bank::{Control, Regs, State};
use effect::{Effect, Table};
use number::Refusal;

// A write that changes no more than the registers.
fn put_regs(st: State, regs: Regs) -> Effect
    ensures { (t : Tables) (f : Fronts) → effect_of result t ≡ (unchanged (seen st t f) with_regs regs) }
{
    effect::done(State { regs, ..st }, 0, 0, None)
}

// SCRATCH (`scratch.keeps`).
#[tactic(auto, unfolding(effect::specs::Effects::verdict))]
pub fn write_scratch(st: State, x: u32) -> Effect
    ensures { (t : Tables) (f : Fronts) → effect_of result t ≡ verdict (λ v. write (row Scratch) v x) (seen st t f) }
{
    let regs = Regs {
        scratch: x,
        ..st.regs
    };
    put_regs(st, regs)
}

// IRQ_MASK (`mask.keeps`).
#[tactic(auto, unfolding(effect::specs::Effects::verdict))]
pub fn write_mask(st: State, x: u32) -> Effect
    ensures { (t : Tables) (f : Fronts) → effect_of result t ≡ verdict (λ v. write (row IrqMask) v x) (seen st t f) }
{
    let regs = Regs {
        mask: (x % 0x100) as u8,
        ..st.regs
    };
    put_regs(st, regs)
}

// IBI_CONFIG (`ibi-config.keeps`).
#[tactic(auto, unfolding(effect::specs::Effects::verdict))]
pub fn write_config(st: State, x: u32) -> Effect
    ensures { (t : Tables) (f : Fronts) → effect_of result t ≡ verdict (λ v. write (row IbiConfig) v x) (seen st t f) }
{
    let regs = Regs {
        config: (x % 4) as u8,
        ..st.regs
    };
    put_regs(st, regs)
}

// The test of a write to OPS or an offload memory: 6 while a burst is open, which runs by these (`burst.holds`).
fn burst_tests(c: Control) -> Result<(), Refusal>
    ensures { told result ≡ word_if (bursting c) 6 }
{
    if burst_commands::is_bursting(c) {
        Err(Refusal::TransferOpen)
    } else {
        Ok(())
    }
}

// OPS (`ops.keeps`).
pub fn write_ops(st: State, x: u32) -> Effect
    ensures { (t : Tables) (f : Fronts) → effect_of result t ≡ verdict (λ v. write (row Ops) v x) (seen st t f) }
{
    if let Err(why) = burst_tests(st.control) {
        return effect::refused(st, why);
    }
    let regs = Regs {
        ops: (x % 0x80) as u8,
        ..st.regs
    };
    put_regs(st, regs)
}

// DEV_CHAR: `dev-char.select`, `dev-char.flags`.
#[tactic(auto, unfolding(effect::specs::Effects::verdict, effect::specs::Effects::tables_by))]
pub fn write_device(st: State, x: u32) -> Effect
    ensures { (t : Tables) (f : Fronts) → effect_of result t ≡ verdict (λ v. write (row DevChar) v x) (seen st t f) }
{
    let address = x / 0x200 % 0x80;
    let regs = Regs {
        selected: address as u8,
        ..st.regs
    };
    let flags = Table::Flags(address, (x / 2 % 8) as u8);
    effect::done_with(
        State { regs, ..st },
        0,
        0,
        None,
        effect::table_if(bank::bit(8, x), flags),
    )
}

// A write of one word of an offload memory (`offload.keeps`).
fn put_entry(st: State, entry: Table) -> Effect
    ensures { (x : Tables) → effect_of result x ≡ record { value = 0; number = word_if (bursting st.control) 6; regs = st.regs; control = st.control; phase = st.phase; tables = cond (bursting st.control) x (tables_by entry x); ops = keep_all } }
{
    match burst_tests(st.control) {
        Err(why) => effect::refused(st, why),
        Ok(()) => effect::done_with(st, 0, 0, None, entry),
    }
}

// An offload command (`offload.keeps`).
#[tactic(auto, unfolding(effect::specs::Effects::verdict, effect::specs::Effects::tables_by))]
pub fn write_offload_cmd(st: State, i: u32, x: u32) -> Effect
    ensures { (t : Tables) (f : Fronts) → effect_of result t ≡ verdict (λ v. write (row (OffloadCmd i)) v x) (seen st t f) }
{
    put_entry(st, Table::Command(i, x))
}

// An offload data word (`offload.keeps`).
#[tactic(auto, unfolding(effect::specs::Effects::verdict, effect::specs::Effects::tables_by))]
pub fn write_offload_sdo(st: State, i: u32, x: u32) -> Effect
    ensures { (t : Tables) (f : Fronts) → effect_of result t ≡ verdict (λ v. write (row (OffloadSdo i)) v x) (seen st t f) }
{
    put_entry(st, Table::Payload(i, x))
}
