// Calls on a bank that is changed where it lies (`call.in-place`): each copies the bank, makes the call of the
// interface and stores the result back.
#![tactic(auto)]

ghost use Rattle.std.specs.Prelude.{ℕ, ◌≡◌, List};
ghost use Rattle.model.specs.declared.Call.TheVariants.{Read, Write};
ghost use Rattle.model.specs.Engine.{step};
ghost use Rattle.model.specs.Rings.{rings};
ghost use Rattle.answer.specs.Given.{controller};
ghost use Rattle.inplace.specs.Left.{left_in_place};

use bank::{Answer, Bank};
use model::Call;

// A register is read. No output is lent: whatever one is, it stays as it was.
pub fn read_in_place(bank: &mut Bank, store: &mut [u32], offset: u16) -> Answer
    ensures { (o : List ℕ) → left_in_place bank.new result store.new o ≡ step rings (controller bank.old store.old o) (Read offset) }
{
    let out = controller::read(*bank, store, offset);
    *bank = out.bank;
    out.answer
}

// A register is written. No output is lent, as above.
pub fn write_in_place(bank: &mut Bank, store: &mut [u32], offset: u16, v: u32) -> Answer
    ensures { (o : List ℕ) → left_in_place bank.new result store.new o ≡ step rings (controller bank.old store.old o) (Write offset v) }
{
    let out = controller::write(*bank, store, offset, v);
    *bank = out.bank;
    out.answer
}

// Any call.
pub fn step_in_place(bank: &mut Bank, store: &mut [u32], output: &mut [u32], call: Call) -> Answer
    ensures { left_in_place bank.new result store.new output.new ≡ step rings (controller bank.old store.old output.old) call }
{
    let out = controller::step(*bank, store, output, call);
    *bank = out.bank;
    out.answer
}
