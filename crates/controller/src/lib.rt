// The interface: `step` over any call, and each call by its name (`call.step`). Any bank, store, output and argument is
// allowed, and every call ends with one answer (`answer.every`). The output takes the words that a burst reads; without
// a burst it may be empty.
#![tactic(auto)]

ghost use Rattle.std.specs.Prelude.{◌≡◌, ℕ, List, []};
ghost use Rattle.model.specs.declared.Call.TheVariants.{Read, Write, Start, Send, Receive, Finish, Interrupt, Request, Take, Trigger};
ghost use Rattle.model.specs.View.{tables};
ghost use Rattle.model.specs.Engine.{step};
ghost use Rattle.model.specs.Rings.{rings};
ghost use Rattle.answer.specs.Given.{controller, given_out};
ghost use Rattle.controller.specs.Outs.{next_out};

use answer::{Next, Out};
use bank::Bank;
use model::Call;

// The bank that is put together from a state, its heads and its tables.
fn with_tables(y: Next, flags: [u8; 128], commands: [u32; 16], payloads: [u32; 16]) -> Out
    ensures { result ≡ next_out y (tables flags commands payloads []) }
{
    let bank = Bank {
        state: y.state,
        heads: y.heads,
        flags,
        commands,
        payloads,
    };
    Out {
        bank,
        answer: y.answer,
    }
}

// Any call.
pub fn step(b: Bank, store: &mut [u32], output: &mut [u32], call: Call) -> Out
    ensures { given_out result store.new output.new ≡ step rings (controller b store.old output.old) call }
{
    let n = faults::fault(b, store.len());
    let mut f = b.flags;
    let mut c = b.commands;
    let mut p = b.payloads;
    let y = serve::step_parts(
        b.state, b.heads, &mut f, &mut c, &mut p, store, output, n, call,
    );
    with_tables(y, f, c, p)
}

// A register is read; the value is what it shows or, of CMDR, SDI and IBI, the word taken.
pub fn read(b: Bank, store: &mut [u32], offset: u16) -> Out
    ensures { (o : List ℕ) → given_out result store.new o ≡ step rings (controller b store.old o) (Read offset) }
{
    let mut none = [0u32; 0];
    step(b, store, &mut none, Call::Read(offset))
}

// A register is written.
pub fn write(b: Bank, store: &mut [u32], offset: u16, v: u32) -> Out
    ensures { (o : List ℕ) → given_out result store.new o ≡ step rings (controller b store.old o) (Write offset v) }
{
    let mut none = [0u32; 0];
    step(b, store, &mut none, Call::Write(offset, v))
}

// The first command of CMD starts; the value is its first word (`start.opens`).
pub fn start(b: Bank, store: &mut [u32], output: &mut [u32]) -> Out
    ensures { given_out result store.new output.new ≡ step rings (controller b store.old output.old) Start }
{
    step(b, store, output, Call::Start)
}

// A payload byte is sent; it is the value (`send.byte`).
pub fn send(b: Bank, store: &mut [u32], output: &mut [u32]) -> Out
    ensures { given_out result store.new output.new ≡ step rings (controller b store.old output.old) Send }
{
    step(b, store, output, Call::Send)
}

// A payload byte is received (`receive.byte`).
pub fn receive(b: Bank, store: &mut [u32], output: &mut [u32], byte: u8) -> Out
    ensures { given_out result store.new output.new ≡ step rings (controller b store.old output.old) (Receive byte) }
{
    step(b, store, output, Call::Receive(byte))
}

// The open transfer ends with a code; the value is its receipt (`finish.receipt`), in a burst 0 (`burst.finish`).
pub fn finish(b: Bank, store: &mut [u32], output: &mut [u32], code: u8) -> Out
    ensures { given_out result store.new output.new ≡ step rings (controller b store.old output.old) (Finish code) }
{
    step(b, store, output, Call::Finish(code))
}

// A device asks for an interrupt; the value is the entry (`interrupt.entry`).
pub fn interrupt(b: Bank, store: &mut [u32], output: &mut [u32], address: u8, byte: u8) -> Out
    ensures { given_out result store.new output.new ≡ step rings (controller b store.old output.old) (Interrupt address byte) }
{
    step(b, store, output, Call::Interrupt(address, byte))
}

// A device asks for an address, with two words (`request.opens`).
pub fn request(b: Bank, store: &mut [u32], output: &mut [u32], v: u32, w: u32) -> Out
    ensures { given_out result store.new output.new ≡ step rings (controller b store.old output.old) (Request v w) }
{
    step(b, store, output, Call::Request(v, w))
}

// An address is taken from SDO and is the value; the number is 0, or 19 for a wrong parity bit (`take.address`).
pub fn take_address(b: Bank, store: &mut [u32], output: &mut [u32]) -> Out
    ensures { given_out result store.new output.new ≡ step rings (controller b store.old output.old) Take }
{
    step(b, store, output, Call::Take)
}

// An offload burst begins: its first transfer opens (`trigger.opens`).
pub fn trigger(b: Bank, store: &mut [u32], output: &mut [u32]) -> Out
    ensures { given_out result store.new output.new ≡ step rings (controller b store.old output.old) Trigger }
{
    step(b, store, output, Call::Trigger)
}
