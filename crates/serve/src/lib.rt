// Any call on a state, its heads and its lent tables: decided, then settled. A layer beneath the interface and beneath
// replays. It is given the number of the two tests: no call changes what they say (`formed.kept`), so a list of calls
// makes them once.
#![tactic(auto)]

ghost use Rattle.std.specs.Prelude.{◌≡◌, length};
ghost use Rattle.number.specs.Refusals.{told};
ghost use Rattle.model.specs.Bursts.{decide};
ghost use Rattle.model.specs.Engine.{step};
ghost use Rattle.model.specs.Rings.{rings};
ghost use Rattle.answer.specs.Given.{bank_with, view, decided, Open};
ghost use Rattle.answer.specs.Memory.{memory, lent, left, controller_of, step_of};
ghost use Rattle.faults.specs.Faults.{fault_number};

use answer::Next;
use bank::{Heads, State};
use model::Call;
use number::Refusal;
use tables::Tables;

// A call on a bank and a store that passed the two tests.
fn serve(
    st: State,
    h: Heads,
    flags: &mut [u8; 128],
    commands: &mut [u32; 16],
    payloads: &mut [u32; 16],
    store: &mut [u32],
    output: &mut [u32],
    call: Call,
) -> Next
    requires { Open st h commands.old store.old }
    ensures { let m = lent flags commands payloads store output in step_of result (left flags commands payloads store output) ≡ decided st h m.tables m.store (decide (view st h m.tables m.store) call) }
{
    let t = Tables {
        flags,
        commands,
        payloads,
    };
    let e = decide::decide(st, h, t, store, output.len(), call);
    settle::settle(st, h, flags, commands, payloads, store, output, e)
}

// A call behind the two tests, whose number is given.
pub fn step_parts(
    st: State,
    h: Heads,
    flags: &mut [u8; 128],
    commands: &mut [u32; 16],
    payloads: &mut [u32; 16],
    store: &mut [u32],
    output: &mut [u32],
    fault: Result<(), Refusal>,
    call: Call,
) -> Next
    requires { let m = memory flags commands payloads store output in told fault ≡ fault_number (bank_with st h m.tables) (length m.store) }
    ensures { step_of result (left flags commands payloads store output) ≡ step rings (controller_of st h (lent flags commands payloads store output)) call }
{
    if let Err(why) = fault {
        return answer::refuse(st, h, u32::from(why));
    }
    serve(st, h, flags, commands, payloads, store, output, call)
}
