// An effect settled in rings in a lent store and in lent tables, once for every call. It knows effects, and not which
// call gave one.
#![tactic(auto)]

ghost use Rattle.std.specs.Prelude.{◌≡◌};
ghost use Rattle.bank.specs.Queues.{queues_of};
ghost use Rattle.bank.specs.Ready.{Ready};
ghost use Rattle.model.specs.Rings.{view_queues};
ghost use Rattle.model.specs.Fits.{AllFit};
ghost use Rattle.answer.specs.Given.{served};
ghost use Rattle.answer.specs.Memory.{lent, left, step_of};
ghost use Rattle.effect.specs.Ops.{ops_of};
ghost use Rattle.effect.specs.Effects.{effect_of};

use answer::Next;
use bank::{Heads, State};
use effect::Effect;

// An effect settled: queues moved, table entry stored, and the state and heads after it.
pub fn settle(
    st: State,
    h: Heads,
    flags: &mut [u8; 128],
    commands: &mut [u32; 16],
    payloads: &mut [u32; 16],
    store: &mut [u32],
    output: &mut [u32],
    e: Effect,
) -> Next
    requires { let q = queues_of st.caps st.levels h in (Ready q store.old) × (AllFit (ops_of e.ops) (view_queues q store.old)) }
    ensures { let m = lent flags commands payloads store output in step_of result (left flags commands payloads store output) ≡ served st h m.tables m.store (effect_of e m.tables) }
{
    table_entries::put_table(e.table, flags, commands, payloads, output);
    let m = ring_moves::move_any(e.ops, st.caps, st.levels, h, store);
    let next = State {
        caps: st.caps,
        levels: m.levels,
        ..e.state
    };
    answer::done(next, m.heads, e.answer)
}
