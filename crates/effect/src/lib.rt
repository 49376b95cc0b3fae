// What a call decides, as a value: the answer and the state after it, one operation for each queue, and one for a
// table; and the first tests of events, 5, 6 and 7. It knows the definitions of calls and no engine: an effect says
// nothing of where queues lie, and `settle` moves queues and tables by it.
#![tactic(auto)]

ghost use Rattle.std.specs.Prelude.{◌≡◌, ℕ, cond, not};
ghost use Rattle.number.specs.Names as number;
ghost use Rattle.number.specs.Refusals.{number_of, told_or};
ghost use Rattle.queues.specs.Each.{each, every};
ghost use Rattle.bank.specs.Phases.{idle};
ghost use Rattle.model.specs.View.{Tables};
ghost use Rattle.model.specs.Decision.{keep, clear, take, push, only, unchanged, ◌with_number◌};
ghost use Rattle.effect.specs.Ops.{op_of, ops_of};
ghost use Rattle.effect.specs.Effects.{tables_by, effect_of};
ghost use Rattle.effect.specs.Seen.{Fronts, seen};

use bank::{Answer, State};
use number::Refusal;
use queues::{Five, Queue};

// What happens to a queue.
#[derive(Clone, Copy)]
pub enum Op {
    Keep,
    Clear,
    // So many words.
    Take(u32),
    Push(u32),
    // The first word, then the second.
    Push2(u32, u32),
}

// What happens to the five queues; where there is none nothing happens to any of them, and none is looked at.
pub type Ops = Option<Five<Op>>;

// What happens to the tables and to the lent output: nothing, or one entry, by its place, gets another value.
#[derive(Clone, Copy)]
pub enum Table {
    Same,
    Flags(u32, u8),
    Command(u32, u32),
    Payload(u32, u32),
    Output(u32, u32),
}

// An effect. The levels of its state are as before the call: the operations say how they move.
#[derive(Clone, Copy)]
pub struct Effect {
    pub state: State,
    pub answer: Answer,
    pub ops: Ops,
    pub table: Table,
}

// ── Tests that events share ────────────────────────────────────────────────────────────────────────────────────

// 5 in reset (`event.reset`), then `why` where `fails` holds.
fn tested(held: bool, fails: bool, why: Refusal) -> Result<(), Refusal>
    ensures { (n : ℕ) → told_or n result ≡ cond held number.held_in_reset (cond fails (number_of why) n) }
{
    if held {
        return Err(Refusal::HeldInReset);
    }
    if fails { Err(why) } else { Ok(()) }
}

// The first tests of an event that runs an open transfer: 5 in reset, 7 where none is open (`event.open`).
pub fn while_open(st: State) -> Result<(), Refusal>
    ensures { (n : ℕ) → told_or n result ≡ cond st.control.held number.held_in_reset (cond (idle st.phase) number.no_transfer n) }
{
    let p = st.phase;
    let idle = phases::is_idle(p);
    tested(st.control.held, idle, Refusal::NoTransfer)
}

// The first tests of an event that begins where none is open: 5 in reset, 6 where one is (`event.open`).
pub fn while_idle(st: State) -> Result<(), Refusal>
    ensures { (n : ℕ) → told_or n result ≡ cond st.control.held number.held_in_reset (cond (not (idle st.phase)) number.transfer_open n) }
{
    let p = st.phase;
    let busy = !phases::is_idle(p);
    tested(st.control.held, busy, Refusal::TransferOpen)
}

// ── Operations ─────────────────────────────────────────────────────────────────────────────────────────────────

// All queues cleared, by a reset (`enable.reset`).
#[tactic(auto, unfolding(crate::specs::Ops::five_of))]
pub fn clear_all() -> Ops
    ensures { ops_of result ≡ every clear }
{
    Some(Five {
        cmd: Op::Clear,
        cmdr: Op::Clear,
        sdo: Op::Clear,
        sdi: Op::Clear,
        ibi: Op::Clear,
    })
}

// One operation on one queue, where `comes` holds; else none. Put together in one piece: an operation that is copied from
// five to five is packed into one word and unpacked again.
#[tactic(auto, unfolding(crate::specs::Ops::five_of))]
pub fn on(q: Queue, comes: bool, o: Op) -> Ops
    ensures { ops_of result ≡ only q (cond comes (op_of o) keep) }
{
    if !comes {
        return None;
    }
    match q {
        Queue::Cmd => Some(Five {
            cmd: o,
            cmdr: Op::Keep,
            sdo: Op::Keep,
            sdi: Op::Keep,
            ibi: Op::Keep,
        }),
        Queue::Cmdr => Some(Five {
            cmd: Op::Keep,
            cmdr: o,
            sdo: Op::Keep,
            sdi: Op::Keep,
            ibi: Op::Keep,
        }),
        Queue::Sdo => Some(Five {
            cmd: Op::Keep,
            cmdr: Op::Keep,
            sdo: o,
            sdi: Op::Keep,
            ibi: Op::Keep,
        }),
        Queue::Sdi => Some(Five {
            cmd: Op::Keep,
            cmdr: Op::Keep,
            sdo: Op::Keep,
            sdi: o,
            ibi: Op::Keep,
        }),
        Queue::Ibi => Some(Five {
            cmd: Op::Keep,
            cmdr: Op::Keep,
            sdo: Op::Keep,
            sdi: Op::Keep,
            ibi: o,
        }),
    }
}

fn push_if(comes: bool, w: u32) -> Op
    ensures { op_of result ≡ cond comes (push w) keep }
{
    if comes { Op::Push(w) } else { Op::Keep }
}

fn take_if(comes: bool, n: u32) -> Op
    ensures { op_of result ≡ cond comes (take n) keep }
{
    if comes { Op::Take(n) } else { Op::Keep }
}

// A receipt to CMDR; where `removes` holds, `n` words out of SDO (`finish.removal`); where `comes` holds, the part word
// of a read to SDI (`finish.receipt`).
#[tactic(auto, unfolding(crate::specs::Ops::five_of))]
pub fn receipt_and(receipt: u32, removes: bool, n: u32, comes: bool, w: u32) -> Ops
    ensures { ops_of result ≡ each keep (push receipt) (cond removes (take n) keep) (cond comes (push w) keep) keep }
{
    Some(Five {
        cmd: Op::Keep,
        cmdr: Op::Push(receipt),
        sdo: take_if(removes, n),
        sdi: push_if(comes, w),
        ibi: Op::Keep,
    })
}

// One entry of a table, where `comes` holds; else none.
#[tactic(auto, unfolding(crate::specs::Effects::tables_by))]
pub fn table_if(comes: bool, t: Table) -> Table
    ensures { (x : Tables) → tables_by result x ≡ cond comes (tables_by t x) x }
{
    if comes { t } else { Table::Same }
}

// ── Effects ────────────────────────────────────────────────────────────────────────────────────────────────────

// An effect, its state put together field by field: see `Five::by_field`.
pub fn done_with(st: State, value: u32, number: u32, ops: Ops, table: Table) -> Effect
    ensures { (x : Tables) → effect_of result x ≡ record { value = value; number = number; regs = st.regs; control = st.control; phase = st.phase; tables = tables_by table x; ops = ops_of ops } }
{
    Effect {
        state: st.by_field(),
        answer: Answer { value, number },
        ops,
        table,
    }
}

// An effect that leaves the tables.
#[tactic(auto, unfolding(crate::specs::Effects::tables_by))]
pub fn done(st: State, value: u32, number: u32, ops: Ops) -> Effect
    ensures { (x : Tables) → effect_of result x ≡ record { value = value; number = number; regs = st.regs; control = st.control; phase = st.phase; tables = x; ops = ops_of ops } }
{
    done_with(st, value, number, ops, Table::Same)
}

// A refusal with a number, which changes nothing (`answer.refusal`).
pub fn refuse(st: State, n: u32) -> Effect
    ensures { (t : Tables) (f : Fronts) → effect_of result t ≡ (unchanged (seen st t f) with_number n) }
{
    done(st, 0, n, None)
}

// The refusal that a test gave.
pub fn refused(st: State, why: Refusal) -> Effect
    ensures { (t : Tables) (f : Fronts) → effect_of result t ≡ (unchanged (seen st t f) with_number number_of why) }
{
    refuse(st, u32::from(why))
}
