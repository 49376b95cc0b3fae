// The plain engine: `step` over any call, on a bank without heads. Any bank, store, output and argument is
// allowed, and every call ends with one answer (`answer.every`). What it gives is what the ring engine gives
// (`plain.agrees`). `step` stands first, and what it calls behind it.
#![tactic(auto)]

ghost use Rattle.std.specs.Prelude.{◌≡◌, true, List, ℕ, length};
ghost use Rattle.number.specs.Refusals.{number_of, told};
ghost use Rattle.bank.specs.SetUp.{total};
ghost use Rattle.model.specs.Engine.{step};
ghost use Rattle.effect.specs.Ops.{ops_of};
ghost use Rattle.effect.specs.Effects.{effect_of};
ghost use Rattle.faults.specs.Faults.{fault_number};
ghost use Rattle.plain_model.specs.Plain.{plain, view_plain, headed, plain_formed};
ghost use Rattle.plain_model.specs.PlainLaws.{headless, refused_plain};
ghost use Rattle.plain_model.specs.FitsArea.{AllFitAreas};
ghost use Rattle.plain.specs.Given.{plain_lent, plain_given, settled_step};

use bank::{Answer, Bank, State};
use effect::Effect;
use model::Call;
use number::Refusal;
use plain_model::{PlainBank, PlainOut};
use queues::Five;
use tables::Tables;

// Any call.
pub fn step(b: PlainBank, store: &mut [u32], output: &mut [u32], call: Call) -> PlainOut
    ensures { plain_given result store.new output.new ≡ step plain (plain_lent b store.old output.old) call }
{
    if let Err(why) = fault(b, store.len()) {
        return refuse(b, why);
    }
    serve(b, store, output, call)
}

// The bank of a set-up, without its heads: where a plain bank comes from. An array goes from one value to another by way
// of a variable: the check has no other form for it.
pub fn without_heads(b: Bank) -> PlainBank
    ensures { result ≡ headless b }
{
    let flags = b.flags;
    let commands = b.commands;
    let payloads = b.payloads;
    PlainBank {
        state: b.state,
        flags,
        commands,
        payloads,
    }
}

// The two tests before every call (`plain.tests`): 21 for a bank that is not well formed, 22 for a store of another
// length than its queues need. The tests are those of the rings, which also ask of heads that they lie
// inside their areas: 0 does.
fn fault(b: PlainBank, len: usize) -> Result<(), Refusal>
    ensures { told result ≡ fault_number (headed b) len }
{
    faults::parts_fault(b.state, Five::every(0), &b.flags, &b.commands, len)
}

// A refusal changes nothing, and its value is 0 (`answer.refusal`).
fn refuse(b: PlainBank, why: Refusal) -> PlainOut
    ensures { (s o : List ℕ) → plain_given result s o ≡ refused_plain (plain_lent b s o) (number_of why) }
{
    PlainOut {
        bank: b,
        answer: Answer::refused(why),
    }
}

// A call that passed the two tests: decided on the first words of the queues, then settled.
fn serve(b: PlainBank, store: &mut [u32], output: &mut [u32], call: Call) -> PlainOut
    requires { (plain_formed b ≡ true) × (length store.old ≡ total b.state.caps) }
    ensures { plain_given result store.new output.new ≡ step plain (plain_lent b store.old output.old) call }
{
    let st = b.state;
    let words = plain_words::look(st.caps, st.levels, store);
    let t = Tables {
        flags: &b.flags,
        commands: &b.commands,
        payloads: &b.payloads,
    };
    let e = dispatch::decide(st, &words, t, output.len(), call);
    settle(b, store, output, e)
}

// An effect settled: a table entry stored, the queues moved, and the state put together.
fn settle(b: PlainBank, store: &mut [u32], output: &mut [u32], e: Effect) -> PlainOut
    requires { AllFitAreas (ops_of e.ops) b.state.caps b.state.levels store.old }
    ensures { let p = plain_lent b store.old output.old in plain_given result store.new output.new ≡ settled_step p (effect_of e (view_plain p).tables) }
{
    let mut flags = b.flags;
    let mut commands = b.commands;
    let mut payloads = b.payloads;
    table_entries::put_table(e.table, &mut flags, &mut commands, &mut payloads, output);
    let moved = plain_moves::move_all(e.ops, b.state.caps, b.state.levels, store);
    let state = State {
        caps: b.state.caps,
        levels: moved,
        ..e.state
    };
    PlainOut {
        bank: PlainBank {
            state,
            flags,
            commands,
            payloads,
        },
        answer: e.answer,
    }
}
