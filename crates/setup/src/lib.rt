// Set-up (`set-up.numbers`, `set-up.fresh`, `set-up.refused`): the bank and the answer for five capacities, five
// watermarks and an ID; the bank of a session. It knows no call.
#![tactic(auto)]

ghost use Rattle.std.specs.Prelude.{◌≡◌};
ghost use Rattle.queues.specs.Each.{each, every};
ghost use Rattle.bank.specs.SetUp.{counts_of, sizes_ok, bank_of, refused_set_up, set_up};

use bank::{Answer, Bank, Counts, Phase, Regs, SetUp, Sizes, State};
use number::Refusal;
use queues::Five;
use ring::Words;

// Numbers as a caller gives them, as counts of words. No `From`: both are the one type `Five`, of another crate.
fn counts_of(s: Sizes) -> Counts
    ensures { result ≡ counts_of s }
{
    Five {
        cmd: Words(s.cmd),
        cmdr: Words(s.cmdr),
        sdo: Words(s.sdo),
        sdi: Words(s.sdi),
        ibi: Words(s.ibi),
    }
}

// Whether capacities and watermarks are in range (`set-up.numbers`).
#[tactic(auto, unfolding(bank::specs::SetUp::sizes_ok, bank::specs::SetUp::caps_ok))]
fn sizes_ok(caps: Sizes, marks: Sizes) -> bool
    ensures { result ≡ sizes_ok caps marks }
{
    bank::size_ok(2, caps.cmd)
        & bank::size_ok(1, caps.cmdr)
        & bank::size_ok(1, caps.sdo)
        & bank::size_ok(2, caps.sdi)
        & bank::size_ok(1, caps.ibi)
        & bank::marks_ok(counts_of(marks), counts_of(caps))
}

// A bank in reset with these numbers, and 0 elsewhere (`set-up.fresh`).
fn fresh_bank(caps: Sizes, marks: Sizes, held: bool, id: u8) -> Bank
    ensures { result ≡ bank_of caps marks held id }
{
    let regs = Regs {
        id,
        scratch: 0,
        mask: 0,
        ops: 0,
        config: 0,
        selected: 0,
        marks: counts_of(marks),
    };
    let state = State {
        caps: counts_of(caps),
        levels: Five::every(Words(0)),
        regs,
        control: bank::cleared_control(held),
        phase: Phase::Idle,
    };
    Bank {
        state,
        heads: Five::every(0),
        flags: [0; 128],
        commands: [0; 16],
        payloads: [0; 16],
    }
}

// What a refused set-up gives (`set-up.refused`).
fn refused_set_up() -> SetUp
    ensures { result ≡ refused_set_up }
{
    let none = Five::every(0);
    SetUp {
        bank: fresh_bank(none, none, false, 0),
        answer: Answer::refused(Refusal::SetUpOutOfRange),
    }
}

// A bank in reset with number 0; a bank of zeros with 23 where a number is out of range.
#[tactic(auto, unfolding(bank::specs::SetUp::set_up))]
pub fn set_up(caps: Sizes, marks: Sizes, id: u32) -> SetUp
    ensures { result ≡ set_up caps marks id }
{
    match u8::try_from(id) {
        Ok(id) if sizes_ok(caps, marks) => SetUp {
            bank: fresh_bank(caps, marks, true, id),
            answer: Answer::done(0),
        },
        _ => refused_set_up(),
    }
}

// The bank of a session, as `session.bank` has it.
pub fn session_bank() -> Bank
    ensures { result ≡ (set_up (every 4) (each 1 3 1 3 3) 0).bank }
{
    let marks = Five {
        cmd: 1,
        cmdr: 3,
        sdo: 1,
        sdi: 3,
        ibi: 3,
    };
    set_up(Five::every(4), marks, 0).bank
}
