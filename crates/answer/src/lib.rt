// What a call gives: its answer, with the state or the bank after it; and, as definitions, which step of the ring
// engine such a result is. It knows no call.
#![tactic(auto)]

ghost use Rattle.std.specs.Prelude.{◌≡◌};
ghost use Rattle.answer.specs.Given.{refused_next};

use bank::{Answer, Bank, Heads, State};

// The state and the heads after a call, and its answer. The tables stay where they are.
#[derive(Clone, Copy)]
pub struct Next {
    pub state: State,
    pub heads: Heads,
    pub answer: Answer,
}

// The bank after a call and its answer: what the calls of the interface give.
#[derive(Clone, Copy)]
pub struct Out {
    pub bank: Bank,
    pub answer: Answer,
}

// What a call gives, put together field by field: see `Five::by_field`.
pub fn done(st: State, h: Heads, a: Answer) -> Next
    ensures { result ≡ record { state = st; heads = h; answer = a } }
{
    Next {
        state: st.by_field(),
        heads: h.by_field(),
        answer: Answer {
            value: a.value,
            number: a.number,
        },
    }
}

// A refusal (`answer.refusal`): the state as it was, and the value 0. It is put together by `done` too: where two ways
// of making a state meet, the state stays in memory.
pub fn refuse(st: State, h: Heads, n: u32) -> Next
    ensures { result ≡ refused_next st h n }
{
    let answer = Answer {
        value: 0,
        number: n,
    };
    done(st, h, answer)
}
