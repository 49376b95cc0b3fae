// The plain engine as a console has it: what `plain_session` and `plain_trial` make calls on. It knows no file and no
// program.
#![tactic(auto)]

ghost use Rattle.std.specs.Prelude.{◌≡◌};
ghost use Rattle.bank.specs.SetUp.{set_up};
ghost use Rattle.model.specs.Engine.{step};
ghost use Rattle.plain_model.specs.Plain.{plain};
ghost use Rattle.plain_model.specs.PlainLaws.{headless};
ghost use Rattle.plain.specs.Given.{plain_lent};
ghost use Rattle.trial_lines.specs.Engines.{with_lent, answered};
ghost use Rattle.plain_console.specs.Console.{fresh_console};

use bank::{Answer, Counts, Sizes};
use model::Call;
use plain_model::PlainBank;
use trial_lines::{Console, SpecifiedEngine};

// A bank of the plain engine.
#[derive(Clone, Copy)]
pub struct Plain {
    pub bank: PlainBank,
}

impl SpecifiedEngine for Plain {
    ghost caps_of = { λ e. e.bank.state.caps };

    ghost fresh = { λ caps marks id. let s = set_up caps marks id in answered s.answer (record { bank = headless s.bank }) };

    ghost stepped = { λ l call. let r = step plain (plain_lent l.engine.bank l.store l.output) call in answered r.answer (with_lent (record { bank = r.next.bank }) r.next.store r.next.output) };

    fn capacities(&self) -> Counts {
        self.bank.state.caps
    }

    fn set_up_anew(&mut self, caps: Sizes, marks: Sizes, id: u32) -> Answer {
        let s = setup::set_up(caps, marks, id);
        self.bank = plain::without_heads(s.bank);
        s.answer
    }

    fn make(&mut self, store: &mut [u32], output: &mut [u32], call: Call) -> Answer {
        let y = plain::step(self.bank, store, output, call);
        self.bank = y.bank;
        y.answer
    }
}

// The session's bank (`session.bank`), no output (`burst.replay`), and no line yet.
pub fn begin() -> Console<Plain>
    ensures { result ≡ fresh_console }
{
    Console::begin(Plain {
        bank: plain::without_heads(setup::session_bank()),
    })
}
