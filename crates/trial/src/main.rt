// A program for tests: a session (`session.lines`) with lines that set up another bank and lines of offload bursts, so
// that the model is run at every capacity and watermark, on stores with old contents, and with outputs of every length.
#![tactic(auto)]

ghost use Rattle.bank.specs.SetUp.{set_up};
ghost use Rattle.model.specs.Engine.{step};
ghost use Rattle.model.specs.Rings.{rings};
ghost use Rattle.answer.specs.Given.{controller};
ghost use Rattle.trial_lines.specs.Engines.{with_lent, answered};

use bank::{Answer, Bank, Counts, Sizes};
use model::Call;
use trial_lines::{Console, SpecifiedEngine};

// A bank of the ring engine.
#[derive(Clone, Copy)]
struct Rings {
    bank: Bank,
}

impl SpecifiedEngine for Rings {
    ghost caps_of = { λ e. e.bank.state.caps };

    ghost fresh = { λ caps marks id. let s = set_up caps marks id in answered s.answer (record { bank = s.bank }) };

    ghost stepped = { λ l call. let r = step rings (controller l.engine.bank l.store l.output) call in answered r.answer (with_lent (record { bank = r.next.bank }) r.next.store r.next.output) };

    fn capacities(&self) -> Counts {
        self.bank.state.caps
    }

    fn set_up_anew(&mut self, caps: Sizes, marks: Sizes, id: u32) -> Answer {
        let s = setup::set_up(caps, marks, id);
        self.bank = s.bank;
        s.answer
    }

    fn make(&mut self, store: &mut [u32], output: &mut [u32], call: Call) -> Answer {
        let out = controller::step(self.bank, store, output, call);
        self.bank = out.bank;
        out.answer
    }
}

// Where the input cannot be read, or the output not be written, it ends.
fn main(rt: HostRuntime) {
    let mut console = Console::begin(Rings {
        bank: setup::session_bank(),
    });
    let _ = console.run(&mut rt.stdin(), &mut rt.stdout(), |line, b| line.extend(b));
}
