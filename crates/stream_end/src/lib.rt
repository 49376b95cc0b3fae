// How the replay of a trace that comes in pieces ends (`replay.ends`): with a number of its own, or with its input. It
// knows what is still to come, and no record. `out` takes the text; its bytes past the text are left free.
#![tactic(auto)]

ghost use Rattle.std.specs.Prelude.{◌≡◌, List, [], ◌++◌, ℕ, ◌+◌, ◌≤◌, length, take};
ghost use Rattle.number.specs.Refusals.{told};
ghost use Rattle.answer.specs.Given.{controller};
ghost use Rattle.print.specs.Line.{line_of};
ghost use Rattle.stream_model.specs.declared.Stage.TheVariants.{Over};
ghost use Rattle.stream_model.specs.Stream.{stream, is_over, end_number, end_text};
ghost use Rattle.stream_end.specs.Given.{fed_by};

use bank::{Answer, Bank};
use number::Refusal;
use stream_model::Stage;

// The bank after a piece, what is to come, how many of its bytes were used, and how many bytes of the text are filled.
#[derive(Clone, Copy)]
pub struct StreamTurn {
    pub bank: Bank,
    pub stage: Stage,
    pub used: usize,
    pub count: usize,
}

// The line of a number of the replay's own, with the value 0.
fn refusal(number: u32) -> [u8; 12]
    ensures { result ≡ line_of 0 number }
{
    print::line(Answer { value: 0, number })
}

// A replay that ends with a number of its own: a layer, no interface.
pub fn close(bank: Bank, number: u32, used: usize, out: &mut [u8], at: usize) -> StreamTurn
    requires { at + 12 ≤ length out.old }
    ensures { ((s : List ℕ) → fed_by result s out.new ≡ stream (controller bank s []) Over used (take at out.old ++ line_of 0 number)) × (result.count ≡ at + 12) × (result.used ≡ used) }
{
    print::put(out, at, refusal(number));
    StreamTurn {
        bank,
        stage: Stage::Over,
        used,
        count: at + 12,
    }
}

// Whether there is nothing to come.
pub fn over(stage: Stage) -> bool
    ensures { result ≡ is_over stage }
{
    matches!(stage, Stage::Over)
}

// Why the end of the input is refused, with so many bytes not used, if not all was there. Past the last record no byte
// is held: `feed` answers it with 25.
#[tactic(auto, unfolding(stream_model::specs::Stream::end_number))]
fn whole(stage: Stage, held: usize) -> Result<(), Refusal>
    ensures { told result ≡ end_number stage held }
{
    match stage {
        Stage::Opening if held < 4 => Err(Refusal::WrongMark),
        Stage::Opening => Err(Refusal::WrongTable),
        Stage::Records(0) | Stage::Over => Ok(()),
        Stage::Records(_) => Err(Refusal::WrongTable),
    }
}

// The end of the input, and how many bytes of the text it fills: a layer, no interface.
pub fn end(stage: Stage, held: usize, out: &mut [u8]) -> usize
    requires { 12 ≤ length out.old }
    ensures { (take result out.new ≡ end_text stage held) × (result ≤ 12) }
{
    let Err(why) = whole(stage, held) else {
        return 0;
    };
    print::put(out, 0, refusal(u32::from(why)));
    12
}
