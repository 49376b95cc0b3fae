// A session (`session.lines`, `session.answers`): bytes in pieces of any length, the lines in them, the calls that
// these name, and the answers as text. It knows no file and no program. `output` is what is lent to every call, `out`
// takes the text.
#![tactic(auto)]

ghost use Rattle.std.specs.Prelude.{◌≡◌, [], ◌+◌, ◌*◌, ◌≤◌, length, take};
ghost use Rattle.answer.specs.Memory.{bank_lent};
ghost use Rattle.lines.specs.Automaton.{call_read};
ghost use Rattle.sessions.specs.Session.{ran_of, ran_told, ended_session, fed_session, session, line_end, session_fed};

use bank::Bank;
use lines::Reading;

// The bank after a line, and the line printed, if any.
#[derive(Clone, Copy)]
pub struct Ran {
    pub bank: Bank,
    pub text: Option<[u8; 12]>,
}

// The end of a line: the call that it names is made, and its answer printed. A line that names none leaves the bank as
// it was.
pub fn run(b: Bank, store: &mut [u32], output: &mut [u32], line: Reading) -> Ran
    ensures { ran_told result store.new output.new ≡ ran_of (bank_lent b store output) (call_read line) }
{
    let Some(call) = line.named() else {
        return Ran {
            bank: b,
            text: None,
        };
    };
    let out = controller::step(b, store, output, call);
    Ran {
        bank: out.bank,
        text: Some(print::line(out.answer)),
    }
}

// The bank after the end of a line, and how many bytes of the text are filled.
#[derive(Clone, Copy)]
pub struct Ended {
    pub bank: Bank,
    pub count: usize,
}

// A line is closed, by a newline or by the end of the input (`session.lines`): a layer, no interface.
pub fn end_line(
    b: Bank,
    store: &mut [u32],
    output: &mut [u32],
    line: Reading,
    out: &mut [u8],
    at: usize,
) -> Ended
    requires { at + 12 ≤ length out.old }
    ensures { (ended_session result store.new output.new out.new ≡ line_end (session (bank_lent b store output) line (take at out.old))) × (result.count ≤ at + 12) }
{
    let r = run(b, store, output, line);
    let count = match r.text {
        Some(text) => {
            print::put(out, at, text);
            at + 12
        }
        None => at,
    };
    Ended {
        bank: r.bank,
        count,
    }
}

// The bank and the line so far after a piece of the input, and how many bytes of the text are filled.
#[derive(Clone, Copy)]
pub struct SessionTurn {
    pub bank: Bank,
    pub line: Reading,
    pub count: usize,
}

// A piece of the input: a layer, no interface. The text has room for a line a byte.
#[tactic(auto, unfolding(crate::specs::Session::session_fed), using(crate::proofs::Cutting::fed_byte_lem, crate::proofs::Cutting::fed_newline, crate::proofs::Cutting::fed_all))]
pub fn feed(
    b: Bank,
    store: &mut [u32],
    output: &mut [u32],
    line: Reading,
    piece: &[u8],
    out: &mut [u8],
) -> SessionTurn
    requires { 12 * length piece.now ≤ length out.old }
    ensures { (fed_session result store.new output.new out.new ≡ session_fed (session (bank_lent b store output) line []) piece.now) × (result.count ≤ length out.new) }
{
    let mut turn = SessionTurn {
        bank: b,
        line,
        count: 0,
    };
    for byte in piece {
        if *byte != b'\n' {
            turn.line = turn.line.eat(*byte);
            continue;
        }
        let e = end_line(turn.bank, store, output, turn.line, out, turn.count);
        turn = SessionTurn {
            bank: e.bank,
            line: Reading::begin(),
            count: e.count,
        };
    }
    turn
}
