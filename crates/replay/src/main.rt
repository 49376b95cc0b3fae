// The program `replay` (`replay.program`, `replay.ends`, `replay.length`): a trace from standard input on the session's
// bank, and lines to standard output, in pieces, with buffers of 64 KiB at most. Where input or output fails, it says
// so on standard error (`program.failure`); what could not be read counts as not there.
#![tactic(auto)]

ghost use Rattle.std.specs.Prelude.{◌≡◌, ◌<◌, ◌≤◌, length};

use bank::Bank;
use notice::Failed;
use std::io::{Read, Write};
use stream_model::Stage;

// The bank, what is to come, and how many bytes at the front of the buffer were not used; how many answers were
// written.
#[derive(Clone, Copy)]
struct Replay {
    bank: Bank,
    stage: Stage,
    held: usize,
    answers: u64,
    ghost few: { held < 518 },
}

impl Replay {
    // The input in pieces, up to its end, to what fails, or to where the trace is over.
    fn run<R: Read, W: Write>(
        &mut self,
        input: &mut R,
        output: &mut W,
        out: &mut [u8],
    ) -> Result<(), Failed>
        requires { length out.old ≡ 24588 }
    {
        let mut store = [0u32; 20];
        let mut buf = [0u8; 24576];
        for _ in 0..u64::MAX {
            let n = input
                .read(&mut buf[self.held..])
                .map_err(|_| Failed::Input)?;
            if n == 0 {
                return Ok(());
            }
            let have = self.held + n;
            let f = stream::feed(self.bank, &mut store, self.stage, &buf[..have], out);
            let rest = have - f.used;
            buffer::shift(&mut buf, f.used, rest);
            *self = Replay {
                bank: f.bank,
                stage: f.stage,
                held: rest,
                answers: self.answers,
            };
            notice::send(output, &out[..f.count], &mut self.answers)?;
            if stream_end::over(f.stage) {
                return Ok(());
            }
        }
        Ok(())
    }

    // The end of the input.
    fn end<W: Write>(&mut self, output: &mut W, out: &mut [u8]) -> Result<(), Failed>
        requires { 12 ≤ length out.old }
    {
        let m = stream_end::end(self.stage, self.held, out);
        notice::send(output, &out[..m], &mut self.answers)
    }
}

// Input or output failed: says so, with how many answers were written before.
fn tell<W: Write>(errors: &mut W, failed: Failed, answers: u64) {
    let words = match failed {
        Failed::Input => &b"replay: standard input cannot be read; answers written: "[..],
        Failed::Output => &b"replay: standard output cannot be written; answers written: "[..],
    };
    notice::tell(errors, words, answers);
}

fn main(rt: HostRuntime) {
    let mut output = rt.stdout();
    let mut errors = rt.stderr();
    let mut out = [0u8; 24588];
    let mut replay = Replay {
        bank: setup::session_bank(),
        stage: Stage::Opening,
        held: 0,
        answers: 0,
    };
    let read = replay.run(&mut rt.stdin(), &mut output, &mut out);
    // The line of the end is counted by nobody.
    let answers = replay.answers;
    let ended = match read {
        Err(Failed::Output) => read,
        _ => replay.end(&mut output, &mut out),
    };
    if let Err(Failed::Input) = read {
        tell(&mut errors, Failed::Input, answers);
    }
    if ended.is_err() {
        tell(&mut errors, Failed::Output, answers);
    }
}
