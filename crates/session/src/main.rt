// The program `session` (`session.lines`, `session.answers`): lines from standard input, the answers of the calls that
// they name to standard output, on the session's bank. It reads and writes in pieces, holds no line, and lends every
// call an empty output (`burst.replay`). Where input or output fails, it says so on standard error (`program.failure`).
#![tactic(auto)]

use bank::Bank;
use lines::Reading;
use notice::Failed;
use std::io::{Read, Write};

// The bank and the line so far; how many answers were written.
#[derive(Clone, Copy)]
struct Session {
    bank: Bank,
    line: Reading,
    answers: u64,
}

impl Session {
    // The whole input. A line that is cut where it cannot be read was closed neither by a newline nor by the end of the
    // input, so it is no call.
    fn run<R: Read, W: Write>(&mut self, input: &mut R, output: &mut W) -> Result<(), Failed> {
        let mut store = [0u32; 20];
        let mut none = [0u32; 0];
        let mut piece = [0u8; 4096];
        let mut out = [0u8; 65536];
        for _ in 0..u64::MAX {
            let n = input.read(&mut piece).map_err(|_| Failed::Input)?;
            if n == 0 {
                let e = sessions::end_line(
                    self.bank, &mut store, &mut none, self.line, &mut out, 0,
                );
                return notice::send(output, &out[..e.count], &mut self.answers);
            }
            let f = sessions::feed(
                self.bank,
                &mut store,
                &mut none,
                self.line,
                &piece[..n],
                &mut out,
            );
            self.bank = f.bank;
            self.line = f.line;
            notice::send(output, &out[..f.count], &mut self.answers)?;
        }
        Ok(())
    }
}

fn main(rt: HostRuntime) {
    let mut session = Session {
        bank: setup::session_bank(),
        line: Reading::begin(),
        answers: 0,
    };
    if let Err(failed) = session.run(&mut rt.stdin(), &mut rt.stdout()) {
        let words = match failed {
            Failed::Input => &b"session: standard input cannot be read; answers written: "[..],
            Failed::Output => &b"session: standard output cannot be written; answers written: "[..],
        };
        notice::tell(&mut rt.stderr(), words, session.answers);
    }
}
