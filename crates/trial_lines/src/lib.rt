// Lines of the test programs: those of a session (`session.lines`), and lines that set up another bank, trigger a burst,
// lend an output and show it; and a console that does on an engine what they ask, and prints its answers. It knows of an
// engine what `Engine` says.
#![tactic(auto)]

ghost use Rattle.std.specs.Prelude.{◌≡◌, ⊤, ℕ, ◌+◌, ◌*◌, ◌≤◌, length, OnOk};
ghost use Rattle.bank.specs.Fives.{Counts, Sizes};
ghost use Rattle.model.specs.declared.Call.{Call};
ghost use Rattle.model.specs.Engine.{Step};
ghost use Rattle.trial_lines.specs.Engines.{WithLent, with_lent, answered};
ghost use Rattle.trial_lines.specs.Growing.{Grows};
ghost use Rattle.trial_lines.specs.TestLines.{no_line, test_letter_read, next_field, eat_test, letter_named, five_from, asked_of, lent_test, word_shown, console_of};

use bank::{Answer, Counts, Sizes};
use lines::Reading;
use model::Call;
use queues::Five;
use std::io::{self, Read, Write};

// ── A line, byte by byte ───────────────────────────────────────────────────────────────────────────────────────
// Set-up: `B`, then its eleven numbers, with one space before each.
const SET_UP: u8 = b'B';

// The trigger of an offload burst.
const TRIGGER: u8 = b'G';

// `O` and how many words of the output are lent from now on.
const LEND: u8 = b'O';

// `P` and the place of a word of the output.
const SHOW: u8 = b'P';

// Room for five queues of the largest capacity.
const STORE: usize = 5120;

// A line so far.
#[derive(Clone, Copy)]
pub struct Line {
    // The letter and the field that is being read, as `lines` reads those of a call.
    pub reading: Reading,
    // Of a set-up, which field that is, and the values of those before it. The letter is field 0 and takes no digit.
    pub at: usize,
    pub values: [u32; 11],
}

// What a line asks.
#[derive(Clone, Copy)]
pub enum Asked {
    // Another bank: its capacities, its watermarks and its ID.
    SetUp(Sizes, Sizes, u32),
    Make(Call),
    Lend(u32),
    Show(u32),
}

// The first byte of a line.
fn letter(b: u8) -> Reading
    ensures { result ≡ test_letter_read b }
{
    match b {
        SET_UP | TRIGGER => Reading::lettered(b, 0, 0),
        LEND => Reading::lettered(LEND, 2, 0),
        SHOW => Reading::lettered(SHOW, 1, 0),
        _ => Reading::begin().eat(b),
    }
}

impl Line {
    // A line before its first byte.
    pub fn begin() -> Line
        ensures { result ≡ no_line }
    {
        Line {
            reading: Reading::begin(),
            at: 0,
            values: [0; 11],
        }
    }

    // The next field of a set-up begins.
    fn space(self) -> Line
        ensures { result ≡ next_field self }
    {
        if self.reading.bare || 11 <= self.at {
            return Line {
                reading: Reading::skip(),
                ..self
            };
        }
        let mut values = self.values;
        values[self.at] = self.reading.value;
        Line {
            reading: Reading {
                room: 8,
                bare: true,
                ..Reading::lettered(SET_UP, 0, 0)
            },
            at: self.at + 1,
            values,
        }
    }

    // One byte of a line of a test, where the line lies: one that is moved for each byte is stored and loaded whole.
    pub fn extend(&mut self, b: u8)
        ensures { self.new ≡ eat_test self.old b }
    {
        let r = self.reading;
        if r.letter == SET_UP && b == b' ' {
            *self = self.space();
            return;
        }
        self.reading = if r.letter == 0 { letter(b) } else { r.eat(b) };
    }

    // The same of a line by value.
    pub fn eat(self, b: u8) -> Line
        ensures { result ≡ eat_test self b }
    {
        let mut next = self;
        next.extend(b);
        next
    }

    // The letter of a line that ends here, where all its fields are there.
    pub fn named(self) -> Option<u8>
        ensures { result ≡ letter_named self }
    {
        let r = self.reading;
        if r.bare || r.next != 0 || (r.letter == SET_UP && self.at != 11) {
            return None;
        }
        Some(r.letter)
    }

    // Five numbers of a set-up, from a place on.
    fn five(self, from: usize) -> Sizes
        requires { from ≤ 6 }
        ensures { result ≡ five_from from self.values }
    {
        Five {
            cmd: self.values[from],
            cmdr: self.values[from + 1],
            sdo: self.values[from + 2],
            sdi: self.values[from + 3],
            ibi: self.values[from + 4],
        }
    }

    // What a line that ends here asks. The ID of a set-up is the field that was read last.
    pub fn asked(self) -> Option<Asked>
        ensures { result ≡ asked_of self }
    {
        let r = self.reading;
        match self.named()? {
            SET_UP => Some(Asked::SetUp(self.five(1), self.five(6), r.value)),
            TRIGGER => Some(Asked::Make(Call::Trigger)),
            LEND => Some(Asked::Lend(r.value)),
            SHOW => Some(Asked::Show(r.value)),
            _ => r.named().map(Asked::Make),
        }
    }
}

// ── The output, and text ───────────────────────────────────────────────────────────────────────────────────────
// The words of the output, and how many of them are lent to every call.
#[derive(Clone, Copy)]
pub struct Output {
    pub words: [u32; 16],
    pub lent: usize,
}

impl Output {
    // All words are set to 0xffffffff, and the first `n` are lent from now on; nothing where there are fewer.
    pub fn lend(self, n: u32) -> Output
        ensures { result ≡ lent_test self n }
    {
        if 16 < n {
            return self;
        }
        Output {
            words: [0xffff_ffff; 16],
            lent: n as usize,
        }
    }

    // A word of the output, as an answer.
    pub fn show(self, place: u32) -> Answer
        ensures { result ≡ word_shown self place }
    {
        Answer {
            value: self.words[(place % 16) as usize],
            number: 0,
        }
    }
}

// A number of words, where there are so many. The test is for the proof.
fn within(n: usize, most: usize) -> usize
    ensures { result ≤ most }
{
    if n <= most { n } else { 0 }
}

// The line of an answer, if any, from a place on; gives where the text ends.
pub fn put(answer: Option<Answer>, out: &mut [u8], at: usize) -> usize
    requires { at + 12 ≤ length out.old }
    ensures { result ≤ at + 12 }
{
    let Some(a) = answer else {
        return at;
    };
    print::put(out, at, print::line(a));
    at + 12
}

// ── A console ──────────────────────────────────────────────────────────────────────────────────────────────────
// A bank, and what makes calls on it. An engine says of each function what it may give, or nothing of it.
pub trait Engine {
    // What `caps` may give.
    ghost has_caps: { Self → Counts → Type 0 } = { λ _ _. ⊤ };

    // What a set-up may give.
    ghost sets_up: { Self → Sizes → Sizes → ℕ → Step Self → Type 0 } = { λ _ _ _ _ _. ⊤ };

    // What a call may give, with the store and the output that are lent to it.
    ghost steps: { WithLent Self → Call → Step (WithLent Self) → Type 0 } = { λ _ _ _. ⊤ };

    // The capacities of its queues.
    fn caps(&self) -> Counts
        ensures { has_caps self.now result };

    // Another bank.
    fn set_up(&mut self, caps: Sizes, marks: Sizes, id: u32) -> Answer
        ensures { sets_up self.old caps marks id (answered result self.new) };

    // A call, on the words that are lent.
    fn step(&mut self, store: &mut [u32], output: &mut [u32], call: Call) -> Answer
        ensures { steps (with_lent self.old store.old output.old) call (answered result (with_lent self.new store.new output.new)) };
}

// An engine of which each function gives one thing, whatever bank a set-up finds. Its functions have names of their own: at a
// value of a type that has both traits, a call by a name of both is refused.
pub trait SpecifiedEngine {
    // What `capacities` gives.
    ghost caps_of: { Self → Counts };

    // What a set-up gives, whatever bank was there before.
    ghost fresh: { Sizes → Sizes → ℕ → Step Self };

    // What a call gives, with the store and the output that are lent to it.
    ghost stepped: { WithLent Self → Call → Step (WithLent Self) };

    // The capacities of its queues.
    fn capacities(&self) -> Counts
        ensures { result ≡ caps_of self.now };

    // Another bank.
    fn set_up_anew(&mut self, caps: Sizes, marks: Sizes, id: u32) -> Answer
        ensures { answered result self.new ≡ fresh caps marks id };

    // A call, on the words that are lent.
    fn make(&mut self, store: &mut [u32], output: &mut [u32], call: Call) -> Answer
        ensures { answered result (with_lent self.new store.new output.new) ≡ stepped (with_lent self.old store.old output.old) call };
}

// What such an engine gives is all that it may give.
impl<E: SpecifiedEngine> Engine for E {
    ghost has_caps = { λ e k. k ≡ E.caps_of e };

    ghost sets_up = { λ _ caps marks id s. s ≡ E.fresh caps marks id };

    ghost steps = { λ l call s. s ≡ E.stepped l call };

    fn caps(&self) -> Counts {
        self.capacities()
    }

    fn set_up(&mut self, caps: Sizes, marks: Sizes, id: u32) -> Answer {
        self.set_up_anew(caps, marks, id)
    }

    fn step(&mut self, store: &mut [u32], output: &mut [u32], call: Call) -> Answer {
        self.make(store, output, call)
    }
}

// An engine, the output that is lent to every call, and the line so far.
#[derive(Clone, Copy)]
pub struct Console<E> {
    pub engine: E,
    pub output: Output,
    pub line: Line,
}

impl<E: Engine> Console<E> {
    // An engine, an output of ones of which no word is lent, and no line yet.
    pub fn begin(engine: E) -> Console<E>
        ensures { result ≡ console_of engine }
    {
        Console {
            engine,
            output: Output {
                words: [0xffff_ffff; 16],
                lent: 0,
            },
            line: Line::begin(),
        }
    }

    // A call, on as many words of the store as the bank's queues have, and on the words of the output that are lent.
    fn call(&mut self, store: &mut [u32], call: Call) -> Answer {
        let n = within(bank::total_of(self.engine.caps()), store.len());
        let m = within(self.output.lent, 16);
        let words = &mut self.output.words[..];
        self.engine.step(&mut store[..n], &mut words[..m], call)
    }

    // A line is closed, by a newline or by the end of the input: the answer that is printed, if any. A set-up leaves
    // store and output as they are.
    fn end_line(&mut self, store: &mut [u32]) -> Option<Answer> {
        let asked = self.line.asked();
        self.line = Line::begin();
        match asked? {
            Asked::SetUp(caps, marks, id) => Some(self.engine.set_up(caps, marks, id)),
            Asked::Make(call) => Some(self.call(store, call)),
            Asked::Lend(n) => {
                self.output = self.output.lend(n);
                None
            }
            Asked::Show(place) => Some(self.output.show(place)),
        }
    }

    // A piece of the input, of which `eat` reads the bytes: how many bytes of the text are filled. A layer, no
    // interface. The text has room for a line a byte.
    pub fn feed<F: Fn(&mut Line, u8)>(
        &mut self,
        store: &mut [u32],
        eat: &F,
        piece: &[u8],
        out: &mut [u8],
    ) -> usize
        requires room { 12 * length piece.now ≤ length out.old }
        requires eats { F.IsAlwaysCallable eat.now }
        ensures { result ≤ length out.new }
    {
        let mut count = 0;
        // A local: the loop has its reading in registers.
        let mut line = self.line;
        for byte in piece {
            if *byte != b'\n' {
                eat(&mut line, *byte);
                continue;
            }
            self.line = line;
            let answer = self.end_line(store);
            line = self.line;
            count = put(answer, out, count);
        }
        self.line = line;
        count
    }

    // The end of the input ends the last line: how many bytes of the text are filled. A layer, no interface.
    pub fn close(&mut self, store: &mut [u32], out: &mut [u8]) -> usize
        requires { 12 ≤ length out.old }
        ensures { result ≤ 12 }
    {
        let answer = self.end_line(store);
        put(answer, out, 0)
    }

    // The pieces of an input, to its end or up to text that could not be written. An input that cannot be read ends.
    fn feed_all<R: Read, W: Write, F: Fn(&mut Line, u8)>(
        &mut self,
        store: &mut [u32],
        input: &mut R,
        output: &mut W,
        eat: F,
    ) -> io::Result<()>
        requires { F.IsAlwaysCallable eat }
        ensures { OnOk result (Grows (W.contents output.old) (W.contents output.new)) }
    {
        let mut piece = [0u8; 4096];
        let mut out = [0u8; 65536];
        for _ in 0..u64::MAX {
            let n = input.read(&mut piece).unwrap_or(0);
            if n == 0 {
                return Ok(());
            }
            let m = self.feed(store, &eat, &piece[..n], &mut out);
            output.write_all(&out[..m])?;
        }
        Ok(())
    }

    // What the end of the input prints.
    fn write_last<W: Write>(&mut self, store: &mut [u32], output: &mut W) -> io::Result<()>
        ensures { OnOk result (Grows (W.contents output.old) (W.contents output.new)) }
    {
        let mut out = [0u8; 12];
        let m = self.close(store, &mut out);
        output.write_all(&out[..m])
    }

    // A whole input. Where text could not be written, that is its end.
    pub fn run<R: Read, W: Write, F: Fn(&mut Line, u8)>(
        &mut self,
        input: &mut R,
        output: &mut W,
        eat: F,
    ) -> io::Result<()>
        requires { F.IsAlwaysCallable eat }
        ensures { OnOk result (Grows (W.contents output.old) (W.contents output.new)) }
    {
        let mut store = [0u32; STORE];
        self.feed_all(&mut store, input, output, eat)?;
        self.write_last(&mut store, output)
    }

    // A whole input. Where text could not be written, the line that is open then is closed all the same, and what it prints
    // is tried to be written.
    pub fn run_to_last<R: Read, W: Write, F: Fn(&mut Line, u8)>(
        &mut self,
        input: &mut R,
        output: &mut W,
        eat: F,
    ) -> io::Result<()>
        requires { F.IsAlwaysCallable eat }
        ensures { OnOk result (Grows (W.contents output.old) (W.contents output.new)) }
    {
        let mut store = [0u32; STORE];
        let fed = self.feed_all(&mut store, input, output, eat);
        let last = self.write_last(&mut store, output);
        fed.and(last)
    }
}

#[cfg(test)]
mod tests {
    use super::*;
    use ring::Words;

    // An engine that says nothing of what it gives: a set-up gives it a number, a call adds one and tells it, with how many
    // words were lent.
    #[derive(Clone, Copy)]
    struct Counter {
        number: u32,
    }

    impl Engine for Counter {
        fn caps(&self) -> Counts {
            Five::every(Words(1))
        }

        fn set_up(&mut self, _caps: Sizes, _marks: Sizes, id: u32) -> Answer {
            self.number = id;
            Answer::done(0)
        }

        fn step(&mut self, store: &mut [u32], output: &mut [u32], _call: Call) -> Answer {
            self.number = self.number.wrapping_add(1);
            Answer {
                value: self.number,
                number: ((store.len() + output.len()) % 100) as u32,
            }
        }
    }

    // Two calls; a set-up with the ID 0x10; three words lent, and a call; and one whose line has no end.
    #[test]
    fn console_of_any_engine(rt: HostRuntime) {
        let mut console = Console::begin(Counter { number: 4 });
        let mut store = [0u32; 9];
        let mut out = [0u8; 1200];
        let piece = b"S\nT\nB 1 1 1 1 1 1 1 1 1 1 10\nO 03\nS\nS";
        let n = console.feed(
            &mut store,
            &|line: &mut Line, b: u8| *line = line.eat(b),
            piece,
            &mut out,
        );
        assert_eq!(rt;
            &out[..n],
            b"00000005 05\n00000006 05\n00000000 00\n00000011 08\n".as_slice()
        );
        let n = console.close(&mut store, &mut out);
        assert_eq!(rt; &out[..n], b"00000012 08\n".as_slice());
    }
}
