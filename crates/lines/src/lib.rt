// The reader of a session's lines: a line byte by byte, so that nothing of it is held but what it may still name.
#![tactic(auto)]

ghost use Rattle.std.specs.Prelude.{◌≡◌, false};
ghost use Rattle.letters.specs.Forms.{form_of};
ghost use Rattle.lines.specs.Lines.{hex_of, line_names};
ghost use Rattle.lines.specs.Automaton.{unread, skipped, letter_read, spaced, extended, eat_of, reading_with, reading_of, call_read};

use model::Call;

// A line so far.
#[derive(Clone, Copy)]
pub struct Reading {
    // 0 before the first byte; 1, which is no letter, once the line can name no call. Numbers, and no enum: `reading_with`
    // and the theorems on the grammar have them.
    pub letter: u8,
    // How many digits the field at hand may still take.
    pub room: u8,
    // The most digits of the field after it, and of the one after that; 0 where there is none.
    pub next: u8,
    pub last: u8,
    // Whether the field at hand still has no digit.
    pub bare: bool,
    // The values of the field before and of the field at hand.
    pub first: u32,
    pub value: u32,
}

// The value of a hex digit, or 16, as the grammar has it (`hex_of`).
fn hex(b: u8) -> u32
    ensures { result ≡ hex_of b }
{
    match b {
        b'0'..=b'9' => u32::from(b - b'0'),
        b'A'..=b'F' => u32::from(b - b'A' + 10),
        b'a'..=b'f' => u32::from(b - b'a' + 10),
        _ => 16,
    }
}

impl Reading {
    // A line before its first byte.
    pub fn begin() -> Reading
        ensures { result ≡ unread }
    {
        Reading {
            letter: 0,
            room: 0,
            next: 0,
            last: 0,
            bare: false,
            first: 0,
            value: 0,
        }
    }

    // A line with its letter, and the most digits of its two fields.
    pub fn lettered(letter: u8, next: u8, last: u8) -> Reading
        ensures { result ≡ reading_with letter 0 next last false 0 0 }
    {
        Reading {
            letter,
            next,
            last,
            ..Reading::begin()
        }
    }

    // A line that can name no call.
    pub fn skip() -> Reading
        ensures { result ≡ skipped }
    {
        Reading::lettered(1, 0, 0)
    }

    // The first byte of a line.
    #[tactic(auto, unfolding(letters::specs::Forms::forms, letters::specs::Forms::form_with))]
    fn letter(b: u8) -> Reading
        ensures { result ≡ letter_read (form_of b) }
    {
        match b {
            b'W' => Reading::lettered(b'W', 4, 8),
            b'R' => Reading::lettered(b'R', 4, 0),
            b'X' | b'F' => Reading::lettered(b, 2, 0),
            b'I' => Reading::lettered(b'I', 2, 2),
            b'D' => Reading::lettered(b'D', 8, 8),
            b'S' | b'T' | b'A' => Reading::lettered(b, 0, 0),
            _ => Reading::skip(),
        }
    }

    // The next field begins.
    fn space(self) -> Reading
        ensures { result ≡ spaced self }
    {
        if self.bare || self.next == 0 {
            return Reading::skip();
        }
        Reading {
            letter: self.letter,
            room: self.next,
            next: self.last,
            last: 0,
            bare: true,
            first: self.value,
            value: 0,
        }
    }

    // A digit of the field at hand.
    fn digit(self, d: u32) -> Reading
        ensures { result ≡ extended self d }
    {
        if 15 < d || self.room == 0 {
            return Reading::skip();
        }
        Reading {
            room: self.room - 1,
            bare: false,
            value: self.value % 0x1000_0000 * 16 + d,
            ..self
        }
    }

    // One byte of a line.
    pub fn eat(self, b: u8) -> Reading
        ensures { result ≡ eat_of self b }
    {
        if self.letter == 0 {
            return Reading::letter(b);
        }
        if b == b' ' {
            return self.space();
        }
        self.digit(hex(b))
    }

    // What a line that ends here names.
    pub fn named(self) -> Option<Call>
        ensures { result ≡ call_read self }
    {
        if self.bare || self.next != 0 {
            return None;
        }
        letters::call(self.letter, self.first, self.value)
    }
}

// A whole line, read.
fn read(line: &[u8]) -> Reading
    ensures { result ≡ reading_of line.now }
{
    line.iter().fold(Reading::begin(), |r, b| r.eat(*b))
}

// What a whole line names, as the grammar says it.
#[tactic(auto, using(crate::proofs::Grammar::reads_the_grammar))]
pub fn parse(line: &[u8]) -> Option<Call>
    ensures { result ≡ line_names line.now }
{
    read(line).named()
}
