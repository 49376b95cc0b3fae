// An answer as text (`session.answers`): one line of twelve bytes. It knows no call.
#![tactic(auto)]

ghost use Rattle.std.specs.Prelude.{◌≡◌, ◌++◌, ◌+◌, ◌/◌, ◌%◌, ◌<◌, ◌≤◌, length, take};
ghost use Rattle.print.specs.Line.{glyph, line_of};

use bank::Answer;

// The digit of `n` that has the weight `unit`, in ASCII.
fn digit(n: u32, base: u32, unit: u32) -> u8
    requires { (0 < base) × (base ≤ 16) × (0 < unit) }
    ensures { result ≡ glyph (n / unit % base) }
{
    let d = (n / unit % base) as u8;
    if d < 10 { b'0' + d } else { b'a' - 10 + d }
}

// The line of an answer (`session.answers`).
pub fn line(a: Answer) -> [u8; 12]
    ensures { result ≡ line_of a.value a.number }
{
    let Answer {
        value: v,
        number: n,
    } = a;
    [
        digit(v, 16, 0x1000_0000),
        digit(v, 16, 0x0100_0000),
        digit(v, 16, 0x0010_0000),
        digit(v, 16, 0x0001_0000),
        digit(v, 16, 0x1000),
        digit(v, 16, 0x0100),
        digit(v, 16, 0x0010),
        digit(v, 16, 1),
        b' ',
        digit(n, 10, 10),
        digit(n, 10, 1),
        b'\n',
    ]
}

// The bytes of a line, into the text from a place on: a layer, no interface.
pub fn put(out: &mut [u8], at: usize, text: [u8; 12])
    requires { at + 12 ≤ length out.old }
    ensures { take (at + 12) out.new ≡ take at out.old ++ text }
{
    out[at..at + 12].copy_from_slice(&text);
}
