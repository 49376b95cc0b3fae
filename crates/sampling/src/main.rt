// A program that samples a sensor by offload bursts, on the interface: a thousand bursts of three reads of two bytes,
// one line of a CSV table for each. It is the sensor too, with made-up waves. The last line says whether every answer
// had the number 0.
#![tactic(auto)]

ghost use Rattle.std.specs.Prelude.{◌≡◌, ◌+◌, ◌≤◌};

use bank::Bank;
use model::Call;
use std::io::Write;

const ENABLE: u16 = 0x040;

const OPS: u16 = 0x100;

const DEV_CHAR: u16 = 0x180;

// The first offload commands.
const COMMAND0: u16 = 0x2c0;

const COMMAND1: u16 = 0x2c4;

const COMMAND2: u16 = 0x2c8;

// Address 8, attached.
const DEVICE: u32 = 0x1102;

// A private read of two bytes from address 8.
const READ: u32 = 0x211;

// Offload mode, three commands.
const MODE: u32 = 0x07;

// The code of a transfer that the device did not acknowledge (`receipt.codes`).
const REFUSED: u8 = 6;

const SAMPLES: u32 = 1000;

// A bank, its store, the words of the last burst, and whether every answer so far had the number 0.
#[derive(Clone, Copy)]
struct Board {
    bank: Bank,
    store: [u32; 20],
    words: [u32; 3],
    good: bool,
}

impl Board {
    // A board that waits for triggers.
    fn ready() -> Board {
        let mut board = Board {
            bank: setup::session_bank(),
            store: [0; 20],
            words: [0; 3],
            good: true,
        };
        let writes = [
            (ENABLE, 0),
            (DEV_CHAR, DEVICE),
            (COMMAND0, READ),
            (COMMAND1, READ),
            (COMMAND2, READ),
            (OPS, MODE),
        ];
        for (offset, word) in writes {
            board.call(Call::Write(offset, word));
        }
        board
    }

    fn call(&mut self, call: Call) {
        let out = controller::step(self.bank, &mut self.store, &mut self.words, call);
        self.bank = out.bank;
        self.good &= out.answer.number == 0;
    }

    // The sensor answers a read with a value of 16 bits, its high byte first.
    fn reply(&mut self, value: u32) {
        self.call(Call::Receive((value / 256 % 256) as u8));
        self.call(Call::Receive((value % 256) as u8));
        self.call(Call::Finish(0));
    }

    // One burst. Every hundredth read of the square wave is not acknowledged, and gives 0.
    fn burst(&mut self, sample: u32) {
        self.call(Call::Trigger);
        self.reply(ramp(sample));
        self.reply(triangle(sample));
        if sample % 100 == 99 {
            self.call(Call::Finish(REFUSED));
        } else {
            self.reply(square(sample));
        }
    }
}

// The three waves, by the number of the sample.
fn ramp(sample: u32) -> u32 {
    sample % 1024 * 64
}

fn triangle(sample: u32) -> u32 {
    let t = sample % 200;
    if t < 100 { t * 600 } else { (200 - t) * 600 }
}

fn square(sample: u32) -> u32 {
    sample / 25 % 2 * 50000 + 1000
}

// The digits of a number: how many.
fn decimal(n: u32, digits: &mut [u8; 20]) -> usize
    ensures { result ≤ 10 }
{
    io::decimal(u64::from(n), digits)
}

// Lines that are not written yet: the first `at` bytes of a text.
#[derive(Clone, Copy)]
struct Page {
    text: [u8; 4096],
    at: usize,
}

impl Page {
    // A number in decimal, ten digits at most, and a byte after it.
    fn put(&mut self, n: u32, after: u8)
        requires { self.old.at + 11 ≤ 4096 }
        ensures { self.new.at ≤ self.old.at + 11 }
    {
        let mut digits = [0u8; 20];
        let k = decimal(n, &mut digits);
        let end = self.at + k;
        let text = &mut self.text[..];
        text[self.at..end].copy_from_slice(&digits[..k]);
        text[end] = after;
        self.at = end + 1;
    }

    // A line of the table: of each word the two bytes that were read.
    fn line(&mut self, sample: u32, words: [u32; 3])
        requires { self.old.at + 44 ≤ 4096 }
        ensures { self.new.at ≤ self.old.at + 44 }
    {
        let [a, b, c] = words;
        self.put(sample, b',');
        self.put(a / 65536, b',');
        self.put(b / 65536, b',');
        self.put(c / 65536, b'\n');
    }

    // The page is written, where the output takes it, and begins anew.
    fn write<W: Write>(&mut self, output: &mut W)
        requires { self.old.at ≤ 4096 }
        ensures { self.new.at ≡ 0 }
    {
        let _ = output.write_all(&self.text[..self.at]);
        self.at = 0;
    }

    // A page without room for another line is written.
    fn turn<W: Write>(&mut self, output: &mut W)
        requires { self.old.at ≤ 4096 }
        ensures { self.new.at + 44 ≤ 4096 }
    {
        if 4096 < self.at + 44 {
            self.write(output);
        }
    }
}

// A burst with an answer that is not 0 ends the table, without its line.
fn main(rt: HostRuntime) {
    let mut output = rt.stdout();
    let mut page = Page {
        text: [0; 4096],
        at: 0,
    };
    let mut board = Board::ready();
    let _ = output.write_all(b"sample,channel0,channel1,channel2\n");
    for sample in 0..SAMPLES {
        board.burst(sample);
        if !board.good {
            break;
        }
        page.line(sample, board.words);
        page.turn(&mut output);
    }
    page.write(&mut output);
    let _ = output.write_all(if board.good {
        b"# all answers 0\n"
    } else {
        b"# an answer was not 0\n"
    });
}
