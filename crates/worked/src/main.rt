// A program that runs worked examples on the interface: 01's session, 004's payload words, and address words with both
// parity bits for all 128 addresses. It prints answers, one a line: all those of the session, then of each example
// those that it is about. Every call is lent an empty output: there is no burst.
#![tactic(auto)]

ghost use Rattle.std.specs.Prelude.{◌<◌};

use bank::{Answer, Bank};
use model::Call;
use std::io::Write;

const ENABLE: u16 = 0x040;

const CMD: u16 = 0x0d4;

const CMDR: u16 = 0x0d8;

const SDO: u16 = 0x0dc;

const SDI: u16 = 0x0e0;

const DEV_CHAR: u16 = 0x180;

// Address 8, attached.
const DEVICE: u32 = 0x1102;

// A bank with its store.
#[derive(Clone, Copy)]
struct Board {
    bank: Bank,
    store: [u32; 20],
}

impl Board {
    // The session's bank (`session.bank`), and its store.
    fn fresh() -> Board {
        Board {
            bank: setup::session_bank(),
            store: [0; 20],
        }
    }

    // A fresh board, released, after so many calls.
    fn released(calls: &[Call]) -> Board {
        let mut board = Board::fresh();
        board.call(Call::Write(ENABLE, 0));
        board.run(calls);
        board
    }

    fn call(&mut self, call: Call) -> Answer {
        let mut none = [0u32; 0];
        let out = controller::step(self.bank, &mut self.store, &mut none, call);
        self.bank = out.bank;
        out.answer
    }

    // Calls whose answers are not printed.
    fn run(&mut self, calls: &[Call]) {
        for call in calls {
            self.call(*call);
        }
    }

    // Calls whose answers are printed, where the output takes them.
    fn say<W: Write>(&mut self, output: &mut W, calls: &[Call]) {
        for call in calls {
            let text = print::line(self.call(*call));
            let _ = output.write_all(&text);
        }
    }
}

// The worked session of 01, 'A session'.
fn session<W: Write>(output: &mut W) {
    Board::fresh().say(
        output,
        &[
            Call::Write(ENABLE, 0),
            Call::Write(DEV_CHAR, DEVICE),
            Call::Write(SDO, 0xa5c3_0000),
            Call::Write(CMD, 0x210),
            Call::Start,
            Call::Send,
            Call::Send,
            Call::Finish(0),
            Call::Read(CMDR),
            Call::Read(CMDR),
        ],
    );
}

// A fresh board, released, on which a command for device 8 has started.
fn started(command: u32) -> Board {
    Board::released(&[
        Call::Write(DEV_CHAR, DEVICE),
        Call::Write(CMD, command),
        Call::Start,
    ])
}

// 004, 'SDI and SDO': the first row of the SDO table, a write of four bytes.
fn sent<W: Write>(output: &mut W) {
    let mut board = started(0x410);
    board.call(Call::Write(SDO, 0x7856_3412));
    board.say(output, &[Call::Send; 4]);
}

// 004, 'SDI and SDO': the SDI table, a read of five bytes.
fn received<W: Write>(output: &mut W) {
    let mut board = started(0x511);
    for byte in 0..5 {
        board.call(Call::Receive(byte));
    }
    board.call(Call::Finish(0));
    board.say(output, &[Call::Read(SDI); 2]);
}

// The SDO word of an address and a parity bit.
fn word(address: u32, parity: u32) -> u32
    requires { (address < 128) × (parity < 2) }
{
    address * 0x0200_0000 + parity * 0x0100_0000
}

// One device takes an address (`take.address`): 004, 'Dynamic Address Assignment'.
fn assigned<W: Write>(output: &mut W, word: u32) {
    let mut board = Board::released(&[
        Call::Write(CMD, 0x0040_0000),
        Call::Write(CMD, 0x07),
        Call::Start,
        Call::Request(0, 0),
        Call::Write(SDO, word),
    ]);
    board.say(output, &[Call::Take]);
}

// An address with the parity bit that makes the number of ones odd, then with the other.
fn both_parities<W: Write>(output: &mut W, address: u32)
    requires { address < 128 }
{
    let parity = 1 - address.count_ones() % 2;
    assigned(output, word(address, parity));
    assigned(output, word(address, 1 - parity));
}

fn main(rt: HostRuntime) {
    let mut output = rt.stdout();
    session(&mut output);
    sent(&mut output);
    received(&mut output);
    for address in 0..128 {
        both_parities(&mut output, address);
    }
}
