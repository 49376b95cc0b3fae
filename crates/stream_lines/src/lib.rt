// Records of a trace, each called and its line printed (`replay.program`). It knows no file and no piece. The two tests
// of bank and store are made once, before the records (`formed.kept`), and every call is lent an empty output
// (`burst.replay`). `out` takes the text; its bytes past the text are left free.
#![tactic(auto)]

ghost use Rattle.std.specs.Prelude.{◌≡◌, [], ◌*◌, ◌≤◌, length};
ghost use Rattle.number.specs.Refusals.{told};
ghost use Rattle.answer.specs.Given.{bank_with, controller};
ghost use Rattle.answer.specs.Memory.{memory, lent, left, controller_of};
ghost use Rattle.faults.specs.Faults.{fault_number};
ghost use Rattle.stream_model.specs.Stream.{lines};
ghost use Rattle.stream_lines.specs.Given.{shown_with, shown_bank};

use bank::{Bank, Heads, State};
use number::Refusal;

// The state and the heads after some records, whether a wrong one was met, and how many bytes of the text are filled: also
// where one was met, so no `Option`.
#[derive(Clone, Copy)]
struct Lines {
    state: State,
    heads: Heads,
    wrong: bool,
    count: usize,
}

// The same with a bank.
#[derive(Clone, Copy)]
pub struct Shown {
    pub bank: Bank,
    pub wrong: bool,
    pub count: usize,
}

// The first `n` records and their lines, on a state and its lent tables: a layer, no interface.
fn show_parts(
    st: State,
    heads: Heads,
    flags: &mut [u8; 128],
    commands: &mut [u32; 16],
    payloads: &mut [u32; 16],
    store: &mut [u32],
    output: &mut [u32],
    fault: Result<(), Refusal>,
    records: &[u8],
    n: usize,
    out: &mut [u8],
) -> Lines
    requires { (let m = memory flags commands payloads store output in told fault ≡ fault_number (bank_with st heads m.tables) (length m.store)) × (12 * n ≤ length records.now) × (12 * n ≤ length out.old) }
    ensures { (shown_with result (left flags commands payloads store output) out.new ≡ lines n records.now (controller_of st heads (lent flags commands payloads store output))) × (result.count ≤ 12 * n) }
{
    let mut s = st;
    let mut h = heads;
    // By number, as `each_record` counts the records.
    for i in 0..n {
        let Some(c) = record::at(records, i) else {
            return Lines {
                state: s,
                heads: h,
                wrong: true,
                count: 12 * i,
            };
        };
        let y = serve::step_parts(s, h, flags, commands, payloads, store, output, fault, c);
        s = y.state;
        h = y.heads;
        print::put(out, 12 * i, print::line(y.answer));
    }
    Lines {
        state: s,
        heads: h,
        wrong: false,
        count: 12 * n,
    }
}

// The first `n` records and their lines: a layer, no interface.
pub fn show(b: Bank, store: &mut [u32], records: &[u8], n: usize, out: &mut [u8]) -> Shown
    requires { (12 * n ≤ length records.now) × (12 * n ≤ length out.old) }
    ensures { (shown_bank result store.new out.new ≡ lines n records.now (controller b store.old [])) × (result.count ≤ 12 * n) }
{
    let fault = faults::fault(b, store.len());
    let mut bank = b;
    let y = show_parts(
        b.state,
        b.heads,
        &mut bank.flags,
        &mut bank.commands,
        &mut bank.payloads,
        store,
        &mut [],
        fault,
        records,
        n,
        out,
    );
    bank.state = y.state;
    bank.heads = y.heads;
    Shown {
        bank,
        wrong: y.wrong,
        count: y.count,
    }
}
