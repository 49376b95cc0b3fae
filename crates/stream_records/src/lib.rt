// The whole records of a piece of a trace: their lines, and what is still to come, or the number at which the replay
// ends (`replay.ends`). It knows how many records are due, and no table. `out` takes the text; its bytes past the text
// are left free.
#![tactic(auto)]

ghost use Rattle.std.specs.Prelude.{◌≡◌, ◌+◌, ◌≤◌, length};
ghost use Rattle.answer.specs.Memory.{bank_lent_store};
ghost use Rattle.stream_model.specs.Stream.{records_of};
ghost use Rattle.stream_end.specs.Given.{fed_left, Bounded};

use bank::Bank;
use number::Refusal;
use stream_end::StreamTurn;
use stream_model::Stage;

// The records of a piece: a layer, no interface.
pub fn feed_records(
    b: Bank,
    store: &mut [u32],
    due: usize,
    bytes: &[u8],
    out: &mut [u8],
) -> StreamTurn
    requires { length bytes.now + 12 ≤ length out.old }
    ensures { (fed_left result store out ≡ records_of (bank_lent_store b store) due bytes.now) × Bounded 12 result bytes out }
{
    let n = record::whole(due, bytes);
    let p = stream_lines::show(b, store, bytes, n, out);
    let len = bytes.len();
    if p.wrong {
        return stream_end::close(p.bank, u32::from(Refusal::WrongRecord), len, out, p.count);
    }
    if (n == due) & (12 * n < len) {
        return stream_end::close(p.bank, u32::from(Refusal::WrongTable), len, out, p.count);
    }
    StreamTurn {
        bank: p.bank,
        stage: Stage::Records(due - n),
        used: 12 * n,
        count: p.count,
    }
}
