// Replay of a trace that comes in pieces (`replay.program`): bytes in, a line for each record out. It knows pieces and
// what is still to come, and no program. `out` takes the text; its bytes past the text are left free.
#![tactic(auto)]

ghost use Rattle.std.specs.Prelude.{◌≡◌, ◌+◌, ◌≤◌, length};
ghost use Rattle.answer.specs.Memory.{bank_lent_store};
ghost use Rattle.trace_model.specs.Head.{head_of};
ghost use Rattle.stream_model.specs.Stream.{opened_by, stream_fed};
ghost use Rattle.stream_end.specs.Given.{fed_left, Bounded};

use bank::Bank;
use stream_end::StreamTurn;
use stream_model::Stage;
use trace_model::Head;

// The first piece: a layer, no interface.
fn open(b: Bank, store: &mut [u32], bytes: &[u8], out: &mut [u8]) -> StreamTurn
    requires { length bytes.now + 12 ≤ length out.old }
    ensures { (fed_left result store out ≡ opened_by (bank_lent_store b store) bytes.now (head_of bytes.now)) × Bounded 518 result bytes out }
{
    match trace::read_head(bytes) {
        Head::More => StreamTurn {
            bank: b,
            stage: Stage::Opening,
            used: 0,
            count: 0,
        },
        Head::Wrong(why) => stream_end::close(b, u32::from(why), bytes.len(), out, 0),
        Head::Right(len, records) => {
            let f = stream_records::feed_records(b, store, records, &bytes[len..], out);
            StreamTurn {
                used: len + f.used,
                ..f
            }
        }
    }
}

// A piece of the input, behind the bytes of the last piece that were not used: a layer, no interface. The text has room
// for a line for each record, and one more; less than 518 bytes are left.
#[tactic(auto, unfolding(stream_model::specs::Stream::stream_fed))]
pub fn feed(b: Bank, store: &mut [u32], stage: Stage, bytes: &[u8], out: &mut [u8]) -> StreamTurn
    requires { length bytes.now + 12 ≤ length out.old }
    ensures { (fed_left result store out ≡ stream_fed (bank_lent_store b store) stage bytes.now) × Bounded 518 result bytes out }
{
    match stage {
        Stage::Opening => open(b, store, bytes, out),
        Stage::Records(due) => stream_records::feed_records(b, store, due, bytes, out),
        Stage::Over => StreamTurn {
            bank: b,
            stage: Stage::Over,
            used: bytes.len(),
            count: 0,
        },
    }
}
