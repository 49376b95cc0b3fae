// Records of a trace (`trace.record`, `trace.wrong`): which call one names, its bytes, and how many some bytes have.
#![tactic(auto)]

ghost use Rattle.std.specs.Prelude.{◌≡◌, ◌+◌, ◌*◌, ◌≤◌, length};
ghost use Rattle.letters.specs.Forms.{form_of};
ghost use Rattle.record_model.specs.Record.{rec, named_in, record_at, whole_records};
ghost use Rattle.record_model.specs.Writer.{record_bytes};

use model::Call;

// The call of a record, by its fields: those that its letter does not use are 0.
#[tactic(auto, unfolding(letters::specs::Forms::forms, letters::specs::Forms::form_with))]
pub fn named(letter: u8, zero: u8, offset: u16, v: u32, w: u32) -> Option<Call>
    ensures { result ≡ named_in (form_of letter) (rec letter zero offset v w) }
{
    match (letter, zero, offset, v, w) {
        (b'W', 0, o, v, 0) => Some(Call::Write(o, v)),
        (b'R', 0, o, 0, 0) => Some(Call::Read(o)),
        (b'S', 0, 0, 0, 0) => Some(Call::Start),
        (b'T', 0, 0, 0, 0) => Some(Call::Send),
        (b'X', 0, 0, v, 0) => Some(Call::Receive(u8::try_from(v).ok()?)),
        (b'F', 0, 0, v, 0) => Some(Call::Finish(u8::try_from(v).ok()?)),
        (b'I', 0, 0, v, w) => Some(Call::Interrupt(u8::try_from(v).ok()?, u8::try_from(w).ok()?)),
        (b'D', 0, 0, v, w) => Some(Call::Request(v, w)),
        (b'A', 0, 0, 0, 0) => Some(Call::Take),
        _ => None,
    }
}

// The call of record i of a section: a layer, no interface.
pub fn at(records: &[u8], i: usize) -> Option<Call>
    requires { 12 * i + 12 ≤ length records.now }
    ensures { result ≡ record_at records.now i }
{
    let start = 12 * i;
    let letter = records[start];
    let zero = records[start + 1];
    let offset = little_endian::two_at(records, start + 2);
    let v = little_endian::four_at(records, start + 4);
    let w = little_endian::four_at(records, start + 8);
    named(letter, zero, offset, v, w)
}

// A record as it is written, by its fields.
pub fn bytes_of(letter: u8, offset: u32, v: u32, w: u32) -> [u8; 12]
    ensures { result ≡ record_bytes (rec letter 0 offset v w) }
{
    let [o0, o1, _, _] = offset.to_le_bytes();
    let [v0, v1, v2, v3] = v.to_le_bytes();
    let [w0, w1, w2, w3] = w.to_le_bytes();
    [letter, 0, o0, o1, v0, v1, v2, v3, w0, w1, w2, w3]
}

// How many whole records so many bytes have, up to a limit.
pub fn whole(limit: usize, bytes: &[u8]) -> usize
    ensures { (result ≡ whole_records limit bytes.now) × (12 * result ≤ length bytes.now) }
{
    limit.min(bytes.len() / 12)
}
