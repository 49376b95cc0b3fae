// What sends and receives share, in a burst and outside: the tests 5, 7, 20, 10 and 11 (`send.tests`, `receive.tests`),
// the count of bytes moved, and the place of a byte in its word (`payload.order`).
#![tactic(auto)]

ghost use Rattle.std.specs.Prelude.{◌≡◌, ℕ, ◌+◌, ◌-◌, ◌*◌, ◌%◌, ◌^◌, ◌<◌, ◌≤◌};
ghost use Rattle.number.specs.Refusals.{told_or};
ghost use Rattle.model.specs.Calls.{advanced};
ghost use Rattle.payload_bytes.specs.Bytes.{byte_number};

use bank::{State, Transfer};
use number::Refusal;
use ring::Bytes;

// The transfer with one byte more moved, and `w` as its part word.
pub fn advance(t: Transfer, w: u32) -> Transfer
    requires { t.moved.0 < t.length.0 }
    ensures { result ≡ advanced t w }
{
    let mut next = t;
    next.moved = Bytes(t.moved.0 + 1);
    next.part = w;
    next
}

// The tests of a byte that moves the way of the open transfer where `apt` holds: 5, 7, 20, 10, 11.
pub fn byte_tests(st: State, apt: bool) -> Result<(), Refusal>
    ensures { (last : ℕ) → told_or last result ≡ byte_number st.control st.phase apt last }
{
    let p = st.phase;
    effect::while_open(st)?;
    if phases::is_unattached(p) {
        return Err(Refusal::NotAttached);
    }
    if !apt {
        return Err(Refusal::NotThisKind);
    }
    let t = phases::transfer_of(p);
    if t.length.0 <= t.moved.0 {
        return Err(Refusal::LengthReached);
    }
    Ok(())
}

// The weight of a byte in its word, the first having the highest (`payload.order`). By selects: where a byte stands is
// hard to foresee.
pub fn weight(moved: u32) -> u32
    ensures { (result ≡ 2 ^ (24 - 8 * (moved % 4))) × (result ≤ 0x1000000) × (0 < result) }
{
    let k = moved % 4;
    let low = bank::select(k == 2, 0x100, 1);
    let mid = bank::select(k == 1, 0x10000, low);
    bank::select(k == 0, 0x1000000, mid)
}

// The part word with one byte more.
pub fn gathered(part: u32, moved: u32, byte: u8) -> u32
    requires { part % 2 ^ (32 - 8 * (moved % 4)) ≡ 0 }
    ensures { result ≡ part + byte * 2 ^ (24 - 8 * (moved % 4)) }
{
    part + byte as u32 * weight(moved)
}
