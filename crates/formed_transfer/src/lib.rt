// A part of well formed: the length of the open transfer (`formed.fields`), the bytes that it has moved
// (`formed.moved`) and its part word (`formed.part`).
#![tactic(auto)]

ghost use Rattle.std.specs.Prelude.{◌≡◌, ◌-◌, ◌*◌, ◌%◌, ◌^◌, eqb};
ghost use Rattle.bank.specs.Formed.{transfer_ok, phase_ok};

use bank::{Phase, Transfer};
use ring::Bytes;

// Whether a part word with `parts` bytes at its top has nothing below them. By constants: a remainder by a number that is
// not known is a division.
fn part_ok(part: u32, parts: u32) -> bool
    ensures { result ≡ eqb (part % 2 ^ (32 - 8 * parts)) 0 }
{
    match parts {
        0 => part == 0,
        1 => part % 0x100_0000 == 0,
        2 => part % 0x1_0000 == 0,
        3 => part % 0x100 == 0,
        _ => true,
    }
}

// Whether a transfer has its length in range, at most `most` bytes moved, and 0 behind `parts` bytes of its part word.
pub fn transfer_ok(t: Transfer, most: Bytes, parts: Bytes) -> bool
    ensures { result ≡ transfer_ok t most.0 parts.0 }
{
    (t.length.0 < 4096) & (t.moved.0 <= most.0) & part_ok(t.part, parts.0)
}

// Whether the transfer that is open outside a burst is well formed.
#[tactic(auto, unfolding(bank::specs::Formed::phase_ok))]
pub fn phase_ok(p: Phase) -> bool
    ensures { result ≡ phase_ok p }
{
    transfer_ok(
        phases::transfer_of(p),
        phases::limit_of(p),
        phases::part_bytes(p),
    )
}
