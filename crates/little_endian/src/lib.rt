// Numbers of two and of four bytes, the low byte first, as traces have them (`trace.form`). It knows bytes alone.
// Layers: the caller has to know that the place lies inside.
#![tactic(auto)]

ghost use Rattle.std.specs.Prelude.{◌≡◌, ◌+◌, ◌≤◌, length};
ghost use Rattle.little_endian.specs.Numbers.{two_at, four_at};

// The numbers of two and of four bytes at a place.
pub fn two_at(file: &[u8], at: usize) -> u16
    requires { at + 2 ≤ length file.now }
    ensures { result ≡ two_at file.now at }
{
    u16::from_le_bytes([file[at], file[at + 1]])
}

pub fn four_at(file: &[u8], at: usize) -> u32
    requires { at + 4 ≤ length file.now }
    ensures { result ≡ four_at file.now at }
{
    u32::from_le_bytes([file[at], file[at + 1], file[at + 2], file[at + 3]])
}
