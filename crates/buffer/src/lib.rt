// A buffer for input that comes in pieces: the bytes that a piece did not use go to the front. It knows bytes alone.
#![tactic(auto)]

ghost use Rattle.std.specs.Prelude.{◌≡◌, ◌+◌, ◌≤◌, length, take, drop};

// The `held` bytes from `used` on, moved to the front; those behind them are left free. A layer: the caller has to know
// that they lie inside.
pub fn shift(buf: &mut [u8], used: usize, held: usize)
    requires { used + held ≤ length buf.old }
    ensures { take held buf.new ≡ take held (drop used buf.old) }
{
    buf.copy_within(used..used + held, 0);
}
