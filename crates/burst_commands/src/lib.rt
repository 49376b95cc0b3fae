// Which commands an offload burst runs, and where it stands: specs/Bursts.antt in code.
#![tactic(auto)]

ghost use Rattle.std.specs.Prelude.{◌≡◌, ◌≤◌};
ghost use Rattle.bank.specs.Bursts.{offloads, span, carried, all_carried, reads_in, bursting, opens, gathered_bytes};

use bank::{Control, Phase, Regs};
use ring::Bytes;

// Whether OPS has offload mode (`ops.keeps`).
pub fn is_offload(g: Regs) -> bool
    ensures { result ≡ offloads g }
{
    bank::bit(0, u32::from(g.ops))
}

// How many offload commands a burst runs (`burst.commands`).
pub fn span_of(g: Regs) -> usize
    ensures { (result ≡ span g) × (result ≤ 15) }
{
    usize::from(g.ops / 2 % 16)
}

// Whether a burst can run a command: a private one of at most 4 bytes (29 of `trigger.tests`).
fn is_carried(w: u32) -> bool
    ensures { result ≡ carried w }
{
    !bank::bit(22, w) & (w / 0x100 % 0x1000 <= 4)
}

// Whether a burst can run each of the first `n` commands.
pub fn all_carried(commands: &[u32; 16], n: usize) -> bool
    requires { n ≤ 16 }
    ensures { result ≡ all_carried n commands.now }
{
    commands[..n].iter().all(|w| is_carried(*w))
}

// How many of the first `n` commands are reads. A loop that adds their bits: a filter that is counted has a branch for
// each command, and a burst of reads and writes then takes several times as long.
#[tactic(auto, unfolding(bank::specs::Bursts::reads_in))]
pub fn reads_in(commands: &[u32; 16], n: usize) -> usize
    requires { n ≤ 16 }
    ensures { (result ≡ reads_in n commands.now) × (result ≤ n) }
{
    let mut count = 0;
    for w in &commands[..n] {
        count += (*w % 2) as usize;
    }
    count
}

// Whether a burst is open.
pub fn is_bursting(c: Control) -> bool
    ensures { result ≡ bursting c }
{
    c.burst != 0
}

// Whether the transfer of the command `w` is open.
pub fn is_open(w: u32, p: Phase) -> bool
    ensures { result ≡ opens w p }
{
    let t = phases::transfer_of(p);
    phases::is_private(t.kind)
        & (t.header == bank::bit(21, w))
        & (t.length.0 == w / 0x100 % 0x1000)
        & bank::select(
            bank::bit(0, w),
            phases::is_reading(p),
            phases::is_writing(p),
        )
}

// The bytes that the part word of a burst's transfer holds.
pub fn gathered_bytes(p: Phase) -> Bytes
    ensures { result.0 ≡ gathered_bytes p }
{
    bank::select(
        phases::is_reading(p),
        phases::transfer_of(p).moved,
        Bytes(0),
    )
}
