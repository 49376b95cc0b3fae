// A part of well formed: the mode and the commands of an open burst, the place where it stands, and the transfer of the
// command there (`formed.burst`).
#![tactic(auto)]

ghost use Rattle.std.specs.Prelude.{◌≡◌};
ghost use Rattle.bank.specs.Bursts.{place};
ghost use Rattle.bank.specs.Formed.{burst_ok};

use bank::{Control, Phase, Regs};

// The place of the command whose transfer is open.
fn place_of(c: Control) -> usize
    ensures { result ≡ place c }
{
    usize::from(c.burst.saturating_sub(1))
}

// Whether an open burst is well formed.
#[tactic(auto, unfolding(bank::specs::Formed::burst_ok))]
pub fn burst_ok(c: Control, g: Regs, p: Phase, commands: &[u32; 16]) -> bool
    ensures { result ≡ burst_ok c g p commands.now }
{
    let span = burst_commands::span_of(g);
    let command = bank::entry_at(commands, place_of(c), 0);
    burst_commands::is_offload(g)
        & burst_commands::all_carried(commands, span)
        & (usize::from(c.burst) <= span)
        & burst_commands::is_open(command, p)
        & formed_transfer::transfer_ok(
            phases::transfer_of(p),
            phases::limit_of(p),
            burst_commands::gathered_bytes(p),
        )
}
