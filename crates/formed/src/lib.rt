// Whether a bank is well formed, from its parts: `formed_ranges`, `formed_reset`, `formed_transfer`, `formed_burst`.
#![tactic(auto)]

ghost use Rattle.std.specs.Prelude.{◌≡◌, List, ℕ};
ghost use Rattle.bank.specs.Formed.{open_ok, well_formed};

use bank::{Bank, Control, Heads, Phase, Regs, State};

// Whether what is open, a burst or a transfer alone, is well formed. Without a burst no command is looked at.
#[tactic(auto, unfolding(bank::specs::Formed::open_ok))]
fn open_ok(c: Control, g: Regs, p: Phase, commands: &[u32; 16]) -> bool
    ensures { result ≡ open_ok c g p commands.now }
{
    if !burst_commands::is_bursting(c) {
        return formed_transfer::phase_ok(p);
    }
    formed_burst::burst_ok(c, g, p, commands)
}

// Whether a bank is well formed, by its parts, with the tables where they lie; the payload words are not looked at. A
// branch (`&&`) for each part: the tests of a part then compile to compares and jumps, and the flags are scanned last.
#[tactic(auto, unfolding(bank::specs::Formed::well_formed))]
pub fn parts_formed(s: State, h: Heads, flags: &[u8; 128], commands: &[u32; 16]) -> bool
    ensures { (ps : List ℕ) → result ≡ well_formed (record { state = s; heads = h; flags = flags.now; commands = commands.now; payloads = ps }) }
{
    (formed_ranges::queues_ok(s.caps, s.levels, h)
        & (formed_ranges::regs_ok(s.regs) & bank::marks_ok(s.regs.marks, s.caps)))
        && open_ok(s.control, s.regs, s.phase, commands)
        && formed_reset::reset_ok(s.control, s.phase, s.levels, h)
        && formed_ranges::flags_ok(flags)
}

// Whether a bank is well formed, by value: `formed.set-up`, `formed.fields`, `formed.moved`, `formed.part`,
// `formed.reset`, `formed.burst`.
pub fn well_formed(b: Bank) -> bool
    ensures { result ≡ well_formed b }
{
    // Copies of the two tables: a bank whose parts are lent is kept whole in memory, and copied whole for each call.
    let flags = b.flags;
    let commands = b.commands;
    parts_formed(b.state, b.heads, &flags, &commands)
}
