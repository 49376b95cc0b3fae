// The two tests before every call (`answer.bank`): a well-formed bank, and a store as long as its capacities together;
// and, as a law, that no call changes what they say (`formed.kept`). It knows no call's own rules.
#![tactic(auto)]

ghost use Rattle.std.specs.Prelude.{◌≡◌, true, List, ℕ, eqb};
ghost use Rattle.number.specs.Refusals.{told};
ghost use Rattle.bank.specs.SetUp.{total};
ghost use Rattle.faults.specs.Faults.{fault_by, fault_number};

use bank::{Bank, Counts, Heads, State};
use number::Refusal;

// Of a well-formed bank: 22 for a store of another length.
pub fn length_fault(caps: Counts, len: usize) -> Result<(), Refusal>
    ensures { told result ≡ fault_by true (eqb len (total caps)) }
{
    if len == bank::total_of(caps) {
        Ok(())
    } else {
        Err(Refusal::StoreLength)
    }
}

// 21 for a bank that is not well formed, 22 for a store of another length than its queues need.
pub fn fault(b: Bank, len: usize) -> Result<(), Refusal>
    ensures { told result ≡ fault_number b len }
{
    if !formed::well_formed(b) {
        return Err(Refusal::NotWellFormed);
    }
    length_fault(b.state.caps, len)
}

// The same of a bank by its parts, with the tables where they lie.
pub fn parts_fault(
    s: State,
    h: Heads,
    flags: &[u8; 128],
    commands: &[u32; 16],
    len: usize,
) -> Result<(), Refusal>
    ensures { (ps : List ℕ) → told result ≡ fault_number (record { state = s; heads = h; flags = flags.now; commands = commands.now; payloads = ps }) len }
{
    if !formed::parts_formed(s, h, flags, commands) {
        return Err(Refusal::NotWellFormed);
    }
    length_fault(s.caps, len)
}
