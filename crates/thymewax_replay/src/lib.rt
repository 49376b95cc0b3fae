// The archive for hosts: its replay. A crate of its own, and so a module of its own for the compiler: the calls then have
// one caller in each, and are inlined in the replay's loop as in the step.
#![tactic(auto)]

ghost use Rattle.std.specs.Prelude.{◌≡◌};
ghost use Rattle.host_parts.specs.Lent.{lent_all, left_all, gave, replay_on};

// Replay of a section of a trace, at most `limit` of its records, on the bank that is kept; where none is, each record is
// answered 21. Gives its number; at 0 and 27 `told` takes how many records it did, and value and number of the last one's
// answer.
#[unsafe(no_mangle)]
pub extern "C" fn thymewax_replay(
    image: &mut [u32],
    flags: &mut [u8; 128],
    commands: &mut [u32; 16],
    payloads: &mut [u32; 16],
    store: &mut [u32],
    file: &[u8],
    i: u32,
    limit: usize,
    told: &mut [u32],
) -> u32
    ensures { gave result (left_all image flags commands payloads store told) ≡ replay_on file.now i limit (lent_all image flags commands payloads store told) }
{
    host_replay::replay(
        image, flags, commands, payloads, store, file, i, limit, told,
    )
}
