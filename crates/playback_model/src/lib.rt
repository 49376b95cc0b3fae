// Replay of a section of a trace, as a definition (`replay.calls`, `replay.tells`), its laws, and demand 3 of it
// (`demand.replays`). The only code is the type of what a replay tells.
#![tactic(auto)]

use bank::Answer;

// What a replay tells (`replay.tells`): its number, how many records it did, and the answer of the last of these.
#[derive(Clone, Copy)]
pub struct Report {
    pub number: u32,
    pub count: usize,
    pub answer: Answer,
}
