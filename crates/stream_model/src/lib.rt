// Replay of a trace that comes in pieces, as definitions (`replay.program`, `replay.ends`, `replay.length`): what a
// piece does and prints, and a whole input; their laws, and demand 3 of it (`demand.replays`). The only code is the
// type of what is still to come.
#![tactic(auto)]

// What of a trace is still to come.
#[derive(Clone, Copy)]
pub enum Stage {
    // The mark and the table.
    Opening,
    // So many records.
    Records(usize),
    // Nothing: the replay has ended.
    Over,
}
