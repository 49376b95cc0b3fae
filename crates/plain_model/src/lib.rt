// The plain engine, as definitions, to be read before the rings: a queue lies at the front of its area, and words that
// leave it move the rest down; that it agrees with the ring engine, as a law. The only code is the types of
// its bank, of a queue in its area and of what a call gives. docs/PLAIN.md begins here.
#![tactic(auto)]

use bank::{Answer, State};

// The state of one controller (`bank.one`), without the words of its queues and without heads: what calls
// decide by, the flags of the 128 devices (`device.flags`), the offload commands and the offload data words.
#[derive(Clone, Copy)]
pub struct PlainBank {
    pub state: State,
    pub flags: [u8; 128],
    pub commands: [u32; 16],
    pub payloads: [u32; 16],
}

// A queue in its area (`plain.areas`): where the area begins in the store, how many words it holds at most, and how many
// it holds.
#[derive(Clone, Copy)]
pub struct PlainArea {
    pub base: usize,
    pub cap: u32,
    pub level: u32,
}

// The bank after a call, and its answer.
#[derive(Clone, Copy)]
pub struct PlainOut {
    pub bank: PlainBank,
    pub answer: Answer,
}
