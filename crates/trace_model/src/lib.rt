// Trace files, 02 §1, as definitions: the format (`trace.form`), the look-up of a section (`trace.section`,
// `trace.refused`), what the first bytes tell; and their laws. It knows bytes, and not what a record says. The only
// code is the type of what the first bytes tell.
#![tactic(auto)]

use number::Refusal;

// What the first bytes of a file tell.
#[derive(Clone, Copy)]
pub enum Head {
    // More must come.
    More,
    // The file is refused.
    Wrong(Refusal),
    // How long mark and table are, and how many records follow.
    Right(usize, usize),
}
