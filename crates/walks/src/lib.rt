// Rules for proofs that walk through MIR by hand, over any types, values and locals, where the check finds no proof of
// lent memory by itself. Calls in place stood on them; no crate does now. Proofs alone: no code, and nothing of the
// controller.
#![tactic(auto)]
