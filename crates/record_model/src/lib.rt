// Records of a trace (`trace.record`), as definitions: the call that one names, a writer, and what goes over the records of a
// section. proofs/ has the laws. No function is here.
#![tactic(auto)]
