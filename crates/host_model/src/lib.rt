// The calls of a host on a bank that it keeps as an image. specs/ has each as a definition, and what they promise;
// proofs/ has their laws. No function is here.
#![tactic(auto)]
