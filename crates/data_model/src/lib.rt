// Where every data word went (02 §13): as definitions the ledger of a list of calls, why each word left SDO, what came to
// SDI, and the two claims; and their proof. No code is here.
#![tactic(auto)]
