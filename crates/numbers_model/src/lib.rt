// Demand 1 of paper 00 (`answer.every`): as definitions the numbers of each call, in the order of its tests, and an
// input that reaches each of them; and its proof. No code is here.
#![tactic(auto)]
