// What the best cut of a word is: document 01, port order 7, and demand 3, second part.
//
// There is no code here. specs/ says it of any scores that can be added and compared: a lattice by numbers, its cuts, their
// sums from left to right, and which cut wins. proofs/Theorems.antt has the theorem in one statement, for f64 scores at zero
// or below. The theorem is proved once over the laws of scores, so that other scores have only their laws to prove.
#![tactic(auto)]
