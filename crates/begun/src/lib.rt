// From the seed list to the first round of training: document 01, port order 8 to 9.
//
// There is no code here. Crate `start` leaves words, pieces and scores in slices. specs/ says which task and which first model
// they are. proofs/ says that a build is in order with them, and that the rounds may begin.
#![tactic(auto)]
