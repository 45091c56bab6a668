// The demands upon the whole, as theorems.
//
// There is no code here. proofs/NoSecond.antt says that no second outcome of training fits its contract. proofs/Demands.antt is
// the file to open first: each demand in the document's words, and its theorem.
#![tactic(auto)]
