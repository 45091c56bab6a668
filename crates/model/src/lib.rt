// What training does to pieces with scores: document 01, port order 9 to 11.
//
// There is no code here. specs/Model.antt says it over lists of characters, in document 01's sentences. The crates `shrink`,
// `rounds` and `training` are held to it. proofs/Theorems.antt has what document 01 says of the rounds: "Below 1, each round
// loses at least one piece, and a list over target ends at exactly target."
#![tactic(auto)]
