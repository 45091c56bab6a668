// What a word's lattice is, and what pruning does to it: document 01, port order 4 and 5, and demand 3, first part.
//
// There is no code here. specs/ says it over lists of characters, in document 01's sentences, and specs/Layout.antt
// lays lattices out flat, as the slices of a cache hold them. proofs/Theorems.antt has the theorem that pruned lattices
// are those built afresh from the survivors. The builder, the cache and retain are held to these definitions.
#![tactic(auto)]
