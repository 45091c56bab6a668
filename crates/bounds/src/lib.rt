// What exp, ln and ln_1p promise: the bounds and exact values of document 01, port order 2.
//
// There is no code here. specs/Bounds.antt states the bounds over whole numbers, and
// proofs/Theorems.antt proves them of the definition in rounded steps, which the code of `math`
// equals. A crate of its own, so that a change to the code does not prove them again.
#![tactic(auto)]
