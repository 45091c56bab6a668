// How far a rounded operation on f64 can lie from the exact one, and where it is exact.
//
// There is no code here. The laws stand in proofs/, over the words of specs/Units.antt, and are
// proved once for every kernel of `math` and every bound of `bounds`. A value that is finite and
// not negative is a whole number of units of 2^-1074, the smallest f64 above zero, so that every
// statement is one about whole numbers.
#![tactic(auto)]
