// That the pieces of a cut spell the word. There is no code here: it joins what the builder's definitions say of edges with what
// the best cut's say of chains of them.
#![tactic(auto)]
