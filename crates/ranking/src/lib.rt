// What the seed list is, and why the way of counting gives it: document 01, port order 8.
//
// There is no code here. specs/Corpus, Ranked and Seed say document 01's words over plain lists: how often a string stands in
// a corpus, which strings are candidates, in which order they stand, what the list is. specs/Positions, Counting and Slots are
// the way of counting: the positions of all words, sorted by the text that follows, so that equal strings stand side by side
// and one walk finds each string once, in the order of spellings; a stable sort by worth does the rest. No table of strings
// is needed, and a string that is too rare never takes a slot. proofs/Theorems.antt has the statements: no second list fits
// the words, and what is counted this way, sorted, is that list.
#![tactic(auto)]
