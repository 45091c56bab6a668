// Laws that several crates cite: a choice by a test, a table's rule by one computed test, and that an equation leaves no
// second outcome. There is no code here.
#![tactic(auto)]
