// What is proved of the calls `ask` and `commit`, from their promises. The crate has no code, and assumes
// nothing.

#![tactic(auto)]
