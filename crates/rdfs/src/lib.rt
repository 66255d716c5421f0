// The definitions that every contract cites, in specs/, and the theorems on them, in proofs/. It has no
// function.

#![tactic(auto)]
