// Worked examples of the sources, computed on the definitions of `rdfs`. The crate has no function and
// assumes nothing.

#![tactic(auto)]
