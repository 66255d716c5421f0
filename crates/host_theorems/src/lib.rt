// What is proved of the host's calls from their promises: what a refusal leaves, that the output reads back,
// that a list is single calls one after another, what operators' tickets keep, which rule is told. It has no
// function.

#![tactic(auto)]
