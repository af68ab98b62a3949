// The order theorem and the listed cases, over the definition of a run. This crate is its specs and proofs; it has no code.
#![tactic(auto)]
