// Orders of steps, over any alphabet: when two orders end the same. This crate is its specs and proofs; it knows nothing of audio and has no code.
#![tactic(auto)]
