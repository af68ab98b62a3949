// The stages of a patch, by themselves: kinds, what they remember, their machine for a window, their rings, and what these tell. What a run makes of them, the
// crate `engine` says.
// Stands above magnetron (buffers) and microwave (the machines of each kind), and relies on their published contracts.
#![tactic(auto)]

pub mod kind;
pub mod machine;
pub mod patch;
pub mod reach;
pub mod stage;
pub mod state;
pub mod window;
