// What a host calls: the run of a patch, with its checks. Every input gets an answer.
// Stands above `stages` and magnetron, and relies on their published contracts.
#![tactic(auto)]

pub mod check;
pub mod records;
pub mod run;
pub mod turn;
