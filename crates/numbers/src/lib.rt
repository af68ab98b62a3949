// The functions of f64 that the engine works out itself. Each takes every f64, and each contract says what it gives.
#![tactic(auto)]

pub mod ceil;
pub mod small;
pub mod turns;
pub mod zeros;
