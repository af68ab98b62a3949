// The kinds of stage, each a machine: parameters become coefficients once per window, and one step works one sample.
#![tactic(auto)]

pub mod filter;
mod machine;
pub mod oscillator;
pub mod parameter;
pub mod plain;
pub mod waveguide;
pub mod window;
