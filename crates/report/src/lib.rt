// The level report: six figures over any number of samples, stretch by stretch. Rests on `words` for a sample's bits and for samples in lent bytes.
#![tactic(auto)]

pub mod refused;
pub mod report;
pub mod sample;
