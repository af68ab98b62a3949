// Words of eight bytes, low byte first, taken from lent bytes and put into them: how numbers stand in a file or a stream. An f64 is its bits,
// and every NaN is written as the same word. Every function takes every input.
#![tactic(auto)]

pub mod number;
pub mod reader;
pub mod writer;
