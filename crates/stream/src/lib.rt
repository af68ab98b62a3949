// For tests: standard input and output as two streams of words. Rests on `words` for the words and on `std::io` for the streams.
#![tactic(auto)]

pub mod place;
