// For tests: what a session of runs is lent, read from the stream and written back to it: a patch, states, and what a host does with the
// external buffers. A patch of plain numbers, as a file says one, is written in the same words. Rests on `stream` for the words and on
// `flat` for the patch that numbers name.
#![tactic(auto)]

pub mod flat_words;
pub mod patch;
pub mod setting;
pub mod states;
