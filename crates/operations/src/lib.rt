// For tests: functions of `numbers` and single operations of `util` and `magnetron`, asked one by one, sorts 2 to 9 of the program `replay`.
// Its file FORMAT.md defines the cases. Nothing is judged here: what is bad is passed on, and the operations refuse it. Rests on `stream` for
// the words.
#![tactic(auto)]

mod all_pass;
mod comb;
pub mod device;
mod function;
pub mod functions;
mod low_pass;
mod operation;
pub mod outcome;
pub mod pools;
mod request;
mod ring;
pub mod single;
mod soft_clip;
