// What a host in C or Rust links: pools, states, single writes, patch files, the run and a ring's cursor, as functions of numbers, lent slices and
// #[repr(C)] records.
// Records go by value, but for the cursor, which is lent. No enum crosses: a patch comes as plain numbers, a refusal leaves as its number and its
// stage, an activity as its rank, what a string tells as its number.
// Rests on `flat` for the numbers, on `files` for a patch file, and on `engine`, `magnetron` and `util` for the work.
#![tactic(auto)]

pub mod cursor;
pub mod file;
pub mod pools;
pub mod run;
