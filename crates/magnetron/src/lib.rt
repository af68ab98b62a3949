// Pools of buffers with stale marks: new pools, prepare, the checks, single reads and writes, and the parts that a stage's loop is made of.
// Rests on `answers`. What stands above relies on the contracts here and on the laws of proofs/ alone.
#![tactic(auto)]

pub mod block;
pub mod buffer;
pub mod check;
mod content;
pub mod inputs;
pub mod lent;
pub mod output;
pub mod outputs;
pub mod pool;
pub mod prepare;
pub mod read;
pub mod source;
pub mod write;
