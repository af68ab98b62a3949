// Where the loop that writes an output finds the samples of a buffer that is read.
ghost use Rattle.std.specs.Prelude.{◌≡◌, ◌≤◌, length};
ghost use Rattle.magnetron.specs.Buffers.{same_pool};
ghost use Rattle.magnetron.specs.Pools.{base_of};
ghost use Rattle.magnetron.specs.Inside.Source.{source_of, signal_of, InReach};

use crate::buffer::{BufferIndex, Marks};
use crate::pool::Pools;

// Where an input's samples lie: nowhere, since it is stale; in the pool that is written; or in the other pool.
#[derive(Clone, Copy)]
pub enum Source {
    Zeros,
    Own(usize),
    Other(usize),
}

// Whether two buffers are of one pool.
fn same_pool(a: BufferIndex, b: BufferIndex) -> bool
    ensures { result ≡ same_pool a b }
{
    matches!(
        (a, b),
        (BufferIndex::External(_), BufferIndex::External(_))
            | (BufferIndex::Internal(_), BufferIndex::Internal(_))
    )
}

// Where the loop that writes `output` finds an input's samples.
#[tactic(auto, unfolding(crate::specs::Inside::Source::source_of))]
pub fn source_of(pools: Pools, marks: Marks, input: BufferIndex, output: BufferIndex) -> Source
    requires { base_of pools input ≤ 65536 }
    ensures { result ≡ source_of pools marks input output }
{
    if marks.at(input) {
        Source::Zeros
    } else if same_pool(input, output) {
        Source::Own(pools.base_of(input))
    } else {
        Source::Other(pools.base_of(input))
    }
}

// Sample i of a source.
pub fn fetch(own: &[f64], other: &[f64], source: Source, i: usize) -> f64
    requires { InReach source (length own.now) (length other.now) i }
    ensures { result ≡ signal_of source own.now other.now i }
{
    match source {
        Source::Zeros => 0.0,
        Source::Own(at) => {
            let k = at + i;
            own[k]
        }
        Source::Other(at) => {
            let k = at + i;
            other[k]
        }
    }
}
