// The checks of pools and of the buffers that are named, each a test by itself: 1, 2, 5 and 7.
ghost use Rattle.std.specs.Prelude.{◌≡◌, ◌∷◌, [], ◌++◌};
ghost use Rattle.magnetron.specs.Buffers.{list_of};
ghost use Rattle.magnetron.specs.Checks.{pool_ok, shape_ok, window_ok, has_buffer, all_there, no_clash};
ghost use Rattle.magnetron.specs.Single.{length_ok};

use crate::buffer::{BufferIndex, Marks};
use crate::inputs::{Inputs, is_input};
use crate::pool::Pools;

// Whether one pool keeps its bounds: at most 16 buffers of at most 4,096 samples, in a slice of that length.
#[tactic(auto, unfolding(crate::specs::Checks::pool_ok))]
pub fn pool_ok(count: usize, capacity: usize, len: usize) -> bool
    ensures { result ≡ pool_ok count capacity len }
{
    count <= 16 && capacity <= 4096 && count * capacity == len
}

// Check 1, of both pools, whose slices have these lengths, and of the zeros.
#[tactic(auto, unfolding(crate::specs::Checks::shape_ok))]
pub fn shape_ok(pools: Pools, internal: usize, external: usize, zeros: &[f64]) -> bool
    ensures { result ≡ shape_ok pools internal external zeros.now }
{
    pool_ok(pools.internal.count, pools.internal.capacity, internal)
        && pool_ok(pools.external.count, pools.external.capacity, external)
        && zeros.len() == pools.internal.capacity
        && numbers::zeros::all_plus_zero(zeros)
}

// Check 2.
#[tactic(auto, unfolding(crate::specs::Checks::window_ok))]
pub fn window_ok(pools: Pools, n: usize) -> bool
    ensures { result ≡ window_ok pools n }
{
    n <= pools.internal.capacity && (pools.external.count == 0 || n <= pools.external.capacity)
}

// Check 5, of one buffer.
#[tactic(auto, unfolding(crate::specs::Checks::has_buffer))]
pub fn has(pools: Pools, b: BufferIndex) -> bool
    ensures { result ≡ has_buffer pools b }
{
    match b {
        BufferIndex::External(i) => i < pools.external.count,
        BufferIndex::Internal(i) => i < pools.internal.count,
    }
}

// Check 5, of what is read and of what is written.
pub fn all_there(pools: Pools, inputs: Inputs, output: BufferIndex) -> bool
    ensures { result ≡ all_there pools (list_of inputs ++ (output ∷ [])) }
{
    let read = match inputs {
        Inputs::Nothing => true,
        Inputs::One(a) => has(pools, a),
        Inputs::Two(a, b) => has(pools, a) && has(pools, b),
    };
    read && has(pools, output)
}

// Check 7.
pub fn no_clash(n: usize, inputs: Inputs, output: BufferIndex, marks: Marks) -> bool
    ensures { result ≡ no_clash n (list_of inputs) (output ∷ []) marks }
{
    n == 0 || !is_input(output, inputs) || marks.at(output)
}

// Whether as many values are lent as are written.
pub(crate) fn length_ok(inputs: Inputs, len: usize, n: usize) -> bool
    ensures { result ≡ length_ok inputs len n }
{
    match inputs {
        Inputs::Nothing => len == n,
        Inputs::One(_) | Inputs::Two(_, _) => true,
    }
}
