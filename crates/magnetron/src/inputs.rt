// The buffers that a stage or a single write reads.
ghost use Rattle.std.specs.Prelude.{◌≡◌};
ghost use Rattle.magnetron.specs.Buffers.{hits, list_of};

use crate::buffer::BufferIndex;

#[derive(Clone, Copy)]
pub enum Inputs {
    Nothing,
    One(BufferIndex),
    Two(BufferIndex, BufferIndex),
}

// Whether a buffer is one of the inputs.
pub fn is_input(b: BufferIndex, inputs: Inputs) -> bool
    ensures { result ≡ hits b (list_of inputs) }
{
    match inputs {
        Inputs::Nothing => false,
        Inputs::One(first) => b == first,
        Inputs::Two(first, second) => b == first || b == second,
    }
}
