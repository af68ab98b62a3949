// A stage of a patch: its kind, the buffer that it writes, and how loud. Port of the specs of mod.rs.
ghost use Rattle.std.specs.Prelude.{◌≡◌, ◌≤◌};
ghost use Rattle.magnetron.specs.Buffers.{written_by};
ghost use Rattle.microwave.specs.Parameter.{ask_list};
ghost use Rattle.stages.specs.Stage.{outputs_of, level_asks, ring_len, ring_fine};

use crate::kind::Kind;
use crate::state::State;
use magnetron::buffer::BufferIndex;
use magnetron::outputs::Outputs;
use microwave::parameter::{Asks, Parameter, of_pair, or_one};

#[derive(Clone, Copy)]
pub struct Stage {
    pub kind: Kind,
    pub output: BufferIndex,
    pub out_level: Parameter,
}

impl Stage {
    // The buffers that the stage writes.
    pub fn outputs(self) -> Outputs
        ensures { written_by result ≡ outputs_of self }
    {
        match self.kind.second() {
            None => Outputs::One(self.output),
            Some(side) => Outputs::Two(self.output, side.output),
        }
    }

    // What the levels of its outputs are asked for.
    pub fn level_asks(self) -> Asks
        ensures { ask_list result ≡ level_asks self }
    {
        match self.kind.second() {
            None => Asks::One(or_one(self.out_level)),
            Some(side) => Asks::Two(
                of_pair(self.out_level, side.out_level),
                of_pair(side.out_level, self.out_level),
            ),
        }
    }

    // Check 4 of one stage.
    pub(crate) fn ring_fine(self, state: State) -> bool
        ensures { result ≡ ring_fine self.kind state }
    {
        let Kind::Waveguide { waveguide, .. } = self.kind else {
            return true;
        };
        waveguide.buffer_size <= 32767 && state.waveguide.position < waveguide.buffer_size + 1
    }

    // How many slots the stage's ring has.
    pub fn ring_len(self) -> usize
        requires { ring_len self.kind ≤ 32768 }
        ensures { result ≡ ring_len self.kind }
    {
        let Kind::Waveguide { waveguide, .. } = self.kind else {
            return 0;
        };
        waveguide.buffer_size + 1
    }
}
