// The buffers that a stage writes: the checks that look at them, and what is known once each has been written.
ghost use Rattle.std.specs.Prelude.{◌≡◌, ◌++◌};
ghost use Rattle.order.specs.Order.{runs};
ghost use Rattle.magnetron.specs.Buffers.{list_of, written_by, cleared, louder_by};
ghost use Rattle.magnetron.specs.Checks.{all_there, no_clash, none_twice};

use crate::buffer::{BufferIndex, Marks};
use crate::check::{all_there, has, no_clash};
use crate::inputs::Inputs;
use crate::pool::Pools;
use answers::activity::{StageActivity, greater};

// One, or a left one and a right one.
#[derive(Clone, Copy)]
pub enum Outputs {
    One(BufferIndex),
    Two(BufferIndex, BufferIndex),
}

impl Outputs {
    // Check 5, of what is read and of what is written.
    pub fn there(self, pools: Pools, inputs: Inputs) -> bool
        ensures { result ≡ all_there pools (list_of inputs ++ written_by self) }
    {
        match self {
            Outputs::One(output) => all_there(pools, inputs, output),
            Outputs::Two(left, right) => all_there(pools, inputs, left) && has(pools, right),
        }
    }

    // Check 8.
    pub fn differ(self) -> bool
        ensures { result ≡ none_twice (written_by self) }
    {
        match self {
            Outputs::One(_) => true,
            Outputs::Two(left, right) => left != right,
        }
    }

    // Check 7.
    pub fn clear_of(self, n: usize, inputs: Inputs, marks: Marks) -> bool
        ensures { result ≡ no_clash n (list_of inputs) (written_by self) marks }
    {
        match self {
            Outputs::One(output) => no_clash(n, inputs, output, marks),
            Outputs::Two(left, right) => {
                no_clash(n, inputs, left, marks) && no_clash(n, inputs, right, marks)
            }
        }
    }

    // The marks once each output has been written.
    pub fn clear(self, marks: Marks) -> Marks
        ensures { result ≡ runs cleared (written_by self) marks }
    {
        match self {
            Outputs::One(output) => marks.clear(output),
            Outputs::Two(left, right) => marks.clear(left).clear(right),
        }
    }

    // An activity, or an output's where it is greater.
    pub fn louder(self, activity: StageActivity) -> StageActivity
        ensures { result ≡ runs louder_by (written_by self) activity }
    {
        match self {
            Outputs::One(output) => greater(activity, output.stage_activity()),
            Outputs::Two(left, right) => {
                let first = greater(activity, left.stage_activity());
                greater(first, right.stage_activity())
            }
        }
    }
}
