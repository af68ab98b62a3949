// The three single writes.
ghost use Rattle.std.specs.Prelude.{◌≡◌, []};
ghost use Rattle.magnetron.specs.Buffers.{cleared};
ghost use Rattle.magnetron.specs.Pools.{marks_in, shape_of, sided};
ghost use Rattle.magnetron.specs.declared.inputs.Inputs.TheVariants as inputs;
ghost use Rattle.magnetron.specs.Single.{SameLoan, what_is_lent_to_write, put_into, written_to, after_write, write_of};
ghost use Rattle.magnetron.specs.Inside.Room.{Writable};

use crate::buffer::BufferIndex;
use crate::content::{Content, lay};
use crate::inputs::Inputs;
use crate::lent::LentMut;
use crate::output::Target;
use crate::pool::Pools;
use crate::source::{Source, source_of};
use answers::refusal::Answer;

// What a single write answers, and the pools with its output's mark cleared.
// Stays: what may not change: by `refused_by`, in the contract of each write (`write_of`), a refusal has the pools as they came beside it, where an Err would hold none.
#[derive(Clone, Copy)]
pub struct Wrote {
    pub answer: Answer,
    pub pools: Pools,
}

// Puts what is read, or the lent values, into the output, once the checks have passed. `own` is the output's pool, `other` the other one.
// Stays: the new form is no plainer: `write_1` alone calls it, once for each side of an output, and would make a record of these for each call, to be taken apart here.
fn put(
    own: &mut [f64],
    other: &[f64],
    values: &[f64],
    pools: Pools,
    inputs: Inputs,
    output: BufferIndex,
    level: f64,
    n: usize,
)
    requires { Writable pools inputs own.old other.now values.now output n }
    ensures { sided output own.new other.now (cleared output (marks_in pools))
        ≡ put_into (shape_of pools n) inputs values.now output level (sided output own.old other.now (marks_in pools)) }
{
    let marks = pools.marks();
    let target = Target {
        base: pools.base_of(output),
        samples: n,
        stale: marks.at(output),
        level,
    };
    match inputs {
        Inputs::Nothing => {
            lay(own, values, Content::Copy(Source::Other(0)), target);
        }
        Inputs::One(a) => {
            let first = source_of(pools, marks, a, output);
            lay(own, other, Content::Copy(first), target);
        }
        Inputs::Two(a, b) => {
            let first = source_of(pools, marks, a, output);
            let second = source_of(pools, marks, b, output);
            lay(own, other, Content::Product(first, second), target);
        }
    }
}

// Done: the output's activity, and the pools with its mark cleared.
fn finished(output: BufferIndex, pools: Pools) -> Wrote
    ensures { result ≡ written_to output pools (cleared output (marks_in pools)) }
{
    Wrote {
        answer: Ok(output.stage_activity()),
        pools: pools.with_marks(pools.marks().clear(output)),
    }
}

impl LentMut<'_> {
    // A single write of what is read of `inputs`, or of the lent values where nothing is; each value is first multiplied by the level, 1.0 if
    // absent. A refusal changes nothing. The marks afterwards are in what it answers.
    pub fn write_1(
        &mut self,
        inputs: Inputs,
        values: &[f64],
        output: BufferIndex,
        out_level: Option<f64>,
    ) -> Wrote
        ensures same { SameLoan self.old self.new }
        ensures wrote { after_write result self.new.internal.now self.new.external.now
            ≡ write_of (what_is_lent_to_write self.old) inputs values.now output out_level }
    {
        let pools = self.pools;
        let n = self.window;
        if let Err(refusal) = self.shared().check_write(inputs, values, output) {
            return Wrote {
                answer: Err(refusal),
                pools,
            };
        }
        let level = out_level.unwrap_or(1.0);
        let internal = &mut *self.internal;
        let external = &mut *self.external;
        match output {
            BufferIndex::External(_) => {
                put(external, internal, values, pools, inputs, output, level, n);
            }
            BufferIndex::Internal(_) => {
                put(internal, external, values, pools, inputs, output, level, n);
            }
        }
        finished(output, pools)
    }

    // Writes a lent slice of n values into one buffer.
    pub fn read_0_write_1(
        &mut self,
        output: BufferIndex,
        out_level: Option<f64>,
        values: &[f64],
    ) -> Wrote
        ensures same { SameLoan self.old self.new }
        ensures wrote { after_write result self.new.internal.now self.new.external.now
            ≡ write_of (what_is_lent_to_write self.old) inputs.Nothing values.now output out_level }
    {
        self.write_1(Inputs::Nothing, values, output, out_level)
    }

    // Writes one buffer's samples into another, or zeros where it is stale.
    pub fn read_1_write_1(
        &mut self,
        input: BufferIndex,
        output: BufferIndex,
        out_level: Option<f64>,
    ) -> Wrote
        ensures same { SameLoan self.old self.new }
        ensures wrote { after_write result self.new.internal.now self.new.external.now
            ≡ write_of (what_is_lent_to_write self.old) (inputs.One input) [] output out_level }
    {
        self.write_1(Inputs::One(input), &[], output, out_level)
    }

    // Writes the product of two buffers, first times second.
    pub fn read_2_write_1(
        &mut self,
        first: BufferIndex,
        second: BufferIndex,
        output: BufferIndex,
        out_level: Option<f64>,
    ) -> Wrote
        ensures same { SameLoan self.old self.new }
        ensures wrote { after_write result self.new.internal.now self.new.external.now
            ≡ write_of (what_is_lent_to_write self.old) (inputs.Two first second) [] output out_level }
    {
        self.write_1(Inputs::Two(first, second), &[], output, out_level)
    }
}
