// A stage's turn, once the checks have passed: it reads its inputs, plays its window and writes its outputs.
// Rests on what the checks have established (`Ready`), and on the machines of machine.rt.
ghost use Rattle.std.specs.Prelude.{◌≡◌, ◌≤◌};
ghost use Rattle.order.specs.Order.{runs};
ghost use Rattle.magnetron.specs.Buffers.{pick, cleared, list_of};
ghost use Rattle.magnetron.specs.Pools.{base_of, banks_of, sided};
ghost use Rattle.stages.specs.Stage.{outputs_of, own as owned};
ghost use Rattle.engine.specs.Run.{told_of};
ghost use Rattle.engine.specs.Inside.{Placed, sources_of, target_of, Wired, Ready, Begun, second_in, Turned};

use magnetron::buffer::{BufferIndex, Marks};
use magnetron::inputs::Inputs;
use magnetron::output::Target;
use magnetron::pool::Pools;
use magnetron::source::{Source, source_of};
use microwave::parameter::{first_number, numbers_found, of_pair, required};
use microwave::window::gain_window;
use stages::kind::Side;
use stages::machine::Sources;
use stages::stage::Stage;
use stages::state::State;
use stages::window::RenderWindow;
use util::reach::Reach;

// Where the loop that writes `output` finds the inputs.
// Stays: the new form is no plainer: magnetron's `put` takes inputs apart too, but after one match for both it would have to ask again whether it is a copy or a product.
fn sources(inputs: Inputs, pools: Pools, marks: Marks, output: BufferIndex) -> Sources
    requires { Placed pools (list_of inputs) }
    ensures { result ≡ sources_of pools marks output (list_of inputs) }
{
    match inputs {
        Inputs::Nothing => Sources {
            first: Source::Zeros,
            second: Source::Zeros,
        },
        Inputs::One(a) => Sources {
            first: source_of(pools, marks, a, output),
            second: Source::Zeros,
        },
        Inputs::Two(a, b) => Sources {
            first: source_of(pools, marks, a, output),
            second: source_of(pools, marks, b, output),
        },
    }
}

// A stage whose turn it is: what it remembers, the marks by then, and what holds for the whole run.
#[derive(Clone, Copy)]
pub(crate) struct Turn<'a> {
    pub stage: Stage,
    pub state: State,
    pub marks: Marks,
    pub pools: Pools,
    pub window: RenderWindow,
    pub values: &'a [f64],
}

// What a turn leaves of its stage: what it remembers, and whether its string reached its note.
#[derive(Clone, Copy)]
pub(crate) struct Taken {
    pub state: State,
    pub reach: Reach,
}

// Where an output is written, and how: by its own mark.
// Stays: the new form is no plainer: one for this and magnetron's `put` would take the same five arguments for one record.
fn target_of(pools: Pools, marks: Marks, samples: usize, output: BufferIndex, level: f64) -> Target
    requires { base_of pools output ≤ 65536 }
    ensures { result ≡ target_of pools marks samples output level }
{
    Target {
        base: pools.base_of(output),
        samples,
        stale: marks.at(output),
        level,
    }
}

impl Turn<'_> {
    // One window of the stage's own output: `own` is its pool, `ring` the stage's ring.
    fn render(&self, ring: &mut [f64], own: &mut [f64], other: &[f64]) -> Taken
        requires { Ready self.now.pools self.now.window self.now.values.now self.now.stage self.now.marks (owned self.now.state ring.old) own.old other.now }
        ensures reach_value { result.reach ≡ told_of self.now.window self.now.values.now self.now.stage }
        ensures begun { Begun self.now.pools self.now.window self.now.values.now self.now.stage
            (owned self.now.state ring.old) (sided self.now.stage.output own.old other.now self.now.marks)
            (owned result.state ring.new) (sided self.now.stage.output own.new other.now (cleared self.now.stage.output self.now.marks)) }
    {
        let stage = self.stage;
        let window = self.window;
        let level = first_number(stage.level_asks(), self.values, window.render_window_secs);
        let numbers = stage.kind.numbers(self.values, window.render_window_secs);
        let target = target_of(
            self.pools,
            self.marks,
            window.buffer_len,
            stage.output,
            level,
        );
        let inputs = sources(stage.kind.inputs(), self.pools, self.marks, stage.output);
        let machine = stage.kind.settle(numbers, window, self.state);
        let reach = machine.reach(window.buffer_len);
        let state = machine.play(
            stage.kind.enter(numbers, self.state),
            ring,
            own,
            other,
            inputs,
            target,
        );
        Taken { state, reach }
    }

    // The kind of the stage's own output picks the pool that is written.
    // Stays: the new form is no plainer: what would lend both pools in their sequence is the same match, which stands in `take` and in magnetron's `write_1` once more.
    fn begin(&self, ring: &mut [f64], internal: &mut [f64], external: &mut [f64]) -> Taken
        requires { Ready self.now.pools self.now.window self.now.values.now self.now.stage self.now.marks (owned self.now.state ring.old)
            (pick self.now.stage.output internal.old external.old) (pick self.now.stage.output external.old internal.old) }
        ensures reach_value { result.reach ≡ told_of self.now.window self.now.values.now self.now.stage }
        ensures begun { Begun self.now.pools self.now.window self.now.values.now self.now.stage
            (owned self.now.state ring.old) (banks_of internal.old external.old self.now.marks)
            (owned result.state ring.new) (banks_of internal.new external.new (cleared self.now.stage.output self.now.marks)) }
    {
        match self.stage.output {
            BufferIndex::External(_) => self.render(ring, external, internal),
            BufferIndex::Internal(_) => self.render(ring, internal, external),
        }
    }

    // One window of a second output, once the stage's own is written: the marks, and so what is heard, are still those of before.
    fn render_second(&self, side: Side, own: &mut [f64], other: &[f64])
        requires { Wired self.now.pools self.now.window self.now.stage self.now.marks side.output own.old other.now }
        ensures { own.new ≡ second_in self.now.pools self.now.window self.now.values.now self.now.stage self.now.marks side own.old other.now }
    {
        let stage = self.stage;
        let window = self.window;
        let asks = [
            of_pair(side.out_level, stage.out_level),
            required(side.gain),
        ];
        let numbers = numbers_found(asks, self.values, window.render_window_secs);
        let target = target_of(
            self.pools,
            self.marks,
            window.buffer_len,
            side.output,
            numbers.first,
        );
        let inputs = sources(stage.kind.inputs(), self.pools, self.marks, side.output);
        gain_window(numbers.second, own, other, inputs.first, target);
    }

    // Both outputs, or the one that there is.
    pub(crate) fn take(&self, ring: &mut [f64], internal: &mut [f64], external: &mut [f64]) -> Taken
        requires { Ready self.now.pools self.now.window self.now.values.now self.now.stage self.now.marks (owned self.now.state ring.old)
            (pick self.now.stage.output internal.old external.old) (pick self.now.stage.output external.old internal.old) }
        ensures reach_value { result.reach ≡ told_of self.now.window self.now.values.now self.now.stage }
        ensures turned { Turned self.now.pools self.now.window self.now.values.now self.now.stage
            (owned self.now.state ring.old) (banks_of internal.old external.old self.now.marks)
            (owned result.state ring.new) (banks_of internal.new external.new (runs cleared (outputs_of self.now.stage) self.now.marks)) }
    {
        let taken = self.begin(ring, internal, external);
        let Some(side) = self.stage.kind.second() else {
            return taken;
        };
        match side.output {
            BufferIndex::External(_) => self.render_second(side, external, internal),
            BufferIndex::Internal(_) => self.render_second(side, internal, external),
        }
        taken
    }
}
