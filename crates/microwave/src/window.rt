// One loop over a window for every machine of one input: each sample is read, worked by the machine and mixed into the output.
// The stages without memory go by blocks of eight samples, and sample by sample through what is left of the window.
// Rests on `fetch` and `write_sample` of magnetron, and on the same for blocks. The loops run once the checks have passed: they ask for the places that the checks have looked at.
ghost use Rattle.std.specs.Prelude.{◌≡◌};
ghost use Rattle.magnetron.specs.Inside.Source.{signal_of};
ghost use Rattle.magnetron.specs.Inside.Target.{LiesIn, ClearOf, WrittenTo, written};
ghost use Rattle.microwave.specs.Plain.{shaped_of, gained};
ghost use Rattle.microwave.specs.Oscillator.{oscillator_next, oscillator_out};
ghost use Rattle.microwave.specs.OnePole.{one_pole_next, one_pole_out};
ghost use Rattle.microwave.specs.Filter.{biquad_next, biquad_out};
ghost use Rattle.microwave.specs.Waveguide.{strung, InRing, string_next, string_out};
ghost use Rattle.microwave.specs.Running.{running, next_by, out_by};
ghost use Rattle.microwave.specs.Inside.{Windowed};

use crate::filter::{Biquad, Coefficients, OnePole, OnePoleMemory};
use crate::machine::Machine;
use crate::oscillator::{Oscillator, Phases};
use crate::plain::{Gain, Shape, Shaping, shaped_block};
use crate::waveguide::{Guide, StringMemory};
use magnetron::block::{fetch_block, write_block};
use magnetron::output::{Target, write_sample};
use magnetron::source::{Source, fetch};

// All whole blocks of a shape. Answers how many samples they are.
fn shaped_blocks<S: Shaping>(
    shape: S,
    own: &mut [f64],
    other: &[f64],
    first: Source,
    second: Source,
    target: Target,
) -> usize
    requires { (LiesIn target own.old) × (ClearOf first own.old other.now target) × (ClearOf second own.old other.now target) }
    ensures { WrittenTo own.old target (λ i. S.shaped_by shape
        (signal_of first own.old other.now i) (signal_of second own.old other.now i)) result own.new }
{
    let mut i = 0;
    // Stays: as a `for` over the blocks, a sample of Pass takes 1.4 times as long, of RingModulator 1.3 times and of Pow3 1.1 times.
    while 8 <= target.samples - i {
        let x = fetch_block(own, other, first, i);
        let y = fetch_block(own, other, second, i);
        write_block(own, target, i, shaped_block(shape, x, y));
        i += 8;
    }
    i
}

// A shape of two inputs: whole blocks, and what is left of the window sample by sample.
fn shaped_window<S: Shaping>(
    shape: S,
    own: &mut [f64],
    other: &[f64],
    first: Source,
    second: Source,
    target: Target,
)
    requires { (LiesIn target own.old) × (ClearOf first own.old other.now target) × (ClearOf second own.old other.now target) }
    ensures { own.new ≡ written own.old target (λ i. S.shaped_by shape
        (signal_of first own.old other.now i) (signal_of second own.old other.now i)) }
{
    for i in shaped_blocks(shape, own, other, first, second, target)..target.samples {
        let x = fetch(own, other, first, i);
        let y = fetch(own, other, second, i);
        write_sample(own, target, i, shape.shape(x, y));
    }
}

// A shape of two inputs. Where it reads one, the second may be anything that lies clear.
// Stays: own, other, the inputs and the target go side by side, in this file and in magnetron's content: as a record with their facts, lent to each loop, a sample of Waveguide took 1.1 to 1.3 times as long in three runs of four.
pub fn plain_window(
    shape: Shape,
    own: &mut [f64],
    other: &[f64],
    first: Source,
    second: Source,
    target: Target,
)
    requires { (LiesIn target own.old) × (ClearOf first own.old other.now target) × (ClearOf second own.old other.now target) }
    ensures { own.new ≡ written own.old target (λ i. shaped_of shape
        (signal_of first own.old other.now i) (signal_of second own.old other.now i)) }
{
    shaped_window(shape, own, other, first, second, target);
}

// A gain: one side of Pan.
pub fn gain_window(gain: f64, own: &mut [f64], other: &[f64], input: Source, target: Target)
    requires { (LiesIn target own.old) × (ClearOf input own.old other.now target) }
    ensures { own.new ≡ written own.old target (λ i. gained gain (signal_of input own.old other.now i)) }
{
    let gain = Gain { factor: gain };
    shaped_window(gain, own, other, input, Source::Zeros, target);
}

// The samples of a window of a machine.
fn machine_loop<M: Machine>(
    machine: M,
    mut memory: M::Memory,
    ring: &mut [f64],
    own: &mut [f64],
    other: &[f64],
    input: Source,
    target: Target,
) -> M::Memory
    requires lies_in { (LiesIn target own.old) × (ClearOf input own.old other.now target) }
    requires can_step { M.can_step machine (running memory ring.old) }
    ensures { Windowed (next_by (M.step_of machine)) (out_by (M.step_of machine)) (running memory ring.old)
        (signal_of input own.old other.now) own.old target (running result ring.new) own.new }
{
    for i in 0..target.samples {
        let x = fetch(own, other, input, i);
        let stepped = machine.step(memory, ring, x);
        memory = stepped.next;
        write_sample(own, target, i, stepped.sample);
    }
    memory
}

// The same, where the input's place is told apart once, so that no sample asks for it again.
fn machine_window<M: Machine>(
    machine: M,
    memory: M::Memory,
    ring: &mut [f64],
    own: &mut [f64],
    other: &[f64],
    input: Source,
    target: Target,
) -> M::Memory
    requires lies_in { (LiesIn target own.old) × (ClearOf input own.old other.now target) }
    requires can_step { M.can_step machine (running memory ring.old) }
    ensures { Windowed (next_by (M.step_of machine)) (out_by (M.step_of machine)) (running memory ring.old)
        (signal_of input own.old other.now) own.old target (running result ring.new) own.new }
{
    match input {
        Source::Zeros => machine_loop(machine, memory, ring, own, other, Source::Zeros, target),
        Source::Own(at) => machine_loop(machine, memory, ring, own, other, Source::Own(at), target),
        Source::Other(at) => {
            machine_loop(machine, memory, ring, own, other, Source::Other(at), target)
        }
    }
}

// An oscillator, driven by the input or not. Answers its phases after the window. Its step is long: in three loops, one for each place where the
// input may lie, a modulated sawtooth takes a third more time a sample.
pub fn oscillator_window(
    k: Oscillator,
    phases: Phases,
    own: &mut [f64],
    other: &[f64],
    input: Source,
    target: Target,
) -> Phases
    requires { (LiesIn target own.old) × (ClearOf input own.old other.now target) }
    ensures { Windowed (oscillator_next k) (oscillator_out k) phases (signal_of input own.old other.now) own.old target result own.new }
{
    machine_loop(k, phases, &mut [], own, other, input, target)
}

// A one-pole filter. Answers its memory after the window, as the next two do.
pub fn one_pole_window(
    k: OnePole,
    memory: OnePoleMemory,
    own: &mut [f64],
    other: &[f64],
    input: Source,
    target: Target,
) -> OnePoleMemory
    requires { (LiesIn target own.old) × (ClearOf input own.old other.now target) }
    ensures { Windowed (one_pole_next k) (one_pole_out k) memory (signal_of input own.old other.now) own.old target result own.new }
{
    machine_loop(k, memory, &mut [], own, other, input, target)
}

// A biquad filter.
pub fn biquad_window(
    k: Coefficients,
    memory: Biquad,
    own: &mut [f64],
    other: &[f64],
    input: Source,
    target: Target,
) -> Biquad
    requires { (LiesIn target own.old) × (ClearOf input own.old other.now target) }
    ensures { Windowed (biquad_next k) (biquad_out k) memory (signal_of input own.old other.now) own.old target result own.new }
{
    machine_window(k, memory, &mut [], own, other, input, target)
}

// A waveguide, on its own ring.
pub fn string_window(
    k: Guide,
    memory: StringMemory,
    ring: &mut [f64],
    own: &mut [f64],
    other: &[f64],
    input: Source,
    target: Target,
) -> StringMemory
    requires lies_in { (LiesIn target own.old) × (ClearOf input own.old other.now target) }
    requires in_ring { InRing k (strung memory ring.old) }
    ensures { Windowed (string_next k) (string_out k) (strung memory ring.old) (signal_of input own.old other.now) own.old target
        (strung result ring.new) own.new }
{
    machine_window(k, memory, ring, own, other, input, target)
}
