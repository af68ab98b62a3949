// The kinds of stage: the buffers that each reads, the parameters that it asks for, and its machine for a window.
// Stage kinds by name in place of the Rust's boxed closures. Rests on the machines of microwave.
ghost use Rattle.std.specs.Prelude.{◌≡◌};
ghost use Rattle.magnetron.specs.Buffers.{list_of};
ghost use Rattle.microwave.specs.Filter.{with_numbers, machine_of};
ghost use Rattle.microwave.specs.Parameter.{ask_list, numbers_of};
ghost use Rattle.stages.specs.Stage.{inputs_of, second_of, oscillator_asks, waveguide_asks, pan_asks, asks_of, filter_machine, oscillator_machine, waveguide_machine, settled, entered};

use crate::machine::Machine;
use crate::state::State;
use crate::window::RenderWindow;
use magnetron::buffer::BufferIndex;
use magnetron::inputs::Inputs;
use microwave::filter::{FilterMachine, FilterType};
use microwave::oscillator::{Modulation, Oscillator, OscillatorSpec};
use microwave::parameter::{Ask, Asks, Numbers, Parameter, numbers_found, or_zero, required};
use microwave::plain::Shape;
use microwave::waveguide::WaveguideSpec;

#[derive(Clone, Copy)]
pub enum Kind {
    Pass {
        input: BufferIndex,
    },
    Pow3 {
        input: BufferIndex,
    },
    Clip {
        input: BufferIndex,
        limit: Parameter,
    },
    Filter {
        input: BufferIndex,
        filter: FilterType,
    },
    Oscillator {
        oscillator: OscillatorSpec,
    },
    ModOscillator {
        input: BufferIndex,
        oscillator: OscillatorSpec,
        modulation: Modulation,
    },
    Waveguide {
        input: BufferIndex,
        waveguide: WaveguideSpec,
    },
    RingModulator {
        first: BufferIndex,
        second: BufferIndex,
    },
    // The stage's own output and out_level are the left ones.
    Pan {
        input: BufferIndex,
        left_gain: Parameter,
        right: Side,
    },
}

// A second output, with its level and its gain.
#[derive(Clone, Copy)]
pub struct Side {
    pub output: BufferIndex,
    pub out_level: Parameter,
    pub gain: Parameter,
}

fn oscillator_asks(oscillator: OscillatorSpec) -> [Ask; 2]
    ensures { result ≡ oscillator_asks oscillator }
{
    [required(oscillator.frequency), or_zero(oscillator.phase)]
}

fn waveguide_asks(waveguide: WaveguideSpec) -> [Ask; 3]
    ensures { result ≡ waveguide_asks waveguide }
{
    [
        required(waveguide.frequency),
        required(waveguide.cutoff),
        required(waveguide.feedback),
    ]
}

fn pan_asks(left_gain: Parameter, right: Side) -> [Ask; 2]
    ensures { result ≡ pan_asks left_gain right }
{
    [required(left_gain), required(right.gain)]
}

impl From<FilterMachine> for Machine {
    ghost from_gives = { λ filter machine. machine ≡ filter_machine filter };

    fn from(filter: FilterMachine) -> Machine {
        match filter {
            FilterMachine::OnePole(one_pole) => Machine::OnePole(one_pole),
            FilterMachine::Biquad(coefficients) => Machine::Biquad(coefficients),
        }
    }
}

fn filter_machine(filter: FilterType, numbers: Numbers, window: RenderWindow) -> Machine
    ensures { result ≡ filter_machine (machine_of (with_numbers filter numbers.first numbers.second) window.sample_width_secs) }
{
    filter
        .with_numbers(numbers.first, numbers.second)
        .coefficients(window.sample_width_secs)
        .into()
}

// Stays: no plainer: numbers, window and state go side by side, here and below: `filter_machine` and `waveguide_machine` read no state, and `enter` no window.
fn oscillator_machine(
    oscillator: OscillatorSpec,
    driven: Option<Modulation>,
    numbers: Numbers,
    window: RenderWindow,
    state: State,
) -> Machine
    ensures { result ≡ oscillator_machine oscillator driven numbers window state }
{
    let d_phase = microwave::oscillator::d_phase(
        numbers.first,
        numbers.second,
        state.oscillator.saved,
        window.sample_width_secs,
        window.buffer_len,
    );
    Machine::Oscillator(Oscillator {
        oscillator_type: oscillator.oscillator_type,
        driven,
        d_phase,
        sample_width: window.sample_width_secs,
    })
}

fn waveguide_machine(waveguide: WaveguideSpec, numbers: Numbers, window: RenderWindow) -> Machine
    ensures { result ≡ waveguide_machine waveguide numbers window }
{
    Machine::Waveguide(microwave::waveguide::guide_of(
        waveguide.reflectance,
        waveguide.buffer_size,
        numbers.first,
        numbers.second,
        numbers.third,
        window.sample_width_secs,
    ))
}

impl Kind {
    // The buffers that a stage reads.
    pub fn inputs(self) -> Inputs
        ensures { list_of result ≡ inputs_of self }
    {
        match self {
            Kind::Oscillator { .. } => Inputs::Nothing,
            Kind::Pass { input }
            | Kind::Pow3 { input }
            | Kind::Clip { input, .. }
            | Kind::Filter { input, .. }
            | Kind::ModOscillator { input, .. }
            | Kind::Waveguide { input, .. }
            | Kind::Pan { input, .. } => Inputs::One(input),
            Kind::RingModulator { first, second } => Inputs::Two(first, second),
        }
    }

    // The output that a stage has beside its own.
    pub fn second(self) -> Option<Side>
        ensures { result ≡ second_of self }
    {
        let Kind::Pan { right, .. } = self else {
            return None;
        };
        Some(right)
    }

    // The parameters that a stage asks for beside its levels.
    pub fn asks(self) -> Asks
        ensures { ask_list result ≡ asks_of self }
    {
        match self {
            Kind::Pass { .. } | Kind::Pow3 { .. } | Kind::RingModulator { .. } => Asks::Nothing,
            Kind::Clip { limit, .. } => Asks::One(required(limit)),
            Kind::Filter { filter, .. } => filter.asks(),
            Kind::Oscillator { oscillator } | Kind::ModOscillator { oscillator, .. } => {
                let [frequency, phase] = oscillator_asks(oscillator);
                Asks::Two(frequency, phase)
            }
            Kind::Waveguide { waveguide, .. } => {
                let [frequency, cutoff, feedback] = waveguide_asks(waveguide);
                Asks::Three(frequency, cutoff, feedback)
            }
            Kind::Pan {
                left_gain,
                right,
                ..
            } => {
                let [left, right] = pan_asks(left_gain, right);
                Asks::Two(left, right)
            }
        }
    }

    // The numbers that answer what it asks for, 0.0 where there is none.
    // Stays: no plainer: the asks of a kind are named once, in the functions above; an array of them has a length that differs with the kind, so no one function hands it to both.
    pub fn numbers(self, values: &[f64], seconds: f64) -> Numbers
        ensures { result ≡ numbers_of (asks_of self) values.now seconds }
    {
        match self {
            Kind::Pass { .. } | Kind::Pow3 { .. } | Kind::RingModulator { .. } => {
                numbers_found([], values, seconds)
            }
            Kind::Clip { limit, .. } => numbers_found([required(limit)], values, seconds),
            Kind::Filter { filter, .. } => filter.numbers(values, seconds),
            Kind::Oscillator { oscillator } | Kind::ModOscillator { oscillator, .. } => {
                numbers_found(oscillator_asks(oscillator), values, seconds)
            }
            Kind::Waveguide { waveguide, .. } => {
                numbers_found(waveguide_asks(waveguide), values, seconds)
            }
            Kind::Pan {
                left_gain,
                right,
                ..
            } => numbers_found(pan_asks(left_gain, right), values, seconds),
        }
    }

    // The machine of the stage's own output for a window, from the numbers that its parameters gave.
    pub fn settle(self, numbers: Numbers, window: RenderWindow, state: State) -> Machine
        ensures { result ≡ settled self numbers window state }
    {
        match self {
            Kind::Pass { .. } => Machine::Plain(Shape::Pass),
            Kind::Pow3 { .. } => Machine::Plain(Shape::Pow3),
            Kind::Clip { .. } => Machine::Plain(Shape::Clip {
                limit: microwave::plain::clip_limit(numbers.first),
            }),
            Kind::Filter { filter, .. } => filter_machine(filter, numbers, window),
            Kind::Oscillator { oscillator } => {
                oscillator_machine(oscillator, None, numbers, window, state)
            }
            Kind::ModOscillator {
                oscillator,
                modulation,
                ..
            } => oscillator_machine(oscillator, Some(modulation), numbers, window, state),
            Kind::Waveguide { waveguide, .. } => waveguide_machine(waveguide, numbers, window),
            Kind::RingModulator { .. } => Machine::Plain(Shape::RingModulator),
            Kind::Pan { .. } => Machine::Gain(numbers.first),
        }
    }

    // What the stage keeps at the start of a window, an empty one too.
    pub fn enter(self, numbers: Numbers, state: State) -> State
        ensures { result ≡ entered self numbers state }
    {
        match self {
            Kind::Oscillator { .. } | Kind::ModOscillator { .. } => state.saving(numbers),
            Kind::Pass { .. }
            | Kind::Pow3 { .. }
            | Kind::Clip { .. }
            | Kind::Filter { .. }
            | Kind::Waveguide { .. }
            | Kind::RingModulator { .. }
            | Kind::Pan { .. } => state,
        }
    }
}
