// Oscillators: five waveforms, and a phase that moves on by one step per sample. Port of oscillator.rs.
// Rests on the small functions of f64 and the sine of turns, of `numbers`.
ghost use Rattle.std.specs.Prelude.{◌≡◌, ⊤};
ghost use Rattle.microwave.specs.Running.{ringless};
ghost use Rattle.microwave.specs.Oscillator.{wave_of, d_phase_of, phase_saved, place_of, bent_of, oscillated};

use crate::machine::Machine;
use crate::parameter::Parameter;
use numbers::small::{absolute, fract, rem_euclid_one};
use numbers::turns::sine_turns;
use util::step::Step;

#[derive(Clone, Copy)]
pub enum OscillatorType {
    Sin,
    Sin3,
    Triangle,
    Square,
    Sawtooth,
}

// How a modulated oscillator takes its input.
#[derive(Clone, Copy)]
pub enum Modulation {
    ByPhase,
    ByFrequency,
}

// An oscillator of a patch.
#[derive(Clone, Copy)]
pub struct OscillatorSpec {
    pub oscillator_type: OscillatorType,
    pub frequency: Parameter,
    pub phase: Parameter,
}

// What an oscillator remembers: where its wave stands, and the phase parameter of its last window.
#[repr(C)]
#[derive(Clone, Copy, Default)]
pub struct Phases {
    pub phase: f64,
    pub saved: f64,
}

// What a window fixes for all its samples. An oscillator that nothing drives takes no input.
#[derive(Clone, Copy)]
pub struct Oscillator {
    pub oscillator_type: OscillatorType,
    pub driven: Option<Modulation>,
    pub d_phase: f64,
    pub sample_width: f64,
}

impl OscillatorType {
    // The wave at a phase in turns.
    #[tactic(auto, unfolding(crate::specs::Oscillator::wave_of))]
    pub fn wave(self, phase: f64) -> f64
        ensures { result ≡ wave_of self phase }
    {
        match self {
            OscillatorType::Sin => sine_turns(phase),
            OscillatorType::Sin3 => {
                let sin = sine_turns(phase);
                sin * sin * sin
            }
            OscillatorType::Triangle => (absolute(fract(0.75 + phase) - 0.5) - 0.25) * 4.0,
            OscillatorType::Square => if phase < 0.5 { 1.0 } else { -1.0 },
            OscillatorType::Sawtooth => (fract(0.5 + phase) - 0.5) * 2.0,
        }
    }
}

// How far the phase moves per sample in a window of n samples, in which the phase parameter moves from saved to to_phase.
// An empty window divides by zero, and no sample uses the result.
pub fn d_phase(frequency: f64, to_phase: f64, saved: f64, sample_width: f64, n: usize) -> f64
    ensures { result ≡ d_phase_of frequency to_phase saved sample_width n }
{
    frequency * sample_width + (to_phase - saved) / std::num::nearest_u64_to_f64(n as u64)
}

// Where the wave is read.
fn place(driven: Option<Modulation>, phase: f64, input: f64) -> f64
    ensures { result ≡ place_of driven phase input }
{
    match driven {
        Some(Modulation::ByPhase) => rem_euclid_one(phase + input),
        Some(Modulation::ByFrequency) | None => phase,
    }
}

// The phase that a step leads to, by bend further where the frequency is driven.
fn bent(driven: Option<Modulation>, moved: f64, bend: f64) -> f64
    ensures { result ≡ bent_of driven moved bend }
{
    match driven {
        Some(Modulation::ByFrequency) => moved + bend,
        Some(Modulation::ByPhase) | None => moved,
    }
}

impl Phases {
    // The memory at the start of a window, an empty one too.
    pub fn enter(mut self, to_phase: f64) -> Phases
        ensures { result ≡ phase_saved self to_phase }
    {
        self.saved = to_phase;
        self
    }

    // One sample: the signal first, then the phase moves on.
    #[tactic(auto, unfolding(crate::specs::Oscillator::oscillator_next, crate::specs::Oscillator::oscillator_out))]
    pub fn step(mut self, o: Oscillator, input: f64) -> Step<Phases>
        ensures { result ≡ oscillated o self input }
    {
        let sample = o.oscillator_type.wave(place(o.driven, self.phase, input));
        let moved = bent(o.driven, self.phase + o.d_phase, input * o.sample_width);
        self.phase = rem_euclid_one(moved);
        Step { next: self, sample }
    }
}

impl Machine for Oscillator {
    type Memory = Phases;

    ghost can_step = { λ k s. ⊤ };

    ghost step_of = { λ k. ringless (oscillated k) };

    fn step(self, phases: Phases, _ring: &mut [f64], input: f64) -> Step<Phases> {
        phases.step(self, input)
    }
}
