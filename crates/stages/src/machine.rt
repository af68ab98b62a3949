// A stage for one window: what it does at each sample, and the loop that plays it. Rests on the machines and loops of microwave.
ghost use Rattle.std.specs.Prelude.{◌≡◌};
ghost use Rattle.stages.specs.Stage.{own as owned, hear, next_of, out_of};
ghost use Rattle.stages.specs.Inside.{hearing, Strings, Playable, Stepped, reach_over};

use crate::state::State;
use magnetron::output::Target;
use magnetron::source::Source;
use microwave::filter::{Coefficients, OnePole};
use microwave::oscillator::Oscillator;
use microwave::plain::Shape;
use microwave::waveguide::Guide;
use microwave::window::{
    biquad_window, gain_window, one_pole_window, oscillator_window, plain_window, string_window,
};
use util::reach::Reach;
use util::step::Step;

// Where a stage's loop finds its inputs; zeros where it has fewer than two.
#[derive(Clone, Copy)]
pub struct Sources {
    pub first: Source,
    pub second: Source,
}

// What a stage does at each sample of a window, with numbers worked out once.
#[derive(Clone, Copy)]
pub enum Machine {
    Plain(Shape),
    Oscillator(Oscillator),
    OnePole(OnePole),
    Biquad(Coefficients),
    Waveguide(Guide),
    Gain(f64),
}

impl Machine {
    // One window: `own` is the pool of the output, `ring` the stage's ring.
    // Stays: what a loop works on goes side by side here too, for the reason and the figures at microwave's `plain_window`.
    pub fn play(
        self,
        mut state: State,
        ring: &mut [f64],
        own: &mut [f64],
        other: &[f64],
        inputs: Sources,
        target: Target,
    ) -> State
        requires { Playable self (owned state ring.old) own.old other.now inputs target }
        ensures { Stepped self (owned state ring.old) (hearing inputs own.old other.now) own.old target
            (owned result ring.new) own.new }
    {
        let Sources { first, second } = inputs;
        match self {
            Machine::Plain(shape) => {
                plain_window(shape, own, other, first, second, target);
                state
            }
            Machine::Oscillator(oscillator) => {
                state.oscillator = oscillator_window(
                    oscillator,
                    state.oscillator,
                    own,
                    other,
                    first,
                    target,
                );
                state
            }
            Machine::OnePole(one_pole) => {
                state.one_pole = one_pole_window(
                    one_pole,
                    state.one_pole,
                    own,
                    other,
                    first,
                    target,
                );
                state
            }
            Machine::Biquad(coefficients) => {
                state.biquad = biquad_window(coefficients, state.biquad, own, other, first, target);
                state
            }
            Machine::Waveguide(guide) => {
                state.waveguide = string_window(
                    guide,
                    state.waveguide,
                    ring,
                    own,
                    other,
                    first,
                    target,
                );
                state
            }
            Machine::Gain(gain) => {
                gain_window(gain, own, other, first, target);
                state
            }
        }
    }

    // Whether its ring reaches as far back as each sample of a window is read. A window of no samples reads nothing.
    pub fn reach(self, samples: usize) -> Reach
        ensures { result ≡ reach_over samples self }
    {
        if samples == 0 {
            return Reach::Within;
        }
        let Machine::Waveguide(guide) = self else {
            return Reach::Within;
        };
        guide.delay.reach
    }

    // One sample, given one of each input; `ring` is the stage's ring. For an engine that goes from sample to sample.
    pub fn step(self, mut state: State, ring: &mut [f64], first: f64, second: f64) -> Step<State>
        requires { Strings self (owned state ring.old) }
        ensures { (owned result.next ring.new ≡ next_of self (owned state ring.old) (hear first second))
            × (result.sample ≡ out_of self (owned state ring.old) (hear first second)) }
    {
        let sample = match self {
            Machine::Plain(shape) => shape.shaped(first, second),
            Machine::Oscillator(oscillator) => {
                let Step { next, sample } = state.oscillator.step(oscillator, first);
                state.oscillator = next;
                sample
            }
            Machine::OnePole(one_pole) => {
                let Step { next, sample } = state.one_pole.step(one_pole, first);
                state.one_pole = next;
                sample
            }
            Machine::Biquad(coefficients) => {
                let Step { next, sample } = state.biquad.step(coefficients, first);
                state.biquad = next;
                sample
            }
            Machine::Waveguide(guide) => {
                let Step { next, sample } = state.waveguide.step(guide, ring, first);
                state.waveguide = next;
                sample
            }
            Machine::Gain(gain) => first * gain,
        };
        Step {
            next: state,
            sample,
        }
    }
}
