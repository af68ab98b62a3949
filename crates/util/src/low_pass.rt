// The one-pole low-pass: its state goes in by value and comes back with the sample.
ghost use Rattle.std.specs.Prelude.{◌≡◌};
ghost use Rattle.numbers.specs.Constants.{zero64};
ghost use Rattle.util.specs.Interaction.{low_pass_of, low_pass_at, damping_of};

use crate::interaction::Interaction;
use crate::step::Step;
use std::f64::consts::TAU;

#[derive(Clone, Copy)]
pub struct OnePoleLowPass {
    pub damping: f64,
    pub state: f64,
}

// How much of the state stays in one sample, for a cutoff at a rate of samples.
pub fn damping(cutoff: f64, rate: f64) -> f64
    ensures { result ≡ damping_of cutoff rate }
{
    numbers::small::maximum(1.0 - TAU * cutoff / rate, 0.0)
}

impl OnePoleLowPass {
    // A silent filter.
    pub fn new(cutoff: f64, rate: f64) -> OnePoleLowPass
        ensures { result ≡ low_pass_at (damping_of cutoff rate) zero64 }
    {
        OnePoleLowPass {
            damping: damping(cutoff, rate),
            state: 0.0,
        }
    }

    // The same state with another damping.
    pub fn set_cutoff(mut self, cutoff: f64, rate: f64) -> OnePoleLowPass
        ensures { result ≡ low_pass_at (damping_of cutoff rate) self.state }
    {
        self.damping = damping(cutoff, rate);
        self
    }
}

impl Interaction for OnePoleLowPass {
    ghost means = { low_pass_of };

    // The low-passed sample, and the filter with that sample remembered.
    fn process_sample(mut self, input: f64) -> Step<OnePoleLowPass> {
        self.state = (1.0 - self.damping) * input + self.damping * self.state;
        Step {
            next: self,
            sample: self.state,
        }
    }

    // The filter's delay in samples, by which a waveguide is tuned.
    fn delay_samples(self) -> f64 {
        self.damping / (1.0 - self.damping)
    }

    // The state is 0.0, and the damping stays.
    fn mute(mut self) -> OnePoleLowPass {
        self.state = 0.0;
        self
    }
}
