// A limit that is linear up to a level and bends above it.
ghost use Rattle.util.specs.Interaction.{soft_clip_of};

use crate::interaction::Interaction;
use crate::step::Step;

#[derive(Clone, Copy)]
pub struct SoftClip {
    pub linear_until: f64,
}

impl Interaction for SoftClip {
    ghost means = { soft_clip_of };

    // The input up to the level; above it, bent towards 1 with the input's sign. With a finite level, an infinite input gives NaN.
    #[tactic(auto, unfolding(crate::specs::Interaction::clipped))]
    fn process_sample(mut self, input: f64) -> Step<SoftClip> {
        let until = self.linear_until;
        let magnitude = numbers::small::absolute(input);
        let sample = if magnitude <= until {
            input
        } else {
            let overshoot = magnitude - until;
            let bent = until + overshoot / (overshoot / (1.0 - until) + 1.0);
            numbers::small::copysign(bent, input)
        };
        Step { next: self, sample }
    }

    // It delays by no sample.
    fn delay_samples(self) -> f64 {
        0.0
    }

    // It remembers nothing.
    fn mute(self) -> SoftClip {
        self
    }
}
