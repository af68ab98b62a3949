// Interactions: what makes a sample of a sample and remembers. A gain is an f64; two follow one another; and those that a comb takes have names.
ghost use Rattle.std.specs.Prelude.{◌≡◌};
ghost use Rattle.util.specs.Interaction.{Interaction, gain, followed_by, any_interaction};

use crate::low_pass::OnePoleLowPass;
use crate::soft_clip::SoftClip;
use crate::step::Step;

pub trait Interaction: Copy {
    // What it makes of a sample, its delay, and what muting leaves of it.
    ghost means: { Interaction Self };

    // The sample that it makes of the input, and what it is for the next one.
    fn process_sample(self, input: f64) -> Step<Self>
        ensures { result ≡ means.process self input };

    // Its delay in samples.
    fn delay_samples(self) -> f64
        ensures { result ≡ means.delay self };

    // The same, with nothing remembered.
    fn mute(self) -> Self
        ensures { result ≡ means.mute self };
}

// A gain: its samples come at once, and it remembers nothing.
impl Interaction for f64 {
    ghost means = { gain };

    fn process_sample(self, input: f64) -> Step<f64> {
        Step {
            next: self,
            sample: self * input,
        }
    }

    fn delay_samples(self) -> f64 {
        0.0
    }

    fn mute(self) -> f64 {
        self
    }
}

// One interaction, and then another.
#[derive(Clone, Copy)]
pub struct FollowedBy<A, B> {
    pub first: A,
    pub second: B,
}

impl<A: Interaction, B: Interaction> Interaction for FollowedBy<A, B> {
    ghost means = { followed_by A.means B.means };

    // What the second makes of the first's sample.
    fn process_sample(self, input: f64) -> Step<FollowedBy<A, B>> {
        let first = self.first.process_sample(input);
        let second = self.second.process_sample(first.sample);
        Step {
            next: FollowedBy {
                first: first.next,
                second: second.next,
            },
            sample: second.sample,
        }
    }

    // Both delays.
    fn delay_samples(self) -> f64 {
        self.first.delay_samples() + self.second.delay_samples()
    }

    // Both forget.
    fn mute(self) -> FollowedBy<A, B> {
        FollowedBy {
            first: self.first.mute(),
            second: self.second.mute(),
        }
    }
}

// A low-pass followed by a gain: how a waveguide responds.
pub type LowPassGain = FollowedBy<OnePoleLowPass, f64>;

// What a comb answers through, or writes through, where only a run knows which.
// Stays: 01's "Generic Interaction: the few pairings used, by name", and no heap: these are the names, and a `dyn` would stand in a box.
#[derive(Clone, Copy)]
pub enum AnyInteraction {
    Gain(f64),
    SoftClip(SoftClip),
    LowPassGain(LowPassGain),
}

impl Interaction for AnyInteraction {
    ghost means = { any_interaction };

    fn process_sample(self, input: f64) -> Step<AnyInteraction> {
        match self {
            AnyInteraction::Gain(factor) => factor.process_sample(input).map(AnyInteraction::Gain),
            AnyInteraction::SoftClip(clip) => clip
                .process_sample(input)
                .map(AnyInteraction::SoftClip),
            AnyInteraction::LowPassGain(pair) => pair
                .process_sample(input)
                .map(AnyInteraction::LowPassGain),
        }
    }

    fn delay_samples(self) -> f64 {
        match self {
            AnyInteraction::Gain(factor) => factor.delay_samples(),
            AnyInteraction::SoftClip(clip) => clip.delay_samples(),
            AnyInteraction::LowPassGain(pair) => pair.delay_samples(),
        }
    }

    fn mute(self) -> AnyInteraction {
        match self {
            AnyInteraction::Gain(factor) => AnyInteraction::Gain(factor.mute()),
            AnyInteraction::SoftClip(clip) => AnyInteraction::SoftClip(clip.mute()),
            AnyInteraction::LowPassGain(pair) => AnyInteraction::LowPassGain(pair.mute()),
        }
    }
}
