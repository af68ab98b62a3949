// The waveguide, a comb that is tuned to a string's length: what a window works out once, and one step per sample. Port of waveguide.rs.
// Rests on the comb of `util`.
ghost use Rattle.std.specs.Prelude.{◌≡◌, ◌+◌};
ghost use Rattle.util.specs.DelayLine.{delay_at};
ghost use Rattle.util.specs.Interaction.{step};
ghost use Rattle.microwave.specs.Waveguide.{feedback_factor, length_factor, guide_of, strung, InRing, comb_of, string_step};

use crate::machine::Machine;
use crate::parameter::Parameter;
use util::comb_filter::TunedComb;
use util::delay_line::{Cursor, Delay, delay_at};
use util::interaction::{Interaction, LowPassGain};
use util::low_pass::OnePoleLowPass;
use util::soft_clip::SoftClip;
use util::step::Step;

#[derive(Clone, Copy)]
pub enum Reflectance {
    Positive,
    Negative,
}

// A waveguide of a patch. Its ring has buffer_size + 1 slots.
#[derive(Clone, Copy)]
pub struct WaveguideSpec {
    pub buffer_size: usize,
    pub frequency: Parameter,
    pub cutoff: Parameter,
    pub feedback: Parameter,
    pub reflectance: Reflectance,
}

// What a string remembers beside its ring.
#[repr(C)]
#[derive(Clone, Copy, Default)]
pub struct StringMemory {
    pub low_pass: f64,
    pub position: usize,
}

// What a window works out once: the low-pass's damping, the gain after it, and how far back the ring is read, with whether it reaches that far.
#[derive(Clone, Copy)]
pub struct Guide {
    pub damping: f64,
    pub gain: f64,
    pub delay: Delay,
}

impl Reflectance {
    fn feedback_factor(self) -> f64
        ensures { result ≡ feedback_factor self }
    {
        match self {
            Reflectance::Positive => 1.0,
            Reflectance::Negative => -1.0,
        }
    }

    fn length_factor(self) -> f64
        ensures { result ≡ length_factor self }
    {
        match self {
            Reflectance::Positive => 1.0,
            Reflectance::Negative => 0.5,
        }
    }
}

// The delay in the ring of a waveguide. Past its bound there is no such ring, and the sum is not worked out.
#[tactic(auto, using(crate::proofs::Strings::no_ring))]
fn delay_over(buffer_size: usize, fract_offset: f64) -> Delay
    ensures { result ≡ delay_at (buffer_size + 1) fract_offset }
{
    if buffer_size < 32768 {
        delay_at(buffer_size + 1, fract_offset)
    } else {
        delay_at(0, fract_offset)
    }
}

// What a waveguide works out for a window whose samples are w seconds wide. The ring holds the fraction to 0..1, and tells whether it had to.
// Stays: six parameters: a `WaveguideSpec` has two of them, beside parameters that are no numbers yet, so a record would be made for one call, that of `waveguide_machine`.
#[tactic(auto, unfolding(crate::specs::Waveguide::guide_of))]
pub fn guide_of(
    reflectance: Reflectance,
    buffer_size: usize,
    frequency: f64,
    cutoff: f64,
    feedback: f64,
    w: f64,
) -> Guide
    ensures { result ≡ guide_of reflectance buffer_size frequency cutoff feedback w }
{
    let first = OnePoleLowPass::new(cutoff, 1.0 / w);
    let second = feedback * reflectance.feedback_factor();
    let low_pass = LowPassGain { first, second };
    let num_samples_to_skip_back = reflectance.length_factor() / (w * frequency)
        - low_pass.delay_samples();
    let size = std::num::nearest_u64_to_f64(buffer_size as u64);
    let fract_offset = num_samples_to_skip_back / size;
    Guide {
        damping: first.damping,
        gain: second,
        delay: delay_over(buffer_size, fract_offset),
    }
}

impl Guide {
    // The comb as a string's memory has it.
    fn comb(self, memory: StringMemory) -> TunedComb
        ensures { result ≡ comb_of self memory }
    {
        let first = OnePoleLowPass {
            damping: self.damping,
            state: memory.low_pass,
        };
        let response = LowPassGain {
            first,
            second: self.gain,
        };
        let cursor = Cursor {
            position: memory.position,
        };
        let limit = SoftClip { linear_until: 0.9 };
        TunedComb {
            cursor,
            response,
            limit,
        }
    }
}

impl StringMemory {
    // One sample, by the comb.
    pub fn step(self, k: Guide, ring: &mut [f64], input: f64) -> Step<StringMemory>
        requires { InRing k (strung self ring.old) }
        ensures { step (strung result.next ring.new) result.sample ≡ string_step k (strung self ring.old) input }
    {
        let Step { next, sample } = k.comb(self).process_sample_at(ring, k.delay, input);
        Step {
            next: StringMemory {
                low_pass: next.response.first.state,
                position: next.cursor.position,
            },
            sample,
        }
    }
}

impl Machine for Guide {
    type Memory = StringMemory;

    ghost can_step = { InRing };

    ghost step_of = { string_step };

    fn step(self, memory: StringMemory, ring: &mut [f64], input: f64) -> Step<StringMemory> {
        memory.step(self, ring, input)
    }
}
