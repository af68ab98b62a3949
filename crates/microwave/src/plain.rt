// The stages without memory: Pass, Pow3, Clip and RingModulator. Port of their part of mod.rs.
// Rests on the small functions of f64, of `numbers`.
ghost use Rattle.std.specs.Prelude.{◌≡◌, slice_index_or, Float};
ghost use Rattle.std.specs.Float.{nan};
ghost use Rattle.magnetron.specs.Signals.{tab};
ghost use Rattle.microwave.specs.Plain.{clip_limit, shaped_of, gained};

use numbers::small::{absolute, maximum, minimum};

// Such a stage for a window. Clip has its limit, which `clip_limit` works out.
#[derive(Clone, Copy)]
pub enum Shape {
    Pass,
    Pow3,
    Clip { limit: f64 },
    RingModulator,
}

// The limit of a window's Clip, from its parameter's number.
pub fn clip_limit(limit: f64) -> f64
    ensures { result ≡ clip_limit limit }
{
    absolute(limit)
}

impl Shape {
    // The sample made of the inputs' samples. RingModulator alone reads the second.
    pub fn shaped(self, first: f64, second: f64) -> f64
        ensures { result ≡ shaped_of self first second }
    {
        match self {
            Shape::Pass => first,
            Shape::Pow3 => first * first * first,
            Shape::Clip { limit } => minimum(maximum(first, -limit), limit),
            Shape::RingModulator => first * second,
        }
    }
}

// What is made of a sample of each input, with nothing remembered.
pub(crate) trait Shaping: Copy {
    ghost shaped_by: { Self → Float → Float → Float };

    fn shape(self, first: f64, second: f64) -> f64
        ensures { result ≡ shaped_by self first second };
}

impl Shaping for Shape {
    ghost shaped_by = { shaped_of };

    fn shape(self, first: f64, second: f64) -> f64 {
        self.shaped(first, second)
    }
}

// A factor: one side of Pan, which reads one input.
#[derive(Clone, Copy)]
pub(crate) struct Gain {
    pub factor: f64,
}

impl Shaping for Gain {
    ghost shaped_by = { λ g first second. gained g.factor first };

    fn shape(self, first: f64, _second: f64) -> f64 {
        first * self.factor
    }
}

// What is made of eight samples of each input.
// Stays: by a closure for each of the eight, as magnetron's blocks are made, a sample of a window of 64 takes 1.02 to 1.03 times as long for Pow3 and RingModulator, 1.04 times for Pan.
pub(crate) fn shaped_block<S: Shaping>(shape: S, first: [f64; 8], second: [f64; 8]) -> [f64; 8]
    ensures { result ≡ tab 8 (λ k. S.shaped_by shape (slice_index_or first k nan) (slice_index_or second k nan)) }
{
    let mut block = [0.0; 8];
    for k in 0..8 {
        block[k] = shape.shape(first[k], second[k]);
    }
    block
}
