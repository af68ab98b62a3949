// The seven filters as machines: coefficients once per window, one step per sample, in the order of operations of filter.rs, whose port this is.
// Rests on the small functions of f64 and the sine and cosine of turns, of `numbers`.
ghost use Rattle.std.specs.Prelude.{◌≡◌, ⊤};
ghost use Rattle.microwave.specs.Running.{ringless};
ghost use Rattle.microwave.specs.Parameter.{ask_list, numbers_of};
ghost use Rattle.microwave.specs.Arithmetic.{f64_arithmetic};
ghost use Rattle.microwave.specs.Biquads.{with_poles, LowPass2, HighPass2, BandPass, Notch, AllPass};
ghost use Rattle.microwave.specs.OnePole.{low_pass_alpha, high_pass_alpha, one_pole_step};
ghost use Rattle.microwave.specs.Filter.{filter_asks, with_numbers, biquad_step, tuned_to, coded, coefficients_at, machine_of};

use crate::machine::Machine;
use crate::parameter::{Asks, Numbers, Parameter, numbers_found, required};
use numbers::small::{held, maximum, recip};
use numbers::turns::{cosine_turns, sine_turns};
use std::f64::consts::TAU;
use util::step::Step;

// Each kind with its own parameters, or with a window's numbers in their place.
#[derive(Clone, Copy)]
pub enum Filter<P> {
    LowPass { cutoff: P },
    LowPass2 { resonance: P, quality: P },
    HighPass { cutoff: P },
    HighPass2 { resonance: P, quality: P },
    BandPass { center: P, quality: P },
    Notch { center: P, quality: P },
    AllPass { corner: P, quality: P },
}

// A filter of a patch.
pub type FilterType = Filter<Parameter>;

impl Filter<Parameter> {
    // What the kind asks for: cutoff, resonance, center or corner, and its quality. A one-pole has no quality.
    pub fn asks(self) -> Asks
        ensures { ask_list result ≡ filter_asks self }
    {
        match self {
            Filter::LowPass { cutoff } | Filter::HighPass { cutoff } => Asks::One(required(cutoff)),
            Filter::LowPass2 {
                resonance: frequency,
                quality,
            }
            | Filter::HighPass2 {
                resonance: frequency,
                quality,
            }
            | Filter::BandPass {
                center: frequency,
                quality,
            }
            | Filter::Notch {
                center: frequency,
                quality,
            }
            | Filter::AllPass {
                corner: frequency,
                quality,
            } => { Asks::Two(required(frequency), required(quality)) }
        }
    }

    // The numbers that answer what it asks for, 0.0 where there is none.
    // Stays: no plainer: `asks` and this need the parameters as one or two asks, so that parts handed out as (P, Option<P>) are matched in each again.
    pub fn numbers(self, values: &[f64], seconds: f64) -> Numbers
        ensures { result ≡ numbers_of (filter_asks self) values.now seconds }
    {
        match self {
            Filter::LowPass { cutoff } | Filter::HighPass { cutoff } => {
                numbers_found([required(cutoff)], values, seconds)
            }
            Filter::LowPass2 {
                resonance: frequency,
                quality,
            }
            | Filter::HighPass2 {
                resonance: frequency,
                quality,
            }
            | Filter::BandPass {
                center: frequency,
                quality,
            }
            | Filter::Notch {
                center: frequency,
                quality,
            }
            | Filter::AllPass {
                corner: frequency,
                quality,
            } => { numbers_found([required(frequency), required(quality)], values, seconds) }
        }
    }

    // The filter with the numbers that answered.
    pub fn with_numbers(self, frequency: f64, quality: f64) -> Filter<f64>
        ensures { result ≡ with_numbers self frequency quality }
    {
        match self {
            Filter::LowPass { .. } => Filter::LowPass { cutoff: frequency },
            Filter::LowPass2 { .. } => Filter::LowPass2 {
                resonance: frequency,
                quality,
            },
            Filter::HighPass { .. } => Filter::HighPass { cutoff: frequency },
            Filter::HighPass2 { .. } => Filter::HighPass2 {
                resonance: frequency,
                quality,
            },
            Filter::BandPass { .. } => Filter::BandPass {
                center: frequency,
                quality,
            },
            Filter::Notch { .. } => Filter::Notch {
                center: frequency,
                quality,
            },
            Filter::AllPass { .. } => Filter::AllPass {
                corner: frequency,
                quality,
            },
        }
    }
}

// A one-pole's kind, with its coefficient for a window.
#[derive(Clone, Copy)]
pub enum OnePole {
    LowPass { alpha: f64 },
    HighPass { alpha: f64 },
}

// A one-pole's memory: the low-pass's last output; the high-pass's last output and last input.
#[repr(C)]
#[derive(Clone, Copy, Default)]
pub struct OnePoleMemory {
    pub low: f64,
    pub high: f64,
    pub last_input: f64,
}

impl OnePoleMemory {
    // One sample. A step changes its own kind's part of the memory only.
    #[tactic(auto, unfolding(crate::specs::OnePole::one_pole_step))]
    pub fn step(mut self, k: OnePole, input: f64) -> Step<OnePoleMemory>
        ensures { result ≡ one_pole_step k self input }
    {
        match k {
            OnePole::LowPass { alpha } => {
                let out = self.low + alpha * (input - self.low);
                self.low = out;
                Step {
                    next: self,
                    sample: out,
                }
            }
            OnePole::HighPass { alpha } => {
                let out = alpha * (self.high + input - self.last_input);
                self.high = out;
                self.last_input = input;
                Step {
                    next: self,
                    sample: out,
                }
            }
        }
    }
}

impl Machine for OnePole {
    type Memory = OnePoleMemory;

    ghost can_step = { λ k s. ⊤ };

    ghost step_of = { λ k. ringless (one_pole_step k) };

    fn step(self, memory: OnePoleMemory, _ring: &mut [f64], input: f64) -> Step<OnePoleMemory> {
        memory.step(self, input)
    }
}

fn low_pass_alpha(cutoff: f64, w: f64) -> f64
    ensures { result ≡ low_pass_alpha cutoff w }
{
    let omega = TAU * cutoff * w;
    recip(1.0 + recip(omega))
}

fn high_pass_alpha(cutoff: f64, w: f64) -> f64
    ensures { result ≡ high_pass_alpha cutoff w }
{
    let omega = TAU * w * cutoff;
    1.0 / (1.0 + omega)
}

// A biquad's coefficients for a window.
#[derive(Clone, Copy)]
pub struct Coefficients {
    pub b0: f64,
    pub b1: f64,
    pub b2: f64,
    pub a0: f64,
    pub a1: f64,
    pub a2: f64,
}

// A biquad's memory: the last two outputs and the last two inputs.
#[repr(C)]
#[derive(Clone, Copy, Default)]
pub struct Biquad {
    pub y1: f64,
    pub y2: f64,
    pub x1: f64,
    pub x2: f64,
}

impl Biquad {
    // One sample, the same for all five kinds: the sum from left to right, then one quotient.
    #[tactic(auto, unfolding(crate::specs::Filter::biquad_step))]
    pub fn step(mut self, k: Coefficients, x0: f64) -> Step<Biquad>
        ensures { result ≡ biquad_step k self x0 }
    {
        let sum = k.b0 * x0 + k.b1 * self.x1 + k.b2 * self.x2 - k.a1 * self.y1 - k.a2 * self.y2;
        let y0 = sum / k.a0;
        self.x2 = self.x1;
        self.x1 = x0;
        self.y2 = self.y1;
        self.y1 = y0;
        Step {
            next: self,
            sample: y0,
        }
    }
}

impl Machine for Coefficients {
    type Memory = Biquad;

    ghost can_step = { λ k s. ⊤ };

    ghost step_of = { λ k. ringless (biquad_step k) };

    fn step(self, memory: Biquad, _ring: &mut [f64], input: f64) -> Step<Biquad> {
        memory.step(self, input)
    }
}

// What the kinds' coefficients are made of.
#[derive(Clone, Copy)]
struct Tuning {
    cos: f64,
    alpha: f64,
    quality: f64,
}

// f0 is held from 0 to the highest that the Rust lets its kind have, for stability.
#[tactic(auto, unfolding(crate::specs::Filter::tuned_to))]
fn tuned(frequency: f64, quality: f64, w: f64, highest: f64) -> Tuning
    ensures { result ≡ tuned_to frequency quality w highest }
{
    let quality = maximum(quality, 1e-10);
    let f0 = held(frequency * w, 0.0, highest);
    Tuning {
        cos: cosine_turns(f0),
        alpha: sine_turns(f0) / 2.0 / quality,
        quality,
    }
}

// A kind's b0, b1 and b2 over the a0, a1 and a2 that all kinds share.
fn with_poles(b0: f64, b1: f64, b2: f64, t: Tuning) -> Coefficients
    ensures { result ≡ coded (with_poles f64_arithmetic b0 b1 b2 t.cos t.alpha) }
{
    Coefficients {
        b0,
        b1,
        b2,
        a0: 1.0 + t.alpha,
        a1: -2.0 * t.cos,
        a2: 1.0 - t.alpha,
    }
}

fn low_pass2(t: Tuning) -> Coefficients
    ensures { result ≡ coefficients_at LowPass2 t }
{
    let b1 = 1.0 - t.cos;
    let b0 = b1 / 2.0;
    with_poles(b0, b1, b0, t)
}

fn high_pass2(t: Tuning) -> Coefficients
    ensures { result ≡ coefficients_at HighPass2 t }
{
    let b1 = -(1.0 + t.cos);
    let b0 = -b1 / 2.0;
    with_poles(b0, b1, b0, t)
}

// Its b1 is 0.0 and still multiplies: an infinite x1 makes NaN.
fn band_pass(t: Tuning) -> Coefficients
    ensures { result ≡ coefficients_at BandPass t }
{
    let b0 = t.quality * t.alpha;
    with_poles(b0, 0.0, -b0, t)
}

fn notch(t: Tuning) -> Coefficients
    ensures { result ≡ coefficients_at Notch t }
{
    with_poles(1.0, -2.0 * t.cos, 1.0, t)
}

fn all_pass(t: Tuning) -> Coefficients
    ensures { result ≡ coefficients_at AllPass t }
{
    with_poles(1.0 - t.alpha, -2.0 * t.cos, 1.0 + t.alpha, t)
}

// What each sample of a window steps by.
#[derive(Clone, Copy)]
pub enum FilterMachine {
    OnePole(OnePole),
    Biquad(Coefficients),
}

impl Filter<f64> {
    // The machine of a window whose samples are w seconds wide.
    #[tactic(auto, unfolding(crate::specs::Filter::machine_of))]
    pub fn coefficients(self, w: f64) -> FilterMachine
        ensures { result ≡ machine_of self w }
    {
        match self {
            Filter::LowPass { cutoff } => FilterMachine::OnePole(OnePole::LowPass {
                alpha: low_pass_alpha(cutoff, w),
            }),
            Filter::LowPass2 { resonance, quality } => {
                FilterMachine::Biquad(low_pass2(tuned(resonance, quality, w, 0.25)))
            }
            Filter::HighPass { cutoff } => FilterMachine::OnePole(OnePole::HighPass {
                alpha: high_pass_alpha(cutoff, w),
            }),
            Filter::HighPass2 { resonance, quality } => {
                FilterMachine::Biquad(high_pass2(tuned(resonance, quality, w, 0.25)))
            }
            Filter::BandPass { center, quality } => {
                FilterMachine::Biquad(band_pass(tuned(center, quality, w, 0.5)))
            }
            Filter::Notch { center, quality } => {
                FilterMachine::Biquad(notch(tuned(center, quality, w, 0.5)))
            }
            Filter::AllPass { corner, quality } => {
                FilterMachine::Biquad(all_pass(tuned(corner, quality, w, 0.5)))
            }
        }
    }
}
