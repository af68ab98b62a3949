// The small functions of f64: maximum and minimum, signs, and the whole part with what it leaves.
// Stays: the library's functions of these names go unused, since document 01 ("Forms that stand in the way") has abs, copysign, max, min, ceil and fract worked out here.
ghost use Rattle.std.specs.Prelude.{◌≡◌, ◌&&◌};
ghost use Rattle.std.specs.Float.{binary64};
ghost use Rattle.std.specs.Float.Ieee.{rem, lt, le};
ghost use Rattle.numbers.specs.Constants.{one64};
ghost use Rattle.numbers.specs.Small.{max_of, min_of, held_of, negative, abs_of, copysign_of, recip_of, whole_of, fract_of, rem_euclid_of};

use std::num::{nearest_u64_to_f64, truncating_f64_to_u64};

// 2^53, up to which an f64 holds every whole number, and from which on it holds nothing else.
pub const LIMIT: f64 = 9007199254740992.0;

// If one is NaN, the other; if equal, the first.
#[tactic(auto, unfolding(crate::specs::Small::max_of))]
pub fn maximum(x: f64, y: f64) -> f64
    ensures { result ≡ max_of x y }
{
    if x.is_nan() || x < y { y } else { x }
}

// If one is NaN, the other; if equal, the first.
// Stays: a second function, since one for both would be told by a closure which of two comes first, and say no more than this line does.
#[tactic(auto, unfolding(crate::specs::Small::min_of))]
pub fn minimum(x: f64, y: f64) -> f64
    ensures { result ≡ min_of x y }
{
    if x.is_nan() || y < x { y } else { x }
}

// The maximum with a, then the minimum with b.
pub fn held(x: f64, a: f64, b: f64) -> f64
    ensures { result ≡ held_of x a b }
{
    minimum(maximum(x, a), b)
}

// Whether the sign is minus. A zero's sign shows in its reciprocal; a NaN counts as plus.
pub fn is_negative(x: f64) -> bool
    ensures { result ≡ negative x }
{
    if x == 0.0 { 1.0 / x < 0.0 } else { x < 0.0 }
}

// The magnitude of x. Taken from 0.0, either zero leaves +0.0, and any other f64 its exact negative.
pub fn absolute(x: f64) -> f64
    ensures { result ≡ abs_of x }
{
    if x <= 0.0 { 0.0 - x } else { x }
}

// The magnitude of x with the sign of y.
#[tactic(auto, unfolding(crate::specs::Small::copysign_of))]
pub fn copysign(x: f64, y: f64) -> f64
    ensures { result ≡ copysign_of x y }
{
    if is_negative(y) {
        -absolute(x)
    } else {
        absolute(x)
    }
}

// 1/x.
pub fn recip(x: f64) -> f64
    ensures { result ≡ recip_of x }
{
    1.0 / x
}

// The whole part toward zero, with x's sign. Past 2^53 every f64 is whole; an infinity and a NaN stay.
pub fn whole_part(x: f64) -> f64
    ensures { result ≡ whole_of x }
{
    let magnitude = absolute(x);
    if magnitude <= LIMIT {
        let whole = truncating_f64_to_u64(magnitude);
        copysign(nearest_u64_to_f64(whole), x)
    } else {
        x
    }
}

// Whether x is from `low` on and below `end`. A NaN is not.
fn is_from(x: f64, low: f64, end: f64) -> bool
    ensures { result ≡ (le low x && lt x end) }
{
    x >= low && x < end
}

// x minus its whole part toward zero: +0.0 at each whole number, -0.0 and -3.0 among them. From 0 to below 2, where waves ask for it, no cast is needed.
pub fn fract(x: f64) -> f64
    ensures { result ≡ fract_of x }
{
    if is_from(x, 0.0, 1.0) {
        x + 0.0
    } else if is_from(x, 1.0, 2.0) {
        x - 1.0
    } else {
        x - whole_part(x)
    }
}

// x % 1.0: x minus its whole part, with x's sign on a zero too. `%` itself would be a call of C's `fmod`.
fn remainder_one(x: f64) -> f64
    ensures { result ≡ rem binary64 x one64 }
{
    copysign(x - whole_part(x), x)
}

// x % 1.0, plus 1.0 if that is below 0.
#[tactic(auto, unfolding(crate::specs::Small::rem_euclid_of))]
fn wrapped(x: f64) -> f64
    ensures { result ≡ rem_euclid_of x }
{
    let r = remainder_one(x);
    if r < 0.0 { r + 1.0 } else { r }
}

// x % 1.0, plus 1.0 if that is below 0, which can round to 1.0. A remainder of -0.0 stays. From 0 to below 1, where a phase nearly always is, it is x. `wrapped` is called in one place alone, so that it stays inlined and no call empties the float registers of a loop.
pub fn rem_euclid_one(x: f64) -> f64
    ensures { result ≡ rem_euclid_of x }
{
    if is_from(x, 0.0, 1.0) { x } else { wrapped(x) }
}
