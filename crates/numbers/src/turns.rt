// The sine and the cosine of a number of turns, worked by a fixed sequence of once-rounded operations.
ghost use Rattle.std.specs.Prelude.{◌≡◌};
ghost use Rattle.numbers.specs.Turns.{horner_of, sine_sum, cosine_sum, reduced, quarter_sine, sine_of, quarter_cosine, cosine_of};

use std::f64::consts::TAU;

// 1 over n factorial, rounded once, alternating in sign: odd n to 15.
const SINE: [f64; 8] = [
    1.0,
    -0.16666666666666666,
    0.008333333333333333,
    -0.0001984126984126984,
    2.7557319223985893e-6,
    -2.505210838544172e-8,
    1.6059043836821613e-10,
    -7.647163731819816e-13,
];

// Even n to 16.
const COSINE: [f64; 9] = [
    1.0,
    -0.5,
    0.041666666666666664,
    -0.001388888888888889,
    2.48015873015873e-5,
    -2.755731922398589e-7,
    2.08767569878681e-9,
    -1.1470745597729725e-11,
    4.779477332387385e-14,
];

// The sum of the coefficients times the powers of u, worked from the highest inward as c + u*(rest); 0.0 where there is none.
pub fn horner(coefficients: &[f64], u: f64) -> f64
    ensures { result ≡ horner_of coefficients.now u }
{
    let Some((highest, lower)) = coefficients.split_last() else {
        return 0.0;
    };
    lower
        .iter()
        .rev()
        .copied()
        .fold(*highest, |sum, c| c + u * sum)
}

// z times the sum of the sine's coefficients at z*z.
pub fn sine_sum(z: f64) -> f64
    ensures { result ≡ sine_sum z }
{
    z * horner(&SINE, z * z)
}

// The sum of the cosine's coefficients at z*z.
pub fn cosine_sum(z: f64) -> f64
    ensures { result ≡ cosine_sum z }
{
    horner(&COSINE, z * z)
}

// The turn brought to the first quarter, where the sine has the same magnitude.
// Stays: returns one by one, which the processor foresees; as one expression, tried, 20 million sines took 164 ms where they take 149.
#[tactic(auto, unfolding(crate::specs::Turns::reduced))]
fn reduced_turn(x: f64) -> f64
    ensures { result ≡ reduced x }
{
    if x < 0.25 {
        return x;
    }
    if x < 0.5 {
        return 0.5 - x;
    }
    if x < 0.75 {
        return x - 0.5;
    }
    1.0 - x
}

// The sine of y turns, y in the first quarter: up to an eighth by the sine sum, past it by the cosine sum.
#[tactic(auto, unfolding(crate::specs::Turns::quarter_sine))]
fn quarter_sine(y: f64) -> f64
    ensures { result ≡ quarter_sine y }
{
    if y <= 0.125 {
        sine_sum(TAU * y)
    } else {
        cosine_sum(TAU * (0.25 - y))
    }
}

// The sine of x turns, x from -0.0 to 1; NaN for any other x. From half a turn on the sum is taken from 0.0 and not negated, which
// differs where it is zero: 0.5 and 1.0 turns give +0.0. A sine is returned from either half by itself, for the same reason as in `reduced_turn`.
pub fn sine_turns(x: f64) -> f64
    ensures { result ≡ sine_of x }
{
    if !(0.0..=1.0).contains(&x) {
        return f64::NAN;
    }
    let s = quarter_sine(reduced_turn(x));
    if x < 0.5 {
        return s;
    }
    0.0 - s
}

// The cosine of x turns, x in the first quarter: up to an eighth by the cosine sum, past it by the sine sum.
#[tactic(auto, unfolding(crate::specs::Turns::quarter_cosine))]
// Stays: the new form is no plainer: one function for this and `quarter_sine` would take the two sums as closures, in one sequence or the other.
fn quarter_cosine(x: f64) -> f64
    ensures { result ≡ quarter_cosine x }
{
    if x <= 0.125 {
        cosine_sum(TAU * x)
    } else {
        sine_sum(TAU * (0.25 - x))
    }
}

// The cosine of x turns, x from -0.0 to 0.5; NaN for any other x.
pub fn cosine_turns(x: f64) -> f64
    ensures { result ≡ cosine_of x }
{
    if !(0.0..=0.5).contains(&x) {
        return f64::NAN;
    }
    if x <= 0.25 {
        quarter_cosine(x)
    } else {
        -quarter_cosine(0.5 - x)
    }
}
