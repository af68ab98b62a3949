// A number rounded up, with what that added: c and i of the delay line.
ghost use Rattle.std.specs.Prelude.{◌≡◌};
ghost use Rattle.numbers.specs.Ceil.{up_of, rounded_up_of};

use crate::small::LIMIT;
use std::num::{nearest_u64_to_f64, truncating_f64_to_u64};

// A number rounded up, and the gap from the number up to it.
#[derive(Clone, Copy)]
pub struct Up {
    pub whole: u64,
    pub gap: f64,
}

// The whole number at or next above x, for x from 0 to 2^53; 0 for any other x.
pub fn round_up(x: f64) -> u64
    ensures { result ≡ up_of x }
{
    if !(0.0..=LIMIT).contains(&x) {
        return 0;
    }
    let whole = truncating_f64_to_u64(x);
    if nearest_u64_to_f64(whole) < x {
        whole + 1
    } else {
        whole
    }
}

// x rounded up, with the gap; for an x that `round_up` takes for 0, the gap is 0 - x.
pub fn rounded_up(x: f64) -> Up
    ensures { result ≡ rounded_up_of x }
{
    let whole = round_up(x);
    Up {
        whole,
        gap: nearest_u64_to_f64(whole) - x,
    }
}
