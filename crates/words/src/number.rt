// An f64 as a word: its bits, with one word for every NaN.
ghost use Rattle.std.specs.Prelude.{◌≡◌};
ghost use Rattle.words.specs.Number.{from_word, to_word};

use std::num::{f64_from_bits_with_nan, f64_to_bits_with_nan};

// How every NaN is written.
const NAN: u64 = 0x7ff8_0000_0000_0000;

// The number whose bits the word is. Each word above infinity's, the sign apart, is NaN.
pub fn from_word(word: u64) -> f64
    ensures { result ≡ from_word word }
{
    f64_from_bits_with_nan(word)
}

// The number's bits; 7ff8000000000000 for NaN.
#[tactic(auto, using(crate::proofs::number::Nan::one_nan), unfolding(crate::specs::Number::to_word))]
pub fn to_word(x: f64) -> u64
    ensures { result ≡ to_word x }
{
    if x.is_nan() {
        NAN
    } else {
        f64_to_bits_with_nan(x)
    }
}
