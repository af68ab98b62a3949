// A sample by its bits, as a number or as eight bytes; the numbers to which its magnitude is held, its sign, and what one sign is to the next. Rests on
// `words` for a number's bits.
ghost use Rattle.std.specs.Prelude.{◌≡◌, ◌<◌, ◌≤◌, ℕ};
ghost use Rattle.words.specs.Number.{to_word};
ghost use Rattle.words.specs.Word.{word_of};
ghost use Rattle.report.specs.Sample.{infinity, magnitude, sign_of, is_opposite};

use words::number::to_word;

pub(crate) const SIGN: u64 = 0x8000_0000_0000_0000;

pub(crate) const INFINITY: u64 = 0x7ff0_0000_0000_0000;

pub(crate) const ONE: u64 = 0x3ff0_0000_0000_0000;

// What has a sample's bits.
pub(crate) trait Sample: Copy {
    ghost bits_by: { Self → ℕ };

    fn bits(self) -> u64
        ensures { result ≡ bits_by self };
}

impl Sample for f64 {
    ghost bits_by = { to_word };

    fn bits(self) -> u64 {
        to_word(self)
    }
}

// The lowest byte comes first.
impl Sample for [u8; 8] {
    ghost bits_by = { word_of };

    fn bits(self) -> u64 {
        u64::from_le_bytes(self)
    }
}

// Zeros and NaNs have neither.
#[derive(Clone, Copy, PartialEq, Eq, Default)]
pub enum Sign {
    #[default]
    Neither,
    Positive,
    Negative,
}

// The sign of a sample that has one, by its bits.
// Stays: a function with a `requires`, which `From` cannot have; one that also told of zeros and NaNs would ask again what `with_sample` has asked.
#[tactic(auto, using(crate::proofs::Signs::highest_bit))]
pub(crate) fn sign_of(bits: u64) -> Sign
    requires { (0 < magnitude bits) × (magnitude bits ≤ infinity) }
    ensures { result ≡ sign_of bits }
{
    if bits < SIGN {
        Sign::Positive
    } else {
        Sign::Negative
    }
}

impl Sign {
    // Whether one of the two is positive and the other negative: by their numbers, 1 and 2, so that no jump hangs on it.
    pub(crate) fn is_opposite(self, other: Sign) -> bool
        ensures { result ≡ is_opposite self other }
    {
        self as u64 + other as u64 == 3
    }
}
