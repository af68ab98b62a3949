// Whether a ring reaches as far back as a fraction of its length asks: what a fractional read answers besides its sample.
ghost use Rattle.std.specs.Prelude.{◌≡◌};
ghost use Rattle.util.specs.Reach.{reach_of, number_of};

#[derive(Clone, Copy, PartialEq, Eq)]
pub enum Reach {
    Within = 0,
    Below = 1,
    Above = 2,
    NotANumber = 3,
}

// Judged of the fraction as it was given, not as it is held: -0.0, 0 and 1 are within.
#[tactic(auto, unfolding(crate::specs::Reach::reach_of))]
pub(crate) fn reach_of(fract_offset: f64) -> Reach
    ensures { result ≡ reach_of fract_offset }
{
    if fract_offset.is_nan() {
        Reach::NotANumber
    } else if fract_offset < 0.0 {
        Reach::Below
    } else if 1.0 < fract_offset {
        Reach::Above
    } else {
        Reach::Within
    }
}

// The number by which it is told.
impl From<Reach> for u8 {
    ghost from_gives = { λ reach n. n ≡ number_of reach };

    fn from(reach: Reach) -> u8 {
        reach as u8
    }
}

// The same, by name.
pub fn number(reach: Reach) -> u8
    ensures { result ≡ number_of reach }
{
    reach.into()
}
