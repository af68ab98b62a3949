// Why a stretch of samples was not added to a report. Rests on nothing.
ghost use Rattle.std.specs.Prelude.{◌≡◌};
ghost use Rattle.report.specs.Refused.{number_of};

#[derive(Clone, Copy, PartialEq, Eq)]
pub enum Refused {
    // There would be more than 4,294,967,295 samples.
    TooManySamples = 30,
    // The bytes end inside a sample.
    CutSample = 34,
}

// Document 02's number.
impl From<Refused> for u64 {
    ghost from_gives = { λ refused n. n ≡ number_of refused };

    fn from(refused: Refused) -> u64 {
        refused as u64
    }
}
