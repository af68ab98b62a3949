// A report, and stretches of samples that are added to it: of lent windows, or of lent bytes as a stream hands them over. Rests on `sample` for what
// a sample counts among and on `words` for its bits.
ghost use Rattle.std.specs.Prelude.{◌≡◌, [], ◌∷◌, map, ◌+◌, ◌<◌, ◌≤◌, ◌/◌, length};
ghost use Rattle.words.specs.Number.{to_word};
ghost use Rattle.words.specs.Word.{word_of};
ghost use Rattle.report.specs.Sample.{infinity};
ghost use Rattle.report.specs.Report.{no_samples, most, fullest, has_room, after, added_of, told};
ghost use Rattle.report.specs.Bytes.{samples_of, added_bytes_of};
ghost use Rattle.report.specs.Inside.{signed_by, levelled_by};

use crate::refused::Refused;
use crate::sample::{INFINITY, ONE, SIGN, Sample, Sign, sign_of};

// What no count passes.
const MOST: u64 = 4_294_967_295;

// The six figures, in document 02's order, and the last sign that was met, to which the next one is held.
#[derive(Clone, Copy, Default)]
pub struct Report {
    pub samples: u64,
    pub nans: u64,
    pub infinities: u64,
    pub above_one: u64,
    pub sign_changes: u64,
    pub largest: u64,
    pub last: Sign,
}

impl Report {
    // The report of no samples.
    pub fn new() -> Report
        ensures { result ≡ no_samples }
    {
        Report::default()
    }

    // A stretch of samples more, of any length; refused where a count could pass 4,294,967,295. A refusal leaves the report as it is.
    #[tactic(auto, unfolding(crate::specs::Report::added_of, crate::specs::Report::told))]
    pub fn add(&mut self, samples: &[f64]) -> Result<(), Refused>
        ensures { told result self.new ≡ added_of self.old (map to_word samples.now) }
    {
        if !self.has_room(samples.len()) {
            return Err(Refused::TooManySamples);
        }
        *self = self.with_all(samples);
        Ok(())
    }

    // A stretch of samples more, as bytes, each sample's eight low byte first: refused as above, and then where they end inside a sample.
    #[tactic(auto, using(crate::proofs::Walk::words_of), unfolding(crate::specs::Bytes::added_bytes_of, crate::specs::Report::told))]
    pub fn add_bytes(&mut self, bytes: &[u8]) -> Result<(), Refused>
        ensures { told result self.new ≡ added_bytes_of self.old bytes.now }
    {
        let (words, rest) = bytes.as_chunks::<8>();
        if !self.has_room(words.len()) {
            return Err(Refused::TooManySamples);
        }
        if !rest.is_empty() {
            return Err(Refused::CutSample);
        }
        *self = self.with_all(words);
        Ok(())
    }

    // The greatest count.
    #[tactic(auto, unfolding(crate::specs::Report::fullest))]
    fn fullest(self) -> u64
        ensures { result ≡ fullest self }
    {
        self.samples
            .max(self.nans)
            .max(self.infinities)
            .max(self.above_one)
            .max(self.sign_changes)
    }

    // Whether n samples more take no count past its bound.
    fn has_room(self, n: usize) -> bool
        ensures { result ≡ has_room self n }
    {
        self.fullest().saturating_add(n as u64) <= MOST
    }

    // The lent samples more, for which there is room.
    fn with_all<S: Sample>(self, samples: &[S]) -> Report
        requires { fullest self + length samples.now ≤ most }
        ensures { result ≡ after self (map S.bits_by samples.now) }
    {
        let mut report = self;
        for sample in samples {
            report = report.with_sample((*sample).bits());
        }
        report
    }

    // One sample more, by its bits. Of zeros and NaNs no more is to be told; for the others no jump hangs on sign or loudness.
    #[tactic(auto, using(crate::proofs::report::Sorts::one_zero, crate::proofs::report::Sorts::one_nan, crate::proofs::report::Sorts::one_other), unfolding(crate::specs::Report::fullest, crate::specs::Inside::signed_by))]
    fn with_sample(mut self, bits: u64) -> Report
        requires { fullest self < most }
        ensures { result ≡ after self (bits ∷ []) }
    {
        self.samples += 1;
        let magnitude = bits % SIGN;
        if magnitude == 0 {
            return self;
        }
        if magnitude > INFINITY {
            self.nans += 1;
            return self;
        }
        self.with_sign(sign_of(bits)).with_magnitude(magnitude)
    }

    // A sign is held to the last one that was met, and is then that one.
    #[tactic(auto, unfolding(crate::specs::Inside::signed_by))]
    fn with_sign(mut self, sign: Sign) -> Report
        requires { self.sign_changes < most }
        ensures { result ≡ signed_by self sign }
    {
        self.sign_changes += u64::from(self.last.is_opposite(sign));
        self.last = sign;
        self
    }

    // The magnitude of a number or an infinity.
    #[tactic(auto, using(crate::proofs::report::Sorts::levelled_infinite, crate::proofs::report::Sorts::levelled_finite))]
    fn with_magnitude(mut self, magnitude: u64) -> Report
        requires { (self.infinities < most) × (self.above_one < most) × (magnitude ≤ infinity) }
        ensures { result ≡ levelled_by self magnitude }
    {
        self.above_one += u64::from(magnitude > ONE);
        if magnitude == INFINITY {
            self.infinities += 1;
            return self;
        }
        self.largest = self.largest.max(magnitude);
        self
    }
}
