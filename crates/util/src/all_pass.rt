// The all-pass delay over a ring that the host lends.
ghost use Rattle.std.specs.Prelude.{◌≡◌};
ghost use Rattle.numbers.specs.Outcome.{outcome};
ghost use Rattle.util.specs.declared.delay_line.Read.TheVariants as read;
ghost use Rattle.util.specs.DelayLine.{muted};
ghost use Rattle.util.specs.AllPass.{passed, pass_on, fed_back};

use crate::answered::Answered;
use crate::delay_line::{Cursor, Read};
use crate::place::Place;
use crate::reading::Reading;
use crate::ring_filter::RingFilter;
use crate::step::Step;
use answers::refusal::Verdict;

#[derive(Clone, Copy)]
pub struct AllPassDelay {
    pub cursor: Cursor,
    pub feedback: f64,
}

impl AllPassDelay {
    // The same place of the ring with another feedback.
    pub fn set_feedback(mut self, feedback: f64) -> AllPassDelay
        ensures { result ≡ fed_back self feedback }
    {
        self.feedback = feedback;
        self
    }

    // At the whole delay.
    // Stays: docs/CONTRACTS.md names `process_sample` and `process_sample_fract`, each with its promise; both are the one `process`.
    #[tactic(auto, unfolding(crate::specs::AllPass::passed))]
    pub fn process_sample(self, ring: &mut [f64], input: f64) -> Answered<AllPassDelay>
        ensures { outcome result ring.new ≡ passed read.Whole self ring.old input }
    {
        self.process(ring, Read::Whole, input)
    }

    // At the delay of a fraction of the ring's length.
    #[tactic(auto, unfolding(crate::specs::AllPass::passed))]
    pub fn process_sample_fract(
        self,
        ring: &mut [f64],
        fract_offset: f64,
        input: f64,
    ) -> Answered<AllPassDelay>
        ensures { outcome result ring.new ≡ passed (read.Fract fract_offset) self ring.old input }
    {
        self.process(ring, Read::Fract(fract_offset), input)
    }

    // Silence in the ring. The position stays.
    pub fn mute(self, ring: &mut [f64]) -> Verdict
        ensures { outcome result ring.new ≡ muted self.cursor ring.old }
    {
        self.cursor.mute(ring)
    }
}

impl RingFilter for AllPassDelay {
    ghost stands = { λ a. a.cursor };

    ghost steps = { pass_on };

    fn cursor(self) -> Cursor {
        self.cursor
    }

    fn step<D: Reading>(
        mut self,
        ring: &mut [f64],
        place: Place,
        reading: D,
        input: f64,
    ) -> Step<AllPassDelay> {
        let at = place.after();
        let delayed = reading.read(ring, at);
        let remembered = input + self.feedback * delayed;
        ring[at.position] = remembered;
        self.cursor.position = at.position;
        Step {
            next: self,
            sample: delayed - remembered * self.feedback,
        }
    }
}
