// What a single operation on a ring answers that has a sample: whether it is refused, the next state, the sample, and whether the ring reaches as far
// back as was asked. Rests on the refusals of `answers`.
ghost use Rattle.std.specs.Prelude.{◌≡◌, Err};
ghost use Rattle.util.specs.DelayLine.{answered, unanswered};

use crate::reach::Reach;
use crate::step::Step;
use answers::refusal::{Refusal, Verdict};

// Stays: 01's "a sample they would answer is then 0.0" gives a refusal a sample, and the state as it was, so that they stand beside the verdict.
#[derive(Clone, Copy)]
pub struct Answered<S> {
    pub verdict: Verdict,
    pub next: S,
    pub sample: f64,
    pub reach: Reach,
}

impl<S> Answered<S> {
    pub(crate) fn of(step: Step<S>, reach: Reach) -> Answered<S>
        ensures { result ≡ answered reach step }
    {
        Answered {
            verdict: Ok(()),
            next: step.next,
            sample: step.sample,
            reach,
        }
    }

    pub(crate) fn refused(refusal: Refusal, state: S) -> Answered<S>
        ensures { result ≡ unanswered refusal state }
    {
        Answered {
            verdict: Err(refusal),
            next: state,
            sample: 0.0,
            reach: Reach::Within,
        }
    }
}
