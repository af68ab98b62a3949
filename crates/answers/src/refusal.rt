// Why a call is refused, and at which stage; and what a call that may be refused answers.
ghost use Rattle.std.specs.Prelude.{◌≡◌, None};
ghost use Rattle.std.proofs.Math.Option.{some};
ghost use Rattle.order.specs.Checks.{unless};
ghost use Rattle.answers.specs.Refusal.{number_of, result_of, verdict_of, told_of, told_by, activity_of};

use crate::activity::StageActivity;

// The checks that a run and a single operation make, in the sequence of their numbers: 1 to 8.
#[derive(Clone, Copy, PartialEq, Eq)]
pub enum Reason {
    // A count or a capacity is over its bound, or what is lent has another length, or the zeros are none.
    Bounds = 1,
    // The window is too long, or the lent values are not as many as it has samples.
    Window = 2,
    // The order names a stage that isn't there or names one twice, or is too long.
    Order = 3,
    // A ring has a bad length, or its position or the lent rings do not fit it.
    Ring = 4,
    // A buffer that isn't there.
    Buffer = 5,
    // A parameter that gives no number.
    Parameter = 6,
    // An output that is also an input, and is not stale.
    Clash = 7,
    // Both outputs are one buffer.
    Outputs = 8,
}

// Its number in documents 01 and 02.
impl From<Reason> for usize {
    ghost from_gives = { λ reason n. n ≡ number_of reason };

    fn from(reason: Reason) -> usize {
        reason as usize
    }
}

// A refusal, with the stage at fault where it names one.
#[derive(Clone, Copy, PartialEq, Eq)]
pub struct Refusal {
    pub reason: Reason,
    pub stage: Option<usize>,
}

// What a check answers.
pub type Verdict = Result<(), Refusal>;

// What a run and a single write answer.
pub type Answer = Result<StageActivity, Refusal>;

// A refusal that names no stage.
impl From<Reason> for Refusal {
    ghost from_gives = { λ reason refusal. refusal ≡ record { reason = reason; stage = None } };

    fn from(reason: Reason) -> Refusal {
        Refusal {
            reason,
            stage: None,
        }
    }
}

// A refusal of any sort where the test fails.
pub fn unless<E: Drop>(passed: bool, refusal: E) -> Result<(), E>
    ensures { result ≡ result_of (unless passed refusal) }
{
    if passed { Ok(()) } else { Err(refusal) }
}

// A refusal for this reason where the test fails.
#[tactic(auto, unfolding(crate::specs::Refusal::verdict_of))]
pub fn refusal_unless(passed: bool, reason: Reason) -> Verdict
    ensures { result ≡ verdict_of (unless passed reason) }
{
    unless(passed, reason.into())
}

// An answer by the documents' numbers: 0 and 32, or a refusal's number and its stage, 32 where it names none.
// Stays: the C interface, grynnadot_check_read and grynnadot_advance, answers a number and a stage.
#[repr(C)]
#[derive(Clone, Copy, PartialEq, Eq)]
pub struct Told {
    pub number: usize,
    pub stage: usize,
}

impl Told {
    pub fn of<T: Copy>(answer: Result<T, Refusal>) -> Told
        ensures { result ≡ told_of answer }
    {
        match answer {
            Ok(_) => Told {
                number: 0,
                stage: 32,
            },
            Err(refusal) => Told {
                number: refusal.reason.into(),
                stage: refusal.stage.unwrap_or(32),
            },
        }
    }

    // A refusal by any number, which names no stage.
    pub fn refusal(number: usize) -> Told
        ensures { result ≡ told_by (some number) }
    {
        Told { number, stage: 32 }
    }

    // A refusal by this number where the test fails, else what is done.
    pub fn refusal_unless(passed: bool, number: usize) -> Told
        ensures { result ≡ told_by (unless passed number) }
    {
        if passed {
            Told::of(Ok(()))
        } else {
            Told::refusal(number)
        }
    }
}

// The activity of an answer: of a refusal nothing is heard.
pub fn activity_of(answer: Answer) -> StageActivity
    ensures { result ≡ activity_of answer }
{
    answer.unwrap_or(StageActivity::Exhausted)
}
