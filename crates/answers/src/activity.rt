// How a stage may be heard, and the greater of two such answers.
ghost use Rattle.std.specs.Prelude.{◌≡◌};
ghost use Rattle.answers.specs.Activity.{rank_of, greater_of};

// Greatest last.
#[derive(Clone, Copy, PartialEq, Eq, PartialOrd, Ord)]
pub enum StageActivity {
    Exhausted,
    Internal,
    External,
    Observer,
}

// The number by which an activity is told.
impl From<StageActivity> for u8 {
    ghost from_gives = { λ a n. n ≡ rank_of a };

    fn from(activity: StageActivity) -> u8 {
        activity as u8
    }
}

pub fn greater(a: StageActivity, b: StageActivity) -> StageActivity
    ensures { result ≡ greater_of a b }
{
    a.max(b)
}
