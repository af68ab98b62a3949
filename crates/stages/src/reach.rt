// Whether the string of each stage reached its note, told by stage number. Rests on what the read of a ring answers.
ghost use Rattle.std.specs.Prelude.{◌≡◌};
ghost use Rattle.stages.specs.Reach.{all_within};

use util::reach::Reach;

// One answer for each of 32 stages, by stage number.
// Stays: docs/DECISIONS.md names this record: runs hand it back, `reach_numbers` turns it into numbers for C, and `all_within` is of it.
#[derive(Clone, Copy)]
pub struct Reaches {
    pub stages: [Reach; 32],
}

// No stage has anything to tell.
pub fn all_within() -> Reaches
    ensures { result ≡ all_within }
{
    Reaches {
        stages: [Reach::Within; 32],
    }
}
