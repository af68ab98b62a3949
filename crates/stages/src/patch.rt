// A patch, and its rings: they lie end to end in stage-number order in one lent slice. Where each begins, and check 4.
ghost use Rattle.std.specs.Prelude.{◌≡◌, ◌≤◌, length, take};
ghost use Rattle.stages.specs.Rings.{rings_ok};
ghost use Rattle.stages.specs.Inside.{Bounded, starts_of};

use crate::stage::Stage;
use crate::state::States;

// At most 32 stages; those from `count` on are not there.
// Stays: no heap and fixed memory (a rule of the project), so the stages are an array with their count; `there` lends those that are there.
#[derive(Clone, Copy)]
pub struct Patch {
    pub count: usize,
    pub stages: [Stage; 32],
}

impl Patch {
    // The stages that are there.
    fn there(&self) -> &[Stage]
        requires { self.now.count ≤ 32 }
        ensures stages { result.now ≡ take self.now.count self.now.stages }
        ensures count { length result.now ≡ self.now.count }
    {
        &self.stages[..self.count]
    }

    // Check 4: every ring of the patch, and room for all of them.
    pub fn rings_ok(&self, states: &States, room: usize) -> bool
        requires { self.now.count ≤ 32 }
        ensures { result ≡ rings_ok self.now states.now.stages room }
    {
        let mut end = 0;
        for (k, stage) in self.there().iter().enumerate() {
            if !stage.ring_fine(states.stages[k]) {
                return false;
            }
            end += stage.ring_len();
        }
        end <= room
    }

    // Where each stage's ring begins, by stage number: after those of all stages before it.
    pub fn ring_starts(&self) -> [usize; 32]
        requires { Bounded self.now }
        ensures { result ≡ starts_of self.now }
    {
        let mut at = [0; 32];
        let mut end = 0;
        for (k, stage) in self.there().iter().enumerate() {
            at[k] = end;
            end += stage.ring_len();
        }
        at
    }
}
