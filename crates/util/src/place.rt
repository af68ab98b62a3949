// A place in a ring: below the ring's number of slots, of which there are at most 32,768. Rests on the refusals of `answers`.
ghost use Rattle.std.specs.Prelude.{◌≡◌, ◌+◌, ◌-◌, ◌%◌, ◌<◌, ◌≤◌, true, false, IfOk, IfErr};
ghost use Rattle.util.specs.DelayLine.{in_ring, next_slot, ring_refusal};

use answers::refusal::{Reason, Refusal};

#[derive(Clone, Copy)]
pub(crate) struct Place {
    pub slots: usize,
    pub position: usize,
    ghost there: { (position < slots) × (slots ≤ 32768) },
}

impl Place {
    // The place of a position in a ring. Where it is none, single operations on the ring are refused.
    #[tactic(auto, unfolding(crate::specs::DelayLine::in_ring))]
    pub fn of(position: usize, slots: usize) -> Result<Place, Refusal>
        ensures found { IfOk result (λ p. (in_ring position slots ≡ true) × (p.position ≡ position) × (p.slots ≡ slots)) }
        ensures refused { IfErr result (λ r. (in_ring position slots ≡ false) × (r ≡ ring_refusal)) }
    {
        if 32768 < slots || slots <= position {
            return Err(Reason::Ring.into());
        }
        Ok(Place { slots, position })
    }

    // The place after it, round the ring. Places are found by a test and not by a remainder, since this runs for each sample.
    pub fn after(mut self) -> Place
        ensures { (result.position ≡ next_slot self.slots self.position) × (result.slots ≡ self.slots) }
    {
        self.position += 1;
        if self.position == self.slots {
            self.position = 0;
        }
        self
    }

    // The place that many slots before it, round the ring.
    pub fn before(self, whole: usize) -> Place
        requires { whole < self.slots }
        ensures { (result.position ≡ (self.position + self.slots - whole) % self.slots) × (result.slots ≡ self.slots) }
    {
        let mut from = self.position;
        if from < whole {
            from += self.slots;
        }
        Place {
            slots: self.slots,
            position: from - whole,
        }
    }
}
