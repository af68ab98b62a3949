// How a ring is read at a place, whatever the delay: at the whole one, at a fraction of the ring's length, or at one that was worked out before.
ghost use Rattle.std.specs.Prelude.{◌≡◌, ℕ, ◌<◌, length};
ghost use Rattle.util.specs.DelayLine.{Reading, delayed_by, reading_of};

use crate::delay_line::{Delay, Read, delay_at};
use crate::place::Place;

pub(crate) trait Reading: Copy {
    // What it reads of a ring at a position.
    ghost reads: { Self → Reading };

    // Which rings it is for, by their number of slots.
    ghost fits: { Self → ℕ → Type 0 };

    fn read(self, ring: &[f64], place: Place) -> f64
        requires { (place.slots ≡ length ring.now) × fits self place.slots }
        ensures { result ≡ reads self ring.now place.position };
}

impl Reading for Read {
    ghost reads = { reading_of };

    ghost fits = { λ _ _. Unit {0} };

    fn read(self, ring: &[f64], place: Place) -> f64 {
        match self {
            Read::Whole => ring[place.after().position],
            Read::Fract(fract_offset) => delay_at(place.slots, fract_offset).read(ring, place),
        }
    }
}

// The two slots round the delay, with as much of the second as was added.
impl Reading for Delay {
    ghost reads = { delayed_by };

    ghost fits = { λ d slots. d.whole < slots };

    fn read(self, ring: &[f64], place: Place) -> f64 {
        let first = place.before(self.whole);
        let second = first.after();
        (1.0 - self.rest) * ring[first.position] + self.rest * ring[second.position]
    }
}
