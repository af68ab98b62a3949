// A filter over a ring that the host lends: one sample where its cursor stands, and the single operation that this makes.
ghost use Rattle.std.specs.Prelude.{◌≡◌, List, length, Float};
ghost use Rattle.numbers.specs.Outcome.{Outcome, outcome};
ghost use Rattle.util.specs.declared.delay_line.Cursor.{Cursor};
ghost use Rattle.util.specs.declared.step.Step.{Step};
ghost use Rattle.util.specs.DelayLine.{Reading, processed};

use crate::answered::Answered;
use crate::delay_line::{Cursor, Read};
use crate::place::Place;
use crate::reading::Reading;
use crate::step::Step;

pub(crate) trait RingFilter: Copy {
    // Where it stands.
    ghost stands: { Self → Cursor };

    // What it makes of a sample by a reading of the ring, and what it leaves there.
    ghost steps: { Reading → Self → List Float → Float → Outcome (Step Self) (List Float) };

    fn cursor(self) -> Cursor
        ensures { result ≡ stands self };

    fn step<D: Reading>(self, ring: &mut [f64], place: Place, reading: D, input: f64) -> Step<Self>
        requires { (place.position ≡ (stands self).position) × (place.slots ≡ length ring.old) × D.fits reading place.slots }
        ensures { outcome result ring.new ≡ steps (D.reads reading) self ring.old input };

    // One sample, refused where the cursor is at no place of the ring.
    final fn process(self, ring: &mut [f64], read: Read, input: f64) -> Answered<Self>
        ensures { outcome result ring.new ≡ processed steps (stands self) read self ring.old input }
    {
        match Place::of(self.cursor().position, ring.len()) {
            Ok(place) => Answered::of(self.step(ring, place, read, input), read.reach()),
            Err(refusal) => Answered::refused(refusal, self),
        }
    }
}
