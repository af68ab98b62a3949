// The delay line: a cursor by value over a ring that the host lends. The ring's length is the slice's.
ghost use Rattle.std.specs.Prelude.{◌≡◌};
ghost use Rattle.numbers.specs.Outcome.{outcome};
ghost use Rattle.util.specs.declared.delay_line.Read.TheVariants as read;
ghost use Rattle.util.specs.DelayLine.{delay_at, reach_in, advanced, tapped, slot_written, muted};

use crate::answered::Answered;
use crate::place::Place;
use crate::reach::{Reach, reach_of};
use crate::reading::Reading;
use crate::step::Step;
use answers::refusal::{Refusal, Verdict};
use answers::zeros::fill_with_zeros;

// The slot that is written: a place of a ring where it is below the ring's length.
#[repr(C)]
#[derive(Clone, Copy, PartialEq, Eq)]
pub struct Cursor {
    pub position: usize,
}

// How far back a fractional read goes: the offset rounded up, what that added, and whether the ring reaches as far as was asked.
#[derive(Clone, Copy)]
pub struct Delay {
    pub whole: usize,
    pub rest: f64,
    pub reach: Reach,
}

// How a ring is read: at the whole delay, or at a fraction of its length.
// Stays: the new form is no plainer: as `Option<f64>`, None would stand for a place, the slot after the position (01), and no `get(ring, None)` says that.
#[derive(Clone, Copy)]
pub enum Read {
    Whole,
    Fract(f64),
}

impl Read {
    // Whether the ring reaches as far as is asked. The whole delay is within any ring.
    pub(crate) fn reach(self) -> Reach
        ensures { result ≡ reach_in self }
    {
        match self {
            Read::Whole => Reach::Within,
            Read::Fract(fract_offset) => reach_of(fract_offset),
        }
    }
}

// What a read at a fraction of the ring's length needs, worked out once for many samples: no delay where no ring has that length.
#[tactic(auto, unfolding(crate::specs::DelayLine::delay_at))]
pub fn delay_at(slots: usize, fract_offset: f64) -> Delay
    ensures { result ≡ delay_at slots fract_offset }
{
    let Ok(first) = Place::of(0, slots) else {
        return Delay {
            whole: 0,
            rest: 0.0,
            reach: Reach::Within,
        };
    };
    let last = std::num::nearest_u64_to_f64((first.slots - 1) as u64);
    let held = numbers::small::held(fract_offset, 0.0, 1.0);
    let up = numbers::ceil::rounded_up(last * held);
    Delay {
        whole: up.whole as usize,
        rest: up.gap,
        reach: reach_of(fract_offset),
    }
}

impl Cursor {
    // One slot round the ring. A refusal leaves the cursor, of which this is a copy, as it is.
    #[tactic(auto, unfolding(crate::specs::DelayLine::advanced))]
    pub fn advance(mut self, slots: usize) -> Result<Cursor, Refusal>
        ensures { result ≡ advanced self slots }
    {
        let place = Place::of(self.position, slots)?;
        self.position = place.after().position;
        Ok(self)
    }

    // Stores a sample at the position.
    #[tactic(auto, unfolding(crate::specs::DelayLine::slot_written))]
    pub fn write(self, ring: &mut [f64], sample: f64) -> Verdict
        ensures { outcome result ring.new ≡ slot_written self ring.old sample }
    {
        let place = Place::of(self.position, ring.len())?;
        ring[place.position] = sample;
        Ok(())
    }

    // The sample at the whole delay: the slot after the position.
    // Stays: 01 and docs/CONTRACTS.md name `get_delayed`, a promise of its own beside `get_delayed_fract`; both are the one `get`.
    pub fn get_delayed(self, ring: &[f64]) -> Answered<Cursor>
        ensures { result ≡ tapped read.Whole self ring.now }
    {
        self.get(ring, Read::Whole)
    }

    // The sample at a fraction of the ring's length, which is held to 0..1, and whether it had to be.
    pub fn get_delayed_fract(self, ring: &[f64], fract_offset: f64) -> Answered<Cursor>
        ensures { result ≡ tapped (read.Fract fract_offset) self ring.now }
    {
        self.get(ring, Read::Fract(fract_offset))
    }

    // Stays: one form with `RingFilter::process` is no plainer: `get` is lent the ring to read, a filter to write, so that it takes a place, a reading, a state and a closure.
    #[tactic(auto, unfolding(crate::specs::DelayLine::tapped))]
    fn get(self, ring: &[f64], read: Read) -> Answered<Cursor>
        ensures { result ≡ tapped read self ring.now }
    {
        match Place::of(self.position, ring.len()) {
            Ok(place) => {
                let sample = read.read(ring, place);
                Answered::of(Step { next: self, sample }, read.reach())
            }
            Err(refusal) => Answered::refused(refusal, self),
        }
    }

    // Each slot is 0.0, and the position stays.
    #[tactic(auto, unfolding(crate::specs::DelayLine::muted))]
    pub fn mute(self, ring: &mut [f64]) -> Verdict
        ensures { outcome result ring.new ≡ muted self ring.old }
    {
        Place::of(self.position, ring.len())?;
        fill_with_zeros(ring);
        Ok(())
    }
}
