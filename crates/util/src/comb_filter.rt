// The comb filter over a ring that the host lends: at any response and any limit.
ghost use Rattle.std.specs.Prelude.{◌≡◌, ◌<◌, ◌≤◌, length};
ghost use Rattle.numbers.specs.Outcome.{outcome};
ghost use Rattle.util.specs.declared.delay_line.Read.TheVariants as read;
ghost use Rattle.util.specs.DelayLine.{delayed_by};
ghost use Rattle.util.specs.Interaction.{step};
ghost use Rattle.util.specs.Comb.{comb, comb_over, comb_on, combed, comb_muted};

use crate::answered::Answered;
use crate::delay_line::{Cursor, Delay, Read};
use crate::interaction::{AnyInteraction, Interaction, LowPassGain};
use crate::place::Place;
use crate::reading::Reading;
use crate::ring_filter::RingFilter;
use crate::soft_clip::SoftClip;
use crate::step::Step;
use answers::refusal::Refusal;

// What it answers it makes of the delayed sample by its response; what it writes goes through its limit.
#[derive(Clone, Copy)]
pub struct Comb<R, L> {
    pub cursor: Cursor,
    pub response: R,
    pub limit: L,
}

// Any response, and any limit.
pub type CombFilter = Comb<AnyInteraction, AnyInteraction>;

// A waveguide's comb.
pub type TunedComb = Comb<LowPassGain, SoftClip>;

impl<R: Interaction, L: Interaction> Comb<R, L> {
    // At the whole delay.
    // Stays: docs/CONTRACTS.md names `process_sample` and `process_sample_fract`, each with its promise; both are the one `process`.
    #[tactic(auto, unfolding(crate::specs::Comb::combed))]
    pub fn process_sample(self, ring: &mut [f64], input: f64) -> Answered<Comb<R, L>>
        ensures { outcome result ring.new ≡ combed R.means L.means read.Whole self ring.old input }
    {
        self.process(ring, Read::Whole, input)
    }

    // At the delay of a fraction of the ring's length.
    #[tactic(auto, unfolding(crate::specs::Comb::combed))]
    pub fn process_sample_fract(
        self,
        ring: &mut [f64],
        fract_offset: f64,
        input: f64,
    ) -> Answered<Comb<R, L>>
        ensures { outcome result ring.new ≡ combed R.means L.means (read.Fract fract_offset) self ring.old input }
    {
        self.process(ring, Read::Fract(fract_offset), input)
    }

    // At a delay that was worked out before. This runs for each sample of a string.
    pub fn process_sample_at(self, ring: &mut [f64], delay: Delay, input: f64) -> Step<Comb<R, L>>
        requires { (self.cursor.position < length ring.old) × (length ring.old ≤ 32768) × (delay.whole < length ring.old) }
        ensures { step (comb_over result.next ring.new) result.sample ≡ comb R.means L.means (delayed_by delay) (comb_over self ring.old) input }
    {
        let place = Place {
            slots: ring.len(),
            position: self.cursor.position,
        };
        self.step(ring, place, delay, input)
    }

    // Silence in the ring, the response and the limit. The position stays. A refusal leaves the comb, of which this is a copy, as it is.
    #[tactic(auto, unfolding(crate::specs::Comb::comb_muted, crate::specs::DelayLine::muted))]
    pub fn mute(mut self, ring: &mut [f64]) -> Result<Comb<R, L>, Refusal>
        ensures { outcome result ring.new ≡ comb_muted R.means L.means self ring.old }
    {
        self.cursor.mute(ring)?;
        self.response = self.response.mute();
        self.limit = self.limit.mute();
        Ok(self)
    }
}

impl<R: Interaction, L: Interaction> RingFilter for Comb<R, L> {
    ghost stands = { λ c. c.cursor };

    ghost steps = { comb_on R.means L.means };

    fn cursor(self) -> Cursor {
        self.cursor
    }

    #[tactic(auto, unfolding(crate::specs::Comb::comb))]
    fn step<D: Reading>(
        self,
        ring: &mut [f64],
        place: Place,
        reading: D,
        input: f64,
    ) -> Step<Comb<R, L>> {
        let at = place.after();
        let delayed = reading.read(ring, at);
        let responded = self.response.process_sample(delayed);
        let limited = self.limit.process_sample(responded.sample + input);
        ring[at.position] = limited.sample;
        Step {
            next: Comb {
                cursor: Cursor {
                    position: at.position,
                },
                response: responded.next,
                limit: limited.next,
            },
            sample: responded.sample,
        }
    }
}
