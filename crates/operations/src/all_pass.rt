// Sort 7: the all-pass delay. Rests on `util::all_pass`, which refuses a bad ring.
use crate::device::{Delay, Device, answer_delay, write_ring};
use answers::refusal::Refusal;
use stream::place::Place;
use util::all_pass::AllPassDelay;
use util::answered::Answered;
use util::delay_line::Cursor;
use words::number::from_word;

impl Device for AllPassDelay {
    fn read(place: &mut Place, position: usize) -> AllPassDelay {
        AllPassDelay {
            cursor: Cursor { position },
            feedback: from_word(place.next()),
        }
    }

    fn answer_one(&mut self, place: &mut Place, ring: &mut [f64]) {
        *self = answer_delay(*self, place, ring);
    }

    fn write_end(&self, place: &mut Place, ring: &[f64]) {
        write_ring(place, self.cursor, ring);
    }
}

impl Delay for AllPassDelay {
    fn sample(self, ring: &mut [f64], input: f64) -> Answered<AllPassDelay> {
        self.process_sample(ring, input)
    }

    fn sample_fract(
        self,
        ring: &mut [f64],
        fract_offset: f64,
        input: f64,
    ) -> Answered<AllPassDelay> {
        self.process_sample_fract(ring, fract_offset, input)
    }

    fn silenced(self, ring: &mut [f64]) -> Result<AllPassDelay, Refusal> {
        self.mute(ring)?;
        Ok(self)
    }
}
