// Sort 4: the soft clip by itself. Rests on `util::soft_clip`.
use crate::device::Device;
use stream::place::Place;
use util::interaction::Interaction;
use util::soft_clip::SoftClip;
use words::number::{from_word, to_word};

impl Device for SoftClip {
    fn read(place: &mut Place, _position: usize) -> SoftClip {
        SoftClip {
            linear_until: from_word(place.next()),
        }
    }

    // The one operation, which has no number.
    fn answer_one(&mut self, place: &mut Place, _ring: &mut [f64]) {
        let clipped = self.process_sample(from_word(place.next()));
        *self = clipped.next;
        place.write(to_word(clipped.sample));
    }

    // Nothing is remembered.
    fn write_end(&self, _place: &mut Place, _ring: &[f64]) {}
}
