// Sort 6: the comb, with each response and each limit. Rests on `util::comb_filter`, which refuses a bad ring.
use crate::device::{Delay, Device, answer_delay, read_low_pass, write_ring};
use answers::refusal::Refusal;
use stream::place::Place;
use util::answered::Answered;
use util::comb_filter::CombFilter;
use util::delay_line::Cursor;
use util::interaction::{AnyInteraction, LowPassGain};
use util::low_pass::OnePoleLowPass;
use util::soft_clip::SoftClip;
use words::number::{from_word, to_word};

impl Device for CombFilter {
    fn read(place: &mut Place, position: usize) -> CombFilter {
        CombFilter {
            cursor: Cursor { position },
            response: read_response(place),
            limit: read_limit(place),
        }
    }

    fn answer_one(&mut self, place: &mut Place, ring: &mut [f64]) {
        *self = answer_delay(*self, place, ring);
    }

    // With the low-pass state, where the response has one.
    fn write_end(&self, place: &mut Place, ring: &[f64]) {
        write_ring(place, self.cursor, ring);
        if let AnyInteraction::LowPassGain(chain) = self.response {
            place.write(to_word(chain.first.state));
        }
    }
}

impl Delay for CombFilter {
    fn sample(self, ring: &mut [f64], input: f64) -> Answered<CombFilter> {
        self.process_sample(ring, input)
    }

    fn sample_fract(self, ring: &mut [f64], fract_offset: f64, input: f64) -> Answered<CombFilter> {
        self.process_sample_fract(ring, fract_offset, input)
    }

    fn silenced(self, ring: &mut [f64]) -> Result<CombFilter, Refusal> {
        self.mute(ring)
    }
}

// 0 is a gain, 1 a low-pass that a gain follows. Any other has no meaning: the case is refused, and the low-pass remembers nothing.
fn read_response(place: &mut Place) -> AnyInteraction {
    let first = match place.next() {
        0 => return AnyInteraction::Gain(from_word(place.next())),
        1 => read_low_pass(place),
        _ => {
            place.refuse();
            OnePoleLowPass {
                damping: 0.0,
                state: 0.0,
            }
        }
    };
    let second = from_word(place.next());
    AnyInteraction::LowPassGain(LowPassGain { first, second })
}

// 0 is a gain, 1 a soft clip. Any other has no meaning: the case is refused once the level is read, since of a refused case the input is not read on.
fn read_limit(place: &mut Place) -> AnyInteraction {
    let limit = place.next();
    let level = from_word(place.next());
    place.refuse_if(limit > 1);
    if limit == 0 {
        return AnyInteraction::Gain(level);
    }
    AnyInteraction::SoftClip(SoftClip {
        linear_until: level,
    })
}
