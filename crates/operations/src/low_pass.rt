// Sort 5: the one-pole low-pass by itself. Rests on `util::low_pass`.
use crate::device::{Device, read_low_pass};
use stream::place::Place;
use util::interaction::Interaction;
use util::low_pass::OnePoleLowPass;
use words::number::{from_word, to_word};

#[derive(Clone, Copy)]
enum Operation {
    ProcessSample(f64),
    DelaySamples,
    SetCutoff { cutoff: f64, rate: f64 },
    Mute,
}

// An operation by its number, with its arguments. One that has no meaning is refused, and mutes as 3 does.
fn read_operation(place: &mut Place) -> Operation {
    match place.next() {
        0 => Operation::ProcessSample(from_word(place.next())),
        1 => Operation::DelaySamples,
        2 => Operation::SetCutoff {
            cutoff: from_word(place.next()),
            rate: from_word(place.next()),
        },
        3 => Operation::Mute,
        _ => {
            place.refuse();
            Operation::Mute
        }
    }
}

impl Device for OnePoleLowPass {
    fn read(place: &mut Place, _position: usize) -> OnePoleLowPass {
        read_low_pass(place)
    }

    fn answer_one(&mut self, place: &mut Place, _ring: &mut [f64]) {
        let answer = perform(self, read_operation(place));
        place.write(to_word(answer));
    }

    fn write_end(&self, place: &mut Place, _ring: &[f64]) {
        place.write(to_word(self.damping));
        place.write(to_word(self.state));
    }
}

// The number that an operation answers, 0.0 where it has none.
fn perform(filter: &mut OnePoleLowPass, operation: Operation) -> f64 {
    match operation {
        Operation::ProcessSample(input) => {
            let filtered = filter.process_sample(input);
            *filter = filtered.next;
            return filtered.sample;
        }
        Operation::DelaySamples => return filter.delay_samples(),
        Operation::SetCutoff { cutoff, rate } => *filter = filter.set_cutoff(cutoff, rate),
        Operation::Mute => *filter = filter.mute(),
    }
    0.0
}
