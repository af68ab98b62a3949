// Sorts 3 to 7: a device is set up, asked one operation after the other, and shown at the end. What the five have in common is here; what
// each asks and does stands in `ring`, `soft_clip`, `low_pass`, `comb` and `all_pass`.
use crate::outcome::write_outcome;
use answers::refusal::Refusal;
use stream::place::Place;
use util::all_pass::AllPassDelay;
use util::answered::Answered;
use util::comb_filter::CombFilter;
use util::delay_line::Cursor;
use util::low_pass::{OnePoleLowPass, damping};
use util::reach::Reach;
use util::soft_clip::SoftClip;
use words::number::{from_word, to_word};

// Which device a case is about, by the case's sort.
#[derive(Clone, Copy, PartialEq, Eq)]
pub enum Sort {
    Ring,
    SoftClip,
    LowPass,
    Comb,
    AllPass,
}

// The device of a case's sort, where it has one.
fn sort_of(number: u64) -> Option<Sort> {
    match number {
        3 => Some(Sort::Ring),
        4 => Some(Sort::SoftClip),
        5 => Some(Sort::LowPass),
        6 => Some(Sort::Comb),
        7 => Some(Sort::AllPass),
        _ => None,
    }
}

// What is the same of all devices: a case sets one up, asks it, and is told what it remembers. One without a ring is lent an empty one.
pub(crate) trait Device: Drop {
    // As the settings have it, at a position in its ring.
    fn read(place: &mut Place, position: usize) -> Self;

    // One operation: what it asks for, what it does, and its answer.
    fn answer_one(&mut self, place: &mut Place, ring: &mut [f64]);

    // After the last operation.
    fn write_end(&self, place: &mut Place, ring: &[f64]);
}

// A case, from the word after its sort on. A sort that is no device's is refused.
pub fn answer(place: &mut Place, sort: u64, rings: &mut [f64]) {
    match sort_of(sort) {
        Some(Sort::Ring) => answer_on_ring::<Cursor>(place, rings),
        Some(Sort::SoftClip) => answer_at::<SoftClip>(place, &mut [], 0),
        Some(Sort::LowPass) => answer_at::<OnePoleLowPass>(place, &mut [], 0),
        Some(Sort::Comb) => answer_on_ring::<CombFilter>(place, rings),
        Some(Sort::AllPass) => answer_on_ring::<AllPassDelay>(place, rings),
        None => place.refuse(),
    }
}

// The ring's length, the position and the cells come first.
fn answer_on_ring<D: Device>(place: &mut Place, rings: &mut [f64]) {
    let length = place.next() as usize;
    let position = place.next() as usize;
    let Some(ring) = rings.get_mut(..length) else {
        return place.refuse();
    };
    place.read_samples(ring);
    answer_at::<D>(place, ring, position);
}

// From the settings on.
fn answer_at<D: Device>(place: &mut Place, ring: &mut [f64], position: usize) {
    let mut device = D::read(place, position);
    let count = place.next();
    if place.each(count, |place| device.answer_one(place, ring)) {
        device.write_end(place, ring);
    }
}

// A low-pass in a state, as settings have it.
pub(crate) fn read_low_pass(place: &mut Place) -> OnePoleLowPass {
    let [cutoff, rate, state]: [u64; 3] = place.next_words(3);
    OnePoleLowPass {
        damping: damping(from_word(cutoff), from_word(rate)),
        state: from_word(state),
    }
}

// What a comb and an all-pass do over their ring.
pub(crate) trait Delay: Copy {
    fn sample(self, ring: &mut [f64], input: f64) -> Answered<Self>;

    fn sample_fract(self, ring: &mut [f64], fract_offset: f64, input: f64) -> Answered<Self>;

    // The state after it.
    fn silenced(self, ring: &mut [f64]) -> Result<Self, Refusal>;
}

// What such a delay is asked for; the answer to TellReach tells what the ring reaches.
#[derive(Clone, Copy)]
enum Operation {
    ProcessSample(f64),
    ProcessSampleFract { fract_offset: f64, input: f64 },
    TellReach { fract_offset: f64, input: f64 },
    Mute,
}

// An operation by its number, with its arguments. One that has no meaning is refused, and silences the ring as 2 does.
fn read_operation(place: &mut Place) -> Operation {
    match place.next() {
        0 => Operation::ProcessSample(from_word(place.next())),
        1 => Operation::ProcessSampleFract {
            fract_offset: from_word(place.next()),
            input: from_word(place.next()),
        },
        2 => Operation::Mute,
        3 => Operation::TellReach {
            fract_offset: from_word(place.next()),
            input: from_word(place.next()),
        },
        _ => {
            place.refuse();
            Operation::Mute
        }
    }
}

// One operation of such a delay: what it asks for, what it does, and its answer. What comes next is handed back.
pub(crate) fn answer_delay<D: Delay>(delay: D, place: &mut Place, ring: &mut [f64]) -> D {
    match read_operation(place) {
        Operation::ProcessSample(input) => write_answer(place, delay.sample(ring, input)),
        Operation::ProcessSampleFract {
            fract_offset,
            input,
        } => write_answer(place, delay.sample_fract(ring, fract_offset, input)),
        Operation::TellReach {
            fract_offset,
            input,
        } => write_with_reach(place, delay.sample_fract(ring, fract_offset, input)),
        Operation::Mute => write_answer(place, silent(delay.silenced(ring), delay)),
    }
}

// What an operation that has no sample to give answers: with the state after it, or where it is refused the one before.
pub(crate) fn silent<S: Copy>(done: Result<S, Refusal>, before: S) -> Answered<S> {
    Answered {
        verdict: done.map(|_| ()),
        next: done.unwrap_or(before),
        sample: 0.0,
        reach: Reach::Within,
    }
}

// An answer over a ring: the outcome and the sample. What comes next is handed back.
pub(crate) fn write_answer<S>(place: &mut Place, answered: Answered<S>) -> S {
    write_outcome(place, answered.verdict);
    place.write(to_word(answered.sample));
    answered.next
}

// The same, and what the ring reaches.
pub(crate) fn write_with_reach<S>(place: &mut Place, answered: Answered<S>) -> S {
    let reach = answered.reach;
    let next = write_answer(place, answered);
    place.write(u8::from(reach) as u64);
    next
}

// What is remembered over a ring: the position and all cells.
pub(crate) fn write_ring(place: &mut Place, cursor: Cursor, ring: &[f64]) {
    place.write(cursor.position as u64);
    place.write_samples(ring);
}
