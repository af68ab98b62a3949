// One operation of sorts 8 and 9 on pools without a patch: what it does, and what is told of it. Rests on `magnetron` for each operation, and
// on `request` for what is asked.
use crate::outcome::write_outcome;
use crate::pools::write_marks;
use crate::request::{Content, Request, Sort, Write};
use answers::refusal::{Verdict, activity_of};
use magnetron::buffer::BufferIndex;
use magnetron::lent::{Lent, LentMut};
use magnetron::write::Wrote;
use stream::place::Place;

// At most as many values are lent to a write.
const MOST_VALUES: usize = 8192;

// One operation: what it asks for, what it does, and its answer.
pub(crate) fn answer_one(
    place: &mut Place,
    sort: Sort,
    lent: &mut LentMut<'_>,
    values: &mut [f64],
) {
    match Request::read(place, sort) {
        Request::Read { window, buffer } => {
            lent.window = window;
            answer_read(place, lent.shared(), buffer);
        }
        Request::Write(write, content) => {
            lent.window = write.window;
            read_values(place, content, values);
            let wrote = perform_write(lent, write, content, values);
            lent.pools = wrote.pools;
            write_wrote(place, wrote);
        }
        Request::Prepare { window } => {
            lent.window = window;
            let prepared = lent.shared().prepare();
            lent.pools = prepared.pools;
            write_flags(place, lent, prepared.verdict);
        }
        Request::SetReset => {
            lent.pools = lent.pools.set_reset();
            write_flags(place, lent, Ok(()));
        }
    }
}

// The outcome, and the part that is handed back: its length and its samples.
fn answer_read(place: &mut Place, lent: Lent<'_>, buffer: BufferIndex) {
    write_outcome(place, lent.check_read(buffer));
    let samples = lent.read(buffer);
    place.write(samples.len() as u64);
    place.write_samples(samples);
}

// The values that a write is lent.
fn read_values(place: &mut Place, content: Content, values: &mut [f64]) {
    let Content::Values(count) = content else {
        return;
    };
    if MOST_VALUES < count {
        return place.refuse();
    }
    place.read_first(values, count);
}

// The outcome and the activity.
fn write_wrote(place: &mut Place, wrote: Wrote) {
    write_outcome(place, wrote.answer);
    place.write(u8::from(activity_of(wrote.answer)) as u64);
}

// Where there are not as many values as were asked for, none are lent.
fn perform_write(lent: &mut LentMut<'_>, write: Write, content: Content, values: &[f64]) -> Wrote {
    let output = write.output;
    let level = write.level;
    match content {
        Content::Values(count) => {
            lent.read_0_write_1(output, level, values.get(..count).unwrap_or(&[]))
        }
        Content::One(a) => lent.read_1_write_1(a, output, level),
        Content::Two(a, b) => lent.read_2_write_1(a, b, output, level),
    }
}

// The outcome, the reset flag and the marks.
fn write_flags(place: &mut Place, lent: &LentMut<'_>, verdict: Verdict) {
    write_outcome(place, verdict);
    place.write_flag(lent.pools.reset);
    write_marks(place, lent.pools);
}
