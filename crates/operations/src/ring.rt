// Sort 3: the ring by itself. Rests on `util::delay_line`, which refuses a bad ring.
use crate::device::{Device, silent, write_answer, write_ring, write_with_reach};
use stream::place::Place;
use util::answered::Answered;
use util::delay_line::Cursor;
use util::lent::advance_lent;
use words::number::from_word;

#[derive(Clone, Copy)]
enum Operation {
    Advance,
    AdvanceWhereLent,
    Write(f64),
    GetDelayed,
    GetDelayedFract(f64),
    TellReach(f64),
    Mute,
}

// An operation by its number, with its argument. One that has no meaning is refused, and silences the ring as 5 does.
fn read_operation(place: &mut Place) -> Operation {
    match place.next() {
        0 => Operation::Advance,
        1 => Operation::AdvanceWhereLent,
        2 => Operation::Write(from_word(place.next())),
        3 => Operation::GetDelayed,
        4 => Operation::GetDelayedFract(from_word(place.next())),
        5 => Operation::Mute,
        6 => Operation::TellReach(from_word(place.next())),
        _ => {
            place.refuse();
            Operation::Mute
        }
    }
}

impl Device for Cursor {
    // There are no settings.
    fn read(_place: &mut Place, position: usize) -> Cursor {
        Cursor { position }
    }

    fn answer_one(&mut self, place: &mut Place, ring: &mut [f64]) {
        let operation = read_operation(place);
        let answered = perform(*self, ring, operation);
        *self = match operation {
            Operation::TellReach(_) => write_with_reach(place, answered),
            _ => write_answer(place, answered),
        };
    }

    fn write_end(&self, place: &mut Place, ring: &[f64]) {
        write_ring(place, *self, ring);
    }
}

// TellReach is GetDelayedFract, whose answer then tells what the ring reaches.
fn perform(mut cursor: Cursor, ring: &mut [f64], operation: Operation) -> Answered<Cursor> {
    match operation {
        Operation::Advance => silent(cursor.advance(ring.len()), cursor),
        Operation::AdvanceWhereLent => {
            let verdict = advance_lent(&mut cursor, ring.len());
            silent(verdict.map(|_| cursor), cursor)
        }
        Operation::Write(x) => silent(cursor.write(ring, x).map(|_| cursor), cursor),
        Operation::GetDelayed => cursor.get_delayed(ring),
        Operation::GetDelayedFract(fract_offset) | Operation::TellReach(fract_offset) => {
            cursor.get_delayed_fract(ring, fract_offset)
        }
        Operation::Mute => silent(cursor.mute(ring).map(|_| cursor), cursor),
    }
}
