// An operation of sorts 8 and 9 as a case asks for it, with what it names. FORMAT.md of `replay` has the words of each. Rests on `stream` for
// the words.
use magnetron::buffer::BufferIndex;
use stream::place::Place;
use words::number::from_word;

// Single reads and writes, sort 8, or prepare, sort 9.
#[derive(Clone, Copy, PartialEq, Eq)]
pub enum Sort {
    Single,
    Prepare,
}

// Which of the two a case's sort is, where it is one.
pub(crate) fn sort_of(number: u64) -> Option<Sort> {
    match number {
        8 => Some(Sort::Single),
        9 => Some(Sort::Prepare),
        _ => None,
    }
}

// What a single write puts into its output: as many lent values as it says, one buffer's samples, or the product of two.
#[derive(Clone, Copy)]
pub(crate) enum Content {
    Values(usize),
    One(BufferIndex),
    Two(BufferIndex, BufferIndex),
}

#[derive(Clone, Copy)]
pub(crate) struct Write {
    pub(crate) window: usize,
    pub(crate) output: BufferIndex,
    pub(crate) level: Option<f64>,
}

#[derive(Clone, Copy)]
pub(crate) enum Request {
    Read { window: usize, buffer: BufferIndex },
    Write(Write, Content),
    Prepare { window: usize },
    SetReset,
}

impl Request {
    // An operation by its number in the sort. One that has no meaning is refused, and sets the reset flag.
    pub(crate) fn read(place: &mut Place, sort: Sort) -> Request {
        match (sort, place.next()) {
            (Sort::Single, 0) => Request::Read {
                window: place.next() as usize,
                buffer: read_buffer(place),
            },
            (Sort::Single, 1) => {
                Request::Write(read_write(place), Content::Values(place.next() as usize))
            }
            (Sort::Single, 2) => {
                Request::Write(read_write(place), Content::One(read_buffer(place)))
            }
            (Sort::Single, 3) => Request::Write(
                read_write(place),
                Content::Two(read_buffer(place), read_buffer(place)),
            ),
            (Sort::Prepare, 0) => Request::Prepare {
                window: place.next() as usize,
            },
            (Sort::Prepare, 1) => Request::SetReset,
            _ => {
                place.refuse();
                Request::SetReset
            }
        }
    }
}

// What a write names before its content.
fn read_write(place: &mut Place) -> Write {
    Write {
        window: place.next() as usize,
        output: read_buffer(place),
        level: read_level(place),
    }
}

fn read_buffer(place: &mut Place) -> BufferIndex {
    BufferIndex::from(place.next() as usize)
}

// A level is 0, or 1 and its bits. Any other mark is refused, with as many words behind it as it says, of three: what follows is read past them.
fn read_level(place: &mut Place) -> Option<f64> {
    let mark = place.next();
    place.refuse_if(mark > 1);
    let [bits, _, _]: [u64; 3] = place.next_words(mark as usize);
    (mark > 0).then_some(from_word(bits))
}
