// Sorts 8 and 9: single reads and writes, and prepare, on pools without a patch. A case has its pools and slices, then operation after
// operation, each answered as it is read. Rests on `pools` for what both sorts begin with, on `request` for what an operation asks, and on
// `operation` for what it does.
use crate::operation::answer_one;
use crate::pools::{CELLS, Lengths, Lent, Memory, read_marks, read_sizes, write_marks};
pub use crate::request::Sort;
use crate::request::sort_of;
use magnetron::lent::LentMut;
use magnetron::pool::Pools;
use stream::place::Place;

// A case, from the word after its sort on. A sort other than these two is refused.
pub fn answer(place: &mut Place, sort: u64, memory: &mut Memory) {
    match sort_of(sort) {
        Some(sort) => answer_over(place, sort, memory),
        None => place.refuse(),
    }
}

// Where a slice would be longer than what is lent for it, the case is refused. The values of a write come where the cells of rings lie, of which
// these sorts have none.
fn answer_over(place: &mut Place, sort: Sort, memory: &mut Memory) {
    let sizes = read_sizes(place);
    let lengths = Lengths {
        rings: CELLS,
        ..sizes.lengths
    };
    let Some(mut lent) = memory.lend(lengths) else {
        return place.refuse();
    };
    lent.read_pools(place);
    let pools = read_pools(place, sort, sizes.pools);
    let Lent {
        internal,
        external,
        zeros,
        rings,
        ..
    } = lent;
    let mut pools_lent = LentMut {
        internal,
        external,
        zeros,
        pools,
        window: 0,
    };
    answer_all(place, sort, &mut pools_lent, rings);
}

// The marks; sort 9 has a reset flag.
fn read_pools(place: &mut Place, sort: Sort, sized: Pools) -> Pools {
    let mut pools = sized;
    read_marks(place, &mut pools);
    if sort == Sort::Prepare {
        pools.reset = place.next() != 0;
    }
    pools
}

// Operation after operation.
fn answer_all(place: &mut Place, sort: Sort, lent: &mut LentMut<'_>, values: &mut [f64]) {
    let count = place.next();
    if place.each(count, |place| answer_one(place, sort, lent, values)) {
        write_end(place, sort, lent);
    }
}

// After the last operation: all samples, and in sort 8 the marks.
fn write_end(place: &mut Place, sort: Sort, lent: &LentMut<'_>) {
    place.write_samples(lent.internal);
    place.write_samples(lent.external);
    if sort == Sort::Single {
        write_marks(place, lent.pools);
    }
}
