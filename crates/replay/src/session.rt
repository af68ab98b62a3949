// Sort 1: a session of runs. Pools, a patch and states are lent once, and window follows window over what the one before left. Rests on
// `loans` and `operations::pools` for what it reads, and on `window` for each window.
use loans::patch::read_patch;
use loans::states::read_states;
use magnetron::pool::Pools;
use operations::pools::{Lengths, Lent, Memory, read_marks, read_sizes};
use stages::patch::Patch;
use stages::state::States;
use stream::place::Place;

// What the answer to a window includes besides the pools: states and rings, and what each stage reached.
#[derive(Clone, Copy)]
pub(crate) struct Wanted {
    pub(crate) states: bool,
    pub(crate) reaches: bool,
}

// What comes before the stages, with their count: what answers include, and how much of each array is lent. Nothing is stale in the pools
// yet.
#[derive(Clone, Copy)]
struct Heading {
    wanted: Wanted,
    pools: Pools,
    lengths: Lengths,
    count: usize,
}

// What goes from window to window, and what is lent to each.
#[derive(Drop)]
pub(crate) struct Session<'a> {
    pub(crate) wanted: Wanted,
    pub(crate) patch: Patch,
    pub(crate) pools: Pools,
    pub(crate) states: States,
    pub(crate) internal: &'a mut [f64],
    pub(crate) external: &'a mut [f64],
    pub(crate) zeros: &'a [f64],
    pub(crate) rings: &'a mut [f64],
}

// A case, from the word after its sort on. Where a slice would be longer than what is lent for it, the case is refused; all that follows
// sees of each array the part that the case lends.
pub(crate) fn answer(place: &mut Place, memory: &mut Memory) {
    let heading = read_heading(place);
    let Some(mut lent) = memory.lend(heading.lengths) else {
        return place.refuse();
    };
    let patch = read_patch(place, heading.count);
    read_contents(place, &mut lent);
    let mut pools = heading.pools;
    read_marks(place, &mut pools);
    let states = read_states(place);
    let Lent {
        internal,
        external,
        zeros,
        values,
        rings,
    } = lent;
    let mut session = Session {
        wanted: heading.wanted,
        patch,
        pools,
        states,
        internal,
        external,
        zeros,
        rings,
    };
    session.answer_windows(place, values);
}

// Flags, which add up, sizes, lengths and the count of the stages.
fn read_heading(place: &mut Place) -> Heading {
    let flags = place.next_up_to(3);
    let sizes = read_sizes(place);
    Heading {
        wanted: Wanted {
            states: flags % 2 == 1,
            reaches: flags > 1,
        },
        pools: sizes.pools,
        lengths: Lengths {
            values: place.next() as usize,
            rings: place.next() as usize,
            ..sizes.lengths
        },
        count: place.next() as usize,
    }
}

// What the five slices hold.
fn read_contents(place: &mut Place, lent: &mut Lent<'_>) {
    lent.read_pools(place);
    place.read_samples(lent.values);
    place.read_samples(lent.rings);
}

impl Session<'_> {
    // The number of windows, and then window after window.
    fn answer_windows(&mut self, place: &mut Place, values: &mut [f64]) {
        let count = place.next();
        place.each(count, |place| self.answer_window(place, values));
    }
}
