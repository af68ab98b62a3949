// The pools that a case lends: their sizes, the slices that are lent with them, and the stale marks. Any of it may be bad: the engine is what
// refuses. Rests on `stream` for the words.
ghost use Rattle.std.specs.Prelude.{◌≡◌, ◌↔◌, IsSome, IfSome, map, take};
ghost use Rattle.magnetron.specs.Pools.{marks_in};
ghost use Rattle.stream.specs.Place.{flag_word, Kept, Writes};
ghost use Rattle.operations.specs.Lent.{Fit};
ghost use Rattle.operations.specs.Marks.{mark_words};

use magnetron::pool::{Pool, Pools};
use stream::place::Place;

// How many cells of rings there are.
pub const CELLS: usize = 131072;

// What there is for the samples of the pools, for zeros, for values and for the cells of rings. A case lends the first part of each.
#[derive(Drop)]
pub struct Memory {
    pub internal: [f64; 65536],
    pub external: [f64; 65536],
    pub zeros: [f64; 8192],
    pub values: [f64; 64],
    pub rings: [f64; CELLS],
}

// How much of each a case lends.
#[derive(Clone, Copy)]
pub struct Lengths {
    pub internal: usize,
    pub external: usize,
    pub zeros: usize,
    pub values: usize,
    pub rings: usize,
}

// What a case lends.
#[derive(Drop)]
pub struct Lent<'a> {
    pub internal: &'a mut [f64],
    pub external: &'a mut [f64],
    pub zeros: &'a mut [f64],
    pub values: &'a mut [f64],
    pub rings: &'a mut [f64],
}

impl Memory {
    // The first part of each; None where one would be longer than what there is for it.
    pub fn lend(&mut self, lengths: Lengths) -> Option<Lent<'_>>
        ensures fit { IsSome result ↔ Fit lengths }
        ensures pools { IfSome result (λ lent. (lent.internal.now ≡ take lengths.internal self.old.internal)
            × (lent.external.now ≡ take lengths.external self.old.external) × (lent.zeros.now ≡ take lengths.zeros self.old.zeros)) }
        ensures others { IfSome result (λ lent. (lent.values.now ≡ take lengths.values self.old.values) × (lent.rings.now ≡ take lengths.rings self.old.rings)) }
    {
        let Memory {
            internal,
            external,
            zeros,
            values,
            rings,
        } = self;
        Some(Lent {
            internal: internal.get_mut(..lengths.internal)?,
            external: external.get_mut(..lengths.external)?,
            zeros: zeros.get_mut(..lengths.zeros)?,
            values: values.get_mut(..lengths.values)?,
            rings: rings.get_mut(..lengths.rings)?,
        })
    }
}

impl Lent<'_> {
    // What the slices hold that go with pools.
    pub fn read_pools(&mut self, place: &mut Place)
        ensures { Kept place.old place.new }
    {
        place.read_samples(self.internal);
        place.read_samples(self.external);
        place.read_samples(self.zeros);
    }
}

// Counts and capacities as lent, and the lengths of the three slices that go with pools.
#[derive(Clone, Copy)]
pub struct Sizes {
    pub pools: Pools,
    pub lengths: Lengths,
}

// Nothing is stale yet. Neither values nor rings are lent yet.
pub fn read_sizes(place: &mut Place) -> Sizes
    ensures { Kept place.old place.new }
{
    Sizes {
        pools: Pools {
            internal: read_pool(place),
            external: read_pool(place),
            reset: false,
        },
        lengths: Lengths {
            internal: place.next() as usize,
            external: place.next() as usize,
            zeros: place.next() as usize,
            values: 0,
            rings: 0,
        },
    }
}

fn read_pool(place: &mut Place) -> Pool
    ensures { Kept place.old place.new }
{
    Pool {
        count: place.next() as usize,
        capacity: place.next() as usize,
        stale: [false; 16],
    }
}

// The marks of both pools.
pub fn read_marks(place: &mut Place, pools: &mut Pools)
    ensures { Kept place.old place.new }
{
    pools.internal.stale = read_pool_marks(place);
    pools.external.stale = read_pool_marks(place);
}

fn read_pool_marks(place: &mut Place) -> [bool; 16]
    ensures { Kept place.old place.new }
{
    let mut stale = [false; 16];
    for mark in stale.iter_mut() {
        *mark = place.next() != 0;
    }
    stale
}

// The marks of both pools.
pub fn write_marks(place: &mut Place, pools: Pools)
    ensures { Writes (mark_words (marks_in pools)) place.old place.new }
{
    write_pool_marks(place, &pools.internal.stale);
    write_pool_marks(place, &pools.external.stale);
}

fn write_pool_marks(place: &mut Place, stale: &[bool])
    ensures { Writes (map flag_word stale.now) place.old place.new }
{
    for mark in stale {
        place.write_flag(*mark);
    }
}
