// New pools, and pools made ready for a window: prepare.
ghost use Rattle.std.specs.Prelude.{◌≡◌};
ghost use Rattle.numbers.specs.Outcome.{outcome};
ghost use Rattle.magnetron.specs.Pools.{fresh_pool};
ghost use Rattle.magnetron.specs.Single.{what_is_lent, new_pool_of, prepared_of};

use crate::check::pool_ok;
use crate::lent::Lent;
use crate::pool::{Pool, Pools};
use answers::refusal::{Reason, Verdict};
use answers::zeros::fill_with_zeros;

// What a new pool answers: its record, or that of an empty one.
// Stays: what may not change: by `new_pool_of`, the contract of `new_pool`, a refusal has the record of an empty pool beside it, where an Err would hold none.
#[derive(Clone, Copy)]
pub struct Made {
    pub verdict: Verdict,
    pub pool: Pool,
}

// What prepare answers: the pools made ready, or as they came.
// Stays: what may not change: by `prepared_of`, the contract of `prepare`, a refusal has the pools as they came beside it, where an Err would hold none.
#[derive(Clone, Copy)]
pub struct Prepared {
    pub verdict: Verdict,
    pub pools: Pools,
}

// A pool of which nothing is stale.
fn fresh_pool(count: usize, capacity: usize) -> Pool
    ensures { result ≡ fresh_pool count capacity }
{
    Pool {
        count,
        capacity,
        stale: [false; 16],
    }
}

// A new pool holds zeros, not stale. A refused one is empty, and its slice stays.
#[tactic(auto, unfolding(crate::specs::Single::new_pool_of, answers::specs::Refusal::verdict_of))]
pub fn new_pool(count: usize, capacity: usize, samples: &mut [f64]) -> Made
    ensures { outcome result samples.new ≡ new_pool_of count capacity samples.old }
{
    if !pool_ok(count, capacity, samples.len()) {
        return Made {
            verdict: Err(Reason::Bounds.into()),
            pool: fresh_pool(0, 0),
        };
    }
    fill_with_zeros(samples);
    Made {
        verdict: Ok(()),
        pool: fresh_pool(count, capacity),
    }
}

impl Lent<'_> {
    // Marks every internal buffer stale and clears the reset flag; a refusal changes nothing.
    pub fn prepare(&self) -> Prepared
        ensures { result ≡ prepared_of (what_is_lent self.now) }
    {
        let pools = self.pools;
        if let Err(refusal) = self.check_prepare() {
            return Prepared {
                verdict: Err(refusal),
                pools,
            };
        }
        Prepared {
            verdict: Ok(()),
            pools: Pools {
                internal: pools.internal.all_stale(),
                reset: false,
                ..pools
            },
        }
    }
}
