// Pools, the check of a single read, and the single writes, with buffers as plain numbers: twice the index, plus one if external.
// Rests on `magnetron` for the work. A single read is not exported: a slice cannot be handed back, and the host finds the samples by the mark.
ghost use Rattle.std.specs.Prelude.{◌≡◌, []};
ghost use Rattle.numbers.specs.Outcome.{outcome};
ghost use Rattle.answers.specs.Refusal.{told_of, verdict_of};
ghost use Rattle.magnetron.specs.Buffers.{buffer_of};
ghost use Rattle.magnetron.specs.Single.{lent, new_pool_of, prepared_of, read_fault};
ghost use Rattle.magnetron.specs.declared.inputs.Inputs.TheVariants as inputs;
ghost use Rattle.host.specs.Host.{crossed, told_pool, told_pools, level_in, wrote_of, flat_after_write, flat_write_of};

use crate::run::FlatAnswer;
use answers::refusal::Told;
use magnetron::lent::{Lent, LentMut};
use magnetron::pool::{Pool, Pools};
use magnetron::prepare::{Made, Prepared, new_pool};
use magnetron::write::Wrote;

// What a new pool answers: its record, or that of an empty one.
// Stays: the C interface, grynnadot_made, has the verdict beside the pool.
#[repr(C)]
#[derive(Clone, Copy)]
pub struct FlatMade {
    pub verdict: Told,
    pub pool: Pool,
}

impl From<Made> for FlatMade {
    ghost from_gives = { λ made flat. flat ≡ told_pool made };

    fn from(made: Made) -> FlatMade {
        FlatMade {
            verdict: Told::of(made.verdict),
            pool: made.pool,
        }
    }
}

// What prepare answers: the pools made ready, or as they came.
// Stays: the C interface, grynnadot_prepared, has the verdict beside the pools.
#[repr(C)]
#[derive(Clone, Copy)]
pub struct FlatPrepared {
    pub verdict: Told,
    pub pools: Pools,
}

impl From<Prepared> for FlatPrepared {
    ghost from_gives = { λ prepared flat. flat ≡ told_pools prepared };

    fn from(prepared: Prepared) -> FlatPrepared {
        FlatPrepared {
            verdict: Told::of(prepared.verdict),
            pools: prepared.pools,
        }
    }
}

// What a single write answers, and the pools with its output's mark cleared.
// Stays: the C interface, grynnadot_wrote, has the pools beside the answer.
#[repr(C)]
#[derive(Clone, Copy)]
pub struct FlatWrote {
    pub answer: FlatAnswer,
    pub pools: Pools,
}

impl From<Wrote> for FlatWrote {
    ghost from_gives = { λ wrote flat. flat ≡ wrote_of wrote };

    fn from(wrote: Wrote) -> FlatWrote {
        FlatWrote {
            answer: wrote.answer.into(),
            pools: wrote.pools,
        }
    }
}

// A level that may be absent, as it crosses.
// Stays: the C interface, grynnadot_read_0_write_1 and the two beside it, has a level and whether it counts.
fn level_in(has_level: bool, level: f64) -> Option<f64>
    ensures { result ≡ level_in has_level level }
{
    has_level.then_some(level)
}

// A new pool holds zeros, not stale. A refused one is empty, and its slice stays.
#[unsafe(no_mangle)]
pub extern "C" fn grynnadot_new_pool(count: usize, capacity: usize, samples: &mut [f64]) -> FlatMade
    ensures { outcome result samples.new ≡ crossed told_pool (new_pool_of count capacity samples.old) }
{
    new_pool(count, capacity, samples).into()
}

// Marks every internal buffer stale and clears the reset flag; a refusal changes nothing.
#[unsafe(no_mangle)]
pub extern "C" fn grynnadot_prepare(
    pools: Pools,
    internal: &[f64],
    external: &[f64],
    zeros: &[f64],
    n: usize,
) -> FlatPrepared
    ensures { result ≡ told_pools (prepared_of (lent pools internal.now external.now zeros.now n)) }
{
    let lent = Lent {
        internal,
        external,
        zeros,
        pools,
        window: n,
    };
    lent.prepare().into()
}

// Whether n samples of a buffer can be read; where it is stale they are zeros.
// Stays: the C interface, grynnadot_check_read, takes what is lent one by one.
#[unsafe(no_mangle)]
pub extern "C" fn grynnadot_check_read(
    pools: Pools,
    internal: &[f64],
    external: &[f64],
    zeros: &[f64],
    buffer: usize,
    n: usize,
) -> Told
    ensures { result
        ≡ told_of (verdict_of (read_fault (lent pools internal.now external.now zeros.now n) (buffer_of buffer))) }
{
    let lent = Lent {
        internal,
        external,
        zeros,
        pools,
        window: n,
    };
    Told::of(lent.check_read(buffer.into()))
}

// Writes a lent slice of n values into one buffer, each times the level where there is one. A refusal changes nothing.
// Stays: the C interface, grynnadot_read_0_write_1, takes what is lent one by one, and a level and whether it counts.
#[tactic(auto, unfolding(crate::specs::Host::flat_write_of))]
#[unsafe(no_mangle)]
pub extern "C" fn grynnadot_read_0_write_1(
    pools: Pools,
    internal: &mut [f64],
    external: &mut [f64],
    zeros: &[f64],
    output: usize,
    has_level: bool,
    level: f64,
    n: usize,
    values: &[f64],
) -> FlatWrote
    ensures { flat_after_write result internal.new external.new
        ≡ flat_write_of (lent pools internal.old external.old zeros.now n) inputs.Nothing values.now output has_level level }
{
    let mut lent = LentMut {
        internal,
        external,
        zeros,
        pools,
        window: n,
    };
    lent.read_0_write_1(output.into(), level_in(has_level, level), values)
        .into()
}

// Writes one buffer's samples, or zeros where it is stale, into another.
// Stays: the C interface, grynnadot_read_1_write_1, takes what is lent one by one, and a level and whether it counts.
#[tactic(auto, unfolding(crate::specs::Host::flat_write_of))]
#[unsafe(no_mangle)]
pub extern "C" fn grynnadot_read_1_write_1(
    pools: Pools,
    internal: &mut [f64],
    external: &mut [f64],
    zeros: &[f64],
    input: usize,
    output: usize,
    has_level: bool,
    level: f64,
    n: usize,
) -> FlatWrote
    ensures { flat_after_write result internal.new external.new
        ≡ flat_write_of (lent pools internal.old external.old zeros.now n) (inputs.One (buffer_of input)) [] output has_level level }
{
    let mut lent = LentMut {
        internal,
        external,
        zeros,
        pools,
        window: n,
    };
    lent.read_1_write_1(input.into(), output.into(), level_in(has_level, level))
        .into()
}

// Writes the product of two buffers, first times second.
// Stays: the C interface, grynnadot_read_2_write_1, takes what is lent one by one, and a level and whether it counts.
#[tactic(auto, unfolding(crate::specs::Host::flat_write_of))]
#[unsafe(no_mangle)]
pub extern "C" fn grynnadot_read_2_write_1(
    pools: Pools,
    internal: &mut [f64],
    external: &mut [f64],
    zeros: &[f64],
    first: usize,
    second: usize,
    output: usize,
    has_level: bool,
    level: f64,
    n: usize,
) -> FlatWrote
    ensures { flat_after_write result internal.new external.new
        ≡ flat_write_of (lent pools internal.old external.old zeros.now n) (inputs.Two (buffer_of first) (buffer_of second)) [] output has_level level }
{
    let mut lent = LentMut {
        internal,
        external,
        zeros,
        pools,
        window: n,
    };
    lent.read_2_write_1(
        first.into(),
        second.into(),
        output.into(),
        level_in(has_level, level),
    )
    .into()
}
