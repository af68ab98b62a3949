// Eight samples at once, in an array: where a source lies and whether an output is stale are told apart once for all of them, and all are read
// before any is written, so that the compiler makes vector code of them. Rests on `fetch` and `store_or_add`.
ghost use Rattle.std.specs.Prelude.{◌≡◌, ℕ, ◌+◌, ◌<◌, ◌≤◌, length, get_or};
ghost use Rattle.std.specs.Float.{nan, binary64};
ghost use Rattle.std.specs.Float.Ieee.{mul};
ghost use Rattle.magnetron.specs.Signals.{tab, window};
ghost use Rattle.magnetron.specs.Inside.Mix.{placed};
ghost use Rattle.magnetron.specs.Inside.Source.{signal_of, InReach};
ghost use Rattle.magnetron.specs.Inside.Target.{block_written};

use crate::output::{Target, store_or_add};
use crate::source::{Source, fetch};
use std::array;

// What a function answers at 0 to 7.
pub(crate) fn block_of<F: Fn(usize) -> f64>(f: F) -> [f64; 8]
    requires { (k : ℕ) → k < 8 → F.pre f k }
    ensures long { length result ≡ 8 }
    ensures each { (k : ℕ) → k < 8 → F.post f k (get_or result k nan) }
{
    array::from_fn(
        |k|
            requires { F.pre f k }
            ensures { F.post f k result }
        { f(k) },
    )
}

// Eight samples of a source, from i on.
pub fn fetch_block(own: &[f64], other: &[f64], source: Source, i: usize) -> [f64; 8]
    requires { (i + 8 ≤ length own.now) × InReach source (length own.now) (length other.now) (i + 7) }
    ensures { result ≡ tab 8 (λ k. signal_of source own.now other.now (i + k)) }
{
    block_of(|k| fetch(own, other, source, i + k))
}

// Each sample times a factor.
pub fn scaled(block: [f64; 8], factor: f64) -> [f64; 8]
    ensures { result ≡ tab 8 (λ k. mul binary64 (get_or block k nan) factor) }
{
    block_of(|k| block[k] * factor)
}

// Stores the samples from `at` on, or adds them to what is there.
fn put_block(own: &mut [f64], at: usize, stale: bool, block: [f64; 8])
    requires { at + 8 ≤ length own.old }
    ensures { own.new ≡ window own.old at 8 (placed own.old at stale (λ k. get_or block k nan)) }
{
    for (k, sample) in block.iter().enumerate() {
        let j = at + k;
        own[j] = store_or_add(stale, own[j], *sample);
    }
}

// Writes eight samples of a window, from i on. The level's turn comes before the question whether the output is stale: one loop with both, as
// `mix` has them, is too long for the compiler to put it into each of the loops over a window.
pub fn write_block(own: &mut [f64], target: Target, i: usize, block: [f64; 8])
    requires { target.base + i + 8 ≤ length own.old }
    ensures { own.new ≡ block_written own.old target i 8 (λ k. get_or block k nan) }
{
    let at = target.base + i;
    put_block(own, at, target.stale, scaled(block, target.level));
}
