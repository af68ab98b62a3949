// Where a loop writes, and the write of one sample: store or add.
ghost use Rattle.std.specs.Prelude.{◌≡◌, cond, ◌+◌, ◌<◌, length};
ghost use Rattle.std.specs.Float.{binary64};
ghost use Rattle.std.specs.Float.Ieee.{add};
ghost use Rattle.magnetron.specs.Inside.Mix.{mix_of};
ghost use Rattle.magnetron.specs.Inside.Target.{sampled};

// Where a loop writes: that many samples from base on, stored where the output is stale and added where it is not, each times the level first.
#[derive(Clone, Copy)]
pub struct Target {
    pub base: usize,
    pub samples: usize,
    pub stale: bool,
    pub level: f64,
}

// Stored where it is stale, added to what is there where it is not.
pub(crate) fn store_or_add(stale: bool, old: f64, new: f64) -> f64
    ensures { result ≡ cond stale new (add binary64 old new) }
{
    if stale { new } else { old + new }
}

// What a write puts at one sample, which is multiplied by the level first.
pub fn mix(stale: bool, level: f64, old: f64, x: f64) -> f64
    ensures { result ≡ mix_of stale level old x }
{
    store_or_add(stale, old, x * level)
}

// Writes sample i of a window.
pub fn write_sample(own: &mut [f64], target: Target, i: usize, sample: f64)
    requires { target.base + i < length own.old }
    ensures { own.new ≡ sampled own.old target i sample }
{
    let at = target.base + i;
    own[at] = mix(target.stale, target.level, own[at], sample);
}
