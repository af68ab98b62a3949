// Zeros in a lent slice: a new pool, and a ring that is muted.
ghost use Rattle.std.specs.Prelude.{◌≡◌, length, replicate};
ghost use Rattle.numbers.specs.Constants.{zero64};

// "A new pool holds zeros"; a muted ring does too.
pub fn fill_with_zeros(samples: &mut [f64])
    ensures { samples.new ≡ replicate (length samples.old) zero64 }
{
    samples.fill(0.0);
}
