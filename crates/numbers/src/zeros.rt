// Whether lent zeros are zeros: +0.0 each, and nothing else. One subtraction a sample tells, with no test on the way: -0.0 less +0.0 is -0.0, and no other difference of two f64 is.
ghost use Rattle.std.specs.Prelude.{◌≡◌, ◌≤◌, ◌&&◌, length};
ghost use Rattle.numbers.specs.Zeros.{is_plus_zero, all_plus_zero};
ghost use Rattle.numbers.specs.Inside.{is_minus_zero, all_minus_zero};

use crate::small::is_negative;

// -0.0 just where the difference was -0.0 and x is +0.0.
fn less(difference: f64, x: f64) -> f64
    ensures { is_minus_zero result ≡ (is_minus_zero difference && is_plus_zero x) }
{
    difference - x
}

// The differences less one sample each, first to first, as far as there are samples.
fn less_samples(mut differences: [f64; 8], samples: &[f64]) -> [f64; 8]
    requires { length samples.now ≤ 8 }
    ensures { all_minus_zero result ≡ (all_minus_zero differences && all_plus_zero samples.now) }
{
    for (k, x) in samples.iter().enumerate() {
        differences[k] = less(differences[k], *x);
    }
    differences
}

// Whether x is -0.0 and no other: the zero whose sign is minus.
fn is_minus_zero(x: f64) -> bool
    ensures { result ≡ is_minus_zero x }
{
    x == 0.0 && is_negative(x)
}

// Whether no difference has seen anything but +0.0.
fn all_minus_zero(differences: [f64; 8]) -> bool
    ensures { result ≡ all_minus_zero differences }
{
    differences.iter().all(|x| is_minus_zero(*x))
}

// Whether every sample is +0.0. There are eight differences, so that no subtraction waits for the one before it, and no way out midway, so that they are worked side by side.
pub fn all_plus_zero(s: &[f64]) -> bool
    ensures { result ≡ all_plus_zero s.now }
{
    let (eights, rest) = s.as_chunks::<8>();
    let mut differences = [-0.0; 8];
    for eight in eights {
        let next = less_samples(differences, eight);
        differences = next;
    }
    all_minus_zero(less_samples(differences, rest))
}
