// What a single write puts, and the loop that puts it.
ghost use Rattle.std.specs.Prelude.{◌≡◌, ◌+◌, ◌≤◌, length, get_or};
ghost use Rattle.std.specs.Float.{nan};
ghost use Rattle.magnetron.specs.Signals.{tab};
ghost use Rattle.magnetron.specs.Inside.Mix.{times};
ghost use Rattle.magnetron.specs.Inside.Target.{LiesIn, WrittenTo, written};
ghost use Rattle.magnetron.specs.Inside.Content.{content_of, AllInReach, AllClear};

use crate::block::{block_of, fetch_block, write_block};
use crate::output::{Target, write_sample};
use crate::source::{Source, fetch};

// What a single write puts: a source's samples, or the product of two sources, first times second.
#[derive(Clone, Copy)]
pub(crate) enum Content {
    Copy(Source),
    Product(Source, Source),
}

// Sample i of a content.
fn sample(own: &[f64], other: &[f64], content: Content, i: usize) -> f64
    requires { AllInReach content (length own.now) (length other.now) i }
    ensures { result ≡ content_of content own.now other.now i }
{
    match content {
        Content::Copy(a) => fetch(own, other, a, i),
        Content::Product(a, b) => {
            let x = fetch(own, other, a, i);
            let y = fetch(own, other, b, i);
            x * y
        }
    }
}

// The product of two blocks, first times second.
// Stays: as what `sample` answers at each of the eight places, for copies and products alike, a sample of a product takes three times as long.
fn product_block(first: [f64; 8], second: [f64; 8]) -> [f64; 8]
    ensures { result ≡ tab 8 (times (λ k. get_or first k nan) (λ k. get_or second k nan)) }
{
    block_of(|k| first[k] * second[k])
}

// Eight samples of a content, from i on.
fn sample_block(own: &[f64], other: &[f64], content: Content, i: usize) -> [f64; 8]
    requires { (i + 8 ≤ length own.now) × AllInReach content (length own.now) (length other.now) (i + 7) }
    ensures { result ≡ tab 8 (λ k. content_of content own.now other.now (i + k)) }
{
    match content {
        Content::Copy(a) => fetch_block(own, other, a, i),
        Content::Product(a, b) => {
            let x = fetch_block(own, other, a, i);
            let y = fetch_block(own, other, b, i);
            product_block(x, y)
        }
    }
}

// Writes all whole blocks of a content. Answers how many samples they are.
fn lay_blocks(own: &mut [f64], other: &[f64], content: Content, target: Target) -> usize
    requires { (LiesIn target own.old) × (AllClear content own.old other.now target) }
    ensures { WrittenTo own.old target (content_of content own.old other.now) result own.new }
{
    let blocks = target.samples / 8;
    for block in 0..blocks {
        let i = 8 * block;
        let x = sample_block(own, other, content, i);
        write_block(own, target, i, x);
    }
    8 * blocks
}

// Writes a content where the target says, clear of what is read: blocks, and then what is left of the window.
// Stays: the new form is no plainer: one walk for this and microwave's `shaped_window` would bring its trait of shapes down here, for two contents.
pub(crate) fn lay(own: &mut [f64], other: &[f64], content: Content, target: Target)
    requires { (LiesIn target own.old) × (AllClear content own.old other.now target) }
    ensures { own.new ≡ written own.old target (content_of content own.old other.now) }
{
    let done = lay_blocks(own, other, content, target);
    for i in done..target.samples {
        let x = sample(own, other, content, i);
        write_sample(own, target, i, x);
    }
}
