// Putting words into a lent buffer.
ghost use Rattle.std.specs.Prelude.{◌≡◌};
ghost use Rattle.words.specs.Writer.{put_of, poured_of};

use crate::number::to_word;

// Where the next word goes after samples were poured, and the index of the next sample.
#[derive(Clone, Copy)]
pub struct Poured {
    pub at: usize,
    pub next: usize,
}

// The word is put at `at`, and where the next goes is told; None, with nothing changed, where fewer than eight bytes are left.
#[tactic(auto, unfolding(crate::specs::Writer::put_of))]
pub fn put(bytes: &mut [u8], at: usize, word: u64) -> Option<usize>
    ensures { (result, bytes.new) ≡ put_of bytes.old at word }
{
    let room = bytes.len().checked_sub(at)?;
    if room < 8 {
        return None;
    }
    bytes[at..at + 8].copy_from_slice(&word.to_le_bytes());
    Some(at + 8)
}

// The samples from index `from` on are put as words, from `to` on, until either ends.
pub fn pour(bytes: &mut [u8], to: usize, samples: &[f64], from: usize) -> Poured
    ensures { (result, bytes.new) ≡ poured_of bytes.old to samples.now from }
{
    let mut at = to;
    for next in from..samples.len() {
        let Some(after) = put(bytes, at, to_word(samples[next])) else {
            return Poured { at, next };
        };
        at = after;
    }
    Poured {
        at,
        next: from.max(samples.len()),
    }
}
