// Taking words from a lent buffer.
ghost use Rattle.std.specs.Prelude.{◌≡◌, ◌-◌};
ghost use Rattle.words.specs.Reader.{taken_of, front_of, filled_of};

use crate::number::from_word;

// What is left of a lent buffer: its bytes from `at` up to, not including, `end`.
#[derive(Clone, Copy)]
pub struct Cursor {
    pub at: usize,
    pub end: usize,
}

// The cursor after samples were filled, and the index of the next sample.
#[derive(Clone, Copy)]
pub struct Filled {
    pub cursor: Cursor,
    pub next: usize,
}

impl Cursor {
    // How many bytes are left.
    pub fn left(self) -> usize
        ensures { result ≡ self.end - self.at }
    {
        self.end.saturating_sub(self.at)
    }

    // The next word, and the cursor past it; None where fewer than eight bytes are left.
    #[tactic(auto, unfolding(crate::specs::Reader::taken_of))]
    pub fn take(self, bytes: &[u8]) -> Option<(u64, Cursor)>
        ensures { result ≡ taken_of bytes.now self }
    {
        let left = bytes.get(self.at..self.end)?;
        let word = left.get(..8)?.try_into().ok()?;
        let rest = Cursor {
            at: self.at + 8,
            end: self.end,
        };
        Some((u64::from_le_bytes(word), rest))
    }

    // The samples from index `from` on are filled with the numbers that are left, until either ends.
    pub fn fill(self, bytes: &[u8], samples: &mut [f64], from: usize) -> Filled
        ensures { (result, samples.new) ≡ filled_of bytes.now self samples.old from }
    {
        let mut cursor = self;
        for next in from..samples.len() {
            let Some((word, rest)) = cursor.take(bytes) else {
                return Filled { cursor, next };
            };
            samples[next] = from_word(word);
            cursor = rest;
        }
        Filled {
            cursor,
            next: from.max(samples.len()),
        }
    }

    // The bytes that are left, moved to the buffer's front, so that more can be read after them.
    #[tactic(auto, unfolding(crate::specs::Reader::front_of))]
    pub fn front(self, bytes: &mut [u8]) -> Cursor
        ensures { (result, bytes.new) ≡ front_of bytes.old self }
    {
        if bytes.len() < self.end || self.end < self.at {
            return Cursor { at: 0, end: 0 };
        }
        bytes.copy_within(self.at..self.end, 0);
        Cursor {
            at: 0,
            end: self.left(),
        }
    }
}
