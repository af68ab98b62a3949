// Buffers by index, the activity of what writes one, and the stale marks.
ghost use Rattle.std.specs.Prelude.{◌≡◌};
ghost use Rattle.magnetron.specs.Buffers.{buffer_of, activity_of, stale_at, cleared};

use answers::activity::StageActivity;

#[derive(Clone, Copy, PartialEq, Eq)]
pub enum BufferIndex {
    External(usize),
    Internal(usize),
}

// The marks of both pools, which a run carries along.
#[derive(Clone, Copy)]
pub struct Marks {
    pub internal: [bool; 16],
    pub external: [bool; 16],
}

// The buffer of a number, for a host, a file or a stream, which have no enums: twice its index, plus one if external.
impl From<usize> for BufferIndex {
    ghost from_gives = { λ number buffer. buffer ≡ buffer_of number };

    fn from(number: usize) -> BufferIndex {
        let index = number / 2;
        if number % 2 == 0 {
            BufferIndex::Internal(index)
        } else {
            BufferIndex::External(index)
        }
    }
}

// The same by a name.
pub fn buffer_of(number: usize) -> BufferIndex
    ensures { result ≡ buffer_of number }
{
    BufferIndex::from(number)
}

impl BufferIndex {
    pub fn stage_activity(self) -> StageActivity
        ensures { result ≡ activity_of self }
    {
        match self {
            BufferIndex::External(_) => StageActivity::External,
            BufferIndex::Internal(_) => StageActivity::Internal,
        }
    }
}

impl Marks {
    // Whether a buffer is stale; one that has no mark is not.
    #[tactic(auto, unfolding(crate::specs::Buffers::stale_at))]
    pub fn at(self, b: BufferIndex) -> bool
        ensures { result ≡ stale_at b self }
    {
        match b {
            BufferIndex::External(i) => self.external.get(i).copied().unwrap_or(false),
            BufferIndex::Internal(i) => self.internal.get(i).copied().unwrap_or(false),
        }
    }

    // The marks once a buffer has been written; one that has no mark changes nothing.
    #[tactic(auto, unfolding(crate::specs::Buffers::cleared))]
    pub fn clear(mut self, b: BufferIndex) -> Marks
        ensures { result ≡ cleared b self }
    {
        match b {
            BufferIndex::External(i) if i < 16 => self.external[i] = false,
            BufferIndex::Internal(i) if i < 16 => self.internal[i] = false,
            _ => {}
        }
        self
    }
}
