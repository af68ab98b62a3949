// Pools: how many buffers, of what capacity, which are stale, and the reset flag.
ghost use Rattle.std.specs.Prelude.{◌≡◌, ◌≤◌};
ghost use Rattle.magnetron.specs.Pools.{marks_in, marked, remarked, base_of, all_stale, reset_set};

use crate::buffer::{BufferIndex, Marks};

// The record of a pool, whose samples are a lent slice of count times capacity.
// Stays: the C interface, grynnadot_pool, has a count beside the marks of 16 buffers.
#[repr(C)]
#[derive(Clone, Copy)]
pub struct Pool {
    pub count: usize,
    pub capacity: usize,
    pub stale: [bool; 16],
}

// An engine's own buffers and those of an outer one, and the flag that asks stages to start anew.
#[repr(C)]
#[derive(Clone, Copy)]
pub struct Pools {
    pub internal: Pool,
    pub external: Pool,
    pub reset: bool,
}

impl Pool {
    // The same pool with other marks.
    fn with_stale(self, stale: [bool; 16]) -> Pool
        ensures { result ≡ marked self stale }
    {
        Pool { stale, ..self }
    }

    // Every buffer that is there is stale; the marks past the count stay.
    pub(crate) fn all_stale(self) -> Pool
        requires { self.count ≤ 16 }
        ensures { result ≡ all_stale self }
    {
        let mut stale = self.stale;
        stale[..self.count].fill(true);
        self.with_stale(stale)
    }
}

impl Pools {
    // The marks by themselves.
    pub fn marks(self) -> Marks
        ensures { result ≡ marks_in self }
    {
        let internal = self.internal.stale;
        let external = self.external.stale;
        Marks { internal, external }
    }

    // The same pools with other marks.
    pub fn with_marks(self, marks: Marks) -> Pools
        ensures { result ≡ remarked self marks }
    {
        Pools {
            internal: self.internal.with_stale(marks.internal),
            external: self.external.with_stale(marks.external),
            ..self
        }
    }

    // Prepare clears the flag; this sets it afterwards.
    pub fn set_reset(mut self) -> Pools
        ensures { result ≡ reset_set self }
    {
        self.reset = true;
        self
    }

    // Where a buffer begins in its pool's slice.
    pub fn base_of(self, b: BufferIndex) -> usize
        requires { base_of self b ≤ 65536 }
        ensures { result ≡ base_of self b }
    {
        match b {
            BufferIndex::External(i) => i * self.external.capacity,
            BufferIndex::Internal(i) => i * self.internal.capacity,
        }
    }
}
