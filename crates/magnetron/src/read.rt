// A single read: a part of a pool or of the lent zeros, chosen by the stale mark.
ghost use Rattle.std.specs.Prelude.{◌≡◌};
ghost use Rattle.magnetron.specs.Buffers.{pick};
ghost use Rattle.magnetron.specs.Single.{what_is_lent, read_of};

use crate::buffer::BufferIndex;
use crate::lent::Lent;

impl<'a> Lent<'a> {
    // The pool that a buffer is in.
    fn pool_of(&self, b: BufferIndex) -> &'a [f64]
        ensures { result.now ≡ pick b self.now.internal.now self.now.external.now }
    {
        match b {
            BufferIndex::External(_) => self.external,
            BufferIndex::Internal(_) => self.internal,
        }
    }

    // The first n samples of a buffer, or n of the lent zeros where it is stale: a part, not a copy. A refused read hands back an empty part.
    pub fn read(&self, buffer: BufferIndex) -> &'a [f64]
        ensures { result.now ≡ read_of (what_is_lent self.now) buffer }
    {
        let n = self.window;
        let pools = self.pools;
        let Ok(()) = self.check_read(buffer) else {
            return &self.zeros[..0];
        };
        if pools.marks().at(buffer) {
            return &self.zeros[..n];
        }
        let base = pools.base_of(buffer);
        &self.pool_of(buffer)[base..base + n]
    }
}
