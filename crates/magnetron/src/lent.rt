// What every operation on pools is lent: the samples of both pools, the zeros that stand for what is stale, the pools' records, and the window's
// length. For reading, or for writing. The checks that look at all of it are here.
ghost use Rattle.std.specs.Prelude.{◌≡◌};
ghost use Rattle.answers.specs.Refusal.{verdict_of};
ghost use Rattle.magnetron.specs.Single.{what_is_lent, what_is_lent_to_write, prepare_fault, read_fault, write_fault};

use crate::buffer::BufferIndex;
use crate::check::{all_there, has, length_ok, no_clash, shape_ok, window_ok};
use crate::inputs::Inputs;
use crate::pool::Pools;
use answers::refusal::{Reason, Verdict, refusal_unless};

// To read.
#[derive(Clone, Copy)]
pub struct Lent<'a> {
    pub internal: &'a [f64],
    pub external: &'a [f64],
    pub zeros: &'a [f64],
    pub pools: Pools,
    pub window: usize,
}

// To write.
#[derive(Drop)]
pub struct LentMut<'a> {
    pub internal: &'a mut [f64],
    pub external: &'a mut [f64],
    pub zeros: &'a [f64],
    pub pools: Pools,
    pub window: usize,
}

impl Lent<'_> {
    // Checks 1 and 2.
    #[tactic(auto, using(answers::proofs::Verdicts::stopped, answers::proofs::Verdicts::went_on), unfolding(crate::specs::Single::prepare_fault))]
    pub fn check_prepare(&self) -> Verdict
        ensures { result ≡ verdict_of (prepare_fault (what_is_lent self.now)) }
    {
        let pools = self.pools;
        let shape = shape_ok(pools, self.internal.len(), self.external.len(), self.zeros);
        refusal_unless(shape, Reason::Bounds)?;
        refusal_unless(window_ok(pools, self.window), Reason::Window)
    }

    // Checks 1, 2, 5 of a single read.
    #[tactic(auto, using(answers::proofs::Verdicts::stopped, answers::proofs::Verdicts::went_on), unfolding(crate::specs::Single::read_fault))]
    pub fn check_read(&self, buffer: BufferIndex) -> Verdict
        ensures { result ≡ verdict_of (read_fault (what_is_lent self.now) buffer) }
    {
        self.check_prepare()?;
        refusal_unless(has(self.pools, buffer), Reason::Buffer)
    }

    // Checks 1, 2, 5, 7 of a single write.
    #[tactic(auto, using(answers::proofs::Verdicts::stopped, answers::proofs::Verdicts::went_on), unfolding(crate::specs::Single::write_fault))]
    pub(crate) fn check_write(&self, inputs: Inputs, values: &[f64], output: BufferIndex) -> Verdict
        ensures { result ≡ verdict_of (write_fault (what_is_lent self.now) inputs values.now output) }
    {
        self.check_prepare()?;
        let pools = self.pools;
        let n = self.window;
        refusal_unless(length_ok(inputs, values.len(), n), Reason::Window)?;
        refusal_unless(all_there(pools, inputs, output), Reason::Buffer)?;
        refusal_unless(no_clash(n, inputs, output, pools.marks()), Reason::Clash)
    }
}

impl LentMut<'_> {
    // The same to read.
    pub fn shared(&self) -> Lent<'_>
        ensures { what_is_lent result ≡ what_is_lent_to_write self.now }
    {
        Lent {
            internal: &*self.internal,
            external: &*self.external,
            zeros: self.zeros,
            pools: self.pools,
            window: self.window,
        }
    }
}
