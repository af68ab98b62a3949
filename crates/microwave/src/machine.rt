// What a loop over a window asks of a machine of one input: a step, where it may be called, and that a step leaves it so.
ghost use Rattle.std.specs.Prelude.{◌≡◌, Float, length};
ghost use Rattle.util.specs.Interaction.{step as stepped};
ghost use Rattle.util.specs.declared.step.Step.{Step};
ghost use Rattle.microwave.specs.Running.{Running, running};

use util::step::Step;

// What a window fixes for all its samples. A memory goes from each sample to the next, and a ring beside it where a machine has one.
pub(crate) trait Machine: Copy {
    type Memory: Copy;

    ghost can_step: { Self → Running Self.Memory → Type 0 };

    ghost step_of: { Self → Running Self.Memory → Float → Step (Running Self.Memory) };

    fn step(self, memory: Self::Memory, ring: &mut [f64], input: f64) -> Step<Self::Memory>
        requires { can_step self (running memory ring.old) }
        ensures value { stepped (running result.next ring.new) result.sample ≡ step_of self (running memory ring.old) input }
        ensures stays { can_step self (running result.next ring.new) }
        ensures long { length ring.new ≡ length ring.old };
}
