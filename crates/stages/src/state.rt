// What a stage remembers from window to window: a record with room for every kind, so that none mismatches.
ghost use Rattle.std.specs.Prelude.{◌≡◌};
ghost use Rattle.stages.specs.Stage.{new_state, new_states, saved};

use microwave::filter::{Biquad, OnePoleMemory};
use microwave::oscillator::Phases;
use microwave::parameter::Numbers;
use microwave::waveguide::StringMemory;

// Stays: the C interface, grynnadot_state, has what each kind remembers side by side in place of an enum.
#[repr(C)]
#[derive(Clone, Copy, Default)]
pub struct State {
    pub oscillator: Phases,
    pub one_pole: OnePoleMemory,
    pub biquad: Biquad,
    pub waveguide: StringMemory,
}

// One record for each of 32 stages, by stage number.
// Stays: the C interface, grynnadot_states, has 32 of them in a record in place of a slice.
#[repr(C)]
#[derive(Clone, Copy)]
pub struct States {
    pub stages: [State; 32],
}

// New, it is all zero.
pub fn new_state() -> State
    ensures { result ≡ new_state }
{
    State::default()
}

pub fn new_states() -> States
    ensures { result ≡ new_states }
{
    States {
        stages: [new_state(); 32],
    }
}

impl State {
    // The phase parameter of this window, remembered for the next.
    pub(crate) fn saving(mut self, numbers: Numbers) -> State
        ensures { result ≡ saved numbers self }
    {
        self.oscillator = self.oscillator.enter(numbers.second);
        self
    }
}
