// The states of all stages, eleven words each, in and out. Rests on `stream` for the words and on `words` for a number's bits.
ghost use Rattle.std.specs.Prelude.{◌≡◌};
ghost use Rattle.stream.specs.Place.{Kept};

use microwave::filter::{Biquad, OnePoleMemory};
use microwave::oscillator::Phases;
use microwave::waveguide::StringMemory;
use stages::state::{State, States, new_states};
use stream::place::Place;
use words::number::{from_word, to_word};

pub fn read_states(place: &mut Place) -> States
    ensures { Kept place.old place.new }
{
    let mut states = new_states();
    for state in states.stages.iter_mut() {
        *state = read_state(place);
    }
    states
}

pub fn write_states(place: &mut Place, states: States)
    ensures { place.new.input ≡ place.old.input }
{
    for state in states.stages.iter() {
        write_state(place, *state);
    }
}

// The numbers of a state come in the order of the fields, and the position last.
fn read_state(place: &mut Place) -> State
    ensures { Kept place.old place.new }
{
    State {
        oscillator: Phases {
            phase: from_word(place.next()),
            saved: from_word(place.next()),
        },
        one_pole: OnePoleMemory {
            low: from_word(place.next()),
            high: from_word(place.next()),
            last_input: from_word(place.next()),
        },
        biquad: Biquad {
            y1: from_word(place.next()),
            y2: from_word(place.next()),
            x1: from_word(place.next()),
            x2: from_word(place.next()),
        },
        waveguide: StringMemory {
            low_pass: from_word(place.next()),
            position: place.next() as usize,
        },
    }
}

fn write_state(place: &mut Place, state: State)
    ensures { place.new.input ≡ place.old.input }
{
    place.write_words(&[
        to_word(state.oscillator.phase),
        to_word(state.oscillator.saved),
        to_word(state.one_pole.low),
        to_word(state.one_pole.high),
        to_word(state.one_pole.last_input),
        to_word(state.biquad.y1),
        to_word(state.biquad.y2),
        to_word(state.biquad.x1),
        to_word(state.biquad.x2),
        to_word(state.waveguide.low_pass),
        state.waveguide.position as u64,
    ]);
}
