// Sort 2: a function of numbers, at as many arguments as the case lists. Rests on `function` for the answers, and on `numbers` for the one
// function that looks at all its arguments together.
use crate::function::{Function, UnknownFunction};
use stream::place::Place;
use words::number::from_word;

// What a case asks for: a function's answer to each group of arguments, or the one answer to all of them.
// Stays: an Option would call one of the two absent, and both are functions; the two cases below are plainer.
#[derive(Clone, Copy, PartialEq, Eq)]
enum Asked {
    Each(Function),
    AllPlusZero,
}

impl TryFrom<u64> for Asked {
    type Error = UnknownFunction;

    fn try_from(number: u64) -> Result<Self, UnknownFunction> {
        match number {
            13 => Ok(Asked::AllPlusZero),
            _ => Ok(Asked::Each(Function::try_from(number)?)),
        }
    }
}

// A case, from the word after its sort on.
pub fn answer_case(place: &mut Place, samples: &mut [f64]) {
    let number = place.next();
    let count = place.next();
    if place.is_over() {
        return;
    }
    match Asked::try_from(number) {
        Ok(Asked::Each(function)) => {
            place.each(count, |place| answer_one(place, function));
        }
        Ok(Asked::AllPlusZero) => answer_all_plus_zero(place, samples, count as usize),
        Err(_) => place.refuse(),
    }
}

// One answer. None is held back while the program waits for the arguments.
fn answer_one(place: &mut Place, function: Function) {
    place.clear(8 * function.arity());
    let [a, b, c]: [u64; 3] = place.next_words(function.arity());
    if place.is_over() {
        return;
    }
    place.write(function.answer(from_word(a), from_word(b), from_word(c)));
}

// The samples are read whole, since the function looks at them together.
fn answer_all_plus_zero(place: &mut Place, samples: &mut [f64], count: usize) {
    let Some(all) = samples.get_mut(..count) else {
        return place.refuse();
    };
    place.read_samples(all);
    if place.is_over() {
        return;
    }
    place.write_flag(numbers::zeros::all_plus_zero(all));
}
