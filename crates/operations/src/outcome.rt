// The outcome of a call as words. Rests on `answers` for what is told of it, and on `stream` for the words.
ghost use Rattle.std.specs.Prelude.{[], ◌∷◌};
ghost use Rattle.answers.specs.Refusal.{told_of};
ghost use Rattle.stream.specs.Place.{Writes};

use answers::refusal::{Refusal, Told};
use stream::place::Place;

// Its number and its stage: 0 and 32 where the thing was done.
pub fn write_outcome<T: Copy>(place: &mut Place, answer: Result<T, Refusal>)
    ensures { Writes ((told_of answer).number ∷ (told_of answer).stage ∷ []) place.old place.new }
{
    let told = Told::of(answer);
    place.write(told.number as u64);
    place.write(told.stage as u64);
}
