// The functions that sort 2 knows by number, with one answer to each group of arguments. Rests on `numbers`, whose contracts say what each
// answers.
ghost use Rattle.std.specs.Prelude.{◌≤◌};

use numbers::ceil::{round_up, rounded_up};
use numbers::small;
use numbers::turns::{cosine_turns, sine_turns};
use words::number::to_word;

#[derive(Clone, Copy, PartialEq, Eq)]
pub(crate) enum Function {
    Maximum,
    Minimum,
    Held,
    Absolute,
    CopySign,
    Recip,
    WholePart,
    Fract,
    RemEuclidOne,
    RoundUp,
    Gap,
    SineTurns,
    CosineTurns,
}

// A number that is no function's.
#[derive(Clone, Copy, PartialEq, Eq)]
pub(crate) struct UnknownFunction;

impl TryFrom<u64> for Function {
    type Error = UnknownFunction;

    fn try_from(number: u64) -> Result<Self, UnknownFunction> {
        match number {
            0 => Ok(Function::Maximum),
            1 => Ok(Function::Minimum),
            2 => Ok(Function::Held),
            3 => Ok(Function::Absolute),
            4 => Ok(Function::CopySign),
            5 => Ok(Function::Recip),
            6 => Ok(Function::WholePart),
            7 => Ok(Function::Fract),
            8 => Ok(Function::RemEuclidOne),
            9 => Ok(Function::RoundUp),
            10 => Ok(Function::Gap),
            11 => Ok(Function::SineTurns),
            12 => Ok(Function::CosineTurns),
            _ => Err(UnknownFunction),
        }
    }
}

impl Function {
    // How many arguments an answer takes.
    pub(crate) fn arity(self) -> usize
        ensures { result ≤ 3 }
    {
        match self {
            Function::Held => 3,
            Function::Maximum | Function::Minimum | Function::CopySign => 2,
            _ => 1,
        }
    }

    // The answer as a word. Arguments that the function does not take are not looked at.
    pub(crate) fn answer(self, a: f64, b: f64, c: f64) -> u64 {
        match self {
            Function::Maximum => to_word(small::maximum(a, b)),
            Function::Minimum => to_word(small::minimum(a, b)),
            Function::Held => to_word(small::held(a, b, c)),
            Function::Absolute => to_word(small::absolute(a)),
            Function::CopySign => to_word(small::copysign(a, b)),
            Function::Recip => to_word(small::recip(a)),
            Function::WholePart => to_word(small::whole_part(a)),
            Function::Fract => to_word(small::fract(a)),
            Function::RemEuclidOne => to_word(small::rem_euclid_one(a)),
            Function::RoundUp => round_up(a),
            Function::Gap => to_word(rounded_up(a).gap),
            Function::SineTurns => to_word(sine_turns(a)),
            Function::CosineTurns => to_word(cosine_turns(a)),
        }
    }
}
