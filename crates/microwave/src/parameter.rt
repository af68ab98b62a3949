// A stage's parameter, and the number that stands for it in a window: what the Rust has automation traits for. Rests on the reasons of a refusal.
ghost use Rattle.std.specs.Prelude.{◌≡◌};
ghost use Rattle.answers.specs.Refusal.{result_of};
ghost use Rattle.microwave.specs.Parameter.{looked, required as requiredAsk, or_zero, or_one, of_pair, ask_list, ask_at, asks_refused, number_for, numbers_of};

use answers::refusal::Reason;

#[derive(Clone, Copy)]
pub enum Parameter {
    Fixed(f64),
    Slot(usize),
    WindowSeconds,
    Absent,
}

// A parameter, and what stands for it where it is absent: nothing for a required one.
#[derive(Clone, Copy)]
pub struct Ask {
    pub parameter: Parameter,
    pub absent: Option<f64>,
}

// The number that answers. There is none for a slot past the lent values, or for a required parameter that is absent.
// Stays: the new form is no plainer: values and seconds go side by side here and below; a record of both would be made for a stage's check and for its turn, and handed down to be taken apart here.
pub fn lookup(ask: Ask, values: &[f64], seconds: f64) -> Option<f64>
    ensures { result ≡ looked ask values.now seconds }
{
    match ask.parameter {
        Parameter::Fixed(x) => Some(x),
        Parameter::Slot(i) => values.get(i).copied(),
        Parameter::WindowSeconds => Some(seconds),
        Parameter::Absent => ask.absent,
    }
}

// What a stage asks for beside its output's level.
#[derive(Clone, Copy)]
pub enum Asks {
    Nothing,
    One(Ask),
    Two(Ask, Ask),
    Three(Ask, Ask, Ask),
}

// The numbers that answer a stage's asks, in their order.
#[derive(Clone, Copy)]
pub struct Numbers {
    pub first: f64,
    pub second: f64,
    pub third: f64,
}

// A parameter that may not be absent.
pub fn required(parameter: Parameter) -> Ask
    ensures { result ≡ requiredAsk parameter }
{
    Ask {
        parameter,
        absent: None,
    }
}

// A parameter for which 0.0 stands where it is absent.
pub fn or_zero(parameter: Parameter) -> Ask
    ensures { result ≡ or_zero parameter }
{
    Ask {
        parameter,
        absent: Some(0.0),
    }
}

// A level for which 1.0 stands where it is absent.
pub fn or_one(level: Parameter) -> Ask
    ensures { result ≡ or_one level }
{
    Ask {
        parameter: level,
        absent: Some(1.0),
    }
}

// One level of a pair: 1.0 stands for it where the other is absent too.
pub fn of_pair(level: Parameter, other: Parameter) -> Ask
    ensures { result ≡ of_pair level other }
{
    let Parameter::Absent = other else {
        return required(level);
    };
    or_one(level)
}

// Check 6 of some asks: refused where one has no number.
fn check_each<const N: usize>(asks: [Ask; N], values: &[f64], seconds: f64) -> Result<(), Reason>
    ensures { result ≡ result_of (asks_refused asks.entry values.now seconds) }
{
    for ask in &asks {
        let Some(_) = lookup(*ask, values, seconds) else {
            return Err(Reason::Parameter);
        };
    }
    Ok(())
}

// Check 6: refused where an ask has no number.
pub fn check_asks(asks: Asks, values: &[f64], seconds: f64) -> Result<(), Reason>
    ensures { result ≡ result_of (asks_refused (ask_list asks) values.now seconds) }
{
    match asks {
        Asks::Nothing => check_each([], values, seconds),
        Asks::One(first) => check_each([first], values, seconds),
        Asks::Two(first, second) => check_each([first, second], values, seconds),
        Asks::Three(first, second, third) => check_each([first, second, third], values, seconds),
    }
}

// The number found, 0.0 where there is none: check 6 has seen to it that there is one.
fn number(ask: Ask, values: &[f64], seconds: f64) -> f64
    ensures { result ≡ number_for ask values.now seconds }
{
    let Some(x) = lookup(ask, values, seconds) else {
        return 0.0;
    };
    x
}

// The number of the first ask, 0.0 where there is none.
pub fn first_number(asks: Asks, values: &[f64], seconds: f64) -> f64
    ensures { result ≡ number_for (ask_at (ask_list asks) 0) values.now seconds }
{
    match asks {
        Asks::Nothing => 0.0,
        Asks::One(first) | Asks::Two(first, _) | Asks::Three(first, _, _) => {
            number(first, values, seconds)
        }
    }
}

// The number of ask k, 0.0 where there is no such ask.
fn number_at(asks: &[Ask], k: usize, values: &[f64], seconds: f64) -> f64
    ensures { result ≡ number_for (ask_at asks.now k) values.now seconds }
{
    let Some(ask) = asks.get(k) else {
        return 0.0;
    };
    number(*ask, values, seconds)
}

// The numbers of up to three asks, in their order, 0.0 where there is none. That many asks by themselves, and not put into `Asks`, whose way
// through memory costs a stage more than to look them up.
#[tactic(auto, unfolding(crate::specs::Parameter::numbers_of))]
pub fn numbers_found<const N: usize>(asks: [Ask; N], values: &[f64], seconds: f64) -> Numbers
    ensures { result ≡ numbers_of asks.entry values.now seconds }
{
    Numbers {
        first: number_at(&asks, 0, values, seconds),
        second: number_at(&asks, 1, values, seconds),
        third: number_at(&asks, 2, values, seconds),
    }
}
