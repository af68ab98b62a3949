// What a kind of stage is made of beside its out_level, by the kind's number. Rests on nothing.
ghost use Rattle.std.specs.Prelude.{◌≡◌};
ghost use Rattle.flat.specs.Form.{formed_of};

// How many waveforms or reflectances, and how many modulations, there are to choose from: 0 where nothing is chosen.
// How many sizes, inputs, outputs and parameters the kind has; a stream of tests lists no others.
#[derive(Clone, Copy, PartialEq, Eq)]
pub struct Form {
    pub choices: u8,
    pub modulations: u8,
    pub sizes: u8,
    pub inputs: u8,
    pub outputs: u8,
    pub parameters: u8,
}

// One input and one output, and nothing else: Pass and Pow3.
const PLAIN: Form = Form {
    choices: 0,
    modulations: 0,
    sizes: 0,
    inputs: 1,
    outputs: 1,
    parameters: 0,
};

// The form of a kind, by its number as filter.rs counts the filters among them; None where no kind has that number.
pub fn form_of(kind: usize) -> Option<Form>
    ensures { result ≡ formed_of kind }
{
    match kind {
        // Pass, Pow3
        0 | 1 => Some(PLAIN),
        // Clip, LowPass, HighPass
        2 | 3 | 5 => Some(Form {
            parameters: 1,
            ..PLAIN
        }),
        // LowPass2, HighPass2, BandPass, Notch, AllPass
        4 | 6 | 7 | 8 | 9 => Some(Form {
            parameters: 2,
            ..PLAIN
        }),
        // plain oscillator
        10 => Some(Form {
            choices: 5,
            inputs: 0,
            parameters: 2,
            ..PLAIN
        }),
        // modulated oscillator
        11 => Some(Form {
            choices: 5,
            modulations: 2,
            parameters: 2,
            ..PLAIN
        }),
        // waveguide
        12 => Some(Form {
            choices: 2,
            sizes: 1,
            parameters: 3,
            ..PLAIN
        }),
        // RingModulator
        13 => Some(Form { inputs: 2, ..PLAIN }),
        // Pan
        14 => Some(Form {
            outputs: 2,
            parameters: 3,
            ..PLAIN
        }),
        _ => None,
    }
}
