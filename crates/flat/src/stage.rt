// The stage that plain numbers name. Rests on `words` for the number of given bits; the stages are those of `stages`.
ghost use Rattle.std.specs.Prelude.{◌≡◌};
ghost use Rattle.flat.specs.Stage.{named_of};
ghost use Rattle.flat.specs.Inside.{named_parameter, named_waveform, named_modulation, named_reflectance, named_filter, named_oscillator, named_waveguide, named_pan, named_kind};

use magnetron::buffer::BufferIndex;
use microwave::filter::{Filter, FilterType};
use microwave::oscillator::{Modulation, OscillatorSpec, OscillatorType};
use microwave::parameter::Parameter;
use microwave::waveguide::{Reflectance, WaveguideSpec};
use stages::kind::{Kind, Side};
use stages::stage::Stage;
use words::number::from_word;

// A parameter, by its mark: 0 absent, 1 the number of these bits, 2 the slot, 3 the window's seconds. Bits, since those of two numbers can be
// compared, and a float has one NaN for many bits.
// Stays: the C interface, grynnadot_run and grynnadot_read_patch, has a mark beside what it asks for in place of an enum.
#[repr(C)]
#[derive(Clone, Copy, Default)]
pub struct FlatParameter {
    pub mark: usize,
    pub slot: usize,
    pub bits: u64,
}

// A stage, its buffers by their numbers. What the kind does not have is not looked at. Of Pan, `output` and `out_level` are the left ones,
// `second_output` the right one, and the parameters are the right level, the left gain and the right gain.
// Stays: the C interface, grynnadot_run and grynnadot_read_patch, has numbers for kinds, choices and buffers in place of enums.
#[repr(C)]
#[derive(Clone, Copy, Default)]
pub struct FlatStage {
    pub kind: usize,
    pub choice: usize,
    pub modulation: usize,
    pub buffer_size: usize,
    pub first_input: usize,
    pub second_input: usize,
    pub output: usize,
    pub second_output: usize,
    pub out_level: FlatParameter,
    pub first: FlatParameter,
    pub second: FlatParameter,
    pub third: FlatParameter,
}

// Here and below, None where a number names nothing.
// Stays: no plainer as `TryFrom`: from a `usize` none may stand here, as the enums are other crates'; from the records of this file its error would say no more than None does.
#[tactic(auto, unfolding(crate::specs::Stage::parameter_of))]
fn parameter_of(p: FlatParameter) -> Option<Parameter>
    ensures { result ≡ named_parameter p }
{
    match p.mark {
        0 => Some(Parameter::Absent),
        1 => Some(Parameter::Fixed(from_word(p.bits))),
        2 => Some(Parameter::Slot(p.slot)),
        3 => Some(Parameter::WindowSeconds),
        _ => None,
    }
}

#[tactic(auto, unfolding(crate::specs::Stage::waveform_of))]
fn waveform_of(number: usize) -> Option<OscillatorType>
    ensures { result ≡ named_waveform number }
{
    match number {
        0 => Some(OscillatorType::Sin),
        1 => Some(OscillatorType::Sin3),
        2 => Some(OscillatorType::Triangle),
        3 => Some(OscillatorType::Square),
        4 => Some(OscillatorType::Sawtooth),
        _ => None,
    }
}

#[tactic(auto, unfolding(crate::specs::Stage::modulation_of))]
fn modulation_of(number: usize) -> Option<Modulation>
    ensures { result ≡ named_modulation number }
{
    match number {
        0 => Some(Modulation::ByPhase),
        1 => Some(Modulation::ByFrequency),
        _ => None,
    }
}

#[tactic(auto, unfolding(crate::specs::Stage::reflectance_of))]
fn reflectance_of(number: usize) -> Option<Reflectance>
    ensures { result ≡ named_reflectance number }
{
    match number {
        0 => Some(Reflectance::Positive),
        1 => Some(Reflectance::Negative),
        _ => None,
    }
}

// The filters are the kinds from 3 on. A second parameter that a filter does not have is not looked at.
#[tactic(auto, unfolding(crate::specs::Stage::filter_of))]
fn filter_of(flat: FlatStage) -> Option<FilterType>
    ensures { result ≡ named_filter flat }
{
    let a = parameter_of(flat.first)?;
    let b = parameter_of(flat.second);
    match flat.kind {
        3 => Some(Filter::LowPass { cutoff: a }),
        4 => Some(Filter::LowPass2 {
            resonance: a,
            quality: b?,
        }),
        5 => Some(Filter::HighPass { cutoff: a }),
        6 => Some(Filter::HighPass2 {
            resonance: a,
            quality: b?,
        }),
        7 => Some(Filter::BandPass {
            center: a,
            quality: b?,
        }),
        8 => Some(Filter::Notch {
            center: a,
            quality: b?,
        }),
        9 => Some(Filter::AllPass {
            corner: a,
            quality: b?,
        }),
        _ => None,
    }
}

fn oscillator_of(flat: FlatStage) -> Option<OscillatorSpec>
    ensures { result ≡ named_oscillator flat }
{
    Some(OscillatorSpec {
        oscillator_type: waveform_of(flat.choice)?,
        frequency: parameter_of(flat.first)?,
        phase: parameter_of(flat.second)?,
    })
}

fn waveguide_of(flat: FlatStage) -> Option<WaveguideSpec>
    ensures { result ≡ named_waveguide flat }
{
    Some(WaveguideSpec {
        buffer_size: flat.buffer_size,
        frequency: parameter_of(flat.first)?,
        cutoff: parameter_of(flat.second)?,
        feedback: parameter_of(flat.third)?,
        reflectance: reflectance_of(flat.choice)?,
    })
}

fn pan_of(flat: FlatStage) -> Option<Kind>
    ensures { result ≡ named_pan flat }
{
    let right = Side {
        output: BufferIndex::from(flat.second_output),
        out_level: parameter_of(flat.first)?,
        gain: parameter_of(flat.third)?,
    };
    Some(Kind::Pan {
        input: BufferIndex::from(flat.first_input),
        left_gain: parameter_of(flat.second)?,
        right,
    })
}

// The kind with its parts.
#[tactic(auto, unfolding(crate::specs::Stage::kind_of, crate::specs::Stage::kinds))]
fn kind_of(flat: FlatStage) -> Option<Kind>
    ensures { result ≡ named_kind flat }
{
    let input = BufferIndex::from(flat.first_input);
    match flat.kind {
        0 => Some(Kind::Pass { input }),
        1 => Some(Kind::Pow3 { input }),
        2 => Some(Kind::Clip {
            input,
            limit: parameter_of(flat.first)?,
        }),
        3 | 4 | 5 | 6 | 7 | 8 | 9 => Some(Kind::Filter {
            input,
            filter: filter_of(flat)?,
        }),
        10 => Some(Kind::Oscillator {
            oscillator: oscillator_of(flat)?,
        }),
        11 => Some(Kind::ModOscillator {
            input,
            oscillator: oscillator_of(flat)?,
            modulation: modulation_of(flat.modulation)?,
        }),
        12 => Some(Kind::Waveguide {
            input,
            waveguide: waveguide_of(flat)?,
        }),
        13 => Some(Kind::RingModulator {
            first: input,
            second: BufferIndex::from(flat.second_input),
        }),
        14 => pan_of(flat),
        _ => None,
    }
}

// The stage that the numbers name; None where there is no such kind, choice or mark.
#[tactic(auto, unfolding(crate::specs::Stage::named_of, crate::specs::Stage::named_by))]
pub fn stage_of(flat: FlatStage) -> Option<Stage>
    ensures { result ≡ named_of flat }
{
    Some(Stage {
        kind: kind_of(flat)?,
        output: BufferIndex::from(flat.output),
        out_level: parameter_of(flat.out_level)?,
    })
}
