// A stage of a patch file. Rests on `flat` for what a kind is made of, and on `reading` and `parameter` for its parts.
ghost use Rattle.std.specs.Prelude.{◌≡◌};
ghost use Rattle.files.specs.File.{choices, wires, parameters, stage_from, parts, stage};
ghost use Rattle.files.specs.Inside.{told};

use crate::fault::{Fault, FaultReason};
use crate::reading::Reading;
use flat::form::{Form, form_of};
use flat::stage::{FlatParameter, FlatStage};

// What is chosen, and a waveguide's size. What the kind does not have is 0.
// Stays: as `Wires`, `Parameters` and `stage_from`, a type of the definitions `choices`, `wires` and `parameters` in specs/File.antt, under `read_of`.
#[derive(Clone, Copy)]
pub(crate) struct Choices {
    pub choice: usize,
    pub modulation: usize,
    pub buffer_size: usize,
}

// The buffers that are read and written. What the kind does not have is 0.
#[derive(Clone, Copy)]
pub(crate) struct Wires {
    pub first_input: usize,
    pub second_input: usize,
    pub output: usize,
    pub second_output: usize,
}

// The level, and up to three parameters more.
#[derive(Clone, Copy)]
pub(crate) struct Parameters {
    pub out_level: FlatParameter,
    pub first: FlatParameter,
    pub second: FlatParameter,
    pub third: FlatParameter,
}

impl<'a> Reading<'a> {
    // A stage, of a kind that there is.
    pub(crate) fn stage(&mut self) -> Result<FlatStage, Fault>
        ensures said { told result self.new.offset ≡ stage self.old.bytes.now self.old.offset }
        ensures kept { self.new.bytes ≡ self.old.bytes }
    {
        let start = self.offset;
        let kind = self.number()?;
        let Some(form) = form_of(kind) else {
            return Err(FaultReason::Unknown.at(start));
        };
        self.parts(kind, form)
    }

    // What follows the kind.
    fn parts(&mut self, kind: usize, form: Form) -> Result<FlatStage, Fault>
        ensures said { told result self.new.offset ≡ parts kind form self.old.bytes.now self.old.offset }
        ensures kept { self.new.bytes ≡ self.old.bytes }
    {
        let choices = self.choices(form)?;
        let wires = self.wires(form)?;
        let parameters = self.parameters(form)?;
        Ok(stage_from(kind, choices, wires, parameters))
    }

    fn choices(&mut self, form: Form) -> Result<Choices, Fault>
        ensures said { told result self.new.offset ≡ choices form self.old.bytes.now self.old.offset }
        ensures kept { self.new.bytes ≡ self.old.bytes }
    {
        Ok(Choices {
            choice: self.choice(form.choices)?,
            modulation: self.choice(form.modulations)?,
            buffer_size: self.number_if(form.sizes > 0)?,
        })
    }

    fn wires(&mut self, form: Form) -> Result<Wires, Fault>
        ensures said { told result self.new.offset ≡ wires form self.old.bytes.now self.old.offset }
        ensures kept { self.new.bytes ≡ self.old.bytes }
    {
        Ok(Wires {
            first_input: self.number_if(form.inputs > 0)?,
            second_input: self.number_if(form.inputs > 1)?,
            output: self.number()?,
            second_output: self.number_if(form.outputs > 1)?,
        })
    }

    fn parameters(&mut self, form: Form) -> Result<Parameters, Fault>
        ensures said { told result self.new.offset ≡ parameters form self.old.bytes.now self.old.offset }
        ensures kept { self.new.bytes ≡ self.old.bytes }
    {
        Ok(Parameters {
            out_level: self.parameter()?,
            first: self.parameter_if(form.parameters > 0)?,
            second: self.parameter_if(form.parameters > 1)?,
            third: self.parameter_if(form.parameters > 2)?,
        })
    }
}

fn stage_from(kind: usize, choices: Choices, wires: Wires, parameters: Parameters) -> FlatStage
    ensures { result ≡ stage_from kind choices wires parameters }
{
    FlatStage {
        kind,
        choice: choices.choice,
        modulation: choices.modulation,
        buffer_size: choices.buffer_size,
        first_input: wires.first_input,
        second_input: wires.second_input,
        output: wires.output,
        second_output: wires.second_output,
        out_level: parameters.out_level,
        first: parameters.first,
        second: parameters.second,
        third: parameters.third,
    }
}
