// A patch of plain numbers, written in the words in which `patch` reads one. Rests on `flat` for which numbers a kind has. A fixed number's
// bits are written as they are: no f64 comes between, so each NaN keeps its own.
ghost use Rattle.std.specs.Prelude.{◌≡◌};

use flat::form::{Form, form_of};
use flat::patch::FlatPatch;
use flat::stage::{FlatParameter, FlatStage};
use stream::place::Place;

// The count, and as many stages as it says, of 32.
pub fn write_patch(place: &mut Place, patch: FlatPatch)
    ensures { place.new.input ≡ place.old.input }
{
    place.write(patch.count as u64);
    for stage in patch.stages.iter().take(patch.count) {
        write_stage(place, *stage);
    }
}

// The numbers of a stage. Of a kind that is not known there are no words: the case is refused.
fn write_stage(place: &mut Place, stage: FlatStage)
    ensures { place.new.input ≡ place.old.input }
{
    let Some(form) = form_of(stage.kind) else {
        return place.refuse();
    };
    place.write(stage.kind as u64);
    write_choices(place, stage, form);
    write_buffers(place, stage, form);
    write_parameters(place, stage, form);
}

// The choices and the size, where the kind has them.
fn write_choices(place: &mut Place, stage: FlatStage, form: Form)
    ensures { place.new.input ≡ place.old.input }
{
    write_if(place, form.choices > 0, stage.choice as u64);
    write_if(place, form.modulations > 0, stage.modulation as u64);
    write_if(place, form.sizes > 0, stage.buffer_size as u64);
}

// The inputs and the outputs, as many as the kind has.
fn write_buffers(place: &mut Place, stage: FlatStage, form: Form)
    ensures { place.new.input ≡ place.old.input }
{
    write_if(place, form.inputs > 0, stage.first_input as u64);
    write_if(place, form.inputs > 1, stage.second_input as u64);
    place.write(stage.output as u64);
    write_if(place, form.outputs > 1, stage.second_output as u64);
}

// out_level, and the parameters, as many as the kind has.
fn write_parameters(place: &mut Place, stage: FlatStage, form: Form)
    ensures { place.new.input ≡ place.old.input }
{
    write_parameter(place, stage.out_level);
    let parameters = [stage.first, stage.second, stage.third];
    for parameter in parameters.iter().take(form.parameters as usize) {
        write_parameter(place, *parameter);
    }
}

// A mark, and a number's bits or a slot where the mark says so.
fn write_parameter(place: &mut Place, parameter: FlatParameter)
    ensures { place.new.input ≡ place.old.input }
{
    place.write(parameter.mark as u64);
    write_if(place, parameter.mark == 1, parameter.bits);
    write_if(place, parameter.mark == 2, parameter.slot as u64);
}

// A word where one is wanted.
fn write_if(place: &mut Place, wanted: bool, word: u64)
    ensures { place.new.input ≡ place.old.input }
{
    if wanted {
        place.write(word);
    }
}
