// A patch as a case lends it: a count and plain numbers for each stage. Rests on `flat` for the patch that the numbers name. Buffers,
// sizes and slots may be bad: the engine is what refuses.
ghost use Rattle.stream.specs.Place.{Kept};

use flat::form::form_of;
use flat::patch::{FlatPatch, no_flat, no_parameter, patch_of};
use flat::stage::{FlatParameter, FlatStage};
use stages::patch::Patch;
use stream::place::Place;

// The patch that the stages which follow name; where the numbers of one name none, the case is refused. All stages that are there are
// looked at, even where the count is above 32: so the count as lent is put into the patch last.
pub fn read_patch(place: &mut Place, count: usize) -> Patch
    ensures { Kept place.old place.new }
{
    let named = patch_of(read_stages(place, count.min(32)));
    place.refuse_if(named.is_err());
    let mut patch = named.unwrap_or_else(|unknown| unknown.before);
    patch.count = count;
    patch
}

// The numbers of as many stages as the count says, of 32.
fn read_stages(place: &mut Place, count: usize) -> FlatPatch
    ensures { Kept place.old place.new }
{
    let mut stages = [no_flat(); 32];
    for stage in stages.iter_mut().take(count) {
        *stage = read_stage(place);
    }
    FlatPatch { count, stages }
}

// The numbers of a stage, which come in the order of the fields; of a kind that is not known nothing more is read.
fn read_stage(place: &mut Place) -> FlatStage
    ensures { Kept place.old place.new }
{
    let kind = place.next() as usize;
    let Some(form) = form_of(kind) else {
        place.refuse();
        return no_flat();
    };
    FlatStage {
        kind,
        choice: place.next_if(form.choices > 0) as usize,
        modulation: place.next_if(form.modulations > 0) as usize,
        buffer_size: place.next_if(form.sizes > 0) as usize,
        first_input: place.next_if(form.inputs > 0) as usize,
        second_input: place.next_if(form.inputs > 1) as usize,
        output: place.next() as usize,
        second_output: place.next_if(form.outputs > 1) as usize,
        out_level: read_parameter(place),
        first: read_parameter_if(place, form.parameters > 0),
        second: read_parameter_if(place, form.parameters > 1),
        third: read_parameter_if(place, form.parameters > 2),
    }
}

// Where no parameter is wanted, nothing is read.
fn read_parameter_if(place: &mut Place, wanted: bool) -> FlatParameter
    ensures { Kept place.old place.new }
{
    if wanted {
        read_parameter(place)
    } else {
        no_parameter()
    }
}

// A mark, and a number's bits or a slot where the mark says so.
fn read_parameter(place: &mut Place) -> FlatParameter
    ensures { Kept place.old place.new }
{
    let mark = place.next() as usize;
    FlatParameter {
        mark,
        bits: place.next_if(mark == 1),
        slot: place.next_if(mark == 2) as usize,
    }
}
