// The patch that plain numbers name. Rests on `stage` for each of its stages.
ghost use Rattle.std.specs.Prelude.{◌≡◌, ◌≤◌};
ghost use Rattle.flat.specs.Patch.{blank_stage, no_parameter, no_flat, looked_at, named_patch_of};

use crate::stage::{FlatParameter, FlatStage, stage_of};
use magnetron::buffer::BufferIndex;
use microwave::parameter::Parameter;
use stages::kind::Kind;
use stages::patch::Patch;
use stages::stage::Stage;

// At most 32 stages; those from `count` on are not looked at.
// Stays: the C interface, grynnadot_run and grynnadot_read_patch, has a count beside the stages.
#[repr(C)]
#[derive(Clone, Copy)]
pub struct FlatPatch {
    pub count: usize,
    pub stages: [FlatStage; 32],
}

// The first stage whose numbers name none, and the patch of the stages before it.
#[derive(Clone, Copy)]
pub struct Unknown {
    pub stage: usize,
    pub before: Patch,
}

// What stands where there is no stage.
fn blank_stage() -> Stage
    ensures { result ≡ blank_stage }
{
    Stage {
        kind: Kind::Pass {
            input: BufferIndex::Internal(0),
        },
        output: BufferIndex::Internal(0),
        out_level: Parameter::Absent,
    }
}

// What stands where there are no numbers of a parameter: zeros, which say that it is absent.
pub fn no_parameter() -> FlatParameter
    ensures { result ≡ no_parameter }
{
    FlatParameter::default()
}

// What stands where there are no numbers of a stage: zeros.
pub fn no_flat() -> FlatStage
    ensures { result ≡ no_flat }
{
    FlatStage::default()
}

// How many stages are looked at: none where the count is over its bound, which the run refuses.
fn looked_at(count: usize) -> usize
    ensures { (result ≡ looked_at count) × (result ≤ 32) }
{
    if count <= 32 { count } else { 0 }
}

// The patch of the first `count` stages; Unknown where the numbers of one of them name none.
pub fn patch_of(flat: FlatPatch) -> Result<Patch, Unknown>
    ensures { result ≡ named_patch_of flat }
{
    let blank = blank_stage();
    let mut patch = Patch {
        count: flat.count,
        stages: [blank; 32],
    };
    let looked = looked_at(flat.count);
    for k in 0..looked {
        let Some(stage) = stage_of(flat.stages[k]) else {
            let unknown = Unknown {
                stage: k,
                before: patch,
            };
            return Err(unknown);
        };
        patch.stages[k] = stage;
    }
    Ok(patch)
}
