// The run, from a patch of plain numbers. Rests on `flat` for the patch that they name, and on `engine` for the run of it.
ghost use Rattle.std.specs.Prelude.{◌≡◌};
ghost use Rattle.stages.specs.Stage.{new_states};
ghost use Rattle.engine.specs.Run.{given};
ghost use Rattle.flat.specs.Patch.{patch_of};
ghost use Rattle.host.specs.Host.{answer_of, ran_of, unknown_ran, flat_after, flat_run_of};

use answers::activity::StageActivity;
use answers::refusal::{Answer, Told, activity_of};
use engine::run::{Ran, run};
use files::fault::FaultReason;
use flat::patch::{FlatPatch, patch_of};
use flat::reach::reach_numbers;
use magnetron::pool::Pools;
use stages::state::States;
use util::reach::Reach;

// 0 with stage 32, or a refusal's number with its stage; the activity from 0: Exhausted, Internal, External, Observer.
// Stays: the C interface, grynnadot_answer, has the number of a refusal beside the activity.
#[repr(C)]
#[derive(Clone, Copy)]
pub struct FlatAnswer {
    pub number: usize,
    pub stage: usize,
    pub activity: u8,
}

impl From<Answer> for FlatAnswer {
    ghost from_gives = { λ answer flat. flat ≡ answer_of answer };

    fn from(answer: Answer) -> FlatAnswer {
        let told = Told::of(answer);
        FlatAnswer {
            number: told.number,
            stage: told.stage,
            activity: activity_of(answer).into(),
        }
    }
}

// What a run answers, with the records for the next one, and by stage number whether each string reached its note.
// Stays: the C interface, grynnadot_ran, has the records beside the answer.
#[repr(C)]
#[derive(Clone, Copy)]
pub struct FlatRan {
    pub answer: FlatAnswer,
    pub pools: Pools,
    pub states: States,
    pub reach: [u8; 32],
}

impl From<Ran> for FlatRan {
    ghost from_gives = { λ ran flat. flat ≡ ran_of ran };

    fn from(ran: Ran) -> FlatRan {
        FlatRan {
            answer: ran.answer.into(),
            pools: ran.pools,
            states: ran.states,
            reach: reach_numbers(ran.reaches),
        }
    }
}

// The refusal of a stage whose numbers name none. 01 has no number for it, since its patch is made of enums; it is that of patch files, 22.
fn unknown_ran(stage: usize, pools: Pools, states: States) -> FlatRan
    ensures { result ≡ unknown_ran stage pools states }
{
    FlatRan {
        answer: FlatAnswer {
            number: FaultReason::Unknown.into(),
            stage,
            activity: StageActivity::Exhausted.into(),
        },
        pools,
        states,
        reach: [Reach::Within.into(); 32],
    }
}

// New states: all zero.
#[unsafe(no_mangle)]
pub extern "C" fn grynnadot_new_states() -> States
    ensures { result ≡ new_states }
{
    stages::state::new_states()
}

// A run of n samples, each `width` seconds wide. Where a stage's numbers name none, 22 and that stage. A refusal changes nothing.
// Stays: the C interface, grynnadot_run, takes what is lent one by one.
#[tactic(auto, unfolding(crate::specs::Host::flat_run_of))]
#[unsafe(no_mangle)]
pub extern "C" fn grynnadot_run(
    patch: FlatPatch,
    order: &[u8],
    pools: Pools,
    states: States,
    n: usize,
    width: f64,
    internal: &mut [f64],
    external: &mut [f64],
    zeros: &[f64],
    rings: &mut [f64],
    values: &[f64],
) -> FlatRan
    ensures { flat_after result internal.new external.new rings.new
        ≡ flat_run_of patch (given (patch_of patch) pools states n width internal.old external.old zeros.now rings.old values.now)
        order.now }
{
    let known = match patch_of(patch) {
        Err(unknown) => return unknown_ran(unknown.stage, pools, states),
        Ok(known) => known,
    };
    run(
        known, order, pools, states, n, width, internal, external, zeros, rings, values,
    )
    .into()
}
