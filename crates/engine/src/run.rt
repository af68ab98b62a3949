// The run: all checks (check.rt), then each stage of the order (turn.rt). Every input gets an answer, and a refusal changes nothing.
ghost use Rattle.std.specs.Prelude.{◌≡◌};
ghost use Rattle.order.specs.Order.{runs};
ghost use Rattle.answers.specs.declared.activity.StageActivity.TheVariants.{Exhausted};
ghost use Rattle.engine.specs.Run.{staged, louder, reaches, done, after, after_by, given, run_of};
ghost use Rattle.engine.specs.Inside.{plan_in, world_in, Passed};

use crate::check::judge;
use crate::records::{Lent, Records};
use crate::turn::Turn;
use answers::activity::StageActivity;
use answers::refusal::Answer;
use magnetron::pool::Pools;
use stages::patch::Patch;
use stages::reach::{Reaches, all_within};
use stages::state::States;
use stages::window::render_window;

// What a run answers, with the records that it hands back, and whether each string reached its note.
// Stays: what may not change: by `after_by` a refusal has beside it the records as they came (01: "every record .. is unchanged"), and "within" by stage (02, Five).
#[derive(Clone, Copy)]
pub struct Ran {
    pub answer: Answer,
    pub pools: Pools,
    pub states: States,
    pub reaches: Reaches,
}

// The stages along the order, once the checks have passed.
// Stays: the new form is no plainer: `run` alone calls it, and a record of what it changes would be made there and taken apart here.
fn run_order(
    records: &Records,
    order: &[u8],
    internal: &mut [f64],
    external: &mut [f64],
    rings: &mut [f64],
    values: &[f64],
) -> Ran
    requires { Passed (plan_in records.now values.now) order.now (world_in records.now internal.old external.old rings.old) }
    ensures { after result internal.new external.new rings.new
        ≡ after_by (plan_in records.now values.now) (world_in records.now internal.old external.old rings.old)
        (done (runs (louder (plan_in records.now values.now)) order.now Exhausted)
        (reaches (plan_in records.now values.now) order.now)
        (runs (staged (plan_in records.now values.now)) order.now (world_in records.now internal.old external.old rings.old))) }
{
    let pools = records.pools;
    let starts = records.patch.ring_starts();
    let mut marks = pools.marks();
    let mut states = records.states;
    let mut reaches = all_within();
    let mut activity = StageActivity::Exhausted;
    for x in order {
        let k = *x as usize;
        let stage = records.patch.stages[k];
        let at = starts[k];
        let ring = &mut rings[at..at + stage.ring_len()];
        let turn = Turn {
            stage,
            state: states.stages[k],
            marks,
            pools,
            window: records.window,
            values,
        };
        let taken = turn.take(ring, internal, external);
        states.stages[k] = taken.state;
        reaches.stages[k] = taken.reach;
        let outputs = stage.outputs();
        marks = outputs.clear(marks);
        activity = outputs.louder(activity);
    }
    Ran {
        answer: Ok(activity),
        pools: pools.with_marks(marks),
        states,
        reaches,
    }
}

// A run of n samples, each `width` seconds wide. Answers the greatest activity, or the first refusal; and by stage number whether the last sample
// of its string was within its ring.
// Stays: the new form is no plainer: host has each of these by itself, as C hands them to `grynnadot_run`, and rendersaw as it made them; each would make a record for this one call.
pub fn run(
    patch: Patch,
    order: &[u8],
    pools: Pools,
    states: States,
    n: usize,
    width: f64,
    internal: &mut [f64],
    external: &mut [f64],
    zeros: &[f64],
    rings: &mut [f64],
    values: &[f64],
) -> Ran
    ensures { after result internal.new external.new rings.new
        ≡ run_of (given patch pools states n width internal.old external.old zeros.now rings.old values.now) order.now }
{
    let records = Records {
        patch,
        pools,
        states,
        window: render_window(n, width),
    };
    let lent = Lent {
        order,
        internal,
        external,
        zeros,
        rings,
        values,
    };
    if let Err(refusal) = judge(&records, &lent) {
        return Ran {
            answer: Err(refusal),
            pools,
            states,
            reaches: all_within(),
        };
    }
    run_order(&records, order, internal, external, rings, values)
}
