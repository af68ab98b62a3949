// The checks of a run, all of them before the first sample: 1 to 4 of what is lent, then 5, 8, 6, 7 of each stage along the order.
// Rests on magnetron's checks of pools and buffers, and on microwave's look-up of parameters.
ghost use Rattle.std.specs.Prelude.{◌≡◌, true, [], ◌≤◌};
ghost use Rattle.order.specs.Checks.{verdict};
ghost use Rattle.answers.specs.Refusal.{result_of, verdict_of};
ghost use Rattle.magnetron.specs.Pools.{marks_in};
ghost use Rattle.engine.specs.Run.{all_below, holds, orderly, entry, fault_of, fault, turned, judged};
ghost use Rattle.engine.specs.Inside.{returned, plan_in, world_in};

use crate::records::{Lent, Records};
use answers::refusal::{Reason, Refusal, Verdict, refusal_unless};
use magnetron::buffer::Marks;
use microwave::parameter::check_asks;
use stages::stage::Stage;

// Whether a number stands in the rest of an order.
fn stands_in(rest: &[u8], k: u8) -> bool
    ensures { result ≡ holds k rest.now }
{
    rest.contains(&k)
}

// Check 3, in one walk that keeps a bit for each stage seen. A number of 32 or more has no bit: a run meets none, for check 1 comes
// first, but the promise is for any count, and such a number is compared with all after it.
fn order_ok(order: &[u8], count: usize) -> bool
    ensures { result ≡ orderly count order.now }
{
    if 32 < order.len() {
        return false;
    }
    let mut seen: u32 = 0;
    for (j, k) in order.iter().enumerate() {
        if count <= *k as usize {
            return false;
        }
        if *k < 32 {
            let bit = 1 << *k;
            let with_it = seen | bit;
            let met = seen & bit;
            if met != 0 {
                return false;
            }
            seen = with_it;
        } else if stands_in(&order[j + 1..], *k) {
            return false;
        }
    }
    true
}

// Checks 1 to 4, in that order.
fn check_entry(records: &Records, lent: &Lent) -> Verdict
    ensures { result ≡ verdict_of (entry (plan_in records.now []) lent.now.zeros.now lent.now.order.now
        (world_in records.now lent.now.internal.now lent.now.external.now lent.now.rings.now)) }
{
    if 32 < records.patch.count {
        return Err(Reason::Bounds.into());
    }
    let pools = magnetron::lent::Lent {
        internal: lent.internal,
        external: lent.external,
        zeros: lent.zeros,
        pools: records.pools,
        window: records.window.buffer_len,
    };
    pools.check_prepare()?;
    refusal_unless(order_ok(lent.order, records.patch.count), Reason::Order)?;
    refusal_unless(
        records.patch.rings_ok(&records.states, lent.rings.len()),
        Reason::Ring,
    )
}

// Checks 5, 8, 6, 7 of one stage at its turn.
fn check_stage(records: &Records, stage: Stage, marks: Marks, values: &[f64]) -> Result<(), Reason>
    ensures { result ≡ result_of (fault_of records.now.pools records.now.window values.now stage marks) }
{
    let window = records.window;
    let inputs = stage.kind.inputs();
    let outputs = stage.outputs();
    if !outputs.there(records.pools, inputs) {
        return Err(Reason::Buffer);
    }
    if !outputs.differ() {
        return Err(Reason::Outputs);
    }
    check_asks(stage.level_asks(), values, window.render_window_secs)?;
    check_asks(stage.kind.asks(), values, window.render_window_secs)?;
    if !outputs.clear_of(window.buffer_len, inputs, marks) {
        return Err(Reason::Clash);
    }
    Ok(())
}

// Checks 5, 8, 6, 7 of each stage along the order.
fn check_stages(records: &Records, order: &[u8], values: &[f64]) -> Verdict
    requires { (records.now.patch.count ≤ 32) × (all_below records.now.patch.count order.now ≡ true) }
    ensures { result ≡ returned (verdict (fault (plan_in records.now values.now)) (turned (plan_in records.now values.now)) order.now (marks_in records.now.pools)) }
{
    let mut marks = records.pools.marks();
    for x in order {
        let k = *x as usize;
        let stage = records.patch.stages[k];
        if let Err(reason) = check_stage(records, stage, marks, values) {
            return Err(Refusal {
                reason,
                stage: Some(k),
            });
        }
        marks = stage.outputs().clear(marks);
    }
    Ok(())
}

// All checks, in their order: done, or the first refusal.
pub(crate) fn judge(records: &Records, lent: &Lent) -> Verdict
    ensures { result ≡ returned (judged (plan_in records.now lent.now.values.now) lent.now.zeros.now lent.now.order.now
        (world_in records.now lent.now.internal.now lent.now.external.now lent.now.rings.now)) }
{
    check_entry(records, lent)?;
    check_stages(records, lent.order, lent.values)
}
