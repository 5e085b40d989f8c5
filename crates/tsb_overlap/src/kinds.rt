//! What ticks make of an overlap, by its kind: an arrow, or one that trails.
ghost use Rattle.std.specs.Prelude.{◌≡◌, ℕ, ◌+◌, ◌<◌, ◌≤◌, ◌^◌, Bool, true};
ghost use Rattle.tsb_objects.specs.Checked.{checked_plan};
ghost use Rattle.tsb_objects.specs.tsb_plan.Parts.{is_timed};
ghost use Rattle.tsb_objects.specs.tsb_plan.PlanOf.{plan_of};
ghost use Rattle.tsb_objects.specs.tsb_types.declared.flow.OverlapLights.{OverlapLights};
ghost use Rattle.tsb_objects.specs.tsb_types.Sets.{has};
ghost use Rattle.tsb_overlap.specs.Overlap.{run_on, settled, holds_by};
ghost use Rattle.tsb_overlap.specs.Cells.{overlap_of};
ghost use Rattle.tsb_overlap.specs.Parts.{IsPartOf, IsStill};
ghost use Rattle.tsb_overlap.specs.Reading.{given_by};

use crate::parts::Part;
use crate::surroundings::Surroundings;
use crate::{arrow, trail};
use tsb_heads::keeps_green;
use tsb_objects::{Checked, Overlap, PhaseSet, Plan};

/// What an overlap is in as tick `now` begins: what has lasted its time is over.
#[tactic(auto, unfolding(crate::specs::Overlap::run_on))]
pub(crate) fn run_on(plan: &Plan, o: Overlap, part: &Part, now: u32, is_preempted: bool) -> Part
    requires fits { now + 1 < 2 ^ 32 }
    requires timer { part.now.timer ≤ now + 1 }
    requires timed { is_timed (plan_of plan.now) o ≡ true }
    ensures { IsPartOf now (run_on (plan_of plan.now) is_preempted o (overlap_of now part.now)) result }
{
    if plan.is_arrow(o) {
        arrow::run_on(plan, part, now)
    } else {
        trail::run_on(plan, o, part, now, is_preempted)
    }
}

/// The phases that an overlap which is in this holds in clearance.
pub(crate) fn held_by(plan: &Plan, o: Overlap, part: &Part) -> PhaseSet
    ensures { (p : ℕ) → has result p ≡ holds_by (plan_of plan.now) o part.now.interval p }
{
    if plan.trails(o) && trail::holds(part) {
        plan.included_phases(o)
    } else {
        PhaseSet::empty()
    }
}

/// What an overlap is in after the phases have moved in tick `now`, of what it was as the tick began.
pub(crate) fn settled(
    plan: &Checked,
    o: Overlap,
    part: &Part,
    seen: &Surroundings,
    now: u32,
    is_omitted: bool,
) -> Part
    requires fits { now + 1 < 2 ^ 32 }
    requires timer { part.now.timer ≤ now + 1 }
    requires timed { is_timed (checked_plan plan.now) o ≡ true }
    ensures { (omitted : ℕ → Bool) (lights : OverlapLights) → omitted o ≡ is_omitted →
        IsPartOf now (settled (checked_plan plan.now) (given_by now seen.now omitted lights) o (overlap_of now part.now)) result }
{
    let values = plan.plan();
    if values.is_arrow(o) {
        arrow::settled(values, o, part, seen, now, is_omitted)
    } else {
        let is_kept = keeps_green(&seen.intervals, seen.ring_1, seen.ring_2, o, plan);
        trail::settled(part, now, is_kept, seen.is_preempted)
    }
}

/// The tick up to which an overlap stays while phases, rings and preempts do; `u32::MAX` for none.
pub(crate) fn due(plan: &Plan, o: Overlap, part: &Part, seen: &Surroundings, now: u32) -> u32
    requires { is_timed (plan_of plan.now) o ≡ true }
    ensures { (preempted : Bool) (omitted : ℕ → Bool) (lights : OverlapLights) (t : ℕ) → now ≤ t → t < result →
        IsStill (plan_of plan.now) preempted omitted lights seen.now o part.now now t }
{
    if plan.is_arrow(o) {
        arrow::due(plan, o, part, seen, now)
    } else {
        trail::due(plan, o, part, now)
    }
}
