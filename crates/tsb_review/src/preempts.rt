//! Advices on preempts: A33 to A38, A50 and A51. Times are in tenths of a second.
#![tactic(auto, unfolding(tsb_plan::specs::PlanOf::plan_of))]

ghost use Rattle.std.specs.Prelude.{◌≡◌};
ghost use Rattle.std.specs.List.{list_any};
ghost use Rattle.tsb_types.specs.declared.limits.TheConstants.{PREEMPTS};
ghost use Rattle.tsb_types.specs.Lists.{run_from};
ghost use Rattle.tsb_plan.specs.PlanOf.{plan_of};
ghost use Rattle.tsb_review.specs.Preempts.{has_dwell, has_track, fills_track, is_by_railroad, clears_no_track, lasts_too_long, ends_pedestrians, cuts_walk, cuts_clearance, has_preempt_times, is_never_served, is_held_by_input, dwells_beside, dwells_alone};

use crate::calls::serves_pedestrians;
use crate::sought::{SoughtPhase, some_phase};
use tsb_plan::{Object, Plan};
use tsb_types::{Phase, Preempt};

/// Whether the preempt has a dwell phase.
pub(crate) fn has_dwell(plan: &Plan, preempt: Preempt) -> bool
    ensures { result ≡ has_dwell (plan_of plan.now) preempt }
{
    plan.at(Object::PreemptDwellPhase, u32::from(preempt.number())) != 0
}

/// Whether the preempt has a track phase.
pub(crate) fn has_track(plan: &Plan, preempt: Preempt) -> bool
    ensures { result ≡ has_track (plan_of plan.now) preempt }
{
    plan.at(Object::PreemptTrackPhase, u32::from(preempt.number())) != 0
}

/// A33: whether the phase clears the track of the preempt, and is served again in its dwell.
pub(crate) fn fills_track(plan: &Plan, preempt: Preempt, phase: Phase) -> bool
    ensures { result ≡ fills_track (plan_of plan.now) preempt phase }
{
    plan.track_phases(preempt).contains(phase) && plan.dwell_phases(preempt).contains(phase)
}

/// Whether some preempt has a track phase.
fn has_some_track(plan: &Plan) -> bool
    ensures { result ≡ list_any (has_track (plan_of plan.now)) (run_from 1 PREEMPTS) }
{
    Preempt::all()
        .iter()
        .any(|preempt| has_track(plan, *preempt))
}

/// Whether there is a sign of a railroad: the preempt has a track green, or some preempt has a track phase.
fn is_by_railroad(plan: &Plan, preempt: Preempt) -> bool
    ensures { result ≡ is_by_railroad (plan_of plan.now) preempt }
{
    plan.track_green(preempt) > 0 || has_some_track(plan)
}

/// A34: whether the preempt has no delay and no track phase, by a railroad.
pub(crate) fn clears_no_track(plan: &Plan, preempt: Preempt) -> bool
    ensures { result ≡ clears_no_track (plan_of plan.now) preempt }
{
    has_dwell(plan, preempt)
        && !has_track(plan, preempt)
        && plan.preempt_delay(preempt) == 0
        && is_by_railroad(plan, preempt)
}

/// A35: whether the minimum duration of the preempt is longer than its maximum presence, which has a limit.
pub(crate) fn lasts_too_long(plan: &Plan, preempt: Preempt) -> bool
    ensures { result ≡ lasts_too_long (plan_of plan.now) preempt }
{
    has_dwell(plan, preempt)
        && plan.preempt_maximum_presence(preempt) > 0
        && plan.preempt_maximum_presence(preempt) < plan.minimum_duration(preempt)
}

/// Whether the preempt ends the pedestrians of the phase: it is no track phase where there are some, or no dwell phase.
fn ends_pedestrians(plan: &Plan, preempt: Preempt, phase: Phase) -> bool
    ensures { result ≡ ends_pedestrians (plan_of plan.now) preempt phase }
{
    has_dwell(plan, preempt)
        && serves_pedestrians(plan, phase)
        && (has_track(plan, preempt) && !plan.track_phases(preempt).contains(phase)
            || !plan.dwell_phases(preempt).contains(phase))
}

/// A36: whether the preempt ends a walk of the phase at once.
pub(crate) fn cuts_walk(plan: &Plan, preempt: Preempt, phase: Phase) -> bool
    ensures { result ≡ cuts_walk (plan_of plan.now) preempt phase }
{
    ends_pedestrians(plan, preempt, phase) && plan.preempt_minimum_walk(preempt) == 0
}

/// A37: whether the preempt takes the whole pedestrian clearance of the phase away.
pub(crate) fn cuts_clearance(plan: &Plan, preempt: Preempt, phase: Phase) -> bool
    ensures { result ≡ cuts_clearance (plan_of plan.now) preempt phase }
{
    ends_pedestrians(plan, preempt, phase)
        && plan.pedestrian_clear(phase) > 0
        && plan.enter_pedestrian_clear(preempt) == 0
}

/// Whether the preempt has times.
fn has_preempt_times(plan: &Plan, preempt: Preempt) -> bool
    ensures { result ≡ has_preempt_times (plan_of plan.now) preempt }
{
    plan.preempt_delay(preempt) > 0
        || plan.minimum_duration(preempt) > 0
        || plan.preempt_maximum_presence(preempt) > 0
        || plan.preempt_minimum_green(preempt) > 0
        || plan.preempt_minimum_walk(preempt) > 0
        || plan.enter_pedestrian_clear(preempt) > 0
        || plan.track_green(preempt) > 0
}

/// A38: whether the preempt has times and no dwell phase.
pub(crate) fn is_never_served(plan: &Plan, preempt: Preempt) -> bool
    ensures { result ≡ is_never_served (plan_of plan.now) preempt }
{
    !has_dwell(plan, preempt) && has_preempt_times(plan, preempt)
}

/// A50: whether the preempt has no track phase and no maximum presence, so that an input that stays on holds it without
/// end.
pub(crate) fn is_held_by_input(plan: &Plan, preempt: Preempt) -> bool
    ensures { result ≡ is_held_by_input (plan_of plan.now) preempt }
{
    has_dwell(plan, preempt)
        && !has_track(plan, preempt)
        && plan.preempt_maximum_presence(preempt) == 0
}

/// Whether `other` is a dwell phase of the preempt, and concurrent with the phase.
pub(crate) fn dwells_beside(plan: &Plan, preempt: Preempt, phase: Phase, other: Phase) -> bool
    ensures { result ≡ dwells_beside (plan_of plan.now) preempt phase other }
{
    plan.dwell_phases(preempt).contains(other) && plan.concurrency(phase).contains(other)
}

/// A51: whether the phase is a dwell phase of the preempt, and goes with phases of the other ring, of which none is one.
pub(crate) fn dwells_alone(plan: &Plan, preempt: Preempt, phase: Phase) -> bool
    ensures { result ≡ dwells_alone (plan_of plan.now) preempt phase }
{
    plan.dwell_phases(preempt).contains(phase)
        && some_phase(plan, SoughtPhase::Concurrent(phase))
        && !some_phase(plan, SoughtPhase::DwellBeside(preempt, phase))
}
