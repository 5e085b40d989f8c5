//! Advices on pedestrians: A8 to A14. Times are in tenths of a second.
#![tactic(auto, unfolding(tsb_plan::specs::PlanOf::plan_of))]

ghost use Rattle.std.specs.Prelude.{◌≡◌, ◌≤◌};
ghost use Rattle.tsb_plan.specs.PlanOf.{plan_of};
ghost use Rattle.tsb_review.specs.Splits.{passed_by};
ghost use Rattle.tsb_review.specs.Pedestrians.{has_no_clearance, has_short_walk, has_no_walk, has_idle_walk, pedestrian_time, overruns_split, overruns_maximum, rests_coordinated, rest_end, rests_too_long};

use crate::calls::{
    has_button, has_detector, has_walk, recalls_pedestrians_in_pattern, serves_pedestrians,
};
use crate::splits::{green_of_split, passed_by};
use tsb_plan::Plan;
use tsb_types::{Pattern, Phase};

/// The shortest walk that people see in time.
const SHORTEST_WALK: u32 = 40;

/// A8: whether the phase has a walk without a pedestrian clearance.
pub(crate) fn has_no_clearance(plan: &Plan, phase: Phase) -> bool
    ensures { result ≡ has_no_clearance (plan_of plan.now) phase }
{
    serves_pedestrians(plan, phase) && plan.pedestrian_clear(phase) == 0
}

/// A9: whether the walk of the phase is under 4 seconds.
pub(crate) fn has_short_walk(plan: &Plan, phase: Phase) -> bool
    ensures { result ≡ has_short_walk (plan_of plan.now) phase }
{
    serves_pedestrians(plan, phase) && plan.walk(phase) < SHORTEST_WALK
}

/// A10: whether the phase has a pedestrian clearance without a walk.
pub(crate) fn has_no_walk(plan: &Plan, phase: Phase) -> bool
    ensures { result ≡ has_no_walk (plan_of plan.now) phase }
{
    plan.is_enabled(phase) && !has_walk(plan, phase) && plan.pedestrian_clear(phase) > 0
}

/// A11: whether the phase has a walk that no button and no pedestrian recall ever calls.
pub(crate) fn has_idle_walk(plan: &Plan, phase: Phase) -> bool
    ensures { result ≡ has_idle_walk (plan_of plan.now) phase }
{
    serves_pedestrians(plan, phase)
        && !(has_button(plan, phase)
            || plan.has_pedestrian_recall(phase)
            || recalls_pedestrians_in_pattern(plan, phase))
}

/// Walk and clearance of the phase.
pub(crate) fn pedestrian_time(plan: &Plan, phase: Phase) -> u32
    ensures { result ≡ pedestrian_time (plan_of plan.now) phase }
{
    plan.walk(phase) + plan.pedestrian_clear(phase)
}

/// A12: whether walk and clearance of the phase are longer than the green that its split leaves in the used pattern.
pub(crate) fn overruns_split(plan: &Plan, pattern: Pattern, phase: Phase) -> bool
    ensures { result ≡ overruns_split (plan_of plan.now) pattern phase }
{
    plan.is_used(pattern)
        && serves_pedestrians(plan, phase)
        && !plan.is_omitted_now(Some(pattern), phase)
        && green_of_split(plan, pattern, phase) < pedestrian_time(plan, phase)
}

/// A13: whether walk and clearance of the phase, which has a vehicle detector, are longer than its maximum.
pub(crate) fn overruns_maximum(plan: &Plan, phase: Phase) -> bool
    ensures { result ≡ overruns_maximum (plan_of plan.now) phase }
{
    serves_pedestrians(plan, phase)
        && has_detector(plan, phase)
        && plan.maximum(phase) < pedestrian_time(plan, phase)
}

/// Whether the phase is a coordinated one of the used pattern that rests in walk.
fn rests_coordinated(plan: &Plan, pattern: Pattern, phase: Phase) -> bool
    ensures { result ≡ rests_coordinated (plan_of plan.now) pattern phase }
{
    plan.is_used(pattern)
        && serves_pedestrians(plan, phase)
        && plan.rests_in_walk(phase)
        && plan.is_coordinated_now(Some(pattern), phase)
}

/// How long after the end of the split of the phase, which rests in walk, its red clearance is over, where a conflict
/// begins at the end of its permissive time in the pattern.
fn rest_end(plan: &Plan, pattern: Pattern, phase: Phase) -> u32
    ensures { result ≡ rest_end (plan_of plan.now) pattern phase }
{
    plan.permissive_time(pattern) + plan.pedestrian_clear(phase)
}

/// The first phase that then begins at its force-off instant or after it, and that demand holds until the next cycle.
pub(crate) fn passed_by_rest(plan: &Plan, pattern: Pattern, phase: Phase) -> Option<Phase>
    ensures { result ≡ passed_by (plan_of plan.now) pattern phase (rest_end (plan_of plan.now) pattern phase) }
{
    passed_by(plan, pattern, phase, rest_end(plan, pattern, phase))
}

/// A14: whether a coordinated phase rests in walk, and its clearance can be over after the force-off instant of a phase
/// that waits, which demand then holds until the next cycle.
pub(crate) fn rests_too_long(plan: &Plan, pattern: Pattern, phase: Phase) -> bool
    ensures { result ≡ rests_too_long (plan_of plan.now) pattern phase }
{
    rests_coordinated(plan, pattern, phase) && passed_by_rest(plan, pattern, phase).is_some()
}
