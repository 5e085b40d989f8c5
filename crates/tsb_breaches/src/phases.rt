//! What of single phases, and of their concurrency lists, breaks a rule: K1 to K5, K8 to K11 and K22.
#![tactic(auto, unfolding(tsb_plan::specs::PlanOf::plan_of))]

ghost use Rattle.std.specs.Prelude.{◌≡◌};
ghost use Rattle.tsb_plan.specs.Objects.{indices};
ghost use Rattle.tsb_plan.specs.PlanOf.{plan_of};
ghost use Rattle.tsb_rules.specs.Rules.{has_walk, some_enabled};
ghost use Rattle.tsb_breaches.specs.Phases.{has_no_phase, has_no_ring, has_no_side, keeps_list, goes_with, names_unused, names_same_ring, names_other_side, is_not_named_back, has_short_yellow, has_long_gap, is_under_minimum, recalls_no_walk, has_low_limit};

use tsb_plan::{Object, Plan};
use tsb_types::Phase;

/// The least yellow, in tenths of a second.
const LEAST_YELLOW: u32 = 30;

/// Whether some phase is enabled.
fn some_enabled(plan: &Plan) -> bool
    ensures { result ≡ some_enabled (plan_of plan.now) }
{
    Phase::all().iter().any(|phase| plan.is_enabled(*phase))
}

/// Whether no phase is enabled.
pub(crate) fn has_no_phase(plan: &Plan) -> bool
    ensures { result ≡ has_no_phase (plan_of plan.now) }
{
    !some_enabled(plan)
}

/// Whether the phase is enabled, and its ring is neither 1 nor 2.
pub(crate) fn has_no_ring(plan: &Plan, phase: Phase) -> bool
    ensures { result ≡ has_no_ring (plan_of plan.now) phase }
{
    let ring = plan.ring(phase);
    plan.is_enabled(phase) && !(ring == 1 || ring == 2)
}

/// Whether the phase is enabled, and is on none of the sides.
pub(crate) fn has_no_side(plan: &Plan, phase: Phase) -> bool
    ensures { result ≡ has_no_side (plan_of plan.now) phase }
{
    let side = plan.side(phase);
    plan.is_enabled(phase) && !(1 <= side && side <= 4)
}

/// Whether the phase is not enabled, and its concurrency list is not empty.
pub(crate) fn keeps_list(plan: &Plan, phase: Phase) -> bool
    ensures { result ≡ keeps_list (plan_of plan.now) phase }
{
    !plan.is_enabled(phase) && plan.at(Object::PhaseConcurrency, u32::from(phase.number())) != 0
}

/// Whether the phase is enabled, and its concurrency list names the other.
fn goes_with(plan: &Plan, phase: Phase, other: Phase) -> bool
    ensures { result ≡ goes_with (plan_of plan.now) phase other }
{
    plan.is_enabled(phase) && plan.concurrency(phase).contains(other)
}

/// Whether the concurrency list of the phase names the other, which is not enabled.
pub(crate) fn names_unused(plan: &Plan, phase: Phase, other: Phase) -> bool
    ensures { result ≡ names_unused (plan_of plan.now) phase other }
{
    goes_with(plan, phase, other) && !plan.is_enabled(other)
}

/// Whether it names the other, which is enabled and of the same ring.
pub(crate) fn names_same_ring(plan: &Plan, phase: Phase, other: Phase) -> bool
    ensures { result ≡ names_same_ring (plan_of plan.now) phase other }
{
    goes_with(plan, phase, other) && plan.is_enabled(other) && plan.ring(phase) == plan.ring(other)
}

/// Whether it names the other, which is enabled, of another ring and on another side.
pub(crate) fn names_other_side(plan: &Plan, phase: Phase, other: Phase) -> bool
    ensures { result ≡ names_other_side (plan_of plan.now) phase other }
{
    goes_with(plan, phase, other)
        && plan.is_enabled(other)
        && plan.ring(phase) != plan.ring(other)
        && plan.side(phase) != plan.side(other)
}

/// Whether the concurrency list of the phase names the other, whose list does not name it.
pub(crate) fn is_not_named_back(plan: &Plan, phase: Phase, other: Phase) -> bool
    ensures { result ≡ is_not_named_back (plan_of plan.now) phase other }
{
    plan.concurrency(phase).contains(other) && !plan.concurrency(other).contains(phase)
}

/// Whether the yellow of the phase is under 3 seconds.
pub(crate) fn has_short_yellow(plan: &Plan, phase: Phase) -> bool
    ensures { result ≡ has_short_yellow (plan_of plan.now) phase }
{
    plan.is_enabled(phase) && plan.yellow_change(phase) < LEAST_YELLOW
}

/// Whether the minimum gap of the phase is over its passage.
pub(crate) fn has_long_gap(plan: &Plan, phase: Phase) -> bool
    ensures { result ≡ has_long_gap (plan_of plan.now) phase }
{
    plan.is_enabled(phase) && plan.passage(phase) < plan.minimum_gap(phase)
}

/// Whether the maximum that the object gives the phase is under its minimum green.
pub(crate) fn is_under_minimum(plan: &Plan, object: Object, phase: Phase) -> bool
    requires { indices object ≡ 16 }
    ensures { result ≡ is_under_minimum (plan_of plan.now) object phase }
{
    let index = u32::from(phase.number());
    plan.is_enabled(phase) && plan.at(object, index) < plan.at(Object::PhaseMinimumGreen, index)
}

/// Whether the phase has a walk.
pub(crate) fn has_walk(plan: &Plan, phase: Phase) -> bool
    ensures { result ≡ has_walk (plan_of plan.now) phase }
{
    plan.walk(phase) > 0
}

/// Whether the phase has a pedestrian recall and no walk.
pub(crate) fn recalls_no_walk(plan: &Plan, phase: Phase) -> bool
    ensures { result ≡ recalls_no_walk (plan_of plan.now) phase }
{
    plan.is_enabled(phase) && plan.has_pedestrian_recall(phase) && !has_walk(plan, phase)
}

/// Whether the dynamic maximum limit of the phase is not 0, and under its minimum green.
pub(crate) fn has_low_limit(plan: &Plan, phase: Phase) -> bool
    ensures { result ≡ has_low_limit (plan_of plan.now) phase }
{
    let limit = plan.dynamic_maximum_limit(phase);
    plan.is_enabled(phase) && limit != 0 && limit < plan.minimum_green(phase)
}
