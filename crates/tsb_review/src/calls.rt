//! What calls a phase, and which phases conflict with it, as a plan says it for all runs.
#![tactic(auto, unfolding(tsb_plan::specs::PlanOf::plan_of))]

ghost use Rattle.std.specs.Prelude.{◌≡◌, Some, None};
ghost use Rattle.tsb_types.specs.Lists.{is};
ghost use Rattle.tsb_plan.specs.Parts.{call_phase, pedestrian_call_phase};
ghost use Rattle.tsb_plan.specs.Plan.{has_soft_recall};
ghost use Rattle.tsb_plan.specs.PlanOf.{plan_of};
ghost use Rattle.tsb_rules.specs.Rules.{has_walk, serves_pedestrians};
ghost use Rattle.tsb_review.specs.Calls.{has_detector, has_button, is_recalled, has_recall, has_call, is_recalled_by_pattern, recalls_pedestrians_in_pattern, conflicts, has_conflicts, is_for_pedestrians};

use crate::sought::{SoughtPhase, some_phase};
use tsb_plan::{Object, Plan};
use tsb_types::{Detector, Pattern, PedestrianDetector, Phase};

/// Whether the vehicle detector calls the phase.
pub(crate) fn detector_calls(plan: &Plan, detector: Detector, phase: Phase) -> bool
    ensures { result ≡ is phase (call_phase (plan_of plan.now) detector) }
{
    match plan.call_phase(detector) {
        Some(called) => called == phase,
        None => false,
    }
}

/// Whether some vehicle detector calls the phase.
pub(crate) fn has_detector(plan: &Plan, phase: Phase) -> bool
    ensures { result ≡ has_detector (plan_of plan.now) phase }
{
    Detector::all()
        .iter()
        .any(|detector| detector_calls(plan, *detector, phase))
}

/// Whether the button calls the walk of the phase.
fn button_calls(plan: &Plan, button: PedestrianDetector, phase: Phase) -> bool
    ensures { result ≡ is phase (pedestrian_call_phase (plan_of plan.now) button) }
{
    match plan.pedestrian_call_phase(button) {
        Some(called) => called == phase,
        None => false,
    }
}

/// Whether some button calls the walk of the phase.
pub(crate) fn has_button(plan: &Plan, phase: Phase) -> bool
    ensures { result ≡ has_button (plan_of plan.now) phase }
{
    PedestrianDetector::all()
        .iter()
        .any(|button| button_calls(plan, *button, phase))
}

/// Whether the phase is called at all times in free operation, by a recall of its own for vehicles or pedestrians.
pub(crate) fn is_recalled(plan: &Plan, phase: Phase) -> bool
    ensures { result ≡ is_recalled (plan_of plan.now) None phase }
{
    plan.is_on_minimum_recall(None, phase)
        || plan.is_on_maximum_recall(None, phase)
        || plan.is_on_pedestrian_recall(None, phase)
}

/// Whether the phase has soft recall (`phaseSoftRecall`).
pub(crate) fn has_soft_recall(plan: &Plan, phase: Phase) -> bool
    ensures { result ≡ has_soft_recall (plan_of plan.now) phase }
{
    plan.at(Object::PhaseSoftRecall, u32::from(phase.number())) == 1
}

/// Whether the phase has a recall of its own in free operation: for vehicles, for pedestrians, or soft.
pub(crate) fn has_recall(plan: &Plan, phase: Phase) -> bool
    ensures { result ≡ has_recall (plan_of plan.now) phase }
{
    is_recalled(plan, phase) || has_soft_recall(plan, phase)
}

/// Whether the phase has a call of its own: of a detector, a button or a recall.
pub(crate) fn has_call(plan: &Plan, phase: Phase) -> bool
    ensures { result ≡ has_call (plan_of plan.now) phase }
{
    has_detector(plan, phase) || has_button(plan, phase) || has_recall(plan, phase)
}

/// Whether the phase is called at all times while the pattern runs: by a recall of its own or of its split mode, for
/// vehicles or pedestrians, or as a coordinated phase.
pub(crate) fn is_recalled_in(plan: &Plan, pattern: Pattern, phase: Phase) -> bool
    ensures { result ≡ is_recalled (plan_of plan.now) (Some pattern) phase }
{
    plan.is_on_minimum_recall(Some(pattern), phase)
        || plan.is_on_maximum_recall(Some(pattern), phase)
        || plan.is_on_pedestrian_recall(Some(pattern), phase)
}

/// Whether some used pattern recalls the phase.
pub(crate) fn is_recalled_by_pattern(plan: &Plan, phase: Phase) -> bool
    ensures { result ≡ is_recalled_by_pattern (plan_of plan.now) phase }
{
    Pattern::all().iter().any(|pattern| {
        plan.is_used(*pattern) && is_recalled_in(plan, *pattern, phase)
    })
}

/// Whether some used pattern recalls the pedestrians of the phase.
pub(crate) fn recalls_pedestrians_in_pattern(plan: &Plan, phase: Phase) -> bool
    ensures { result ≡ recalls_pedestrians_in_pattern (plan_of plan.now) phase }
{
    Pattern::all().iter().any(|pattern| {
        plan.is_used(*pattern) && plan.is_on_pedestrian_recall(Some(*pattern), phase)
    })
}

/// Whether `other` is another enabled phase, which may not be in service together with the phase.
pub(crate) fn conflicts(plan: &Plan, phase: Phase, other: Phase) -> bool
    ensures { result ≡ conflicts (plan_of plan.now) phase other }
{
    plan.is_enabled(other) && other != phase && !plan.concurrency(phase).contains(other)
}

/// Whether some phase conflicts with the phase.
pub(crate) fn has_conflicts(plan: &Plan, phase: Phase) -> bool
    ensures { result ≡ has_conflicts (plan_of plan.now) phase }
{
    some_phase(plan, SoughtPhase::InConflict(phase))
}

/// Whether the phase has a walk.
pub(crate) fn has_walk(plan: &Plan, phase: Phase) -> bool
    ensures { result ≡ has_walk (plan_of plan.now) phase }
{
    plan.walk(phase) > 0
}

/// Whether the phase is enabled and has a walk.
pub(crate) fn serves_pedestrians(plan: &Plan, phase: Phase) -> bool
    ensures { result ≡ serves_pedestrians (plan_of plan.now) phase }
{
    plan.is_enabled(phase) && has_walk(plan, phase)
}

/// Whether the phase is for pedestrians alone: it has a walk, no vehicle detector and no minimum green.
pub(crate) fn is_for_pedestrians(plan: &Plan, phase: Phase) -> bool
    ensures { result ≡ is_for_pedestrians (plan_of plan.now) phase }
{
    has_walk(plan, phase) && !has_detector(plan, phase) && plan.minimum_green(phase) == 0
}
