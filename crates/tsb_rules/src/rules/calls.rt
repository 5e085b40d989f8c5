//! Rules K11, K12 and K13: what calls phases.
#![tactic(auto, unfolding(tsb_plan::specs::PlanOf::plan_of))]

ghost use Rattle.std.specs.Prelude.{◌≡◌, ◌||◌, not};
ghost use Rattle.tsb_plan.specs.Parts.{call_phase, pedestrian_call_phase};
ghost use Rattle.tsb_plan.specs.Plan.{has_pedestrian_recall, is_enabled};
ghost use Rattle.tsb_plan.specs.PlanOf.{plan_of};
ghost use Rattle.tsb_rules.specs.Rules.{detectors_call_phases, pedestrian_detectors_call_walks, has_walk, serves_pedestrians, none_or};

use tsb_plan::Plan;
use tsb_types::{Detector, PedestrianDetector, Phase};

/// K11: the phase has no pedestrian recall, or it has a walk.
pub(super) fn walks_where_recalled(plan: &Plan, phase: Phase) -> bool
    ensures { result ≡ (not (has_pedestrian_recall (plan_of plan.now) phase) || has_walk (plan_of plan.now) phase) }
{
    !plan.has_pedestrian_recall(phase) || has_walk(plan, phase)
}

fn has_walk(plan: &Plan, phase: Phase) -> bool
    ensures { result ≡ has_walk (plan_of plan.now) phase }
{
    plan.walk(phase) > 0
}

/// K12: each vehicle detector calls none or an enabled phase.
pub(super) fn detectors_call_phases(plan: &Plan) -> bool
    ensures { result ≡ detectors_call_phases (plan_of plan.now) }
{
    Detector::all()
        .iter()
        .all(|detector| calls_phase(plan, *detector))
}

/// Whether the vehicle detector calls none or an enabled phase.
fn calls_phase(plan: &Plan, detector: Detector) -> bool
    ensures { result ≡ none_or (is_enabled (plan_of plan.now)) (call_phase (plan_of plan.now) detector) }
{
    match plan.call_phase(detector) {
        Some(phase) => plan.is_enabled(phase),
        None => true,
    }
}

/// K13: each pedestrian detector calls none or an enabled phase with a walk.
pub(super) fn pedestrian_detectors_call_walks(plan: &Plan) -> bool
    ensures { result ≡ pedestrian_detectors_call_walks (plan_of plan.now) }
{
    PedestrianDetector::all()
        .iter()
        .all(|detector| calls_walk(plan, *detector))
}

/// Whether the pedestrian detector calls none or an enabled phase with a walk.
fn calls_walk(plan: &Plan, detector: PedestrianDetector) -> bool
    ensures { result ≡ none_or (serves_pedestrians (plan_of plan.now)) (pedestrian_call_phase (plan_of plan.now) detector) }
{
    match plan.pedestrian_call_phase(detector) {
        Some(phase) => serves_pedestrians(plan, phase),
        None => true,
    }
}

fn serves_pedestrians(plan: &Plan, phase: Phase) -> bool
    ensures { result ≡ serves_pedestrians (plan_of plan.now) phase }
{
    plan.is_enabled(phase) && has_walk(plan, phase)
}
