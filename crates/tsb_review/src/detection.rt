//! Advices on vehicle detectors: A48, A49 and A53. Times are in tenths of a second.
#![tactic(auto, unfolding(tsb_plan::specs::PlanOf::plan_of))]

ghost use Rattle.std.specs.Prelude.{◌≡◌};
ghost use Rattle.tsb_plan.specs.Parts.{call_phase};
ghost use Rattle.tsb_plan.specs.Plan.{is_non_locking};
ghost use Rattle.tsb_plan.specs.PlanOf.{plan_of};
ghost use Rattle.tsb_review.specs.Actuation.{phase_and};
ghost use Rattle.tsb_review.specs.Detection.{has_diagnosis, has_other_detector, is_only_caller, forgets_its_phase, trips_within, tripping, cycle_of, trips_in_queue, has_prompt_detector, is_called_late, forgets_cars};

use crate::calls::{detector_calls, has_detector, has_recall};
use tsb_plan::{Object, Plan};
use tsb_types::{Detector, Pattern, Phase};

/// Whether the vehicle detector has a diagnosis: of no activity, of maximum presence or of erratic counts.
fn has_diagnosis(plan: &Plan, detector: Detector) -> bool
    ensures { result ≡ has_diagnosis (plan_of plan.now) detector }
{
    plan.no_activity(detector) > 0
        || plan.maximum_presence(detector) > 0
        || plan.erratic_counts(detector) > 0
}

/// Whether another vehicle detector calls the phase.
fn has_other_detector(plan: &Plan, detector: Detector, phase: Phase) -> bool
    ensures { result ≡ has_other_detector (plan_of plan.now) detector phase }
{
    Detector::all().iter().any(|other| *other != detector && detector_calls(plan, *other, phase))
}

/// Whether of vehicle detectors this one alone calls the phase, which has no recall of its own.
fn is_only_caller(plan: &Plan, detector: Detector, phase: Phase) -> bool
    ensures { result ≡ is_only_caller (plan_of plan.now) detector phase }
{
    !has_other_detector(plan, detector, phase) && !has_recall(plan, phase)
}

/// Whether the vehicle detector is the only one of its phase, which has no recall of its own.
fn calls_alone(plan: &Plan, detector: Detector) -> bool
    ensures { result ≡ phase_and (is_only_caller (plan_of plan.now) detector) (call_phase (plan_of plan.now) detector) }
{
    match plan.call_phase(detector) {
        Some(phase) => is_only_caller(plan, detector, phase),
        None => false,
    }
}

/// A48: whether the vehicle detector has a diagnosis and a fail time of 0, and is the only one of its phase, which has
/// no recall of its own.
pub(crate) fn forgets_its_phase(plan: &Plan, detector: Detector) -> bool
    ensures { result ≡ forgets_its_phase (plan_of plan.now) detector }
{
    has_diagnosis(plan, detector) && plan.fail_time(detector) == 0 && calls_alone(plan, detector)
}

/// Whether the vehicle detector has a maximum presence, of at most two cycles of the pattern.
fn trips_within(plan: &Plan, detector: Detector, pattern: Pattern) -> bool
    ensures { result ≡ trips_within (plan_of plan.now) detector pattern }
{
    plan.maximum_presence(detector) > 0
        && plan.maximum_presence(detector) <= 2 * plan.cycle(pattern)
}

/// The first such pattern.
pub(crate) fn tripping(plan: &Plan, detector: Detector) -> Option<Pattern>
    ensures { result ≡ tripping (plan_of plan.now) detector }
{
    Pattern::all()
        .iter()
        .copied()
        .find(|pattern| trips_within(plan, detector, *pattern))
}

/// The cycle of a pattern, 0 where there is none.
pub(crate) fn cycle_of(plan: &Plan, pattern: Option<Pattern>) -> u32
    ensures { result ≡ cycle_of (plan_of plan.now) pattern }
{
    match pattern {
        Some(pattern) => plan.cycle(pattern),
        None => 0,
    }
}

/// A49: whether the vehicle detector calls a phase, and its maximum presence is at most two cycles of a pattern.
pub(crate) fn trips_in_queue(plan: &Plan, detector: Detector) -> bool
    ensures { result ≡ trips_in_queue (plan_of plan.now) detector }
{
    plan.call_phase(detector).is_some() && tripping(plan, detector).is_some()
}

/// Whether calls of the phase are not remembered (`phaseNonLock`).
fn is_non_locking(plan: &Plan, phase: Phase) -> bool
    ensures { result ≡ is_non_locking (plan_of plan.now) phase }
{
    plan.at(Object::PhaseNonLock, u32::from(phase.number())) == 1
}

/// Whether a vehicle detector without a delay calls the phase.
fn has_prompt_detector(plan: &Plan, phase: Phase) -> bool
    ensures { result ≡ has_prompt_detector (plan_of plan.now) phase }
{
    Detector::all().iter().any(|detector| {
        detector_calls(plan, *detector, phase) && plan.detector_delay(*detector) == 0
    })
}

/// Whether the phase has vehicle detectors, each of them with a delay.
fn is_called_late(plan: &Plan, phase: Phase) -> bool
    ensures { result ≡ is_called_late (plan_of plan.now) phase }
{
    has_detector(plan, phase) && !has_prompt_detector(plan, phase)
}

/// A53: whether the phase is non-locking, each of its vehicle detectors has a delay, and it has no recall of its own, so
/// that a car that stops beyond the detectors is forgotten.
pub(crate) fn forgets_cars(plan: &Plan, phase: Phase) -> bool
    ensures { result ≡ forgets_cars (plan_of plan.now) phase }
{
    plan.is_enabled(phase)
        && is_non_locking(plan, phase)
        && is_called_late(plan, phase)
        && !has_recall(plan, phase)
}
