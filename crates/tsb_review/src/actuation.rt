//! Advices on actuation: A17 to A26, and A58. Times are in tenths of a second.
#![tactic(auto, unfolding(tsb_plan::specs::PlanOf::plan_of))]

ghost use Rattle.std.specs.Prelude.{◌≡◌, ◌||◌, not, nat_lt};
ghost use Rattle.std.specs.List.{list_all};
ghost use Rattle.tsb_plan.specs.Parts.{call_phase, detector_delay};
ghost use Rattle.tsb_plan.specs.Plan.{phases, has_maximum_recall, maximum};
ghost use Rattle.tsb_plan.specs.PlanOf.{plan_of};
ghost use Rattle.tsb_review.specs.Calls.{conflicts};
ghost use Rattle.tsb_review.specs.Actuation.{has_extension, is_unextended, ends_at_any_gap, has_short_passage, reduces_at_once, has_gap_trap, has_reduction, reduces_nothing, reduces_too_late, longest_initial, has_idle_initial, adds_without_variable, has_limit_alone, has_step_alone, waits_longer, phase_and, delays_too_long, extends_for_nothing};

use crate::calls::{conflicts, detector_calls, has_conflicts, has_detector};
use tsb_plan::Plan;
use tsb_types::{Detector, Phase};

/// How many cars are counted at most.
const MOST_CARS: u32 = 255;

/// The shortest passage that is usual, where a phase has one.
const SHORTEST_PASSAGE: u32 = 10;

/// Whether some vehicle detector that calls the phase has an extension.
fn has_extension(plan: &Plan, phase: Phase) -> bool
    ensures { result ≡ has_extension (plan_of plan.now) phase }
{
    Detector::all().iter().any(|detector| {
        detector_calls(plan, *detector, phase) && plan.detector_extend(*detector) > 0
    })
}

/// Whether the phase is enabled, has vehicle detectors and no maximum recall, and no detector extends it.
fn is_unextended(plan: &Plan, phase: Phase) -> bool
    ensures { result ≡ is_unextended (plan_of plan.now) phase }
{
    plan.is_enabled(phase)
        && has_detector(plan, phase)
        && !plan.has_maximum_recall(phase)
        && !has_extension(plan, phase)
}

/// A17: whether the phase has vehicle detectors and no maximum recall, its passage is 0, and no detector extends it.
pub(crate) fn ends_at_any_gap(plan: &Plan, phase: Phase) -> bool
    ensures { result ≡ ends_at_any_gap (plan_of plan.now) phase }
{
    is_unextended(plan, phase) && plan.passage(phase) == 0
}

/// A58: whether the passage of such a phase is over 0 and under 1 second, as a number of seconds is that is taken for
/// tenths.
pub(crate) fn has_short_passage(plan: &Plan, phase: Phase) -> bool
    ensures { result ≡ has_short_passage (plan_of plan.now) phase }
{
    is_unextended(plan, phase) && plan.passage(phase) > 0 && plan.passage(phase) < SHORTEST_PASSAGE
}

/// Whether the times of gap reduction of the phase are 0.
fn reduces_at_once(plan: &Plan, phase: Phase) -> bool
    ensures { result ≡ reduces_at_once (plan_of plan.now) phase }
{
    plan.time_before_reduction(phase) == 0 && plan.time_to_reduce(phase) == 0
}

/// A18: whether the minimum gap of the phase is below its passage, and its gap is the minimum gap at once.
pub(crate) fn has_gap_trap(plan: &Plan, phase: Phase) -> bool
    ensures { result ≡ has_gap_trap (plan_of plan.now) phase }
{
    plan.is_enabled(phase)
        && plan.minimum_gap(phase) < plan.passage(phase)
        && reduces_at_once(plan, phase)
}

/// Whether the phase has times or cars of gap reduction.
fn has_reduction(plan: &Plan, phase: Phase) -> bool
    ensures { result ≡ has_reduction (plan_of plan.now) phase }
{
    !reduces_at_once(plan, phase) || plan.cars_before_reduction(phase) > 0
}

/// A19: whether the phase has times or cars of gap reduction, and its minimum gap is its passage.
pub(crate) fn reduces_nothing(plan: &Plan, phase: Phase) -> bool
    ensures { result ≡ reduces_nothing (plan_of plan.now) phase }
{
    plan.is_enabled(phase)
        && plan.minimum_gap(phase) == plan.passage(phase)
        && has_reduction(plan, phase)
}

/// A20: whether the gap of the phase would be reduced, by no number of cars, and not before its maximum is over.
pub(crate) fn reduces_too_late(plan: &Plan, phase: Phase) -> bool
    ensures { result ≡ reduces_too_late (plan_of plan.now) phase }
{
    plan.is_enabled(phase)
        && plan.minimum_gap(phase) < plan.passage(phase)
        && plan.cars_before_reduction(phase) == 0
        && plan.time_before_reduction(phase) > 0
        && plan.maximum(phase) <= plan.time_before_reduction(phase)
}

/// The longest initial that any number of cars brings the phase to.
fn longest_initial(plan: &Plan, phase: Phase) -> u32
    ensures { result ≡ longest_initial (plan_of plan.now) phase }
{
    plan.maximum_initial(phase)
        .min(plan.added_initial(phase) * MOST_CARS)
}

/// A21: whether the phase has a variable initial, which no number of cars brings over its minimum green.
pub(crate) fn has_idle_initial(plan: &Plan, phase: Phase) -> bool
    ensures { result ≡ has_idle_initial (plan_of plan.now) phase }
{
    plan.is_enabled(phase)
        && plan.has_variable_initial(phase)
        && longest_initial(plan, phase) <= plan.minimum_green(phase)
}

/// A22: whether the phase has an added or a maximum initial, and no variable initial to use it.
pub(crate) fn adds_without_variable(plan: &Plan, phase: Phase) -> bool
    ensures { result ≡ adds_without_variable (plan_of plan.now) phase }
{
    plan.is_enabled(phase)
        && !plan.has_variable_initial(phase)
        && (plan.added_initial(phase) > 0 || plan.maximum_initial(phase) > 0)
}

/// A23: whether the phase has the limit of a dynamic maximum, and a step of 0.
pub(crate) fn has_limit_alone(plan: &Plan, phase: Phase) -> bool
    ensures { result ≡ has_limit_alone (plan_of plan.now) phase }
{
    plan.is_enabled(phase)
        && plan.dynamic_maximum_limit(phase) > 0
        && plan.dynamic_maximum_step(phase) == 0
}

/// A24: whether the phase has the step of a dynamic maximum, and a limit of 0.
pub(crate) fn has_step_alone(plan: &Plan, phase: Phase) -> bool
    ensures { result ≡ has_step_alone (plan_of plan.now) phase }
{
    plan.is_enabled(phase)
        && plan.dynamic_maximum_step(phase) > 0
        && plan.dynamic_maximum_limit(phase) == 0
}

/// Whether each phase that conflicts with the phase, of which there are some, has a maximum below this time.
fn waits_longer(plan: &Plan, time: u32, phase: Phase) -> bool
    ensures { result ≡ waits_longer (plan_of plan.now) time phase }
{
    has_conflicts(plan, phase) && all_end_sooner(plan, time, phase)
}

/// Whether each phase that conflicts with the phase has a maximum below this time.
fn all_end_sooner(plan: &Plan, time: u32, phase: Phase) -> bool
    ensures { result ≡ list_all (λ q. not (conflicts (plan_of plan.now) phase q) || nat_lt (maximum (plan_of plan.now) q) time) (phases (plan_of plan.now)) }
{
    Phase::all().iter().all(|other| !conflicts(plan, phase, *other) || plan.maximum(*other) < time)
}

/// A25: whether the delay of the vehicle detector is longer than the maximum of each phase that conflicts with the one
/// that it calls.
pub(crate) fn delays_too_long(plan: &Plan, detector: Detector) -> bool
    ensures { result ≡ delays_too_long (plan_of plan.now) detector }
{
    match plan.call_phase(detector) {
        Some(phase) => waits_longer(plan, plan.detector_delay(detector), phase),
        None => false,
    }
}

/// A26: whether the vehicle detector extends a phase with maximum recall.
pub(crate) fn extends_for_nothing(plan: &Plan, detector: Detector) -> bool
    ensures { result ≡ extends_for_nothing (plan_of plan.now) detector }
{
    plan.detector_extend(detector) > 0 && calls_maximum_recall(plan, detector)
}

/// Whether the vehicle detector calls a phase with maximum recall.
fn calls_maximum_recall(plan: &Plan, detector: Detector) -> bool
    ensures { result ≡ phase_and (has_maximum_recall (plan_of plan.now)) (call_phase (plan_of plan.now) detector) }
{
    match plan.call_phase(detector) {
        Some(phase) => plan.has_maximum_recall(phase),
        None => false,
    }
}
