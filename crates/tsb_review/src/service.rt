//! Advices on what is served: A1 to A7, and A55.
#![tactic(auto, unfolding(tsb_plan::specs::PlanOf::plan_of))]

ghost use Rattle.std.specs.Prelude.{◌≡◌, ◌||◌, not, Some};
ghost use Rattle.std.specs.List.{list_all, list_any};
ghost use Rattle.tsb_types.specs.Lists.{run_from};
ghost use Rattle.tsb_plan.specs.Parts.{is_used};
ghost use Rattle.tsb_plan.specs.Plan.{phases, has_maximum_recall};
ghost use Rattle.tsb_plan.specs.PlanOf.{plan_of};
ghost use Rattle.tsb_plan.specs.Running.{is_omitted_now};
ghost use Rattle.tsb_review.specs.Service.{is_never_called, has_settings, is_set_for_nothing, is_kept_apart, can_wait_for, is_served_apart, apart_from, may_lose_coordination, is_in_ring, has_fixed_times, has_two_recalls, is_always_called, is_rival, has_rival, rivalled, rival_of, never_recalls_softly, is_always_omitted, is_shut_out};

use crate::calls::{conflicts, has_call, has_soft_recall, is_recalled, is_recalled_by_pattern};
use crate::sought::{SoughtPhase, first_phase, some_phase};
use tsb_plan::Plan;
use tsb_types::{Detector, Pattern, Phase, Ring};

/// A1: whether the phase is enabled, and no detector, button, recall or split mode ever calls it.
pub(crate) fn is_never_called(plan: &Plan, phase: Phase) -> bool
    ensures { result ≡ is_never_called (plan_of plan.now) phase }
{
    plan.is_enabled(phase) && !(has_call(plan, phase) || is_recalled_by_pattern(plan, phase))
}

/// Whether the vehicle detector has a delay, an extension or a diagnosis.
fn has_settings(plan: &Plan, detector: Detector) -> bool
    ensures { result ≡ has_settings (plan_of plan.now) detector }
{
    plan.detector_delay(detector) > 0
        || plan.detector_extend(detector) > 0
        || plan.no_activity(detector) > 0
        || plan.maximum_presence(detector) > 0
        || plan.erratic_counts(detector) > 0
        || plan.fail_time(detector) > 0
}

/// A2: whether the vehicle detector calls no phase, and has settings.
pub(crate) fn is_set_for_nothing(plan: &Plan, detector: Detector) -> bool
    ensures { result ≡ is_set_for_nothing (plan_of plan.now) detector }
{
    plan.call_phase(detector).is_none() && has_settings(plan, detector)
}

/// Whether `other` is an enabled phase of the side of the phase and of the other ring, and not concurrent with it.
fn is_kept_apart(plan: &Plan, phase: Phase, other: Phase) -> bool
    ensures { result ≡ is_kept_apart (plan_of plan.now) phase other }
{
    plan.is_enabled(other)
        && plan.side(phase) == plan.side(other)
        && plan.ring(phase) != plan.ring(other)
        && !plan.concurrency(phase).contains(other)
}

/// A3: whether the two, the lower number first, are enabled phases of one side and of two rings that are not concurrent.
pub(crate) fn can_wait_for(plan: &Plan, phase: Phase, other: Phase) -> bool
    ensures { result ≡ can_wait_for (plan_of plan.now) phase other }
{
    phase.number() < other.number() && plan.is_enabled(phase) && is_kept_apart(plan, phase, other)
}

/// Whether `other` is kept apart from the phase, and the pattern does not omit it.
pub(crate) fn is_served_apart(plan: &Plan, pattern: Pattern, phase: Phase, other: Phase) -> bool
    ensures { result ≡ is_served_apart (plan_of plan.now) pattern phase other }
{
    is_kept_apart(plan, phase, other) && !plan.is_omitted_now(Some(pattern), other)
}

/// The first phase that the pattern serves apart from the phase.
pub(crate) fn apart_from(plan: &Plan, pattern: Pattern, phase: Phase) -> Option<Phase>
    ensures { result ≡ apart_from (plan_of plan.now) pattern phase }
{
    first_phase(plan, SoughtPhase::ServedApart(pattern, phase))
}

/// A4: whether the phase is a coordinated one of the used pattern, which serves a phase of its side apart from it.
pub(crate) fn may_lose_coordination(plan: &Plan, pattern: Pattern, phase: Phase) -> bool
    ensures { result ≡ may_lose_coordination (plan_of plan.now) pattern phase }
{
    plan.is_used(pattern)
        && plan.is_enabled(phase)
        && plan.is_coordinated_now(Some(pattern), phase)
        && apart_from(plan, pattern, phase).is_some()
}

/// Whether the phase is an enabled one of the ring.
pub(crate) fn is_in_ring(plan: &Plan, ring: Ring, phase: Phase) -> bool
    ensures { result ≡ is_in_ring (plan_of plan.now) ring phase }
{
    plan.is_enabled(phase) && plan.ring(phase) == u32::from(ring.number())
}

/// A5: whether the ring has phases, and all have maximum recall.
pub(crate) fn has_fixed_times(plan: &Plan, ring: Ring) -> bool
    ensures { result ≡ has_fixed_times (plan_of plan.now) ring }
{
    some_phase(plan, SoughtPhase::InRing(ring)) && all_have_maximum_recall(plan, ring)
}

/// Whether all phases of the ring have maximum recall.
fn all_have_maximum_recall(plan: &Plan, ring: Ring) -> bool
    ensures { result ≡ list_all (λ p. not (is_in_ring (plan_of plan.now) ring p) || has_maximum_recall (plan_of plan.now) p) (phases (plan_of plan.now)) }
{
    Phase::all().iter().all(|phase| !is_in_ring(plan, ring, *phase)
        || plan.has_maximum_recall(*phase))
}

/// A6: whether the phase has a soft recall, and another recall.
pub(crate) fn has_two_recalls(plan: &Plan, phase: Phase) -> bool
    ensures { result ≡ has_two_recalls (plan_of plan.now) phase }
{
    plan.is_enabled(phase) && has_soft_recall(plan, phase) && is_recalled(plan, phase)
}

/// Whether the phase is enabled, and called at all times in free operation.
fn is_always_called(plan: &Plan, phase: Phase) -> bool
    ensures { result ≡ is_always_called (plan_of plan.now) phase }
{
    plan.is_enabled(phase) && is_recalled(plan, phase)
}

/// Whether `other` conflicts with the phase, and is called at all times in free operation.
pub(crate) fn is_rival(plan: &Plan, phase: Phase, other: Phase) -> bool
    ensures { result ≡ is_rival (plan_of plan.now) phase other }
{
    conflicts(plan, phase, other) && is_recalled(plan, other)
}

/// Whether the phase is called at all times, and so is one that conflicts with it.
fn has_rival(plan: &Plan, phase: Phase) -> bool
    ensures { result ≡ has_rival (plan_of plan.now) phase }
{
    is_always_called(plan, phase) && some_phase(plan, SoughtPhase::Rival(phase))
}

/// The first phase that has a rival.
pub(crate) fn rivalled(plan: &Plan) -> Option<Phase>
    ensures { result ≡ rivalled (plan_of plan.now) }
{
    Phase::all()
        .iter()
        .copied()
        .find(|phase| has_rival(plan, *phase))
}

/// The first rival of a phase.
pub(crate) fn rival_of(plan: &Plan, phase: Option<Phase>) -> Option<Phase>
    ensures { result ≡ rival_of (plan_of plan.now) phase }
{
    match phase {
        None => None,
        Some(phase) => first_phase(plan, SoughtPhase::Rival(phase)),
    }
}

/// A7: whether the phase has a soft recall and no other, and some phase always waits by its recall.
pub(crate) fn never_recalls_softly(plan: &Plan, phase: Phase) -> bool
    ensures { result ≡ never_recalls_softly (plan_of plan.now) phase }
{
    plan.is_enabled(phase)
        && has_soft_recall(plan, phase)
        && !is_recalled(plan, phase)
        && rivalled(plan).is_some()
}

/// Whether each used pattern omits the phase.
fn all_omit(plan: &Plan, phase: Phase) -> bool
    ensures { result ≡ list_all (λ n. not (is_used (plan_of plan.now) n) || is_omitted_now (plan_of plan.now) (Some n) phase) (run_from 1 16) }
{
    Pattern::all().iter().all(|pattern| !plan.is_used(*pattern)
        || plan.is_omitted_now(Some(*pattern), phase))
}

/// Whether there are used patterns.
fn uses_patterns(plan: &Plan) -> bool
    ensures { result ≡ list_any (is_used (plan_of plan.now)) (run_from 1 16) }
{
    Pattern::all().iter().any(|pattern| plan.is_used(*pattern))
}

/// Whether there are used patterns, and each of them omits the phase.
fn is_always_omitted(plan: &Plan, phase: Phase) -> bool
    ensures { result ≡ is_always_omitted (plan_of plan.now) phase }
{
    uses_patterns(plan) && all_omit(plan, phase)
}

/// A55: whether the phase has a call of its own, and each used pattern omits it.
pub(crate) fn is_shut_out(plan: &Plan, phase: Phase) -> bool
    ensures { result ≡ is_shut_out (plan_of plan.now) phase }
{
    plan.is_enabled(phase) && has_call(plan, phase) && is_always_omitted(plan, phase)
}
