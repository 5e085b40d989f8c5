//! Advices on overlaps: A39 to A41, and A56.
#![tactic(auto, unfolding(tsb_plan::specs::PlanOf::plan_of))]

ghost use Rattle.std.specs.Prelude.{◌≡◌};
ghost use Rattle.std.specs.List.{list_any};
ghost use Rattle.tsb_types.specs.declared.limits.TheConstants.{OVERLAPS};
ghost use Rattle.tsb_plan.specs.Objects.{indices};
ghost use Rattle.tsb_plan.specs.Plan.{phases};
ghost use Rattle.tsb_plan.specs.PlanOf.{plan_of};
ghost use Rattle.tsb_review.specs.Actuation.{phase_and};
ghost use Rattle.tsb_review.specs.Overlaps.{is_split_from, is_split_at, split_at, split_from, is_split, modifies_itself, is_beside, is_carried_at, adds_nothing, is_third, is_paired, is_turn_beside, turn_of, is_included_beside, goes_into_turn, walks_over_turn, meets_turn, is_met};

use crate::calls::has_walk;
use crate::legs::{goes_out_by, goes_through, is_of_other_street, right_of, turns_left};
use crate::sought::{SoughtPhase, first_phase, some_phase};
use tsb_plan::{Object, Plan};
use tsb_types::{Overlap, Phase};

/// Whether the overlap includes `other`, which is of another ring than the phase and not concurrent with it.
pub(crate) fn is_split_from(plan: &Plan, overlap: Overlap, phase: Phase, other: Phase) -> bool
    ensures { result ≡ is_split_from (plan_of plan.now) overlap phase other }
{
    plan.included_phases(overlap).contains(other)
        && plan.ring(phase) != plan.ring(other)
        && !plan.concurrency(phase).contains(other)
}

/// Whether the overlap includes the phase, and one of the other ring that follows or precedes it.
fn is_split_at(plan: &Plan, overlap: Overlap, phase: Phase) -> bool
    ensures { result ≡ is_split_at (plan_of plan.now) overlap phase }
{
    plan.included_phases(overlap).contains(phase)
        && some_phase(plan, SoughtPhase::SplitFrom(overlap, phase))
}

/// The first such phase.
pub(crate) fn split_at(plan: &Plan, overlap: Overlap) -> Option<Phase>
    ensures { result ≡ split_at (plan_of plan.now) overlap }
{
    Phase::all()
        .iter()
        .copied()
        .find(|phase| is_split_at(plan, overlap, *phase))
}

/// The first phase that a phase of the overlap is split from.
pub(crate) fn split_from(plan: &Plan, overlap: Overlap, phase: Option<Phase>) -> Option<Phase>
    ensures { result ≡ split_from (plan_of plan.now) overlap phase }
{
    match phase {
        None => None,
        Some(phase) => first_phase(plan, SoughtPhase::SplitFrom(overlap, phase)),
    }
}

/// A39: whether the overlap includes phases of both rings that are not concurrent, does not go on across rings, and is no
/// arrow.
pub(crate) fn is_split(plan: &Plan, overlap: Overlap) -> bool
    ensures { result ≡ is_split (plan_of plan.now) overlap }
{
    !plan.overlaps_across_rings(overlap)
        && !plan.is_arrow(overlap)
        && split_at(plan, overlap).is_some()
}

/// A40: whether the phase is both an included and a modifier phase of the overlap.
pub(crate) fn modifies_itself(plan: &Plan, overlap: Overlap, phase: Phase) -> bool
    ensures { result ≡ modifies_itself (plan_of plan.now) overlap phase }
{
    plan.included_phases(overlap).contains(phase) && plan.modifier_phases(overlap).contains(phase)
}

/// Whether the overlap includes `other`, which is another phase of the ring of the phase.
pub(crate) fn is_beside(plan: &Plan, overlap: Overlap, phase: Phase, other: Phase) -> bool
    ensures { result ≡ is_beside (plan_of plan.now) overlap phase other }
{
    plan.included_phases(overlap).contains(other)
        && other != phase
        && plan.ring(phase) == plan.ring(other)
}

/// Whether the overlap includes the phase and another one of its ring.
fn is_carried_at(plan: &Plan, overlap: Overlap, phase: Phase) -> bool
    ensures { result ≡ is_carried_at (plan_of plan.now) overlap phase }
{
    plan.included_phases(overlap).contains(phase)
        && some_phase(plan, SoughtPhase::Beside(overlap, phase))
}

/// Whether the overlap includes two phases of one ring.
fn is_carried(plan: &Plan, overlap: Overlap) -> bool
    ensures { result ≡ list_any (is_carried_at (plan_of plan.now) overlap) (phases (plan_of plan.now)) }
{
    Phase::all()
        .iter()
        .any(|phase| is_carried_at(plan, overlap, *phase))
}

/// The value of a list of the overlap.
fn list_of(plan: &Plan, object: Object, overlap: Overlap) -> u32
    requires { indices object ≡ OVERLAPS }
    ensures { result ≡ (plan_of plan.now).value object overlap }
{
    plan.at(object, u32::from(overlap.number()))
}

/// A41: whether the overlap includes phases, no two of one ring, and those of two rings are concurrent, it has no
/// modifier phase, and does not trail.
pub(crate) fn adds_nothing(plan: &Plan, overlap: Overlap) -> bool
    ensures { result ≡ adds_nothing (plan_of plan.now) overlap }
{
    list_of(plan, Object::OverlapIncludedPhases, overlap) != 0
        && list_of(plan, Object::OverlapModifierPhases, overlap) == 0
        && !plan.trails(overlap)
        && split_at(plan, overlap).is_none()
        && !is_carried(plan, overlap)
}

/// Whether the overlap includes `third`, which is neither of the two phases.
fn is_third(plan: &Plan, overlap: Overlap, phase: Phase, other: Phase, third: Phase) -> bool
    ensures { result ≡ is_third (plan_of plan.now) overlap phase other third }
{
    plan.included_phases(overlap).contains(third) && third != phase && third != other
}

/// Whether the overlap includes a phase besides the two.
fn has_third(plan: &Plan, overlap: Overlap, phase: Phase, other: Phase) -> bool
    ensures { result ≡ list_any (is_third (plan_of plan.now) overlap phase other) (phases (plan_of plan.now)) }
{
    Phase::all()
        .iter()
        .any(|third| is_third(plan, overlap, phase, other, *third))
}

/// Whether the overlap includes `left`, a left turn of the other street than that of the through phase, and no phase
/// besides these two.
fn is_paired(plan: &Plan, overlap: Overlap, through: Phase, left: Phase) -> bool
    ensures { result ≡ is_paired (plan_of plan.now) overlap through left }
{
    plan.included_phases(overlap).contains(left)
        && turns_left(left)
        && is_of_other_street(through, left)
        && !has_third(plan, overlap, through, left)
}

/// Whether the overlap includes such a left turn.
fn has_pair(plan: &Plan, overlap: Overlap, through: Phase) -> bool
    ensures { result ≡ list_any (is_paired (plan_of plan.now) overlap through) (phases (plan_of plan.now)) }
{
    Phase::all()
        .iter()
        .any(|left| is_paired(plan, overlap, through, *left))
}

/// Whether the overlap is a right turn beside the phase, where phases stand as usual: its phases are this one, which
/// goes through, and a left turn of the other street.
pub(crate) fn is_turn_beside(plan: &Plan, overlap: Overlap, phase: Phase) -> bool
    ensures { result ≡ is_turn_beside (plan_of plan.now) overlap phase }
{
    plan.included_phases(overlap).contains(phase)
        && goes_through(phase)
        && has_pair(plan, overlap, phase)
}

/// The through phase beside which the overlap is a right turn.
pub(crate) fn turn_of(plan: &Plan, overlap: Overlap) -> Option<Phase>
    ensures { result ≡ turn_of (plan_of plan.now) overlap }
{
    Phase::all()
        .iter()
        .copied()
        .find(|phase| is_turn_beside(plan, overlap, *phase))
}

/// Whether the overlap includes `included`, which is concurrent with the phase.
fn is_included_beside(plan: &Plan, overlap: Overlap, phase: Phase, included: Phase) -> bool
    ensures { result ≡ is_included_beside (plan_of plan.now) overlap phase included }
{
    plan.included_phases(overlap).contains(included) && plan.concurrency(phase).contains(included)
}

/// Whether the phase may be green with one of the overlap.
fn goes_with_included(plan: &Plan, overlap: Overlap, phase: Phase) -> bool
    ensures { result ≡ list_any (is_included_beside (plan_of plan.now) overlap phase) (phases (plan_of plan.now)) }
{
    Phase::all().iter().any(|included| is_included_beside(plan, overlap, phase, *included))
}

/// Whether the phase goes out by the leg that the right turn beside the through phase goes out by, and may be green
/// with a phase of the overlap.
fn goes_into_turn(plan: &Plan, overlap: Overlap, phase: Phase, through: Phase) -> bool
    ensures { result ≡ goes_into_turn (plan_of plan.now) overlap phase through }
{
    goes_out_by(phase) == right_of(through) && goes_with_included(plan, overlap, phase)
}

/// Whether the phase is the through phase of a right turn, which goes over its crossing, and has a walk.
fn walks_over_turn(plan: &Plan, phase: Phase, through: Phase) -> bool
    ensures { result ≡ walks_over_turn (plan_of plan.now) phase through }
{
    phase == through && has_walk(plan, phase)
}

/// Whether the right turn of the overlap beside the through phase meets the phase, or its walk.
fn meets_turn(plan: &Plan, overlap: Overlap, phase: Phase, through: Phase) -> bool
    ensures { result ≡ meets_turn (plan_of plan.now) overlap phase through }
{
    goes_into_turn(plan, overlap, phase, through) || walks_over_turn(plan, phase, through)
}

/// Whether the overlap is a right turn, where phases stand as usual, and meets the phase or its walk.
fn meets(plan: &Plan, overlap: Overlap, phase: Phase) -> bool
    ensures { result ≡ phase_and (meets_turn (plan_of plan.now) overlap phase) (turn_of (plan_of plan.now) overlap) }
{
    match turn_of(plan, overlap) {
        Some(through) => meets_turn(plan, overlap, phase, through),
        None => false,
    }
}

/// A56: whether the overlap is a right turn, where phases stand as usual, and meets the phase or its walk while both are
/// green: the phase is no modifier phase.
pub(crate) fn is_met(plan: &Plan, overlap: Overlap, phase: Phase) -> bool
    ensures { result ≡ is_met (plan_of plan.now) overlap phase }
{
    !plan.modifier_phases(overlap).contains(phase) && meets(plan, overlap, phase)
}
