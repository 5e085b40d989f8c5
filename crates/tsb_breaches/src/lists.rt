//! What of detectors, overlaps and preempts breaks a rule: K12 to K16, K21, K28
//! and K29.
#![tactic(auto, unfolding(tsb_plan::specs::PlanOf::plan_of))]

ghost use Rattle.std.specs.Prelude.{◌≡◌, ◌&&◌, true};
ghost use Rattle.tsb_types.specs.declared.limits.TheConstants.{PREEMPTS};
ghost use Rattle.tsb_plan.specs.Objects.{has_index, indices};
ghost use Rattle.tsb_plan.specs.PlanOf.{plan_of};
ghost use Rattle.std.specs.List.{list_any};
ghost use Rattle.tsb_types.specs.Lists.{run_from};
ghost use Rattle.tsb_types.specs.Sets.{names};
ghost use Rattle.tsb_breaches.specs.Lists.{calls_unused, has_no_walk, button_calls_unused, button_calls_no_walk, lists_unused, lists_used, go_together, lists_apart, has_no_dwell, modifies_nothing, points, points_nowhere, turns_of, turns_otherwise, is_turn_with, turns_with, trails_shortly, trails_otherwise};

use crate::phases::has_walk;
use tsb_plan::{Object, Plan};
use tsb_types::{Detector, Overlap, PedestrianDetector, Phase, PhaseSet, Preempt};

/// Whether the vehicle detector calls a phase that is not enabled.
pub(crate) fn calls_unused(plan: &Plan, detector: Detector) -> bool
    ensures { result ≡ calls_unused (plan_of plan.now) detector }
{
    match plan.call_phase(detector) {
        Some(phase) => !plan.is_enabled(phase),
        None => false,
    }
}

/// Whether the pedestrian detector calls a phase that is not enabled.
pub(crate) fn button_calls_unused(plan: &Plan, detector: PedestrianDetector) -> bool
    ensures { result ≡ button_calls_unused (plan_of plan.now) detector }
{
    match plan.pedestrian_call_phase(detector) {
        Some(phase) => !plan.is_enabled(phase),
        None => false,
    }
}

/// Whether the phase is enabled and has no walk.
fn has_no_walk(plan: &Plan, phase: Phase) -> bool
    ensures { result ≡ has_no_walk (plan_of plan.now) phase }
{
    plan.is_enabled(phase) && !has_walk(plan, phase)
}

/// Whether it calls an enabled phase without walk.
pub(crate) fn button_calls_no_walk(plan: &Plan, detector: PedestrianDetector) -> bool
    ensures { result ≡ button_calls_no_walk (plan_of plan.now) detector }
{
    match plan.pedestrian_call_phase(detector) {
        Some(phase) => has_no_walk(plan, phase),
        None => false,
    }
}

/// Whether the list of the object at the index names the phase.
fn is_listed(plan: &Plan, object: Object, index: u32, phase: Phase) -> bool
    requires { has_index object index ≡ true }
    ensures { result ≡ names ((plan_of plan.now).value object index) phase }
{
    PhaseSet::from_list(plan.at(object, index) as u16).contains(phase)
}

/// Whether the list of the object at the index names the phase, which is not enabled.
pub(crate) fn lists_unused(plan: &Plan, object: Object, index: u32, phase: Phase) -> bool
    requires { has_index object index ≡ true }
    ensures { result ≡ lists_unused (plan_of plan.now) object index phase }
{
    is_listed(plan, object, index, phase) && !plan.is_enabled(phase)
}

/// Whether the list of the object for the preempt names the phase, which is enabled.
fn lists_used(plan: &Plan, object: Object, preempt: Preempt, phase: Phase) -> bool
    requires { indices object ≡ PREEMPTS }
    ensures { result ≡ lists_used (plan_of plan.now) object preempt phase }
{
    is_listed(plan, object, u32::from(preempt.number()), phase) && plan.is_enabled(phase)
}

/// Whether each of the two phases is in the concurrency list of the other.
pub(crate) fn go_together(plan: &Plan, phase: Phase, other: Phase) -> bool
    ensures { result ≡ go_together (plan_of plan.now) phase other }
{
    plan.concurrency(phase).contains(other) && plan.concurrency(other).contains(phase)
}

/// Whether the list names both, the lower number first, which are enabled and not concurrent.
pub(crate) fn lists_apart(
    plan: &Plan,
    object: Object,
    preempt: Preempt,
    phase: Phase,
    other: Phase,
) -> bool
    requires { indices object ≡ PREEMPTS }
    ensures { result ≡ lists_apart (plan_of plan.now) object preempt phase other }
{
    phase.number() < other.number()
        && lists_used(plan, object, preempt, phase)
        && lists_used(plan, object, preempt, other)
        && !go_together(plan, phase, other)
}

/// Whether the preempt has no dwell phases, and its list of the object is not empty.
pub(crate) fn has_no_dwell(plan: &Plan, object: Object, preempt: Preempt) -> bool
    requires { indices object ≡ PREEMPTS }
    ensures { result ≡ has_no_dwell (plan_of plan.now) object preempt }
{
    let index = u32::from(preempt.number());
    plan.at(Object::PreemptDwellPhase, index) == 0 && plan.at(object, index) != 0
}

/// Whether the overlap is normal, and has modifier phases.
pub(crate) fn modifies_nothing(plan: &Plan, overlap: Overlap) -> bool
    ensures { result ≡ modifies_nothing (plan_of plan.now) overlap }
{
    plan.at(Object::OverlapType, u32::from(overlap.number())) == 0
        && plan.at(Object::OverlapModifierPhases, u32::from(overlap.number())) != 0
}

/// Whether the overlap is of type 2.
fn points(plan: &Plan, overlap: Overlap) -> bool
    ensures { result ≡ points (plan_of plan.now) overlap }
{
    plan.at(Object::OverlapType, u32::from(overlap.number())) == 2
}

/// Whether it is an arrow that includes no phase.
pub(crate) fn points_nowhere(plan: &Plan, overlap: Overlap) -> bool
    ensures { result ≡ points_nowhere (plan_of plan.now) overlap }
{
    points(plan, overlap) && plan.includes_none(overlap)
}

/// How many modifier phases the overlap has.
#[tactic(auto, unfolding(tsb_plan::specs::PlanOf::plan_of, crate::specs::Lists::turns_of))]
pub(crate) fn turns_of(plan: &Plan, overlap: Overlap) -> u32
    ensures { result ≡ turns_of (plan_of plan.now) overlap }
{
    let turns = plan.modifier_phases(overlap);
    let phases = Phase::all();
    let mut count = 0;
    for phase in &phases {
        if turns.contains(*phase) {
            count += 1;
        }
    }
    count
}

/// Whether it is an arrow with no modifier phase, or several.
pub(crate) fn turns_otherwise(plan: &Plan, overlap: Overlap) -> bool
    ensures { result ≡ turns_otherwise (plan_of plan.now) overlap }
{
    points(plan, overlap) && turns_of(plan, overlap) != 1
}

/// Whether this is a modifier phase of the overlap, and is the phase or concurrent with it.
fn is_turn_with(plan: &Plan, overlap: Overlap, phase: Phase, turn: Phase) -> bool
    ensures { result ≡ is_turn_with (plan_of plan.now) overlap phase turn }
{
    plan.modifier_phases(overlap).contains(turn)
        && (phase == turn || plan.concurrency(turn).contains(phase))
}

/// Whether a modifier phase of the overlap is the phase or concurrent with it.
fn some_turn_with(plan: &Plan, overlap: Overlap, phase: Phase) -> bool
    ensures { result ≡ list_any (is_turn_with (plan_of plan.now) overlap phase) (run_from 1 16) }
{
    Phase::all()
        .iter()
        .any(|turn| is_turn_with(plan, overlap, phase, *turn))
}

/// Whether it is an arrow that includes the phase, and a modifier phase of it is that phase or concurrent with it.
pub(crate) fn turns_with(plan: &Plan, overlap: Overlap, phase: Phase) -> bool
    ensures { result ≡ turns_with (plan_of plan.now) overlap phase }
{
    points(plan, overlap)
        && plan.included_phases(overlap).contains(phase)
        && some_turn_with(plan, overlap, phase)
}

/// Whether the trailing yellow of the overlap is over 0 and under 30, or 0 where it trails.
pub(crate) fn trails_shortly(plan: &Plan, overlap: Overlap) -> bool
    ensures { result ≡ trails_shortly (plan_of plan.now) overlap }
{
    let index = u32::from(overlap.number());
    let yellow = plan.at(Object::OverlapTrailYellow, index);
    yellow < 30 && (yellow != 0 || plan.at(Object::OverlapTrailGreen, index) != 0)
}

/// Whether the overlap trails, and is not normal.
pub(crate) fn trails_otherwise(plan: &Plan, overlap: Overlap) -> bool
    ensures { result ≡ trails_otherwise (plan_of plan.now) overlap }
{
    let index = u32::from(overlap.number());
    plan.at(Object::OverlapTrailGreen, index) != 0 && plan.at(Object::OverlapType, index) != 0
}
