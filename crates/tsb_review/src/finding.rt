//! What a review finds.
#![tactic(auto, unfolding(tsb_plan::specs::PlanOf::plan_of))]

ghost use Rattle.std.specs.Prelude.{◌≡◌};
ghost use Rattle.tsb_plan.specs.PlanOf.{plan_of};
ghost use Rattle.tsb_review.specs.Advices.{holds, of_unit, of_phase, of_phases, of_detector, of_ring, of_ring_side, of_pattern, of_split, of_preempt, of_preempt_phase, of_overlap, of_overlap_phase};
ghost use Rattle.tsb_review.specs.Findings.{finding_at, has_track_at, ends_walk_for_track, has_turn_beside, crosses_walk, first_value_at, unused_value};

use crate::advice::Advice;
use crate::place::Place;
use crate::{
    actuation, alike, clearance, coordination, detection, entry, overlaps, pedestrians, preempts,
    schedules, service, unused,
};
use tsb_plan::{ObjectId, Plan};
use tsb_types::{Detector, Overlap, Pattern, Phase, Preempt, Ring, Side};

/// An advice that holds, and what it is given for.
#[derive(Clone, Copy)]
pub struct Finding {
    /// The advice.
    pub advice: Advice,
    /// What it is given for.
    pub place: Place,
}

/// The advice for the place, where it holds. Going through the places of its kind, `Advice::shape`, as `place_of` gives
/// them, gives all findings of the advice, each once.
pub fn finding_at(plan: &Plan, advice: Advice, place: Place) -> Option<Finding>
    ensures { result ≡ finding_at (plan_of plan.now) advice place }
{
    if holds(plan, advice, &place) {
        Some(Finding { advice, place })
    } else {
        None
    }
}

/// Whether a preempt with track phases ends the walk that the finding is about (A36): MUTCD lets it be shortened or left
/// out there.
pub fn ends_walk_for_track(plan: &Plan, finding: &Finding) -> bool
    ensures { result ≡ ends_walk_for_track (plan_of plan.now) finding.now }
{
    matches!(finding.advice, Advice::A36) && has_track_at(plan, &finding.place)
}

/// Whether the place is a phase in a preempt with track phases.
fn has_track_at(plan: &Plan, place: &Place) -> bool
    ensures { result ≡ has_track_at (plan_of plan.now) place.now }
{
    match place {
        Place::PreemptPhase(preempt, _) => preempts::has_track(plan, *preempt),
        _ => false,
    }
}

/// Whether the right turn that the finding is about goes over the crossing of the phase that it names (A56).
pub fn crosses_walk(plan: &Plan, finding: &Finding) -> bool
    ensures { result ≡ crosses_walk (plan_of plan.now) finding.now }
{
    matches!(finding.advice, Advice::A56) && has_turn_beside(plan, &finding.place)
}

/// Whether the place is an overlap that is a right turn, and the through phase beside it.
fn has_turn_beside(plan: &Plan, place: &Place) -> bool
    ensures { result ≡ has_turn_beside (plan_of plan.now) place.now }
{
    match place {
        Place::OverlapPhase(overlap, phase) => overlaps::is_turn_beside(plan, *overlap, *phase),
        _ => false,
    }
}

/// The first value of the phase that the finding is about, which is not enabled (A59).
pub fn unused_value(plan: &Plan, finding: &Finding) -> Option<ObjectId>
    ensures { result ≡ unused_value (plan_of plan.now) finding.now }
{
    match finding.advice {
        Advice::A59 => first_value_at(plan, &finding.place),
        _ => None,
    }
}

/// The first value that is given for the phase of a place, where it is one.
fn first_value_at(plan: &Plan, place: &Place) -> Option<ObjectId>
    ensures { result ≡ first_value_at (plan_of plan.now) place.now }
{
    match place {
        Place::Phase(phase) => unused::first_value(plan, *phase),
        _ => None,
    }
}

/// Whether the advice holds of the place.
pub fn holds(plan: &Plan, advice: Advice, place: &Place) -> bool
    ensures { result ≡ holds (plan_of plan.now) advice place.now }
{
    match place {
        Place::Unit => of_unit(plan, advice),
        Place::Phase(phase) => of_phase(plan, advice, *phase),
        Place::Phases(phase, other) => of_phases(plan, advice, *phase, *other),
        Place::Detector(detector) => of_detector(plan, advice, *detector),
        Place::Ring(ring) => of_ring(plan, advice, *ring),
        Place::RingSide(ring, side) => of_ring_side(plan, advice, *ring, *side),
        Place::Pattern(pattern) => of_pattern(plan, advice, *pattern),
        Place::PatternPhase(pattern, phase) => of_split(plan, advice, *pattern, *phase),
        Place::Preempt(preempt) => of_preempt(plan, advice, *preempt),
        Place::PreemptPhase(preempt, phase) => of_preempt_phase(plan, advice, *preempt, *phase),
        Place::Overlap(overlap) => of_overlap(plan, advice, *overlap),
        Place::OverlapPhase(overlap, phase) => of_overlap_phase(plan, advice, *overlap, *phase),
        Place::DayEvent(day_plan, event) => schedules::ends_within_cycle(plan, *day_plan, *event),
        _ => false,
    }
}

/// Whether the advice holds of the whole plan.
fn of_unit(plan: &Plan, advice: Advice) -> bool
    ensures { result ≡ of_unit (plan_of plan.now) advice }
{
    match advice {
        Advice::A16 => clearance::has_short_revert(plan),
        Advice::A47 => coordination::corrects_nothing(plan),
        Advice::A60 => schedules::leaves_day_open(plan),
        Advice::A63 => entry::lacks_entry(plan),
        _ => false,
    }
}

/// Whether the advice holds of the phase.
fn of_phase(plan: &Plan, advice: Advice, phase: Phase) -> bool
    ensures { result ≡ of_phase (plan_of plan.now) advice phase }
{
    match advice {
        Advice::A1 => service::is_never_called(plan, phase),
        Advice::A6 => service::has_two_recalls(plan, phase),
        Advice::A7 => service::never_recalls_softly(plan, phase),
        Advice::A8 => pedestrians::has_no_clearance(plan, phase),
        Advice::A9 => pedestrians::has_short_walk(plan, phase),
        Advice::A10 => pedestrians::has_no_walk(plan, phase),
        Advice::A11 => pedestrians::has_idle_walk(plan, phase),
        Advice::A13 => pedestrians::overruns_maximum(plan, phase),
        Advice::A15 => clearance::clears_without_red(plan, phase),
        Advice::A17 => actuation::ends_at_any_gap(plan, phase),
        Advice::A18 => actuation::has_gap_trap(plan, phase),
        Advice::A19 => actuation::reduces_nothing(plan, phase),
        Advice::A20 => actuation::reduces_too_late(plan, phase),
        Advice::A21 => actuation::has_idle_initial(plan, phase),
        Advice::A22 => actuation::adds_without_variable(plan, phase),
        Advice::A23 => actuation::has_limit_alone(plan, phase),
        Advice::A24 => actuation::has_step_alone(plan, phase),
        Advice::A45 => coordination::recycles_nothing(plan, phase),
        Advice::A53 => detection::forgets_cars(plan, phase),
        Advice::A55 => service::is_shut_out(plan, phase),
        Advice::A57 => clearance::clears_too_soon(plan, phase),
        Advice::A58 => actuation::has_short_passage(plan, phase),
        Advice::A59 => unused::has_unused_values(plan, phase),
        _ => false,
    }
}

/// Whether the advice holds of the two phases.
fn of_phases(plan: &Plan, advice: Advice, phase: Phase, other: Phase) -> bool
    ensures { result ≡ of_phases (plan_of plan.now) advice phase other }
{
    match advice {
        Advice::A3 => service::can_wait_for(plan, phase, other),
        _ => false,
    }
}

/// Whether the advice holds of the vehicle detector.
fn of_detector(plan: &Plan, advice: Advice, detector: Detector) -> bool
    ensures { result ≡ of_detector (plan_of plan.now) advice detector }
{
    match advice {
        Advice::A2 => service::is_set_for_nothing(plan, detector),
        Advice::A25 => actuation::delays_too_long(plan, detector),
        Advice::A26 => actuation::extends_for_nothing(plan, detector),
        Advice::A48 => detection::forgets_its_phase(plan, detector),
        Advice::A49 => detection::trips_in_queue(plan, detector),
        _ => false,
    }
}

/// Whether the advice holds of the ring.
fn of_ring(plan: &Plan, advice: Advice, ring: Ring) -> bool
    ensures { result ≡ of_ring (plan_of plan.now) advice ring }
{
    match advice {
        Advice::A5 => service::has_fixed_times(plan, ring),
        _ => false,
    }
}

/// Whether the advice holds of the ring on the side.
fn of_ring_side(plan: &Plan, advice: Advice, ring: Ring, side: Side) -> bool
    ensures { result ≡ of_ring_side (plan_of plan.now) advice ring side }
{
    match advice {
        Advice::A52 => entry::has_unlike_entry(plan, ring, side),
        _ => false,
    }
}

/// Whether the advice holds of the pattern.
fn of_pattern(plan: &Plan, advice: Advice, pattern: Pattern) -> bool
    ensures { result ≡ of_pattern (plan_of plan.now) advice pattern }
{
    match advice {
        Advice::A30 => coordination::is_repeated(plan, pattern),
        Advice::A32 => coordination::yields_once(plan, pattern),
        Advice::A44 => coordination::leads_for_nothing(plan, pattern),
        Advice::A54 => coordination::permits_late_greens(plan, pattern),
        Advice::A61 => schedules::is_never_selected(plan, pattern),
        _ => false,
    }
}

/// Whether the advice holds of the phase in the pattern.
fn of_split(plan: &Plan, advice: Advice, pattern: Pattern, phase: Phase) -> bool
    ensures { result ≡ of_split (plan_of plan.now) advice pattern phase }
{
    match advice {
        Advice::A4 => service::may_lose_coordination(plan, pattern, phase),
        Advice::A12 => alike::overruns_first(plan, pattern, phase),
        Advice::A14 => pedestrians::rests_too_long(plan, pattern, phase),
        Advice::A27 => coordination::has_tight_split(plan, pattern, phase),
        Advice::A28 => coordination::makes_late(plan, pattern, phase),
        Advice::A29 => coordination::recalls_omitted(plan, pattern, phase),
        Advice::A42 => coordination::has_short_maximum(plan, pattern, phase),
        Advice::A43 => alike::yields_first(plan, pattern, phase),
        Advice::A46 => coordination::walks_over_and_over(plan, pattern, phase),
        _ => false,
    }
}

/// Whether the advice holds of the preempt.
fn of_preempt(plan: &Plan, advice: Advice, preempt: Preempt) -> bool
    ensures { result ≡ of_preempt (plan_of plan.now) advice preempt }
{
    match advice {
        Advice::A34 => preempts::clears_no_track(plan, preempt),
        Advice::A35 => preempts::lasts_too_long(plan, preempt),
        Advice::A38 => preempts::is_never_served(plan, preempt),
        Advice::A50 => preempts::is_held_by_input(plan, preempt),
        _ => false,
    }
}

/// Whether the advice holds of the phase in the preempt.
fn of_preempt_phase(plan: &Plan, advice: Advice, preempt: Preempt, phase: Phase) -> bool
    ensures { result ≡ of_preempt_phase (plan_of plan.now) advice preempt phase }
{
    match advice {
        Advice::A33 => preempts::fills_track(plan, preempt, phase),
        Advice::A36 => preempts::cuts_walk(plan, preempt, phase),
        Advice::A37 => preempts::cuts_clearance(plan, preempt, phase),
        Advice::A51 => preempts::dwells_alone(plan, preempt, phase),
        _ => false,
    }
}

/// Whether the advice holds of the overlap.
fn of_overlap(plan: &Plan, advice: Advice, overlap: Overlap) -> bool
    ensures { result ≡ of_overlap (plan_of plan.now) advice overlap }
{
    match advice {
        Advice::A39 => overlaps::is_split(plan, overlap),
        Advice::A41 => overlaps::adds_nothing(plan, overlap),
        _ => false,
    }
}

/// Whether the advice holds of the phase in the overlap.
fn of_overlap_phase(plan: &Plan, advice: Advice, overlap: Overlap, phase: Phase) -> bool
    ensures { result ≡ of_overlap_phase (plan_of plan.now) advice overlap phase }
{
    match advice {
        Advice::A40 => overlaps::modifies_itself(plan, overlap, phase),
        Advice::A56 => overlaps::is_met(plan, overlap, phase),
        _ => false,
    }
}
