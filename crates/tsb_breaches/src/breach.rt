//! Where a plan breaks a rule.
#![tactic(auto, unfolding(tsb_plan::specs::PlanOf::plan_of))]

ghost use Rattle.std.specs.Prelude.{◌≡◌};
ghost use Rattle.tsb_plan.specs.PlanOf.{plan_of};
ghost use Rattle.tsb_breaches.specs.Breaches.{is_at, of_phase, of_phases, asks_of, is_listed_wrongly, of_listing, of_sequence_phase, of_pedestrian_detector, of_overlap, of_overlap_phase, of_preempt, of_preempt_phase, of_preempt_phases, of_table, of_pattern, of_split, of_pattern_phase, of_splits, of_pattern_phases, of_pattern_side, of_pattern_ring, of_action};
ghost use Rattle.tsb_rules.specs.PatternRules.{some_and};
ghost use Rattle.tsb_breaches.specs.Patterns.{table_of};
ghost use Rattle.tsb_breaches.specs.Found.{breach_at};

use crate::fault::RuleFault;
use crate::sums::rings_agree;
use crate::{lists, patterns, phases, schedules, sequences};
use tsb_plan::{Object, Plan};
use tsb_review::{Listing, Place};
use tsb_types::{
    Action, Overlap, Pattern, PedestrianDetector, Phase, Preempt, Ring, Sequence, Side, Split,
};

/// A rule that is broken, and where.
#[derive(Clone, Copy, PartialEq, Eq)]
pub struct Breach {
    /// The way in which it is broken.
    pub fault: RuleFault,
    /// Where it is.
    pub place: Place,
}

/// The breach at a place of its kind, where there is one. Going through the places of this kind, `RuleFault::shape`, as
/// `place_of` gives them, gives all its breaches, each once.
pub fn breach_at(plan: &Plan, fault: RuleFault, place: Place) -> Option<Breach>
    ensures { result ≡ breach_at (plan_of plan.now) fault place }
{
    if is_at(plan, fault, &place) {
        Some(Breach { fault, place })
    } else {
        None
    }
}

/// Whether the plan breaks the rule in this way at a place of its kind.
pub fn is_at(plan: &Plan, fault: RuleFault, place: &Place) -> bool
    ensures { result ≡ is_at (plan_of plan.now) fault place.now }
{
    match place {
        Place::Unit => phases::has_no_phase(plan),
        Place::Phase(phase) => of_phase(plan, fault, *phase),
        Place::Phases(phase, other) => of_phases(plan, fault, *phase, *other),
        Place::Listing(sequence, ring, listing) => {
            of_listing(plan, fault, *sequence, *ring, *listing)
        }
        Place::SequencePhase(sequence, ring, phase) => {
            of_sequence_phase(plan, fault, *sequence, *ring, *phase)
        }
        Place::Detector(detector) => lists::calls_unused(plan, *detector),
        Place::PedestrianDetector(detector) => of_pedestrian_detector(plan, fault, *detector),
        Place::Overlap(overlap) => of_overlap(plan, fault, *overlap),
        Place::OverlapPhase(overlap, phase) => of_overlap_phase(plan, fault, *overlap, *phase),
        Place::Preempt(preempt) => of_preempt(plan, fault, *preempt),
        Place::PreemptPhase(preempt, phase) => of_preempt_phase(plan, fault, *preempt, *phase),
        Place::PreemptPhases(preempt, phase, other) => {
            of_preempt_phases(plan, fault, *preempt, *phase, *other)
        }
        Place::Pattern(pattern) => of_pattern(plan, fault, *pattern),
        Place::PatternPhase(pattern, phase) => of_pattern_phase(plan, fault, *pattern, *phase),
        Place::PatternPhases(pattern, phase, other) => {
            of_pattern_phases(plan, fault, *pattern, *phase, *other)
        }
        Place::PatternSide(pattern, side) => of_pattern_side(plan, *pattern, *side),
        Place::PatternRing(pattern, ring) => of_pattern_ring(plan, *pattern, *ring),
        Place::Entry(entry) => schedules::runs_nothing(plan, *entry),
        Place::DayEvent(day_plan, event) => schedules::names_undefined(plan, *day_plan, *event),
        Place::DayEvents(day_plan, event, other) => {
            schedules::come_together(plan, *day_plan, *event, *other)
        }
        Place::Action(action) => of_action(plan, fault, *action),
        _ => false,
    }
}

/// Whether it is there at the phase.
fn of_phase(plan: &Plan, fault: RuleFault, phase: Phase) -> bool
    ensures { result ≡ of_phase (plan_of plan.now) fault phase }
{
    match fault {
        RuleFault::K2Ring => phases::has_no_ring(plan, phase),
        RuleFault::K2Side => phases::has_no_side(plan, phase),
        RuleFault::K3 => phases::keeps_list(plan, phase),
        RuleFault::K8 => phases::has_short_yellow(plan, phase),
        RuleFault::K9 => phases::has_long_gap(plan, phase),
        RuleFault::K10Maximum1 => phases::is_under_minimum(plan, Object::PhaseMaximum1, phase),
        RuleFault::K10Maximum2 => phases::is_under_minimum(plan, Object::PhaseMaximum2, phase),
        RuleFault::K11 => phases::recalls_no_walk(plan, phase),
        RuleFault::K22 => phases::has_low_limit(plan, phase),
        _ => false,
    }
}

/// Whether it is there at the list of the phase, for the other.
fn of_phases(plan: &Plan, fault: RuleFault, phase: Phase, other: Phase) -> bool
    ensures { result ≡ of_phases (plan_of plan.now) fault phase other }
{
    match fault {
        RuleFault::K4Unused => phases::names_unused(plan, phase, other),
        RuleFault::K4Ring => phases::names_same_ring(plan, phase, other),
        RuleFault::K4Side => phases::names_other_side(plan, phase, other),
        RuleFault::K5 => phases::is_not_named_back(plan, phase, other),
        _ => false,
    }
}

/// Whether its rule asks something of the sequence.
fn asks_of(plan: &Plan, fault: RuleFault, sequence: Sequence) -> bool
    ensures { result ≡ asks_of (plan_of plan.now) fault sequence }
{
    match fault {
        RuleFault::K6Unused
        | RuleFault::K6Ring
        | RuleFault::K6Missing
        | RuleFault::K6Again
        | RuleFault::K6Side
        | RuleFault::K6Gap => sequences::is_first(sequence),
        RuleFault::K7Unused
        | RuleFault::K7Ring
        | RuleFault::K7Missing
        | RuleFault::K7Again
        | RuleFault::K7Side
        | RuleFault::K7Gap => sequences::is_other(plan, sequence),
        _ => false,
    }
}

/// Whether what the sequence lists for the ring at the place is not as its rule asks.
fn is_listed_wrongly(
    plan: &Plan,
    fault: RuleFault,
    sequence: Sequence,
    ring: Ring,
    listing: Listing,
) -> bool
    ensures { result ≡ is_listed_wrongly (plan_of plan.now) fault sequence ring listing }
{
    match fault {
        RuleFault::K6Unused | RuleFault::K7Unused => {
            sequences::lists_unused(plan, sequence, ring, listing)
        }
        RuleFault::K6Ring | RuleFault::K7Ring => {
            sequences::lists_other_ring(plan, sequence, ring, listing)
        }
        RuleFault::K6Again | RuleFault::K7Again => sequences::lists_again(
            plan, sequence, ring, listing,
        ),
        RuleFault::K6Side | RuleFault::K7Side => sequences::falls(plan, sequence, ring, listing),
        RuleFault::K6Gap | RuleFault::K7Gap => sequences::leaves_gap(plan, sequence, ring, listing),
        _ => false,
    }
}

/// Whether it is there at what the sequence lists for the ring at the place.
fn of_listing(
    plan: &Plan,
    fault: RuleFault,
    sequence: Sequence,
    ring: Ring,
    listing: Listing,
) -> bool
    ensures { result ≡ of_listing (plan_of plan.now) fault sequence ring listing }
{
    asks_of(plan, fault, sequence) && is_listed_wrongly(plan, fault, sequence, ring, listing)
}

/// Whether it is there at what the sequence lists for the ring, for the phase.
fn of_sequence_phase(
    plan: &Plan,
    fault: RuleFault,
    sequence: Sequence,
    ring: Ring,
    phase: Phase,
) -> bool
    ensures { result ≡ of_sequence_phase (plan_of plan.now) fault sequence ring phase }
{
    asks_of(plan, fault, sequence) && sequences::is_missing(plan, sequence, ring, phase)
}

/// Whether it is there at the pedestrian detector.
fn of_pedestrian_detector(plan: &Plan, fault: RuleFault, detector: PedestrianDetector) -> bool
    ensures { result ≡ of_pedestrian_detector (plan_of plan.now) fault detector }
{
    match fault {
        RuleFault::K13Unused => lists::button_calls_unused(plan, detector),
        RuleFault::K13Walk => lists::button_calls_no_walk(plan, detector),
        _ => false,
    }
}

/// Whether the overlap has it.
fn of_overlap(plan: &Plan, fault: RuleFault, overlap: Overlap) -> bool
    ensures { result ≡ of_overlap (plan_of plan.now) fault overlap }
{
    match fault {
        RuleFault::K21Type => lists::modifies_nothing(plan, overlap),
        RuleFault::K28Empty => lists::points_nowhere(plan, overlap),
        RuleFault::K28Turns => lists::turns_otherwise(plan, overlap),
        RuleFault::K29Yellow => lists::trails_shortly(plan, overlap),
        RuleFault::K29Type => lists::trails_otherwise(plan, overlap),
        _ => false,
    }
}

/// Whether it is there at the overlap, for the phase.
fn of_overlap_phase(plan: &Plan, fault: RuleFault, overlap: Overlap, phase: Phase) -> bool
    ensures { result ≡ of_overlap_phase (plan_of plan.now) fault overlap phase }
{
    let index = u32::from(overlap.number());
    match fault {
        RuleFault::K14 => lists::lists_unused(plan, Object::OverlapIncludedPhases, index, phase),
        RuleFault::K21Unused => lists::lists_unused(
            plan,
            Object::OverlapModifierPhases,
            index,
            phase,
        ),
        RuleFault::K28Together => lists::turns_with(plan, overlap, phase),
        _ => false,
    }
}

/// Whether it is there at the preempt.
fn of_preempt(plan: &Plan, fault: RuleFault, preempt: Preempt) -> bool
    ensures { result ≡ of_preempt (plan_of plan.now) fault preempt }
{
    match fault {
        RuleFault::K16Track => lists::has_no_dwell(plan, Object::PreemptTrackPhase, preempt),
        RuleFault::K16Exit => lists::has_no_dwell(plan, Object::PreemptExitPhase, preempt),
        _ => false,
    }
}

/// Whether it is there at the preempt, for the phase.
fn of_preempt_phase(plan: &Plan, fault: RuleFault, preempt: Preempt, phase: Phase) -> bool
    ensures { result ≡ of_preempt_phase (plan_of plan.now) fault preempt phase }
{
    let index = u32::from(preempt.number());
    match fault {
        RuleFault::K15TrackUnused => {
            lists::lists_unused(plan, Object::PreemptTrackPhase, index, phase)
        }
        RuleFault::K15DwellUnused => {
            lists::lists_unused(plan, Object::PreemptDwellPhase, index, phase)
        }
        RuleFault::K15ExitUnused => lists::lists_unused(
            plan,
            Object::PreemptExitPhase,
            index,
            phase,
        ),
        _ => false,
    }
}

/// Whether it is there at the preempt, for two phases.
fn of_preempt_phases(
    plan: &Plan,
    fault: RuleFault,
    preempt: Preempt,
    phase: Phase,
    other: Phase,
) -> bool
    ensures { result ≡ of_preempt_phases (plan_of plan.now) fault preempt phase other }
{
    match fault {
        RuleFault::K15Track => {
            lists::lists_apart(plan, Object::PreemptTrackPhase, preempt, phase, other)
        }
        RuleFault::K15Dwell => {
            lists::lists_apart(plan, Object::PreemptDwellPhase, preempt, phase, other)
        }
        RuleFault::K15Exit => {
            lists::lists_apart(plan, Object::PreemptExitPhase, preempt, phase, other)
        }
        _ => false,
    }
}

/// Whether it is there at the split table of the pattern.
fn of_table(plan: &Plan, fault: RuleFault, pattern: Pattern, split: Split) -> bool
    ensures { result ≡ of_table (plan_of plan.now) fault pattern split }
{
    match fault {
        RuleFault::K19Cycle => patterns::misses_cycle(plan, pattern, split),
        RuleFault::K20None => patterns::coordinates_none(plan, split),
        _ => false,
    }
}

/// Whether it is there at the pattern.
fn of_pattern(plan: &Plan, fault: RuleFault, pattern: Pattern) -> bool
    ensures { result ≡ of_pattern (plan_of plan.now) fault pattern }
{
    match fault {
        RuleFault::K17Offset => patterns::has_late_offset(plan, pattern),
        RuleFault::K17Split => patterns::has_no_split(plan, pattern),
        RuleFault::K17Sequence => patterns::has_no_sequence(plan, pattern),
        RuleFault::K17Blank => patterns::has_blank_sequence(plan, pattern),
        RuleFault::K23 => patterns::permits_always(plan, pattern),
        _ => of_pattern_table(plan, fault, pattern),
    }
}

/// Whether it is there at the split table of the pattern, where that is used and has one.
fn of_pattern_table(plan: &Plan, fault: RuleFault, pattern: Pattern) -> bool
    ensures { result ≡ some_and (of_table (plan_of plan.now) fault pattern) (table_of (plan_of plan.now) pattern) }
{
    match patterns::table_of(plan, pattern) {
        Some(split) => of_table(plan, fault, pattern, split),
        None => false,
    }
}

/// Whether it is there at the phase of the split table.
fn of_split(plan: &Plan, fault: RuleFault, phase: Phase, split: Split) -> bool
    ensures { result ≡ of_split (plan_of plan.now) fault phase split }
{
    match fault {
        RuleFault::K18 => patterns::is_too_short(plan, split, phase),
        RuleFault::K20Unused => patterns::coordinates_unused(plan, split, phase),
        RuleFault::K20Omitted => patterns::coordinates_omitted(plan, split, phase),
        _ => false,
    }
}

/// Whether it is there at the pattern, for the phase.
fn of_pattern_phase(plan: &Plan, fault: RuleFault, pattern: Pattern, phase: Phase) -> bool
    ensures { result ≡ of_pattern_phase (plan_of plan.now) fault pattern phase }
{
    match patterns::table_of(plan, pattern) {
        Some(split) => of_split(plan, fault, phase, split),
        None => false,
    }
}

/// Whether it is there at two phases of the split table of the pattern.
fn of_splits(
    plan: &Plan,
    fault: RuleFault,
    pattern: Pattern,
    phase: Phase,
    other: Phase,
    split: Split,
) -> bool
    ensures { result ≡ of_splits (plan_of plan.now) fault pattern phase other split }
{
    match fault {
        RuleFault::K20Sides => patterns::are_across(plan, split, phase, other),
        RuleFault::K20Apart => patterns::are_apart(plan, split, phase, other),
        RuleFault::K20Ends => patterns::end_apart_in(plan, pattern, split, phase, other),
        _ => false,
    }
}

/// Whether it is there at the pattern, for two phases.
fn of_pattern_phases(
    plan: &Plan,
    fault: RuleFault,
    pattern: Pattern,
    phase: Phase,
    other: Phase,
) -> bool
    ensures { result ≡ of_pattern_phases (plan_of plan.now) fault pattern phase other }
{
    match patterns::table_of(plan, pattern) {
        Some(split) => of_splits(plan, fault, pattern, phase, other, split),
        None => false,
    }
}

/// Whether the rings have two sums on the side of the pattern.
fn of_pattern_side(plan: &Plan, pattern: Pattern, side: Side) -> bool
    ensures { result ≡ of_pattern_side (plan_of plan.now) pattern side }
{
    match patterns::table_of(plan, pattern) {
        Some(split) => !rings_agree(plan, split, u32::from(side.number())),
        None => false,
    }
}

/// Whether the action has it.
fn of_action(plan: &Plan, fault: RuleFault, action: Action) -> bool
    ensures { result ≡ of_action (plan_of plan.now) fault action }
{
    match fault {
        RuleFault::K27Number => schedules::asks_for_no_pattern(plan, action),
        RuleFault::K27Unused => schedules::asks_for_unused(plan, action),
        _ => false,
    }
}

/// Whether the ring has a wrong number of coordinated phases in the pattern.
fn of_pattern_ring(plan: &Plan, pattern: Pattern, ring: Ring) -> bool
    ensures { result ≡ of_pattern_ring (plan_of plan.now) pattern ring }
{
    match patterns::table_of(plan, pattern) {
        Some(split) => patterns::has_wrong_count(plan, split, ring),
        None => false,
    }
}
