//! The numbers that the line of a breach shows. Times are in tenths of a second, but for those of K10, which are as the
//! plan has them.
#![tactic(auto, unfolding(tsb_plan::specs::PlanOf::plan_of))]

ghost use Rattle.std.specs.Prelude.{◌≡◌};
ghost use Rattle.tsb_plan.specs.declared.object.Object.TheVariants.{PhaseMinimumGreen};
ghost use Rattle.tsb_plan.specs.Objects.{indices};
ghost use Rattle.tsb_plan.specs.Parts.{call_phase, pedestrian_call_phase, sequence_of, split_of, split_time};
ghost use Rattle.tsb_plan.specs.PlanOf.{plan_of};
ghost use Rattle.tsb_plan.specs.Schedule.{action_of, asked_by, day_plan_of};
ghost use Rattle.tsb_rules.specs.PatternRules.{coordinated_count, split_end};
ghost use Rattle.tsb_breaches.specs.Patterns.{sides_time};
ghost use Rattle.tsb_breaches.specs.Numbers.{five, number_of, in_table, end_in, of_phase, of_phases, of_listing, of_overlap, of_pattern, of_pattern_phase, of_pattern_phases, sum_in, of_pattern_side, of_pattern_ring, of_events, at_place, numbers_of};

use crate::breach::Breach;
use crate::fault::RuleFault;
use crate::lists::turns_of;
use crate::patterns::{least_split, sides_time};
use crate::sequences::{listed, listed_next, lower_behind, ring_of_number};
use crate::sums::{coordinated_count, split_sum};
use tsb_plan::{Object, Plan};
use tsb_review::{Listing, Numbers, Place};
use tsb_rules::split_end;
use tsb_types::{
    Action, DayEvent, DayPlan, Detector, Entry, Overlap, Pattern, PedestrianDetector, Phase, Ring,
    Sequence, Side, Split,
};

/// Five numbers.
fn five(a: u32, b: u32, c: u32, d: u32, e: u32) -> Numbers
    ensures { result ≡ five a b c d e }
{
    Numbers { a, b, c, d, e }
}

/// The number of a phase, 0 for none.
fn phase_or_zero(phase: Option<Phase>) -> u32
    ensures { result ≡ number_of phase }
{
    match phase {
        Some(phase) => u32::from(phase.number()),
        None => 0,
    }
}

/// A number, 0 for none.
fn number_or_zero(number: Option<u16>) -> u32
    ensures { result ≡ number_of number }
{
    match number {
        Some(number) => u32::from(number),
        None => 0,
    }
}

/// The numbers that the line of a breach shows: those of its place first, and then what does not fit there. What it does
/// not have is 0.
pub fn numbers_of(plan: &Plan, breach: &Breach) -> Numbers
    ensures { result ≡ numbers_of (plan_of plan.now) breach.now }
{
    at_place(plan, breach.fault, &breach.place)
}

/// The numbers of a place.
fn at_place(plan: &Plan, fault: RuleFault, place: &Place) -> Numbers
    ensures { result ≡ at_place (plan_of plan.now) fault place.now }
{
    match place {
        Place::Unit => five(0, 0, 0, 0, 0),
        Place::Phase(phase) => of_phase(plan, fault, *phase),
        Place::Phases(phase, other) => of_phases(plan, fault, *phase, *other),
        Place::Listing(sequence, ring, listing) => {
            of_listing(plan, fault, *sequence, *ring, *listing)
        }
        Place::SequencePhase(sequence, ring, phase) => {
            three(sequence.number(), ring.number(), phase.number())
        }
        Place::Detector(detector) => of_detector(plan, *detector),
        Place::PedestrianDetector(detector) => of_pedestrian_detector(plan, *detector),
        Place::Overlap(overlap) => of_overlap(plan, fault, *overlap),
        Place::OverlapPhase(overlap, phase) => three(overlap.number(), phase.number(), 0),
        Place::Preempt(preempt) => three(preempt.number(), 0, 0),
        Place::PreemptPhase(preempt, phase) => three(preempt.number(), phase.number(), 0),
        Place::PreemptPhases(preempt, phase, other) => {
            three(preempt.number(), phase.number(), other.number())
        }
        Place::Pattern(pattern) => of_pattern(plan, fault, *pattern),
        Place::PatternPhase(pattern, phase) => of_pattern_phase(plan, fault, *pattern, *phase),
        Place::PatternPhases(pattern, phase, other) => {
            of_pattern_phases(plan, fault, *pattern, *phase, *other)
        }
        Place::PatternSide(pattern, side) => of_pattern_side(plan, *pattern, *side),
        Place::PatternRing(pattern, ring) => of_pattern_ring(plan, *pattern, *ring),
        Place::Entry(entry) => of_entry(plan, *entry),
        Place::DayEvent(day_plan, event) => of_event(plan, *day_plan, *event),
        Place::DayEvents(day_plan, event, other) => of_events(plan, *day_plan, *event, *other),
        Place::Action(action) => of_action(plan, *action),
        _ => five(0, 0, 0, 0, 0),
    }
}

/// Of a vehicle detector: its number, and the phase that it calls.
fn of_detector(plan: &Plan, detector: Detector) -> Numbers
    ensures { result ≡ five detector (number_of (call_phase (plan_of plan.now) detector)) 0 0 0 }
{
    let called = phase_or_zero(plan.call_phase(detector));
    five(u32::from(detector.number()), called, 0, 0, 0)
}

/// Of a pedestrian detector: its number, and the phase that it calls.
fn of_pedestrian_detector(plan: &Plan, detector: PedestrianDetector) -> Numbers
    ensures { result ≡ five detector (number_of (pedestrian_call_phase (plan_of plan.now) detector)) 0 0 0 }
{
    let called = phase_or_zero(plan.pedestrian_call_phase(detector));
    five(u32::from(detector.number()), called, 0, 0, 0)
}

/// Of an overlap: its number, and its type, how many modifier phases it has, or its trailing yellow.
fn of_overlap(plan: &Plan, fault: RuleFault, overlap: Overlap) -> Numbers
    ensures { result ≡ of_overlap (plan_of plan.now) fault overlap }
{
    let number = u32::from(overlap.number());
    let shown = match fault {
        RuleFault::K28Turns => turns_of(plan, overlap),
        RuleFault::K29Yellow => plan.at(Object::OverlapTrailYellow, number),
        _ => plan.at(Object::OverlapType, number),
    };
    five(number, shown, 0, 0, 0)
}

/// An entry of the schedule: its number, and its day plan.
fn of_entry(plan: &Plan, entry: Entry) -> Numbers
    ensures { result ≡ five entry (day_plan_of (plan_of plan.now) entry) 0 0 0 }
{
    let number = u32::from(entry.number());
    five(number, plan.day_plan_of(number), 0, 0, 0)
}

/// An event of a day plan: both numbers, and its action.
fn of_event(plan: &Plan, day_plan: DayPlan, event: DayEvent) -> Numbers
    ensures { result ≡ five day_plan event (action_of (plan_of plan.now) day_plan event) 0 0 }
{
    let (d, k) = (u32::from(day_plan.number()), u32::from(event.number()));
    five(d, k, plan.action_of(d, k), 0, 0)
}

/// Two events of a day plan: all three numbers, and the hour and minute of the first.
fn of_events(plan: &Plan, day_plan: DayPlan, event: DayEvent, other: DayEvent) -> Numbers
    ensures { result ≡ of_events (plan_of plan.now) day_plan event other }
{
    let (d, j) = (u32::from(day_plan.number()), u32::from(event.number()));
    let time = plan.time_of(d, j);
    five(d, j, u32::from(other.number()), time / 60, time % 60)
}

/// An action of the schedule: its number, and what it asks for.
fn of_action(plan: &Plan, action: Action) -> Numbers
    ensures { result ≡ five action (asked_by (plan_of plan.now) action) 0 0 0 }
{
    let number = u32::from(action.number());
    five(number, plan.asked_by(number), 0, 0, 0)
}

/// Of a side in a pattern: both, and the sums of the two rings.
fn of_pattern_side(plan: &Plan, pattern: Pattern, side: Side) -> Numbers
    ensures { result ≡ of_pattern_side (plan_of plan.now) pattern side }
{
    let (n, d) = (u32::from(pattern.number()), u32::from(side.number()));
    let first = sum_in(plan, pattern, Ring::of(1), d);
    let second = sum_in(plan, pattern, Ring::of(2), d);
    five(n, d, first, second, 0)
}

/// Of a ring in a pattern: both, and how many coordinated phases it has.
fn of_pattern_ring(plan: &Plan, pattern: Pattern, ring: Ring) -> Numbers
    ensures { result ≡ of_pattern_ring (plan_of plan.now) pattern ring }
{
    let count = count_in(plan, pattern, ring);
    five(
        u32::from(pattern.number()),
        u32::from(ring.number()),
        count,
        0,
        0,
    )
}

/// Three numbers of things, and no others.
fn three(first: u8, second: u8, third: u8) -> Numbers
    ensures { result ≡ five first second third 0 0 }
{
    five(u32::from(first), u32::from(second), u32::from(third), 0, 0)
}

/// Of a phase: its number, and what does not fit.
fn of_phase(plan: &Plan, fault: RuleFault, phase: Phase) -> Numbers
    ensures { result ≡ of_phase (plan_of plan.now) fault phase }
{
    let p = u32::from(phase.number());
    match fault {
        RuleFault::K2Ring => five(p, plan.ring(phase), 0, 0, 0),
        RuleFault::K2Side => five(p, plan.side(phase), 0, 0, 0),
        RuleFault::K3 => five(p, plan.at(Object::PhaseConcurrency, p), 0, 0, 0),
        RuleFault::K8 => five(p, plan.yellow_change(phase), 0, 0, 0),
        RuleFault::K9 => five(p, plan.minimum_gap(phase), plan.passage(phase), 0, 0),
        RuleFault::K10Maximum1 => beside_minimum(plan, Object::PhaseMaximum1, phase),
        RuleFault::K10Maximum2 => beside_minimum(plan, Object::PhaseMaximum2, phase),
        RuleFault::K22 => {
            five(
                p,
                plan.dynamic_maximum_limit(phase),
                plan.minimum_green(phase),
                0,
                0,
            )
        }
        _ => five(p, 0, 0, 0, 0),
    }
}

/// The phase, the maximum that the object gives it, and its minimum green, in seconds.
fn beside_minimum(plan: &Plan, object: Object, phase: Phase) -> Numbers
    requires { indices object ≡ 16 }
    ensures { result ≡ five phase ((plan_of plan.now).value object phase) ((plan_of plan.now).value PhaseMinimumGreen phase) 0 0 }
{
    let p = u32::from(phase.number());
    five(
        p,
        plan.at(object, p),
        plan.at(Object::PhaseMinimumGreen, p),
        0,
        0,
    )
}

/// Of a phase and one that its list names: both, and the ring or the sides.
fn of_phases(plan: &Plan, fault: RuleFault, phase: Phase, other: Phase) -> Numbers
    ensures { result ≡ of_phases (plan_of plan.now) fault phase other }
{
    let (p, q) = (u32::from(phase.number()), u32::from(other.number()));
    match fault {
        RuleFault::K4Ring => five(p, q, plan.ring(phase), 0, 0),
        RuleFault::K4Side => five(p, q, plan.side(phase), plan.side(other), 0),
        _ => five(p, q, 0, 0, 0),
    }
}

/// Of a place in a sequence: sequence, ring and place, what is listed there or next, and its ring or a later phase.
fn of_listing(
    plan: &Plan,
    fault: RuleFault,
    sequence: Sequence,
    ring: Ring,
    listing: Listing,
) -> Numbers
    ensures { result ≡ of_listing (plan_of plan.now) fault sequence ring listing }
{
    let number = listed(plan, sequence, ring, listing);
    match fault {
        RuleFault::K6Ring | RuleFault::K7Ring => {
            let ring_of = ring_of_number(plan, number);
            listing_numbers(sequence, ring, listing, number, ring_of)
        }
        RuleFault::K6Side | RuleFault::K7Side => {
            let lower = number_or_zero(lower_behind(plan, sequence, ring, listing));
            listing_numbers(sequence, ring, listing, number, lower)
        }
        RuleFault::K6Gap | RuleFault::K7Gap => {
            let next = listed_next(plan, sequence, ring, listing);
            listing_numbers(sequence, ring, listing, next, 0)
        }
        _ => listing_numbers(sequence, ring, listing, number, 0),
    }
}

/// A place in a sequence, and two numbers more.
fn listing_numbers(
    sequence: Sequence,
    ring: Ring,
    listing: Listing,
    number: u16,
    last: u32,
) -> Numbers
    ensures { result ≡ five sequence ring listing number last }
{
    let (s, r) = (u32::from(sequence.number()), u32::from(ring.number()));
    five(s, r, u32::from(listing.number()), u32::from(number), last)
}

/// Of a pattern: its number, and times or numbers.
fn of_pattern(plan: &Plan, fault: RuleFault, pattern: Pattern) -> Numbers
    ensures { result ≡ of_pattern (plan_of plan.now) fault pattern }
{
    let n = u32::from(pattern.number());
    match fault {
        RuleFault::K17Offset => five(n, plan.offset(pattern), plan.cycle(pattern), 0, 0),
        RuleFault::K17Split => five(n, plan.at(Object::PatternSplitNumber, n), 0, 0, 0),
        RuleFault::K17Sequence => five(n, plan.at(Object::PatternSequenceNumber, n), 0, 0, 0),
        RuleFault::K17Blank => five(n, plan.at(Object::PatternSequenceNumber, n), 0, 0, 0),
        RuleFault::K19Cycle => five(n, sides_in(plan, pattern), plan.cycle(pattern), 0, 0),
        RuleFault::K23 => five(n, plan.permissive_time(pattern), plan.cycle(pattern), 0, 0),
        _ => five(n, 0, 0, 0, 0),
    }
}

/// How long the sides of the pattern are, 0 without a split table.
fn sides_in(plan: &Plan, pattern: Pattern) -> u32
    ensures { result ≡ in_table (split_of (plan_of plan.now) pattern) (sides_time (plan_of plan.now)) }
{
    match plan.split_of(pattern) {
        Some(split) => sides_time(plan, split),
        None => 0,
    }
}

/// Of a phase in a pattern: both, and its split and what that has to hold.
fn of_pattern_phase(plan: &Plan, fault: RuleFault, pattern: Pattern, phase: Phase) -> Numbers
    ensures { result ≡ of_pattern_phase (plan_of plan.now) fault pattern phase }
{
    let (n, p) = (u32::from(pattern.number()), u32::from(phase.number()));
    match fault {
        RuleFault::K18 => five(
            n,
            p,
            split_in(plan, pattern, phase),
            least_split(plan, phase),
            0,
        ),
        _ => five(n, p, 0, 0, 0),
    }
}

/// The split of the phase in the pattern, 0 without a split table.
fn split_in(plan: &Plan, pattern: Pattern, phase: Phase) -> u32
    ensures { result ≡ in_table (split_of (plan_of plan.now) pattern) (λ t. split_time (plan_of plan.now) t phase) }
{
    match plan.split_of(pattern) {
        Some(split) => plan.split_time(split, phase),
        None => 0,
    }
}

/// Of two phases in a pattern: all three, and their sides or the ends of their splits.
fn of_pattern_phases(
    plan: &Plan,
    fault: RuleFault,
    pattern: Pattern,
    phase: Phase,
    other: Phase,
) -> Numbers
    ensures { result ≡ of_pattern_phases (plan_of plan.now) fault pattern phase other }
{
    let (p, q) = (u32::from(phase.number()), u32::from(other.number()));
    let n = u32::from(pattern.number());
    match fault {
        RuleFault::K20Sides => five(n, p, q, plan.side(phase), plan.side(other)),
        RuleFault::K20Ends => {
            let end = end_in(plan, pattern, phase);
            five(n, p, q, end, end_in(plan, pattern, other))
        }
        _ => five(n, p, q, 0, 0),
    }
}

/// When the split of the phase ends in the pattern, 0 without a split table or a sequence.
fn end_in(plan: &Plan, pattern: Pattern, phase: Phase) -> u32
    ensures { result ≡ end_in (plan_of plan.now) pattern phase }
{
    match plan.split_of(pattern) {
        Some(split) => end_of_split(plan, pattern, split, phase),
        None => 0,
    }
}

/// When the split of the phase ends by the table, 0 without a sequence.
fn end_of_split(plan: &Plan, pattern: Pattern, split: Split, phase: Phase) -> u32
    ensures { result ≡ in_table (sequence_of (plan_of plan.now) pattern) (λ s. split_end (plan_of plan.now) s split phase) }
{
    match plan.sequence_of(pattern) {
        Some(sequence) => split_end(plan, sequence, split, phase),
        None => 0,
    }
}

/// The splits of the ring on the side of the pattern, 0 without a split table.
fn sum_in(plan: &Plan, pattern: Pattern, ring: Ring, side: u32) -> u32
    ensures { result ≡ sum_in (plan_of plan.now) pattern ring side }
{
    match plan.split_of(pattern) {
        Some(split) => split_sum(plan, split, ring, side),
        None => 0,
    }
}

/// How many coordinated phases the ring has in the pattern, 0 without a split table.
fn count_in(plan: &Plan, pattern: Pattern, ring: Ring) -> u32
    ensures { result ≡ in_table (split_of (plan_of plan.now) pattern) (λ t. coordinated_count (plan_of plan.now) t ring) }
{
    match plan.split_of(pattern) {
        Some(split) => coordinated_count(plan, split, ring),
        None => 0,
    }
}
