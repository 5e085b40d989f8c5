//! The numbers that the line of a finding shows. Times are in tenths of a second.
#![tactic(auto, unfolding(tsb_plan::specs::PlanOf::plan_of))]

ghost use Rattle.std.specs.Prelude.{◌≡◌, ◌≤◌};
ghost use Rattle.tsb_plan.specs.PlanOf.{plan_of};
ghost use Rattle.tsb_review.specs.Schedules.{open_date, open_month, pattern_at};
ghost use Rattle.tsb_review.specs.Numbers.{four, number_of, revert_of, open_in, open_numbers, of_unit, of_phase, of_detector, of_split, of_ring_side, of_pattern, of_preempt, of_overlap, of_overlap_phase, at_place, numbers_of};

use crate::advice::Advice;
use crate::clearance::reverting;
use crate::coordination::{correction_number, first_same, passed_by_overrun, spare_time};
use crate::detection::{cycle_of, tripping};
use crate::entry::entry_count;
use crate::finding::Finding;
use crate::overlaps::{split_at, split_from, turn_of};
use crate::pedestrians::{passed_by_rest, pedestrian_time};
use crate::place::Place;
use crate::schedules::{open_date, open_month, open_weekday, pattern_at};
use crate::service::{apart_from, rival_of, rivalled};
use crate::splits::{green_of_split, left_short, longest_permissive};
use tsb_plan::Plan;
use tsb_types::{DayEvent, DayPlan, Detector, Overlap, Pattern, Phase, Preempt, Ring, Side};

/// The numbers that the line of a finding shows: those of its place, and times, phases or patterns. What an advice does
/// not have is 0.
#[derive(Clone, Copy)]
pub struct Numbers {
    /// The number of the place, or for a phase in a pattern that of the phase, or for the whole plan that of a phase
    /// or a mode.
    pub a: u32,
    /// A time in tenths of a second, the number of a phase or a pattern, or a limit in percent.
    pub b: u32,
    /// A time in tenths of a second, or the number of a phase.
    pub c: u32,
    /// The number of the pattern, for a phase in a pattern.
    pub d: u32,
    /// A time in tenths of a second, of A43 alone; breaches of rules have other numbers here.
    pub e: u32,
}

/// Four numbers, and 0 for the fifth.
fn four(a: u32, b: u32, c: u32, d: u32) -> Numbers
    ensures { result ≡ four a b c d }
{
    Numbers { a, b, c, d, e: 0 }
}

/// The number of a phase, 0 for none.
fn phase_or_zero(phase: Option<Phase>) -> u32
    ensures { result ≡ number_of phase }
{
    match phase {
        Some(phase) => u32::from(phase.number()),
        None => 0,
    }
}

/// The number of a pattern, 0 for none.
fn pattern_or_zero(pattern: Option<Pattern>) -> u32
    ensures { result ≡ number_of pattern }
{
    match pattern {
        Some(pattern) => u32::from(pattern.number()),
        None => 0,
    }
}

/// A time, 0 for none.
fn time_or_zero(time: Option<u32>) -> u32
    ensures { result ≡ number_of time }
{
    match time {
        Some(time) => time,
        None => 0,
    }
}

/// The red revert of a phase, 0 for none.
fn revert_of(plan: &Plan, phase: Option<Phase>) -> u32
    ensures { result ≡ revert_of (plan_of plan.now) phase }
{
    match phase {
        Some(phase) => plan.red_revert(phase),
        None => 0,
    }
}

/// The numbers of a finding.
pub fn numbers_of(plan: &Plan, finding: &Finding) -> Numbers
    ensures { result ≡ numbers_of (plan_of plan.now) finding.now }
{
    at_place(plan, finding.advice, &finding.place)
}

/// The numbers of an advice for a place.
fn at_place(plan: &Plan, advice: Advice, place: &Place) -> Numbers
    ensures { result ≡ at_place (plan_of plan.now) advice place.now }
{
    match place {
        Place::Unit => of_unit(plan, advice),
        Place::Phase(phase) => of_phase(plan, advice, *phase),
        Place::Phases(phase, other) => {
            four(u32::from(phase.number()), u32::from(other.number()), 0, 0)
        }
        Place::Detector(detector) => of_detector(plan, advice, *detector),
        Place::Ring(ring) => four(u32::from(ring.number()), 0, 0, 0),
        Place::RingSide(ring, side) => of_ring_side(plan, *ring, *side),
        Place::Pattern(pattern) => of_pattern(plan, advice, *pattern),
        Place::PatternPhase(pattern, phase) => of_split(plan, advice, *pattern, *phase),
        Place::Preempt(preempt) => of_preempt(plan, advice, *preempt),
        Place::PreemptPhase(preempt, phase) => {
            four(u32::from(preempt.number()), u32::from(phase.number()), 0, 0)
        }
        Place::Overlap(overlap) => of_overlap(plan, advice, *overlap),
        Place::OverlapPhase(overlap, phase) => of_overlap_phase(plan, advice, *overlap, *phase),
        Place::DayEvent(day_plan, event) => of_event(plan, *day_plan, *event),
        _ => four(0, 0, 0, 0),
    }
}

/// Of the whole plan: the first phase of which it is so, and its red revert; or the mode and the limit by which local
/// counters come into step.
fn of_unit(plan: &Plan, advice: Advice) -> Numbers
    ensures { result ≡ of_unit (plan_of plan.now) advice }
{
    match advice {
        Advice::A16 => {
            let number = phase_or_zero(reverting(plan));
            four(number, revert_of(plan, reverting(plan)), 0, 0)
        }
        Advice::A47 => four(correction_number(plan), plan.correction_limit(), 0, 0),
        Advice::A60 => open_numbers(plan),
        _ => four(0, 0, 0, 0),
    }
}

/// A month, a day of it and a weekday on which no entry of the schedule holds.
fn open_numbers(plan: &Plan) -> Numbers
    ensures { result ≡ open_numbers (plan_of plan.now) }
{
    let month = first_month(plan);
    open_in(plan, month, first_day(plan, month))
}

/// The first such month, 0 for none.
fn first_month(plan: &Plan) -> u32
    ensures value { result ≡ number_of (open_month (plan_of plan.now)) }
    ensures within { result ≤ 12 }
{
    match open_month(plan) {
        Some(month) => month,
        None => 0,
    }
}

/// The first such day of a month, 0 for none.
fn first_day(plan: &Plan, month: u32) -> u32
    requires { month ≤ 12 }
    ensures value { result ≡ number_of (open_date (plan_of plan.now) month) }
    ensures within { result ≤ 31 }
{
    if month == 0 {
        return 0;
    }
    match open_date(plan, month) {
        Some(day) => day,
        None => 0,
    }
}

/// A month, a day of it, and the first such weekday.
fn open_in(plan: &Plan, month: u32, day: u32) -> Numbers
    requires month { month ≤ 12 }
    requires day { day ≤ 31 }
    ensures { result ≡ open_in (plan_of plan.now) month day }
{
    four(month, day, time_or_zero(open_weekday(plan, month, day)), 0)
}

/// An event of a day plan: both numbers, and the pattern that it selects.
fn of_event(plan: &Plan, day_plan: DayPlan, event: DayEvent) -> Numbers
    ensures { result ≡ four day_plan event (pattern_at (plan_of plan.now) day_plan event) 0 }
{
    let pattern = pattern_at(plan, day_plan, event);
    four(
        u32::from(day_plan.number()),
        u32::from(event.number()),
        pattern,
        0,
    )
}

/// Of a phase: its number, and then times or phases.
fn of_phase(plan: &Plan, advice: Advice, phase: Phase) -> Numbers
    ensures { result ≡ of_phase (plan_of plan.now) advice phase }
{
    let p = u32::from(phase.number());
    match advice {
        Advice::A7 => {
            let number = phase_or_zero(rivalled(plan));
            let rival = rival_of(plan, rivalled(plan));
            four(p, number, phase_or_zero(rival), 0)
        }
        Advice::A8 => four(p, plan.walk(phase), 0, 0),
        Advice::A9 => four(p, plan.walk(phase), 0, 0),
        Advice::A10 => four(p, plan.pedestrian_clear(phase), 0, 0),
        Advice::A11 => four(p, plan.walk(phase), 0, 0),
        Advice::A13 => four(p, pedestrian_time(plan, phase), plan.maximum(phase), 0),
        Advice::A18 => four(p, plan.minimum_gap(phase), plan.passage(phase), 0),
        Advice::A19 => four(p, plan.passage(phase), 0, 0),
        Advice::A20 => four(p, plan.time_before_reduction(phase), plan.maximum(phase), 0),
        Advice::A21 => four(p, plan.minimum_green(phase), 0, 0),
        Advice::A57 => four(p, plan.red_clear(phase), 0, 0),
        Advice::A58 => four(p, plan.passage(phase), 0, 0),
        _ => four(p, 0, 0, 0),
    }
}

/// Of a vehicle detector: its number, a time, and the phase that it calls; or a time, a cycle and its pattern.
fn of_detector(plan: &Plan, advice: Advice, detector: Detector) -> Numbers
    ensures { result ≡ of_detector (plan_of plan.now) advice detector }
{
    let d = u32::from(detector.number());
    let phase = phase_or_zero(plan.call_phase(detector));
    match advice {
        Advice::A25 => four(d, plan.detector_delay(detector), phase, 0),
        Advice::A26 => four(d, plan.detector_extend(detector), phase, 0),
        Advice::A48 => four(d, 0, phase, 0),
        Advice::A49 => {
            let number = pattern_or_zero(tripping(plan, detector));
            let cycle = cycle_of(plan, tripping(plan, detector));
            four(d, plan.maximum_presence(detector), cycle, number)
        }
        _ => four(d, 0, 0, 0),
    }
}

/// Of a phase in a pattern: the phase, times or another phase, and the pattern; of A43 then the longest permissive time.
fn of_split(plan: &Plan, advice: Advice, pattern: Pattern, phase: Phase) -> Numbers
    ensures { result ≡ of_split (plan_of plan.now) advice pattern phase }
{
    let (n, p) = (u32::from(pattern.number()), u32::from(phase.number()));
    match advice {
        Advice::A4 => four(p, 0, phase_or_zero(apart_from(plan, pattern, phase)), n),
        Advice::A12 => {
            let green = green_of_split(plan, pattern, phase);
            four(p, pedestrian_time(plan, phase), green, n)
        }
        Advice::A14 => {
            let passed = passed_by_rest(plan, pattern, phase);
            four(p, plan.pedestrian_clear(phase), phase_or_zero(passed), n)
        }
        Advice::A27 => four(p, spare_time(plan, pattern, phase), 0, n),
        Advice::A28 => {
            let passed = passed_by_overrun(plan, pattern, phase);
            four(p, 0, phase_or_zero(passed), n)
        }
        Advice::A42 => {
            let maximum = time_or_zero(plan.pattern_maximum(Some(pattern), phase));
            four(p, maximum, green_of_split(plan, pattern, phase), n)
        }
        Advice::A43 => {
            let short = left_short(plan, pattern, phase);
            Numbers {
                a: p,
                b: plan.permissive_time(pattern),
                c: phase_or_zero(short),
                d: n,
                e: longest_permissive(plan, pattern, phase),
            }
        }
        _ => four(p, 0, 0, n),
    }
}

/// Of a ring on a side: both, and how many of its phases there have dual entry.
fn of_ring_side(plan: &Plan, ring: Ring, side: Side) -> Numbers
    ensures { result ≡ of_ring_side (plan_of plan.now) ring side }
{
    let (r, s) = (u32::from(ring.number()), u32::from(side.number()));
    four(r, s, entry_count(plan, ring, side), 0)
}

/// Of a pattern: its number, and another pattern or times.
fn of_pattern(plan: &Plan, advice: Advice, pattern: Pattern) -> Numbers
    ensures { result ≡ of_pattern (plan_of plan.now) advice pattern }
{
    let n = u32::from(pattern.number());
    match advice {
        Advice::A30 => four(n, pattern_or_zero(first_same(plan, pattern)), 0, 0),
        Advice::A32 => four(n, plan.cycle(pattern), 0, 0),
        Advice::A54 => four(n, plan.permissive_time(pattern), 0, 0),
        _ => four(n, 0, 0, 0),
    }
}

/// Of a preempt: its number, and times.
fn of_preempt(plan: &Plan, advice: Advice, preempt: Preempt) -> Numbers
    ensures { result ≡ of_preempt (plan_of plan.now) advice preempt }
{
    let m = u32::from(preempt.number());
    match advice {
        Advice::A35 => {
            let longest = plan.preempt_maximum_presence(preempt);
            four(m, plan.minimum_duration(preempt), longest, 0)
        }
        _ => four(m, 0, 0, 0),
    }
}

/// Of an overlap: its number, and two phases.
fn of_overlap(plan: &Plan, advice: Advice, overlap: Overlap) -> Numbers
    ensures { result ≡ of_overlap (plan_of plan.now) advice overlap }
{
    let o = u32::from(overlap.number());
    match advice {
        Advice::A39 => {
            let number = phase_or_zero(split_at(plan, overlap));
            let other = split_from(plan, overlap, split_at(plan, overlap));
            four(o, number, phase_or_zero(other), 0)
        }
        _ => four(o, 0, 0, 0),
    }
}

/// Of a phase in an overlap: both, and the through phase beside which the overlap is a right turn.
fn of_overlap_phase(plan: &Plan, advice: Advice, overlap: Overlap, phase: Phase) -> Numbers
    ensures { result ≡ of_overlap_phase (plan_of plan.now) advice overlap phase }
{
    let (o, p) = (u32::from(overlap.number()), u32::from(phase.number()));
    match advice {
        Advice::A56 => four(o, p, phase_or_zero(turn_of(plan, overlap)), 0),
        _ => four(o, p, 0, 0),
    }
}
