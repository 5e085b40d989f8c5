//! A worksheet of a plan: how long the entry of a preempt lasts at most, and what each pattern gives the phases that it
//! serves. Times are in tenths of a second.
#![tactic(auto, unfolding(tsb_plan::specs::PlanOf::plan_of))]

ghost use Rattle.std.specs.Prelude.{◌≡◌, ◌≤◌, true, Some};
ghost use Rattle.tsb_plan.specs.Parts.{is_used};
ghost use Rattle.tsb_plan.specs.Plan.{is_enabled, red_revert};
ghost use Rattle.tsb_plan.specs.PlanOf.{plan_of};
ghost use Rattle.tsb_objects.specs.Instants.{coordinated_in_ring, first_coordinated, force_off, is_coordinated_in, reference};
ghost use Rattle.tsb_review.specs.Worksheet.{clearing, crossing_of, entry_of, greatest, has_no_overlaps, has_share, held, held_by, longest_by_choice, longest_by_turn, longest_entry, pedestrians_left, share, share_of, time_of, waited_for};

use crate::calls::has_walk;
use crate::pedestrians::pedestrian_time;
use crate::preempts::has_dwell;
use crate::splits::{green_of_split, instant_from, split_time_in};
use tsb_plan::{Object, Plan};
use tsb_types::{Overlap, Pattern, Phase, Preempt};

/// How long after its least time a green ends.
const GREEN_TICKS: u32 = 1;

/// How long the rings move, besides all times of phases.
const RING_TICKS: u32 = 4;

/// The ring whose coordinated phase instants are counted from.
const REFERENCE_RING: u32 = 1;

/// A time of a phase: the greatest is part of an entry.
#[derive(Clone, Copy)]
enum PhaseTime {
    /// The walk and the pedestrian clearance that this preempt leaves.
    Pedestrians(Preempt),
    /// Yellow change and red clearance, or a longer red revert, or what longer time overlaps that trail hold it.
    Clearing,
    /// The same where a phase of the other ring may be green still: an overlap may begin to trail late in it.
    Waiting,
    /// The red revert.
    Reverting,
}

/// What a pattern gives a phase that it serves, in tenths of a second.
#[derive(Clone, Copy, Debug, PartialEq, Eq)]
pub struct SplitShare {
    /// Its split.
    pub split: u32,
    /// The green that yellow change and red clearance leave of the split.
    pub green: u32,
    /// Its force-off instant, on the local counter: `None` where no phase is coordinated.
    pub force_off: Option<u32>,
    /// Walk and pedestrian clearance, where the phase has a walk.
    pub crossing: Option<u32>,
}

/// How long after its service began all phases of the preempt's first stage are green, at most, in tenths of a second:
/// its track phases, or its dwell phases where it has no others. `None` for a preempt without dwell phases, which is never
/// served.
///
/// Where no overlap of the plan trails it holds while the preempt stays in that stage, the plan in effect stays and no
/// trip comes, whatever the inputs: `printed_entries_hold` of tsb_laws (profile; a worksheet calls it the
/// right-of-way transfer time). Where an overlap trails it is not proved.
pub fn entry_of(plan: &Plan, preempt: Preempt) -> Option<u32>
    ensures { result ≡ entry_of (plan_of plan.now) preempt }
{
    if has_dwell(plan, preempt) {
        Some(longest_entry(plan, preempt))
    } else {
        None
    }
}

/// The longest entry of the preempt.
fn longest_entry(plan: &Plan, preempt: Preempt) -> u32
    ensures { result ≡ longest_entry (plan_of plan.now) preempt }
{
    if plan.chooses_anew(preempt) && has_no_overlaps(plan) {
        longest_by_choice(plan, preempt)
    } else {
        longest_by_turn(plan, preempt)
    }
}

/// The longest entry where rings serve what they were committed to before.
fn longest_by_turn(plan: &Plan, preempt: Preempt) -> u32
    ensures { result ≡ longest_by_turn (plan_of plan.now) preempt }
{
    let pedestrians = greatest(plan, &PhaseTime::Pedestrians(preempt));
    let waiting = greatest(plan, &PhaseTime::Waiting);
    let clearing = greatest(plan, &PhaseTime::Clearing);
    let green = plan.preempt_minimum_green(preempt);
    pedestrians.max(waiting + green + GREEN_TICKS) + clearing + RING_TICKS
}

/// The longest entry of a preempt that chooses anew.
fn longest_by_choice(plan: &Plan, preempt: Preempt) -> u32
    ensures { result ≡ longest_by_choice (plan_of plan.now) preempt }
{
    let pedestrians = greatest(plan, &PhaseTime::Pedestrians(preempt));
    let clearing = greatest(plan, &PhaseTime::Clearing);
    let reverting = greatest(plan, &PhaseTime::Reverting);
    let green = plan.preempt_minimum_green(preempt);
    pedestrians.max(green + GREEN_TICKS).max(reverting) + clearing + RING_TICKS
}

/// Whether no overlap includes a phase.
fn has_no_overlaps(plan: &Plan) -> bool
    ensures { result ≡ has_no_overlaps (plan_of plan.now) }
{
    Overlap::all()
        .iter()
        .all(|overlap| plan.includes_none(*overlap))
}

/// The greatest that a time is for a phase, be it enabled or not.
#[tactic(auto, unfolding(tsb_plan::specs::PlanOf::plan_of, crate::specs::Worksheet::greatest))]
fn greatest(plan: &Plan, time: &PhaseTime) -> u32
    ensures value { result ≡ greatest (plan_of plan.now) (time_of time.now (plan_of plan.now)) }
    ensures range { result ≤ 1310700 }
{
    let phases = Phase::all();
    let mut greatest = 0;
    for phase in &phases {
        greatest = time_of(plan, time, *phase).max(greatest);
    }
    greatest
}

/// That time of the phase.
fn time_of(plan: &Plan, time: &PhaseTime, phase: Phase) -> u32
    ensures value { result ≡ time_of time.now (plan_of plan.now) phase }
    ensures range { result ≤ 1310700 }
{
    match time {
        PhaseTime::Pedestrians(preempt) => pedestrians_left(plan, *preempt, phase),
        PhaseTime::Clearing => clearing(plan, phase),
        PhaseTime::Waiting => waited_for(plan, phase),
        PhaseTime::Reverting => reverting(plan, phase),
    }
}

/// The walk and the pedestrian clearance of the phase that the preempt leaves.
fn pedestrians_left(plan: &Plan, preempt: Preempt, phase: Phase) -> u32
    ensures value { result ≡ pedestrians_left (plan_of plan.now) preempt phase }
    ensures range { result ≤ 1310700 }
{
    plan.walk(phase).min(plan.preempt_minimum_walk(preempt))
        + plan
            .pedestrian_clear(phase)
            .min(plan.enter_pedestrian_clear(preempt))
}

/// How long the phase clears, or may not start again, or is held in clearance by an overlap that trails, in tenths of a
/// second.
fn clearing(plan: &Plan, phase: Phase) -> u32
    ensures value { result ≡ clearing (plan_of plan.now) phase }
    ensures range { result ≤ 1310700 }
{
    (plan.yellow_change(phase) + plan.red_clear(phase))
        .max(plan.red_revert(phase))
        .max(held(plan, phase))
}

/// How long the phase is waited for while a phase of the other ring may be green still, in tenths of a second: as that ends,
/// an overlap that includes both may begin to trail, late in the clearance.
fn waited_for(plan: &Plan, phase: Phase) -> u32
    ensures value { result ≡ waited_for (plan_of plan.now) phase }
    ensures range { result ≤ 1310700 }
{
    let trail = held(plan, phase);
    let own = plan.yellow_change(phase) + plan.red_clear(phase);
    (own.max(trail) + trail).max(plan.red_revert(phase))
}

/// How long overlaps that trail hold the phase, at most, once a preempt has ended their trailing greens, in tenths of a
/// second.
#[tactic(auto, unfolding(tsb_plan::specs::PlanOf::plan_of, crate::specs::Worksheet::held))]
fn held(plan: &Plan, phase: Phase) -> u32
    ensures value { result ≡ held (plan_of plan.now) phase }
    ensures range { result ≤ 510 }
{
    let overlaps = Overlap::all();
    let mut longest = 0;
    for overlap in &overlaps {
        longest = held_by(plan, *overlap, phase).max(longest);
    }
    longest
}

/// The yellow and red clearance of the overlap's own (`overlapTrailYellow`, `overlapTrailRed`), where it trails and
/// includes the phase, in tenths of a second.
fn held_by(plan: &Plan, overlap: Overlap, phase: Phase) -> u32
    ensures value { result ≡ held_by (plan_of plan.now) phase overlap }
    ensures range { result ≤ 510 }
{
    if plan.trails(overlap) && plan.included_phases(overlap).contains(phase) {
        let index = u32::from(overlap.number());
        plan.at(Object::OverlapTrailYellow, index) + plan.at(Object::OverlapTrailRed, index)
    } else {
        0
    }
}

/// The red revert of the phase.
fn reverting(plan: &Plan, phase: Phase) -> u32
    ensures value { result ≡ red_revert (plan_of plan.now) phase }
    ensures range { result ≤ 1310700 }
{
    plan.red_revert(phase)
}

/// What the used pattern gives the phase, in tenths of a second; `None` where the pattern is not used, or does not serve
/// the phase.
pub fn share_of(plan: &Plan, pattern: Pattern, phase: Phase) -> Option<SplitShare>
    ensures { result ≡ share_of (plan_of plan.now) pattern phase }
{
    if has_share(plan, pattern, phase) {
        Some(share(plan, pattern, phase))
    } else {
        None
    }
}

/// Whether the used pattern serves the phase.
fn has_share(plan: &Plan, pattern: Pattern, phase: Phase) -> bool
    ensures { result ≡ has_share (plan_of plan.now) pattern phase }
{
    plan.is_used(pattern) && plan.is_enabled(phase) && !plan.is_omitted_now(Some(pattern), phase)
}

/// What the pattern gives the phase.
fn share(plan: &Plan, pattern: Pattern, phase: Phase) -> SplitShare
    requires { has_share (plan_of plan.now) pattern phase ≡ true }
    ensures { result ≡ share (plan_of plan.now) pattern phase }
{
    SplitShare {
        split: split_time_in(plan, pattern, phase),
        green: green_of_split(plan, pattern, phase),
        force_off: force_off(plan, pattern, phase),
        crossing: crossing_of(plan, phase),
    }
}

/// Walk and pedestrian clearance of the phase, where it has a walk.
fn crossing_of(plan: &Plan, phase: Phase) -> Option<u32>
    ensures { result ≡ crossing_of (plan_of plan.now) phase }
{
    if has_walk(plan, phase) {
        Some(pedestrian_time(plan, phase))
    } else {
        None
    }
}

/// The force-off instant of the enabled phase in the used pattern, on the local counter.
#[tactic(auto, unfolding(tsb_plan::specs::PlanOf::plan_of, tsb_objects::specs::Instants::force_off))]
fn force_off(plan: &Plan, pattern: Pattern, phase: Phase) -> Option<u32>
    requires used { is_used (plan_of plan.now) pattern ≡ true }
    requires enabled { is_enabled (plan_of plan.now) phase ≡ true }
    ensures { result ≡ force_off (plan_of plan.now) (Some pattern) phase }
{
    match reference(plan, pattern) {
        Some(counted_from) => Some(instant_from(plan, pattern, counted_from, phase)),
        None => None,
    }
}

/// The coordinated phase that instants are counted from: that of ring 1, or else the first.
fn reference(plan: &Plan, pattern: Pattern) -> Option<Phase>
    ensures { result ≡ reference (plan_of plan.now) pattern }
{
    match coordinated_in_ring(plan, pattern, REFERENCE_RING) {
        Some(phase) => Some(phase),
        None => first_coordinated(plan, pattern),
    }
}

/// The first coordinated phase of the ring of that number.
fn coordinated_in_ring(plan: &Plan, pattern: Pattern, ring: u32) -> Option<Phase>
    ensures { result ≡ coordinated_in_ring (plan_of plan.now) pattern ring }
{
    Phase::all()
        .iter()
        .copied()
        .find(|phase| is_coordinated_in(plan, pattern, ring, *phase))
}

/// Whether the phase is a coordinated one, and of the ring of that number.
fn is_coordinated_in(plan: &Plan, pattern: Pattern, ring: u32, phase: Phase) -> bool
    ensures { result ≡ is_coordinated_in (plan_of plan.now) pattern ring phase }
{
    plan.is_coordinated_now(Some(pattern), phase) && plan.ring(phase) == ring
}

/// The first coordinated phase, of whichever ring.
fn first_coordinated(plan: &Plan, pattern: Pattern) -> Option<Phase>
    ensures { result ≡ first_coordinated (plan_of plan.now) pattern }
{
    Phase::all()
        .iter()
        .copied()
        .find(|phase| plan.is_coordinated_now(Some(pattern), *phase))
}
