//! The status of a ring, from its phase in service as it is given.
ghost use Rattle.std.specs.Prelude.{◌≡◌, Some, None, if◌then◌else◌};
ghost use Rattle.tsb_step.specs.tsb_types.Intervals.{is_clearance, is_green, is_red_clear, is_walk, is_yellow};
ghost use Rattle.tsb_objects.specs.Checked.{checked_plan};
ghost use Rattle.tsb_step.specs.Waits.{left};
ghost use Rattle.tsb_status.specs.RingBy.{green_part_by, maximum_by, part_by, ring_by, served_by, times_minimum_by};

use crate::status::RingStatus;
use crate::times::{
    GreenFound, clearance_left, gap_left, gap_of, has_gapped, initial_left, left, walk_left,
};
use tsb_objects::{Checked, Interval, Overlap, PedestrianInterval, Phase};
use tsb_phase::{PhaseTimes, Phases};
use tsb_step::RingPart;

/// A phase in service, as it is given.
#[derive(Clone, Copy)]
pub struct PhaseFound {
    /// Its number.
    pub phase: Phase,
    /// What is kept of it.
    pub times: PhaseTimes,
    /// What its green depends on beside.
    pub found: GreenFound,
    /// The least overlap that holds it in clearance in the next tick, and how long it does so still, at most.
    pub holder: Option<(Overlap, u32)>,
}

/// A value where a test holds.
fn when(test: bool, value: u32) -> Option<u32>
    ensures { result ≡ (if test then Some value else None) }
{
    if test { Some(value) } else { None }
}

/// Whether the interval is Green.
fn is_green(interval: Interval) -> bool
    ensures { result ≡ is_green interval }
{
    matches!(interval, Interval::Green)
}

/// Whether the interval is Yellow.
fn is_yellow(interval: Interval) -> bool
    ensures { result ≡ is_yellow interval }
{
    matches!(interval, Interval::Yellow)
}

/// Whether the interval is RedClear.
fn is_red_clear(interval: Interval) -> bool
    ensures { result ≡ is_red_clear interval }
{
    matches!(interval, Interval::RedClear)
}

/// Whether the part is Walk.
fn is_walk(part: PedestrianInterval) -> bool
    ensures { result ≡ is_walk part }
{
    matches!(part, PedestrianInterval::Walk)
}

/// Whether the part is PedestrianClear.
fn is_clearance(part: PedestrianInterval) -> bool
    ensures { result ≡ is_clearance part }
{
    matches!(part, PedestrianInterval::PedestrianClear)
}

/// Whether the initial time of a green, its walk or its pedestrian clearance has time left.
fn times_minimum(plan: &Checked, q: &PhaseFound) -> bool
    ensures { result ≡ times_minimum_by (checked_plan plan.now) q.now }
{
    let initial = initial_left(plan, q.phase, &q.found, &q.times);
    let walk = walk_left(plan, q.phase, &q.found, &q.times);
    let walks = is_walk(q.times.pedestrian) && 0 < walk;
    (0 < initial || walks) || is_clearance(q.times.pedestrian)
}

/// What is left of the maximum that acts on a green with a conflict.
fn maximum_left(plan: &Checked, q: &PhaseFound) -> Option<u32>
    ensures { result ≡ maximum_by (checked_plan plan.now) q.now }
{
    let running = q.times.running_maximum;
    match Phases::maximum(plan, q.found.runs, q.phase, running) {
        None => None,
        Some(maximum) => Some(left(maximum, q.times.conflict)),
    }
}

/// The part of a green.
fn green_part(plan: &Checked, q: &PhaseFound) -> RingPart
    ensures { result ≡ green_part_by (checked_plan plan.now) q.now }
{
    if times_minimum(plan, q) {
        return RingPart::MinimumGreen;
    }
    if !has_gapped(plan, q.phase, &q.found, &q.times) {
        return RingPart::Extension;
    }
    if q.times.conflict.is_on() {
        RingPart::Maximum
    } else {
        RingPart::GreenRest
    }
}

/// The part of a ring that serves a phase.
fn part(plan: &Checked, q: &PhaseFound) -> RingPart
    ensures { result ≡ part_by (checked_plan plan.now) q.now }
{
    match q.times.interval {
        Interval::Red => RingPart::RedRest,
        Interval::Green => green_part(plan, q),
        Interval::Yellow => RingPart::YellowChange,
        Interval::RedClear => RingPart::RedClearance,
    }
}

/// The status of a ring that serves a phase.
fn serving(
    plan: &Checked,
    next: Option<Phase>,
    q: &PhaseFound,
    force_off_in: Option<u32>,
) -> RingStatus
    ensures { result ≡ served_by (checked_plan plan.now) next q.now force_off_in }
{
    let green = is_green(q.times.interval);
    let maxes = green && q.times.conflict.is_on();
    RingStatus {
        part: part(plan, q),
        phase: Some(q.phase),
        next,
        initial_left: when(green, initial_left(plan, q.phase, &q.found, &q.times)),
        gap: when(green, gap_of(plan, q.phase, q.times.reduction)),
        gap_left: when(green, gap_left(plan, q.phase, &q.times)),
        maximum_left: if maxes { maximum_left(plan, q) } else { None },
        walk_left: when(
            is_walk(q.times.pedestrian),
            walk_left(plan, q.phase, &q.found, &q.times),
        ),
        clearance_left: when(
            is_clearance(q.times.pedestrian),
            clearance_left(plan, q.phase, &q.found, &q.times),
        ),
        yellow_left: when(
            is_yellow(q.times.interval),
            left(plan.plan().yellow_change(q.phase), q.times.timer),
        ),
        red_clearance_left: when(
            is_red_clear(q.times.interval),
            left(plan.plan().red_clear(q.phase), q.times.timer),
        ),
        force_off_in,
    }
}

/// The status of a ring with this commitment and phase in service, if any; `force_off_in` is the time until the force-off
/// instant of a Green phase in a pattern.
pub fn ring(
    plan: &Checked,
    next: Option<Phase>,
    served: &Option<PhaseFound>,
    force_off_in: Option<u32>,
) -> RingStatus
    ensures { result ≡ ring_by (checked_plan plan.now) next served.now force_off_in }
{
    match served {
        None => RingStatus {
            part: RingPart::RedRest,
            phase: None,
            next,
            initial_left: None,
            gap: None,
            gap_left: None,
            maximum_left: None,
            walk_left: None,
            clearance_left: None,
            yellow_left: None,
            red_clearance_left: None,
            force_off_in: None,
        },
        Some(q) => serving(plan, next, q, force_off_in),
    }
}
