//! Overlaps that trail: green after their phases, then in their own yellow and red.
ghost use Rattle.std.specs.Prelude.{◌≡◌, ℕ, ◌+◌, ◌<◌, ◌≤◌, ◌^◌, Bool, true, false};
ghost use Rattle.tsb_cells.specs.declared.timer.Timer.{Timer};
ghost use Rattle.tsb_heads.specs.Overlaps.{is_kept_green};
ghost use Rattle.tsb_objects.specs.tsb_plan.Plan.{Plan as PlanValue};
ghost use Rattle.tsb_objects.specs.tsb_plan.Parts.{is_arrow, trails, trail_green, trail_yellow, trail_red};
ghost use Rattle.tsb_objects.specs.tsb_plan.PlanOf.{plan_of};
ghost use Rattle.tsb_objects.specs.tsb_types.declared.flow.OverlapLights.{OverlapLights};
ghost use Rattle.tsb_overlap.specs.declared.surroundings.Surroundings.{Surroundings};
ghost use Rattle.tsb_overlap.specs.Overlap.{Given, trail_by, trail_green_on, trail_yellow_on, trail_red_on, is_trailing, may_be_kept, trail_settled, lasts, trail_left};
ghost use Rattle.tsb_overlap.specs.Cells.{overlap_of};
ghost use Rattle.tsb_overlap.specs.Parts.{IsPartOf, IsStill};

use crate::parts::{OverlapInterval, Part, reached_at};
use tsb_cells::Timer;
use tsb_objects::{Object, Overlap, Plan};

/// A trailing green as tick `now` begins: it is over with its time, and at once while a preempt is in service.
fn trail_green_on(plan: &Plan, o: Overlap, part: &Part, now: u32, is_preempted: bool) -> Part
    requires fits { now + 1 < 2 ^ 32 }
    requires timer { part.now.timer ≤ now + 1 }
    ensures { IsPartOf now (trail_green_on (plan_of plan.now) o is_preempted (overlap_of now part.now)) result }
{
    if is_preempted || part.has_lasted(now, plan.trail_green(o)) {
        Part::begun(OverlapInterval::Yellow, now)
    } else {
        *part
    }
}

/// A yellow of its own as tick `now` begins: what has lasted its time is followed by the red clearance, if there is
/// one.
fn trail_yellow_on(plan: &Plan, o: Overlap, part: &Part, now: u32) -> Part
    requires fits { now + 1 < 2 ^ 32 }
    requires timer { part.now.timer ≤ now + 1 }
    ensures { IsPartOf now (trail_yellow_on (plan_of plan.now) o (overlap_of now part.now)) result }
{
    if !part.has_lasted(now, plan.trail_yellow(o)) {
        *part
    } else if plan.trail_red(o) == 0 {
        Part::standing(OverlapInterval::Red)
    } else {
        Part::begun(OverlapInterval::RedClear, now)
    }
}

/// A red clearance of its own as tick `now` begins: after its time it is off.
fn trail_red_on(plan: &Plan, o: Overlap, part: &Part, now: u32) -> Part
    requires fits { now + 1 < 2 ^ 32 }
    requires timer { part.now.timer ≤ now + 1 }
    ensures { IsPartOf now (trail_red_on (plan_of plan.now) o (overlap_of now part.now)) result }
{
    if part.has_lasted(now, plan.trail_red(o)) {
        Part::standing(OverlapInterval::Red)
    } else {
        *part
    }
}

/// What an overlap that trails is in as tick `now` begins: what has lasted its time is over.
pub(crate) fn run_on(plan: &Plan, o: Overlap, part: &Part, now: u32, is_preempted: bool) -> Part
    requires fits { now + 1 < 2 ^ 32 }
    requires timer { part.now.timer ≤ now + 1 }
    ensures { IsPartOf now (trail_by (plan_of plan.now) o is_preempted (overlap_of now part.now) part.now.interval) result }
{
    match part.interval {
        OverlapInterval::TrailGreen => trail_green_on(plan, o, part, now, is_preempted),
        OverlapInterval::Yellow => trail_yellow_on(plan, o, part, now),
        OverlapInterval::RedClear => trail_red_on(plan, o, part, now),
        _ => *part,
    }
}

/// Whether an overlap that is in this holds its phases in clearance.
pub(crate) fn holds(part: &Part) -> bool
    ensures { result ≡ is_trailing part.now.interval }
{
    matches!(
        part.interval,
        OverlapInterval::TrailGreen | OverlapInterval::Yellow | OverlapInterval::RedClear
    )
}

/// Whether an overlap that is in this may be green by its phases: it is not in a yellow or red clearance of its own.
fn may_be_kept(part: &Part) -> bool
    ensures { result ≡ may_be_kept part.now.interval }
{
    !matches!(
        part.interval,
        OverlapInterval::Yellow | OverlapInterval::RedClear
    )
}

/// What it is in after tick `now`, of what it was as the tick began: green while its phases keep it green; where they no
/// longer do, in its trailing green, or at once in its yellow while a preempt is in service.
pub(crate) fn settled(part: &Part, now: u32, is_kept: bool, is_preempted: bool) -> Part
    requires fits { now + 1 < 2 ^ 32 }
    requires timer { part.now.timer ≤ now + 1 }
    ensures { (plan : PlanValue) (given : Given) (o : ℕ) → is_kept ≡ is_kept_green plan given.shown o → is_preempted ≡ given.preempted →
        IsPartOf now (trail_settled plan given o (overlap_of now part.now)) result }
{
    if may_be_kept(part) && is_kept {
        return Part::standing(OverlapInterval::Green);
    }
    match part.interval {
        OverlapInterval::Green if is_preempted => Part::begun(OverlapInterval::Yellow, now),
        OverlapInterval::Green => Part::begun(OverlapInterval::TrailGreen, now),
        _ => *part,
    }
}

/// What a timer leaves of a time, in ticks, and the next tick at least.
fn lasts(time: u32, timer: Timer) -> u32
    ensures value { result ≡ lasts time timer }
    ensures range { result ≤ time + 1 }
{
    match timer {
        Timer::Off => time,
        Timer::On(passed) => time.saturating_sub(passed).max(1),
    }
}

/// The trailing green, in ticks, 0 to 2,550.
fn trail_green(plan: &Plan, o: Overlap) -> u32
    ensures value { result ≡ trail_green (plan_of plan.now) o }
    ensures range { result ≤ 2550 }
{
    10 * plan.at(Object::OverlapTrailGreen, u32::from(o.number()))
}

/// The yellow after it, in ticks, 0 to 255.
fn trail_yellow(plan: &Plan, o: Overlap) -> u32
    ensures value { result ≡ trail_yellow (plan_of plan.now) o }
    ensures range { result ≤ 255 }
{
    plan.at(Object::OverlapTrailYellow, u32::from(o.number()))
}

/// The red clearance after that, in ticks, 0 to 255.
fn trail_red(plan: &Plan, o: Overlap) -> u32
    ensures value { result ≡ trail_red (plan_of plan.now) o }
    ensures range { result ≤ 255 }
{
    plan.at(Object::OverlapTrailRed, u32::from(o.number()))
}

/// How long an overlap that is in this holds its phases from tick `now` on, at most: what is left of its times.
pub(crate) fn left(plan: &Plan, o: Overlap, part: &Part, now: u32, is_preempted: bool) -> u32
    requires { now + 1 < 2 ^ 32 }
    ensures { result ≡ trail_left (plan_of plan.now) is_preempted o (overlap_of now part.now) part.now.interval }
{
    let timer = Timer::at(now, part.timer);
    let green = if is_preempted {
        0
    } else {
        trail_green(plan, o)
    };
    let yellow = trail_yellow(plan, o);
    let red = trail_red(plan, o);
    match part.interval {
        OverlapInterval::TrailGreen => lasts(green, timer) + (yellow + red),
        OverlapInterval::Yellow => lasts(yellow, timer) + red,
        OverlapInterval::RedClear => lasts(red, timer),
        _ => 0,
    }
}

/// The tick up to which it stays while phases and preempts do: that at which a timed interval of it is over; `u32::MAX`
/// where none is timed.
pub(crate) fn due(plan: &Plan, o: Overlap, part: &Part, now: u32) -> u32
    ensures { (preempted : Bool) (omitted : ℕ → Bool) (lights : OverlapLights) (seen : Surroundings) (t : ℕ) →
        is_arrow (plan_of plan.now) o ≡ false → trails (plan_of plan.now) o ≡ true → now ≤ t → t < result →
        IsStill (plan_of plan.now) preempted omitted lights seen o part.now now t }
{
    match part.interval {
        OverlapInterval::TrailGreen => reached_at(part.timer, now, plan.trail_green(o)),
        OverlapInterval::Yellow => reached_at(part.timer, now, plan.trail_yellow(o)),
        OverlapInterval::RedClear => reached_at(part.timer, now, plan.trail_red(o)),
        _ => u32::MAX,
    }
}
