//! Flashing yellow arrows: green with the protected turn, flashing with the phases that oppose it.
ghost use Rattle.std.specs.Prelude.{◌≡◌, ℕ, ◌+◌, ◌<◌, ◌≤◌, ◌^◌, ◌&&◌, Bool, true, if◌then◌else◌, Some};
ghost use Rattle.tsb_cells.specs.Timer.{timer_at, has_reached};
ghost use Rattle.tsb_objects.specs.tsb_plan.Plan.{Plan as PlanValue, phases, yellow_change};
ghost use Rattle.tsb_objects.specs.tsb_plan.Parts.{is_included, is_arrow};
ghost use Rattle.tsb_objects.specs.tsb_plan.PlanOf.{plan_of};
ghost use Rattle.tsb_objects.specs.tsb_types.declared.flow.OverlapLights.{OverlapLights};
ghost use Rattle.tsb_objects.specs.tsb_types.Lists.{first};
ghost use Rattle.tsb_objects.specs.tsb_types.Sets.{has};
ghost use Rattle.tsb_overlap.specs.declared.parts.OverlapInterval.TheVariants.{Flashing};
ghost use Rattle.tsb_overlap.specs.Overlap.{Overlap as OverlapState, Given, standing, turn_of, arrow_by, arrow_settled, may_flash, ended_flash, unturned};
ghost use Rattle.tsb_overlap.specs.Cells.{overlap_of};
ghost use Rattle.tsb_overlap.specs.Parts.{IsPartOf, IsStill};
ghost use Rattle.tsb_overlap.specs.Reading.{given_by};

use crate::parts::{OverlapInterval, Part, reached_at};
use crate::surroundings::Surroundings;
use tsb_objects::{Overlap, Phase, Plan};

/// The protected turn of an arrow: its modifier phase. Rule K28 gives each arrow one.
fn turn_of(plan: &Plan, o: Overlap) -> Option<Phase>
    ensures { result ≡ turn_of (plan_of plan.now) o }
{
    plan.modifier_phases(o).first()
}

/// What an arrow is in as tick `now` begins: a yellow that has lasted as that of its phase is over.
pub(crate) fn run_on(plan: &Plan, part: &Part, now: u32) -> Part
    requires fits { now + 1 < 2 ^ 32 }
    requires timer { part.now.timer ≤ now + 1 }
    ensures { IsPartOf now (arrow_by (plan_of plan.now) (overlap_of now part.now) part.now.interval) result }
{
    match (part.interval, part.phase) {
        (OverlapInterval::Yellow, Some(phase)) => {
            if part.has_lasted(now, plan.yellow_change(phase)) {
                Part::standing(OverlapInterval::Red)
            } else {
                *part
            }
        }
        _ => *part,
    }
}

/// Whether an arrow flashes: a phase that it includes has been Green for its delay, its turn is neither in service nor
/// next, no crosswalk forbids it, and it is not omitted.
fn may_flash(
    plan: &Plan,
    o: Overlap,
    turn: Phase,
    seen: &Surroundings,
    now: u32,
    is_omitted: bool,
) -> bool
    requires { now + 1 < 2 ^ 32 }
    ensures { (omitted : ℕ → Bool) (lights : OverlapLights) → omitted o ≡ is_omitted →
        result ≡ may_flash (plan_of plan.now) (given_by now seen.now omitted lights) o turn }
{
    let included = plan.included_phases(o);
    let is_walked = plan.heeds_pedestrians(o) & seen.walks(included);
    let is_open = seen.has_green(included, now, plan.arrow_delay(o));
    !is_omitted & !seen.is_turning(turn) & !is_walked & is_open
}

/// The yellow after flashing: that of the phase that was Green, or where none was, that of the turn.
fn ended_flash(turn: Phase, ended: Option<Phase>, now: u32) -> Part
    requires { now + 1 < 2 ^ 32 }
    ensures { IsPartOf now (ended_flash turn ended) result }
{
    match ended {
        Some(phase) => Part::yellow_of(phase, now),
        None => Part::yellow_of(turn, now),
    }
}

/// What an arrow is in that flashes where it may, and is in another part where not.
fn flashing_or(flashes: bool, other: Part) -> Part
    ensures { (now : ℕ) (said : OverlapState) → IsPartOf now said other → IsPartOf now (if flashes then standing Flashing else said) result }
{
    if flashes {
        Part::standing(OverlapInterval::Flashing)
    } else {
        other
    }
}

/// What an arrow whose turn is not Green is in after tick `now`: a yellow that has begun lasts its time, and a green
/// has one; else it flashes where it may, and what ends has the yellow of the phase that was Green.
fn unturned(part: &Part, turn: Phase, ended: Option<Phase>, flashes: bool, now: u32) -> Part
    requires fits { now + 1 < 2 ^ 32 }
    requires timer { part.now.timer ≤ now + 1 }
    ensures { (plan : PlanValue) (given : Given) (o : ℕ) → flashes ≡ may_flash plan given o turn →
        ended ≡ first (λ p. is_included plan o p && given.was_green p) (phases plan) →
        IsPartOf now (unturned plan given o turn (overlap_of now part.now) part.now.interval) result }
{
    match part.interval {
        OverlapInterval::Yellow => *part,
        OverlapInterval::Green => Part::yellow_of(turn, now),
        OverlapInterval::Flashing => flashing_or(flashes, ended_flash(turn, ended, now)),
        _ => flashing_or(flashes, Part::standing(OverlapInterval::Red)),
    }
}

/// What an arrow is in after tick `now`, of what it was as the tick began: green with its turn; else a yellow that has
/// begun lasts its time; else it flashes where it may, and what ends has a yellow: that of the turn, or of the least phase
/// that it includes which was Green.
pub(crate) fn settled(
    plan: &Plan,
    o: Overlap,
    part: &Part,
    seen: &Surroundings,
    now: u32,
    is_omitted: bool,
) -> Part
    requires fits { now + 1 < 2 ^ 32 }
    requires timer { part.now.timer ≤ now + 1 }
    ensures { (omitted : ℕ → Bool) (lights : OverlapLights) → omitted o ≡ is_omitted →
        IsPartOf now (arrow_settled (plan_of plan.now) (given_by now seen.now omitted lights) o (overlap_of now part.now) (turn_of (plan_of plan.now) o)) result }
{
    let Some(turn) = turn_of(plan, o) else {
        return *part;
    };
    if seen.intervals.green.contains(turn) {
        return Part::standing(OverlapInterval::Green);
    }
    let ended = plan.included_phases(o).intersection(seen.was_green).first();
    let flashes = may_flash(plan, o, turn, seen, now, is_omitted);
    unturned(part, turn, ended, flashes, now)
}

/// The tick at which the yellow of an arrow is over; `u32::MAX` for none, or where it is over at `now`.
fn yellow_due(plan: &Plan, part: &Part, now: u32) -> u32
    ensures { (t p : ℕ) → now ≤ t → t < result → part.now.phase ≡ Some p →
        has_reached (timer_at t part.now.timer) (yellow_change (plan_of plan.now) p) ≡ has_reached (timer_at now part.now.timer) (yellow_change (plan_of plan.now) p) }
{
    match part.phase {
        Some(phase) => reached_at(part.timer, now, plan.yellow_change(phase)),
        None => u32::MAX,
    }
}

/// The tick up to which an arrow stays while phases do: that at which its yellow is over, or at which a green of a
/// phase that it includes has lasted for its delay; `u32::MAX` for none.
pub(crate) fn due(plan: &Plan, o: Overlap, part: &Part, seen: &Surroundings, now: u32) -> u32
    ensures { (preempted : Bool) (omitted : ℕ → Bool) (lights : OverlapLights) (t : ℕ) → is_arrow (plan_of plan.now) o ≡ true → now ≤ t → t < result →
        IsStill (plan_of plan.now) preempted omitted lights seen.now o part.now now t }
{
    match part.interval {
        OverlapInterval::Yellow => yellow_due(plan, part, now),
        _ => seen.green_due(plan.included_phases(o), now, plan.arrow_delay(o)),
    }
}
