//! When a test of phase timing next changes, while what a tick gives it stays the same. `u32::MAX` is no tick.
ghost use Rattle.std.specs.Prelude.{◌≡◌, ℕ, ◌+◌, ◌-◌, ◌<◌, ◌≤◌, ◌^◌, true, false};
ghost use Rattle.tsb_cells.specs.Timer.{timer_at, has_reached};
ghost use Rattle.tsb_objects.specs.tsb_types.declared.interval.Interval.TheVariants.{Green, Yellow, RedClear};
ghost use Rattle.tsb_objects.specs.tsb_types.declared.interval.PedestrianInterval.TheVariants.{Walk, PedestrianClear};
ghost use Rattle.tsb_objects.specs.tsb_plan.Plan.{red_revert};
ghost use Rattle.tsb_objects.specs.tsb_plan.PlanOf.{plan_of};
ghost use Rattle.tsb_phase.specs.Green.{initial, gap, has_reached_some};
ghost use Rattle.tsb_phase.specs.Phase.{Given};
ghost use Rattle.tsb_phase.specs.Pedestrian.{ended_by, pedestrian_now};
ghost use Rattle.tsb_phase.specs.Promises.{given_of};
ghost use Rattle.tsb_phase.specs.Cells.{row_in, phase_of, interval_of_row, pedestrian_of_row, IsRowBy};
ghost use Rattle.tsb_phase.specs.Due.{least_of, has_expired, IsKept, IsStill, IsRevertedAs, StaysReverted};

use crate::conditions::Conditions;
use crate::dynamic::acting_maximum;
use crate::green::{
    conflict_cell, count, floating_time, forced_latch, gapped_latch, has_reached, passage_cell,
    reduction_cell,
};
use crate::pedestrian::{
    clearance_time, ended_by, is_resting_in_walk, may_walk_again, pedestrian_of, walk_time,
};
use crate::phase_row::PhaseRow;
use crate::phases::Phases;
use crate::rows::RED_REVERTS;
use crate::times::{gap, initial, ticks_to_gap};
use crate::visit::{held, number_in};
use tsb_cells::Timer;
use tsb_objects::{PedestrianInterval, Phase, Plan};

/// The tick up to which a timer that is On, by its cell, has not reached a limit.
#[inline(always)]
fn until_on(cell: u32, limit: u32) -> u32
    requires on { 1 ≤ cell }
    ensures { (t : ℕ) → cell ≤ t + 1 → t < result → has_reached (timer_at t cell) limit ≡ false }
{
    (cell - 1).saturating_add(limit)
}

/// The tick up to which the timer of a cell has not reached a limit.
#[inline(always)]
fn until(cell: u32, limit: u32) -> u32
    ensures { (t : ℕ) → cell ≤ t + 1 → t < result → has_reached (timer_at t cell) limit ≡ false }
{
    if cell == 0 {
        u32::MAX
    } else {
        until_on(cell, limit)
    }
}

/// The tick up to which the timer of a cell has reached a limit exactly when it has at tick `now`. One comparison finds
/// that it is Off or has reached it, so that a loop over all phases takes several of them at a time.
#[inline(always)]
fn turn(now: u32, cell: u32, limit: u32) -> u32
    requires fits { now + 1 < 2 ^ 32 }
    ensures { (t : ℕ) → cell ≤ now + 1 → now ≤ t → t < result → has_reached (timer_at t cell) limit ≡ has_reached (timer_at now cell) limit }
{
    if cell <= (now + 1).saturating_sub(limit) {
        u32::MAX
    } else {
        until_on(cell, limit)
    }
}

/// The tick up to which the timer of a cell has reached a limit, if there is one, exactly when it has at tick `now`.
#[inline(always)]
fn turn_some(now: u32, cell: u32, limit: Option<u32>) -> u32
    requires fits { now + 1 < 2 ^ 32 }
    ensures { (t : ℕ) → cell ≤ now + 1 → now ≤ t → t < result → has_reached_some (timer_at t cell) limit ≡ has_reached_some (timer_at now cell) limit }
{
    match limit {
        None => u32::MAX,
        Some(limit) => turn(now, cell, limit),
    }
}

/// The tick up to which a walk stays.
fn due_walk(plan: &Plan, conditions: &Conditions, p: Phase, was: &PhaseRow) -> u32
    requires { pedestrian_of_row was.now ≡ Walk }
    ensures { (t : ℕ) → IsRowBy t was.now → t < result →
        pedestrian_now (plan_of plan.now) (given_of conditions.now) p (phase_of t was.now) ≡ pedestrian_of_row was.now }
{
    if is_resting_in_walk(plan, conditions, p) {
        return u32::MAX;
    }
    let time = walk_time(plan, conditions, p);
    until(was.pedestrian_timer, time)
}

/// The tick up to which a pedestrian clearance stays.
fn due_clearance(plan: &Plan, conditions: &Conditions, p: Phase, was: &PhaseRow) -> u32
    requires { pedestrian_of_row was.now ≡ PedestrianClear }
    ensures { (t : ℕ) → IsRowBy t was.now → t < result →
        pedestrian_now (plan_of plan.now) (given_of conditions.now) p (phase_of t was.now) ≡ pedestrian_of_row was.now }
{
    let time = clearance_time(plan, conditions, p);
    until(was.pedestrian_timer, time)
}

/// The tick up to which the pedestrian part of a green stays.
fn due_pedestrian(plan: &Plan, conditions: &Conditions, p: Phase, was: &PhaseRow) -> u32
    ensures { (t : ℕ) → IsRowBy t was.now → t < result →
        pedestrian_now (plan_of plan.now) (given_of conditions.now) p (phase_of t was.now) ≡ pedestrian_of_row was.now }
{
    match pedestrian_of(was) {
        PedestrianInterval::DontWalk => {
            if may_walk_again(conditions, p, was) {
                0
            } else {
                u32::MAX
            }
        }
        PedestrianInterval::Walk => due_walk(plan, conditions, p, was),
        PedestrianInterval::PedestrianClear => due_clearance(plan, conditions, p, was),
    }
}

/// The tick up to which a green has lasted its initial time, and its least time, exactly when it has at tick `now`. The
/// least time is the initial time, shorter under a preempt that ends the green.
#[inline(always)]
fn due_initial(now: u32, plan: &Plan, conditions: &Conditions, p: Phase, cell: u32) -> u32
    requires fits { now + 1 < 2 ^ 32 }
    requires within { cell ≤ now + 1 }
    ensures initial { (t : ℕ) → now ≤ t → t < result → has_reached (timer_at t cell) (initial (plan_of plan.now) p ((given_of conditions.now).count p))
        ≡ has_reached (timer_at now cell) (initial (plan_of plan.now) p ((given_of conditions.now).count p)) }
    ensures least { (t : ℕ) → now ≤ t → t < result → has_reached (timer_at t cell) (least_of (plan_of plan.now) (given_of conditions.now) p (ended_by (given_of conditions.now) p))
        ≡ has_reached (timer_at now cell) (least_of (plan_of plan.now) (given_of conditions.now) p (ended_by (given_of conditions.now) p)) }
{
    let time = initial(plan, p, count(conditions, p));
    let passed = turn(now, cell, time);
    match ended_by(conditions, p) {
        None => passed,
        Some(n) => {
            let least = time.min(plan.preempt_minimum_green(n));
            passed.min(turn(now, cell, least))
        }
    }
}

/// Whether tick `now` leaves the timers and latches of a green as they were.
#[inline(always)]
fn is_kept(now: u32, plan: &Plan, conditions: &Conditions, p: Phase, was: &PhaseRow) -> bool
    requires fits { now + 1 < 2 ^ 32 }
    requires by { IsRowBy now was.now }
    ensures { result ≡ true → IsKept (plan_of plan.now) (given_of conditions.now) p was.now now }
{
    let held = held(now, was);
    passage_cell(now, conditions, p, held) == was.passage
        && conflict_cell(now, conditions, p, held) == was.conflict
        && reduction_cell(now, plan, conditions, p, held) == was.reduction
        && gapped_latch(now, plan, conditions, p, held) == was.gapped
        && forced_latch(now, plan, conditions, p, held) == was.forced
}

/// Whether the gap falls further after tick `now`, by the cell of its reduction timer.
#[inline(always)]
fn is_falling(now: u32, plan: &Plan, p: Phase, cell: u32) -> bool
    requires fits { now + 1 < 2 ^ 32 }
    requires within { cell ≤ now + 1 }
    ensures on { result ≡ true → 1 ≤ cell }
    ensures rests { result ≡ false → (t : ℕ) → now ≤ t → gap (plan_of plan.now) p (timer_at t cell) ≡ gap (plan_of plan.now) p (timer_at now cell) }
{
    cell != 0 && now + 1 - cell < plan.time_to_reduce(p)
}

/// The tick up to which the gap of a green has expired exactly when it has at tick `now`.
fn turn_gap(now: u32, plan: &Plan, p: Phase, was: &PhaseRow) -> u32
    requires fits { now + 1 < 2 ^ 32 }
    requires by { IsRowBy now was.now }
    ensures { (t : ℕ) → now ≤ t → t < result → has_expired (plan_of plan.now) p was.now t ≡ has_expired (plan_of plan.now) p was.now now }
{
    let reduction = Timer::at(now, was.reduction);
    let limit = gap(plan, p, reduction);
    if has_reached(now, was.passage, limit) {
        return u32::MAX;
    }
    if was.passage == 0 || !is_falling(now, plan, p, was.reduction) {
        return until(was.passage, limit);
    }
    let ticks = ticks_to_gap(plan, p, now + 1 - was.passage, now + 1 - was.reduction);
    now.saturating_add(ticks)
}

/// The tick up to which a green keeps still, its red revert aside, where tick `now` leaves its timers and latches as
/// they were.
#[inline(always)]
fn due_kept(now: u32, plan: &Plan, conditions: &Conditions, p: Phase, was: &PhaseRow) -> u32
    requires fits { now + 1 < 2 ^ 32 }
    requires by { IsRowBy now was.now }
    requires is { interval_of_row was.now ≡ Green }
    requires kept { IsKept (plan_of plan.now) (given_of conditions.now) p was.now now }
    ensures { (t : ℕ) → now < t → t < result → IsRevertedAs (plan_of plan.now) p was.now now t →
        IsStill (plan_of plan.now) (given_of conditions.now) p was.now now t }
{
    let part = due_pedestrian(plan, conditions, p, was);
    let initial = due_initial(now, plan, conditions, p, was.timer);
    let gap = turn_gap(now, plan, p, was);
    let time = plan.time_before_reduction(p);
    let before = turn(now, was.conflict, time);
    let running = number_in(was.running_maximum);
    let maximum = acting_maximum(plan, conditions.runs, p, running);
    let most = turn_some(now, was.conflict, maximum);
    let split = floating_time(plan, conditions, p);
    let floating = turn_some(now, was.timer, split);
    part.min(initial)
        .min(gap.min(before))
        .min(most.min(floating))
}

/// The tick up to which a Green phase keeps still, its red revert aside: no further tick, where tick `now` changes its
/// timers or latches.
#[inline(always)]
fn due_green(now: u32, plan: &Plan, conditions: &Conditions, p: Phase, was: &PhaseRow) -> u32
    requires fits { now + 1 < 2 ^ 32 }
    requires by { IsRowBy now was.now }
    requires is { interval_of_row was.now ≡ Green }
    ensures { (t : ℕ) → now < t → t < result → IsRevertedAs (plan_of plan.now) p was.now now t →
        IsStill (plan_of plan.now) (given_of conditions.now) p was.now now t }
{
    if is_kept(now, plan, conditions, p, was) {
        return due_kept(now, plan, conditions, p, was);
    }
    now
}

/// The tick up to which a Yellow phase keeps still, its red revert aside.
#[inline(always)]
fn due_yellow(plan: &Plan, p: Phase, was: &PhaseRow) -> u32
    requires { interval_of_row was.now ≡ Yellow }
    ensures { (given : Given) (now t : ℕ) → IsRowBy now was.now → now < t → t < result → IsRevertedAs (plan_of plan.now) p was.now now t →
        IsStill (plan_of plan.now) given p was.now now t }
{
    let change = plan.yellow_change(p);
    until(was.timer, change)
}

/// The tick up to which a phase in red clearance keeps still, its red revert aside.
#[inline(always)]
fn due_red_clear(now: u32, plan: &Plan, p: Phase, was: &PhaseRow) -> u32
    requires fits { now + 1 < 2 ^ 32 }
    requires by { IsRowBy now was.now }
    requires is { interval_of_row was.now ≡ RedClear }
    ensures { (given : Given) (t : ℕ) → now < t → t < result → IsRevertedAs (plan_of plan.now) p was.now now t →
        IsStill (plan_of plan.now) given p was.now now t }
{
    let clear = plan.red_clear(p);
    turn(now, was.timer, clear)
}

/// The tick up to which a phase in service is still, while what is said of its red revert timer stays the same: that is
/// asked of all phases at once.
#[inline(always)]
fn due_of(now: u32, plan: &Plan, conditions: &Conditions, p: Phase, was: &PhaseRow) -> u32
    requires fits { now + 1 < 2 ^ 32 }
    requires by { IsRowBy now was.now }
    ensures { (t : ℕ) → now < t → t < result → IsRevertedAs (plan_of plan.now) p was.now now t →
        IsStill (plan_of plan.now) (given_of conditions.now) p was.now now t }
{
    if was.right_of_way && !was.clearing {
        due_green(now, plan, conditions, p, was)
    } else if was.right_of_way {
        due_yellow(plan, p, was)
    } else if was.clearing {
        due_red_clear(now, plan, p, was)
    } else {
        now
    }
}

impl Phases {
    ghost use Rattle.tsb_phase.specs.Layer.{cells_of};

    /// The tick up to which what is said of red revert timers stays the same, by each of them. It stays out of line:
    /// mostly none is left to reach its time.
    #[inline(never)]
    fn due_to_revert(&self, now: u32, plan: &Plan) -> u32
        requires fits { now + 1 < 2 ^ 32 }
        ensures { (t p : ℕ) → t < result → 1 ≤ p → p ≤ 16 → StaysReverted (plan_of plan.now) (cells_of self.now) now t p }
    {
        let mut due = u32::MAX;
        for number in 1..17u8 {
            let p = Phase::of(number);
            let cell = self.cell(RED_REVERTS, p);
            let time = plan.red_revert(p);
            let revert = turn(now, cell, time);
            due = due.min(revert);
        }
        due
    }

    /// The tick up to which what is said of red revert timers stays the same. No phase's time is over `longest`.
    #[inline(always)]
    fn reverts_due(&self, now: u32, plan: &Plan, longest: u32) -> u32
        requires fits { now + 1 < 2 ^ 32 }
        requires longest { (p : ℕ) → 1 ≤ p → p ≤ 16 → red_revert (plan_of plan.now) p ≤ longest }
        ensures { (t p : ℕ) → t < result → 1 ≤ p → p ≤ 16 → StaysReverted (plan_of plan.now) (cells_of self.now) now t p }
    {
        if self.may_revert(now, longest) {
            self.due_to_revert(now, plan)
        } else {
            u32::MAX
        }
    }

    /// The tick up to which all phases are still. No red revert time of a phase is over `longest`.
    pub(crate) fn still_until(
        &self,
        now: u32,
        conditions: &Conditions,
        plan: &Plan,
        longest: u32,
    ) -> u32
        requires fits { now + 1 < 2 ^ 32 }
        requires longest { (p : ℕ) → 1 ≤ p → p ≤ 16 → red_revert (plan_of plan.now) p ≤ longest }
        requires by { (p : ℕ) → 1 ≤ p → p ≤ 16 → IsRowBy now (row_in (cells_of self.now) p) }
        ensures { (t p : ℕ) → now < t → t < result → 1 ≤ p → p ≤ 16 →
            IsStill (plan_of plan.now) (given_of conditions.now) p (row_in (cells_of self.now) p) now t }
    {
        let mut due = self.reverts_due(now, plan, longest);
        let mut rest = self.in_service();
        while let Some(p) = rest.pop() {
            let was = self.load(p);
            let turns = due_of(now, plan, conditions, p, &was);
            due = due.min(turns);
        }
        due
    }
}
