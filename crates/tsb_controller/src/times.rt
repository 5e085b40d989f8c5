//! Times of phases that have not passed yet, as the log of a controller sees them.
ghost use Rattle.std.specs.Prelude.{◌≡◌, ◌-◌, ◌≤◌, ◌&&◌, ℕ, length, slice_index};
ghost use Rattle.tsb_cells.specs.Timer.{is_below, timer_at};
ghost use Rattle.tsb_step.specs.tsb_types.Sets.{has};
ghost use Rattle.tsb_step.specs.tsb_plan.Plan.{minimum_green, red_clear};
ghost use Rattle.tsb_step.specs.tsb_plan.PlanOf.{plan_of};
ghost use Rattle.tsb_objects.specs.Checked.{checked_plan};
ghost use Rattle.tsb_controller.specs.Seen.{TellsMinimums, TellsRedTimings};

use crate::controller::Controller;
use crate::seen::shown_intervals;
use tsb_objects::{Checked, Phase, PhaseSet, Plan};

/// Whether the timer of a cell is on at tick `now`, and below a limit.
#[inline(always)]
fn is_below(now: u32, cell: u32, limit: u32) -> bool
    ensures { result ≡ is_below (timer_at now cell) limit }
{
    if cell == 0 {
        false
    } else {
        (u64::from(now) + 1).saturating_sub(u64::from(cell)) < u64::from(limit)
    }
}

/// Whether the interval timer of a phase is on at tick `now`, and below a limit, by the cells of the timers.
#[inline(always)]
fn is_timing(since: &[u32], p: Phase, now: u32, limit: u32) -> bool
    requires { length since.now ≡ 16 }
    ensures { result ≡ is_below (timer_at now (slice_index since.now (p - 1))) limit }
{
    is_below(now, since[usize::from(p.number()) - 1], limit)
}

/// Those of some phases whose red clearance has not passed at tick `now`, by the cells of the interval timers.
fn within_red_clearance(phases: PhaseSet, since: &[u32], now: u32, plan: &Plan) -> PhaseSet
    requires { length since.now ≡ 16 }
    ensures { (p : ℕ) → 1 ≤ p → p ≤ 16 → has result p ≡ (has phases p && is_below (timer_at now (slice_index since.now (p - 1))) (red_clear (plan_of plan.now) p)) }
{
    let mut timing = PhaseSet::empty();
    let mut rest = phases;
    while let Some(p) = rest.pop() {
        timing = timing.joined(p, is_timing(since, p, now, plan.red_clear(p)));
    }
    timing
}

/// Those of some phases whose minimum green has not passed at tick `now`, by the cells of the interval timers.
fn within_minimum(phases: PhaseSet, since: &[u32], now: u32, plan: &Plan) -> PhaseSet
    requires { length since.now ≡ 16 }
    ensures { (p : ℕ) → 1 ≤ p → p ≤ 16 → has result p ≡ (has phases p && is_below (timer_at now (slice_index since.now (p - 1))) (minimum_green (plan_of plan.now) p)) }
{
    let mut timing = PhaseSet::empty();
    let mut rest = phases;
    while let Some(p) = rest.pop() {
        timing = timing.joined(p, is_timing(since, p, now, plan.minimum_green(p)));
    }
    timing
}

impl Controller {
    ghost use Rattle.tsb_controller.specs.Layer.{rows_of};

    /// The phases in red clearance whose time has not passed, of a controller that has tripped or has not. Timers are
    /// read at tick `clock`: the tick number, or that of the trip.
    pub fn red_timings(&self, tripped: bool, clock: u32, plan: &Checked) -> PhaseSet
        ensures { TellsRedTimings clock (checked_plan plan.now) tripped (rows_of self.now) result }
    {
        let intervals = self.phases.intervals();
        let shown = shown_intervals(tripped, &intervals);
        let clearing = shown
            .red_clear
            .difference(shown.green)
            .difference(shown.yellow);
        within_red_clearance(clearing, self.phases.since(), clock, plan.plan())
    }

    /// Likewise the Green phases whose minimum green has not passed.
    pub fn minimums(&self, tripped: bool, clock: u32, plan: &Checked) -> PhaseSet
        ensures { TellsMinimums clock (checked_plan plan.now) tripped (rows_of self.now) result }
    {
        let intervals = self.phases.intervals();
        let shown = shown_intervals(tripped, &intervals);
        within_minimum(shown.green, self.phases.since(), clock, plan.plan())
    }
}
