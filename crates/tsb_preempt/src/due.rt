//! Until which tick nothing happens to the preempts, while their inputs and the intervals of phases stay: when a delay
//! has passed, and when the stage in service ends.
ghost use Rattle.tsb_types.specs.declared.limits.TheConstants.{PREEMPTS};
ghost use Rattle.std.specs.Prelude.{◌≡◌, ℕ, ◌+◌, ◌<◌, ◌≤◌, ◌&&◌, true, false, slice_index, not};
ghost use Rattle.tsb_cells.specs.Timer.{timer_at, has_reached};
ghost use Rattle.tsb_types.specs.Flow.{interval_of};
ghost use Rattle.tsb_types.specs.Sets.{has_number};
ghost use Rattle.tsb_objects.specs.tsb_plan.Parts.{track_green};
ghost use Rattle.tsb_objects.specs.tsb_plan.PlanOf.{plan_of};
ghost use Rattle.tsb_preempt.specs.Service.{track_timer, ends_dwell, exceeds_presence, has_served};
ghost use Rattle.tsb_preempt.specs.Preempts.{may_begin};
ghost use Rattle.tsb_preempt.specs.Rows.{service_of, serving_of, IsServiceBy, IsServingBy, requests_by, delay_cell};
ghost use Rattle.tsb_preempt.specs.Due.{StaysInStage, StaysInService, IsWaiting};

use crate::preempts::Preempts;
use crate::serving::{Serving, has_dwell, has_input, is_exit_green, is_track_green, may_begin};
use tsb_objects::limits::PREEMPTS;
use tsb_objects::{Intervals, NumberSet, Plan, Preempt, Stage};

/// No tick.
const NEVER: u32 = u32::MAX;

/// The tick at which a timer reaches a limit, by its cell; never where it is Off.
#[inline(always)]
fn reached_at(cell: u32, limit: u32) -> u32
    ensures { (t : ℕ) → cell ≤ t + 1 → t < result → has_reached (timer_at t cell) limit ≡ false }
{
    if cell == 0 {
        NEVER
    } else {
        (cell - 1).saturating_add(limit)
    }
}

/// Whether a delay timer runs where its input is on, and is Off where that is off, by its cell.
#[inline(always)]
fn follows(cell: u32, on: bool) -> bool
    ensures { result ≡ true → (t : ℕ) → cell ≡ delay_cell t on cell }
{
    (cell != 0) == on
}

/// Whether each of a set of numbers is in another.
#[inline(always)]
pub(crate) fn is_within(set: NumberSet, other: NumberSet) -> bool
    ensures { result ≡ true → (n : ℕ) → (has_number set n && not (has_number other n)) ≡ false }
{
    set.difference(other).is_empty()
}

/// The tick at which a preempt requests service, where its service may then begin.
#[inline(always)]
fn request_due(
    plan: &Plan,
    n: Preempt,
    on: bool,
    spent: bool,
    cell: u32,
    was: &Option<Serving>,
) -> u32
    ensures { (now t : ℕ) → cell ≤ t + 1 → t < result → (may_begin (serving_of now was.now) n && requests_by t (plan_of plan.now) n on spent cell) ≡ false }
{
    if on && !spent && has_dwell(plan, n) && may_begin(was, n) {
        reached_at(cell, plan.preempt_delay(n))
    } else {
        NEVER
    }
}

/// The tick at which the timer of Track begins, or ends Track.
#[inline(always)]
fn track_due(plan: &Plan, intervals: &Intervals, s: &Serving) -> u32
    ensures stays { (t : ℕ) → t < result → track_timer (plan_of plan.now) (interval_of intervals.now) (service_of t s.now) ≡ timer_at t s.now.stage_timer }
    ensures ends { (t : ℕ) → s.now.stage_timer ≤ t + 1 → t < result → has_reached (timer_at t s.now.stage_timer) (track_green (plan_of plan.now) s.now.preempt) ≡ false }
{
    if s.stage_timer != 0 {
        reached_at(s.stage_timer, plan.track_green(s.preempt))
    } else if is_track_green(plan, intervals, s.preempt) {
        0
    } else {
        NEVER
    }
}

/// The tick at which the maximum presence is reached, if there is one.
#[inline(always)]
fn presence_due(plan: &Plan, s: &Serving) -> u32
    ensures { (t : ℕ) → s.now.timer ≤ t + 1 → t < result → exceeds_presence (plan_of plan.now) (service_of t s.now) ≡ false }
{
    let presence = plan.preempt_maximum_presence(s.preempt);
    if presence != 0 {
        reached_at(s.timer, presence)
    } else {
        NEVER
    }
}

/// The tick at which the minimum duration is reached, while the input is off.
#[inline(always)]
fn duration_due(plan: &Plan, input: bool, s: &Serving) -> u32
    ensures { (t : ℕ) → s.now.timer ≤ t + 1 → t < result → has_served (plan_of plan.now) input (service_of t s.now) ≡ false }
{
    if input {
        NEVER
    } else {
        reached_at(s.timer, plan.minimum_duration(s.preempt))
    }
}

/// The tick at which Dwell ends.
#[inline(always)]
fn dwell_due(plan: &Plan, input: bool, s: &Serving) -> u32
    ensures { (t : ℕ) → s.now.timer ≤ t + 1 → t < result → ends_dwell (plan_of plan.now) input (service_of t s.now) ≡ false }
{
    presence_due(plan, s).min(duration_due(plan, input, s))
}

/// The tick at which something happens to the stage in service.
#[inline(always)]
fn stage_due(plan: &Plan, intervals: &Intervals, input: bool, s: &Serving) -> u32
    ensures { (t : ℕ) → IsServiceBy t s.now → t < result → StaysInStage (plan_of plan.now) (interval_of intervals.now) input (service_of t s.now) }
{
    match s.stage {
        Stage::Track => track_due(plan, intervals, s),
        Stage::Dwell => dwell_due(plan, input, s),
        Stage::Exit => {
            if is_exit_green(plan, intervals, s.preempt) {
                0
            } else {
                NEVER
            }
        }
    }
}

/// The tick at which something happens to the service.
#[inline(always)]
pub(crate) fn service_due(
    plan: &Plan,
    intervals: &Intervals,
    inputs: NumberSet,
    was: &Option<Serving>,
) -> u32
    ensures { (t : ℕ) → IsServingBy t was.now → t < result → StaysInService (plan_of plan.now) (interval_of intervals.now) (has_number inputs) (serving_of t was.now) }
{
    match was {
        None => NEVER,
        Some(s) => stage_due(plan, intervals, has_input(inputs, s.preempt), s),
    }
}

impl Preempts {
    ghost use Rattle.tsb_preempt.specs.Layer.{cells_of, AreDelayed};

    /// Whether the delay timers follow their inputs, so that none begins or goes off.
    #[inline(always)]
    pub(crate) fn has_delays(&self, inputs: NumberSet) -> bool
        ensures { result ≡ true → (t : ℕ) → AreDelayed t inputs (cells_of self.now) (cells_of self.now) }
    {
        for n in 1..PREEMPTS + 1 {
            if !follows(self.delay(n), inputs.contains(n)) {
                return false;
            }
        }
        true
    }

    /// The tick at which a preempt requests service, where its service may then begin.
    #[inline(always)]
    fn request_due(
        &self,
        plan: &Plan,
        n: u8,
        inputs: NumberSet,
        spent: NumberSet,
        was: &Option<Serving>,
    ) -> u32
        requires from { 1 ≤ n }
        requires within { n ≤ PREEMPTS }
        ensures { (now t : ℕ) → slice_index (cells_of self.now) (1 + n) ≤ t + 1 → t < result → IsWaiting now t (plan_of plan.now) (cells_of self.now) inputs spent was.now n }
    {
        request_due(
            plan,
            Preempt::of(n),
            inputs.contains(n),
            spent.contains(n),
            self.delay(n),
            was,
        )
    }

    /// The first tick at which a preempt requests service that may then begin.
    #[inline(always)]
    pub(crate) fn requests_due(
        &self,
        plan: &Plan,
        inputs: NumberSet,
        spent: NumberSet,
        was: &Option<Serving>,
    ) -> u32
        ensures { (now t : ℕ) → ((n : ℕ) → 1 ≤ n → n ≤ PREEMPTS → slice_index (cells_of self.now) (1 + n) ≤ t + 1) → t < result →
            (n : ℕ) → 1 ≤ n → n ≤ PREEMPTS → IsWaiting now t (plan_of plan.now) (cells_of self.now) inputs spent was.now n }
    {
        let mut due = NEVER;
        for n in 1..PREEMPTS + 1 {
            due = due.min(self.request_due(plan, n, inputs, spent, was));
        }
        due
    }
}
