//! Whether a tick changes nothing: no delay timer begins or goes off, none is spent or no longer spent, none begins,
//! and the stage in service stays.
ghost use Rattle.tsb_types.specs.declared.limits.TheConstants.{PREEMPTS};
ghost use Rattle.std.specs.Prelude.{◌≡◌, ℕ, ◌+◌, ◌<◌, ◌≤◌, ◌^◌, ◌&&◌, true, false, slice_index};
ghost use Rattle.tsb_cells.specs.Timer.{timer_at, has_reached};
ghost use Rattle.tsb_types.specs.Flow.{interval_of};
ghost use Rattle.tsb_types.specs.Sets.{has_number};
ghost use Rattle.tsb_objects.specs.tsb_plan.Parts.{track_green};
ghost use Rattle.tsb_objects.specs.tsb_plan.PlanOf.{plan_of};
ghost use Rattle.tsb_preempt.specs.Service.{track_timer};
ghost use Rattle.tsb_preempt.specs.Preempts.{may_begin};
ghost use Rattle.tsb_preempt.specs.Done.{DelaysRest, ChangesNothing};
ghost use Rattle.tsb_preempt.specs.Due.{StaysInStage, StaysInService};
ghost use Rattle.tsb_preempt.specs.Rows.{service_of, serving_of, requests_by, IsServiceBy, IsServingBy};

use crate::cells::SPENT;
use crate::due::is_within;
use crate::preempts::Preempts;
use crate::serving::{
    Serving, ends_dwell, has_input, has_reached, is_exit_green, is_track_green, may_begin, requests,
};
use tsb_cells::lists::list;
use tsb_objects::limits::PREEMPTS;
use tsb_objects::{Intervals, NumberSet, Plan, Preempt, Stage};

/// Whether the timer of Track neither begins nor ends Track.
#[inline(always)]
fn stays_in_track(now: u32, plan: &Plan, intervals: &Intervals, s: &Serving) -> bool
    requires { now + 1 < 2 ^ 32 }
    ensures timer { result ≡ true → track_timer (plan_of plan.now) (interval_of intervals.now) (service_of now s.now) ≡ timer_at now s.now.stage_timer }
    ensures goes_on { result ≡ true → has_reached (timer_at now s.now.stage_timer) (track_green (plan_of plan.now) s.now.preempt) ≡ false }
{
    if s.stage_timer == 0 {
        !is_track_green(plan, intervals, s.preempt)
    } else {
        !has_reached(now, s.stage_timer, plan.track_green(s.preempt))
    }
}

/// Whether the stage in service stays as it is.
#[inline(always)]
fn stays_in_stage(now: u32, plan: &Plan, intervals: &Intervals, input: bool, s: &Serving) -> bool
    requires { now + 1 < 2 ^ 32 }
    ensures { IsServiceBy now s.now → result ≡ true → StaysInStage (plan_of plan.now) (interval_of intervals.now) input (service_of now s.now) }
{
    match s.stage {
        Stage::Track => stays_in_track(now, plan, intervals, s),
        Stage::Dwell => !ends_dwell(now, plan, input, s),
        Stage::Exit => !is_exit_green(plan, intervals, s.preempt),
    }
}

/// Whether the service stays as it is.
#[inline(always)]
fn stays_in_service(
    now: u32,
    plan: &Plan,
    intervals: &Intervals,
    inputs: NumberSet,
    was: &Option<Serving>,
) -> bool
    requires { now + 1 < 2 ^ 32 }
    ensures { IsServingBy now was.now → result ≡ true → StaysInService (plan_of plan.now) (interval_of intervals.now) (has_number inputs) (serving_of now was.now) }
{
    match was {
        None => true,
        Some(s) => stays_in_stage(now, plan, intervals, has_input(inputs, s.preempt), s),
    }
}

/// Whether a preempt asks for service, requests it, and may begin.
#[inline(always)]
fn begins(now: u32, plan: &Plan, n: Preempt, asks: bool, cell: u32, was: &Option<Serving>) -> bool
    requires { now + 1 < 2 ^ 32 }
    ensures { result ≡ (asks && (may_begin (serving_of now was.now) n && requests_by now (plan_of plan.now) n asks false cell)) }
{
    asks && may_begin(was, n) && requests(now, plan, n, asks, false, cell)
}

impl Preempts {
    ghost use Rattle.tsb_preempt.specs.Layer.{cells_of};

    /// Whether a preempt of those that ask begins.
    #[inline(always)]
    fn begins(&self, now: u32, plan: &Plan, n: u8, asking: NumberSet, was: &Option<Serving>) -> bool
        requires fits { now + 1 < 2 ^ 32 }
        requires from { 1 ≤ n }
        requires within { n ≤ PREEMPTS }
        ensures { result ≡ (has_number asking n && (may_begin (serving_of now was.now) n && requests_by now (plan_of plan.now) n (has_number asking n) false (slice_index (cells_of self.now) (1 + n)))) }
    {
        begins(
            now,
            plan,
            Preempt::of(n),
            asking.contains(n),
            self.delay(n),
            was,
        )
    }

    /// Whether one of those that ask begins.
    #[inline(always)]
    fn one_begins(&self, now: u32, plan: &Plan, asking: NumberSet, was: &Option<Serving>) -> bool
        requires { now + 1 < 2 ^ 32 }
        ensures { result ≡ false → (n : ℕ) → 1 ≤ n → n ≤ PREEMPTS →
            (has_number asking n && (may_begin (serving_of now was.now) n && requests_by now (plan_of plan.now) n (has_number asking n) false (slice_index (cells_of self.now) (1 + n)))) ≡ false }
    {
        for n in 1..PREEMPTS + 1 {
            if self.begins(now, plan, n, asking, was) {
                return true;
            }
        }
        false
    }

    /// Whether no delay timer begins or goes off, and none ceases to be spent.
    #[inline(always)]
    pub(crate) fn is_settled(&self, inputs: NumberSet) -> bool
        ensures { result ≡ true → (now : ℕ) → DelaysRest now inputs (cells_of self.now) }
    {
        if !self.has_delays(inputs) {
            return false;
        }
        is_within(list(&self.bank, SPENT), inputs)
    }

    /// Whether tick `now`, which finds delay timers settled, changes nothing. `was` is the service that the cells keep.
    #[inline(always)]
    pub(crate) fn is_still(
        &self,
        now: u32,
        plan: &Plan,
        intervals: &Intervals,
        inputs: NumberSet,
        was: &Option<Serving>,
    ) -> bool
        requires fits { now + 1 < 2 ^ 32 }
        requires by { IsServingBy now was.now }
        requires settled { DelaysRest now inputs (cells_of self.now) }
        ensures { result ≡ true → ChangesNothing now (plan_of plan.now) intervals.now inputs (cells_of self.now) was.now }
    {
        let asking = inputs.difference(list(&self.bank, SPENT));
        if self.one_begins(now, plan, asking, was) {
            return false;
        }
        stays_in_service(now, plan, intervals, inputs, was)
    }
}
