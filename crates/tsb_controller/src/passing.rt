//! Ticks that may be passed over, as they change nothing while the inputs stay.
ghost use Rattle.std.specs.Prelude.{◌≡◌, ℕ, ◌+◌, ◌-◌, ◌<◌, ◌≤◌, false, Some, None};
ghost use Rattle.tsb_objects.specs.Checked.{checked_plan};
ghost use Rattle.tsb_step.specs.tsb_plan.PlanOf.{plan_of};
ghost use Rattle.tsb_step.specs.tsb_types.Flow.{target_of};
ghost use Rattle.tsb_step.specs.tsb_types.Sets.{has};
ghost use Rattle.tsb_coord.specs.Cells as coord;
ghost use Rattle.tsb_overlap.specs.Cells as overlaps;
ghost use Rattle.tsb_preempt.specs.Preempts.{is_outside};
ghost use Rattle.tsb_step.specs.Step.{last_tick};
ghost use Rattle.tsb_controller.specs.Rows.{AreBy};
ghost use Rattle.tsb_controller.specs.Passing.{wanted_in, IsSettled, NoneRose, IsSeen, ArePhasesStill, AreOverlapsQuiet, AreOverlapsStill, AreOthersStill, AreQuietUntil, EarlyRecordsLeavePhases, WatchedTicksAreTicked, WatchedTicksPass};

use crate::controller::Controller;
use crate::surroundings::surroundings;
use crate::values::Sensed;
use tsb_detect::Greens;
use tsb_objects::limits::TICKS;
use tsb_objects::{Checked, PhaseSet, Plan, Preempt, Row, Stage};
use tsb_preempt::{PreemptOrders, preempt_of, stage_phases};

/// The list that names phases 1 to 16.
const ALL_PHASES: u16 = 65535;

/// What a preempt that serves these phases asks in a tick in which nothing happens to it.
#[inline(always)]
fn serving(list: PhaseSet) -> PreemptOrders
    ensures target { target_of result.target ≡ target_of (Some list) }
    ensures must_end { (p : ℕ) → 1 ≤ p → p ≤ 16 → has result.must_end p ≡ is_outside (target_of result.target) p }
    ensures ended { result.ended ≡ false }
{
    PreemptOrders {
        target: Some(list),
        must_end: PhaseSet::from_list(ALL_PHASES).difference(list),
        ended: false,
    }
}

/// What is asked where no preempt is in service.
#[inline(always)]
fn idle() -> PreemptOrders
    ensures target { result.target ≡ None }
    ensures must_end { (p : ℕ) → has result.must_end p ≡ false }
    ensures ended { result.ended ≡ false }
{
    PreemptOrders {
        target: None,
        must_end: PhaseSet::empty(),
        ended: false,
    }
}

/// What the stage in service asks in a tick in which nothing happens to it.
#[inline(always)]
fn standing(plan: &Plan, stage: Option<(Preempt, Stage)>) -> PreemptOrders
    ensures target { target_of result.target ≡ wanted_in (plan_of plan.now) stage }
    ensures must_end { (p : ℕ) → 1 ≤ p → p ≤ 16 → has result.must_end p ≡ is_outside (target_of result.target) p }
    ensures ended { result.ended ≡ false }
{
    match stage {
        None => idle(),
        Some((n, stage)) => serving(stage_phases(plan, n, stage)),
    }
}

impl Controller {
    ghost use Rattle.tsb_controller.specs.Layer.{rows_of, IsClosed};

    /// What a tick finds before the calls, where it leaves the phases as they were.
    fn seen(&self, now: u32, plan: &Checked) -> Sensed
        requires in_time { now ≤ last_tick }
        requires pattern_by { coord.IsBy (rows_of self.now).pattern }
        ensures { IsSeen now (checked_plan plan.now) (rows_of self.now) result }
    {
        let outputs = self.detectors.outputs();
        let actuated = self.detectors.actuations();
        Sensed {
            intervals: self.phases.intervals(),
            pedestrians: self.phases.pedestrians(),
            outputs,
            actuated,
            asked: standing(plan.plan(), self.preempts.stage()),
            service: preempt_of(self.preempts.stage()),
            coordination: self.coord.orders(now, plan),
        }
    }

    /// The tick up to which phases stay as tick `now` left them, and report the same. No output of a detector rose in
    /// that tick, so that another one sets no memory and counts no vehicle: calls are found from those in force.
    #[inline(always)]
    fn phases_due(&self, now: u32, row: &Row, plan: &Checked) -> u32
        requires begun { 1 ≤ now }
        requires in_time { now ≤ last_tick }
        requires by { AreBy now (rows_of self.now) }
        requires settled { IsSettled now row.now (checked_plan plan.now) (rows_of self.now) }
        requires calm { NoneRose now (rows_of self.now) }
        ensures later { now < result }
        ensures still { ArePhasesStill now row.now (checked_plan plan.now) (rows_of self.now) result }
    {
        let seen = self.seen(now, plan);
        let called = self.calls.called(&seen.observed(row), plan);
        let conditions = seen.conditions(&called, self.calls.vehicles());
        self.phases.due(now, &conditions, plan)
    }

    /// The tick up to which overlaps stay as tick `now` left them, while phases, rings and preempts do. Most plans have
    /// none that could change.
    #[inline(always)]
    fn overlaps_due(&self, now: u32, plan: &Checked) -> u32
        requires begun { 1 ≤ now }
        requires in_time { now ≤ last_tick }
        requires by { AreBy now (rows_of self.now) }
        requires were { overlaps.IsBy (now - 1) (rows_of self.now).overlaps }
        ensures later { now < result }
        ensures still { AreOverlapsStill now (checked_plan plan.now) (rows_of self.now) result }
    {
        if plan.timed_overlaps().is_empty() {
            return u32::MAX;
        }
        self.some_overlaps_due(now, plan)
    }

    /// The same, where the plan has some.
    #[inline(never)]
    fn some_overlaps_due(&self, now: u32, plan: &Checked) -> u32
        requires begun { 1 ≤ now }
        requires in_time { now ≤ last_tick }
        requires by { AreBy now (rows_of self.now) }
        requires were { overlaps.IsBy (now - 1) (rows_of self.now).overlaps }
        ensures later { now < result }
        ensures still { AreOverlapsQuiet now (checked_plan plan.now) (rows_of self.now) result }
    {
        let green = self.phases.intervals().green;
        let is_preempted = self.preempts.stage().is_some();
        let seen = surroundings(&self.phases, &self.rings, green, is_preempted);
        self.overlaps.due(now, &seen, plan)
    }

    /// The tick up to which detectors, preempts and overlaps stay as tick `now` left them, and coordination asks the same:
    /// at most the one after the last tick that there is.
    fn others_due(&self, now: u32, row: &Row, plan: &Checked) -> u32
        requires begun { 1 ≤ now }
        requires in_time { now ≤ last_tick }
        requires by { AreBy now (rows_of self.now) }
        requires were { overlaps.IsBy (now - 1) (rows_of self.now).overlaps }
        ensures later { now < result }
        ensures within { result ≤ last_tick + 1 }
        ensures still { AreOthersStill now row.now (checked_plan plan.now) (rows_of self.now) result }
    {
        let intervals = self.phases.intervals();
        let _greens = Greens::new(intervals.green, self.phases.since());
        let detectors = self.detectors.due(now, row, plan);
        let preempts = self.preempts.due(now, row, &intervals, plan);
        let coordination = self.coord.due(now, plan);
        let overlaps = self.overlaps_due(now, plan);
        let layers = detectors.min(preempts).min(overlaps);
        layers.min(coordination.min(TICKS + 1))
    }

    /// The first tick after `now` that may change something, where tick `now`, with the inputs of `row` on, changed no
    /// cell but of detectors and calls: each tick before it with the same inputs changes none, and may be passed over.
    /// It is the next tick where something waits to be looked at, and at most the one after the last tick that there is.
    pub fn due(&self, now: u32, row: &Row, plan: &Checked) -> u32
        requires closed { IsClosed self.now }
        requires begun { 1 ≤ now }
        requires in_time { now ≤ last_tick }
        requires by { AreBy now (rows_of self.now) }
        requires settled { IsSettled now row.now (checked_plan plan.now) (rows_of self.now) }
        ensures quiet { AreQuietUntil now row.now (checked_plan plan.now) (rows_of self.now) result }
        ensures later { now < result }
        ensures within { result ≤ last_tick + 1 }
    {
        let others = self.others_due(now, row, plan);
        if others == now + 1 {
            return others;
        }
        let phases = self.phases_due(now, row, plan);
        others.min(phases)
    }
}

/// A monitor that found nothing finds nothing where nothing changes. A tick that the monitor watched is a tick. Where
/// it left the phases as they were and the monitor found nothing, the monitor finds nothing in a later tick that leaves
/// all rows as they are; the bench passes over such ticks.
///
/// Mistake: a monitor that looks from tick 10 on, `judge_from_10` (`would_find_none_at_9`, `would_find_it_at_10`).
/// Witness: `detectors_run_on`, `phases_stay`, `side_stays` and `trips_not` of Examples, a tick that leaves them so.
pub fn watched_ticks_pass()
    ensures ticked { WatchedTicksAreTicked }
    ensures passed { WatchedTicksPass }
{}

/// Where a tick's record ends before the cells of phases, it changed none but those of detectors and calls.
///
/// Mistake: a record without the cells of the preempts, `changes_without` (`has_a_change`, `would_have_none`); one that
/// is judged by its first entry, `begins_before_phases` (`crosses`, `ends_late`, `would_begin_early`).
/// Witness: `can_be` of Examples, with `differs_not`; `occupied_can_be`, with `differs_early` and `ends_early`.
pub fn early_records_leave_phases()
    ensures { EarlyRecordsLeavePhases }
{}
