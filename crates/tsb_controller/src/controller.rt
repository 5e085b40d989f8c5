//! The layers that have a part in a tick, and the tick that joins them.
ghost use Rattle.std.specs.Prelude.{◌≡◌, ℕ, ◌-◌, ◌≤◌, Bool};
ghost use Rattle.tsb_objects.specs.Checked.{checked_plan};
ghost use Rattle.tsb_calls.specs.Cells as calls;
ghost use Rattle.tsb_phase.specs.Cells as phases;
ghost use Rattle.tsb_ring.specs.Cells as rings;
ghost use Rattle.tsb_overlap.specs.Cells as overlaps;
ghost use Rattle.tsb_step.specs.Step.{last_tick};
ghost use Rattle.tsb_step.specs.tsb_types.Sets.{has};
ghost use Rattle.tsb_controller.specs.Found.{IsSensed, IsRunOn, IsHeldBack, IsMoved, IsGivenUp, IsGivenUpFor, IsGivenUpOutside, IsFollowing, IsSettled, LeavesAllButRings, LeavesAllButOverlaps, TellsLasting};
ghost use Rattle.tsb_controller.specs.Rows.{AreBy};
ghost use Rattle.tsb_controller.specs.Promises.{IsTicked};

use crate::carry::carry_out;
use crate::surroundings::surroundings;
use crate::values::{Movement, Sensed};
use tsb_calls::Calls;
use tsb_coord::Coord;
use tsb_detect::{Detectors, Greens};
use tsb_heads::some_overlap_lasts;
use tsb_objects::{Called, Checked, PhaseSet, Ring, Row, Timing};
use tsb_overlap::TimedOverlaps;
use tsb_phase::Phases;
use tsb_preempt::{Preempts, preempt_of};
use tsb_ring::{RingOrder, Rings};

/// The seven layers that have a part in a tick. Their cells change between `open` and `close_onto`.
#[derive(Clone, Copy)]
pub struct Controller {
    pub(crate) detectors: Detectors,
    pub(crate) calls: Calls,
    pub(crate) phases: Phases,
    pub(crate) rings: Rings,
    pub(crate) coord: Coord,
    pub(crate) preempts: Preempts,
    pub(crate) overlaps: TimedOverlaps,
}

/// The timing of phases, some held in clearance by overlaps that trail: these are not over.
#[inline(always)]
fn holding(timing: &Timing, held: PhaseSet) -> Timing
    ensures { IsHeldBack held timing.now result }
{
    Timing {
        over: timing.over.difference(held),
        ..*timing
    }
}

impl Controller {
    ghost use Rattle.tsb_controller.specs.Layer.{rows_of, kept_of, IsOpen};

    /// Tick `now`, a tenth of a second, with the inputs of `row` on, of a controller that has not tripped.
    #[inline(always)]
    pub fn tick(&mut self, now: u32, row: &Row, plan: &Checked)
        requires opened { IsOpen self.old }
        requires begun { 1 ≤ now }
        requires in_time { now ≤ last_tick }
        requires by { AreBy (now - 1) (rows_of self.old) }
        ensures state { IsTicked now row.now (checked_plan plan.now) (rows_of self.old) (rows_of self.new) }
        ensures by { AreBy now (rows_of self.new) }
        ensures kept { kept_of self.new ≡ kept_of self.old }
        ensures opened { IsOpen self.new }
    {
        let sensed = self.sense(now, row, plan);
        let called = self.calls.tick(&sensed.observed(row), plan);
        let held = self.run_on(now, &sensed, plan);
        let movement = self.proceed(now, &sensed, &called, held, plan);
        self.give_up(&sensed, plan);
        self.settle(now, &sensed, plan);
        self.calls.settle(&sensed.decided(&called, &movement));
    }

    /// What the tick finds before the calls: it sees the phases as they were, runs preempts and detectors, and asks
    /// coordination.
    #[inline(always)]
    pub(crate) fn sense(&mut self, now: u32, row: &Row, plan: &Checked) -> Sensed
        requires opened { IsOpen self.old }
        requires begun { 1 ≤ now }
        requires in_time { now ≤ last_tick }
        requires by { AreBy (now - 1) (rows_of self.old) }
        ensures sensed { IsSensed now row.now (checked_plan plan.now) (rows_of self.old) (rows_of self.new) result }
        ensures kept { kept_of self.new ≡ kept_of self.old }
        ensures opened { IsOpen self.new }
    {
        let intervals = self.phases.intervals();
        let asked = self.preempts.tick(now, row, &intervals, plan);
        let greens = Greens::new(intervals.green, self.phases.since());
        self.detectors.tick(now, row, &greens, plan);
        Sensed {
            intervals,
            pedestrians: self.phases.pedestrians(),
            outputs: self.detectors.outputs(),
            actuated: self.detectors.actuations(),
            asked,
            service: preempt_of(self.preempts.stage()),
            coordination: self.coord.orders(now, plan),
        }
    }

    /// Arrows and overlaps that trail run on as the tick begins. It gives the phases that those which trail hold in
    /// clearance. Most plans have none.
    #[inline(always)]
    fn run_on(&mut self, now: u32, sensed: &Sensed, plan: &Checked) -> PhaseSet
        requires opened { IsOpen self.old }
        requires begun { 1 ≤ now }
        requires in_time { now ≤ last_tick }
        requires overlaps_by { overlaps.IsBy (now - 1) (rows_of self.old).overlaps }
        ensures run_on { IsRunOn now sensed.now (checked_plan plan.now) (rows_of self.old) (rows_of self.new) result }
        ensures kept { kept_of self.new ≡ kept_of self.old }
        ensures opened { IsOpen self.new }
    {
        if plan.timed_overlaps().is_empty() {
            return PhaseSet::empty();
        }
        self.overlaps.run_on(now, sensed.service.is_some(), plan)
    }

    /// What the tick does with what it has found: the times of phases run, the rings decide, and their moves are
    /// carried out on phases and rings. Phases that overlaps hold are not over.
    fn proceed(
        &mut self,
        now: u32,
        sensed: &Sensed,
        called: &Called,
        held: PhaseSet,
        plan: &Checked,
    ) -> Movement
        requires opened { IsOpen self.old }
        requires begun { 1 ≤ now }
        requires in_time { now ≤ last_tick }
        requires calls_by { calls.IsBy (rows_of self.old).calls }
        requires phases_by { phases.IsBy (now - 1) (rows_of self.old).phases }
        requires rings_by { rings.IsBy (rows_of self.old).rings }
        ensures moved { IsMoved now sensed.now called.now held (checked_plan plan.now) (rows_of self.old) (rows_of self.new) result }
        ensures kept { kept_of self.new ≡ kept_of self.old }
        ensures opened { IsOpen self.new }
    {
        let conditions = sensed.conditions(called, self.calls.vehicles());
        let timing = holding(&self.phases.tick(now, &conditions, plan), held);
        let moves = self.rings.decide(&sensed.for_rings(called, &timing), plan);
        carry_out(&mut self.phases, &moves, now, &timing, &conditions, plan);
        self.rings.act(&moves, RingOrder::Ring1First);
        Movement { timing, moves }
    }

    /// Arrows and overlaps that trail follow the phases and the rings, as they are now. Most plans have none.
    #[inline(always)]
    fn settle(&mut self, now: u32, sensed: &Sensed, plan: &Checked)
        requires opened { IsOpen self.old }
        requires in_time { now ≤ last_tick }
        requires rings_by { rings.IsBy (rows_of self.old).rings }
        requires overlaps_by { overlaps.IsBy now (rows_of self.old).overlaps }
        ensures settled { IsSettled now sensed.now (checked_plan plan.now) (rows_of self.old) (rows_of self.new) }
        ensures overlaps_by { overlaps.IsBy now (rows_of self.new).overlaps }
        ensures rest { LeavesAllButOverlaps (rows_of self.old) (rows_of self.new) }
        ensures kept { kept_of self.new ≡ kept_of self.old }
        ensures opened { IsOpen self.new }
    {
        if plan.timed_overlaps().is_empty() {
            return;
        }
        self.settle_some(now, sensed, plan);
    }

    /// The same, where the plan has some.
    #[inline(never)]
    fn settle_some(&mut self, now: u32, sensed: &Sensed, plan: &Checked)
        requires opened { IsOpen self.old }
        requires in_time { now ≤ last_tick }
        requires rings_by { rings.IsBy (rows_of self.old).rings }
        requires overlaps_by { overlaps.IsBy now (rows_of self.old).overlaps }
        ensures following { IsFollowing now sensed.now (checked_plan plan.now) (rows_of self.old) (rows_of self.new) }
        ensures overlaps_by { overlaps.IsBy now (rows_of self.new).overlaps }
        ensures kept { kept_of self.new ≡ kept_of self.old }
        ensures opened { IsOpen self.new }
    {
        let was_green = sensed.intervals.green;
        let is_preempted = sensed.service.is_some();
        let seen = surroundings(&self.phases, &self.rings, was_green, is_preempted);
        self.overlaps.settle(now, &seen, plan);
    }

    /// The rings give up what they are committed to outside the target, where the preempt in service chooses anew, and
    /// no overlap lasts through a clearance by a commitment.
    #[inline(always)]
    fn give_up(&mut self, sensed: &Sensed, plan: &Checked)
        requires opened { IsOpen self.old }
        requires rings_by { rings.IsBy (rows_of self.old).rings }
        ensures given { IsGivenUp sensed.now (checked_plan plan.now) (rows_of self.old) (rows_of self.new) }
        ensures rings_by { rings.IsBy (rows_of self.new).rings }
        ensures rest { LeavesAllButRings (rows_of self.old) (rows_of self.new) }
        ensures kept { kept_of self.new ≡ kept_of self.old }
        ensures opened { IsOpen self.new }
    {
        self.give_up_for(sensed.chosen_anew(plan), plan);
    }

    /// The rings give up what they are committed to outside these phases, if a preempt chooses them, and no overlap
    /// lasts through a clearance by a commitment.
    #[inline(always)]
    fn give_up_for(&mut self, target: Option<PhaseSet>, plan: &Checked)
        requires opened { IsOpen self.old }
        requires rings_by { rings.IsBy (rows_of self.old).rings }
        ensures given { IsGivenUpFor target (checked_plan plan.now) (rows_of self.old) (rows_of self.new) }
        ensures rings_by { rings.IsBy (rows_of self.new).rings }
        ensures rest { LeavesAllButRings (rows_of self.old) (rows_of self.new) }
        ensures kept { kept_of self.new ≡ kept_of self.old }
        ensures opened { IsOpen self.new }
    {
        if let Some(target) = target {
            self.give_up_outside(target, plan);
        }
    }

    /// The rings give up what they are committed to outside these phases, where no overlap lasts through a clearance by
    /// a commitment.
    #[inline(never)]
    fn give_up_outside(&mut self, target: PhaseSet, plan: &Checked)
        requires opened { IsOpen self.old }
        requires rings_by { rings.IsBy (rows_of self.old).rings }
        ensures given { IsGivenUpOutside (has target) (checked_plan plan.now) (rows_of self.old) (rows_of self.new) }
        ensures kept { kept_of self.new ≡ kept_of self.old }
        ensures opened { IsOpen self.new }
    {
        if !self.overlap_lasts(plan) {
            self.rings.give_up(target, plan);
        }
    }

    /// Whether an overlap lasts through a clearance by a commitment, as phases and rings are now.
    fn overlap_lasts(&self, plan: &Checked) -> bool
        requires rings_by { rings.IsBy (rows_of self.now).rings }
        ensures { TellsLasting (checked_plan plan.now) (rows_of self.now) result }
    {
        some_overlap_lasts(
            &self.phases.intervals(),
            self.rings.commitment(Ring::of(1)),
            self.rings.commitment(Ring::of(2)),
            plan,
        )
    }
}
