//! The controller at power-up, and the inputs between ticks that change its layers: a pattern, a clock, a switch,
//! omitted arrows, a reset, and a commit of the structure.
ghost use Rattle.std.specs.Prelude.{◌≡◌, ◌+◌, ◌<◌, ◌≤◌, ◌^◌, None};
ghost use Rattle.tsb_objects.specs.Checked.{checked_plan};
ghost use Rattle.tsb_coord.specs.Coordinated.{refusal};
ghost use Rattle.tsb_preempt.specs.Preempts.{switch_refusal};
ghost use Rattle.tsb_step.specs.Step.{last_tick};
ghost use Rattle.tsb_ring.specs.Cells as rings;
ghost use Rattle.tsb_coord.specs.Cells as coord;
ghost use Rattle.tsb_controller.specs.Rows.{AreBy};
ghost use Rattle.tsb_controller.specs.Promises.{IsAtPowerUp, IsSelected, IsClocked, IsSwitched, IsOmitted, IsRestarted, IsForgotten, KeepsBy};

use crate::controller::Controller;
use tsb_calls::Calls;
use tsb_coord::Coord;
use tsb_detect::Detectors;
use tsb_objects::{Checked, NumberSet};
use tsb_overlap::TimedOverlaps;
use tsb_phase::Phases;
use tsb_preempt::Preempts;
use tsb_ring::Rings;
use tsb_types::ClockTime;

impl Controller {
    ghost use Rattle.tsb_controller.specs.Layer.{rows_of, kept_of, IsOpen, IsClosed};

    /// The controller at power-up, at tick 0.
    pub fn new() -> Controller
        ensures state { IsAtPowerUp (rows_of result) }
        ensures by { AreBy 0 (rows_of result) }
        ensures closed { IsClosed result }
    {
        Controller {
            detectors: Detectors::new(),
            calls: Calls::new(),
            phases: Phases::new(),
            rings: Rings::new(),
            coord: Coord::new(),
            preempts: Preempts::new(),
            overlaps: TimedOverlaps::new(),
        }
    }

    /// Selects a pattern at tick number `now`, or free operation by 0, and takes the forced latch of every phase back.
    /// `Coord::refusal` says whether it may be selected.
    pub fn set_pattern(&mut self, n: u32, now: u32, plan: &Checked)
        requires opened { IsOpen self.old }
        requires allowed { refusal (checked_plan plan.now) n ≡ None }
        requires pattern_by { coord.IsBy (rows_of self.old).pattern }
        requires in_time { now ≤ last_tick }
        ensures state { IsSelected n now (checked_plan plan.now) (rows_of self.old) (rows_of self.new) }
        ensures by { KeepsBy (rows_of self.old) (rows_of self.new) }
        ensures kept { kept_of self.new ≡ kept_of self.old }
        ensures opened { IsOpen self.new }
    {
        let _done = self.coord.set_pattern(n, now, plan);
        self.phases.unforce();
    }

    /// Sets the clock: tick number `now` is at this moment.
    pub fn set_clock(&mut self, moment: ClockTime, now: u32, plan: &Checked)
        requires opened { IsOpen self.old }
        requires pattern_by { coord.IsBy (rows_of self.old).pattern }
        requires in_time { now ≤ last_tick }
        ensures state { IsClocked moment now (checked_plan plan.now) (rows_of self.old) (rows_of self.new) }
        ensures by { KeepsBy (rows_of self.old) (rows_of self.new) }
        ensures kept { kept_of self.new ≡ kept_of self.old }
        ensures opened { IsOpen self.new }
    {
        self.coord.set_clock(moment, now, plan);
    }

    /// Sets the switch of a preempt. `Preempts::switch_refusal` says whether it may be set.
    pub fn switch(&mut self, n: u32, on: bool, plan: &Checked)
        requires opened { IsOpen self.old }
        requires allowed { switch_refusal (checked_plan plan.now) n on ≡ None }
        ensures state { IsSwitched n on (rows_of self.old) (rows_of self.new) }
        ensures by { KeepsBy (rows_of self.old) (rows_of self.new) }
        ensures kept { kept_of self.new ≡ kept_of self.old }
        ensures opened { IsOpen self.new }
    {
        let _done = self.preempts.switch(n, on, plan);
    }

    /// Omits the arrows of a set, and lets others flash.
    pub fn omit(&mut self, set: NumberSet)
        requires opened { IsOpen self.old }
        ensures state { IsOmitted set (rows_of self.old) (rows_of self.new) }
        ensures by { KeepsBy (rows_of self.old) (rows_of self.new) }
        ensures kept { kept_of self.new ≡ kept_of self.old }
        ensures opened { IsOpen self.new }
    {
        self.overlaps.omit(set);
    }

    /// All layers start anew at tick `now`, as at power-up, except the switches of preempts and the clock.
    pub fn reset(&mut self, now: u32)
        requires opened { IsOpen self.old }
        requires fits { now + 1 < 2 ^ 32 }
        requires by { AreBy now (rows_of self.old) }
        ensures state { IsRestarted now (rows_of self.old) (rows_of self.new) }
        ensures by { AreBy now (rows_of self.new) }
        ensures kept { kept_of self.new ≡ kept_of self.old }
        ensures opened { IsOpen self.new }
    {
        self.detectors.reset(now);
        self.calls.reset(now);
        self.phases.reset(now);
        self.rings.reset(now);
        self.coord.reset(now);
        self.preempts.reset(now);
        self.overlaps.reset(now);
    }

    /// The rings forget the phases that they started last, as after a commit of the structure.
    pub fn forget(&mut self)
        requires opened { IsOpen self.old }
        requires rings_by { rings.IsBy (rows_of self.old).rings }
        ensures state { IsForgotten (rows_of self.old) (rows_of self.new) }
        ensures by { KeepsBy (rows_of self.old) (rows_of self.new) }
        ensures kept { kept_of self.new ≡ kept_of self.old }
        ensures opened { IsOpen self.new }
    {
        self.rings.forget();
    }
}
