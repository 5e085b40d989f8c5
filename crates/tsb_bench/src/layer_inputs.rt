//! The inputs that change the layers and the monitor: ticks, patterns, clocks, switches, faults and resets.
#![tactic(auto, unfolding(tsb_objects::specs::Checked::checked_plan, tsb_plan::specs::PlanOf::plan_of))]

ghost use Rattle.std.specs.Prelude.{◌≡◌, ℕ, ◌+◌, ◌≤◌, [], None, true, is_some, IfSome};
ghost use Rattle.arrayvec.specs.ArrayVec.{array_vec_len};
ghost use Rattle.tsb_step.specs.Backed.{IsGoodInAll};
ghost use Rattle.tsb_step.specs.Step.{verdict, last_tick};
ghost use Rattle.tsb_step.specs.declared.inputs.Input.TheVariants as inputs;
ghost use Rattle.tsb_plan.specs.PlanOf.{plan_in};
ghost use Rattle.tsb_step.specs.MonitorCells.{lamp_in, trip_in};
ghost use Rattle.tsb_step.specs.MonitorLaws.{IsCause};
ghost use Rattle.tsb_controller.specs.Promises.{IsLit, IsWatchedTick};
ghost use Rattle.tsb_controller.specs.Whole.{AreAllBy, all_in};
ghost use Rattle.tsb_bench.specs.Cabinet.{rows_of, IsShut, IsDone};
ghost use Rattle.tsb_bench.specs.declared.cabinet.TheConstants.{MOST_CELLS};

use crate::cabinet::{Cabinet, Changes};
use tsb_heads::Trip;
use tsb_objects::{NumberSet, Row};
use tsb_types::{ClockTime, Lamp};

impl Cabinet {
    /// The tick after tick number `tick`, with the inputs of `row` on. A tick of a controller that has tripped changes
    /// no cell.
    pub(crate) fn tick(&mut self, tick: u32, row: &Row, out: &mut Changes)
        requires shut { IsShut self.old }
        requires by { AreAllBy tick (rows_of self.old) }
        requires good { IsGoodInAll (all_in tick (rows_of self.old)) }
        requires allowed { verdict (all_in tick (rows_of self.old)) (inputs.Tick row.now) ≡ None }
        requires empty { out.old.items ≡ [] }
        ensures done { IsDone (inputs.Tick row.now) tick (rows_of self.old) (rows_of self.new) out.new.items }
        // What the monitor watched, where the controller has not tripped.
        ensures watched { trip_in (rows_of self.new).monitor ≡ None → IsWatchedTick (tick + 1) row.now
            (lamp_in (rows_of self.new).monitor) (plan_in (rows_of self.new).plan) (rows_of self.old).layers (rows_of self.new).layers None }
        ensures few { array_vec_len out.new ≤ MOST_CELLS }
        ensures shut { IsShut self.new }
    {
        if self.monitor.is_tripped() {
            return;
        }
        let lamp = self.monitor.lamp();
        self.controller.open();
        let found = self
            .controller
            .watched_tick(tick + 1, row, lamp, &self.plan);
        self.controller.close_onto(out);
        if found.is_some() {
            self.monitor.set(&lamp, &found, tick + 1, out);
        }
    }

    /// Selects a pattern at tick number `tick`.
    pub(crate) fn set_pattern(&mut self, tick: u32, n: u32, out: &mut Changes)
        requires shut { IsShut self.old }
        requires by { AreAllBy tick (rows_of self.old) }
        requires allowed { verdict (all_in tick (rows_of self.old)) (inputs.Pattern n) ≡ None }
        requires in_time { tick ≤ last_tick }
        requires empty { out.old.items ≡ [] }
        ensures done { IsDone (inputs.Pattern n) tick (rows_of self.old) (rows_of self.new) out.new.items }
        ensures few { array_vec_len out.new ≤ MOST_CELLS }
        ensures shut { IsShut self.new }
        ensures passing { self.new.passing ≡ self.old.passing }
    {
        self.controller.open();
        self.controller.set_pattern(n, tick, &self.plan);
        self.controller.close_onto(out);
    }

    /// Sets the clock: tick number `tick` is at this moment.
    pub(crate) fn set_clock(&mut self, tick: u32, moment: ClockTime, out: &mut Changes)
        requires shut { IsShut self.old }
        requires by { AreAllBy tick (rows_of self.old) }
        requires in_time { tick ≤ last_tick }
        requires empty { out.old.items ≡ [] }
        ensures done { IsDone (inputs.Clock moment) tick (rows_of self.old) (rows_of self.new) out.new.items }
        ensures few { array_vec_len out.new ≤ MOST_CELLS }
        ensures shut { IsShut self.new }
        ensures passing { self.new.passing ≡ self.old.passing }
    {
        self.controller.open();
        self.controller.set_clock(moment, tick, &self.plan);
        self.controller.close_onto(out);
    }

    /// Omits the arrows of a list, and lets others flash.
    pub(crate) fn omit(&mut self, tick: u32, list: u32, out: &mut Changes)
        requires shut { IsShut self.old }
        requires by { AreAllBy tick (rows_of self.old) }
        requires allowed { verdict (all_in tick (rows_of self.old)) (inputs.Omit list) ≡ None }
        requires empty { out.old.items ≡ [] }
        ensures done { IsDone (inputs.Omit list) tick (rows_of self.old) (rows_of self.new) out.new.items }
        ensures few { array_vec_len out.new ≤ MOST_CELLS }
        ensures shut { IsShut self.new }
        ensures passing { self.new.passing ≡ self.old.passing }
    {
        self.controller.open();
        self.controller.omit(NumberSet::from_list(list as u16));
        self.controller.close_onto(out);
    }

    /// Sets the switch of a preempt.
    pub(crate) fn switch(&mut self, tick: u32, n: u32, on: bool, out: &mut Changes)
        requires shut { IsShut self.old }
        requires by { AreAllBy tick (rows_of self.old) }
        requires allowed { verdict (all_in tick (rows_of self.old)) (inputs.Switch n on) ≡ None }
        requires empty { out.old.items ≡ [] }
        ensures done { IsDone (inputs.Switch n on) tick (rows_of self.old) (rows_of self.new) out.new.items }
        ensures few { array_vec_len out.new ≤ MOST_CELLS }
        ensures shut { IsShut self.new }
        ensures passing { self.new.passing ≡ self.old.passing }
    {
        self.controller.open();
        self.controller.switch(n, on, &self.plan);
        self.controller.close_onto(out);
    }

    /// Lights a lamp in place of the one before, or takes that one out. The monitor judges it at once.
    pub(crate) fn light(&mut self, tick: u32, lamp: &Option<Lamp>, out: &mut Changes)
        requires shut { IsShut self.old }
        requires by { AreAllBy tick (rows_of self.old) }
        requires empty { out.old.items ≡ [] }
        ensures done { IsDone (inputs.Fault lamp.now) tick (rows_of self.old) (rows_of self.new) out.new.items }
        ensures few { array_vec_len out.new ≤ MOST_CELLS }
        ensures shut { IsShut self.new }
        ensures passing { self.new.passing ≡ self.old.passing }
    {
        let found = self.found_with(lamp);
        self.monitor.set(lamp, &found, tick, out);
    }

    /// What the monitor finds when a fault lights the lamp: why the controller trips, if it does.
    fn found_with(&self, lamp: &Option<Lamp>) -> Option<Trip>
        requires by { (tick : ℕ) × AreAllBy tick (rows_of self.now) }
        ensures tripped { is_some (trip_in (rows_of self.now).monitor) ≡ true → result ≡ None }
        ensures lit { trip_in (rows_of self.now).monitor ≡ None →
            IsLit (lamp_in (rows_of self.now).monitor) lamp.now (plan_in (rows_of self.now).plan) (rows_of self.now).layers result }
        ensures cause { IfSome result IsCause }
    {
        if self.monitor.is_tripped() {
            return None;
        }
        self.controller
            .light(&self.monitor.lamp(), lamp, &self.plan)
    }

    /// A controller that has tripped starts anew; any other stays as it is.
    pub(crate) fn reset(&mut self, tick: u32, out: &mut Changes)
        requires shut { IsShut self.old }
        requires by { AreAllBy tick (rows_of self.old) }
        requires in_time { tick ≤ last_tick }
        requires empty { out.old.items ≡ [] }
        ensures done { IsDone inputs.Reset tick (rows_of self.old) (rows_of self.new) out.new.items }
        ensures few { array_vec_len out.new ≤ MOST_CELLS }
        ensures shut { IsShut self.new }
        ensures passing { self.new.passing ≡ self.old.passing }
    {
        if !self.monitor.is_tripped() {
            return;
        }
        self.controller.open();
        self.controller.reset(tick);
        self.controller.close_onto(out);
        self.monitor.clear(out);
    }
}
