//! Ticks that change nothing but the tick number: the cabinet passes them over while their inputs stay.
#![tactic(auto, unfolding(tsb_objects::specs::Checked::checked_plan, tsb_plan::specs::PlanOf::plan_of))]

ghost use Rattle.std.specs.Prelude.{◌≡◌, ◌≢◌, ◌+◌, ◌<◌, ◌≤◌, [], true, None};
ghost use Rattle.arrayvec.specs.ArrayVec.{array_vec_len};
ghost use Rattle.tsb_step.specs.Backed.{IsGoodInAll};
ghost use Rattle.tsb_step.specs.Step.{verdict};
ghost use Rattle.tsb_step.specs.declared.inputs.Input.TheVariants as inputs;
ghost use Rattle.tsb_controller.specs.Passing.{ends_before_phases};
ghost use Rattle.tsb_controller.specs.Whole.{AreAllBy, all_in};
ghost use Rattle.tsb_bench.specs.Cabinet.{rows_of, IsShut, IsDone, Passes, MayPass};
ghost use Rattle.tsb_bench.specs.declared.cabinet.TheConstants.{MOST_CELLS};

use crate::cabinet::{Cabinet, Changes};
use tsb_controller::passing::{early_records_leave_phases, watched_ticks_pass};
use tsb_objects::Row;
use tsb_step::Input;
use tsb_step::first_cell::PHASES;

/// Which ticks may be passed over.
#[derive(Clone, Copy)]
pub(crate) struct Passing {
    /// The inputs that such a tick has on: those of the last tick that was worked out.
    pub(crate) row: Row,
    /// The last such tick; 0 where there is none.
    pub(crate) last: u32,
    /// The last tick that was worked out. It is a hint alone: no answer goes by it.
    pub(crate) worked: u32,
}

impl Passing {
    /// No tick.
    pub(crate) fn none() -> Passing
        ensures { result.last ≡ 0 }
    {
        Passing {
            row: Row::all_off(),
            last: 0,
            worked: 0,
        }
    }

    /// Whether the tick after tick number `tick` comes at once behind one that was worked out, with other inputs on.
    #[inline(always)]
    fn is_restless(&self, tick: u32, row: &Row) -> bool
        ensures worked { result ≡ true → self.now.worked ≡ tick }
        ensures others { result ≡ true → row.now ≢ self.now.row }
        ensures restless { self.now.worked ≡ tick → row.now ≢ self.now.row → result ≡ true }
    {
        self.worked == tick && *row != self.row
    }

    /// Whether the tick after tick number `tick` may be passed over, with these inputs on.
    fn covers(&self, tick: u32, row: &Row) -> bool
        ensures ahead { result ≡ true → tick < self.now.last }
        ensures same { result ≡ true → row.now ≡ self.now.row }
        ensures covered { tick < self.now.last → row.now ≡ self.now.row → result ≡ true }
    {
        tick < self.last && *row == self.row
    }
}

/// Whether the last of these entries is of a cell before those of the phases, or there is none. In a tick's record it is
/// then of detectors or calls, and no other cell changed.
#[inline(always)]
fn ends_before_phases(changes: &Changes) -> bool
    ensures { result ≡ ends_before_phases changes.now.items }
{
    match changes.last() {
        None => true,
        Some((cell, _)) => *cell < PHASES,
    }
}

impl Cabinet {
    /// Whether an input at tick number `tick` is a tick that changes nothing but the tick number.
    #[inline(always)]
    pub(crate) fn passes(&self, tick: u32, input: &Input) -> bool
        requires { MayPass tick self.now }
        ensures passes { result ≡ true → Passes input.now tick (rows_of self.now) }
        ensures covered { input.now ≡ inputs.Tick self.now.passing.row → tick < self.now.passing.last → result ≡ true }
    {
        match input {
            Input::Tick(row) => self.passing.covers(tick, row),
            _ => false,
        }
    }

    /// Works out the tick after tick number `tick`. Where it changes no cell but of detectors and calls, those after it
    /// with the same inputs may be passed over, up to the one that is due. Which one that is takes long to find: it is
    /// not asked where the inputs change in each tick.
    pub(crate) fn work_tick(&mut self, tick: u32, row: &Row, out: &mut Changes)
        requires shut { IsShut self.old }
        requires by { AreAllBy tick (rows_of self.old) }
        requires good { IsGoodInAll (all_in tick (rows_of self.old)) }
        requires allowed { verdict (all_in tick (rows_of self.old)) (inputs.Tick row.now) ≡ None }
        requires empty { out.old.items ≡ [] }
        ensures done { IsDone (inputs.Tick row.now) tick (rows_of self.old) (rows_of self.new) out.new.items }
        ensures few { array_vec_len out.new ≤ MOST_CELLS }
        ensures shut { IsShut self.new }
        ensures passing { MayPass (tick + 1) self.new }
    {
        let is_restless = self.passing.is_restless(tick, row);
        let now = tick + 1;
        self.tick(tick, row, out);
        self.passing = Passing {
            row: *row,
            last: 0,
            worked: now,
        };
        if is_restless || !ends_before_phases(out) || self.monitor.is_tripped() {
            return;
        }
        early_records_leave_phases();
        watched_ticks_pass();
        let due = self.controller.due(now, row, &self.plan);
        self.passing.last = due - 1;
    }
}
