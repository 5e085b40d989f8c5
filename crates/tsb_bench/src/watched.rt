//! A watched value by itself: the one layer that has it, as it is wound back to find when the value changed.
ghost use Rattle.std.specs.Prelude.{◌≡◌, ◌≢◌, ℕ, true, false};
ghost use Rattle.tsb_controller.specs.Whole.{All, AreAllBy, all_in, all_put_back};
ghost use Rattle.tsb_step.specs.Watches.{watched};
ghost use Rattle.tsb_types.specs.declared.watch.Watch.{Watch as WatchValue};
ghost use Rattle.tsb_bench.specs.Cabinet.{rows_of, IsShut};
ghost use Rattle.tsb_bench.specs.Watched.{Holds, told};

use crate::cabinet::Cabinet;
use crate::monitor_cells::MonitorCells;
use tsb_calls::Calls;
use tsb_controller::undo_part;
use tsb_detect::{Alarm, Detectors};
use tsb_heads::Trip;
use tsb_history::Record;
use tsb_objects::{Detector, Interval, PedestrianInterval, Phase, Preempt, Stage};
use tsb_phase::Phases;
use tsb_preempt::Preempts;
use tsb_step::first_cell::{CALLS, DETECTORS, MONITOR, PHASES, PREEMPTS};
use tsb_types::Watch;

/// The layer that has a watched value, and which of the layer's values that is.
#[derive(Clone, Copy)]
pub(crate) enum WatchedLayer {
    /// The interval of a phase.
    Interval(Phases, Phase),
    /// The pedestrian part of a phase.
    Ped(Phases, Phase),
    /// The vehicle memory of a phase.
    Call(Calls, Phase),
    /// The output of a vehicle detector.
    Output(Detectors, Detector),
    /// The alarm of a vehicle detector.
    Alarm(Detectors, Detector),
    /// The preempt in service, and its stage.
    Stage(Preempts),
    /// The trip of the monitor.
    Trip(MonitorCells),
}

/// A watched value.
#[derive(Clone, Copy, PartialEq, Eq)]
pub(crate) enum Value {
    Interval(Interval),
    Ped(PedestrianInterval),
    Call(bool),
    Output(bool),
    Alarm(Option<Alarm>),
    Stage(Option<(Preempt, Stage)>),
    Trip(Option<(Trip, u32)>),
}

impl Value {
    /// Whether it is the same value.
    pub(crate) fn is_same(&self, other: &Value) -> bool
        ensures same { result ≡ true → self.now ≡ other.now }
        ensures apart { result ≡ false → self.now ≢ other.now }
    {
        *self == *other
    }
}

impl WatchedLayer {
    /// The layer of a watched value, as it is in the cabinet.
    pub(crate) fn of(cabinet: &Cabinet, watch: Watch) -> WatchedLayer
        requires shut { IsShut cabinet.now }
        ensures { Holds watch (rows_of cabinet.now) result }
    {
        let controller = &cabinet.controller;
        match watch {
            Watch::Interval(phase) => WatchedLayer::Interval(*controller.phases(), phase),
            Watch::Ped(phase) => WatchedLayer::Ped(*controller.phases(), phase),
            Watch::Call(phase) => WatchedLayer::Call(*controller.calls(), phase),
            Watch::Output(detector) => WatchedLayer::Output(*controller.detectors(), detector),
            Watch::Alarm(detector) => WatchedLayer::Alarm(*controller.detectors(), detector),
            Watch::Stage => WatchedLayer::Stage(*controller.preempts()),
            Watch::Trip => WatchedLayer::Trip(cabinet.monitor),
        }
    }

    /// Puts back what a record holds of the layer, and says whether it holds anything of it.
    #[inline(always)]
    pub(crate) fn undo(&mut self, change: &Record<'_>) -> bool
        requires held { (watch : WatchValue) × (a : All) × Holds watch a self.old }
        ensures holds { (watch : WatchValue) (a : All) → Holds watch a self.old → Holds watch (all_put_back a change.now.entries) self.new }
        ensures untouched { result ≡ false → self.new ≡ self.old }
    {
        match self {
            WatchedLayer::Interval(phases, _) => undo_part(phases, change, PHASES),
            WatchedLayer::Ped(phases, _) => undo_part(phases, change, PHASES),
            WatchedLayer::Call(calls, _) => undo_part(calls, change, CALLS),
            WatchedLayer::Output(detectors, _) => undo_part(detectors, change, DETECTORS),
            WatchedLayer::Alarm(detectors, _) => undo_part(detectors, change, DETECTORS),
            WatchedLayer::Stage(preempts) => undo_part(preempts, change, PREEMPTS),
            WatchedLayer::Trip(monitor) => undo_part(&mut monitor.bank, change, MONITOR),
        }
    }

    /// The value.
    pub(crate) fn value(&self) -> Value
        requires held { (watch : WatchValue) × (now : ℕ) × (a : All) × Holds watch a self.now × AreAllBy now a }
        ensures { (watch : WatchValue) (now : ℕ) (a : All) → Holds watch a self.now → AreAllBy now a → told result ≡ watched watch (all_in now a) }
    {
        match self {
            WatchedLayer::Interval(phases, phase) => Value::Interval(phases.interval(*phase)),
            WatchedLayer::Ped(phases, phase) => Value::Ped(phases.ped(*phase)),
            WatchedLayer::Call(calls, phase) => Value::Call(calls.vehicle(*phase)),
            WatchedLayer::Output(detectors, detector) => Value::Output(detectors.output(*detector)),
            WatchedLayer::Alarm(detectors, detector) => Value::Alarm(detectors.alarm(*detector)),
            WatchedLayer::Stage(preempts) => Value::Stage(preempts.stage()),
            WatchedLayer::Trip(monitor) => Value::Trip(monitor.trip()),
        }
    }
}
