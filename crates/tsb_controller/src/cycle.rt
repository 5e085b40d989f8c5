//! The local counter in the next tick, for event logs.
ghost use Rattle.std.specs.Prelude.{◌≡◌, ◌<◌, true};
ghost use Rattle.tsb_objects.specs.Checked.{checked_plan};
ghost use Rattle.tsb_coord.specs.Cells as coord;
ghost use Rattle.tsb_coord.specs.Cycle.{TellsYields, TellsZero};
ghost use Rattle.tsb_step.specs.Step.{last_tick};
ghost use Rattle.tsb_controller.specs.Seen.{KeepsCycle};

use crate::controller::Controller;
use tsb_objects::{Checked, PhaseSet};

impl Controller {
    ghost use Rattle.std.specs.Prelude.{◌+◌};
    ghost use Rattle.tsb_controller.specs.Layer.{rows_of};

    /// Whether the local counter comes to 0 in the tick after tick number `now`, which is not the last.
    pub fn comes_to_zero(&self, now: u32, plan: &Checked) -> bool
        requires in_time { now < last_tick }
        requires pattern_by { coord.IsBy (rows_of self.now).pattern }
        ensures { TellsZero (now + 1) (checked_plan plan.now) (rows_of self.now).pattern result }
    {
        self.coord.is_at_zero(now + 1, plan)
    }

    /// The coordinated phases at their yield point in the tick after tick number `now`, which is not the last.
    pub fn yields(&self, now: u32, plan: &Checked) -> PhaseSet
        requires in_time { now < last_tick }
        requires pattern_by { coord.IsBy (rows_of self.now).pattern }
        ensures { TellsYields (now + 1) (checked_plan plan.now) (rows_of self.now).pattern result }
    {
        self.coord.yields(now + 1, plan)
    }

    /// Whether the local counter, in the tick after tick number `now`, goes on as it did and comes to no place that has
    /// an event. `now` is not the last tick number.
    pub fn keeps_cycle(&self, now: u32, plan: &Checked) -> bool
        requires in_time { now < last_tick }
        requires pattern_by { coord.IsBy (rows_of self.now).pattern }
        ensures { result ≡ true → KeepsCycle now (checked_plan plan.now) (rows_of self.now).pattern }
    {
        if self.coord.cycle_state(now + 1, plan) != self.coord.cycle_state(now, plan) {
            return false;
        }
        if self.comes_to_zero(now, plan) {
            return false;
        }
        self.yields(now, plan).is_empty()
    }
}
