//! The status of the bench.
#![tactic(auto, unfolding(tsb_objects::specs::Checked::checked_plan, tsb_plan::specs::PlanOf::plan_of))]

ghost use Rattle.std.specs.Prelude.{◌≤◌};
ghost use Rattle.tsb_step.specs.Status.{status};
ghost use Rattle.tsb_step.specs.Step.{last_tick};
ghost use Rattle.tsb_status.specs.Alike.{Alike};
ghost use Rattle.tsb_status.specs.Plain.{status_of};
ghost use Rattle.tsb_controller.specs.Whole.{AreAllBy, all_in};
ghost use Rattle.tsb_bench.specs.Cabinet.{rows_of};
ghost use Rattle.tsb_bench.specs.Held.{state_of};

use crate::bench::Bench;
use crate::cabinet::Cabinet;
use tsb_controller::Beside;
use tsb_status::Status;

impl Cabinet {
    /// The status at tick number `tick`.
    fn status(&self, tick: u32) -> Status
        requires by { AreAllBy tick (rows_of self.now) }
        requires limit { tick ≤ last_tick }
        ensures { Alike (status_of result) (status (all_in tick (rows_of self.now))) }
    {
        let beside = Beside {
            tick,
            clock: self.clock(tick),
            tripped: self.monitor.is_tripped(),
            owner: self.desk.owner(),
            desk: self.desk.state(),
        };
        self.controller.status(&beside, &self.plan)
    }
}

impl Bench {
    /// What the controller does, and what phases wait for, by the names of NTCIP 1202's status objects. It takes no
    /// memory.
    pub fn status(&self) -> Status
        ensures { Alike (status_of result) (status (state_of self.now)) }
    {
        self.cabinet.status(self.tick)
    }
}
