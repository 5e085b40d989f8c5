//! The action of the schedule that is in force, and the arrows that are omitted.
#![tactic(auto, unfolding(tsb_objects::specs::Checked::checked_plan, tsb_plan::specs::PlanOf::plan_of))]

ghost use Rattle.std.specs.Prelude.{◌≡◌, ℕ, ◌≤◌, ◌+◌, ◌/◌, false, IfSome};
ghost use Rattle.tsb_types.specs.Sets.{has_number};
ghost use Rattle.tsb_step.specs.Following.{action};
ghost use Rattle.tsb_step.specs.Step.{last_tick};
ghost use Rattle.tsb_controller.specs.Whole.{AreAllBy, all_in};
ghost use Rattle.tsb_bench.specs.Cabinet.{rows_of};
ghost use Rattle.tsb_bench.specs.Held.{state_of};
ghost use Rattle.tsb_bench.specs.Schedule.{StaysInMinute};

use crate::bench::Bench;
use crate::cabinet::Cabinet;
use tsb_objects::NumberSet;
use tsb_plan::MINUTE;

impl Cabinet {
    /// The action in force as the tick after tick number `tick` begins.
    fn action(&self, tick: u32) -> Option<u32>
        requires by { AreAllBy tick (rows_of self.now) }
        requires limit { tick ≤ last_tick }
        ensures value { result ≡ action (all_in tick (rows_of self.now)) }
        ensures to { IfSome result (λ a. a ≤ 32) }
    {
        let start = self.controller.start()?;
        let plan = self.plan.plan();
        if plan.has_schedule() {
            Some(plan.in_force(start + u64::from(tick)))
        } else {
            None
        }
    }

    /// Whether the tick after tick number `tick` is the last of a minute of the clock, where one is set.
    #[inline(always)]
    fn ends_minute(&self, tick: u32) -> bool
        requires by { AreAllBy tick (rows_of self.now) }
        requires limit { tick ≤ last_tick }
        ensures { result ≡ false → StaysInMinute (all_in tick (rows_of self.now)) }
    {
        match self.controller.start() {
            None => false,
            Some(start) => (start + u64::from(tick) + 1) % u64::from(MINUTE) == 0,
        }
    }
}

impl Bench {
    /// The action of the schedule in force as the next tick begins, 1 to 32, or 0 for none. `None` where no clock is set,
    /// and where the plan has no schedule.
    pub fn action(&self) -> Option<u32>
        ensures value { result ≡ action (state_of self.now) }
        ensures to { IfSome result (λ a. a ≤ 32) }
    {
        self.cabinet.action(self.tick)
    }

    /// The arrows that are omitted.
    pub fn omitted_arrows(&self) -> NumberSet
        ensures { (o : ℕ) → has_number result o ≡ (state_of self.now).omitted o }
    {
        self.cabinet.controller.omitted_arrows()
    }

    /// Whether the next tick is the last of a minute of the clock, where one is set. The action in force can become
    /// another by no other tick.
    #[inline(always)]
    pub fn ends_minute(&self) -> bool
        ensures { result ≡ false → StaysInMinute (state_of self.now) }
    {
        self.cabinet.ends_minute(self.tick)
    }
}
