//! Which action of a schedule is in force at a moment.
#![tactic(auto, unfolding(crate::specs::PlanOf::plan_of))]

ghost use Rattle.std.specs.Prelude.{◌≡◌, ◌≤◌, IfSome, None};
ghost use Rattle.tsb_types.specs.Lists.{or_number, run_from};
ghost use Rattle.tsb_plan.specs.Holding.{holding};
ghost use Rattle.tsb_plan.specs.Acting.{action_before, action_on, day_at, has_come, in_force, later_event, latest, searched};
ghost use Rattle.tsb_plan.specs.PlanOf.{plan_of};

use crate::plan::Plan;
use crate::plan::schedule::DAY_EVENTS;
use tsb_types::DAY;

/// The last minute of a day.
const LAST_MINUTE: u32 = 1439;

/// How many days are searched back.
const SEARCHED: u32 = 365;

/// The days from 1996-01-01, from which days of schedules are counted, to 1999-12-24, from which moments are.
const DAYS_EARLIER: u32 = 1453;

/// The tenths of a second of a minute.
pub const MINUTE: u32 = 600;

impl Plan {
    /// Whether an event of a day plan is used, and has come at that minute of a day.
    fn has_come(&self, day_plan: u32, minute: u32, event: u32) -> bool
        requires day_plan_from { 1 ≤ day_plan }
        requires day_plan_to { day_plan ≤ 16 }
        requires event_from { 1 ≤ event }
        requires event_to { event ≤ 16 }
        ensures { result ≡ has_come (plan_of self.now) day_plan minute event }
    {
        self.action_of(day_plan, event) != 0 && self.time_of(day_plan, event) <= minute
    }

    /// The later of an event of a day plan, where there is one, and of one with a greater number, if that has come.
    fn later_event(&self, day_plan: u32, minute: u32, last: Option<u32>, event: u32) -> Option<u32>
        requires day_plan_from { 1 ≤ day_plan }
        requires day_plan_to { day_plan ≤ 16 }
        requires event_from { 1 ≤ event }
        requires event_to { event ≤ 16 }
        requires last_from { IfSome last (λ k. 1 ≤ k) }
        requires last_to { IfSome last (λ k. k ≤ 16) }
        ensures value { result ≡ later_event (plan_of self.now) day_plan minute last event }
        ensures from { IfSome result (λ k. 1 ≤ k) }
        ensures to { IfSome result (λ k. k ≤ 16) }
    {
        if !self.has_come(day_plan, minute, event) {
            return last;
        }
        match last {
            None => Some(event),
            Some(last) => Some(if self.time_of(day_plan, last) < self.time_of(day_plan, event) {
                event
            } else {
                last
            }),
        }
    }

    /// The latest event of a day plan that has come at that minute.
    fn latest(&self, day_plan: u32, minute: u32) -> Option<u32>
        requires day_plan_from { 1 ≤ day_plan }
        requires day_plan_to { day_plan ≤ 16 }
        ensures value { result ≡ latest (plan_of self.now) day_plan minute None (run_from 1 16) }
        ensures from { IfSome result (λ k. 1 ≤ k) }
        ensures to { IfSome result (λ k. k ≤ 16) }
    {
        let mut found = None;
        for event in 1..DAY_EVENTS + 1 {
            found = self.later_event(day_plan, minute, found, event);
        }
        found
    }

    /// The action of a day itself at a minute; none where no event has come. The day is counted from 1996-01-01.
    pub fn action_on(&self, day: u32, minute: u32) -> Option<u32>
        requires day { day ≤ 1000000 }
        ensures value { result ≡ action_on (plan_of self.now) day minute }
        ensures to { IfSome result (λ a. a ≤ 32) }
    {
        let entry = self.holding(day)?;
        let day_plan = self.day_plan_of(entry);
        if day_plan == 0 {
            return None;
        }
        let event = self.latest(day_plan, minute)?;
        Some(self.action_of(day_plan, event))
    }

    /// The last action of the days of a year before a day.
    fn action_before(&self, day: u32) -> Option<u32>
        requires day { day ≤ 1000000 }
        ensures value { result ≡ action_before (plan_of self.now) searched day }
        ensures to { IfSome result (λ a. a ≤ 32) }
    {
        for n in 0..SEARCHED {
            if let Some(action) = self.action_on(day.saturating_sub(n + 1), LAST_MINUTE) {
                return Some(action);
            }
        }
        None
    }

    /// The entry that holds of the day of a moment, 0 where none does.
    pub fn holding_at(&self, moment: u64) -> u32
        requires moment { moment ≤ 40000000000 }
        ensures value { result ≡ or_number (holding (plan_of self.now) (day_at moment)) 0 }
        ensures within { result ≤ 32 }
    {
        let day = (moment / u64::from(DAY)) as u32 + DAYS_EARLIER;
        self.holding(day).unwrap_or(0)
    }

    /// The action in force at a moment, in tenths of a second from 1999-12-24 00:00: that of the latest event at or
    /// before it, of the days before where none has come that day, searched back a year at most. It is 0 where none of a
    /// year has come.
    #[tactic(auto, unfolding(crate::specs::PlanOf::plan_of, crate::specs::Acting::action_at))]
    pub fn in_force(&self, moment: u64) -> u32
        requires moment { moment ≤ 40000000000 }
        ensures value { result ≡ in_force (plan_of self.now) moment }
        ensures to { result ≤ 32 }
    {
        let day = (moment / u64::from(DAY)) as u32 + DAYS_EARLIER;
        let minute = (moment % u64::from(DAY)) as u32 / MINUTE;
        match self.action_on(day, minute) {
            Some(action) => action,
            None => self.action_before(day).unwrap_or(0),
        }
    }
}
