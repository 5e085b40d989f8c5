//! What a plan says of the calendar: entries of its schedule, events of day plans, and actions. Nothing here looks at a
//! date.
#![tactic(auto, unfolding(crate::specs::PlanOf::plan_of))]

ghost use Rattle.std.specs.Prelude.{◌≡◌, ◌==◌, ◌≤◌, ◌*◌, ◌+◌, ◌-◌, not, true};
ghost use Rattle.tsb_plan.specs.Objects.{has_index};
ghost use Rattle.tsb_plan.specs.declared.object.Object.TheVariants.{DayPlanHour};
ghost use Rattle.tsb_plan.specs.PlanOf.{plan_of};
ghost use Rattle.tsb_plan.specs.Schedule.{action_of, asked_by, day_plan_of, event_index, has_bit, has_schedule, names_date, names_month, names_weekday, omitted_by, pattern_for, selected_by, time_of};

use crate::object::Object;
use crate::plan::Plan;

/// How many entries a schedule has.
pub const ENTRIES: u32 = 32;

/// How many day plans there are.
pub const DAY_PLANS: u32 = 16;

/// How many events a day plan has.
pub const DAY_EVENTS: u32 = 16;

/// How many actions there are.
pub const ACTIONS: u32 = 32;

/// What `timebaseAscPattern` has for free operation.
pub const FREE: u32 = 254;

/// The first day of a month that the second half of `timebaseScheduleDate` has.
const SECOND_HALF: u32 = 16;

/// Whether a sum of powers of two has that power; none has one over 31.
fn has_bit(mask: u32, power: u32) -> bool
    requires { power ≤ 31 }
    ensures { result ≡ has_bit mask power }
{
    mask >> power & 1 == 1
}

/// The index of an event of a day plan.
fn event_index(day_plan: u32, event: u32) -> u32
    requires day_plan_from { 1 ≤ day_plan }
    requires day_plan_to { day_plan ≤ 16 }
    requires event_from { 1 ≤ event }
    requires event_to { event ≤ 16 }
    ensures at { result ≡ event_index day_plan event }
    ensures has { has_index DayPlanHour result ≡ true }
{
    DAY_EVENTS * (day_plan - 1) + event
}

/// The pattern that a number of `timebaseAscPattern` asks for, 0 for free operation.
fn pattern_for(number: u32) -> u32
    ensures { result ≡ pattern_for number }
{
    if number == FREE { 0 } else { number }
}

impl Plan {
    /// The day plan of an entry of the schedule, 1 to 32 (`timeBaseScheduleDayPlan`); 0 for an entry that is not used.
    pub fn day_plan_of(&self, entry: u32) -> u32
        requires from { 1 ≤ entry }
        requires to { entry ≤ 32 }
        ensures value { result ≡ day_plan_of (plan_of self.now) entry }
        ensures range { result ≤ 16 }
    {
        self.value(Object::TimeBaseScheduleDayPlan, entry)
    }

    /// Whether an entry names a month, 1 for January (`timeBaseScheduleMonth`).
    pub fn names_month(&self, entry: u32, month: u32) -> bool
        requires from { 1 ≤ entry }
        requires to { entry ≤ 32 }
        requires month { month ≤ 31 }
        ensures { result ≡ names_month (plan_of self.now) entry month }
    {
        has_bit(self.value(Object::TimeBaseScheduleMonth, entry), month)
    }

    /// Whether an entry names a weekday, 1 for Sunday (`timeBaseScheduleDay`).
    pub fn names_weekday(&self, entry: u32, weekday: u32) -> bool
        requires from { 1 ≤ entry }
        requires to { entry ≤ 32 }
        requires weekday { weekday ≤ 31 }
        ensures { result ≡ names_weekday (plan_of self.now) entry weekday }
    {
        has_bit(self.value(Object::TimeBaseScheduleDay, entry), weekday)
    }

    /// Whether an entry names a day of the month (`timeBaseScheduleDate`).
    pub fn names_date(&self, entry: u32, day: u32) -> bool
        requires from { 1 ≤ entry }
        requires to { entry ≤ 32 }
        requires day { day ≤ 31 }
        ensures { result ≡ names_date (plan_of self.now) entry day }
    {
        if day < SECOND_HALF {
            has_bit(self.value(Object::TimeBaseScheduleDate, entry), day)
        } else {
            let dates = self.value(Object::TimeBaseScheduleDate, ENTRIES + entry);
            has_bit(dates, day - SECOND_HALF)
        }
    }

    /// Whether an entry names a day plan: only then does the plan have a schedule.
    pub fn has_schedule(&self) -> bool
        ensures { result ≡ has_schedule (plan_of self.now) }
    {
        for entry in 1..ENTRIES + 1 {
            if self.day_plan_of(entry) != 0 {
                return true;
            }
        }
        false
    }

    /// When an event, 1 to 16, of a day plan, 1 to 16, comes, in minutes after midnight (`dayPlanHour`, `dayPlanMinute`).
    pub fn time_of(&self, day_plan: u32, event: u32) -> u32
        requires day_plan_from { 1 ≤ day_plan }
        requires day_plan_to { day_plan ≤ 16 }
        requires event_from { 1 ≤ event }
        requires event_to { event ≤ 16 }
        ensures value { result ≡ time_of (plan_of self.now) day_plan event }
        ensures range { result ≤ 1439 }
    {
        let index = event_index(day_plan, event);
        60 * self.value(Object::DayPlanHour, index) + self.value(Object::DayPlanMinute, index)
    }

    /// The action of an event of a day plan (`dayPlanActionNumber`); 0 for an event that is not used.
    pub fn action_of(&self, day_plan: u32, event: u32) -> u32
        requires day_plan_from { 1 ≤ day_plan }
        requires day_plan_to { day_plan ≤ 16 }
        requires event_from { 1 ≤ event }
        requires event_to { event ≤ 16 }
        ensures value { result ≡ action_of (plan_of self.now) day_plan event }
        ensures range { result ≤ 32 }
    {
        self.value(Object::DayPlanActionNumber, event_index(day_plan, event))
    }

    /// What an action, 1 to 32, asks for (`timebaseAscPattern`): a pattern, 254 for free operation, or 0 for an action
    /// that is not defined.
    pub fn asked_by(&self, action: u32) -> u32
        requires from { 1 ≤ action }
        requires to { action ≤ 32 }
        ensures value { result ≡ asked_by (plan_of self.now) action }
        ensures range { result ≤ 254 }
    {
        self.value(Object::TimebaseAscPattern, action)
    }

    /// The pattern that an action selects; 0 for free operation, as it is with action 0.
    pub fn selected_by(&self, action: u32) -> u32
        requires to { action ≤ 32 }
        ensures { result ≡ selected_by (plan_of self.now) action }
    {
        if action == 0 {
            return 0;
        }
        pattern_for(self.asked_by(action))
    }

    /// The list of arrows that an action omits, the sum of `2^(overlap - 1)` over them (`actionArrowOmit`, profile). It
    /// is 0 for action 0, no action.
    pub fn omitted_by(&self, action: u32) -> u32
        requires to { action ≤ 32 }
        ensures { result ≡ omitted_by (plan_of self.now) action }
    {
        if action == 0 {
            return 0;
        }
        self.value(Object::ActionArrowOmit, action)
    }
}
