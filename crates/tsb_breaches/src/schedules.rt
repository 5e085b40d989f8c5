//! What of a schedule breaks a rule: K24 to K27.
#![tactic(auto, unfolding(tsb_plan::specs::PlanOf::plan_of))]

ghost use Rattle.std.specs.Prelude.{◌≡◌, ◌≤◌};
ghost use Rattle.tsb_plan.specs.PlanOf.{plan_of};
ghost use Rattle.tsb_breaches.specs.Schedules.{asks_for_no_pattern, asks_for_unused, come_together, has_no_events, names_undefined, runs_nothing};

use tsb_plan::{DAY_EVENTS, FREE, Plan};
use tsb_types::{Action, DayEvent, DayPlan, Entry, Pattern};

/// Whether two events of a day plan, the lower number first, are used and come at one minute.
pub(crate) fn come_together(
    plan: &Plan,
    day_plan: DayPlan,
    event: DayEvent,
    other: DayEvent,
) -> bool
    ensures { result ≡ come_together (plan_of plan.now) day_plan event other }
{
    let d = u32::from(day_plan.number());
    let (j, k) = (u32::from(event.number()), u32::from(other.number()));
    j < k
        && plan.action_of(d, j) != 0
        && plan.action_of(d, k) != 0
        && plan.time_of(d, j) == plan.time_of(d, k)
}

/// Whether a day plan has no event.
fn has_no_events(plan: &Plan, day_plan: u32) -> bool
    requires from { 1 ≤ day_plan }
    requires to { day_plan ≤ 16 }
    ensures { result ≡ has_no_events (plan_of plan.now) day_plan }
{
    for event in 1..DAY_EVENTS + 1 {
        if plan.action_of(day_plan, event) != 0 {
            return false;
        }
    }
    true
}

/// Whether an entry names a day plan that has no event.
pub(crate) fn runs_nothing(plan: &Plan, entry: Entry) -> bool
    ensures { result ≡ runs_nothing (plan_of plan.now) entry }
{
    let day_plan = plan.day_plan_of(u32::from(entry.number()));
    day_plan != 0 && has_no_events(plan, day_plan)
}

/// Whether an event of a day plan names an action that is not defined.
pub(crate) fn names_undefined(plan: &Plan, day_plan: DayPlan, event: DayEvent) -> bool
    ensures { result ≡ names_undefined (plan_of plan.now) day_plan event }
{
    let action = plan.action_of(u32::from(day_plan.number()), u32::from(event.number()));
    action != 0 && plan.asked_by(action) == 0
}

/// Whether an action asks for a pattern with a number that none has.
pub(crate) fn asks_for_no_pattern(plan: &Plan, action: Action) -> bool
    ensures { result ≡ asks_for_no_pattern (plan_of plan.now) action }
{
    let number = plan.asked_by(u32::from(action.number()));
    number != 0 && number != FREE && Pattern::new(number).is_none()
}

/// Whether an action asks for a pattern that is not used.
pub(crate) fn asks_for_unused(plan: &Plan, action: Action) -> bool
    ensures { result ≡ asks_for_unused (plan_of plan.now) action }
{
    match Pattern::new(plan.asked_by(u32::from(action.number()))) {
        Some(pattern) => !plan.is_used(pattern),
        None => false,
    }
}
