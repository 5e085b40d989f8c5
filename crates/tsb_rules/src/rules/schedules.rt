//! Rules K24 to K27: what the schedule of a plan must be.
#![tactic(auto, unfolding(tsb_plan::specs::PlanOf::plan_of))]

ghost use Rattle.std.specs.Prelude.{◌≡◌, ◌≤◌};
ghost use Rattle.tsb_plan.specs.PlanOf.{plan_of};
ghost use Rattle.tsb_rules.specs.ScheduleRules.{actions_are_defined, are_apart, asked_patterns_are_used, asks_well, day_plans_have_events, events_are_apart, has_events, is_apart, names_defined, runs_events};

use tsb_plan::{ACTIONS, DAY_EVENTS, DAY_PLANS, ENTRIES, FREE, Plan};
use tsb_types::Pattern;

/// Whether an event of a day plan comes at another minute than each event with a lower number.
fn is_apart(plan: &Plan, day_plan: u32, event: u32) -> bool
    requires day_plan_from { 1 ≤ day_plan }
    requires day_plan_to { day_plan ≤ 16 }
    requires event_from { 1 ≤ event }
    requires event_to { event ≤ 16 }
    ensures { result ≡ is_apart (plan_of plan.now) day_plan event }
{
    for lower in 1..event {
        if plan.action_of(day_plan, lower) != 0
            && plan.time_of(day_plan, lower) == plan.time_of(day_plan, event)
        {
            return false;
        }
    }
    true
}

/// Whether no two events of a day plan come at one minute.
fn are_apart(plan: &Plan, day_plan: u32) -> bool
    requires from { 1 ≤ day_plan }
    requires to { day_plan ≤ 16 }
    ensures { result ≡ are_apart (plan_of plan.now) day_plan }
{
    for event in 1..DAY_EVENTS + 1 {
        if plan.action_of(day_plan, event) != 0 && !is_apart(plan, day_plan, event) {
            return false;
        }
    }
    true
}

/// K24: whether no two events of a day plan come at one minute.
pub(super) fn events_are_apart(plan: &Plan) -> bool
    ensures { result ≡ events_are_apart (plan_of plan.now) }
{
    for day_plan in 1..DAY_PLANS + 1 {
        if !are_apart(plan, day_plan) {
            return false;
        }
    }
    true
}

/// Whether a day plan has an event.
fn has_events(plan: &Plan, day_plan: u32) -> bool
    requires from { 1 ≤ day_plan }
    requires to { day_plan ≤ 16 }
    ensures { result ≡ has_events (plan_of plan.now) day_plan }
{
    for event in 1..DAY_EVENTS + 1 {
        if plan.action_of(day_plan, event) != 0 {
            return true;
        }
    }
    false
}

/// Whether an entry names no day plan, or one that has events.
fn runs_events(plan: &Plan, entry: u32) -> bool
    requires from { 1 ≤ entry }
    requires to { entry ≤ 32 }
    ensures { result ≡ runs_events (plan_of plan.now) entry }
{
    let day_plan = plan.day_plan_of(entry);
    day_plan == 0 || has_events(plan, day_plan)
}

/// K25: whether each day plan that an entry names has events.
pub(super) fn day_plans_have_events(plan: &Plan) -> bool
    ensures { result ≡ day_plans_have_events (plan_of plan.now) }
{
    for entry in 1..ENTRIES + 1 {
        if !runs_events(plan, entry) {
            return false;
        }
    }
    true
}

/// Whether each action that an event of a day plan names is defined.
fn names_defined(plan: &Plan, day_plan: u32) -> bool
    requires from { 1 ≤ day_plan }
    requires to { day_plan ≤ 16 }
    ensures { result ≡ names_defined (plan_of plan.now) day_plan }
{
    for event in 1..DAY_EVENTS + 1 {
        let action = plan.action_of(day_plan, event);
        if action != 0 && plan.asked_by(action) == 0 {
            return false;
        }
    }
    true
}

/// K26: whether each action that an event names is defined.
pub(super) fn actions_are_defined(plan: &Plan) -> bool
    ensures { result ≡ actions_are_defined (plan_of plan.now) }
{
    for day_plan in 1..DAY_PLANS + 1 {
        if !names_defined(plan, day_plan) {
            return false;
        }
    }
    true
}

/// Whether a number of `timebaseAscPattern` asks for nothing, for free operation, or for a pattern that is used.
fn asks_well(plan: &Plan, number: u32) -> bool
    ensures { result ≡ asks_well (plan_of plan.now) number }
{
    if number == 0 || number == FREE {
        return true;
    }
    match Pattern::new(number) {
        Some(pattern) => plan.is_used(pattern),
        None => false,
    }
}

/// K27: whether each pattern that an action asks for is used.
pub(super) fn asked_patterns_are_used(plan: &Plan) -> bool
    ensures { result ≡ asked_patterns_are_used (plan_of plan.now) }
{
    for action in 1..ACTIONS + 1 {
        if !asks_well(plan, plan.asked_by(action)) {
            return false;
        }
    }
    true
}
