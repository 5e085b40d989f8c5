//! Advices on the schedule: A60 to A62. Times of events are in minutes, and cycles in tenths of a second.
#![tactic(auto, unfolding(tsb_plan::specs::PlanOf::plan_of))]

ghost use Rattle.std.specs.Prelude.{◌≡◌, ◌≤◌, IfSome};
ghost use Rattle.std.specs.List.{list_any};
ghost use Rattle.tsb_plan.specs.PlanOf.{plan_of};
ghost use Rattle.tsb_review.specs.Schedules.{comes_soon, covers, ends_within_cycle, is_never_selected, is_open, leaves_day_open, open_date, open_month, open_weekday, pattern_at, selects};
ghost use Rattle.tsb_types.specs.Lists.{run_from};

use tsb_plan::{DAY_EVENTS, DAY_PLANS, ENTRIES, MINUTE, Plan, length_of};
use tsb_types::{DayEvent, DayPlan, Pattern};

/// Whether an entry that is used names a day of a month, where that is this weekday.
fn covers(plan: &Plan, month: u32, day: u32, weekday: u32, entry: u32) -> bool
    requires month { month ≤ 12 }
    requires day { day ≤ 31 }
    requires weekday { weekday ≤ 7 }
    requires from { 1 ≤ entry }
    requires to { entry ≤ 32 }
    ensures { result ≡ covers (plan_of plan.now) month day weekday entry }
{
    plan.day_plan_of(entry) != 0
        && plan.names_month(entry, month)
        && plan.names_weekday(entry, weekday)
        && plan.names_date(entry, day)
}

/// Whether no entry does.
fn is_open(plan: &Plan, month: u32, day: u32, weekday: u32) -> bool
    requires month { month ≤ 12 }
    requires day { day ≤ 31 }
    requires weekday { weekday ≤ 7 }
    ensures { result ≡ is_open (plan_of plan.now) month day weekday }
{
    for entry in 1..ENTRIES + 1 {
        if covers(plan, month, day, weekday, entry) {
            return false;
        }
    }
    true
}

/// The first weekday on which no entry holds of a day of a month.
pub(crate) fn open_weekday(plan: &Plan, month: u32, day: u32) -> Option<u32>
    requires month { month ≤ 12 }
    requires day { day ≤ 31 }
    ensures { result ≡ open_weekday (plan_of plan.now) month day }
{
    for weekday in 1..8u32 {
        if is_open(plan, month, day, weekday) {
            return Some(weekday);
        }
    }
    None
}

/// The first day of a month on which no entry holds.
pub(crate) fn open_date(plan: &Plan, month: u32) -> Option<u32>
    requires from { 1 ≤ month }
    requires to { month ≤ 12 }
    ensures value { result ≡ open_date (plan_of plan.now) month }
    ensures within { IfSome result (λ d. d ≤ 31) }
{
    let length = length_of(month);
    for day in 1..length + 1 {
        if open_weekday(plan, month, day).is_some() {
            return Some(day);
        }
    }
    None
}

/// The first month with a day on which no entry holds.
pub(crate) fn open_month(plan: &Plan) -> Option<u32>
    ensures value { result ≡ open_month (plan_of plan.now) }
    ensures from { IfSome result (λ m. 1 ≤ m) }
    ensures to { IfSome result (λ m. m ≤ 12) }
{
    for month in 1..13u32 {
        if open_date(plan, month).is_some() {
            return Some(month);
        }
    }
    None
}

/// A60: whether the plan has a schedule, and no entry of it holds on some day.
pub(crate) fn leaves_day_open(plan: &Plan) -> bool
    ensures { result ≡ leaves_day_open (plan_of plan.now) }
{
    plan.has_schedule() && open_month(plan).is_some()
}

/// Whether an event of a day plan is used, and its action selects a pattern.
fn selects(plan: &Plan, pattern: u32, day_plan: u32, event: u32) -> bool
    requires day_plan_from { 1 ≤ day_plan }
    requires day_plan_to { day_plan ≤ 16 }
    requires event_from { 1 ≤ event }
    requires event_to { event ≤ 16 }
    ensures { result ≡ selects (plan_of plan.now) pattern day_plan event }
{
    let action = plan.action_of(day_plan, event);
    action != 0 && plan.selected_by(action) == pattern
}

/// Whether an event of a day plan selects the pattern.
fn is_selected_in(plan: &Plan, pattern: u32, day_plan: u32) -> bool
    requires from { 1 ≤ day_plan }
    requires to { day_plan ≤ 16 }
    ensures { result ≡ list_any (selects (plan_of plan.now) pattern day_plan) (run_from 1 16) }
{
    for event in 1..DAY_EVENTS + 1 {
        if selects(plan, pattern, day_plan, event) {
            return true;
        }
    }
    false
}

/// Whether an event of some day plan does.
fn is_selected(plan: &Plan, pattern: u32) -> bool
    ensures { result ≡ list_any (λ d. list_any (selects (plan_of plan.now) pattern d) (run_from 1 16)) (run_from 1 16) }
{
    for day_plan in 1..DAY_PLANS + 1 {
        if is_selected_in(plan, pattern, day_plan) {
            return true;
        }
    }
    false
}

/// A61: whether the plan has a schedule, and no event selects the pattern, which is used.
pub(crate) fn is_never_selected(plan: &Plan, pattern: Pattern) -> bool
    ensures { result ≡ is_never_selected (plan_of plan.now) pattern }
{
    plan.has_schedule() && plan.is_used(pattern) && !is_selected(plan, u32::from(pattern.number()))
}

/// The pattern that an event of a day plan selects, 0 for free operation.
pub(crate) fn pattern_at(plan: &Plan, day_plan: DayPlan, event: DayEvent) -> u32
    ensures { result ≡ pattern_at (plan_of plan.now) day_plan event }
{
    let (d, k) = (u32::from(day_plan.number()), u32::from(event.number()));
    plan.selected_by(plan.action_of(d, k))
}

/// Whether an event is used, and comes after another one, and before a cycle of that one's pattern is over.
fn comes_soon(plan: &Plan, day_plan: DayPlan, event: DayEvent, pattern: Pattern, next: u32) -> bool
    requires from { 1 ≤ next }
    requires to { next ≤ 16 }
    requires pattern { pattern ≡ pattern_at (plan_of plan.now) day_plan event }
    ensures { result ≡ comes_soon (plan_of plan.now) day_plan event next }
{
    let (d, k) = (u32::from(day_plan.number()), u32::from(event.number()));
    let (time, later) = (plan.time_of(d, k), plan.time_of(d, next));
    plan.action_of(d, next) != 0 && time < later && MINUTE * (later - time) < plan.cycle(pattern)
}

/// A62: whether an event of a day plan is used and selects a pattern, and another event comes before a cycle of it is
/// over.
pub(crate) fn ends_within_cycle(plan: &Plan, day_plan: DayPlan, event: DayEvent) -> bool
    ensures { result ≡ ends_within_cycle (plan_of plan.now) day_plan event }
{
    match Pattern::new(pattern_at(plan, day_plan, event)) {
        Some(pattern) => has_soon(plan, day_plan, event, pattern),
        None => false,
    }
}

/// Whether another event comes before a cycle of the pattern of an event is over.
fn has_soon(plan: &Plan, day_plan: DayPlan, event: DayEvent, pattern: Pattern) -> bool
    requires pattern { pattern ≡ pattern_at (plan_of plan.now) day_plan event }
    ensures { result ≡ list_any (comes_soon (plan_of plan.now) day_plan event) (run_from 1 16) }
{
    for next in 1..DAY_EVENTS + 1 {
        if comes_soon(plan, day_plan, event, pattern, next) {
            return true;
        }
    }
    false
}
