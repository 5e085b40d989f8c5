//! Schedules: which action is in force at a moment, by days and times worked by hand.

use tsb_plan::{Object, ObjectId, Plan};
use tsb_rules::{Rule, check};
use tsb_types::clock_time::FIRST_DAY;
use tsb_types::{ClockTime, DAY};

/// All months, weekdays and days of the month.
const ALL: [(Object, u32, u32); 4] = [
    (Object::TimeBaseScheduleMonth, 1, 8190),
    (Object::TimeBaseScheduleDay, 1, 254),
    (Object::TimeBaseScheduleDate, 1, 65_534),
    (Object::TimeBaseScheduleDate, 33, 65_535),
];

/// Entry 1 on all days, with day plan 1: action 1 from 7:00 and action 2 from 9:30. Entry 2 on Sundays of January alone,
/// with day plan 2: action 3 from 10:00. Action 3 is free operation.
const WEEK: [(Object, u32, u32); 18] = [
    (Object::TimeBaseScheduleDayPlan, 1, 1),
    (Object::TimeBaseScheduleMonth, 2, 2),
    (Object::TimeBaseScheduleDay, 2, 2),
    (Object::TimeBaseScheduleDate, 2, 65_534),
    (Object::TimeBaseScheduleDate, 34, 65_535),
    (Object::TimeBaseScheduleDayPlan, 2, 2),
    (Object::DayPlanHour, 1, 7),
    (Object::DayPlanActionNumber, 1, 1),
    (Object::DayPlanHour, 2, 9),
    (Object::DayPlanMinute, 2, 30),
    (Object::DayPlanActionNumber, 2, 2),
    (Object::DayPlanHour, 17, 10),
    (Object::DayPlanActionNumber, 17, 3),
    (Object::TimebaseAscPattern, 1, 1),
    (Object::TimebaseAscPattern, 2, 2),
    (Object::TimebaseAscPattern, 3, 254),
    (Object::PatternCycleTime, 1, 60),
    (Object::PatternCycleTime, 2, 60),
];

/// A plan with these values.
fn with_values(plan: &mut Plan, values: &[(Object, u32, u32)]) -> bool {
    values.iter().all(|(object, index, value)| {
        let id = ObjectId {
            object: *object,
            index: *index,
        };
        plan.put(id, *value).is_ok()
    })
}

/// The plan of the week.
fn weekly() -> Plan {
    let mut plan = Plan::empty();
    if with_values(&mut plan, &ALL) && with_values(&mut plan, &WEEK) {
        return plan;
    }
    Plan::empty()
}

/// The moment of an hour and a minute of a day, which is counted from 2000-01-01, a Saturday.
fn moment(day: u32, hour: u32, minute: u32) -> u64 {
    u64::from(FIRST_DAY + day) * u64::from(DAY) + u64::from(36_000 * hour + 600 * minute)
}

#[test]
fn events_come_at_their_minute(rt: HostRuntime) {
    let plan = weekly();
    // Saturday 2000-01-01: the action of the day before, and those of the day.
    assert!(rt; plan.in_force(moment(0, 6, 59)) == 2 && plan.in_force(moment(0, 7, 0)) == 1);
    assert!(rt;
        plan.in_force(moment(0, 7, 0) - 1) == 2 && plan.in_force(moment(0, 7, 0) + 599) == 1
    );
    assert!(rt; plan.in_force(moment(0, 9, 29)) == 1 && plan.in_force(moment(0, 9, 30)) == 2);
}

#[test]
fn an_entry_with_fewer_days_holds(rt: HostRuntime) {
    let plan = weekly();
    // Sunday 2000-01-02: entry 2, whose day plan has one event.
    assert!(rt; plan.in_force(moment(1, 7, 0)) == 2 && plan.in_force(moment(1, 10, 0)) == 3);
    // Monday: up to its first event the action of Sunday.
    assert!(rt; plan.in_force(moment(2, 6, 59)) == 3 && plan.in_force(moment(2, 7, 0)) == 1);
    // Sunday 2000-02-06, which entry 2 does not name.
    assert!(rt; plan.in_force(moment(36, 7, 0)) == 1 && plan.in_force(moment(36, 10, 0)) == 2);
}

#[test]
fn a_leap_day_is_a_day(rt: HostRuntime) {
    let mut plan = weekly();
    // Entry 3 on February 29 alone, with the day plan of Sundays.
    let values = [
        (Object::TimeBaseScheduleMonth, 3, 4),
        (Object::TimeBaseScheduleDay, 3, 254),
        (Object::TimeBaseScheduleDate, 35, 8192),
        (Object::TimeBaseScheduleDayPlan, 3, 2),
    ];
    assert!(rt; with_values(&mut plan, &values));
    // 2000-02-28, 02-29 and 03-01 are days 58, 59 and 60; 2001-03-01 is day 425.
    assert!(rt; plan.in_force(moment(58, 10, 0)) == 2 && plan.in_force(moment(59, 10, 0)) == 3);
    assert!(rt; plan.in_force(moment(60, 10, 0)) == 2 && plan.in_force(moment(425, 10, 0)) == 2);
}

#[test]
fn nothing_is_searched_beyond_a_year(rt: HostRuntime) {
    let mut plan = weekly();
    // Only January 1 has an entry.
    let values = [
        (Object::TimeBaseScheduleMonth, 1, 2),
        (Object::TimeBaseScheduleDate, 1, 2),
        (Object::TimeBaseScheduleDate, 33, 0),
        (Object::TimeBaseScheduleDayPlan, 2, 0),
    ];
    assert!(rt; with_values(&mut plan, &values));
    // 2000-12-31 is 365 days after 2000-01-01, whose last event is in force then. The day after it is beyond.
    assert!(rt; plan.in_force(moment(365, 23, 59)) == 2 && plan.in_force(moment(366, 6, 59)) == 0);
    assert!(rt; plan.in_force(moment(366, 7, 0)) == 1 && plan.has_schedule());
    assert!(rt; with_values(&mut plan, &[(Object::TimeBaseScheduleDayPlan, 1, 0)]));
    assert!(rt; plan.in_force(moment(366, 7, 0)) == 0 && !plan.has_schedule());
}

#[test]
fn actions_select_patterns(rt: HostRuntime) {
    let plan = weekly();
    assert!(rt; plan.selected_by(1) == 1 && plan.selected_by(2) == 2);
    assert!(rt; plan.selected_by(3) == 0 && plan.selected_by(0) == 0);
}

#[test]
fn actions_omit_arrows(rt: HostRuntime) {
    let mut plan = weekly();
    assert!(rt; with_values(&mut plan, &[(Object::ActionArrowOmit, 2, 5)]));
    assert!(rt; plan.omitted_by(0) == 0 && plan.omitted_by(1) == 0);
    assert!(rt; plan.omitted_by(2) == 5 && plan.omitted_by(32) == 0);
}

/// The first rule that the quad of phases breaks with these values besides those of the week without its cycles.
fn broken(values: &[(Object, u32, u32)]) -> Result<(), Rule> {
    let mut plan = Plan::quad();
    let is_put = with_values(&mut plan, &ALL)
        && with_values(&mut plan, &WEEK[..13])
        && with_values(&mut plan, &[(Object::TimebaseAscPattern, 3, 254)])
        && with_values(&mut plan, &[(Object::TimebaseAscPattern, 1, 254)])
        && with_values(&mut plan, &[(Object::TimebaseAscPattern, 2, 254)])
        && with_values(&mut plan, values);
    if is_put { check(&plan) } else { Err(Rule::K1) }
}

#[test]
fn schedules_meet_their_rules(rt: HostRuntime) {
    assert!(rt; broken(&[]) == Ok(()));
    // Two events at 9:30, and a minute apart.
    let (hour, minute) = ((Object::DayPlanHour, 3, 9), (Object::DayPlanMinute, 3, 30));
    let later = (Object::DayPlanMinute, 3, 31);
    let used = (Object::DayPlanActionNumber, 3, 1);
    assert!(rt; broken(&[hour, minute, used]) == Err(Rule::K24));
    assert!(rt; broken(&[hour, later, used]) == Ok(()) && broken(&[hour, minute]) == Ok(()));
    assert!(rt; broken(&[(Object::TimeBaseScheduleDayPlan, 32, 16)]) == Err(Rule::K25));
    assert!(rt; broken(&[(Object::DayPlanActionNumber, 256, 32)]) == Err(Rule::K26));
    assert!(rt; broken(&[(Object::TimebaseAscPattern, 32, 17)]) == Err(Rule::K27));
    assert!(rt; broken(&[(Object::TimebaseAscPattern, 32, 16)]) == Err(Rule::K27));
}

#[test]
fn the_last_moment_has_a_day(rt: HostRuntime) {
    let Some(time) = ClockTime::new(36_532, 863_999) else {
        panic!(rt; "2099-12-31 is no day");
    };
    // A run of 6,000,000 ticks goes on into January 2100.
    assert!(rt; weekly().in_force(time.number() + 6_000_000) == 2);
}
