//! What a schedule runs in a week.
#![tactic(auto, unfolding(tsb_plan::specs::PlanOf::plan_of))]

ghost use Rattle.std.specs.Prelude.{◌≡◌, ◌≤◌, ◌<◌, ◌/◌, ◌%◌, ◌∷◌, ◌++◌, flat_map};
ghost use Rattle.tsb_types.specs.Calendar.{date_after};
ghost use Rattle.tsb_types.specs.Lists.{run_from};
ghost use Rattle.tsb_types.specs.declared.clock_time.TheConstants.{DAY};
ghost use Rattle.tsb_plan.specs.PlanOf.{plan_of};
ghost use Rattle.tsb_lines.specs.Seen.{seen};
ghost use Rattle.tsb_lines.specs.ShortLines.{Adds};
ghost use Rattle.tsb_review_text.specs.Week.{begins, date_text, day_plan_at, day_text, moment_of, number_text, pattern_text, row_at, row_of, time_text, two, week_text, weekday_name};
ghost use Rattle.tsb_review_text.specs.Written.{Wrote};

use std::io::Write;
use tsb_lines::{ShortLine, Watched, WriteError, digit};
use tsb_plan::{MINUTE, Plan};
use tsb_types::calendar::{ClockDate, date_after};
use tsb_types::clock_time::FIRST_DAY;
use tsb_types::{ClockTime, DAY};

/// The line above the rows.
const HEAD: &[u8] = b"day            from    action  pattern  entry  day plan\n";

/// The most bytes of a row, with its line feed.
const ROW: usize = 64;

/// The bytes of a row, or of a part of one.
pub(crate) type Row = ShortLine<ROW>;

/// The minutes of a week, and of a day.
pub(crate) const WEEK: u32 = 10_080;

pub(crate) const DAY_MINUTES: u32 = 1_440;

/// The days from 2000-01-01 to 2100-01-01.
const NEW_CENTURY: u32 = 36_525;

/// Writes what the schedule of a plan runs in the seven days from that of a time on: a row for each midnight, and for
/// each minute with which another action comes into force. At an error the first bytes of the text may have gone out,
/// and a write has failed. It takes no memory.
pub fn write_week<W: Write>(
    plan: &Plan,
    first: ClockTime,
    output: &mut Watched<W>,
) -> Result<(), WriteError>
    ensures { Wrote result (seen W.contents output.old) (seen W.contents output.new) (week_text (plan_of plan.now) first) }
{
    match output.write_text(HEAD) {
        Ok(()) => write_rows(plan, first, output),
        Err(fault) => Err(fault),
    }
}

/// Writes the rows.
fn write_rows<W: Write>(
    plan: &Plan,
    first: ClockTime,
    output: &mut Watched<W>,
) -> Result<(), WriteError>
    ensures { Wrote result (seen W.contents output.old) (seen W.contents output.new) (flat_map (row_of (plan_of plan.now) first) (run_from 0 10080)) }
{
    for minute in 0..WEEK {
        match write_row(plan, first, minute, output) {
            Ok(()) => {}
            Err(fault) => return Err(fault),
        }
    }
    Ok(())
}

/// Writes the row that begins with a minute of the week, where one does.
fn write_row<W: Write>(
    plan: &Plan,
    first: ClockTime,
    minute: u32,
    output: &mut Watched<W>,
) -> Result<(), WriteError>
    requires { minute < 10080 }
    ensures { Wrote result (seen W.contents output.old) (seen W.contents output.new) (row_of (plan_of plan.now) first minute) }
{
    let line = row_of(plan, first, minute);
    output.write_text(line.as_bytes())
}

/// That row, and nothing where none begins.
fn row_of(plan: &Plan, first: ClockTime, minute: u32) -> Row
    requires { minute < 10080 }
    ensures { result ≡ row_of (plan_of plan.now) first minute }
{
    let moment = moment_of(first, minute);
    if begins(plan, moment, minute) {
        row(plan, moment)
    } else {
        Row::new()
    }
}

/// The moment so many minutes after the midnight of a day.
pub(crate) fn moment_of(first: ClockTime, minute: u32) -> u64
    requires { minute < 10080 }
    ensures value { result ≡ moment_of first minute }
    ensures from { 600 ≤ result }
    ensures within { result ≤ 31580000000 }
{
    let number = first.number();
    number / u64::from(DAY) * u64::from(DAY) + u64::from(minute) * u64::from(MINUTE)
}

/// Whether a row begins with a minute of the week: at midnight, and where another action is in force than before.
pub(crate) fn begins(plan: &Plan, moment: u64, minute: u32) -> bool
    requires within { moment ≤ 31580000000 }
    requires from { 600 ≤ moment }
    ensures { result ≡ begins (plan_of plan.now) moment minute }
{
    minute % DAY_MINUTES == 0 || plan.in_force(moment) != plan.in_force(moment - u64::from(MINUTE))
}

/// The row of a moment, with its line feed.
fn row(plan: &Plan, moment: u64) -> Row
    requires { moment ≤ 31580000000 }
    ensures { result ≡ row_at (plan_of plan.now) moment }
{
    let action = plan.in_force(moment);
    let entry = plan.holding_at(moment);
    let mut line = Row::new();
    push_time(&mut line, moment);
    line.push(b"       ");
    push_number(&mut line, action);
    push_pattern(&mut line, plan.selected_by(action));
    line.push(b"     ");
    push_number(&mut line, entry);
    line.push(b"        ");
    push_number(&mut line, day_plan_at(plan, entry));
    line.push(b"\n");
    line
}

/// The day plan of an entry, 0 where there is none.
fn day_plan_at(plan: &Plan, entry: u32) -> u32
    requires { entry ≤ 32 }
    ensures { result ≡ day_plan_at (plan_of plan.now) entry }
{
    if entry == 0 {
        0
    } else {
        plan.day_plan_of(entry)
    }
}

/// Adds the date, the weekday and the time of day of a moment.
fn push_time(line: &mut Row, moment: u64)
    requires { moment ≤ 31580000000 }
    ensures { Adds ROW line.old (time_text moment) line.new }
{
    push_day(line, moment);
    line.push(b" ");
    push_minute(line, minute_of(moment));
}

/// Adds the date and the weekday of a moment.
pub(crate) fn push_day(line: &mut Row, moment: u64)
    requires { moment ≤ 31580000000 }
    ensures { Adds ROW line.old (day_text moment) line.new }
{
    let days = day_of(moment);
    push_date(line, &date_of(days.saturating_sub(FIRST_DAY)));
    line.push(b" ");
    line.push(weekday_name(days));
}

/// The day of a moment, counted from 1999-12-24.
fn day_of(moment: u64) -> u32
    requires { moment ≤ 31580000000 }
    ensures value { result ≡ moment / DAY }
    ensures within { result ≤ 36550 }
{
    (moment / u64::from(DAY)) as u32
}

/// The minute of its day at a moment.
fn minute_of(moment: u64) -> u32
    ensures { result ≡ moment % DAY / 600 }
{
    (moment % u64::from(DAY)) as u32 / MINUTE
}

/// The date so many days after 2000-01-01. The last week of 2099 ends in the January of 2100, which the calendar has
/// not.
fn date_of(days: u32) -> ClockDate
    requires { days ≤ 36550 }
    ensures { result ≡ date_after days }
{
    if days <= NEW_CENTURY {
        return date_after(days);
    }
    ClockDate {
        year: 2100,
        month: 1,
        day: days - NEW_CENTURY + 1,
    }
}

/// Adds a date.
fn push_date(line: &mut Row, date: &ClockDate)
    ensures { Adds ROW line.old (date_text date.now) line.new }
{
    push_two(line, date.year / 100);
    push_two(line, date.year % 100);
    line.push(b"-");
    push_two(line, date.month);
    line.push(b"-");
    push_two(line, date.day);
}

/// The name of the weekday of a day. Days are counted from 1999-12-24, a Friday.
fn weekday_name(days: u32) -> &'static [u8]
    ensures { result.now ≡ weekday_name days }
{
    match days % 7 {
        0 => b"Fri",
        1 => b"Sat",
        2 => b"Sun",
        3 => b"Mon",
        4 => b"Tue",
        5 => b"Wed",
        _ => b"Thu",
    }
}

/// Adds the hour and the minute of a minute of a day.
fn push_minute(line: &mut Row, minute: u32)
    ensures { Adds ROW line.old (two (minute / 60) ++ 58 ∷ two (minute % 60)) line.new }
{
    push_two(line, minute / 60);
    line.push(b":");
    push_two(line, minute % 60);
}

/// Adds a number of two digits.
fn push_two(line: &mut Row, number: u32)
    ensures { Adds ROW line.old (two number) line.new }
{
    line.push(&[digit(number, 10), digit(number, 1)]);
}

/// Adds a number of up to two digits, `-` for 0.
fn push_number(line: &mut Row, number: u32)
    ensures { Adds ROW line.old (number_text number) line.new }
{
    if number == 0 {
        line.push(b" -");
    } else if number < 10 {
        line.push(&[b' ', digit(number, 1)]);
    } else {
        push_two(line, number);
    }
}

/// Adds a pattern, `free` for 0.
fn push_pattern(line: &mut Row, pattern: u32)
    ensures { Adds ROW line.old (pattern_text pattern) line.new }
{
    if pattern == 0 {
        line.push(b"     free");
    } else {
        line.push(b"       ");
        push_number(line, pattern);
    }
}
