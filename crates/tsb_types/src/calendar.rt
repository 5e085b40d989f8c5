//! The calendar of the years 2000 to 2099.
ghost use Rattle.std.specs.Prelude.{◌≡◌, ◌≤◌, ◌<◌, ◌-◌, true};
ghost use Rattle.tsb_types.specs.Calendar.{common_days_before, date_after, date_in, day_number, days_before, days_of_years, is_date, is_day, is_leap, month_of, year_of};

use crate::clock_time::FIRST_DAY;

/// The first year of the calendar.
const FIRST_YEAR: u32 = 2000;

/// The days of four years.
const FOUR_YEARS: u32 = 1461;

/// A date of the Gregorian calendar.
#[derive(Clone, Copy, Debug, PartialEq, Eq)]
pub struct ClockDate {
    /// The year, 2000 to 2099.
    pub year: u32,
    /// The month, 1 to 12.
    pub month: u32,
    /// The day of the month, 1 to 31.
    pub day: u32,
}

/// The days of a year before its month, 1 to 12, and with 13 all its days.
pub fn days_before(leap: bool, month: u32) -> u32
    ensures value { result ≡ days_before leap month }
    ensures small { result ≤ 366 }
{
    let days = common_days_before(month);
    if leap && month > 2 { days + 1 } else { days }
}

/// The days of a year without a 29 February before its month, 1 to 12, and of any other number all its days.
fn common_days_before(month: u32) -> u32
    ensures value { result ≡ common_days_before month }
    ensures small { result ≤ 365 }
{
    match month {
        1 => 0,
        2 => 31,
        3 => 59,
        4 => 90,
        5 => 120,
        6 => 151,
        7 => 181,
        8 => 212,
        9 => 243,
        10 => 273,
        11 => 304,
        12 => 334,
        _ => 365,
    }
}

/// Whether a year that is counted from 2000 has a 29 February.
fn is_leap(year: u32) -> bool
    ensures { result ≡ is_leap year }
{
    year % 4 == 0
}

/// The days from 2000 on before a year that is counted from it.
fn days_of_years(year: u32) -> u32
    requires { year ≤ 100 }
    ensures value { result ≡ days_of_years year }
    ensures small { result ≤ 36525 }
{
    365 * year + (year + 3) / 4
}

/// Whether the calendar here has this date.
pub fn is_date(date: &ClockDate) -> bool
    ensures { result ≡ is_date date.now }
{
    FIRST_YEAR <= date.year && is_day(date.year - FIRST_YEAR, date.month, date.day)
}

/// Whether the calendar has this day, of a year that is counted from 2000.
fn is_day(year: u32, month: u32, day: u32) -> bool
    ensures { result ≡ is_day year month day }
{
    if (year < 100 && 1 <= month) && (month <= 12 && (1 <= day && day <= 31)) {
        let leap = is_leap(year);
        return days_before(leap, month) + day <= days_before(leap, month + 1);
    }
    false
}

/// The number of the day of a date that there is: days since 1999-12-24, 8 to 36,532.
pub fn day_number(date: &ClockDate) -> u32
    requires { is_date date.now ≡ true }
    ensures value { result ≡ day_number (date.now.year - 2000) date.now.month date.now.day }
    ensures from { 8 ≤ result }
    ensures within { result ≤ 36532 }
{
    let year = date.year - FIRST_YEAR;
    FIRST_DAY + days_of_years(year) + days_before(is_leap(year), date.month) + (date.day - 1)
}

/// The month in which a day of a year is, which is counted from 0.
fn month_of(leap: bool, day: u32) -> u32
    ensures value { result ≡ month_of leap day }
    ensures from { 1 ≤ result }
    ensures within { result ≤ 12 }
{
    let mut month = 1;
    for next in 2..13u32 {
        if days_before(leap, next) <= day {
            month = next;
        }
    }
    month
}

/// The date of a day of a year, which is counted from 0. The year is counted from 2000.
fn date_in(year: u32, day: u32) -> ClockDate
    requires year { year ≤ 100 }
    requires day { day ≤ 36600 }
    ensures { result ≡ date_in year day }
{
    let leap = is_leap(year);
    let month = month_of(leap, day);
    ClockDate {
        year: FIRST_YEAR + year,
        month,
        day: day.saturating_sub(days_before(leap, month)) + 1,
    }
}

/// The date so many days after 2000-01-01.
pub fn date_after(days: u32) -> ClockDate
    requires { days ≤ 36525 }
    ensures { result ≡ date_after days }
{
    let year = 4 * days / FOUR_YEARS;
    date_in(year, days.saturating_sub(days_of_years(year)))
}
