//! Times, written.
ghost use Rattle.std.specs.Prelude.{◌≡◌, ◌≢◌, ◌+◌, ◌-◌, ◌/◌, ◌<◌, ◌≤◌, ◌++◌, ◌↔◌, true, IfSome, IsSome, IsTrue, OnOk, ℕ, List, ◌∷◌, Some};
ghost use Rattle.tsb_event_text.specs.Events.{IsPlain};
ghost use Rattle.tsb_event_text.specs.Times.{day_number, is_day, moment_at, moment_of, nano_of};
ghost use Rattle.tsb_event_text.specs.Written.{IsEnough, IsWritten, bytes_of, nine_digits, time_head};

use crate::texts::TimeText;
use crate::times::Moment;
use jiff_core::civil::Date;
use std::alloc::AllocError;
use tsb_lines::digit;

/// 0000-01-01, in days from the first day that the calendar has.
pub const FIRST_DAY: u32 = 3_652_059;

/// 9999-12-31, in days from the first day that the calendar has.
pub const LAST_DAY: u32 = 7_304_483;

/// The nanoseconds of a second.
const SECOND: u64 = 1_000_000_000;

/// The nanoseconds of a day.
const DAY: u128 = 86_400_000_000_000;

impl TimeText {
    /// Adds the time to a text. At an error a part of it may have been added.
    pub fn append_to(&self, text: &mut Vec<u8>) -> Result<(), AllocError>
        ensures { OnOk result (text.new.items ≡ text.old.items ++ bytes_of self.now) }
    {
        text.extend_from_slice(&self.head)?;
        text.extend_from_slice(&self.digits[..self.count])?;
        Ok(())
    }
}

/// The time of a moment, with as few digits after its point as it needs, but at least one. `None` where no year of four
/// digits has it.
pub fn time_text(moment: Moment) -> Option<TimeText>
    ensures written { IsSome result ↔ IsWritten moment }
    ensures told { IfSome result (λ time. moment_of (bytes_of time) ≡ Some moment) }
    ensures plain { IfSome result (λ time. IsPlain (bytes_of time)) }
    ensures short { IfSome result (λ time. IsEnough time.digits time.count) }
{
    if !is_written(moment) {
        return None;
    }
    let days = (moment.nanos / DAY) as u32;
    let rest = (moment.nanos % DAY) as u64;
    let head = head_of(days, (rest / SECOND) as u32);
    let digits = nine_digits((rest % SECOND) as u32);
    let count = count_of(&digits);
    Some(TimeText {
        head,
        digits,
        count,
    })
}

/// Whether a year of four digits has the moment, so that it has a time (`time_text`).
pub fn is_written(moment: Moment) -> bool
    ensures { IsTrue result ↔ IsWritten moment }
{
    let days = moment.nanos / DAY;
    FIRST_DAY as u128 <= days && days <= LAST_DAY as u128
}

/// The time of a second of a day, up to its point.
fn head_of(days: u32, second: u32) -> [u8; 20]
    requires first { 3652059 ≤ days }
    requires last { days ≤ 7304483 }
    requires second { second < 86400 }
    ensures plain { IsPlain result }
    ensures read { (ds : List ℕ) → moment_of (result ++ ds) ≡ moment_at (Some days) (Some second) (nano_of (46 ∷ ds)) }
{
    let (year, month, day) = date_of(days);
    time_head(year, month, day, second)
}

/// The date of a day, from the year 0 on.
fn date_of(days: u32) -> (u32, u32, u32)
    requires first { 3652059 ≤ days }
    requires last { days ≤ 7304483 }
    ensures small { (result.0 < 10000) × (result.1 < 100) × (result.2 < 100) }
    ensures day { is_day result.0 result.1 result.2 ≡ true }
    ensures number { day_number result.0 result.1 result.2 ≡ days }
{
    let date = Date::from_days_since_min(days);
    (date.year as u32, date.month as u32, date.day as u32)
}

/// A date and a second of its day as text, up to a point.
fn time_head(year: u32, month: u32, day: u32, second: u32) -> [u8; 20]
    ensures { result ≡ time_head year month day second }
{
    let hour = second / 3600;
    let minute = second / 60 % 60;
    let second = second % 60;
    [
        digit(year, 1000),
        digit(year, 100),
        digit(year, 10),
        digit(year, 1),
        b'-',
        digit(month, 10),
        digit(month, 1),
        b'-',
        digit(day, 10),
        digit(day, 1),
        b' ',
        digit(hour, 10),
        digit(hour, 1),
        b':',
        digit(minute, 10),
        digit(minute, 1),
        b':',
        digit(second, 10),
        digit(second, 1),
        b'.',
    ]
}

/// The fraction of a second in nine digits.
fn nine_digits(nano: u32) -> [u8; 9]
    ensures { result ≡ nine_digits nano }
{
    [
        digit(nano, 100_000_000),
        digit(nano, 10_000_000),
        digit(nano, 1_000_000),
        digit(nano, 100_000),
        digit(nano, 10_000),
        digit(nano, 1000),
        digit(nano, 100),
        digit(nano, 10),
        digit(nano, 1),
    ]
}

/// How many of these digits are written: all but the zeros at their end, and at least one.
fn count_of(digits: &[u8; 9]) -> usize
    ensures { IsEnough digits.now result }
{
    let mut count = 9;
    while count > 1 && digits[count - 1] == b'0' {
        count -= 1;
    }
    count
}
