//! Times of events.
ghost use Rattle.std.specs.Prelude.{◌≡◌, ◌≤◌, ◌++◌, Some, None, codes, drop, length, if◌then◌else◌};
ghost use Rattle.tsb_lines.specs.Words.{number_of};
ghost use Rattle.tsb_event_text.specs.Times.{day_number, day_of, has_marks, is_day, moment_of, nano_of, second_of};

use jiff_core::civil::Date;
use tsb_lines::number;

/// A moment on a clock without a zone, whose days all have 24 hours.
#[derive(Clone, Copy, PartialEq, Eq)]
pub struct Moment {
    /// How many nanoseconds it is after the first moment of -9999-01-01, the first day that the calendar has.
    pub nanos: u128,
}

/// How many bytes a time without a fraction has.
const WHOLE: usize = 19;

/// The moment that a time names, as `2026-11-22 07:00:00.1`: a year in four digits, a month, a day, a space or `T`, an
/// hour, a minute and a second in two digits, and, where a point follows, one to nine digits of a second's fraction.
/// `None` for any other text, and for a day that the calendar lacks.
#[tactic(auto, unfolding(crate::specs::Times::moment_of))]
pub fn read_moment(text: &[u8]) -> Option<Moment>
    ensures { result ≡ moment_of text.now }
{
    if text.len() < WHOLE || !has_marks(text) {
        return None;
    }
    let day = day(&text[..4], &text[5..7], &text[8..10])?;
    let second = second(&text[11..13], &text[14..16], &text[17..19])?;
    let nano = nano(&text[19..])?;
    Some(Moment {
        nanos: (day as u128 * 86_400 + second as u128) * 1_000_000_000 + nano as u128,
    })
}

/// Whether the marks between the numbers of a time are in their places.
fn has_marks(text: &[u8]) -> bool
    requires { 19 ≤ length text.now }
    ensures { result ≡ has_marks text.now }
{
    text[4] == b'-'
        && text[7] == b'-'
        && (text[10] == b' ' || text[10] == b'T')
        && text[13] == b':'
        && text[16] == b':'
}

/// The day that digits spell, counted from the first one that the calendar has.
pub(crate) fn day(year: &[u8], month: &[u8], day: &[u8]) -> Option<u32>
    ensures { result ≡ day_of (number_of year.now) (number_of month.now) (number_of day.now) }
{
    calendar_day(number(year)?, number(month)?, number(day)?)
}

/// The day of the calendar, counted from the first one that it has.
fn calendar_day(year: u32, month: u32, day: u32) -> Option<u32>
    ensures { result ≡ (if is_day year month day then Some (day_number year month day) else None) }
{
    if year > 9999 || month > 12 || day > 31 {
        return None;
    }
    match Date::new(year as i16, month as i8, day as i8) {
        Ok(date) => Some(date.days_since_min()),
        Err(_) => None,
    }
}

/// The second of a day that digits spell, from 0.
fn second(hour: &[u8], minute: &[u8], second: &[u8]) -> Option<u32>
    ensures { result ≡ second_of (number_of hour.now) (number_of minute.now) (number_of second.now) }
{
    second_at(number(hour)?, number(minute)?, number(second)?)
}

/// The second of a day, from 0.
pub(crate) fn second_at(hour: u32, minute: u32, second: u32) -> Option<u32>
    ensures { result ≡ second_of (Some hour) (Some minute) (Some second) }
{
    if hour < 24 && minute < 60 && second < 60 {
        Some(hour * 3600 + minute * 60 + second)
    } else {
        None
    }
}

/// The nanoseconds that a point and one to nine digits spell; 0 where there is nothing.
fn nano(text: &[u8]) -> Option<u32>
    ensures { result ≡ nano_of text.now }
{
    if text.is_empty() {
        return Some(0);
    }
    let digits = &text[1..];
    if text[0] != b'.' || digits.is_empty() || digits.len() > 9 {
        return None;
    }
    nine_digits(digits)
}

/// The number of digits with as many zeros behind them as make them nine.
pub(crate) fn nine_digits(digits: &[u8]) -> Option<u32>
    requires { length digits.now ≤ 9 }
    ensures { result ≡ number_of (digits.now ++ drop (length digits.now) (codes "000000000")) }
{
    let mut all = [b'0'; 9];
    all[..digits.len()].copy_from_slice(digits);
    number(&all)
}
