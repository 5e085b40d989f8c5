//! Times in the forms in which exports have them.
ghost use Rattle.std.specs.Prelude.{◌≡◌, Some};
ghost use Rattle.tsb_lines.specs.Words.{number_of};
ghost use Rattle.tsb_event_text.specs.Times.{second_of};
ghost use Rattle.tsb_event_text.specs.TimeForms.{before, behind, clock_mark, clock_of, day_at, day_in, day_mark, day_said, form_of, fraction_of, half_of, hour_in, is_ambiguous, is_in, last_three, moment_after, moment_in, numbered, point_of, time_form_named, time_form_word, with_clock, without_three};

use crate::events::has_byte;
use crate::times::{Moment, day, nine_digits, second_at};
use crate::zones::{UTC, Zone, moved, own_zone, shown_clock, zone_or};
use memchr::memchr;
use tsb_lines::number;

/// How a text spells times.
#[derive(Clone, Copy, Debug, PartialEq, Eq)]
pub enum TimeForm {
    /// A year, a month and a day, as `2026-11-22 07:00:03.2`.
    YearFirst,
    /// A month, a day and a year, as `11/22/2026 7:00:03.2 AM`.
    MonthFirst,
    /// A day, a month and a year, as `22/11/2026 07:00:03.2`.
    DayFirst,
    /// Seconds after 1970 began, as `1795330803.2`.
    Seconds,
    /// Milliseconds after 1970 began, as `1795330803200`.
    Milliseconds,
}

/// Which hours a clock has.
#[derive(Clone, Copy)]
enum Half {
    /// 0 to 23, of the whole day.
    Whole,
    /// 12, 1 to 11, before noon.
    Morning,
    /// 12, 1 to 11, from noon on.
    Evening,
}

/// 1970-01-01, in seconds from the first moment that the calendar has.
const EPOCH: u128 = 377_705_116_800;

/// The nanoseconds of a second.
const SECOND: u128 = 1_000_000_000;

/// The nanoseconds of a day.
const DAY: u128 = 86_400_000_000_000;

/// The form that a word names: `year-first`, `month-first`, `day-first`, `seconds` or `milliseconds`.
pub fn time_form_named(word: &[u8]) -> Option<TimeForm>
    ensures { result ≡ time_form_named word.now }
{
    if word == time_form_word(TimeForm::YearFirst).as_bytes() {
        return Some(TimeForm::YearFirst);
    }
    if word == time_form_word(TimeForm::MonthFirst).as_bytes() {
        return Some(TimeForm::MonthFirst);
    }
    if word == time_form_word(TimeForm::DayFirst).as_bytes() {
        return Some(TimeForm::DayFirst);
    }
    if word == time_form_word(TimeForm::Seconds).as_bytes() {
        return Some(TimeForm::Seconds);
    }
    if word == time_form_word(TimeForm::Milliseconds).as_bytes() {
        return Some(TimeForm::Milliseconds);
    }
    None
}

/// The word of a form.
pub fn time_form_word(form: TimeForm) -> &'static str
    ensures { result.now ≡ time_form_word form }
{
    match form {
        TimeForm::YearFirst => "year-first",
        TimeForm::MonthFirst => "month-first",
        TimeForm::DayFirst => "day-first",
        TimeForm::Seconds => "seconds",
        TimeForm::Milliseconds => "milliseconds",
    }
}

/// The one form in which a text is a time; `None` where it is none, and where its month and its day can't be told
/// apart (`is_ambiguous`).
pub fn form_of(text: &[u8]) -> Option<TimeForm>
    ensures { result ≡ form_of text.now }
{
    if is_in(TimeForm::YearFirst, text) {
        return Some(TimeForm::YearFirst);
    }
    if is_ambiguous(text) {
        return None;
    }
    if is_in(TimeForm::MonthFirst, text) {
        return Some(TimeForm::MonthFirst);
    }
    if is_in(TimeForm::DayFirst, text) {
        return Some(TimeForm::DayFirst);
    }
    if is_in(TimeForm::Seconds, text) {
        return Some(TimeForm::Seconds);
    }
    if is_in(TimeForm::Milliseconds, text) {
        return Some(TimeForm::Milliseconds);
    }
    None
}

/// Whether a text is a time with its month first and also one with its day first.
pub fn is_ambiguous(text: &[u8]) -> bool
    ensures { result ≡ is_ambiguous text.now }
{
    is_in(TimeForm::MonthFirst, text) && is_in(TimeForm::DayFirst, text)
}

/// Whether a text is a time in this form.
fn is_in(form: TimeForm, text: &[u8]) -> bool
    ensures { result ≡ is_in form text.now }
{
    match moment_in(form, None, text) {
        Some(_) => true,
        None => false,
    }
}

/// The moment that a text names in this form, or `None`. Without a `zone` it is what the clock shows, whatever zone stands
/// behind it (`Z`, `UTC`, `-07:00`). With one it is what the clock of `zone` shows then; a clock that says no zone is taken
/// to be of `zone`, and seconds after 1970 count by UTC. A fraction of a second stands behind a point or a comma.
pub fn moment_in(form: TimeForm, zone: Option<Zone>, text: &[u8]) -> Option<Moment>
    ensures { result ≡ moment_in form zone text.now }
{
    match form {
        TimeForm::Seconds => seconds(zone, text),
        TimeForm::Milliseconds => milliseconds(zone, text),
        _ => numbered(form, zone, text),
    }
}

/// The moment of seconds after 1970 began, with a fraction of up to nine digits.
fn seconds(zone: Option<Zone>, text: &[u8]) -> Option<Moment>
    ensures { result ≡ moment_after zone (number_of (before (point_of text.now) text.now)) (fraction_of (behind (point_of text.now) text.now)) }
{
    let (second, digits) = split(point_of(text), text);
    moment_after(zone, second, digits)
}

/// The moment of milliseconds after 1970 began.
fn milliseconds(zone: Option<Zone>, text: &[u8]) -> Option<Moment>
    ensures { result ≡ moment_after zone (number_of (without_three text.now)) (fraction_of (last_three text.now)) }
{
    let (second, digits) = text.split_at(text.len().saturating_sub(3));
    moment_after(zone, second, digits)
}

/// The moment of a second after 1970 began, and of the digits of its fraction.
fn moment_after(zone: Option<Zone>, second: &[u8], digits: &[u8]) -> Option<Moment>
    ensures { result ≡ moment_after zone (number_of second.now) (fraction_of digits.now) }
{
    let second = number(second)?;
    let nano = fraction(digits)?;
    let shown = (EPOCH + second as u128) * SECOND + nano as u128;
    Some(Moment {
        nanos: moved(zone, UTC, shown),
    })
}

/// The moment of a day by numbers and of a clock behind it.
fn numbered(form: TimeForm, zone: Option<Zone>, text: &[u8]) -> Option<Moment>
    ensures { result ≡ numbered form zone text.now }
{
    let (day, clock) = split(clock_mark(text), text);
    with_clock(form, zone, day, clock)
}

/// The byte between a day and a clock: T, where one stands before the first space, or else a space.
fn clock_mark(text: &[u8]) -> u8
    ensures { result ≡ clock_mark text.now }
{
    let (front, _) = split(b' ', text);
    if has_byte(b'T', front) { b'T' } else { b' ' }
}

/// The moment of a day and a clock.
fn with_clock(form: TimeForm, zone: Option<Zone>, day: &[u8], clock: &[u8]) -> Option<Moment>
    ensures { result ≡ with_clock form zone day.now clock.now }
{
    let day = day_said(form, day)?;
    let nanos = shown_clock(clock)?;
    let own = own_zone(zone_or(zone), clock)?;
    let shown = day as u128 * DAY + nanos as u128;
    Some(Moment {
        nanos: moved(zone, own, shown),
    })
}

/// The day of a text, counted from the first one that the calendar has.
fn day_said(form: TimeForm, text: &[u8]) -> Option<u32>
    ensures { result ≡ day_said form text.now }
{
    let mark = day_mark(text);
    let (first, rest) = split(mark, text);
    let (second, third) = split(mark, rest);
    day_in(form, first, second, third)
}

/// The byte between the numbers of a day: a slash, or else a hyphen, or else a point.
fn day_mark(text: &[u8]) -> u8
    ensures { result ≡ day_mark text.now }
{
    if has_byte(b'/', text) {
        return b'/';
    }
    if has_byte(b'-', text) { b'-' } else { b'.' }
}

/// The day of three numbers in the order of a form, counted from the first one that the calendar has.
fn day_in(form: TimeForm, a: &[u8], b: &[u8], c: &[u8]) -> Option<u32>
    ensures { result ≡ day_in form a.now b.now c.now }
{
    match form {
        TimeForm::YearFirst => day_at(a, b, c),
        TimeForm::MonthFirst => day_at(c, a, b),
        TimeForm::DayFirst => day_at(c, b, a),
        _ => None,
    }
}

/// The day of a year in four digits, a month and a day.
fn day_at(year: &[u8], month: &[u8], of_month: &[u8]) -> Option<u32>
    ensures { result ≡ day_at year.now month.now of_month.now }
{
    if year.len() != 4 {
        return None;
    }
    day(year, month, of_month)
}

/// The nanoseconds of a day that a clock without a zone shows.
pub(crate) fn clock_of(text: &[u8]) -> Option<u64>
    ensures { result ≡ clock_of text.now }
{
    let (clock, mark) = split(b' ', text);
    let half = half_of(mark)?;
    let (hour, rest) = split(b':', clock);
    let (minute, rest) = split(b':', rest);
    let (second, digits) = split(point_of(rest), rest);
    let second = second_of(half, hour, minute, second)?;
    let nano = fraction(digits)?;
    Some(second as u64 * 1_000_000_000 + nano as u64)
}

/// The byte before a fraction: a point, or else a comma.
fn point_of(text: &[u8]) -> u8
    ensures { result ≡ point_of text.now }
{
    if has_byte(b'.', text) { b'.' } else { b',' }
}

/// The second of a day, of hours as these.
fn second_of(half: Half, hour: &[u8], minute: &[u8], second: &[u8]) -> Option<u32>
    ensures { result ≡ second_of (hour_in (number_of hour.now) half) (number_of minute.now) (number_of second.now) }
{
    let hour = hour_in(number(hour)?, half)?;
    let minute = number(minute)?;
    let second = number(second)?;
    second_at(hour, minute, second)
}

/// Which hours a clock has, by what stands behind it.
fn half_of(mark: &[u8]) -> Option<Half>
    ensures { result ≡ half_of mark.now }
{
    if mark.is_empty() || mark.eq_ignore_ascii_case(b"utc") {
        return Some(Half::Whole);
    }
    if mark.eq_ignore_ascii_case(b"am") {
        return Some(Half::Morning);
    }
    if mark.eq_ignore_ascii_case(b"pm") {
        return Some(Half::Evening);
    }
    None
}

/// The hour of the day.
fn hour_in(hour: u32, half: Half) -> Option<u32>
    ensures { result ≡ hour_in (Some hour) half }
{
    match half {
        Half::Whole => Some(hour),
        _ if hour < 1 || hour > 12 => None,
        Half::Morning => Some(hour % 12),
        Half::Evening => Some(hour % 12 + 12),
    }
}

/// The nanoseconds of the digits of a second's fraction: nine digits at most, and 0 where there is none.
fn fraction(digits: &[u8]) -> Option<u32>
    ensures { result ≡ fraction_of digits.now }
{
    if digits.is_empty() {
        return Some(0);
    }
    if digits.len() > 9 {
        return None;
    }
    nine_digits(digits)
}

/// What stands before the first of this byte in a text, and what follows it: all and nothing, where there is none.
pub(crate) fn split(mark: u8, text: &[u8]) -> (&[u8], &[u8])
    ensures front { result.0.now ≡ before mark text.now }
    ensures rest { result.1.now ≡ behind mark text.now }
{
    match memchr(mark, text) {
        None => (text, &text[..0]),
        Some(end) => (&text[..end], &text[end + 1..]),
    }
}
