//! Reads a date and a time of day.
ghost use Rattle.std.specs.Prelude.{◌≡◌, ◌<◌, IfSome, true};
ghost use Rattle.tsb_types.specs.declared.clock_time.TheConstants.{DAY};
ghost use Rattle.tsb_types.specs.Calendar.{is_date};
ghost use Rattle.tsb_command_text.specs.clock.ClockText.{clock_of, date_in_word, tenth_of, time_in_word};

use tsb_lines::number;
use tsb_types::ClockTime;
use tsb_types::calendar::{ClockDate, day_number, is_date};

/// How many bytes a date has.
const DATE: usize = 10;

/// How many bytes a time of day has without a tenth, and with one.
const TIME: usize = 8;

const TIME_AND_TENTH: usize = 10;

/// The time that two words are: a date as `2026-11-22`, of the years 2000 to 2099, and a time of day as `07:00:00` or
/// `07:00:00.1`. `None` for any other words, and for a day that the calendar lacks.
pub fn read_clock(date: &[u8], time: &[u8]) -> Option<ClockTime>
    ensures { result ≡ clock_of date.now time.now }
{
    let date = read_date(date)?;
    let time = read_time(time)?;
    ClockTime::new(day_number(&date), time)
}

/// The date that a word is.
fn read_date(word: &[u8]) -> Option<ClockDate>
    ensures value { result ≡ date_in_word word.now }
    ensures there { IfSome result (λ date. is_date date ≡ true) }
{
    if word.len() != DATE || word[4] != b'-' || word[7] != b'-' {
        return None;
    }
    let date = ClockDate {
        year: number(&word[..4])?,
        month: number(&word[5..7])?,
        day: number(&word[8..10])?,
    };
    if is_date(&date) { Some(date) } else { None }
}

/// The time of day that a word is, `07:00:00` or `07:00:00.1`, in tenths of a second since midnight. `None` for any other
/// word.
pub fn read_time(word: &[u8]) -> Option<u32>
    ensures value { result ≡ time_in_word word.now }
    ensures below { IfSome result (λ time. time < DAY) }
{
    if word.len() != TIME && word.len() != TIME_AND_TENTH {
        return None;
    }
    if word[2] != b':' || word[5] != b':' {
        return None;
    }
    let hour = number(&word[..2])?;
    let minute = number(&word[3..5])?;
    let second = number(&word[6..8])?;
    let tenth = read_tenth(word)?;
    if hour < 24 && minute < 60 && second < 60 && tenth < 10 {
        Some(((hour * 60 + minute) * 60 + second) * 10 + tenth)
    } else {
        None
    }
}

/// The tenth of a second of a time of day.
fn read_tenth(word: &[u8]) -> Option<u32>
    ensures { result ≡ tenth_of word.now }
{
    if word.len() == TIME {
        return Some(0);
    }
    if word.len() == TIME_AND_TENTH && word[8] == b'.' {
        number(&word[9..10])
    } else {
        None
    }
}
