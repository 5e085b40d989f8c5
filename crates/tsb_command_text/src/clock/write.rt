//! Writes a date and a time of day.
ghost use Rattle.std.specs.Prelude.{◌≡◌, ◌%◌};
ghost use Rattle.tsb_types.specs.declared.clock_time.TheConstants.{DAY};
ghost use Rattle.tsb_command_text.specs.clock.ClockText.{date_of, date_text, time_text};

use tsb_lines::digit;
use tsb_types::ClockTime;
use tsb_types::calendar::date_after;
use tsb_types::clock_time::FIRST_DAY;

/// The date of a time that a clock is set to, as `2026-11-22`.
pub fn date_text(time: ClockTime) -> [u8; 10]
    ensures { result ≡ date_text (date_of time) }
{
    let date = date_after(time.day().saturating_sub(FIRST_DAY));
    [
        digit(date.year, 1000),
        digit(date.year, 100),
        digit(date.year, 10),
        digit(date.year, 1),
        b'-',
        digit(date.month, 10),
        digit(date.month, 1),
        b'-',
        digit(date.day, 10),
        digit(date.day, 1),
    ]
}

/// The time of day of a time that a clock is set to, with its tenth, as `07:00:00.1`.
pub fn time_text(time: ClockTime) -> [u8; 10]
    ensures { result ≡ time_text (time % DAY) }
{
    let time = time.time();
    let hour = time / 36_000;
    let minute = time / 600 % 60;
    let second = time / 10 % 60;
    [
        digit(hour, 10),
        digit(hour, 1),
        b':',
        digit(minute, 10),
        digit(minute, 1),
        b':',
        digit(second, 10),
        digit(second, 1),
        b'.',
        digit(time % 10, 1),
    ]
}
