//! What options say, by the matches of a subcommand.
ghost use Rattle.std.specs.Prelude.{◌≡◌, option_map};
ghost use Rattle.clap.specs.Words.{found_of, rows_of};
ghost use Rattle.tsb_words.specs.FieldProgram.{form_said, from_said, moment_in, seconds_said, usual_window, window_said, zone_said};
ghost use Rattle.tsb_command_text.specs.clock.ClockText.{clock_of};
ghost use Rattle.tsb_words.specs.FieldWords.{midnight, seconds_of, window_of};

use clap::ArgMatches;
use tsb_command_text::clock::read_clock;
use tsb_event_text::{Moment, TimeForm, Zone, read_moment, time_form_named, zone_named};
use tsb_lines::number;
use tsb_types::ClockTime;

/// The most seconds that a line of a diagram shows: a day.
pub const MOST_SECONDS: u32 = 86_400;

/// How many seconds a row may be late where rows are sorted, if nothing else is said.
pub const USUAL_WINDOW: u32 = 60;

/// The most seconds that a row may be late where rows are sorted: an hour.
pub const MOST_WINDOW: u32 = 3_600;

/// The midnight of a date, as `2026-11-22`.
pub(crate) fn midnight_of(text: &[u8]) -> Option<ClockTime>
    ensures { result ≡ clock_of text.now midnight }
{
    read_clock(text, b"00:00:00")
}

/// What `--from` says.
pub(crate) fn moment(matches: &ArgMatches<'_>) -> Option<Moment>
    ensures { result ≡ moment_in (rows_of (found_of matches.now)) }
{
    let text = matches.get_str("from")?;
    read_moment(text.as_bytes())
}

/// What `--from` says, where it came and may be left out: `None` where it names no moment.
pub(crate) fn from_said(text: Option<&str>) -> Option<Option<Moment>>
    ensures { result ≡ from_said (option_map (λ text. text.now) text.entry) }
{
    match text {
        None => Some(None),
        Some(text) => {
            let from = read_moment(text.as_bytes())?;
            Some(Some(from))
        }
    }
}

/// What `--time-form` says, where it came: `None` where it names no form.
pub(crate) fn form_said(text: Option<&str>) -> Option<Option<TimeForm>>
    ensures { result ≡ form_said (option_map (λ text. text.now) text.entry) }
{
    match text {
        None => Some(None),
        Some(text) => {
            let form = time_form_named(text.as_bytes())?;
            Some(Some(form))
        }
    }
}

/// What `--zone` says, where it came: `None` where it names no zone.
pub(crate) fn zone_said(text: Option<&str>) -> Option<Option<Zone>>
    ensures { result ≡ zone_said (option_map (λ text. text.now) text.entry) }
{
    match text {
        None => Some(None),
        Some(text) => {
            let zone = zone_named(text.as_bytes())?;
            Some(Some(zone))
        }
    }
}

/// What `--sort` and `--sort-within` say of how many seconds a row may be late: `None` where the second says no such
/// number.
pub(crate) fn window_said(sorts: bool, text: Option<&str>) -> Option<Option<u32>>
    ensures { result ≡ window_said sorts (option_map (λ text. text.now) text.entry) }
{
    match text {
        None => Some(usual_window(sorts)),
        Some(text) => {
            let seconds = window(text.as_bytes())?;
            Some(Some(seconds))
        }
    }
}

/// How many seconds a row may be late, where no number of them is said.
fn usual_window(sorts: bool) -> Option<u32>
    ensures { result ≡ usual_window sorts }
{
    if sorts { Some(USUAL_WINDOW) } else { None }
}

/// The seconds of a window that digits spell.
pub(crate) fn window(digits: &[u8]) -> Option<u32>
    ensures { result ≡ window_of digits.now }
{
    let seconds = number(digits)?;
    if seconds < 1 || seconds > MOST_WINDOW {
        return None;
    }
    Some(seconds)
}

/// What `--seconds-per-line` says, where it came: `None` where it says no number of seconds.
pub(crate) fn seconds_said(text: Option<&str>) -> Option<Option<u32>>
    ensures { result ≡ seconds_said (option_map (λ text. text.now) text.entry) }
{
    match text {
        None => Some(None),
        Some(text) => {
            let seconds = seconds(text.as_bytes())?;
            Some(Some(seconds))
        }
    }
}

/// The seconds that digits spell.
pub(crate) fn seconds(digits: &[u8]) -> Option<u32>
    ensures { result ≡ seconds_of digits.now }
{
    let seconds = number(digits)?;
    if seconds < 1 || seconds > MOST_SECONDS {
        return None;
    }
    Some(seconds)
}
