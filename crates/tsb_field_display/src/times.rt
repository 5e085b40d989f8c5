//! The times of ticks.
ghost use Rattle.std.specs.Prelude.{◌≡◌, ◌↔◌, IsTrue};
ghost use Rattle.tsb_event_text.specs.Written.{IsWritten, bytes_of};
ghost use Rattle.tsb_field_display.specs.Ticks.{AreWritten, moment_of_tick};
ghost use Rattle.tsb_field_display.specs.Texts.{Tells};

use tsb_event_text::{Moment, TimeText, is_written, time_text};

/// The last tick that a display line can show, and so the last that has a time of its own.
pub const LAST_TICK: u32 = 9_999_999;

/// The nanoseconds of a tick: a tenth of a second.
const TICK: u128 = 100_000_000;

/// Whether a year of four digits has each tick, where this is the moment of tick 1.
pub(crate) fn are_written(from: Moment) -> bool
    ensures { IsTrue result ↔ AreWritten from }
{
    is_written(from) && is_written(moment_of_tick(from, LAST_TICK))
}

/// The moment of a tick.
fn moment_of_tick(from: Moment, tick: u32) -> Moment
    requires { IsWritten from }
    ensures { result ≡ moment_of_tick from tick }
{
    let tenths = tick.min(LAST_TICK).saturating_sub(1);
    Moment {
        nanos: from.nanos + tenths as u128 * TICK,
    }
}

/// The time of a tick.
pub(crate) fn time_of_tick(from: Moment, tick: u32) -> TimeText
    requires { AreWritten from }
    ensures { Tells (moment_of_tick from tick) (bytes_of result) }
{
    match time_text(moment_of_tick(from, tick)) {
        Some(time) => time,
        None => unreachable!(),
    }
}
