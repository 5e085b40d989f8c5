//! The clock that a record begins with.
ghost use Rattle.std.specs.Prelude.{◌≡◌};
ghost use Rattle.tsb_field.specs.Clocks.{clock_at, clock_of, lacks_clock};

use tsb_event_text::Moment;
use tsb_types::ClockTime;
use tsb_types::clock_time::{DAY, END_OF_DAYS};

/// The nanoseconds of a tenth of a second.
const TENTH: u128 = 100_000_000;

/// 1999-12-24 00:00, from which clocks count, in tenths of a second from the first moment of the calendar.
const CLOCK_START: u128 = 3_786_511_104_000;

/// The tenth of a second of a moment, where a clock can be set to it.
fn clock_at(moment: Moment) -> Option<ClockTime>
    ensures { result ≡ clock_at moment }
{
    let tenths = (moment.nanos / TENTH).saturating_sub(CLOCK_START);
    if tenths >= u128::from(END_OF_DAYS) {
        return None;
    }
    let day = tenths / u128::from(DAY);
    let time = tenths % u128::from(DAY);
    ClockTime::new(day as u32, time as u32)
}

/// The clock of a record whose tick 1 begins at this moment: none where words say so.
pub(crate) fn clock_of(no_clock: bool, from: Moment) -> Option<ClockTime>
    ensures { result ≡ clock_of no_clock from }
{
    if no_clock { None } else { clock_at(from) }
}

/// Whether a record has to have a clock, and none can be set to the moment at which its tick 1 begins.
pub(crate) fn lacks_clock(no_clock: bool, from: Moment) -> bool
    ensures { result ≡ lacks_clock no_clock from }
{
    !no_clock && clock_at(from).is_none()
}
