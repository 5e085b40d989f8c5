//! Rows that come a little out of order: they are held until no other row may come before them.
ghost use Rattle.std.specs.Prelude.{◌≡◌, ◌<◌, IfErr, length};
ghost use Rattle.tsb_field_streams.specs.Blame.{IsOfText};
ghost use Rattle.tsb_field_streams.specs.Holding.{held_rows, most_rows};
ghost use Rattle.tsb_field_streams.specs.Filtering.{Given, Stand, bound_of, most_held, with_due, with_given, with_held, with_late, with_next};

use super::{Filter, NO_ROWS, time_place};
use crate::error::{Disorder, FilterError};
use tsb_event_text::EventRow;
use tsb_field_log::KnownRows;

/// The most rows that are held at a time, where rows are sorted: with 32 bytes each they take 32 MB.
pub const MOST_HELD: usize = 1_000_000;

/// The nanoseconds of a second.
const SECOND: u128 = 1_000_000_000;

impl Filter<'_> {
    ghost use Rattle.tsb_field_streams.specs.Standing.{StandsAt, Takes};

    /// Takes a row that counts, where it may be so many seconds behind the latest one.
    pub(super) fn take_late(
        &mut self,
        number: u32,
        row: EventRow,
        seconds: u32,
    ) -> Result<KnownRows, FilterError>
        ensures takes { (g : Given) (s : Stand) → StandsAt g s self.old → Takes g s (with_late g number s row seconds) result self.new }
        ensures own { IfErr result IsOfText }
    {
        if row.moment.nanos < bound_of(self.latest, seconds) {
            return Err(FilterError::TimeOrder(Disorder {
                line: number,
                moment: row.moment.nanos,
                last: self.latest,
                column: time_place(self.columns),
                within: Some(seconds),
            }));
        }
        if self.held.is_full() {
            return Err(FilterError::TooManyRows(number));
        }
        self.hold(row);
        self.take_due(number, seconds)
    }

    /// Holds a row.
    fn hold(&mut self, row: EventRow)
        requires { length (held_rows self.old.held) < most_rows self.old.held }
        ensures stands { (g : Given) (s : Stand) → StandsAt g s self.old → StandsAt g (with_held s row) self.new }
    {
        self.held.hold(row);
        self.latest = self.latest.max(row.moment.nanos);
    }

    /// Takes the first row that is held, where no row that may still come is before it.
    fn take_due(&mut self, number: u32, seconds: u32) -> Result<KnownRows, FilterError>
        ensures takes { (g : Given) (s : Stand) → StandsAt g s self.old → Takes g s (with_due g number s seconds) result self.new }
        ensures own { IfErr result IsOfText }
    {
        let given = self.held.give_before(bound_of(self.latest, seconds));
        self.take_given(number, given)
    }

    /// Takes a row that was held, where there is one.
    fn take_given(&mut self, number: u32, given: Option<EventRow>) -> Result<KnownRows, FilterError>
        ensures takes { (g : Given) (s : Stand) → StandsAt g s self.old → Takes g s (with_given g number s given) result self.new }
        ensures own { IfErr result IsOfText }
    {
        match given {
            Some(row) => self.take_in_order(number, row),
            None => Ok(NO_ROWS),
        }
    }

    /// How many rows are held.
    pub fn held_count(&self) -> usize
        ensures { (g : Given) (s : Stand) → StandsAt g s self.now → result ≡ length s.held }
    {
        self.held.count()
    }

    /// Takes the first row that is held, where no line follows; without one it changes nothing. The errors are `PastEnd`
    /// and `LogTooLarge`: a row that is held is never out of order.
    pub fn take_next(&mut self) -> Result<KnownRows, FilterError>
        ensures takes { (g : Given) (s : Stand) → StandsAt g s self.old → Takes g s (with_next g s) result self.new }
        ensures own { IfErr result IsOfText }
    {
        let given = self.held.give();
        self.take_given(0, given)
    }
}

/// The moment before which no row may come any more, where the latest one was of this moment.
fn bound_of(latest: u128, seconds: u32) -> u128
    ensures { result ≡ bound_of latest seconds }
{
    let window = seconds as u128 * SECOND;
    if latest < window { 0 } else { latest - window }
}

/// How many rows may be held, where a row may be so many seconds behind.
pub(crate) fn most_held(window: Option<u32>) -> usize
    ensures { result ≡ most_held window }
{
    match window {
        Some(_) => MOST_HELD,
        None => 0,
    }
}
