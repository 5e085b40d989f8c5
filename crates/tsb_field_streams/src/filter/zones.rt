//! Whether rows say their zones, where none is asked for.
ghost use Rattle.std.specs.Prelude.{◌≡◌, Some};
ghost use Rattle.tsb_field_streams.specs.Filtering.{Given, Stand, is_of_clock, is_unasked, is_zoned, says_zone, with_zone};

use super::Filter;
use tsb_event_text::{Columns, TimeForm, WideRow, Zone, wide_row};

/// A zone that no row can say: a day ahead of UTC.
const ELSEWHERE: Zone = Zone {
    east: 1440,
    west: 0,
};

impl Filter<'_> {
    ghost use Rattle.tsb_field_streams.specs.Standing.{StandsAt};

    /// Knows whether a row counts that says its zone, where none is asked for. This line spells the row, with its columns
    /// in these places.
    pub(super) fn note_zone(&mut self, columns: Columns, text: &[u8], row: WideRow)
        ensures stands { (g : Given) (s : Stand) → StandsAt g s self.old → StandsAt g (with_zone g s columns text.now (Some row)) self.new }
    {
        self.zoned = self.zoned || self.is_zoned(columns, text, row);
    }

    /// Whether the row that this line spells counts and says its zone, where none is asked for.
    fn is_zoned(&self, columns: Columns, text: &[u8], row: WideRow) -> bool
        ensures { (g : Given) (s : Stand) → StandsAt g s self.now → result ≡ is_zoned g s columns text.now row }
    {
        if !row.ours || !is_unasked(self.reading.zone) {
            return false;
        }
        let other = wide_row(text, columns, self.times, Some(ELSEWHERE), self.device);
        says_zone(row, other)
    }
}

/// Whether no zone is asked for.
fn is_unasked(zone: Option<Zone>) -> bool
    ensures { result ≡ is_unasked zone }
{
    match zone {
        None => true,
        Some(_) => false,
    }
}

/// Whether a row says its zone: it has another moment by the clock of a zone that no row says, which is `other`.
fn says_zone(row: WideRow, other: Option<WideRow>) -> bool
    ensures { result ≡ says_zone row other }
{
    match other {
        None => false,
        Some(other) => is_of_clock(row.form) && other.moment.nanos != row.moment.nanos,
    }
}

/// Whether times of this form have a clock, which a zone may follow.
fn is_of_clock(form: TimeForm) -> bool
    ensures { result ≡ is_of_clock form }
{
    match form {
        TimeForm::Seconds => false,
        TimeForm::Milliseconds => false,
        _ => true,
    }
}
