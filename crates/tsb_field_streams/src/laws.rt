//! What holds of rows that are sorted within a window, a law that is the contract of a function that does nothing.
ghost use Rattle.tsb_field_streams.specs.SortLaws.{TellTheSameInOrder, TellWhatSortedRowsTell};

/// Rows within the window come to what the same rows come to, sorted by time: the same log and the same summary, or the
/// same fault. Rows in order come to what they come to where they are not sorted.
///
/// Needs: no row is further behind the latest one above it than the window, and not more come within it than may be held.
/// Mistakes: a row is taken once a later one is read (`would_be_late`); rows that are still held at the end are lost
/// (`would_be_lost`).
/// Witness: `are_within`, `are_taken` of SortMistakes.
pub fn late_rows_tell_what_sorted_rows_tell()
    ensures sorted { TellWhatSortedRowsTell }
    ensures order { TellTheSameInOrder }
{}
