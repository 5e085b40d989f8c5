//! What ends a filter before its events do.

use crate::fault_lines::Printed;
use thiserror::Error;
use tsb_event_text::RowFault;

/// A row that is earlier than one before it, or where rows are sorted, by more than they may be.
#[derive(Clone, Copy, Debug, PartialEq, Eq)]
pub struct Disorder {
    /// The number of its line, counted from 1.
    pub line: u32,
    /// Its moment, in nanoseconds as a `Moment` counts them.
    pub moment: u128,
    /// The latest moment of the rows before it.
    pub last: u128,
    /// The place of the column that has the times, counted from 0.
    pub column: usize,
    /// How many seconds it might have been earlier, where rows are sorted.
    pub within: Option<u32>,
}

/// What ends a filter before its events do. What was written until then is a prefix of the log. Each is printed as its
/// line.
#[derive(Clone, Copy, Debug, PartialEq, Eq, Error)]
#[error("{}", Printed(self))]
pub enum FilterError {
    /// There was no memory to begin with: nothing was read, and nothing was written.
    Memory,
    /// A read failed or was interrupted.
    Read,
    /// A write failed, was interrupted or took no byte, or the writer did not pass on what it had taken.
    Write,
    /// There are more than 1 GiB of events.
    TooLarge,
    /// This line, counted from 1, is longer than 1,000 bytes.
    LongLine(u32),
    /// This line, counted from 1, is neither skipped nor a header nor a row of an event, and why.
    Malformed(u32, RowFault),
    /// A row is earlier than one before it, or where rows are sorted, by more than it may be.
    TimeOrder(Disorder),
    /// With the row of this line, counted from 1, more rows would wait to be sorted than may.
    TooManyRows(u32),
    /// An event of an input is past tick 6,000,000.
    PastEnd,
    /// The log has more than 64 MiB, which no reader of logs takes.
    LogTooLarge,
}
