//! What ends a text of events.

use thiserror::Error;

/// Why there is no text of events.
#[derive(Clone, Copy, Debug, PartialEq, Eq, Error)]
pub enum EventsError {
    /// There was not enough memory for the events and their text. What was made is gone.
    #[error("memory")]
    Memory,
    /// A tick has no year of four digits: the first, or tick 9,999,999. Nothing was made.
    #[error("events: past the year 9999")]
    Late,
}
