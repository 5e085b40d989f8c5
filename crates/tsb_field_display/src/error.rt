//! What ends the reading of a session's answers before their end.

use thiserror::Error;

/// What ends the reading of a session's answers before their end. What was read until then is lost.
#[derive(Clone, Copy, Debug, PartialEq, Eq, Error)]
pub enum ReplayError {
    /// Memory ran out where a change had to be kept.
    #[error("memory")]
    Memory,
    /// A read failed or was interrupted.
    #[error("read fault")]
    Read,
}
