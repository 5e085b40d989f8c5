//! What ends a dialog before its lines do.

use thiserror::Error;

/// What ends a dialog before its lines do. What was written until then begins what may be said to the lines.
#[derive(Clone, Copy, Debug, PartialEq, Eq, Error)]
pub enum DialogError {
    /// A read failed or was interrupted.
    #[error("read fault")]
    Read,
    /// A write failed, was interrupted or took no byte, or the writer did not pass on what it had taken.
    #[error("write fault")]
    Write,
    /// There is a byte after as many as may be read.
    #[error("too large")]
    TooLarge,
}
