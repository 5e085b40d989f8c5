//! Why a line of a run does not pass.

use thiserror::Error;

/// Why a line of a run does not pass.
#[derive(Clone, Copy, Debug, Error, PartialEq, Eq)]
pub enum Fault {
    /// It can't be read.
    #[error("malformed")]
    Malformed,
    /// The layer answers, refuses or changes something other than the line says.
    #[error("differs")]
    Differs,
    /// There is no memory for it.
    #[error("memory")]
    Memory,
}

/// Passes where what a layer answers is the same as the line says.
pub fn same(is_same: bool) -> Result<(), Fault> {
    if is_same { Ok(()) } else { Err(Fault::Differs) }
}
