//! Why words ask for nothing.
ghost use Rattle.std.specs.Prelude.{◌≡◌};
ghost use Rattle.std.specs.IoError.{error_kind};
ghost use Rattle.clap.specs.Words.{kind_of};
ghost use Rattle.tsb_words.specs.declared.error.WordsError.TheVariants.{Memory};
ghost use Rattle.tsb_words.specs.Words.{given_fault, words_fault};

use clap::error::ErrorKind;
use std::alloc::AllocError;
use std::io::{self, ErrorKind as DeviceKind};
use thiserror::Error;

/// Why words ask for nothing.
#[derive(Clone, Copy, Debug, Error)]
pub enum WordsError {
    /// There was no memory to read them.
    #[error("memory")]
    Memory,
    /// They are not words of the program, or they ask for help.
    #[error("bad words")]
    Bad,
}

// These are written by hand: of what `#[from]` would write, no clause says which fault `?` makes.

impl From<AllocError> for WordsError {
    ghost from_gives = { λ _ fault. fault ≡ Memory };

    fn from(_error: AllocError) -> WordsError {
        WordsError::Memory
    }
}

impl From<clap::Error> for WordsError {
    ghost from_gives = { λ error fault. fault ≡ words_fault (kind_of error) };

    fn from(error: clap::Error) -> WordsError {
        match error.kind() {
            ErrorKind::OutOfMemory => WordsError::Memory,
            _ => WordsError::Bad,
        }
    }
}

/// Why the words can't be had: there is no memory for them, or they are not UTF-8, and so not words of a program.
impl From<io::Error> for WordsError {
    ghost from_gives = { λ error fault. fault ≡ given_fault (error_kind error) };

    fn from(error: io::Error) -> WordsError {
        match error.kind() {
            DeviceKind::OutOfMemory => WordsError::Memory,
            _ => WordsError::Bad,
        }
    }
}
