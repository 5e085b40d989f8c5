//! Why a text is not a log.

ghost use Rattle.std.specs.Prelude.{◌≡◌, Some};
ghost use Rattle.tsb_log_text.specs.FaultLines.{log_fault};

use std::fmt;
use thiserror::Error;

/// Why a text is not a log. Lines count from 1, and those that are skipped count too.
#[derive(Clone, Copy, Debug, PartialEq, Eq, Error)]
#[error("{}", self.line())]
pub enum LogError {
    /// Memory ran out. A line of the text may have a fault as well.
    Memory,
    /// The text has over `LIMIT` bytes.
    TooLarge,
    /// This line is the first with a fault: it is not a row, or its tick is not 1 to 6,000,000.
    Malformed(u32),
    /// This line is the first with a fault: its tick is not above that of the row before it.
    TickOrder(u32),
}

impl LogError {
    /// The fault's line, without its end.
    pub fn line(&self) -> LogLine<'_>
        ensures { result.fault.now ≡ self.now }
    {
        LogLine { fault: self }
    }
}

/// The line of a fault, without its end. Its `Display` says what it prints, which a derived one does not.
#[derive(Clone, Copy)]
pub struct LogLine<'a> {
    /// The fault.
    pub fault: &'a LogError,
}

impl fmt::Display for LogLine<'_> {
    ghost output = { λ line. Some (log_fault line.fault.now) };

    fn fmt<W: fmt::Write>(&self, f: &mut fmt::Formatter<W>) -> fmt::Result {
        match self.fault {
            LogError::Memory => f.write_str("memory"),
            LogError::TooLarge => f.write_str("log: too large"),
            LogError::Malformed(line) => write!(f, "log line {line}: malformed"),
            LogError::TickOrder(line) => write!(f, "log line {line}: tick order"),
        }
    }
}
