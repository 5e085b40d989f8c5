//! What ends a session before its commands do.

ghost use Rattle.std.specs.Prelude.{◌≡◌, ◌≤◌, length};
ghost use Rattle.tsb_text.specs.EndLines.{session_fault};
ghost use Rattle.tsb_text.specs.Replies.{fault_of};

use thiserror::Error;
use tsb_dialog::DialogError;

/// What ends a session before its commands do. What was written until then is a prefix of the session's text. Each is
/// printed as its line.
#[derive(Clone, Copy, Debug, PartialEq, Eq, Error)]
#[error("{}", self.line())]
pub enum SessionError {
    /// There was no memory to begin with: nothing was read, and nothing was written. A session that has begun goes on
    /// where memory runs out: the bench then refuses the command with E1.
    Memory,
    /// A read failed or was interrupted.
    Read,
    /// A write failed, was interrupted or took no byte, or the writer did not pass on what it had taken.
    Write,
    /// The commands are longer than 16 MiB.
    TooLarge,
}

impl SessionError {
    /// The fault's line, without its end.
    pub fn line(&self) -> &'static str
        ensures line { result.now ≡ session_fault self.now }
        ensures short { length result.now ≤ 19 }
    {
        match self {
            SessionError::Memory => "memory",
            SessionError::Read => "read fault",
            SessionError::Write => "write fault",
            SessionError::TooLarge => "commands: too large",
        }
    }
}

/// The fault of a session, a record or a live run whose dialog ended with this one.
pub fn fault_of(fault: DialogError) -> SessionError
    ensures { result ≡ fault_of fault }
{
    match fault {
        DialogError::Read => SessionError::Read,
        DialogError::Write => SessionError::Write,
        DialogError::TooLarge => SessionError::TooLarge,
    }
}
