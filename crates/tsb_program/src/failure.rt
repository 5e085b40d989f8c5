//! What fails a program, and the line that it writes then.
ghost use Rattle.std.specs.Prelude.{◌≡◌, ◌≤◌, length};
ghost use Rattle.tsb_program.specs.Failures.{failure_text};

use thiserror::Error;

/// What failed. Each is printed as its line.
#[derive(Clone, Copy, Debug, Error)]
#[error("{}", self.line())]
pub enum Failure {
    /// There was no memory.
    Memory,
    /// A read.
    Read,
    /// A read of standard input, which is told.
    Input,
    /// A write.
    Write,
}

impl Failure {
    /// The failure's line, without its end; that of standard input has a second one, which names it.
    pub fn line(&self) -> &'static str
        ensures line { result.now ≡ failure_text self.now }
        ensures short { length result.now ≤ 25 }
    {
        match self {
            Failure::Memory => "memory",
            Failure::Read => "read fault",
            Failure::Input => "read fault\nstandard input",
            Failure::Write => "write fault",
        }
    }
}
