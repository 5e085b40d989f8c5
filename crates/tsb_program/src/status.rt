//! What a program ends with.
ghost use Rattle.std.specs.Prelude.{◌≡◌};
ghost use Rattle.tsb_program.specs.Statuses.{number};

/// What a program ends with.
#[derive(Clone, Copy)]
pub enum ExitStatus {
    /// All was done.
    Done,
    /// What was read was refused: a plan, a log or a line of events.
    Refused,
    /// The words are not those of the program.
    BadWords,
    /// A read, a write or memory failed.
    Failed,
    /// A line that is no command, or that is refused, ended a strict run.
    Stopped,
}

impl ExitStatus {
    /// The number that the program ends with, 0 to 4.
    pub fn number(self) -> u8
        ensures { result ≡ number self }
    {
        match self {
            ExitStatus::Done => 0,
            ExitStatus::Refused => 1,
            ExitStatus::BadWords => 2,
            ExitStatus::Failed => 3,
            ExitStatus::Stopped => 4,
        }
    }
}
