//! The commands of a session, and what they answer.

use tsb_history::Kind;
use tsb_types::Refusal;

/// A command of a session, of inputs `I` and watched values `W`.
#[derive(Clone, Copy, PartialEq, Eq)]
pub enum MachineCommand<I, W> {
    /// Takes an input.
    Apply(I),
    /// Takes the newest input back.
    Undo,
    /// Goes back by so many ticks.
    Back(u32),
    /// Goes back to this tick number.
    Seek(u32),
    /// Asks for the greatest tick number, of those not taken back, at which the watched value changed.
    When(W),
}

/// What a command answers.
#[derive(Clone, Copy, Debug, PartialEq, Eq)]
pub enum Answer {
    /// The input was taken.
    Took,
    /// The input was refused, and changed nothing.
    Refused(Refusal),
    /// The newest input, which was of this kind, was taken back.
    Undone(Kind),
    /// The bench went back, or was there already.
    Moved,
    /// There is nothing to take back, or not that much. Nothing changed.
    Nothing,
    /// The watched value changed at this tick number last, or never.
    Changed(Option<u32>),
}
