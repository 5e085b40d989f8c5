//! The commands of a live session.

use crate::Command;
use tsb_log_text::RowInput;
use tsb_types::{ClockTime, Row};

/// The moment of the clock that `goto` and `tick` name.
#[derive(Clone, Copy)]
pub enum Aim {
    /// A time of the day that the clock has, in tenths of a second since midnight.
    Time(u32),
    /// A time of a day that is named.
    Moment(ClockTime),
}

/// What a live session does on command, beside a tick with inputs of its own.
#[derive(Clone, Copy)]
pub enum LiveCommand {
    /// A command of `tsb run`: the same as there.
    Session(Command),
    /// `status`: prints the status of the controller.
    Status,
    /// `changes N`: takes this many ticks, as `step N`, and prints of their lines those that differ.
    Changes(u32),
    /// `goto HH:MM:SS[.d]` and `goto YYYY-MM-DD HH:MM:SS[.d]`: takes ticks up to this moment of the clock, or goes back to
    /// it.
    GoTo(Aim),
    /// `tick HH:MM:SS[.d]` and `tick YYYY-MM-DD HH:MM:SS[.d]`: prints the first tick at or after this moment of the clock.
    TickAt(Aim),
    /// `plan`: prints the plan in effect.
    Plan,
    /// `edits`: prints the edits at the desk.
    Edits,
    /// `events on` and `events off`: whether ticks and commands print their events (`true`) or not.
    Events(bool),
    /// `when input D`, `when button D` and `when preempt N`: prints the tick at which an input of the rows changed
    /// last.
    When(RowInput),
    /// `echo on` and `echo off`: whether answers follow their command (`true`) or not.
    Echo(bool),
    /// `lines wide` and `lines narrow`: whether display lines are wide (`true`) or not.
    Lines(bool),
    /// `save`: prints the log and the commands by which `tsb run` comes to the present state.
    Save,
    /// `help`: prints the commands, each with what it does.
    Help,
}

/// What a line asks of a live session.
#[derive(Clone, Copy)]
pub enum LiveReading {
    /// Nothing: the line is blank or a comment.
    Skip,
    /// The line is neither a row nor a command, or is too long.
    Bad,
    /// One tick with these inputs.
    Tick(Row),
    /// This command.
    Ask(LiveCommand),
}
