//! The commands of a session.

use tsb_plan::ObjectId;
use tsb_types::{ClockTime, Lamp, Station, Watch};

/// What a session does on command. A number that nothing has, such as that of a pattern or an index, is refused when
/// the command is done, and not when it is read.
#[derive(Clone, Copy, PartialEq, Eq)]
pub enum Command {
    /// `step N`: takes this many ticks, with the rows of the log.
    Step(u32),
    /// `back N`: goes back by this many ticks.
    Back(u32),
    /// `seek T`: goes back to this tick.
    Seek(u32),
    /// `undo`: takes the newest input back.
    Undo,
    /// `show`: says what is shown now.
    Show,
    /// `when WATCH`: says the tick of the last change.
    When(Watch),
    /// `begin S`: opens the transaction of a station.
    Begin(Station),
    /// `set S OBJECT INDEX VALUE`: the station edits an object at an index, to a value.
    Set(Station, ObjectId, u32),
    /// `verify S`: checks the edits of the station.
    Verify(Station),
    /// `commit S`: the edits of the station come into force.
    Commit(Station),
    /// `abort S`: the edits of the station are dropped.
    Abort(Station),
    /// `pattern N`: asks for a pattern, by its number.
    Pattern(u32),
    /// `preempt N on` and `preempt N off`: turns a preempt, by its number, on (`true`) or off.
    Preempt(u32, bool),
    /// `fault HEAD ASPECT` lights a lamp in place of what its head shows; `fault none` ends that.
    Fault(Option<Lamp>),
    /// `reset`: resets the monitor.
    Reset,
    /// `clock YYYY-MM-DD HH:MM:SS[.d]`: the next tick begins then.
    Clock(ClockTime),
    /// `omit LIST`: the overlaps of this list are arrows that do not flash from now on.
    Omit(u32),
    /// `quit`: ends the session.
    Quit,
}

/// What a line asks of a session.
#[derive(Clone, Copy, PartialEq, Eq)]
pub enum Reading {
    /// Nothing: the line is blank or a comment.
    Skip,
    /// The line is not a command, or is too long.
    Bad,
    /// Wide display lines from now on (`true`), or narrow ones: `lines wide`, `lines narrow`.
    Lines(bool),
    /// This command.
    Do(Command),
}
