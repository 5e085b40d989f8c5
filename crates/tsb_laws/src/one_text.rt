//! What holds of the texts of sessions and live runs, each law the contract of a function that does nothing.
ghost use Rattle.tsb_laws.specs.OneAnswer.{LinesHaveOneAnswer, LiveRunsWriteOneText};
ghost use Rattle.tsb_laws.specs.SavedRuns.{SavedRunsAreSessions};
ghost use Rattle.tsb_laws.specs.OneText.{OneText, SessionsWriteOneText, SomeTextIsUntold, TextsPartAtMemory};

/// Texts of a session are equal but for memory. Two texts that a session may write for the same bytes are equal, or
/// they are equal up to a line where one of them says `refused E1 Memory`. So they are equal where neither says so, and
/// for all bytes there is one that does not.
///
/// Not said: when memory runs out.
/// Mistakes: an undo that may be answered by `nothing` whatever remains, `IsLoose` (`would_be_right`, `is_not_right`);
/// a way back of one tick more than there are, `IsFurther` (`would_both_be_right`, `the_other_is_not`); the law without
/// its words on memory, which `text` and `short` break (`are_two`).
/// Witness: `is_text` of Witness, a session with a tick, a transaction and an undo.
pub fn texts_are_equal_but_for_memory()
    ensures part { TextsPartAtMemory }
    ensures one { OneText }
    ensures some { SomeTextIsUntold }
{}

/// Two sessions over the same plan, log and bytes write one text. This holds where both answer Ok and neither says
/// `refused E1 Memory`, however far each has read after a line `quit`.
///
/// Not said: anything of sessions that end with a fault. `session` says that these have written the beginning of a
/// text.
/// Mistake: a session that ends well before the end of what it was given (`read_a_line`, `read_all`, `would_differ`).
/// Witness: `session` of Witness.
pub fn sessions_write_one_text()
    ensures { SessionsWriteOneText }
{}

/// Live runs write one text, but for memory. To each line a live run has one answer, and it comes to one state by it,
/// where the line is not refused for want of memory. So it has written one text to all lines that it has read.
///
/// Not said: when memory runs out.
/// Mistake: an undo that may be answered by `nothing` whatever remains, `IsLoose` (`would_be_right`, `is_not_right`).
/// Witness: `row_was_said`, `row_was_read` of LiveExamples of tsb_live_text.
pub fn live_runs_write_one_text()
    ensures lines { LinesHaveOneAnswer }
    ensures runs { LiveRunsWriteOneText }
{}

/// What is saved of a live run is a session that ends alike. On the saved log a session may answer the saved commands so
/// that the same inputs remain, and so the same state, plan and history. The schedule does not act in it.
///
/// Needs: that each of the inputs was taken, as those of a live run were (`live_inputs_are_taken`).
/// Not said: that memory suffices for them again; that the saved texts are read as this log and these commands, which
/// laws of tsb_live_text say.
/// Mistake: ticks come before the inputs that came first, `takes_the_tick_first` of tsb_live_text (`would_come_last`).
/// Witness: `takes_both` of Mistakes of tsb_live_text, a reset and a tick from power-up.
pub fn saved_runs_are_sessions()
    ensures { SavedRunsAreSessions }
{}
