//! What holds of all live runs, each law the contract of a function that does nothing.
ghost use Rattle.tsb_live_text.specs.Laws.{CommandsAreAnsweredAsThere, LastLinesLeaveWhatWasTaken, LinesLeaveWhatWasTaken, RowsAreAnsweredAsThere, RunsWriteAsThere};

/// Every input of a live run was taken, whatever lines came. Each was taken where it stands, on the plan that the run
/// began with, also after the line that ends the run. So every law of runs holds of it: each display is safe.
///
/// Mistake: an input that is refused stays (`has_none`, `would_stay`).
/// Witness: `row_was_read` of LiveExamples, a run of one row.
pub fn live_inputs_are_taken()
    ensures lines { LinesLeaveWhatWasTaken }
    ensures last { LastLinesLeaveWhatWasTaken }
{}

/// A live run writes what a session on a log writes. Its rows are to be those that the log has at the next tick, and
/// stand for `step 1`. Its other lines are to ask the same as in the session, and take no tick. Then the bytes of both
/// are one text, and the same inputs remain. A single command is answered as in a session in which each tick has the row
/// last given.
///
/// Needs: for `rows` and `commands`, that events and echo are off; for `rows`, that the plans are one, that the schedule
/// acts in both or in neither, and that display lines are wide in both or in neither; for `runs`, that the run is not
/// strict.
/// Not said: `step 2` and more on a log, since a live run takes these ticks with the row last given; the line that ends
/// the run.
/// Mistake: the tick has the row that was given before (`is_on`, `would_be_off`).
/// Witness: `row_was_a_step` of LiveExamples, a row and `step 1`.
pub fn live_runs_write_as_sessions()
    ensures commands { CommandsAreAnsweredAsThere }
    ensures rows { RowsAreAnsweredAsThere }
    ensures runs { RunsWriteAsThere }
{}
