//! What holds of all that is saved, each law the contract of a function that does nothing.
ghost use Rattle.tsb_live_text.specs.saved.Laws.{AreEasy, SavedTextsAreJson, CommandsAreRead, KeptAreSpelled, LogsAreRead, ReadsAreSpelled, RowsReadAreFit};
ghost use Rattle.tsb_live_text.specs.saved.Taken.{RunsEndAlike};

/// The line of what is saved is JSON: an object with the text of the log and the lines of the commands, each as a string.
///
/// Mistake: a line feed is in a string without its escape, `unescaped` (`is_no_json`).
/// Witness: `line_of_one` of Mistakes, one tick after a pattern.
pub fn saved_lines_are_json()
    ensures { SavedTextsAreJson }
{}

/// The saved log is read as the rows that are kept. So each of its ticks has the row that it was given.
///
/// Needs: at most 64 MiB of text, which is 1,720,740 rows; inputs of numbers that a row has.
/// Mistake: lines have no line feed, `unended` (`is_a_log`, `would_be_malformed`).
/// Witness: `is_a_log` of Mistakes, two rows.
pub fn saved_logs_are_read()
    ensures { LogsAreRead }
{}

/// The saved commands are read as what they were: ticks up to each of the other inputs, and it, and then ticks up to the
/// one in force.
///
/// Needs: inputs of numbers that commands have, as all have that were read in a command.
/// Not said: that none of them is refused.
/// Mistake: an object and its index are one word, `set_by_a_dot` (`is_set`, `would_be_bad`).
/// Witness: `is_set` of Mistakes, an edit.
pub fn saved_commands_are_read()
    ensures { CommandsAreRead }
{}

/// Saved texts have printable ASCII without quotes and backslashes, and line feeds. So a line feed is the only byte that
/// has an escape, and the line that is said is one line.
///
/// Needs: inputs of numbers that commands have.
/// Mistake: a line feed is in a string without its escape, `unescaped` (`has_a_feed`).
/// Witness: `line_of_one` of Mistakes.
pub fn saved_texts_are_plain()
    ensures { AreEasy }
{}

/// A saved run ends alike. The saved commands leave exactly the inputs that were taken, over the saved log and from
/// power-up with the same plan. There is such a run, and no other in which nothing is refused.
///
/// Needs: that each of the inputs was taken; and that the schedule of the plan does not act as the commands run, since a
/// pattern that followed an input is saved as a command.
/// Not said: that memory suffices for them again.
/// Mistake: ticks come before the inputs that came first, `takes_the_tick_first` (`would_come_last`).
/// Witness: `takes_both` of Mistakes, a reset and a tick from power-up.
pub fn saved_runs_end_alike()
    ensures { RunsEndAlike }
{}

/// What was read can be saved. The number of an input whose command was read in a line is such as commands have, and a row
/// that was read has inputs of numbers that a log has. So what is kept of such inputs is as the laws of saved texts need it.
///
/// Mistake: a pattern is 1 to 16, as the controller has them, `up_to_16` (`reads_99`, `would_leave_99_out`).
/// Witness: `reads_99` of Mistakes.
pub fn what_was_read_can_be_saved()
    ensures inputs { ReadsAreSpelled }
    ensures rows { RowsReadAreFit }
    ensures kept { KeptAreSpelled }
{}
