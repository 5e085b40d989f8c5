//! What holds of all lines of a live session, each law the contract of a function that does nothing.
ghost use Rattle.tsb_command_text.specs.Laws.{AreBadWhereLong, AreNew, AreNoCommands, AreRowsOfLogs, AskByTheirFirstBytes, AskTheSame, LayOutTheSame, SkipTheSame, TakeTheSameNumber};

/// A line is a row exactly where it is a row of a log after a tick, with the same inputs. So no space may come before
/// it or after it.
///
/// Mistake: spaces before a row are dropped, as those before a command, `reading_trimmed` (`is_bad`, `is_malformed`,
/// `would_be_a_tick`).
/// Witness: `is_a_tick`, `is_a_row` of Mistakes.
pub fn rows_are_rows_of_logs()
    ensures { AreRowsOfLogs }
{}

/// A line asks for a command of `tsb run` exactly where `tsb run` reads that command in it. So it is with `lines wide`
/// and `lines narrow`. A line is skipped exactly where it is skipped there.
///
/// Not said: what the commands do.
/// Mistakes: a line may have 250 bytes, `reading_to_250` (`is_bad_there`, `would_be_asked`); comments may have spaces
/// before them, `reading_indented` (`is_no_comment`, `would_be_skipped`).
/// Witness: `asks_show`, `reads_show`, `skips_a_comment`, `is_skipped_there` of Mistakes.
pub fn commands_of_sessions_are_kept()
    ensures commands { AskTheSame }
    ensures layouts { LayOutTheSame }
    ensures skipped { SkipTheSame }
{}

/// No line is both a row and a command. Neither `tsb run` nor a live session reads a command in a row, and no row is
/// skipped.
///
/// Mistake: a byte that is no 1 counts as a 0, `reading_loosely` (`asks_undo`, `reads_undo`, `would_be_all_off`).
/// Witness: `is_a_tick` of Mistakes.
pub fn rows_are_no_commands()
    ensures { AreNoCommands }
{}

/// What is asked live alone is a bad command to `tsb run`. So the words of `tsb run` stay as they are. Layouts of lines
/// are asked there too.
///
/// Mistake: `step` prints the lines that differ, and `changes` is no word, `reading_step_as_changes` (`reads_step`,
/// `would_be_changes`).
/// Witness: `asks_status`, `is_bad_to_a_session` of Mistakes.
pub fn new_commands_are_new()
    ensures { AreNew }
{}

/// `changes` takes a number exactly where `step` takes it. A number has the same digits and the same greatest value.
///
/// Needs: at most 192 bytes after the word and its space, since a line has at most 200.
/// Mistake: `changes` takes no leading zero, `reading_without_zeros` (`takes_05`, `asks_05`, `would_be_bad`).
/// Witness: `takes_05`, `asks_05` of Mistakes.
pub fn changes_count_as_steps()
    ensures { TakeTheSameNumber }
{}

/// A line of over 200 bytes is bad, whatever it holds. It is bad to `tsb run` as well. So of any line the first 202 bytes
/// ask the same as all, also where a carriage return at its end is taken off.
///
/// Mistakes: a blank line is skipped whatever its length, `reading_skips_first` (`is_too_long`, `would_be_blank`); 201
/// bytes of a line are kept (`is_bad_whole`, `would_be_show`).
/// Witness: `is_too_long`, `is_bad_whole` of Mistakes.
pub fn long_lines_are_bad()
    ensures bad { AreBadWhereLong }
    ensures first { AskByTheirFirstBytes }
{}
