//! What holds of all that is kept, each law the contract of a function that does nothing.
ghost use Rattle.tsb_text.specs.kept.Laws.{GivesAgain, RowsAreFew, RowsAreGiven};

/// Kept rows are those of the log. Whatever inputs came later, the row in force at a tick is the one that the tick was
/// given.
///
/// Mistake: a row has the number of the tick before it, `rows_one_early` (`is_off_at_1`, `would_be_on_at_1`).
/// Witness: `is_on_at_2` of Mistakes, the second of three ticks.
pub fn kept_rows_are_given()
    ensures { RowsAreGiven }
{}

/// Kept rows are few. Their ticks rise, and each differs from the row before it; so they are rows of a log, and none
/// could be left out.
///
/// Mistake: each tick has a row, `rows_of_all` (`has_one_row`, `would_have_two`).
/// Witness: `has_one_row` of Mistakes, two ticks with the same inputs on.
pub fn kept_rows_are_few()
    ensures { RowsAreFew }
{}

/// What is kept gives the inputs again: ticks with the rows in force there up to each of the other inputs, and it, and
/// then ticks up to the one in force.
///
/// Mistake: another input comes after the tick that follows it, `other_one_late` (`comes_first`, `would_come_second`).
/// Witness: `comes_first` of Mistakes, a pattern before the first tick.
pub fn kept_inputs_are_given_again()
    ensures { GivesAgain }
{}
