//! What holds of every log, each law the contract of a function that does nothing.
ghost use Rattle.tsb_log_text.specs.Laws.{AreInForce, AreMalformedThere, AreOffBefore, AreOutOfOrderThere, AreReadByDigits, AreReadByLists, AreReadInTheirForm, AreTheRows, AreTwoForms, HaveOneForm, ReadsVersion1, TellTheirInputs};

/// A text is a log exactly where its lines that are not skipped spell rows whose ticks rise. These are its rows, and a
/// fault is at the first line that has one.
///
/// Mistakes: a row may have the tick of the row before it, `rows_or_at` (`stays`, `would_be_a_log`); lines that are
/// skipped are not counted, `rows_uncounted` (`is_line_2`, `would_be_line_1`).
/// Witness: `rises` of Mistakes, two rows and a comment.
pub fn logs_are_rows_that_rise()
    ensures rows { AreTheRows }
    ensures malformed { AreMalformedThere }
    ensures out_of_order { AreOutOfOrderThere }
{}

/// The row in force at a tick has the greatest tick not above it. Where there is none, all inputs are off.
///
/// Mistakes: a row is in force from the tick after its own, `row_from_next` (`is_on`, `would_be_off`); the first is in
/// force before its tick as well, `row_from_first` (`is_off_before`, `would_be_on`).
/// Witness: `is_on`, `is_off_before` of Mistakes.
pub fn rows_are_in_force_to_the_next()
    ensures greatest { AreInForce }
    ensures none { AreOffBefore }
{}

/// Input k is on exactly where the k-th digit is 1.
///
/// Mistake: the last digit is that of input 1, `list_from_last` (`is_input_2`, `would_be_input_3`, `would_not_name_2`).
/// Witness: `is_input_2`, `names_2` of Mistakes.
pub fn digits_tell_their_inputs()
    ensures { TellTheirInputs }
{}

/// A log has one of two forms, digits or lists, and no line is a row of both. A text whose first row is of digits is read as
/// before there were lists.
///
/// Mistake: a row may have either form, `rows_of_either` (`stays_in_form`, `would_mix`).
/// Witness: `by_lists` of Mistakes, a row of lists.
pub fn logs_have_one_form()
    ensures apart { AreTwoForms }
    ensures one { HaveOneForm }
    ensures version_1 { ReadsVersion1 }
{}

/// Rows that rise are read back from their text: by digits where these have one for each input that is on, by lists all
/// rows that there are, and so all that there are in the form of `form_for`.
///
/// Mistake: a run of two is written as its first number alone, `short_runs` (`has_2`, `would_lose_2`).
/// Witness: `by_lists` of Mistakes.
pub fn rows_are_read_back()
    ensures digits { AreReadByDigits }
    ensures lists { AreReadByLists }
    ensures own { AreReadInTheirForm }
{}
