//! The two forms of a log, and the row that a line spells in each.
ghost use Rattle.std.specs.List.{list_any};
ghost use Rattle.std.specs.Prelude.{◌≡◌, nat_le};
ghost use Rattle.tsb_lines.specs.Lines.{lines_of};
ghost use Rattle.tsb_log_text.specs.Forms.{form_of, form_for, inputs_in, is_beyond_digits, row_in};

use crate::list_text::{lists_of, lists_row};
use crate::log::LogRow;
use crate::row_text::{inputs_of, row};
use tsb_lines::{is_skipped, next_line};
use tsb_types::{DetectorSet, NumberSet, Row};

/// A form of the rows of a log. All rows of a log have one form.
#[derive(Clone, Copy, PartialEq, Eq)]
pub enum RowForm {
    /// Version 1: a digit for each input.
    Digits,
    /// Version 2: for each kind of input a list of the numbers that are on.
    Lists,
}

/// The row that a line spells in a form, or `None` where it is not a row of this form.
pub(crate) fn row_in(form: RowForm, line: &[u8]) -> Option<LogRow>
    ensures { result ≡ row_in form line.now }
{
    match form {
        RowForm::Digits => row(line),
        RowForm::Lists => lists_row(line),
    }
}

/// The form of a log: lists, where the first line that is not skipped is a row of lists.
pub(crate) fn form_of(text: &[u8]) -> RowForm
    ensures { result ≡ form_of (lines_of text.now) }
{
    let mut rest = text;
    loop {
        let (line, behind) = next_line(rest);
        if !is_skipped(line) {
            return if lists_row(line).is_some() {
                RowForm::Lists
            } else {
                RowForm::Digits
            };
        }
        let Some(more) = behind else {
            return RowForm::Digits;
        };
        rest = more;
    }
}

/// The inputs that a line spells in either form, as a row does after its tick, or `None` where it spells none.
pub fn inputs_in(line: &[u8]) -> Option<Row>
    ensures { result ≡ inputs_in line.now }
{
    match inputs_of(line) {
        Some(row) => Some(row),
        None => lists_of(line),
    }
}

/// Whether an input is on for which rows in digits have none.
pub fn is_beyond_digits(row: &Row) -> bool
    ensures { result ≡ is_beyond_digits row.now }
{
    reaches_detectors(row.vehicles) || reaches(row.pedestrians, 256) || reaches(row.preempts, 16)
}

/// Whether a set has a detector above 16.
fn reaches_detectors(set: DetectorSet) -> bool
    ensures { result ≡ nat_le 65536 set.word }
{
    set.list() >= 65_536
}

/// Whether the list of a set is at least so much.
fn reaches(set: NumberSet, least: u16) -> bool
    ensures { result ≡ nat_le least set.word }
{
    set.list() >= least
}

/// The form in which a log with these rows is written: digits, where these have one for each input that is on.
pub fn form_for(rows: &[LogRow]) -> RowForm
    ensures { result ≡ form_for rows.now }
{
    if reach_beyond(rows) {
        RowForm::Lists
    } else {
        RowForm::Digits
    }
}

/// Whether a row has an input on for which rows in digits have none.
fn reach_beyond(rows: &[LogRow]) -> bool
    ensures { result ≡ list_any (λ r. is_beyond_digits r.row) rows.now }
{
    rows.iter().any(|row| is_beyond_digits(&row.row))
}
