//! Rows of a log on their way out.
ghost use Rattle.std.specs.Prelude.{◌≡◌, ◌+◌, ◌≤◌, ◌++◌, Err, OnErr, OnOk, false, length, option_to_list, true};
ghost use Rattle.std.specs.Io.KnownBytes.{Appends, Keeps};
ghost use Rattle.tsb_lines.specs.Writes.{AppendsFront};
ghost use Rattle.tsb_field_log.specs.Streets.{rows_in};
ghost use Rattle.tsb_log_text.specs.ListText.{text_in};
ghost use Rattle.tsb_log_text.specs.declared.list_line.TheConstants.{LISTS_LINE};
ghost use Rattle.tsb_field_streams.specs.declared.rows.TheConstants.{ROWS};
ghost use Rattle.tsb_field_streams.specs.Blame.{BlamesWriter, HasMemory};
ghost use Rattle.tsb_field_streams.specs.declared.error.FilterError.TheVariants.{Write as write};

use crate::error::FilterError;
use std::io::Write;
use tsb_field_log::KnownRows;
use tsb_lines::{ShortLine, Watched};
use tsb_log_text::{LISTS_LINE, LogRow, RowForm, line_in};

/// How many bytes the lines of two rows have at most.
const ROWS: usize = 2 * LISTS_LINE;

/// Writes rows in this form. The error is `Write`: their first bytes may have gone out.
pub(crate) fn write_rows<W: Write>(
    writer: &mut Watched<W>,
    form: RowForm,
    rows: KnownRows,
) -> Result<(), FilterError>
    ensures whole { OnOk result (Appends (W.contents writer.old.device) (W.contents writer.new.device) (text_in form (rows_in rows))) }
    ensures front { AppendsFront (W.contents writer.old.device) (W.contents writer.new.device) (text_in form (rows_in rows)) }
    ensures fault { OnErr result (result ≡ Err write) }
    ensures memory { HasMemory result }
    ensures blame { writer.old.failed ≡ false → BlamesWriter result writer.new.failed }
{
    let text = rows_text(form, rows);
    match writer.write_text(text.as_bytes()) {
        Ok(()) => Ok(()),
        Err(_) => Err(FilterError::Write),
    }
}

/// Writes rows, and has the writer pass on what it has taken. The error is `Write`: their first bytes may have gone out.
pub(crate) fn write_last_rows<W: Write>(
    writer: &mut Watched<W>,
    form: RowForm,
    rows: KnownRows,
) -> Result<(), FilterError>
    ensures whole { OnOk result (Appends (W.contents writer.old.device) (W.contents writer.new.device) (text_in form (rows_in rows))) }
    ensures front { AppendsFront (W.contents writer.old.device) (W.contents writer.new.device) (text_in form (rows_in rows)) }
    ensures fault { OnErr result (result ≡ Err write) }
    ensures flushed { OnOk result (writer.new.flushed ≡ true) }
    ensures memory { HasMemory result }
    ensures blame { writer.old.failed ≡ false → BlamesWriter result writer.new.failed }
{
    match write_rows(writer, form, rows) {
        Ok(()) => pass_rows_on(writer),
        Err(fault) => Err(fault),
    }
}

/// Has the writer pass on what it has taken.
fn pass_rows_on<W: Write>(writer: &mut Watched<W>) -> Result<(), FilterError>
    ensures bytes { Keeps (W.contents writer.old.device) (W.contents writer.new.device) }
    ensures fault { OnErr result (result ≡ Err write) }
    ensures flushed { OnOk result (writer.new.flushed ≡ true) }
    ensures memory { HasMemory result }
    ensures blame { writer.old.failed ≡ false → BlamesWriter result writer.new.failed }
{
    match writer.pass_on() {
        Ok(()) => Ok(()),
        Err(_) => Err(FilterError::Write),
    }
}

/// How many bytes the lines of rows in a form have.
pub(crate) fn text_size(form: RowForm, rows: KnownRows) -> usize
    ensures size { result ≡ length (text_in form (rows_in rows)) }
    ensures few { result ≤ ROWS }
{
    rows_text(form, rows).as_bytes().len()
}

/// The lines of rows in a form.
#[tactic(auto, using(crate::proofs::RowLemmas::two_rows))]
fn rows_text(form: RowForm, rows: KnownRows) -> ShortLine<ROWS>
    ensures { result ≡ text_in form (rows_in rows) }
{
    let mut text = ShortLine::new();
    append(&mut text, form, rows.first);
    append(&mut text, form, rows.second);
    text
}

/// Adds the line of a row to a text, where there is one.
#[tactic(auto, using(crate::proofs::RowLemmas::some_row))]
fn append(text: &mut ShortLine<ROWS>, form: RowForm, row: Option<LogRow>)
    requires { length text.old + LISTS_LINE ≤ ROWS }
    ensures items { text.new ≡ text.old ++ text_in form (option_to_list row) }
    ensures few { length text.new ≤ length text.old + LISTS_LINE }
{
    match row {
        None => {}
        Some(row) => {
            // There is room for it.
            text.push(line_in(form, row).as_bytes());
        }
    }
}
