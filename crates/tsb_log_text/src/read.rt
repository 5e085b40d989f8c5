//! The rows of a text.
ghost use Rattle.std.specs.Prelude.{◌≡◌, ◌≤◌, Err, [], length, vec_capacity, vec_len};
ghost use Rattle.tsb_log_text.specs.Logs.{Gives, HasRow, log_of};
ghost use Rattle.tsb_log_text.specs.Steps.{ReadSo, Stepped};

use crate::error::LogError;
use crate::form::{RowForm, form_of, row_in};
use crate::log::{Log, LogRow};
use std::alloc::Global;
use tsb_lines::{is_skipped, next_line};

/// The most bytes that a log may have: 64 MiB.
pub const LIMIT: usize = 67_108_864;

/// The log of a text, or why it is not one: `TooLarge` over `LIMIT` bytes, and else the first line with a fault. A line
/// feed ends a line, with one carriage return before it; the last line needs none. Lines count from 1. `Memory` comes
/// only where a row is to be kept: in place of the log, or of the fault of a line after a row.
pub fn read_log(alloc: Global, text: &[u8]) -> Result<Log, LogError>
    ensures reads { Gives result (log_of text.now) }
    // Out of memory only at a row: the first lines of the text are right, and have one.
    ensures wanting { result ≡ Err LogError.Memory → HasRow text.now }
{
    if text.len() > LIMIT {
        return Err(LogError::TooLarge);
    }
    let mut rows = Vec::new(alloc);
    match read_rows(&mut rows, text) {
        Ok(()) => Ok(Log::of(rows)),
        Err(fault) => Err(fault),
    }
}

/// Puts the rows of a text of at most `LIMIT` bytes where there is none yet. At an error those of the lines before it
/// are there. It runs out of memory only where there is no room for one row more.
fn read_rows(rows: &mut Vec<LogRow>, text: &[u8]) -> Result<(), LogError>
    requires none { rows.old.items ≡ [] }
    requires size { length text.now ≤ 67108864 }
    ensures reads { ReadSo result text.now rows.new.items }
    ensures wanting { result ≡ Err LogError.Memory → vec_capacity rows.new ≤ vec_len rows.new }
{
    let form = form_of(text);
    let mut last = 0;
    let mut number = 1;
    let mut rest = text;
    loop {
        let (line, behind) = next_line(rest);
        last = step(rows, form, last, number, line)?;
        let Some(more) = behind else {
            return Ok(());
        };
        rest = more;
        number += 1;
    }
}

/// Adds the row of a line in this form, unless the line is skipped. `last` is the tick of the row before it, or 0, and the
/// result is that of the last row now. It runs out of memory only where there is no room for the row.
fn step(
    rows: &mut Vec<LogRow>,
    form: RowForm,
    last: u32,
    number: u32,
    line: &[u8],
) -> Result<u32, LogError>
    ensures reads { Stepped form result rows.old.items last number line.now rows.new.items }
    ensures wanting { result ≡ Err LogError.Memory → vec_capacity rows.new ≤ vec_len rows.new }
{
    if is_skipped(line) {
        return Ok(last);
    }
    let Some(row) = row_in(form, line) else {
        return Err(LogError::Malformed(number));
    };
    if row.tick <= last {
        return Err(LogError::TickOrder(number));
    }
    let Ok(()) = rows.reserve(1) else {
        return Err(LogError::Memory);
    };
    rows.push_reserved(row);
    Ok(row.tick)
}
