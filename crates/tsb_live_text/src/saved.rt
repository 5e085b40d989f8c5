//! The line with the log and the commands of what is kept.
ghost use Rattle.std.specs.Prelude.{◌≡◌, false, true};
ghost use Rattle.json.specs.Print.{escape};
ghost use Rattle.tsb_dialog.specs.Blame.{AfterCalls};
ghost use Rattle.tsb_dialog.specs.Said.{with_feed};
ghost use Rattle.tsb_log_text.specs.Forms.{form_for};
ghost use Rattle.tsb_log_text.specs.ListText.{line_in, text_in};
ghost use Rattle.tsb_live_text.specs.saved.Saved.{commands_from, input_text, saved_text, step_text};
ghost use Rattle.tsb_live_text.specs.saved.Says.{SaysLine, SaysText, are_plain};

mod input_line;
pub mod laws;

use crate::saved::input_line::{input_line, number_line};
use std::io::Write;
use tsb_dialog::{Pending, Watched, WriteError};
use tsb_log_text::{LogRow, RowForm, form_for, line_in};
use tsb_step::Input;
use tsb_text::{Kept, Other};

/// Says one line of JSON, with its line feed: an object with the members `log` and `commands`. `log` is the text of a
/// log with the rows that are kept. `commands` has a line for each input that is no tick, and the ticks before it as
/// `step N`; then come the ticks up to `now`. So `tsb run` takes the inputs that are kept, over the plan of power-up
/// with this log and these commands.
///
/// At an error a first part of the line was said. It takes no memory of its own.
pub fn say_saved<W: Write>(
    kept: &Kept,
    now: u32,
    pending: &mut Pending,
    writer: &mut Watched<W>,
) -> Result<(), WriteError>
    ensures told { SaysLine result (saved_text kept.now.kept now) (W.contents writer.old.device) (W.contents writer.new.device) pending.old pending.new }
    ensures blame { writer.old.failed ≡ false → AfterCalls result writer.new.failed }
{
    pending.add(writer, b"{\"log\":\"")?;
    say_rows(kept.rows(), pending, writer)?;
    pending.add(writer, b"\",\"commands\":\"")?;
    say_commands(kept.others(), now, pending, writer)?;
    pending.add(writer, b"\"}\n")
}

/// Says the text of a log with these rows, as a string of JSON has it.
fn say_rows<W: Write>(
    rows: &[LogRow],
    pending: &mut Pending,
    writer: &mut Watched<W>,
) -> Result<(), WriteError>
    ensures told { SaysText result (escape (text_in (form_for rows.now) rows.now)) (W.contents writer.old.device) (W.contents writer.new.device) pending.old pending.new }
    ensures blame { writer.old.failed ≡ false → AfterCalls result writer.new.failed }
{
    let form = form_for(rows);
    for row in rows {
        say_row(form, *row, pending, writer)?;
    }
    Ok(())
}

/// Says the line of a row in this form, as a string of JSON has it.
fn say_row<W: Write>(
    form: RowForm,
    row: LogRow,
    pending: &mut Pending,
    writer: &mut Watched<W>,
) -> Result<(), WriteError>
    ensures told { SaysText result (escape (with_feed (line_in form row))) (W.contents writer.old.device) (W.contents writer.new.device) pending.old pending.new }
    ensures blame { writer.old.failed ≡ false → AfterCalls result writer.new.failed }
{
    let line = line_in(form, row);
    let bytes = line.as_bytes();
    let (line, _) = bytes.split_at(bytes.len().saturating_sub(1));
    say_line(line, pending, writer)
}

/// Says the lines of these inputs and of the ticks between them, as a string of JSON has them.
fn say_commands<W: Write>(
    others: &[Other],
    now: u32,
    pending: &mut Pending,
    writer: &mut Watched<W>,
) -> Result<(), WriteError>
    ensures told { SaysText result (escape (commands_from now others.now 0)) (W.contents writer.old.device) (W.contents writer.new.device) pending.old pending.new }
    ensures blame { writer.old.failed ≡ false → AfterCalls result writer.new.failed }
{
    let mut tick: u32 = 0;
    for other in others {
        say_step(other.tick.saturating_sub(tick), pending, writer)?;
        say_input(&other.input, pending, writer)?;
        tick = other.tick;
    }
    say_step(now.saturating_sub(tick), pending, writer)
}

/// Says the line of so many ticks, where there are any.
fn say_step<W: Write>(
    ticks: u32,
    pending: &mut Pending,
    writer: &mut Watched<W>,
) -> Result<(), WriteError>
    ensures told { SaysText result (escape (step_text ticks)) (W.contents writer.old.device) (W.contents writer.new.device) pending.old pending.new }
    ensures blame { writer.old.failed ≡ false → AfterCalls result writer.new.failed }
{
    if ticks == 0 {
        return Ok(());
    }
    say_line(&number_line(b"step ", ticks), pending, writer)
}

/// Says the line of an input that is no tick.
fn say_input<W: Write>(
    input: &Input,
    pending: &mut Pending,
    writer: &mut Watched<W>,
) -> Result<(), WriteError>
    ensures told { SaysText result (escape (input_text input.now)) (W.contents writer.old.device) (W.contents writer.new.device) pending.old pending.new }
    ensures blame { writer.old.failed ≡ false → AfterCalls result writer.new.failed }
{
    match input {
        Input::Tick(_) => Ok(()),
        _ => say_line(&input_line(input), pending, writer),
    }
}

/// Says a line of plain bytes as a string of JSON has it: with `\n` for its line feed.
fn say_line<W: Write>(
    line: &[u8],
    pending: &mut Pending,
    writer: &mut Watched<W>,
) -> Result<(), WriteError>
    ensures told { are_plain line.now ≡ true
        → SaysText result (escape (with_feed line.now)) (W.contents writer.old.device) (W.contents writer.new.device) pending.old pending.new }
    ensures blame { writer.old.failed ≡ false → AfterCalls result writer.new.failed }
{
    pending.add(writer, line)?;
    pending.add(writer, b"\\n")
}
