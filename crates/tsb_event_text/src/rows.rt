//! Rows of events.
ghost use Rattle.std.specs.Prelude.{◌≡◌, option_map};
ghost use Rattle.tsb_event_text.specs.Fields.{fields_of};
ghost use Rattle.tsb_event_text.specs.Rows.{is_asked, row_in, row_of, row_said, row_with};

use crate::columns::Columns;
use crate::fields::{device_at, field_at, has_fields};
use crate::times::{Moment, read_moment};
use tsb_lines::number;

/// What a row of events says.
#[derive(Clone, Copy, PartialEq, Eq)]
pub struct EventRow {
    /// Whether it counts: it is of the device that is asked for, or none is asked for.
    pub ours: bool,
    /// When it happened.
    pub moment: Moment,
    /// What happened: a number of the Indiana Traffic Signal Hi Resolution Data Logger Enumerations.
    pub code: u32,
    /// The channel, phase or the like that it happened to.
    pub parameter: u32,
}

/// The row that a line spells, with its columns in these places, or `None` where it spells none: a quote is out of
/// place, a column is missing, or its time, code or parameter is not one. Codes and parameters are numbers of up to 10
/// digits, of at most 4,294,967,295. `asked` is the device whose events count, byte for byte; where it is `None`, those
/// of every device do.
#[tactic(auto, unfolding(crate::specs::Rows::row_of))]
pub fn event_row(line: &[u8], columns: Columns, asked: Option<&[u8]>) -> Option<EventRow>
    ensures { result ≡ row_of columns (option_map (λ device. device.now) asked.entry) line.now }
{
    row_in(columns.separator.mark(), line, columns, asked)
}

/// The row of a line whose fields this mark parts.
fn row_in(mark: u8, line: &[u8], columns: Columns, asked: Option<&[u8]>) -> Option<EventRow>
    ensures { result ≡ row_in columns (option_map (λ device. device.now) asked.entry) (fields_of mark line.now) }
{
    if !has_fields(mark, line) {
        return None;
    }
    row_with(
        asked,
        device_at(mark, line, columns.device),
        field_at(mark, line, columns.time),
        field_at(mark, line, columns.code),
        field_at(mark, line, columns.parameter),
    )
}

/// The row of these four fields, where they are there.
fn row_with(
    asked: Option<&[u8]>,
    device: Option<&[u8]>,
    time: Option<&[u8]>,
    code: Option<&[u8]>,
    parameter: Option<&[u8]>,
) -> Option<EventRow>
    ensures { result
        ≡ row_with (option_map (λ text. text.now) asked.entry) (option_map (λ text. text.now) device.entry) (option_map (λ text. text.now) time.entry) (option_map (λ text. text.now) code.entry) (option_map (λ text. text.now) parameter.entry) }
{
    let device = device?;
    let time = time?;
    let code = code?;
    let parameter = parameter?;
    row_said(
        is_asked(asked, device),
        read_moment(time),
        number(code),
        number(parameter),
    )
}

/// The row, where its time, its code and its parameter are spelled.
fn row_said(
    ours: bool,
    moment: Option<Moment>,
    code: Option<u32>,
    parameter: Option<u32>,
) -> Option<EventRow>
    ensures { result ≡ row_said ours moment code parameter }
{
    let moment = moment?;
    let code = code?;
    let parameter = parameter?;
    Some(EventRow {
        ours,
        moment,
        code,
        parameter,
    })
}

/// Whether events of a device count.
pub(crate) fn is_asked(asked: Option<&[u8]>, device: &[u8]) -> bool
    ensures { result ≡ is_asked (option_map (λ asked. asked.now) asked.entry) device.now }
{
    match asked {
        None => true,
        Some(asked) => device == asked,
    }
}
