//! Rows as exports have them: with spaces around fields, numbers with zeros behind a point, times in several forms.
ghost use Rattle.std.specs.Prelude.{◌≡◌, option_map};
ghost use Rattle.tsb_event_text.specs.Columns.{header_of};
ghost use Rattle.tsb_event_text.specs.Fields.{fields_of};
ghost use Rattle.tsb_event_text.specs.TimeForms.{is_there};
ghost use Rattle.tsb_lines.specs.Words.{number_of};
ghost use Rattle.tsb_event_text.specs.Wide.{are_marks, are_zeros, form_by, is_count, is_mark, is_passed, is_rows, trimmed, whole_of, wide_fields, wide_in, wide_of, wide_with, without_end, without_front};

use crate::columns::{Columns, header};
use crate::events::has_byte;
use crate::fields::{device_in, field_in};
use crate::rows::is_asked;
use crate::time_forms::{TimeForm, form_of, moment_in, split};
use crate::times::Moment;
use crate::zones::Zone;
use tsb_lines::number;

/// What a row of events says, as exports have it.
#[derive(Clone, Copy, PartialEq, Eq)]
pub struct WideRow {
    /// Whether it counts: it is of the device that is asked for, or none is asked for.
    pub ours: bool,
    /// The form of its time.
    pub form: TimeForm,
    /// When it happened.
    pub moment: Moment,
    /// What happened: a number of the Indiana Traffic Signal Hi Resolution Data Logger Enumerations.
    pub code: u32,
    /// The channel, phase or the like that it happened to, where it is a number.
    pub parameter: Option<u32>,
}

/// The row that a line spells, with its columns in these places, or `None` where a quote is out of place, a column is
/// missing, or its time or code is none. Spaces around fields don't count, and a number may have zeros behind a point.
/// `times` is the form of times, or `None` where the row's own time says it. `zone` is that on whose clock times are asked
/// for, or `None` where each counts as its clock shows it. `asked` is as for `event_row`.
#[tactic(auto, unfolding(crate::specs::Wide::wide_of))]
pub fn wide_row(
    line: &[u8],
    columns: Columns,
    times: Option<TimeForm>,
    zone: Option<Zone>,
    asked: Option<&[u8]>,
) -> Option<WideRow>
    ensures { result ≡ wide_of columns times zone (option_map (λ device. device.now) asked.entry) line.now }
{
    let mark = columns.separator.mark();
    wide_in(mark, line, columns, times, zone, asked)
}

/// The fields of a row, or `None` for one that a line lacks.
#[derive(Clone, Copy)]
struct FoundFields<'a> {
    device: Option<&'a [u8]>,
    time: Option<&'a [u8]>,
    code: Option<&'a [u8]>,
    parameter: Option<&'a [u8]>,
}

/// The fields of a row, without spaces around them.
#[derive(Clone, Copy)]
struct Fields<'a> {
    device: &'a [u8],
    time: &'a [u8],
    code: &'a [u8],
    parameter: &'a [u8],
}

/// The row of a line whose fields this mark parts.
fn wide_in(
    mark: u8,
    line: &[u8],
    columns: Columns,
    times: Option<TimeForm>,
    zone: Option<Zone>,
    asked: Option<&[u8]>,
) -> Option<WideRow>
    ensures { result ≡ wide_in columns times zone (option_map (λ device. device.now) asked.entry) (fields_of mark line.now) }
{
    let found = FoundFields {
        device: device_in(mark, line, columns.device),
        time: field_in(mark, line, columns.time),
        code: field_in(mark, line, columns.code),
        parameter: field_in(mark, line, columns.parameter),
    };
    wide_with(asked, times, zone, found)
}

/// The row of these four fields, where they are there.
fn wide_with(
    asked: Option<&[u8]>,
    times: Option<TimeForm>,
    zone: Option<Zone>,
    found: FoundFields<'_>,
) -> Option<WideRow>
    ensures { result
        ≡ wide_with (option_map (λ text. text.now) asked.entry) times zone (option_map (λ text. text.now) found.entry.device) (option_map (λ text. text.now) found.entry.time) (option_map (λ text. text.now) found.entry.code) (option_map (λ text. text.now) found.entry.parameter) }
{
    let Some(device) = found.device else {
        return None;
    };
    let Some(time) = found.time else {
        return None;
    };
    let Some(code) = found.code else {
        return None;
    };
    let Some(parameter) = found.parameter else {
        return None;
    };
    let fields = Fields {
        device: trimmed(device),
        time: trimmed(time),
        code: trimmed(code),
        parameter: trimmed(parameter),
    };
    wide_fields(asked, times, zone, fields)
}

/// The row of four fields without spaces around them.
fn wide_fields(
    asked: Option<&[u8]>,
    times: Option<TimeForm>,
    zone: Option<Zone>,
    fields: Fields<'_>,
) -> Option<WideRow>
    ensures { result ≡ wide_fields (option_map (λ device. device.now) asked.entry) times zone fields.entry.device.now fields.entry.time.now fields.entry.code.now fields.entry.parameter.now }
{
    let form = form_by(times, fields.time)?;
    let moment = moment_in(form, zone, fields.time)?;
    let code = whole(fields.code)?;
    Some(WideRow {
        ours: is_asked(asked, fields.device),
        form,
        moment,
        code,
        parameter: whole(fields.parameter),
    })
}

/// The form of a time: this one, or else that in which the time itself is one.
pub(crate) fn form_by(times: Option<TimeForm>, time: &[u8]) -> Option<TimeForm>
    ensures { result ≡ form_by times time.now }
{
    match times {
        Some(form) => Some(form),
        None => form_of(time),
    }
}

/// The whole number that a field spells, as `82` or `82.0`.
pub(crate) fn whole(field: &[u8]) -> Option<u32>
    ensures { result ≡ whole_of field.now }
{
    let (digits, zeros) = split(b'.', field);
    if !are_zeros(zeros) {
        return None;
    }
    number(digits)
}

/// Whether a text has zeros alone.
fn are_zeros(text: &[u8]) -> bool
    ensures { result ≡ are_zeros text.now }
{
    for byte in text {
        if *byte != b'0' {
            return false;
        }
    }
    true
}

/// A field without the spaces around it.
pub(crate) fn trimmed(field: &[u8]) -> &[u8]
    ensures { result.now ≡ trimmed field.now }
{
    without_end(without_front(field))
}

/// A text without the spaces at its beginning.
fn without_front(text: &[u8]) -> &[u8]
    ensures { result.now ≡ without_front text.now }
{
    let mut left = text;
    while let [first, rest @ ..] = left {
        if *first != b' ' {
            return left;
        }
        left = rest;
    }
    left
}

/// A text without the spaces at its end.
fn without_end(text: &[u8]) -> &[u8]
    ensures { result.now ≡ without_end text.now }
{
    let mut end = text.len();
    while end > 0 && text[end - 1] == b' ' {
        end -= 1;
    }
    &text[..end]
}

/// Whether a line that is no row is passed over: a line that a database draws below a header, one in which it counts its
/// rows, as `(2 rows affected)`, or a header.
#[tactic(auto, unfolding(crate::specs::Wide::is_passed))]
pub fn is_passed(line: &[u8]) -> bool
    ensures { result ≡ is_passed line.now }
{
    (has_byte(b'-', line) && are_marks(line)) || is_count(line) || is_header(line)
}

/// Whether a database counts its rows in a line.
fn is_count(line: &[u8]) -> bool
    ensures { result ≡ is_count line.now }
{
    let [first, rest @ ..] = line else {
        return false;
    };
    let (digits, text) = split(b' ', rest);
    *first == b'(' && is_number(digits) && is_rows(text)
}

/// Whether a text is a number.
fn is_number(text: &[u8]) -> bool
    ensures { result ≡ is_there (number_of text.now) }
{
    match number(text) {
        Some(_) => true,
        None => false,
    }
}

/// Whether a text is what a database says behind the number of its rows.
fn is_rows(text: &[u8]) -> bool
    ensures { result ≡ is_rows text.now }
{
    text == b"rows affected)".as_slice()
        || text == b"row affected)".as_slice()
        || text == b"rows)".as_slice()
        || text == b"row)".as_slice()
}

/// Whether a line names columns.
fn is_header(line: &[u8]) -> bool
    ensures { result ≡ is_there (header_of line.now) }
{
    match header(line) {
        Some(_) => true,
        None => false,
    }
}

/// Whether a text has marks of a drawn line alone.
fn are_marks(text: &[u8]) -> bool
    ensures { result ≡ are_marks text.now }
{
    for byte in text {
        if !is_mark(*byte) {
            return false;
        }
    }
    true
}

/// Whether a byte is a mark of a drawn line.
fn is_mark(byte: u8) -> bool
    ensures { result ≡ is_mark byte }
{
    byte == b'-'
        || byte == b','
        || byte == b';'
        || byte == b'\t'
        || byte == b' '
        || byte == b'+'
        || byte == b'|'
}
