//! Why a line is no row.
ghost use Rattle.std.specs.Prelude.{◌≡◌, option_map};
ghost use Rattle.tsb_event_text.specs.Fields.{fields_of, is_field};
ghost use Rattle.tsb_event_text.specs.Faults.{are_columns, begins, device_of, device_shown, fault_of, form_fault, form_or, has_no_second, has_more, has_some_fields, has_some_more, header_fault, is_dated, is_named, is_named_in, is_open, is_other, is_packed, is_place, is_preface, is_utf16, is_xml, line_fault, parts_fault, row_fault_of, shown_of, three_fault, time_at, time_fault};

use crate::columns::{Column, Columns, Separator, place};
use crate::events::has_byte;
use crate::fields::{device_in, field_in, has_fields, has_third};
use crate::time_forms::{TimeForm, form_of, is_ambiguous, moment_in, split};
use crate::times::Moment;
use crate::wide::{form_by, trimmed, whole};

/// How many bytes of a field a fault shows at most.
pub const SHOWN: usize = 40;

/// The first bytes of a field, as a fault shows them.
#[derive(Clone, Copy, Debug, PartialEq, Eq)]
pub struct ShownField {
    /// Its first bytes, and spaces behind them.
    pub bytes: [u8; SHOWN],
    /// How many of them are bytes of the field.
    pub count: usize,
}

/// Why a line is no row: the first that applies.
#[derive(Clone, Copy, Debug, PartialEq, Eq)]
pub enum RowFault {
    /// It begins with the mark of UTF-16.
    Utf16,
    /// It begins as a file of zip or gzip does.
    Zip,
    /// It begins with `<`, as XML does.
    Xml,
    /// It has a byte 0, which no text has.
    Binary,
    /// It names columns, and this one, which has to be named, is the first that it does not name.
    Lacks(Column),
    /// A quote is out of place: nothing closes it, or it closes a field and anything but a separator follows.
    Quote,
    /// The text has the first separator, and this line has the second.
    Parted(Separator, Separator),
    /// It ends before the field of this column.
    Missing(Column),
    /// Its time has a month and a day, and does not tell which is first.
    Ambiguous(ShownField),
    /// Its time has a clock and no day.
    NoDay(ShownField),
    /// Its time has a clock without seconds.
    NoSeconds(ShownField),
    /// Its time is none in the first form, and one in the second.
    OtherForm(TimeForm, TimeForm, ShownField),
    /// Its time is none in this form, and in no other.
    NoTime(TimeForm, ShownField),
    /// Its code or its parameter is no whole number.
    NoNumber(Column, ShownField),
}

/// Why a line is no row, with its columns in these places; of a line that is one, its last cause. `times` is the form of
/// times, or `None` where the row's own time says it.
#[tactic(auto, unfolding(crate::specs::Faults::fault_of))]
pub fn row_fault(line: &[u8], columns: Columns, times: Option<TimeForm>) -> RowFault
    ensures { result ≡ fault_of columns times line.now }
{
    if is_utf16(line) {
        return RowFault::Utf16;
    }
    if is_packed(line) {
        return RowFault::Zip;
    }
    if is_xml(line) {
        return RowFault::Xml;
    }
    if has_byte(0, line) {
        return RowFault::Binary;
    }
    line_fault(line, columns, times)
}

/// The device of a row, with its columns in these places, as it is shown: nothing, where no column has it.
pub fn device_of(line: &[u8], columns: Columns) -> ShownField
    ensures { result ≡ device_of columns line.now }
{
    device_shown(device_in(columns.separator.mark(), line, columns.device))
}

/// A device as it is shown: nothing, where there is none.
fn device_shown(device: Option<&[u8]>) -> ShownField
    ensures { result ≡ device_shown (option_map (λ device. device.now) device.entry) }
{
    match device {
        Some(device) => front(trimmed(device)),
        None => front(b""),
    }
}

/// Whether a line is one that a maker writes before the header: it names no time and no code, each separator in it leaves
/// one or two fields, and it is of no other kind of file.
#[tactic(auto, unfolding(crate::specs::Faults::is_preface))]
pub fn is_preface(line: &[u8]) -> bool
    ensures { result ≡ is_preface line.now }
{
    !is_other(line)
        && !(is_named(line, Column::Time) || is_named(line, Column::Code))
        && has_some_fields(line)
        && !has_some_more(line)
}

/// Whether a line is of another kind of file.
fn is_other(line: &[u8]) -> bool
    ensures { result ≡ is_other line.now }
{
    is_utf16(line) || is_packed(line) || is_xml(line) || has_byte(0, line)
}

/// Whether a line has fields, in which no quote is out of place, by one of the separators.
fn has_some_fields(line: &[u8]) -> bool
    ensures { result ≡ has_some_fields line.now }
{
    has_fields(b',', line) || has_fields(b';', line) || has_fields(b'\t', line)
}

/// Whether one of the separators stands in a line, and parts it into more than two fields, or leaves a quote out of place.
fn has_some_more(line: &[u8]) -> bool
    ensures { result ≡ has_some_more line.now }
{
    has_more(b',', line) || has_more(b';', line) || has_more(b'\t', line)
}

/// Whether this mark does so.
fn has_more(mark: u8, line: &[u8]) -> bool
    ensures { result ≡ has_more mark line.now }
{
    has_byte(mark, line) && (!has_fields(mark, line) || has_third(mark, line))
}

/// What is wrong with a line of a text of lines.
fn line_fault(line: &[u8], columns: Columns, times: Option<TimeForm>) -> RowFault
    ensures { result ≡ line_fault columns times line.now }
{
    if is_named(line, Column::Time) || is_named(line, Column::Code) {
        return header_fault(line);
    }
    row_fault_of(line, columns, times)
}

/// What is wrong with a row. Where its fields are not there, another separator may part them.
fn row_fault_of(line: &[u8], columns: Columns, times: Option<TimeForm>) -> RowFault
    ensures { result ≡ row_fault_of columns times line.now }
{
    let own = columns.separator;
    if has_columns(own.mark(), line, columns) {
        return parts_fault(own.mark(), line, columns, times);
    }
    if has_columns(b',', line, columns) {
        return RowFault::Parted(own, Separator::Comma);
    }
    if has_columns(b';', line, columns) {
        return RowFault::Parted(own, Separator::Semicolon);
    }
    if has_columns(b'\t', line, columns) {
        return RowFault::Parted(own, Separator::Tab);
    }
    parts_fault(own.mark(), line, columns, times)
}

/// Whether a line has a device, a time, a code and a parameter in these places, where this mark parts its fields.
fn has_columns(mark: u8, line: &[u8], columns: Columns) -> bool
    ensures { result ≡ are_columns columns (fields_of mark line.now) }
{
    is_field(device_in(mark, line, columns.device))
        && is_field(field_in(mark, line, columns.time))
        && is_field(field_in(mark, line, columns.code))
        && is_field(field_in(mark, line, columns.parameter))
}

/// Whether there is a field.
fn is_field(field: Option<&[u8]>) -> bool
    ensures { result ≡ is_field (option_map (λ bytes. bytes.now) field.entry) }
{
    match field {
        Some(_) => true,
        None => false,
    }
}

/// What is wrong with the fields of a line that this mark parts.
fn parts_fault(mark: u8, line: &[u8], columns: Columns, times: Option<TimeForm>) -> RowFault
    ensures { result ≡ parts_fault columns times (fields_of mark line.now) }
{
    if !has_fields(mark, line) {
        return RowFault::Quote;
    }
    let Some(_) = device_in(mark, line, columns.device) else {
        return RowFault::Missing(Column::Device);
    };
    let Some(time) = field_in(mark, line, columns.time) else {
        return RowFault::Missing(Column::Time);
    };
    let Some(code) = field_in(mark, line, columns.code) else {
        return RowFault::Missing(Column::Code);
    };
    let Some(parameter) = field_in(mark, line, columns.parameter) else {
        return RowFault::Missing(Column::Parameter);
    };
    three_fault(times, trimmed(time), trimmed(code), trimmed(parameter))
}

/// What is wrong with a line that names a time or a code, and is no header.
fn header_fault(line: &[u8]) -> RowFault
    ensures { result ≡ header_fault line.now }
{
    if !is_named(line, Column::Time) {
        return RowFault::Lacks(Column::Time);
    }
    if !is_named(line, Column::Code) {
        return RowFault::Lacks(Column::Code);
    }
    RowFault::Lacks(Column::Parameter)
}

/// What is wrong with three fields of a row.
fn three_fault(times: Option<TimeForm>, time: &[u8], code: &[u8], parameter: &[u8]) -> RowFault
    ensures { result ≡ three_fault times time.now code.now parameter.now }
{
    let Some(_) = time_at(times, time) else {
        return time_fault(times, time);
    };
    let Some(_) = whole(code) else {
        return RowFault::NoNumber(Column::Code, front(code));
    };
    RowFault::NoNumber(Column::Parameter, front(parameter))
}

/// The moment of a time.
fn time_at(times: Option<TimeForm>, time: &[u8]) -> Option<Moment>
    ensures { result ≡ time_at times time.now }
{
    let form = form_by(times, time)?;
    moment_in(form, None, time)
}

/// What is wrong with a time.
fn time_fault(times: Option<TimeForm>, time: &[u8]) -> RowFault
    ensures { result ≡ time_fault times time.now }
{
    if is_open(times) && is_ambiguous(time) {
        return RowFault::Ambiguous(front(time));
    }
    if has_byte(b':', time) && !is_dated(time) {
        return RowFault::NoDay(front(time));
    }
    if has_byte(b':', time) && has_no_second(time) {
        return RowFault::NoSeconds(front(time));
    }
    form_fault(form_or(times), form_of(time), time)
}

/// What is wrong with a time that is none in this form, and one in the other, if there is one.
fn form_fault(form: TimeForm, own: Option<TimeForm>, time: &[u8]) -> RowFault
    ensures { result ≡ form_fault form own time.now }
{
    match own {
        Some(own) => RowFault::OtherForm(form, own, front(time)),
        None => RowFault::NoTime(form, front(time)),
    }
}

/// Whether a text has a mark of a day: a hyphen, a slash, or a point before its clock.
fn is_dated(time: &[u8]) -> bool
    ensures { result ≡ is_dated time.now }
{
    let (front, _) = split(b':', time);
    has_byte(b'-', time) || has_byte(b'/', time) || has_byte(b'.', front)
}

/// Whether no form of times is known.
fn is_open(times: Option<TimeForm>) -> bool
    ensures { result ≡ is_open times }
{
    match times {
        Some(_) => false,
        None => true,
    }
}

/// The form that a time should have.
fn form_or(times: Option<TimeForm>) -> TimeForm
    ensures { result ≡ form_or times }
{
    match times {
        Some(form) => form,
        None => TimeForm::YearFirst,
    }
}

/// Whether a clock has no seconds.
fn has_no_second(time: &[u8]) -> bool
    ensures { result ≡ has_no_second time.now }
{
    let (_, rest) = split(b':', time);
    let (_, rest) = split(b':', rest);
    rest.is_empty()
}

/// A field as a fault shows it.
fn front(field: &[u8]) -> ShownField
    ensures { result ≡ shown_of field.now }
{
    let first = &field[..field.len().min(SHOWN)];
    let mut bytes = [b' '; SHOWN];
    bytes[..first.len()].copy_from_slice(first);
    ShownField {
        bytes,
        count: first.len(),
    }
}

/// Whether a field of the line names the column, by one of the separators.
fn is_named(line: &[u8], column: Column) -> bool
    ensures { result ≡ is_named column line.now }
{
    is_named_by(b',', line, column)
        || is_named_by(b';', line, column)
        || is_named_by(b'\t', line, column)
}

/// Whether a field of the line that this mark parts names the column.
fn is_named_by(mark: u8, line: &[u8], column: Column) -> bool
    ensures { result ≡ is_named_in column (fields_of mark line.now) }
{
    if !has_fields(mark, line) {
        return false;
    }
    is_place(place(mark, line, column))
}

/// Whether there is a place.
fn is_place(place: Option<usize>) -> bool
    ensures { result ≡ is_place place }
{
    match place {
        Some(_) => true,
        None => false,
    }
}

/// Whether a line begins with the mark of UTF-16, of either order of bytes.
fn is_utf16(line: &[u8]) -> bool
    ensures { result ≡ is_utf16 line.now }
{
    begins(0xff, 0xfe, line) || begins(0xfe, 0xff, line)
}

/// Whether a line begins a file of zip or gzip.
fn is_packed(line: &[u8]) -> bool
    ensures { result ≡ is_packed line.now }
{
    (begins(b'P', b'K', line) && has_byte(3, line)) || begins(0x1f, 0x8b, line)
}

/// Whether a line begins as XML does.
fn is_xml(line: &[u8]) -> bool
    ensures { result ≡ is_xml line.now }
{
    match line {
        [first, ..] => *first == b'<',
        _ => false,
    }
}

/// Whether a line begins with these two bytes.
fn begins(first: u8, second: u8, line: &[u8]) -> bool
    ensures { result ≡ begins first second line.now }
{
    match line {
        [a, b, ..] => *a == first && *b == second,
        _ => false,
    }
}
