//! The line that tells what ended a filter, part by part. It takes no memory.
ghost use Rattle.std.specs.Prelude.{◌≡◌, ◌≤◌, ◌++◌, Some, codes, decimal, length};
ghost use Rattle.tsb_event_text.specs.TimeForms.{time_form_word};
ghost use Rattle.tsb_field_streams.specs.FaultLines.{column_name, cure_text, day_between, disorder_text, example, field_text, filter_fault, lacks_text, late_text, line_number, names_taken, no_time_text, other_form_text, parted_text, row_fault_text, safe, separator_name, shown_text, sort_text, why_text};
ghost use Rattle.tsb_lines.specs.ShortLines.{AddsShort};
ghost use Rattle.tsb_field_streams.specs.declared.fault_lines.TheConstants.{LONGEST};

use crate::clocks::{DAY, push_clock};
use crate::error::{Disorder, FilterError};
use arrayvec::ArrayVec;
use itoa::Buffer;
use std::{fmt, str};
use tsb_event_text::{Column, RowFault, SHOWN, Separator, ShownField, TimeForm, time_form_word};
use tsb_lines::ShortLine;

/// How many bytes there is room for in the line of a fault: more than any has, and its end.
pub const LONGEST: usize = 256;

/// The line of a fault, or its first parts.
pub type FaultLine = ShortLine<LONGEST>;

impl FilterError {
    /// The line that tells it, without its end. It takes no memory, and leaves room for the end.
    pub fn line(&self) -> FaultLine
        ensures line { result ≡ filter_fault self.now }
        ensures room { length result ≤ 250 }
    {
        let mut line = FaultLine::new();
        push_fault(&mut line, *self);
        line
    }
}

/// A fault as it is printed: as its line.
#[derive(Clone, Copy)]
pub(crate) struct Printed<'a>(pub(crate) &'a FilterError);

impl fmt::Display for Printed<'_> {
    ghost output = { λ printed. Some (filter_fault printed.0.now) };

    fn fmt<W: fmt::Write>(&self, f: &mut fmt::Formatter<W>) -> fmt::Result {
        let line = self.0.line();
        match str::from_utf8(line.as_bytes()) {
            Ok(text) => f.write_str(text),
            // Lines are ASCII.
            Err(_) => Err(fmt::Error),
        }
    }
}

/// Adds what ended a filter.
fn push_fault(line: &mut FaultLine, fault: FilterError)
    ensures { AddsShort LONGEST 250 line.old (filter_fault fault) line.new }
{
    match fault {
        FilterError::Memory => push_words(line, b"memory"),
        FilterError::Read => push_words(line, b"read fault"),
        FilterError::Write => push_words(line, b"write fault"),
        FilterError::TooLarge => push_words(line, b"events: too large"),
        FilterError::LongLine(number) => push_of_line(
            line,
            number,
            b": over 1000 bytes (is it a text with lines?)",
        ),
        FilterError::Malformed(number, why) => push_row_fault(line, number, why),
        FilterError::TimeOrder(disorder) => push_disorder(line, disorder),
        FilterError::TooManyRows(number) => push_of_line(
            line,
            number,
            b": over 1000000 rows to sort: give a smaller --sort-within, or a --device",
        ),
        FilterError::PastEnd => push_words(line, b"events: past tick 6000000"),
        FilterError::LogTooLarge => push_words(line, b"log: too large"),
    }
}

/// Adds words.
fn push_words(line: &mut FaultLine, words: &[u8])
    requires { length words.now ≤ 85 }
    ensures few { AddsShort LONGEST 85 line.old words.now line.new }
    ensures some { AddsShort LONGEST 180 line.old words.now line.new }
    ensures many { AddsShort LONGEST 250 line.old words.now line.new }
{
    line.push(words);
}

/// Adds which line of the events it is, and words.
fn push_of_line(line: &mut FaultLine, number: u32, words: &[u8])
    requires { length words.now ≤ 85 }
    ensures { AddsShort LONGEST 250 line.old (line_number number ++ words.now) line.new }
{
    push_number(line, number);
    line.push(words);
}

/// Adds which line of the events it is, counted from 1.
fn push_number(line: &mut FaultLine, number: u32)
    ensures { AddsShort LONGEST 22 line.old (line_number number) line.new }
{
    line.push(b"events line ");
    line.push_number(number);
}

/// Adds that a row is earlier than one before it, with both times, and what to do.
fn push_disorder(line: &mut FaultLine, disorder: Disorder)
    ensures { AddsShort LONGEST 250 line.old (disorder_text disorder) line.new }
{
    push_number(line, disorder.line);
    line.push(b": time order: ");
    push_clock(line, disorder.moment);
    line.push(b" after ");
    push_clock(line, disorder.last);
    line.push(day_between(disorder));
    push_cure(line, disorder);
}

/// What is said of a later day, where the time before it is of one.
fn day_between(disorder: Disorder) -> &'static [u8]
    ensures text { result.now ≡ day_between disorder }
    ensures short { length result.now ≤ 15 }
{
    if disorder.moment / DAY < disorder.last / DAY {
        b" of a later day"
    } else {
        b""
    }
}

/// Adds what to do where a row is out of order: which column to sort by, and where rows are sorted, what else.
fn push_cure(line: &mut FaultLine, disorder: Disorder)
    ensures { AddsShort LONGEST 130 line.old (cure_text disorder) line.new }
{
    push_sort(line, disorder.within);
    push_column(line, disorder.column as u128 + 1);
}

/// Adds what is said before the column to sort by, where rows have to be in order, or may be late by so many seconds.
fn push_sort(line: &mut FaultLine, within: Option<u32>)
    ensures { AddsShort LONGEST 85 line.old (sort_text within) line.new }
{
    match within {
        None => push_words(line, b": sort by column "),
        Some(seconds) => push_late(line, seconds),
    }
}

/// Adds what is said where rows may be late by so many seconds.
fn push_late(line: &mut FaultLine, seconds: u32)
    ensures { AddsShort LONGEST 85 line.old (late_text seconds) line.new }
{
    line.push(b": over ");
    line.push_number(seconds);
    line.push(b" s late: give a larger --sort-within, or sort by column ");
}

/// Adds the number of a column.
fn push_column(line: &mut FaultLine, column: u128)
    ensures { AddsShort LONGEST 40 line.old (decimal column) line.new }
{
    let mut buffer = Buffer::new();
    line.push(buffer.format(column).as_bytes());
}

/// Adds why a line is no row. What is no text of lines at all is told without a line.
fn push_row_fault(line: &mut FaultLine, number: u32, why: RowFault)
    ensures { AddsShort LONGEST 250 line.old (row_fault_text number why) line.new }
{
    match why {
        RowFault::Utf16 => push_words(line, b"events: UTF-16: convert by iconv -f utf-16 -t utf-8"),
        RowFault::Zip => push_words(line, b"events: packed: unpack by unzip or gunzip"),
        RowFault::Xml => push_words(line, b"events: XML: export as CSV"),
        RowFault::Binary => push_words(
            line,
            b"events: binary: convert by the controller's own program",
        ),
        _ => push_no_row(line, number, why),
    }
}

/// Adds which line is no row, and why.
fn push_no_row(line: &mut FaultLine, number: u32, why: RowFault)
    ensures { AddsShort LONGEST 250 line.old (line_number number ++ (codes ": " ++ why_text why)) line.new }
{
    push_number(line, number);
    line.push(b": ");
    push_why(line, why);
}

/// Adds what is wrong with a line of a text.
fn push_why(line: &mut FaultLine, why: RowFault)
    ensures { AddsShort LONGEST 180 line.old (why_text why) line.new }
{
    match why {
        RowFault::Lacks(column) => push_lacks(line, column),
        RowFault::Missing(column) => push_missing(line, column),
        RowFault::NoDay(time) => push_of_field(
            line,
            Column::Time,
            time,
            b" has no day (was it opened in a spreadsheet?)",
        ),
        RowFault::NoSeconds(time) => push_of_field(
            line,
            Column::Time,
            time,
            b" has no seconds (was it opened in a spreadsheet?)",
        ),
        RowFault::Ambiguous(time) => push_of_field(
            line,
            Column::Time,
            time,
            b" can be read in two ways: give --time-form month-first or --time-form day-first",
        ),
        RowFault::OtherForm(form, own, time) => push_other_form(line, form, own, time),
        RowFault::NoTime(form, time) => push_no_time(line, form, time),
        RowFault::NoNumber(column, field) => push_of_field(
            line,
            column,
            field,
            b" is no whole number up to 4294967295",
        ),
        RowFault::Quote => push_words(line, b"a quote is out of place"),
        RowFault::Parted(all, own) => push_parted(line, all, own),
        RowFault::Utf16 => push_words(line, b"UTF-16"),
        RowFault::Zip => push_words(line, b"packed"),
        RowFault::Xml => push_words(line, b"XML"),
        RowFault::Binary => push_words(line, b"binary"),
    }
}

/// Adds that no column of a header is this one, and which names it may have.
fn push_lacks(line: &mut FaultLine, column: Column)
    ensures { AddsShort LONGEST 180 line.old (lacks_text column) line.new }
{
    line.push(b"header: no column is the ");
    line.push(column_name(column));
    line.push(b": name it ");
    line.push(names_taken(column));
}

/// Adds that a line ends before this column.
fn push_missing(line: &mut FaultLine, column: Column)
    ensures { AddsShort LONGEST 180 line.old (column_name column ++ codes ": the line ends before it") line.new }
{
    line.push(column_name(column));
    line.push(b": the line ends before it");
}

/// Adds what a field has, and words.
fn push_of_field(line: &mut FaultLine, column: Column, field: ShownField, words: &[u8])
    requires { length words.now ≤ 85 }
    ensures { AddsShort LONGEST 180 line.old (field_text column field ++ words.now) line.new }
{
    push_field(line, column, field);
    line.push(words);
}

/// Adds that a time has another form.
fn push_other_form(line: &mut FaultLine, form: TimeForm, own: TimeForm, time: ShownField)
    ensures { AddsShort LONGEST 180 line.old (other_form_text form own time) line.new }
{
    push_field(line, Column::Time, time);
    line.push(b" is ");
    push_form(line, own);
    line.push(b", not ");
    push_form(line, form);
    line.push(b": one form a file, by the first row or --time-form");
}

/// Adds the word of a form.
fn push_form(line: &mut FaultLine, form: TimeForm)
    ensures { AddsShort LONGEST 12 line.old (time_form_word form) line.new }
{
    line.push(time_form_word(form).as_bytes());
}

/// Adds that a time is none in its form.
fn push_no_time(line: &mut FaultLine, form: TimeForm, time: ShownField)
    ensures { AddsShort LONGEST 180 line.old (no_time_text form time) line.new }
{
    push_field(line, Column::Time, time);
    line.push(b" is no time as ");
    line.push(example(form));
}

/// Adds that a line has another separator than all.
fn push_parted(line: &mut FaultLine, all: Separator, own: Separator)
    ensures { AddsShort LONGEST 180 line.old (parted_text all own) line.new }
{
    line.push(separator_name(own));
    line.push(b" part its fields, and ");
    line.push(separator_name(all));
    line.push(b" those above: one separator a file");
}

/// The name of a separator.
fn separator_name(separator: Separator) -> &'static [u8]
    ensures text { result.now ≡ separator_name separator }
    ensures short { length result.now ≤ 10 }
{
    match separator {
        Separator::Comma => b"commas",
        Separator::Semicolon => b"semicolons",
        Separator::Tab => b"tabs",
    }
}

/// Adds the name of a column, and what its field has.
fn push_field(line: &mut FaultLine, column: Column, field: ShownField)
    ensures { AddsShort LONGEST 53 line.old (field_text column field) line.new }
{
    line.push(column_name(column));
    line.push(b": \"");
    line.push(&shown(field));
    line.push(b"\"");
}

/// What a field has, as it can be shown.
pub(crate) fn shown(field: ShownField) -> ArrayVec<u8, SHOWN>
    ensures text { result.items ≡ shown_text field }
    ensures short { length result.items ≤ 40 }
{
    let front = &field.bytes[..field.count.min(SHOWN)];
    let mut text = ArrayVec::new();
    for byte in front {
        text.push(safe(*byte));
    }
    text
}

/// A byte as it can be shown: a question mark for a double quote and for all that is no printed character of ASCII.
fn safe(byte: u8) -> u8
    ensures { result ≡ safe byte }
{
    if byte < b' ' || byte > b'~' || byte == b'"' {
        b'?'
    } else {
        byte
    }
}

/// A time in a form.
fn example(form: TimeForm) -> &'static [u8]
    ensures text { result.now ≡ example form }
    ensures short { length result.now ≤ 21 }
{
    match form {
        TimeForm::YearFirst => b"2026-11-22 07:00:00.1",
        TimeForm::MonthFirst => b"11/22/2026 07:00:00.1",
        TimeForm::DayFirst => b"22/11/2026 07:00:00.1",
        TimeForm::Seconds => b"1795330800.1",
        TimeForm::Milliseconds => b"1795330800100",
    }
}

/// The names of one word that a header may give a column.
fn names_taken(column: Column) -> &'static [u8]
    ensures text { result.now ≡ names_taken column }
    ensures short { length result.now ≤ 60 }
{
    match column {
        Column::Device => b"SignalID, DeviceId, LocationIdentifier or LocationId",
        Column::Time => b"Timestamp, DateTime or Time",
        Column::Code => b"EventCode, EventId, EventType or Code",
        Column::Parameter => b"EventParam, Parameter, Param or EventValue",
    }
}

/// The name of a column.
fn column_name(column: Column) -> &'static [u8]
    ensures text { result.now ≡ column_name column }
    ensures short { length result.now ≤ 9 }
{
    match column {
        Column::Device => b"device",
        Column::Time => b"time",
        Column::Code => b"code",
        Column::Parameter => b"parameter",
    }
}
