//! Which field of a line is what.
ghost use Rattle.std.specs.Prelude.{◌≡◌, List, ℕ, Some};
ghost use Rattle.tsb_event_text.specs.Fields.{fields_of};
ghost use Rattle.tsb_event_text.specs.Columns.{columns_at, columns_in, header_by, header_of, is_called, is_filler, mark_of, names_column, place_from, separator_of, small, usual_of};

use crate::fields::{has_fields, has_third, next_field};

/// What a field of a row says.
#[derive(Clone, Copy, Debug, PartialEq, Eq)]
pub enum Column {
    /// Which controller wrote the event.
    Device,
    /// When it happened.
    Time,
    /// What happened.
    Code,
    /// The channel, phase or the like that it happened to.
    Parameter,
}

/// What parts the fields of a line.
#[derive(Clone, Copy, Debug, PartialEq, Eq)]
pub enum Separator {
    Comma,
    Semicolon,
    Tab,
}

impl Separator {
    /// Its byte.
    pub fn mark(self) -> u8
        ensures { result ≡ mark_of self }
    {
        match self {
            Separator::Comma => b',',
            Separator::Semicolon => b';',
            Separator::Tab => b'\t',
        }
    }
}

/// Which field each column is in, counted from 0.
#[derive(Clone, Copy, PartialEq, Eq)]
pub struct Columns {
    /// `None` where no column has the device: it is then empty.
    pub device: Option<usize>,
    pub time: usize,
    pub code: usize,
    pub parameter: usize,
    /// What parts the fields.
    pub separator: Separator,
}

impl Columns {
    /// The columns of a text without a header, whose first row is this line: device, time, code and parameter, in this
    /// order. Commas part its fields, where they part three or more of this line, or else semicolons, or else tabs.
    pub fn usual_of(line: &[u8]) -> Columns
        ensures { result ≡ usual_of line.now }
    {
        Columns {
            device: Some(0),
            time: 1,
            code: 2,
            parameter: 3,
            separator: separator_of(line),
        }
    }
}

/// The separator of a first row: commas where no separator parts three fields.
#[tactic(auto, unfolding(crate::specs::Columns::separator_of))]
fn separator_of(line: &[u8]) -> Separator
    ensures { result ≡ separator_of line.now }
{
    if has_third(b',', line) {
        return Separator::Comma;
    }
    if has_third(b';', line) {
        return Separator::Semicolon;
    }
    if has_third(b'\t', line) {
        return Separator::Tab;
    }
    Separator::Comma
}

/// The columns that a line names, or `None` where it is not a header, which names a time, a code and a parameter, and
/// may name a device. Commas part its fields, or else semicolons, or else tabs. Names are those that exports use,
/// whatever their case, and with any spaces, underlines and hyphens in them: `SignalID` or `Signal ID`, `Timestamp`,
/// `EventCode`, `EventParam` and others (`names_column`). Where two fields name one column, the first counts.
#[tactic(auto, unfolding(crate::specs::Columns::header_of))]
pub fn header(line: &[u8]) -> Option<Columns>
    ensures { result ≡ header_of line.now }
{
    if let Some(columns) = header_by(Separator::Comma, line) {
        return Some(columns);
    }
    if let Some(columns) = header_by(Separator::Semicolon, line) {
        return Some(columns);
    }
    header_by(Separator::Tab, line)
}

/// The columns that a line names whose fields this separator parts.
#[tactic(auto, unfolding(crate::specs::Columns::header_by))]
fn header_by(separator: Separator, line: &[u8]) -> Option<Columns>
    ensures { result ≡ header_by separator line.now }
{
    columns_in(separator, separator.mark(), line)
}

/// The columns that a line names whose fields this mark parts. Rows name no time, so that comes first.
fn columns_in(separator: Separator, mark: u8, line: &[u8]) -> Option<Columns>
    ensures { result ≡ columns_in separator (fields_of mark line.now) }
{
    if !has_fields(mark, line) {
        return None;
    }
    let Some(time) = place(mark, line, Column::Time) else {
        return None;
    };
    columns_at(
        separator,
        place(mark, line, Column::Device),
        time,
        place(mark, line, Column::Code),
        place(mark, line, Column::Parameter),
    )
}

/// The columns, where all but the device have a place.
fn columns_at(
    separator: Separator,
    device: Option<usize>,
    time: usize,
    code: Option<usize>,
    parameter: Option<usize>,
) -> Option<Columns>
    ensures { result ≡ columns_at separator device (Some time) code parameter }
{
    let code = code?;
    let parameter = parameter?;
    Some(Columns {
        device,
        time,
        code,
        parameter,
        separator,
    })
}

/// The place of the first field that names the column, in a line that has fields.
pub(crate) fn place(mark: u8, line: &[u8], column: Column) -> Option<usize>
    ensures { (fields : List (List ℕ)) → fields_of mark line.now ≡ Some fields → result ≡ place_from 0 column fields }
{
    let mut rest = line;
    let mut place = 0;
    loop {
        let (field, behind) = next_field(mark, rest)?;
        if names_column(column, field) {
            return Some(place);
        }
        rest = behind?;
        place += 1;
    }
}

/// Whether a field names the column.
fn names_column(column: Column, field: &[u8]) -> bool
    ensures { result ≡ names_column column field.now }
{
    match column {
        Column::Device => {
            is_called(field, b"signalid")
                || is_called(field, b"deviceid")
                || is_called(field, b"locationidentifier")
                || is_called(field, b"locationid")
                || is_called(field, b"intersectionid")
                || is_called(field, b"controllerid")
        }
        Column::Time => {
            is_called(field, b"timestamp")
                || is_called(field, b"datetime")
                || is_called(field, b"eventtime")
                || is_called(field, b"time")
        }
        Column::Code => {
            is_called(field, b"eventcode")
                || is_called(field, b"eventid")
                || is_called(field, b"eventtype")
                || is_called(field, b"eventtypeid")
                || is_called(field, b"code")
        }
        Column::Parameter => {
            is_called(field, b"eventparam")
                || is_called(field, b"parameter")
                || is_called(field, b"eventparameter")
                || is_called(field, b"param")
                || is_called(field, b"eventvalue")
        }
    }
}

/// Whether a field is this name in small letters, whatever its case, and with any fillers.
fn is_called(field: &[u8], name: &[u8]) -> bool
    ensures { result ≡ is_called field.now name.now }
{
    let mut left = name;
    for byte in field {
        if is_filler(*byte) {
            continue;
        }
        let [first, rest @ ..] = left else {
            return false;
        };
        if *first != small(*byte) {
            return false;
        }
        left = rest;
    }
    left.is_empty()
}

/// Whether a byte does not count in a name.
fn is_filler(byte: u8) -> bool
    ensures { result ≡ is_filler byte }
{
    byte == b' ' || byte == b'_' || byte == b'-'
}

/// A letter in its small form.
fn small(byte: u8) -> u8
    ensures { result ≡ small byte }
{
    if byte >= b'A' && byte <= b'Z' {
        byte + 32
    } else {
        byte
    }
}
