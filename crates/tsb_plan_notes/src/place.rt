//! Where a text stops being JSON, by lines and columns.
ghost use Rattle.std.specs.Prelude.{◌≡◌, ◌≤◌, length};
ghost use Rattle.tsb_plan_notes.specs.Places.{column_behind, end_text, json_place, line_behind, place_in, place_text, wanted_text};

use crate::machine::{JsonStop, stop_of};
use crate::next::JsonNext;
use itoa::Buffer;
use tsb_lines::ShortLine;

/// The greatest length of what is told of a place, in bytes.
pub const TOLD: usize = 120;

/// Where a text stops being JSON.
#[derive(Clone, Copy)]
pub struct JsonPlace {
    /// The line, counted from 1.
    pub line: usize,
    /// The column, in bytes from 1 on.
    pub column: usize,
    /// Whether it is the end of the text.
    pub ends: bool,
    /// What has to come there.
    pub next: JsonNext,
}

/// Where a text stops being JSON (RFC 8259, in UTF-8): before the first byte that can't stand where it stands, or at its
/// end where something has to come. `None` where it does not stop. Objects and arrays stand in one another 127 deep at
/// most.
///
/// Halves of pairs of escapes are not looked for, nor numbers past all range.
pub fn json_place(text: &[u8]) -> Option<JsonPlace>
    ensures { result ≡ json_place text.now }
{
    match stop_of(text) {
        Some(stop) => Some(place_in(text, stop)),
        None => None,
    }
}

/// The place behind so many bytes of a text.
fn place_in(text: &[u8], stop: JsonStop) -> JsonPlace
    requires { stop.at ≤ length text.now }
    ensures { result ≡ place_in text.now stop }
{
    let front = &text[..stop.at];
    JsonPlace {
        line: line_behind(front),
        column: column_behind(front),
        ends: stop.at == text.len(),
        next: stop.next,
    }
}

/// The line behind these bytes.
fn line_behind(bytes: &[u8]) -> usize
    ensures { result ≡ line_behind bytes.now }
{
    let mut line = 1;
    for byte in bytes {
        if *byte == b'\n' {
            line += 1;
        }
    }
    line
}

/// The column behind these bytes.
fn column_behind(bytes: &[u8]) -> usize
    ensures { result ≡ column_behind bytes.now }
{
    let mut column = 1;
    for byte in bytes {
        if *byte == b'\n' {
            column = 1;
        } else {
            column += 1;
        }
    }
    column
}

/// What is told of a place: its line and column, and what has to come there.
pub fn place_text(place: JsonPlace) -> ShortLine<TOLD>
    ensures { result ≡ place_text place }
{
    let mut lines = Buffer::new();
    let mut columns = Buffer::new();
    let mut text = ShortLine::new();
    text.push(b"line ");
    text.push(lines.format(place.line).as_bytes());
    text.push(b", column ");
    text.push(columns.format(place.column).as_bytes());
    text.push(end_text(place.ends));
    text.push(wanted_text(place.next));
    text
}

/// What stands between a place and what has to come there.
fn end_text(ends: bool) -> &'static [u8]
    ensures text { result.now ≡ end_text ends }
    ensures short { length result.now ≤ 32 }
{
    if ends {
        b", where the text ends: expected "
    } else {
        b": expected "
    }
}

/// What has to come.
fn wanted_text(next: JsonNext) -> &'static [u8]
    ensures text { result.now ≡ wanted_text next }
    ensures short { length result.now ≤ 32 }
{
    match next {
        JsonNext::Value => b"a value",
        JsonNext::FirstItem => b"a value or `]`",
        JsonNext::FirstName => b"a name in double quotes or `}`",
        JsonNext::Name => b"a name in double quotes",
        JsonNext::Colon => b"`:`",
        JsonNext::ItemEnd => b"`,` or `]`",
        JsonNext::MemberEnd => b"`,` or `}`",
        JsonNext::End => b"nothing more",
        JsonNext::Text(_) => b"a character or a double quote",
        JsonNext::Escape(_) => b"an escape of JSON",
        JsonNext::Hex(_, _) => b"a hexadecimal digit",
        JsonNext::Tail { .. } => b"UTF-8",
        JsonNext::Word(_) => b"`true`, `false` or `null`",
        JsonNext::Exponent => b"a digit or a sign",
        _ => b"a digit",
    }
}
