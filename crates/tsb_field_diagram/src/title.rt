//! Titles.
ghost use Rattle.std.specs.Prelude.{◌≡◌, ◌++◌, OnOk};
ghost use Rattle.tsb_field_diagram.specs.Text.{escaped, escaped_byte, is_forbidden, is_no_character, plain_byte};

use crate::write::append;
use std::alloc::AllocError;

/// Adds a title to a text: what has a meaning in XML is escaped, and a character that XML forbids becomes `?`.
pub(crate) fn append_title(text: &mut Vec<u8>, title: &[u8]) -> Result<(), AllocError>
    ensures { OnOk result (text.new.items ≡ text.old.items ++ escaped title.now) }
{
    let mut at = 0;
    while at < title.len() {
        if title.len() - at > 2 && is_no_character(title[at], title[at + 1], title[at + 2]) {
            append(text, b"?")?;
            at += 3;
        } else {
            append_byte(text, title[at])?;
            at += 1;
        }
    }
    Ok(())
}

/// Whether three bytes are U+FFFE or U+FFFF, which XML forbids.
fn is_no_character(first: u8, second: u8, third: u8) -> bool
    ensures { result ≡ is_no_character first second third }
{
    first == 0xEF && second == 0xBF && (third == 0xBE || third == 0xBF)
}

/// Adds a byte of a title to a text.
fn append_byte(text: &mut Vec<u8>, byte: u8) -> Result<(), AllocError>
    ensures { OnOk result (text.new.items ≡ text.old.items ++ escaped_byte byte) }
{
    match byte {
        b'&' => append(text, b"&amp;"),
        b'<' => append(text, b"&lt;"),
        b'>' => append(text, b"&gt;"),
        b'"' => append(text, b"&quot;"),
        b'\'' => append(text, b"&#39;"),
        _ => append_plain(text, byte),
    }
}

/// Adds a byte that has no meaning in XML to a text.
fn append_plain(text: &mut Vec<u8>, byte: u8) -> Result<(), AllocError>
    ensures { OnOk result (text.new.items ≡ text.old.items ++ plain_byte byte) }
{
    if is_forbidden(byte) {
        append(text, b"?")
    } else {
        append(text, &[byte])
    }
}

/// Whether a byte is a control that XML forbids.
fn is_forbidden(byte: u8) -> bool
    ensures { result ≡ is_forbidden byte }
{
    byte < 32 && byte != b'\t' && byte != b'\n' && byte != b'\r'
}
