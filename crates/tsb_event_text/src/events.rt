//! Events, written.
ghost use Rattle.std.specs.Prelude.{◌≡◌, ◌++◌, ◌∷◌, [], IfOk, OnOk, decimal};
ghost use Rattle.tsb_lines.specs.Lines.{is_comment};
ghost use Rattle.tsb_event_text.specs.Events.{can_be_written, device_field, event_text, has_byte};
ghost use Rattle.tsb_event_text.specs.Written.{bytes_of};

use crate::texts::TimeText;
use itoa::Buffer;
use std::alloc::{AllocError, Global};

/// The most bytes of a device that a line can name: its line then has at most 1,000, as many as readers of logs take.
pub const LONGEST_DEVICE: usize = 900;

/// Whether a line can name a device: it has no double quote and no end of a line, and at most `LONGEST_DEVICE` bytes.
pub fn can_be_written(device: &[u8]) -> bool
    ensures { result ≡ can_be_written device.now }
{
    !has_byte(b'"', device)
        && !has_byte(b'\n', device)
        && !has_byte(b'\r', device)
        && device.len() <= LONGEST_DEVICE
}

/// The line of an event, with its line feed: a device, a time, a code and a parameter. A device with a comma is put in
/// double quotes, and so is one that begins with `#`, since readers of logs skip a line that begins so. The line is
/// read again where `can_be_written` holds of the device.
pub fn event_line(
    alloc: Global,
    device: &[u8],
    time: &TimeText,
    code: u32,
    parameter: u32,
) -> Result<Vec<u8>, AllocError>
    ensures { IfOk result (λ line. line.items ≡ event_text device.now (bytes_of time.now) code parameter) }
{
    let mut line = Vec::new(alloc);
    append_event(&mut line, device, time, code, parameter)?;
    Ok(line)
}

/// Adds the line of an event, as `event_line` gives it, to a text. At an error a part of it may have been added.
pub fn append_event(
    text: &mut Vec<u8>,
    device: &[u8],
    time: &TimeText,
    code: u32,
    parameter: u32,
) -> Result<(), AllocError>
    ensures { OnOk result (text.new.items ≡ text.old.items ++ event_text device.now (bytes_of time.now) code parameter) }
{
    append_device(text, device)?;
    text.push(b',')?;
    time.append_to(text)?;
    append_numbers(text, code, parameter)
}

/// Adds a code and a parameter, each after a comma, and a line feed to a line.
fn append_numbers(line: &mut Vec<u8>, code: u32, parameter: u32) -> Result<(), AllocError>
    ensures { OnOk result (line.new.items ≡ line.old.items ++ 44 ∷ (decimal code ++ 44 ∷ (decimal parameter ++ 10 ∷ []))) }
{
    append_number(line, code)?;
    append_number(line, parameter)?;
    line.push(b'\n')?;
    Ok(())
}

/// Adds a device to a line, in double quotes where it would not be read again without them.
fn append_device(line: &mut Vec<u8>, device: &[u8]) -> Result<(), AllocError>
    ensures { OnOk result (line.new.items ≡ line.old.items ++ device_field device.now) }
{
    if !has_byte(b',', device) && !begins_with_hash(device) {
        return line.extend_from_slice(device);
    }
    line.push(b'"')?;
    line.extend_from_slice(device)?;
    line.push(b'"')?;
    Ok(())
}

/// Adds a comma and a number to a line.
fn append_number(line: &mut Vec<u8>, number: u32) -> Result<(), AllocError>
    ensures { OnOk result (line.new.items ≡ line.old.items ++ 44 ∷ decimal number) }
{
    let mut buffer = Buffer::new();
    line.push(b',')?;
    line.extend_from_slice(buffer.format(number).as_bytes())?;
    Ok(())
}

/// Whether a text begins with `#`.
fn begins_with_hash(text: &[u8]) -> bool
    ensures { result ≡ is_comment text.now }
{
    match text {
        [first, ..] => *first == b'#',
        _ => false,
    }
}

/// Whether a text has this byte.
pub(crate) fn has_byte(byte: u8, text: &[u8]) -> bool
    ensures { result ≡ has_byte byte text.now }
{
    for other in text {
        if *other == byte {
            return true;
        }
    }
    false
}
