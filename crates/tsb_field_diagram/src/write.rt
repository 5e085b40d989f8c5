//! Parts that are added to a text.
ghost use Rattle.std.specs.Prelude.{◌≡◌, ◌++◌, OnOk};
ghost use Rattle.tsb_field_diagram.specs.Text.{attribute_text, clock_text, hour_text, named_text, number_text, two_digits};

use itoa::Buffer;
use std::alloc::AllocError;

/// Adds a part to a text. Where memory runs out, the text is as it was.
pub(crate) fn append(text: &mut Vec<u8>, part: &[u8]) -> Result<(), AllocError>
    ensures { OnOk result (text.new.items ≡ text.old.items ++ part.now) }
{
    text.extend_from_slice(part)
}

/// Adds a number to a text.
pub(crate) fn append_number(text: &mut Vec<u8>, number: u128) -> Result<(), AllocError>
    ensures { OnOk result (text.new.items ≡ text.old.items ++ number_text number) }
{
    let mut buffer = Buffer::new();
    text.extend_from_slice(buffer.format(number).as_bytes())
}

/// Adds a name and a number to a text.
pub(crate) fn append_named(text: &mut Vec<u8>, name: &[u8], number: u128) -> Result<(), AllocError>
    ensures { OnOk result (text.new.items ≡ text.old.items ++ named_text name.now number) }
{
    append(text, name)?;
    append_number(text, number)
}

/// Adds a number in double quotes to a text, where `name` ends with the first of them.
pub(crate) fn append_attribute(
    text: &mut Vec<u8>,
    name: &[u8],
    number: u128,
) -> Result<(), AllocError>
    ensures { OnOk result (text.new.items ≡ text.old.items ++ attribute_text name.now number) }
{
    append(text, name)?;
    append_number(text, number)?;
    append(text, b"\"")
}

/// Adds the last two digits of a number to a text.
pub(crate) fn append_two_digits(text: &mut Vec<u8>, number: u128) -> Result<(), AllocError>
    ensures { OnOk result (text.new.items ≡ text.old.items ++ two_digits number) }
{
    let tens = b'0' + (number / 10 % 10) as u8;
    let ones = b'0' + (number % 10) as u8;
    append(text, &[tens, ones])
}

/// Adds an hour to a text: that of a day, in two digits, where it is a time of day.
fn append_hour(text: &mut Vec<u8>, clock: Option<u32>, hour: u128) -> Result<(), AllocError>
    ensures { OnOk result (text.new.items ≡ text.old.items ++ hour_text clock hour) }
{
    match clock {
        None => append_number(text, hour),
        Some(_) => append_two_digits(text, hour % 24),
    }
}

/// Adds the clock of a second to a text: `hh:mm:ss` of a day where it is a time of day, and else `h:mm:ss`.
pub(crate) fn append_clock(
    text: &mut Vec<u8>,
    clock: Option<u32>,
    second: u128,
) -> Result<(), AllocError>
    ensures { OnOk result (text.new.items ≡ text.old.items ++ clock_text clock second) }
{
    append_hour(text, clock, second / 3600)?;
    append(text, b":")?;
    append_two_digits(text, second / 60 % 60)?;
    append(text, b":")?;
    append_two_digits(text, second % 60)
}
