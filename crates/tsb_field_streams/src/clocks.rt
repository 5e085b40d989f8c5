//! Times of day, as faults show them.
ghost use Rattle.std.specs.Prelude.{◌≡◌, ◌≤◌, length};
ghost use Rattle.tsb_field_streams.specs.Clocks.{clock_head, clock_text, fraction_text, nine_digits};
ghost use Rattle.tsb_lines.specs.ShortLines.{AddsShort};
ghost use Rattle.tsb_field_streams.specs.declared.fault_lines.TheConstants.{LONGEST};

use crate::fault_lines::FaultLine;
use tsb_lines::digit;

/// The nanoseconds of a second.
const SECOND: u128 = 1_000_000_000;

/// The seconds of a day.
const SECONDS: u128 = 86_400;

/// The nanoseconds of a day.
pub(crate) const DAY: u128 = 86_400_000_000_000;

/// Adds the time of day of a moment, in nanoseconds as a `Moment` counts them: `07:00:03.2`. Its second has one digit
/// behind its point, three or nine: the fewest of these that tell it all.
pub(crate) fn push_clock(line: &mut FaultLine, moment: u128)
    ensures { AddsShort LONGEST 18 line.old (clock_text moment) line.new }
{
    line.push(&clock_head((moment / SECOND % SECONDS) as u32));
    push_fraction(line, (moment % SECOND) as u32);
}

/// A second of a day as text, up to its point.
fn clock_head(second: u32) -> [u8; 9]
    ensures { result ≡ clock_head second }
{
    let hour = second / 3600;
    let minute = second / 60 % 60;
    let second = second % 60;
    [
        digit(hour, 10),
        digit(hour, 1),
        b':',
        digit(minute, 10),
        digit(minute, 1),
        b':',
        digit(second, 10),
        digit(second, 1),
        b'.',
    ]
}

/// Adds the digits of a part of a second, in nanoseconds.
fn push_fraction(line: &mut FaultLine, nano: u32)
    ensures { AddsShort LONGEST 9 line.old (fraction_text nano) line.new }
{
    let digits = nine_digits(nano);
    if nano % 100_000_000 == 0 {
        push_digits(line, &digits[..1]);
    } else if nano % 1_000_000 == 0 {
        push_digits(line, &digits[..3]);
    } else {
        push_digits(line, &digits);
    }
}

/// Adds a few digits.
fn push_digits(line: &mut FaultLine, digits: &[u8])
    requires { length digits.now ≤ 9 }
    ensures { AddsShort LONGEST 9 line.old digits.now line.new }
{
    line.push(digits);
}

/// A part of a second in nine digits.
fn nine_digits(nano: u32) -> [u8; 9]
    ensures { result ≡ nine_digits nano }
{
    [
        digit(nano, 100_000_000),
        digit(nano, 10_000_000),
        digit(nano, 1_000_000),
        digit(nano, 100_000),
        digit(nano, 10_000),
        digit(nano, 1000),
        digit(nano, 100),
        digit(nano, 10),
        digit(nano, 1),
    ]
}
