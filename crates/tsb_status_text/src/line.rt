//! Parts that are added to a line: bytes, numbers and sets of numbers.
ghost use Rattle.std.specs.Prelude.{◌+◌, ◌++◌, ◌≤◌, decimal, length};
ghost use Rattle.tsb_types.specs.Sets.{has_detector, has_number};
ghost use Rattle.tsb_types.specs.declared.limits.TheConstants.{VEHICLE_DETECTORS};
ghost use Rattle.tsb_status_text.specs.Json.{comma, numbers, optional, string};
ghost use Rattle.tsb_lines.specs.ShortLines.{AddsShort};
ghost use Rattle.tsb_status_text.specs.declared.line.TheConstants.{LONGEST};

use tsb_lines::ShortLine;
use tsb_types::limits::VEHICLE_DETECTORS;
use tsb_types::{DetectorSet, NumberSet, Phase};

/// The most bytes that the line of a status can have.
pub const LONGEST: usize = 3_293;

/// The bytes of a line.
pub type StatusLine = ShortLine<LONGEST>;

/// Adds a number of at most three digits to a line.
pub(crate) fn push_byte(line: &mut StatusLine, number: u8)
    ensures line { AddsShort LONGEST (length (decimal number)) line.old (decimal number) line.new }
    ensures short { length (decimal number) ≤ 3 }
{
    line.push_number(u32::from(number));
}

/// Adds a number to a line after a name, or null where there is none.
pub(crate) fn push_optional(line: &mut StatusLine, name: &[u8], number: Option<u32>)
    ensures { AddsShort LONGEST (length name.now + 10) line.old (name.now ++ optional number) line.new }
{
    line.push(name);
    match number {
        None => line.push(b"null"),
        Some(n) => line.push_number(n),
    }
}

/// Adds the number of a phase to a line after a name, or null where there is none.
pub(crate) fn push_phase(line: &mut StatusLine, name: &[u8], phase: Option<Phase>)
    ensures { AddsShort LONGEST (length name.now + 4) line.old (name.now ++ optional phase) line.new }
{
    line.push(name);
    match phase {
        None => line.push(b"null"),
        Some(p) => push_byte(line, p.number()),
    }
}

/// Adds a string to a line after a name. None of its bytes needs an escape.
pub(crate) fn push_named(line: &mut StatusLine, name: &[u8], bytes: &[u8])
    ensures { AddsShort LONGEST (length name.now + (length bytes.now + 2)) line.old (name.now ++ string bytes.now) line.new }
{
    line.push(name);
    line.push(b"\"");
    line.push(bytes);
    line.push(b"\"");
}

/// Adds to a line the list of those of the numbers 1 to `most` that a set has.
pub(crate) fn push_numbers(line: &mut StatusLine, set: NumberSet, most: u8)
    requires { most ≤ 16 }
    ensures { AddsShort LONGEST (length (numbers (has_number set) most)) line.old (numbers (has_number set) most) line.new }
{
    line.push(b"[");
    let mut first = true;
    for k in 0..most {
        if set.contains(k + 1) {
            separate(line, first);
            push_byte(line, k + 1);
            first = false;
        }
    }
    line.push(b"]");
}

/// Adds to a line the list of the detectors that a set has.
pub(crate) fn push_detector_numbers(line: &mut StatusLine, set: DetectorSet)
    ensures { AddsShort LONGEST (length (numbers (has_detector set) VEHICLE_DETECTORS)) line.old (numbers (has_detector set) VEHICLE_DETECTORS) line.new }
{
    line.push(b"[");
    let mut first = true;
    for k in 0..VEHICLE_DETECTORS {
        if set.contains(k + 1) {
            separate(line, first);
            push_byte(line, k + 1);
            first = false;
        }
    }
    line.push(b"]");
}

/// Adds the comma that stands before each value of a list but the first.
pub(crate) fn separate(line: &mut StatusLine, first: bool)
    ensures { AddsShort LONGEST 1 line.old (comma first) line.new }
{
    if first {
        line.push(b"");
    } else {
        line.push(b",");
    }
}
