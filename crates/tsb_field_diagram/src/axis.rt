//! The axis of a line of a diagram.
ghost use Rattle.std.specs.Prelude.{◌≡◌, ◌≤◌, ◌<◌, ◌++◌, ◌*◌, ◌^◌, OnOk};
ghost use Rattle.tsb_field_diagram.specs.Lines.{axis_text, begin_of, grid_text, mark_name, mark_text, marks_before, marks_between, place_of, second_text, step_of};

use crate::band::BAND;
use crate::write::{append, append_attribute, append_clock, append_number};
use std::alloc::AllocError;

/// How far from the left the bars begin.
pub(crate) const LEFT: u128 = 140;

/// How wide the bars of a line are.
pub(crate) const WIDTH: u128 = 1000;

/// Adds the axis of a line of this many seconds to a text. `clock` is the time of day at which tick 1 begins, in tenths
/// of a second, or `None` where time counts from tick 1.
pub(crate) fn append_axis(
    text: &mut Vec<u8>,
    bands: usize,
    clock: Option<u32>,
    seconds: u32,
    line: u32,
) -> Result<(), AllocError>
    requires some { 1 ≤ seconds }
    requires most { seconds ≤ 86400 }
    ensures { OnOk result (text.new.items ≡ text.old.items ++ axis_text bands clock seconds line) }
{
    let begin = begin_of(clock, seconds, line);
    let end = begin + 10 * u64::from(seconds);
    append_marks(text, bands, clock, seconds, begin, end)
}

/// The tenth of a second, of those that the axis counts, at which a line begins.
pub(crate) fn begin_of(clock: Option<u32>, seconds: u32, line: u32) -> u64
    requires { seconds ≤ 86400 }
    ensures same { result ≡ begin_of clock seconds line }
    ensures fits { result < 2 ^ 62 }
{
    let start = u64::from(clock.unwrap_or(0));
    start + u64::from(line) * (10 * u64::from(seconds))
}

/// Adds to a text the marks from one tenth of a second to before another, in a line of this many seconds.
fn append_marks(
    text: &mut Vec<u8>,
    bands: usize,
    clock: Option<u32>,
    seconds: u32,
    begin: u64,
    end: u64,
) -> Result<(), AllocError>
    requires some { 1 ≤ seconds }
    requires begin { begin < 2 ^ 63 }
    requires end { end < 2 ^ 63 }
    ensures { OnOk result (text.new.items ≡ text.old.items ++ marks_between bands clock seconds begin end (step_of seconds)) }
{
    let step = step_of(seconds);
    let from = marks_before(begin, step);
    let until = marks_before(end, step);
    for index in from..until {
        append_mark(text, bands, clock, seconds, begin, second_of(index, step))?;
    }
    Ok(())
}

/// How many marks there are before a tenth of a second.
fn marks_before(tenth: u64, step: u32) -> u64
    requires step { 1 ≤ step }
    requires tenth { tenth < 2 ^ 63 }
    ensures { result ≡ marks_before tenth step }
{
    let span = 10 * u64::from(step);
    (tenth + (span - 1)) / span
}

/// The second of a mark.
fn second_of(index: u64, step: u32) -> u128
    ensures same { result ≡ index * step }
    ensures fits { result < 2 ^ 96 }
{
    u128::from(index) * u128::from(step)
}

/// Adds the mark of a second to a text.
fn append_mark(
    text: &mut Vec<u8>,
    bands: usize,
    clock: Option<u32>,
    seconds: u32,
    begin: u64,
    second: u128,
) -> Result<(), AllocError>
    requires some { 1 ≤ seconds }
    requires fits { second < 2 ^ 96 }
    ensures { OnOk result (text.new.items ≡ text.old.items ++ mark_text bands clock seconds begin second) }
{
    let x = place_of(seconds, begin, second);
    append_grid(text, bands, x)?;
    append_second(text, bands, clock, x, second)
}

/// How far from the left a second is, in a line of this many seconds that begins at a tenth of a second.
pub(crate) fn place_of(seconds: u32, begin: u64, second: u128) -> u128
    requires some { 1 ≤ seconds }
    requires fits { second < 2 ^ 96 }
    ensures { result ≡ place_of seconds begin second }
{
    LEFT + (10 * second).saturating_sub(u128::from(begin)) * WIDTH / (10 * u128::from(seconds))
}

/// Adds the line of a mark to a text.
pub(crate) fn append_grid(text: &mut Vec<u8>, bands: usize, x: u128) -> Result<(), AllocError>
    ensures { OnOk result (text.new.items ≡ text.old.items ++ grid_text bands x) }
{
    append_attribute(text, b"<line class=\"a\" x1=\"", x)?;
    append_attribute(text, b" x2=\"", x)?;
    append_attribute(text, b" y2=\"", BAND * bands as u128 + 4)?;
    append(text, b"/>")
}

/// Adds what is written below a mark to a text.
fn append_second(
    text: &mut Vec<u8>,
    bands: usize,
    clock: Option<u32>,
    x: u128,
    second: u128,
) -> Result<(), AllocError>
    ensures { OnOk result (text.new.items ≡ text.old.items ++ second_text bands clock x second) }
{
    append_attribute(text, b"<text class=\"k\" x=\"", x)?;
    append_attribute(text, b" y=\"", BAND * bands as u128 + 16)?;
    append(text, b">")?;
    append_mark_name(text, clock, second)?;
    append(text, b"</text>\n")
}

/// Adds the clock of a minute to a text, or else the second of its minute.
fn append_mark_name(text: &mut Vec<u8>, clock: Option<u32>, second: u128) -> Result<(), AllocError>
    ensures { OnOk result (text.new.items ≡ text.old.items ++ mark_name clock second) }
{
    if second % 60 == 0 {
        append_clock(text, clock, second)
    } else {
        append_number(text, second % 60)
    }
}

/// How many seconds there are from one mark of the axis to the next: a line has at most 20 of them.
fn step_of(seconds: u32) -> u32
    ensures same { result ≡ step_of seconds }
    ensures some { 1 ≤ result }
{
    if seconds <= 20 {
        1
    } else if seconds <= 100 {
        5
    } else if seconds <= 200 {
        10
    } else if seconds <= 600 {
        30
    } else if seconds <= 1200 {
        60
    } else if seconds <= 6000 {
        300
    } else if seconds <= 12_000 {
        600
    } else if seconds <= 36_000 {
        1800
    } else {
        7200
    }
}
