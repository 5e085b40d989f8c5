//! The ends of greens in an event log.
ghost use Rattle.std.specs.Prelude.{◌≡◌, Ok, Err, option_to_list};
ghost use Rattle.tsb_field_diagram.specs.Ends.{Gives, Stepped, end_at, ends_of, is_told, told_as, told_in, told_of, told_row, why_of};

use std::alloc::Global;
use tsb_event_text::{
    Columns, Moment, RowFault, TimeForm, WideRow, is_passed, row_fault, wide_row,
};
use tsb_lines::{is_skipped, next_line};

/// The most bytes that an event log may have: 64 MiB.
pub const LIMIT: usize = 67_108_864;

/// The last tick that a display line can have.
const LAST_TICK: u128 = 9_999_999;

/// The nanoseconds of a tick: a tenth of a second.
const TICK: u128 = 100_000_000;

/// Why a green ended.
#[derive(Clone, Copy, PartialEq, Eq)]
pub enum Why {
    /// Its gap, event 4.
    Gap,
    /// Its maximum, event 5.
    Maximum,
    /// A force-off, event 6.
    ForceOff,
}

/// The end of a green.
#[derive(Clone, Copy, PartialEq, Eq)]
pub struct GreenEnd {
    /// The tick in which it ended, 1 to 9,999,999: the green is lit last in the tick before.
    pub tick: u32,
    /// The phase.
    pub phase: u32,
    /// Why it ended.
    pub why: Why,
}

/// Why a text is no event log. Lines count from 1, and those that are skipped count too.
#[derive(Clone, Copy, PartialEq, Eq)]
pub enum EndsError {
    /// Memory ran out. A line of the text may have a fault as well.
    Memory,
    /// The text has over `LIMIT` bytes.
    TooLarge,
    /// This line is the first that is no row, and why.
    Malformed(u32, RowFault),
}

/// The ends of greens in an event log from a moment on, in its order: `TooLarge` over `LIMIT` bytes, and else the
/// first line that is no row. `Memory` may come in place of all but `TooLarge`.
///
/// A row has a device, a time, a code and a parameter, as `record` writes them, in the year-first form of times; rows of
/// each device count. Blank lines, lines that begin with `#`, headers, and lines that databases draw are passed over, and
/// rows of other codes than 4, 5 and 6. Tick 1 begins at `from`, and a row before it or past the last tick is no end.
pub fn read_ends(alloc: Global, from: Moment, text: &[u8]) -> Result<Vec<GreenEnd>, EndsError>
    ensures { Gives result (ends_of from text.now) }
{
    if text.len() > LIMIT {
        return Err(EndsError::TooLarge);
    }
    let mut ends = Vec::new(alloc);
    let mut number = 1;
    let mut rest = text;
    loop {
        let (line, behind) = next_line(rest);
        step(&mut ends, from, number, line)?;
        let Some(more) = behind else {
            return Ok(ends);
        };
        rest = more;
        number += 1;
    }
}

/// Adds the end in a line, where it has one.
fn step(ends: &mut Vec<GreenEnd>, from: Moment, number: u32, line: &[u8]) -> Result<(), EndsError>
    ensures { Stepped result from ends.old.items number line.now ends.new.items }
{
    match told_in(from, line) {
        Ok(None) => Ok(()),
        Ok(Some(end)) => {
            if ends.push(end).is_err() {
                return Err(EndsError::Memory);
            }
            Ok(())
        }
        Err(why) => Err(EndsError::Malformed(number, why)),
    }
}

/// The end in a line, where it has one, or why it is no row.
fn told_in(from: Moment, line: &[u8]) -> Result<Option<GreenEnd>, RowFault>
    ensures { result ≡ told_in from line.now }
{
    if !is_told(line) {
        return Ok(None);
    }
    let columns = Columns::usual_of(line);
    let times = Some(TimeForm::YearFirst);
    match told_row(from, wide_row(line, columns, times, None, None)) {
        Some(end) => Ok(end),
        None => Err(row_fault(line, columns, times)),
    }
}

/// The end that a row gives, where it gives one; nothing at all where it is none, or its phase is no number.
fn told_row(from: Moment, row: Option<WideRow>) -> Option<Option<GreenEnd>>
    ensures { result ≡ told_row from row }
{
    match row {
        None => None,
        Some(row) => told_of(from, row),
    }
}

/// Whether a line has to be a row.
fn is_told(line: &[u8]) -> bool
    ensures { result ≡ is_told line.now }
{
    !is_skipped(line) && !is_passed(line)
}

/// The end that a row gives, where it gives one; nothing at all where its phase is no number.
fn told_of(from: Moment, row: WideRow) -> Option<Option<GreenEnd>>
    ensures { result ≡ told_of from row }
{
    match why_of(row.code) {
        None => Some(None),
        Some(why) => told_as(from, row.moment, why, row.parameter),
    }
}

/// The end of the green of a phase, for this cause, where a tick has its moment; nothing at all where the phase is no
/// number.
fn told_as(from: Moment, moment: Moment, why: Why, phase: Option<u32>) -> Option<Option<GreenEnd>>
    ensures { result ≡ told_as from moment why phase }
{
    match phase {
        None => None,
        Some(phase) => Some(end_at(from, moment, why, phase)),
    }
}

/// The end of the green of a phase, for this cause, where a tick has its moment.
fn end_at(from: Moment, moment: Moment, why: Why, phase: u32) -> Option<GreenEnd>
    ensures { result ≡ end_at from moment why phase }
{
    if moment.nanos < from.nanos {
        return None;
    }
    let tick = (moment.nanos - from.nanos) / TICK + 1;
    if tick > LAST_TICK {
        return None;
    }
    Some(GreenEnd {
        tick: tick as u32,
        phase,
        why,
    })
}

/// What a code says of why a green ended.
fn why_of(code: u32) -> Option<Why>
    ensures { result ≡ why_of code }
{
    match code {
        4 => Some(Why::Gap),
        5 => Some(Why::Maximum),
        6 => Some(Why::ForceOff),
        _ => None,
    }
}
