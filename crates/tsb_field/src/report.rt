//! What `log` tells of what it read.
ghost use Rattle.std.specs.Prelude.{◌≡◌, ◌==◌, ◌++◌, IfOk, OnOk, string_bytes};
ghost use Rattle.tsb_program.specs.Statuses.{number};
ghost use Rattle.tsb_field.specs.LogLines.{AreGaps, IsCount, IsCounted, IsGapsLine, IsReport, IsSpan, IsTime, form_line, gaps_begin, gaps_line, is_lost, is_told, left_out_begin, left_out_end, left_out_line, left_out_text, span_begin, span_end, span_line, status_of, verdict_line, zones_line};

use std::alloc::{AllocError, Global};
use tsb_event_text::{Moment, TimeForm, time_form_word, time_text};
use tsb_field_streams::{
    Channels, Gaps, LeftOut, Summary, append_channels, append_devices, are_several,
};
use tsb_program::ExitStatus;
use tsb_words::field_files::Manner;

/// What is printed where rows say their zones, and none is asked for.
const ZONES: &[u8] =
    b"times: their zones are passed over (give that of --from, as --zone=-07:00)\n";

/// What is told where no row counted.
const NO_ROW: &[u8] = b"events: no row counts (give --allow-empty where that is right)\n";

/// What is told where no input had an event from tick 1 on.
const NO_EVENT: &[u8] =
    b"events: no event of an input from --from on (give --allow-empty where that is right)\n";

/// Whether lines were passed over, and among them no header and no row was found.
pub(crate) fn is_lost(left_out: LeftOut) -> bool
    ensures { result ≡ is_lost left_out }
{
    left_out.passed > 0 && !left_out.found
}

/// What the program ends with, where a header or a row was found: rows of several devices are refused, as their log is of
/// no signal.
pub(crate) fn status_of(manner: Manner, summary: Summary) -> ExitStatus
    ensures { number result ≡ status_of manner summary }
{
    if (manner.may_be_empty || summary.heard) && !are_several(&summary.devices) {
        ExitStatus::Done
    } else {
        ExitStatus::Refused
    }
}

/// The lines that tell what was read. The error is that memory ran out.
pub(crate) fn report(alloc: Global, manner: Manner, summary: Summary) -> Result<Vec<u8>, AllocError>
    ensures { IfOk result (λ text. IsReport manner summary text.items) }
{
    let counted = count_text(alloc, manner.counts, summary)?;
    let gaps = gaps_text(alloc, manner.counts, summary.gaps)?;
    let mut text = Vec::new(alloc);
    append_form(&mut text, manner.times, summary.times)?;
    text.extend_from_slice(zones_line(summary.zoned))?;
    append_left_out(alloc, &mut text, summary.left_out, &summary.unwired)?;
    text.extend_from_slice(&counted)?;
    text.extend_from_slice(&gaps)?;
    append_devices(&mut text, &summary.devices)?;
    text.extend_from_slice(verdict_line(manner, summary))?;
    Ok(text)
}

/// Adds the form of times, where the first row said it and it is another than the plain one.
fn append_form(
    text: &mut Vec<u8>,
    asked: Option<TimeForm>,
    found: Option<TimeForm>,
) -> Result<(), AllocError>
    ensures { OnOk result (text.new.items ≡ text.old.items ++ form_line asked found) }
{
    match (asked, found) {
        (None, Some(TimeForm::YearFirst)) => Ok(()),
        (None, Some(form)) => append_form_line(text, form),
        _ => Ok(()),
    }
}

/// Adds the line of a form of times.
fn append_form_line(text: &mut Vec<u8>, form: TimeForm) -> Result<(), AllocError>
    ensures { OnOk result (text.new.items ≡ text.old.items ++ is_told form) }
{
    text.extend_from_slice(b"times: ")?;
    text.extend_from_slice(time_form_word(form).as_bytes())?;
    text.extend_from_slice(b", by the first row\n")
}

/// The line of zones that are passed over, if any are.
fn zones_line(zoned: bool) -> &'static [u8]
    ensures { result.now ≡ zones_line zoned }
{
    if zoned { ZONES } else { b"" }
}

/// Adds what was left out, where something was.
fn append_left_out(
    alloc: Global,
    text: &mut Vec<u8>,
    left_out: LeftOut,
    channels: &Channels,
) -> Result<(), AllocError>
    ensures { OnOk result (text.new.items ≡ text.old.items ++ left_out_text left_out channels.now) }
{
    if left_out.of_other_devices == 0 && left_out.without_input == 0 && left_out.passed == 0 {
        return Ok(());
    }
    append_left_out_line(alloc, text, left_out, channels)
}

/// Adds the line of what was left out, with the first of these channels.
fn append_left_out_line(
    alloc: Global,
    text: &mut Vec<u8>,
    left_out: LeftOut,
    channels: &Channels,
) -> Result<(), AllocError>
    ensures { OnOk result (text.new.items ≡ text.old.items ++ left_out_line left_out channels.now) }
{
    let front = left_out_begin(alloc, left_out)?;
    let end = left_out_end(alloc, left_out.passed)?;
    text.extend_from_slice(front.as_bytes())?;
    append_channels(text, channels)?;
    text.extend_from_slice(end.as_bytes())
}

/// How many rows of other devices were left out, and how many events of channels without an input.
fn left_out_begin(alloc: Global, left_out: LeftOut) -> Result<String, AllocError>
    ensures { IfOk result (λ text. string_bytes text ≡ left_out_begin left_out) }
{
    let rows = left_out.of_other_devices;
    let events = left_out.without_input;
    format!(in alloc;
        "left out: {rows} rows of other devices, {events} events of channels without an input"
    )
}

/// How many lines were passed over.
fn left_out_end(alloc: Global, lines: u32) -> Result<String, AllocError>
    ensures { IfOk result (λ text. string_bytes text ≡ left_out_end lines) }
{
    format!(in alloc; ", {lines} lines that are no rows\n")
}

/// How much was read, where it is to be told.
fn count_text(alloc: Global, counts: bool, summary: Summary) -> Result<Vec<u8>, AllocError>
    ensures { IfOk result (λ text. IsCounted counts summary text.items) }
{
    if counts {
        count_line(alloc, summary)
    } else {
        Ok(Vec::new(alloc))
    }
}

/// The line of how much was read.
fn count_line(alloc: Global, summary: Summary) -> Result<Vec<u8>, AllocError>
    ensures { IfOk result (λ text. IsCount (summary.rows == 0) summary text.items) }
{
    if summary.rows != 0 {
        return span_line(alloc, summary);
    }
    let mut text = Vec::new(alloc);
    text.extend_from_slice(b"read: 0 rows\n")?;
    Ok(text)
}

/// The line of so many rows, with the first and the last of their times.
fn span_line(alloc: Global, summary: Summary) -> Result<Vec<u8>, AllocError>
    ensures { IfOk result (λ text. IsSpan summary text.items) }
{
    let first = time_shown(alloc, summary.first)?;
    let last = time_shown(alloc, summary.last)?;
    line_between(alloc, summary, &first, &last)
}

/// The line of so many rows, between these times.
fn line_between(
    alloc: Global,
    summary: Summary,
    first: &[u8],
    last: &[u8],
) -> Result<Vec<u8>, AllocError>
    ensures { IfOk result (λ text. text.items ≡ span_line summary first.now last.now) }
{
    let mut text = Vec::new(alloc);
    let begin = span_begin(alloc, summary.rows)?;
    text.extend_from_slice(begin.as_bytes())?;
    text.extend_from_slice(first)?;
    text.extend_from_slice(b" to ")?;
    text.extend_from_slice(last)?;
    let end = span_end(alloc, summary.channels)?;
    text.extend_from_slice(end.as_bytes())?;
    Ok(text)
}

/// How many rows were read.
fn span_begin(alloc: Global, rows: u32) -> Result<String, AllocError>
    ensures { IfOk result (λ text. string_bytes text ≡ span_begin rows) }
{
    format!(in alloc; "read: {rows} rows from ")
}

/// Of how many channels events were read.
fn span_end(alloc: Global, channels: usize) -> Result<String, AllocError>
    ensures { IfOk result (λ text. string_bytes text ≡ span_end channels) }
{
    format!(in alloc; ", events of {channels} channels\n")
}

/// In which gaps no row counted, where it is asked for and there are any.
fn gaps_text(alloc: Global, counts: bool, gaps: Gaps) -> Result<Vec<u8>, AllocError>
    ensures { IfOk result (λ text. AreGaps counts gaps text.items) }
{
    if counts && gaps.count > 0 {
        gaps_shown(alloc, gaps)
    } else {
        Ok(Vec::new(alloc))
    }
}

/// The line of gaps, with the times of the rows before and after the longest.
fn gaps_shown(alloc: Global, gaps: Gaps) -> Result<Vec<u8>, AllocError>
    ensures { IfOk result (λ text. IsGapsLine gaps text.items) }
{
    let begin = time_shown(alloc, gaps.begin)?;
    let end = time_shown(alloc, gaps.end)?;
    gaps_line(alloc, gaps.count, &begin, &end)
}

/// The line of so many gaps, the longest between these times.
fn gaps_line(alloc: Global, count: u32, begin: &[u8], end: &[u8]) -> Result<Vec<u8>, AllocError>
    ensures { IfOk result (λ text. text.items ≡ gaps_line count begin.now end.now) }
{
    let mut text = Vec::new(alloc);
    let head = gaps_begin(alloc, count)?;
    text.extend_from_slice(head.as_bytes())?;
    text.extend_from_slice(begin)?;
    text.extend_from_slice(b" to ")?;
    text.extend_from_slice(end)?;
    text.extend_from_slice(b"\n")?;
    Ok(text)
}

/// In how many gaps no row counted.
fn gaps_begin(alloc: Global, count: u32) -> Result<String, AllocError>
    ensures { IfOk result (λ text. string_bytes text ≡ gaps_begin count) }
{
    format!(in alloc;
        "gaps: {count} of a minute or more without a row that counts, the longest from "
    )
}

/// The time of a moment, in nanoseconds as a `Moment` counts them, or a question mark where no year of four digits has
/// it.
fn time_shown(alloc: Global, nanos: u128) -> Result<Vec<u8>, AllocError>
    ensures { IfOk result (λ text. IsTime nanos text.items) }
{
    let mut text = Vec::new(alloc);
    match time_text(Moment { nanos }) {
        Some(time) => time.append_to(&mut text)?,
        None => text.push(b'?')?,
    }
    Ok(text)
}

/// The line that tells what is missing, if anything.
fn verdict_line(manner: Manner, summary: Summary) -> &'static [u8]
    ensures { result.now ≡ verdict_line manner summary }
{
    if manner.may_be_empty || summary.heard {
        return b"";
    }
    if summary.rows == 0 {
        return NO_ROW;
    }
    NO_EVENT
}
