//! `log`: a controller's event log in, a log of inputs out.
ghost use Rattle.std.specs.Prelude.{◌≡◌, ◌⊎◌, ◌∷◌, ◌++◌, [], option_map, false, true};
ghost use Rattle.tsb_field_streams.specs.FaultLines.{filter_fault};
ghost use Rattle.tsb_program.specs.Devices.{OnlyTells};
ghost use Rattle.tsb_program.specs.Statuses.{number};
ghost use Rattle.tsb_program.specs.tsb_lines.Seen.{Tells};
ghost use Rattle.tsb_words.specs.FieldWords.{seen_log};
ghost use Rattle.tsb_field.specs.LogEnds.{LoggedBy, TellsFault, TellsLogEnd, TellsRead, TellsReport, TellsSummary, failed_device, status_told};

use crate::report::{is_lost, report, status_of};
use std::alloc::Global;
use std::io::{Read, Write};
use tsb_field_streams::{FilterError, RowOptions, Summary, log};
use tsb_program::{ExitStatus, Failure, Streams, Watched};
use tsb_words::field_files::{LogAsked, Manner};

/// What is told of a text of events without a header and without a row.
const NOTHING: &[u8] =
    b"events: no header and no row (do commas, semicolons or tabs part its fields?)\n";

/// Makes a log from a controller's event log, and gives the status that the program ends with.
pub(crate) fn write_log<R: Read, W: Write, E: Write>(
    alloc: Global,
    asked: &LogAsked<'_>,
    streams: &mut Streams<R, W, E>,
) -> u8
    ensures { LoggedBy result (seen_log asked.now) streams.old streams.new }
{
    let reading = RowOptions {
        from: asked.from,
        times: asked.manner.times,
        zone: asked.manner.zone,
        window: asked.manner.window,
    };
    let device = bytes_of(asked.device);
    let ended = log(
        alloc,
        reading,
        device,
        &asked.wires,
        &mut streams.input,
        &mut streams.output,
    );
    let failed = failed_device(&streams.input, &streams.output);
    // What is known goes out before anything is told. If that fails, a fault that came before matters more.
    let _ = streams.output.pass_on();
    let unwritten = streams.output.has_failed();
    tell_end(alloc, asked.manner, ended, failed, unwritten, streams)
}

/// The device that has failed: of both standard input, of which less was written then.
fn failed_device<R, W>(input: &Watched<R>, output: &Watched<W>) -> Option<Failure>
    ensures { result ≡ failed_device input.now.failed output.now.failed }
{
    if input.has_failed() {
        return Some(Failure::Input);
    }
    if output.has_failed() {
        return Some(Failure::Write);
    }
    None
}

/// Says what ended a filter, once all that it wrote was passed on or can't be, and gives the status that the program ends
/// with. A device that has failed is told whatever ended the filter. `unwritten` says whether the output has failed by now.
fn tell_end<R: Read, W: Write, E: Write>(
    alloc: Global,
    manner: Manner,
    ended: Result<Summary, FilterError>,
    failed: Option<Failure>,
    unwritten: bool,
    streams: &mut Streams<R, W, E>,
) -> u8
    requires passed { (streams.old.output.failed ≡ true) ⊎ (streams.old.output.flushed ≡ true) }
    ensures { OnlyTells (TellsLogEnd manner ended failed unwritten result) streams.old streams.new }
{
    if let Some(failure) = failed {
        return streams.fail(failure);
    }
    match ended {
        Ok(summary) => tell_read(alloc, manner, summary, unwritten, streams),
        Err(fault) => tell_fault(streams, fault),
    }
}

/// Says what was read, or that the last of the log was not passed on.
fn tell_read<R: Read, W: Write, E: Write>(
    alloc: Global,
    manner: Manner,
    summary: Summary,
    unwritten: bool,
    streams: &mut Streams<R, W, E>,
) -> u8
    ensures { OnlyTells (TellsRead manner summary unwritten result) streams.old streams.new }
{
    if unwritten {
        streams.fail(Failure::Write)
    } else {
        tell_summary(alloc, streams, manner, summary)
    }
}

/// The bytes of a name.
fn bytes_of(name: Option<&str>) -> Option<&[u8]>
    ensures { option_map (λ bytes. bytes.now) result ≡ option_map (λ name. name.now) name.entry }
{
    match name {
        Some(name) => Some(name.as_bytes()),
        None => None,
    }
}

/// Says what ended a filter. It takes no memory.
pub(crate) fn tell_fault<R: Read, W: Write, E: Write>(
    streams: &mut Streams<R, W, E>,
    fault: FilterError,
) -> u8
    ensures { OnlyTells (TellsFault fault result) streams.old streams.new }
{
    match fault {
        FilterError::Memory => streams.fail(Failure::Memory),
        FilterError::Read => streams.fail(Failure::Input),
        FilterError::Write => streams.fail(Failure::Write),
        _ => tell_line(streams, fault),
    }
}

/// Says what a filter found wrong with what it read.
fn tell_line<R: Read, W: Write, E: Write>(streams: &mut Streams<R, W, E>, fault: FilterError) -> u8
    ensures status { result ≡ 1 }
    ensures line { OnlyTells (λ told tells. Tells told tells (filter_fault fault ++ 10 ∷ [])) streams.old streams.new }
{
    let mut line = fault.line();
    line.push(b"\n");
    streams.tell(ExitStatus::Refused, line.as_bytes())
}

/// Says what was read, as far as it has to be told, and gives the status that the program ends with.
fn tell_summary<R: Read, W: Write, E: Write>(
    alloc: Global,
    streams: &mut Streams<R, W, E>,
    manner: Manner,
    summary: Summary,
) -> u8
    ensures { OnlyTells (TellsSummary manner summary result) streams.old streams.new }
{
    if is_lost(summary.left_out) {
        return streams.tell(ExitStatus::Refused, NOTHING);
    }
    tell_report(alloc, streams, manner, summary)
}

/// Says what was read, where a header or a row was found, and gives the status that the program ends with.
fn tell_report<R: Read, W: Write, E: Write>(
    alloc: Global,
    streams: &mut Streams<R, W, E>,
    manner: Manner,
    summary: Summary,
) -> u8
    ensures { OnlyTells (TellsReport manner summary result) streams.old streams.new }
{
    match report(alloc, manner, summary) {
        Ok(text) => tell_text(streams, status_of(manner, summary), &text),
        Err(_) => streams.fail(Failure::Memory),
    }
}

/// Says this, and gives the status that the program ends with: where nothing but this failed, the program failed.
pub(crate) fn tell_text<R: Read, W: Write, E: Write>(
    streams: &mut Streams<R, W, E>,
    status: ExitStatus,
    text: &[u8],
) -> u8
    ensures status { result ≡ status_told (number status) streams.new.errors.failed }
    ensures line { OnlyTells (λ told tells. Tells told tells text.now) streams.old streams.new }
{
    let wanted = streams.tell(status, text);
    status_told(wanted, streams.errors.has_failed())
}

/// The status of a program that was to end with this one, where a line of what it read was not written, or was.
pub(crate) fn status_told(status: u8, has_failed: bool) -> u8
    ensures { result ≡ status_told status has_failed }
{
    if status == 0 && has_failed {
        ExitStatus::Failed.number()
    } else {
        status
    }
}
