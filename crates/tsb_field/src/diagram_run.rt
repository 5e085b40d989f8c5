//! `diagram`: what a session answers in, a phase diagram out.
ghost use Rattle.std.specs.Prelude.{◌≡◌, false, option_map};
ghost use Rattle.tsb_field_diagram.specs.Page.{diagram_text};
ghost use Rattle.tsb_program.specs.Devices.{ReadsNothing};
ghost use Rattle.tsb_field.specs.Ends.{Drawn, Draws, IsDiagram, Pictured, PicturedBeside, form_asked, seconds_of, title_of};

use crate::end::failure_by;
use crate::ends_run::{ends_of, refuse_ends};
use crate::named::{log_named, name_of};
use std::alloc::Global;
use std::io::{Read, Write};
use tsb_field_diagram::{DiagramForm, DiagramSession, GreenEnd, diagram_text};
use tsb_field_display::read_replay;
use tsb_log_text::Log;
use tsb_program::{ExitStatus, Failure, Files, Streams};
use tsb_words::field_files::DiagramAsked;

/// The title of a diagram where words give none.
const TITLE: &[u8] = b"Phase diagram";

/// The line of an event log by which no green ends.
const NO_END: &[u8] = b"events: no gap out, max out or force-off from --from on\n";

/// How many seconds a line of a diagram shows where words don't say.
const SECONDS: u32 = 300;

/// The title that words give, or the usual one where they give none.
fn title_of(title: Option<&str>) -> &[u8]
    ensures { result.now ≡ title_of (option_map (λ title. title.now) title.entry) }
{
    match title {
        Some(title) => title.as_bytes(),
        None => TITLE,
    }
}

/// The seconds of a line that words give, or the usual ones where they give none.
fn seconds_of(seconds: Option<u32>) -> u32
    ensures { result ≡ seconds_of seconds }
{
    seconds.unwrap_or(SECONDS)
}

/// How the diagram is laid out that words ask for.
fn form_of<'a>(asked: &DiagramAsked<'a>) -> DiagramForm<'a>
    ensures { result ≡ form_asked asked.now }
{
    DiagramForm {
        title: title_of(asked.title),
        seconds_per_line: seconds_of(asked.seconds_per_line),
        from: asked.from,
    }
}

/// Makes a phase diagram from what a session answers.
pub(crate) fn write_diagram<F: Files, R: Read, W: Write, E: Write>(
    alloc: Global,
    asked: &DiagramAsked<'_>,
    files: &F,
    streams: &mut Streams<R, W, E>,
) -> u8
    requires reads { streams.old.input.failed ≡ false }
    ensures { Pictured asked.now.is_wide result (form_asked asked.now) (option_map (λ path. path.now) asked.now.events) (F.bytes files.now)
        (option_map (λ path. path.now) asked.now.log) streams.old streams.new }
{
    match log_named(alloc, files, asked.log) {
        Ok(rows) => write_beside(alloc, asked, &rows, files, streams),
        Err(fault) => streams.refuse(alloc, name_of(asked.log), fault),
    }
}

/// Makes a phase diagram from what a session answers, with these rows of a log. Where words name events and a moment to
/// count from, it has the ends of greens in them; where these are none, it says why, with nothing read.
fn write_beside<F: Files, R: Read, W: Write, E: Write>(
    alloc: Global,
    asked: &DiagramAsked<'_>,
    rows: &Log,
    files: &F,
    streams: &mut Streams<R, W, E>,
) -> u8
    requires reads { streams.old.input.failed ≡ false }
    ensures { PicturedBeside asked.now.is_wide (option_map (λ path. path.now) asked.now.events) asked.now.from result (form_asked asked.now) rows.now (F.bytes files.now)
        streams.old streams.new }
{
    let Some(path) = asked.events else {
        return write_with(alloc, asked, rows, &[], streams);
    };
    let Some(from) = asked.from else {
        return write_with(alloc, asked, rows, &[], streams);
    };
    match ends_of(alloc, files, from, path) {
        Ok(ends) => {
            if ends.is_empty() {
                return streams.tell(ExitStatus::Refused, NO_END);
            }
            write_with(alloc, asked, rows, &ends, streams)
        }
        Err(fault) => refuse_ends(streams, path, fault),
    }
}

/// Makes a phase diagram from what a session answers, with these rows of a log and these ends of greens.
fn write_with<R: Read, W: Write, E: Write>(
    alloc: Global,
    asked: &DiagramAsked<'_>,
    rows: &Log,
    ends: &[GreenEnd],
    streams: &mut Streams<R, W, E>,
) -> u8
    requires reads { streams.old.input.failed ≡ false }
    ensures { Drawn asked.now.is_wide (IsDiagram (form_asked asked.now) ends.now) result rows.now streams.old streams.new }
{
    match read_replay(alloc, asked.is_wide, &mut streams.input) {
        Ok(replay) => {
            let session = DiagramSession {
                changes: replay.changes(),
                last_tick: replay.last_tick(),
                rows: rows.rows(),
                ends,
            };
            draw(alloc, asked, &session, streams)
        }
        Err(fault) => streams.fail(failure_by(fault)),
    }
}

/// Writes a phase diagram of a session.
fn draw<R: Read, W: Write, E: Write>(
    alloc: Global,
    asked: &DiagramAsked<'_>,
    session: &DiagramSession<'_>,
    streams: &mut Streams<R, W, E>,
) -> u8
    ensures { ReadsNothing (Draws (diagram_text (form_asked asked.now) session.now) result) streams.old streams.new }
{
    let form = form_of(asked);
    match diagram_text(alloc, &form, session) {
        Ok(text) => streams.write(ExitStatus::Done, &text),
        Err(_) => streams.fail(Failure::Memory),
    }
}
