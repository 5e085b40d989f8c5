//! `events`: what a session answers in, a controller's event log out.
ghost use Rattle.std.specs.Prelude.{◌≡◌, false, option_map};
ghost use Rattle.tsb_field.specs.Ends.{Told, ToldOn};

use crate::end::{failure_by, write_made};
use crate::named::{log_named, name_of};
use std::alloc::Global;
use std::io::{Read, Write};
use tsb_field_display::{events_text, read_replay};
use tsb_log_text::Log;
use tsb_program::{Files, Streams};
use tsb_words::field_files::EventsAsked;

/// Makes a controller's event log from what a session answers.
pub(crate) fn write_events<F: Files, R: Read, W: Write, E: Write>(
    alloc: Global,
    asked: &EventsAsked<'_>,
    files: &F,
    streams: &mut Streams<R, W, E>,
) -> u8
    requires reads { streams.old.input.failed ≡ false }
    ensures { Told asked.now.is_wide result asked.now.from asked.now.device.now (F.bytes files.now)
        (option_map (λ path. path.now) asked.now.log) streams.old streams.new }
{
    match log_named(alloc, files, asked.log) {
        Ok(rows) => write_events_of(alloc, asked, &rows, streams),
        Err(fault) => streams.refuse(alloc, name_of(asked.log), fault),
    }
}

/// Makes a controller's event log from what a session answers, with these rows of a log.
fn write_events_of<R: Read, W: Write, E: Write>(
    alloc: Global,
    asked: &EventsAsked<'_>,
    rows: &Log,
    streams: &mut Streams<R, W, E>,
) -> u8
    requires reads { streams.old.input.failed ≡ false }
    ensures { ToldOn asked.now.is_wide result asked.now.from asked.now.device.now rows.now streams.old streams.new }
{
    match read_replay(alloc, asked.is_wide, &mut streams.input) {
        Ok(replay) => {
            let made = events_text(
                alloc,
                asked.from,
                asked.device.as_bytes(),
                replay.changes(),
                rows.rows(),
            );
            write_made(streams, made)
        }
        Err(fault) => streams.fail(failure_by(fault)),
    }
}
