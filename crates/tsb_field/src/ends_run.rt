//! The ends of greens in the event log of a diagram.
ghost use Rattle.tsb_field.specs.GreenEnds.{EndsIn, EndsRead, TellsNoEnds, as_filter};
ghost use Rattle.std.specs.Prelude.{◌≡◌};
ghost use Rattle.tsb_program.specs.Devices.{OnlyTells};

use crate::log_run::tell_fault;
use std::alloc::Global;
use std::io::{Read, Write};
use tsb_event_text::Moment;
use tsb_field_diagram::{EndsError, GreenEnd, LIMIT, read_ends};
use tsb_field_streams::FilterError;
use tsb_program::{FileError, Files, ReadError, Streams, read_file};

/// The ends of greens in the event log of the file at this path, from a moment on. Where it is too large, one byte
/// more than the longest has is read.
pub(crate) fn ends_of<F: Files>(
    alloc: Global,
    files: &F,
    from: Moment,
    path: &str,
) -> Result<Vec<GreenEnd>, ReadError<EndsError>>
    ensures { EndsRead result from (F.bytes files.now path.now) }
{
    match read_file(alloc, files, path, LIMIT + 1) {
        Ok(text) => ends_in(alloc, from, &text),
        Err(fault) => Err(ReadError::Failed(fault)),
    }
}

/// The ends of greens in a text, from a moment on.
fn ends_in(alloc: Global, from: Moment, text: &[u8]) -> Result<Vec<GreenEnd>, ReadError<EndsError>>
    ensures { EndsIn result from text.now }
{
    match read_ends(alloc, from, text) {
        Ok(ends) => Ok(ends),
        Err(EndsError::Memory) => Err(ReadError::Failed(FileError::Memory)),
        Err(EndsError::TooLarge) => Err(ReadError::Refused(EndsError::TooLarge)),
        Err(EndsError::Malformed(line, why)) => {
            Err(ReadError::Refused(EndsError::Malformed(line, why)))
        }
    }
}

/// Says why an event log has no ends of greens, in a second line which file was not read, and gives the status that the
/// program ends with.
pub(crate) fn refuse_ends<R: Read, W: Write, E: Write>(
    streams: &mut Streams<R, W, E>,
    path: &str,
    fault: ReadError<EndsError>,
) -> u8
    ensures { OnlyTells (TellsNoEnds path.now fault result) streams.old streams.new }
{
    match fault {
        ReadError::Failed(why) => streams.fail_file(path, why),
        ReadError::Refused(why) => tell_fault(streams, as_filter(why)),
    }
}

/// The same fault, as one of `log`.
fn as_filter(fault: EndsError) -> FilterError
    ensures { result ≡ as_filter fault }
{
    match fault {
        EndsError::Memory => FilterError::Memory,
        EndsError::TooLarge => FilterError::TooLarge,
        EndsError::Malformed(line, why) => FilterError::Malformed(line, why),
    }
}
