//! `log` with and without a plan beside the events, which are of outputs of detectors then.
ghost use Rattle.std.specs.Prelude.{◌≡◌, ◌==◌, ◌&&◌, not, option_map};
ghost use Rattle.tsb_field_log.specs.Mapping.{wires_of};
ghost use Rattle.tsb_program.specs.Devices.{OnlyTells};
ghost use Rattle.tsb_text.specs.tsb_plan.PlanOf.{plan_of};
ghost use Rattle.tsb_words.specs.FieldWords.{seen_log};
ghost use Rattle.tsb_field.specs.LogEnds.{LoggedBeside, LoggedOn, LoggedTelling, LoggedWith, TellsWhere, status_told};

use crate::log_run::{status_told, tell_text, write_log};
use crate::twice::twice_text;
use std::alloc::Global;
use std::io::{Read, Write};
use tsb_program::{ExitStatus, Failure, Files, Streams, plan_or_place};
use tsb_text::Plan;
use tsb_words::field_files::LogAsked;

/// Makes a log from a controller's event log, and gives the status that the program ends with. Where the words name a plan,
/// it is read first, and the detectors whose delay and extension act twice are told last.
pub(crate) fn run_log<F: Files, R: Read, W: Write, E: Write>(
    alloc: Global,
    asked: &LogAsked<'_>,
    files: &F,
    streams: &mut Streams<R, W, E>,
) -> u8
    ensures { LoggedOn (option_map (λ path. path.now) asked.now.as_outputs) result (seen_log asked.now) (F.bytes files.now) streams.old streams.new }
{
    match asked.as_outputs {
        Some(path) => write_beside(alloc, asked, path, files, streams),
        None => write_log(alloc, asked, streams),
    }
}

/// Makes a log from events of the outputs of the detectors of a plan, or says why there is no plan, with nothing read.
fn write_beside<F: Files, R: Read, W: Write, E: Write>(
    alloc: Global,
    asked: &LogAsked<'_>,
    path: &str,
    files: &F,
    streams: &mut Streams<R, W, E>,
) -> u8
    ensures { LoggedBeside path.now result (seen_log asked.now) (F.bytes files.now) streams.old streams.new }
{
    match plan_or_place(alloc, files, path) {
        Ok(checked) => write_with(alloc, asked, checked.plan(), streams),
        Err(fault) => streams.refuse_plan(alloc, path, fault),
    }
}

/// Makes a log from events of the outputs of the detectors of this plan.
fn write_with<R: Read, W: Write, E: Write>(
    alloc: Global,
    asked: &LogAsked<'_>,
    plan: &Plan,
    streams: &mut Streams<R, W, E>,
) -> u8
    ensures { LoggedWith (plan_of plan.now) result (seen_log asked.now) streams.old streams.new }
{
    match twice_text(alloc, &asked.wires, plan) {
        Ok(text) => write_telling(alloc, asked, &text, streams),
        Err(_) => streams.fail(Failure::Memory),
    }
}

/// Makes a log from events, and says this of it, where it ends well.
fn write_telling<R: Read, W: Write, E: Write>(
    alloc: Global,
    asked: &LogAsked<'_>,
    text: &[u8],
    streams: &mut Streams<R, W, E>,
) -> u8
    ensures { LoggedTelling text.now result (seen_log asked.now) streams.old streams.new }
{
    let status = write_log(alloc, asked, streams);
    tell_more(streams, status, text)
}

/// Says this of a log, where it ended well and all was told of it, and gives the status that the program ends with.
fn tell_more<R: Read, W: Write, E: Write>(
    streams: &mut Streams<R, W, E>,
    status: u8,
    text: &[u8],
) -> u8
    ensures status { result ≡ status_told status streams.new.errors.failed }
    ensures more { OnlyTells (TellsWhere (status == 0 && not streams.old.errors.failed) text.now) streams.old streams.new }
{
    let has_failed = streams.errors.has_failed();
    if status == 0 && !has_failed {
        return tell_text(streams, ExitStatus::Done, text);
    }
    status_told(status, has_failed)
}
