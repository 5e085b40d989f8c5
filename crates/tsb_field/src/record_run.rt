//! `record`: a run of commands in, a controller's event log out.
ghost use Rattle.std.specs.Prelude.{◌≡◌, false, true};
ghost use Rattle.tsb_text.specs.Answers.{Setup};
ghost use Rattle.tsb_text.specs.tsb_objects.Checked.{checked_plan};
ghost use Rattle.tsb_field.specs.Clocks.{lacks_clock};
ghost use Rattle.tsb_field.specs.Ends.{RanSo, Recorded, RecordedOn, RecordedWith, options_of};

use crate::clock::{clock_of, lacks_clock};
use crate::end::{tell_no_clock, write_made};
use std::alloc::Global;
use std::io::{Read, Write};
use tsb_event_text::Moment;
use tsb_field_display::log_text;
use tsb_log_text::Log;
use tsb_program::{ExitStatus, Files, Streams, after_fault, log_of, plan_or_place};
use tsb_text::{Checked, LogForm, Outcome, RecordOptions, record};
use tsb_words::field_files::{RecordAsked, RecordManner};

/// What is asked of a record, as words say.
fn options_of(from: Moment, manner: RecordManner) -> RecordOptions
    ensures { result ≡ options_of from manner }
{
    RecordOptions {
        on_fault: after_fault(!manner.goes_on),
        form: LogForm {
            recalls: manner.recalls,
            outputs: manner.outputs,
        },
        acts: true,
        clock: clock_of(manner.no_clock, from),
    }
}

/// Makes a controller's event log from a run of commands, whose clock is set to the moment of its tick 1. Where no clock
/// can be set to that, it says so, with nothing read.
pub(crate) fn write_record<F: Files, R: Read, W: Write, E: Write>(
    alloc: Global,
    asked: &RecordAsked<'_>,
    files: &F,
    streams: &mut Streams<R, W, E>,
) -> u8
    requires reads { streams.old.input.failed ≡ false }
    requires writes { streams.old.errors.failed ≡ false }
    requires flushed { streams.old.errors.flushed ≡ true }
    ensures { RecordedWith (lacks_clock asked.now.manner.no_clock asked.now.from) result asked.now.from asked.now.device.now (options_of asked.now.from asked.now.manner)
        asked.now.plan.now asked.now.log.now (F.bytes files.now) streams.old streams.new }
{
    if lacks_clock(asked.manner.no_clock, asked.from) {
        return tell_no_clock(streams);
    }
    record_files(alloc, asked, files, streams)
}

/// Makes a controller's event log from a run of commands on the files of a plan and a log.
fn record_files<F: Files, R: Read, W: Write, E: Write>(
    alloc: Global,
    asked: &RecordAsked<'_>,
    files: &F,
    streams: &mut Streams<R, W, E>,
) -> u8
    requires reads { streams.old.input.failed ≡ false }
    requires writes { streams.old.errors.failed ≡ false }
    requires flushed { streams.old.errors.flushed ≡ true }
    ensures { Recorded result asked.now.from asked.now.device.now (options_of asked.now.from asked.now.manner) asked.now.plan.now asked.now.log.now (F.bytes files.now)
        streams.old streams.new }
{
    match plan_or_place(alloc, files, asked.plan) {
        Ok(checked) => record_plan(alloc, asked, checked, files, streams),
        Err(fault) => streams.refuse_plan(alloc, asked.plan, fault),
    }
}

/// Makes a controller's event log from a run of commands on this plan.
fn record_plan<F: Files, R: Read, W: Write, E: Write>(
    alloc: Global,
    asked: &RecordAsked<'_>,
    plan: Checked,
    files: &F,
    streams: &mut Streams<R, W, E>,
) -> u8
    requires reads { streams.old.input.failed ≡ false }
    requires writes { streams.old.errors.failed ≡ false }
    requires flushed { streams.old.errors.flushed ≡ true }
    ensures { RecordedOn result asked.now.from asked.now.device.now (options_of asked.now.from asked.now.manner) (checked_plan plan) asked.now.log.now (F.bytes files.now)
        streams.old streams.new }
{
    match log_of(alloc, files, asked.log) {
        Ok(rows) => record_run(alloc, asked, plan, &rows, streams),
        Err(fault) => {
            drop(plan);
            streams.refuse(alloc, asked.log, fault)
        }
    }
}

/// Runs commands on a plan and a log, and writes the events of the inputs that remain, or none where a line ended the
/// record.
fn record_run<R: Read, W: Write, E: Write>(
    alloc: Global,
    asked: &RecordAsked<'_>,
    plan: Checked,
    rows: &Log,
    streams: &mut Streams<R, W, E>,
) -> u8
    requires reads { streams.old.input.failed ≡ false }
    requires writes { streams.old.errors.failed ≡ false }
    requires flushed { streams.old.errors.flushed ≡ true }
    ensures { RanSo result asked.now.from asked.now.device.now (options_of asked.now.from asked.now.manner) (record { plan = checked_plan plan; log = rows.now; acts = true; is_wide = false })
        streams.old streams.new }
{
    let options = options_of(asked.from, asked.manner);
    match record(
        alloc,
        plan,
        rows,
        options,
        &mut streams.input,
        &mut streams.errors,
    ) {
        Ok(Outcome::Events(events)) => {
            let made = log_text(alloc, asked.from, asked.device.as_bytes(), &events);
            write_made(streams, made)
        }
        Ok(Outcome::Stopped(_)) => ExitStatus::Stopped.number(),
        Err(fault) => streams.tell_input_end(fault),
    }
}
