//! `schedule`: a plan in, what its schedule runs in a week out, as a table or a picture.
ghost use Rattle.std.specs.Prelude.{◌≡◌, OnErr, OnOk, true};
ghost use Rattle.tsb_lines.specs.Writes.{AppendsFront};
ghost use Rattle.tsb_program.specs.Devices.{ReadsNothing};
ghost use Rattle.tsb_program.specs.tsb_lines.Seen.{GoesOut, seen};
ghost use Rattle.tsb_review_text.specs.Week.{week_text};
ghost use Rattle.tsb_review_text.specs.WeekPicture.{week_picture};
ghost use Rattle.tsb_text.specs.tsb_plan.PlanOf.{plan_of};
ghost use Rattle.tsb_field.specs.Ends.{Draws, RunsWeek, Scheduled};
ghost use Rattle.tsb_field.specs.ReviewEnds.{Answered};

use std::alloc::Global;
use std::io::{Read, Write};
use tsb_lines::WriteError;
use tsb_program::{ExitStatus, Failure, Files, Streams, Watched, plan_or_place};
use tsb_review_text::{week_picture, write_week};
use tsb_text::Plan;
use tsb_types::ClockTime;

/// Writes what the schedule of the plan in a file runs in the week from a midnight on, and gives the status that the program
/// ends with. It is a picture where `svg` is set, and else a table.
pub(crate) fn write_schedule<F: Files, R: Read, W: Write, E: Write>(
    alloc: Global,
    path: &str,
    week: ClockTime,
    svg: bool,
    files: &F,
    streams: &mut Streams<R, W, E>,
) -> u8
    ensures { ReadsNothing (Scheduled result path.now week svg (F.bytes files.now path.now)) streams.old streams.new }
{
    match plan_or_place(alloc, files, path) {
        Ok(plan) => write_either(alloc, plan.plan(), week, svg, streams),
        Err(fault) => streams.refuse_plan(alloc, path, fault),
    }
}

/// Writes what the schedule of a plan runs, as a picture or as a table.
fn write_either<R: Read, W: Write, E: Write>(
    alloc: Global,
    plan: &Plan,
    week: ClockTime,
    svg: bool,
    streams: &mut Streams<R, W, E>,
) -> u8
    ensures { ReadsNothing (RunsWeek svg result (plan_of plan.now) week) streams.old streams.new }
{
    if svg {
        draw_plan(alloc, plan, week, streams)
    } else {
        write_plan(plan, week, streams)
    }
}

/// Writes what the schedule of a plan runs as a picture.
fn draw_plan<R: Read, W: Write, E: Write>(
    alloc: Global,
    plan: &Plan,
    week: ClockTime,
    streams: &mut Streams<R, W, E>,
) -> u8
    ensures { ReadsNothing (Draws (week_picture (plan_of plan.now) week) result) streams.old streams.new }
{
    match week_picture(alloc, plan, week) {
        Ok(text) => streams.write(ExitStatus::Done, &text),
        Err(_) => streams.fail(Failure::Memory),
    }
}

/// Writes what the schedule of a plan runs as a table.
fn write_plan<R: Read, W: Write, E: Write>(
    plan: &Plan,
    week: ClockTime,
    streams: &mut Streams<R, W, E>,
) -> u8
    ensures { ReadsNothing (Answered result 0 (week_text (plan_of plan.now) week)) streams.old streams.new }
{
    match write_passed(plan, week, &mut streams.output) {
        Ok(()) => ExitStatus::Done.number(),
        Err(_) => streams.fail(Failure::Write),
    }
}

/// Writes the week, and has the writer pass it on. At an error its first bytes may have gone out.
fn write_passed<W: Write>(
    plan: &Plan,
    week: ClockTime,
    output: &mut Watched<W>,
) -> Result<(), WriteError>
    ensures whole { OnOk result (GoesOut (seen W.contents output.old) (seen W.contents output.new) (week_text (plan_of plan.now) week)) }
    ensures front { AppendsFront (W.contents output.old.device) (W.contents output.new.device) (week_text (plan_of plan.now) week) }
    ensures blame { OnErr result (output.new.failed ≡ true) }
    ensures well { OnOk result (output.new.failed ≡ output.old.failed) }
{
    match write_week(plan, week, output) {
        Ok(()) => output.pass_on(),
        Err(fault) => Err(fault),
    }
}
