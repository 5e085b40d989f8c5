//! `worksheet`: a plan in, the times that follow of it out.
ghost use Rattle.std.specs.Prelude.{◌≡◌, OnErr, OnOk, true};
ghost use Rattle.tsb_lines.specs.Writes.{AppendsFront};
ghost use Rattle.tsb_program.specs.Devices.{ReadsNothing};
ghost use Rattle.tsb_program.specs.tsb_lines.Seen.{GoesOut, seen};
ghost use Rattle.tsb_review_text.specs.Worksheet.{worksheet_text};
ghost use Rattle.tsb_text.specs.tsb_plan.PlanOf.{plan_of};
ghost use Rattle.tsb_field.specs.Ends.{Worked};
ghost use Rattle.tsb_field.specs.ReviewEnds.{Answered};

use std::alloc::Global;
use std::io::{Read, Write};
use tsb_lines::WriteError;
use tsb_program::{ExitStatus, Failure, Files, Streams, Watched, plan_or_place};
use tsb_review_text::write_worksheet;
use tsb_text::Plan;

/// Writes the worksheet of the plan in a file, and gives the status that the program ends with.
pub(crate) fn write_worksheet_of<F: Files, R: Read, W: Write, E: Write>(
    alloc: Global,
    path: &str,
    files: &F,
    streams: &mut Streams<R, W, E>,
) -> u8
    ensures { ReadsNothing (Worked result path.now (F.bytes files.now path.now)) streams.old streams.new }
{
    match plan_or_place(alloc, files, path) {
        Ok(plan) => write_plan(plan.plan(), streams),
        Err(fault) => streams.refuse_plan(alloc, path, fault),
    }
}

/// Writes the worksheet of a plan.
fn write_plan<R: Read, W: Write, E: Write>(plan: &Plan, streams: &mut Streams<R, W, E>) -> u8
    ensures { ReadsNothing (Answered result 0 (worksheet_text (plan_of plan.now))) streams.old streams.new }
{
    match write_passed(plan, &mut streams.output) {
        Ok(()) => ExitStatus::Done.number(),
        Err(_) => streams.fail(Failure::Write),
    }
}

/// Writes the worksheet, and has the writer pass it on. At an error its first bytes may have gone out.
fn write_passed<W: Write>(plan: &Plan, output: &mut Watched<W>) -> Result<(), WriteError>
    ensures whole { OnOk result (GoesOut (seen W.contents output.old) (seen W.contents output.new) (worksheet_text (plan_of plan.now))) }
    ensures front { AppendsFront (W.contents output.old.device) (W.contents output.new.device) (worksheet_text (plan_of plan.now)) }
    ensures blame { OnErr result (output.new.failed ≡ true) }
    ensures well { OnOk result (output.new.failed ≡ output.old.failed) }
{
    match write_worksheet(plan, output) {
        Ok(()) => output.pass_on(),
        Err(fault) => Err(fault),
    }
}
