//! `review`: a plan in, the lines of what can be wrong with it out, or of where it breaks a rule.
ghost use Rattle.std.specs.Prelude.{◌≡◌, ◌++◌, IfOk, IfSome, Ok, OnErr, OnOk, true};
ghost use Rattle.tsb_lines.specs.Writes.{AppendsFront};
ghost use Rattle.tsb_program.specs.Devices.{ReadsNothing};
ghost use Rattle.tsb_program.specs.Lines.{plan_line};
ghost use Rattle.tsb_program.specs.Statuses.{number};
ghost use Rattle.tsb_program.specs.Told.{plan_lines};
ghost use Rattle.tsb_program.specs.tsb_lines.Seen.{GoesOut, seen};
ghost use Rattle.tsb_review_text.specs.Lines.{breaches_text, review_text};
ghost use Rattle.tsb_text.specs.tsb_plan.PlanOf.{plan_of};
ghost use Rattle.tsb_text.specs.tsb_plan_text.PlanText.{drafted};
ghost use Rattle.tsb_text.specs.tsb_plan_text.declared.error.PlanError.TheVariants as plans;
ghost use Rattle.tsb_field.specs.ReviewEnds.{Answered, FaultAnswered, PlacesAnswered, Reviewed, RuleAnswered, TextAnswered, TextReviewed};

use std::alloc::{AllocError, Global};
use std::io::{Read, Write};
use tsb_lines::WriteError;
use tsb_plan_notes::notes;
use tsb_plan_text::{LIMIT, PlanError, read_plan, read_unchecked};
use tsb_program::{
    ExitStatus, Failure, Files, Streams, Watched, plan_lines, read_file, write_line,
};
use tsb_review_text::{write_breaches, write_review};
use tsb_text::{Plan, Rule};

/// Reviews the plan in a file, and gives the status that the program ends with. Of a file that is too large one byte more
/// than the longest plan has is read.
pub(crate) fn review_plan<F: Files, R: Read, W: Write, E: Write>(
    alloc: Global,
    path: &str,
    files: &F,
    streams: &mut Streams<R, W, E>,
) -> u8
    ensures { ReadsNothing (Reviewed result path.now (F.bytes files.now path.now)) streams.old streams.new }
{
    match read_file(alloc, files, path, LIMIT + 1) {
        Ok(text) => review_text(alloc, &text, streams),
        Err(fault) => streams.fail_file(path, fault),
    }
}

/// Reviews the text of a plan.
fn review_text<R: Read, W: Write, E: Write>(
    alloc: Global,
    text: &[u8],
    streams: &mut Streams<R, W, E>,
) -> u8
    ensures { ReadsNothing (TextReviewed text.now result) streams.old streams.new }
{
    match notes(alloc, text) {
        Ok(notes) => answer_text(alloc, text, &notes, streams),
        Err(_) => streams.fail(Failure::Memory),
    }
}

/// Answers the text of a plan, of which this is noted.
fn answer_text<R: Read, W: Write, E: Write>(
    alloc: Global,
    text: &[u8],
    notes: &[u8],
    streams: &mut Streams<R, W, E>,
) -> u8
    ensures { ReadsNothing (TextAnswered text.now notes.now result) streams.old streams.new }
{
    match read_plan(alloc, text) {
        Ok(plan) => answer_plan(notes, plan.plan(), streams),
        Err(PlanError::Memory) => streams.fail(Failure::Memory),
        Err(PlanError::Rule(rule)) => answer_rule(alloc, text, rule, notes, streams),
        Err(fault) => answer_fault(alloc, text, fault, notes, streams),
    }
}

/// Answers with what is noted of a plan's text, and the review of the plan.
fn answer_plan<R: Read, W: Write, E: Write>(
    notes: &[u8],
    plan: &Plan,
    streams: &mut Streams<R, W, E>,
) -> u8
    ensures { ReadsNothing (Answered result 0 (notes.now ++ review_text (plan_of plan.now))) streams.old streams.new }
{
    match write_lines(notes, plan, &mut streams.output) {
        Ok(()) => ExitStatus::Done.number(),
        Err(_) => streams.fail(Failure::Write),
    }
}

/// Writes what is noted of a plan's text, and the review of the plan, and has the writer pass it on. At an error its first
/// bytes may have gone out.
fn write_lines<W: Write>(
    notes: &[u8],
    plan: &Plan,
    output: &mut Watched<W>,
) -> Result<(), WriteError>
    ensures whole { OnOk result (GoesOut (seen W.contents output.old) (seen W.contents output.new) (notes.now ++ review_text (plan_of plan.now))) }
    ensures front { AppendsFront (W.contents output.old.device) (W.contents output.new.device) (notes.now ++ review_text (plan_of plan.now)) }
    ensures blame { OnErr result (output.new.failed ≡ true) }
    ensures well { OnOk result (output.new.failed ≡ output.old.failed) }
{
    match output.write_text(notes) {
        Ok(()) => write_passed(plan, output),
        Err(fault) => Err(fault),
    }
}

/// Writes the review of a plan, and has the writer pass it on. At an error its first bytes may have gone out.
fn write_passed<W: Write>(plan: &Plan, output: &mut Watched<W>) -> Result<(), WriteError>
    ensures whole { OnOk result (GoesOut (seen W.contents output.old) (seen W.contents output.new) (review_text (plan_of plan.now))) }
    ensures front { AppendsFront (W.contents output.old.device) (W.contents output.new.device) (review_text (plan_of plan.now)) }
    ensures blame { OnErr result (output.new.failed ≡ true) }
    ensures well { OnOk result (output.new.failed ≡ output.old.failed) }
{
    match write_review(plan, output) {
        Ok(()) => output.pass_on(),
        Err(fault) => Err(fault),
    }
}

/// Answers with the fault of a plan, as `tsb check` tells it, the place at which its text stops being JSON, and what is
/// noted of its text.
fn answer_fault<R: Read, W: Write, E: Write>(
    alloc: Global,
    text: &[u8],
    fault: PlanError,
    notes: &[u8],
    streams: &mut Streams<R, W, E>,
) -> u8
    ensures { ReadsNothing (FaultAnswered text.now fault notes.now result) streams.old streams.new }
{
    match fault_text(alloc, text, fault, notes) {
        Ok(text) => answer(streams, ExitStatus::Refused, &text),
        Err(_) => streams.fail(Failure::Memory),
    }
}

/// Answers with the first rule that a plan breaks, as `tsb check` tells it, what is noted of its text, and each place at
/// which it breaks a rule.
fn answer_rule<R: Read, W: Write, E: Write>(
    alloc: Global,
    text: &[u8],
    rule: Rule,
    notes: &[u8],
    streams: &mut Streams<R, W, E>,
) -> u8
    ensures { ReadsNothing (RuleAnswered text.now rule notes.now result) streams.old streams.new }
{
    match drafted(alloc, text) {
        Some(plan) => answer_places(alloc, &plan, rule, notes, streams),
        None => streams.fail(Failure::Memory),
    }
}

/// The plan in a text, whether it meets the rules or not, where there is memory for it.
fn drafted(alloc: Global, text: &[u8]) -> Option<Plan>
    ensures { IfSome result (λ plan. drafted text.now ≡ Ok (plan_of plan)) }
{
    read_unchecked(alloc, text).ok()
}

/// Answers with a rule that a plan breaks, what is noted of its text, and each place at which it breaks a rule.
fn answer_places<R: Read, W: Write, E: Write>(
    alloc: Global,
    plan: &Plan,
    rule: Rule,
    notes: &[u8],
    streams: &mut Streams<R, W, E>,
) -> u8
    ensures { ReadsNothing (PlacesAnswered (plan_of plan.now) rule notes.now result) streams.old streams.new }
{
    match rule_text(alloc, rule, notes) {
        Ok(text) => answer_refused(&text, plan, streams),
        Err(_) => streams.fail(Failure::Memory),
    }
}

/// Answers with a text, and each place at which a plan breaks a rule.
fn answer_refused<R: Read, W: Write, E: Write>(
    text: &[u8],
    plan: &Plan,
    streams: &mut Streams<R, W, E>,
) -> u8
    ensures { ReadsNothing (Answered result 1 (text.now ++ breaches_text (plan_of plan.now))) streams.old streams.new }
{
    match write_places(text, plan, &mut streams.output) {
        Ok(()) => ExitStatus::Refused.number(),
        Err(_) => streams.fail(Failure::Write),
    }
}

/// Writes a text, and each place at which a plan breaks a rule, and has the writer pass it on. At an error its first bytes
/// may have gone out.
fn write_places<W: Write>(
    text: &[u8],
    plan: &Plan,
    output: &mut Watched<W>,
) -> Result<(), WriteError>
    ensures whole { OnOk result (GoesOut (seen W.contents output.old) (seen W.contents output.new) (text.now ++ breaches_text (plan_of plan.now))) }
    ensures front { AppendsFront (W.contents output.old.device) (W.contents output.new.device) (text.now ++ breaches_text (plan_of plan.now)) }
    ensures blame { OnErr result (output.new.failed ≡ true) }
    ensures well { OnOk result (output.new.failed ≡ output.old.failed) }
{
    match output.write_text(text) {
        Ok(()) => pass_places(plan, output),
        Err(fault) => Err(fault),
    }
}

/// Writes each place at which a plan breaks a rule, and has the writer pass it on. At an error its first bytes may have gone
/// out.
fn pass_places<W: Write>(plan: &Plan, output: &mut Watched<W>) -> Result<(), WriteError>
    ensures whole { OnOk result (GoesOut (seen W.contents output.old) (seen W.contents output.new) (breaches_text (plan_of plan.now))) }
    ensures front { AppendsFront (W.contents output.old.device) (W.contents output.new.device) (breaches_text (plan_of plan.now)) }
    ensures blame { OnErr result (output.new.failed ≡ true) }
    ensures well { OnOk result (output.new.failed ≡ output.old.failed) }
{
    match write_breaches(plan, output) {
        Ok(()) => Watched::pass_on(output),
        Err(fault) => Err(fault),
    }
}

/// The line of a rule that a plan breaks, and what is noted of its text.
fn rule_text(alloc: Global, rule: Rule, notes: &[u8]) -> Result<Vec<u8>, AllocError>
    ensures { IfOk result (λ line. line.items ≡ plan_line (plans.Rule rule) ++ notes.now) }
{
    fault_text(alloc, &[], PlanError::Rule(rule), notes)
}

/// The lines of a fault of a plan with this text, and what is noted of the text.
fn fault_text(
    alloc: Global,
    text: &[u8],
    fault: PlanError,
    notes: &[u8],
) -> Result<Vec<u8>, AllocError>
    ensures { IfOk result (λ lines. lines.items ≡ plan_lines fault text.now ++ notes.now) }
{
    let mut lines = plan_lines(alloc, fault, text)?;
    lines.extend_from_slice(notes)?;
    Ok(lines)
}

/// Answers with a text.
fn answer<R: Read, W: Write, E: Write>(
    streams: &mut Streams<R, W, E>,
    status: ExitStatus,
    text: &[u8],
) -> u8
    ensures { ReadsNothing (Answered result (number status) text.now) streams.old streams.new }
{
    match write_line(&mut streams.output, text) {
        Ok(()) => status.number(),
        Err(_) => streams.fail(Failure::Write),
    }
}
