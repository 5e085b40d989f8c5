//! The lines of a worksheet.
#![tactic(auto, unfolding(tsb_plan::specs::PlanOf::plan_of))]

ghost use Rattle.std.specs.Prelude.{◌≡◌, ◌≤◌, ◌++◌, Some, length};
ghost use Rattle.tsb_plan.specs.PlanOf.{plan_of};
ghost use Rattle.tsb_lines.specs.Seen.{seen};
ghost use Rattle.tsb_lines.specs.ShortLines.{AddsShort};
ghost use Rattle.tsb_review_text.specs.Worksheet.{crossing_text, entry_line, force_off_text, margin_text, pattern_text, patterns_text, preempt_text, preempts_text, share_line, share_text, time_text, worksheet_text};
ghost use Rattle.tsb_review_text.specs.Written.{Wrote};

use std::io::Write;
use tsb_lines::{ShortLine, Watched, WriteError};
use tsb_plan::Plan;
use tsb_review::{SplitShare, entry_of, share_of};
use tsb_types::{Pattern, Phase, Preempt};

/// The most bytes that there is room for in a line, with its line feed.
const ROW: usize = 256;

/// The bytes of a line.
type Row = ShortLine<ROW>;

/// Writes the worksheet of a plan: a line for each preempt that is ever served, with its delay and its longest entry, and
/// for each used pattern one for each phase that it serves. That has its split, the green of the split, its force-off
/// instant, and where it has a walk what walk and clearance take and what the green has over them. Times are in seconds.
/// At an error the first bytes of the text may have gone out, and a write has failed. It takes no memory.
pub fn write_worksheet<W: Write>(plan: &Plan, output: &mut Watched<W>) -> Result<(), WriteError>
    ensures { Wrote result (seen W.contents output.old) (seen W.contents output.new) (worksheet_text (plan_of plan.now)) }
{
    match write_preempts(plan, output) {
        Ok(()) => write_patterns(plan, output),
        Err(fault) => Err(fault),
    }
}

/// Writes the lines of preempts.
fn write_preempts<W: Write>(plan: &Plan, output: &mut Watched<W>) -> Result<(), WriteError>
    ensures { Wrote result (seen W.contents output.old) (seen W.contents output.new) (preempts_text (plan_of plan.now)) }
{
    let preempts = Preempt::all();
    for preempt in &preempts {
        match write_preempt(plan, *preempt, output) {
            Ok(()) => {}
            Err(fault) => return Err(fault),
        }
    }
    Ok(())
}

/// Writes the line of a preempt, where it is ever served.
fn write_preempt<W: Write>(
    plan: &Plan,
    preempt: Preempt,
    output: &mut Watched<W>,
) -> Result<(), WriteError>
    ensures { Wrote result (seen W.contents output.old) (seen W.contents output.new) (preempt_text (plan_of plan.now) preempt) }
{
    let line = preempt_line(plan, preempt);
    output.write_text(line.as_bytes())
}

/// That line, and nothing where it never is.
fn preempt_line(plan: &Plan, preempt: Preempt) -> Row
    ensures { result ≡ preempt_text (plan_of plan.now) preempt }
{
    match entry_of(plan, preempt) {
        Some(entry) => entry_line(
            u32::from(preempt.number()),
            plan.preempt_delay(preempt),
            entry,
        ),
        None => Row::new(),
    }
}

/// The line of a preempt with this delay and this longest entry.
fn entry_line(preempt: u32, delay: u32, entry: u32) -> Row
    ensures { result ≡ entry_line preempt delay entry }
{
    let mut line = Row::new();
    line.push(b"preempt ");
    line.push_number(preempt);
    line.push(b": delay ");
    push_time(&mut line, delay);
    line.push(b" s, longest entry ");
    push_time(&mut line, entry);
    line.push(b" s\n");
    line
}

/// Writes the lines of patterns.
fn write_patterns<W: Write>(plan: &Plan, output: &mut Watched<W>) -> Result<(), WriteError>
    ensures { Wrote result (seen W.contents output.old) (seen W.contents output.new) (patterns_text (plan_of plan.now)) }
{
    let patterns = Pattern::all();
    for pattern in &patterns {
        match write_pattern(plan, *pattern, output) {
            Ok(()) => {}
            Err(fault) => return Err(fault),
        }
    }
    Ok(())
}

/// Writes the lines of a pattern.
fn write_pattern<W: Write>(
    plan: &Plan,
    pattern: Pattern,
    output: &mut Watched<W>,
) -> Result<(), WriteError>
    ensures { Wrote result (seen W.contents output.old) (seen W.contents output.new) (pattern_text (plan_of plan.now) pattern) }
{
    let phases = Phase::all();
    for phase in &phases {
        match write_share(plan, pattern, *phase, output) {
            Ok(()) => {}
            Err(fault) => return Err(fault),
        }
    }
    Ok(())
}

/// Writes the line of a phase in a pattern, where this serves it.
fn write_share<W: Write>(
    plan: &Plan,
    pattern: Pattern,
    phase: Phase,
    output: &mut Watched<W>,
) -> Result<(), WriteError>
    ensures { Wrote result (seen W.contents output.old) (seen W.contents output.new) (share_text (plan_of plan.now) pattern phase) }
{
    let line = phase_line(plan, pattern, phase);
    output.write_text(line.as_bytes())
}

/// That line, and nothing where it does not.
fn phase_line(plan: &Plan, pattern: Pattern, phase: Phase) -> Row
    ensures { result ≡ share_text (plan_of plan.now) pattern phase }
{
    match share_of(plan, pattern, phase) {
        Some(share) => share_line(
            u32::from(pattern.number()),
            u32::from(phase.number()),
            &share,
        ),
        None => Row::new(),
    }
}

/// The line of a phase that has this share.
fn share_line(pattern: u32, phase: u32, share: &SplitShare) -> Row
    ensures { result ≡ share_line pattern phase share.now }
{
    let mut line = Row::new();
    line.push(b"pattern ");
    line.push_number(pattern);
    line.push(b", phase ");
    line.push_number(phase);
    line.push(b": split ");
    push_time(&mut line, share.split);
    line.push(b" s, green ");
    push_time(&mut line, share.green);
    push_force_off(&mut line, share.force_off);
    push_crossing(&mut line, share.green, share.crossing);
    line.push(b" s\n");
    line
}

/// Adds the force-off instant, where there is one.
fn push_force_off(line: &mut Row, instant: Option<u32>)
    ensures { AddsShort ROW 38 line.old (force_off_text instant) line.new }
{
    match instant {
        Some(instant) => push_named(line, b" s, force-off at ", instant),
        None => line.push(b""),
    }
}

/// Adds a name and a time.
fn push_named(line: &mut Row, name: &[u8], tenths: u32)
    requires { length name.now ≤ 17 }
    ensures { AddsShort ROW 38 line.old (name.now ++ time_text tenths) line.new }
{
    line.push(name);
    push_time(line, tenths);
}

/// Adds walk and clearance, where there is a crossing, and what this green has over them.
fn push_crossing(line: &mut Row, green: u32, crossing: Option<u32>)
    ensures { AddsShort ROW 77 line.old (crossing_text green crossing) line.new }
{
    match crossing {
        Some(time) => push_time_and_margin(line, green, time),
        None => line.push(b""),
    }
}

/// Adds walk and clearance, and what this green has over them.
fn push_time_and_margin(line: &mut Row, green: u32, time: u32)
    ensures { AddsShort ROW 77 line.old (crossing_text green (Some time)) line.new }
{
    line.push(b" s, walk and clearance ");
    push_time(line, time);
    line.push(b" s, margin ");
    push_margin(line, green, time);
}

/// Adds what a green has over a time, with a minus where it has less.
fn push_margin(line: &mut Row, green: u32, time: u32)
    ensures { AddsShort ROW 22 line.old (margin_text green time) line.new }
{
    if time <= green {
        push_time(line, green - time);
    } else {
        line.push(b"-");
        push_time(line, time - green);
    }
}

/// Adds a time in tenths of a second as seconds with their tenth.
fn push_time(line: &mut Row, tenths: u32)
    ensures { AddsShort ROW 21 line.old (time_text tenths) line.new }
{
    line.push_number(tenths / 10);
    line.push(b".");
    line.push_number(tenths % 10);
}
