//! Advices and breaches of rules, written.
#![tactic(auto, unfolding(tsb_plan::specs::PlanOf::plan_of))]

ghost use Rattle.std.specs.Prelude.{◌≡◌, ◌≤◌};
ghost use Rattle.tsb_plan.specs.PlanOf.{plan_of};
ghost use Rattle.tsb_review.specs.Places.{firsts, seconds};
ghost use Rattle.tsb_lines.specs.Seen.{seen};
ghost use Rattle.tsb_review_text.specs.Lines.{breaches_text, review_text};
ghost use Rattle.tsb_review_text.specs.Written.{Wrote, breach_line_in, line_at, line_in, shape_of, text_beside, text_from, text_of};

use crate::line::{Line, breach_line, line_of};
use std::io::Write;
use tsb_breaches::{Breach, RuleFault, breach_at};
use tsb_lines::{Watched, WriteError};
use tsb_plan::Plan;
use tsb_review::{Advice, Finding, Place, Shape, finding_at, place_of};

/// What has a line for each of its places: an advice, or a way to break a rule.
#[derive(Clone, Copy)]
enum Remark {
    /// An advice, at the places at which it holds.
    Advice(Advice),
    /// A way to break a rule, at the places at which the plan does.
    Breach(RuleFault),
}

/// Writes a line for each advice that holds of a part of the plan: advice by advice in order, and of each its places in
/// order, so each once. At an error the first bytes of the text may have gone out, and a write has failed. It takes no
/// memory.
///
/// The plan is meant to be one that meets the rules. Of any other it says the same by the same definitions.
pub fn write_review<W: Write>(plan: &Plan, output: &mut Watched<W>) -> Result<(), WriteError>
    ensures { Wrote result (seen W.contents output.old) (seen W.contents output.new) (review_text (plan_of plan.now)) }
{
    for advice in &Advice::ALL {
        match write_remark(plan, Remark::Advice(*advice), output) {
            Ok(()) => {}
            Err(fault) => return Err(fault),
        }
    }
    Ok(())
}

/// Writes a line for each place at which the plan breaks a rule: rule by rule in order, of each rule the ways to break it,
/// and of each way its places in order, so each once. At an error the first bytes of the text may have gone out,
/// and a write has failed. It takes no memory.
///
/// The plan is meant to be one that is refused by a rule: the first line is then of the rule that `check` names. Of a plan
/// that meets the rules nothing is written.
pub fn write_breaches<W: Write>(plan: &Plan, output: &mut Watched<W>) -> Result<(), WriteError>
    ensures { Wrote result (seen W.contents output.old) (seen W.contents output.new) (breaches_text (plan_of plan.now)) }
{
    for fault in &RuleFault::ALL {
        match write_remark(plan, Remark::Breach(*fault), output) {
            Ok(()) => {}
            Err(fault) => return Err(fault),
        }
    }
    Ok(())
}

/// The kind of the places of a remark.
fn shape_of(remark: Remark) -> Shape
    ensures { result ≡ shape_of remark }
{
    match remark {
        Remark::Advice(advice) => advice.shape(),
        Remark::Breach(fault) => fault.shape(),
    }
}

/// Writes the lines of a remark.
fn write_remark<W: Write>(
    plan: &Plan,
    remark: Remark,
    output: &mut Watched<W>,
) -> Result<(), WriteError>
    ensures { Wrote result (seen W.contents output.old) (seen W.contents output.new) (text_of (plan_of plan.now) remark) }
{
    let count = shape_of(remark).firsts();
    for first in 1..count + 1 {
        match write_from(plan, remark, first, output) {
            Ok(()) => {}
            Err(fault) => return Err(fault),
        }
    }
    Ok(())
}

/// Writes its lines for the places with this first number.
fn write_from<W: Write>(
    plan: &Plan,
    remark: Remark,
    first: u8,
    output: &mut Watched<W>,
) -> Result<(), WriteError>
    requires from { 1 ≤ first }
    requires to { first ≤ firsts (shape_of remark) }
    ensures { Wrote result (seen W.contents output.old) (seen W.contents output.new) (text_from (plan_of plan.now) remark first) }
{
    let count = shape_of(remark).seconds();
    for second in 1..count + 1 {
        match write_beside(plan, remark, first, second, output) {
            Ok(()) => {}
            Err(fault) => return Err(fault),
        }
    }
    Ok(())
}

/// Writes its lines for the places with these first two numbers.
fn write_beside<W: Write>(
    plan: &Plan,
    remark: Remark,
    first: u8,
    second: u8,
    output: &mut Watched<W>,
) -> Result<(), WriteError>
    requires first_from { 1 ≤ first }
    requires first_to { first ≤ firsts (shape_of remark) }
    requires second_from { 1 ≤ second }
    requires second_to { second ≤ seconds (shape_of remark) }
    ensures { Wrote result (seen W.contents output.old) (seen W.contents output.new) (text_beside (plan_of plan.now) remark first second) }
{
    let shape = shape_of(remark);
    let count = shape.thirds();
    for third in 1..count + 1 {
        match write_at(plan, remark, place_of(shape, first, second, third), output) {
            Ok(()) => {}
            Err(fault) => return Err(fault),
        }
    }
    Ok(())
}

/// Writes its line for the place, where there is one.
fn write_at<W: Write>(
    plan: &Plan,
    remark: Remark,
    place: Place,
    output: &mut Watched<W>,
) -> Result<(), WriteError>
    ensures { Wrote result (seen W.contents output.old) (seen W.contents output.new) (line_at (plan_of plan.now) remark place) }
{
    let line = line_at(plan, remark, place);
    output.write_text(line.as_bytes())
}

/// Its line for the place, and nothing where there is none.
fn line_at(plan: &Plan, remark: Remark, place: Place) -> Line
    ensures { result ≡ line_at (plan_of plan.now) remark place }
{
    match remark {
        Remark::Advice(advice) => line_in(plan, finding_at(plan, advice, place)),
        Remark::Breach(fault) => breach_line_in(plan, breach_at(plan, fault, place)),
    }
}

/// The line of a finding, and nothing where there is none.
fn line_in(plan: &Plan, finding: Option<Finding>) -> Line
    ensures { result ≡ line_in (plan_of plan.now) finding }
{
    match finding {
        Some(finding) => line_of(plan, &finding),
        None => Line::new(),
    }
}

/// The line of a breach, and nothing where there is none.
fn breach_line_in(plan: &Plan, breach: Option<Breach>) -> Line
    ensures { result ≡ breach_line_in (plan_of plan.now) breach }
{
    match breach {
        Some(breach) => breach_line(plan, &breach),
        None => Line::new(),
    }
}
