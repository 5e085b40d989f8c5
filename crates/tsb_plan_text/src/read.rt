//! Plan texts.
ghost use Rattle.std.specs.Prelude.{◌≡◌, ◌<◌, ◌≤◌, ◌↔◌, ◌⊎◌, false, length, Ok, Err, IfOk};
ghost use Rattle.serde_json.specs.Errors.{IsMemory};
ghost use Rattle.serde_json.specs.View.{view, members_view};
ghost use Rattle.tsb_objects.specs.Checked.{checked_plan};
ghost use Rattle.tsb_plan.specs.Plan.{empty};
ghost use Rattle.tsb_plan.specs.PlanOf.{plan_of};
ghost use Rattle.tsb_plan_text.specs.PlanErrors.{Gives, Makes, MakesOf, not_json};
ghost use Rattle.tsb_plan_text.specs.PlanTextSays.{Says};
ghost use Rattle.tsb_plan_text.specs.TreeSize.{has_room};
ghost use Rattle.tsb_plan_text.specs.PlanText.{drafted, reading, data_plan, or_fault, with_object, with_member, with_members, data_of};

use crate::error::PlanError;
use crate::listed::Listed;
use crate::notes::{is_notes, read_notes};
use crate::numbers::version_of;
use crate::tree::has_room;
use serde_json::{Error, Map, Value};
use std::alloc::Global;
use tsb_objects::{Checked, Plan, Version, check};
use tsb_plan::version_laws::versions_say_the_same;

/// The greatest length of a plan text, in bytes.
pub const LIMIT: usize = 1_048_576;

/// The name of the member that gives the version.
const VERSION: &str = "version";

/// The plan that the text gives, checked.
///
/// An `Err` is the text's first fault, in the order of `PlanError`, or `Memory`, which may come in place of the plan
/// and of any fault but `TooLarge`. It always comes for a text of over 256 KiB whose tree would take over 64 MiB. Where
/// a member or an index comes twice in a table, the last counts.
#[inline(never)]
#[tactic(auto, unfolding(crate::specs::PlanText::reading))]
pub fn read_plan(alloc: Global, text: &[u8]) -> Result<Checked, PlanError>
    // The plan or the very fault that the text has, or `Memory`: so the only wrong bodies left are those that give up
    // with `Memory`, and none of them does so on a text that is too large.
    ensures reads { Gives checked_plan result (reading text.now) }

    // Each number that the text has for an object at an index is in the plan, at the index's place there, and
    // everything else is 0.
    ensures says { IfOk result (λ checked. Says text.now (checked_plan checked)) }

    // Whatever memory there is.
    ensures too_large { (result ≡ Err PlanError.TooLarge) ↔ (1048576 < length text.now) }

    // `Memory` comes for a text with too large a tree, also where there is memory for it.
    ensures heavy { length text.now ≤ 1048576 → has_room text.now ≡ false → result ≡ Err PlanError.Memory }
{
    if text.len() > LIMIT {
        return Err(PlanError::TooLarge);
    }
    versions_say_the_same();
    read_short(alloc, text)
}

/// The plan that the text gives, whether it meets the rules or not.
///
/// An `Err` is as that of `read_plan`, but never `Rule`.
#[tactic(auto, unfolding(crate::specs::PlanText::drafted))]
pub fn read_unchecked(alloc: Global, text: &[u8]) -> Result<Plan, PlanError>
    ensures reads { Gives plan_of result (drafted text.now) }
    ensures heavy { length text.now ≤ 1048576 → has_room text.now ≡ false → result ≡ Err PlanError.Memory }
{
    if text.len() > LIMIT {
        return Err(PlanError::TooLarge);
    }
    let mut plan = Plan::empty();
    read_json(alloc, text, &mut plan)?;
    Ok(plan)
}

/// The plan that a text of at most `LIMIT` bytes gives, checked.
#[inline(always)]
#[tactic(auto, unfolding(crate::specs::PlanText::reading, crate::specs::PlanText::checked))]
fn read_short(alloc: Global, text: &[u8]) -> Result<Checked, PlanError>
    requires { length text.now ≤ 1048576 }
    ensures reads { Gives checked_plan result (reading text.now) }
    ensures heavy { has_room text.now ≡ false → result ≡ Err PlanError.Memory }
{
    let mut plan = Plan::empty();
    read_json(alloc, text, &mut plan)?;
    check(&plan)?;
    Ok(Checked::known(plan))
}

/// Makes an empty plan the one that a text gives, whether it meets the rules or not.
fn read_json(alloc: Global, text: &[u8], plan: &mut Plan) -> Result<(), PlanError>
    requires { length text.now ≤ 1048576 }
    ensures makes { plan_of plan.old ≡ empty
        → Makes result (plan_of plan.new) (or_fault (data_of text.now) not_json data_plan) }
    ensures heavy { has_room text.now ≡ false → result ≡ Err PlanError.Memory }
{
    if !has_room(text) {
        return Err(PlanError::Memory);
    }
    let value = parse(alloc, text)?;
    read_value(alloc, &value, plan)
}

/// The text as JSON.
fn parse(alloc: Global, text: &[u8]) -> Result<Value, PlanError>
    ensures { Gives view result (or_fault (data_of text.now) not_json Ok) }
{
    match Value::from_slice(alloc, text) {
        Ok(value) => Ok(value),
        Err(error) => Err(json_fault(&error)),
    }
}

/// Why a text gives no JSON: `Memory` exactly where it ran out.
fn json_fault(error: &Error) -> PlanError
    ensures memory { (result ≡ PlanError.Memory) ↔ IsMemory error.now }
    ensures one { (result ≡ PlanError.Memory) ⊎ (result ≡ PlanError.NotJson) }
{
    if error.is_memory() {
        PlanError::Memory
    } else {
        PlanError::NotJson
    }
}

/// Makes an empty plan the one that the value gives. It runs out of memory only for the name or the index of a fault.
#[tactic(auto, unfolding(crate::specs::PlanText::data_plan))]
fn read_value(alloc: Global, value: &Value, plan: &mut Plan) -> Result<(), PlanError>
    ensures { plan_of plan.old ≡ empty → MakesOf result (plan_of plan.new) (data_plan (view value.now)) }
{
    let Some(members) = value.as_object() else {
        return Err(PlanError::NotATable);
    };
    let number = value.get(VERSION).and_then(Value::as_u64);
    let Some(version) = number.and_then(version_of) else {
        return Err(PlanError::Version);
    };
    read_members(alloc, version, members, plan)
}

/// Puts what each member gives into the plan.
fn read_members(
    alloc: Global,
    version: Version,
    members: &Map<String, Value>,
    plan: &mut Plan,
) -> Result<(), PlanError>
    ensures { MakesOf result (plan_of plan.new)
        (with_members version (members_view members.now.entries) (plan_of plan.old)) }
{
    for (name, value) in members.iter() {
        read_member(alloc, version, name.as_str(), value, plan)?;
    }
    Ok(())
}

/// Puts what a member gives into the plan.
#[tactic(auto, unfolding(crate::specs::PlanText::with_member))]
fn read_member(
    alloc: Global,
    version: Version,
    name: &str,
    value: &Value,
    plan: &mut Plan,
) -> Result<(), PlanError>
    ensures { MakesOf result (plan_of plan.new)
        (with_member version name.now (view value.now) (plan_of plan.old)) }
{
    if name == VERSION {
        return Ok(());
    }
    if is_notes(version, name) {
        return read_notes(alloc, value);
    }
    read_object(alloc, version, name, value, plan)
}

/// Puts what a member gives for an object into the plan.
#[tactic(auto, unfolding(crate::specs::PlanText::with_object))]
fn read_object(
    alloc: Global,
    version: Version,
    name: &str,
    value: &Value,
    plan: &mut Plan,
) -> Result<(), PlanError>
    ensures { MakesOf result (plan_of plan.new)
        (with_object version name.now (view value.now) (plan_of plan.old)) }
{
    let Some(listed) = Listed::named(version, name) else {
        let name = String::from_str(alloc, name)?;
        return Err(PlanError::NoSuchObject { name });
    };
    let Some(table) = value.as_object() else {
        return Err(PlanError::ObjectNotATable {
            object: listed.object(),
        });
    };
    listed.read_table(alloc, table, plan)
}
