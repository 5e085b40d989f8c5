//! The line of a plan.
ghost use Rattle.std.specs.List.{list_all};
ghost use Rattle.std.specs.Prelude.{◌≡◌, ◌==◌, ◌&&◌, ◌||◌, ◌++◌, nat_le, true, IfOk, None, Ok, OnOk};
ghost use Rattle.json.specs.Json.{Members, object};
ghost use Rattle.json.specs.Tree.{json_tokens, members_tokens};
ghost use Rattle.tsb_objects.specs.tsb_rules.Rules.{first_broken};
ghost use Rattle.tsb_plan.specs.declared.version.Version.TheVariants.{Two};
ghost use Rattle.tsb_plan.specs.Objects.{has_index};
ghost use Rattle.tsb_plan.specs.PlanOf.{plan_of};
ghost use Rattle.tsb_plan.specs.Versions.{greatest_in, has_index_in};
ghost use Rattle.tsb_plan_text.specs.PlanText.{reading};
ghost use Rattle.tsb_status_text.specs.PlanLine.{fits_version_2, is_all_zeros, is_of_version_2, members_of, plan_text, table, version_for, with_entry, with_object};

use crate::laws::lines_are_read_back;
use itoa::Buffer;
use json::Writer;
use std::alloc::{AllocError, Global};
use tsb_objects::{Object, Plan, Version};

/// The name of the member that gives the version.
const VERSION: &str = "version";

/// The plan as one plan text, without spaces and without a line feed. The text is of version 2 where that has each index at
/// which an object is not 0, up to its value there; else it is of version 3.
///
/// `version` comes first, then each object that is not all zeros, in the order of `Object::ALL`, and of each object the
/// indices at which it is not 0, in ascending order. So two plans are the same exactly where their lines are. An `Err`
/// says that there is no memory for it.
pub fn plan_line(alloc: Global, plan: &Plan) -> Result<Vec<u8>, AllocError>
    ensures line { IfOk result (λ line. line.items ≡ plan_text (plan_of plan.now)) }

    // A plan in effect breaks no rule, so its line is read as that plan.
    ensures reads_back { first_broken (plan_of plan.now) ≡ None
        → IfOk result (λ line. reading line.items ≡ Ok (plan_of plan.now)) }
{
    lines_are_read_back();
    let mut writer = Writer::new(Vec::new(alloc));
    writer.begin_object()?;
    writer.key(VERSION)?;
    writer.u64(u64::from(version_for(plan).number()))?;
    write_objects(&mut writer, plan, &Object::ALL)?;
    Ok(writer.into_inner())
}

/// The version of the text.
fn version_for(plan: &Plan) -> Version
    ensures { result ≡ version_for (plan_of plan.now) }
{
    if all_fit_version_2(plan, &Object::ALL) {
        Version::Two
    } else {
        Version::Three
    }
}

/// Whether version 2 has each index at which one of these objects is not 0, up to its value there.
fn all_fit_version_2(plan: &Plan, objects: &[Object]) -> bool
    ensures { result ≡ list_all (fits_version_2 (plan_of plan.now)) objects.now }
{
    objects.iter().all(|object| fits_version_2(plan, *object))
}

/// Whether version 2 has each index at which the object is not 0, up to its value there.
#[tactic(auto, unfolding(crate::specs::PlanLine::fits_version_2))]
fn fits_version_2(plan: &Plan, object: Object) -> bool
    ensures { result ≡ fits_version_2 (plan_of plan.now) object }
{
    for index in 1..object.indices() + 1 {
        if !is_told(plan, object, index) {
            return false;
        }
    }
    true
}

/// Whether the object is 0 at the index, or version 2 has it there, up to its value.
fn is_told(plan: &Plan, object: Object, index: u32) -> bool
    requires { has_index object index ≡ true }
    ensures { result ≡ ((plan_of plan.now).value object index == 0 || is_of_version_2 (plan_of plan.now) object index) }
{
    plan.at(object, index) == 0 || is_in_version_2(object, index, plan.at(object, index))
}

/// Whether version 2 has the object at the index, up to the value.
fn is_in_version_2(object: Object, index: u32, value: u32) -> bool
    requires { has_index object index ≡ true }
    ensures { result ≡ (has_index_in Two object index && nat_le value (greatest_in Two object)) }
{
    match object.range_in(Version::Two) {
        Some(range) => index <= range.indices && value <= range.greatest,
        None => false,
    }
}

/// Writes those of these objects that are not all zeros, each with its table, and closes what they are of.
fn write_objects(writer: &mut Writer, plan: &Plan, objects: &[Object]) -> Result<(), AllocError>
    ensures before { writer.new.before ≡ writer.old.before }
    ensures tokens { OnOk result (writer.new.tokens
        ≡ writer.old.tokens ++ members_tokens (members_of (plan_of plan.now) objects.now)) }
{
    for object in objects {
        write_object(writer, plan, *object)?;
    }
    writer.end_object()
}

/// Writes an object with its table, unless it is all zeros.
#[tactic(auto, unfolding(crate::specs::PlanLine::with_object))]
fn write_object(writer: &mut Writer, plan: &Plan, object: Object) -> Result<(), AllocError>
    ensures before { writer.new.before ≡ writer.old.before }
    ensures tokens { OnOk result ((rest : Members) → writer.new.tokens ++ members_tokens rest
        ≡ writer.old.tokens ++ members_tokens (with_object (plan_of plan.now) object rest)) }
{
    if is_all_zeros(plan, object) {
        return Ok(());
    }
    writer.key(object.name())?;
    write_table(writer, plan, object)
}

/// Whether the object is 0 at each of its indices.
#[tactic(auto, unfolding(crate::specs::PlanLine::is_all_zeros))]
fn is_all_zeros(plan: &Plan, object: Object) -> bool
    ensures { result ≡ is_all_zeros (plan_of plan.now) object }
{
    for index in 1..object.indices() + 1 {
        if plan.at(object, index) != 0 {
            return false;
        }
    }
    true
}

/// Writes the table of an object.
#[tactic(auto, unfolding(crate::specs::PlanLine::table))]
fn write_table(writer: &mut Writer, plan: &Plan, of: Object) -> Result<(), AllocError>
    ensures before { writer.new.before ≡ writer.old.before }
    ensures tokens { OnOk result (writer.new.tokens ≡ writer.old.tokens ++ json_tokens (object (table (plan_of plan.now) of))) }
{
    writer.begin_object()?;
    for index in 1..of.indices() + 1 {
        write_entry(writer, index, plan.at(of, index))?;
    }
    writer.end_object()
}

/// Writes the value at an index, unless it is 0.
fn write_entry(writer: &mut Writer, index: u32, value: u32) -> Result<(), AllocError>
    ensures before { writer.new.before ≡ writer.old.before }
    ensures tokens { OnOk result ((rest : Members) → writer.new.tokens ++ members_tokens rest
        ≡ writer.old.tokens ++ members_tokens (with_entry index value rest)) }
{
    if value == 0 {
        return Ok(());
    }
    let mut buffer = Buffer::new();
    writer.key(buffer.format(index))?;
    writer.u64(u64::from(value))
}
