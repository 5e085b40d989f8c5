//! Names that a later version of plan texts has, and the one that a text says it is of has not.
ghost use Rattle.std.specs.Prelude.{◌≡◌, ◌++◌, OnOk, codes, option_and_then, option_map};
ghost use Rattle.json.specs.Find.{get};
ghost use Rattle.json.specs.Value.{value_view};
ghost use Rattle.tsb_plan.specs.declared.version.TheConstants.Version.{NEWEST};
ghost use Rattle.tsb_plan.specs.Names.{object_named};
ghost use Rattle.tsb_plan.specs.declared.version.Version.TheVariants.{Three};
ghost use Rattle.tsb_plan_notes.specs.Notes.{path_of};
ghost use Rattle.tsb_plan_notes.specs.Newer.{indices_noted, newer_end, newer_line, newer_note, numbered, since_of, version_of};
ghost use Rattle.tsb_plan_notes.specs.Parts.{whole_of};

use crate::lines::path_of;
use crate::numbers::whole_of;
use crate::text::{NOTES, VERSION};
use json::Value;
use std::alloc::{AllocError, Global};
use tsb_plan::{Object, Version};

/// The version that a text says it is of, where it does.
pub(crate) fn version_of(text: &Value<'_>) -> Option<Version>
    ensures { result ≡ version_of (value_view text.now) }
{
    match number_in(text.get(VERSION)) {
        Some(number) => numbered(number),
        None => None,
    }
}

/// The whole number that a value is, where there is one.
fn number_in(value: Option<&Value<'_>>) -> Option<u32>
    ensures { result ≡ option_and_then whole_of (option_map (λ value. value_view value.now) value.entry) }
{
    match value {
        Some(value) => whole_of(value),
        None => None,
    }
}

/// The version that has a number.
fn numbered(number: u32) -> Option<Version>
    ensures { result ≡ numbered number }
{
    match number {
        1 => Some(Version::One),
        2 => Some(Version::Two),
        3 => Some(Version::Three),
        _ => None,
    }
}

/// Adds that a later version has a name, where the version of a text has it not.
pub(crate) fn add_newer(
    version: Option<Version>,
    name: &str,
    notes: &mut Vec<u8>,
) -> Result<(), AllocError>
    ensures { OnOk result (notes.new.items ≡ notes.old.items ++ newer_note version (object_named NEWEST name.now) name.now) }
{
    let since = since_of(Object::named(Version::NEWEST, name), name);
    add_newer_line(name, newer_end(version, since), notes)
}

/// Since which version there is a name, which is that of this object or of none.
fn since_of(object: Option<Object>, name: &str) -> Version
    ensures { result ≡ since_of object name.now }
{
    match object {
        Some(object) => object.since(),
        None if name == NOTES => Version::Three,
        None => Version::One,
    }
}

/// Adds the line of a name with this end, where it has one.
fn add_newer_line(
    name: &str,
    end: Option<&'static [u8]>,
    notes: &mut Vec<u8>,
) -> Result<(), AllocError>
    ensures { OnOk result (notes.new.items ≡ notes.old.items ++ newer_line name.now (option_map (λ end. end.now) end.entry)) }
{
    let Some(end) = end else {
        return Ok(());
    };
    notes.extend_from_slice(name.as_bytes())?;
    notes.extend_from_slice(end)
}

/// How many indices an object has in a text of this version: where the version has no such object, as many as in the
/// newest.
pub(crate) fn indices_in(version: Option<Version>, object: Object) -> u32
    ensures { result ≡ indices_noted version object }
{
    match version {
        None | Some(Version::Three) => object.indices(),
        Some(_) => match object.range_in(Version::Two) {
            Some(range) => range.indices,
            None => object.indices(),
        },
    }
}

/// Adds that the newest version has an index, where the version of a text has it not.
pub(crate) fn add_newer_index(
    alloc: Global,
    version: Option<Version>,
    object: Object,
    index: &str,
    notes: &mut Vec<u8>,
) -> Result<(), AllocError>
    ensures { OnOk result (notes.new.items ≡ notes.old.items ++ newer_line (path_of object index.now) (newer_end version Three)) }
{
    let Some(end) = newer_end(version, Version::Three) else {
        return Ok(());
    };
    let path = path_of(alloc, object, index)?;
    notes.extend_from_slice(&path)?;
    notes.extend_from_slice(end)
}

/// What a line says of a name that there is since a version, where a text is of an earlier one.
fn newer_end(version: Option<Version>, since: Version) -> Option<&'static [u8]>
    ensures { option_map (λ end. end.now) result ≡ newer_end version since }
{
    match (version, since) {
        (Some(Version::One), Version::Two) => {
            Some(b": version 2 has it, and this text is of version 1\n")
        }
        (Some(Version::One), Version::Three) => {
            Some(b": version 3 has it, and this text is of version 1\n")
        }
        (Some(Version::Two), Version::Three) => {
            Some(b": version 3 has it, and this text is of version 2\n")
        }
        _ => None,
    }
}
