//! The entries of an object's table.
ghost use Rattle.std.specs.Prelude.{◌≡◌, ◌++◌, OnOk, Some, option_map};
ghost use Rattle.json.specs.Tree.{HasNumbers, MembersHaveNumbers};
ghost use Rattle.json.specs.Value.{members_view, value_view};
ghost use Rattle.tsb_plan_notes.specs.Notes.{entries_notes, entry_note, next_of, no_index_note, path_of, table_notes, twice_note, value_note};
ghost use Rattle.tsb_plan_notes.specs.Newer.{indices_noted};
ghost use Rattle.tsb_plan_notes.specs.Parts.{is_index, whole_of};

use crate::lines::{add_index, add_over, add_twice, add_unit, path_of};
use crate::newer::{add_newer_index, indices_in};
use crate::numbers::{is_index, whole_of};
use json::Value;
use std::alloc::{AllocError, Global};
use tsb_plan::{Object, Version};

/// The first of these members that has this name.
pub(crate) fn next_of<'v, 'a>(
    name: &str,
    members: &'v [(&'a str, Value<'a>)],
) -> Option<&'v Value<'a>>
    ensures { option_map (λ value. value_view value.now) result ≡ next_of name.now (members_view members.now) }
{
    for member in members {
        if member.0 == name {
            return Some(&member.1);
        }
    }
    None
}

/// Adds what is noted of what the text gives for an object.
pub(crate) fn add_table(
    alloc: Global,
    version: Option<Version>,
    object: Object,
    value: &Value<'_>,
    notes: &mut Vec<u8>,
) -> Result<(), AllocError>
    requires { HasNumbers (value_view value.now) }
    ensures { OnOk result (notes.new.items ≡ notes.old.items ++ table_notes version object (value_view value.now)) }
{
    match value {
        Value::Object(entries) => add_entries(alloc, version, object, entries.as_slice(), notes),
        _ => Ok(()),
    }
}

/// Adds what is noted of the entries of a table.
fn add_entries<'a>(
    alloc: Global,
    version: Option<Version>,
    object: Object,
    entries: &[(&'a str, Value<'a>)],
    notes: &mut Vec<u8>,
) -> Result<(), AllocError>
    requires { MembersHaveNumbers (members_view entries.now) }
    ensures { OnOk result (notes.new.items ≡ notes.old.items ++ entries_notes version object (members_view entries.now)) }
{
    for at in 0..entries.len() {
        add_entry(
            alloc,
            version,
            object,
            &entries[at],
            &entries[at + 1..],
            notes,
        )?;
    }
    Ok(())
}

/// Adds what is noted of an index with its value, before these.
fn add_entry<'a>(
    alloc: Global,
    version: Option<Version>,
    object: Object,
    entry: &(&'a str, Value<'a>),
    later: &[(&'a str, Value<'a>)],
    notes: &mut Vec<u8>,
) -> Result<(), AllocError>
    requires value { HasNumbers (value_view entry.now.1) }
    requires later { MembersHaveNumbers (members_view later.now) }
    ensures { OnOk result (notes.new.items ≡ notes.old.items
        ++ entry_note (is_index (indices_noted version object) entry.now.0.now) version object entry.now.0.now (value_view entry.now.1) (members_view later.now)) }
{
    let index = entry.0;
    if !is_index(indices_in(version, object), index) {
        return add_no_index(alloc, version, object, index, notes);
    }
    add_again(alloc, object, index, &entry.1, later, notes)?;
    add_value_note(alloc, object, index, &entry.1, notes)
}

/// Adds that a text of this version has no such index: that the newest version has it, or that none has.
fn add_no_index(
    alloc: Global,
    version: Option<Version>,
    object: Object,
    index: &str,
    notes: &mut Vec<u8>,
) -> Result<(), AllocError>
    ensures { OnOk result (notes.new.items ≡ notes.old.items ++ no_index_note version object index.now) }
{
    if is_index(object.indices(), index) {
        return add_newer_index(alloc, version, object, index, notes);
    }
    add_index(alloc, indices_in(version, object), object, index, notes)
}

/// Adds that an index comes again, where it does.
fn add_again<'a>(
    alloc: Global,
    object: Object,
    index: &str,
    value: &Value<'_>,
    later: &[(&'a str, Value<'a>)],
    notes: &mut Vec<u8>,
) -> Result<(), AllocError>
    requires value { HasNumbers (value_view value.now) }
    requires later { MembersHaveNumbers (members_view later.now) }
    ensures { OnOk result (notes.new.items
        ≡ notes.old.items ++ twice_note (path_of object index.now) (value_view value.now) (next_of index.now (members_view later.now))) }
{
    match next_of(index, later) {
        Some(again) => add_twice_at(alloc, object, index, value, again, notes),
        None => Ok(()),
    }
}

/// Adds that an index comes again, with both values.
fn add_twice_at(
    alloc: Global,
    object: Object,
    index: &str,
    value: &Value<'_>,
    again: &Value<'_>,
    notes: &mut Vec<u8>,
) -> Result<(), AllocError>
    requires first { HasNumbers (value_view value.now) }
    requires second { HasNumbers (value_view again.now) }
    ensures { OnOk result (notes.new.items ≡ notes.old.items
        ++ twice_note (path_of object index.now) (value_view value.now) (Some (value_view again.now))) }
{
    let path = path_of(alloc, object, index)?;
    add_twice(alloc, &path, value, again, notes)
}

/// Adds the fault of a value that is no whole number or is out of range.
fn add_value_note(
    alloc: Global,
    object: Object,
    index: &str,
    value: &Value<'_>,
    notes: &mut Vec<u8>,
) -> Result<(), AllocError>
    requires { HasNumbers (value_view value.now) }
    ensures { OnOk result (notes.new.items
        ≡ notes.old.items ++ value_note (whole_of (value_view value.now)) object index.now (value_view value.now)) }
{
    match whole_of(value) {
        Some(number) => {
            if number <= object.greatest() {
                return Ok(());
            }
            add_over(alloc, object, index, value, notes)
        }
        None => add_unit(alloc, object, index, value, notes),
    }
}
