//! The notes on a text.
ghost use Rattle.std.specs.Prelude.{◌≡◌, ◌++◌, [], Err, IfOk, IsOk, MatchResult, OnOk};
ghost use Rattle.json.specs.declared.error.Error.TheVariants.{Invalid};
ghost use Rattle.json.specs.Tree.{HasNumbers, MembersHaveNumbers};
ghost use Rattle.json.specs.Value.{members_view, value_view};
ghost use Rattle.tsb_plan.specs.declared.version.TheConstants.Version.{NEWEST};
ghost use Rattle.tsb_plan.specs.Names.{object_named};
ghost use Rattle.tsb_plan_notes.specs.Notes.{member_note, members_notes, next_of, notes_of, twice_note, value_notes, versed_note};

use crate::entries::{add_table, next_of};
use crate::lines::{add_name, add_twice};
use crate::newer::{add_newer, version_of};
use json::{Error, Scratch, Value};
use std::alloc::{AllocError, Global};
use tsb_plan::{Object, Version};

/// The name of the member that gives the version.
pub(crate) const VERSION: &str = "version";

/// The name of the member that has the notes of a plan, in the newest version.
pub(crate) const NOTES: &str = "notes";

/// What is noted of a plan text: a line, with its line feed, for each member or index that comes again later in its
/// table, with both values, of which the last counts; one for each value that is no whole number, with its unit; one for
/// each value or index out of range, with the range; one for each name that no object has, with the object that was
/// perhaps meant; and one for each name that a later version than that of the text has. The error is that memory ran out.
///
/// A text that is no JSON in UTF-8 has no notes. Names and ranges are those of the newest version. An index that an
/// earlier version has not is noted in a text of that version.
pub fn notes(alloc: Global, text: &[u8]) -> Result<Vec<u8>, AllocError>
    ensures { IfOk result (λ notes. notes.items ≡ notes_of text.now) }
{
    let mut scratch = Scratch::new(alloc);
    let read = Value::from_slice(alloc, text, &mut scratch);
    notes_read(alloc, &read)
}

/// What is noted of a text that was read so: nothing of one that is no JSON, which no error of this call ever answers.
fn notes_read(alloc: Global, read: &Result<Value<'_>, Error>) -> Result<Vec<u8>, AllocError>
    requires { IfOk read.now (λ value. HasNumbers (value_view value)) }
    ensures notes { IfOk result (λ notes. MatchResult read.now (λ value. notes.items ≡ value_notes (value_view value))
        (λ fault. (fault ≡ Invalid) × (notes.items ≡ []))) }
    ensures fault { read.now ≡ Err Invalid → IsOk result }
{
    match read {
        Ok(value) => notes_on(alloc, value),
        Err(Error::Invalid) => Ok(Vec::new(alloc)),
        // Memory ran out. There is no other error of a reader of JSON texts.
        Err(_) => Err(AllocError),
    }
}

/// What is noted of a value.
fn notes_on(alloc: Global, value: &Value<'_>) -> Result<Vec<u8>, AllocError>
    requires { HasNumbers (value_view value.now) }
    ensures { IfOk result (λ notes. notes.items ≡ value_notes (value_view value.now)) }
{
    let mut notes = Vec::new(alloc);
    if let Value::Object(members) = value {
        add_members(alloc, version_of(value), members.as_slice(), &mut notes)?;
    }
    Ok(notes)
}

/// Adds what is noted of the members of a text of this version.
fn add_members<'a>(
    alloc: Global,
    version: Option<Version>,
    members: &[(&'a str, Value<'a>)],
    notes: &mut Vec<u8>,
) -> Result<(), AllocError>
    requires { MembersHaveNumbers (members_view members.now) }
    ensures { OnOk result (notes.new.items ≡ notes.old.items ++ members_notes version (members_view members.now)) }
{
    for at in 0..members.len() {
        add_versed(alloc, version, &members[at], &members[at + 1..], notes)?;
    }
    Ok(())
}

/// Adds what is noted of a member with its value, before these, in a text of this version.
fn add_versed<'a>(
    alloc: Global,
    version: Option<Version>,
    member: &(&'a str, Value<'a>),
    later: &[(&'a str, Value<'a>)],
    notes: &mut Vec<u8>,
) -> Result<(), AllocError>
    requires value { HasNumbers (value_view member.now.1) }
    requires later { MembersHaveNumbers (members_view later.now) }
    ensures { OnOk result (notes.new.items
        ≡ notes.old.items ++ versed_note version (object_named NEWEST member.now.0.now) member.now.0.now (value_view member.now.1) (members_view later.now)) }
{
    add_newer(version, member.0, notes)?;
    add_member(alloc, version, member, later, notes)
}

/// Adds what is noted of a member with its value, before these.
fn add_member<'a>(
    alloc: Global,
    version: Option<Version>,
    member: &(&'a str, Value<'a>),
    later: &[(&'a str, Value<'a>)],
    notes: &mut Vec<u8>,
) -> Result<(), AllocError>
    requires value { HasNumbers (value_view member.now.1) }
    requires later { MembersHaveNumbers (members_view later.now) }
    ensures { OnOk result (notes.new.items ≡ notes.old.items
        ++ member_note version (object_named NEWEST member.now.0.now) member.now.0.now (value_view member.now.1) (members_view later.now)) }
{
    let name = member.0;
    match Object::named(Version::NEWEST, name) {
        Some(object) => {
            add_again(alloc, name, &member.1, later, notes)?;
            add_table(alloc, version, object, &member.1, notes)
        }
        None => {
            if name != VERSION && name != NOTES {
                return add_name(name, notes);
            }
            add_again(alloc, name, &member.1, later, notes)
        }
    }
}

/// Adds that a name comes again, where it does.
fn add_again<'a>(
    alloc: Global,
    name: &str,
    value: &Value<'_>,
    later: &[(&'a str, Value<'a>)],
    notes: &mut Vec<u8>,
) -> Result<(), AllocError>
    requires value { HasNumbers (value_view value.now) }
    requires later { MembersHaveNumbers (members_view later.now) }
    ensures { OnOk result (notes.new.items
        ≡ notes.old.items ++ twice_note name.now (value_view value.now) (next_of name.now (members_view later.now))) }
{
    match next_of(name, later) {
        Some(again) => add_twice(alloc, name.as_bytes(), value, again, notes),
        None => Ok(()),
    }
}
