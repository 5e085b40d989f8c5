//! The lines of notes.
ghost use Rattle.std.specs.Prelude.{◌≡◌, ◌++◌, IfOk, OnOk, Some};
ghost use Rattle.json.specs.Tree.{HasNumbers};
ghost use Rattle.json.specs.Value.{value_view};
ghost use Rattle.tsb_plan_notes.specs.Near.{near_object};
ghost use Rattle.tsb_plan_notes.specs.Notes.{fault_text, fault_words, greatest_end, index_note, meant_text, name_note, near_end, near_text, over_note, over_text, path_of, range_end, right_text, shown, twice_note, unit_end, unit_note};

use crate::near::near_object;
use crate::numbers::{fault_words, meant};
use crate::units::{Unit, unit_of, unit_text};
use itoa::Buffer;
use json::{Value, to_vec};
use std::alloc::{AllocError, Global};
use tsb_plan::Object;

/// Adds that a name comes again, with both values.
pub(crate) fn add_twice(
    alloc: Global,
    path: &[u8],
    value: &Value<'_>,
    again: &Value<'_>,
    notes: &mut Vec<u8>,
) -> Result<(), AllocError>
    requires first { HasNumbers (value_view value.now) }
    requires second { HasNumbers (value_view again.now) }
    ensures { OnOk result (notes.new.items
        ≡ notes.old.items ++ twice_note path.now (value_view value.now) (Some (value_view again.now))) }
{
    notes.extend_from_slice(path)?;
    notes.extend_from_slice(b": it stands twice, as ")?;
    add_value(alloc, value, notes)?;
    notes.extend_from_slice(b" and as ")?;
    add_value(alloc, again, notes)?;
    notes.extend_from_slice(b", and the last one counts\n")
}

/// Adds a value, as JSON without spaces.
fn add_value(alloc: Global, value: &Value<'_>, notes: &mut Vec<u8>) -> Result<(), AllocError>
    requires { HasNumbers (value_view value.now) }
    ensures { OnOk result (notes.new.items ≡ notes.old.items ++ shown (value_view value.now)) }
{
    let text = to_vec(alloc, value)?;
    notes.extend_from_slice(&text)
}

/// An object's index, as lines have it.
#[tactic(auto, unfolding(crate::specs::Notes::path_of))]
pub(crate) fn path_of(alloc: Global, object: Object, index: &str) -> Result<Vec<u8>, AllocError>
    ensures { IfOk result (λ path. path.items ≡ path_of object index.now) }
{
    let mut path = Vec::new(alloc);
    path.extend_from_slice(object.name().as_bytes())?;
    path.extend_from_slice(b".")?;
    path.extend_from_slice(index.as_bytes())?;
    Ok(path)
}

/// Adds that a value is no whole number, with its unit and what it may have been meant as.
pub(crate) fn add_unit(
    alloc: Global,
    object: Object,
    index: &str,
    value: &Value<'_>,
    notes: &mut Vec<u8>,
) -> Result<(), AllocError>
    requires { HasNumbers (value_view value.now) }
    ensures { OnOk result (notes.new.items ≡ notes.old.items ++ unit_note object index.now (value_view value.now)) }
{
    add_path(alloc, object, index, notes)?;
    add_fault(alloc, value, notes)?;
    add_unit_end(unit_of(object), value, notes)
}

/// Adds that a value is no whole number of 32 bits, and why.
#[tactic(auto, unfolding(crate::specs::Notes::fault_text))]
fn add_fault(alloc: Global, value: &Value<'_>, notes: &mut Vec<u8>) -> Result<(), AllocError>
    requires { HasNumbers (value_view value.now) }
    ensures { OnOk result (notes.new.items ≡ notes.old.items ++ fault_text (value_view value.now)) }
{
    notes.extend_from_slice(b": ")?;
    add_value(alloc, value, notes)?;
    add_fault_words(value, notes)
}

/// Adds why a value is no whole number of 32 bits.
fn add_fault_words(value: &Value<'_>, notes: &mut Vec<u8>) -> Result<(), AllocError>
    ensures { OnOk result (notes.new.items ≡ notes.old.items ++ fault_words (value_view value.now)) }
{
    notes.extend_from_slice(fault_words(value))
}

/// Adds an object's index.
fn add_path(
    alloc: Global,
    object: Object,
    index: &str,
    notes: &mut Vec<u8>,
) -> Result<(), AllocError>
    ensures { OnOk result (notes.new.items ≡ notes.old.items ++ path_of object index.now) }
{
    let path = path_of(alloc, object, index)?;
    notes.extend_from_slice(&path)
}

/// Adds the unit of a value, what the value may have been meant as, and the end of the line.
#[tactic(auto, unfolding(crate::specs::Notes::unit_end))]
fn add_unit_end(unit: Unit, value: &Value<'_>, notes: &mut Vec<u8>) -> Result<(), AllocError>
    ensures { OnOk result (notes.new.items ≡ notes.old.items ++ unit_end unit (value_view value.now)) }
{
    notes.extend_from_slice(unit_text(unit))?;
    add_meant(meant(unit, value), notes)?;
    notes.extend_from_slice(b"\n")
}

/// Adds what a value may have been meant as.
fn add_meant(tenths: Option<u64>, notes: &mut Vec<u8>) -> Result<(), AllocError>
    ensures { OnOk result (notes.new.items ≡ notes.old.items ++ meant_text tenths) }
{
    let Some(tenths) = tenths else {
        return Ok(());
    };
    let mut buffer = Buffer::new();
    notes.extend_from_slice(b", ")?;
    notes.extend_from_slice(buffer.format(tenths).as_bytes())
}

/// Adds that a value is out of range, with the range and its unit.
pub(crate) fn add_over(
    alloc: Global,
    object: Object,
    index: &str,
    value: &Value<'_>,
    notes: &mut Vec<u8>,
) -> Result<(), AllocError>
    requires { HasNumbers (value_view value.now) }
    ensures { OnOk result (notes.new.items ≡ notes.old.items ++ over_note object index.now (value_view value.now)) }
{
    add_path(alloc, object, index, notes)?;
    add_over_text(alloc, value, notes)?;
    add_greatest(object, notes)
}

/// Adds that a value is out of range, up to the greatest.
#[tactic(auto, unfolding(crate::specs::Notes::over_text))]
fn add_over_text(alloc: Global, value: &Value<'_>, notes: &mut Vec<u8>) -> Result<(), AllocError>
    requires { HasNumbers (value_view value.now) }
    ensures { OnOk result (notes.new.items ≡ notes.old.items ++ over_text (value_view value.now)) }
{
    notes.extend_from_slice(b": ")?;
    add_value(alloc, value, notes)?;
    notes.extend_from_slice(b" is out of range, 0 to ")
}

/// Adds the greatest value of an object, the unit, and the end of the line.
#[tactic(auto, unfolding(crate::specs::Notes::greatest_end))]
fn add_greatest(object: Object, notes: &mut Vec<u8>) -> Result<(), AllocError>
    ensures { OnOk result (notes.new.items ≡ notes.old.items ++ greatest_end object) }
{
    let mut buffer = Buffer::new();
    notes.extend_from_slice(buffer.format(object.greatest()).as_bytes())?;
    notes.extend_from_slice(unit_text(unit_of(object)))?;
    notes.extend_from_slice(b"\n")
}

/// Adds that an object has no such index, with the range of so many.
pub(crate) fn add_index(
    alloc: Global,
    indices: u32,
    object: Object,
    index: &str,
    notes: &mut Vec<u8>,
) -> Result<(), AllocError>
    ensures { OnOk result (notes.new.items ≡ notes.old.items ++ index_note indices object index.now) }
{
    add_path(alloc, object, index, notes)?;
    add_range(indices, notes)
}

/// Adds that an index is none, the range of so many indices, and the end of the line.
#[tactic(auto, unfolding(crate::specs::Notes::range_end))]
fn add_range(indices: u32, notes: &mut Vec<u8>) -> Result<(), AllocError>
    ensures { OnOk result (notes.new.items ≡ notes.old.items ++ range_end indices) }
{
    let mut buffer = Buffer::new();
    notes.extend_from_slice(b": no such index, 1 to ")?;
    notes.extend_from_slice(buffer.format(indices).as_bytes())?;
    notes.extend_from_slice(b"\n")
}

/// Adds that no object has a name, and the object that was perhaps meant.
pub(crate) fn add_name(name: &str, notes: &mut Vec<u8>) -> Result<(), AllocError>
    ensures { OnOk result (notes.new.items ≡ notes.old.items ++ name_note name.now) }
{
    notes.extend_from_slice(name.as_bytes())?;
    add_near_end(near_object(name), notes)
}

/// Adds that a name is none, the object that was perhaps meant, and the end of the line.
#[tactic(auto, unfolding(crate::specs::Notes::near_end))]
fn add_near_end(near: Option<Object>, notes: &mut Vec<u8>) -> Result<(), AllocError>
    ensures { OnOk result (notes.new.items ≡ notes.old.items ++ near_end near) }
{
    notes.extend_from_slice(b": no such object")?;
    add_near(near, notes)?;
    notes.extend_from_slice(b"\n")
}

/// Adds the object that was perhaps meant.
fn add_near(near: Option<Object>, notes: &mut Vec<u8>) -> Result<(), AllocError>
    ensures { OnOk result (notes.new.items ≡ notes.old.items ++ near_text near) }
{
    match near {
        Some(object) => add_right(object, notes),
        None => Ok(()),
    }
}

/// Adds that an object was perhaps meant.
#[tactic(auto, unfolding(crate::specs::Notes::right_text))]
fn add_right(object: Object, notes: &mut Vec<u8>) -> Result<(), AllocError>
    ensures { OnOk result (notes.new.items ≡ notes.old.items ++ right_text object) }
{
    notes.extend_from_slice(b", did you mean ")?;
    notes.extend_from_slice(object.name().as_bytes())?;
    notes.extend_from_slice(b"?")
}
