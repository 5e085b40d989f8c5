//! The notes of a plan text of version 3.
ghost use Rattle.std.specs.Prelude.{◌≡◌};
ghost use Rattle.serde_json.specs.View.{view, members_view};
ghost use Rattle.tsb_plan.specs.Plan.{Plan};
ghost use Rattle.tsb_plan_text.specs.PlanErrors.{MakesOf};
ghost use Rattle.tsb_plan_text.specs.PlanText.{is_notes, noted, with_notes};

use crate::error::PlanError;
use serde_json::{Map, Value};
use std::alloc::Global;
use tsb_objects::Version;

/// The name of the member that has the notes.
const NOTES: &str = "notes";

/// Whether the name is that of the notes, which version 3 alone has.
pub(crate) fn is_notes(version: Version, name: &str) -> bool
    ensures { result ≡ is_notes version name.now }
{
    match version {
        Version::One | Version::Two => false,
        Version::Three => name == NOTES,
    }
}

/// Reads the notes: a table of texts. The plan has nothing of them.
#[tactic(auto, unfolding(crate::specs::PlanText::with_notes))]
pub(crate) fn read_notes(alloc: Global, value: &Value) -> Result<(), PlanError>
    ensures { (plan : Plan) → MakesOf result plan (with_notes (view value.now) plan) }
{
    let Some(table) = value.as_object() else {
        return Err(PlanError::NotesNotATable);
    };
    read_texts(alloc, table)
}

/// Reads each note.
fn read_texts(alloc: Global, table: &Map<String, Value>) -> Result<(), PlanError>
    ensures { (plan : Plan) → MakesOf result plan (noted (members_view table.now.entries) plan) }
{
    for (name, value) in table.iter() {
        if !value.is_string() {
            let name = String::from_str(alloc, name.as_str())?;
            return Err(PlanError::NoteNotAText { name });
        }
    }
    Ok(())
}
