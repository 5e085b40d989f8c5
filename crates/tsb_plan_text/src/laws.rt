//! What holds of plan texts, each law the contract of a function that does nothing.
ghost use Rattle.tsb_plan_text.specs.NotesLaw.{NotesChangeNothing};

/// Notes change nothing. A text that gives a plan gives the same plan without its notes.
///
/// Not said: that the notes are kept: the plan has nothing of them.
/// Mistake: notes that are read as the table of an object, `read_as_table` of NoteMistakes (`would_be_none`).
/// Witness: `with_a_note`, `without_it` of NoteMistakes.
pub fn notes_change_nothing()
    ensures { NotesChangeNothing }
{}
