//! What holds of the cells of the desk, each law the contract of a function that does nothing.
ghost use Rattle.tsb_transact.specs.Laws.{RowsAreTold, StatesAreRead};

/// A row that the layer can have is the encoding of what is read in it.
///
/// Mistake: places of edits count from 0, as cells of a plan do, `place_from_0` (`would_write_257`, `would_read_1`).
/// Witness: `in_range` of Mistakes, a desk with one edit, whose row is one that the layer can have.
pub fn rows_are_told()
    ensures { RowsAreTold }
{}

/// The encoding of a state in range reads back as that state, and is a row that the layer can have.
///
/// Mistake: places of edits count from 0, as cells of a plan do, `place_from_0` (`would_write_257`, `would_read_1`).
/// Witness: `in_range` of Mistakes, a desk with one edit.
pub fn states_are_read()
    ensures { StatesAreRead }
{}
