//! What holds of every difference of two rows of cells, and of every cell of a timer, each law the contract of a
//! function that does nothing.
ghost use Rattle.tsb_cells.specs.DiffLaws.{TellsEachChange, Ascends, GivesBack, Shifts, Joins, AppliesByParts, HasOwnParts};
ghost use Rattle.tsb_cells.specs.TimerLaws.{TellTheirCells, AreReadAsTheyWere, AreInTime, BeganInTime};

/// A difference has an entry for each cell that changed, with what it held before, and no other. The entries come in
/// ascending order of the cells.
///
/// Mistakes: an entry has what its cell holds now, `diff_of_new` (`differs`, `would_have_5`); the entries of later
/// cells stand first, `diff_down` (`would_fall`).
/// Witness: `differs` of Mistakes.
pub fn difference_is_what_changed()
    ensures tells { TellsEachChange }
    ensures ascends { Ascends }
{}

/// A difference that is put back gives the row before the change.
///
/// Mistake: an entry has what its cell holds now, `diff_of_new` (`gives_back`, `would_stay`).
/// Witness: `gives_back` of Mistakes.
pub fn difference_is_taken_back()
    ensures { GivesBack }
{}

/// Numbering the cells from a greater number shifts the entries. It changes nothing else.
///
/// Mistake: entries keep the numbers of their own row, `own_numbers` (`is_at_3`, `would_be_at_0`).
/// Witness: `is_at_3` of Mistakes.
pub fn numbering_shifts_entries()
    ensures { Shifts }
{}

/// Rows side by side have their differences side by side.
///
/// Mistake: entries keep the numbers of their own row, `own_numbers` (`are_joined`, `would_be_joined`).
/// Witness: `are_joined` of Mistakes.
pub fn differences_join()
    ensures { Joins }
{}

/// Entries that are put into rows side by side are put into each row by its own part.
///
/// Needs: that each names one of the cells of these rows.
/// Mistake: the part of a later row keeps the numbers of the whole, `part_of_whole` (`is_put`, `would_not_be_put`).
/// Witness: `is_put` of Mistakes.
pub fn entries_apply_by_parts()
    ensures { AppliesByParts }
{}

/// Each row's part of the difference of rows side by side is the row's own difference.
///
/// Mistake: the part of a later row keeps the numbers of the whole, `part_of_whole` (`is_own`, `would_be_of_whole`).
/// Witness: `is_own` of Mistakes.
pub fn parts_are_own_differences()
    ensures { HasOwnParts }
{}

/// A timer's cell reads as the timer that began at its tick, and a timer is what its cell reads as. This holds from the
/// tick at which it began.
///
/// Mistake: a cell is the tick at which its timer began, and not one more, `cell_of_tick` (`is_on`, `would_be_off`).
/// Witness: `is_on` of Mistakes, a timer that began at tick 0.
pub fn cells_tell_timers()
    ensures cells { TellTheirCells }
    ensures timers { AreReadAsTheyWere }
    ensures in_time { AreInTime }
    ensures began { BeganInTime }
{}
