//! What holds of the rows of all layers side by side, with those of the plan, the desk and the monitor, each law the
//! contract of a function that does nothing.
ghost use Rattle.tsb_controller.specs.Whole.{RowsAreTold, RecordsAreJoined, RecordsGoBack, RecordsGiveBack, RecordsAreFew, RowsGoBack, EntriesAreWithin, ChangesAreFew, RowsStay, NothingDiffers, ChangesOfTheLayers, ChangesOfTheDesk, ChangesOfACommit};

/// The rows that the bench can have at a tick are the encoding of the state that is read in them.
///
/// Mistake: timers read by the tick number after a trip too, `state_by_tick` (`tells_20`, `would_tell_10`).
/// Witness: `all_can_be` of Examples, rows of tick 49.
pub fn rows_are_told()
    ensures { RowsAreTold }
{
    tsb_transact::laws::rows_are_told();
}

/// The record of an input is what differs in each row, one row after the other.
///
/// Mistake: the cells of each row are numbered from 0, `unnumbered` (`names_its_cell`, `would_name_0`).
/// Witness: `all_can_be` of Examples, rows of tick 49 that differ in one cell (`differ`).
pub fn records_are_joined()
    ensures { RecordsAreJoined }
{
    tsb_transact::laws::rows_are_told();
}

/// A record is taken back by putting into each row what it says of that row.
///
/// Mistake: each row is given the whole record, in the numbers of the bench, `put_back_whole` (`goes_off`,
/// `would_stay_on`).
/// Witness: `all_can_be` of Examples, rows of tick 49, with the record in `differ`.
pub fn records_go_back()
    ensures { RecordsGoBack }
{
    tsb_transact::laws::rows_are_told();
}

/// The record of an input gives back the state before it. In any range of cells it has no more entries than there are
/// cells.
///
/// Mistakes: a record with what cells hold after the input, `changes_after` (`gives_back`, `would_stay`); one that
/// leaves the tick number, `ticks_of_none` of tsb_step (`goes_to_6`, `would_be_at_7`); one that has each entry twice,
/// `told_twice` (`has_one`, `would_have_two`).
/// Witness: `all_can_be` of Examples, rows of tick 49 that differ in one cell (`differ`).
pub fn records_give_back()
    ensures back { RecordsGiveBack }
    ensures few { RecordsAreFew }
{
    tsb_transact::laws::rows_are_told();
}

/// What differs between earlier and later rows, put back into the later ones, gives the earlier ones. It names only
/// cells of the bench, and in any range of cells no more than there are.
///
/// Mistakes: a record with what cells hold after the input, `changes_after` (`gives_back`, `would_stay`); one that has
/// each entry twice, `told_twice` (`has_one`, `would_have_two`).
/// Witness: `all_can_be` of Examples, rows of tick 49 that differ in one cell (`differ`).
pub fn rows_go_back()
    ensures back { RowsGoBack }
    ensures within { EntriesAreWithin }
    ensures few { ChangesAreFew }
{}

/// The rows of the layers that can be at a tick can be at each later one.
///
/// Mistake: a bound on how long a timer has run, `is_recent` (`is_recent_yet`, `would_not_stay`).
/// Witness: `can_be` of Examples, rows of tick 49.
pub fn rows_stay_by()
    ensures { RowsStay }
{}

/// What differs is what differs in the rows that changed.
///
/// Mistake: a record that has each cell, whether it differs or not, `each_from` (`has_none`, `would_have_each`).
/// Witness: `names_its_cell` of Mistakes, where plan, desk and monitor stay; `names_the_desk`, where only the desk
/// changes.
pub fn changes_are_of_rows()
    ensures none { NothingDiffers }
    ensures layers { ChangesOfTheLayers }
    ensures desk { ChangesOfTheDesk }
    ensures commit { ChangesOfACommit }
{}
