//! What holds of overlaps that have intervals of their own and of their cells, each law the contract of a function that
//! does nothing.
ghost use Rattle.tsb_overlap.specs.Laws.{RowsAreTold, StaysBy, StatesAreRead, StatesAreBy, RowsAreStates, LooksOnlyAtItsOwn, HoldsByItsOwn, TicksAsNext, UntimedStay, UntimedHoldNone, ArrowsFlashByPermission, ArrowsAreTheirTurns, LitOverlapsEndInYellow, TrailsLast, RedClearancesLast, TrailsRunOut, HeldPhasesAreReleased};

/// A row that the layer can have at a tick is the encoding of what is read in it.
///
/// Mistake: an overlap that two lists name, `in_two` of RangeMistakes (`names_it_yellow`, `would_lose_it`).
/// Witness: `is_told` of RangeMistakes.
pub fn rows_are_told()
    ensures { RowsAreTold }
{}

/// A row that the layer can have at a tick it can have at each later one.
///
/// Mistake: a bound on how long a timer has run, `is_recent` of RangeMistakes (`is_recent_yet`, `would_not_stay`).
/// Witness: `yellow_row` of RangeMistakes, a row of tick 49.
pub fn rows_stay_by()
    ensures { StaysBy }
{}

/// The encoding of overlaps in range reads back as them, and is a row that the layer can have. A row that it can have
/// reads as overlaps in range.
///
/// Mistake: a state that says something of a 17th overlap, `has_17th` of RangeMistakes (`is_green_17`,
/// `would_be_red_17`).
/// Witness: `is_read` of RangeMistakes.
pub fn states_are_read()
    ensures read { StatesAreRead }
    ensures by { StatesAreBy }
    ensures back { RowsAreStates }
{}

/// A tick of the overlaps looks only at phases 1 to 16, the commitments of rings, the preempt and the arrows that are
/// omitted; and which phases are held only at the overlaps that there are.
///
/// Mistake: the green of a 17th phase, `with_17th` of RangeMistakes (`would_see_17`).
/// Witness: `looks_away` of RangeMistakes, with that green.
pub fn looks_only_at_its_own()
    ensures same { LooksOnlyAtItsOwn }
    ensures held { HoldsByItsOwn }
    ensures ticked { TicksAsNext }
{}

/// Where no overlap is an arrow or trails, no tick changes one, and no phase is held.
///
/// Mistake: an overlap that is kept green whether it is timed or not (`would_be_green` of LawMistakes).
/// Witness: `untimed_3`, `stays_red` of LawMistakes.
pub fn untimed_overlaps_stay()
    ensures stay { UntimedStay }
    ensures free { UntimedHoldNone }
{}

/// An arrow flashes only while a phase that it includes is Green and its turn is neither in service nor next.
///
/// Mistake: a look at the green of the turn and not at its yellow, `flashes_by_greens` of LawMistakes
/// (`turns_yet`, `would_flash`).
/// Witness: `flashes` of Examples; `does_not_flash` of LawMistakes.
pub fn arrows_flash_by_permission()
    ensures { ArrowsFlashByPermission }
{}

/// The head of an arrow is green exactly where its turn is Green.
///
/// Mistake: an arrow that is green as it was before, `green_as_before` of LawMistakes (`turn_is_over`,
/// `would_stay_green`).
/// Witness: `is_green_with_its_turn` of Examples.
pub fn arrows_are_their_turns()
    ensures { ArrowsAreTheirTurns }
{}

/// What is lit turns red by its yellow alone, which has lasted its time.
///
/// Mistake: an arrow that is red where it ceases to flash, `dark_where_not` of LawMistakes (`may_not_flash`,
/// `would_be_red`).
/// Witness: `is_red_then`, of an arrow, and `is_clearing_then` of Examples.
pub fn lit_overlaps_end_in_yellow()
    ensures { LitOverlapsEndInYellow }
{}

/// A trailing green lasts its time, unless a preempt is in service, and the red clearance after it its own.
///
/// Mistake: a trailing green that ends with its phase, `ends_with_its_phase` of LawMistakes (`would_end`, `too_early`).
/// Witness: `is_yellow_then`, `is_off_then` of Examples.
pub fn trails_last()
    ensures green { TrailsLast }
    ensures red { RedClearancesLast }
{}

/// What is left of a trail falls in each tick, whatever preempts and phases do. So each phase is let go in the end, after
/// the three times at most.
///
/// Mistake: what is left by the trailing green alone, `left_by_green` of LawMistakes (`was_left`,
/// `would_begin_anew`).
/// Witness: `is_left` of Examples.
pub fn trails_run_out()
    ensures falls { TrailsRunOut }
    ensures released { HeldPhasesAreReleased }
{}
