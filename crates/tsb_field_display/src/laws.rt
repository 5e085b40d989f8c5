//! What holds of display lines and their events, each law the contract of a function that does nothing.
ghost use Rattle.tsb_field_display.specs.Laws.{AreRead, ComeOfChanges, DisplaysAreRead, TellTheHeads};

/// `read`: What is read from a display line is what it shows. That is its tick, what each head shows, and the preempt.
///
/// Not said: the local counter of the line, as `tsb_field events` makes no event of it.
/// Needs: that no head of a phase flashes yellow.
/// Mistake: the letters of a field are read from the last (`shows_2`, `would_show_15`, `would_not_show_2`).
/// Witness: `is_written`, `shows_2` of Mistakes.
///
/// `displays`: Each display of tsb_heads is read from its line. No head of a phase in it flashes yellow.
///
/// Mistake: the letter of an arrow that flashes is spelled at phases too (`no_phase_flashes`, `would_be_taken`).
/// Witness: `arrow` of Examples, a line with an arrow that flashes.
pub fn display_lines_are_read()
    ensures read { AreRead }
    ensures displays { DisplaysAreRead }
{}

/// Lines that show what the line before shows have no events.
///
/// Mistake: a line shows something else only where a vehicle head does, `vehicle_changes_after` (`tells_all`,
/// `would_tell_none`).
/// Witness: `tells_clearance`, `tells_all` of Mistakes.
pub fn events_come_of_changes()
    ensures { ComeOfChanges }
{}

/// The events up to each line say what the heads show then. They say which heads are green, yellow, in walk or in
/// clearance, which arrows flash yellow, and whether all heads flash red.
///
/// Not said: red as against dark, for which the enumerations have no event.
/// Mistakes: events without the end of yellow (`still_yellow`, `is_red`), or of a clearance (`left_out`, `ends_now`); an
/// arrow that flashes is green still (`green_ends`, `would_stay_green`).
/// Witness: `met` of Examples.
pub fn events_tell_the_heads()
    ensures { TellTheHeads }
{}
