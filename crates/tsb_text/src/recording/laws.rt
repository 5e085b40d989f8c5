//! What holds of all events and of all records, each law the contract of a function that does nothing.
ghost use Rattle.tsb_text.specs.recording.Laws.{ClocksAreFirstLines, EventsHaveTheirTick, LinesLeaveWhatRemains, NoLineStopsOthers, StrictRecordsStopAtTheFirst};

/// Events have their tick. Each event of an input has the number of the tick that is in force after it. So what was
/// told later than a tick is found without the inputs.
///
/// Mistake: the number of the tick in force before the input (`tick_before`).
/// Witness: `power_up` of EventExamples of tsb_step, events of a first tick.
pub fn events_have_their_tick()
    ensures { EventsHaveTheirTick }
{}

/// A record is of what remains. The inputs whose events a record has are those that remain of some commands, each with
/// a right answer. So what holds of `tsb_bench::play`, as that the state is a replay of these inputs, holds of a record.
///
/// Needs: that the lines come to these inputs, after those with which the record begins.
/// Not said: that the commands are those of the lines, which the definition of what lines come to says.
/// Mistake: an undone tick goes back to its own number, so that what it told stays (`goes_back_too_little`).
/// Witness: `one_tick` and `taken_back` of Mistakes, a tick from power-up, and the same undone.
pub fn records_are_of_what_remains()
    ensures { LinesLeaveWhatRemains }
{}

/// A record's clock is a first line. A record with a clock is the record without one whose first line sets that clock, but
/// that its lines have the numbers before theirs. So all laws of sessions hold of it.
///
/// Needs: that the first line sets the clock, and that the record begins with that input and what follows it.
/// Not said: that such a line is always taken, as out of memory it is refused; a record has no events then at all.
/// Mistake: a clock that is forgotten (`forgets`, `would_leave_none`).
/// Witness: `clock_first` and `pattern_next` of Mistakes, a line that sets a clock and no other, and what follows it.
pub fn clocks_are_first_lines()
    ensures { ClocksAreFirstLines }
{}

/// A strict record ends with the first faulty line. The line that ends it is the first that is no command or that is
/// refused, out of memory included; what was told is the text of that line, and nothing else. Where no line ended it,
/// nothing was told.
///
/// Needs: that the lines come to this end.
/// Mistake: the second such line ends it, so that two are told (`would_tell_two`).
/// Witness: `stopped` of Mistakes, a line that is no command before any other.
pub fn strict_records_stop_at_the_first()
    ensures { StrictRecordsStopAtTheFirst }
{}

/// No faulty line ends a record that goes on.
///
/// Needs: that the lines come to this end.
/// Mistake: it ends as a strict one does, so that what comes after is left out (`would_leave_out`).
/// Witness: `gone_on` of Mistakes, a line that is no command and a tick after it.
pub fn no_line_stops_others()
    ensures { NoLineStopsOthers }
{}
