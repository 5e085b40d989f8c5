//! What holds of the events of a session, each law the contract of a function that does nothing.
ghost use Rattle.tsb_field_display.specs.SessionLaws.{AreAllTold, HeaderIsRead, LinesAreRead, StandInOrder};

/// Events come by tick, then by code, then by parameter. No two are the same.
///
/// Needs: display lines whose ticks rise, and a log's rows whose ticks rise.
/// Mistake: the events of inputs after all others (`out_of_order`).
/// Witness: `as_defined` of Mistakes.
pub fn events_stand_in_order()
    ensures { StandInOrder }
{}

/// No event is lost and none is made. Those of inputs are the rows', one after another, and the others are those of the
/// display lines.
///
/// Mistake: the first event that does not come before another is left out (`rest_without`).
/// Witness: `as_defined`, `kept` of Mistakes.
pub fn all_events_are_told()
    ensures { AreAllTold }
{}

/// The header of an event log names the usual columns.
///
/// Mistake: code and parameter in the other order (`is_usual` of ReadLemmas, `would_change_places`).
/// Witness: `is_usual` of ReadLemmas.
pub fn the_header_is_read()
    ensures { HeaderIsRead }
{}

/// Each line of an event log is read as its event. It is read by the usual columns at the moment of its tick, where
/// `can_be_written` holds of the device, and readers of logs take it, as it has at most 1,000 bytes.
///
/// Not said: that the text is cut into these lines.
/// Mistakes: code and parameter change places (`other_event`); tick 1 begins a tenth late (`first_tick_not`).
/// Witness: `named` of LineExamples in tsb_event_text, a device with a comma, whose line is read again there.
pub fn lines_are_read()
    ensures { LinesAreRead }
{}
