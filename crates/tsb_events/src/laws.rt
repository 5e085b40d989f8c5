//! Laws of events, each the contract of a function that does nothing.
ghost use Rattle.tsb_events.specs.Agree.{OthersTellByNumbers, TicksTellByNumbers};
ghost use Rattle.tsb_events.specs.Order.{EventsHaveTheTick, InputsTellInOrder, OthersTellInOrder, TicksTellInOrder};

/// Ticks have the same events where what a log sees agrees on the numbers 1 to 16, and on all vehicle detectors. So who
/// reads a controller need not say what is seen of any other number.
///
/// Needs: that both views agree before the tick and after it, and what the tick found as well.
/// Mistakes: agreement on the numbers 1 to 15 alone (`sixteen_is_told`, `seventeen_is_not`).
/// Witness: `green_begins` of Examples, with views that are the same.
pub fn ticks_tell_by_numbers()
    ensures { TicksTellByNumbers }
{}

/// Inputs that are no ticks have the same events where what a log sees agrees on these numbers.
///
/// Needs: that both views agree before the input and after it, and what is seen of the selected patterns as well.
/// Mistakes: agreement on the numbers 1 to 15 alone (`sixteen_is_told`, `seventeen_is_not`).
/// Witness: `pattern` of Examples, with views that are the same.
pub fn others_tell_by_numbers()
    ensures { OthersTellByNumbers }
{}

/// `ticks`: The events of a tick are sorted by code, and those of one code by their parameters. No two are the same. So
/// the cause of an end, 4, 5 or 6, comes before the end, 7. This holds whatever a log sees before the tick and after
/// it.
///
/// Mistake: two groups change places, the causes of ends and the ends (`end_first`, `is_not_in_order`).
/// Witness: `gap_out` of Examples.
///
/// `others`: The events of any other input are sorted by code and parameter too.
///
/// Mistake: a flash that comes before the selected pattern (`flash_first`, `flash_is_not_in_order`).
/// Witness: `pattern` of Examples.
///
/// `inputs`: So the events of an input are sorted by code and parameter, at whatever state it comes.
///
/// Mistakes: those of the clauses above.
/// Witness: `arrives` of EventExamples of tsb_step.
///
/// `tick`: Each event of an input has the tick number that is in force after it.
///
/// Mistake: the tick number before the input, 0 for `power_up` of EventExamples of tsb_step.
/// Witness: `power_up` of EventExamples of tsb_step.
pub fn events_of_inputs_stand_in_order()
    ensures ticks { TicksTellInOrder }
    ensures others { OthersTellInOrder }
    ensures inputs { InputsTellInOrder }
    ensures tick { EventsHaveTheTick }
{}
