//! What holds of every log that is written, each law the contract of a function that does nothing.
ghost use Rattle.tsb_field_log.specs.Laws.{AddOneEvent, AddTheEnd, AddUpToTheLog, AreInForce, AreLogs, AreLong, AreOnAtSomeMoment, AreShort, AreTheInputs, BeginTheLog};

/// No pulse is lost. A wire is on in a tick exactly where it is on at some moment of that tick, or is switched on in
/// it, though off again at the same moment. What is switched off at a moment is off from that moment.
///
/// Mistakes: a wire that is on where it is on as the tick begins (`pulse_lost`), or as the tick ends (`end_lost`); one
/// that goes off as a tick begins and is on in it (`on_too_long`).
/// Witness: the equations of TickExamples.
pub fn no_pulse_is_lost()
    ensures { AreOnAtSomeMoment }
{}

/// The text of the rows, in the form of a log by these wires, is a log of those rows. It is one that `read_log` takes, where
/// it has at most 64 MiB; each row by digits has 39 bytes, and each by lists at most 200.
///
/// Mistakes: a tick has six digits, `line_in_six` (`is_a_log`, `would_be_malformed`); rows are by digits though a wire leads
/// to detector 17 (`has_17`, `would_lose_17`).
/// Witness: `is_a_log`, `is_long` of TickMistakes.
pub fn what_is_written_is_a_log()
    ensures logs { AreLogs }
    ensures long { AreLong }
    ensures short { AreShort }
{}

/// The row in force at a tick has an input on exactly where one of the wires that lead to it is on in that tick.
///
/// Not said: which wires there are.
/// Mistakes: a row is written only as some input is on, `changes_of_on` (`is_off_at_4`, `would_be_on_at_4`); an input is
/// on where all wires that lead to it are, `all_on` (`has_3`, `would_not_have_3`).
/// Witness: `is_off_at_4`, `has_3` of TickMistakes.
pub fn rows_tell_the_inputs()
    ensures force { AreInForce }
    ensures inputs { AreTheInputs }
{}

/// What a street gives, event by event and as it is finished, is the log of all its events. What it has given so far
/// begins that log, whatever events follow in the order of their ticks.
///
/// Mistake: a tick's row is known as soon as an event falls into it (`too_soon`, `not_yet`).
/// Witness: `in_order`, `more_in_order` of PushedExamples.
pub fn rows_add_up()
    ensures step { AddOneEvent }
    ensures end { AddTheEnd }
    ensures whole { AddUpToTheLog }
    ensures front { BeginTheLog }
{}
