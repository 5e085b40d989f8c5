//! What holds of the text of times, a law as the contract of a function that does nothing.
ghost use Rattle.tsb_command_text.specs.clock.Laws.{ClocksAreRead};

/// Each time that a clock can be set to is read again from the two words that it is written as.
///
/// Mistake: a year of four without a 29 February, `february_of_28` of CalendarMistakes (`would_be_march`).
/// Witness: `reads_a_leap_day` of CalendarMistakes.
pub fn clocks_are_read()
    ensures { ClocksAreRead }
{}
