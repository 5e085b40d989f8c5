//! What a clock changes, each law the contract of a function that does nothing.
ghost use Rattle.tsb_step.specs.ClockLaws.{ChangesNoDisplay, ChangesTheCounterAlone, NoClockNoChange};

/// A clock is an option. In a run without one, local counters in step count from tick number 0, as if there were no such
/// input. One that is set changes the local counter and the moments of ticks alone: the heads show what they showed.
///
/// Not said: that what follows is the same; the counter is another, and with it the force-offs.
/// Mistakes: a reset that leaves the counter with its midnight, `reset_with_midnight` (`would_count_on`); a clock that lets
/// the rings forget, `clock_forgets` (`would_forget`).
/// Witness: `clocks`, `tells_time` of StepExamples; `counts_ticks` of ClockMistakes.
pub fn a_clock_is_an_option()
    ensures without { NoClockNoChange }
    ensures alone { ChangesTheCounterAlone }
    ensures display { ChangesNoDisplay }
{}
