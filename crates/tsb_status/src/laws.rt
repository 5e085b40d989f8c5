//! That what is found here is what the definitions of tsb_step say, each law the contract of a function that does
//! nothing.
ghost use Rattle.tsb_status.specs.RingFound.{RingsAreFound};
ghost use Rattle.tsb_status.specs.TimesFound.{LacksAreFound, NextTicksAreFound};
ghost use Rattle.tsb_status.specs.WaitFound.{WaitsAreFound};

/// A wait that is found of what a state has is the wait of that state. So who reads a controller needs no more of it
/// than the phase, the two rings, and whether it has tripped, crosses or serves a preempt.
///
/// Needs: that each of these is found as the state has it.
/// Not said: that the phase is called.
/// Mistake: the other ring is left out, `without_other` of Examples (`waits_for_6`, `would_be_due`).
/// Witness: `barrier` to `due` of Examples.
pub fn waits_are_found()
    ensures { WaitsAreFound }
{}

/// `lacks`: What a green is found to lack, by the timers of its phase, is what it lacks in the state.
///
/// Needs: that the phase is given, and what its green depends on is found, as the state has them.
/// Mistake: the timers as the next tick reads them, `lacks_next` of Examples (`has_one_left`, `would_have_none`).
/// Witness: `has_one_left` of Examples.
///
/// `next`: Whether a phase is found to be over in the next tick, or its red revert to have passed, is what the rings
/// read of it then.
///
/// Needs: that it is one of phases 1 to 16, and is given as the state has it.
/// Mistake: the timers as the last tick left them, `over_as_it_was` of WaitMistakes in tsb_step.
/// Witness: `is_due`, `starts` of WaitExamples in tsb_step.
pub fn times_are_found()
    ensures lacks { LacksAreFound }
    ensures next { NextTicksAreFound }
{}

/// The status that is found of a ring, from its phase in service as that is given, is the ring's status in the state.
///
/// Needs: that the phase is given, and what its green depends on is found, as the state has them.
/// Mistake: a green that rests is called one at its maximum, `resting_part` of Examples (`rests`, `would_be_maximum`).
/// Witness: `rests` of Examples.
pub fn rings_are_found()
    ensures { RingsAreFound }
{}
