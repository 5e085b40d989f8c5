//! What starts: phases that are called, that dual entry lets in, or that rings were committed to. Each law is the contract
//! of a function that does nothing.
ghost use Rattle.tsb_laws.specs.CalledStarts.{UncalledPhasesStay};

/// A phase that nothing calls stays as it is. In a tick in which no preempt is in service, a phase starts only where it is
/// callable or where a ring was committed to it before; and a ring commits anew only to a phase that is callable or has
/// dual entry.
///
/// Needs: an untripped run.
/// Not said: that a phase which is called starts. Dual entry starts a phase only in a crossing, beside one that is called.
/// Mistake: a ring that goes on to the next phase of its order, called or not, `by_order` (`uncalled_1`, `rests`,
/// `would_go_to_1`).
/// Witness: `a_called_start` of CalledStartRuns.
pub fn uncalled_phases_stay()
    ensures { UncalledPhasesStay }
{}
