//! What the waits of phases say, each law the contract of a function that does nothing.
ghost use Rattle.tsb_step.specs.WaitLaws.{DuePhasesStart, GreensKeepRings, KeepersKeepTheBarrier, LacksKeepGreens, WaitsAreSo, WaitsKeepPhases};

/// A wait says what is so. The phase that it names is of the ring that it says, and is Green, clears, or is to start
/// next; it is not over, lacks what the wait says, or is not concurrent. This holds from any state, not only in runs.
///
/// Not said: that nothing else keeps the phase. The wait names only the first that applies.
/// Mistakes: the commitment of the other ring, `next_of_other` (`is_3`, `would_name_8`); any phase in service, for a
/// crossing or the barrier, `first_served` (`is_over_6`, `would_name_6`, `lacks_nothing`, `would_name_2`); any phase of
/// the other ring as a conflict (`goes_with_6`, `would_name_6_too`).
/// Witness: `clears` to `force_off` of WaitExamples, `waits_for_the_trail` of OverlapRuns, a state for each kind of wait
/// and of lack.
pub fn waits_are_so()
    ensures { WaitsAreSo }
{}

/// What a phase waits for keeps it from turning Green in the next tick, whatever inputs are on in it. For two kinds
/// this is said while what is named stays as it is: for an omitted phase while no preempt comes into service, and for
/// one that a preempt does not want while that stays in its stage.
///
/// Not said: that the phase ever starts, or that it starts once what it waits for is gone. Of `Due` and `Turn` nothing is
/// said here.
/// Mistakes: an omit that seems to keep a phase from a preempt too (`is_omitted`, `would_start_it`); a preempt, where
/// its service ends (`is_preempted`, `would_start_then`); red revert and clearance by timers as the last tick left
/// them, `reverts_as_it_was` (`has_not_passed`, `starts_at_20`) and `over_as_it_was` (`is_not_over`, `starts`).
/// Witness: `flashes` to `conflict_next` of WaitExamples, `waits_for_the_trail` of OverlapRuns.
pub fn waits_keep_phases()
    ensures { WaitsKeepPhases }
{}

/// A phase that waits for nothing starts in the next tick, whatever inputs are on in it. This holds from any state.
///
/// Not said: anything of a phase whose turn it is. Its ring has to want it, and another may be called first.
/// Mistakes: a phase that its ring is committed to is called due at once, `due_at_once` (`would_be_due_at_once`,
/// `waits_for_6`); a crossing that looks at one ring alone, `without_across` (`would_be_due_alone`); one that leaves
/// out the red revert of the phase beside (`would_be_due_beside`, `waits_for_8`); a controller that has tripped
/// (`would_be_due`, `stays_red`).
/// Witness: `is_due`, `starts` of WaitExamples.
pub fn due_phases_start()
    ensures { DuePhasesStart }
{}

/// `greens`: A green that still lacks something in the next tick is not ready to end. This holds from any state.
///
/// Mistake: a lack that leaves out pedestrians, `lack_of_vehicles` (`would_lack_nothing`, `is_not_ready_2`).
/// Witness: `initial`, `walk` to `force_off` of WaitExamples.
///
/// `rings`: A green that is waited for keeps its ring. As long as it is not ready, it goes on and its ring is not
/// committed to any phase; so the phase that waits does not start in the tick after the next either.
///
/// Mistake: the green of the other ring is named, `green_of_other` (`would_name_6_for_1`, `is_not_ready_6`,
/// `commits_all_the_same`).
/// Witness: `initial` of WaitExamples.
///
/// `barrier`: A phase that a wait names for the barrier keeps it from being crossed. As long as it is not ready, if it
/// is Green, no crossing begins; and none begins where the other ring is to start it first.
///
/// Mistake: the first phase in service is named, `first_served` (`would_name_2`, `lacks_nothing`).
/// Witness: `at_side_1`, `kept_by_6` of WaitExamples.
pub fn lacks_keep_greens()
    ensures greens { LacksKeepGreens }
    ensures rings { GreensKeepRings }
    ensures barrier { KeepersKeepTheBarrier }
{}
