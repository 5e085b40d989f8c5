//! What holds of every run of the controller, each law the contract of a function that does nothing.
ghost use Rattle.tsb_step.specs.Past.{RecordsGiveBack, RecordsTellKinds, TicksAreCounted};
ghost use Rattle.tsb_step.specs.Laws.{DisplaysAreSafe, FaultsAloneTrip, MemoryIsConsistent, MemoryRefusesTheSame, PlansStayConsistent, PreemptsHavePhases, QuietTicksWriteNothing, RingsActInEitherOrder, ServedGoTogether, StartsWait, WalksAreBesideGreens};

/// `safe`: No two phases that cross have right of way. Any two phases with right of way on the display are equal or
/// concurrent in the plan in effect.
///
/// Not said: anything of overlaps but of the green of arrows, which gives right of way to their turns; or of a lamp
/// that a fault lights, as the display is the controller's own. A bench that always flashes would keep this; the next
/// clause refuses it.
/// Mistake: a plan of one-sided concurrency, `one_way`. Two phases that are not concurrent are green (`serves_1`,
/// `serves_5`, `is_unsafe`), and only the trip hides it.
/// Witness: `pair` of OtherRuns, in which two phases have right of way.
///
/// `together`: Phases in service go together. Any two phases in service are equal or concurrent, across every commit.
///
/// Mistakes: a preempt's list that is not pairwise concurrent, `wants_3_7` (`serves_3`, `serves_7`, `apart_3_7`); a
/// commit of the structure while the rings cross, `parted_in_crossing`, which E12 refuses (`has_to_wait`,
/// `serves_3_then`, `serves_8_then`, `apart_3_8_then`).
/// Witness: `pair` of OtherRuns, in which two phases are in service.
///
/// `walks`: Pedestrians walk or clear only beside a Green phase. This holds under a preempt too, and while the
/// controller flashes.
///
/// Not said: for how long.
/// Mistake: a pedestrian part that is kept as the green ends, `part_kept` (`walks_no_more`, `would_walk_on`).
/// Witness: `walk_ends`, `green_ends` of TimeRuns, a walk up to the end of its green.
pub fn displays_are_safe()
    ensures safe { DisplaysAreSafe }
    ensures together { ServedGoTogether }
    ensures walks { WalksAreBesideGreens }
{}

/// The plan in effect breaks no rule. This holds whatever was committed.
///
/// Not said: that it is a good plan.
/// Mistake: a commit of edits that were not found right, which E7 refuses, `unverified` (`has_to_be_verified`,
/// `would_break_K5`).
/// Witness: `committed` of OtherRuns.
pub fn plans_stay_consistent()
    ensures { PlansStayConsistent }
{}

/// A start waits for what it crosses. A phase starts only when every phase that was in service and is not concurrent
/// with it is over.
///
/// Not said: that it ever starts.
/// Mistake: one ring crosses as soon as it has cleared, `starting_once_cleared` of tsb_ring (`still_serves_6`,
/// `apart_3_6`, `not_over_6`).
/// Witness: `starts_4` of TimeRuns.
pub fn starts_wait()
    ensures { StartsWait }
{}

/// The order in which the two rings act makes no difference. The rings after a tick are those that have acted on its
/// moves, whichever ring acts first, from any state.
///
/// Not said: that the rings decide in either order. Ring 1 is asked first.
/// Mistake: rings that decide as they act, `pick_in_turn` of tsb_ring (`first_takes_1`, `second_takes_none`).
/// Witness: `takes_over` of OrderExamples, where both act.
pub fn rings_act_in_either_order()
    ensures { RingsActInEitherOrder }
{}

/// A preempt in service has phases to serve. It is one of the plan's, and the list of its stage is not empty and names
/// enabled, pairwise concurrent phases, across every commit.
///
/// Not said: that they are ever served, or when its dwell begins.
/// Mistake: a commit of its list meanwhile, which E12 refuses, `dwelling` (`has_to_wait_for_it`, `would_have_none`).
/// Witness: `in_service`, `serves_4` of OtherRuns.
pub fn preempts_have_phases()
    ensures { PreemptsHavePhases }
{}

/// Only a fault trips the controller. Where no lamp was lit since power-up, or since the last reset of a controller
/// that had tripped, it has not tripped.
///
/// Not said: what trips it where a lamp was lit.
/// Mistake: the law without its premise, as a lamp that is lit can trip (`green_on_3`).
/// Witness: `a_reset` of CoordinationRuns in tsb_laws, a reset after a trip.
pub fn faults_alone_trip()
    ensures { FaultsAloneTrip }
{}

/// The laws speak of the program's plans. A plan in memory that breaks no rule is one of those that the laws of runs
/// speak of, and takes the same values.
///
/// Mistakes: one that gives the next object's value beyond an object's indices, `value_beyond` of MemoryMistakes
/// (`has_no_place`, `gives_none`, `would_give_1`); a plan of 8 phases beside it, `narrow` of MemoryMistakes
/// (`memory_takes_9`, `would_refuse_9`).
/// Witness: `two_consistent` of OtherRuns, of the built-in plan of two phases; `takes_9` of MemoryMistakes.
pub fn plans_in_memory_are_consistent()
    ensures consistent { MemoryIsConsistent }
    ensures refuses { MemoryRefusesTheSame }
{}

/// The record of an input takes the input back. It does so where the cells of a state can be read as the state. The
/// record is of the input's kind; the tick number begins at 0 and goes on by one at most. The laws of the way back of
/// every machine ask for this (tsb_machine).
///
/// Mistakes: a record with what cells hold after the input (`gives_back`, `would_stay` of tsb_laws); one that leaves
/// the tick number, `ticks_of_none` of LawMistakes (`goes_to_6`, `would_be_at_7`).
/// Witness: `ran` of tsb_laws, a run after which cells tell the state.
pub fn records_give_back()
    ensures back { RecordsGiveBack }
    ensures kinds { RecordsTellKinds }
    ensures ticks { TicksAreCounted }
{}

/// The record of a tick in which nothing happens but time has no entry. So waiting is not written.
///
/// Not said: which ticks are quiet.
/// Mistake: a cell that holds what its timer has reached, and not when it began, `cell_as_it_runs`.
/// Witness: `is_quiet` of EventExamples, a tick of a controller that has tripped.
pub fn quiet_ticks_write_nothing()
    ensures { QuietTicksWriteNothing }
{}
