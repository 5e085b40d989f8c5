//! How the controller operates: calls, greens, overlaps, the dynamic maximum and preempts. Each law is the contract of
//! a function that does nothing.
ghost use Rattle.tsb_laws.specs.KeptCalls.{CallsAreRemembered, PedestrianCallsStand, VehicleCallsStand};
ghost use Rattle.tsb_laws.specs.CrossingGreens.{CommittedRingsClear};
ghost use Rattle.tsb_laws.specs.GreenEnds.{GreensEndForAReason};
ghost use Rattle.tsb_laws.specs.InStep.{ComeIntoStep, OnceInStep, SelectedInStep, SelectionsGoOn};
ghost use Rattle.tsb_laws.specs.LateGreens.{LateGreensAreReady, LateGreensMayEnd};
ghost use Rattle.tsb_laws.specs.Options.{OptionsOffChangeNothing};
ghost use Rattle.tsb_laws.specs.OverlapPhases.{OverlapsEndWithAGreen, OverlapsGoWithPhases, OverlapsLastAcrossRings, TrailsBeginWithAGreen};
ghost use Rattle.tsb_laws.specs.PatternEnds.{FloatingGreensAreReady, FloatingGreensMayEnd, MaximumGreensAreReady, MaximumGreensMayEnd, PermittedGreensAreReady, PermittedGreensMayEnd};
ghost use Rattle.tsb_laws.specs.PreemptEntries.{PreemptsLetInTheirOwn};
ghost use Rattle.tsb_laws.specs.PreemptChoices.{ChosenDwellsAreReached, ChosenStagesAreReached};
ghost use Rattle.tsb_laws.specs.PreemptStages.{DwellsAreReached, ExitsEnd, StagesAreReached};
ghost use Rattle.tsb_laws.specs.PreemptTurns.{PreemptsGiveWay, ServicesEnd};
ghost use Rattle.tsb_laws.specs.PreemptWorksheets.{PrintedEntriesHold};
ghost use Rattle.tsb_laws.specs.RecycledWalks.{RecycledCallsWalk, RecycledWalksEndInTime};
ghost use Rattle.tsb_laws.specs.RunningMaximum.{MaximumsAreBounded, MaximumsMoveByAStep, OthersLeaveMaximums};
ghost use Rattle.tsb_laws.specs.UnwantedGreens.{UnwantedGreensEnd};
ghost use Rattle.tsb_laws.specs.WantedStarts.{WantedPhasesStart};
ghost use Rattle.tsb_laws.specs.ServedCalls.{PressedGreensMayEnd, CalledPhasesCome, CrossingsBegin, CalledPhasesAreServed};
ghost use Rattle.tsb_laws.specs.CoordinatedGreens.{CalledPhasesAreServedInPatterns, CoordinatedAreAwaited, CoordinatedPhasesAreServed, ForceOffsCome, ForcedGreensMayEnd, ReadyGreensMakeWay};

/// `remembered`: What calls is remembered, or served at once. An output that calls an enabled, locking phase which was
/// not Green is in vehicle memory after the tick, or the phase turns Green in it; a button that calls an enabled phase
/// with a walk which was not in Walk is in pedestrian memory, or the walk begins.
///
/// Needs: an untripped run; at most 16 phases.
/// Not said: anything of a detector whose output is held back by its delay or its alarm.
/// Mistake: a phase that remembers an output only while it is Red, `remembers_in_red` (`remembers_2`,
/// `would_forget_2`).
/// Witness: `is_remembered_4`, `is_remembered_2` of KeptCallRuns.
///
/// `vehicles`: No vehicle call is lost. A remembered one stands over inputs of every kind, commits, preempts and trips
/// among them, until its phase turns Green.
///
/// Needs: no reset of a trip, which takes all calls back.
/// Not said: that its phase ever turns Green.
/// Mistake: a memory that falls with the output, `falls_with_output` (`stands_4`, `would_lose_4`).
/// Witness: `a_call` of KeptCallRuns.
///
/// `pedestrians`: No pedestrian call is lost. A remembered one stands over inputs of every kind until the walk of its
/// phase begins, also where the phase starts without it, as under a preempt.
///
/// Needs: no reset of a trip; at most 16 phases.
/// Not said: that the walk ever begins.
/// Mistake: a call that falls as its phase starts, `falls_at_start` (`starts_2`, `stands_2`, `would_lose_2`).
/// Witness: `a_call` of KeptCallRuns.
pub fn calls_are_kept()
    ensures remembered { CallsAreRemembered }
    ensures vehicles { VehicleCallsStand }
    ensures pedestrians { PedestrianCallsStand }
{}

/// A green ends for a reason. With no preempt in service it has lasted its initial time, added initial included. In
/// free operation it ends by its gap, and then has no maximum recall, or after its maximum of conflict. While a pattern
/// runs it ends by its gap, after the maximum of `coordMaximumMode` if there is one, or by its force-off, a coordinated
/// phase by that alone. Under a preempt only a phase ends that this does not want. The gap means that no output was on
/// in so many ticks, the maximum that each of so many had a conflict, and floating force-off that the green has lasted
/// so many.
///
/// Needs: an untripped run; at most 16 phases.
/// Not said: that a green with a reason ends, as its ring may want no other phase.
/// Mistakes: a gap that ends a green before its added initial, `queued` (`is_not_ready`, `would_end`), or on maximum
/// recall, `recalled` (`stays_green`, `would_gap_out`); a preempt that ends what it wants, `ends_every` (`is_wanted`,
/// `would_end_3`).
/// Witness: `a_green_end` of GreenEndRuns, by its gap; `a_maximum_end` by its maximum, while an output is on;
/// `a_coordinated_end` and `another_end` by force-off, of a coordinated phase and of another; `a_preempted_end`.
pub fn greens_end_for_a_reason()
    ensures { GreensEndForAReason }
{}

/// An overlap goes with its phases. Where its head is green or yellow, and it is no arrow, a phase that it includes is
/// in service. So each phase in service, and each with right of way, is that phase or concurrent with it.
///
/// Not said: anything of arrows, which `arrows_go_with_phases` has; that it is concurrent with the other phases that the
/// overlap includes. Nothing of a lamp that a fault lights.
/// Mistake: an overlap that is green as soon as a ring is committed to one of them, `green_by_commitment` (`serves_3`,
/// `are_apart`, `shows_red`, `would_show_green`).
/// Witness: `an_overlap` of OverlapRuns.
pub fn overlaps_go_with_phases()
    ensures { OverlapsGoWithPhases }
{}

/// `ends`: An overlap leaves green with a green. A tick that turns the head of a normal overlap from green to yellow
/// ends the green of a phase that it includes. So it is with `overlapAcrossRings` and without it.
///
/// Not said: anything of overlaps of type minusGreenYellow, from which a modifier phase takes the green, of arrows, or
/// of overlaps that trail.
/// Mistake: an overlap across rings that counts the other ring's commitment alone, `keeps_by_the_other_ring` of
/// Mistakes of tsb_heads (`red_before_8`, `would_be_green`, `would_drop`).
/// Witness: `goes_over` of OverlapRuns, in which phase 1 has just left its green.
///
/// `across`: With `overlapAcrossRings` an overlap does not leave green between two phases of the two rings. Included
/// phase 1, say, is in yellow change or red clearance, its ring is committed, and the other ring to included phase 8,
/// with which phase 1 is not concurrent. So both rings cross the barrier. Then the head of a normal overlap is green,
/// and it is green after the next tick too. This holds in each tick until phase 8 is Green, as commitments stand.
///
/// Needs: a tick that does not trip the monitor.
/// Not said: anything of overlaps that trail, and anything where the ring of phase 1 is committed to no phase; it may be Red before phase 8 is Green.
/// Mistake: an overlap that counts its own ring alone, `by_own_ring` (`shows_green`, `would_leave_green`).
/// Witness: `goes_over` of OverlapRuns.
///
/// `trails`: An overlap begins to trail with the end of a green. A tick after which its phases keep it green no more ends
/// the green of a phase that it includes.
///
/// Needs: that the controller has not tripped.
/// Not said: how long it trails.
/// Mistake: an overlap that begins to trail with the red clearance of its phase, `kept_through_yellow` of ArrowMistakes
/// (`trails_then`, `would_trail_late`).
/// Witness: `trails_then` of ArrowMistakes.
pub fn overlaps_last_across_rings()
    ensures ends { OverlapsEndWithAGreen }
    ensures across { OverlapsLastAcrossRings }
    ensures trails { TrailsBeginWithAGreen }
{}

/// `bounded`: The maximum in use stays between the smaller and the larger of the maximum and the limit of the dynamic
/// maximum. Both are those of the plan in effect, also where a commit has just changed them.
///
/// Mistake: a running maximum that is used as it was kept, `as_kept` (`is_held_at_400`, `would_be_900`).
/// Witness: `is_held_at_400` of MaximumRuns, a running maximum that is over the limit.
///
/// `steps`: The maximum in use moves by one step a green at most. Where it moves, the tick ends the green of the phase,
/// in free operation and with no preempt in service.
///
/// Not said: which way it moves.
/// Mistake: a step that is read in seconds, `by_seconds` (`goes_to_250`, `would_go_to_400`).
/// Witness: `goes_to_250` of MaximumRuns.
///
/// `others`: No other input moves the maximum in use. A commit that changes the plan may, and the reset of a trip.
///
/// Mistake: a pattern that begins it anew (`stays_300`, `would_be_200`).
/// Witness: `stays_300` of MaximumRuns.
pub fn maximums_move_by_steps()
    ensures bounded { MaximumsAreBounded }
    ensures steps { MaximumsMoveByAStep }
    ensures others { OthersLeaveMaximums }
{}

/// `turns`: A preempt in service gives way only to a lower one, or in its exit to its own new request. Otherwise it goes
/// on, in the same stage or a later one, over inputs of every kind.
///
/// Mistake: any request takes over (`asks_2`, `serves_1`).
/// Witness: `was_2`, `is_1` of PreemptRuns, a preempt that gives way.
///
/// `ends`: A service ends only from its exit or its dwell. From its exit it ends with all exit phases Green, and from
/// its dwell only where it has no exit phases.
///
/// Not said: when a dwell ends. The reset of a trip ends a service too.
/// Mistake: an exit that comes only where there is a track list, `by_track_list` (`goes_to_exit`, `would_be_over`).
/// Witness: `goes_to_exit` of PreemptRuns.
pub fn preempts_give_way()
    ensures turns { PreemptsGiveWay }
    ensures ends { ServicesEnd }
{}

/// No phase is Green while a crossing of the barrier is under way. A ring that is committed has no green phase either;
/// and outside a crossing the phase that it is committed to is not in service.
///
/// Mistake: a ring that joins in a crossing before its green is ready, `joins_early` (`stays_2`, `does_not_cross`,
/// `would_cross`).
/// Witness: `crosses`, `ends_2` of CrossingGreenRuns, in which a crossing begins.
pub fn crossings_have_no_green()
    ensures { CommittedRingsClear }
{}

/// Under a preempt only what it wants enters. In a tick in which one is in service, a phase starts only where the preempt
/// wants it or where a ring was committed to it before; and a ring commits anew only to what the preempt wants.
///
/// Needs: an untripped run.
/// Not said: that what it wants enters, and when.
/// Mistake: a preempt in whose service rings go on by calls, `by_calls` (`rests`, `would_go_to_4`).
/// Witness: `an_entry` of PreemptEntryRuns.
pub fn preempts_let_in_their_own()
    ensures { PreemptsLetInTheirOwn }
{}

/// Under a preempt a green that it does not want ends once it is ready, or waits for the barrier. If it stays Green in a
/// tick in which it is ready, then a ring is committed, or another green is not ready.
///
/// Needs: an untripped run; at most 16 phases.
/// Not said: for how long it waits.
/// Mistake: a preempt in whose service rings go on by calls, and rest where none is, `by_calls` (`is_unwanted`, `is_fit`,
/// `ends_2`, `would_rest`).
/// Witness: `a_wait` of UnwantedGreenRuns, in which 1 waits for 6.
pub fn unwanted_greens_end()
    ensures { UnwantedGreensEnd }
{}

/// Under a preempt a phase that it wants starts as soon as it may, where nothing keeps it. It may start on the side that is
/// served, outside a crossing, once its red revert has passed and no phase of its ring is in service. What keeps it is a
/// phase in service that it is not concurrent with, or a ring that is committed.
///
/// Needs: an untripped run; at most 16 phases.
/// Not said: for how long it is kept.
/// Mistake: a preempt in whose service rings go on by calls, `by_calls` (`wants_1`, `would_go_to_2`).
/// Witness: `a_start` of WantedPhaseRuns, in which 1 starts (`starts_1`).
pub fn wanted_phases_start()
    ensures { WantedPhasesStart }
{}

/// `stages`: A preempt reaches each stage in time. While it stays in a stage, be it track, dwell or exit, all phases of
/// that stage are Green within a time that the plan gives, from any moment on and whatever inputs come. That time is the
/// larger of the walk and pedestrian clearance left to a green and of the wait and the green of an older commitment,
/// then the clearance or the red revert, and four ticks.
///
/// Needs: an untripped stretch; at most 16 phases; no overlap that trails. Where a commit changes a time meanwhile, the
/// largest counts, of walk and of pedestrian clearance each.
/// Not said: that they stay Green. A lower preempt, or a time of dwell that has passed, may end the stage before.
/// Mistakes: a preempt whose rings look for its phases on their own side alone, `looks_here` of MistakenRuns, for more
/// than the 75 ticks that are given (`reaches_within_75`, `would_not_reach`); one whose rings rest where it wants the
/// other side, `rests_here` (`wants_to_cross`, `would_rest`).
/// Witness: `a_stage` of PreemptStageRuns, which takes 69 ticks of the 75 (`waits_for_4`, `serves_4`).
///
/// `exits`: A preempt leaves its exit in time. It stays in its exit for that time at most, and the next tick ends its
/// service, or begins another one.
///
/// Needs: as `stages`.
/// Mistakes: an exit that the phases of the dwell end, `ends_by_dwell` (`is_over`, `would_stay`); rules that let phases
/// in an exit list that are not concurrent, `apart` of MistakenRuns (`is_refused`), for more than the 75 ticks that are
/// given (`would_not_leave`).
/// Witness: `an_exit` of PreemptStageRuns, which takes 39 ticks (`leaves_on`, `is_out`).
pub fn preempts_reach_their_stages()
    ensures stages { StagesAreReached }
    ensures exits { ExitsEnd }
{}

/// A preempt reaches its dwell in time. While it stays in service, before its exit, all of its dwell phases are Green
/// within the time of one stage; with a track list within the time of two, and its track green between them.
///
/// Needs: as `preempts_reach_their_stages`. A lower preempt that takes over ends the stretch.
/// Not said: that its input leads to a service.
/// Mistake: as of `preempts_reach_their_stages`, `looks_here` (`would_not_reach`).
/// Witness: `a_dwell` of PreemptStageRuns, which takes 69 ticks (`has_come`).
pub fn preempts_reach_dwell_in_time()
    ensures { DwellsAreReached }
{}

/// `stages`: A preempt that chooses anew reaches each stage in the time of a worksheet. While it stays in a stage all
/// phases of that stage are Green within a time that the plan gives, from any moment on and whatever inputs come. That
/// time is the largest of the least green and a tick, of the walk and pedestrian clearance left to a green, and of the
/// red revert; then the yellow change and red clearance, or a longer red revert, and four ticks.
///
/// Needs: as `preempts_reach_their_stages`; no overlap that lasts through a clearance by a commitment.
/// Not said: that they stay Green.
/// Mistake: a preempt that still has rings serve what they were committed to, which takes longer than the 45 ticks that
/// are given (`would_give_45`, `would_be_late`).
/// Witness: `a_choice` of PreemptChoiceRuns, which takes 29 ticks (`waits_anew`, `comes_anew`).
///
/// `dwells`: So it reaches its dwell. With a track list it does so within the time of two stages, and its track green
/// between them.
///
/// Needs: as `stages`.
/// Mistake: as of `stages` (`would_be_late`).
/// Witness: `a_chosen_dwell` of PreemptChoiceRuns.
pub fn preempts_that_choose_come_sooner()
    ensures stages { ChosenStagesAreReached }
    ensures dwells { ChosenDwellsAreReached }
{}

/// The longest entry of a worksheet holds. A preempt that stays in the stage in which its service began has all phases of
/// it Green within the time that `tsb_field worksheet` prints for it, whatever inputs come.
///
/// Needs: an untripped stretch in which the plan in effect stays, and no overlap of it trails; at most 16 phases.
/// Not said: that its input leads to a service, and when; how long its delay lasts.
/// Mistake: an entry without the clearance of an older commitment, `one_clearance` of WorksheetRuns (`would_print_45`,
/// `would_be_late`).
/// Witness: `a_printed_entry` of WorksheetRuns, which takes 69 ticks of 75; `a_chosen_entry` 29 of 45 (`prints_45`).
pub fn printed_entries_hold()
    ensures { PrintedEntriesHold }
{}

/// A green that has had a conflict for long enough may end. In free operation and with no preempt in service, once it
/// has had one in each tick for its maximum, its initial time and its walk with clearance, it is ready in the next tick.
/// So it is with maximum recall, with detectors that stay on, and whatever commits come meanwhile.
///
/// Needs: an untripped run; at most 16 phases.
/// Not said: that it then ends, as its ring may wait for the barrier.
/// Mistake: a green that extends while an output is on, `extended`, also in the tick in which it has to be ready
/// (`is_ready_then`, `would_extend`).
/// Witness: `a_press` of ServedRuns, of 10 ticks (`is_not_ready_yet`, `is_ready_then`).
pub fn pressed_greens_may_end()
    ensures { PressedGreensMayEnd }
{}

/// A called phase comes in its turn. In free operation and with no preempt in service, where it is still to come in the
/// order of its ring, on the side that is served, it is Green within a time that the plan gives: what the ring has begun,
/// and the turns of the phases that are still to come on that side. However many other calls come, it is not passed over.
///
/// Needs: a plan in which all phases of one side and of different rings are concurrent and no overlap trails; a call that
/// stays, and no commit; an untripped run; at most 16 phases.
/// Not said: that a phase of another side is served, or one that its ring has passed (`called_phases_are_served`).
/// Mistake: a ring that crosses the barrier as soon as another side is called, `crosses_first` (`goes_to_2`,
/// `would_cross`), for more than the 83 ticks that are given (`comes_within_83`, `would_not_come` of MistakenRuns).
/// Witness: `a_turn` of ServedRuns, of 41 ticks.
pub fn called_phases_come()
    ensures { CalledPhasesCome }
{}

/// A crossing begins where another side is called. In free operation and with no preempt in service, while a phase of
/// another side is called in each tick, both rings come to the end of their order on the side that is served, and a
/// crossing of the barrier begins within a time that the plan gives: what both have begun, and the turns of the phases
/// that are still to come there.
///
/// Needs: a plan in which all phases of one side and of different rings are concurrent and no overlap trails; a call that
/// stays, and no commit; an untripped run; at most 16 phases.
/// Not said: that the crossing goes to the side of that phase; it goes to the next side that is called.
/// Mistake: a ring that goes round its order though another side is called, `goes_round` (`wants_to_cross`,
/// `would_go_to_1`). No run that breaks the bound is computed, since it would be of over 200 ticks.
/// Witness: `a_barrier` of ServedRuns, of 50 ticks.
pub fn crossings_begin()
    ensures { CrossingsBegin }
{}

/// A called phase is served in time. In free operation and with no preempt in service, a phase that stays called is
/// Green within a time that the plan gives (`time_to_serve`), on whatever side it is, and wherever the rings have come.
/// That time is a crossing that is under way, the time to leave its side, the turns of all phases of other sides with a
/// crossing for each side, and the turns of its ring on its own. To leave its side its ring may be called on to each phase
/// beside it, and wait each time for all turns across. A preempt may have left the rings as it likes.
///
/// Needs: a plan in which all phases of one side and of different rings are concurrent and no overlap trails; a call that
/// stays, and no commit; an untripped run; at most 16 phases.
/// Not said: that its walk begins; anything while a pattern runs or a preempt is in service.
/// Mistakes: a crossing that goes to the lowest side that is called, `lowest_side` (`goes_to_side_3`,
/// `would_go_to_side_1`); a ring that goes round its order, as of `crossings_begin` (`would_go_to_1`). No run that
/// breaks the bound is computed, since it would be of over 900 ticks.
/// Witness: `a_service` of ServedRuns, of 81 ticks.
pub fn called_phases_are_served()
    ensures { CalledPhasesAreServed }
{}

/// `awaited`: A coordinated phase is called whenever it is not Green. While a pattern runs each of its coordinated phases
/// is callable in every tick in which it is not Green, also where nothing else calls it. So each green that is not
/// concurrent with it has a conflict.
///
/// Not said: when it turns Green, which is in `phases_are_served_in_patterns`.
/// Mistake: a pattern that gives its coordinated phases no recall, `by_itself` (`would_not_be_called`).
/// Witness: `an_awaited` of CoordinatedRuns.
///
/// `instants`: A force-off comes in each cycle. While a pattern runs and its local counter is in step, this is at the
/// force-off instant of each enabled phase within a cycle. So it is if plan and pattern stay as they are.
///
/// Not said: anything of a local counter that comes into step, by which a cycle takes longer or shorter.
/// Mistake: an instant that is not taken within the cycle, `past_the_cycle` (`would_never_come`).
/// Witness: `a_pattern` of CoordinatedRuns.
///
/// `forced`: A green that is forced off may end, whatever calls it. Where it has a conflict in each tick, and has been
/// forced off, at its instant, late or in its permissive time, it is ready as soon as its initial time, its walk and
/// its pedestrian clearance have passed. This holds of coordinated phases and all others, also where a green began
/// behind its instant, and while the local counter comes into step.
///
/// Needs: a pattern that runs, and no preempt in service; no pattern selected and nothing committed meanwhile; an untripped
/// run; at most 16 phases.
/// Not said: that it ends then, as it may wait for the other ring at the barrier.
/// Mistake: a force-off that counts in the tick of its instant alone, `forgets_it`, by which the green is not ready in
/// time (`is_ready`, `would_not_be`, `would_not_be_ready`).
/// Witness: `a_forced_green` of PatternWaitRuns, of 10 ticks (`is_not_ready_yet`, `is_ready`).
///
/// `ends`: A green that may end makes way for what waits, or the other ring keeps it at the barrier. With no preempt in
/// service, a green that is ready and has a conflict ends in the tick. Otherwise the other ring is committed, a green of
/// it is not ready, or a phase of it on this side is called. So it is in a pattern and in free operation.
///
/// Needs: a plan in which all phases of one side and of different rings are concurrent; an untripped run; at most 16
/// phases.
/// Not said: for how long the other ring keeps it.
/// Mistake: a ring that looks across the barrier for its own phases alone, `by_own_ring` (`may_end_2`, `has_conflict_2`,
/// `would_rest`).
/// Witness: `a_ready_green` of CoordinatedRuns.
pub fn coordination_goes_on()
    ensures awaited { CoordinatedAreAwaited }
    ensures instants { ForceOffsCome }
    ensures forced { ForcedGreensMayEnd }
    ensures ends { ReadyGreensMakeWay }
{}

/// `called`: A called phase is served in time in a pattern. While a pattern runs and no preempt is in service, a phase that
/// stays called is Green within a time that the plan gives, wherever the rings are and whatever other calls come. That
/// time is the sum that `called_phases_are_served` names, by the turns and the orders of the pattern. A turn is a cycle,
/// or what the phase asks for if that is longer, and what its ring may clear.
///
/// Needs: a plan in which all phases of one side and of different rings are concurrent and no overlap trails; a local
/// counter that is in step as it begins; no pattern selected and nothing committed meanwhile; an untripped run; at most
/// 16 phases.
/// Not said: that its walk begins; anything of a time in which a preempt is in service.
/// Mistake: a ring that looks across the barrier for its own phases alone, `by_own_ring` (`may_end_2`, `has_conflict_2`,
/// `would_rest`). No run that breaks the bound is computed, since it would be of over 1,700 ticks.
/// Witness: `a_wait` of PatternWaitRuns, of 51 ticks.
///
/// `coordinated`: A coordinated phase is served again in time. It is Green within that time, also where nothing calls it,
/// as it is called by its pattern.
///
/// Needs: as `called`.
/// Not said: that it is Green in every cycle; docs/trust/SAFETY.md says why that is false.
/// Mistake: a pattern that gives its coordinated phases no recall, `by_itself` (`would_not_be_called`). No run that
/// breaks the bound is computed, as of `called`.
/// Witness: `a_return` of PatternWaitRuns, of 69 ticks.
pub fn phases_are_served_in_patterns()
    ensures called { CalledPhasesAreServedInPatterns }
    ensures coordinated { CoordinatedPhasesAreServed }
{}

/// Options that are 0 change nothing. Each definition that reads one is then the definition without it. Where
/// `coordForceMode` and all permissive times are 0, a phase is forced off where the local counter is at its force-off
/// instant, and in no other tick; and no green is forced off for its length. Where `coordMaximumMode` is 0, maximums
/// end greens in free operation alone. Where no pattern leads and lags, K20 asks that coordinated splits end at one
/// time, and instants are as counted from the first coordinated phase. Where no phase has pedestrian recycle, none may
/// walk again within its green. Where `coordCorrectionMode` is 0, the local counter is in step at once, also after
/// each selection, and it alone says what is forced off. Where `coordReference` is 0, offsets are counted to local 0.
/// Where no pattern has a permissive time, K23 asks for nothing. Where no overlap has `overlapAcrossRings`, overlaps
/// last through a clearance by the ring of its phase alone. Where no preempt has `preemptChoosesAnew`, no ring gives up
/// what it is committed to. So it is in every tick, for each
/// phase, and whatever pattern is selected.
///
/// Needs: for what instants are counted from, a plan that breaks no rule and a pattern that is used.
/// Mistakes: force-off that is late whatever the mode is, `late_always` (`is_not_asked`, `would_ask`); that floats,
/// `floating_always` (`is_not_forced`, `would_be_forced`); a permissive time where there is none, `permits_always`
/// (`is_not_permitted`, `would_permit`); a maximum that acts in patterns, `maximum_always` (`is_not_out`,
/// `would_be_out`); a K20 that lets splits end apart (`ends_at_another_time`, `would_agree`); instants from the begin
/// of the cycle, `from_the_begin` (`is_counted`, `would_be_later`); a second walk in each coordinated green,
/// `recycles_always` (`is_not_recycled`, `would_walk_again`); a local counter that takes the short way whatever the
/// mode is, `steps_always` (`is_in_step_at_once`, `would_lag`); a selection that goes on from the old counter whatever
/// the mode is, `goes_on_always` (`begins_in_step`, `would_begin_ahead`); a K23 that asks for a time, `asks_for_time`
/// (`ends_in_time`, `would_refuse`); an overlap that goes on across rings always, `across_always`
/// (`is_not_followed`, `would_follow`); preempts that always choose anew, `anew_always` (`is_not_anew`,
/// `would_choose_anew`); offsets that are always counted to the first green, `to_green_always` (`is_at_100`,
/// `would_be_at_650`).
/// Witness: `two_has_none`, `quad_has_none` of OptionMistakes, the built-in plans.
pub fn options_off_change_nothing()
    ensures { OptionsOffChangeNothing }
{}

/// `selected`: A pattern that is selected in free operation is in step. Its local counter is that of the cycle and the
/// offset after each input from then on, also where `coordCorrectionMode` is not 0. That ends where another pattern is
/// selected. So it is too with one that is selected while the mode is 0. Commits do not change that.
///
/// Mistake: a pattern that begins at local 0, `from_zero` (`would_be_ahead`).
/// Witness: `a_selection` of InStepRuns.
///
/// `stays`: Once in step the local counter stays so. That is over each input but a selection and a commit, by whatever
/// mode it came into step, also in a controller that has tripped.
///
/// Not said: when it comes into step, which `comes` says.
/// Mistake: a counter that goes on to lose by its limit, `loses_on` (`comes_into_step`, `would_fall_behind`).
/// Witness: `a_step` of InStepRuns.
///
/// `comes`: A selected pattern comes into step. Whatever ran before it, its local counter is in step once mode and
/// limit have had the ticks that they need (`IsLongEnough` of tsb_coord). These are counted from the selection, and for
/// a counter as far ahead as it was there. Faults, resets and trips do not change that.
///
/// Needs: a pattern that is used; a limit of 50 at most, as each plan that is read has; no pattern selected and nothing
/// committed meanwhile.
/// Not said: that no fewer ticks are enough.
/// Mistake: a counter that goes on as it began and loses nothing, `loses_nothing` (`comes_into_step`,
/// `would_stay_ahead`).
/// Witness: `a_way_into_step` of InStepRuns, with mode 3.
pub fn counters_are_in_step()
    ensures selected { SelectedInStep }
    ensures stays { OnceInStep }
    ensures comes { ComeIntoStep }
{}

/// A pattern that is selected goes on from the local counter of the one that ran. Where `coordCorrectionMode` is not 0
/// and a pattern is selected while one runs, its local counter stands where that of the old one stood, within its own
/// cycle.
///
/// Needs: a mode that is not 0; with mode 2 or 3 also a limit that is not 0.
/// Not said: how it goes on from there, which tsb_coord says.
/// Mistake: a counter that is in step at once whatever the mode is, `jumps` (`goes_on_from_1`, `would_jump`).
/// Witness: `another_selection` of InStepRuns.
pub fn selections_go_on()
    ensures { SelectionsGoOn }
{}

/// `ready`: A green that is late may end. With `coordForceMode` 1 or 2, a phase that is not coordinated is ready in
/// each tick from its force-off instant up to that of the coordinated phase that it yields to. So it is also past the
/// end of the cycle, and while the local counter comes into step. This holds wherever it is Green with a conflict, its
/// initial time has passed and its pedestrian part is DontWalk; so it needs no gap and no next cycle.
///
/// Needs: no preempt in service; at most 16 phases.
/// Not said: that it ends then, as it may wait for the other ring at the barrier (`coordination_goes_on`).
/// Mistake: force-off at the instant alone, as with mode 0, `at_instant` (`is_ready`, `would_not_be_forced`,
/// `would_not_be_ready`).
/// Witness: `a_late_green` of LateGreenRuns.
///
/// `in_time`: A green that begins after its instant may end in time. Where it is so late in one tick, it is ready as soon
/// as it has had a conflict in each tick for its initial time, and for its walk and pedestrian clearance, whatever calls
/// it. The green may also have begun before its instant.
///
/// Needs: a pattern that runs, and no preempt in service; no pattern selected and nothing committed meanwhile; an untripped
/// run; at most 16 phases.
/// Not said: that it ends then. The span may be over by then: what is forced off stays so.
/// Mistake: as of `ready`, `at_instant`, by which the green is not ready in time (`would_not_be_ready`).
/// Witness: `a_late_wait` of LateGreenRuns, of 10 ticks (`is_not_ready_yet`, `is_ready`).
pub fn late_greens_are_ready()
    ensures ready { LateGreensAreReady }
    ensures in_time { LateGreensMayEnd }
{}

/// `ready`: A green that has lasted its split may end, with floating force-off. With `coordForceMode` 2, a phase that
/// is not coordinated is ready in each tick in which its green has lasted its split less yellow change and red
/// clearance. This holds wherever it is Green with a conflict, its initial time has passed and its pedestrian part is
/// DontWalk; so it needs neither a gap nor its instant.
///
/// Needs: no preempt in service; an untripped run; at most 16 phases.
/// Not said: that it ends then, as it may wait for the other ring at the barrier (`coordination_goes_on`).
/// Mistake: force-off by the cycle alone, as with mode 1, `by_the_cycle` (`is_ready_6`, `would_not_be_forced`,
/// `would_not_be_ready`).
/// Witness: `a_floating_green` of PatternEndRuns.
///
/// `in_time`: A green waits no longer than its split, its initial time and its pedestrian times ask for, with floating
/// force-off. It is ready as soon as it has lasted its split less yellow change and red clearance, and has had a
/// conflict in each tick for its initial time, and for its walk and pedestrian clearance, whatever calls it.
///
/// Needs: a pattern that runs, and no preempt in service; no pattern selected and nothing committed meanwhile; an untripped
/// run; at most 16 phases.
/// Not said: that it ends then.
/// Mistake: as of `ready`, `by_the_cycle`, by which the green is not ready in time (`would_not_be_ready`).
/// Witness: `a_floating_wait` of PatternEndRuns, of 10 ticks (`floating_not_ready`, `is_ready_6`).
pub fn floating_greens_are_ready()
    ensures ready { FloatingGreensAreReady }
    ensures in_time { FloatingGreensMayEnd }
{}

/// `ready`: A maximum ends greens in a pattern, where the plan says so. With `coordMaximumMode` 1 or 2, a phase that is
/// not coordinated is ready in each tick in which a conflict has stood for its `phaseMaximum1` or `phaseMaximum2`. That
/// holds wherever it is Green, its initial time has passed and its pedestrian part is DontWalk.
///
/// Needs: no preempt in service; at most 16 phases.
/// Not said: that it ends then, as it may wait for the other ring at the barrier (`coordination_goes_on`). Of a dynamic
/// maximum nothing, as none acts there.
/// Mistake: maximums that do not act in a pattern, as with mode 0, `free_alone` (`is_maxed`, `would_not_max_out`,
/// `would_be_held`).
/// Witness: `a_maximum_green` of PatternEndRuns.
///
/// `in_time`: A green with a conflict waits no longer in a pattern than its maximum, its initial time and its
/// pedestrian times ask for, where a maximum acts there. It is ready as soon as it has had a conflict in each tick for
/// that maximum, for its initial time, and for its walk and pedestrian clearance, whatever calls it.
///
/// Needs: a pattern that runs, and no preempt in service; no pattern selected and nothing committed meanwhile; an untripped
/// run; at most 16 phases.
/// Not said: that it ends then.
/// Mistake: as of `ready`, `free_alone`, by which the green is not ready in time (`would_be_held`).
/// Witness: `a_maximum_wait` of PatternEndRuns, of 10 ticks (`maximal_not_ready`).
pub fn maximums_end_greens_in_patterns()
    ensures ready { MaximumGreensAreReady }
    ensures in_time { MaximumGreensMayEnd }
{}

/// `ready`: A call within the permissive time is served as one before the instant. A coordinated phase is ready in each
/// tick in which the local counter is at most `patternPermissiveTime` behind its force-off instant. So it is also past
/// the end of the cycle, and while the counter comes into step. This holds wherever it is Green with a conflict, its
/// initial time has passed and its pedestrian part is DontWalk.
///
/// Needs: a permissive time that is not 0; no preempt in service; at most 16 phases.
/// Not said: that it ends then, as it may wait for the other ring at the barrier (`coordination_goes_on`).
/// Mistake: a coordinated phase that is forced off at its instant alone, `at_instant_alone` (`is_permitted_6`,
/// `would_miss_the_call`, `would_wait_a_cycle`).
/// Witness: `a_permitted_green` of PermissiveRuns.
///
/// `in_time`: A coordinated green with a conflict in its permissive time may end in time. It is ready as soon as it has
/// had a conflict in each tick from then on for its initial time, and for its walk and pedestrian clearance.
///
/// Needs: a pattern that runs, and no preempt in service; no pattern selected and nothing committed meanwhile; an untripped
/// run; at most 16 phases.
/// Not said: that it ends then. The permissive time may be over by then: what is forced off stays so.
/// Mistake: as of `ready`, `at_instant_alone`, by which the green is not ready in time (`would_wait_a_cycle`).
/// Witness: `a_permitted_wait` of PermissiveRuns, of 10 ticks (`permitting_not_ready`).
pub fn permissive_times_let_calls_in()
    ensures ready { PermittedGreensAreReady }
    ensures in_time { PermittedGreensMayEnd }
{}

/// A pedestrian call begins a walk within a green, where there is time for it. The phase is a coordinated one of the
/// pattern that runs, with `phasePedestrianRecycle`, was Green in DontWalk and has a pedestrian call. It is in Walk
/// after the tick, and its button is forgotten. This holds while the local counter is in step, where it is forced off
/// in none of the ticks that its walk and its pedestrian clearance take. Nor may a force-off stand for a conflict that
/// it still has. No other walk begins within a green.
///
/// Needs: no preempt in service; an untripped run; at most 16 phases.
/// Not said: anything of a walk that begins with a green.
/// Mistakes: a rule by which the walk alone has to fit, `walk_alone` (`does_not_fit`, `would_fit`); one that asks for a
/// tick more than both take, `tick_more` (`fits`, `would_wait`).
/// Witness: `a_second_walk` of RecycledWalkRuns, in which both take all that is left.
pub fn recycled_calls_walk()
    ensures { RecycledCallsWalk }
{}

/// A walk that begins within a green is over by the next force-off. In the first tick in which its phase is forced off
/// from then on, this was Green all the time, and its walk and its pedestrian clearance are over. So with a conflict it
/// is ready there, once its initial time has passed: no force-off waits for such a walk.
///
/// Needs: up to that tick no pattern selected and nothing committed, no preempt in service and no rest in walk; an
/// untripped run; at most 16 phases.
/// Not said: that the green ends then, as it may wait for the other ring at the barrier (`coordination_goes_on`).
/// Mistakes: a rule by which the walk alone has to fit, `walk_alone` (`would_fit`, `would_still_clear`); one that asks
/// for a tick less than both take, `tick_less` (`would_begin`, `would_lack_one`).
/// Witness: `a_walk_in_time` of RecycledWalkRuns, whose walk takes all that is left.
pub fn recycled_walks_end_in_time()
    ensures { RecycledWalksEndInTime }
{}
