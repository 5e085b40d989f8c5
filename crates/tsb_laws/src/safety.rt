//! The safety case of the controller, each law the contract of a function that does nothing.
ghost use Rattle.tsb_laws.specs.Intergreens.{IntergreensHold, WalksAreCleared};
ghost use Rattle.tsb_laws.specs.RedReverts.{RedRevertsHold};
ghost use Rattle.tsb_laws.specs.Commitments.{CommitmentsAreServed, EnabledAreServed};
ghost use Rattle.tsb_laws.specs.Crossings.{CrossingsComplete};
ghost use Rattle.tsb_laws.specs.AllRed.{AllRedEnds};
ghost use Rattle.tsb_laws.specs.Coordination.{CoordinatedEndByForceOff, OmittedAreNotServed};

/// `greens`: The intergreen holds. Between the tick that ends a green and the one that starts a phase which is not
/// concurrent there are at least the yellow change and the red clearance of the first, across inputs of every kind.
/// Each time is that of the plan in effect when what it times ends.
///
/// Needs: an untripped stretch.
/// Mistake: a clearance that is over as its yellow ends, `over_after_yellow` (`clears_on`, `waits_3`, `would_start_3`).
/// Witness: `an_intergreen` of CommitmentRuns.
///
/// `walks`: Pedestrians have cleared before a conflicting green. From the beginning of a walk to the end of its green
/// there are at least its walk and its pedestrian clearance, and then comes the intergreen. This holds of each walk,
/// whether it begins with the green or within it. Under a preempt that ends the phase these are the smaller times.
///
/// Needs: an untripped stretch.
/// Not said: that the time is enough to cross the road.
/// Mistake: a green that waits for the walk alone, `ready_after_walk` (`is_not_ready`, `would_be_ready`).
/// Witness: `a_walk` of WalkRuns.
pub fn intergreens_hold()
    ensures greens { IntergreensHold }
    ensures walks { WalksAreCleared }
{}

/// The red revert holds. Between the tick that ends the yellow of a phase and the next one that starts it there is at
/// least its red revert, the larger of its own and the unit's by the plan in effect at the start. From the end of that
/// yellow its head is red, or it is not enabled. No tick ends the yellow of a phase and starts the phase as well.
///
/// Needs: that the phase was Yellow, and an untripped stretch since then.
/// Mistake: a timer that never starts, `never_reverts` (`waits_2`, `is_too_early`, `would_start_2`).
/// Witness: `starts_again` of RedRevertRuns.
pub fn red_reverts_hold()
    ensures { RedRevertsHold }
{}

/// Only enabled phases are served. Each phase in service is enabled, and so is each that a ring is committed to.
///
/// Mistake: a commit of `phaseEnabled` that does not wait, `disabling` (`has_to_wait`, `would_be_disabled`,
/// `would_be_green`).
/// Witness: `a_service` of CrossingRuns.
pub fn enabled_are_served()
    ensures { EnabledAreServed }
{}

/// A commitment is served in time. Outside a crossing, the commitment that is made as a green ends starts within the
/// larger of that phase's yellow change and red clearance and its own red revert, whatever inputs come.
///
/// Needs: an untripped stretch without a preempt in service that chooses anew, and without an overlap that trails; at
/// most 16 phases, as every plan in memory has. Where a commit changes a time meanwhile, the largest counts.
/// Not said: that a call leads to a commitment.
/// Mistake: a start that waits for the other ring to clear, `may_start_alone` (`starts_2`, `would_wait`), and by
/// `waits_for_both` for longer than the 40 ticks that are given (`would_not_start`).
/// Witness: `a_commitment` of CommitmentRuns.
pub fn commitments_are_served()
    ensures { CommitmentsAreServed }
{}

/// A crossing of the barrier is completed in time. It ends within one tick and the larger of the clearances of the
/// phases in service and the red reverts of the phases committed to, whatever inputs come: its side is served, and what
/// it committed the rings to is Green.
///
/// Needs: as `commitments_are_served`.
/// Not said: that a call on another side leads to a crossing.
/// Mistakes: a crossing that wants a commitment of each ring, `may_start_committed` (`starts_3`, `would_not_complete`);
/// a ring that clears only for a commitment, `clears_committed`, for longer than the 31 ticks that are given
/// (`would_not_cross`).
/// Witness: `a_crossing` of CrossingRuns.
pub fn crossings_complete()
    ensures { CrossingsComplete }
{}

/// A coordinated green ends only by its force-off. While a pattern runs and no preempt is in service, a tick ends a
/// coordinated green only where its force-off instant is this tick, this tick is in the permissive time of the pattern
/// behind that, or it was forced off in an earlier one of this green. Where the local counter takes two steps in a
/// tick, both count.
///
/// Needs: an untripped run; at most 16 phases.
/// Not said: that the earlier tick was its instant too, where a commit has made the phase coordinated since.
/// Mistakes: a green that a gap ends (`is_held`, `would_time_out`); a force-off that a faster local counter passes,
/// `where_it_comes_to` (`comes_there`, `would_pass_it`).
/// Witness: `a_coordination` of CoordinationRuns, and with two steps in the tick `a_faster_one`.
pub fn coordinated_end_by_force_off()
    ensures { CoordinatedEndByForceOff }
{}

/// What a pattern omits is not served. In a tick in which no preempt is in service an omitted phase starts only where a
/// ring was committed to it before, and no ring commits to it anew.
///
/// Needs: an untripped run; at most 16 phases.
/// Mistake: a call that an omit leaves, `omits_3` (`is_not_callable`, `would_be_called`).
/// Witness: `an_omission` of CoordinationRuns.
pub fn omitted_are_not_served()
    ensures { OmittedAreNotServed }
{}

/// All red ends while a phase is callable or a preempt is in service. While this holds in each tick, be it by one
/// phase or by another, all red lasts for at most the largest red revert and two ticks, whatever inputs come.
///
/// Needs: as `commitments_are_served`, and that no value of the plan is over the greatest of its object.
/// Not said: which phase starts then. Where no phase is callable and no preempt is in service, all red may last.
/// Mistake: a crossing that begins only from greens, `joins_from_green` (`is_idle`, `would_not_join`), by which all red
/// lasts for more than the 52 ticks that are given (`would_stay_red`).
/// Witness: `an_all_red`, of 18 ticks, the end of a red revert of 50 (all of AllRedRuns).
pub fn all_red_ends()
    ensures { AllRedEnds }
{}
