//! What a status shows to be left of a time is when that time runs out, each law the contract of a function that does
//! nothing. In each tick of the stretch the time has to be as long as it was shown. What has nothing left, as where a
//! commit made a time shorter than has passed of it, runs out in the next tick.
ghost use Rattle.tsb_laws.specs.TimesLeft.{ClearancesAreOverAsShown, ClearancesEndAsShown, ForceOffsComeAsShown, GapsExpireAsShown, InitialsPassAsShown, LacksAreShown, MaximumsPassAsShown, RedClearsEndAsShown, RedRevertsPassAsShown, WalksEndAsShown, YellowsEndAsShown};

/// A yellow ends as the status shows. With n ticks left it goes on up to the n-th tick, and ends in it, whatever inputs
/// come.
///
/// Needs: an untripped stretch. In each of its ticks the yellow change of the phase is as long as it was shown.
/// Mistake: a status that shows what is left once the next tick has passed, `sooner` (`yellow_would_show_29`,
/// `yellow_at_29`, `red_clear_at_30`).
/// Witness: `a_yellow` of ClearingRuns, of 30 ticks.
pub fn yellows_end_as_shown()
    ensures { YellowsEndAsShown }
{}

/// A red clearance is done as the status shows. With n ticks left the phase is over in the n-th tick, and in none before.
///
/// Needs: as `yellows_end_as_shown`, of the red clearance.
/// Not said: that its ring then starts another phase. Until it does, the phase stays in red clearance.
/// Mistake: as of yellows (`red_clearance_would_show_9`, `not_over_in_9`, `over_in_10`).
/// Witness: `a_red_clearance` of ClearingRuns, of 10 ticks.
pub fn red_clears_end_as_shown()
    ensures { RedClearsEndAsShown }
{}

/// A walk ends as the status shows. With n ticks left it goes on up to the n-th tick, and ends in it.
///
/// Needs: an untripped stretch. In each of its ticks the walk time is as long as it was shown: a preempt that comes to end
/// the phase may cut it short. In the n-th tick the phase does not rest in walk.
/// Mistake: as of yellows (`walk_would_show_9`, `stages_on`).
/// Witness: `a_walk` of LeftRuns, of 10 ticks.
pub fn walks_end_as_shown()
    ensures { WalksEndAsShown }
{}

/// A pedestrian clearance ends as the status shows. With n ticks left it goes on up to the n-th tick, and ends in it.
///
/// Needs: an untripped stretch. In each of its ticks the clearance time is as long as it was shown: a preempt that comes
/// to end the phase may cut it short.
/// Mistake: as of yellows (`clearance_would_show_9`, `stages_on`).
/// Witness: `a_clearance` of LeftRuns, of 10 ticks.
pub fn clearances_end_as_shown()
    ensures { ClearancesEndAsShown }
{}

/// A green has lasted its initial time as the status shows. With n ticks left it has lasted that time in the n-th tick,
/// and in none before; so the green goes on until then.
///
/// Needs: an untripped stretch. In each of its ticks the time that the green has to last is as long as it was shown.
/// Not said: that the green ends then, which takes a gap, a maximum, a force-off or a preempt.
/// Mistake: as of yellows (`initial_would_show_19`, `stages_on`).
/// Witness: `an_initial` of LeftRuns, of 20 ticks.
pub fn initials_pass_as_shown()
    ensures { InitialsPassAsShown }
{}

/// A gap expires as the status shows. With n ticks left it has expired in the n-th tick, and in none before.
///
/// Needs: an untripped stretch. No output of the phase was on in the tick that was shown. In each tick of the stretch the
/// phase was Green, no output of it is on, and its gap is as long as it was shown.
/// Not said: anything of a gap that is being reduced, which runs out sooner, or of one whose output is still on.
/// Mistake: as of yellows (`gap_would_show_22`, `stages_on`).
/// Witness: `a_gap` of LeftRuns, of 23 ticks.
pub fn gaps_expire_as_shown()
    ensures { GapsExpireAsShown }
{}

/// A green maxes out as the status shows. With n ticks left it has maxed out in the n-th tick, and in none before.
///
/// Needs: an untripped stretch. In each of its ticks the phase was Green and has a conflict, and the maximum that acts on
/// it is as long as it was shown.
/// Not said: that the green ends then: its walk and its initial time come first, and the barrier may keep it.
/// Mistake: a maximum that is shown from the beginning of the green (`maximum_would_show_19`,
/// `maxes_out_in_20`).
/// Witness: `a_maximum` of LeftRuns, of 20 ticks.
pub fn maximums_pass_as_shown()
    ensures { MaximumsPassAsShown }
{}

/// A clearance that a phase waits for is done as shown. Where a phase waits for another to clear, n ticks long, that
/// one is over in the n-th tick, and in none before.
///
/// Needs: an untripped stretch. In each of its ticks the yellow change and the red clearance of that phase are as long as
/// they were shown. If the phase is in yellow, something is left of that. Nothing is left only where a commit has made it
/// shorter, and then the clearance takes a tick more than is shown.
/// Not said: that the phase that waits then starts. It may wait for something else.
/// Mistake: a wait that leaves out the red clearance (`wait_would_show_30`, `not_over_in_30`).
/// Witness: `a_wait` of ClearingRuns, of 40 ticks.
pub fn clearances_are_over_as_shown()
    ensures { ClearancesAreOverAsShown }
{}

/// A red revert that a phase waits for has passed as shown. A phase waits n ticks for its own red revert, or for that of
/// the phase that starts with it. In the n-th tick that has passed, and in none before.
///
/// Needs: an untripped stretch. In each of its ticks the red revert is as long as it was shown. The phase is one of 1 to
/// 16 and not in yellow change, as its red revert begins when that ends.
/// Not said: that the phase then starts.
/// Mistake: a wait that shows what is left once the next tick has passed (`would_show_19`, `not_in_19`, `reverts_in_20`).
/// Witness: `a_red_revert` of RevertRuns, of 20 ticks.
pub fn red_reverts_pass_as_shown()
    ensures { RedRevertsPassAsShown }
{}

/// The local counter comes to a force-off instant as the status shows. With n ticks left it is at the instant after n
/// ticks, and not before.
///
/// Needs: that the local counter is in step in both states. The pattern that runs, its cycle, its offset and the instant
/// of the phase are as they were.
/// Not said: that the green ends then, for which it needs a conflict.
/// Mistake: an instant that is counted from local zero (`would_show_760`, `there_at_19`).
/// Witness: `a_force_off` of ForceOffRuns, of 19 ticks.
pub fn force_offs_come_as_shown()
    ensures { ForceOffsComeAsShown }
{}

/// What a green lacks is what its ring shows to be left. A phase may wait for a green of its ring that lacks its walk, its
/// pedestrian clearance, its initial time or its gap. Then the status of the ring shows just as much to be left of that,
/// and the laws above are of such waits too.
///
/// Needs: nothing; it is of any state.
/// Mistake: a wait that shows the whole walk (`would_lack_10`).
/// Witness: `a_lack` of LackRuns.
pub fn lacks_are_shown()
    ensures { LacksAreShown }
{}
