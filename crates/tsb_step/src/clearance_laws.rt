//! What moves have waited for, and what follows a green that ends, each law the contract of a function that does
//! nothing.
ghost use Rattle.tsb_step.specs.ClearanceLaws.{ClearedAreOver, CoordinatedClearAtZero, CoordinatedClearWithTheirSplits, EndedGreensHaveLasted, GreensClearInTime, InStepAtOnce, StartedHaveReverted, StaysInStep};

/// `ended`: A green that ends has lasted its least green and shows DontWalk. This holds at a crossing too, or where a
/// preempt ends it; from any state, not only in runs.
///
/// Not said: anything of walks that ended before.
/// Mistake: a preempt that ends a green at once, `ready_at_once` (`is_not_ready`, `would_be_ready`).
/// Witness: `ends_now` of TimeRuns.
///
/// `cleared`: A phase that goes Red is over. Its yellow change and red clearance have lasted; from any state.
///
/// Mistakes: a phase that is cleared as its green has ended, `clears_at_once` (`is_not_over`, `would_be_cleared`), or
/// in its yellow, `clears_early` of tsb_laws (`does_not_clear`, `would_go_red`).
/// Witness: `starts_4` of TimeRuns.
///
/// `started`: A phase that starts has its red revert timer Off, or has waited for it. This holds from any state.
///
/// Not said: that the timer is on after a yellow.
/// Mistake: a start without a look at red revert, `starting_as_wanted` of tsb_ring (`reverts`, `reverts_not`).
/// Witness: `starts_4` of TimeRuns.
pub fn moves_have_waited()
    ensures ended { EndedGreensHaveLasted }
    ensures cleared { ClearedAreOver }
    ensures started { StartedHaveReverted }
{}

/// Yellow and red clearance come in full. A green of an enabled phase that ends is followed by Yellow for exactly its
/// yellow change and by red clearance for exactly its red clearance. The phase is over in the tick in which these end
/// and in none before, whatever detectors and preempts do meanwhile.
///
/// Not said: anything where an input that is not a tick comes between, such as a commit of another yellow, or where the
/// controller trips.
/// Mistake: a phase that is over as its yellow ends, `over_after_yellow` (`is_not_over`, `would_be_over`).
/// Witness: `ends_now` of TimeRuns.
pub fn greens_clear_in_time()
    ensures { GreensClearInTime }
{}

/// `at_once`: With `coordCorrectionMode` 0 the local counter is in step. This holds in whatever state, and with modes 2
/// and 3 too where `coordCorrectionLimit` is 0.
///
/// Mistake: a counter that goes on from that of the old pattern in each mode, `ahead_in_each_mode`
/// (`is_in_step_at_once`, `would_be_ahead`).
/// Witness: `off_at_once` of CorrectionRuns.
///
/// `stays`: Once in step the local counter stays so, tick after tick. This holds from whatever state, and whatever
/// detectors, buttons and preempts do.
///
/// Needs: only ticks come between. A selection or a commit can take the counter out of step.
/// Not said: that it ever comes into step.
/// Mistake: a counter that loses its ticks anew in each cycle, `lost_anew` (`stays_there`, `would_leave`).
/// Witness: `has_come` of CorrectionRuns.
pub fn local_counters_stay_in_step()
    ensures at_once { InStepAtOnce }
    ensures stays { StaysInStep }
{}

/// `zero`: A coordinated phase that is forced off has cleared at local zero, or within its permissive time of it. Where
/// its green ends at its force-off instant, it is over in a tick after which the local counter is 0; where it ends in
/// its permissive time, the local counter is then at most that time behind 0. Where the pattern leads and lags, this is
/// of the phase that instants are counted from.
///
/// Needs: what `greens_clear_in_time` needs: only ticks come between, and the controller does not trip. The local
/// counter is in step, as it always is with `coordCorrectionMode` 0.
/// Not said: that the green ends at the instant. A force-off waits for the initial time, for pedestrians and for a
/// conflict.
/// Mistakes: those of the law `forced_phases_end_with_their_splits` of tsb_coord, such as `instant_from_own`.
/// Witness: `forced_off`, `counted`, `paced_ends`, `at_zero` of TimeRuns.
///
/// `splits`: A coordinated phase that is forced off has cleared where its split ends, or within its permissive time of
/// it. So it is with each coordinated phase, and where the pattern leads and lags too.
///
/// Needs: what `greens_clear_in_time` needs, and that the local counter is in step.
/// Not said: that the green ends at the instant.
/// Mistake: instants that are counted from the first coordinated phase in a pattern that leads and lags,
/// `counted_from_it` of tsb_coord (`clears_elsewhere`).
/// Witness: `forced_off`, `counted`, `paced_ends`, `at_zero` of TimeRuns.
pub fn coordinated_phases_clear_at_zero()
    ensures zero { CoordinatedClearAtZero }
    ensures splits { CoordinatedClearWithTheirSplits }
{}
