//! What holds of coordination in every plan that meets the rules, and of its cells, each law the contract of a function
//! that does nothing.
ghost use Rattle.tsb_objects.specs.tsb_plan.Plan.{Plan};
ghost use Rattle.tsb_objects.specs.tsb_rules.Consistent.{OfConsistentPlans};
ghost use Rattle.tsb_coord.specs.OffsetLaws.{MomentsComeAtOffsets, OffsetsCountAlike, PlainOffsetsAct};
ghost use Rattle.tsb_coord.specs.Laws.{EndWithTheirSplits, CoordinatedEndAtZero, CoordinatedEndInTime, CoordinatedEndNearZero, AtInstantsInMode0, CoordinatedAtInstants, OthersAreNotPermitted, NoneIsPermittedWithout, ForcedAtInstants, EndsWhereItYields, GoesOn, TakesFewSteps, ComesIntoStep, StaysInStep, ForcesInStep, RowsAreTold, StatesAreRead, StatesAreBy, CountsFromTick0, CountsFromMidnight, CountsAlike};

/// A phase that is forced off at its instant has time to clear by the end of its split. Its yellow change and red
/// clearance, counted from its force-off instant, end where its split ends on the local counter; those of the
/// coordinated phase that instants are counted from end at local 0. In each mode those of a coordinated phase, whenever
/// it is forced off, end there or at most its permissive time behind.
///
/// Needs: a plan that breaks no rule.
/// Not said: that the green ends at the instant; that the phase is over then, which `coordinated_phases_clear_at_zero`
/// of tsb_step says of coordinated phases.
/// Mistakes: an instant counted from the end of the phase's own split, `instant_from_own`; one without the red
/// clearance, `instant_without_clearance`, or without the yellow change, `instant_without_yellow`; one counted from the
/// start of side 1, `instant_from_begin`; a difference below 0 that counts as 0, `instant_cut_off`; instants that are
/// counted from the first coordinated phase in a pattern that leads and lags, `counted_from_it` (`clears_elsewhere`); a
/// permissive time that is counted from local 0, `behind_zero` (`clears_too_late`).
/// Witness: `ends_at_zero`, `ends_with_split`; `leads` and `ends_with_its_own` of LeadLagExamples; `ends_behind_zero`
/// of PermissiveExamples.
pub fn forced_phases_end_with_their_splits()
    ensures ends { OfConsistentPlans EndWithTheirSplits }
    ensures at_zero { OfConsistentPlans CoordinatedEndAtZero }
    ensures in_time { OfConsistentPlans CoordinatedEndInTime }
    ensures near_zero { OfConsistentPlans CoordinatedEndNearZero }
{}

/// Late force-off is an option, and so is the permissive time. With `coordForceMode` 0 a phase is forced off at its
/// instant and in its permissive time alone. In each mode a coordinated phase is, and no phase misses its instant. No
/// other phase has a permissive time, and none has where that of the pattern is 0. At the instant of the coordinated
/// phase that it yields to, a phase is not late.
///
/// Mistakes: the mode is not read, `late_in_both_modes` (`would_be_late_in_mode_0`); a coordinated phase is forced off
/// late as well, `late_for_all` (`would_be_late`); the instant of the coordinated phase is counted in, `is_late_to`
/// (`would_go_on`); all phases have a permissive time, `time_for_all` (`would_be_permitted`).
/// Witness: `in_mode_0`, `in_mode_1`, `at_its_own` of LateExamples; `in_its_time` of PermissiveExamples.
pub fn late_force_off_is_an_option()
    ensures off { (plan : Plan) → AtInstantsInMode0 plan }
    ensures coordinated { (plan : Plan) → CoordinatedAtInstants plan }
    ensures others { (plan : Plan) → OthersAreNotPermitted plan }
    ensures without { (plan : Plan) → NoneIsPermittedWithout plan }
    ensures at_instant { (plan : Plan) → ForcedAtInstants plan }
    ensures yields { (plan : Plan) → EndsWhereItYields plan }
{}

/// The local counter comes into step. Where a pattern is selected while another one runs, it goes on from where that of
/// the old pattern stood. It does not with `coordCorrectionMode` 0, nor with a limit of 0 in modes 2 and 3. From each
/// tick to the next it takes one step or none, or, by the short way, up to two. It is in step after as many ticks as
/// its mode and its limit need, and stays so. Then it is the counter of the cycle and the offset, and from the next
/// tick on it alone says what is forced off.
///
/// Needs: a plan that breaks no rule, with a limit of 50 percent at most, as in all plans in memory; a counter that is
/// ahead by less than a cycle, as each selection leaves it.
/// Not said: that it is not in step sooner; that a commit in the meantime lets it go on from where it is.
/// Mistakes: a counter that is in step at once in each mode, `at_once` (`would_jump`); one that gains without end,
/// `gains_on` (`would_leave_step`); one that loses in each tick the limit of one tick, without a rest, `lost_in_each`
/// (`would_never_arrive`).
/// Witness: `goes_on`, `waits_once`, `takes_two_steps`, `is_slower_in_step`, `is_faster_in_step` of CorrectionExamples.
pub fn counters_come_into_step()
    ensures goes_on { OfConsistentPlans GoesOn }
    ensures steps { OfConsistentPlans TakesFewSteps }
    ensures arrives { OfConsistentPlans ComesIntoStep }
    ensures stays { (plan : Plan) → StaysInStep plan }
    ensures forces { (plan : Plan) → ForcesInStep plan }
{}

/// With a clock the local counter in step counts from a midnight. It is the tenths since the midnight at or before the tick
/// in which its pattern is selected, or the clock set, less the offset, within the cycle. A pattern that runs across
/// midnight goes on without a jump. Without a clock it counts from tick number 0, and so it does where that is a midnight,
/// for what is selected on that day.
///
/// Needs: a plan that breaks no rule; a tick that there is.
/// Not said: that the counter is in step then, which `counters_come_into_step` says.
/// Mistakes: a counter from the midnight before tick number 0, `from_the_first` (`would_jump_back`); one that begins anew at
/// each midnight, `from_each` (`would_begin_anew`).
/// Witness: `from_seven`, `goes_on_at_midnight`, `selected_after_midnight` of ClockExamples.
pub fn counters_count_from_midnight()
    ensures without { (plan : Plan) → CountsFromTick0 plan }
    ensures counts { OfConsistentPlans CountsFromMidnight }
    ensures alike { OfConsistentPlans CountsAlike }
{}

/// What the offset of a pattern is counted to comes at the tick of the offset, and each cycle later: there the local
/// counter in step is the time from local 0 to that moment. The begin of green, of yellow or of red that
/// `coordReference` names is thus at the offset of the timing sheet.
///
/// Needs: a plan that breaks no rule, and a number of `coordReference` other than 0.
/// Not said: that the phase turns green, yellow or red there: splits say when it is to.
/// Mistakes: local 0 before the moment and not after it, `turned_round` of OffsetMistakes of tsb_objects
/// (`would_be_before`); a first green that is always ring 1's, `of_ring_1` (`would_be_the_last`).
/// Witness: `comes_at_the_offset` of OffsetExamples.
pub fn offsets_are_counted_to_their_moments()
    ensures { OfConsistentPlans MomentsComeAtOffsets }
{}

/// A plan with other offsets, counted to another moment, is coordinated as it was where in each pattern local 0 comes
/// at the same time. With `coordReference` 0 an offset is in effect as it is. So a plan with `coordReference` runs as the
/// one with 0 and the converted offsets, where these are whole seconds.
///
/// Not said: what a desk that changes splits, clearances or rings makes of it: the converted offset is then another.
/// Mistakes: those of `offsets_are_counted_to_their_moments`.
/// Witness: `are_alike` of OffsetExamples.
pub fn offsets_act_by_when_local_0_comes()
    ensures alike { OffsetsCountAlike }
    ensures plain { PlainOffsetsAct }
{}

/// A row that the layer can have is the encoding of what is read in it.
///
/// Mistake: a row with one cell more, `longer` of RangeMistakes (`would_lose_it`).
/// Witness: `can_be`, `is_told` of RangeMistakes.
pub fn rows_are_told()
    ensures { RowsAreTold }
{}

/// The encoding of a state in range reads back as that state, and is a row that the layer can have.
///
/// Mistake: a cell of 0 that is read as a number, `read_plainly` of RangeMistakes (`would_read_0`).
/// Witness: `reads_none` of RangeMistakes.
pub fn states_are_read()
    ensures read { StatesAreRead }
    ensures by { StatesAreBy }
{}
