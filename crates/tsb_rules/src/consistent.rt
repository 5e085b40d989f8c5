//! What every plan that meets the rules is like, each fact the contract of a function that does nothing.
//! `Checked::plan` says that a checked plan is such a plan.
ghost use Rattle.tsb_rules.specs.Consistent.{OfConsistentPlans, PhasesArePlaced, ConcurrentGoTogether, FirstSequenceListsRings, SequencesInUseListRings, PreemptsAreSound, PatternsAreWhole, CoordinatedPhasesAgree, PermissiveTimesEnd, ArrowsAreSound, TrailsAreSound};

/// Concurrent phases are in different rings and on one side. Each enabled phase is in ring 1 or 2 and on one of the
/// sides. Two concurrent phases are enabled, in different rings and on one side, and each names the other.
///
/// Needs: a plan that breaks no rule.
/// Mistake: a check without K5, `without_symmetry` (`would_pass_one_list`, `names_5`, `names_not_1`).
/// Witness: `breaks_none` of Mistakes, the built-in plan of eight phases with another offset.
pub fn concurrency_is_sound()
    ensures placed { OfConsistentPlans PhasesArePlaced }
    ensures together { OfConsistentPlans ConcurrentGoTogether }
{}

/// A sequence in use lists exactly the phases of each ring. Sequence 1, and the sequence of each used pattern, lists
/// for each ring its phases, each once and no other, sides in rising order, with zeros only after them.
///
/// Needs: a plan that breaks no rule.
/// Mistake: a K6 that does not ask for each phase of a ring, `with_sequence_in_part` (`would_pass_without_4`,
/// `lists_not_4`).
/// Witness: `breaks_none` of Mistakes, the built-in plan of eight phases with another offset.
pub fn sequences_list_rings()
    ensures first { OfConsistentPlans FirstSequenceListsRings }
    ensures used { OfConsistentPlans SequencesInUseListRings }
{}

/// Each list of a preempt names only enabled, pairwise concurrent phases. A preempt with an empty dwell list has empty
/// track and exit lists.
///
/// Needs: a plan that breaks no rule.
/// Mistake: a K15 that asks only that listed phases are enabled, `with_enabled_lists` (`would_pass_wants_2_4`,
/// `dwells_in_both`, `apart_2_4`).
/// Witness: `breaks_none` of Mistakes, the built-in plan of eight phases with another offset.
pub fn preempts_are_sound()
    ensures { OfConsistentPlans PreemptsAreSound }
{}

/// The coordinated phases of a pattern go together. A used pattern has a sequence, a split table and an offset below
/// its cycle. Its coordinated phases are enabled, not omitted, on one side, pairwise concurrent, one of each ring that
/// has phases there, and their splits end at one time, but where the pattern leads and lags.
///
/// Needs: a plan that breaks no rule.
/// Mistakes: a K17 that lets an offset be the cycle, `with_offset_of_cycle` (`would_pass_late`, `is_the_cycle`); a K20
/// that does not ask for a coordinated phase in each ring, `with_one_ring` (`would_pass_one_ring`, `none_in_ring_2`);
/// one that lets all patterns lead and lag, `with_ends_apart` (`would_pass_led`, `ends_at_40`, `ends_at_25`); one that
/// reads lead and lag at the number of the split table, `with_lead_of_table` (`would_pass_first_leads`,
/// `second_does_not`).
/// Witness: `breaks_none` of Mistakes, the built-in plan of eight phases with another offset.
pub fn coordinated_phases_agree()
    ensures whole { OfConsistentPlans PatternsAreWhole }
    ensures coordinated { OfConsistentPlans CoordinatedPhasesAgree }
{}

/// The permissive time of a pattern ends within its cycle. In a used pattern it is below the cycle, so each coordinated
/// phase has ticks in which it is not forced off.
///
/// Needs: a plan that breaks no rule.
/// Mistake: a K23 that lets a permissive time be the cycle, `with_time_of_cycle` (`would_pass_always`,
/// `is_always_permitted`).
/// Witness: `breaks_none` of Mistakes, the built-in plan of eight phases with another offset.
pub fn permissive_times_end()
    ensures { OfConsistentPlans PermissiveTimesEnd }
{}

/// Each arrow has a turn that goes with no phase that it includes. An overlap of type 2 includes a phase, and has one
/// modifier phase, which is enabled, not included, and concurrent with no included phase.
///
/// Needs: a plan that breaks no rule.
/// Mistakes: a K28 that lets a turn be concurrent with an included phase, `with_turns_beside` (`would_pass_beside`,
/// `turns_beside_2`); one that lets an arrow have two modifier phases, `with_many_turns` (`would_pass_two_turns`,
/// `turns_with_3`).
/// Witness: `arrow_breaks_none` of Mistakes, the built-in plan of eight phases with an arrow for the turn of phase 1.
pub fn arrows_are_sound()
    ensures { OfConsistentPlans ArrowsAreSound }
{}

/// An overlap that trails has a whole yellow. One with `overlapTrailGreen` is of type 0, and its `overlapTrailYellow` is
/// at least 3 s.
///
/// Needs: a plan that breaks no rule.
/// Mistake: a K29 that lets an overlap trail without a yellow, `with_no_yellow` (`would_pass_unlit`, `has_no_yellow`).
/// Witness: `trail_breaks_none` of Mistakes, the built-in plan of eight phases with an overlap that trails.
pub fn trails_are_sound()
    ensures { OfConsistentPlans TrailsAreSound }
{}
