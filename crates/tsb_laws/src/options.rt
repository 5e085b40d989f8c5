//! Options at 0 over runs: such a run is that of a controller without options, and what only an option reads does not
//! matter while it is 0. And offsets show nothing but by when local 0 comes, whatever they are counted to. Each law is
//! the contract of a function that does nothing.
ghost use Rattle.tsb_laws.specs.ConvertedOffsets.{ConvertedOffsetsShowTheSame, OffsetsChangeNoRun, OffsetsShowNothing};
ghost use Rattle.tsb_laws.specs.CorrectionLimits.{LimitsChangeNoRun, LimitsShowNothing};
ghost use Rattle.tsb_laws.specs.WithoutOptions.{OptionsAloneRead, OptionsAreAllThatVersion1Lacks, ReadsNoOption, RunsAreThoseWithoutOptions, ShowWhatIsShownWithoutOptions, ShowsNoOption};

/// `runs`: A run in which the options are 0 is that of a controller without options. With a plan whose options are 0 the
/// state is the same after each input, of whatever kind.
///
/// Needs: each option 0 in the plan at power-up, and no edit that gives one another value.
/// Not said: anything of a run in which one option is 0 and another is not.
/// Mistake: a local counter that goes on from where that of the old pattern stood, `goes_on` (`is_in_step_then`,
/// `is_in_step_without`, `would_begin_ahead`).
/// Witness: `an_off_run` of OffRuns, in which one pattern follows another, and a station sets an option to 0.
///
/// `shows`: Such a run shows what that controller shows. Display, field and local counter are the same, and the counter
/// is in step.
///
/// Needs: as of runs.
/// Mistake: as of runs.
/// Witness: `an_off_run` of OffRuns.
///
/// `lists`: The options are the objects that version 1 of plan texts does not have, without those of the schedule
/// and of channels.
/// There are fourteen, and five objects that one of these alone reads: the step of the dynamic maximum, the correction
/// limit, the delay of arrows and their crosswalks, and the trailing red clearance. The nine objects of the schedule are
/// read in the rules K24 to K27 alone, and the two of channels nowhere, so that no run needs them to be 0.
///
/// Mistake: a list without the modifier phases of overlaps, `without_modifiers` (`is_later`, `would_be_left_out`).
/// Witness: none is needed, as the law asks for nothing.
///
/// `reads`: The controller without options reads none. Two plans that differ in those nineteen objects alone, whatever
/// these are, give the same run of it, over inputs of every kind.
///
/// Needs: no edit of the four of overlaps that are of the structure. As one is changed, the rings forget what they
/// started last.
/// Mistake: a K23 that asks for a permissive time in the controller without options, `first_broken_of_times`
/// (`breaks_none`, `would_break_k23`).
/// Witness: `a_read` of ReadRuns.
///
/// `hides`: Nor does it show them. Its display, its field and its local counter are the same in both.
///
/// Needs: as of reads.
/// Mistake: a local counter that comes into step by the correction mode, from an offset that counts to the begin of
/// green, `by_correction` (`is_at_12`, `would_be_at_660`).
/// Witness: `a_read` of ReadRuns.
///
/// `alone`: What an option alone reads does not matter while the options are 0. Two plans whose options are 0, and that
/// differ in the five objects that an option alone reads, give the same run.
///
/// Needs: each option 0 in both plans, no edit that gives one another value, and none of those of overlaps.
/// Not said: anything of the step where the limit of its dynamic maximum is 0 and another option is not.
/// Mistake: a maximum that is dynamic by its step alone, `by_step` (`is_not_dynamic`, `would_be_dynamic`).
/// Witness: `read_alone` of ReadRuns.
pub fn options_off_run_as_without()
    ensures runs { RunsAreThoseWithoutOptions }
    ensures shows { ShowWhatIsShownWithoutOptions }
    ensures lists { OptionsAreAllThatVersion1Lacks }
    ensures reads { ReadsNoOption }
    ensures hides { ShowsNoOption }
    ensures alone { OptionsAloneRead }
{}

/// `runs`: The correction limit changes no run while the correction mode is 0. Two plans that differ in
/// `coordCorrectionLimit` alone come to states that differ in it alone, over inputs of every kind.
///
/// Needs: `coordCorrectionMode` 0 in the plan in effect where each of the inputs comes.
/// Mistake: a counter that comes into step the short way, whatever the mode, `whatever_the_mode` (`is_in_step_then`,
/// `would_be_91`, `would_be_84`).
/// Witness: `a_run` of LimitRuns.
///
/// `shows`: Nor does it change what is shown or refused. The field, the local counter and the refusal of each next
/// input are the same in both.
///
/// Needs: as of runs, and mode 0 after the inputs as well.
/// Mistake: as of runs.
/// Witness: `a_run` of LimitRuns.
pub fn limits_change_no_run()
    ensures runs { LimitsChangeNoRun }
    ensures shows { LimitsShowNothing }
{}

/// `runs`: What offsets are counted to changes no run where local 0 comes at the same time. Two plans that differ in
/// `patternOffsetTime` and in `coordReference` alone come to states that differ in these alone, over inputs of every
/// kind.
///
/// Needs: local 0 of each pattern at one time in both, by the plans in effect where a tick comes, a pattern is selected
/// or the clock is set; and one answer to each check of edits. With a cycle of 50 s an offset of 59 s breaks K17, and
/// one of 4 s does not (`breaks_k17`, `breaks_k19`).
/// Mistake: an offset that is counted to local 0, whatever `coordReference` says, `as_it_is` (`is_forced_then`,
/// `would_not_be_forced`).
/// Witness: `a_run` of OffsetRuns.
///
/// `shows`: Nor does it change what is shown or refused. Display, field, local counter and the refusal of each next
/// input are the same in both.
///
/// Needs: as of runs, and local 0 at one time after the inputs as well.
/// Mistake: as of runs.
/// Witness: `a_run` of OffsetRuns.
///
/// `converted`: A plan shows what the one with `coordReference` 0 and the converted offsets shows. Display, field and
/// local counter are the same, over inputs of every kind but a commit.
///
/// Needs: an offset of whole seconds at which local 0 comes, in each pattern.
/// Not said: what a commit makes of both. The edits may change a split or a clearance, and by that the converted
/// offset; runs speaks of commits too.
/// Mistake: as of runs.
/// Witness: `converts` of OffsetRuns.
pub fn converted_offsets_change_no_run()
    ensures runs { OffsetsChangeNoRun }
    ensures shows { OffsetsShowNothing }
    ensures converted { ConvertedOffsetsShowTheSame }
{}
