//! What holds of the bench of 8 phases and 2 sides and of that of 16 and 4, each law the contract of a function that does
//! nothing.
ghost use Rattle.tsb_laws.specs.Versions.{BreakTheSameRule, CountersAgree, FieldsAgree, HeadsAgree, OthersRest, PutsMakeNarrowPlans, PutsMakeWidePlans, QuadIsWide, RefusalsAgree, StagesAgree, StatesAgree, TakeTheSame, TwoIsWide, WidePlansSayTheSame};
ghost use Rattle.tsb_laws.specs.Texts.{NamedPlansBreakNoRule, ReadBenchesGoAlike, RenumberedTextsGiveTheSame, TextsGiveNoLaterObject, TextsGiveWidePlans, TextsHaveNoOptions, TextsLeaveOptionsOff, TextsNameNarrowPlans, BenchesGoAsInVersion2};

/// A plan of version 1 has its wide plan. There is one plan of 16 phases and 4 sides that says at translated indices
/// what a plan of version 1 says, and nothing elsewhere. It breaks the same rule first, or none where that plan breaks
/// none.
///
/// Mistake: splits that are not translated, `not_translated` (`narrow_forces`, `forces_none`, `is_wrong`).
/// Witness: `is_right`, `is_right_too` of Mistakes, a plan of version 1 and its wide plan.
pub fn wide_plans_say_the_same()
    ensures plans { WidePlansSayTheSame }
    ensures rules { BreakTheSameRule }
{}

/// Values of version 1 make a plan of version 1 and its wide plan. They are put in turn, in the wide plan at translated
/// indices; the built-in plans are the wide plans of two that are of version 1.
///
/// Mistake: values put at indices that are not translated, `not_translated` (`narrow_forces`, `forces_none`).
/// Witness: `narrow_forces`, `wide_forces` of Mistakes, whose plans are made of the same values.
pub fn values_make_both_plans()
    ensures narrow { PutsMakeNarrowPlans }
    ensures wide { PutsMakeWidePlans }
    ensures two { TwoIsWide }
    ensures quad { QuadIsWide }
{}

/// The benches of 8 and of 16 phases show the same. After any inputs within version 1's ranges the bench of 8 phases
/// and 2 sides and that of 16 and 4 show the same heads, have the same field, local counter and stage, and are in the
/// same state, but for the translated plan and edits.
///
/// Needs: a plan of version 1, and sets and lamps within its ranges; `lamp_of_9` and `set_9` compute why.
/// Mistake: a bench of 16 on values that are not translated, `not_translated` (`narrow_holds`, `holds_none`).
/// Witness: `narrow_preempted` and `wide_preempted` of Examples.
pub fn benches_show_the_same()
    ensures heads { HeadsAgree }
    ensures fields { FieldsAgree }
    ensures counters { CountersAgree }
    ensures stages { StagesAgree }
    ensures states { StatesAgree }
{}

/// The benches of 8 and of 16 phases refuse the same inputs, each for the same cause. So they take the same inputs.
///
/// Needs: as `benches_show_the_same`.
/// Mistake: the law without ranges, as a value of phase 9 is refused in the one and taken in the other, `set_9`
/// (`is_refused`, `is_taken`).
/// Witness: as of `benches_show_the_same`.
pub fn benches_take_the_same()
    ensures refusals { RefusalsAgree }
    ensures same { TakeTheSame }
{}

/// Phases beyond the eighth rest in the bench of 16. They are not enabled, and stay as at power-up.
///
/// Needs: as `benches_show_the_same`.
/// Mistake: a wide plan that enables phase 9 too, `with_9` (`rests_9`, `would_be_enabled`).
/// Witness: as of `benches_show_the_same`.
pub fn other_phases_rest()
    ensures { OthersRest }
{}

/// A plan text of version 1 gives the wide plan. One that is read names a plan of 8 phases and 2 sides that is of
/// version 1 and breaks no rule (`named_plan`). The plan that is read is its wide plan, so that a bench of 8 and 2 does
/// with the one what a bench of 16 and 4 does with the other.
///
/// Not said: which texts are read. That is the contract of `read_plan`.
/// Mistake: an index that is not translated, `not_translated` of Texts (`would_not_say_it`, `would_be_refused`). A text
/// that is not read shows why it has to be: `list_is_refused`, `names_too_much`.
/// Witness: `is_of_version_1`, `is_read` of Texts.
pub fn texts_of_version_1_are_wide()
    ensures narrow { TextsNameNarrowPlans }
    ensures wide { TextsGiveWidePlans }
    ensures rules { NamedPlansBreakNoRule }
    ensures alike { ReadBenchesGoAlike }
{}

/// A plan text of version 1 has no options. Each is 0 in the plan that is read, as that version has none of their
/// objects. So each definition that reads an option is the one without it (`OptionsOff`).
///
/// Not said: which texts are read. That is the contract of `read_plan`.
/// Mistake: the plan has an option, which a text of version 2 may name, `with_option` of Texts (`option_is_refused`,
/// `would_have_an_option`).
/// Witness: `is_of_version_1`, `is_read` of Texts.
pub fn texts_of_version_1_have_no_options()
    ensures options { TextsHaveNoOptions }
    ensures off { TextsLeaveOptionsOff }
{}

/// A plan text of version 2 is one of version 3. With the number 3 in place of 2 it gives the same plan. And no text gives
/// a value to an object that its version has not, so in the plan of a text of version 2 all that version 3 has more is 0.
/// A bench of 16 vehicle detectors, 8 pedestrian detectors, 4 overlaps and 4 preempts, as version 2 has, does with that
/// plan what one of all of them does.
///
/// Needs: a text that is read, and one with its other members that is not too large (`IsOfVersion`, `renumbered`).
/// Not said: which texts are read. That is the contract of `read_plan`.
/// Mistake: a version 3 whose indices are those of version 1, `as_in_version_1` of Texts (`stands_at_17`,
/// `would_stand_at_33`).
/// Witness: `is_of_version_2`, `is_read_in_2`, `is_of_version_3`, `is_read_in_3` of Texts.
pub fn texts_of_version_2_are_of_version_3()
    ensures same { RenumberedTextsGiveTheSame }
    ensures none { TextsGiveNoLaterObject }
    ensures sizes { BenchesGoAsInVersion2 }
{}
