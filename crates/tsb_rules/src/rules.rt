//! The rules that a plan must meet (profile).
#![tactic(auto, unfolding(tsb_plan::specs::PlanOf::plan_of))]

ghost use Rattle.std.specs.Prelude.{◌≡◌, ◌+◌, ◌*◌, ◌≤◌, ◌==◌, ◌&&◌, ◌||◌, nat_le, if◌then◌else◌, Ok, Err};
ghost use Rattle.tsb_plan.specs.PlanOf.{plan_of};
ghost use Rattle.tsb_rules.specs.Rules.{broken_by_rings, broken_by_phases, broken_by_parts, broken_by_extensions, broken_by_schedule, broken_by_overlaps, first_broken, or_broken};

mod asked;
mod calls;
mod concurrency;
mod lists;
mod patterns;
mod phases;
mod schedules;
mod sequences;
mod splits;

use asked::{OfEnabled, OfPhase, Sought, each_enabled, each_phase, some_phase};
use lists::{OfOverlap, OfPreempt, each_overlap, each_preempt};
use patterns::{OfPattern, each_pattern};
pub use splits::split_end;
use tsb_plan::Plan;

/// A rule that a plan must meet.
///
/// "Phase" without more is an enabled phase, and a used pattern is one whose cycle is not 0.
#[derive(Clone, Copy, Debug, PartialEq, Eq)]
pub enum Rule {
    /// At least one phase is enabled.
    K1,
    /// Each phase has ring 1 or 2 and one of the sides, 1 to 4.
    K2,
    /// The concurrency list of a phase that is not enabled is empty.
    K3,
    /// A phase's concurrency list names only enabled phases of the other ring and the same side.
    K4,
    /// Concurrency is symmetric.
    K5,
    /// Sequence 1 lists, for each ring, each phase of that ring once and no other, sides in rising order,
    /// with zeros only after the last.
    K6,
    /// Each of sequences 2 to 4 is all zeros or is as K6 says.
    K7,
    /// `phaseYellowChange` of a phase is at least 30 tenths of a second.
    K8,
    /// `phaseMinimumGap` of a phase is at most its `phasePassage`.
    K9,
    /// `phaseMaximum1` and `phaseMaximum2` of a phase are at least its `phaseMinimumGreen`.
    K10,
    /// A phase with `phasePedRecall` has `phaseWalk` over 0.
    K11,
    /// A vehicle detector's call phase is 0 or enabled.
    K12,
    /// A pedestrian detector's call phase is 0, or enabled with `phaseWalk` over 0.
    K13,
    /// An overlap's list of included phases names only enabled phases.
    K14,
    /// Each list of a preempt names only enabled phases, pairwise concurrent.
    K15,
    /// A preempt with an empty dwell list has empty track and exit lists.
    K16,
    /// A used pattern has an offset below its cycle, a split number of 1 to 8, and names a sequence that
    /// is not all zeros.
    K17,
    /// In a used pattern the split of each phase that is not omitted holds its minimum green, yellow
    /// change and red clearance.
    K18,
    /// In a used pattern the splits of a side have one sum in each ring that has phases there, and the
    /// sums of the sides add up to the cycle. Omitted phases count.
    K19,
    /// A used pattern has coordinated phases. All are enabled, not omitted, on one side and pairwise
    /// concurrent, one of each ring that has phases there, and their splits end at one time, but with
    /// `patternLeadLag`.
    K20,
    /// An overlap's list of modifier phases names only enabled phases, and is empty where its type is 0.
    K21,
    /// `phaseDynamicMaxLimit` of a phase is 0 or at least its `phaseMinimumGreen`.
    K22,
    /// `patternPermissiveTime` of a used pattern is below its cycle.
    K23,
    /// No two events of a day plan come at one minute.
    K24,
    /// A day plan that an entry of the schedule names has events.
    K25,
    /// An action that an event of a day plan names is defined.
    K26,
    /// A pattern that an action asks for is used.
    K27,
    /// An overlap of type 2, an arrow, includes a phase, and has one modifier phase, which it does not include and which is
    /// concurrent with no phase that it includes.
    K28,
    /// `overlapTrailYellow` is 0 or at least 30 tenths of a second, and not 0 where the overlap trails; an overlap that
    /// trails has type 0.
    K29,
}

/// Whether the plan meets the rules: an `Err` is the first one that it breaks, in the order of their
/// numbers.
#[tactic(auto, unfolding(tsb_plan::specs::PlanOf::plan_of, crate::specs::Rules::first_broken))]
pub fn check(plan: &Plan) -> Result<(), Rule>
    ensures { result ≡ or_broken (first_broken (plan_of plan.now)) }
{
    check_rings(plan)?;
    check_phases(plan)?;
    check_parts(plan)?;
    check_extensions(plan)?;
    check_schedule(plan)?;
    check_overlaps(plan)
}

/// Rules K1 to K7, on rings, sides and sequences.
#[tactic(auto, unfolding(tsb_plan::specs::PlanOf::plan_of, crate::specs::Rules::broken_by_rings))]
fn check_rings(plan: &Plan) -> Result<(), Rule>
    ensures { result ≡ or_broken (broken_by_rings (plan_of plan.now)) }
{
    require(some_phase(plan, Sought::Enabled), Rule::K1)?;
    require(each_enabled(plan, OfEnabled::Placed), Rule::K2)?;
    require(each_phase(plan, OfPhase::EmptyUnused), Rule::K3)?;
    require(each_enabled(plan, OfEnabled::NamesAcrossRings), Rule::K4)?;
    require(each_phase(plan, OfPhase::NamedBack), Rule::K5)?;
    require(sequences::first_sequence_is_ordered(plan), Rule::K6)?;
    require(sequences::other_sequences_are_ordered(plan), Rule::K7)
}

/// Rules K8 to K13, on times and calls of phases.
#[tactic(auto, unfolding(tsb_plan::specs::PlanOf::plan_of, crate::specs::Rules::broken_by_phases))]
fn check_phases(plan: &Plan) -> Result<(), Rule>
    ensures { result ≡ or_broken (broken_by_phases (plan_of plan.now)) }
{
    require(each_enabled(plan, OfEnabled::LongYellow), Rule::K8)?;
    require(each_enabled(plan, OfEnabled::ReducibleGap), Rule::K9)?;
    require(each_enabled(plan, OfEnabled::ReachedMinimum), Rule::K10)?;
    require(each_enabled(plan, OfEnabled::WalkRecalled), Rule::K11)?;
    require(calls::detectors_call_phases(plan), Rule::K12)?;
    require(calls::pedestrian_detectors_call_walks(plan), Rule::K13)
}

/// Rules K14 to K20, on overlaps, preempts and patterns.
#[tactic(auto, unfolding(tsb_plan::specs::PlanOf::plan_of, crate::specs::Rules::broken_by_parts))]
fn check_parts(plan: &Plan) -> Result<(), Rule>
    ensures { result ≡ or_broken (broken_by_parts (plan_of plan.now)) }
{
    require(each_overlap(plan, OfOverlap::IncludesEnabled), Rule::K14)?;
    require(each_preempt(plan, OfPreempt::HasConcurrentLists), Rule::K15)?;
    require(each_preempt(plan, OfPreempt::DwellsOrIsEmpty), Rule::K16)?;
    require(each_pattern(plan, OfPattern::Whole), Rule::K17)?;
    require(each_pattern(plan, OfPattern::HoldsPhases), Rule::K18)?;
    require(each_pattern(plan, OfPattern::FillsCycle), Rule::K19)?;
    require(each_pattern(plan, OfPattern::IsCoordinated), Rule::K20)
}

/// Rules K21 to K23, on what plan texts of version 2 alone can give.
#[tactic(auto, unfolding(tsb_plan::specs::PlanOf::plan_of, crate::specs::Rules::broken_by_extensions))]
fn check_extensions(plan: &Plan) -> Result<(), Rule>
    ensures { result ≡ or_broken (broken_by_extensions (plan_of plan.now)) }
{
    require(each_overlap(plan, OfOverlap::ModifiesRightly), Rule::K21)?;
    require(each_enabled(plan, OfEnabled::ReachedByLimit), Rule::K22)?;
    require(each_pattern(plan, OfPattern::PermissiveTimeEnds), Rule::K23)
}

/// Rules K24 to K27, on the schedule, which plan texts of version 3 alone can give.
#[tactic(auto, unfolding(tsb_plan::specs::PlanOf::plan_of, crate::specs::Rules::broken_by_schedule))]
fn check_schedule(plan: &Plan) -> Result<(), Rule>
    ensures { result ≡ or_broken (broken_by_schedule (plan_of plan.now)) }
{
    require(schedules::events_are_apart(plan), Rule::K24)?;
    require(schedules::day_plans_have_events(plan), Rule::K25)?;
    require(schedules::actions_are_defined(plan), Rule::K26)?;
    require(schedules::asked_patterns_are_used(plan), Rule::K27)
}

/// Rules K28 and K29, on arrows and on overlaps that trail, which plan texts of version 3 alone can give.
#[tactic(auto, unfolding(tsb_plan::specs::PlanOf::plan_of, crate::specs::Rules::broken_by_overlaps))]
fn check_overlaps(plan: &Plan) -> Result<(), Rule>
    ensures { result ≡ or_broken (broken_by_overlaps (plan_of plan.now)) }
{
    require(each_overlap(plan, OfOverlap::PointsRightly), Rule::K28)?;
    require(each_overlap(plan, OfOverlap::TrailsRightly), Rule::K29)
}

/// An `Err` with that rule, unless its test is passed.
fn require(is_met: bool, rule: Rule) -> Result<(), Rule>
    ensures { result ≡ (if is_met then Ok tt else Err rule) }
{
    if is_met { Ok(()) } else { Err(rule) }
}
