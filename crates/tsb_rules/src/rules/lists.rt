//! Rules K14, K15, K16, K21, K28 and K29: overlaps and preempts.
#![tactic(auto, unfolding(tsb_plan::specs::PlanOf::plan_of))]

ghost use Rattle.tsb_types.specs.declared.limits.TheConstants.{OVERLAPS, PREEMPTS};
ghost use Rattle.std.specs.Prelude.{◌≡◌, ◌&&◌, ◌||◌, not};
ghost use Rattle.std.specs.List.{list_all};
ghost use Rattle.tsb_plan.specs.declared.object.Object.TheVariants.{OverlapIncludedPhases};
ghost use Rattle.tsb_plan.specs.Objects.{indices};
ghost use Rattle.tsb_plan.specs.Plan.{is_enabled};
ghost use Rattle.tsb_plan.specs.PlanOf.{plan_of};
ghost use Rattle.tsb_rules.specs.Asked.{each_named, overlap_meets, preempt_meets, named_meets};
ghost use Rattle.tsb_rules.specs.Rules.{names_enabled, goes_with_all, names_concurrent, has_concurrent_lists, dwells_or_is_empty, modifies_rightly, turns_alone, points_rightly, trails_rightly};
ghost use Rattle.tsb_types.specs.Lists.{run_from};
ghost use Rattle.tsb_types.specs.Sets.{names};

use crate::rules::asked::{OfPhase, each_phase};
use crate::rules::concurrency::may_be_concurrent;
use tsb_plan::{Object, Plan};
use tsb_types::{Overlap, Phase, PhaseSet, Preempt};

/// What a rule asks of each phase that a list names.
#[derive(Clone, Copy)]
pub(super) enum OfNamed {
    /// K14 and K21: it is enabled.
    IsEnabled,
    /// K4: it may be concurrent with this phase.
    IsAcross(Phase),
    /// K5: its concurrency list names this phase.
    NamesBack(Phase),
    /// K15: it is this phase or concurrent with it.
    GoesWith(Phase),
    /// K28: it is this phase, as one of the modifier phases of an arrow.
    Is(Phase),
    /// K28: it is neither this phase, the turn of an arrow, nor concurrent with it.
    Opposes(Phase),
}

/// What a rule asks of each overlap.
#[derive(Clone, Copy)]
pub(super) enum OfOverlap {
    /// K14: its included phases are enabled.
    IncludesEnabled,
    /// K21: its modifier phases are enabled, and it has none where it is normal.
    ModifiesRightly,
    /// K28: an arrow includes a phase, and has one modifier phase that goes with none of them.
    PointsRightly,
    /// K29: its trailing yellow is whole, and one that trails is normal and has one.
    TrailsRightly,
}

/// What a rule asks of each preempt.
#[derive(Clone, Copy)]
pub(super) enum OfPreempt {
    /// K15: each of its lists names only enabled phases, pairwise concurrent.
    HasConcurrentLists,
    /// K16: it has a dwell phase, or neither a track phase nor an exit phase.
    DwellsOrIsEmpty,
}

/// Whether a phase that a list names is as a rule asks.
fn named_meets(plan: &Plan, asked: OfNamed, other: Phase) -> bool
    ensures { result ≡ named_meets asked (plan_of plan.now) other }
{
    match asked {
        OfNamed::IsEnabled => plan.is_enabled(other),
        OfNamed::IsAcross(phase) => may_be_concurrent(plan, phase, other),
        OfNamed::NamesBack(phase) => plan.concurrency(other).contains(phase),
        OfNamed::GoesWith(phase) => phase == other || plan.concurrency(phase).contains(other),
        OfNamed::Is(phase) => other == phase,
        OfNamed::Opposes(phase) => other != phase && !plan.concurrency(phase).contains(other),
    }
}

/// Whether each phase that the list names is as a rule asks. Most lists name none, and then no phase is asked.
pub(super) fn each_named(plan: &Plan, list: u16, asked: OfNamed) -> bool
    ensures { result ≡ each_named (plan_of plan.now) list (named_meets asked (plan_of plan.now)) }
{
    if list == 0 {
        return true;
    }
    let named = PhaseSet::from_list(list);
    Phase::all().iter().all(|other| !named.contains(*other) || named_meets(plan, asked, *other))
}

/// Whether the overlap is as a rule asks.
fn overlap_meets(plan: &Plan, asked: OfOverlap, overlap: Overlap) -> bool
    ensures { result ≡ overlap_meets asked (plan_of plan.now) overlap }
{
    match asked {
        OfOverlap::IncludesEnabled => includes_enabled(plan, overlap),
        OfOverlap::ModifiesRightly => modifies_rightly(plan, overlap),
        OfOverlap::PointsRightly => points_rightly(plan, overlap),
        OfOverlap::TrailsRightly => trails_rightly(plan, overlap),
    }
}

/// Whether each overlap is as a rule asks.
pub(super) fn each_overlap(plan: &Plan, asked: OfOverlap) -> bool
    ensures { result ≡ list_all (overlap_meets asked (plan_of plan.now)) (run_from 1 OVERLAPS) }
{
    Overlap::all()
        .iter()
        .all(|overlap| overlap_meets(plan, asked, *overlap))
}

/// Whether the preempt is as a rule asks.
fn preempt_meets(plan: &Plan, asked: OfPreempt, preempt: Preempt) -> bool
    ensures { result ≡ preempt_meets asked (plan_of plan.now) preempt }
{
    match asked {
        OfPreempt::HasConcurrentLists => has_concurrent_lists(plan, preempt),
        OfPreempt::DwellsOrIsEmpty => dwells_or_is_empty(plan, preempt),
    }
}

/// Whether each preempt is as a rule asks.
pub(super) fn each_preempt(plan: &Plan, asked: OfPreempt) -> bool
    ensures { result ≡ list_all (preempt_meets asked (plan_of plan.now)) (run_from 1 PREEMPTS) }
{
    Preempt::all()
        .iter()
        .all(|preempt| preempt_meets(plan, asked, *preempt))
}

/// A list of an overlap.
fn of_overlap(plan: &Plan, object: Object, overlap: Overlap) -> u16
    requires index { indices object ≡ OVERLAPS }
    ensures value { result ≡ (plan_of plan.now).value object overlap }
{
    plan.at(object, u32::from(overlap.number())) as u16
}

/// A list of a preempt.
fn of_preempt(plan: &Plan, object: Object, preempt: Preempt) -> u16
    requires index { indices object ≡ PREEMPTS }
    ensures value { result ≡ (plan_of plan.now).value object preempt }
{
    plan.at(object, u32::from(preempt.number())) as u16
}

/// K14: the included phases of the overlap are enabled.
fn includes_enabled(plan: &Plan, overlap: Overlap) -> bool
    ensures { result ≡ names_enabled (plan_of plan.now) ((plan_of plan.now).value OverlapIncludedPhases overlap) }
{
    names_enabled(
        plan,
        of_overlap(plan, Object::OverlapIncludedPhases, overlap),
    )
}

fn names_enabled(plan: &Plan, list: u16) -> bool
    ensures { result ≡ names_enabled (plan_of plan.now) list }
{
    each_named(plan, list, OfNamed::IsEnabled)
}

/// K21: the modifier phases of the overlap are enabled, and there are none where it is normal.
fn modifies_rightly(plan: &Plan, overlap: Overlap) -> bool
    ensures { result ≡ modifies_rightly (plan_of plan.now) overlap }
{
    let modifiers = of_overlap(plan, Object::OverlapModifierPhases, overlap);
    names_enabled(plan, modifiers)
        && (of_overlap(plan, Object::OverlapType, overlap) != 0 || modifiers == 0)
}

/// K28: the overlap, where it is of type 2, includes a phase, and has one modifier phase, which goes with none that it
/// includes.
fn points_rightly(plan: &Plan, overlap: Overlap) -> bool
    ensures { result ≡ points_rightly (plan_of plan.now) overlap }
{
    of_overlap(plan, Object::OverlapType, overlap) != 2
        || of_overlap(plan, Object::OverlapIncludedPhases, overlap) != 0
            && turns_alone(plan, overlap, plan.modifier_phases(overlap).first())
}

/// Whether there is that turn, the overlap has no other modifier phase, and it opposes each phase that the overlap includes.
fn turns_alone(plan: &Plan, overlap: Overlap, turn: Option<Phase>) -> bool
    ensures { result ≡ turns_alone (plan_of plan.now) overlap turn }
{
    match turn {
        None => false,
        Some(turn) => each_named(
            plan,
            of_overlap(plan, Object::OverlapModifierPhases, overlap),
            OfNamed::Is(turn),
        ) && each_named(
            plan,
            of_overlap(plan, Object::OverlapIncludedPhases, overlap),
            OfNamed::Opposes(turn),
        ),
    }
}

/// K29: the trailing yellow of the overlap is 0 or at least 30 tenths of a second, and one that trails is normal and has one.
fn trails_rightly(plan: &Plan, overlap: Overlap) -> bool
    ensures { result ≡ trails_rightly (plan_of plan.now) overlap }
{
    let yellow = of_overlap(plan, Object::OverlapTrailYellow, overlap);
    let is_whole = yellow == 0 || 30 <= yellow;
    is_whole
        && (of_overlap(plan, Object::OverlapTrailGreen, overlap) == 0
            || yellow != 0 && of_overlap(plan, Object::OverlapType, overlap) == 0)
}

/// K15: each list of the preempt names only enabled phases, pairwise concurrent.
fn has_concurrent_lists(plan: &Plan, preempt: Preempt) -> bool
    ensures { result ≡ has_concurrent_lists (plan_of plan.now) preempt }
{
    names_concurrent(plan, of_preempt(plan, Object::PreemptTrackPhase, preempt))
        && names_concurrent(plan, of_preempt(plan, Object::PreemptDwellPhase, preempt))
        && names_concurrent(plan, of_preempt(plan, Object::PreemptExitPhase, preempt))
}

/// Whether the list names only enabled phases, pairwise concurrent.
fn names_concurrent(plan: &Plan, list: u16) -> bool
    ensures { result ≡ names_concurrent (plan_of plan.now) list }
{
    list == 0 || each_phase(plan, OfPhase::ConcurrentIn(list))
}

/// Whether the list does not name the phase, or it is enabled and concurrent with each other phase of the list.
pub(super) fn goes_with_all_in(plan: &Plan, list: u16, phase: Phase) -> bool
    ensures { result ≡ (not (names list phase)
        || (is_enabled (plan_of plan.now) phase && goes_with_all (plan_of plan.now) list phase)) }
{
    !PhaseSet::from_list(list).contains(phase)
        || plan.is_enabled(phase) && each_named(plan, list, OfNamed::GoesWith(phase))
}

/// K16: a preempt with an empty dwell list has empty track and exit lists.
fn dwells_or_is_empty(plan: &Plan, preempt: Preempt) -> bool
    ensures { result ≡ dwells_or_is_empty (plan_of plan.now) preempt }
{
    of_preempt(plan, Object::PreemptDwellPhase, preempt) != 0
        || of_preempt(plan, Object::PreemptTrackPhase, preempt) == 0
            && of_preempt(plan, Object::PreemptExitPhase, preempt) == 0
}
