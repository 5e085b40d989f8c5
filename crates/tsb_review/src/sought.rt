//! Phases that are sought by what they are: one loop for all.
#![tactic(auto, unfolding(tsb_plan::specs::PlanOf::plan_of))]

ghost use Rattle.std.specs.Prelude.{◌≡◌};
ghost use Rattle.std.specs.List.{list_any};
ghost use Rattle.tsb_plan.specs.Plan.{phases};
ghost use Rattle.tsb_plan.specs.PlanOf.{plan_of};
ghost use Rattle.tsb_types.specs.Lists.{first};
ghost use Rattle.tsb_review.specs.Sought.{is_sought};

use crate::calls::conflicts;
use crate::clearance::{is_across, reverts_soon};
use crate::coordination::{ends_apart_from, is_actuated};
use crate::entry::{enters, enters_beside, has_partners, is_on};
use crate::overlaps::{is_beside, is_split_from};
use crate::preempts::dwells_beside;
use crate::service::{is_in_ring, is_rival, is_served_apart};
use crate::splits::{is_left_short, is_passed};
use tsb_plan::Plan;
use tsb_types::{Overlap, Pattern, Phase, Preempt, Ring, Side};

/// What a phase has to be.
#[derive(Clone, Copy)]
pub(crate) enum SoughtPhase {
    /// It conflicts with this phase.
    InConflict(Phase),
    /// It is enabled, and of another side than this phase.
    Across(Phase),
    /// It is an enabled phase of this ring.
    InRing(Ring),
    /// It conflicts with this phase, and is called at all times in free operation.
    Rival(Phase),
    /// This overlap includes it, and it is of another ring than this phase and not concurrent with it.
    SplitFrom(Overlap, Phase),
    /// This overlap includes it, and it is another phase of the ring of this one.
    Beside(Overlap, Phase),
    /// It waits for a call in this pattern.
    Actuated(Pattern),
    /// Its red revert is under 2 seconds.
    SoonReverting,
    /// This pattern serves it apart from this phase.
    ServedApart(Pattern, Phase),
    /// In this pattern it begins at its force-off instant or after it, so long after the end of the split of this phase.
    Passed(Pattern, Phase, u32),
    /// The permissive time of this phase can leave it less than its minimum green in this pattern.
    LeftShort(Pattern, Phase),
    /// It is coordinated in this pattern, and its split ends at another time than that of this phase.
    EndingApart(Pattern, Phase),
    /// It is concurrent with this phase.
    Concurrent(Phase),
    /// It is a dwell phase of this preempt, and concurrent with this phase.
    DwellBeside(Preempt, Phase),
    /// It is an enabled phase of this ring on this side.
    On(Ring, Side),
    /// It is an enabled phase of the other ring on this side, and has dual entry.
    EnteringBeside(Ring, Side),
    /// It is enabled, and may be in service together with others.
    Partnered,
    /// It is enabled, and has dual entry.
    Entering,
}

/// Whether the phase is so.
fn is_sought(plan: &Plan, sought: SoughtPhase, phase: Phase) -> bool
    ensures { result ≡ is_sought sought (plan_of plan.now) phase }
{
    match sought {
        SoughtPhase::InConflict(other) => conflicts(plan, other, phase),
        SoughtPhase::Across(other) => is_across(plan, other, phase),
        SoughtPhase::InRing(ring) => is_in_ring(plan, ring, phase),
        SoughtPhase::Rival(other) => is_rival(plan, other, phase),
        SoughtPhase::SplitFrom(overlap, other) => is_split_from(plan, overlap, other, phase),
        SoughtPhase::Beside(overlap, other) => is_beside(plan, overlap, other, phase),
        SoughtPhase::Actuated(pattern) => is_actuated(plan, pattern, phase),
        SoughtPhase::SoonReverting => reverts_soon(plan, phase),
        SoughtPhase::ServedApart(pattern, other) => is_served_apart(plan, pattern, other, phase),
        SoughtPhase::Passed(pattern, other, late) => is_passed(plan, pattern, other, late, phase),
        SoughtPhase::LeftShort(pattern, other) => is_left_short(plan, pattern, other, phase),
        SoughtPhase::EndingApart(pattern, other) => ends_apart_from(plan, pattern, other, phase),
        SoughtPhase::Concurrent(other) => plan.concurrency(other).contains(phase),
        SoughtPhase::DwellBeside(preempt, other) => dwells_beside(plan, preempt, other, phase),
        SoughtPhase::On(ring, side) => is_on(plan, ring, side, phase),
        SoughtPhase::EnteringBeside(ring, side) => enters_beside(plan, ring, side, phase),
        SoughtPhase::Partnered => has_partners(plan, phase),
        SoughtPhase::Entering => enters(plan, phase),
    }
}

/// Whether some phase is so.
pub(crate) fn some_phase(plan: &Plan, sought: SoughtPhase) -> bool
    ensures { result ≡ list_any (is_sought sought (plan_of plan.now)) (phases (plan_of plan.now)) }
{
    Phase::all()
        .iter()
        .any(|phase| is_sought(plan, sought, *phase))
}

/// The first phase that is so.
pub(crate) fn first_phase(plan: &Plan, sought: SoughtPhase) -> Option<Phase>
    ensures { result ≡ first (is_sought sought (plan_of plan.now)) (phases (plan_of plan.now)) }
{
    Phase::all()
        .iter()
        .copied()
        .find(|phase| is_sought(plan, sought, *phase))
}
