//! What rules ask of phases, as data: one loop goes over the phases for all rules that ask one thing of each.
#![tactic(auto, unfolding(tsb_plan::specs::PlanOf::plan_of))]

ghost use Rattle.std.specs.Prelude.{◌≡◌};
ghost use Rattle.std.specs.List.{list_all, list_any};
ghost use Rattle.tsb_plan.specs.Plan.{phases};
ghost use Rattle.tsb_plan.specs.PlanOf.{plan_of};
ghost use Rattle.tsb_rules.specs.Asked.{enabled_meets, phase_meets, is_sought};
ghost use Rattle.tsb_rules.specs.SequenceRules.{each_phase};

use crate::rules::calls::walks_where_recalled;
use crate::rules::concurrency::{has_empty_list, is_named_back, names_across_rings};
use crate::rules::lists::goes_with_all_in;
use crate::rules::patterns::{coordinates_in, holds_phase};
use crate::rules::phases::{is_placed, limit_reaches, reaches_minimum};
use crate::rules::splits::is_on;
use tsb_plan::Plan;
use tsb_types::{Phase, Ring, Sequence, Split};

/// What a rule asks of each enabled phase.
#[derive(Clone, Copy)]
pub(super) enum OfEnabled {
    /// K2: it has ring 1 or 2, and one of the sides.
    Placed,
    /// K4: its concurrency list names only enabled phases of the other ring and the same side.
    NamesAcrossRings,
    /// K8: its yellow change is at least 3 seconds.
    LongYellow,
    /// K9: its minimum gap is at most its passage time.
    ReducibleGap,
    /// K10: both of its maximums are at least its minimum green.
    ReachedMinimum,
    /// K11: with pedestrian recall it has a walk.
    WalkRecalled,
    /// K22: the limit of its running maximum is 0 or at least its minimum green.
    ReachedByLimit,
    /// K18: this split table omits it or holds it.
    HeldBy(Split),
}

/// What a rule asks of each phase, enabled or not.
#[derive(Clone, Copy)]
pub(super) enum OfPhase {
    /// K3: its concurrency list is empty where it is not enabled.
    EmptyUnused,
    /// K5: each phase that its concurrency list names has it in its own.
    NamedBack,
    /// K15: where this list names it, it is enabled and concurrent with each other that the list names.
    ConcurrentIn(u16),
    /// K20: where this split table coordinates it, it agrees with the others by this sequence; their splits may end
    /// apart, or not.
    CoordinatesIn(bool, Sequence, Split),
}

/// What some phase has to be.
#[derive(Clone, Copy)]
pub(super) enum Sought {
    /// It is enabled.
    Enabled,
    /// It is a coordinated phase of this split table.
    CoordinatedIn(Split),
    /// It is an enabled phase of this ring on this side.
    OnSide(Ring, u32),
}

/// Whether an enabled phase is as a rule asks.
fn enabled_meets(plan: &Plan, asked: OfEnabled, phase: Phase) -> bool
    ensures { result ≡ enabled_meets asked (plan_of plan.now) phase }
{
    match asked {
        OfEnabled::Placed => is_placed(plan, phase),
        OfEnabled::NamesAcrossRings => names_across_rings(plan, phase),
        OfEnabled::LongYellow => plan.yellow_change(phase) >= 30,
        OfEnabled::ReducibleGap => plan.minimum_gap(phase) <= plan.passage(phase),
        OfEnabled::ReachedMinimum => reaches_minimum(plan, phase),
        OfEnabled::WalkRecalled => walks_where_recalled(plan, phase),
        OfEnabled::ReachedByLimit => limit_reaches(plan, phase),
        OfEnabled::HeldBy(split) => holds_phase(plan, split, phase),
    }
}

/// Whether each enabled phase is as a rule asks.
pub(super) fn each_enabled(plan: &Plan, asked: OfEnabled) -> bool
    ensures { result ≡ each_phase (plan_of plan.now) (enabled_meets asked (plan_of plan.now)) }
{
    Phase::all().iter().all(|phase| !plan.is_enabled(*phase) || enabled_meets(plan, asked, *phase))
}

/// Whether a phase is as a rule asks.
fn phase_meets(plan: &Plan, asked: OfPhase, phase: Phase) -> bool
    ensures { result ≡ phase_meets asked (plan_of plan.now) phase }
{
    match asked {
        OfPhase::EmptyUnused => has_empty_list(plan, phase),
        OfPhase::NamedBack => is_named_back(plan, phase),
        OfPhase::ConcurrentIn(list) => goes_with_all_in(plan, list, phase),
        OfPhase::CoordinatesIn(apart, sequence, split) => {
            coordinates_in(plan, apart, sequence, split, phase)
        }
    }
}

/// Whether each phase is as a rule asks.
pub(super) fn each_phase(plan: &Plan, asked: OfPhase) -> bool
    ensures { result ≡ list_all (phase_meets asked (plan_of plan.now)) (phases (plan_of plan.now)) }
{
    Phase::all()
        .iter()
        .all(|phase| phase_meets(plan, asked, *phase))
}

/// Whether a phase is as sought.
fn is_sought(plan: &Plan, sought: Sought, phase: Phase) -> bool
    ensures { result ≡ is_sought sought (plan_of plan.now) phase }
{
    match sought {
        Sought::Enabled => plan.is_enabled(phase),
        Sought::CoordinatedIn(split) => plan.is_coordinated(split, phase),
        Sought::OnSide(ring, side) => is_on(plan, ring, side, phase),
    }
}

/// Whether some phase is as sought.
pub(super) fn some_phase(plan: &Plan, sought: Sought) -> bool
    ensures { result ≡ list_any (is_sought sought (plan_of plan.now)) (phases (plan_of plan.now)) }
{
    Phase::all()
        .iter()
        .any(|phase| is_sought(plan, sought, *phase))
}
