//! Rules K3, K4 and K5: which phases are concurrent.
#![tactic(auto, unfolding(tsb_plan::specs::PlanOf::plan_of))]

ghost use Rattle.std.specs.Prelude.{◌≡◌, ◌==◌, ◌||◌};
ghost use Rattle.tsb_plan.specs.declared.object.Object.TheVariants.{PhaseConcurrency};
ghost use Rattle.tsb_plan.specs.Plan.{is_enabled};
ghost use Rattle.tsb_plan.specs.PlanOf.{plan_of};
ghost use Rattle.tsb_rules.specs.Rules.{may_be_concurrent, names_across_rings, is_named_back};

use crate::rules::lists::{OfNamed, each_named};
use tsb_plan::{Object, Plan};
use tsb_types::Phase;

/// The concurrency list of a phase.
fn concurrency_list(plan: &Plan, phase: Phase) -> u16
    ensures { result ≡ (plan_of plan.now).value PhaseConcurrency phase }
{
    plan.at(Object::PhaseConcurrency, u32::from(phase.number())) as u16
}

/// K3: the phase is enabled, or its concurrency list is empty.
pub(super) fn has_empty_list(plan: &Plan, phase: Phase) -> bool
    ensures { result ≡ (is_enabled (plan_of plan.now) phase || (plan_of plan.now).value PhaseConcurrency phase == 0) }
{
    plan.is_enabled(phase) || concurrency_list(plan, phase) == 0
}

/// K4: the concurrency list of the phase names only enabled phases of the other ring and the same side.
pub(super) fn names_across_rings(plan: &Plan, phase: Phase) -> bool
    ensures { result ≡ names_across_rings (plan_of plan.now) phase }
{
    let list = concurrency_list(plan, phase);
    each_named(plan, list, OfNamed::IsAcross(phase))
}

/// Whether `other` is enabled, of the other ring than the phase, and on the same side.
pub(super) fn may_be_concurrent(plan: &Plan, phase: Phase, other: Phase) -> bool
    ensures { result ≡ may_be_concurrent (plan_of plan.now) phase other }
{
    plan.is_enabled(other)
        && plan.ring(phase) != plan.ring(other)
        && plan.side(phase) == plan.side(other)
}

/// K5: each phase that the concurrency list of the phase names has it in its own.
pub(super) fn is_named_back(plan: &Plan, phase: Phase) -> bool
    ensures { result ≡ is_named_back (plan_of plan.now) phase }
{
    let list = concurrency_list(plan, phase);
    each_named(plan, list, OfNamed::NamesBack(phase))
}
