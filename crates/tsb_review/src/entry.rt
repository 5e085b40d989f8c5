//! Advices on dual entry: A52 and A63.
#![tactic(auto, unfolding(tsb_plan::specs::PlanOf::plan_of))]

ghost use Rattle.std.specs.Prelude.{◌≡◌};
ghost use Rattle.tsb_plan.specs.PlanOf.{plan_of};
ghost use Rattle.tsb_plan.specs.Plan.{has_dual_entry};
ghost use Rattle.tsb_rules.specs.PatternRules.{is_on, has_phases};
ghost use Rattle.tsb_review.specs.Entry.{may_enter, entry_count, enters_beside, has_unlike_entry, has_partners, enters, lacks_entry};

use crate::sought::{SoughtPhase, some_phase};
use tsb_plan::{Object, Plan};
use tsb_types::{Phase, Ring, Side};

/// Whether the phase has dual entry (`phaseDualEntry`).
fn has_dual_entry(plan: &Plan, phase: Phase) -> bool
    ensures { result ≡ has_dual_entry (plan_of plan.now) phase }
{
    plan.at(Object::PhaseDualEntry, u32::from(phase.number())) == 1
}

/// Whether this is an enabled phase of the ring on the side.
pub(crate) fn is_on(plan: &Plan, ring: Ring, side: Side, phase: Phase) -> bool
    ensures { result ≡ is_on (plan_of plan.now) ring side phase }
{
    plan.is_enabled(phase)
        && plan.ring(phase) == u32::from(ring.number())
        && plan.side(phase) == u32::from(side.number())
}

/// Whether it is, and has dual entry.
fn may_enter(plan: &Plan, ring: Ring, side: Side, phase: Phase) -> bool
    ensures { result ≡ may_enter (plan_of plan.now) ring side phase }
{
    is_on(plan, ring, side, phase) && has_dual_entry(plan, phase)
}

/// How many of these there are.
#[tactic(auto, unfolding(tsb_plan::specs::PlanOf::plan_of, crate::specs::Entry::entry_count))]
pub(crate) fn entry_count(plan: &Plan, ring: Ring, side: Side) -> u32
    ensures { result ≡ entry_count (plan_of plan.now) ring side }
{
    let phases = Phase::all();
    let mut count = 0;
    for phase in &phases {
        if may_enter(plan, ring, side, *phase) {
            count += 1;
        }
    }
    count
}

/// Whether the phase is an enabled one of the other ring on the side, and has dual entry.
pub(crate) fn enters_beside(plan: &Plan, ring: Ring, side: Side, phase: Phase) -> bool
    ensures { result ≡ enters_beside (plan_of plan.now) ring side phase }
{
    plan.is_enabled(phase)
        && plan.side(phase) == u32::from(side.number())
        && plan.ring(phase) != u32::from(ring.number())
        && has_dual_entry(plan, phase)
}

/// A52: whether the ring has phases on the side, of which not just one has dual entry, and one of the other ring has it
/// there.
pub(crate) fn has_unlike_entry(plan: &Plan, ring: Ring, side: Side) -> bool
    ensures { result ≡ has_unlike_entry (plan_of plan.now) ring side }
{
    some_phase(plan, SoughtPhase::On(ring, side))
        && some_phase(plan, SoughtPhase::EnteringBeside(ring, side))
        && entry_count(plan, ring, side) != 1
}

/// Whether the phase is enabled, and may be in service together with others.
pub(crate) fn has_partners(plan: &Plan, phase: Phase) -> bool
    ensures { result ≡ has_partners (plan_of plan.now) phase }
{
    plan.is_enabled(phase) && plan.at(Object::PhaseConcurrency, u32::from(phase.number())) > 0
}

/// Whether the phase is enabled, and has dual entry.
pub(crate) fn enters(plan: &Plan, phase: Phase) -> bool
    ensures { result ≡ enters (plan_of plan.now) phase }
{
    plan.is_enabled(phase) && has_dual_entry(plan, phase)
}

/// A63: whether phases of two rings may be in service together, and no phase has dual entry.
pub(crate) fn lacks_entry(plan: &Plan) -> bool
    ensures { result ≡ lacks_entry (plan_of plan.now) }
{
    some_phase(plan, SoughtPhase::Partnered) && !some_phase(plan, SoughtPhase::Entering)
}
