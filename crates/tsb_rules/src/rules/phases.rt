//! Rules K2, K10 and K22: what is said of a phase alone.
#![tactic(auto, unfolding(tsb_plan::specs::PlanOf::plan_of))]

ghost use Rattle.std.specs.Prelude.{◌≡◌, ◌==◌, ◌&&◌, ◌||◌, nat_le};
ghost use Rattle.tsb_plan.specs.Plan.{dynamic_maximum_limit, minimum_green};
ghost use Rattle.tsb_plan.specs.PlanOf.{plan_of};
ghost use Rattle.tsb_rules.specs.Rules.{is_placed, reaches_minimum};

use tsb_plan::{Object, Plan};
use tsb_types::Phase;

/// K2: the phase has ring 1 or 2, and one of the sides.
pub(super) fn is_placed(plan: &Plan, phase: Phase) -> bool
    ensures { result ≡ is_placed (plan_of plan.now) phase }
{
    has_ring(plan.ring(phase)) && has_side(plan.side(phase))
}

/// Whether this is the number of a ring.
fn has_ring(ring: u32) -> bool
    ensures { result ≡ (ring == 1 || ring == 2) }
{
    ring == 1 || ring == 2
}

/// Whether this is the number of a side.
fn has_side(side: u32) -> bool
    ensures { result ≡ (nat_le 1 side && nat_le side 4) }
{
    1 <= side && side <= 4
}

/// K10: both maximums of the phase are at least its minimum green.
pub(super) fn reaches_minimum(plan: &Plan, phase: Phase) -> bool
    ensures { result ≡ reaches_minimum (plan_of plan.now) phase }
{
    let minimum = plan.at(Object::PhaseMinimumGreen, u32::from(phase.number()));
    minimum <= plan.at(Object::PhaseMaximum1, u32::from(phase.number()))
        && minimum <= plan.at(Object::PhaseMaximum2, u32::from(phase.number()))
}

/// K22: the limit of the running maximum of the phase is 0 or at least its minimum green.
pub(super) fn limit_reaches(plan: &Plan, phase: Phase) -> bool
    ensures { result ≡ (dynamic_maximum_limit (plan_of plan.now) phase == 0
        || nat_le (minimum_green (plan_of plan.now) phase) (dynamic_maximum_limit (plan_of plan.now) phase)) }
{
    let limit = plan.dynamic_maximum_limit(phase);
    limit == 0 || plan.minimum_green(phase) <= limit
}
