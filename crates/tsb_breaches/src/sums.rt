//! Sums of splits, and counts of coordinated phases, as rules K19 and K20 ask for them. Times are in tenths of a second.
#![tactic(auto, unfolding(tsb_plan::specs::PlanOf::plan_of))]

ghost use Rattle.std.specs.Prelude.{◌≡◌, ◌≤◌, sum_by};
ghost use Rattle.tsb_types.specs.Lists.{run_from};
ghost use Rattle.tsb_plan.specs.PlanOf.{plan_of};
ghost use Rattle.tsb_rules.specs.PatternRules.{is_on, has_phases, split_on, split_sum, side_sum, rings_agree, is_coordinated_in, coordinated_count, has_coordinated};

use tsb_plan::Plan;
use tsb_types::{Phase, Ring, Split};

/// Whether this is an enabled phase of the ring on the side.
fn is_on(plan: &Plan, ring: Ring, side: u32, phase: Phase) -> bool
    ensures { result ≡ is_on (plan_of plan.now) ring side phase }
{
    plan.is_enabled(phase)
        && plan.ring(phase) == u32::from(ring.number())
        && plan.side(phase) == side
}

/// Whether the ring has an enabled phase on the side.
pub(crate) fn has_phases(plan: &Plan, ring: Ring, side: u32) -> bool
    ensures { result ≡ has_phases (plan_of plan.now) ring side }
{
    Phase::all()
        .iter()
        .any(|phase| is_on(plan, ring, side, *phase))
}

/// What the phase adds to the ring's splits on the side.
fn split_on(plan: &Plan, split: Split, ring: Ring, side: u32, phase: Phase) -> u32
    ensures value { result ≡ split_on (plan_of plan.now) split ring side phase }
    ensures range { result ≤ 2550 }
{
    if is_on(plan, ring, side, phase) {
        plan.split_time(split, phase)
    } else {
        0
    }
}

/// The sum of the ring's splits on the side. Omitted phases count.
#[tactic(auto, unfolding(tsb_plan::specs::PlanOf::plan_of, tsb_rules::specs::PatternRules::split_sum))]
pub(crate) fn split_sum(plan: &Plan, split: Split, ring: Ring, side: u32) -> u32
    ensures sum { result ≡ split_sum (plan_of plan.now) split ring side }
    ensures range { result ≤ 40800 }
{
    let phases = Phase::all();
    let mut sum = 0;
    for phase in &phases {
        sum += split_on(plan, split, ring, side, *phase);
    }
    sum
}

/// How long the side is: the sum of ring 1's splits there, or of ring 2's where ring 1 has no phase there.
#[tactic(auto, unfolding(tsb_plan::specs::PlanOf::plan_of, tsb_rules::specs::PatternRules::side_sum))]
fn side_sum(plan: &Plan, split: Split, side: u32) -> u32
    ensures sum { result ≡ side_sum (plan_of plan.now) split side }
    ensures range { result ≤ 40800 }
{
    if has_phases(plan, Ring::of(1), side) {
        split_sum(plan, split, Ring::of(1), side)
    } else {
        split_sum(plan, split, Ring::of(2), side)
    }
}

/// How long the four sides are, one after the other.
#[tactic(auto, unfolding(tsb_plan::specs::PlanOf::plan_of, tsb_types::specs::Lists::run_from))]
pub(crate) fn sides_sum(plan: &Plan, split: Split) -> u32
    ensures { result ≡ sum_by (side_sum (plan_of plan.now) split) (run_from 1 4) }
{
    side_sum(plan, split, 1)
        + side_sum(plan, split, 2)
        + side_sum(plan, split, 3)
        + side_sum(plan, split, 4)
}

/// Whether the rings that have phases on the side have one sum of splits there.
pub(crate) fn rings_agree(plan: &Plan, split: Split, side: u32) -> bool
    ensures { result ≡ rings_agree (plan_of plan.now) split side }
{
    let (first, second) = (Ring::of(1), Ring::of(2));
    !(has_phases(plan, first, side) && has_phases(plan, second, side))
        || split_sum(plan, split, first, side) == split_sum(plan, split, second, side)
}

/// Whether the table has a coordinated phase.
pub(crate) fn has_coordinated(plan: &Plan, split: Split) -> bool
    ensures { result ≡ has_coordinated (plan_of plan.now) split }
{
    Phase::all()
        .iter()
        .any(|phase| plan.is_coordinated(split, *phase))
}

/// Whether the phase is a coordinated one of the ring.
fn is_coordinated_in(plan: &Plan, split: Split, ring: Ring, phase: Phase) -> bool
    ensures { result ≡ is_coordinated_in (plan_of plan.now) split ring phase }
{
    plan.is_coordinated(split, phase) && plan.ring(phase) == u32::from(ring.number())
}

/// How many coordinated phases the ring has.
#[tactic(auto, unfolding(tsb_plan::specs::PlanOf::plan_of, tsb_rules::specs::PatternRules::coordinated_count))]
pub(crate) fn coordinated_count(plan: &Plan, split: Split, ring: Ring) -> u32
    ensures { result ≡ coordinated_count (plan_of plan.now) split ring }
{
    let phases = Phase::all();
    let mut count = 0;
    for phase in &phases {
        if is_coordinated_in(plan, split, ring, *phase) {
            count += 1;
        }
    }
    count
}
