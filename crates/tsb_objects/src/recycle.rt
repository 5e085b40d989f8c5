//! Pedestrian recycle: when a coordinated phase may walk again within its green. Times are in tenths of a second.
#![tactic(auto, unfolding(tsb_plan::specs::PlanOf::plan_of))]

ghost use Rattle.std.specs.Prelude.{◌≡◌, ◌+◌, ◌<◌, ◌≤◌, ◌%◌, Some, IfSome};
ghost use Rattle.tsb_plan.specs.PlanOf.{plan_of};
ghost use Rattle.tsb_objects.specs.Instants.{residue_of_difference, walk_and_clearance, is_left};

use tsb_plan::Plan;
use tsb_types::Phase;

/// How long a walk of a phase with its pedestrian clearance lasts (`phaseWalk`, `phasePedestrianClear`).
pub(crate) fn walk_and_clearance(plan: &Plan, p: Phase) -> u32
    ensures value { result ≡ walk_and_clearance (plan_of plan.now) p }
    ensures range { result ≤ 5100 }
{
    plan.walk(p) + plan.pedestrian_clear(p)
}

/// Whether that time is left from the local counter to an instant, in a cycle.
pub(crate) fn is_left(cycle: u32, time: u32, local: u32, instant: &Option<u32>) -> bool
    requires some { 1 ≤ cycle }
    requires small { cycle ≤ 2550 }
    requires below { IfSome instant.now (λ i. i < cycle) }
    ensures { result ≡ is_left cycle time (Some local) instant.now }
{
    match instant {
        None => false,
        Some(instant) => time <= (*instant + (cycle - local % cycle)) % cycle,
    }
}

/// The first tick of the local counter from which that time is no longer left to an instant, in a cycle.
pub(crate) fn recycle_end(cycle: u32, time: u32, instant: u32) -> u32
    requires some { 1 ≤ cycle }
    requires small { cycle ≤ 2550 }
    requires below { instant < cycle }
    ensures value { result ≡ (residue_of_difference cycle instant time + 1) % cycle }
    ensures below { result < cycle }
{
    ((instant + (cycle - time % cycle)) % cycle + 1) % cycle
}
