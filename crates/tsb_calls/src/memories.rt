//! What detectors put into the memories.
ghost use Rattle.std.specs.Prelude.{◌≡◌, ℕ, ◌≤◌};
ghost use Rattle.tsb_objects.specs.tsb_types.Sets.{has};
ghost use Rattle.tsb_objects.specs.Checked.{checked_plan};
ghost use Rattle.tsb_calls.specs.Memories.{Memories, has_output, vehicle_memory, pedestrian_memory};
ghost use Rattle.tsb_calls.specs.Promises.{given_of};

use crate::called_by::walks_called_by;
use crate::observed::Observed;
use crate::recalls::with_pedestrians;
use tsb_objects::{Checked, PhaseSet};

/// The vehicle memories as set.
#[inline(always)]
#[tactic(auto, unfolding(crate::specs::Memories::vehicle_memory))]
pub(crate) fn vehicle_memories(
    plan: &Checked,
    observed: &Observed,
    old: PhaseSet,
    output: PhaseSet,
) -> PhaseSet
    requires { (p : ℕ) → 1 ≤ p → p ≤ 16 → has output p ≡ has_output (checked_plan plan.now) (given_of observed.now) p }
    ensures { (m : Memories) → (p : ℕ) → 1 ≤ p → p ≤ 16 → has old p ≡ m.vehicle p →
        has result p ≡ vehicle_memory (checked_plan plan.now) (given_of observed.now) m p }
{
    let on = plan.enabled();
    let called = if observed.service_ended {
        on
    } else {
        on.intersection(output.difference(plan.non_locking()))
    };
    old.union(called.difference(observed.intervals.green))
}

/// The pedestrian memories as set.
#[inline(always)]
#[tactic(auto, unfolding(crate::specs::Memories::pedestrian_memory, crate::specs::Memories::has_button))]
pub(crate) fn pedestrian_memories(plan: &Checked, observed: &Observed, old: PhaseSet) -> PhaseSet
    ensures { (m : Memories) → (p : ℕ) → 1 ≤ p → p ≤ 16 → has old p ≡ m.pedestrian p →
        has result p ≡ pedestrian_memory (checked_plan plan.now) (given_of observed.now) m p }
{
    let called = walks_called_by(plan, observed.buttons);
    let pressed = called.intersection(with_pedestrians(plan));
    old.union(pressed.difference(observed.pedestrians.walk))
}
