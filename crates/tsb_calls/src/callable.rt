//! Which phases are called, which of them a ring may serve next, and which have to yield to one of these.
ghost use Rattle.std.specs.Prelude.{◌≡◌, ℕ, ◌≤◌, ◌&&◌, ◌||◌, not, true, false, Bool};
ghost use Rattle.tsb_objects.specs.tsb_types.Lists.{some_passes, run_from};
ghost use Rattle.tsb_objects.specs.tsb_types.Sets.{has};
ghost use Rattle.tsb_objects.specs.tsb_plan.Plan.{has_soft_recall};
ghost use Rattle.tsb_objects.specs.Checked.{checked_plan};
ghost use Rattle.tsb_calls.specs.Memories.{Memories, has_output};
ghost use Rattle.tsb_calls.specs.Callable.{has_pedestrian_call, is_called, is_free, is_callable_otherwise, is_callable, has_conflict};
ghost use Rattle.tsb_calls.specs.Promises.{given_of, AreStanding, IsCalledAs};
ghost use Rattle.tsb_calls.specs.Layer.{AreMemories};

use crate::observed::Observed;
use crate::recalls::{with_pedestrians, with_recall};
use crate::standing::Standing;
use tsb_objects::{Called, Checked, PhaseSet};

/// Whether a set has a phase.
#[inline(always)]
fn has_some(set: PhaseSet) -> bool
    ensures { (test : ℕ → Bool) → ((p : ℕ) → 1 ≤ p → p ≤ 16 → has set p ≡ test p) → result ≡ some_passes test (run_from 1 16) }
{
    match set.first() {
        Some(p) => {
            p.known();
            true
        }
        None => false,
    }
}

/// The phases with a pedestrian call, by the pedestrian memories as set.
#[inline(always)]
fn with_pedestrian_call(plan: &Checked, observed: &Observed, pedestrian: PhaseSet) -> PhaseSet
    ensures { (m : Memories) → (p : ℕ) → 1 ≤ p → p ≤ 16 → has pedestrian p ≡ m.pedestrian p →
        has result p ≡ has_pedestrian_call (checked_plan plan.now) (given_of observed.now) m p }
{
    let recalled = plan.on_pedestrian_recall(observed.runs);
    with_pedestrians(plan).intersection(pedestrian.union(recalled))
}

/// The phases that are free to be served.
#[inline(always)]
fn free(plan: &Checked, observed: &Observed) -> PhaseSet
    ensures { (p : ℕ) → 1 ≤ p → p ≤ 16 → has result p ≡ is_free (checked_plan plan.now) (given_of observed.now) p }
{
    plan.enabled()
        .difference(observed.omit)
        .difference(observed.intervals.green)
}

/// The phases that are called, by the vehicle memories as set, the pedestrian calls and the outputs.
#[inline(always)]
fn called(
    plan: &Checked,
    observed: &Observed,
    vehicle: PhaseSet,
    walk: PhaseSet,
    output: PhaseSet,
) -> PhaseSet
    requires { (p : ℕ) → 1 ≤ p → p ≤ 16 → has output p ≡ has_output (checked_plan plan.now) (given_of observed.now) p }
    ensures { (m : Memories) → (p : ℕ) → 1 ≤ p → p ≤ 16 → has vehicle p ≡ m.vehicle p →
        has walk p ≡ has_pedestrian_call (checked_plan plan.now) (given_of observed.now) m p →
        has result p ≡ is_called (checked_plan plan.now) (given_of observed.now) m p }
{
    let passing = plan.non_locking().intersection(output);
    vehicle
        .union(walk)
        .union(passing)
        .union(with_recall(plan, observed))
}

/// The calls in force, by the memories and the outputs.
pub(crate) fn find_standing(
    plan: &Checked,
    observed: &Observed,
    vehicle: PhaseSet,
    pedestrian: PhaseSet,
    output: PhaseSet,
) -> Standing
    requires { (p : ℕ) → 1 ≤ p → p ≤ 16 → has output p ≡ has_output (checked_plan plan.now) (given_of observed.now) p }
    ensures { (m : Memories) → AreMemories vehicle pedestrian m → (p : ℕ) → 1 ≤ p → p ≤ 16 →
        AreStanding (checked_plan plan.now) (given_of observed.now) m result p }
{
    let passing = plan.non_locking().intersection(output);
    let asked = vehicle.union(passing).union(with_recall(plan, observed));
    let waiting = plan.enabled().difference(observed.intervals.green);
    let walks = with_pedestrian_call(plan, observed, pedestrian);
    Standing {
        vehicle: waiting.intersection(asked),
        pedestrian: walks.difference(observed.pedestrians.walk),
    }
}

/// The callable phases, of those that are free and those that are called: where none is both, soft recall counts.
#[inline(always)]
fn callable(plan: &Checked, free: PhaseSet, called: PhaseSet) -> PhaseSet
    ensures { (test : ℕ → Bool) → ((p : ℕ) → 1 ≤ p → p ≤ 16 → (has free p && has called p) ≡ test p) →
        (p : ℕ) → 1 ≤ p → p ≤ 16 → has result p ≡ (test p || (has free p && (has_soft_recall (checked_plan plan.now) p && not (some_passes test (run_from 1 16))))) }
{
    let otherwise = free.intersection(called);
    let softly = free.intersection(plan.soft_recall());
    if has_some(otherwise) {
        otherwise
    } else {
        softly
    }
}

/// Which phases are called, by the memories as set.
#[inline(always)]
#[tactic(auto, unfolding(crate::specs::Callable::is_callable, crate::specs::Callable::has_conflict))]
pub(crate) fn find_called(
    plan: &Checked,
    observed: &Observed,
    vehicle: PhaseSet,
    pedestrian: PhaseSet,
    output: PhaseSet,
) -> Called
    requires { (p : ℕ) → 1 ≤ p → p ≤ 16 → has output p ≡ has_output (checked_plan plan.now) (given_of observed.now) p }
    ensures { (m : Memories) → AreMemories vehicle pedestrian m → (p : ℕ) → 1 ≤ p → p ≤ 16 →
        IsCalledAs (checked_plan plan.now) (given_of observed.now) m result p }
{
    let walk = with_pedestrian_call(plan, observed, pedestrian);
    let called = called(plan, observed, vehicle, walk, output);
    let callable = callable(plan, free(plan, observed), called);
    Called {
        callable,
        conflict: plan.in_conflict_with(callable),
        pedestrian: walk,
        output,
    }
}
