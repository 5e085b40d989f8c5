//! What a plan says of all its phases at once, as sets.
#![tactic(auto, unfolding(tsb_plan::specs::PlanOf::plan_of))]

ghost use Rattle.std.specs.Prelude.{◌≡◌, ℕ, ◌+◌, ◌<◌, ◌≤◌, ◌==◌, length, slice_index, nat_le};
ghost use Rattle.tsb_objects.specs.Tables.{ArePhaseTables};
ghost use Rattle.tsb_plan.specs.Objects.{indices};
ghost use Rattle.tsb_plan.specs.PlanOf.{plan_of};
ghost use Rattle.tsb_types.specs.declared.limits.TheConstants.{VEHICLE_DETECTORS};
ghost use Rattle.tsb_types.specs.Sets.{names, has, has_detector, has_number};

use crate::agreement::agree_for_phases;
use tsb_plan::{Object, Plan};
use tsb_types::{DetectorSet, NumberSet, PhaseSet};

/// What a plan says of all its phases at once. Each word of an array is a list, as
/// `phaseConcurrency` has it.
#[derive(Clone, Copy)]
pub struct PhaseTables {
    /// The phases that are in use (`phaseEnabled`).
    pub(crate) enabled: PhaseSet,
    /// The phases that do not lock their calls (`phaseNonLock`).
    pub(crate) non_locking: PhaseSet,
    /// The phases with soft recall (`phaseSoftRecall`).
    pub(crate) soft_recall: PhaseSet,
    /// The phases with dual entry (`phaseDualEntry`).
    pub(crate) dual_entry: PhaseSet,
    /// The phases with a walk (`phaseWalk`).
    pub(crate) with_walk: PhaseSet,
    /// The phases of each ring (`phaseRing`).
    pub(crate) rings: [u16; 2],
    /// The phases of each side (`phaseSide`).
    pub(crate) sides: [u16; 4],
}

impl PhaseTables {
    /// The tables of a plan.
    pub(crate) fn of(plan: &Plan) -> PhaseTables
        ensures { ArePhaseTables (plan_of plan.now) result }
    {
        PhaseTables {
            enabled: phases_with(plan, Object::PhaseEnabled),
            non_locking: phases_with(plan, Object::PhaseNonLock),
            soft_recall: phases_with(plan, Object::PhaseSoftRecall),
            dual_entry: phases_with(plan, Object::PhaseDualEntry),
            with_walk: PhaseSet::from_list(numbers_with(plan, Object::PhaseWalk).list()),
            rings: columns(plan, Object::PhaseRing),
            sides: columns(plan, Object::PhaseSide),
        }
    }

    /// Makes them the tables of a plan, from those of the plan before it: they stay where both plans agree on what they
    /// are made from.
    pub(crate) fn renew(&mut self, before: &Plan, plan: &Plan)
        requires { ArePhaseTables (plan_of before.now) self.old }
        ensures { ArePhaseTables (plan_of plan.now) self.new }
    {
        if !agree_for_phases(before, plan) {
            *self = PhaseTables::of(plan);
        }
    }
}

/// The numbers at which the object has that value, which is not 0.
fn numbers_at(plan: &Plan, object: Object, wanted: u32) -> NumberSet
    requires few { indices object ≤ 16 }
    requires some { 1 ≤ wanted }
    ensures { (n : ℕ) → has_number result n ≡ ((plan_of plan.now).value object n == wanted) }
{
    let mut set = NumberSet::empty();
    for number in 1..object.indices() + 1 {
        set = set.joined(number as u8, plan.at(object, number) == wanted);
    }
    set
}

/// The phases for which an object says yes.
fn phases_with(plan: &Plan, flag: Object) -> PhaseSet
    requires { indices flag ≡ 16 }
    ensures { (p : ℕ) → has result p ≡ ((plan_of plan.now).value flag p == 1) }
{
    PhaseSet::from_list(numbers_at(plan, flag, 1).list())
}

/// The numbers at which the object has a value over 0.
pub(crate) fn numbers_with(plan: &Plan, object: Object) -> NumberSet
    requires few { indices object ≤ 16 }
    ensures { (n : ℕ) → has_number result n ≡ nat_le 1 ((plan_of plan.now).value object n) }
{
    let mut set = NumberSet::empty();
    for number in 1..object.indices() + 1 {
        set = set.joined(number as u8, plan.at(object, number) != 0);
    }
    set
}

/// The vehicle detectors at which the object is not 0.
pub(crate) fn detectors_with(plan: &Plan, object: Object) -> DetectorSet
    requires few { indices object ≤ VEHICLE_DETECTORS }
    ensures { (d : ℕ) → has_detector result d ≡ nat_le 1 ((plan_of plan.now).value object d) }
{
    let mut set = DetectorSet::empty();
    for number in 1..object.indices() + 1 {
        set = set.joined(number as u8, plan.at(object, number) != 0);
    }
    set
}

/// For each value from 1 on, the numbers at which the object has it, as a list.
fn columns<const N: usize>(plan: &Plan, object: Object) -> [u16; N]
    requires few { indices object ≤ 16 }
    requires within { N ≤ 16 }
    ensures full { length result ≡ N }
    ensures told { (k n : ℕ) → k < N → names (slice_index result k) n ≡ ((plan_of plan.now).value object n == k + 1) }
{
    let mut words = [0; N];
    for k in 0..N {
        words[k] = numbers_at(plan, object, k as u32 + 1).list();
    }
    words
}
