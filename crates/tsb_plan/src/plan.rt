//! Timing plans.
#![tactic(auto, unfolding(crate::specs::PlanOf::plan_of))]

ghost use Rattle.std.specs.Prelude.{◌≡◌, ℕ, ◌+◌, ◌-◌, ◌≤◌, ◌<◌, true, length, slice_index, Ok, Err, Some, None};
ghost use Rattle.tsb_plan.specs.declared.object.TheConstants.{PLAN_CELLS};
ghost use Rattle.tsb_plan.specs.Objects.{AreInRange, value_in, has_index, greatest, first_cell, indices};

pub mod acting;
mod built_in;
mod cells;
mod detectors;
pub mod holding;
mod overlaps;
mod patterns;
mod phases;
mod preempts;
mod running;
pub mod schedule;

use crate::object::{Object, ObjectId, PLAN_CELLS, range_of};
pub use patterns::{CorrectionMode, OffsetReference, SplitMode};
use tsb_types::{Phase, Refusal};

/// A timing plan: the value of each object at each of its indices.
///
/// Each value is in its object's range, whatever is done to the plan. It is not promised that a plan meets the rules:
/// `check` says whether it does, and the plan of a `Checked` always does.
#[derive(Clone, Copy, PartialEq, Eq)]
pub struct Plan {
    values: [u16; PLAN_CELLS],
    ghost full: { length values ≡ PLAN_CELLS },
    ghost ranged: { AreInRange values },
}

/// `N` cells that are 0.
fn zeros<const N: usize>() -> [u16; N]
    ensures full { length result ≡ N }
    ensures zeros { (k : ℕ) → slice_index result k ≡ 0 }
{
    [0; N]
}

/// The cell of an object at an index that it has.
fn cell(object: Object, index: u32) -> usize
    requires { has_index object index ≡ true }
    ensures at { result ≡ first_cell object + (index - 1) }
    ensures within { result < PLAN_CELLS }
{
    object.first_cell() + (index as usize - 1)
}

impl Plan {
    ghost use Rattle.tsb_plan.specs.Plan.{empty, with_value};
    ghost use Rattle.tsb_plan.specs.PlanOf.{plan_of, got, put_refusal};

    /// The plan in which each object is 0 at each index.
    pub fn empty() -> Plan
        ensures { plan_of result ≡ empty }
    {
        let values = zeros();
        Plan { values }
    }

    /// The value of an object at an index, in the object's unit. An index that the object does not have is refused as
    /// `NoSuchObject`.
    pub fn get(&self, id: ObjectId) -> Result<u32, Refusal>
        ensures { result ≡ got (plan_of self.now) id }
    {
        if id.index == 0 || id.index > range_of(id.object).indices {
            return Err(Refusal::NoSuchObject);
        }
        Ok(self.value(id.object, id.index))
    }

    /// Sets the value of an object at an index, in the object's unit. Every other value stays.
    ///
    /// An index that the object does not have is refused as `NoSuchObject`, and otherwise a value that it does not take
    /// as `OutOfRange`. The plan is then as it was.
    pub fn put(&mut self, id: ObjectId, value: u32) -> Result<(), Refusal>
        ensures put { put_refusal id value ≡ None →
            (result ≡ Ok tt) × (plan_of self.new ≡ with_value (plan_of self.old) id.object id.index value) }
        ensures refused { (e : Refusal) → put_refusal id value ≡ Some e →
            (result ≡ Err e) × (self.new ≡ self.old) }
    {
        let range = range_of(id.object);
        if id.index == 0 || id.index > range.indices {
            return Err(Refusal::NoSuchObject);
        }
        if value > range.greatest {
            return Err(Refusal::OutOfRange);
        }
        self.set(id.object, id.index, value as u16);
        Ok(())
    }

    /// The value of an object at an index that it has.
    fn value(&self, object: Object, index: u32) -> u32
        requires { has_index object index ≡ true }
        ensures value { result ≡ value_in self.now.values object index }
        ensures range { result ≤ greatest object }
    {
        u32::from(self.values[cell(object, index)])
    }

    /// The value of an object at an index that it has, in the object's unit.
    pub fn at(&self, object: Object, index: u32) -> u32
        requires { has_index object index ≡ true }
        ensures value { result ≡ (plan_of self.now).value object index }
        ensures range { result ≤ greatest object }
    {
        self.value(object, index)
    }

    fn set(&mut self, object: Object, index: u32, value: u16)
        requires index { has_index object index ≡ true }
        requires value { value ≤ greatest object }
        ensures { plan_of self.new ≡ with_value (plan_of self.old) object index value }
    {
        self.values[cell(object, index)] = value;
    }

    /// The value of an object of phases.
    fn of_phase(&self, object: Object, phase: Phase) -> u32
        requires { indices object ≡ 16 }
        ensures value { result ≡ value_in self.now.values object phase }
        ensures range { result ≤ greatest object }
    {
        self.value(object, u32::from(phase.number()))
    }
}
