//! What a plan says of all its detectors at once, as sets.
#![tactic(auto, unfolding(tsb_plan::specs::PlanOf::plan_of))]

ghost use Rattle.tsb_objects.specs.Tables.{AreDetectorTables};
ghost use Rattle.tsb_plan.specs.PlanOf.{plan_of};

use crate::agreement::agree_for_detectors;
use crate::tables::detectors_with;
use tsb_plan::{Object, Plan};
use tsb_types::DetectorSet;

/// What a plan says of all its detectors at once.
#[derive(Clone, Copy)]
pub struct DetectorTables {
    /// The vehicle detectors with a delay (`vehicleDetectorDelay`).
    pub(crate) with_delay: DetectorSet,
    /// The vehicle detectors that fail by no activity (`vehicleDetectorNoActivity`).
    pub(crate) with_no_activity: DetectorSet,
    /// The vehicle detectors that fail by maximum presence (`vehicleDetectorMaxPresence`).
    pub(crate) with_maximum_presence: DetectorSet,
}

impl DetectorTables {
    /// The tables of a plan.
    pub(crate) fn of(plan: &Plan) -> DetectorTables
        ensures { AreDetectorTables (plan_of plan.now) result }
    {
        DetectorTables {
            with_delay: detectors_with(plan, Object::VehicleDetectorDelay),
            with_no_activity: detectors_with(plan, Object::VehicleDetectorNoActivity),
            with_maximum_presence: detectors_with(plan, Object::VehicleDetectorMaxPresence),
        }
    }

    /// Makes them the tables of a plan, from those of the plan before it: they stay where both plans agree on what they
    /// are made from.
    pub(crate) fn renew(&mut self, before: &Plan, plan: &Plan)
        requires { AreDetectorTables (plan_of before.now) self.old }
        ensures { AreDetectorTables (plan_of plan.now) self.new }
    {
        if !agree_for_detectors(before, plan) {
            *self = DetectorTables::of(plan);
        }
    }
}
