//! Whether two plans agree on the objects that tables are made from: then the tables of one are those of the other.
#![tactic(auto, unfolding(tsb_plan::specs::PlanOf::plan_of))]

ghost use Rattle.std.specs.Prelude.{◌≡◌, ◌≤◌, ◌↔◌, IsTrue};
ghost use Rattle.tsb_objects.specs.Agreement.{Agree, is_between, is_one, is_for_phases, is_for_detectors, is_for_patterns, is_for_unions};
ghost use Rattle.tsb_plan.specs.Objects.{order, indices};
ghost use Rattle.tsb_plan.specs.PlanOf.{plan_of};

use tsb_plan::{Object, Plan};

/// Whether two plans give the same values for all objects from one on, and before another, in the table of objects.
#[inline(always)]
fn agree_between(plan: &Plan, other: &Plan, from: Object, to: Object) -> bool
    requires { order from ≤ order to }
    ensures { IsTrue result ↔ Agree (is_between from to) (plan_of plan.now) (plan_of other.now) }
{
    plan.has_same_cells(other, from.first_cell(), to.first_cell())
}

/// Whether two plans give the same value for an object that has one index.
#[inline(always)]
fn agree_on(plan: &Plan, other: &Plan, object: Object) -> bool
    requires { indices object ≡ 1 }
    ensures { IsTrue result ↔ Agree (is_one object) (plan_of plan.now) (plan_of other.now) }
{
    plan.at(object, 1) == other.at(object, 1)
}

/// Whether two plans agree on what the tables of phases are made from.
pub(crate) fn agree_for_phases(plan: &Plan, other: &Plan) -> bool
    ensures { IsTrue result ↔ Agree is_for_phases (plan_of plan.now) (plan_of other.now) }
{
    agree_between(
        plan,
        other,
        Object::PhaseEnabled,
        Object::PhasePedestrianClear,
    )
}

/// Whether two plans agree on what the tables of detectors are made from.
pub(crate) fn agree_for_detectors(plan: &Plan, other: &Plan) -> bool
    ensures { IsTrue result ↔ Agree is_for_detectors (plan_of plan.now) (plan_of other.now) }
{
    agree_between(
        plan,
        other,
        Object::VehicleDetectorDelay,
        Object::VehicleDetectorErraticCounts,
    )
}

/// Whether two plans agree on what the tables of patterns are made from.
pub(crate) fn agree_for_patterns(plan: &Plan, other: &Plan) -> bool
    ensures { IsTrue result ↔ Agree is_for_patterns (plan_of plan.now) (plan_of other.now) }
{
    agree_between(plan, other, Object::PhaseEnabled, Object::PhaseConcurrency)
        && agree_between(
            plan,
            other,
            Object::PhaseYellowChange,
            Object::PhaseRedRevert,
        )
        && agree_between(plan, other, Object::PatternCycleTime, Object::PreemptDelay)
        && agree_between(
            plan,
            other,
            Object::CoordForceMode,
            Object::CoordCorrectionMode,
        )
        && agree_on(plan, other, Object::CoordReference)
}

/// Whether two plans agree on what the unions are made from.
pub(crate) fn agree_for_unions(plan: &Plan, other: &Plan) -> bool
    ensures { IsTrue result ↔ Agree is_for_unions (plan_of plan.now) (plan_of other.now) }
{
    agree_between(plan, other, Object::PhaseConcurrency, Object::PhaseWalk)
        && agree_between(
            plan,
            other,
            Object::VehicleDetectorCallPhase,
            Object::VehicleDetectorDelay,
        )
        && agree_between(
            plan,
            other,
            Object::PedestrianDetectorCallPhase,
            Object::OverlapIncludedPhases,
        )
}
