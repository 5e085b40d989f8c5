//! What a plan says of all its overlaps and preempts at once, as sets.
#![tactic(auto, unfolding(tsb_plan::specs::PlanOf::plan_of))]

ghost use Rattle.std.specs.Prelude.{◌≡◌, ℕ};
ghost use Rattle.tsb_objects.specs.Tables.{ArePartTables};
ghost use Rattle.tsb_objects.specs.TimedOverlaps.{AreArrows, AreTrailing};
ghost use Rattle.tsb_plan.specs.PlanOf.{plan_of};

use crate::tables::numbers_with;
use tsb_plan::{Object, Plan};
use tsb_types::limits::OVERLAPS;
use tsb_types::{NumberSet, Overlap};

/// Which overlaps and preempts a plan uses, and which overlaps have intervals of their own: a tick leaves out the others.
#[derive(Clone, Copy)]
pub struct PartTables {
    /// The overlaps that include a phase (`overlapIncludedPhases`).
    pub(crate) overlaps: NumberSet,
    /// The overlaps that are arrows (`overlapType` 2).
    pub(crate) arrows: NumberSet,
    /// The overlaps that have intervals of their own: arrows, and overlaps that trail (`overlapTrailGreen`).
    pub(crate) timed: NumberSet,
    /// The preempts with a dwell phase (`preemptDwellPhase`).
    pub(crate) preempts: NumberSet,
}

impl PartTables {
    /// The tables of a plan.
    pub(crate) fn of(plan: &Plan) -> PartTables
        ensures { ArePartTables (plan_of plan.now) result }
    {
        let arrows = arrows_of(plan);
        PartTables {
            overlaps: numbers_with(plan, Object::OverlapIncludedPhases),
            arrows,
            timed: arrows.union(trailing_of(plan)),
            preempts: numbers_with(plan, Object::PreemptDwellPhase),
        }
    }
}

/// The overlaps of a plan that are arrows.
fn arrows_of(plan: &Plan) -> NumberSet
    ensures { AreArrows (plan_of plan.now) result }
{
    let mut set = NumberSet::empty();
    for number in 1..OVERLAPS + 1 {
        set = set.joined(number, plan.is_arrow(Overlap::of(number)));
    }
    set
}

/// The overlaps of a plan that trail.
fn trailing_of(plan: &Plan) -> NumberSet
    ensures { AreTrailing (plan_of plan.now) result }
{
    let mut set = NumberSet::empty();
    for number in 1..OVERLAPS + 1 {
        set = set.joined(number, plan.trails(Overlap::of(number)));
    }
    set
}
