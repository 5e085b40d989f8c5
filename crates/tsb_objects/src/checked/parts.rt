//! Which overlaps and preempts a checked plan uses, and which overlaps have intervals of their own.
#![tactic(auto, unfolding(tsb_plan::specs::PlanOf::plan_of, crate::specs::Checked::checked_plan))]

ghost use Rattle.std.specs.Prelude.{◌≡◌, ℕ, ◌==◌, not};
ghost use Rattle.tsb_objects.specs.Checked.{checked_plan};
ghost use Rattle.tsb_objects.specs.TimedOverlaps.{AreArrows, AreTimed};
ghost use Rattle.tsb_plan.specs.declared.object.Object.TheVariants.{OverlapIncludedPhases, PreemptDwellPhase};
ghost use Rattle.tsb_types.specs.Sets.{has_number};

use crate::checked::Checked;
use tsb_types::NumberSet;

impl Checked {
    /// The overlaps that include a phase (`overlapIncludedPhases`): the others are dark at all times.
    #[inline(always)]
    pub fn used_overlaps(&self) -> NumberSet
        ensures { (o : ℕ) → has_number result o ≡ not ((checked_plan self.now).value OverlapIncludedPhases o == 0) }
    {
        self.part_tables.overlaps
    }

    /// The overlaps that are flashing yellow arrows (`overlapType` 2).
    #[inline(always)]
    pub fn arrows(&self) -> NumberSet
        ensures { AreArrows (checked_plan self.now) result }
    {
        self.part_tables.arrows
    }

    /// The overlaps that have intervals of their own: arrows, and overlaps that trail (`overlapTrailGreen`). What the heads
    /// of all others show is a function of phases.
    #[inline(always)]
    pub fn timed_overlaps(&self) -> NumberSet
        ensures { AreTimed (checked_plan self.now) result }
    {
        self.part_tables.timed
    }

    /// The preempts with a dwell phase (`preemptDwellPhase`): the others never request service.
    #[inline(always)]
    pub fn used_preempts(&self) -> NumberSet
        ensures { (n : ℕ) → has_number result n ≡ not ((checked_plan self.now).value PreemptDwellPhase n == 0) }
    {
        self.part_tables.preempts
    }
}
