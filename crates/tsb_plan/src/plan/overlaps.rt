//! What a plan says of overlaps.
#![tactic(auto, unfolding(crate::specs::PlanOf::plan_of))]

ghost use Rattle.std.specs.Prelude.{◌≡◌, ℕ, ◌+◌, ◌-◌, ◌*◌, ◌≤◌};

use crate::object::Object;
use crate::plan::Plan;
use tsb_types::{Overlap, PhaseSet};

impl Plan {
    ghost use Rattle.tsb_plan.specs.Parts.{is_included, is_modifier, is_minus_green_yellow, overlaps_across_rings, is_arrow, trails, includes_none, arrow_delay, heeds_pedestrians, trail_green, trail_yellow, trail_red};
    ghost use Rattle.tsb_plan.specs.PlanOf.{plan_of};
    ghost use Rattle.tsb_types.specs.Sets.{has};

    /// The phases with which the overlap is green (`overlapIncludedPhases`).
    pub fn included_phases(&self, overlap: Overlap) -> PhaseSet
        ensures { (q : ℕ) → has result q ≡ is_included (plan_of self.now) overlap q }
    {
        PhaseSet::from_list(
            self.value(Object::OverlapIncludedPhases, u32::from(overlap.number())) as u16,
        )
    }

    /// The phases that take the green from a minusGreenYellow overlap while they are Green, and the yellow while they
    /// are in yellow change (`overlapModifierPhases`). A flashing yellow arrow has its protected turn here (profile).
    pub fn modifier_phases(&self, overlap: Overlap) -> PhaseSet
        ensures { (q : ℕ) → has result q ≡ is_modifier (plan_of self.now) overlap q }
    {
        PhaseSet::from_list(
            self.value(Object::OverlapModifierPhases, u32::from(overlap.number())) as u16,
        )
    }

    /// Whether the overlap is of type minusGreenYellow (`overlapType`, profile).
    pub fn is_minus_green_yellow(&self, overlap: Overlap) -> bool
        ensures { result ≡ is_minus_green_yellow (plan_of self.now) overlap }
    {
        self.value(Object::OverlapType, u32::from(overlap.number())) == 1
    }

    /// Whether the overlap goes on through the clearance of a phase to one of the other ring (`overlapAcrossRings`,
    /// profile).
    pub fn overlaps_across_rings(&self, overlap: Overlap) -> bool
        ensures { result ≡ overlaps_across_rings (plan_of self.now) overlap }
    {
        self.value(Object::OverlapAcrossRings, u32::from(overlap.number())) == 1
    }

    /// Whether the overlap is a flashing yellow arrow (`overlapType` 2, profile): it includes a phase, and by rule K28 it
    /// has one modifier phase.
    pub fn is_arrow(&self, overlap: Overlap) -> bool
        ensures { result ≡ is_arrow (plan_of self.now) overlap }
    {
        self.value(Object::OverlapType, u32::from(overlap.number())) == 2
            && !self.includes_none(overlap)
    }

    /// Whether the overlap trails: it includes a phase, and stays green after its phases (`overlapTrailGreen` not 0).
    pub fn trails(&self, overlap: Overlap) -> bool
        ensures { result ≡ trails (plan_of self.now) overlap }
    {
        self.trail_green(overlap) != 0 && !self.includes_none(overlap)
    }

    /// Whether the overlap includes no phase, so that it has no head.
    pub fn includes_none(&self, overlap: Overlap) -> bool
        ensures { result ≡ includes_none (plan_of self.now) overlap }
    {
        self.value(Object::OverlapIncludedPhases, u32::from(overlap.number())) == 0
    }

    /// How long an arrow waits with its flashing yellow from the green of an included phase on, in ticks, 0 to 255
    /// (`overlapArrowDelay`, profile).
    pub fn arrow_delay(&self, overlap: Overlap) -> u32
        ensures { result ≡ arrow_delay (plan_of self.now) overlap }
    {
        self.value(Object::OverlapArrowDelay, u32::from(overlap.number()))
    }

    /// Whether an arrow does not flash while the crosswalk of an included phase shows walk or clearance
    /// (`overlapArrowPedestrian`, profile).
    pub fn heeds_pedestrians(&self, overlap: Overlap) -> bool
        ensures { result ≡ heeds_pedestrians (plan_of self.now) overlap }
    {
        self.value(Object::OverlapArrowPedestrian, u32::from(overlap.number())) == 1
    }

    /// How long the overlap stays green after its phases, in ticks, 0 to 2,550 (`overlapTrailGreen`, in seconds).
    pub fn trail_green(&self, overlap: Overlap) -> u32
        ensures { result ≡ trail_green (plan_of self.now) overlap }
    {
        10 * self.value(Object::OverlapTrailGreen, u32::from(overlap.number()))
    }

    /// How long its own yellow lasts after that, in ticks, 0 to 255 (`overlapTrailYellow`). By rule K29 it is 0, or at
    /// least 30.
    pub fn trail_yellow(&self, overlap: Overlap) -> u32
        ensures { result ≡ trail_yellow (plan_of self.now) overlap }
    {
        self.value(Object::OverlapTrailYellow, u32::from(overlap.number()))
    }

    /// How long its own red clearance lasts after its yellow, in ticks, 0 to 255 (`overlapTrailRed`).
    pub fn trail_red(&self, overlap: Overlap) -> u32
        ensures { result ≡ trail_red (plan_of self.now) overlap }
    {
        self.value(Object::OverlapTrailRed, u32::from(overlap.number()))
    }
}
