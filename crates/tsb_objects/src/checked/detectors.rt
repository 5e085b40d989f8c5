//! What a checked plan says of all its detectors at once.
#![tactic(auto, unfolding(tsb_plan::specs::PlanOf::plan_of, crate::specs::Checked::checked_plan))]

ghost use Rattle.std.specs.Prelude.{◌≡◌, ℕ, ◌≤◌, ◌&&◌, nat_le};
ghost use Rattle.tsb_objects.specs.Checked.{checked_plan};
ghost use Rattle.tsb_plan.specs.Parts.{call_phase, pedestrian_call_phase, detector_delay, no_activity, maximum_presence};
ghost use Rattle.tsb_types.specs.Lists.{is, some_passes, run_from};
ghost use Rattle.tsb_types.specs.Sets.{has, has_detector, has_number};
ghost use Rattle.tsb_types.specs.declared.limits.TheConstants.{PEDESTRIAN_DETECTORS, VEHICLE_DETECTORS};

use crate::checked::Checked;
use tsb_types::{DetectorSet, NumberSet, PhaseSet};

impl Checked {
    /// The phases that some vehicle detector of a set calls (`vehicleDetectorCallPhase`).
    #[inline(always)]
    pub fn phases_called_by(&self, detectors: DetectorSet) -> PhaseSet
        ensures { (p : ℕ) → 1 ≤ p → p ≤ 16 → has result p
            ≡ some_passes (λ d. is p (call_phase (checked_plan self.now) d) && has_detector detectors d) (run_from 1 VEHICLE_DETECTORS) }
    {
        self.union_tables.called.of(detectors)
    }

    /// The phases whose walk some pedestrian detector of a set calls (`pedestrianDetectorCallPhase`).
    #[inline(always)]
    pub fn walks_called_by(&self, detectors: NumberSet) -> PhaseSet
        ensures { (p : ℕ) → 1 ≤ p → p ≤ 16 → has result p
            ≡ some_passes (λ d. is p (pedestrian_call_phase (checked_plan self.now) d) && has_number detectors d) (run_from 1 PEDESTRIAN_DETECTORS) }
    {
        self.union_tables.walks_called.of(detectors)
    }

    /// The vehicle detectors with a delay (`vehicleDetectorDelay` over 0).
    #[inline(always)]
    pub fn detectors_with_delay(&self) -> DetectorSet
        ensures { (d : ℕ) → has_detector result d ≡ nat_le 1 (detector_delay (checked_plan self.now) d) }
    {
        self.detector_tables.with_delay
    }

    /// The vehicle detectors that fail by no activity (`vehicleDetectorNoActivity` over 0).
    #[inline(always)]
    pub fn detectors_with_no_activity(&self) -> DetectorSet
        ensures { (d : ℕ) → has_detector result d ≡ nat_le 1 (no_activity (checked_plan self.now) d) }
    {
        self.detector_tables.with_no_activity
    }

    /// The vehicle detectors that fail by maximum presence (`vehicleDetectorMaxPresence` over 0).
    #[inline(always)]
    pub fn detectors_with_maximum_presence(&self) -> DetectorSet
        ensures { (d : ℕ) → has_detector result d ≡ nat_le 1 (maximum_presence (checked_plan self.now) d) }
    {
        self.detector_tables.with_maximum_presence
    }
}
