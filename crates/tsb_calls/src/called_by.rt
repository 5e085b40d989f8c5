//! The phases that detectors call, of all detectors that the plan has.
ghost use Rattle.std.specs.Prelude.{◌≡◌, ◌&&◌, ◌≤◌, ℕ};
ghost use Rattle.tsb_objects.specs.tsb_types.Lists.{some_passes};
ghost use Rattle.tsb_objects.specs.tsb_types.Sets.{has, has_detector, has_number};
ghost use Rattle.tsb_objects.specs.Checked.{checked_plan};
ghost use Rattle.tsb_calls.specs.Memories.{calls, calls_walk, pedestrian_detectors, vehicle_detectors};

use tsb_objects::{Checked, DetectorSet, NumberSet, PhaseSet};

/// The phases that some vehicle detector of a set calls.
#[inline(always)]
pub(crate) fn phases_called_by(plan: &Checked, detectors: DetectorSet) -> PhaseSet
    ensures { (p : ℕ) → 1 ≤ p → p ≤ 16 → has result p
        ≡ some_passes (λ d. calls (checked_plan plan.now) d p && has_detector detectors d) (vehicle_detectors (checked_plan plan.now)) }
{
    plan.phases_called_by(detectors)
}

/// The phases whose walk some pedestrian detector of a set calls.
#[inline(always)]
pub(crate) fn walks_called_by(plan: &Checked, detectors: NumberSet) -> PhaseSet
    ensures { (p : ℕ) → 1 ≤ p → p ≤ 16 → has result p
        ≡ some_passes (λ d. calls_walk (checked_plan plan.now) d p && has_number detectors d) (pedestrian_detectors (checked_plan plan.now)) }
{
    plan.walks_called_by(detectors)
}
