//! Sets of detectors: `DetectorSet`, by detectors in place of numbers.
ghost use Rattle.tsb_objects.specs.tsb_types.declared.limits.TheConstants.{VEHICLE_DETECTORS};
ghost use Rattle.std.specs.Prelude.{◌≡◌, ◌≢◌, ℕ, ◌≤◌, true, false};
ghost use Rattle.tsb_objects.specs.tsb_types.Sets.{has_detector};

use tsb_objects::limits::VEHICLE_DETECTORS;
use tsb_objects::{Detector, DetectorSet};

/// Whether a set has the detector.
#[inline(always)]
pub(crate) fn has(set: DetectorSet, d: Detector) -> bool
    ensures { result ≡ has_detector set d }
{
    set.contains(d.number())
}

/// The set with the detector if `on`, and otherwise without it.
#[inline(always)]
pub(crate) fn with(set: DetectorSet, d: Detector, on: bool) -> DetectorSet
    ensures set { has_detector result d ≡ on }
    ensures others { (e : ℕ) → e ≢ d → has_detector result e ≡ has_detector set e }
{
    set.with(d.number(), on)
}

/// The set with the detector if `on`, for a set that does not have it yet.
#[inline(always)]
pub(crate) fn joined(set: DetectorSet, d: Detector, on: bool) -> DetectorSet
    requires { has_detector set d ≡ false }
    ensures set { has_detector result d ≡ on }
    ensures others { (e : ℕ) → e ≢ d → has_detector result e ≡ has_detector set e }
{
    set.joined(d.number(), on)
}

/// The numbers that one of two sets has and the other does not.
#[inline(always)]
pub(crate) fn differing(a: DetectorSet, b: DetectorSet) -> DetectorSet
    ensures { (d : ℕ) → has_detector result d ≡ false → has_detector b d ≡ has_detector a d }
{
    a.difference(b).union(b.difference(a))
}

/// The list of all detectors.
const ALL: u64 = u64::MAX >> (64 - VEHICLE_DETECTORS);

/// All detectors.
#[inline(always)]
pub(crate) fn all() -> DetectorSet
    ensures { (d : ℕ) → 1 ≤ d → d ≤ VEHICLE_DETECTORS → has_detector result d ≡ true }
{
    DetectorSet::from_list(ALL)
}
