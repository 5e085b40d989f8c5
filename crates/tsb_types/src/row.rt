//! The inputs of a tick.
ghost use Rattle.std.specs.Prelude.{◌≡◌, ℕ, false};
ghost use Rattle.tsb_types.specs.Sets.{all_off, has_detector, has_number};

use crate::detector_set::DetectorSet;
use crate::number_set::NumberSet;

/// The inputs that are on in a tick, by number. Numbers above those that exist have no effect.
#[derive(Clone, Copy, PartialEq, Eq)]
pub struct Row {
    /// Vehicle detectors, 1 to `VEHICLE_DETECTORS`.
    pub vehicles: DetectorSet,
    /// Pedestrian detectors, 1 to `PEDESTRIAN_DETECTORS`.
    pub pedestrians: NumberSet,
    /// Preempt inputs, 1 to `PREEMPTS`.
    pub preempts: NumberSet,
}

impl Row {
    /// All inputs off.
    pub fn all_off() -> Row
        ensures vehicles { (d : ℕ) → has_detector result.vehicles d ≡ false }
        ensures pedestrians { (d : ℕ) → has_number result.pedestrians d ≡ false }
        ensures preempts { (n : ℕ) → has_number result.preempts n ≡ false }
        ensures same { result ≡ all_off }
    {
        Row {
            vehicles: DetectorSet::empty(),
            pedestrians: NumberSet::empty(),
            preempts: NumberSet::empty(),
        }
    }
}
