//! What a plan says of detectors. Times are in tenths of a second.
#![tactic(auto, unfolding(crate::specs::PlanOf::plan_of))]

ghost use Rattle.std.specs.Prelude.{◌≡◌, ℕ, ◌+◌, ◌-◌, ◌*◌, ◌≤◌};

use crate::object::Object;
use crate::plan::Plan;
use tsb_types::{Detector, PedestrianDetector, Phase};

impl Plan {
    ghost use Rattle.tsb_plan.specs.Parts.{call_phase, detector_delay, detector_extend, no_activity, maximum_presence, erratic_counts, fail_time, pedestrian_call_phase};
    ghost use Rattle.tsb_plan.specs.PlanOf.{plan_of};
    ghost use Rattle.tsb_types.specs.Sets.{has};

    /// The phase that the detector calls and extends (`vehicleDetectorCallPhase`).
    pub fn call_phase(&self, detector: Detector) -> Option<Phase>
        ensures { result ≡ call_phase (plan_of self.now) detector }
    {
        Phase::new(self.value(
            Object::VehicleDetectorCallPhase,
            u32::from(detector.number()),
        ))
    }

    /// How long the detector has to be on before it calls (`vehicleDetectorDelay`), in tenths of a
    /// second.
    pub fn detector_delay(&self, detector: Detector) -> u32
        ensures { result ≡ detector_delay (plan_of self.now) detector }
    {
        self.value(Object::VehicleDetectorDelay, u32::from(detector.number()))
    }

    /// How long the detector stays on after its vehicle (`vehicleDetectorExtend`), in tenths of a second.
    pub fn detector_extend(&self, detector: Detector) -> u32
        ensures { result ≡ detector_extend (plan_of self.now) detector }
    {
        self.value(Object::VehicleDetectorExtend, u32::from(detector.number()))
    }

    /// How long the detector may be off, 0 for any time (`vehicleDetectorNoActivity`), in tenths of a
    /// second.
    pub fn no_activity(&self, detector: Detector) -> u32
        ensures { result ≡ no_activity (plan_of self.now) detector }
    {
        600 * self.value(
            Object::VehicleDetectorNoActivity,
            u32::from(detector.number()),
        )
    }

    /// How long the detector may be on, 0 for any time (`vehicleDetectorMaxPresence`), in tenths of a
    /// second.
    pub fn maximum_presence(&self, detector: Detector) -> u32
        ensures { result ≡ maximum_presence (plan_of self.now) detector }
    {
        600 * self.value(
            Object::VehicleDetectorMaxPresence,
            u32::from(detector.number()),
        )
    }

    /// How many times the detector may rise a minute, 0 for any number (`vehicleDetectorErraticCounts`).
    pub fn erratic_counts(&self, detector: Detector) -> u32
        ensures { result ≡ erratic_counts (plan_of self.now) detector }
    {
        self.value(
            Object::VehicleDetectorErraticCounts,
            u32::from(detector.number()),
        )
    }

    /// How long into a green the detector is taken as on while it has failed (`vehicleDetectorFailTime`),
    /// in tenths of a second: 0 for off and 2,550 for on all the time (profile).
    pub fn fail_time(&self, detector: Detector) -> u32
        ensures { result ≡ fail_time (plan_of self.now) detector }
    {
        10 * self.value(
            Object::VehicleDetectorFailTime,
            u32::from(detector.number()),
        )
    }

    /// The phase that the pedestrian detector calls (`pedestrianDetectorCallPhase`).
    pub fn pedestrian_call_phase(&self, detector: PedestrianDetector) -> Option<Phase>
        ensures { result ≡ pedestrian_call_phase (plan_of self.now) detector }
    {
        Phase::new(self.value(
            Object::PedestrianDetectorCallPhase,
            u32::from(detector.number()),
        ))
    }
}
