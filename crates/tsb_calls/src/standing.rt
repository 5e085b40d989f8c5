//! The calls in force after an input.

use tsb_objects::PhaseSet;

/// The phases with a call, as phaseStatusGroupVehCalls and phaseStatusGroupPedCalls of NTCIP 1202 have them.
#[derive(Clone, Copy)]
pub struct Standing {
    /// Phases that are not Green and have a vehicle call: by memory, by an output of a non-locking phase, or by minimum
    /// or maximum recall (profile).
    pub vehicle: PhaseSet,
    /// Phases that are not in Walk and have a pedestrian call: by memory or recall (profile).
    pub pedestrian: PhaseSet,
}
