//! What heads show, and the lamps that a fault lights on them.

use crate::numbers::{Overlap, Phase};

/// What a vehicle head shows, a phase's or an overlap's. Green and yellow give right of way; flashing yellow does not.
#[derive(Clone, Copy, PartialEq, Eq)]
pub enum Aspect {
    /// The phase is not enabled, or the overlap includes no phase (profile).
    Dark,
    /// Red, also in red clearance.
    Red,
    /// Yellow change.
    Yellow,
    /// Green.
    Green,
    /// Red, on and off: the monitor has tripped the controller.
    FlashingRed,
    /// Yellow, on and off: an arrow lets its turn go by gaps in the traffic that opposes it.
    FlashingYellow,
}

/// What a phase's pedestrian head shows.
#[derive(Clone, Copy)]
pub enum PedestrianAspect {
    /// The phase is not enabled, or has no walk and is in `DontWalk`, or the monitor has tripped the
    /// controller (profile).
    Dark,
    /// Pedestrians wait.
    DontWalk,
    /// Pedestrians finish crossing, and none starts.
    Clearance,
    /// Pedestrians may start to walk.
    Walk,
}

/// A lamp of a vehicle head, a phase's or an overlap's.
#[derive(Clone, Copy, PartialEq, Eq)]
pub enum SignalColor {
    /// The red lamp.
    Red,
    /// The yellow lamp.
    Yellow,
    /// The green lamp.
    Green,
}

/// A lamp of a pedestrian head.
#[derive(Clone, Copy, PartialEq, Eq)]
pub enum PedestrianColor {
    /// The lamp that has pedestrians wait.
    DontWalk,
    /// The lamp under which pedestrians finish crossing, and none starts.
    Clearance,
    /// The lamp under which pedestrians may start to walk.
    Walk,
}

/// A lamp that a fault injects on a head, which shows it in place of what the controller orders. It is
/// never dark.
#[derive(Clone, Copy, PartialEq, Eq)]
pub enum Lamp {
    /// A lamp of the vehicle head of a phase.
    Phase(Phase, SignalColor),
    /// A lamp of the pedestrian head of a phase.
    Pedestrian(Phase, PedestrianColor),
    /// A lamp of the vehicle head of an overlap.
    Overlap(Overlap, SignalColor),
    /// The flashing yellow of the head of an overlap, as arrows have it.
    Arrow(Overlap),
}
