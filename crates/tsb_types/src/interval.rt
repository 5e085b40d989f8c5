//! The interval of a phase.

/// The interval of a phase's vehicle head. A phase is in service in all of them but `Red`.
#[derive(Clone, Copy, PartialEq, Eq)]
pub enum Interval {
    /// Not in service: the head is red.
    Red,
    /// The head is green.
    Green,
    /// Yellow change: the head is yellow, for `phaseYellowChange`.
    Yellow,
    /// Red clearance: the head is red and the phase still in service, for `phaseRedClear`.
    RedClear,
}

/// The interval of a phase's pedestrian head.
#[derive(Clone, Copy, PartialEq, Eq)]
pub enum PedestrianInterval {
    /// Pedestrians wait.
    DontWalk,
    /// Pedestrians may start to walk, for `phaseWalk` or longer.
    Walk,
    /// Pedestrians finish crossing, and none starts, for `phasePedestrianClear`.
    PedestrianClear,
}
