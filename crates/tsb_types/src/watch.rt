//! What can be watched for the tick of its last change.

use crate::numbers::{Detector, Phase};

/// A value of the controller that can be watched: `when` gives the last tick at which it changed.
#[derive(Clone, Copy, PartialEq, Eq)]
pub enum Watch {
    /// The interval of a phase.
    Interval(Phase),
    /// The pedestrian part of a phase.
    Ped(Phase),
    /// The vehicle memory of a phase.
    Call(Phase),
    /// The output of a vehicle detector.
    Output(Detector),
    /// The alarm of a vehicle detector.
    Alarm(Detector),
    /// The preempt in service, and its stage.
    Stage,
    /// The trip of the monitor: its reason and its tick.
    Trip,
}
