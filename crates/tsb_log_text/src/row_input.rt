//! One of the inputs that a row has.
ghost use Rattle.std.specs.Prelude.{◌≡◌};
ghost use Rattle.tsb_log_text.specs.RowInputs.{value_of};

use tsb_types::{Detector, PedestrianDetector, Preempt, Row};

/// One of the inputs that a row has.
#[derive(Clone, Copy)]
pub enum RowInput {
    /// A vehicle detector.
    Vehicle(Detector),
    /// A pedestrian detector.
    Pedestrian(PedestrianDetector),
    /// The input of a preempt.
    Preempt(Preempt),
}

impl RowInput {
    /// Whether it is on in a row.
    pub fn is_on(&self, row: &Row) -> bool
        ensures { result ≡ value_of self.now row.now }
    {
        match self {
            RowInput::Vehicle(detector) => row.vehicles.contains(detector.number()),
            RowInput::Pedestrian(detector) => row.pedestrians.contains(detector.number()),
            RowInput::Preempt(preempt) => row.preempts.contains(preempt.number()),
        }
    }
}
