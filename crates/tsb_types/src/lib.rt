//! The plain types that every layer names: numbers of phases, detectors, patterns and so on, each within its range,
//! sets of phases, a tick's inputs, intervals, lamps, refusals, and what layers give one another within a tick.
//!
//! What is marked "profile" is this project's own choice. Nothing here takes memory.
#![tactic(auto)]

pub mod calendar;
pub mod clock_time;
pub mod detector_set;
pub mod event;
pub mod flow;
pub mod interval;
pub mod lamp;
pub mod laws;
pub mod limits;
pub mod number_set;
pub mod numbers;
pub mod phase_set;
pub mod refusal;
pub mod row;
pub mod stage;
pub mod watch;

pub use calendar::ClockDate;
pub use clock_time::{ClockTime, DAY};
pub use detector_set::DetectorSet;
pub use event::Event;
pub use flow::{Called, Intervals, Moves, Orders, OverlapLights, Pedestrians, RingMoves, Timing};
pub use interval::{Interval, PedestrianInterval};
pub use lamp::{Aspect, Lamp, PedestrianAspect, PedestrianColor, SignalColor};
pub use number_set::NumberSet;
pub use numbers::{
    Action, DayEvent, DayPlan, Detector, Entry, Number, Overlap, Pattern, PedestrianDetector,
    Phase, Preempt, Ring, Sequence, Side, Split, Station,
};
pub use phase_set::PhaseSet;
pub use refusal::Refusal;
pub use row::Row;
pub use stage::Stage;
pub use watch::Watch;
