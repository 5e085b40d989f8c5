//! What the log of a controller sees.

use tsb_step::CycleState;
use tsb_step::log_form::Noted;
use tsb_types::{DetectorSet, NumberSet, Pattern, Row, Side};

/// What the log of a controller sees: sets of phases, overlaps, vehicle detectors and preempts by their numbers.
#[derive(Clone, Copy)]
pub struct Seen {
    /// Green phases. In flash there is none, nor any in the five sets of phases after this one and in the two of
    /// pedestrians (profile).
    pub greens: NumberSet,
    /// Phases in yellow change.
    pub yellows: NumberSet,
    /// Phases in red clearance.
    pub red_clearances: NumberSet,
    /// Those of them whose time has not passed.
    pub red_timings: NumberSet,
    /// Green phases whose maximum times, as another phase waits.
    pub conflicts: NumberSet,
    /// Phases in walk.
    pub walks: NumberSet,
    /// Phases in pedestrian clearance.
    pub clearances: NumberSet,
    /// Phases with a vehicle call that are not Green.
    pub vehicle_calls: NumberSet,
    /// Phases with a pedestrian call that are not in walk.
    pub pedestrian_calls: NumberSet,
    /// Phases on minimum or maximum recall, their own or by the pattern that runs.
    pub recalls: NumberSet,
    /// Phases on pedestrian recall.
    pub pedestrian_recalls: NumberSet,
    /// Overlaps whose head is green.
    pub overlap_greens: NumberSet,
    /// Overlaps that are green after their phases.
    pub overlap_trails: NumberSet,
    /// Overlaps whose head is yellow.
    pub overlap_yellows: NumberSet,
    /// Overlaps whose head flashes yellow.
    pub overlap_arrows: NumberSet,
    /// Overlaps whose head is none of these, where no phase that they include is in service, nor the turn of an arrow.
    pub overlaps_off: NumberSet,
    /// Vehicle detectors whose output is on, after delay and extension.
    pub outputs: DetectorSet,
    /// Vehicle detectors with an alarm, of whatever kind.
    pub alarms: DetectorSet,
    /// Preempts whose switch is on.
    pub switches: NumberSet,
    /// The preempt in service, if there is one.
    pub preempts: NumberSet,
    /// The preempt in service, in its track stage.
    pub tracks: NumberSet,
    /// The preempt in service, in its dwell.
    pub dwells: NumberSet,
    /// The preempt in service, in its exit.
    pub exits: NumberSet,
    /// Whether a preempt is in service.
    pub is_preempted: bool,
    /// Whether each phase of its stage is Green; `false` where none is in service.
    pub stage_is_green: bool,
    /// How the local counter of the pattern that runs goes.
    pub cycle: CycleState,
    /// Whether a crossing of the barrier is under way.
    pub crosses: bool,
    /// The side that is served.
    pub side: Side,
    /// Whether the monitor has tripped the controller.
    pub flashes: bool,
}

/// What the log sees of the selected pattern. Cycle, offset and splits are those of the pattern that runs, in seconds,
/// and 0 in free operation.
#[derive(Clone, Copy)]
pub struct Selected {
    /// The selected pattern; `None` for free operation.
    pub pattern: Option<Pattern>,
    /// The cycle, 0 to 255 seconds.
    pub cycle: u8,
    /// The offset, 0 to 254 seconds.
    pub offset: u8,
    /// The splits of phases 1 to 16 in turn, 0 to 255 seconds.
    pub splits: [u8; 16],
}

/// The selected pattern before an input and after it.
#[derive(Clone, Copy)]
pub struct Change {
    /// Before it.
    pub before: Selected,
    /// After it.
    pub after: Selected,
}

/// What a tick alone finds.
#[derive(Clone, Copy)]
pub struct Found {
    /// Green phases whose minimum green it completed.
    pub minimum: NumberSet,
    /// Phases whose green it ended by the gap.
    pub gap: NumberSet,
    /// Phases whose green it ended by the maximum.
    pub maximum: NumberSet,
    /// Phases whose green it ended by the force-off.
    pub force_off: NumberSet,
    /// What the log has noted before: its form, and the inputs that were on in the tick before.
    pub noted: Noted,
    /// The inputs that are on in the tick.
    pub row: Row,
    /// Whether the local counter comes to 0 in the tick, where a cycle begins.
    pub zero: bool,
    /// The coordinated phases to whose force-off instant it comes, their yield point.
    pub yields: NumberSet,
    /// Whether the preempt in service has been served: its input is off, after its minimum duration.
    pub served: bool,
}
