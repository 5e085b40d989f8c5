//! What the layers of the controller give one another within one tick: what phases show, what is asked of the rings,
//! which phases are called and timed out, and what the rings do about it. `docs/work/CONTRACTS.md` says who finds each
//! value, and who reads it.

ghost use Rattle.tsb_types.specs.Flow.{AreUnlit};

use crate::number_set::NumberSet;
use crate::numbers::{Phase, Side};
use crate::phase_set::PhaseSet;

/// The intervals of all phases: a phase in none of the sets is Red. No phase is in two of them.
#[derive(Clone, Copy)]
pub struct Intervals {
    /// Phases that are Green.
    pub green: PhaseSet,
    /// Phases in yellow change.
    pub yellow: PhaseSet,
    /// Phases in red clearance.
    pub red_clear: PhaseSet,
}

/// The pedestrian parts of all phases: a phase in none of the sets is in `DontWalk`. No phase is in both.
#[derive(Clone, Copy)]
pub struct Pedestrians {
    /// Phases whose pedestrians may start to walk.
    pub walk: PhaseSet,
    /// Phases whose pedestrians finish crossing.
    pub clearance: PhaseSet,
}

/// What coordination and preemption ask of the rings in a tick.
#[derive(Clone, Copy)]
pub struct Orders {
    /// The coordinated phases of the pattern that runs: coordination keeps them green until their force-off,
    /// unless a preempt is in service.
    pub hold: PhaseSet,
    /// Phases that the preempt ends.
    pub must_end: PhaseSet,
    /// Phases that are forced off in this tick.
    pub forced: PhaseSet,
    /// Coordinated phases that may walk again within their green in this tick.
    pub recycle: PhaseSet,
    /// Phases that the pattern that runs omits: no call and no dual entry brings them into service. A preempt
    /// does, where they are in its target.
    pub omit: PhaseSet,
    /// The phases that a preempt wants served, or `None` where no preempt is in service.
    pub target: Option<PhaseSet>,
}

/// Which phases are called in a tick.
#[derive(Clone, Copy, PartialEq, Eq)]
pub struct Called {
    /// Phases that a ring may serve next.
    pub callable: PhaseSet,
    /// Phases for which another callable phase waits that is not concurrent with them.
    pub conflict: PhaseSet,
    /// Phases with a pedestrian call.
    pub pedestrian: PhaseSet,
    /// Phases called by a vehicle detector whose output is on.
    pub output: PhaseSet,
}

/// Which times of phases have passed in a tick.
#[derive(Clone, Copy, PartialEq, Eq)]
pub struct Timing {
    /// Phases that are ready to end their green.
    pub ready: PhaseSet,
    /// Phases whose clearance is done.
    pub over: PhaseSet,
    /// Phases whose red revert time has passed.
    pub red_revert_passed: PhaseSet,
    /// Phases that have gapped out.
    pub gapped: PhaseSet,
    /// Phases of which a walk begins within their green in this tick.
    pub walks: PhaseSet,
}

/// What one ring does in a tick.
#[derive(Clone, Copy)]
pub struct RingMoves {
    /// The phase that goes from green to yellow, if any.
    pub ends: Option<Phase>,
    /// The phase that goes from yellow or red clearance to red, if any.
    pub clears: Option<Phase>,
    /// The phase that goes green, if any.
    pub starts: Option<Phase>,
    /// The phase that the ring commits to serve next, if it does so now.
    pub commits: Option<Phase>,
}

/// What both rings do in a tick.
#[derive(Clone, Copy)]
pub struct Moves {
    /// What ring 1 does.
    pub first: RingMoves,
    /// What ring 2 does.
    pub second: RingMoves,
    /// The side that a crossing of the barriers goes to, where one begins now.
    pub crossing: Option<Side>,
    /// Whether a crossing that began earlier is completed now.
    pub completes: bool,
}

/// What overlaps are in that have intervals of their own, as arrows and overlaps that trail do: one in none of the sets is
/// red. No overlap is in two of them.
#[derive(Clone, Copy, PartialEq, Eq)]
pub struct OverlapLights {
    /// Overlaps whose head is green, also after their phases.
    pub green: NumberSet,
    /// Overlaps whose head flashes yellow.
    pub flashing: NumberSet,
    /// Overlaps whose head is yellow.
    pub yellow: NumberSet,
}

impl OverlapLights {
    /// None is lit.
    pub fn none() -> OverlapLights
        ensures { AreUnlit result }
    {
        OverlapLights {
            green: NumberSet::empty(),
            flashing: NumberSet::empty(),
            yellow: NumberSet::empty(),
        }
    }
}
