//! What a wait is found from. Times are what is left, in tenths of a second; what a phase is "in the next tick" it is
//! there whatever inputs are on in it.

use tsb_objects::{Overlap, Phase, PhaseSet, Preempt, Side};
use tsb_step::Lack;

/// A phase that waits.
#[derive(Clone, Copy)]
pub struct Waiting {
    /// Its number.
    pub phase: Phase,
    /// Whether the pattern that runs omits it.
    pub is_omitted: bool,
    /// Whether its red revert has passed in the next tick.
    pub is_reverted: bool,
    /// What is left of its red revert.
    pub red_revert: u32,
}

/// A phase that a ring is committed to.
#[derive(Clone, Copy)]
pub struct Next {
    /// Its number.
    pub phase: Phase,
    /// Whether its red revert has passed in the next tick.
    pub is_reverted: bool,
    /// What is left of its red revert.
    pub red_revert: u32,
}

/// A phase in service.
#[derive(Clone, Copy)]
pub struct Served {
    /// Its number.
    pub phase: Phase,
    /// Whether it is Green.
    pub is_green: bool,
    /// Whether its clearance is done in the next tick.
    pub is_over: bool,
    /// What is left of its yellow change and red clearance.
    pub left: u32,
    /// The overlap that holds it, where its own clearance is done in the next tick, and for how long, at most.
    pub trail: Option<(Overlap, u32)>,
    /// What its green lacked in the last tick, where it is Green.
    pub lack: Option<Lack>,
}

/// A ring.
#[derive(Clone, Copy)]
pub struct RingFound {
    /// Its phase in service.
    pub served: Option<Served>,
    /// The phase that it starts next.
    pub next: Option<Next>,
}

/// A preempt in service.
#[derive(Clone, Copy)]
pub struct Service {
    /// Its number.
    pub preempt: Preempt,
    /// The phases of its stage.
    pub phases: PhaseSet,
}

/// What holds of all phases.
#[derive(Clone, Copy)]
pub struct Circumstances {
    /// Whether the monitor has tripped the controller.
    pub tripped: bool,
    /// The preempt in service.
    pub service: Option<Service>,
    /// Whether a crossing of the barrier is under way.
    pub crosses: bool,
    /// The side that is served.
    pub side: Side,
}
