//! What a phase that is called and not Green waits for, and what a green lacks that may not end.

use tsb_objects::{Overlap, Phase, Preempt};

/// What a green lacks that may not end (NEMA TS 2, actuated phase timing): the first of these that applies. Times are
/// what is left, in tenths of a second.
#[derive(Clone, Copy, PartialEq, Eq)]
pub enum Lack {
    /// Its walk goes on: for this time at least, or, with 0, it rests in walk.
    Walk(u32),
    /// Its pedestrian clearance goes on.
    Clearance(u32),
    /// Its initial time has not passed, or the shorter one of the preempt that ends it.
    Initial(u32),
    /// It is a coordinated phase of the pattern that runs, and its force-off has not come.
    ForceOff,
    /// Its gap has not expired, or it is on maximum recall; and neither its maximum nor its force-off ends it.
    Gap(u32),
}

/// What keeps a phase from turning Green that is called: the first of these that applies. Times are what is left, in
/// tenths of a second. Commitments and crossings of the barrier are the profile's own.
#[derive(Clone, Copy, PartialEq, Eq)]
pub enum Wait {
    /// The monitor has tripped the controller, which flashes until it is reset.
    Flash,
    /// No preempt is in service, and the pattern that runs omits it.
    Omitted,
    /// The preempt is in service, and does not want it in its stage.
    Preempted(Preempt),
    /// Its red revert, which has this time left.
    RedRevert(u32),
    /// Its ring starts the other phase first, to which it is committed.
    Next(Phase),
    /// The phase of its ring is not over, or clears before the ring looks for the next: the time of its yellow change
    /// and red clearance that is left. It may be the phase itself.
    Clears(Phase, u32),
    /// Its ring is committed to it, and a phase of the other ring is not over.
    Across(Phase, u32),
    /// It starts together with this phase of the other ring, in a crossing of the barrier; and that one has this red
    /// revert left.
    Beside(Phase, u32),
    /// Nothing: its ring is committed to it, and starts it in the next tick.
    Due,
    /// A crossing of the barrier is under way, in which its ring starts none or another; the phase that keeps it from
    /// being completed, if one does.
    Crossing(Option<Phase>),
    /// It is on another side of the barriers than the one that is served; the phase that keeps the barrier from being
    /// crossed, if one does.
    Barrier(Option<Phase>),
    /// The phase of its ring, or of the other ring where its ring is committed to it, has cleared, and this overlap holds
    /// it, which trails: for this time at most.
    Trails(Phase, Overlap, u32),
    /// The phase of its ring is Green and lacks something.
    Green(Phase, Lack),
    /// The other ring serves this phase, or starts it next, and it is not concurrent with it.
    Conflict(Phase),
    /// Its turn: nothing of the above; its ring takes the phases that are called in the order of its sequence.
    Turn,
}
