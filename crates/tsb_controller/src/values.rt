//! The values that the layers give one another in a tick, put together.
ghost use Rattle.std.specs.Prelude.{◌≡◌, ℕ, ◌||◌, None, length, if◌then◌else◌};
ghost use Rattle.tsb_objects.specs.Checked.{checked_plan};
ghost use Rattle.tsb_step.specs.tsb_plan.Parts.{is_anew};
ghost use Rattle.tsb_step.specs.tsb_types.Lists.{is};
ghost use Rattle.tsb_step.specs.tsb_types.Sets.{has};
ghost use Rattle.tsb_phase.specs.Counts.{AreCounts};
ghost use Rattle.tsb_controller.specs.Found.{observed, orders, for_rings, AreConditions, AreDecided};

use tsb_calls::{Decided, Observed};
use tsb_coord::Coordination;
use tsb_objects::{
    Called, Checked, DetectorSet, Intervals, Moves, Orders, Pedestrians, Phase, PhaseSet, Preempt,
    Row, Timing,
};
use tsb_phase::Conditions;
use tsb_preempt::PreemptOrders;

/// What a tick finds before the calls.
#[derive(Clone, Copy)]
pub(crate) struct Sensed {
    /// The intervals before the tick.
    pub(crate) intervals: Intervals,
    /// The pedestrian parts before the tick.
    pub(crate) pedestrians: Pedestrians,
    /// Vehicle detectors whose output is on.
    pub(crate) outputs: DetectorSet,
    /// Vehicle detectors whose output rose.
    pub(crate) actuated: DetectorSet,
    /// What preemption asks of the phases.
    pub(crate) asked: PreemptOrders,
    /// The preempt in service.
    pub(crate) service: Option<Preempt>,
    /// What coordination asks of the phases.
    pub(crate) coordination: Coordination,
}

/// What phase timing says of a tick, and what the rings did.
#[derive(Clone, Copy)]
pub(crate) struct Movement {
    /// Which times of phases have passed.
    pub(crate) timing: Timing,
    /// What the rings did.
    pub(crate) moves: Moves,
}

impl Sensed {
    /// What the calls are found from.
    pub(crate) fn observed(&self, row: &Row) -> Observed
        ensures { result ≡ observed row.now self.now }
    {
        Observed {
            outputs: self.outputs,
            actuated: self.actuated,
            buttons: row.pedestrians,
            intervals: self.intervals,
            pedestrians: self.pedestrians,
            runs: self.coordination.runs,
            omit: self.coordination.omit,
            service_ended: self.asked.ended,
        }
    }

    /// What coordination and preemption ask of the phases.
    fn orders(&self) -> Orders
        ensures { result ≡ orders self.now }
    {
        Orders {
            hold: self.coordination.hold,
            must_end: self.asked.must_end,
            forced: self.coordination.forced,
            recycle: self.coordination.recycle,
            omit: self.coordination.omit,
            target: self.asked.target,
        }
    }

    /// What phase timing is given, with the vehicles that phases 1 to 16 have counted, in turn.
    pub(crate) fn conditions<'a>(&self, called: &Called, counts: &'a [u32]) -> Conditions<'a>
        requires full { length counts.now ≡ 16 }
        requires small { AreCounts counts.now }
        ensures { AreConditions self.now called.now counts.now result }
    {
        Conditions {
            called: *called,
            counts,
            runs: self.coordination.runs,
            service: self.service,
            orders: self.orders(),
        }
    }

    /// The target of the preempt in service, where it chooses anew.
    pub(crate) fn chosen_anew(&self, plan: &Checked) -> Option<PhaseSet>
        ensures { result ≡ (if is_anew (checked_plan plan.now) self.now.service then self.now.asked.target else None) }
    {
        match self.service {
            None => None,
            Some(n) => if plan.plan().chooses_anew(n) {
                self.asked.target
            } else {
                None
            },
        }
    }

    /// What the rings decide from.
    pub(crate) fn for_rings(&self, called: &Called, timing: &Timing) -> tsb_ring::RingConditions
        ensures { result ≡ for_rings self.now called.now timing.now }
    {
        tsb_ring::RingConditions {
            intervals: self.intervals,
            sequence: self.coordination.sequence,
            called: *called,
            timing: *timing,
            orders: self.orders(),
        }
    }

    /// What the rings did, as it is given to the calls.
    pub(crate) fn decided(&self, called: &Called, movement: &Movement) -> Decided
        ensures { AreDecided self.now called.now movement.now result }
    {
        Decided {
            starts: either(movement.moves.first.starts, movement.moves.second.starts),
            ends: either(movement.moves.first.ends, movement.moves.second.ends),
            gapped: movement.timing.gapped,
            walks: movement.timing.walks,
            pedestrian: called.pedestrian,
            service: self.service,
        }
    }
}

/// The set of two phases, of one, or of none.
fn either(first: Option<Phase>, second: Option<Phase>) -> PhaseSet
    ensures { (p : ℕ) → has result p ≡ (is p first || is p second) }
{
    let mut set = PhaseSet::empty();
    if first.is_none() && second.is_none() {
        return set;
    }
    if let Some(phase) = first {
        set.insert(phase);
    }
    if let Some(phase) = second {
        set.insert(phase);
    }
    set
}
