//! What the status of the controller is found from: a phase with what its green depends on, and a ring.
ghost use Rattle.std.specs.Prelude.{◌≡◌, ◌+◌, ◌<◌, ◌^◌};
ghost use Rattle.tsb_objects.specs.Checked.{checked_plan};
ghost use Rattle.tsb_calls.specs.Cells as calls;
ghost use Rattle.tsb_coord.specs.Cells as coord;
ghost use Rattle.tsb_coord.specs.Cells.{pattern_in};
ghost use Rattle.tsb_ring.specs.Cells as rings;
ghost use Rattle.tsb_overlap.specs.Cells as overlaps;
ghost use Rattle.tsb_step.specs.tsb_plan.Running.{is_coordinated_now, running};
ghost use Rattle.tsb_controller.specs.StatusPromises.{TellsGreenFound, TellsInService, TellsNext, TellsPhaseFound, TellsRing, TellsRingFound, TellsRings, TellsServed, TellsUnwanted};

use crate::controller::Controller;
use tsb_objects::{Checked, Phase, PhaseSet, Ring};
use tsb_preempt::{preempt_of, stage_phases};
use tsb_status::{GreenFound, Next, PhaseFound, RingFound, told};

/// A ring as its status has it.
#[derive(Clone, Copy)]
pub(crate) struct RingTold {
    /// Its phase in service.
    pub(crate) served: Option<PhaseFound>,
    /// The phase that it starts next.
    pub(crate) next: Option<Phase>,
}

/// Both rings as their status has them.
#[derive(Clone, Copy)]
pub(crate) struct RingsTold {
    /// Ring 1.
    pub(crate) first: RingTold,
    /// Ring 2.
    pub(crate) second: RingTold,
}

impl Controller {
    ghost use Rattle.tsb_controller.specs.Layer.{rows_of};

    /// Whether a preempt is in service whose stage does not have the phase.
    fn is_unwanted(&self, p: Phase, plan: &Checked) -> bool
        ensures { TellsUnwanted (checked_plan plan.now) (rows_of self.now) p result }
    {
        match self.preempts.stage() {
            None => false,
            Some((n, stage)) => !stage_phases(plan.plan(), n, stage).contains(p),
        }
    }

    /// Whether it is a coordinated phase of the pattern that runs.
    fn is_held(&self, p: Phase, plan: &Checked) -> bool
        requires pattern_by { coord.IsBy (rows_of self.now).pattern }
        ensures { result ≡ is_coordinated_now (checked_plan plan.now) (running (checked_plan plan.now) (pattern_in (rows_of self.now).pattern)) p }
    {
        p.known();
        plan.coordinated(self.coord.running(plan)).contains(p)
    }

    /// What the times of a phase's green depend on.
    fn green_found(&self, p: Phase, plan: &Checked) -> GreenFound
        requires calls_by { calls.IsBy (rows_of self.now).calls }
        requires pattern_by { coord.IsBy (rows_of self.now).pattern }
        ensures { TellsGreenFound (checked_plan plan.now) (rows_of self.now) p result }
    {
        p.known();
        GreenFound {
            count: self.calls.count(p),
            runs: self.coord.running(plan),
            service: preempt_of(self.preempts.stage()),
            is_held: self.is_held(p, plan),
            must_end: self.is_unwanted(p, plan),
        }
    }

    /// A phase as its status has it, with what its green depends on, as tick `clock` left it; of a controller that has
    /// tripped that is the tick of the trip.
    fn found(&self, p: Phase, clock: u32, plan: &Checked) -> PhaseFound
        requires fits { clock + 2 < 2 ^ 32 }
        requires overlaps_by { overlaps.IsBy clock (rows_of self.now).overlaps }
        requires calls_by { calls.IsBy (rows_of self.now).calls }
        requires pattern_by { coord.IsBy (rows_of self.now).pattern }
        ensures { TellsPhaseFound clock (checked_plan plan.now) (rows_of self.now) p result }
    {
        let is_preempted = self.preempts.stage().is_some();
        PhaseFound {
            phase: p,
            times: self.phases.told(p, clock),
            found: self.green_found(p, plan),
            holder: self.overlaps.holder(p, clock, is_preempted, plan),
        }
    }

    /// The phases in service.
    fn phases_on(&self) -> PhaseSet
        ensures { TellsInService (rows_of self.now) result }
    {
        let intervals = self.phases.intervals();
        intervals
            .green
            .union(intervals.yellow)
            .union(intervals.red_clear)
    }

    /// The phase in service of a ring.
    fn served(&self, r: Ring, clock: u32, plan: &Checked) -> Option<PhaseFound>
        requires fits { clock + 2 < 2 ^ 32 }
        requires overlaps_by { overlaps.IsBy clock (rows_of self.now).overlaps }
        requires calls_by { calls.IsBy (rows_of self.now).calls }
        requires pattern_by { coord.IsBy (rows_of self.now).pattern }
        ensures { TellsServed clock (checked_plan plan.now) (rows_of self.now) r result }
    {
        r.known();
        match plan.ring(r).intersection(self.phases_on()).first() {
            None => None,
            Some(p) => Some(self.found(p, clock, plan)),
        }
    }

    /// The phase that a ring starts next, as waits need it.
    fn next_found(&self, next: Option<Phase>, clock: u32, plan: &Checked) -> Option<Next>
        requires fits { clock + 1 < 2 ^ 32 }
        ensures { TellsNext clock (checked_plan plan.now) (rows_of self.now) next result }
    {
        match next {
            None => None,
            Some(p) => Some(told::next(plan, p, &self.phases.told(p, clock))),
        }
    }

    /// A ring.
    pub(crate) fn ring_told(&self, r: Ring, clock: u32, plan: &Checked) -> RingTold
        requires fits { clock + 2 < 2 ^ 32 }
        requires overlaps_by { overlaps.IsBy clock (rows_of self.now).overlaps }
        requires calls_by { calls.IsBy (rows_of self.now).calls }
        requires rings_by { rings.IsBy (rows_of self.now).rings }
        requires pattern_by { coord.IsBy (rows_of self.now).pattern }
        ensures { TellsRing clock (checked_plan plan.now) (rows_of self.now) r result }
    {
        RingTold {
            served: self.served(r, clock, plan),
            next: self.rings.commitment(r),
        }
    }

    /// Both rings.
    pub(crate) fn rings_told(&self, clock: u32, plan: &Checked) -> RingsTold
        requires fits { clock + 2 < 2 ^ 32 }
        requires overlaps_by { overlaps.IsBy clock (rows_of self.now).overlaps }
        requires calls_by { calls.IsBy (rows_of self.now).calls }
        requires rings_by { rings.IsBy (rows_of self.now).rings }
        requires pattern_by { coord.IsBy (rows_of self.now).pattern }
        ensures { TellsRings clock (checked_plan plan.now) (rows_of self.now) result }
    {
        RingsTold {
            first: self.ring_told(Ring::of(1), clock, plan),
            second: self.ring_told(Ring::of(2), clock, plan),
        }
    }

    /// A ring, as waits need it.
    pub(crate) fn ring_found(&self, told: &RingTold, clock: u32, plan: &Checked) -> RingFound
        requires fits { clock + 1 < 2 ^ 32 }
        ensures { TellsRingFound clock (checked_plan plan.now) (rows_of self.now) told.now result }
    {
        RingFound {
            served: told::served(plan, &told.served),
            next: self.next_found(told.next, clock, plan),
        }
    }
}
