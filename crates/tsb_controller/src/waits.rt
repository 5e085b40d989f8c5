//! What phases wait for.
ghost use Rattle.std.specs.Prelude.{◌≡◌, ◌+◌, ◌<◌, ◌^◌};
ghost use Rattle.tsb_objects.specs.Checked.{checked_plan};
ghost use Rattle.tsb_coord.specs.Cells as coord;
ghost use Rattle.tsb_coord.specs.Cells.{pattern_in};
ghost use Rattle.tsb_ring.specs.Cells as rings;
ghost use Rattle.tsb_step.specs.tsb_plan.Running.{is_omitted_now, running};
ghost use Rattle.tsb_controller.specs.StatusPromises.{AreWaits, AreWaitsOf, TellsAround, TellsService, TellsWait, TellsWaitIn};

use crate::controller::Controller;
use crate::found::RingsTold;
use crate::status::Beside;
use tsb_objects::{Checked, NumberSet, Phase};
use tsb_preempt::stage_phases;
use tsb_status::found::Service;
use tsb_status::{Circumstances, RingFound, told, wait};
use tsb_step::Wait;

/// What the waits of all phases are found from.
#[derive(Clone, Copy)]
pub(crate) struct WaitsFound {
    /// Ring 1.
    pub(crate) first: RingFound,
    /// Ring 2.
    pub(crate) second: RingFound,
    /// What holds of all phases.
    pub(crate) around: Circumstances,
}

impl Controller {
    ghost use Rattle.tsb_controller.specs.Layer.{rows_of};

    /// The preempt in service.
    fn service(&self, plan: &Checked) -> Option<Service>
        ensures { TellsService (checked_plan plan.now) (rows_of self.now) result }
    {
        match self.preempts.stage() {
            None => None,
            Some((preempt, stage)) => Some(Service {
                preempt,
                phases: stage_phases(plan.plan(), preempt, stage),
            }),
        }
    }

    /// What holds of all phases, of a controller that has tripped or has not.
    pub(crate) fn around(&self, tripped: bool, plan: &Checked) -> Circumstances
        requires rings_by { rings.IsBy (rows_of self.now).rings }
        ensures { TellsAround tripped (checked_plan plan.now) (rows_of self.now) result }
    {
        Circumstances {
            tripped,
            service: self.service(plan),
            crosses: self.rings.crossing().is_some(),
            side: self.rings.side(),
        }
    }

    /// Whether the pattern that runs omits a phase.
    fn is_omitted(&self, p: Phase, plan: &Checked) -> bool
        requires pattern_by { coord.IsBy (rows_of self.now).pattern }
        ensures { result ≡ is_omitted_now (checked_plan plan.now) (running (checked_plan plan.now) (pattern_in (rows_of self.now).pattern)) p }
    {
        p.known();
        plan.omitted(self.coord.running(plan)).contains(p)
    }

    /// What a phase waits for.
    fn wait(&self, p: Phase, found: &WaitsFound, clock: u32, plan: &Checked) -> Wait
        requires fits { clock + 1 < 2 ^ 32 }
        requires pattern_by { coord.IsBy (rows_of self.now).pattern }
        ensures { TellsWait found.now clock (checked_plan plan.now) (rows_of self.now) p result }
    {
        let is_omitted = self.is_omitted(p, plan);
        let waits = told::waiting(plan, p, is_omitted, &self.phases.told(p, clock));
        if plan.plan().ring(p) == 1 {
            wait(plan, &waits, &found.first, &found.second, &found.around)
        } else {
            wait(plan, &waits, &found.second, &found.first, &found.around)
        }
    }

    /// What a phase waits for, if it is in a set.
    fn wait_in(
        &self,
        waiting: NumberSet,
        p: Phase,
        found: &WaitsFound,
        clock: u32,
        plan: &Checked,
    ) -> Option<Wait>
        requires fits { clock + 1 < 2 ^ 32 }
        requires pattern_by { coord.IsBy (rows_of self.now).pattern }
        ensures { TellsWaitIn waiting found.now clock (checked_plan plan.now) (rows_of self.now) p result }
    {
        if waiting.contains(p.number()) {
            Some(self.wait(p, found, clock, plan))
        } else {
            None
        }
    }

    /// What each phase of a set waits for; none of any other.
    pub(crate) fn waits(
        &self,
        waiting: NumberSet,
        found: &WaitsFound,
        clock: u32,
        plan: &Checked,
    ) -> [Option<Wait>; 16]
        requires fits { clock + 1 < 2 ^ 32 }
        requires pattern_by { coord.IsBy (rows_of self.now).pattern }
        ensures { AreWaits waiting found.now clock (checked_plan plan.now) (rows_of self.now) result }
    {
        let mut waits = [None; 16];
        for k in 0..16 {
            let p = Phase::of(k as u8 + 1);
            waits[k] = self.wait_in(waiting, p, found, clock, plan);
        }
        waits
    }

    /// What each phase of a set waits for, by both rings as they are given; none of any other.
    pub(crate) fn waits_of(
        &self,
        waiting: NumberSet,
        told: &RingsTold,
        beside: &Beside,
        plan: &Checked,
    ) -> [Option<Wait>; 16]
        requires fits { beside.now.clock + 1 < 2 ^ 32 }
        requires rings_by { rings.IsBy (rows_of self.now).rings }
        requires pattern_by { coord.IsBy (rows_of self.now).pattern }
        ensures { AreWaitsOf waiting told.now beside.now (checked_plan plan.now) (rows_of self.now) result }
    {
        let found = WaitsFound {
            first: self.ring_found(&told.first, beside.clock, plan),
            second: self.ring_found(&told.second, beside.clock, plan),
            around: self.around(beside.tripped, plan),
        };
        self.waits(waiting, &found, beside.clock, plan)
    }
}
