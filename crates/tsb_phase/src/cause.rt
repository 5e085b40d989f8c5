//! Why a green ends, and which greens a conflict waits for: what the log of a controller tells of phase timing.
ghost use Rattle.std.specs.Prelude.{◌≡◌, ◌<◌, ◌≤◌, ◌+◌, ◌-◌, ◌^◌, ◌&&◌, ℕ};
ghost use Rattle.tsb_cells.specs.Timer.{timer_at, is_on};
ghost use Rattle.tsb_objects.specs.Checked.{checked_plan};
ghost use Rattle.tsb_objects.specs.tsb_types.Sets.{has};
ghost use Rattle.tsb_phase.specs.Phase.{held_of};
ghost use Rattle.tsb_phase.specs.Causes.{by_force_off, cause};
ghost use Rattle.tsb_phase.specs.Cells.{phase_of, row_in, IsBy, IsRowBy};
ghost use Rattle.tsb_phase.specs.Promises.{given_of, TellsCause, TellsConflicts};
ghost use Rattle.tsb_phase.specs.Rows.{IsRun};

use crate::conditions::Conditions;
use crate::green::{Run, is_by_gap, run_green};
use crate::phase_row::PhaseRow;
use crate::phases::Phases;
use crate::rows::CONFLICTS;
use crate::visit::{has_maxed_out, held};
use tsb_objects::{Checked, Phase, PhaseSet};

/// Why a green ends that no preempt ends.
#[derive(Clone, Copy, PartialEq, Eq)]
pub enum Cause {
    /// Its gap has expired and it has no maximum recall: gap out.
    Gap,
    /// A conflict has stood for the maximum that acts on it: max out.
    Maximum,
    /// Its force-off has come, in a pattern: at its instant, late, in its permissive time, or floating.
    ForceOff,
}

/// The force-off, where it has come.
fn by_force_off(forced: bool) -> Option<Cause>
    ensures { result ≡ by_force_off forced }
{
    if forced { Some(Cause::ForceOff) } else { None }
}

/// What ends a green with this run, once its initial time has passed.
fn found_cause(
    now: u32,
    plan: &Checked,
    conditions: &Conditions,
    p: Phase,
    was: &PhaseRow,
    run: Run,
) -> Option<Cause>
    requires fits { now + 1 < 2 ^ 32 }
    requires is { IsRun now (checked_plan plan.now) (given_of conditions.now) p (held_of (phase_of now was.now)) run }
    ensures { result ≡ cause (checked_plan plan.now) (given_of conditions.now) p (phase_of now was.now) }
{
    if conditions.orders.hold.contains(p) && conditions.service.is_none() {
        return by_force_off(run.forced);
    }
    if is_by_gap(plan, conditions, p, run.expired || run.gapped) {
        return Some(Cause::Gap);
    }
    if has_maxed_out(now, plan.plan(), conditions, p, was, run) {
        return Some(Cause::Maximum);
    }
    by_force_off(run.forced)
}

impl Phases {
    ghost use Rattle.tsb_phase.specs.Layer.{cells_of};

    /// Why a green that tick `now` ends does so, where no preempt ends it: the first of gap, maximum and force-off that
    /// applies, and of a coordinated phase the force-off alone. It is asked of phases as they were before the tick,
    /// with what the tick gives them. `None` where none applies.
    pub fn cause(
        &self,
        p: Phase,
        now: u32,
        conditions: &Conditions,
        plan: &Checked,
    ) -> Option<Cause>
        requires begun { 1 ≤ now }
        requires fits { now + 1 < 2 ^ 32 }
        requires by { IsBy (now - 1) (cells_of self.now) }
        ensures { TellsCause now conditions.now (checked_plan plan.now) (cells_of self.now) p result }
    {
        p.known();
        let was = self.load(p);
        let run = run_green(now, plan.plan(), conditions, p, held(now, &was));
        found_cause(now, plan, conditions, p, &was, run)
    }

    /// The phases whose conflict timer runs: Green phases for which another waits.
    #[tactic(auto, unfolding(crate::specs::Cells::row_in))]
    pub fn conflicts(&self) -> PhaseSet
        ensures { TellsConflicts (cells_of self.now) result }
    {
        let mut conflicts = PhaseSet::empty();
        for number in 1..17u8 {
            let p = Phase::of(number);
            conflicts = conflicts.joined(p, self.cell(CONFLICTS, p) != 0);
        }
        conflicts
    }
}
