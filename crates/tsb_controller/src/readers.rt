//! What the controller says of its state: whether it serves, the preempt in service, the local counter, why a pattern
//! or a switch would be refused; and layers, lent to those who read what they are in.
ghost use Rattle.std.specs.Prelude.{◌≡◌, ◌≤◌, ◌<◌, ◌+◌, ◌*◌, ◌||◌, false, is_some, IfSome};
ghost use Rattle.std.specs.List.{list_any};
ghost use Rattle.tsb_step.specs.tsb_types.Flow.{interval_of};
ghost use Rattle.tsb_step.specs.tsb_types.Intervals.{in_service};
ghost use Rattle.tsb_step.specs.tsb_types.Lists.{run_from};
ghost use Rattle.tsb_objects.specs.Checked.{checked_plan};
ghost use Rattle.tsb_coord.specs.Coordinated.{refusal};
ghost use Rattle.tsb_preempt.specs.Preempts.{switch_refusal};
ghost use Rattle.tsb_detect.specs.Layer as detect;
ghost use Rattle.tsb_calls.specs.Layer as calls;
ghost use Rattle.tsb_phase.specs.Layer as phases;
ghost use Rattle.tsb_preempt.specs.Layer as preempts;
ghost use Rattle.tsb_ring.specs.Cells as rings;
ghost use Rattle.tsb_coord.specs.Cells as coord;
ghost use Rattle.tsb_step.specs.Step.{last_tick};
ghost use Rattle.tsb_step.specs.tsb_types.declared.clock_time.TheConstants.{DAY, LAST_DAY};
ghost use Rattle.tsb_controller.specs.Promises.{TellsServing, TellsPreempted, TellsStage, TellsLocal, TellsOmitted};

use crate::controller::Controller;
use tsb_calls::Calls;
use tsb_coord::Coord;
use tsb_detect::Detectors;
use tsb_objects::{Checked, Intervals, NumberSet, Phase, Preempt, Refusal, Ring, Side, Stage};
use tsb_phase::Phases;
use tsb_preempt::Preempts;

/// Whether a phase is in service.
fn has_service(intervals: &Intervals) -> bool
    ensures { result ≡ list_any (λ p. in_service (interval_of intervals.now p)) (run_from 1 16) }
{
    let served = intervals
        .green
        .union(intervals.yellow)
        .union(intervals.red_clear);
    served.first().is_some()
}

/// Whether something is in service, or there is a commitment of either ring or a crossing.
fn serves(
    in_service: bool,
    first: Option<Phase>,
    second: Option<Phase>,
    crossing: Option<Side>,
) -> bool
    ensures { result ≡ ((in_service || (is_some first || is_some second)) || is_some crossing) }
{
    in_service || first.is_some() || second.is_some() || crossing.is_some()
}

impl Controller {
    ghost use Rattle.tsb_controller.specs.Layer.{rows_of, IsClosed};

    /// Whether the rings serve: a phase is in service, or there is a commitment or a crossing. A commit of the
    /// structure has to wait for them.
    pub fn is_serving(&self) -> bool
        requires rings_by { rings.IsBy (rows_of self.now).rings }
        ensures { TellsServing (rows_of self.now) result }
    {
        serves(
            has_service(&self.phases.intervals()),
            self.rings.commitment(Ring::of(1)),
            self.rings.commitment(Ring::of(2)),
            self.rings.crossing(),
        )
    }

    /// Whether a preempt is in service. A commit of the phases of preempts has to wait for it.
    pub fn is_preempted(&self) -> bool
        ensures { TellsPreempted (rows_of self.now) result }
    {
        self.preempts.stage().is_some()
    }

    /// The preempt in service and its stage, or `None` where none is in service.
    pub fn stage(&self) -> Option<(Preempt, Stage)>
        ensures { TellsStage (rows_of self.now) result }
    {
        self.preempts.stage()
    }

    /// The local counter at tick number `now`, at most the last that there is, in ticks, or `None` in free operation.
    /// It goes on while the controller is tripped.
    pub fn local(&self, now: u32, plan: &Checked) -> Option<u32>
        requires pattern_by { coord.IsBy (rows_of self.now).pattern }
        requires in_time { now ≤ last_tick }
        ensures { TellsLocal now (checked_plan plan.now) (rows_of self.now) result }
    {
        self.coord.local(now, plan)
    }

    /// The moment of tick number 0 by the clock, in tenths of a second since 1999-12-24 00:00, or `None` where no clock is
    /// set.
    pub fn start(&self) -> Option<u64>
        requires pattern_by { coord.IsBy (rows_of self.now).pattern }
        ensures value { result ≡ coord.start_in (rows_of self.now).pattern }
        ensures counted { IfSome result (λ m. m < (LAST_DAY + 1) * DAY) }
    {
        self.coord.start()
    }

    /// Why a pattern cannot be selected, if it cannot (E9).
    pub fn pattern_refusal(&self, n: u32, plan: &Checked) -> Option<Refusal>
        ensures { result ≡ refusal (checked_plan plan.now) n }
    {
        Coord::refusal(n, plan)
    }

    /// Why the switch of preempt `n` cannot be set, if it cannot (E10).
    pub fn switch_refusal(&self, n: u32, on: bool, plan: &Checked) -> Option<Refusal>
        ensures { result ≡ switch_refusal (checked_plan plan.now) n on }
    {
        Preempts::switch_refusal(n, on, plan)
    }

    /// The vehicle detectors.
    pub fn detectors(&self) -> &Detectors
        ensures cells { detect.cells_of result.now ≡ (rows_of self.now).detectors }
        ensures closed { IsClosed self.now → detect.is_open result.now ≡ false }
    {
        &self.detectors
    }

    /// The vehicle and pedestrian calls.
    pub fn calls(&self) -> &Calls
        ensures cells { calls.cells_of result.now ≡ (rows_of self.now).calls }
        ensures closed { IsClosed self.now → calls.is_open result.now ≡ false }
    {
        &self.calls
    }

    /// Phase timing.
    pub fn phases(&self) -> &Phases
        ensures cells { phases.cells_of result.now ≡ (rows_of self.now).phases }
        ensures closed { IsClosed self.now → phases.is_open result.now ≡ false }
    {
        &self.phases
    }

    /// The arrows that are omitted.
    pub fn omitted_arrows(&self) -> NumberSet
        ensures { TellsOmitted (rows_of self.now) result }
    {
        self.overlaps.omitted()
    }

    /// The preempts.
    pub fn preempts(&self) -> &Preempts
        ensures cells { preempts.cells_of result.now ≡ (rows_of self.now).preempts }
        ensures closed { IsClosed self.now → preempts.is_open result.now ≡ false }
    {
        &self.preempts
    }
}
