//! What ends the greens that a tick ends, as the log of a controller has it.
ghost use Rattle.std.specs.Prelude.{◌≡◌, ◌&&◌, ◌-◌, ◌+◌, ◌<◌, ◌≤◌, ◌^◌, ℕ, false, is_none};
ghost use Rattle.tsb_step.specs.tsb_types.Sets.{has, has_number};
ghost use Rattle.tsb_step.specs.Events.{is_cause};
ghost use Rattle.tsb_objects.specs.Checked.{checked_plan};
ghost use Rattle.tsb_phase.specs.declared.cause.Cause.TheVariants.{ForceOff, Gap, Maximum};
ghost use Rattle.tsb_phase.specs.Cells.{IsBy};
ghost use Rattle.tsb_phase.specs.Layer.{cells_of};
ghost use Rattle.tsb_phase.specs.Pedestrian.{ended_by};
ghost use Rattle.tsb_phase.specs.Promises.{given_of};
ghost use Rattle.tsb_preempt.specs.Cells as preempts;
ghost use Rattle.tsb_step.specs.Step.{last_tick};
ghost use Rattle.tsb_controller.specs.Causes.{AreFound, TellsCauses, TellsEnded, TellsServed, with_cause};
ghost use Rattle.tsb_controller.specs.Rows.{AreBy};

use crate::controller::Controller;
use tsb_objects::{Checked, NumberSet, Phase, PhaseSet, Row};
use tsb_phase::{Cause, Conditions, Phases};

/// Phases by what ended their green.
#[derive(Clone, Copy)]
pub struct Causes {
    /// Its gap (gap out).
    pub gap: NumberSet,
    /// Its maximum (max out).
    pub maximum: NumberSet,
    /// Its force-off.
    pub force_off: NumberSet,
}

impl Causes {
    /// No green ended.
    pub fn none() -> Causes
        ensures gap { (n : ℕ) → has_number result.gap n ≡ false }
        ensures maximum { (n : ℕ) → has_number result.maximum n ≡ false }
        ensures force_off { (n : ℕ) → has_number result.force_off n ≡ false }
    {
        Causes {
            gap: NumberSet::empty(),
            maximum: NumberSet::empty(),
            force_off: NumberSet::empty(),
        }
    }

    /// With one more phase, whose green ended by this.
    fn with(self, phase: Phase, cause: Cause) -> Causes
        ensures gap { (n : ℕ) → has_number result.gap n ≡ with_cause Gap phase cause (has_number self.gap) n }
        ensures maximum { (n : ℕ) → has_number result.maximum n ≡ with_cause Maximum phase cause (has_number self.maximum) n }
        ensures force_off { (n : ℕ) → has_number result.force_off n ≡ with_cause ForceOff phase cause (has_number self.force_off) n }
    {
        let mut causes = self;
        let number = phase.number();
        match cause {
            Cause::Gap => causes.gap = causes.gap.with(number, true),
            Cause::Maximum => causes.maximum = causes.maximum.with(number, true),
            Cause::ForceOff => causes.force_off = causes.force_off.with(number, true),
        }
        causes
    }
}

/// Those of the phases that no preempt ends.
fn free_of(ended: PhaseSet, conditions: &Conditions) -> PhaseSet
    ensures { (p : ℕ) → has result p ≡ (has ended p && is_none (ended_by (given_of conditions.now) p)) }
{
    match conditions.service {
        Some(_) => ended.difference(conditions.orders.must_end),
        None => ended,
    }
}

/// What ends the green of each of these phases in tick `now`, of phases as they were before it.
fn causes_of(
    phases: &Phases,
    ended: PhaseSet,
    now: u32,
    conditions: &Conditions,
    plan: &Checked,
) -> Causes
    requires begun { 1 ≤ now }
    requires fits { now + 1 < 2 ^ 32 }
    requires by { IsBy (now - 1) (cells_of phases.now) }
    ensures { AreFound now ended conditions.now (checked_plan plan.now) (cells_of phases.now) result }
{
    let mut causes = Causes::none();
    let mut rest = ended;
    while let Some(p) = rest.pop() {
        if let Some(cause) = phases.cause(p, now, conditions, plan) {
            causes = causes.with(p, cause);
        }
    }
    causes
}

impl Controller {
    ghost use Rattle.tsb_controller.specs.Layer.{rows_of, IsClosed};

    /// The phases that are Green, and `yellow` after the tick.
    fn ended(&self, yellow: PhaseSet) -> PhaseSet
        ensures { TellsEnded yellow (rows_of self.now) result }
    {
        self.phases.intervals().green.intersection(yellow)
    }

    /// What ended the greens that tick `now` ended, where no preempt did: those of phases that are Green, and `yellow`
    /// after the tick. It is asked of a controller that has not tripped, as it was before the tick, with the inputs of
    /// `row` on in it.
    pub fn causes(&self, yellow: PhaseSet, now: u32, row: &Row, plan: &Checked) -> Causes
        requires closed { IsClosed self.now }
        requires begun { 1 ≤ now }
        requires in_time { now ≤ last_tick }
        requires by { AreBy (now - 1) (rows_of self.now) }
        ensures { TellsCauses now row.now yellow (checked_plan plan.now) (rows_of self.now) result }
    {
        let ended = self.ended(yellow);
        if ended.is_empty() {
            return Causes::none();
        }
        let mut found = *self;
        found.open();
        let sensed = found.sense(now, row, plan);
        let called = found.calls.tick(&sensed.observed(row), plan);
        let conditions = sensed.conditions(&called, found.calls.vehicles());
        let free = free_of(ended, &conditions);
        causes_of(&self.phases, free, now, &conditions, plan)
    }

    /// Whether the preempt in service has been served, as the tick after `clock` finds it, with the inputs of `row` on
    /// in it: its input is off, after its minimum duration. It is asked of a controller as it was before the tick.
    /// `clock` is the tick number, or the tick of the trip, at which timers are read.
    pub fn is_served(&self, clock: u32, row: &Row, plan: &Checked) -> bool
        requires in_time { clock ≤ last_tick }
        requires preempts_by { preempts.IsBy clock (rows_of self.now).preempts }
        ensures { TellsServed clock row.now (checked_plan plan.now) (rows_of self.now) result }
    {
        self.preempts.is_served(clock + 1, row, plan)
    }
}
