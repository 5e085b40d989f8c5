//! What overlaps see of phases, rings and preempts after a tick has moved them.
ghost use Rattle.std.specs.Prelude.{◌≡◌, ℕ, ◌+◌, ◌-◌, ◌<◌, ◌≤◌, ◌^◌, ◌&&◌, not, Bool, true, Option, length, slice_index};
ghost use Rattle.std.specs.List.{list_any};
ghost use Rattle.tsb_cells.specs.Timer.{timer_at, has_reached};
ghost use Rattle.tsb_objects.specs.tsb_types.declared.flow.OverlapLights.{OverlapLights};
ghost use Rattle.tsb_objects.specs.tsb_types.Flow.{interval_of, pedestrian_of};
ghost use Rattle.tsb_objects.specs.tsb_types.Intervals.{is_green, is_dont_walk};
ghost use Rattle.tsb_objects.specs.tsb_types.Lists.{run_from};
ghost use Rattle.tsb_objects.specs.tsb_types.Sets.{has};
ghost use Rattle.tsb_overlap.specs.Overlap.{is_number};

use crate::parts::reached_at;
use tsb_cells::Timer;
use tsb_objects::{Intervals, Pedestrians, Phase, PhaseSet};

/// What overlaps see.
#[derive(Clone, Copy)]
pub struct Surroundings<'a> {
    /// The phases that were Green before the tick.
    pub was_green: PhaseSet,
    /// The intervals after it.
    pub intervals: Intervals,
    /// The pedestrian parts after it.
    pub pedestrians: Pedestrians,
    /// The cells of the interval timers of phases 1 to 16: each one more than the tick at which it began.
    pub since: &'a [u32],
    /// The phase that ring 1 serves next.
    pub ring_1: Option<Phase>,
    /// The phase that ring 2 serves next.
    pub ring_2: Option<Phase>,
    /// Whether a preempt is in service.
    pub is_preempted: bool,
    ghost full: { length since.now ≡ 16 },
}

impl<'a> Surroundings<'a> {
    ghost use Rattle.tsb_overlap.specs.Overlap.{is_turning};
    ghost use Rattle.tsb_overlap.specs.Reading.{given_by, since_in};

    /// Whether the phase is in service or next.
    pub(crate) fn is_turning(&self, phase: Phase) -> bool
        ensures { (now : ℕ) (omitted : ℕ → Bool) (lights : OverlapLights) → result ≡ is_turning (given_by now self.now omitted lights) phase }
    {
        let served = self
            .intervals
            .green
            .union(self.intervals.yellow)
            .union(self.intervals.red_clear);
        served.contains(phase) | is_phase(self.ring_1, phase) | is_phase(self.ring_2, phase)
    }

    /// Whether the crosswalk of one of these phases shows walk or clearance.
    pub(crate) fn walks(&self, phases: PhaseSet) -> bool
        ensures { result ≡ list_any (λ p. has phases p && not (is_dont_walk (pedestrian_of self.now.pedestrians p))) (run_from 1 16) }
    {
        let crossed = self.pedestrians.walk.union(self.pedestrians.clearance);
        phases.intersection(crossed).first().is_some()
    }

    /// The cell of the interval timer of a phase.
    fn since_of(&self, phase: Phase) -> u32
        ensures { result ≡ since_in self.now phase }
    {
        self.since[usize::from(phase.number()) - 1]
    }

    /// Whether one of these phases has been Green for so many ticks at tick `now`.
    pub(crate) fn has_green(&self, phases: PhaseSet, now: u32, time: u32) -> bool
        requires { now + 1 < 2 ^ 32 }
        ensures { result ≡ list_any (λ p. has phases p && (is_green (interval_of self.now.intervals p) && has_reached (timer_at now (since_in self.now p)) time)) (run_from 1 16) }
    {
        let mut rest = phases.intersection(self.intervals.green);
        while let Some(phase) = rest.pop() {
            if Timer::at(now, self.since_of(phase)).has_reached(time) {
                return true;
            }
        }
        false
    }

    /// The first tick after `now` at which one of these phases that are Green has been so for so many ticks; `u32::MAX`
    /// where none is to come.
    pub(crate) fn green_due(&self, phases: PhaseSet, now: u32, time: u32) -> u32
        ensures { (t p : ℕ) → now ≤ t → t < result → 1 ≤ p → p ≤ 16 → has phases p ≡ true → is_green (interval_of self.now.intervals p) ≡ true →
            has_reached (timer_at t (since_in self.now p)) time ≡ has_reached (timer_at now (since_in self.now p)) time }
    {
        let mut due = u32::MAX;
        let mut rest = phases.intersection(self.intervals.green);
        while let Some(phase) = rest.pop() {
            due = due.min(reached_at(self.since_of(phase), now, time));
        }
        due
    }
}

/// Whether it is this phase.
fn is_phase(found: Option<Phase>, phase: Phase) -> bool
    ensures { result ≡ is_number phase found }
{
    match found {
        Some(it) => it == phase,
        None => false,
    }
}
