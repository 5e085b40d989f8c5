//! A phase as a plain value, and the maximum that acts on it: for those who say how much of a time is left.
ghost use Rattle.std.specs.Prelude.{◌≡◌, ◌+◌, ◌<◌, ◌^◌};
ghost use Rattle.tsb_objects.specs.Checked.{checked_plan};
ghost use Rattle.tsb_phase.specs.Promises.{TellsPhase, TellsMaximum};

use crate::dynamic::acting_maximum;
use crate::pedestrian::pedestrian_of;
use crate::phase_row::interval_of;
use crate::phases::Phases;
use crate::visit::number_in;
use tsb_cells::Timer;
use tsb_objects::{Checked, Interval, Pattern, PedestrianInterval, Phase};

/// What phase timing keeps of a phase, apart from how its last green ended. Timers are in ticks, which are tenths of a
/// second.
#[derive(Clone, Copy)]
pub struct PhaseTimes {
    /// Its interval, and the timer that began with it; Off in Red.
    pub interval: Interval,
    /// The timer of its interval.
    pub timer: Timer,
    /// Its pedestrian part.
    pub pedestrian: PedestrianInterval,
    /// The timer of its walk or its pedestrian clearance.
    pub pedestrian_timer: Timer,
    /// Of a green: since no output of the phase is on.
    pub passage: Timer,
    /// Of a green: since another phase waits that is not concurrent with it.
    pub conflict: Timer,
    /// Of a green: since its gap is being reduced.
    pub reduction: Timer,
    /// Of a green: whether it has gapped out, for as long as there is a conflict.
    pub gapped: bool,
    /// Of a green: whether its force-off has come.
    pub forced: bool,
    /// Since its last yellow ended.
    pub red_revert: Timer,
    /// The running maximum of the dynamic maximum, in tenths of a second.
    pub running_maximum: Option<u32>,
}

impl Phases {
    ghost use Rattle.tsb_phase.specs.Layer.{cells_of};

    /// What is kept of a phase, as tick `now` left it.
    pub fn told(&self, p: Phase, now: u32) -> PhaseTimes
        requires fits { now + 1 < 2 ^ 32 }
        ensures { TellsPhase now (cells_of self.now) p result }
    {
        p.known();
        let was = self.load(p);
        PhaseTimes {
            interval: interval_of(&was),
            timer: Timer::at(now, was.timer),
            pedestrian: pedestrian_of(&was),
            pedestrian_timer: Timer::at(now, was.pedestrian_timer),
            passage: Timer::at(now, was.passage),
            conflict: Timer::at(now, was.conflict),
            reduction: Timer::at(now, was.reduction),
            gapped: was.gapped,
            forced: was.forced,
            red_revert: Timer::at(now, was.red_revert),
            running_maximum: number_in(was.running_maximum),
        }
    }

    /// The maximum that acts on a Green phase with this running maximum, in tenths of a second: in free operation the
    /// maximum in use, and while a pattern runs that of its maximum mode (`coordMaximumMode`), if any.
    pub fn maximum(
        plan: &Checked,
        runs: Option<Pattern>,
        p: Phase,
        running: Option<u32>,
    ) -> Option<u32>
        ensures { TellsMaximum (checked_plan plan.now) runs p running result }
    {
        acting_maximum(plan.plan(), runs, p, running)
    }
}
