//! What an overlap is in, as plain values.
ghost use Rattle.std.specs.Prelude.{◌≡◌, ℕ, ◌+◌, ◌<◌, ◌≤◌, ◌^◌};
ghost use Rattle.tsb_cells.specs.Timer.{timer_at, has_reached};
ghost use Rattle.tsb_overlap.specs.Overlap.{standing, begun, yellow_of};
ghost use Rattle.tsb_overlap.specs.Parts.{IsPartOf};

use tsb_cells::Timer;
use tsb_objects::Phase;

/// The interval of an overlap that has intervals of its own.
#[derive(Clone, Copy, PartialEq, Eq)]
pub enum OverlapInterval {
    /// Red, and nothing is timed.
    Red,
    /// Green with a phase.
    Green,
    /// Green after its phases.
    TrailGreen,
    /// Flashing yellow.
    Flashing,
    /// Yellow.
    Yellow,
    /// Red clearance of an overlap that trails.
    RedClear,
}

/// What an overlap is in.
#[derive(Clone, Copy)]
pub(crate) struct Part {
    /// Its interval.
    pub(crate) interval: OverlapInterval,
    /// One more than the tick at which a timed interval began; 0 for one that is not timed.
    pub(crate) timer: u32,
    /// The phase whose yellow an arrow shows.
    pub(crate) phase: Option<Phase>,
}

impl Part {
    /// An interval that is not timed.
    pub(crate) fn standing(interval: OverlapInterval) -> Part
        ensures { (now : ℕ) → IsPartOf now (standing interval) result }
    {
        Part {
            interval,
            timer: 0,
            phase: None,
        }
    }

    /// An interval that begins at tick `now`.
    pub(crate) fn begun(interval: OverlapInterval, now: u32) -> Part
        requires { now + 1 < 2 ^ 32 }
        ensures { IsPartOf now (begun interval) result }
    {
        Part {
            interval,
            timer: now + 1,
            phase: None,
        }
    }

    /// The yellow of a phase that begins at tick `now`.
    pub(crate) fn yellow_of(phase: Phase, now: u32) -> Part
        requires { now + 1 < 2 ^ 32 }
        ensures { IsPartOf now (yellow_of phase) result }
    {
        Part {
            interval: OverlapInterval::Yellow,
            timer: now + 1,
            phase: Some(phase),
        }
    }

    /// Whether a time that began has lasted so many ticks at tick `now`.
    pub(crate) fn has_lasted(&self, now: u32, time: u32) -> bool
        requires { now + 1 < 2 ^ 32 }
        ensures { result ≡ has_reached (timer_at now self.now.timer) time }
    {
        Timer::at(now, self.timer).has_reached(time)
    }
}

/// The tick at which a timer of this cell reaches a time, if that is after `now`; else `u32::MAX`.
pub(crate) fn reached_at(cell: u32, now: u32, time: u32) -> u32
    ensures { (t : ℕ) → now ≤ t → t < result → has_reached (timer_at t cell) time ≡ has_reached (timer_at now cell) time }
{
    let at = cell.saturating_sub(1).saturating_add(time);
    if now < at { at } else { u32::MAX }
}
