//! Timers in ticks, which are tenths of a second.
ghost use Rattle.std.specs.Prelude.{◌≡◌, ℕ, ◌+◌, ◌<◌, ◌^◌};
ghost use Rattle.tsb_cells.specs.Timer.{advanced, started, is_on, has_reached, is_below, CanAdvance, IsWithin, timer_cell, timer_at};

/// Off, or on for so many ticks, each a tenth of a second.
///
/// A cell keeps the tick at which a timer began, and not its ticks, so that the cell of a timer that runs on
/// need not be written: at the next tick it reads as one tick more.
#[derive(Clone, Copy, PartialEq, Eq)]
pub enum Timer {
    Off,
    On(u32),
}

impl Timer {
    /// The timer that `cell` keeps, at tick `now`.
    pub fn at(now: u32, cell: u32) -> Timer
        requires { now + 1 < 2 ^ 32 }
        ensures { result ≡ timer_at now cell }
    {
        if cell == 0 {
            Timer::Off
        } else {
            Timer::On((now + 1).saturating_sub(cell))
        }
    }

    /// The cell that keeps the timer, at tick `now`. The timer must not have begun before tick 0.
    pub fn cell(self, now: u32) -> u32
        requires fits { now + 1 < 2 ^ 32 }
        requires within { IsWithin now self }
        ensures { result ≡ timer_cell now self }
    {
        match self {
            Timer::Off => 0,
            Timer::On(n) => now - n + 1,
        }
    }

    /// The timer as the next tick reads it: one tick more, if it is on.
    pub fn advanced(self) -> Timer
        requires { CanAdvance self }
        ensures { result ≡ advanced self }
    {
        match self {
            Timer::Off => Timer::Off,
            Timer::On(n) => Timer::On(n + 1),
        }
    }

    /// The timer itself if it is on, and otherwise one that begins now.
    pub fn started(self) -> Timer
        ensures { result ≡ started self }
    {
        match self {
            Timer::Off => Timer::On(0),
            Timer::On(n) => Timer::On(n),
        }
    }

    /// Whether the timer is on.
    pub fn is_on(self) -> bool
        ensures { result ≡ is_on self }
    {
        matches!(self, Timer::On(_))
    }

    /// Whether the timer is on for at least `limit` ticks.
    pub fn has_reached(self, limit: u32) -> bool
        ensures { result ≡ has_reached self limit }
    {
        match self {
            Timer::Off => false,
            Timer::On(n) => limit <= n,
        }
    }

    /// Whether the timer is on, and for less than `limit` ticks.
    pub fn is_below(self, limit: u32) -> bool
        ensures { result ≡ is_below self limit }
    {
        match self {
            Timer::Off => false,
            Timer::On(n) => n < limit,
        }
    }
}
