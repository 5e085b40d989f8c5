//! A time that a clock is set to, its day and its time of day.
ghost use Rattle.std.specs.Prelude.{◌≡◌, ℕ, ◌+◌, ◌*◌, ◌/◌, ◌%◌, ◌<◌, ◌≤◌, ◌&&◌, nat_le, nat_lt, if◌then◌else◌, Some, None};
ghost use Rattle.tsb_types.specs.declared.clock_time.TheConstants.{DAY, FIRST_DAY, LAST_DAY, FIRST_MOMENT, END_OF_DAYS};

use std::marker::Model;

/// The tenths of a second of a day.
pub const DAY: u32 = 864_000;

/// The number of 2000-01-01, the first day that a clock is set to. Days are counted from 1999-12-24, so that tick number
/// 0 has a moment whenever in a run a clock is set: a run has less than eight days.
pub const FIRST_DAY: u32 = 8;

/// The number of 2099-12-31, the last day that a clock is set to.
pub const LAST_DAY: u32 = 36_532;

/// The first moment that a clock is set to.
pub const FIRST_MOMENT: u64 = 6_912_000;

/// The end of the last day that a clock is set to.
pub const END_OF_DAYS: u64 = 31_564_512_000;

/// The seconds from 1970-01-01 to 1999-12-24, between which times of NTCIP 1201 and moments are counted.
pub const CLOCK_EPOCH: u32 = 945_993_600;

/// A moment from 2000-01-01 to 2099-12-31: a number of tenths of a second, counted from 1999-12-24 00:00. A contract sees
/// it as that number.
#[derive(Clone, Copy, Debug, PartialEq, Eq)]
pub struct ClockTime {
    tenths: u64,
}

impl Model for ClockTime {
    ghost Value = { ℕ };

    ghost view = { λ a. a.tenths };

    ghost invariant = { λ a. (FIRST_MOMENT ≤ a.tenths) × (a.tenths < END_OF_DAYS) };

    ghost inverse = { λ n. record { tenths = n } };
}

impl ClockTime {
    /// The moment so many tenths of a second after the midnight of a day. `None` where the day is not one of 8 to 36,532,
    /// or the time not one of a day.
    pub fn new(day: u32, tenths: u32) -> Option<ClockTime>
        ensures { result ≡ (if (nat_le FIRST_DAY day && nat_le day LAST_DAY) && nat_lt tenths DAY then Some (day * DAY + tenths) else None) }
    {
        if FIRST_DAY <= day && day <= LAST_DAY && tenths < DAY {
            Some(ClockTime {
                tenths: u64::from(day) * u64::from(DAY) + u64::from(tenths),
            })
        } else {
            None
        }
    }

    /// Its number: tenths of a second since 1999-12-24 00:00.
    #[inline(always)]
    pub fn number(self) -> u64
        ensures same { result ≡ self }
        ensures from { FIRST_MOMENT ≤ result }
        ensures before { result < END_OF_DAYS }
    {
        self.tenths
    }

    /// Its day, counted from 1999-12-24, 8 to 36,532.
    pub fn day(self) -> u32
        ensures { result ≡ self / DAY }
    {
        (self.tenths / u64::from(DAY)) as u32
    }

    /// The tenths of a second since the midnight of its day, 0 to 863,999.
    pub fn time(self) -> u32
        ensures { result ≡ self % DAY }
    {
        (self.tenths % u64::from(DAY)) as u32
    }
}
