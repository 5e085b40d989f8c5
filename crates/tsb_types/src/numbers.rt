//! Numbers of things, each within its range. A contract sees each as the plain number.
ghost use Rattle.std.specs.Prelude.{◌≡◌, ℕ, ◌≤◌, ◌&&◌, nat_le, if◌then◌else◌, Some, None};
ghost use Rattle.tsb_types.specs.Lists.{run_from};
ghost use Rattle.tsb_types.specs.declared.limits.TheConstants.{OVERLAPS, PEDESTRIAN_DETECTORS, PREEMPTS, VEHICLE_DETECTORS};

use crate::limits::{OVERLAPS, PEDESTRIAN_DETECTORS, PREEMPTS, VEHICLE_DETECTORS};
use std::marker::Model;

/// The number of a thing of one kind: 1 to `MOST`. `KIND` tells the kinds apart, so that a phase's number is never
/// taken for a detector's.
#[derive(Clone, Copy, Debug, PartialEq, Eq)]
pub struct Number<const KIND: u8, const MOST: u8> {
    number: u8,
}

/// The number of a phase: 1 to 16.
pub type Phase = Number<0, 16>;

/// The number of a side of the barriers: 1 to 4 (profile).
pub type Side = Number<1, 4>;

/// The number of a vehicle detector: 1 to `VEHICLE_DETECTORS`.
pub type Detector = Number<2, VEHICLE_DETECTORS>;

/// The number of an overlap: 1 to `OVERLAPS`.
pub type Overlap = Number<3, OVERLAPS>;

/// The number of a station, which has a transaction of its own: 1 to 4 (profile).
pub type Station = Number<4, 4>;

/// The number of a ring of phases: 1 to 2.
pub type Ring = Number<5, 2>;

/// The number of a pedestrian detector: 1 to `PEDESTRIAN_DETECTORS`.
pub type PedestrianDetector = Number<6, PEDESTRIAN_DETECTORS>;

/// The number of a coordination pattern: 1 to 16.
pub type Pattern = Number<7, 16>;

/// The number of a split table: 1 to 8.
pub type Split = Number<8, 8>;

/// The number of a phase sequence: 1 to 4.
pub type Sequence = Number<9, 4>;

/// The number of a preempt: 1 to `PREEMPTS`.
pub type Preempt = Number<10, PREEMPTS>;

/// The number of an entry of a schedule: 1 to 32.
pub type Entry = Number<12, 32>;

/// The number of a day plan: 1 to 16.
pub type DayPlan = Number<13, 16>;

/// The number of an event of a day plan: 1 to 16.
pub type DayEvent = Number<14, 16>;

/// The number of an action of a schedule: 1 to 32.
pub type Action = Number<15, 32>;

impl<const KIND: u8, const MOST: u8> Model for Number<KIND, MOST> {
    ghost Value = { ℕ };

    ghost view = { λ a. a.number };

    ghost invariant = { λ a. (1 ≤ a.number) × (a.number ≤ MOST) };

    ghost inverse = { λ n. record { number = n } };
}

impl<const KIND: u8, const MOST: u8> Number<KIND, MOST> {
    /// The thing of this number, or `None` where it is not 1 to `MOST`.
    pub fn new(number: u32) -> Option<Self>
        ensures { result ≡ (if nat_le 1 number && nat_le number MOST then Some number else None) }
    {
        if 1 <= number && number <= u32::from(MOST) {
            Some(Number::of(number as u8))
        } else {
            None
        }
    }

    /// The thing of this number, which has to be 1 to `MOST`.
    pub fn of(number: u8) -> Self
        requires from_one { 1 ≤ number }
        requires within { number ≤ MOST }
        ensures { result ≡ number }
    {
        Number { number }
    }

    /// Its number, 1 to `MOST`.
    pub fn number(self) -> u8
        ensures same { result ≡ self.entry }
        ensures from_one { 1 ≤ result }
        ensures within { result ≤ MOST }
    {
        self.number
    }

    /// Gives a proof its range. A contract sees the plain number, so a caller knows no more about it than a clause
    /// says.
    #[inline(always)]
    pub fn known(self)
        ensures from { 1 ≤ self.entry }
        ensures within { self.entry ≤ MOST }
    {
        let _number = self.number;
    }

    /// The first `N` things, in ascending order.
    fn first<const N: usize>() -> [Self; N]
        requires some { 1 ≤ N }
        requires within { N ≤ MOST }
        ensures { result ≡ run_from 1 N }
    {
        let mut all = [Number::of(1); N];
        for k in 0..N {
            all[k] = Number::of(k as u8 + 1);
        }
        all
    }
}

impl Phase {
    /// All phases, in ascending order.
    pub fn all() -> [Phase; 16]
        ensures { result ≡ run_from 1 16 }
    {
        Number::first()
    }
}

impl Side {
    /// All sides of the barriers, in ascending order.
    pub fn all() -> [Side; 4]
        ensures { result ≡ run_from 1 4 }
    {
        Number::first()
    }
}

impl Detector {
    /// All vehicle detectors, in ascending order.
    pub fn all() -> [Detector; VEHICLE_DETECTORS as usize]
        ensures { result ≡ run_from 1 VEHICLE_DETECTORS }
    {
        Number::first()
    }
}

impl Overlap {
    /// All overlaps, in ascending order.
    pub fn all() -> [Overlap; OVERLAPS as usize]
        ensures { result ≡ run_from 1 OVERLAPS }
    {
        Number::first()
    }
}

impl Ring {
    /// All rings, in ascending order.
    pub fn all() -> [Ring; 2]
        ensures { result ≡ run_from 1 2 }
    {
        Number::first()
    }
}

impl PedestrianDetector {
    /// All pedestrian detectors, in ascending order.
    pub fn all() -> [PedestrianDetector; PEDESTRIAN_DETECTORS as usize]
        ensures { result ≡ run_from 1 PEDESTRIAN_DETECTORS }
    {
        Number::first()
    }
}

impl Pattern {
    /// All patterns, in ascending order.
    pub fn all() -> [Pattern; 16]
        ensures { result ≡ run_from 1 16 }
    {
        Number::first()
    }
}

impl Preempt {
    /// All preempts, in ascending order.
    pub fn all() -> [Preempt; PREEMPTS as usize]
        ensures { result ≡ run_from 1 PREEMPTS }
    {
        Number::first()
    }
}
