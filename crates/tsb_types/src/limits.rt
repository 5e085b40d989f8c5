//! How many there are of each thing (profile).

/// Phases, numbered from 1.
pub const PHASES: usize = 16;

/// Vehicle detectors, numbered from 1.
pub const VEHICLE_DETECTORS: u8 = 64;

/// Pedestrian detectors, numbered from 1.
pub const PEDESTRIAN_DETECTORS: u8 = 16;

/// Overlaps, numbered from 1.
pub const OVERLAPS: u8 = 16;

/// Preempts, numbered from 1.
pub const PREEMPTS: u8 = 8;

/// The greatest number of a tick. A tick is a tenth of a second, so a bench counts some seven days.
pub const TICKS: u32 = 6_000_000;
