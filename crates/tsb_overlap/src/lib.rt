//! Overlaps that have intervals of their own: flashing yellow arrows, and overlaps that trail.
//!
//! `TimedOverlaps` keeps them in 38 cells; `laws` states what holds of those cells, and of what a tick makes of them.
//! Normal overlaps and those of type minusGreenYellow are no part of it: their heads come of phases alone, as tsb_heads
//! has it. Trailing times are those of NTCIP 1202; the arrow is that of the MUTCD, and its rules are the profile's own.
#![tactic(auto)]

mod arrow;
mod cells;
mod kinds;
pub mod laws;
pub mod parts;
pub mod surroundings;
pub mod timed_overlaps;
mod trail;

pub use surroundings::Surroundings;
pub use timed_overlaps::TimedOverlaps;
use tsb_objects::limits::OVERLAPS;

/// The cells of overlaps: six lists, and two cells of each overlap.
pub const CELLS: usize = 6 + 2 * OVERLAPS as usize;
