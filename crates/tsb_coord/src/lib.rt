//! Coordination: which pattern is selected and runs, the local counter, and what the pattern asks of the rings: hold,
//! force-off, pedestrian recycle and omit.
//!
//! `Coord` keeps the number of the pattern that is selected, how its local counter comes into step, and the clock, where
//! one is set; all else is found from these, the plan and the number of the tick. The laws: in a plan that meets the rules a phase whose green
//! ends at its force-off instant has cleared where its split ends, a coordinated phase at local 0, and one that is
//! forced off in its permissive time by so much behind; late force-off and the permissive time are options; the local
//! counter of a pattern that is selected does not jump, and comes into step; and the cells encode what is read in them.
//! Names are those of NTCIP 1202 (cycle, offset, splits, sequences, coordinated phases); the orders, the instants at
//! which splits end, late force-off, the permissive time and how a counter comes into step are the profile's own.
#![tactic(auto)]

mod asked;
mod clock;
pub mod coord;
pub mod coordination;
pub mod correction;
mod counting;
pub mod cycle;
pub mod laws;
mod waiting;

pub use coord::Coord;
pub use coordination::Coordination;
pub use correction::Correction;
pub use cycle::CycleState;

/// The cells of coordination.
pub const CELLS: usize = 6;
