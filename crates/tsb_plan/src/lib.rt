//! Timing plans: the objects of NTCIP 1202 that make one up, their names and ranges in each version of plan
//! texts, and what a plan says of phases, detectors, overlaps, patterns and preempts.
//!
//! What is marked "profile" is this project's own choice. Nothing here takes memory.
#![tactic(auto)]

pub mod laws;
mod names;
pub mod object;
pub mod plan;
pub mod version;
pub mod version_laws;

pub use object::{Object, ObjectId, PLAN_CELLS, Range, is_structural, range_of};
pub use plan::acting::MINUTE;
pub use plan::holding::length_of;
pub use plan::schedule::{ACTIONS, DAY_EVENTS, DAY_PLANS, ENTRIES, FREE};
pub use plan::{CorrectionMode, OffsetReference, Plan, SplitMode};
pub use version::Version;
