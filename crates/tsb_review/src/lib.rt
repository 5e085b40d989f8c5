//! A second pair of eyes on a plan: what can run and is still wrong, or may be.
//!
//! Each advice has a number, A1 to A62, and a definition of its own over the plan. `finding_at` goes through the places
//! of each advice. Nothing here takes memory, and nothing is remembered but the plan.
#![tactic(auto)]

mod actuation;
pub mod advice;
mod alike;
mod calls;
mod clearance;
mod coordination;
mod detection;
mod entry;
pub mod finding;
mod legs;
pub mod numbers;
mod overlaps;
mod pedestrians;
pub mod place;
mod preempts;
mod schedules;
mod service;
mod sought;
mod splits;
mod unused;
mod worksheet;

pub use advice::Advice;
pub use alike::is_also_in;
pub use finding::{Finding, crosses_walk, ends_walk_for_track, finding_at, holds, unused_value};
pub use numbers::{Numbers, numbers_of};
pub use place::{Listing, Place, Shape, place_of};
pub use worksheet::{SplitShare, entry_of, share_of};
