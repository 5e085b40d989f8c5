//! Where a plan breaks the rules: each place, with the numbers that do not fit there.
//!
//! A rule can be broken in one way or in several, each a `RuleFault` with a definition of its own over the plan. `breach_at`
//! goes through the places of each. Nothing here takes memory, and nothing is remembered but the plan.
#![tactic(auto)]

pub mod breach;
pub mod fault;
pub mod laws;
mod lists;
pub mod numbers;
mod patterns;
mod phases;
mod schedules;
mod sequences;
mod sums;

pub use breach::{Breach, breach_at, is_at};
pub use fault::RuleFault;
pub use numbers::numbers_of;
