//! The rules that a timing plan must meet, K1 to K29, and what a plan that meets them is known to be.
//!
//! The rules are the profile's own. Nothing here takes memory.
#![tactic(auto)]

pub mod consistent;
pub mod rules;

pub use rules::{Rule, check, split_end};
