//! The events of an input, found from what the log of a controller sees before and after it.
//!
//! [`Seen`] is what the log sees: sets of phases, overlaps, detectors and preempts, the side that is served, flash.
//! [`tick_events`] and [`other_events`] compare it before and after an input, and write what differs in the order of a
//! log: by code, and those of one code by their parameters. Nothing here takes memory.
#![tactic(auto)]

pub mod laws;
pub mod pattern;
pub mod seen;
pub mod tell;

pub use seen::{Change, Found, Seen, Selected};
pub use tell::{EVENTS, Events, other_events, tick_events};
