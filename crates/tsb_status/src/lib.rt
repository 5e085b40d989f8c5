//! The status of a controller, by the names of NTCIP 1202's status objects.
//!
//! [`wait`] says what a phase waits for, of what was found of it and of both rings. Nothing here takes memory.
#![tactic(auto)]

pub mod found;
pub mod laws;
pub mod rings;
pub mod status;
pub mod times;
pub mod told;
pub mod waits;

pub use found::{Circumstances, Next, RingFound, Served, Service, Waiting};
pub use rings::{PhaseFound, ring};
pub use status::{RingStatus, Status};
pub use times::GreenFound;
pub use waits::wait;
