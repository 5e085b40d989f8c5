//! The status of a controller as one line of JSON, by the names of NTCIP 1202's status objects.
//!
//! [`status_line`] writes it. It takes no memory. What of it is this project's own is "profile": NTCIP 1202 names the
//! objects, and JSON is RFC 8259.
#![tactic(auto)]

mod edit_lines;
mod edits;
mod groups;
pub mod laws;
mod line;
mod names;
mod plan;
mod rings;
mod waits;

pub use edit_lines::{EditsLine, LONGEST_EDITS};
pub use edits::edits_line;
pub use groups::status_line;
pub use line::{LONGEST, StatusLine};
pub use plan::plan_line;
