//! Plan texts: timing plans in JSON, read whole or refused with the first fault.
//!
//! A text is a JSON object with a member `version`, 1, 2 or 3, and a member for each object of the plan that is not all
//! zeros: `{"version":2,"phaseEnabled":{"2":1,"4":1}}`. A member's name is that of an object in this version. Its value
//! is a table from the object's indices, in decimal, to whole numbers in the object's unit. What a text does not name
//! is 0. The format is the profile's own.
#![tactic(auto)]

mod error;
pub mod laws;
mod listed;
mod notes;
mod numbers;
mod read;
mod rules;
mod tree;

pub use error::{PlanError, PlanLine};
pub use read::{LIMIT, read_plan, read_unchecked};
pub use rules::rule_line;
