//! Dialogs: lines are read, and what answers them says a text to each.
//!
//! What is said here is "profile": this project's own choice.
#![tactic(auto)]

mod answers;
mod dialog;
mod error;
mod pending;

pub use answers::{Answers, Flow};
pub use dialog::{KEPT, LIMIT, converse};
pub use error::DialogError;
pub use pending::Pending;
pub use tsb_lines::{Watched, WriteError};
