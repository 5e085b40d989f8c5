//! Live runs: rows of inputs and commands in, display lines and other answers out.
//!
//! What is said here is "profile": this project's own choice.
#![tactic(auto)]

mod changes;
mod go_to;
mod help;
pub mod laws;
mod run;
pub mod saved;

pub use run::{BYTES, live};
pub use saved::say_saved;
pub use tsb_text::Stop;
