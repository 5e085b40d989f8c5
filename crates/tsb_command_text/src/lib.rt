//! The commands of a session, and the lines that spell them. Nothing here takes memory.
//!
//! A command is a line of words with one or more spaces between them; spaces at either end are dropped, and
//! case matters. All of it is "profile": this project's own choice.
#![tactic(auto)]

pub mod clock;
pub mod command;
mod lamps;
pub mod laws;
pub mod live_command;
mod live_read;
mod names;
mod objects;
mod read;

pub use command::{Command, Reading};
pub use live_command::{Aim, LiveCommand, LiveReading};
pub use live_read::live_reading_of;
pub use read::{LINE, read_command, reading_of, turned_on};
