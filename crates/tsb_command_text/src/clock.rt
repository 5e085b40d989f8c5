//! The text of a time that a clock is set to: a date of the years 2000 to 2099, and a time of day.

pub mod laws;
mod read;
mod write;

pub use read::{read_clock, read_time};
pub use write::{date_text, time_text};
