//! Lines of texts, the line that a reader keeps until it ends, words of lines, the numbers that words spell, and digits
//! of numbers. Nothing here takes memory.
//!
//! What is said here is "profile": this project's own choice.
#![tactic(auto)]

pub mod digits;
pub mod kept;
pub mod laws;
pub mod lines;
mod reads;
pub mod short;
mod watched;
mod watched_writes;
pub mod words;
pub mod writes;

pub use digits::{digit, seven_digits};
pub use kept::KeptLine;
pub use lines::{cut_at_feed, is_skipped, next_line, without_return};
pub use short::ShortLine;
pub use watched::Watched;
pub use words::{next_word, number};
pub use writes::{WriteError, pass_on, write_text};
