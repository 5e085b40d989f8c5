//! What the programs share: the files that they read, the lines that they write, and the statuses that they end with.
#![tactic(auto)]

mod clue;
mod failure;
mod files;
mod lines;
mod read;
mod refusal;
mod run;
mod stack;
mod start;
mod status;
mod streams;
mod told;

pub use clue::{LogClue, PlanClue};
pub use failure::Failure;
pub use files::{Disk, FileCause, FileError, Files, read_file};
pub use lines::{line_of, tell, write_line};
pub use read::{PlanFault, ReadError, RefusedLog, log_of, plan_of, plan_or_place};
pub use refusal::TextRefusal;
pub use start::{after_fault, words_given};
pub use status::ExitStatus;
pub use streams::Streams;
pub use told::plan_lines;
pub use tsb_lines::Watched;
