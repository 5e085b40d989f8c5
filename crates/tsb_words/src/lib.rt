//! The words of command lines, and what they ask for: a module for each program.
#![tactic(auto)]

pub mod bench;
mod commands;
mod error;
pub mod field_files;
pub mod live;
mod matches;
pub mod near;
pub mod pages;
pub mod shown;
pub mod wrong;

pub use error::WordsError;
