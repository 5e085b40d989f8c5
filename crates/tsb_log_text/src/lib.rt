//! Logs of inputs: their text, and the row that is in force at a tick.
//!
//! A log is a text of lines. In version 1 a row is a line of 38 bytes: a tick in 7 digits, 16 digits 0 or 1 for vehicle
//! detectors 1 to 16, 8 for pedestrian detectors 1 to 8 and 4 for preempt inputs 1 to 4, with a space between them. In
//! version 2 it is the tick and lists of what is on, as `0000100 V1,4,9-12 P2 E1`. A log has one form, that of its first
//! row. Ticks are 1 to 6,000,000 and rise from row to row. Blank lines and lines that begin with `#` are skipped. All of
//! it is "profile": this project's own choice.
#![tactic(auto)]

pub mod error;
pub mod form;
pub mod laws;
mod line;
mod list_line;
mod list_text;
pub mod log;
mod read;
mod row_input;
mod row_text;
mod search;

pub use error::{LogError, LogLine};
pub use form::{RowForm, form_for, inputs_in, is_beyond_digits};
pub use line::{RowLine, row_line};
pub use list_line::{LISTS_LINE, ListsLine, line_in, lists_line};
pub use list_text::lists_of;
pub use log::{Log, LogRow};
pub use read::{LIMIT, read_log};
pub use row_input::RowInput;
pub use row_text::inputs_of;
