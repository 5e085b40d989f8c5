//! Rows of controllers' high-resolution event logs, as exports write them: lines of CSV.
//!
//! A line has a device, a time, a code and a parameter, each in a field that a header names, or in this order. Nothing
//! here takes memory, and nothing reads more than one line. Codes are numbers here: the crates that use events say what
//! they mean for inputs.
#![tactic(auto)]

mod columns;
mod events;
mod faults;
mod fields;
pub mod laws;
mod rows;
mod texts;
mod time_forms;
mod times;
mod wide;
mod written;
mod zones;

pub use columns::{Column, Columns, Separator, header};
pub use events::{LONGEST_DEVICE, append_event, can_be_written, event_line};
pub use faults::{RowFault, SHOWN, ShownField, device_of, is_preface, row_fault};
pub use rows::{EventRow, event_row};
pub use texts::TimeText;
pub use time_forms::{TimeForm, form_of, is_ambiguous, moment_in, time_form_named, time_form_word};
pub use times::{Moment, read_moment};
pub use wide::{WideRow, is_passed, wide_row};
pub use written::{FIRST_DAY, LAST_DAY, is_written, time_text};
pub use zones::{Zone, zone_named};
