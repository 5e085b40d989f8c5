//! Tests of the crates of field files. A crate with tests is proved a second time with them, so they are here.
//!
//! Most of what a test checks stands in functions that have no contract and answer whether all of it holds. A test that
//! makes many calls itself takes several times as long to prove: it carries on what is known of each of them, and each
//! assert in it costs about as much as such a function.
#![tactic(auto)]

#[cfg(test)]
mod diagram_text;
#[cfg(test)]
mod display_events;
#[cfg(test)]
mod display_stream;
#[cfg(test)]
mod event_lines;
#[cfg(test)]
mod event_rows;
#[cfg(test)]
mod events_text;
#[cfg(test)]
mod export_rows;
#[cfg(test)]
mod export_zones;
#[cfg(test)]
mod field_filter;
#[cfg(test)]
mod field_rows;
#[cfg(test)]
mod field_words;
#[cfg(test)]
mod filter_lines;
#[cfg(test)]
mod log_stream;
#[cfg(test)]
mod week_text;
#[cfg(test)]
mod word_pages;
