//! Tests of the crates below, which have none of their own: a crate with tests is proved twice.
//!
//! Most of what a test checks is in functions that have no contract and answer whether all of it holds. A test that
//! makes many calls itself takes several times as long to prove: it carries on what is known of each of them, and each
//! assert in it costs about as much as such a function.
#![tactic(auto)]

#[cfg(test)]
mod ample_memory;
#[cfg(test)]
mod arrows;
#[cfg(test)]
mod bench;
#[cfg(test)]
mod bench_alone;
#[cfg(test)]
mod cells;
#[cfg(test)]
mod clocks;
#[cfg(test)]
mod commands;
#[cfg(test)]
mod coordination;
#[cfg(test)]
mod correction;
#[cfg(test)]
mod desk;
#[cfg(test)]
mod devices;
#[cfg(test)]
mod dialogs;
#[cfg(test)]
mod display_lines;
#[cfg(test)]
mod history;
#[cfg(test)]
mod lines;
#[cfg(test)]
mod logs;
#[cfg(test)]
mod objects;
#[cfg(test)]
mod overlap_events;
#[cfg(test)]
mod patterns;
#[cfg(test)]
mod plan_texts;
#[cfg(test)]
mod plans;
#[cfg(test)]
mod programs;
#[cfg(test)]
mod recycle;
#[cfg(test)]
mod rules;
#[cfg(test)]
mod schedules;
mod sessions;
#[cfg(test)]
mod times;
#[cfg(test)]
mod types;
#[cfg(test)]
mod versions;
#[cfg(test)]
mod walks;
