//! The way back: a machine that keeps a record of each input, how it goes back through its records, and what a session
//! of commands comes to. All of it is said and proved once, for any states, inputs and records.
//!
//! `specs/` has the words: replay, earlier, sought, the inputs that remain, right answers, and the last change of a
//! watched value. Each law is the contract of a function that does nothing, and all follow from one premise: undoing
//! the record of a step gives the state back.
#![tactic(auto)]

pub mod commands;
pub mod laws;

pub use commands::{Answer, MachineCommand};
