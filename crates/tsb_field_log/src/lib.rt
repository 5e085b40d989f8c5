//! Logs of inputs, made from a controller's event log.
//!
//! A wire leads from a channel of the controller to an input of a bench. An input is on in a tick where one of its
//! wires is on at some moment of the tick, or is switched on in it, though off again at the same moment: so no pulse is
//! lost. A row is written where inputs differ from the row before.
#![tactic(auto)]

mod inputs;
pub mod laws;
mod leads;
mod mapping;
mod street;

pub use inputs::{InputEvent, InputKind, Signal, Wire};
pub use mapping::{form_of_wires, is_wired, wires};
pub use street::{KnownRows, Street};
