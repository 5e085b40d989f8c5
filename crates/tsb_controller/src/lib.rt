//! The controller: seven layers joined. A tick hands each what the others have found, in the order in which it is found.
//!
//! [`Controller`] has the layers that have a part in a tick: detectors, calls, phases, rings, coordination,
//! preempts and overlaps. After each call, the state that is read in their cells (`specs/Rows.antt`) is the one that the one step of
//! the definitions (`tsb_step`) gives from the state before. What has changed between `open` and `close_onto` is listed
//! cell by cell, and `undo` puts it back.
#![tactic(auto)]

mod carry;
pub mod causes;
pub mod controller;
mod cycle;
mod found;
mod inputs;
pub mod laws;
pub mod parts;
pub mod passing;
pub mod plan_changes;
mod readers;
mod record;
mod seen;
mod selected;
pub mod status;
mod surroundings;
mod times;
mod values;
mod waits;
mod watch;

pub use causes::Causes;
pub use controller::Controller;
pub use parts::{part_of, touches, undo_entry, undo_part};
pub use status::Beside;
