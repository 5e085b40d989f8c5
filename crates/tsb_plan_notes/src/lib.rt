//! Notes on a plan text: what the text says and the plan does not show. A name or an index that comes again in its
//! table, of which the last counts; a value that is no whole number; what is out of range, and what no object is named.
//!
//! The lines are "profile": this project's own choice.
#![tactic(auto)]

mod entries;
pub mod laws;
mod lines;
mod machine;
mod near;
mod newer;
mod next;
mod numbers;
mod phase_list;
mod place;
mod step;
mod text;
mod units;

pub use machine::DEPTH;
pub use next::{Bracket, JsonNext, Rest, Role};
pub use place::{JsonPlace, TOLD, json_place, place_text};
pub use text::notes;
pub use units::{Unit, unit_of};
