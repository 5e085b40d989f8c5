//! The phase diagram of a session, and what is in force in a week, as pictures in SVG.
#![tactic(auto)]

mod arrow_key;
mod axis;
mod band;
mod bars;
pub mod ends;
pub mod laws;
mod letters;
mod line;
mod lit;
mod page;
mod title;
mod week;
mod write;

pub use ends::{EndsError, GreenEnd, LIMIT, Why, read_ends};
pub use page::{DiagramForm, DiagramSession, diagram_text};
pub use week::{WeekBand, draw_week};
