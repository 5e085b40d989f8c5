//! The display line of the whole controller: what its heads show, with the tick number, the preempt in service and the
//! local counter.
//!
//! The line is the profile's own. `line` gives it as text and `line_bytes` as bytes; neither takes memory, and both
//! give the same bytes. A wide line, which a `LineMaker` gives where it is asked for, has a field more, with overlaps 1
//! to 16. A line is written once a tick, so its letters are found by sets of heads, a colour at a time, and a `LineMaker`
//! takes them from the line before where no head has changed.
#![tactic(auto)]

mod display_line;
mod letters;
mod maker;
mod numbers;

pub use display_line::{LineBytes, WIDE, WIDTH, line, line_bytes};
pub use maker::{LineMaker, LineText};
