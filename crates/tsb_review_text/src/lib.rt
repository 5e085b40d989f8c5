//! What a review of a plan finds, as lines of text: one for each advice that holds of a part of the plan, or of a plan
//! that is refused one for each place at which it breaks a rule.
#![tactic(auto)]

mod breach_template;
mod line;
mod picture;
mod review;
mod template;
mod week;
mod worksheet;

pub use line::{LONGEST, Line, breach_line, line_of};
pub use picture::week_picture;
pub use review::{write_breaches, write_review};
pub use week::write_week;
pub use worksheet::write_worksheet;
