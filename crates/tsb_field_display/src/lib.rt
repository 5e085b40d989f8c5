//! What display lines of a session say.
#![tactic(auto)]

pub mod error;
pub mod events;
mod events_error;
mod inputs;
pub mod laws;
mod merge;
pub mod reading;
pub mod replay;
pub mod session_laws;
pub mod shown;
pub mod stream;
mod texts;
mod times;

pub use error::ReplayError;
pub use events::{EVENTS, Events, events_between};
pub use events_error::EventsError;
pub use merge::session_events;
pub use reading::read_line;
pub use replay::Replay;
pub use shown::{PedestrianHeads, Shown, Signals, VehicleHeads};
pub use stream::read_replay;
pub use texts::{events_text, log_text};
pub use times::LAST_TICK;
pub use tsb_lines::Watched;
