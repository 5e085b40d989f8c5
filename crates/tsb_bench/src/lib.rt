//! The bench: the whole controller, which can be wound back. It takes inputs, gives a display, and takes the newest
//! inputs back, with the whole controller as it was.
//!
//! [`Bench`] meets the one step of the definitions (`tsb_step`), and the way back of `tsb_machine`. So what these prove
//! of every run and every session holds of what [`play`] leaves; `plays_keep_the_laws` of `tsb_laws` says it. The lower
//! types that calls name are given out here.
#![tactic(auto)]

mod bench;
mod cabinet;
mod desk_inputs;
mod layer_inputs;
mod monitor_cells;
mod passing;
mod player;
mod room_laws;
mod schedule;
mod shown;
mod status;
mod telling;
mod watched;

pub use bench::{Bench, Nothing};
pub use player::{answer, play};
pub use room_laws::room_lasts;
pub use tsb_events::Events;
pub use tsb_heads::{Display, Trip};
pub use tsb_history::{History, Kind};
pub use tsb_machine::Answer;
pub use tsb_objects::{
    Checked, Detector, DetectorSet, Lamp, NumberSet, Object, ObjectId, Overlap, PedestrianColor,
    Phase, Plan, Preempt, Refusal, Row, Rule, SignalColor, Stage, Station, Watch,
};
pub use tsb_status::Status;
pub use tsb_step::log_form::{LogForm, Noted};
pub use tsb_step::{Cmd, Input};
pub use tsb_transact::Desk;
