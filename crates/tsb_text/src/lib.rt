//! Texts: plans, logs and commands in; display lines and the answers of a session, or the record of a run, out.
//!
//! What a session needs from the crates below is re-exported: plans and their faults, logs, commands, and the bench. So
//! are the other types that calls name.
#![tactic(auto)]

mod answers;
mod course;
mod error;
mod events;
pub mod faults;
mod followers;
pub mod kept;
mod later;
mod lines;
pub mod recording;
mod rows;
mod run;
pub mod stop;
mod task;

pub use answers::{follow, obey, say_refusal};
pub use course::{Course, Mode};
pub use error::{SessionError, fault_of};
pub use faults::{LineFault, OnFault, fault_line, fault_words};
pub use kept::{Kept, Other};
pub use lines::{line, line_text, refused_line, when_line};
pub use recording::{Mark, Outcome, RecordOptions, Told, record};
pub use rows::Rows;
pub use run::{COMMANDS, session};
pub use stop::{Stop, flow_after, front_of, stop_at};
pub use task::{Task, task_of};
pub use tsb_bench::{Answer, Bench, Cmd, Input, Kind};
pub use tsb_command_text::{Command, read_command};
pub use tsb_dialog::{Pending, Watched, WriteError};
pub use tsb_display_text::LineText;
pub use tsb_log_text::{LIMIT as LOG_LIMIT, Log, LogError, read_log};
pub use tsb_objects::{
    Checked, Detector, Lamp, Object, ObjectId, Overlap, PedestrianColor, Phase, Plan, Refusal, Row,
    Rule, SignalColor, Station, Watch,
};
pub use tsb_plan_text::{LIMIT as PLAN_LIMIT, PlanError, read_plan};
pub use tsb_step::log_form::LogForm;
