//! Laws of every run and of every session, above the step: each is the contract of a function that does nothing.
//!
//! `specs/` has the statements, over the definitions of tsb_step, of the layers below it and of tsb_text. `safety` is
//! the safety case in the words of a signal engineer, and `heads` has what it says of heads: what may change one that
//! gives right of way, and what all show after a trip. `way_back` says what cells and records give of each state, and
//! which timers a tick writes, of every run that the definitions allow, whether or not there is memory for it; `desk`
//! says what edits are after every run. `events` says what the events of a run tell. `versions` says that the bench of
//! 16 phases shows for a plan of version 1 what the bench of 8 shows, and `one_text` that the text of a session is one,
//! but for memory. `schedules` says that what the schedule of a plan does are commands. `play` says the laws of runs of
//! each bench that a list of commands leaves. `operation` is how calls, greens, overlaps and preempts go on, as an
//! engineer expects it of each run, and `starts` says what lets a phase start. `times_left` says that what a status
//! shows to be left of a time is when that runs out. `options` says that a run in which the options are 0 is that of a
//! controller without options.
#![tactic(auto)]

pub mod arrows;
pub mod desk;
pub mod events;
pub mod heads;
pub mod one_text;
pub mod operation;
pub mod options;
pub mod play;
pub mod safety;
pub mod schedules;
pub mod sizes;
pub mod starts;
pub mod times_left;
pub mod versions;
pub mod way_back;
