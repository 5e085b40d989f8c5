//! The commands of a record: they are carried out, and what is refused is told.
ghost use Rattle.std.specs.Prelude.{◌≡◌, ◌++◌, ℕ, [], IfErr, List, OnOk, false, true};
ghost use Rattle.tsb_objects.specs.Checked.{checked_plan};
ghost use Rattle.tsb_dialog.specs.Blame.{AfterCalls};
ghost use Rattle.tsb_dialog.specs.Said.{Said, Wrote};
ghost use Rattle.tsb_log_text.specs.declared.log.LogRow.{LogRow};
ghost use Rattle.tsb_step.specs.declared.inputs.Input.{Input as InputValue};
ghost use Rattle.tsb_step.specs.declared.log_form.LogForm.{LogForm as LogFormValue};
ghost use Rattle.tsb_text.specs.Answers.{Setup};
ghost use Rattle.tsb_text.specs.Blame.{Blames};
ghost use Rattle.tsb_text.specs.recording.Ended.{Ended, EndedFrom};
ghost use Rattle.tsb_text.specs.recording.Faults.{fault_text};
ghost use Rattle.tsb_text.specs.recording.Leaves.{BeginsWith, quits};
ghost use Rattle.tsb_text.specs.Obeyed.{Stands};
ghost use Rattle.tsb_text.specs.Stops.{stop_in};
ghost use Rattle.tsb_text.specs.declared.course.Mode.TheVariants as modes;
ghost use Rattle.tsb_text.specs.declared.error.SessionError.TheVariants as errors_of;
ghost use Rattle.tsb_text.specs.recording.Recording.{IsOutcome};

mod faults;
pub mod laws;
mod recorder;
mod told;

use crate::recording::faults::fault_line;
use crate::recording::recorder::{carry_out, follow_all};
pub use crate::recording::told::{Mark, Told};
use crate::{
    COMMANDS, Course, LineFault, Mode, OnFault, Rows, SessionError, Stop, fault_of, flow_after,
    stop_at,
};
use std::alloc::Global;
use std::io::{Read, Write};
use tsb_bench::Bench;
use tsb_command_text::{Command, Reading, reading_of};
use tsb_dialog::{Answers, Flow, Pending, Watched, WriteError, converse};
use tsb_log_text::Log;
use tsb_objects::Checked;
use tsb_step::Input;
use tsb_step::log_form::LogForm;
use tsb_types::{ClockTime, Event};

/// What is asked of a record.
#[derive(Clone, Copy)]
pub struct RecordOptions {
    /// What becomes of it at a line that is no command, or that is refused.
    pub on_fault: OnFault,
    /// Its form.
    pub form: LogForm,
    /// Whether the schedule of the plan acts.
    pub acts: bool,
    /// The moment at which its tick 1 begins, to which its clock is set before that: none where it has no clock.
    pub clock: Option<ClockTime>,
}

/// What came of the commands of a record.
#[derive(Drop)]
pub enum Outcome {
    /// They came to their end: the events of the inputs that remain, the oldest first.
    Events(Vec<Event>),
    /// This line ended a strict record. It is the first that is no command, or that was refused.
    Stopped(Stop),
}

/// What carries out the commands of a record.
#[derive(Drop)]
struct Recording<'a> {
    course: Course<'a>,
    on_fault: OnFault,
    /// The line that ended the record, once it has come.
    stop: Option<Stop>,
}

impl Answers for Recording<'_> {
    ghost use Rattle.std.specs.Prelude.{◌≡◌};
    ghost use Rattle.tsb_text.specs.Obeyed.{Stands};
    ghost use Rattle.tsb_text.specs.Stops.{stop_in};
    ghost use Rattle.tsb_text.specs.declared.course.Mode.TheVariants as modes;
    ghost use Rattle.tsb_text.specs.recording.Lines.{Course as RecordCourse, says};

    ghost State = { RecordCourse };

    ghost stands = { λ r s. Stands s.given s.given.log r.course s.end.inputs × (r.on_fault ≡ s.on_fault) × (r.course.mode ≡ modes.Recording s.form) × (stop_in r.stop ≡ s.end.stop) };

    ghost says = { says };

    fn answer<W: Write>(
        &mut self,
        number: u32,
        line: &[u8],
        pending: &mut Pending,
        writer: &mut Watched<W>,
    ) -> Result<Flow, WriteError> {
        let reading = reading_of(line);
        let is_quit = quits(&reading);
        let fault = carry_out(&mut self.course, reading);
        self.stop = stop_at(self.on_fault, number, line, fault);
        tell(number, line, &fault, pending, writer)?;
        Ok(flow_after(is_quit, &self.stop))
    }
}

/// Whether a line that reads so is `quit`.
fn quits(reading: &Reading) -> bool
    ensures { result ≡ quits reading.now }
{
    match reading {
        Reading::Do(Command::Quit) => true,
        _ => false,
    }
}

/// Tells of a line by its number, where something is wrong with it.
fn tell<W: Write>(
    number: u32,
    line: &[u8],
    fault: &Option<LineFault>,
    pending: &mut Pending,
    writer: &mut Watched<W>,
) -> Result<(), WriteError>
    ensures ok { OnOk result (Said (W.contents writer.old.device) (W.contents writer.new.device) pending.old pending.new (fault_text number line.now fault.now)) }
    ensures front { Wrote (W.contents writer.old.device) (W.contents writer.new.device) pending.old pending.new (λ said. (rest : List ℕ) × (fault_text number line.now fault.now ≡ said ++ rest)) }
    ensures blame { writer.old.failed ≡ false → AfterCalls result writer.new.failed }
{
    match fault {
        Some(fault) => pending.add(writer, fault_line(number, line, *fault).as_bytes()),
        None => Ok(()),
    }
}

/// What a record gives that this line has ended, or none.
fn outcome_of(course: Course, stop: Option<Stop>) -> Outcome
    ensures { IsOutcome result (stop_in stop) course.entry.told.told.events }
{
    match stop {
        Some(line) => {
            drop(course);
            Outcome::Stopped(line)
        }
        None => Outcome::Events(course.into_events()),
    }
}

/// Sets the clock of a record that begins, where it has one, and takes what follows that. The error is that there is no
/// memory for them.
fn set_clock(course: &mut Course, clock: Option<ClockTime>) -> Result<(), SessionError>
    ensures set { OnOk result ((given : Setup) (log : List LogRow) → Stands given log course.old [] → (first : List InputValue) × BeginsWith given clock first × Stands given log course.new first) }
    ensures memory { IfErr result (λ e. e ≡ errors_of.Memory) }
    ensures mode { course.new.mode ≡ course.old.mode }
{
    match clock {
        None => Ok(()),
        Some(time) => match course.take(Input::Clock(time)) {
            Ok(()) => match follow_all(course) {
                None => Ok(()),
                Some(_) => Err(SessionError::Memory),
            },
            Err(_) => Err(SessionError::Memory),
        },
    }
}

/// Carries out the commands of a record, where these inputs came before them.
fn carried_out<R: Read, E: Write>(
    course: Course,
    on_fault: OnFault,
    reader: &mut Watched<R>,
    errors: &mut Watched<E>,
) -> Result<Outcome, SessionError>
    requires reads { reader.old.failed ≡ false }
    requires writes { errors.old.failed ≡ false }
    requires flushed { errors.old.flushed ≡ true }
    ensures ended { (given : Setup) (form : LogFormValue) (first : List InputValue) → Stands given given.log course.entry first → course.entry.mode ≡ modes.Recording form
        → Ended result on_fault form given first (R.remaining reader.old.device) (R.remaining reader.new.device) (E.contents errors.old.device) (E.contents errors.new.device) }
    ensures blame { Blames result reader.new.failed errors.new.failed errors.new.flushed }
{
    let mut recording = Recording {
        course,
        on_fault,
        stop: None,
    };
    match converse(&mut recording, COMMANDS, reader, errors) {
        Ok(()) => Ok(outcome_of(recording.course, recording.stop)),
        Err(fault) => {
            drop(recording);
            Err(fault_of(fault))
        }
    }
}

/// The record of a run: reads commands as a session of `tsb run` does, carries them out, and gives the events of the
/// inputs that remain, the oldest first. The bench begins at power-up with the plan, and its ticks take the rows of the
/// log. A line `quit` ends the commands, and nothing more is read. A record with a clock is the record without one whose
/// first line sets that clock; only the numbers of its lines differ.
///
/// Each line that is no command, or that is refused, is told on `errors` by a line, `command 12: pattern 99: refused E9
/// NoSuchPattern` or `command 12: patern 1: bad command`: the number is that of its line, from 1, and lines that are
/// skipped count too. Of its own text at most 200 bytes are told, with `?` for each that is no printable ASCII. What is
/// told goes out before the next read. The first such line ends a strict record (`OnFault::Stop`), which has no events
/// then, and nothing more is read. What a command only asks is not answered. The events are those of a log of the form
/// that is asked for (`LogForm`).
///
/// A fault ends the record; what was told until then is a prefix of what is to be told. `Read` comes exactly where a read
/// has failed, and `Write` exactly where a write or a flush has. `TooLarge` comes where there is a byte after the first
/// 16 MiB, once the whole lines within them were carried out, and `Memory` where there is none for the bench at
/// power-up, or for its clock and what follows that: nothing was read then. Where there is none for the events of an
/// input it is refused with E1.
pub fn record<R: Read, E: Write>(
    alloc: Global,
    plan: Checked,
    log: &Log,
    options: RecordOptions,
    reader: &mut Watched<R>,
    errors: &mut Watched<E>,
) -> Result<Outcome, SessionError>
    requires reads { reader.old.failed ≡ false }
    requires writes { errors.old.failed ≡ false }
    requires flushed { errors.old.flushed ≡ true }
    ensures ended { EndedFrom result options.on_fault options.form (record { plan = checked_plan plan; log = log.now; acts = options.acts; is_wide = false }) options.clock
        (R.remaining reader.old.device) (R.remaining reader.new.device) (E.contents errors.old.device) (E.contents errors.new.device) }
    ensures blame { Blames result reader.new.failed errors.new.failed errors.new.flushed }
{
    let Ok(bench) = Bench::power_up(alloc, plan) else {
        return Err(SessionError::Memory);
    };
    let rows = Rows::OfLog { log, place: 0 };
    let mut begun = Course::new(
        alloc,
        bench,
        rows,
        Mode::Recording(options.form),
        options.acts,
    );
    match set_clock(&mut begun, options.clock) {
        Ok(()) => carried_out(begun, options.on_fault, reader, errors),
        Err(fault) => {
            drop(begun);
            Err(fault)
        }
    }
}
