//! Answers to commands.

ghost use Rattle.std.specs.Prelude.{[], ◌≡◌, ◌⊎◌, ◌++◌, List, None, Ok, OnOk, Some, false};
ghost use Rattle.tsb_bench.specs.tsb_step.declared.inputs.Input.{Input as InputValue};
ghost use Rattle.tsb_bench.specs.Held.{state_of};
ghost use Rattle.tsb_log_text.specs.declared.log.LogRow.{LogRow};
ghost use Rattle.tsb_text.specs.Answers.{Setup, line_in, refused_after, refused_line, told};
ghost use Rattle.tsb_text.specs.Obeyed.{AsksNext, Done, Stands, besides_of, news_in, tells_in};
ghost use Rattle.tsb_text.specs.Obeys.{AsksOnce, Obeys, TakesTicks, before_line, refusal_in};
ghost use Rattle.tsb_text.specs.Tasks.{task_of};
ghost use Rattle.tsb_text.specs.Trails.{Trailing, Trails};
ghost use Rattle.tsb_text.specs.Wanting.{IsWanting, WantsAfter, WantsFollower, WantsFor, WantsTo, tick_of};
ghost use Rattle.tsb_objects.specs.tsb_types.declared.refusal.Refusal.TheVariants.{Memory};
ghost use Rattle.tsb_dialog.specs.Blame.{AfterCalls};
ghost use Rattle.tsb_dialog.specs.Said.{SaidUntilFault, with_feed};

use crate::course::Course;
use crate::lines::{line_text, refused_line, taken_line, undone_line, when_line};
use crate::task::{Task, task_of};
use std::io::Write;
use tsb_bench::{Answer, Cmd, Input};
use tsb_command_text::Command;
use tsb_dialog::{Pending, Watched, WriteError};
use tsb_display_text::LineMaker;
use tsb_objects::Refusal;

/// Carries out a command, says its answer, and tells why it was refused, if it was. Its `lines`
/// makes display lines; `echo` is said before an answer that is no display line. At an error the
/// command may have been carried out, and a first part of its answer was said. It is refused with E1
/// only where there is no room for an input.
pub fn obey<W: Write>(
    course: &mut Course,
    lines: &mut LineMaker,
    command: Command,
    echo: &[u8],
    pending: &mut Pending,
    writer: &mut Watched<W>,
) -> Result<Option<Refusal>, WriteError>
    ensures done { (given : Setup) (log : List LogRow) (inputs : List InputValue) → Stands given log course.old inputs
        → Done result given log course.new (Obeys given (besides_of course.old echo.now) inputs (task_of command)) (W.contents writer.old.device) (W.contents writer.new.device) pending.old pending.new }
    ensures wanting { result ≡ Ok (Some Memory) → WantsFor course.new (task_of command) }
    ensures rows { course.new.rows ≡ course.old.rows }
    ensures mode { course.new.mode ≡ course.old.mode }
    ensures blame { writer.old.failed ≡ false → AfterCalls result writer.new.failed }
{
    match task_of(command) {
        Task::Ticks(ticks) => step(course, lines, ticks, echo, pending, writer),
        Task::Show => {
            course.make_line(lines);
            pending.say(writer, lines.as_bytes())?;
            Ok(None)
        }
        Task::Quit => Ok(None),
        Task::Ask(command) => ask(course, lines, command, echo, pending, writer),
    }
}

/// So many ticks, with a display line after each, up to one that is refused.
fn step<W: Write>(
    course: &mut Course,
    lines: &mut LineMaker,
    ticks: u32,
    echo: &[u8],
    pending: &mut Pending,
    writer: &mut Watched<W>,
) -> Result<Option<Refusal>, WriteError>
    ensures done { (given : Setup) (log : List LogRow) (inputs : List InputValue) → Stands given log course.old inputs
        → Done result given log course.new (TakesTicks given (besides_of course.old echo.now) inputs ticks) (W.contents writer.old.device) (W.contents writer.new.device) pending.old pending.new }
    ensures wanting { result ≡ Ok (Some Memory) → IsWanting course.new (tick_of course.new) ⊎ WantsFollower course.new }
    ensures rows { course.new.rows ≡ course.old.rows }
    ensures mode { course.new.mode ≡ course.old.mode }
    ensures blame { writer.old.failed ≡ false → AfterCalls result writer.new.failed }
{
    for _i in 0..ticks {
        match course.tick() {
            Ok(()) => match say_tick(course, lines, echo, pending, writer)? {
                Some(refusal) => return Ok(Some(refusal)),
                None => {}
            },
            Err(refusal) => return say_refusal(&refusal, echo, pending, writer),
        }
    }
    Ok(None)
}

/// Says the events of a tick, takes what follows it and says the events of that, and says the display line after the tick.
/// Where what follows is refused, it says so and gives why.
fn say_tick<W: Write>(
    course: &mut Course,
    lines: &mut LineMaker,
    echo: &[u8],
    pending: &mut Pending,
    writer: &mut Watched<W>,
) -> Result<Option<Refusal>, WriteError>
    ensures done { (given : Setup) (log : List LogRow) (inputs : List InputValue) → Stands given log course.old inputs
        → Done result given log course.new (Trails given (besides_of course.old echo.now) inputs course.old.next (news_in course.old) (line_in given.is_wide (state_of course.old.bench))) (W.contents writer.old.device) (W.contents writer.new.device) pending.old pending.new }
    ensures wanting { result ≡ Ok (Some Memory) → WantsAfter course.new course.old.next }
    ensures rows { course.new.rows ≡ course.old.rows }
    ensures mode { course.new.mode ≡ course.old.mode }
    ensures acts { course.new.acts ≡ course.old.acts }
    ensures blame { writer.old.failed ≡ false → AfterCalls result writer.new.failed }
{
    course.say_news(pending, writer)?;
    course.make_line(lines);
    let refusal = follow(course, pending, writer)?;
    pending.say(writer, lines.as_bytes())?;
    say_if_refused(refusal, echo, pending, writer)
}

/// Takes what follows the newest input, one after another, and says the events of each. It gives why one was refused, if it
/// was.
pub fn follow<W: Write>(
    course: &mut Course,
    pending: &mut Pending,
    writer: &mut Watched<W>,
) -> Result<Option<Refusal>, WriteError>
    ensures done { (given : Setup) (log : List LogRow) (inputs : List InputValue) → Stands given log course.old inputs
        → Done result given log course.new (Trailing given (tells_in course.old.mode) inputs course.old.next) (W.contents writer.old.device) (W.contents writer.new.device) pending.old pending.new }
    ensures wanting { result ≡ Ok (Some Memory) → WantsAfter course.new course.old.next }
    ensures next { OnOk result (course.new.next ≡ []) }
    ensures rows { course.new.rows ≡ course.old.rows }
    ensures mode { course.new.mode ≡ course.old.mode }
    ensures acts { course.new.acts ≡ course.old.acts }
    ensures blame { writer.old.failed ≡ false → AfterCalls result writer.new.failed }
{
    loop {
        match course.follow() {
            Ok(true) => course.say_news(pending, writer)?,
            Ok(false) => return Ok(None),
            Err(refusal) => return Ok(Some(refusal)),
        }
    }
}

/// Says that what follows an input was refused, if it was, and gives why.
fn say_if_refused<W: Write>(
    refusal: Option<Refusal>,
    echo: &[u8],
    pending: &mut Pending,
    writer: &mut Watched<W>,
) -> Result<Option<Refusal>, WriteError>
    ensures said { SaidUntilFault result (W.contents writer.old.device) (W.contents writer.new.device) pending.old pending.new (refused_after echo.now refusal) }
    ensures told { OnOk result (result ≡ Ok refusal) }
    ensures blame { writer.old.failed ≡ false → AfterCalls result writer.new.failed }
{
    match refusal {
        Some(refusal) => say_refusal(&refusal, echo, pending, writer),
        None => Ok(None),
    }
}

/// Says that something was refused, and tells why.
pub fn say_refusal<W: Write>(
    refusal: &Refusal,
    echo: &[u8],
    pending: &mut Pending,
    writer: &mut Watched<W>,
) -> Result<Option<Refusal>, WriteError>
    ensures said { SaidUntilFault result (W.contents writer.old.device) (W.contents writer.new.device) pending.old pending.new (echo.now ++ with_feed (refused_line refusal.now)) }
    ensures told { OnOk result (result ≡ Ok (Some refusal.now)) }
    ensures blame { writer.old.failed ≡ false → AfterCalls result writer.new.failed }
{
    pending.add(writer, echo)?;
    pending.say(writer, refused_line(*refusal))?;
    Ok(Some(*refusal))
}

/// Asks the bench, takes what follows, says its answer, and tells why it refused an input, if it did.
fn ask<W: Write>(
    course: &mut Course,
    lines: &mut LineMaker,
    command: Cmd,
    echo: &[u8],
    pending: &mut Pending,
    writer: &mut Watched<W>,
) -> Result<Option<Refusal>, WriteError>
    ensures done { (given : Setup) (log : List LogRow) (inputs : List InputValue) → Stands given log course.old inputs → AsksNext course.old.mode given inputs command
        → Done result given log course.new (AsksOnce given (besides_of course.old echo.now) inputs command) (W.contents writer.old.device) (W.contents writer.new.device) pending.old pending.new }
    ensures wanting { result ≡ Ok (Some Memory) → WantsTo course.new command ⊎ WantsFollower course.new }
    ensures mode { course.new.mode ≡ course.old.mode }
    ensures rows { course.new.rows ≡ course.old.rows }
    ensures blame { writer.old.failed ≡ false → AfterCalls result writer.new.failed }
{
    let answer = course.answer(command);
    match refusal_in(&answer) {
        Some(refusal) => return say_refusal(&refusal, echo, pending, writer),
        None => {}
    }
    say_before(course, &answer, echo, pending, writer)?;
    let stop = follow(course, pending, writer)?;
    say_answer(course, lines, &command, &answer, pending, writer)?;
    say_if_refused(stop, echo, pending, writer)
}

/// Says what stands before the line of an answer.
fn say_before<W: Write>(
    course: &Course,
    answer: &Answer,
    echo: &[u8],
    pending: &mut Pending,
    writer: &mut Watched<W>,
) -> Result<(), WriteError>
    ensures said { SaidUntilFault result (W.contents writer.old.device) (W.contents writer.new.device) pending.old pending.new (before_line echo.now answer.now (news_in course.now)) }
    ensures blame { writer.old.failed ≡ false → AfterCalls result writer.new.failed }
{
    match *answer {
        Answer::Took => {
            pending.add(writer, echo)?;
            course.say_news(pending, writer)
        }
        Answer::Moved => Ok(()),
        _ => pending.add(writer, echo),
    }
}

/// Says the line of an answer of the bench to this command.
fn say_answer<W: Write>(
    course: &Course,
    lines: &mut LineMaker,
    command: &Cmd,
    answer: &Answer,
    pending: &mut Pending,
    writer: &mut Watched<W>,
) -> Result<(), WriteError>
    ensures said { SaidUntilFault result (W.contents writer.old.device) (W.contents writer.new.device) pending.old pending.new (with_feed (told course.now.is_wide command.now answer.now (state_of course.now.bench))) }
    ensures blame { writer.old.failed ≡ false → AfterCalls result writer.new.failed }
{
    match *answer {
        Answer::Took => pending.say(writer, taken_line(command, course.bench())),
        Answer::Refused(refusal) => pending.say(writer, refused_line(refusal)),
        Answer::Undone(kind) => pending.say(writer, undone_line(kind)),
        Answer::Moved => {
            let line = line_text(lines, course.is_wide(), course.bench());
            pending.say(writer, line.as_bytes())
        }
        Answer::Nothing => pending.say(writer, b"nothing"),
        Answer::Changed(tick) => pending.say(writer, when_line(tick).as_bytes()),
    }
}

/// Why the bench refused an input, if it did.
pub(crate) fn refusal_in(answer: &Answer) -> Option<Refusal>
    ensures { result ≡ refusal_in answer.now }
{
    match *answer {
        Answer::Refused(refusal) => Some(refusal),
        _ => None,
    }
}
