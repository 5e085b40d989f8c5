//! The commands of a record: what they ask is done as in a session, and not answered.
ghost use Rattle.std.specs.Prelude.{◌≡◌, ◌⊎◌, List, Some};
ghost use Rattle.tsb_step.specs.declared.inputs.Input.{Input as InputValue};
ghost use Rattle.tsb_log_text.specs.declared.log.LogRow.{LogRow};
ghost use Rattle.tsb_text.specs.Answers.{Setup};
ghost use Rattle.tsb_text.specs.Obeyed.{AsksNext, FollowedAll, Stands};
ghost use Rattle.tsb_text.specs.declared.task.Task.TheVariants as tasks;
ghost use Rattle.tsb_text.specs.recording.Leaves.{Does, Leaves, LeavesOf};
ghost use Rattle.tsb_text.specs.recording.Recording.{Left};
ghost use Rattle.tsb_text.specs.Tasks.{task_of};
ghost use Rattle.tsb_text.specs.Wanting.{IsWanting, WantsAfter, WantsFollower, WantsFor, WantsTo, tick_of};
ghost use Rattle.tsb_types.specs.declared.refusal.Refusal.TheVariants.{Memory};

use crate::answers::refusal_in;
use crate::task::{Task, task_of};
use crate::{Course, LineFault};
use tsb_command_text::{Command, Reading};
use tsb_step::Cmd;
use tsb_types::Refusal;

/// Carries out a line that reads so, and says what is wrong with it, if anything.
pub(crate) fn carry_out(course: &mut Course, reading: Reading) -> Option<LineFault>
    ensures done { (given : Setup) (log : List LogRow) (inputs : List InputValue) → Stands given log course.old inputs → Left result given log course.new (Does given inputs reading) }
    ensures mode { course.new.mode ≡ course.old.mode }
{
    match reading {
        Reading::Skip => None,
        Reading::Bad => Some(LineFault::BadCommand),
        Reading::Lines(_) => None,
        Reading::Do(command) => match obey(course, command) {
            Some(refusal) => Some(LineFault::Refused(refusal)),
            None => None,
        },
    }
}

/// Carries out a command, and says why it was refused, where it was: with E1 only where there is no room for an input.
fn obey(course: &mut Course, command: Command) -> Option<Refusal>
    ensures done { (given : Setup) (log : List LogRow) (inputs : List InputValue) → Stands given log course.old inputs → Left result given log course.new (Leaves given inputs command) }
    ensures wanting { result ≡ Some Memory → WantsFor course.new (task_of command) }
    ensures mode { course.new.mode ≡ course.old.mode }
{
    match task_of(command) {
        Task::Ticks(ticks) => step(course, ticks),
        Task::Ask(command) => ask(course, command),
        Task::Show => None,
        Task::Quit => None,
    }
}

/// So many ticks, up to one that is refused.
fn step(course: &mut Course, ticks: u32) -> Option<Refusal>
    ensures done { (given : Setup) (log : List LogRow) (inputs : List InputValue) → Stands given log course.old inputs → Left result given log course.new (LeavesOf given inputs (tasks.Ticks ticks)) }
    ensures wanting { result ≡ Some Memory → IsWanting course.new (tick_of course.new) ⊎ WantsFollower course.new }
    ensures mode { course.new.mode ≡ course.old.mode }
{
    for _i in 0..ticks {
        match course.tick() {
            Ok(()) => {}
            Err(refusal) => return Some(refusal),
        }
        match follow_all(course) {
            None => {}
            Some(refusal) => return Some(refusal),
        }
    }
    None
}

/// Asks the bench, and says why it refused an input, where it did. A question is not asked: it changes nothing.
fn ask(course: &mut Course, command: Cmd) -> Option<Refusal>
    ensures done { (given : Setup) (log : List LogRow) (inputs : List InputValue) → Stands given log course.old inputs → AsksNext course.old.mode given inputs command
        → Left result given log course.new (LeavesOf given inputs (tasks.Ask command)) }
    ensures wanting { result ≡ Some Memory → WantsTo course.new command ⊎ WantsFollower course.new }
    ensures mode { course.new.mode ≡ course.old.mode }
{
    match command {
        Cmd::When(_) => None,
        _ => match refusal_in(&course.answer(command)) {
            Some(refusal) => Some(refusal),
            None => follow_all(course),
        },
    }
}

/// Takes all that follows the newest input, one after another, up to what is refused. It gives why that was, if it was.
pub(crate) fn follow_all(course: &mut Course) -> Option<Refusal>
    ensures followed { (given : Setup) (log : List LogRow) (inputs : List InputValue) → Stands given log course.old inputs → FollowedAll result given log course.old.next course.new inputs }
    ensures wanting { result ≡ Some Memory → WantsAfter course.new course.old.next }
    ensures mode { course.new.mode ≡ course.old.mode }
{
    loop {
        match course.follow() {
            Ok(true) => {}
            Ok(false) => return None,
            Err(refusal) => return Some(refusal),
        }
    }
}
