//! Sessions: commands in, answers out.

ghost use Rattle.std.specs.Prelude.{◌≡◌, false, true};
ghost use Rattle.tsb_objects.specs.Checked.{checked_plan};
ghost use Rattle.tsb_text.specs.Blame.{Blames};
ghost use Rattle.tsb_text.specs.Ended.{Ended};
ghost use Rattle.tsb_text.specs.Replies.{as_session, flow_after};

use crate::answers::obey;
use crate::course::{Course, Mode};
use crate::error::{SessionError, fault_of};
use crate::rows::Rows;
use std::alloc::Global;
use std::io::{Read, Write};
use tsb_bench::Bench;
use tsb_command_text::{Command, LINE, Reading, reading_of};
use tsb_dialog::{Answers, DialogError, Flow, KEPT, Pending, Watched, WriteError, converse};
use tsb_display_text::LineMaker;
use tsb_log_text::Log;
use tsb_objects::Checked;

/// The greatest length of the commands of a session, in bytes: 16 MiB.
pub const COMMANDS: usize = 16_777_216;

// Of a line a dialog keeps one byte more than its greatest length, and the carriage return after it.
const _: () = prove!(KEPT == LINE + 2);

/// A bench that does what lines ask.
#[derive(Drop)]
struct SessionRun<'a> {
    course: Course<'a>,
    lines: LineMaker,
}

impl Answers for SessionRun<'_> {
    ghost use Rattle.tsb_text.specs.Obeyed.{StandsPlain};
    ghost use Rattle.tsb_text.specs.Replies.{Stand, says};

    ghost State = { Stand };

    ghost stands = { λ machine stand. StandsPlain stand.given stand.given.log machine.course stand.inputs };

    ghost says = { says };

    fn answer<W: Write>(
        &mut self,
        _number: u32,
        line: &[u8],
        pending: &mut Pending,
        writer: &mut Watched<W>,
    ) -> Result<Flow, WriteError> {
        match reading_of(line) {
            Reading::Skip => Ok(Flow::On),
            Reading::Bad => {
                pending.say(writer, b"bad command")?;
                Ok(Flow::On)
            }
            Reading::Lines(is_wide) => {
                self.course.lay_lines(is_wide);
                pending.say(writer, b"ok")?;
                Ok(Flow::On)
            }
            Reading::Do(command) => {
                let flow = flow_after(&command);
                obey(
                    &mut self.course,
                    &mut self.lines,
                    command,
                    b"",
                    pending,
                    writer,
                )?;
                Ok(flow)
            }
        }
    }
}

/// Whether a session goes on after a command.
fn flow_after(command: &Command) -> Flow
    ensures { result ≡ flow_after command.now }
{
    match command {
        Command::Quit => Flow::Over,
        _ => Flow::On,
    }
}

/// How a session ends whose dialog ended so.
fn as_session(ended: Result<(), DialogError>) -> Result<(), SessionError>
    ensures { result ≡ as_session ended }
{
    match ended {
        Ok(()) => Ok(()),
        Err(fault) => Err(fault_of(fault)),
    }
}

/// Runs a session: reads commands, and writes their answers, up to a line `quit` or the end of what is read. The bench
/// begins at power-up with the plan, and its ticks take the rows of the log. Where `acts`, the schedule of the plan gives
/// inputs as well.
///
/// What was answered goes out and is passed on before each read, and at the end. A fault ends the session; what was
/// written until then is a prefix of its text. `Read` is answered exactly where a read has failed, and `Write` exactly
/// where a write or a flush has. `TooLarge` comes where there is a byte after the first 16 MiB, once the whole lines within them were
/// answered. `Memory` comes where there is none for the bench at power-up: nothing was read then, and nothing written.
pub fn session<R: Read, W: Write>(
    alloc: Global,
    plan: Checked,
    log: &Log,
    acts: bool,
    reader: &mut Watched<R>,
    writer: &mut Watched<W>,
) -> Result<(), SessionError>
    requires reads { reader.old.failed ≡ false }
    requires writes { writer.old.failed ≡ false }
    requires flushed { writer.old.flushed ≡ true }
    ensures ended { Ended result (record { plan = checked_plan plan; log = log.now; acts = acts; is_wide = false })
        (R.remaining reader.old.device) (R.remaining reader.new.device) (W.contents writer.old.device) (W.contents writer.new.device) }
    ensures blame { Blames result reader.new.failed writer.new.failed writer.new.flushed }
{
    let Ok(bench) = Bench::power_up(alloc, plan) else {
        return Err(SessionError::Memory);
    };
    let rows = Rows::OfLog { log, place: 0 };
    let lines = LineMaker::new(&bench.display());
    let mut machine = SessionRun {
        course: Course::new(alloc, bench, rows, Mode::Plain, acts),
        lines,
    };
    as_session(converse(&mut machine, COMMANDS, reader, writer))
}
