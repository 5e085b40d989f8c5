//! A live run, line by line.
ghost use Rattle.std.specs.Prelude.{◌≡◌, ◌++◌, None, Some, false, true, vec_items};
ghost use Rattle.tsb_dialog.specs.Blame.{AfterCalls};
ghost use Rattle.tsb_dialog.specs.Said.{with_feed};
ghost use Rattle.tsb_objects.specs.Checked.{checked_plan};
ghost use Rattle.tsb_command_text.specs.declared.live_command.LiveCommand.TheVariants as asks;
ghost use Rattle.tsb_text.specs.Blame.{Blames};
ghost use Rattle.tsb_text.specs.Faults.{fault_words};
ghost use Rattle.tsb_live_text.specs.saved.Saved.{saved_text};
ghost use Rattle.tsb_live_text.specs.Live.{AsksLive, Live as LiveState, Obeys, Reads, echo_of, fault_by, quits};
ghost use Rattle.tsb_live_text.specs.LiveEnded.{LiveEnded, ended_with};
ghost use Rattle.tsb_bench.specs.Held.{state_of};
ghost use Rattle.tsb_live_text.specs.GoTo as moments;
ghost use Rattle.tsb_live_text.specs.Standing.{Does, StandsLive, TellsMade, TellsOnce, TellsTickOnce};

use crate::changes::changes;
use crate::go_to::{command_to, tick_of};
use crate::help::HELP;
use crate::say_saved;
use arrayvec::ArrayVec;
use std::alloc::{AllocError, Global};
use std::io::{Read, Write};
use tsb_bench::Bench;
use tsb_command_text::{Aim, Command, LiveCommand, LiveReading, live_reading_of};
use tsb_dialog::{Answers, DialogError, Flow, Pending, Watched, WriteError, converse};
use tsb_display_text::LineMaker;
use tsb_objects::{Checked, Refusal};
use tsb_status_text::{edits_line, plan_line, status_line};
use tsb_text::{
    Course, LineFault, Mode, OnFault, Rows, SessionError, Stop, fault_of, fault_words, flow_after,
    front_of, obey, stop_at, when_line,
};
use tsb_types::Row;

/// The greatest length of the lines of a live run, in bytes: 1 GiB.
pub const BYTES: usize = 1_073_741_824;

/// The greatest length of what stands before an answer: `> `, 200 bytes of a line and a line feed.
const ECHO: usize = 203;

/// A live run between two lines.
#[derive(Drop)]
struct LiveRun<'a> {
    alloc: Global,
    /// The bench, with what is kept of its inputs. Its ticks take the row last given; all inputs are off before the first.
    course: Course<'a>,
    /// What makes its display lines.
    lines: LineMaker,
    /// Whether answers that are no display lines stand after their command.
    echoes: bool,
    /// What the run does after a line with which something is wrong.
    on_fault: OnFault,
    /// The line that ended it.
    stop: Option<Stop>,
}

impl Answers for LiveRun<'_> {
    ghost use Rattle.tsb_live_text.specs.Live.{Live, Says};
    ghost use Rattle.tsb_live_text.specs.Standing.{StandsLive};

    ghost State = { Live };

    ghost stands = { StandsLive };

    ghost says = { Says };

    fn answer<W: Write>(
        &mut self,
        number: u32,
        line: &[u8],
        pending: &mut Pending,
        writer: &mut Watched<W>,
    ) -> Result<Flow, WriteError> {
        let reading = live_reading_of(line);
        let fault = self.read(&reading, line, pending, writer)?;
        self.stop = stop_at(self.on_fault, number, line, fault);
        Ok(flow_after(quits(&reading), &self.stop))
    }
}

impl LiveRun<'_> {
    /// Answers what a line asks, and tells what is wrong with it, if something is.
    fn read<W: Write>(
        &mut self,
        reading: &LiveReading,
        line: &[u8],
        pending: &mut Pending,
        writer: &mut Watched<W>,
    ) -> Result<Option<LineFault>, WriteError>
        ensures done { (s : LiveState) → StandsLive self.old s
            → Does result self.new (Reads s line.now reading.now) (W.contents writer.old.device) (W.contents writer.new.device) pending.old pending.new }
        ensures strict { self.new.on_fault ≡ self.old.on_fault }
        ensures blame { writer.old.failed ≡ false → AfterCalls result writer.new.failed }
    {
        match *reading {
            LiveReading::Skip => Ok(None),
            LiveReading::Bad => {
                let echo = self.echo(line);
                tell_fault(&echo, &LineFault::BadCommand, pending, writer)
            }
            LiveReading::Tick(row) => {
                self.course.hold(row);
                self.obey(Command::Step(1), line, pending, writer)
            }
            LiveReading::Ask(command) => self.ask(command, line, pending, writer),
        }
    }

    /// What stands before an answer to this line that is no display line.
    fn echo(&self, line: &[u8]) -> ArrayVec<u8, ECHO>
        ensures { result.items ≡ echo_of self.now.echoes line.now }
    {
        let mut echo = ArrayVec::new();
        if self.echoes {
            let _ = echo.try_extend_from_slice(b"> ");
            let _ = echo.try_extend_from_slice(&front_of(line));
            echo.push(b'\n');
        }
        echo
    }

    /// Carries out a command of `tsb run`. Its ticks have the row last given.
    fn obey<W: Write>(
        &mut self,
        command: Command,
        line: &[u8],
        pending: &mut Pending,
        writer: &mut Watched<W>,
    ) -> Result<Option<LineFault>, WriteError>
        ensures done { (s : LiveState) → StandsLive self.old s
            → Does result self.new (Obeys s line.now command) (W.contents writer.old.device) (W.contents writer.new.device) pending.old pending.new }
        ensures strict { self.new.on_fault ≡ self.old.on_fault }
        ensures blame { writer.old.failed ≡ false → AfterCalls result writer.new.failed }
    {
        let echo = self.echo(line);
        let refusal = obey(
            &mut self.course,
            &mut self.lines,
            command,
            &echo,
            pending,
            writer,
        )?;
        Ok(fault_by(refusal))
    }

    /// Carries out a command.
    fn ask<W: Write>(
        &mut self,
        command: LiveCommand,
        line: &[u8],
        pending: &mut Pending,
        writer: &mut Watched<W>,
    ) -> Result<Option<LineFault>, WriteError>
        ensures done { (s : LiveState) → StandsLive self.old s
            → Does result self.new (AsksLive s line.now command) (W.contents writer.old.device) (W.contents writer.new.device) pending.old pending.new }
        ensures strict { self.new.on_fault ≡ self.old.on_fault }
        ensures blame { writer.old.failed ≡ false → AfterCalls result writer.new.failed }
    {
        let echo = self.echo(line);
        match command {
            LiveCommand::Session(command) => self.obey(command, line, pending, writer),
            LiveCommand::Changes(ticks) => self.changes(ticks, line, pending, writer),
            LiveCommand::GoTo(aim) => self.go_to(aim, line, pending, writer),
            LiveCommand::Plan => {
                let plan = plan_line(self.alloc, self.course.bench().plan());
                tell_plan(plan, &echo, pending, writer)
            }
            LiveCommand::Status => {
                let status = status_line(&self.course.bench().status());
                tell(&echo, status.as_bytes(), None, pending, writer)
            }
            LiveCommand::Edits => {
                let edits = edits_line(self.course.bench().desk());
                tell(&echo, edits.as_bytes(), None, pending, writer)
            }
            LiveCommand::When(which) => {
                let change = when_line(self.course.kept().last_change(which));
                tell(&echo, change.as_bytes(), None, pending, writer)
            }
            LiveCommand::TickAt(aim) => tell_tick(self.tick_of(aim), &echo, pending, writer),
            LiveCommand::Events(on) => {
                self.course.tell(on);
                tell(&echo, b"ok", None, pending, writer)
            }
            LiveCommand::Echo(on) => {
                self.echoes = on;
                tell(&echo, b"ok", None, pending, writer)
            }
            LiveCommand::Lines(is_wide) => {
                self.course.lay_lines(is_wide);
                tell(&echo, b"ok", None, pending, writer)
            }
            LiveCommand::Save => self.tell_saved(&echo, pending, writer),
            LiveCommand::Help => tell(&echo, HELP, None, pending, writer),
        }
    }

    /// Takes so many ticks with the row last given, and tells the changes.
    fn changes<W: Write>(
        &mut self,
        ticks: u32,
        line: &[u8],
        pending: &mut Pending,
        writer: &mut Watched<W>,
    ) -> Result<Option<LineFault>, WriteError>
        ensures done { (s : LiveState) → StandsLive self.old s
            → Does result self.new (AsksLive s line.now (asks.Changes ticks)) (W.contents writer.old.device) (W.contents writer.new.device) pending.old pending.new }
        ensures strict { self.new.on_fault ≡ self.old.on_fault }
        ensures blame { writer.old.failed ≡ false → AfterCalls result writer.new.failed }
    {
        let echo = self.echo(line);
        let refusal = changes(
            &mut self.course,
            &mut self.lines,
            ticks,
            &echo,
            pending,
            writer,
        )?;
        Ok(fault_by(refusal))
    }

    /// The first tick at or after a moment of the clock, or what is wrong with a line that asks for it.
    fn tick_of(&self, aim: Aim) -> Result<u32, LineFault>
        ensures { result ≡ moments.tick_of (state_of self.now.course.bench).start_moment self.now.course.bench.tick aim }
    {
        let bench = self.course.bench();
        tick_of(bench.start_moment(), bench.now(), aim)
    }

    /// Takes ticks with the row last given, or goes back, up to a moment of the clock.
    fn go_to<W: Write>(
        &mut self,
        aim: Aim,
        line: &[u8],
        pending: &mut Pending,
        writer: &mut Watched<W>,
    ) -> Result<Option<LineFault>, WriteError>
        ensures done { (s : LiveState) → StandsLive self.old s
            → Does result self.new (AsksLive s line.now (asks.GoTo aim)) (W.contents writer.old.device) (W.contents writer.new.device) pending.old pending.new }
        ensures strict { self.new.on_fault ≡ self.old.on_fault }
        ensures blame { writer.old.failed ≡ false → AfterCalls result writer.new.failed }
    {
        match self.tick_of(aim) {
            Ok(tick) => {
                let command = command_to(self.course.bench().now(), tick);
                self.obey(command, line, pending, writer)
            }
            Err(fault) => {
                let echo = self.echo(line);
                tell_fault(&echo, &fault, pending, writer)
            }
        }
    }

    /// Tells the log and the commands by which `tsb run` comes to the present state.
    fn tell_saved<W: Write>(
        &self,
        echo: &[u8],
        pending: &mut Pending,
        writer: &mut Watched<W>,
    ) -> Result<Option<LineFault>, WriteError>
        ensures told { TellsOnce result None (echo.now ++ with_feed (saved_text self.now.course.kept.kept self.now.course.bench.tick)) (W.contents writer.old.device) (W.contents writer.new.device) pending.old pending.new }
        ensures blame { writer.old.failed ≡ false → AfterCalls result writer.new.failed }
    {
        pending.add(writer, echo)?;
        say_saved(
            self.course.kept(),
            self.course.bench().now(),
            pending,
            writer,
        )?;
        Ok(None)
    }
}

/// Says the line of a plan, behind `echo`; or that there was no memory for it, exactly where there was none.
fn tell_plan<W: Write>(
    line: Result<Vec<u8>, AllocError>,
    echo: &[u8],
    pending: &mut Pending,
    writer: &mut Watched<W>,
) -> Result<Option<LineFault>, WriteError>
    ensures told { TellsMade vec_items line result echo.now (W.contents writer.old.device) (W.contents writer.new.device) pending.old pending.new }
    ensures blame { writer.old.failed ≡ false → AfterCalls result writer.new.failed }
{
    match line {
        Ok(line) => tell(echo, &line, None, pending, writer),
        Err(_) => {
            let fault = LineFault::Refused(Refusal::Memory);
            tell_fault(echo, &fault, pending, writer)
        }
    }
}

/// Says a tick that was found, behind `echo`, or what is wrong with the line that asks for it.
fn tell_tick<W: Write>(
    tick: Result<u32, LineFault>,
    echo: &[u8],
    pending: &mut Pending,
    writer: &mut Watched<W>,
) -> Result<Option<LineFault>, WriteError>
    ensures told { TellsTickOnce tick result echo.now (W.contents writer.old.device) (W.contents writer.new.device) pending.old pending.new }
    ensures blame { writer.old.failed ≡ false → AfterCalls result writer.new.failed }
{
    match tick {
        Ok(tick) => {
            let line = when_line(Some(tick));
            tell(echo, line.as_bytes(), None, pending, writer)
        }
        Err(fault) => tell_fault(echo, &fault, pending, writer),
    }
}

/// Says what is wrong with a line, behind `echo`.
fn tell_fault<W: Write>(
    echo: &[u8],
    fault: &LineFault,
    pending: &mut Pending,
    writer: &mut Watched<W>,
) -> Result<Option<LineFault>, WriteError>
    ensures told { TellsOnce result (Some fault.now) (echo.now ++ with_feed (fault_words fault.now)) (W.contents writer.old.device) (W.contents writer.new.device) pending.old pending.new }
    ensures blame { writer.old.failed ≡ false → AfterCalls result writer.new.failed }
{
    tell(echo, fault_words(*fault), Some(*fault), pending, writer)
}

/// Says an answer of one line, behind `echo`, to a line with which this is wrong.
fn tell<W: Write>(
    echo: &[u8],
    line: &[u8],
    fault: Option<LineFault>,
    pending: &mut Pending,
    writer: &mut Watched<W>,
) -> Result<Option<LineFault>, WriteError>
    ensures told { TellsOnce result fault (echo.now ++ with_feed line.now) (W.contents writer.old.device) (W.contents writer.new.device) pending.old pending.new }
    ensures blame { writer.old.failed ≡ false → AfterCalls result writer.new.failed }
{
    pending.add(writer, echo)?;
    pending.add(writer, line)?;
    pending.add(writer, b"\n")?;
    Ok(fault)
}

/// What is wrong with a line that is refused, if it is.
fn fault_by(refusal: Option<Refusal>) -> Option<LineFault>
    ensures { result ≡ fault_by refusal }
{
    Some(LineFault::Refused(refusal?))
}

/// Whether a line that reads so is `quit`.
fn quits(reading: &LiveReading) -> bool
    ensures { result ≡ quits reading.now }
{
    match reading {
        LiveReading::Ask(LiveCommand::Session(Command::Quit)) => true,
        _ => false,
    }
}

/// Runs a plan live: reads rows of inputs and commands, and writes their answers, up to a line `quit` or the end of what
/// is read. The bench begins at power-up with the plan, at tick 0, and each row of inputs takes one tick, 0.1 s. A strict
/// run ends as well at the first line that is no command or that is refused, once it was answered, and gives that line.
///
/// What was answered goes out and is passed on before each read, and at the end. A fault ends the run; what was written
/// until then is the beginning of what may be said. `Read` is answered exactly where a read has failed, and `Write`
/// exactly where a write or a flush has. `TooLarge` comes where there is a byte after the first `BYTES`, once the whole lines within them
/// were answered. `Memory` comes where there is none for the bench at power-up: nothing was read then, and nothing
/// written. A run that has begun goes on where memory runs out, and answers E1.
pub fn live<R: Read, W: Write>(
    alloc: Global,
    plan: Checked,
    on_fault: OnFault,
    acts: bool,
    reader: &mut Watched<R>,
    writer: &mut Watched<W>,
) -> Result<Option<Stop>, SessionError>
    requires reads { reader.old.failed ≡ false }
    requires writes { writer.old.failed ≡ false }
    requires flushed { writer.old.flushed ≡ true }
    ensures ended { LiveEnded result on_fault acts (checked_plan plan) (R.remaining reader.old.device) (R.remaining reader.new.device) (W.contents writer.old.device) (W.contents writer.new.device) }
    ensures blame { Blames result reader.new.failed writer.new.failed writer.new.flushed }
{
    let Ok(bench) = Bench::power_up(alloc, plan) else {
        return Err(SessionError::Memory);
    };
    let lines = LineMaker::new(&bench.display());
    let mut run = LiveRun {
        alloc,
        course: Course::new(
            alloc,
            bench,
            Rows::Held(Row::all_off()),
            Mode::Keeping,
            acts,
        ),
        lines,
        echoes: false,
        on_fault,
        stop: None,
    };
    let ended = converse(&mut run, BYTES, reader, writer);
    ended_with(ended, run.stop)
}

/// How a run ends whose dialog ended so, with the line that ended it, if one did.
fn ended_with(
    ended: Result<(), DialogError>,
    stop: Option<Stop>,
) -> Result<Option<Stop>, SessionError>
    ensures { result ≡ ended_with ended stop }
{
    match ended {
        Ok(()) => Ok(stop),
        Err(fault) => Err(fault_of(fault)),
    }
}
