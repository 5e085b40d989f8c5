//! A bench, with what is kept and told of the inputs that it takes.
ghost use Rattle.std.specs.Prelude.{◌≡◌, ◌≤◌, ◌+◌, ◌∷◌, [], Err, IfErr, List, OnErr, OnOk, false, length, true};
ghost use Rattle.tsb_bench.specs.Held.{state_of, whole};
ghost use Rattle.tsb_bench.specs.tsb_history.History.{Change};
ghost use Rattle.tsb_bench.specs.tsb_step.Past.{earlier};
ghost use Rattle.tsb_bench.specs.tsb_step.Step.{last_tick, step};
ghost use Rattle.tsb_text.specs.kept.Kept.{with_input};
ghost use Rattle.tsb_objects.specs.tsb_types.declared.refusal.Refusal.TheVariants.{Memory};
ghost use Rattle.tsb_bench.specs.tsb_machine.declared.commands.Answer.TheVariants.{Refused};
ghost use Rattle.tsb_bench.specs.tsb_step.declared.inputs.Input.{Input as InputValue};
ghost use Rattle.tsb_dialog.specs.Blame.{AfterCalls};
ghost use Rattle.tsb_dialog.specs.Said.{SaidUntilFault};
ghost use Rattle.tsb_text.specs.kept.Kept.{DropsOther, LacksRoom, gone_back as kept_back, nothing_kept};
ghost use Rattle.tsb_text.specs.recording.Along.{Wants, with_input as with_told};
ghost use Rattle.tsb_text.specs.recording.Told.{DropsMark, gone_back as told_back, nothing_told};
ghost use Rattle.tsb_log_text.specs.declared.log.LogRow.{LogRow};
ghost use Rattle.tsb_text.specs.declared.course.Mode.TheVariants as modes;
ghost use Rattle.tsb_text.specs.Answers.{Setup, followers, followers_of, line_in, next_tick};
ghost use Rattle.tsb_text.specs.Rows.{rows_in};
ghost use Rattle.tsb_log_text.specs.Logs.{row_at};
ghost use Rattle.tsb_text.specs.Obeyed.{Answered, AsksNext, Followed, FollowsNone, Forgets, ForgetsNewest, IsNext, NextAfter, Stands, Took, holding, laid, mode_with, news_in};
ghost use Rattle.tsb_text.specs.Wanting.{IsWanting, WantsAfter, WantsTo, tick_of};

use crate::Kept;
use crate::events::say_events;
use crate::followers::Followers;
use crate::lines::make_line;
use crate::recording::Told;
use crate::rows::Rows;
use std::alloc::Global;
use std::io::Write;
use std::marker::Model;
use tsb_bench::{Answer, Bench, Cmd, Input, Kind, Noted, answer};
use tsb_dialog::{Pending, Watched, WriteError};
use tsb_display_text::LineMaker;
use tsb_events::Events;
use tsb_objects::{Refusal, Row};
use tsb_step::log_form::LogForm;
use tsb_types::Event;

/// What is done with the inputs that a bench takes, besides.
#[derive(Clone, Copy)]
pub enum Mode {
    /// Nothing.
    Plain,
    /// Those that remain are kept.
    Keeping,
    /// They are kept, and each tells its events.
    Telling,
    /// The events of those that remain are kept, as a log of this form has them.
    Recording(LogForm),
}

/// A bench, with the rows that its ticks take, what is kept or recorded of the inputs that remain, and the events that the
/// newest has. Where the schedule of its plan acts, a pattern follows each input by which another action comes into
/// force, and then the arrows that are omitted, where others are: these are inputs as any other.
#[derive(Drop)]
pub struct Course<'a> {
    bench: Bench,
    rows: Rows<'a>,
    kept: Kept,
    told: Told,
    mode: Mode,
    news: Events,
    /// Whether the schedule of the plan acts.
    acts: bool,
    /// Whether display lines are wide.
    is_wide: bool,
    /// What follows the newest input, until it is taken.
    next: Followers,
}

impl<'a> Model for Course<'a> {
    ghost use Rattle.tsb_text.specs.Obeyed.{OnCourse};
    ghost use Rattle.tsb_text.specs.Rows.{rows_in};

    ghost Value = { OnCourse };

    ghost view = { λ a. record { bench = a.bench; rows = rows_in a.rows; kept = a.kept; told = a.told; mode = a.mode; news = a.news.items; acts = a.acts; is_wide = a.is_wide; next = a.next } };
}

impl<'a> Course<'a> {
    /// A bench that no input has reached, whose ticks take these rows; and whether the schedule of its plan acts.
    pub fn new(alloc: Global, bench: Bench, rows: Rows<'a>, mode: Mode, acts: bool) -> Course<'a>
        ensures bench { result.bench ≡ bench }
        ensures rows { result.rows ≡ rows_in rows.entry }
        ensures kept { result.kept.kept ≡ nothing_kept }
        ensures told { result.told.told ≡ nothing_told }
        ensures mode { result.mode ≡ mode }
        ensures acts { result.acts ≡ acts }
        ensures wide { result.is_wide ≡ false }
        ensures next { result.next ≡ [] }
    {
        Course {
            bench,
            rows,
            kept: Kept::new(alloc),
            told: Told::new(alloc),
            mode,
            news: Events::new(),
            acts,
            is_wide: false,
            next: Followers::none(),
        }
    }

    /// The bench.
    pub fn bench(&self) -> &Bench
        ensures { result.now ≡ self.now.bench }
    {
        &self.bench
    }

    /// Makes the display line, wide or not, without a line feed. The heads are found anew only where a cell has changed, and
    /// all else stays as it was. It takes no memory.
    pub fn make_line(&mut self, lines: &mut LineMaker)
        ensures line { lines.new ≡ line_in self.old.is_wide (state_of self.old.bench) }
        ensures short { length lines.new ≤ 70 }
        ensures same { self.new ≡ self.old }
    {
        make_line(lines, self.is_wide, &mut self.bench)
    }

    /// Whether display lines are wide.
    pub fn is_wide(&self) -> bool
        ensures { result ≡ self.now.is_wide }
    {
        self.is_wide
    }

    /// Has display lines be wide from now on, or not.
    pub fn lay_lines(&mut self, is_wide: bool)
        ensures { self.new ≡ laid is_wide self.old }
    {
        self.is_wide = is_wide;
    }

    /// What is kept of the inputs that remain.
    pub fn kept(&self) -> &Kept
        ensures { result.now ≡ self.now.kept }
    {
        &self.kept
    }

    /// The events that are recorded of the inputs that remain, the oldest first.
    pub fn into_events(self) -> Vec<Event>
        ensures { result.items ≡ self.entry.told.told.events }
    {
        let Course {
            bench,
            kept,
            told,
            ..
        } = self;
        drop(bench);
        drop(kept);
        told.into_events()
    }

    /// Has each tick take this row from now on.
    pub fn hold(&mut self, row: Row)
        ensures { self.new ≡ holding row self.old }
    {
        self.rows = Rows::Held(row);
    }

    /// Has inputs tell their events from now on, or not. Where none are kept, nothing changes.
    pub fn tell(&mut self, on: bool)
        ensures mode { self.new.mode ≡ mode_with on self.old.mode }
        ensures bench { self.new.bench ≡ self.old.bench }
        ensures rows { self.new.rows ≡ self.old.rows }
        ensures kept { self.new.kept ≡ self.old.kept }
        ensures acts { self.new.acts ≡ self.old.acts }
        ensures wide { self.new.is_wide ≡ self.old.is_wide }
        ensures next { self.new.next ≡ self.old.next }
    {
        self.mode = match self.mode {
            Mode::Plain => Mode::Plain,
            Mode::Recording(form) => Mode::Recording(form),
            Mode::Keeping | Mode::Telling => { if on { Mode::Telling } else { Mode::Keeping } }
        };
    }

    /// The row of the next tick.
    #[inline(always)]
    fn next_row(&mut self) -> Row
        ensures row { result ≡ row_at self.old.rows (self.old.bench.tick + 1) }
        ensures same { self.new ≡ self.old }
    {
        let tick = self.bench.now() + 1;
        self.rows.row(tick)
    }

    /// Takes the next tick, with its row. It is refused with E1 only where there is no room for it. What follows it is to
    /// be taken by `follow`.
    #[inline(always)]
    pub fn tick(&mut self) -> Result<(), Refusal>
        ensures took { (given : Setup) (log : List LogRow) (inputs : List InputValue) → Stands given log self.old inputs → Took result given log self.new inputs (next_tick given inputs) }
        ensures next { (given : Setup) (log : List LogRow) (inputs : List InputValue) → Stands given log self.old inputs → OnOk result (self.new.next ≡ followers given inputs (next_tick given inputs)) }
        ensures none { OnErr result (self.new.next ≡ []) }
        ensures wanting { result ≡ Err Memory → IsWanting self.new (tick_of self.new) }
        ensures mode { self.new.mode ≡ self.old.mode }
        ensures rows { self.new.rows ≡ self.old.rows }
    {
        let row = self.next_row();
        self.take(Input::Tick(row))
    }

    /// Takes an input, keeps it, and has it tell its events. Where there is no memory to keep it, it is refused, and
    /// nothing has changed. It is refused with E1 only where there is no room: none in the bench for its record, or none
    /// to keep it. What follows it is to be taken by `follow`.
    #[inline(always)]
    pub fn take(&mut self, input: Input) -> Result<(), Refusal>
        ensures took { (given : Setup) (log : List LogRow) (inputs : List InputValue) → Stands given log self.old inputs → IsNext self.old.mode given inputs input → Took result given log self.new inputs input }
        ensures next { (given : Setup) (log : List LogRow) (inputs : List InputValue) → Stands given log self.old inputs → OnOk result (self.new.next ≡ followers given inputs input) }
        ensures none { OnErr result (self.new.next ≡ []) }
        ensures wanting { result ≡ Err Memory → IsWanting self.new input }
        ensures still { OnErr result (whole self.new.bench ≡ whole self.old.bench) }
        ensures mode { self.new.mode ≡ self.old.mode }
        ensures rows { self.new.rows ≡ self.old.rows }
        ensures acts { self.new.acts ≡ self.old.acts }
        ensures wide { self.new.is_wide ≡ self.old.is_wide }
    {
        if self.may_follow(&input) {
            return self.take_scheduled(input);
        }
        self.next = Followers::none();
        self.take_alone(input)
    }

    /// Whether an input may bring another action of the schedule into force.
    #[inline(always)]
    fn may_follow(&self, input: &Input) -> bool
        ensures none { result ≡ false → self.now.acts ≡ true → FollowsNone self.now.bench input.now }
        ensures acts { result ≡ true → self.now.acts ≡ true }
    {
        if !self.acts {
            return false;
        }
        match *input {
            Input::Tick(_) => self.bench.ends_minute(),
            Input::Clock(_) | Input::Commit(_) => true,
            _ => false,
        }
    }

    /// Takes an input that may bring another action of the schedule into force, and finds what follows it.
    #[inline(never)]
    fn take_scheduled(&mut self, input: Input) -> Result<(), Refusal>
        requires acts { self.old.acts ≡ true }
        ensures took { (given : Setup) (log : List LogRow) (inputs : List InputValue) → Stands given log self.old inputs → IsNext self.old.mode given inputs input → Took result given log self.new inputs input }
        ensures next { (given : Setup) (log : List LogRow) (inputs : List InputValue) → Stands given log self.old inputs → OnOk result (self.new.next ≡ followers given inputs input) }
        ensures none { OnErr result (self.new.next ≡ []) }
        ensures wanting { result ≡ Err Memory → IsWanting self.new input }
        ensures still { OnErr result (whole self.new.bench ≡ whole self.old.bench) }
        ensures mode { self.new.mode ≡ self.old.mode }
        ensures rows { self.new.rows ≡ self.old.rows }
        ensures acts { self.new.acts ≡ self.old.acts }
        ensures wide { self.new.is_wide ≡ self.old.is_wide }
    {
        let before = self.bench.action();
        self.next = Followers::none();
        match self.take_alone(input) {
            Ok(()) => {
                self.next = Followers::after(&self.bench, before);
                Ok(())
            }
            Err(refusal) => Err(refusal),
        }
    }

    /// Takes the first of what follows the newest input, if something does: `true` where it has, and then more may follow.
    /// Where it is refused, no more follows.
    pub fn follow(&mut self) -> Result<bool, Refusal>
        ensures followed { (given : Setup) (log : List LogRow) (inputs : List InputValue) → Stands given log self.old inputs → Followed result given log self.old.next self.new inputs }
        ensures next { NextAfter result self.old.next self.new.next }
        ensures wanting { result ≡ Err Memory → WantsAfter self.new self.old.next }
        ensures mode { self.new.mode ≡ self.old.mode }
        ensures rows { self.new.rows ≡ self.old.rows }
        ensures acts { self.new.acts ≡ self.old.acts }
        ensures wide { self.new.is_wide ≡ self.old.is_wide }
    {
        match self.next.pop() {
            None => Ok(false),
            Some(input) => match self.take_alone(input) {
                Ok(()) => Ok(true),
                Err(refusal) => {
                    self.next = Followers::none();
                    Err(refusal)
                }
            },
        }
    }

    /// Takes an input, whatever follows it.
    #[inline(always)]
    fn take_alone(&mut self, input: Input) -> Result<(), Refusal>
        ensures took { (given : Setup) (log : List LogRow) (inputs : List InputValue) → Stands given log self.old inputs → IsNext self.old.mode given inputs input → Took result given log self.new inputs input }
        ensures wanting { result ≡ Err Memory → IsWanting self.new input }
        ensures still { OnErr result (whole self.new.bench ≡ whole self.old.bench) }
        ensures state { OnOk result (state_of self.new.bench ≡ step (state_of self.old.bench) input) }
        ensures mode { self.new.mode ≡ self.old.mode }
        ensures rows { self.new.rows ≡ self.old.rows }
        ensures acts { self.new.acts ≡ self.old.acts }
        ensures wide { self.new.is_wide ≡ self.old.is_wide }
        ensures next { self.new.next ≡ self.old.next }
    {
        match self.mode {
            Mode::Plain => self.bench.apply(input),
            Mode::Keeping => self.take_keeping(input),
            Mode::Telling => self.take_telling(input),
            Mode::Recording(form) => self.take_recording(input, form),
        }
    }

    /// Takes an input, and keeps it. A session keeps none, so this is out of line: its room on the stack takes long to
    /// clear.
    #[inline(never)]
    fn take_keeping(&mut self, input: Input) -> Result<(), Refusal>
        requires keeping { self.old.mode ≡ modes.Keeping }
        ensures took { (given : Setup) (log : List LogRow) (inputs : List InputValue) → Stands given log self.old inputs → IsNext self.old.mode given inputs input → Took result given log self.new inputs input }
        ensures wanting { result ≡ Err Memory → IsWanting self.new input }
        ensures still { OnErr result (whole self.new.bench ≡ whole self.old.bench) }
        ensures state { OnOk result (state_of self.new.bench ≡ step (state_of self.old.bench) input) }
        ensures mode { self.new.mode ≡ self.old.mode }
        ensures rows { self.new.rows ≡ self.old.rows }
        ensures acts { self.new.acts ≡ self.old.acts }
        ensures wide { self.new.is_wide ≡ self.old.is_wide }
        ensures next { self.new.next ≡ self.old.next }
    {
        let tick = self.bench.now();
        match self.bench.apply(input) {
            Ok(()) => self.keep(&input, tick),
            Err(refusal) => Err(refusal),
        }
    }

    /// Takes an input, keeps it, and has it tell its events. It is a function of its own for the same reason.
    #[inline(never)]
    fn take_telling(&mut self, input: Input) -> Result<(), Refusal>
        requires telling { self.old.mode ≡ modes.Telling }
        ensures took { (given : Setup) (log : List LogRow) (inputs : List InputValue) → Stands given log self.old inputs → IsNext self.old.mode given inputs input → Took result given log self.new inputs input }
        ensures wanting { result ≡ Err Memory → IsWanting self.new input }
        ensures still { OnErr result (whole self.new.bench ≡ whole self.old.bench) }
        ensures state { OnOk result (state_of self.new.bench ≡ step (state_of self.old.bench) input) }
        ensures mode { self.new.mode ≡ self.old.mode }
        ensures rows { self.new.rows ≡ self.old.rows }
        ensures acts { self.new.acts ≡ self.old.acts }
        ensures wide { self.new.is_wide ≡ self.old.is_wide }
        ensures next { self.new.next ≡ self.old.next }
    {
        let tick = self.bench.now();
        let last = self.kept.last_row();
        let noted = Noted::usual_after(last);
        match self.bench.apply_telling(input, &noted, &mut self.news) {
            Ok(()) => self.keep(&input, tick),
            Err(refusal) => Err(refusal),
        }
    }

    /// Takes an input, and records its events, as a log of this form has them. Where there is no memory for them it is
    /// refused, and nothing has changed. It is refused with E1 only where there was no room.
    #[inline(never)]
    fn take_recording(&mut self, input: Input, form: LogForm) -> Result<(), Refusal>
        requires recording { self.old.mode ≡ modes.Recording form }
        ensures took { (given : Setup) (log : List LogRow) (inputs : List InputValue) → Stands given log self.old inputs → IsNext self.old.mode given inputs input → Took result given log self.new inputs input }
        ensures wanting { result ≡ Err Memory → IsWanting self.new input }
        ensures still { OnErr result (whole self.new.bench ≡ whole self.old.bench) }
        ensures state { OnOk result (state_of self.new.bench ≡ step (state_of self.old.bench) input) }
        ensures mode { self.new.mode ≡ self.old.mode }
        ensures rows { self.new.rows ≡ self.old.rows }
        ensures acts { self.new.acts ≡ self.old.acts }
        ensures wide { self.new.is_wide ≡ self.old.is_wide }
        ensures next { self.new.next ≡ self.old.next }
    {
        let tick = self.bench.now();
        let row = self.rows.in_force(tick);
        let noted = Noted { form, row };
        match self.bench.apply_telling(input, &noted, &mut self.news) {
            Ok(()) => self.note(&input, tick),
            Err(refusal) => Err(refusal),
        }
    }

    /// Records the events of the input that the bench has just taken, with this tick in force before it. Where there is no
    /// memory for them it is undone.
    fn note(&mut self, input: &Input, tick: u32) -> Result<(), Refusal>
        ensures bench { OnOk result (self.new.bench ≡ self.old.bench) }
        ensures told { OnOk result (self.new.told.told ≡ with_told input.now tick self.old.news self.old.told.told) }
        ensures undone { OnErr result ((newest : Change) (others : List Change) → self.old.bench.records ≡ newest ∷ others
            → whole self.new.bench ≡ earlier (whole self.old.bench) 1) }
        ensures still { OnErr result (self.new.told.told ≡ self.old.told.told) }
        ensures memory { IfErr result (λ e. e ≡ Memory) }
        ensures wanting { OnErr result (Wants input.now self.old.news self.new.told) }
        ensures kept { self.new.kept ≡ self.old.kept }
        ensures mode { self.new.mode ≡ self.old.mode }
        ensures rows { self.new.rows ≡ self.old.rows }
        ensures acts { self.new.acts ≡ self.old.acts }
        ensures wide { self.new.is_wide ≡ self.old.is_wide }
        ensures next { self.new.next ≡ self.old.next }
    {
        if self.told.add(input, tick, &self.news).is_err() {
            let _ = self.bench.undo();
            return Err(Refusal::Memory);
        }
        Ok(())
    }

    /// Keeps the input that the bench has just taken, with this tick in force before it. Where there is no memory to keep
    /// it, it is undone.
    fn keep(&mut self, input: &Input, tick: u32) -> Result<(), Refusal>
        requires in_time { tick ≤ last_tick }
        ensures bench { OnOk result (self.new.bench ≡ self.old.bench) }
        ensures kept { OnOk result (self.new.kept.kept ≡ with_input input.now tick self.old.kept.kept) }
        ensures undone { OnErr result ((newest : Change) (others : List Change) → self.old.bench.records ≡ newest ∷ others
            → whole self.new.bench ≡ earlier (whole self.old.bench) 1) }
        ensures still { OnErr result (self.new.kept ≡ self.old.kept) }
        ensures memory { IfErr result (λ e. e ≡ Memory) }
        ensures wanting { OnErr result (LacksRoom input.now self.new.kept) }
        ensures told { self.new.told ≡ self.old.told }
        ensures mode { self.new.mode ≡ self.old.mode }
        ensures rows { self.new.rows ≡ self.old.rows }
        ensures news { self.new.news ≡ self.old.news }
        ensures acts { self.new.acts ≡ self.old.acts }
        ensures wide { self.new.is_wide ≡ self.old.is_wide }
        ensures next { self.new.next ≡ self.old.next }
    {
        if self.kept.add(input, tick).is_err() {
            let _ = self.bench.undo();
            return Err(Refusal::Memory);
        }
        Ok(())
    }

    /// Asks the bench, and keeps the inputs that remain then. An input is refused with E1 only where there is no room for
    /// it.
    pub fn answer(&mut self, command: Cmd) -> Answer
        ensures right { (given : Setup) (log : List LogRow) (inputs : List InputValue) → Stands given log self.old inputs → AsksNext self.old.mode given inputs command → Answered given log self.new inputs command result }
        ensures wanting { result ≡ Refused Memory → WantsTo self.new command }
        ensures next { (given : Setup) (log : List LogRow) (inputs : List InputValue) → Stands given log self.old inputs → self.new.next ≡ followers_of given inputs command result }
        ensures mode { self.new.mode ≡ self.old.mode }
        ensures rows { self.new.rows ≡ self.old.rows }
        ensures acts { self.new.acts ≡ self.old.acts }
        ensures wide { self.new.is_wide ≡ self.old.is_wide }
    {
        match command {
            Cmd::Apply(input) => match self.take(input) {
                Ok(()) => Answer::Took,
                Err(refusal) => Answer::Refused(refusal),
            },
            _ => {
                self.next = Followers::none();
                let given = answer(&mut self.bench, command);
                self.forget(&given);
                given
            }
        }
    }

    /// Keeps and records no more of the inputs than remain after this answer of the bench.
    fn forget(&mut self, answer: &Answer)
        ensures kept { Forgets kept_back DropsOther answer.now self.old.bench.tick self.old.kept.kept self.new.kept.kept }
        ensures told { Forgets told_back DropsMark answer.now self.old.bench.tick self.old.told.told self.new.told.told }
        ensures bench { self.new.bench ≡ self.old.bench }
        ensures mode { self.new.mode ≡ self.old.mode }
        ensures rows { self.new.rows ≡ self.old.rows }
        ensures acts { self.new.acts ≡ self.old.acts }
        ensures wide { self.new.is_wide ≡ self.old.is_wide }
        ensures next { self.new.next ≡ self.old.next }
    {
        let tick = self.bench.now();
        match *answer {
            Answer::Moved => {
                self.kept.go_back(tick);
                self.told.go_back(tick);
            }
            Answer::Undone(kind) => {
                forget_newest(&mut self.kept, tick, kind);
                untell(&mut self.told, tick, kind);
            }
            _ => {}
        }
    }

    /// Says the events of the newest input, where they are told.
    #[inline(always)]
    pub fn say_news<W: Write>(
        &self,
        pending: &mut Pending,
        writer: &mut Watched<W>,
    ) -> Result<(), WriteError>
        ensures said { SaidUntilFault result (W.contents writer.old.device) (W.contents writer.new.device) pending.old pending.new (news_in self.now) }
        ensures blame { writer.old.failed ≡ false → AfterCalls result writer.new.failed }
    {
        match self.mode {
            Mode::Telling => say_events(&self.news, pending, writer),
            _ => Ok(()),
        }
    }
}

/// Keeps the newest input no more, which was of this kind. Without it, this tick is in force.
fn forget_newest(kept: &mut Kept, tick: u32, kind: Kind)
    ensures { ForgetsNewest kept_back DropsOther kind tick kept.old.kept kept.new.kept }
{
    match kind {
        Kind::Tick => kept.go_back(tick),
        _ => kept.undo_other(),
    }
}

/// Takes back the events of the newest input, which was of this kind. Without it, this tick is in force.
fn untell(told: &mut Told, tick: u32, kind: Kind)
    ensures { ForgetsNewest told_back DropsMark kind tick told.old.told told.new.told }
{
    match kind {
        Kind::Tick => told.go_back(tick),
        _ => told.undo_input(),
    }
}
