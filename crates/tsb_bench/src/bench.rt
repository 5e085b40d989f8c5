//! The whole controller, which can be wound back.
#![tactic(auto, unfolding(tsb_objects::specs::Checked::checked_plan, tsb_plan::specs::PlanOf::plan_of))]

ghost use Rattle.std.specs.Prelude.{◌≡◌, ◌≢◌, ℕ, ◌+◌, ◌-◌, ◌*◌, ◌<◌, ◌≤◌, [], ◌∷◌, drop, length, min, None, Some, Err, option_map, OnOk, OnErr, IfOk, IfErr, IfSome, MatchResult};
ghost use Rattle.tsb_history.specs.declared.kinds.Kind.{Kind as KindValue};
ghost use Rattle.tsb_history.specs.History.{newest_kind, quiet_ticks, record_size};
ghost use Rattle.tsb_objects.specs.Checked.{checked_plan};
ghost use Rattle.tsb_plan.specs.PlanOf.{plan_of};
ghost use Rattle.tsb_types.specs.declared.clock_time.TheConstants.{DAY, LAST_DAY};
ghost use Rattle.tsb_types.specs.declared.refusal.Refusal.TheVariants.{Memory};
ghost use Rattle.tsb_heads.specs.Promises.{IsSame};
ghost use Rattle.tsb_heads.specs.Reading.{heads_of};
ghost use Rattle.tsb_machine.specs.Play.{IsRefusal};
ghost use Rattle.tsb_step.specs.Backed.{AreBacked, IsGoodInAll};
ghost use Rattle.tsb_step.specs.Good.{IsGood};
ghost use Rattle.tsb_step.specs.Past.{record_of, earlier, pasts, sought, ticks_of, IsLeastBack};
ghost use Rattle.tsb_step.specs.Signs.{display, local, stage, IsSafe};
ghost use Rattle.tsb_step.specs.State.{Tripped, start};
ghost use Rattle.tsb_step.specs.Step.{step, verdict, kind_of, last_tick};
ghost use Rattle.tsb_step.specs.Watches.{TellsLastChange};
ghost use Rattle.tsb_step.specs.declared.inputs.Input.TheVariants as inputs;
ghost use Rattle.tsb_transact.specs.Cells.{desk_in};
ghost use Rattle.tsb_transact.specs.Layer.{cells_of};
ghost use Rattle.tsb_controller.specs.Whole.{AreAllBy, all_in, all_changes};
ghost use Rattle.tsb_bench.specs.Applied.{IsApplied};
ghost use Rattle.tsb_bench.specs.Cabinet.{rows_of, IsShut, IsDone, MayPass, Passes, next_tick, most_cells};
ghost use Rattle.tsb_bench.specs.Held.{state_of, whole, ticks, memory};
ghost use Rattle.tsb_bench.specs.Shown.{IsShown};

use crate::cabinet::{Cabinet, Changes, MOST_CELLS};
use crate::shown::{forget_shown, keep_shown};
use crate::watched::WatchedLayer;
use arrayvec::ArrayVec;
use std::alloc::Global;
use std::marker::Model;
use tsb_heads::{Display, Trip};
use tsb_history::{History, Kind};
use tsb_objects::{Checked, Plan, Preempt, Refusal, Row, Stage, limits};
use tsb_step::Input;
use tsb_step::first_cell::ALL_CELLS;
use tsb_transact::Desk;
use tsb_types::Watch;

/// There is nothing to take back, or not so much.
#[derive(Clone, Copy, Debug, PartialEq, Eq)]
pub struct Nothing;

/// A controller that runs a plan, and can be wound back.
///
/// Time passes by inputs alone: a tick is a tenth of a second. Each input that was taken can be taken back, the newest
/// first, and the whole controller is then as it was before it.
#[derive(Drop)]
pub struct Bench {
    pub(crate) tick: u32,
    pub(crate) cabinet: Cabinet,
    pub(crate) history: History,
    /// The cells that the newest input changed. It is kept because it takes long to make, and says nothing more.
    changes: Changes,
    /// What the heads show, where it was asked for and no cell has changed since.
    pub(crate) shown: Option<Display>,
}

impl Model for Bench {
    ghost use Rattle.tsb_bench.specs.Cabinet.{rows_of, IsShut, MayPass};
    ghost use Rattle.tsb_bench.specs.Held.{Held, HasSoundPast};
    ghost use Rattle.tsb_bench.specs.Shown.{IsShown};

    ghost Value = { Held };

    ghost view = { λ a. record { tick = a.tick; rows = rows_of a.cabinet; records = a.history.records; room = a.history.room } };

    ghost invariant = { λ a. IsShut a.cabinet × HasSoundPast a.tick (rows_of a.cabinet) a.history.records × MayPass a.tick a.cabinet
        × IsShown (rows_of a.cabinet) a.shown };
}

/// The kind of an input.
fn kind_of(input: &Input) -> Kind
    ensures { result ≡ kind_of input.now }
{
    match input {
        Input::Tick(_) => Kind::Tick,
        Input::Pattern(_) => Kind::Pattern,
        Input::Switch(_, _) => Kind::Switch,
        Input::Fault(_) => Kind::Fault,
        Input::Reset => Kind::Reset,
        Input::Begin(_) => Kind::Begin,
        Input::Set(_, _, _) => Kind::Set,
        Input::Verify(_) => Kind::Verify,
        Input::Commit(_) => Kind::Commit,
        Input::Abort(_) => Kind::Abort,
        Input::Clock(_) => Kind::Clock,
        Input::Omit(_) => Kind::Omit,
    }
}

/// How far an input of this kind moves the tick number.
pub(crate) fn ticks_of(kind: Kind) -> u32
    ensures { result ≡ ticks_of kind }
{
    match kind {
        Kind::Tick => 1,
        _ => 0,
    }
}

/// How many cells an input of this kind can change.
fn most_cells(kind: Kind) -> usize
    ensures { result ≡ most_cells kind }
{
    match kind {
        Kind::Commit => ALL_CELLS,
        _ => MOST_CELLS,
    }
}

/// Takes an input at tick number `tick` which is not refused, with its record, and gives the tick number after it.
/// The cells that it changes take the place of those in `changes`. What was found of the heads stays only where no
/// cell changes.
#[inline(always)]
fn work(
    cabinet: &mut Cabinet,
    history: &mut History,
    changes: &mut Changes,
    shown: &mut Option<Display>,
    tick: u32,
    input: &Input,
) -> u32
    requires shut { IsShut cabinet.old }
    requires by { AreAllBy tick (rows_of cabinet.old) }
    requires limit { tick ≤ last_tick }
    requires good { IsGoodInAll (all_in tick (rows_of cabinet.old)) }
    requires allowed { verdict (all_in tick (rows_of cabinet.old)) input.now ≡ None }
    requires shown { IsShown (rows_of cabinet.old) shown.old }
    requires room { record_size (most_cells (kind_of input.now)) ≤ history.old.room }
    ensures next { result ≡ next_tick tick input.now }
    ensures done { IsDone input.now tick (rows_of cabinet.old) (rows_of cabinet.new) (all_changes (rows_of cabinet.old) (rows_of cabinet.new)) }
    ensures records { history.new.records ≡
        record { kind = kind_of input.now; entries = all_changes (rows_of cabinet.old) (rows_of cabinet.new) } ∷ history.old.records }
    ensures few { length (all_changes (rows_of cabinet.old) (rows_of cabinet.new)) ≤ most_cells (kind_of input.now) }
    ensures room { history.old.room ≤ history.new.room + record_size (length (all_changes (rows_of cabinet.old) (rows_of cabinet.new))) }
    ensures shut { IsShut cabinet.new }
    ensures passing { MayPass result cabinet.new }
    ensures shown { IsShown (rows_of cabinet.new) shown.new }
{
    changes.clear();
    let tick = cabinet.advance(tick, input, changes);
    history.push(kind_of(input), changes);
    keep_shown(shown, changes);
    tick
}

impl Bench {
    /// The greatest number of a tick: 6,000,000.
    pub const TICKS: u32 = limits::TICKS;

    /// A bench at power-up, which runs this plan: all phases Red, at tick 0. `Memory`, where there is none for the
    /// desk's edits or for the first room of its history, is its only refusal. Nothing is said of that room: the next
    /// input may ask for more.
    pub fn power_up(alloc: Global, plan: Checked) -> Result<Bench, Refusal>
        ensures { MatchResult result (λ b. whole b ≡ record { state = start (checked_plan plan); records = [] }) (λ e. e ≡ Memory) }
    {
        let Ok(cabinet) = Cabinet::new(alloc, plan) else {
            return Err(Refusal::Memory);
        };
        let mut history = History::new(alloc);
        let Ok(()) = history.reserve(0) else {
            return Err(Refusal::Memory);
        };
        Ok(Bench {
            tick: 0,
            cabinet,
            history,
            changes: ArrayVec::new(),
            shown: None,
        })
    }

    /// The number of the tick: how many tenths of a second have passed since power-up.
    pub fn now(&self) -> u32
        ensures now { result ≡ self.now.tick }
        ensures limit { result ≤ last_tick }
        ensures ticks { result ≡ ticks self.now.records }
        // The state and each earlier one are ones that runs lead to: the plan breaks no rule, and so on.
        ensures good { (k : ℕ) → IsGood (earlier (whole self.now) k).state }
        // So are the overlaps that have intervals of their own: each is lit by phases, and so on.
        ensures backed { (k : ℕ) → AreBacked (earlier (whole self.now) k).state }
    {
        self.tick
    }

    /// What the heads show.
    pub fn display(&self) -> Display
        ensures shown { IsSame (heads_of result) (display (state_of self.now)) }
        // Two phases with right of way are concurrent in the plan in effect.
        ensures safe { IsSafe (state_of self.now) }
    {
        self.cabinet.display()
    }

    /// The local counter of the pattern that runs, in tenths of a second.
    pub fn local(&self) -> Option<u32>
        ensures { result ≡ local (state_of self.now) }
    {
        self.cabinet.controller.local(self.tick, &self.cabinet.plan)
    }

    /// The moment of tick number 0 by the clock, in tenths of a second since 1999-12-24 00:00; each tick is a tenth later.
    /// `None` where no clock is set.
    pub fn start_moment(&self) -> Option<u64>
        ensures value { result ≡ (state_of self.now).start_moment }
        ensures counted { IfSome result (λ m. m < (LAST_DAY + 1) * DAY) }
    {
        self.cabinet.controller.start()
    }

    /// The preempt in service, with its stage.
    pub fn stage(&self) -> Option<(Preempt, Stage)>
        ensures { result ≡ stage (state_of self.now) }
    {
        self.cabinet.controller.stage()
    }

    /// Why the monitor has tripped the controller, if it has, and the tick number at which it did.
    pub fn tripped(&self) -> Option<(Trip, u32)>
        ensures { option_map (λ x. record { cause = x.0; tick = x.1 }) result ≡ (state_of self.now).trip }
    {
        self.cabinet.monitor.trip()
    }

    /// The plan in effect.
    pub fn plan(&self) -> &Plan
        ensures { plan_of result.now ≡ (state_of self.now).plan }
    {
        self.cabinet.plan.plan()
    }

    /// The desk at which stations change the plan.
    pub fn desk(&self) -> &Desk
        ensures { desk_in (cells_of result.now) ≡ (state_of self.now).desk }
    {
        &self.cabinet.desk
    }

    /// The records of the inputs that were not undone, and the bytes that spell them.
    pub fn history(&self) -> &History
        ensures records { result.now.records ≡ self.now.records }
        ensures room { result.now.room ≡ self.now.room }
    {
        &self.history
    }

    /// Takes an input.
    ///
    /// The comment on each input says what a refusal of it means. `Memory` says that memory ran out, and comes only
    /// where there is no other refusal and the history had to grow. A refused input leaves the bench as it was. One
    /// that is taken leaves less room by no more than the bytes of its record.
    #[inline(always)]
    pub fn apply(&mut self, input: Input) -> Result<(), Refusal>
        ensures allowed { OnOk result (verdict (state_of self.old) input ≡ None) }
        ensures state { OnOk result (state_of self.new ≡ step (state_of self.old) input) }
        ensures records { OnOk result (self.new.records ≡ record_of input (state_of self.old) (state_of self.new) ∷ self.old.records) }
        // Undoing it leaves the whole controller as it was.
        ensures back { OnOk result (earlier (whole self.new) 1 ≡ whole self.old) }
        ensures refused { IfErr result (IsRefusal (verdict (state_of self.old) input)) }
        ensures err { OnErr result (self.new ≡ self.old) }
        // Its record has no more entries than there are cells that such an input can change.
        ensures few { OnOk result (length (record_of input (state_of self.old) (state_of self.new)).entries ≤ most_cells (kind_of input)) }
        // Out of memory only where the history had no room for a record of all these cells.
        ensures wanting { result ≡ Err Memory → self.old.room < record_size (most_cells (kind_of input)) }
        // The room shrinks by no more than the bytes of its record.
        ensures room { OnOk result (self.old.room
            ≤ self.new.room + record_size (length (record_of input (state_of self.old) (state_of self.new)).entries)) }
    {
        if self.cabinet.passes(self.tick, &input) {
            return self.pass_over(&input);
        }
        match input {
            Input::Tick(row) => self.take_tick(row),
            _ => self.take_other(input),
        }
    }

    /// Takes a tick that is not passed over. It is out of line, as all inputs are but ticks that are passed over.
    #[inline(never)]
    fn take_tick(&mut self, row: Row) -> Result<(), Refusal>
        ensures { IsApplied (inputs.Tick row) self.old self.new result }
    {
        self.take(&Input::Tick(row))
    }

    /// Takes an input that is no tick; a tick as well, but slower.
    #[inline(never)]
    fn take_other(&mut self, input: Input) -> Result<(), Refusal>
        ensures { IsApplied input self.old self.new result }
    {
        self.take(&input)
    }

    /// Takes a tick that changes nothing but the tick number. It is part of `apply`, so that a tick that is passed over
    /// costs no more than its record.
    #[inline(always)]
    fn pass_over(&mut self, input: &Input) -> Result<(), Refusal>
        requires { Passes input.now self.old.tick self.old.rows }
        ensures { IsApplied input.now self.old self.new result }
    {
        let Ok(()) = self.history.reserve(0) else {
            return Err(Refusal::Memory);
        };
        self.tick += 1;
        self.history.push(Kind::Tick, &[]);
        Ok(())
    }

    /// Takes an input that is not passed over.
    #[inline(always)]
    fn take(&mut self, input: &Input) -> Result<(), Refusal>
        ensures { IsApplied input.now self.old self.new result }
    {
        if let Some(refusal) = self.cabinet.refusal(self.tick, input) {
            return Err(refusal);
        }
        let Ok(()) = self.history.reserve(most_cells(kind_of(input))) else {
            return Err(Refusal::Memory);
        };
        self.tick = work(
            &mut self.cabinet,
            &mut self.history,
            &mut self.changes,
            &mut self.shown,
            self.tick,
            input,
        );
        Ok(())
    }

    /// Takes the newest input back, and gives its kind. The whole controller is then as it was before that input.
    ///
    /// `Nothing` says that no input is left, and nothing has changed. It takes no memory; the bytes of the record are
    /// room again.
    #[inline(always)]
    pub fn undo(&mut self) -> Result<Kind, Nothing>
        ensures kind { IfOk result (λ k. newest_kind self.old.records ≡ Some k) }
        ensures ok { OnOk result (whole self.new ≡ earlier (whole self.old) 1) }
        ensures nothing { OnErr result (self.old.records ≡ []) }
        ensures err { OnErr result (self.new ≡ self.old) }
        ensures room { self.old.room ≤ self.new.room }
        ensures memory { memory self.new ≡ memory self.old }
    {
        if self.history.is_empty() {
            return Err(Nothing);
        }
        Ok(self.undo_newest())
    }

    /// Takes the newest input back, where there is one, and gives its kind.
    #[inline(always)]
    fn undo_newest(&mut self) -> Kind
        requires { self.old.records ≢ [] }
        ensures kind { newest_kind self.old.records ≡ Some result }
        ensures back { whole self.new ≡ earlier (whole self.old) 1 }
        ensures room { self.old.room ≤ self.new.room }
        ensures memory { memory self.new ≡ memory self.old }
    {
        let (change, start) = self.history.newest();
        let kind = change.kind();
        self.cabinet.undo(change);
        forget_shown(&mut self.shown);
        self.tick -= ticks_of(kind);
        self.history.pop_from(start);
        kind
    }

    /// Goes back to a tick number: it takes back the fewest inputs that lead there. Inputs that were taken at that tick
    /// number stay.
    ///
    /// `Nothing` says that the tick is still to come, and nothing has changed. It takes no memory.
    pub fn seek(&mut self, tick: u32) -> Result<(), Nothing>
        ensures ok { OnOk result (whole self.new ≡ sought tick (state_of self.old) self.old.records) }
        ensures reached { OnOk result (self.new.tick ≡ tick) }
        ensures least { OnOk result (IsLeastBack tick (whole self.old) (whole self.new)) }
        ensures possible { OnOk result (tick ≤ self.old.tick) }
        ensures nothing { OnErr result (self.old.tick < tick) }
        ensures err { OnErr result (self.new ≡ self.old) }
        ensures room { self.old.room ≤ self.new.room }
        // The bytes of the records that it takes back are room again.
        ensures memory { memory self.new ≡ memory self.old }
    {
        if self.tick < tick {
            return Err(Nothing);
        }
        while self.tick != tick {
            if self.undo_quiet(self.tick - tick) == 0 {
                self.undo_newest();
            }
        }
        Ok(())
    }

    /// Takes the newest inputs back as long as they are quiet ticks, in which nothing changed but the tick number. It
    /// takes so many at most, and says how many they were. It takes no memory; the bytes of their records are room
    /// again.
    #[inline(always)]
    fn undo_quiet(&mut self, most: u32) -> u32
        ensures count { result ≡ min most (quiet_ticks self.old.records) }
        ensures tick { self.new.tick + result ≡ self.old.tick }
        ensures rows { self.new.rows ≡ self.old.rows }
        ensures records { self.new.records ≡ drop result self.old.records }
        ensures room { self.old.room ≤ self.new.room }
        ensures memory { memory self.new ≡ memory self.old }
    {
        let quiet = self.history.pop_quiet(most as usize) as u32;
        if quiet == 0 {
            return 0;
        }
        self.cabinet.pass_none();
        self.tick -= quiet;
        quiet
    }

    /// Goes back by this many ticks, as `seek` does.
    ///
    /// `Nothing` says that fewer ticks have passed, and nothing has changed. It takes no memory.
    pub fn back(&mut self, ticks: u32) -> Result<(), Nothing>
        ensures ok { OnOk result (whole self.new ≡ sought (self.old.tick - ticks) (state_of self.old) self.old.records) }
        ensures reached { OnOk result (self.new.tick + ticks ≡ self.old.tick) }
        ensures possible { OnOk result (ticks ≤ self.old.tick) }
        ensures nothing { OnErr result (self.old.tick < ticks) }
        ensures err { OnErr result (self.new ≡ self.old) }
        ensures room { self.old.room ≤ self.new.room }
        ensures memory { memory self.new ≡ memory self.old }
    {
        if self.tick < ticks {
            return Err(Nothing);
        }
        self.seek(self.tick - ticks)
    }

    /// The tick number of the newest change of the watched value that was not taken back; `None` where it never
    /// changed. An input that is not a tick counts at the tick number in force (profile). It takes no memory.
    pub fn when(&self, watch: Watch) -> Option<u32>
        ensures { TellsLastChange watch (pasts (state_of self.now) self.now.records) result }
    {
        let mut watched = WatchedLayer::of(&self.cabinet, watch);
        let value = watched.value();
        let mut tick = self.tick;
        let mut records = self.history.walk_back();
        loop {
            tick -= records.skip_quiet() as u32;
            match records.next() {
                None => return None,
                Some(change) => {
                    if watched.undo(&change) && !watched.value().is_same(&value) {
                        return Some(tick);
                    }
                    tick -= ticks_of(change.kind());
                }
            }
        }
    }

    /// A bench that is in the same state and has the same history, in memory of its own. `Memory` is its only refusal.
    /// Nothing is said of the room of its history.
    pub fn clone_in(&self, alloc: Global) -> Result<Bench, Refusal>
        ensures { MatchResult result (λ b. whole b ≡ whole self.now) (λ e. e ≡ Memory) }
    {
        let Ok(history) = self.history.clone_in(alloc) else {
            return Err(Refusal::Memory);
        };
        let Ok(cabinet) = self.cabinet.clone_in(alloc) else {
            return Err(Refusal::Memory);
        };
        Ok(Bench {
            tick: self.tick,
            cabinet,
            history,
            changes: ArrayVec::new(),
            shown: None,
        })
    }
}
