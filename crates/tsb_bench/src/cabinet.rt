//! The cabinet: the controller with its plan, its desk and its monitor, and what each input does to them.
#![tactic(auto, unfolding(tsb_objects::specs::Checked::checked_plan, tsb_plan::specs::PlanOf::plan_of))]

ghost use Rattle.std.specs.Prelude.{◌≡◌, ℕ, ◌+◌, ◌-◌, ◌<◌, ◌≤◌, [], true, false, None, Some, if◌then◌else◌, nat_lt, MatchResult, IfOk};
ghost use Rattle.arrayvec.specs.ArrayVec.{array_vec_len};
ghost use Rattle.tsb_cells.specs.Bank as bank;
ghost use Rattle.tsb_cells.specs.Diff.{apply_diff, part};
ghost use Rattle.tsb_objects.specs.Checked.{checked_plan};
ghost use Rattle.tsb_plan.specs.declared.object.TheConstants.{PLAN_CELLS};
ghost use Rattle.tsb_plan.specs.Objects.{AreInRange};
ghost use Rattle.tsb_plan.specs.PlanOf.{plan_in};
ghost use Rattle.tsb_step.specs.tsb_rules.Rules.{first_broken};
ghost use Rattle.tsb_types.specs.declared.refusal.Refusal.TheVariants.{Memory, TickLimit};
ghost use Rattle.tsb_transact.specs.Layer.{cells_of, is_open};
ghost use Rattle.tsb_transact.specs.Rows.{IsRow};
ghost use Rattle.tsb_transact.specs.declared.TheConstants.{CELLS as DESK_CELLS};
ghost use Rattle.tsb_step.specs.Backed.{IsGoodInAll};
ghost use Rattle.tsb_step.specs.State.{start};
ghost use Rattle.tsb_step.specs.Step.{verdict, omit_refusal, last_tick, kind_of};
ghost use Rattle.tsb_step.specs.declared.TheConstants.{MONITOR_CELLS};
ghost use Rattle.tsb_step.specs.declared.first_cell.TheConstants.{DESK, DETECTORS, MONITOR};
ghost use Rattle.tsb_controller.specs.Layer as layers;
ghost use Rattle.tsb_controller.specs.Layer.{IsClosed};
ghost use Rattle.tsb_controller.specs.Records as records;
ghost use Rattle.tsb_controller.specs.Records.{HasFew};
ghost use Rattle.tsb_controller.specs.Whole.{AreAllBy, all_in, all_put_back};
ghost use Rattle.tsb_bench.specs.Cabinet.{rows_of, IsShut, IsDone, MayPass, next_tick, most_cells};

use crate::monitor_cells::MonitorCells;
use crate::passing::Passing;
use arrayvec::ArrayVec;
use std::alloc::Global;
use tsb_cells::{Bank, Diff, Reversible};
use tsb_controller::plan_changes::put_back;
use tsb_controller::{Controller, part_of, touches, undo_entry};
use tsb_history::{Entries, Record};
use tsb_objects::{Checked, PLAN_CELLS, Refusal, limits};
use tsb_step::first_cell::{ALL_CELLS, DESK, DETECTORS, LAYER_CELLS, MONITOR};
use tsb_step::{Input, MONITOR_CELLS};
use tsb_transact::Desk;

/// The most cells that an input other than a commit changes: the layers' and the monitor's, or the desk's, which are
/// fewer.
pub(crate) const MOST_CELLS: usize = LAYER_CELLS + MONITOR_CELLS;

/// The cells that an input changes, each with its value before.
pub(crate) type Changes = ArrayVec<(u16, u32), ALL_CELLS>;

/// The controller with its plan, its desk and its monitor: all that an input can change but the tick number.
#[derive(Drop)]
pub(crate) struct Cabinet {
    pub(crate) plan: Checked,
    pub(crate) desk: Desk,
    pub(crate) controller: Controller,
    pub(crate) monitor: MonitorCells,
    pub(crate) passing: Passing,
}

impl Cabinet {
    /// The cabinet at power-up, at tick 0. E1, where there is no memory for the desk's edits, is its only refusal.
    #[tactic(auto, using(crate::proofs::PassingLemmas::may_none))]
    pub(crate) fn new(alloc: Global, plan: Checked) -> Result<Cabinet, Refusal>
        ensures state { MatchResult result (λ c. all_in 0 (rows_of c) ≡ start (checked_plan plan)) (λ e. e ≡ Memory) }
        ensures by { IfOk result (λ c. AreAllBy 0 (rows_of c)) }
        ensures shut { IfOk result (λ c. IsShut c) }
        ensures passing { IfOk result (λ c. (tick : ℕ) → MayPass tick c) }
    {
        let Ok(desk) = Desk::new(alloc) else {
            return Err(Refusal::Memory);
        };
        Ok(Cabinet {
            plan,
            desk,
            controller: Controller::new(),
            monitor: MonitorCells::new(),
            passing: Passing::none(),
        })
    }

    /// A cabinet with the same cells in memory of its own. E1 is its only refusal.
    #[tactic(auto, using(crate::proofs::PassingLemmas::may_none))]
    pub(crate) fn clone_in(&self, alloc: Global) -> Result<Cabinet, Refusal>
        requires shut { IsShut self.now }
        ensures rows { MatchResult result (λ c. rows_of c ≡ rows_of self.now) (λ e. e ≡ Memory) }
        ensures shut { IfOk result (λ c. IsShut c) }
        ensures passing { IfOk result (λ c. (tick : ℕ) → MayPass tick c) }
    {
        let Ok(desk) = self.desk.clone_in(alloc) else {
            return Err(Refusal::Memory);
        };
        Ok(Cabinet {
            plan: self.plan,
            desk,
            controller: self.controller,
            monitor: self.monitor,
            passing: Passing::none(),
        })
    }

    /// Why an input is refused at tick number `tick`, other than for memory.
    #[inline(always)]
    pub(crate) fn refusal(&self, tick: u32, input: &Input) -> Option<Refusal>
        requires by { AreAllBy tick (rows_of self.now) }
        ensures { result ≡ verdict (all_in tick (rows_of self.now)) input.now }
    {
        match input {
            Input::Tick(_) => tick_refusal(tick),
            Input::Pattern(n) => self.controller.pattern_refusal(*n, &self.plan),
            Input::Switch(n, on) => self.controller.switch_refusal(*n, *on, &self.plan),
            Input::Fault(_) => None,
            Input::Reset => None,
            Input::Begin(_) => self.desk.begin_refusal(),
            Input::Set(station, id, value) => self.desk.set_refusal(*station, *id, *value),
            Input::Verify(station) => self.desk.verify_refusal(*station),
            Input::Commit(station) => self.commit_refusal(*station),
            Input::Abort(station) => self.desk.abort_refusal(*station),
            Input::Clock(_) => None,
            Input::Omit(list) => omit_refusal(*list),
        }
    }

    /// Takes an input at tick number `tick`, and gives the tick number after it. The cells that change go to `out`. After
    /// a tick that changes nothing some ticks may be passed over; after all else none.
    #[inline(always)]
    pub(crate) fn advance(&mut self, tick: u32, input: &Input, out: &mut Changes) -> u32
        requires shut { IsShut self.old }
        requires by { AreAllBy tick (rows_of self.old) }
        requires limit { tick ≤ last_tick }
        requires good { IsGoodInAll (all_in tick (rows_of self.old)) }
        requires allowed { verdict (all_in tick (rows_of self.old)) input.now ≡ None }
        requires empty { out.old.items ≡ [] }
        ensures next { result ≡ next_tick tick input.now }
        ensures done { IsDone input.now tick (rows_of self.old) (rows_of self.new) out.new.items }
        ensures few { array_vec_len out.new ≤ most_cells (kind_of input.now) }
        ensures shut { IsShut self.new }
        ensures passing { MayPass result self.new }
    {
        if let Input::Tick(row) = input {
            self.work_tick(tick, row, out);
            return tick + 1;
        }
        self.step(tick, input, out)
    }

    /// Takes an input, as `advance` does. It is out of line: what it needs of the stack takes long to reach, and no tick
    /// needs it.
    #[inline(never)]
    #[tactic(auto, using(crate::proofs::PassingLemmas::may_none))]
    fn step(&mut self, tick: u32, input: &Input, out: &mut Changes) -> u32
        requires shut { IsShut self.old }
        requires by { AreAllBy tick (rows_of self.old) }
        requires limit { tick ≤ last_tick }
        requires good { IsGoodInAll (all_in tick (rows_of self.old)) }
        requires allowed { verdict (all_in tick (rows_of self.old)) input.now ≡ None }
        requires empty { out.old.items ≡ [] }
        ensures next { result ≡ next_tick tick input.now }
        ensures done { IsDone input.now tick (rows_of self.old) (rows_of self.new) out.new.items }
        ensures few { array_vec_len out.new ≤ most_cells (kind_of input.now) }
        ensures shut { IsShut self.new }
        ensures passing { MayPass result self.new }
    {
        self.passing = Passing::none();
        match input {
            Input::Tick(row) => {
                self.work_tick(tick, row, out);
                return tick + 1;
            }
            Input::Pattern(n) => self.set_pattern(tick, *n, out),
            Input::Switch(n, on) => self.switch(tick, *n, *on, out),
            Input::Fault(lamp) => self.light(tick, lamp, out),
            Input::Reset => self.reset(tick, out),
            Input::Begin(station) => self.begin(tick, *station, out),
            Input::Set(station, id, value) => self.set(tick, *station, *id, *value, out),
            Input::Verify(station) => self.verify(tick, *station, out),
            Input::Commit(station) => self.commit(tick, *station, out),
            Input::Abort(station) => self.abort(tick, *station, out),
            Input::Clock(moment) => self.set_clock(tick, *moment, out),
            Input::Omit(list) => self.omit(tick, *list, out),
        }
        tick
    }

    /// Passes no tick over any more, until one is worked out.
    #[inline(always)]
    #[tactic(auto, using(crate::proofs::PassingLemmas::may_none))]
    pub(crate) fn pass_none(&mut self)
        requires { IsShut self.old }
        ensures rows { rows_of self.new ≡ rows_of self.old }
        ensures shut { IsShut self.new }
        ensures passing { (tick : ℕ) → MayPass tick self.new }
    {
        self.passing.last = 0;
    }

    /// Puts back what a record holds.
    #[inline(always)]
    #[tactic(auto, using(crate::proofs::PassingLemmas::may_none))]
    pub(crate) fn undo(&mut self, change: Record<'_>)
        requires shut { IsShut self.old }
        requires few { HasFew change.entries }
        requires ranged { AreInRange (apply_diff (rows_of self.old).plan (part 0 PLAN_CELLS change.entries)) }
        requires passed { first_broken (plan_in (apply_diff (rows_of self.old).plan (part 0 PLAN_CELLS change.entries))) ≡ None }
        requires desk { IsRow (apply_diff (rows_of self.old).desk (part DESK DESK_CELLS change.entries)) }
        ensures rows { rows_of self.new ≡ all_put_back (rows_of self.old) change.entry.entries }
        ensures shut { IsShut self.new }
        ensures passing { (tick : ℕ) → MayPass tick self.new }
    {
        self.passing.last = 0;
        let mut left = change.entries();
        if undo_layers(&mut self.controller, &mut self.monitor.bank, &mut left) {
            return;
        }
        self.undo_others(change.entries(), left);
    }

    /// Puts back what the entries of a record hold of plan and desk, and what those that are left of it hold of the
    /// layers and the monitor. It is out of line: few records have such entries. It takes entries and no record, which
    /// would have to be put together for each.
    #[inline(never)]
    fn undo_others(&mut self, entries: Entries<'_>, left: Entries<'_>)
        requires shut { IsShut self.old }
        requires few { HasFew entries }
        requires ranged { AreInRange (apply_diff (rows_of self.old).plan (part 0 PLAN_CELLS entries)) }
        requires passed { first_broken (plan_in (apply_diff (rows_of self.old).plan (part 0 PLAN_CELLS entries))) ≡ None }
        requires desk { IsRow (apply_diff (rows_of self.old).desk (part DESK DESK_CELLS entries)) }
        ensures plan { (rows_of self.new).plan ≡ apply_diff (rows_of self.old).plan (part 0 PLAN_CELLS entries.entry) }
        ensures desk { (rows_of self.new).desk ≡ apply_diff (rows_of self.old).desk (part DESK DESK_CELLS entries.entry) }
        ensures layers { (rows_of self.new).layers ≡ records.put_back (rows_of self.old).layers left.entry }
        ensures monitor { (rows_of self.new).monitor ≡ apply_diff (rows_of self.old).monitor (part MONITOR MONITOR_CELLS left.entry) }
        ensures shut { IsShut self.new }
        ensures passing { self.new.passing ≡ self.old.passing }
    {
        undo_plan(&mut self.plan, entries.copy());
        put_back_desk(&mut self.desk, entries);
        undo_rest(&mut self.controller, &mut self.monitor.bank, left);
    }
}

/// Puts back entries of a record, of the layers and the monitor, one by one. It stops behind one of plan or desk, which
/// few records hold, and says whether there was none.
#[inline(always)]
fn undo_layers(
    controller: &mut Controller,
    monitor: &mut Bank<MONITOR_CELLS>,
    entries: &mut Entries<'_>,
) -> bool
    requires controller { IsClosed controller.old }
    requires monitor { bank.is_open monitor.old ≡ false }
    ensures others { result ≡ true → part 0 DETECTORS entries.old ≡ [] }
    ensures all { result ≡ true → entries.new ≡ [] }
    ensures layers { records.put_back (layers.rows_of controller.new) entries.new ≡ records.put_back (layers.rows_of controller.old) entries.old }
    ensures monitor { apply_diff (bank.cells_of monitor.new) (part MONITOR MONITOR_CELLS entries.new)
        ≡ apply_diff (bank.cells_of monitor.old) (part MONITOR MONITOR_CELLS entries.old) }
    ensures closed { IsClosed controller.new }
    ensures shut { bank.is_open monitor.new ≡ false }
{
    while let Some((cell, old)) = entries.next() {
        if !controller.undo_entry(cell, old) && !undo_entry(monitor, cell, old, MONITOR) {
            return false;
        }
    }
    true
}

/// Puts back what these entries hold of the layers and the monitor, and passes over those of plan and desk.
#[inline(always)]
#[tactic(auto, using(crate::proofs::PartLemmas::put_nothing, crate::proofs::PartLemmas::set_nothing))]
fn undo_rest(
    controller: &mut Controller,
    monitor: &mut Bank<MONITOR_CELLS>,
    mut entries: Entries<'_>,
)
    requires controller { IsClosed controller.old }
    requires monitor { bank.is_open monitor.old ≡ false }
    ensures layers { layers.rows_of controller.new ≡ records.put_back (layers.rows_of controller.old) entries.entry }
    ensures monitor { bank.cells_of monitor.new ≡ apply_diff (bank.cells_of monitor.old) (part MONITOR MONITOR_CELLS entries.entry) }
    ensures closed { IsClosed controller.new }
    ensures shut { bank.is_open monitor.new ≡ false }
{
    while let Some((cell, old)) = entries.next() {
        if cell < DETECTORS {
            continue;
        }
        if !controller.undo_entry(cell, old) {
            undo_entry(monitor, cell, old, MONITOR);
        }
    }
}

/// Puts back what these entries hold of the plan.
#[inline(always)]
fn undo_plan(plan: &mut Checked, entries: Entries<'_>)
    requires ranged { AreInRange (apply_diff plan.old.plan.values (part 0 PLAN_CELLS entries)) }
    requires passed { first_broken (plan_in (apply_diff plan.old.plan.values (part 0 PLAN_CELLS entries))) ≡ None }
    ensures { plan.new.plan.values ≡ apply_diff plan.old.plan.values (part 0 PLAN_CELLS entries.entry) }
{
    if touches(entries.copy(), 0, PLAN_CELLS) {
        put_back_plan(plan, entries);
    }
}

/// Makes the plan as it was, with its tables. It is a function of its own because few records have a plan's cells, and
/// its room on the stack takes long to clear.
#[inline(never)]
fn put_back_plan(plan: &mut Checked, entries: Entries<'_>)
    requires ranged { AreInRange (apply_diff plan.old.plan.values (part 0 PLAN_CELLS entries)) }
    requires passed { first_broken (plan_in (apply_diff plan.old.plan.values (part 0 PLAN_CELLS entries))) ≡ None }
    ensures { plan.new.plan.values ≡ apply_diff plan.old.plan.values (part 0 PLAN_CELLS entries.entry) }
{
    let before = put_back(plan.plan(), entries);
    plan.renew(&before);
}

/// Puts back what these entries hold of the desk, out of line as `put_back_plan` is. It is not asked first whether they
/// hold any: what comes here has an entry of plan or desk, and a commit changes the desk too.
#[inline(never)]
#[tactic(auto, using(crate::proofs::PartLemmas::parts))]
fn put_back_desk(desk: &mut Desk, entries: Entries<'_>)
    requires shut { is_open desk.old ≡ false }
    requires few { HasFew entries }
    requires row { IsRow (apply_diff (cells_of desk.old) (part DESK DESK_CELLS entries)) }
    ensures cells { cells_of desk.new ≡ apply_diff (cells_of desk.old) (part DESK DESK_CELLS entries.entry) }
    ensures shut { is_open desk.new ≡ false }
{
    let part: Diff<{ tsb_transact::CELLS }> = part_of(entries, DESK);
    desk.undo(part.as_slice());
}

/// Why a tick is refused at tick number `tick`.
fn tick_refusal(tick: u32) -> Option<Refusal>
    ensures { result ≡ (if nat_lt tick last_tick then None else Some TickLimit) }
{
    if tick < limits::TICKS {
        None
    } else {
        Some(Refusal::TickLimit)
    }
}

/// Why a list of omitted arrows is refused.
fn omit_refusal(list: u32) -> Option<Refusal>
    ensures { result ≡ omit_refusal list }
{
    if list < 65536 {
        None
    } else {
        Some(Refusal::OutOfRange)
    }
}
