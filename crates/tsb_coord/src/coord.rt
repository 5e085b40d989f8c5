//! Coordination over its cells.
ghost use Rattle.std.specs.Prelude.{◌≡◌, ℕ, ◌+◌, ◌*◌, ◌<◌, ◌≤◌, ◌^◌, ◌++◌, true, false, Some, None, IfSome, length};
ghost use Rattle.arrayvec.specs.ArrayVec.{array_vec_len};
ghost use Rattle.tsb_objects.specs.tsb_types.declared.limits.TheConstants.{TICKS};
ghost use Rattle.tsb_cells.specs.Diff.{diff, shifted};
ghost use Rattle.tsb_objects.specs.tsb_plan.Parts.{is_used};
ghost use Rattle.tsb_objects.specs.Checked.{checked_plan};
ghost use Rattle.tsb_objects.specs.tsb_plan.Running.{running};
ghost use Rattle.tsb_objects.specs.tsb_types.declared.refusal.Refusal.{Refusal};
ghost use Rattle.tsb_objects.specs.tsb_types.Sets.{has};
ghost use Rattle.tsb_coord.specs.declared.TheConstants.{CELLS};
ghost use Rattle.tsb_objects.specs.tsb_types.declared.clock_time.TheConstants.{DAY, FIRST_MOMENT, LAST_DAY};
ghost use Rattle.tsb_coord.specs.Cells.{pattern_in, correction_in, start_in, IsBy};
ghost use Rattle.tsb_coord.specs.Clock.{midnight_at};
ghost use Rattle.tsb_coord.specs.Coordinated.{refusal};
ghost use Rattle.tsb_coord.specs.Due.{KeepsOrders, IsExact};
ghost use Rattle.tsb_coord.specs.Correction.{clocked, local_now, selected_correction};
ghost use Rattle.tsb_coord.specs.Promises.{IsAtPowerUp, AreOrders, IsAnswered, IsSelected, IsClocked, TellsLocal, TellsPattern};

use crate::CELLS;
use crate::asked::asked_in;
use crate::clock::{midnight_at, shift};
use crate::coordination::Coordination;
use crate::correction::{Correction, ahead_before, ahead_in, begun};
use crate::counting::counter;
use crate::waiting::ticks_to_next;
use arrayvec::ArrayVec;
use tsb_cells::{Bank, Diff, Reversible};
use tsb_objects::limits::TICKS;
use tsb_objects::{Checked, Pattern, PhaseSet, Refusal, Sequence};
use tsb_types::{ClockTime, DAY};

/// The sequence in free operation.
const FREE_SEQUENCE: u8 = 1;

/// Coordination: which pattern is selected, how its local counter comes into step, and the clock, where one is set. All
/// else is found from these, the plan and the number of the tick.
#[derive(Clone, Copy)]
pub struct Coord {
    bank: Bank<CELLS>,
}

/// What is asked in free operation: nothing.
#[inline(always)]
fn free() -> Coordination
    ensures runs { result.runs ≡ None }
    ensures sequence { result.sequence ≡ 1 }
    ensures hold { (p : ℕ) → has result.hold p ≡ false }
    ensures forced { (p : ℕ) → has result.forced p ≡ false }
    ensures recycle { (p : ℕ) → has result.recycle p ≡ false }
    ensures omit { (p : ℕ) → has result.omit p ≡ false }
{
    Coordination {
        runs: None,
        sequence: Sequence::of(FREE_SEQUENCE),
        hold: PhaseSet::empty(),
        forced: PhaseSet::empty(),
        recycle: PhaseSet::empty(),
        omit: PhaseSet::empty(),
    }
}

impl Coord {
    ghost use Rattle.tsb_coord.specs.Layer.{cells_of, kept_of, is_open};

    /// Coordination as at power-up: no pattern is selected, which is free operation, and no clock is set.
    pub fn new() -> Coord
        ensures each { IsAtPowerUp (cells_of result) }
        ensures start { start_in (cells_of result) ≡ None }
        ensures by { IsBy (cells_of result) }
        ensures closed { is_open result ≡ false }
    {
        Coord { bank: Bank::new() }
    }

    /// Coordination as at power-up: no pattern is selected. A clock that is set goes on. The tick is that of every layer's
    /// `reset`; nothing begins at it.
    pub fn reset(&mut self, _now: u32)
        requires opened { is_open self.old ≡ true }
        requires by { IsBy (cells_of self.old) }
        ensures each { IsAtPowerUp (cells_of self.new) }
        ensures start { start_in (cells_of self.new) ≡ start_in (cells_of self.old) }
        ensures by { IsBy (cells_of self.new) }
        ensures kept { kept_of self.new ≡ kept_of self.old }
        ensures opened { is_open self.new ≡ true }
    {
        self.bank.put(0, 0);
        self.bank.put(1, 0);
        self.bank.put(2, 0);
        self.bank.put(3, 0);
    }

    /// Why a pattern cannot be selected, if it cannot: `NoSuchPattern` (E9), where the number is neither 0, which is
    /// free operation, nor that of a pattern with a cycle.
    pub fn refusal(n: u32, plan: &Checked) -> Option<Refusal>
        ensures { result ≡ refusal (checked_plan plan.now) n }
    {
        if n == 0 {
            return None;
        }
        match Pattern::new(n) {
            Some(pattern) => {
                if plan.plan().is_used(pattern) {
                    None
                } else {
                    Some(Refusal::NoSuchPattern)
                }
            }
            None => Some(Refusal::NoSuchPattern),
        }
    }

    /// Selects a pattern at tick number `now`, or free operation by 0. With `coordCorrectionMode` its local counter
    /// goes on from that of the pattern that ran, and comes into step from there. A refused number is E9, and leaves
    /// all as it was.
    pub fn set_pattern(&mut self, n: u32, now: u32, plan: &Checked) -> Result<(), Refusal>
        requires opened { is_open self.old ≡ true }
        requires by { IsBy (cells_of self.old) }
        requires in_time { now ≤ TICKS }
        ensures refused { IsAnswered n (checked_plan plan.now) result }
        ensures selected { IsSelected n now (checked_plan plan.now) (cells_of self.old) (cells_of self.new) }
        ensures stays { (r : Refusal) → refusal (checked_plan plan.now) n ≡ Some r → cells_of self.new ≡ cells_of self.old }
        ensures by { IsBy (cells_of self.new) }
        ensures kept { kept_of self.new ≡ kept_of self.old }
        ensures opened { is_open self.new ≡ true }
    {
        match Coord::refusal(n, plan) {
            Some(refusal) => Err(refusal),
            None => {
                let midnight = midnight_at(&self.start(), now);
                let correction = self.selected(&Pattern::new(n), now, midnight, plan);
                self.bank.put(0, n);
                self.bank.put(1, correction.since);
                self.bank.put(2, correction.ahead);
                self.bank.put(3, correction.midnight);
                Ok(())
            }
        }
    }

    /// Sets the clock: tick number `now` is at this moment. The local counter of the pattern that is selected comes into
    /// step with the midnight at or before it, as where the pattern is selected.
    pub fn set_clock(&mut self, moment: ClockTime, now: u32, plan: &Checked)
        requires opened { is_open self.old ≡ true }
        requires by { IsBy (cells_of self.old) }
        requires in_time { now ≤ TICKS }
        ensures set { IsClocked moment now (checked_plan plan.now) (cells_of self.old) (cells_of self.new) }
        ensures by { IsBy (cells_of self.new) }
        ensures kept { kept_of self.new ≡ kept_of self.old }
        ensures opened { is_open self.new ≡ true }
    {
        let start = moment.number().saturating_sub(u64::from(now));
        let midnight = midnight_at(&Some(start), now);
        let anew = self.selected(&self.pattern(), now, midnight, plan);
        self.bank.put(1, anew.since);
        self.bank.put(2, anew.ahead);
        self.bank.put(3, anew.midnight);
        self.bank.put(4, (start / u64::from(DAY)) as u32);
        self.bank.put(5, (start % u64::from(DAY)) as u32);
    }

    /// How the local counter comes into step where this pattern is selected, with this midnight.
    fn selected(
        &self,
        selected: &Option<Pattern>,
        now: u32,
        midnight: u32,
        plan: &Checked,
    ) -> Correction
        requires by { IsBy (cells_of self.now) }
        requires in_time { now ≤ TICKS }
        requires midnight { midnight < FIRST_MOMENT + DAY }
        requires used { (n : ℕ) → selected.now ≡ Some n →
            IfSome (local_now (checked_plan plan.now) (pattern_in (cells_of self.now)) (correction_in (cells_of self.now)) now) (λ l. is_used (checked_plan plan.now) n ≡ true) }
        ensures value { result ≡ selected_correction (checked_plan plan.now) selected.now now midnight
            (local_now (checked_plan plan.now) (pattern_in (cells_of self.now)) (correction_in (cells_of self.now)) now) }
        ensures since { result.since ≤ TICKS }
        ensures ahead { result.ahead ≤ 2550 }
        ensures midnight { result.midnight < FIRST_MOMENT + DAY }
    {
        match selected {
            None => Correction {
                since: 0,
                ahead: 0,
                midnight: 0,
            },
            Some(pattern) => begun(plan, *pattern, now, midnight, &self.local(now, plan)),
        }
    }

    /// The moment of tick number 0, in tenths of a second since 1999-12-24 00:00, or `None` where no clock is set.
    #[inline(always)]
    pub fn start(&self) -> Option<u64>
        requires by { IsBy (cells_of self.now) }
        ensures value { result ≡ start_in (cells_of self.now) }
        ensures counted { IfSome result (λ m. m < (LAST_DAY + 1) * DAY) }
    {
        let start = u64::from(self.bank.get(4)) * u64::from(DAY) + u64::from(self.bank.get(5));
        if start == 0 { None } else { Some(start) }
    }

    /// How the local counter comes into step.
    #[inline(always)]
    pub(crate) fn correction(&self) -> Correction
        requires by { IsBy (cells_of self.now) }
        ensures value { result ≡ correction_in (cells_of self.now) }
        ensures since { result.since ≤ TICKS }
        ensures midnight { result.midnight < FIRST_MOMENT + DAY }
    {
        Correction {
            since: self.bank.get(1),
            ahead: self.bank.get(2),
            midnight: self.bank.get(3),
        }
    }

    /// The pattern that is selected, whether it runs or not, or `None` for free operation.
    #[inline(always)]
    pub fn pattern(&self) -> Option<Pattern>
        requires by { IsBy (cells_of self.now) }
        ensures { TellsPattern (cells_of self.now) result }
    {
        Pattern::new(self.bank.get(0))
    }

    /// The pattern that runs: the one that is selected, if it has a cycle.
    #[inline(always)]
    pub fn running(&self, plan: &Checked) -> Option<Pattern>
        requires by { IsBy (cells_of self.now) }
        ensures runs { result ≡ running (checked_plan plan.now) (pattern_in (cells_of self.now)) }
        ensures used { IfSome result (λ n. is_used (checked_plan plan.now) n ≡ true) }
    {
        match self.pattern() {
            None => None,
            Some(n) => {
                if plan.plan().is_used(n) {
                    Some(n)
                } else {
                    None
                }
            }
        }
    }

    /// What coordination says in tick `now`, at most the last that there is.
    #[inline(always)]
    pub fn orders(&self, now: u32, plan: &Checked) -> Coordination
        requires by { IsBy (cells_of self.now) }
        requires in_time { now ≤ TICKS }
        ensures orders { AreOrders now (checked_plan plan.now) (cells_of self.now) result }
    {
        match self.running(plan) {
            None => free(),
            Some(n) => {
                let asked = asked_in(plan, n, self.correction(), now);
                Coordination {
                    runs: Some(n),
                    sequence: plan.sequence_in_effect(Some(n)),
                    hold: plan.coordinated(Some(n)),
                    forced: asked.forced,
                    recycle: asked.recycle,
                    omit: plan.omitted(Some(n)),
                }
            }
        }
    }

    /// The first tick after `now` at which `orders` may differ: the next force-off instant of the pattern that runs, or
    /// the first tick behind a permissive time, or the first at which a recycled walk no longer fits, or the next tick,
    /// where `now` is at an instant, or the local counter is coming into step. Late force-off begins and ends at
    /// instants too. In free operation it is after the last tick that there is.
    pub fn due(&self, now: u32, plan: &Checked) -> u32
        requires by { IsBy (cells_of self.now) }
        requires in_time { now ≤ TICKS }
        ensures later { now < result }
        ensures quiet { KeepsOrders now (checked_plan plan.now) (cells_of self.now) result }
        ensures exact { IsExact now (checked_plan plan.now) (cells_of self.now) result }
    {
        match self.running(plan) {
            None => TICKS + 1,
            Some(n) => {
                n.known();
                let _consistent = plan.plan();
                let correction = self.correction();
                if ahead_before(plan, n, correction, now) == 0 {
                    let clocked = now + shift(plan, n, correction.midnight);
                    now + ticks_to_next(plan, n, counter(plan, n, clocked))
                } else {
                    now + 1
                }
            }
        }
    }

    /// The local counter at tick number `now`, at most the last that there is, in ticks, or `None` in free operation.
    /// It goes on while the bench is tripped.
    pub fn local(&self, now: u32, plan: &Checked) -> Option<u32>
        requires by { IsBy (cells_of self.now) }
        requires in_time { now ≤ TICKS }
        ensures { TellsLocal now (checked_plan plan.now) (cells_of self.now) result }
    {
        match self.running(plan) {
            None => None,
            Some(n) => {
                let correction = self.correction();
                let ahead = ahead_in(plan, n, correction, now);
                let clocked = now + shift(plan, n, correction.midnight);
                Some(counter(plan, n, clocked + ahead))
            }
        }
    }

    /// The tick in which a counter from tick number 0 is where that in step is at tick number `now`, at most the last that
    /// there is: `now` itself where no clock is set, and in free operation.
    pub fn clocked(&self, now: u32, plan: &Checked) -> u32
        requires by { IsBy (cells_of self.now) }
        requires in_time { now ≤ TICKS }
        ensures value { result ≡ clocked (checked_plan plan.now) (pattern_in (cells_of self.now)) (correction_in (cells_of self.now)) now }
        ensures small { result ≤ TICKS + 2550 }
    {
        match self.running(plan) {
            None => now,
            Some(n) => now + shift(plan, n, self.bank.get(3)),
        }
    }

    /// Ends a change as `close` does, and adds each cell that differs to `out`, with what it held at `open`: the cell 0
    /// has the number `offset` there.
    pub fn close_onto<const M: usize>(&mut self, out: &mut ArrayVec<(u16, u32), M>, offset: u16)
        requires opened { is_open self.old ≡ true }
        requires fits { offset + CELLS ≤ 2 ^ 16 }
        requires room { array_vec_len out.old + CELLS ≤ M }
        ensures changes { out.new.items ≡ out.old.items ++ shifted offset (diff (kept_of self.old) (cells_of self.old)) }
        ensures len { array_vec_len out.new ≤ array_vec_len out.old + CELLS }
        ensures cells { cells_of self.new ≡ cells_of self.old }
        ensures closed { is_open self.new ≡ false }
    {
        self.bank.close_onto(out, offset);
    }
}

impl Reversible<CELLS> for Coord {
    ghost use Rattle.tsb_coord.specs.Layer.{cells_of, kept_of, is_open};

    ghost cells = { λ s. cells_of s };

    ghost kept = { λ s. kept_of s };

    ghost is_open = { λ s. is_open s };

    ghost allows = { λ row. length row ≡ CELLS };

    ghost indexed = { λ s. s.bank.indexed };

    ghost length_cells = { λ s. s.bank.cells_full };

    ghost length_kept = { λ s. s.bank.kept_full };

    ghost cells_allowed = { λ s. s.bank.cells_full };

    ghost kept_allowed = { λ s. s.bank.kept_full };

    fn open(&mut self) {
        self.bank.open()
    }

    fn close(&mut self) -> Diff<CELLS> {
        self.bank.close()
    }

    fn undo(&mut self, changes: &[(u16, u32)]) {
        self.bank.undo(changes)
    }

    #[inline(always)]
    fn undo_cell(&mut self, at: usize, old: u32) {
        self.bank.undo_cell(at, old)
    }
}
