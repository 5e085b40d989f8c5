//! The overlaps as a layer: their cells, and the calls that read and change them.
//!
//! A call that changes cells is made between `open` and `close`; what it changed is then reported, and can be undone.

ghost use Rattle.std.specs.Prelude.{◌≡◌, ℕ, ◌+◌, ◌-◌, ◌≤◌, ◌<◌, ◌^◌, ◌++◌, Bool, true, false, if◌then◌else◌, List, Option, Some, None, length, slice_index};
ghost use Rattle.arrayvec.specs.ArrayVec.{array_vec_len};
ghost use Rattle.tsb_cells.specs.Diff.{diff, shifted};
ghost use Rattle.tsb_objects.specs.Checked.{checked_plan};
ghost use Rattle.tsb_objects.specs.tsb_plan.Parts.{is_timed};
ghost use Rattle.tsb_objects.specs.tsb_plan.PlanOf.{plan_of};
ghost use Rattle.tsb_objects.specs.tsb_types.declared.flow.OverlapLights.{OverlapLights};
ghost use Rattle.tsb_objects.specs.tsb_types.Sets.{has, has_number};
ghost use Rattle.tsb_overlap.specs.declared.TheConstants.{CELLS};
ghost use Rattle.tsb_overlap.specs.Overlap.{run_on, settled, holds_by, holds, trail_left};
ghost use Rattle.tsb_overlap.specs.Cells.{IsBy, IsOverlapBy, overlap_of, part_in, overlap_in, omitted_in};
ghost use Rattle.tsb_overlap.specs.Parts.{KeepsOthers};
ghost use Rattle.tsb_overlap.specs.Promises.{IsAtPowerUp, IsOmitted, TellsLights, TellsTrails, IsRunOn, AreHeld, IsSettled, AreQuietUntil, TellsHolder};
ghost use Rattle.tsb_overlap.specs.Reading.{given_by};

use crate::cells::{FLASHING, GREEN, OMITTED, TRAIL_GREEN, YELLOW};
use crate::surroundings::Surroundings;
use crate::{CELLS, kinds, trail};
use arrayvec::ArrayVec;
use tsb_cells::{Bank, Diff, Reversible};
use tsb_objects::limits::OVERLAPS;
use tsb_objects::{Checked, NumberSet, Overlap, OverlapLights, Phase, PhaseSet, Plan};

/// The overlaps that have intervals of their own: what each is in, its timer, and which arrows are omitted.
#[derive(Clone, Copy)]
pub struct TimedOverlaps {
    pub(crate) bank: Bank<CELLS>,
}

impl TimedOverlaps {
    ghost use Rattle.tsb_overlap.specs.Layer.{cells_of, kept_of, is_open, KeepsLists, KeepsOmitted};

    /// Overlaps as at power-up: all red, and no arrow is omitted.
    pub fn new() -> TimedOverlaps
        ensures fresh { IsAtPowerUp (cells_of result) }
        ensures by { (now : ℕ) → IsBy now (cells_of result) }
        ensures closed { is_open result ≡ false }
    {
        TimedOverlaps { bank: Bank::new() }
    }

    /// Overlaps as at power-up. The tick is that of every layer's `reset`; no timer of overlaps begins at it.
    pub fn reset(&mut self, _now: u32)
        requires opened { is_open self.old ≡ true }
        ensures fresh { IsAtPowerUp (cells_of self.new) }
        ensures by { (now : ℕ) → IsBy now (cells_of self.new) }
        ensures kept { kept_of self.new ≡ kept_of self.old }
        ensures opened { is_open self.new ≡ true }
    {
        self.clear();
    }

    /// Omits the arrows of a set, and lets others flash.
    pub fn omit(&mut self, set: NumberSet)
        requires opened { is_open self.old ≡ true }
        ensures state { IsOmitted set (cells_of self.old) (cells_of self.new) }
        ensures by { (now : ℕ) → IsBy now (cells_of self.old) → IsBy now (cells_of self.new) }
        ensures kept { kept_of self.new ≡ kept_of self.old }
        ensures opened { is_open self.new ≡ true }
    {
        self.put_omitted(set);
    }

    /// The arrows that are omitted.
    pub fn omitted(&self) -> NumberSet
        ensures { (o : ℕ) → has_number result o ≡ omitted_in (cells_of self.now) o }
    {
        self.listed(OMITTED)
    }

    /// What the heads of these overlaps show.
    pub fn lights(&self) -> OverlapLights
        ensures { TellsLights (cells_of self.now) result }
    {
        OverlapLights {
            green: self.listed(GREEN).union(self.listed(TRAIL_GREEN)),
            flashing: self.listed(FLASHING),
            yellow: self.listed(YELLOW),
        }
    }

    /// The overlaps that are green after their phases.
    pub fn trailing_greens(&self) -> NumberSet
        ensures { TellsTrails (cells_of self.now) result }
    {
        self.listed(TRAIL_GREEN)
    }

    /// As tick `now` begins, of one overlap: what has lasted its time is over. It gives the phases that it holds in
    /// clearance.
    fn run_one(&mut self, o: Overlap, now: u32, is_preempted: bool, plan: &Checked) -> PhaseSet
        requires opened { is_open self.old ≡ true }
        requires fits { now + 1 < 2 ^ 32 }
        requires timed { is_timed (checked_plan plan.now) o ≡ true }
        requires by { IsOverlapBy now (cells_of self.old) o }
        ensures own { overlap_of now (part_in (cells_of self.new) o) ≡ run_on (checked_plan plan.now) is_preempted o (overlap_of now (part_in (cells_of self.old) o)) }
        ensures held { (p : ℕ) → has result p ≡ holds_by (checked_plan plan.now) o (run_on (checked_plan plan.now) is_preempted o (overlap_of now (part_in (cells_of self.old) o))).interval p }
        ensures by { IsOverlapBy now (cells_of self.new) o }
        ensures others { KeepsOthers o (cells_of self.old) (cells_of self.new) }
        ensures omitted { slice_index (cells_of self.new) 5 ≡ slice_index (cells_of self.old) 5 }
        ensures lists { KeepsLists (cells_of self.old) (cells_of self.new) }
        ensures kept { kept_of self.new ≡ kept_of self.old }
        ensures opened { is_open self.new ≡ true }
    {
        let was = self.part(o);
        let part = kinds::run_on(plan.plan(), o, &was, now, is_preempted);
        self.put_part(o, &was, &part);
        kinds::held_by(plan.plan(), o, &part)
    }

    /// As tick `now` begins: what has lasted its time is over. It gives the phases that overlaps which trail hold in
    /// clearance in this tick: those that they include, until they are off.
    pub fn run_on(&mut self, now: u32, is_preempted: bool, plan: &Checked) -> PhaseSet
        requires opened { is_open self.old ≡ true }
        requires begun { 1 ≤ now }
        requires fits { now + 1 < 2 ^ 32 }
        requires by { IsBy (now - 1) (cells_of self.old) }
        ensures state { IsRunOn now is_preempted (checked_plan plan.now) (cells_of self.old) (cells_of self.new) }
        ensures held { AreHeld now is_preempted (checked_plan plan.now) (cells_of self.old) result }
        ensures omitted { KeepsOmitted (cells_of self.old) (cells_of self.new) }
        ensures by { IsBy now (cells_of self.new) }
        ensures kept { kept_of self.new ≡ kept_of self.old }
        ensures opened { is_open self.new ≡ true }
    {
        let mut held = PhaseSet::empty();
        let mut rest = plan.timed_overlaps();
        while let Some(number) = rest.first() {
            rest = rest.with(number, false);
            held = held.union(self.run_one(Overlap::of(number), now, is_preempted, plan));
        }
        held
    }

    /// After the phases have moved in tick `now`, one overlap follows them.
    fn settle_one(
        &mut self,
        o: Overlap,
        now: u32,
        seen: &Surroundings,
        is_omitted: bool,
        plan: &Checked,
    )
        requires opened { is_open self.old ≡ true }
        requires fits { now + 1 < 2 ^ 32 }
        requires timed { is_timed (checked_plan plan.now) o ≡ true }
        requires by { IsOverlapBy now (cells_of self.old) o }
        ensures own { (omitted : ℕ → Bool) (lights : OverlapLights) → omitted o ≡ is_omitted →
            overlap_of now (part_in (cells_of self.new) o)
            ≡ settled (checked_plan plan.now) (given_by now seen.now omitted lights) o (overlap_of now (part_in (cells_of self.old) o)) }
        ensures by { IsOverlapBy now (cells_of self.new) o }
        ensures others { KeepsOthers o (cells_of self.old) (cells_of self.new) }
        ensures omitted { slice_index (cells_of self.new) 5 ≡ slice_index (cells_of self.old) 5 }
        ensures lists { KeepsLists (cells_of self.old) (cells_of self.new) }
        ensures kept { kept_of self.new ≡ kept_of self.old }
        ensures opened { is_open self.new ≡ true }
    {
        let was = self.part(o);
        let part = kinds::settled(plan, o, &was, seen, now, is_omitted);
        self.put_part(o, &was, &part);
    }

    /// After the phases have moved in tick `now`: arrows and overlaps that trail follow them.
    pub fn settle(&mut self, now: u32, seen: &Surroundings, plan: &Checked)
        requires opened { is_open self.old ≡ true }
        requires fits { now + 1 < 2 ^ 32 }
        requires by { IsBy now (cells_of self.old) }
        ensures state { (lights : OverlapLights) → IsSettled now (given_by now seen.now (omitted_in (cells_of self.old)) lights) (checked_plan plan.now) (cells_of self.old) (cells_of self.new) }
        ensures omitted { KeepsOmitted (cells_of self.old) (cells_of self.new) }
        ensures by { IsBy now (cells_of self.new) }
        ensures kept { kept_of self.new ≡ kept_of self.old }
        ensures opened { is_open self.new ≡ true }
    {
        let omitted = self.omitted();
        let mut rest = plan.timed_overlaps();
        while let Some(number) = rest.first() {
            rest = rest.with(number, false);
            self.settle_one(
                Overlap::of(number),
                now,
                seen,
                omitted.contains(number),
                plan,
            );
        }
    }

    /// The tick up to which overlaps stay as tick `now` left them, while phases, rings and preempts do: where that tick
    /// left each as it was, so does each tick before it. It is that at which a timed interval of one is over, or a
    /// green has lasted for the delay of an arrow that includes its phase; `u32::MAX` where there is none.
    pub fn due(&self, now: u32, seen: &Surroundings, plan: &Checked) -> u32
        requires begun { 1 ≤ now }
        requires fits { now + 1 < 2 ^ 32 }
        requires by { IsBy (now - 1) (cells_of self.now) }
        ensures later { now < result }
        ensures quiet { AreQuietUntil now seen.now (checked_plan plan.now) (cells_of self.now) result }
    {
        let mut due = u32::MAX;
        let mut rest = plan.timed_overlaps();
        while let Some(number) = rest.first() {
            rest = rest.with(number, false);
            let o = Overlap::of(number);
            due = due.min(kinds::due(plan.plan(), o, &self.part(o), seen, now));
        }
        due.max(now + 1)
    }

    /// How long an overlap holds a phase in clearance still after tick `now`, at most, where it does in the tick after
    /// it and the preempt in service stays.
    fn held_left(
        &self,
        o: Overlap,
        phase: Phase,
        now: u32,
        is_preempted: bool,
        plan: &Plan,
    ) -> Option<u32>
        requires fits { now + 2 < 2 ^ 32 }
        requires by { IsBy now (cells_of self.now) }
        ensures { result ≡ (if holds (plan_of plan.now) is_preempted (overlap_in now (cells_of self.now)) phase o
            then Some (trail_left (plan_of plan.now) is_preempted o (overlap_in now (cells_of self.now) o) (overlap_in now (cells_of self.now) o).interval) else None) }
    {
        o.known();
        if !plan.trails(o) {
            return None;
        }
        let was = self.part(o);
        let part = kinds::run_on(plan, o, &was, now + 1, is_preempted);
        if kinds::held_by(plan, o, &part).contains(phase) {
            Some(trail::left(plan, o, &was, now, is_preempted))
        } else {
            None
        }
    }

    /// The least overlap that holds the phase in clearance in the tick after tick number `now`, where the preempt in
    /// service stays. With it how long it does so still, at most, in ticks.
    pub fn holder(
        &self,
        phase: Phase,
        now: u32,
        is_preempted: bool,
        plan: &Checked,
    ) -> Option<(Overlap, u32)>
        requires fits { now + 2 < 2 ^ 32 }
        requires by { IsBy now (cells_of self.now) }
        ensures { TellsHolder phase now is_preempted (checked_plan plan.now) (cells_of self.now) result }
    {
        for number in 1..OVERLAPS + 1 {
            let o = Overlap::of(number);
            if let Some(left) = self.held_left(o, phase, now, is_preempted, plan.plan()) {
                return Some((o, left));
            }
        }
        None
    }

    /// Ends a change as `close` does, and adds each cell that differs to `out`, with what it held at `open`: the cell 0
    /// has the number `offset` there.
    pub fn close_onto<const M: usize>(&mut self, out: &mut ArrayVec<(u16, u32), M>, offset: u16)
        requires opened { is_open self.old ≡ true }
        requires fits { offset + CELLS ≤ 2 ^ 16 }
        requires room { array_vec_len out.old + CELLS ≤ M }
        ensures changes { out.new.items ≡ out.old.items ++ shifted offset (diff (kept_of self.old) (cells_of self.old)) }
        ensures len { array_vec_len out.new ≤ array_vec_len out.old + CELLS }
        ensures cells { cells_of self.new ≡ cells_of self.old }
        ensures closed { is_open self.new ≡ false }
    {
        self.bank.close_onto(out, offset);
    }
}

impl Reversible<CELLS> for TimedOverlaps {
    ghost use Rattle.tsb_overlap.specs.Layer.{cells_of, kept_of, is_open};

    ghost cells = { λ s. cells_of s };

    ghost kept = { λ s. kept_of s };

    ghost is_open = { λ s. is_open s };

    ghost allows = { λ row. length row ≡ CELLS };

    ghost indexed = { λ s. s.bank.indexed };

    ghost length_cells = { λ s. s.bank.cells_full };

    ghost length_kept = { λ s. s.bank.kept_full };

    ghost cells_allowed = { λ s. s.bank.cells_full };

    ghost kept_allowed = { λ s. s.bank.kept_full };

    fn open(&mut self) {
        self.bank.open()
    }

    fn close(&mut self) -> Diff<CELLS> {
        self.bank.close()
    }

    fn undo(&mut self, changes: &[(u16, u32)]) {
        self.bank.undo(changes)
    }

    #[inline(always)]
    fn undo_cell(&mut self, at: usize, old: u32) {
        self.bank.undo_cell(at, old)
    }
}
