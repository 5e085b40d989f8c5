//! A tick over the cells: each phase in service is visited, and what the tick says of all phases is put together.
ghost use Rattle.std.specs.Prelude.{◌≡◌, ◌≢◌, ℕ, ◌+◌, ◌<◌, ◌≤◌, ◌^◌, true, false};
ghost use Rattle.tsb_objects.specs.Checked.{checked_plan};
ghost use Rattle.tsb_objects.specs.tsb_plan.Plan.{red_revert};
ghost use Rattle.tsb_objects.specs.tsb_types.Intervals.{in_service};
ghost use Rattle.tsb_objects.specs.tsb_types.Sets.{has};
ghost use Rattle.tsb_cells.specs.Timer.{timer_at};
ghost use Rattle.tsb_phase.specs.Ready.{has_passed};
ghost use Rattle.tsb_phase.specs.Promises.{given_of};
ghost use Rattle.tsb_phase.specs.Cells.{row_in, interval_of_row, IsRowBy};
ghost use Rattle.tsb_phase.specs.Rows.{IsVisit, IsFresh, IsToldAs, told};

use crate::conditions::Conditions;
use crate::phases::Phases;
use crate::rows::{CLEARING, RED_REVERTS, RIGHT_OF_WAY};
use crate::visit::{visit_green, visit_red_clear, visit_yellow};
use tsb_objects::{Checked, Phase, PhaseSet, Timing};

/// Whether the timer of a cell is Off or has reached the limit at tick `now`. Both are always tested: so a loop over
/// all phases has no branch, and takes several of them at a time.
#[inline(always)]
fn is_off_or_past(now: u32, cell: u32, limit: u32) -> bool
    requires { now + 1 < 2 ^ 32 }
    ensures { result ≡ has_passed (timer_at now cell) limit }
{
    (cell == 0) | (limit <= (now + 1).saturating_sub(cell))
}

impl Phases {
    ghost use Rattle.tsb_phase.specs.Layer.{cells_of, kept_of, is_open, KeepsLists};

    /// Runs a tick of one phase in service, and adds what the tick says of it to `timing`.
    #[inline(always)]
    fn visit(
        &mut self,
        now: u32,
        plan: &Checked,
        conditions: &Conditions,
        p: Phase,
        timing: &mut Timing,
    )
        requires fits { now + 1 < 2 ^ 32 }
        requires opened { is_open self.old ≡ true }
        requires by { IsRowBy now (row_in (cells_of self.old) p) }
        requires service { in_service (interval_of_row (row_in (cells_of self.old) p)) ≡ true }
        requires fresh { IsFresh now (checked_plan plan.now) (row_in (cells_of self.old) p) timing.old p }
        ensures visit { IsVisit now (checked_plan plan.now) (given_of conditions.now) p (row_in (cells_of self.old) p) (told (row_in (cells_of self.new) p) timing.new p) }
        ensures others { (q : ℕ) → 1 ≤ q → q ≤ 16 → q ≢ p → row_in (cells_of self.new) q ≡ row_in (cells_of self.old) q }
        ensures told_others { (q : ℕ) → q ≢ p → IsToldAs timing.old timing.new q }
        ensures lists { KeepsLists (cells_of self.old) (cells_of self.new) }
        ensures kept { kept_of self.new ≡ kept_of self.old }
        ensures opened { is_open self.new ≡ true }
    {
        let was = self.load(p);
        if was.right_of_way && !was.clearing {
            let visit = visit_green(now, plan, conditions, p, &was);
            self.store(p, &was, &visit.row);
            timing.ready = timing.ready.joined(p, visit.ready);
            timing.gapped = timing.gapped.joined(p, visit.gapped);
            timing.walks = timing.walks.joined(p, visit.walks);
        } else if was.right_of_way {
            let visit = visit_yellow(now, plan.plan(), conditions, p, &was);
            self.store(p, &was, &visit.row);
            timing.over = timing.over.joined(p, visit.over);
            timing.red_revert_passed = timing.red_revert_passed.with(p, visit.reverted);
        } else if was.clearing {
            let visit = visit_red_clear(now, plan.plan(), conditions, p, &was);
            timing.over = timing.over.joined(p, visit.over);
        }
    }

    /// The phases whose red revert timer is Off or has reached its time, by each of them. It stays out of line: mostly
    /// none is left to reach its time.
    #[inline(never)]
    #[tactic(auto, unfolding(crate::specs::Cells::row_in))]
    fn reverted(&self, now: u32, plan: &Checked) -> PhaseSet
        requires { now + 1 < 2 ^ 32 }
        ensures { (p : ℕ) → 1 ≤ p → p ≤ 16 →
            has result p ≡ has_passed (timer_at now (row_in (cells_of self.now) p).red_revert) (red_revert (checked_plan plan.now) p) }
    {
        let mut reverted = PhaseSet::empty();
        for number in 1..17u8 {
            let p = Phase::of(number);
            let cell = self.cell(RED_REVERTS, p);
            let time = plan.plan().red_revert(p);
            reverted = reverted.joined(p, is_off_or_past(now, cell, time));
        }
        reverted
    }

    /// The phases whose red revert timer is Off or has reached its time.
    #[inline(always)]
    fn red_revert_passed(&self, now: u32, plan: &Checked) -> PhaseSet
        requires { now + 1 < 2 ^ 32 }
        ensures { (p : ℕ) → 1 ≤ p → p ≤ 16 →
            has result p ≡ has_passed (timer_at now (row_in (cells_of self.now) p).red_revert) (red_revert (checked_plan plan.now) p) }
    {
        if self.may_revert(now, plan.longest_red_revert()) {
            self.reverted(now, plan)
        } else {
            PhaseSet::from_list(u16::MAX)
        }
    }

    /// The phases in service.
    #[tactic(auto, unfolding(crate::specs::Cells::row_in))]
    pub(crate) fn in_service(&self) -> PhaseSet
        ensures { (p : ℕ) → has result p ≡ in_service (interval_of_row (row_in (cells_of self.now) p)) }
    {
        self.list(RIGHT_OF_WAY).union(self.list(CLEARING))
    }

    /// The times of phases run.
    pub(crate) fn run(&mut self, now: u32, conditions: &Conditions, plan: &Checked) -> Timing
        requires opened { is_open self.old ≡ true }
        requires fits { now + 1 < 2 ^ 32 }
        requires by { (p : ℕ) → 1 ≤ p → p ≤ 16 → IsRowBy now (row_in (cells_of self.old) p) }
        ensures each { (p : ℕ) → 1 ≤ p → p ≤ 16 →
            IsVisit now (checked_plan plan.now) (given_of conditions.now) p (row_in (cells_of self.old) p) (told (row_in (cells_of self.new) p) result p) }
        ensures lists { KeepsLists (cells_of self.old) (cells_of self.new) }
        ensures kept { kept_of self.new ≡ kept_of self.old }
        ensures opened { is_open self.new ≡ true }
    {
        let mut timing = Timing {
            ready: PhaseSet::empty(),
            over: PhaseSet::empty(),
            red_revert_passed: self.red_revert_passed(now, plan),
            gapped: PhaseSet::empty(),
            walks: PhaseSet::empty(),
        };
        let mut rest = self.in_service();
        while let Some(p) = rest.pop() {
            self.visit(now, plan, conditions, p, &mut timing);
        }
        timing
    }
}
