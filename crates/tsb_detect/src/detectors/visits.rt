//! A tick of detectors: those that may change are worked out, and all others are proved to stay as they are.
ghost use Rattle.tsb_objects.specs.tsb_types.declared.limits.TheConstants.{VEHICLE_DETECTORS};
ghost use Rattle.std.specs.Prelude.{◌≡◌, ◌≢◌, ℕ, ◌+◌, ◌<◌, ◌≤◌, ◌^◌, true, false};
ghost use Rattle.tsb_objects.specs.Checked.{checked_plan};
ghost use Rattle.tsb_objects.specs.tsb_plan.PlanOf.{plan_of};
ghost use Rattle.tsb_objects.specs.tsb_plan.Parts.{call_phase};
ghost use Rattle.tsb_objects.specs.tsb_types.Sets.{has_detector};
ghost use Rattle.tsb_detect.specs.Promises.{green_timer_of};
ghost use Rattle.tsb_detect.specs.Cells.{row_in};
ghost use Rattle.tsb_detect.specs.Rows.{IsRead, IsVisit, IsSettled, HasNoAlarm, is_due, is_tested};

use super::cells::{ACTUATIONS, CHANGES, ERRATIC, INACTIVE, INPUTS, OUTPUTS, PRESENT};
use crate::detectors::Detectors;
use crate::detectors::cells::list;
use crate::diagnostics::{MINUTE, is_tested, timed};
use crate::greens::Greens;
use crate::output::{green_of, next_row};
use crate::sets::{all, differing, has, joined};
use tsb_objects::{Checked, Detector, DetectorSet, Plan};

impl Detectors {
    ghost use Rattle.tsb_detect.specs.Layer.{cells_of, kept_of, is_open, KeepsLists};

    /// The detectors that the lists do not show to be settled at their inputs.
    #[inline(always)]
    #[tactic(auto, unfolding(crate::specs::Cells::row_in))]
    pub(super) fn unsettled(&self, inputs: DetectorSet) -> DetectorSet
        ensures { (d : ℕ) → has_detector result d ≡ false → IsSettled (has_detector inputs d) (row_in (cells_of self.now) d) }
    {
        let changed = differing(inputs, list(&self.bank, INPUTS)).union(differing(
            inputs,
            list(&self.bank, OUTPUTS),
        ));
        changed
            .union(list(&self.bank, ACTUATIONS))
            .union(self.alarmed())
    }

    /// The detectors that have an alarm.
    #[inline(always)]
    #[tactic(auto, unfolding(crate::specs::Cells::row_in))]
    fn alarmed(&self) -> DetectorSet
        ensures { (d : ℕ) → has_detector result d ≡ false → HasNoAlarm (row_in (cells_of self.now) d) }
    {
        list(&self.bank, INACTIVE)
            .union(list(&self.bank, PRESENT))
            .union(list(&self.bank, ERRATIC))
    }

    /// The cell of a change timer.
    #[inline(always)]
    #[tactic(auto, unfolding(crate::specs::Cells::row_in))]
    pub(super) fn change(&self, now: u32, d: Detector) -> u32
        requires range { (e : ℕ) → 1 ≤ e → e ≤ VEHICLE_DETECTORS → (row_in (cells_of self.now) e).change ≤ now + 1 }
        ensures value { result ≡ (row_in (cells_of self.now) d).change }
        ensures range { result ≤ now + 1 }
    {
        d.known();
        self.cell(CHANGES, d)
    }

    /// The detectors that a tick looks at for their time, where it is not a whole minute.
    #[inline(always)]
    fn tested(&self, now: u32, inputs: DetectorSet, plan: &Checked) -> DetectorSet
        requires fits { now + 1 < 2 ^ 32 }
        requires read { (d : ℕ) → 1 ≤ d → d ≤ VEHICLE_DETECTORS → IsRead now (row_in (cells_of self.now) d) }
        ensures { (d : ℕ) → 1 ≤ d → d ≤ VEHICLE_DETECTORS →
            has_detector result d ≡ is_tested now (checked_plan plan.now) d (has_detector inputs d) (row_in (cells_of self.now) d).change }
    {
        let mut found = DetectorSet::empty();
        let mut rest = timed(inputs, plan);
        while let Some(d) = rest.pop_detector() {
            let change = self.change(now, d);
            let on = is_tested(now, plan.plan(), d, has(inputs, d), change);
            found = joined(found, d, on);
        }
        found
    }

    /// The detectors that a tick looks at for their time.
    #[inline(always)]
    fn due_set(&self, now: u32, inputs: DetectorSet, plan: &Checked) -> DetectorSet
        requires fits { now + 1 < 2 ^ 32 }
        requires read { (d : ℕ) → 1 ≤ d → d ≤ VEHICLE_DETECTORS → IsRead now (row_in (cells_of self.now) d) }
        ensures { (d : ℕ) → 1 ≤ d → d ≤ VEHICLE_DETECTORS →
            has_detector result d ≡ is_due now (checked_plan plan.now) d (has_detector inputs d) (row_in (cells_of self.now) d).change }
    {
        if now % MINUTE == 0 {
            all()
        } else {
            self.tested(now, inputs, plan)
        }
    }

    /// Works out one detector.
    #[inline(always)]
    fn visit(&mut self, now: u32, inputs: DetectorSet, greens: &Greens, plan: &Plan, d: Detector)
        requires fits { now + 1 < 2 ^ 32 }
        requires opened { is_open self.old ≡ true }
        requires read { IsRead now (row_in (cells_of self.old) d) }
        ensures visit { IsVisit now (plan_of plan.now) d (has_detector inputs d) (green_timer_of now greens.now (call_phase (plan_of plan.now) d)) (row_in (cells_of self.old) d) (row_in (cells_of self.new) d) }
        ensures others { (e : ℕ) → 1 ≤ e → e ≤ VEHICLE_DETECTORS → e ≢ d → row_in (cells_of self.new) e ≡ row_in (cells_of self.old) e }
        ensures lists { KeepsLists (cells_of self.old) (cells_of self.new) }
        ensures kept { kept_of self.new ≡ kept_of self.old }
        ensures opened { is_open self.new ≡ true }
    {
        let was = self.load(d);
        let green = green_of(now, greens, plan, d);
        let row = next_row(now, plan, d, has(inputs, d), green, &was);
        self.store(d, &was, &row);
    }

    /// Works out these detectors, where the tick leaves all others as they are.
    #[inline(never)]
    fn visit_each(
        &mut self,
        visited: DetectorSet,
        now: u32,
        inputs: DetectorSet,
        greens: &Greens,
        plan: &Plan,
    )
        requires fits { now + 1 < 2 ^ 32 }
        requires opened { is_open self.old ≡ true }
        requires read { (d : ℕ) → 1 ≤ d → d ≤ VEHICLE_DETECTORS → IsRead now (row_in (cells_of self.old) d) }
        requires others { (d : ℕ) → 1 ≤ d → d ≤ VEHICLE_DETECTORS → has_detector visited d ≡ false →
            IsVisit now (plan_of plan.now) d (has_detector inputs d) (green_timer_of now greens.now (call_phase (plan_of plan.now) d)) (row_in (cells_of self.old) d) (row_in (cells_of self.old) d) }
        ensures each { (d : ℕ) → 1 ≤ d → d ≤ VEHICLE_DETECTORS →
            IsVisit now (plan_of plan.now) d (has_detector inputs d) (green_timer_of now greens.now (call_phase (plan_of plan.now) d)) (row_in (cells_of self.old) d) (row_in (cells_of self.new) d) }
        ensures lists { KeepsLists (cells_of self.old) (cells_of self.new) }
        ensures kept { kept_of self.new ≡ kept_of self.old }
        ensures opened { is_open self.new ≡ true }
    {
        let mut rest = visited;
        while let Some(d) = rest.pop_detector() {
            self.visit(now, inputs, greens, plan, d);
        }
    }

    /// Works out the detectors that may change; a tick in which none may is over here.
    #[inline(always)]
    pub(super) fn run(&mut self, now: u32, inputs: DetectorSet, greens: &Greens, plan: &Checked)
        requires fits { now + 1 < 2 ^ 32 }
        requires opened { is_open self.old ≡ true }
        requires read { (d : ℕ) → 1 ≤ d → d ≤ VEHICLE_DETECTORS → IsRead now (row_in (cells_of self.old) d) }
        ensures each { (d : ℕ) → 1 ≤ d → d ≤ VEHICLE_DETECTORS →
            IsVisit now (checked_plan plan.now) d (has_detector inputs d) (green_timer_of now greens.now (call_phase (checked_plan plan.now) d)) (row_in (cells_of self.old) d) (row_in (cells_of self.new) d) }
        ensures lists { KeepsLists (cells_of self.old) (cells_of self.new) }
        ensures kept { kept_of self.new ≡ kept_of self.old }
        ensures opened { is_open self.new ≡ true }
    {
        let due = self.due_set(now, inputs, plan);
        let visited = self.unsettled(inputs).union(due);
        if !visited.is_empty() {
            let judged = self.alarmed().union(due);
            if judged.is_empty() {
                self.run_sound(now, inputs, greens, plan.plan());
            } else {
                self.visit_each(visited, now, inputs, greens, plan.plan());
            }
        }
    }
}
