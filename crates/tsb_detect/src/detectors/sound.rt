//! A tick of detectors that judges none and finds no alarm: lists are worked out as sets.
ghost use Rattle.tsb_objects.specs.tsb_types.declared.limits.TheConstants.{VEHICLE_DETECTORS};
ghost use Rattle.std.specs.Prelude.{◌≡◌, ◌≢◌, ℕ, ◌+◌, ◌<◌, ◌≤◌, ◌^◌, true, false, None};
ghost use Rattle.tsb_objects.specs.tsb_plan.PlanOf.{plan_of};
ghost use Rattle.tsb_objects.specs.tsb_plan.Parts.{call_phase};
ghost use Rattle.tsb_objects.specs.tsb_types.Sets.{has_detector};
ghost use Rattle.tsb_detect.specs.Detector.{is_minute, new_alarm};
ghost use Rattle.tsb_detect.specs.Promises.{green_timer_of};
ghost use Rattle.tsb_detect.specs.Cells.{row_in, detector_of};
ghost use Rattle.tsb_detect.specs.Rows.{row_with, IsRead, IsVisit, IsUnjudged, HasNoAlarm};

use super::cells::{ACTUATIONS, CHANGES, EXTENDS, INPUTS, OUTPUTS, RISES};
use crate::detectors::Detectors;
use crate::detectors::cells::list;
use crate::greens::Greens;
use crate::output::{green_of, sound_row};
use crate::sets::{differing, has, joined};
use tsb_objects::{Detector, DetectorSet, Plan};

impl Detectors {
    ghost use Rattle.tsb_detect.specs.Layer.{cells_of, kept_of, is_open, KeepsLists};

    /// Works out the cells of a detector without an alarm, and whether it has an output. Its lists are left to
    /// the caller.
    #[inline(always)]
    fn visit_sound(
        &mut self,
        now: u32,
        inputs: DetectorSet,
        greens: &Greens,
        plan: &Plan,
        d: Detector,
    ) -> bool
        requires fits { now + 1 < 2 ^ 32 }
        requires opened { is_open self.old ≡ true }
        requires read { IsRead now (row_in (cells_of self.old) d) }
        requires part { is_minute now ≡ false }
        requires no_alarm { new_alarm (plan_of plan.now) d now (has_detector inputs d) (detector_of now (row_in (cells_of self.old) d)) ≡ None }
        requires none { HasNoAlarm (row_in (cells_of self.old) d) }
        ensures visit { IsVisit now (plan_of plan.now) d (has_detector inputs d) (green_timer_of now greens.now (call_phase (plan_of plan.now) d)) (row_in (cells_of self.old) d)
            (row_with (has_detector inputs d) result (row_in (cells_of self.old) d) (row_in (cells_of self.new) d)) }
        ensures none { HasNoAlarm (row_in (cells_of self.new) d) }
        ensures others { (e : ℕ) → 1 ≤ e → e ≤ VEHICLE_DETECTORS → e ≢ d → row_in (cells_of self.new) e ≡ row_in (cells_of self.old) e }
        ensures lists { KeepsLists (cells_of self.old) (cells_of self.new) }
        ensures kept { kept_of self.new ≡ kept_of self.old }
        ensures opened { is_open self.new ≡ true }
    {
        let was = self.load(d);
        let green = green_of(now, greens, plan, d);
        let row = sound_row(now, plan, d, has(inputs, d), green, &was);
        self.put_cell(RISES, d, was.rises, row.rises);
        self.put_cell(CHANGES, d, was.change, row.change);
        self.put_cell(EXTENDS, d, was.extend, row.extend);
        row.output
    }

    /// The detectors that have an output after a tick that finds no alarm, whose cells it works out.
    #[inline(always)]
    fn visit_moved(
        &mut self,
        moved: DetectorSet,
        now: u32,
        inputs: DetectorSet,
        greens: &Greens,
        plan: &Plan,
    ) -> DetectorSet
        requires fits { now + 1 < 2 ^ 32 }
        requires opened { is_open self.old ≡ true }
        requires read { (d : ℕ) → 1 ≤ d → d ≤ VEHICLE_DETECTORS → IsRead now (row_in (cells_of self.old) d) }
        requires sound { (d : ℕ) → 1 ≤ d → d ≤ VEHICLE_DETECTORS → IsUnjudged now (plan_of plan.now) d (has_detector inputs d) (row_in (cells_of self.old) d) }
        requires input { (d : ℕ) → has_detector moved d ≡ false → (row_in (cells_of self.old) d).input ≡ has_detector inputs d }
        requires output { (d : ℕ) → has_detector moved d ≡ false → (row_in (cells_of self.old) d).output ≡ has_detector inputs d }
        ensures each { (d : ℕ) → 1 ≤ d → d ≤ VEHICLE_DETECTORS →
            IsVisit now (plan_of plan.now) d (has_detector inputs d) (green_timer_of now greens.now (call_phase (plan_of plan.now) d)) (row_in (cells_of self.old) d)
            (row_with (has_detector inputs d) (has_detector result d) (row_in (cells_of self.old) d) (row_in (cells_of self.new) d)) }
        ensures none { (d : ℕ) → 1 ≤ d → d ≤ VEHICLE_DETECTORS → HasNoAlarm (row_in (cells_of self.new) d) }
        ensures lists { KeepsLists (cells_of self.old) (cells_of self.new) }
        ensures kept { kept_of self.new ≡ kept_of self.old }
        ensures opened { is_open self.new ≡ true }
    {
        let mut on = inputs.difference(moved);
        let mut rest = moved;
        while let Some(d) = rest.pop_detector() {
            let output = self.visit_sound(now, inputs, greens, plan, d);
            on = joined(on, d, output);
        }
        on
    }

    /// Works out all detectors, where the tick judges none and none has an alarm.
    #[inline(never)]
    pub(super) fn run_sound(&mut self, now: u32, inputs: DetectorSet, greens: &Greens, plan: &Plan)
        requires fits { now + 1 < 2 ^ 32 }
        requires opened { is_open self.old ≡ true }
        requires read { (d : ℕ) → 1 ≤ d → d ≤ VEHICLE_DETECTORS → IsRead now (row_in (cells_of self.old) d) }
        requires sound { (d : ℕ) → 1 ≤ d → d ≤ VEHICLE_DETECTORS → IsUnjudged now (plan_of plan.now) d (has_detector inputs d) (row_in (cells_of self.old) d) }
        ensures each { (d : ℕ) → 1 ≤ d → d ≤ VEHICLE_DETECTORS →
            IsVisit now (plan_of plan.now) d (has_detector inputs d) (green_timer_of now greens.now (call_phase (plan_of plan.now) d)) (row_in (cells_of self.old) d) (row_in (cells_of self.new) d) }
        ensures lists { KeepsLists (cells_of self.old) (cells_of self.new) }
        ensures kept { kept_of self.new ≡ kept_of self.old }
        ensures opened { is_open self.new ≡ true }
    {
        let were = list(&self.bank, OUTPUTS);
        let moved = differing(inputs, list(&self.bank, INPUTS)).union(differing(inputs, were));
        let on = self.visit_moved(moved, now, inputs, greens, plan);
        self.put_set(INPUTS, inputs);
        self.put_set(OUTPUTS, on);
        self.put_set(ACTUATIONS, on.difference(were));
    }
}
