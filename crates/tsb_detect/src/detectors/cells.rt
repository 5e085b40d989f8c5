//! Cells of detectors: lists and timers are read, and written where they change.
ghost use Rattle.std.specs.Prelude.{◌≡◌, ◌≢◌, ℕ, ◌+◌, ◌*◌, ◌<◌, ◌≤◌, true, slice_index};
ghost use Rattle.tsb_objects.specs.tsb_types.declared.limits.TheConstants.{VEHICLE_DETECTORS};
ghost use Rattle.tsb_objects.specs.tsb_types.Sets.{has_detector, names, wide_list_in};
ghost use Rattle.tsb_cells.specs.Bank.{cells_of as bank_cells};
ghost use Rattle.tsb_detect.specs.Cells.{row_in};
ghost use Rattle.tsb_detect.specs.Rows.{list_of_row, cell_of_row, with_list, with_cell};

use crate::CELLS;
use crate::detector_row::DetectorRow;
use crate::detectors::Detectors;
use crate::sets::{has, with};
use tsb_cells::Bank;
use tsb_objects::limits::VEHICLE_DETECTORS;
use tsb_objects::{Detector, DetectorSet};

/// The lists, each in two cells: list `k` in the cells `2 * k` and `2 * k + 1`.
pub(super) const INPUTS: usize = 0;

pub(super) const OUTPUTS: usize = 1;

pub(super) const ACTUATIONS: usize = 2;

pub(super) const INACTIVE: usize = 3;

pub(super) const PRESENT: usize = 4;

pub(super) const ERRATIC: usize = 5;

/// The kinds of cells, one of each for a detector, after the lists.
pub(super) const RISES: usize = 0;

pub(super) const CHANGES: usize = 1;

pub(super) const EXTENDS: usize = 2;

/// How many detectors have a cell of each kind.
const DETECTORS: usize = VEHICLE_DETECTORS as usize;

/// How many cells the lists have; those of detector 1 on come after them.
pub(super) const LIST_CELLS: usize = 12;

/// The numbers in list `k`.
#[inline(always)]
pub(super) fn list(bank: &Bank<CELLS>, k: usize) -> DetectorSet
    requires { k < 6 }
    ensures { (d : ℕ) → has_detector result d ≡ names (wide_list_in (bank_cells bank.now) (2 * k)) d }
{
    tsb_cells::lists::detectors(bank, 2 * k)
}

/// The cell of kind `k` of a detector.
#[inline(always)]
fn place(k: usize, d: Detector) -> usize
    requires { k < 3 }
    ensures at { result ≡ 11 + VEHICLE_DETECTORS * k + d }
    ensures from { 1 ≤ d }
    ensures within { d ≤ VEHICLE_DETECTORS }
{
    LIST_CELLS - 1 + DETECTORS * k + usize::from(d.number())
}

impl Detectors {
    ghost use Rattle.tsb_detect.specs.Layer.{cells_of, kept_of, is_open, KeepsLists};

    /// The cell of kind `k` of a detector.
    #[inline(always)]
    pub(super) fn cell(&self, k: usize, d: Detector) -> u32
        requires { k < 3 }
        ensures { result ≡ slice_index (cells_of self.now) (11 + VEHICLE_DETECTORS * k + d) }
    {
        self.bank.get(place(k, d))
    }

    /// The row of a detector.
    #[inline(always)]
    #[tactic(auto, unfolding(crate::specs::Cells::row_in))]
    pub(super) fn load(&self, d: Detector) -> DetectorRow
        ensures { result ≡ row_in (cells_of self.now) d }
    {
        DetectorRow {
            input: has(list(&self.bank, INPUTS), d),
            output: has(list(&self.bank, OUTPUTS), d),
            actuated: has(list(&self.bank, ACTUATIONS), d),
            inactive: has(list(&self.bank, INACTIVE), d),
            present: has(list(&self.bank, PRESENT), d),
            erratic: has(list(&self.bank, ERRATIC), d),
            rises: self.cell(RISES, d),
            change: self.cell(CHANGES, d),
            extend: self.cell(EXTENDS, d),
        }
    }

    /// Puts the detector into list `k`, or takes it out, where that is a change.
    #[inline(always)]
    pub(super) fn put_list(&mut self, k: usize, d: Detector, was: bool, on: bool)
        requires in_range { k < 6 }
        requires opened { is_open self.old ≡ true }
        requires was { was ≡ list_of_row k (row_in (cells_of self.old) d) }
        ensures row { row_in (cells_of self.new) d ≡ with_list k on (row_in (cells_of self.old) d) }
        ensures others { (e : ℕ) → 1 ≤ e → e ≤ VEHICLE_DETECTORS → e ≢ d → row_in (cells_of self.new) e ≡ row_in (cells_of self.old) e }
        ensures lists { KeepsLists (cells_of self.old) (cells_of self.new) }
        ensures kept { kept_of self.new ≡ kept_of self.old }
        ensures opened { is_open self.new ≡ true }
    {
        if was != on {
            d.known();
            let changed = with(list(&self.bank, k), d, on);
            tsb_cells::lists::put_detectors(&mut self.bank, 2 * k, changed);
        }
    }

    /// Replaces list `k` with that of a set.
    #[inline(always)]
    pub(super) fn put_set(&mut self, k: usize, set: DetectorSet)
        requires in_range { k < 6 }
        requires opened { is_open self.old ≡ true }
        ensures rows { (d : ℕ) → 1 ≤ d → d ≤ VEHICLE_DETECTORS → row_in (cells_of self.new) d ≡ with_list k (has_detector set d) (row_in (cells_of self.old) d) }
        ensures lists { KeepsLists (cells_of self.old) (cells_of self.new) }
        ensures kept { kept_of self.new ≡ kept_of self.old }
        ensures opened { is_open self.new ≡ true }
    {
        tsb_cells::lists::put_detectors(&mut self.bank, 2 * k, set);
    }

    /// Puts a value into the cell of kind `k` of a detector, where that is a change.
    #[inline(always)]
    pub(super) fn put_cell(&mut self, k: usize, d: Detector, was: u32, value: u32)
        requires in_range { k < 3 }
        requires opened { is_open self.old ≡ true }
        requires was { was ≡ cell_of_row k (row_in (cells_of self.old) d) }
        ensures row { row_in (cells_of self.new) d ≡ with_cell k value (row_in (cells_of self.old) d) }
        ensures others { (e : ℕ) → 1 ≤ e → e ≤ VEHICLE_DETECTORS → e ≢ d → row_in (cells_of self.new) e ≡ row_in (cells_of self.old) e }
        ensures lists { KeepsLists (cells_of self.old) (cells_of self.new) }
        ensures kept { kept_of self.new ≡ kept_of self.old }
        ensures opened { is_open self.new ≡ true }
    {
        if was != value {
            self.bank.put(place(k, d), value);
        }
    }

    /// Puts the row of a detector into the cells, where it differs from what it was.
    #[inline(always)]
    pub(super) fn store(&mut self, d: Detector, was: &DetectorRow, row: &DetectorRow)
        requires opened { is_open self.old ≡ true }
        requires was { was.now ≡ row_in (cells_of self.old) d }
        ensures row { row_in (cells_of self.new) d ≡ row.now }
        ensures others { (e : ℕ) → 1 ≤ e → e ≤ VEHICLE_DETECTORS → e ≢ d → row_in (cells_of self.new) e ≡ row_in (cells_of self.old) e }
        ensures lists { KeepsLists (cells_of self.old) (cells_of self.new) }
        ensures kept { kept_of self.new ≡ kept_of self.old }
        ensures opened { is_open self.new ≡ true }
    {
        self.put_list(INPUTS, d, was.input, row.input);
        self.put_list(OUTPUTS, d, was.output, row.output);
        self.put_list(ACTUATIONS, d, was.actuated, row.actuated);
        self.put_list(INACTIVE, d, was.inactive, row.inactive);
        self.put_list(PRESENT, d, was.present, row.present);
        self.put_list(ERRATIC, d, was.erratic, row.erratic);
        self.put_cell(RISES, d, was.rises, row.rises);
        self.put_cell(CHANGES, d, was.change, row.change);
        self.put_cell(EXTENDS, d, was.extend, row.extend);
    }
}
