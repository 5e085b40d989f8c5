//! Rows of phases in the cells: how they are read, and written where they change.
ghost use Rattle.std.specs.Prelude.{◌≡◌, ◌≢◌, ℕ, ◌+◌, ◌*◌, ◌<◌, ◌≤◌, true, false, slice_index};
ghost use Rattle.tsb_objects.specs.tsb_types.Sets.{has, names};
ghost use Rattle.tsb_phase.specs.Cells.{half, list_at, row_in};
ghost use Rattle.tsb_phase.specs.Rows.{ChangesList, list_of_row, cell_of_row, with_list, with_cell, with_lists};

use crate::phase_row::PhaseRow;
use crate::phases::Phases;
use tsb_objects::{Phase, PhaseSet};

/// The list of the phases that have right of way, in Green or Yellow. Lists 0 and 1 share the cell 0, lists 2 and 3 the
/// cell 1, and so on; the even one is its low half.
pub(crate) const RIGHT_OF_WAY: usize = 0;

/// The list of those that are clearing, in Yellow or RedClear.
pub(crate) const CLEARING: usize = 1;

pub(crate) const WALKS: usize = 2;

pub(crate) const CLEARANCES: usize = 3;

pub(crate) const GAPPED: usize = 4;

pub(crate) const FORCED: usize = 5;

pub(crate) const MAX_OUTS: usize = 6;

pub(crate) const GAP_OUTS: usize = 7;

/// The kinds of cells, 16 of each after the lists.
pub(crate) const TIMERS: usize = 0;

pub(crate) const PEDESTRIAN_TIMERS: usize = 1;

pub(crate) const PASSAGES: usize = 2;

pub(crate) const CONFLICTS: usize = 3;

pub(crate) const REDUCTIONS: usize = 4;

pub(crate) const RED_REVERTS: usize = 5;

pub(crate) const RUNNING_MAXIMUMS: usize = 6;

/// The cell of the interval timer of phase 1.
pub(crate) const FIRST_TIMER: usize = 4;

/// How many lists there are of 16 phases.
const LISTS: u32 = 65_536;

/// The cell of kind `k` of a phase.
#[inline(always)]
fn place(k: usize, p: Phase) -> usize
    requires { k < 7 }
    ensures at { result ≡ 3 + 16 * k + p }
    ensures from { 1 ≤ p }
    ensures within { p ≤ 16 }
{
    FIRST_TIMER - 1 + 16 * k + usize::from(p.number())
}

/// The list in half `h` of a cell.
#[inline(always)]
fn half(cell: u32, h: usize) -> u16
    requires { h < 2 }
    ensures { result ≡ half h cell }
{
    if h == 0 {
        (cell % LISTS) as u16
    } else {
        (cell / LISTS) as u16
    }
}

/// A cell with another list in its half `h`.
#[inline(always)]
fn with_half(cell: u32, h: usize, list: u16) -> u32
    requires { h < 2 }
    ensures own { half h result ≡ list }
    ensures other { (i : ℕ) → i < 2 → i ≢ h → half i result ≡ half i cell }
{
    let list = u32::from(list);
    if h == 0 {
        cell / LISTS * LISTS + list
    } else {
        list * LISTS + cell % LISTS
    }
}

impl Phases {
    ghost use Rattle.tsb_phase.specs.Layer.{cells_of, kept_of, is_open, KeepsLists};

    /// The cell of kind `k` of a phase.
    #[inline(always)]
    pub(crate) fn cell(&self, k: usize, p: Phase) -> u32
        requires { k < 7 }
        ensures { result ≡ slice_index (cells_of self.now) (3 + 16 * k + p) }
    {
        self.bank.get(place(k, p))
    }

    /// The phases in list `k`.
    #[inline(always)]
    pub(crate) fn list(&self, k: usize) -> PhaseSet
        requires { k < 8 }
        ensures { (p : ℕ) → has result p ≡ names (list_at (cells_of self.now) k) p }
    {
        PhaseSet::from_list(half(self.bank.get(k / 2), k % 2))
    }

    /// Puts a set of phases into list `k`.
    #[inline(always)]
    fn put(&mut self, k: usize, set: PhaseSet)
        requires in_range { k < 8 }
        requires opened { is_open self.old ≡ true }
        ensures told { (p : ℕ) → names (list_at (cells_of self.new) k) p ≡ has set p }
        ensures others { ChangesList k (cells_of self.old) (cells_of self.new) }
        ensures lists { KeepsLists (cells_of self.old) (cells_of self.new) }
        ensures kept { kept_of self.new ≡ kept_of self.old }
        ensures opened { is_open self.new ≡ true }
    {
        let cell = self.bank.get(k / 2);
        self.bank.put(k / 2, with_half(cell, k % 2, set.list()));
    }

    /// The row of a phase.
    #[inline(always)]
    #[tactic(auto, unfolding(crate::specs::Cells::row_in))]
    pub(crate) fn load(&self, p: Phase) -> PhaseRow
        ensures { result ≡ row_in (cells_of self.now) p }
    {
        PhaseRow {
            right_of_way: self.list(RIGHT_OF_WAY).contains(p),
            clearing: self.list(CLEARING).contains(p),
            walk: self.list(WALKS).contains(p),
            clearance: self.list(CLEARANCES).contains(p),
            gapped: self.list(GAPPED).contains(p),
            forced: self.list(FORCED).contains(p),
            max_out: self.list(MAX_OUTS).contains(p),
            gap_out: self.list(GAP_OUTS).contains(p),
            timer: self.cell(TIMERS, p),
            pedestrian_timer: self.cell(PEDESTRIAN_TIMERS, p),
            passage: self.cell(PASSAGES, p),
            conflict: self.cell(CONFLICTS, p),
            reduction: self.cell(REDUCTIONS, p),
            red_revert: self.cell(RED_REVERTS, p),
            running_maximum: self.cell(RUNNING_MAXIMUMS, p),
        }
    }

    /// Puts the phase into list `k`, or takes it out, where that is a change.
    #[inline(always)]
    fn put_list(&mut self, k: usize, p: Phase, was: bool, on: bool)
        requires in_range { k < 8 }
        requires opened { is_open self.old ≡ true }
        requires was { was ≡ list_of_row k (row_in (cells_of self.old) p) }
        ensures row { row_in (cells_of self.new) p ≡ with_list k on (row_in (cells_of self.old) p) }
        ensures others { (q : ℕ) → 1 ≤ q → q ≤ 16 → q ≢ p → row_in (cells_of self.new) q ≡ row_in (cells_of self.old) q }
        ensures lists { KeepsLists (cells_of self.old) (cells_of self.new) }
        ensures kept { kept_of self.new ≡ kept_of self.old }
        ensures opened { is_open self.new ≡ true }
    {
        if was != on {
            self.change_list(k, p, on);
        }
    }

    /// Puts the phase into list `k`, or takes it out. It stays out of line: in most ticks nothing changes.
    #[inline(never)]
    fn change_list(&mut self, k: usize, p: Phase, on: bool)
        requires in_range { k < 8 }
        requires opened { is_open self.old ≡ true }
        ensures row { row_in (cells_of self.new) p ≡ with_list k on (row_in (cells_of self.old) p) }
        ensures others { (q : ℕ) → 1 ≤ q → q ≤ 16 → q ≢ p → row_in (cells_of self.new) q ≡ row_in (cells_of self.old) q }
        ensures lists { KeepsLists (cells_of self.old) (cells_of self.new) }
        ensures kept { kept_of self.new ≡ kept_of self.old }
        ensures opened { is_open self.new ≡ true }
    {
        p.known();
        let changed = self.list(k).with(p, on);
        self.put(k, changed);
    }

    /// Takes all phases out of list `k`.
    pub(crate) fn empty_list(&mut self, k: usize)
        requires in_range { k < 8 }
        requires opened { is_open self.old ≡ true }
        ensures none { (p : ℕ) → names (list_at (cells_of self.new) k) p ≡ false }
        ensures others { ChangesList k (cells_of self.old) (cells_of self.new) }
        ensures lists { KeepsLists (cells_of self.old) (cells_of self.new) }
        ensures kept { kept_of self.new ≡ kept_of self.old }
        ensures opened { is_open self.new ≡ true }
    {
        self.put(k, PhaseSet::empty());
    }

    /// Puts a value into the cell of kind `k` of a phase, where that is a change.
    #[inline(always)]
    fn put_cell(&mut self, k: usize, p: Phase, was: u32, value: u32)
        requires in_range { k < 7 }
        requires opened { is_open self.old ≡ true }
        requires was { was ≡ cell_of_row k (row_in (cells_of self.old) p) }
        ensures row { row_in (cells_of self.new) p ≡ with_cell k value (row_in (cells_of self.old) p) }
        ensures others { (q : ℕ) → 1 ≤ q → q ≤ 16 → q ≢ p → row_in (cells_of self.new) q ≡ row_in (cells_of self.old) q }
        ensures lists { KeepsLists (cells_of self.old) (cells_of self.new) }
        ensures kept { kept_of self.new ≡ kept_of self.old }
        ensures opened { is_open self.new ≡ true }
    {
        if was != value {
            self.change_cell(k, p, value);
        }
    }

    /// Puts a value into the cell of kind `k` of a phase. It stays out of line: in most ticks nothing changes.
    #[inline(never)]
    fn change_cell(&mut self, k: usize, p: Phase, value: u32)
        requires in_range { k < 7 }
        requires opened { is_open self.old ≡ true }
        ensures row { row_in (cells_of self.new) p ≡ with_cell k value (row_in (cells_of self.old) p) }
        ensures others { (q : ℕ) → 1 ≤ q → q ≤ 16 → q ≢ p → row_in (cells_of self.new) q ≡ row_in (cells_of self.old) q }
        ensures lists { KeepsLists (cells_of self.old) (cells_of self.new) }
        ensures kept { kept_of self.new ≡ kept_of self.old }
        ensures opened { is_open self.new ≡ true }
    {
        self.bank.put(place(k, p), value);
    }

    /// Puts what the lists say of a phase into them, where it differs from what it was.
    #[inline(always)]
    fn store_lists(&mut self, p: Phase, was: &PhaseRow, row: &PhaseRow)
        requires opened { is_open self.old ≡ true }
        requires was { was.now ≡ row_in (cells_of self.old) p }
        ensures row { row_in (cells_of self.new) p ≡ with_lists row.now was.now }
        ensures others { (q : ℕ) → 1 ≤ q → q ≤ 16 → q ≢ p → row_in (cells_of self.new) q ≡ row_in (cells_of self.old) q }
        ensures lists { KeepsLists (cells_of self.old) (cells_of self.new) }
        ensures kept { kept_of self.new ≡ kept_of self.old }
        ensures opened { is_open self.new ≡ true }
    {
        self.put_list(RIGHT_OF_WAY, p, was.right_of_way, row.right_of_way);
        self.put_list(CLEARING, p, was.clearing, row.clearing);
        self.put_list(WALKS, p, was.walk, row.walk);
        self.put_list(CLEARANCES, p, was.clearance, row.clearance);
        self.put_list(GAPPED, p, was.gapped, row.gapped);
        self.put_list(FORCED, p, was.forced, row.forced);
        self.put_list(MAX_OUTS, p, was.max_out, row.max_out);
        self.put_list(GAP_OUTS, p, was.gap_out, row.gap_out);
    }

    /// Puts the cells of a phase, whose lists have been put, where they differ from what they were.
    #[inline(always)]
    fn store_cells(&mut self, p: Phase, was: &PhaseRow, row: &PhaseRow)
        requires opened { is_open self.old ≡ true }
        requires was { row_in (cells_of self.old) p ≡ with_lists row.now was.now }
        ensures row { row_in (cells_of self.new) p ≡ row.now }
        ensures others { (q : ℕ) → 1 ≤ q → q ≤ 16 → q ≢ p → row_in (cells_of self.new) q ≡ row_in (cells_of self.old) q }
        ensures lists { KeepsLists (cells_of self.old) (cells_of self.new) }
        ensures kept { kept_of self.new ≡ kept_of self.old }
        ensures opened { is_open self.new ≡ true }
    {
        self.put_cell(TIMERS, p, was.timer, row.timer);
        self.put_cell(
            PEDESTRIAN_TIMERS,
            p,
            was.pedestrian_timer,
            row.pedestrian_timer,
        );
        self.put_cell(PASSAGES, p, was.passage, row.passage);
        self.put_cell(CONFLICTS, p, was.conflict, row.conflict);
        self.put_cell(REDUCTIONS, p, was.reduction, row.reduction);
        self.put_cell(RED_REVERTS, p, was.red_revert, row.red_revert);
        self.put_cell(
            RUNNING_MAXIMUMS,
            p,
            was.running_maximum,
            row.running_maximum,
        );
    }

    /// Puts the row of a phase into the cells, where it differs from what it was.
    #[inline(always)]
    pub(crate) fn store(&mut self, p: Phase, was: &PhaseRow, row: &PhaseRow)
        requires opened { is_open self.old ≡ true }
        requires was { was.now ≡ row_in (cells_of self.old) p }
        ensures row { row_in (cells_of self.new) p ≡ row.now }
        ensures others { (q : ℕ) → 1 ≤ q → q ≤ 16 → q ≢ p → row_in (cells_of self.new) q ≡ row_in (cells_of self.old) q }
        ensures lists { KeepsLists (cells_of self.old) (cells_of self.new) }
        ensures kept { kept_of self.new ≡ kept_of self.old }
        ensures opened { is_open self.new ≡ true }
    {
        self.store_lists(p, was, row);
        self.store_cells(p, was, row);
    }
}
