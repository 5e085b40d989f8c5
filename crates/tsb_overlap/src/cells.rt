//! The cells of overlaps: what an overlap is in is read in them and put into them.
ghost use Rattle.std.specs.Prelude.{◌≡◌, ◌≢◌, ℕ, ◌+◌, ◌<◌, ◌≤◌, true, false, Option, slice_index};
ghost use Rattle.tsb_cells.specs.Lists.{Elsewhere};
ghost use Rattle.tsb_objects.specs.tsb_types.declared.limits.TheConstants.{OVERLAPS};
ghost use Rattle.tsb_objects.specs.tsb_plan.Parts.{unless_zero};
ghost use Rattle.tsb_objects.specs.tsb_types.Sets.{has_number, names, list_in};
ghost use Rattle.tsb_overlap.specs.declared.TheConstants.{CELLS};
ghost use Rattle.tsb_overlap.specs.Cells.{listed, interval_by, interval_in, part_in};
ghost use Rattle.tsb_overlap.specs.Parts.{is_list, IsInOne, IsPut, KeepsOthers};

use crate::CELLS;
use crate::parts::{OverlapInterval, Part};
use crate::timed_overlaps::TimedOverlaps;
use tsb_cells::lists::{list, put_list};
use tsb_objects::limits::OVERLAPS;
use tsb_objects::{NumberSet, Overlap, Phase};

/// The list of overlaps that are green with a phase.
pub(crate) const GREEN: usize = 0;

/// The list of those that are green after their phases.
pub(crate) const TRAIL_GREEN: usize = 1;

/// The list of those that flash yellow.
pub(crate) const FLASHING: usize = 2;

/// The list of those that are yellow.
pub(crate) const YELLOW: usize = 3;

/// The list of those in red clearance.
pub(crate) const RED_CLEAR: usize = 4;

/// The list of arrows that are omitted.
pub(crate) const OMITTED: usize = 5;

/// The timer of overlap `o` has the cell `TIMERS + o`.
const TIMERS: usize = 5;

/// The phase whose yellow arrow `o` shows has the cell `PHASES + o`.
const PHASES: usize = TIMERS + OVERLAPS as usize;

/// The number of a phase that may be none, 0 for none.
fn number_of(phase: Option<Phase>) -> u32
    ensures phase { unless_zero result ≡ phase }
    ensures small { result ≤ 16 }
{
    match phase {
        Some(phase) => u32::from(phase.number()),
        None => 0,
    }
}

/// The interval of an overlap that five lists name or do not, by the first that does.
fn interval_by(
    green: bool,
    trail: bool,
    flashing: bool,
    yellow: bool,
    clear: bool,
) -> OverlapInterval
    ensures { result ≡ interval_by green trail flashing yellow clear }
{
    if green {
        OverlapInterval::Green
    } else if trail {
        OverlapInterval::TrailGreen
    } else if flashing {
        OverlapInterval::Flashing
    } else if yellow {
        OverlapInterval::Yellow
    } else if clear {
        OverlapInterval::RedClear
    } else {
        OverlapInterval::Red
    }
}

impl TimedOverlaps {
    ghost use Rattle.tsb_overlap.specs.Layer.{cells_of, kept_of, is_open, KeepsLists};

    /// The overlaps of list `k`.
    pub(crate) fn listed(&self, k: usize) -> NumberSet
        requires { k < CELLS }
        ensures { (o : ℕ) → has_number result o ≡ listed (cells_of self.now) k o }
    {
        list(&self.bank, k)
    }

    /// Puts an overlap into list `k` or takes it out.
    fn put(&mut self, k: usize, o: Overlap, on: bool)
        requires in_range { k < 5 }
        requires opened { is_open self.old ≡ true }
        ensures told { listed (cells_of self.new) k o ≡ on }
        ensures others { (q : ℕ) → q ≢ o → listed (cells_of self.new) k q ≡ listed (cells_of self.old) k q }
        ensures small { slice_index (cells_of self.new) k < 65536 }
        ensures elsewhere { Elsewhere k (cells_of self.old) (cells_of self.new) }
        ensures kept { kept_of self.new ≡ kept_of self.old }
        ensures opened { is_open self.new ≡ true }
    {
        let set = self.listed(k).with(o.number(), on);
        put_list(&mut self.bank, k, set);
    }

    /// Puts an overlap into the list of its interval alone.
    fn put_interval(&mut self, o: Overlap, interval: OverlapInterval)
        requires opened { is_open self.old ≡ true }
        ensures own { (k : ℕ) → k < 5 → listed (cells_of self.new) k o ≡ is_list k interval }
        ensures others { (k q : ℕ) → k < 5 → q ≢ o → listed (cells_of self.new) k q ≡ listed (cells_of self.old) k q }
        ensures cells { (j : ℕ) → 5 ≤ j → slice_index (cells_of self.new) j ≡ slice_index (cells_of self.old) j }
        ensures lists { KeepsLists (cells_of self.old) (cells_of self.new) }
        ensures kept { kept_of self.new ≡ kept_of self.old }
        ensures opened { is_open self.new ≡ true }
    {
        self.put(GREEN, o, matches!(interval, OverlapInterval::Green));
        self.put(
            TRAIL_GREEN,
            o,
            matches!(interval, OverlapInterval::TrailGreen),
        );
        self.put(FLASHING, o, matches!(interval, OverlapInterval::Flashing));
        self.put(YELLOW, o, matches!(interval, OverlapInterval::Yellow));
        self.put(RED_CLEAR, o, matches!(interval, OverlapInterval::RedClear));
    }

    /// The interval of an overlap.
    fn interval(&self, o: Overlap) -> OverlapInterval
        ensures { result ≡ interval_in (cells_of self.now) o }
    {
        let n = o.number();
        interval_by(
            self.listed(GREEN).contains(n),
            self.listed(TRAIL_GREEN).contains(n),
            self.listed(FLASHING).contains(n),
            self.listed(YELLOW).contains(n),
            self.listed(RED_CLEAR).contains(n),
        )
    }

    /// What an overlap is in.
    pub(crate) fn part(&self, o: Overlap) -> Part
        requires { slice_index (cells_of self.now) (5 + OVERLAPS + o) ≤ 16 }
        ensures { result ≡ part_in (cells_of self.now) o }
    {
        let n = usize::from(o.number());
        Part {
            interval: self.interval(o),
            timer: self.bank.get(TIMERS + n),
            phase: Phase::new(self.bank.get(PHASES + n)),
        }
    }

    /// Puts what an overlap is in into its cells, where `was` is what they keep. Where its interval stays, no list is
    /// written.
    pub(crate) fn put_part(&mut self, o: Overlap, was: &Part, part: &Part)
        requires opened { is_open self.old ≡ true }
        requires was { was.now ≡ part_in (cells_of self.old) o }
        requires apart { IsInOne (cells_of self.old) o }
        ensures own { IsPut part.now (cells_of self.new) o }
        ensures others { KeepsOthers o (cells_of self.old) (cells_of self.new) }
        ensures omitted { slice_index (cells_of self.new) 5 ≡ slice_index (cells_of self.old) 5 }
        ensures lists { KeepsLists (cells_of self.old) (cells_of self.new) }
        ensures kept { kept_of self.new ≡ kept_of self.old }
        ensures opened { is_open self.new ≡ true }
    {
        if was.interval != part.interval {
            self.put_interval(o, part.interval);
        }
        let n = usize::from(o.number());
        self.bank.put(TIMERS + n, part.timer);
        self.bank.put(PHASES + n, number_of(part.phase));
    }

    /// Omits the arrows of a set.
    pub(crate) fn put_omitted(&mut self, set: NumberSet)
        requires opened { is_open self.old ≡ true }
        ensures told { (o : ℕ) → names (list_in (cells_of self.new) 5) o ≡ has_number set o }
        ensures small { slice_index (cells_of self.new) 5 < 65536 }
        ensures others { Elsewhere 5 (cells_of self.old) (cells_of self.new) }
        ensures kept { kept_of self.new ≡ kept_of self.old }
        ensures opened { is_open self.new ≡ true }
    {
        put_list(&mut self.bank, OMITTED, set);
    }

    /// Puts all overlaps into red, and omits none.
    pub(crate) fn clear(&mut self)
        requires opened { is_open self.old ≡ true }
        ensures zero { (k : ℕ) → k < CELLS → slice_index (cells_of self.new) k ≡ 0 }
        ensures kept { kept_of self.new ≡ kept_of self.old }
        ensures opened { is_open self.new ≡ true }
    {
        for at in 0..CELLS {
            self.bank.put(at, 0);
        }
    }
}
