//! The cells of a plan: each object's values, index by index, one object after the other.
ghost use Rattle.std.specs.Prelude.{◌≡◌, ◌<◌, ◌≤◌, ◌↔◌, IsTrue, slice_index, slice_range, slice_set};
ghost use Rattle.tsb_plan.specs.declared.object.TheConstants.{PLAN_CELLS};
ghost use Rattle.tsb_plan.specs.Objects.{AreInRange};

use crate::object::PLAN_CELLS;
use crate::plan::Plan;

impl Plan {
    /// What the cell `k` holds, in the unit of the object whose cell it is.
    pub fn cell(&self, k: usize) -> u32
        requires { k < PLAN_CELLS }
        ensures { result ≡ slice_index self.now.values k }
    {
        u32::from(self.values[k])
    }

    /// Puts a value into the cell `k`. It has to be in the range of the object whose cell it is.
    pub fn put_cell(&mut self, k: usize, value: u32)
        requires within { k < PLAN_CELLS }
        requires ranged { AreInRange (slice_set self.old.values k value) }
        ensures { self.new.values ≡ slice_set self.old.values k value }
    {
        self.values[k] = value as u16;
    }

    /// The values of all cells, lent.
    pub fn words(&self) -> &[u16; PLAN_CELLS]
        ensures { result.now ≡ self.now.values }
    {
        &self.values
    }

    /// Whether another plan holds the same in the cells from `first` up to, but not including, `end`.
    #[inline(always)]
    pub fn has_same_cells(&self, other: &Plan, first: usize, end: usize) -> bool
        requires order { first ≤ end }
        requires within { end ≤ PLAN_CELLS }
        ensures { IsTrue result ↔ (slice_range self.now.values first end ≡ slice_range other.now.values first end) }
    {
        let own = &self.values[first..end];
        let others = &other.values[first..end];
        own == others
    }

    /// The plan whose cells hold these values, as `words` gives them. Each has to be in the range of the object whose
    /// cell it is.
    pub fn of_words(words: &[u16; PLAN_CELLS]) -> Plan
        requires { AreInRange words.now }
        ensures { result.values ≡ words.now }
    {
        Plan { values: *words }
    }
}
