//! Which preempts are called for and which are spent, and whether the one in service has entered: for those who report
//! the state of each.
ghost use Rattle.tsb_objects.specs.Checked.{checked_plan};
ghost use Rattle.tsb_preempt.specs.Promises.{TellsCalled, TellsEntered, TellsSpent, TellsSwitches};

use crate::cells::{SPENT, SWITCHES};
use crate::preempts::Preempts;
use crate::serving::has_entered;
use tsb_cells::lists::list;
use tsb_objects::{Checked, Intervals, NumberSet, Preempt};

impl Preempts {
    ghost use Rattle.tsb_preempt.specs.Layer.{cells_of};

    /// Whether the input of a preempt was on in the last tick, or its switch is on.
    #[tactic(auto, unfolding(crate::specs::Cells::preempts_in))]
    pub fn is_called(&self, n: Preempt) -> bool
        ensures { TellsCalled (cells_of self.now) n result }
    {
        n.known();
        self.delay(n.number()) != 0 || list(&self.bank, SWITCHES).contains(n.number())
    }

    /// The preempts whose switch is on.
    #[tactic(auto, unfolding(crate::specs::Cells::preempts_in))]
    pub fn switches(&self) -> NumberSet
        ensures { TellsSwitches (cells_of self.now) result }
    {
        list(&self.bank, SWITCHES)
    }

    /// Whether a preempt is spent: its dwell ended while its input was on, which has not been off since.
    #[tactic(auto, unfolding(crate::specs::Cells::preempts_in))]
    pub fn is_spent(&self, n: Preempt) -> bool
        ensures { TellsSpent (cells_of self.now) n result }
    {
        list(&self.bank, SPENT).contains(n.number())
    }

    /// Whether the preempt in service has entered, where phases are in these intervals: all phases of the stage in which
    /// its service began were Green. `false` where none is in service.
    #[tactic(auto, unfolding(crate::specs::Cells::preempts_in))]
    pub fn has_entered(&self, intervals: &Intervals, plan: &Checked) -> bool
        ensures { TellsEntered intervals.now (checked_plan plan.now) (cells_of self.now) result }
    {
        match self.load() {
            None => false,
            Some(s) => has_entered(plan.plan(), intervals, &s),
        }
    }
}
