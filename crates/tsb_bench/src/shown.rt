//! What the heads show. It is found once, and kept while no cell changes.
#![tactic(auto, unfolding(tsb_objects::specs::Checked::checked_plan, tsb_plan::specs::PlanOf::plan_of))]

ghost use Rattle.std.specs.Prelude.{◌≡◌, ℕ, None, Some};
ghost use Rattle.tsb_heads.specs.Promises.{IsSame};
ghost use Rattle.tsb_heads.specs.Reading.{heads_of};
ghost use Rattle.tsb_step.specs.Signs.{display, IsSafe};
ghost use Rattle.tsb_controller.specs.Whole.{AreAllBy};
ghost use Rattle.tsb_bench.specs.Cabinet.{rows_of};
ghost use Rattle.tsb_bench.specs.Held.{state_of};
ghost use Rattle.tsb_bench.specs.Shown.{IsShown, still_shown};

use crate::bench::Bench;
use crate::cabinet::{Cabinet, Changes};
use tsb_heads::Display;

/// Keeps what was found of the heads where these are the cells that an input changed: only where it changed none.
pub(crate) fn keep_shown(shown: &mut Option<Display>, changes: &Changes)
    ensures { shown.new ≡ still_shown changes.now.items shown.old }
{
    if !changes.is_empty() {
        forget_shown(shown);
    }
}

/// Forgets what was found of the heads. Mostly nothing is kept, and then nothing is written.
pub(crate) fn forget_shown(shown: &mut Option<Display>)
    ensures { shown.new ≡ None }
{
    if shown.is_some() {
        *shown = None;
    }
}

impl Cabinet {
    /// What the heads show.
    pub(crate) fn display(&self) -> Display
        requires by { (tick : ℕ) × AreAllBy tick (rows_of self.now) }
        ensures { IsShown (rows_of self.now) (Some result) }
    {
        self.controller
            .display(self.monitor.is_tripped(), &self.plan)
    }
}

impl Bench {
    /// What the heads show, as `display` says. It is found anew only where a cell has changed since it was asked, and the
    /// bench stays as it was.
    pub fn shown(&mut self) -> Display
        ensures shown { IsSame (heads_of result) (display (state_of self.old)) }
        ensures safe { IsSafe (state_of self.old) }
        ensures same { self.new ≡ self.old }
    {
        if let Some(shown) = self.shown {
            return shown;
        }
        let shown = self.cabinet.display();
        self.shown = Some(shown);
        shown
    }
}
