//! Red revert timers of all phases at once. Mostly each is Off or has long reached its time: one short loop tells that.
ghost use Rattle.std.specs.Prelude.{ℕ, ◌+◌, ◌-◌, ◌<◌, ◌≤◌, ◌^◌, ◌↔◌, IsFalse};
ghost use Rattle.tsb_phase.specs.Cells.{row_in};

use crate::phases::Phases;
use crate::rows::RED_REVERTS;
use tsb_objects::Phase;

impl Phases {
    ghost use Rattle.tsb_phase.specs.Layer.{cells_of};

    /// Whether the cell of a red revert timer is over `last`. All cells are tested, so that the loop has no branch and
    /// takes several of them at a time.
    #[inline(always)]
    #[tactic(auto, unfolding(crate::specs::Cells::row_in))]
    fn has_revert_over(&self, last: u32) -> bool
        ensures { IsFalse result ↔ ((p : ℕ) → 1 ≤ p → p ≤ 16 → (row_in (cells_of self.now) p).red_revert ≤ last) }
    {
        let mut is_over = false;
        for number in 1..17u8 {
            let cell = self.cell(RED_REVERTS, Phase::of(number));
            is_over = is_over | (last < cell);
        }
        is_over
    }

    /// Whether some red revert timer may still be short of its time. None is where each is Off, or has run for
    /// `longest`, the longest time that a phase has.
    #[inline(always)]
    pub(crate) fn may_revert(&self, now: u32, longest: u32) -> bool
        requires fits { now + 1 < 2 ^ 32 }
        ensures { IsFalse result ↔ ((p : ℕ) → 1 ≤ p → p ≤ 16 → (row_in (cells_of self.now) p).red_revert ≤ now + 1 - longest) }
    {
        self.has_revert_over((now + 1).saturating_sub(longest))
    }
}
