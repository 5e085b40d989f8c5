//! What the local counter asks of green phases in a tick: which are forced off, and which may walk again.
ghost use Rattle.std.specs.Prelude.{◌≡◌, ◌≢◌, ℕ, ◌≤◌, ◌<◌, ◌+◌, ◌-◌, true, Some};
ghost use Rattle.tsb_objects.specs.tsb_types.declared.clock_time.TheConstants.{DAY, FIRST_MOMENT};
ghost use Rattle.tsb_objects.specs.tsb_types.declared.limits.TheConstants.{TICKS};
ghost use Rattle.tsb_objects.specs.tsb_types.Sets.{has};
ghost use Rattle.tsb_objects.specs.tsb_plan.Parts.{is_used};
ghost use Rattle.tsb_objects.specs.Checked.{checked_plan};
ghost use Rattle.tsb_coord.specs.Correction.{ahead_in, forces, lets_walk_again};

use crate::clock::shift;
use crate::correction::{Correction, ahead_before, ahead_in};
use crate::counting::{counter, cycle_of};
use tsb_objects::{Checked, Pattern, PhaseSet};

/// What the local counter asks of green phases in a tick.
#[derive(Clone, Copy)]
pub(crate) struct GreenOrders {
    /// Those that are forced off.
    pub(crate) forced: PhaseSet,
    /// Those that may walk again.
    pub(crate) recycle: PhaseSet,
}

/// What it asks in tick `now`, where it was in step before.
#[inline(always)]
fn in_step(plan: &Checked, n: Pattern, correction: Correction, now: u32) -> GreenOrders
    requires used { is_used (checked_plan plan.now) n ≡ true }
    requires since { correction.since ≤ TICKS }
    requires midnight { correction.midnight < FIRST_MOMENT + DAY }
    requires in_time { now ≤ TICKS }
    requires before { ahead_in (checked_plan plan.now) (Some n) correction (now - 1) ≡ 0 }
    ensures forced { (p : ℕ) → 1 ≤ p → p ≤ 16 → has result.forced p ≡ forces (checked_plan plan.now) (Some n) correction now p }
    ensures recycle { (p : ℕ) → 1 ≤ p → p ≤ 16 → has result.recycle p ≡ lets_walk_again (checked_plan plan.now) (Some n) correction now p }
{
    let local = counter(plan, n, now + shift(plan, n, correction.midnight));
    let forced = plan.forced_at(n, local);
    GreenOrders {
        forced,
        recycle: plan.recycled_at(n, local, forced),
    }
}

/// The phases that are forced off in tick `now`, where the local counter was so many ticks ahead before: those where it
/// is, and where it takes two steps, those at the first of them too.
fn forced(plan: &Checked, n: Pattern, correction: Correction, before: u32, now: u32) -> PhaseSet
    requires used { is_used (checked_plan plan.now) n ≡ true }
    requires since { correction.since ≤ TICKS }
    requires midnight { correction.midnight < FIRST_MOMENT + DAY }
    requires in_time { now ≤ TICKS }
    requires before { before ≡ ahead_in (checked_plan plan.now) (Some n) correction (now - 1) }
    requires small { before ≤ 2550 }
    ensures { (p : ℕ) → 1 ≤ p → p ≤ 16 → has result p ≡ forces (checked_plan plan.now) (Some n) correction now p }
{
    let ahead = ahead_in(plan, n, correction, now);
    let counted = now + shift(plan, n, correction.midnight) + ahead;
    let forced = plan.forced_at(n, counter(plan, n, counted));
    if ahead == (before + 1) % cycle_of(plan, n) {
        let first = counter(plan, n, counted.saturating_sub(1));
        return forced.union(plan.forced_at(n, first));
    }
    forced
}

/// What the local counter of a pattern asks in tick `now`. No phase may walk again while it comes into step. It stays
/// out of line: in free operation it is not asked.
#[inline(never)]
pub(crate) fn asked_in(plan: &Checked, n: Pattern, correction: Correction, now: u32) -> GreenOrders
    requires used { is_used (checked_plan plan.now) n ≡ true }
    requires since { correction.since ≤ TICKS }
    requires midnight { correction.midnight < FIRST_MOMENT + DAY }
    requires in_time { now ≤ TICKS }
    ensures forced { (p : ℕ) → 1 ≤ p → p ≤ 16 → has result.forced p ≡ forces (checked_plan plan.now) (Some n) correction now p }
    ensures recycle { (p : ℕ) → 1 ≤ p → p ≤ 16 → has result.recycle p ≡ lets_walk_again (checked_plan plan.now) (Some n) correction now p }
{
    let before = ahead_before(plan, n, correction, now);
    if before == 0 {
        return in_step(plan, n, correction, now);
    }
    GreenOrders {
        forced: forced(plan, n, correction, before, now),
        recycle: PhaseSet::empty(),
    }
}
