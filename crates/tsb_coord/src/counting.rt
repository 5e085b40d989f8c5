//! The local counter.
ghost use Rattle.std.specs.Prelude.{◌≡◌, ◌+◌, ◌≤◌, ◌<◌, true};
ghost use Rattle.tsb_objects.specs.tsb_types.declared.limits.TheConstants.{TICKS};
ghost use Rattle.tsb_objects.specs.tsb_plan.Parts.{cycle, is_used};
ghost use Rattle.tsb_objects.specs.Checked.{checked_plan};
ghost use Rattle.tsb_coord.specs.Coordinated.{counter};

use tsb_objects::{Checked, Pattern};

/// The cycle of a pattern that is used, in ticks, with its range.
#[inline(always)]
pub(crate) fn cycle_of(plan: &Checked, n: Pattern) -> u32
    requires used { is_used (checked_plan plan.now) n ≡ true }
    ensures value { result ≡ cycle (checked_plan plan.now) n }
    ensures some { 1 ≤ result }
    ensures range { result ≤ 2550 }
{
    plan.plan().cycle(n)
}

/// The local counter of a pattern that is used, in step: the ticks since tick number 0, less the offset in effect, within
/// the cycle. The number is at most two cycles past the last tick that there is.
#[inline(always)]
pub(crate) fn counter(plan: &Checked, n: Pattern, now: u32) -> u32
    requires used { is_used (checked_plan plan.now) n ≡ true }
    requires in_time { now ≤ TICKS + 5100 }
    ensures value { result ≡ counter (checked_plan plan.now) n now }
    ensures below { result < cycle (checked_plan plan.now) n }
{
    let cycle = cycle_of(plan, n);
    let offset = plan.offset_in_effect(n);
    (now + cycle).saturating_sub(offset) % cycle
}
