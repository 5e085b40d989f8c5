//! The clock, and the midnight that a local counter counts from.
ghost use Rattle.std.specs.Prelude.{◌≡◌, ◌≤◌, ◌<◌, ◌+◌, ◌*◌, IfSome, true};
ghost use Rattle.tsb_objects.specs.tsb_types.declared.clock_time.TheConstants.{DAY, FIRST_MOMENT, LAST_DAY};
ghost use Rattle.tsb_objects.specs.tsb_types.declared.limits.TheConstants.{TICKS};
ghost use Rattle.tsb_objects.specs.tsb_plan.Parts.{cycle, is_used};
ghost use Rattle.tsb_objects.specs.Checked.{checked_plan};
ghost use Rattle.tsb_coord.specs.Clock.{midnight_at, shift};

use crate::counting::cycle_of;
use tsb_objects::{Checked, Pattern};
use tsb_types::DAY;
use tsb_types::clock_time::FIRST_MOMENT;

/// How long after the midnight at or before tick number `now` tick number 0 comes, in ticks, and eight days, by the moment
/// of tick number 0; 0 where no clock is set.
pub(crate) fn midnight_at(start: &Option<u64>, now: u32) -> u32
    requires counted { IfSome start.now (λ m. m < (LAST_DAY + 1) * DAY) }
    requires in_time { now ≤ TICKS }
    ensures value { result ≡ midnight_at start.now now }
    ensures below { result < FIRST_MOMENT + DAY }
{
    match start {
        None => 0,
        Some(start) => {
            let time = (*start + u64::from(now)) % u64::from(DAY);
            (FIRST_MOMENT + time).saturating_sub(u64::from(now)) as u32
        }
    }
}

/// By how many ticks the counter of a pattern is further than one that counts from tick number 0, by its midnight.
#[inline(always)]
pub(crate) fn shift(plan: &Checked, n: Pattern, midnight: u32) -> u32
    requires used { is_used (checked_plan plan.now) n ≡ true }
    requires midnight { midnight < FIRST_MOMENT + DAY }
    ensures value { result ≡ shift (cycle (checked_plan plan.now) n) midnight }
    ensures below { result < cycle (checked_plan plan.now) n }
    ensures small { result < 2550 }
{
    if midnight == 0 {
        return 0;
    }
    let cycle = cycle_of(plan, n);
    (midnight + (cycle - FIRST_MOMENT as u32 % cycle)) % cycle
}
