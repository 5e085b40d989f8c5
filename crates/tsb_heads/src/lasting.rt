//! Whether an overlap lasts through a clearance by what a ring is committed to.
ghost use Rattle.std.specs.Prelude.{◌≡◌};
ghost use Rattle.tsb_objects.specs.Checked.{checked_plan};
ghost use Rattle.tsb_heads.specs.Promises.{TellsLasting, TellsKeeping};

use crate::overlaps::{find_served, is_kept, lasts};
use tsb_objects::limits::OVERLAPS;
use tsb_objects::{Checked, Intervals, Overlap, Phase};

/// Whether some overlap lasts through the clearance of a phase that it includes, by the phases to which rings 1 and 2
/// are committed: it stays green, or its yellow is kept back, and goes on with the phase that follows.
#[inline(never)]
pub fn some_overlap_lasts(
    intervals: &Intervals,
    ring_1: Option<Phase>,
    ring_2: Option<Phase>,
    plan: &Checked,
) -> bool
    ensures { TellsLasting intervals.now ring_1 ring_2 (checked_plan plan.now) result }
{
    let served = find_served(intervals, ring_1, ring_2, plan);
    for number in 1..OVERLAPS + 1 {
        if lasts(plan, Overlap::of(number), &served) {
            return true;
        }
    }
    false
}

/// Whether an included phase keeps the overlap green, as a normal one, by the phases to which rings 1 and 2 are committed:
/// it is Green, or in its clearance with another included phase to follow.
pub fn keeps_green(
    intervals: &Intervals,
    ring_1: Option<Phase>,
    ring_2: Option<Phase>,
    o: Overlap,
    plan: &Checked,
) -> bool
    ensures { TellsKeeping intervals.now ring_1 ring_2 o (checked_plan plan.now) result }
{
    is_kept(plan, o, &find_served(intervals, ring_1, ring_2, plan))
}
