//! For how many ticks a tick has nothing to look at.
ghost use Rattle.tsb_objects.specs.tsb_types.declared.limits.TheConstants.{VEHICLE_DETECTORS};
ghost use Rattle.std.specs.Prelude.{◌≡◌, ℕ, ◌+◌, ◌-◌, ◌%◌, ◌<◌, ◌≤◌, ◌^◌, false};
ghost use Rattle.tsb_objects.specs.Checked.{checked_plan};
ghost use Rattle.tsb_objects.specs.tsb_plan.PlanOf.{plan_of};
ghost use Rattle.tsb_objects.specs.tsb_types.Sets.{has_detector};
ghost use Rattle.tsb_detect.specs.Cells.{row_in};
ghost use Rattle.tsb_detect.specs.Rows.{is_tested};

use crate::detectors::Detectors;
use crate::diagnostics::{MINUTE, steady_limit, timed};
use crate::sets::has;
use tsb_objects::{Checked, Detector, DetectorSet, Plan};

/// How many ticks after `now` a detector is looked at for its time, where that is within a minute: by then its input
/// has been on or off for long enough, or it has not been on for the delay.
#[inline(always)]
fn wait(now: u32, plan: &Plan, d: Detector, input: bool, change: u32) -> u32
    requires fits { now + 600 < 2 ^ 32 }
    requires range { change ≤ now + 1 }
    ensures later { 1 ≤ result }
    ensures quiet { (t : ℕ) → now < t → t < now + result → is_tested t (plan_of plan.now) d input change ≡ false }
{
    let ran = now + 1 - change;
    let limit = steady_limit(plan, d, input);
    let judged = if limit == 0 {
        MINUTE
    } else {
        limit.saturating_sub(ran).max(1)
    };
    if input & (ran + 1 < plan.detector_delay(d)) {
        1
    } else {
        judged
    }
}

impl Detectors {
    ghost use Rattle.tsb_detect.specs.Layer.{cells_of};

    /// How many ticks after `now` the first detector is looked at for its time, or all of them as a minute is whole.
    pub(super) fn soonest(&self, now: u32, inputs: DetectorSet, plan: &Checked) -> u32
        requires fits { now + 600 < 2 ^ 32 }
        requires range { (d : ℕ) → 1 ≤ d → d ≤ VEHICLE_DETECTORS → (row_in (cells_of self.now) d).change ≤ now + 1 }
        ensures later { 1 ≤ result }
        ensures within { result ≤ 600 - now % 600 }
        ensures quiet { (t d : ℕ) → now < t → t < now + result → 1 ≤ d → d ≤ VEHICLE_DETECTORS →
            is_tested t (checked_plan plan.now) d (has_detector inputs d) (row_in (cells_of self.now) d).change ≡ false }
    {
        let mut soonest = MINUTE - now % MINUTE;
        let mut rest = timed(inputs, plan);
        while let Some(d) = rest.pop_detector() {
            let change = self.change(now, d);
            soonest = soonest.min(wait(now, plan.plan(), d, has(inputs, d), change));
        }
        soonest
    }
}
