//! The red revert times of a plan.
ghost use Rattle.tsb_plan.specs.PlanOf.{plan_of};
ghost use Rattle.tsb_objects.specs.RedReverts.{IsLongestRedRevert};

use tsb_plan::Plan;
use tsb_types::Phase;

/// The longest red revert time that a phase has, in tenths of a second.
pub(crate) fn longest_red_revert(plan: &Plan) -> u32
    ensures { IsLongestRedRevert (plan_of plan.now) result }
{
    let mut longest = 0u32;
    for number in 1..17u8 {
        let time = plan.red_revert(Phase::of(number));
        longest = longest.max(time);
    }
    longest
}
