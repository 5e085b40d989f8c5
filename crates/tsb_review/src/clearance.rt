//! Advices on clearance: A15, A16 and A57. Times are in tenths of a second.
#![tactic(auto, unfolding(tsb_plan::specs::PlanOf::plan_of))]

ghost use Rattle.std.specs.Prelude.{◌≡◌};
ghost use Rattle.tsb_plan.specs.PlanOf.{plan_of};
ghost use Rattle.tsb_review.specs.Clearance.{is_across, clears_without_red, reverts_soon, reverting, has_short_revert, clears_too_soon};

use crate::calls::is_for_pedestrians;
use crate::sought::{SoughtPhase, first_phase, some_phase};
use tsb_plan::Plan;
use tsb_types::Phase;

/// The shortest red revert that is usual.
const SHORTEST_REVERT: u32 = 20;

/// The shortest red clearance that is usual, where a phase has one.
const SHORTEST_RED: u32 = 5;

/// Whether `other` is an enabled phase of another side than the phase.
pub(crate) fn is_across(plan: &Plan, phase: Phase, other: Phase) -> bool
    ensures { result ≡ is_across (plan_of plan.now) phase other }
{
    plan.is_enabled(other) && plan.side(phase) != plan.side(other)
}

/// A15: whether the phase, which is not for pedestrians alone, has no red clearance, and there are phases across the
/// barrier.
pub(crate) fn clears_without_red(plan: &Plan, phase: Phase) -> bool
    ensures { result ≡ clears_without_red (plan_of plan.now) phase }
{
    plan.is_enabled(phase)
        && !is_for_pedestrians(plan, phase)
        && plan.red_clear(phase) == 0
        && some_phase(plan, SoughtPhase::Across(phase))
}

/// Whether the phase is enabled, and its red revert is under 2 seconds.
pub(crate) fn reverts_soon(plan: &Plan, phase: Phase) -> bool
    ensures { result ≡ reverts_soon (plan_of plan.now) phase }
{
    plan.is_enabled(phase) && plan.red_revert(phase) < SHORTEST_REVERT
}

/// The first phase whose red revert is under 2 seconds.
pub(crate) fn reverting(plan: &Plan) -> Option<Phase>
    ensures { result ≡ reverting (plan_of plan.now) }
{
    first_phase(plan, SoughtPhase::SoonReverting)
}

/// A16: whether the red revert of some phase is under 2 seconds.
pub(crate) fn has_short_revert(plan: &Plan) -> bool
    ensures { result ≡ has_short_revert (plan_of plan.now) }
{
    reverting(plan).is_some()
}

/// A57: whether the red clearance of the phase is over 0 and under 0.5 seconds, as a number of seconds is that is taken
/// for tenths.
pub(crate) fn clears_too_soon(plan: &Plan, phase: Phase) -> bool
    ensures { result ≡ clears_too_soon (plan_of plan.now) phase }
{
    plan.is_enabled(phase) && plan.red_clear(phase) > 0 && plan.red_clear(phase) < SHORTEST_RED
}
