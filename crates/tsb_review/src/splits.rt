//! Splits of a used pattern, and what a green that ends late does to those that wait. Times are in tenths of a second.
#![tactic(auto, unfolding(tsb_plan::specs::PlanOf::plan_of))]

ghost use Rattle.std.specs.Prelude.{◌≡◌, ◌≤◌, ◌<◌, ◌+◌, ◌%◌, true};
ghost use Rattle.tsb_plan.specs.Parts.{cycle, is_used};
ghost use Rattle.tsb_plan.specs.Plan.{yellow_change, red_clear};
ghost use Rattle.tsb_plan.specs.PlanOf.{plan_of};
ghost use Rattle.tsb_objects.specs.Instants.{end_of, instant_from};
ghost use Rattle.tsb_review.specs.Splits.{split_time_in, green_of_split, is_forced_after, is_behind, is_passed, passed_by, is_left_short, left_short, longest_before, longest_permissive};

use crate::calls::conflicts;
use crate::sought::{SoughtPhase, first_phase};
use tsb_plan::Plan;
use tsb_rules::split_end;
use tsb_types::{Pattern, Phase};

/// The split of the phase in the pattern.
pub(crate) fn split_time_in(plan: &Plan, pattern: Pattern, phase: Phase) -> u32
    ensures { result ≡ split_time_in (plan_of plan.now) pattern phase }
{
    match plan.split_of(pattern) {
        Some(split) => plan.split_time(split, phase),
        None => 0,
    }
}

/// Yellow change and red clearance of the phase.
fn clearance(plan: &Plan, phase: Phase) -> u32
    ensures value { result ≡ yellow_change (plan_of plan.now) phase + red_clear (plan_of plan.now) phase }
    ensures range { result ≤ 510 }
{
    plan.yellow_change(phase) + plan.red_clear(phase)
}

/// What yellow change and red clearance leave of the split of the phase in the pattern.
pub(crate) fn green_of_split(plan: &Plan, pattern: Pattern, phase: Phase) -> u32
    ensures { result ≡ green_of_split (plan_of plan.now) pattern phase }
{
    split_time_in(plan, pattern, phase).saturating_sub(clearance(plan, phase))
}

/// The cycle of a pattern that is used.
fn cycle_of(plan: &Plan, pattern: Pattern) -> u32
    requires used { is_used (plan_of plan.now) pattern ≡ true }
    ensures value { result ≡ cycle (plan_of plan.now) pattern }
    ensures some { 1 ≤ result }
    ensures range { result ≤ 2550 }
{
    plan.cycle(pattern)
}

/// When the split of the phase ends, from the beginning of side 1's first split.
pub(crate) fn end_of(plan: &Plan, pattern: Pattern, phase: Phase) -> u32
    ensures { result ≡ end_of (plan_of plan.now) pattern phase }
{
    match plan.split_of(pattern) {
        Some(split) => split_end(plan, plan.sequence_in_effect(Some(pattern)), split, phase),
        None => 0,
    }
}

/// How long after the end of the split of the phase the force-off instant of the next one is, within the cycle.
pub(crate) fn instant_from(plan: &Plan, pattern: Pattern, phase: Phase, next: Phase) -> u32
    requires used { is_used (plan_of plan.now) pattern ≡ true }
    ensures { result ≡ instant_from (plan_of plan.now) pattern phase next }
{
    let cycle = cycle_of(plan, pattern);
    let end = end_of(plan, pattern, next) % cycle;
    let before = (end_of(plan, pattern, phase) % cycle + clearance(plan, next)) % cycle;
    (end + (cycle - before)) % cycle
}

/// Whether `next` waits for the phase in the pattern, and is not one of those that are held until their force-off.
fn is_forced_after(plan: &Plan, pattern: Pattern, phase: Phase, next: Phase) -> bool
    ensures { result ≡ is_forced_after (plan_of plan.now) pattern phase next }
{
    conflicts(plan, phase, next)
        && !plan.is_coordinated_now(Some(pattern), next)
        && !plan.is_omitted_now(Some(pattern), next)
}

/// Whether no maximum acts on `next` in the pattern, and its force-off instant is at most so long after the end of the
/// split of the phase.
fn is_behind(plan: &Plan, pattern: Pattern, phase: Phase, late: u32, next: Phase) -> bool
    requires used { is_used (plan_of plan.now) pattern ≡ true }
    ensures { result ≡ is_behind (plan_of plan.now) pattern phase late next }
{
    plan.pattern_maximum(Some(pattern), next).is_none()
        && instant_from(plan, pattern, phase, next) <= late
}

/// Whether `next`, where it begins so long after the end of the split of the phase, begins at its force-off instant or
/// after it, and demand holds it until the next cycle: there is neither late force-off nor a maximum that acts.
pub(crate) fn is_passed(plan: &Plan, pattern: Pattern, phase: Phase, late: u32, next: Phase) -> bool
    ensures { result ≡ is_passed (plan_of plan.now) pattern phase late next }
{
    !plan.forces_late()
        && plan.is_used(pattern)
        && is_forced_after(plan, pattern, phase, next)
        && is_behind(plan, pattern, phase, late, next)
}

/// The first phase that then begins at its force-off instant or after it, and that demand holds until the next cycle.
pub(crate) fn passed_by(plan: &Plan, pattern: Pattern, phase: Phase, late: u32) -> Option<Phase>
    ensures { result ≡ passed_by (plan_of plan.now) pattern phase late }
{
    first_phase(plan, SoughtPhase::Passed(pattern, phase, late))
}

/// Whether `next`, where it begins at the end of the permissive time of the phase, has less than its minimum green
/// before its force-off instant in the used pattern.
pub(crate) fn is_left_short(plan: &Plan, pattern: Pattern, phase: Phase, next: Phase) -> bool
    ensures { result ≡ is_left_short (plan_of plan.now) pattern phase next }
{
    plan.is_used(pattern)
        && is_forced_after(plan, pattern, phase, next)
        && instant_from(plan, pattern, phase, next)
            < plan.permissive_time(pattern) + plan.minimum_green(next)
}

/// The first phase that the permissive time of the phase can leave less than its minimum green.
pub(crate) fn left_short(plan: &Plan, pattern: Pattern, phase: Phase) -> Option<Phase>
    ensures { result ≡ left_short (plan_of plan.now) pattern phase }
{
    first_phase(plan, SoughtPhase::LeftShort(pattern, phase))
}

/// The longest permissive time of the phase, in tenths of a second, that leaves its minimum green to the first phase that
/// the present one can leave less.
pub(crate) fn longest_permissive(plan: &Plan, pattern: Pattern, phase: Phase) -> u32
    ensures { result ≡ longest_permissive (plan_of plan.now) pattern phase }
{
    longest_before(plan, pattern, phase, left_short(plan, pattern, phase))
}

/// The longest permissive time that leaves this one its minimum green: 0 where there is none, or the pattern is not used.
fn longest_before(plan: &Plan, pattern: Pattern, phase: Phase, next: Option<Phase>) -> u32
    ensures { result ≡ longest_before (plan_of plan.now) pattern phase next }
{
    match next {
        Some(next) if plan.is_used(pattern) => {
            instant_from(plan, pattern, phase, next).saturating_sub(plan.minimum_green(next))
        }
        _ => 0,
    }
}
