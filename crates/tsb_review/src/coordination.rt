//! Advices on coordination: A27 to A32, A42 to A47, and A54. Times are in tenths of a second.
#![tactic(auto, unfolding(tsb_plan::specs::PlanOf::plan_of))]

ghost use Rattle.std.specs.Prelude.{◌≡◌, ◌==◌};
ghost use Rattle.std.specs.List.{list_any};
ghost use Rattle.tsb_plan.specs.Objects.{indices};
ghost use Rattle.tsb_plan.specs.declared.object.Object.TheVariants.{CoordCorrectionMode};
ghost use Rattle.tsb_plan.specs.Plan.{phases};
ghost use Rattle.tsb_plan.specs.PlanOf.{plan_of};
ghost use Rattle.tsb_review.specs.Splits.{passed_by};
ghost use Rattle.tsb_review.specs.Coordination.{spare_time, has_tight_split, overrun, makes_late, recalls_omitted, yields_alike, is_same_before, first_same, is_repeated, is_actuated, yields_once, is_under, has_short_maximum, is_permissive, yields_too_long, ends_apart_from, ends_apart, leads_for_nothing, is_coordinated_by_pattern, recycles_nothing, walks_over_and_over, gives_correction, corrects_nothing, ends_at_instants, permits_late_greens};

use crate::calls::{has_recall, has_walk, is_recalled_in, serves_pedestrians};
use crate::pedestrians::{overruns_split, pedestrian_time};
use crate::sought::{SoughtPhase, some_phase};
use crate::splits::{end_of, green_of_split, left_short, passed_by};
use tsb_plan::{CorrectionMode, Object, Plan};
use tsb_types::{Pattern, Phase};

/// What a split has to leave over its least time.
const SPARE_TIME: u32 = 10;

/// What the split of the phase leaves over its minimum green, yellow change and red clearance in the pattern.
pub(crate) fn spare_time(plan: &Plan, pattern: Pattern, phase: Phase) -> u32
    ensures { result ≡ spare_time (plan_of plan.now) pattern phase }
{
    green_of_split(plan, pattern, phase).saturating_sub(plan.minimum_green(phase))
}

/// A27: whether that is under 1 second in the used pattern.
pub(crate) fn has_tight_split(plan: &Plan, pattern: Pattern, phase: Phase) -> bool
    ensures { result ≡ has_tight_split (plan_of plan.now) pattern phase }
{
    plan.is_used(pattern)
        && plan.is_enabled(phase)
        && !plan.is_omitted_now(Some(pattern), phase)
        && spare_time(plan, pattern, phase) < SPARE_TIME
}

/// How long after the end of its split walk and clearance of the phase are over, where they begin with its split.
fn overrun(plan: &Plan, pattern: Pattern, phase: Phase) -> u32
    ensures { result ≡ overrun (plan_of plan.now) pattern phase }
{
    pedestrian_time(plan, phase).saturating_sub(green_of_split(plan, pattern, phase))
}

/// A28: whether walk and clearance of the phase overrun its split in the pattern, and a phase that waits then begins at
/// its force-off instant or after it, and demand holds it until the next cycle.
pub(crate) fn makes_late(plan: &Plan, pattern: Pattern, phase: Phase) -> bool
    ensures { result ≡ makes_late (plan_of plan.now) pattern phase }
{
    overruns_split(plan, pattern, phase) && passed_by_overrun(plan, pattern, phase).is_some()
}

/// The first phase that an overrun of the phase makes begin at its force-off instant or after it, and that demand holds
/// until the next cycle.
pub(crate) fn passed_by_overrun(plan: &Plan, pattern: Pattern, phase: Phase) -> Option<Phase>
    ensures { result ≡ passed_by (plan_of plan.now) pattern phase (overrun (plan_of plan.now) pattern phase) }
{
    passed_by(plan, pattern, phase, overrun(plan, pattern, phase))
}

/// A29: whether the used pattern omits the phase, which has a recall.
pub(crate) fn recalls_omitted(plan: &Plan, pattern: Pattern, phase: Phase) -> bool
    ensures { result ≡ recalls_omitted (plan_of plan.now) pattern phase }
{
    plan.is_used(pattern)
        && plan.is_enabled(phase)
        && plan.is_omitted_now(Some(pattern), phase)
        && has_recall(plan, phase)
}

/// Whether the two patterns have the same permissive time, and lead and lag alike.
fn yields_alike(plan: &Plan, pattern: Pattern, other: Pattern) -> bool
    ensures { result ≡ yields_alike (plan_of plan.now) pattern other }
{
    has_same(plan, Object::PatternPermissiveTime, pattern, other)
        && has_same(plan, Object::PatternLeadLag, pattern, other)
}

/// Whether pattern `other` comes before the pattern, and is used with the same cycle, offset, split table and sequence,
/// with the same permissive time, and leading and lagging alike.
fn is_same_before(plan: &Plan, pattern: Pattern, other: Pattern) -> bool
    ensures { result ≡ is_same_before (plan_of plan.now) pattern other }
{
    other.number() < pattern.number()
        && has_same(plan, Object::PatternCycleTime, pattern, other)
        && has_same(plan, Object::PatternOffsetTime, pattern, other)
        && has_same(plan, Object::PatternSplitNumber, pattern, other)
        && has_same(plan, Object::PatternSequenceNumber, pattern, other)
        && yields_alike(plan, pattern, other)
}

/// Whether two patterns have one value of an object of patterns.
fn has_same(plan: &Plan, object: Object, pattern: Pattern, other: Pattern) -> bool
    requires { indices object ≡ 16 }
    ensures { result ≡ ((plan_of plan.now).value object other == (plan_of plan.now).value object pattern) }
{
    plan.at(object, u32::from(other.number())) == plan.at(object, u32::from(pattern.number()))
}

/// The first pattern that is the same as this one and comes before it.
pub(crate) fn first_same(plan: &Plan, pattern: Pattern) -> Option<Pattern>
    ensures { result ≡ first_same (plan_of plan.now) pattern }
{
    Pattern::all()
        .iter()
        .copied()
        .find(|other| is_same_before(plan, pattern, *other))
}

/// A30: whether the used pattern is the same as one before it.
pub(crate) fn is_repeated(plan: &Plan, pattern: Pattern) -> bool
    ensures { result ≡ is_repeated (plan_of plan.now) pattern }
{
    plan.is_used(pattern) && first_same(plan, pattern).is_some()
}

/// Whether the phase waits for a call in the pattern: it is neither coordinated, nor omitted, nor recalled.
pub(crate) fn is_actuated(plan: &Plan, pattern: Pattern, phase: Phase) -> bool
    ensures { result ≡ is_actuated (plan_of plan.now) pattern phase }
{
    plan.is_enabled(phase)
        && !plan.is_coordinated_now(Some(pattern), phase)
        && !plan.is_omitted_now(Some(pattern), phase)
        && !is_recalled_in(plan, pattern, phase)
}

/// A32: whether the used pattern has no permissive time, and a phase that waits for a call.
pub(crate) fn yields_once(plan: &Plan, pattern: Pattern) -> bool
    ensures { result ≡ yields_once (plan_of plan.now) pattern }
{
    plan.is_used(pattern)
        && plan.permissive_time(pattern) == 0
        && some_phase(plan, SoughtPhase::Actuated(pattern))
}

/// Whether there is a maximum, and it is under this time.
fn is_under(maximum: Option<u32>, time: u32) -> bool
    ensures { result ≡ is_under maximum time }
{
    match maximum {
        Some(maximum) => maximum < time,
        None => false,
    }
}

/// A42: whether the maximum that acts on the phase in the used pattern is under the green that its split leaves.
pub(crate) fn has_short_maximum(plan: &Plan, pattern: Pattern, phase: Phase) -> bool
    ensures { result ≡ has_short_maximum (plan_of plan.now) pattern phase }
{
    plan.is_used(pattern)
        && plan.is_enabled(phase)
        && !plan.is_omitted_now(Some(pattern), phase)
        && is_under(
            plan.pattern_maximum(Some(pattern), phase),
            green_of_split(plan, pattern, phase),
        )
}

/// Whether the phase is a coordinated one of the pattern, which has a permissive time.
fn is_permissive(plan: &Plan, pattern: Pattern, phase: Phase) -> bool
    ensures { result ≡ is_permissive (plan_of plan.now) pattern phase }
{
    plan.is_enabled(phase)
        && plan.is_coordinated_now(Some(pattern), phase)
        && plan.permissive_time(pattern) > 0
}

/// A43: whether the permissive time of the coordinated phase can leave a phase that waits less than its minimum green
/// before its force-off instant in the used pattern.
pub(crate) fn yields_too_long(plan: &Plan, pattern: Pattern, phase: Phase) -> bool
    ensures { result ≡ yields_too_long (plan_of plan.now) pattern phase }
{
    is_permissive(plan, pattern, phase) && left_short(plan, pattern, phase).is_some()
}

/// Whether `other` is a coordinated phase of the pattern, and its split ends at another time than that of the phase.
pub(crate) fn ends_apart_from(plan: &Plan, pattern: Pattern, phase: Phase, other: Phase) -> bool
    ensures { result ≡ ends_apart_from (plan_of plan.now) pattern phase other }
{
    plan.is_coordinated_now(Some(pattern), other)
        && end_of(plan, pattern, other) != end_of(plan, pattern, phase)
}

/// Whether the phase is a coordinated one of the pattern, and the split of another one ends at another time.
fn ends_apart(plan: &Plan, pattern: Pattern, phase: Phase) -> bool
    ensures { result ≡ ends_apart (plan_of plan.now) pattern phase }
{
    plan.is_coordinated_now(Some(pattern), phase)
        && some_phase(plan, SoughtPhase::EndingApart(pattern, phase))
}

/// Whether the splits of the coordinated phases of the pattern end at different times.
fn has_ends_apart(plan: &Plan, pattern: Pattern) -> bool
    ensures { result ≡ list_any (ends_apart (plan_of plan.now) pattern) (phases (plan_of plan.now)) }
{
    Phase::all()
        .iter()
        .any(|phase| ends_apart(plan, pattern, *phase))
}

/// A44: whether the used pattern leads and lags, and the splits of its coordinated phases end at one time.
pub(crate) fn leads_for_nothing(plan: &Plan, pattern: Pattern) -> bool
    ensures { result ≡ leads_for_nothing (plan_of plan.now) pattern }
{
    plan.is_used(pattern) && plan.leads_and_lags(pattern) && !has_ends_apart(plan, pattern)
}

/// Whether some used pattern has the phase as a coordinated one.
fn is_coordinated_by_pattern(plan: &Plan, phase: Phase) -> bool
    ensures { result ≡ is_coordinated_by_pattern (plan_of plan.now) phase }
{
    Pattern::all().iter().any(|pattern| {
        plan.is_used(*pattern) && plan.is_coordinated_now(Some(*pattern), phase)
    })
}

/// A45: whether the phase has pedestrian recycle, and no used pattern has it as a coordinated one with a walk.
pub(crate) fn recycles_nothing(plan: &Plan, phase: Phase) -> bool
    ensures { result ≡ recycles_nothing (plan_of plan.now) phase }
{
    plan.is_enabled(phase)
        && plan.recycles_walk(phase)
        && !(has_walk(plan, phase) && is_coordinated_by_pattern(plan, phase))
}

/// A46: whether the used pattern has the phase as a coordinated one with a walk and pedestrian recycle, and recalls its
/// pedestrians, so that after each clearance its walk begins again.
pub(crate) fn walks_over_and_over(plan: &Plan, pattern: Pattern, phase: Phase) -> bool
    ensures { result ≡ walks_over_and_over (plan_of plan.now) pattern phase }
{
    plan.is_used(pattern)
        && serves_pedestrians(plan, phase)
        && plan.recycles_walk(phase)
        && plan.is_coordinated_now(Some(pattern), phase)
        && plan.is_on_pedestrian_recall(Some(pattern), phase)
}

/// The number of the mode by which local counters come into step.
pub(crate) fn correction_number(plan: &Plan) -> u32
    ensures { result ≡ (plan_of plan.now).value CoordCorrectionMode 1 }
{
    plan.at(Object::CoordCorrectionMode, 1)
}

/// Whether the plan has a mode by which local counters come into step, or a limit for it.
fn gives_correction(plan: &Plan) -> bool
    ensures { result ≡ gives_correction (plan_of plan.now) }
{
    correction_number(plan) > 0 || plan.correction_limit() > 0
}

/// A47: whether it has one of them, and local counters come into step at once all the same: by the short way or add
/// only without a limit, or with a limit alone.
pub(crate) fn corrects_nothing(plan: &Plan) -> bool
    ensures { result ≡ corrects_nothing (plan_of plan.now) }
{
    gives_correction(plan) && matches!(plan.correction_mode(), CorrectionMode::AtOnce)
}

/// Whether nothing but its instant ends a green that demand holds in a pattern: neither late force-off nor a maximum.
fn ends_at_instants(plan: &Plan) -> bool
    ensures { result ≡ ends_at_instants (plan_of plan.now) }
{
    !plan.forces_late() && plan.at(Object::CoordMaximumMode, 1) == 0
}

/// A54: whether the used pattern has a permissive time, and nothing but its instant ends a green.
pub(crate) fn permits_late_greens(plan: &Plan, pattern: Pattern) -> bool
    ensures { result ≡ permits_late_greens (plan_of plan.now) pattern }
{
    plan.is_used(pattern) && plan.permissive_time(pattern) > 0 && ends_at_instants(plan)
}
