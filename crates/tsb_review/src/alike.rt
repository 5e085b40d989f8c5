//! Patterns in which an advice says the same of a phase: A12 and A43 are told once of them, in the first.
#![tactic(auto, unfolding(tsb_plan::specs::PlanOf::plan_of))]

ghost use Rattle.std.specs.Prelude.{◌≡◌};
ghost use Rattle.tsb_plan.specs.PlanOf.{plan_of};
ghost use Rattle.tsb_review.specs.Alike.{overruns_alike, is_permissive_alike, is_alike, is_told_before, overruns_first, yields_first, is_also_at, is_also_in};

use crate::advice::Advice;
use crate::coordination::yields_too_long;
use crate::finding::Finding;
use crate::pedestrians::overruns_split;
use crate::place::Place;
use crate::splits::{green_of_split, left_short, longest_permissive};
use tsb_plan::Plan;
use tsb_types::{Pattern, Phase};

/// Whether walk and clearance of the phase are longer than the green of its split in pattern `other` too, and that is
/// as long as in the pattern.
fn overruns_alike(plan: &Plan, pattern: Pattern, phase: Phase, other: Pattern) -> bool
    ensures { result ≡ overruns_alike (plan_of plan.now) pattern phase other }
{
    overruns_split(plan, other, phase)
        && green_of_split(plan, other, phase) == green_of_split(plan, pattern, phase)
}

/// Whether the permissive time of pattern `other` is too long for the phase too, is that of the pattern, and leaves the
/// same first phase short by as much.
fn is_permissive_alike(plan: &Plan, pattern: Pattern, phase: Phase, other: Pattern) -> bool
    ensures { result ≡ is_permissive_alike (plan_of plan.now) pattern phase other }
{
    yields_too_long(plan, other, phase)
        && plan.permissive_time(other) == plan.permissive_time(pattern)
        && left_short(plan, other, phase) == left_short(plan, pattern, phase)
        && longest_permissive(plan, other, phase) == longest_permissive(plan, pattern, phase)
}

/// Whether the advice says the same of the phase in pattern `other` as in the pattern.
fn is_alike(plan: &Plan, advice: Advice, pattern: Pattern, phase: Phase, other: Pattern) -> bool
    ensures { result ≡ is_alike (plan_of plan.now) advice pattern phase other }
{
    match advice {
        Advice::A12 => overruns_alike(plan, pattern, phase, other),
        Advice::A43 => is_permissive_alike(plan, pattern, phase, other),
        _ => false,
    }
}

/// Whether the advice says the same of the phase in a pattern before this one.
fn is_told_before(plan: &Plan, advice: Advice, pattern: Pattern, phase: Phase) -> bool
    ensures { result ≡ is_told_before (plan_of plan.now) advice pattern phase }
{
    Pattern::all().iter().any(|other| {
        other.number() < pattern.number() && is_alike(plan, advice, pattern, phase, *other)
    })
}

/// A12: whether walk and clearance of the phase are longer than the green of its split in the used pattern, the first
/// in which this is so alike.
pub(crate) fn overruns_first(plan: &Plan, pattern: Pattern, phase: Phase) -> bool
    ensures { result ≡ overruns_first (plan_of plan.now) pattern phase }
{
    overruns_split(plan, pattern, phase) && !is_told_before(plan, Advice::A12, pattern, phase)
}

/// A43: whether the permissive time of the used pattern is too long for the phase, and the pattern is the first in
/// which this is so alike.
pub(crate) fn yields_first(plan: &Plan, pattern: Pattern, phase: Phase) -> bool
    ensures { result ≡ yields_first (plan_of plan.now) pattern phase }
{
    yields_too_long(plan, pattern, phase) && !is_told_before(plan, Advice::A43, pattern, phase)
}

/// Whether the advice, given for the place, says the same of its phase in pattern `other`, a later one.
fn is_also_at(plan: &Plan, advice: Advice, place: &Place, other: Pattern) -> bool
    ensures { result ≡ is_also_at (plan_of plan.now) advice place.now other }
{
    match place {
        Place::PatternPhase(pattern, phase) => {
            pattern.number() < other.number() && is_alike(plan, advice, *pattern, *phase, other)
        }
        _ => false,
    }
}

/// Whether the finding is also told of this pattern, a later one than its own.
pub fn is_also_in(plan: &Plan, finding: &Finding, pattern: Pattern) -> bool
    ensures { result ≡ is_also_in (plan_of plan.now) finding.now pattern }
{
    is_also_at(plan, finding.advice, &finding.place, pattern)
}
