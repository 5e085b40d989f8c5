//! What of a used pattern breaks a rule: K17 to K20 and K23. Times are in tenths of a second.
#![tactic(auto, unfolding(tsb_plan::specs::PlanOf::plan_of))]

ghost use Rattle.std.specs.Prelude.{◌≡◌, ◌≤◌};
ghost use Rattle.std.specs.List.{list_any};
ghost use Rattle.tsb_plan.specs.Parts.{leads_and_lags, sequence_of};
ghost use Rattle.tsb_plan.specs.Plan.{phases};
ghost use Rattle.tsb_plan.specs.PlanOf.{plan_of};
ghost use Rattle.tsb_rules.specs.PatternRules.{some_and};
ghost use Rattle.tsb_breaches.specs.Patterns.{has_late_offset, has_no_split, has_no_sequence, names_blank, has_blank_sequence, table_of, least_split, is_too_short, sides_time, misses_cycle, coordinates_none, coordinates_unused, coordinates_omitted, coordinates_used, are_coordinated, are_across, are_apart, are_together, end_apart, is_beside, has_wrong_count, permits_always};

use crate::lists::go_together;
use crate::sequences::is_blank;
use crate::sums::{coordinated_count, has_coordinated, has_phases, sides_sum};
use tsb_plan::Plan;
use tsb_rules::split_end;
use tsb_types::{Pattern, Phase, Ring, Sequence, Split};

/// Whether the pattern is used, and its offset is not below its cycle.
pub(crate) fn has_late_offset(plan: &Plan, pattern: Pattern) -> bool
    ensures { result ≡ has_late_offset (plan_of plan.now) pattern }
{
    plan.is_used(pattern) && plan.cycle(pattern) <= plan.offset(pattern)
}

/// Whether the pattern is used, and names no split table.
pub(crate) fn has_no_split(plan: &Plan, pattern: Pattern) -> bool
    ensures { result ≡ has_no_split (plan_of plan.now) pattern }
{
    plan.is_used(pattern) && plan.split_of(pattern).is_none()
}

/// Whether it is used, and names no sequence.
pub(crate) fn has_no_sequence(plan: &Plan, pattern: Pattern) -> bool
    ensures { result ≡ has_no_sequence (plan_of plan.now) pattern }
{
    plan.is_used(pattern) && plan.sequence_of(pattern).is_none()
}

/// Whether it is used, and names a sequence that is all zeros.
pub(crate) fn has_blank_sequence(plan: &Plan, pattern: Pattern) -> bool
    ensures { result ≡ has_blank_sequence (plan_of plan.now) pattern }
{
    plan.is_used(pattern) && names_blank(plan, pattern)
}

/// Whether it names a sequence that is all zeros.
fn names_blank(plan: &Plan, pattern: Pattern) -> bool
    ensures { result ≡ names_blank (plan_of plan.now) pattern }
{
    match plan.sequence_of(pattern) {
        Some(sequence) => is_blank(plan, sequence),
        None => false,
    }
}

/// The split table of the pattern, where it is used.
pub(crate) fn table_of(plan: &Plan, pattern: Pattern) -> Option<Split>
    ensures { result ≡ table_of (plan_of plan.now) pattern }
{
    if plan.is_used(pattern) {
        plan.split_of(pattern)
    } else {
        None
    }
}

/// What the split of the phase has to hold: its minimum green, yellow and red clearance.
pub(crate) fn least_split(plan: &Plan, phase: Phase) -> u32
    ensures { result ≡ least_split (plan_of plan.now) phase }
{
    plan.minimum_green(phase) + plan.yellow_change(phase) + plan.red_clear(phase)
}

/// Whether the phase is enabled and not omitted, and its split is shorter.
pub(crate) fn is_too_short(plan: &Plan, split: Split, phase: Phase) -> bool
    ensures { result ≡ is_too_short (plan_of plan.now) split phase }
{
    plan.is_enabled(phase)
        && !plan.is_omitted(split, phase)
        && plan.split_time(split, phase) < least_split(plan, phase)
}

/// How long the sides are, one after the other.
pub(crate) fn sides_time(plan: &Plan, split: Split) -> u32
    ensures { result ≡ sides_time (plan_of plan.now) split }
{
    sides_sum(plan, split)
}

/// Whether that is not the cycle of the pattern.
pub(crate) fn misses_cycle(plan: &Plan, pattern: Pattern, split: Split) -> bool
    ensures { result ≡ misses_cycle (plan_of plan.now) pattern split }
{
    sides_time(plan, split) != plan.cycle(pattern)
}

/// Whether the table coordinates no phase.
pub(crate) fn coordinates_none(plan: &Plan, split: Split) -> bool
    ensures { result ≡ coordinates_none (plan_of plan.now) split }
{
    !has_coordinated(plan, split)
}

/// Whether the phase is a coordinated one, and not enabled.
pub(crate) fn coordinates_unused(plan: &Plan, split: Split, phase: Phase) -> bool
    ensures { result ≡ coordinates_unused (plan_of plan.now) split phase }
{
    plan.is_coordinated(split, phase) && !plan.is_enabled(phase)
}

/// Whether the phase is a coordinated one, and omitted.
pub(crate) fn coordinates_omitted(plan: &Plan, split: Split, phase: Phase) -> bool
    ensures { result ≡ coordinates_omitted (plan_of plan.now) split phase }
{
    plan.is_coordinated(split, phase) && plan.is_omitted(split, phase)
}

/// Whether the phase is an enabled one of the coordinated phases.
fn coordinates_used(plan: &Plan, split: Split, phase: Phase) -> bool
    ensures { result ≡ coordinates_used (plan_of plan.now) split phase }
{
    plan.is_coordinated(split, phase) && plan.is_enabled(phase)
}

/// Whether the two are such phases, the lower number first.
fn are_coordinated(plan: &Plan, split: Split, phase: Phase, other: Phase) -> bool
    ensures { result ≡ are_coordinated (plan_of plan.now) split phase other }
{
    phase.number() < other.number()
        && coordinates_used(plan, split, phase)
        && coordinates_used(plan, split, other)
}

/// Whether the two are on two sides.
pub(crate) fn are_across(plan: &Plan, split: Split, phase: Phase, other: Phase) -> bool
    ensures { result ≡ are_across (plan_of plan.now) split phase other }
{
    are_coordinated(plan, split, phase, other) && plan.side(phase) != plan.side(other)
}

/// Whether the two are on one side, and not concurrent.
pub(crate) fn are_apart(plan: &Plan, split: Split, phase: Phase, other: Phase) -> bool
    ensures { result ≡ are_apart (plan_of plan.now) split phase other }
{
    are_coordinated(plan, split, phase, other)
        && plan.side(phase) == plan.side(other)
        && !go_together(plan, phase, other)
}

/// Whether the two are on one side and concurrent.
fn are_together(plan: &Plan, split: Split, phase: Phase, other: Phase) -> bool
    ensures { result ≡ are_together (plan_of plan.now) split phase other }
{
    are_coordinated(plan, split, phase, other)
        && plan.side(phase) == plan.side(other)
        && go_together(plan, phase, other)
}

/// Whether the two are, and their splits end at two times by the sequence, where they may not end apart.
fn end_apart(
    plan: &Plan,
    apart: bool,
    split: Split,
    phase: Phase,
    other: Phase,
    sequence: Sequence,
) -> bool
    ensures { result ≡ end_apart (plan_of plan.now) apart split phase other sequence }
{
    !apart
        && are_together(plan, split, phase, other)
        && split_end(plan, sequence, split, phase) != split_end(plan, sequence, split, other)
}

/// Whether the two are, and their splits end at two times by the sequence of the pattern, which does not lead and lag.
pub(crate) fn end_apart_in(
    plan: &Plan,
    pattern: Pattern,
    split: Split,
    phase: Phase,
    other: Phase,
) -> bool
    ensures { result ≡ some_and (end_apart (plan_of plan.now) (leads_and_lags (plan_of plan.now) pattern) split phase other) (sequence_of (plan_of plan.now) pattern) }
{
    let apart = plan.leads_and_lags(pattern);
    match plan.sequence_of(pattern) {
        Some(sequence) => end_apart(plan, apart, split, phase, other, sequence),
        None => false,
    }
}

/// Whether the phase is a coordinated one, and the ring has phases on its side.
fn is_beside(plan: &Plan, split: Split, ring: Ring, phase: Phase) -> bool
    ensures { result ≡ is_beside (plan_of plan.now) split ring phase }
{
    plan.is_coordinated(split, phase) && has_phases(plan, ring, plan.side(phase))
}

/// Whether the ring has phases on the side of a coordinated phase.
fn is_beside_some(plan: &Plan, split: Split, ring: Ring) -> bool
    ensures { result ≡ list_any (is_beside (plan_of plan.now) split ring) (phases (plan_of plan.now)) }
{
    Phase::all()
        .iter()
        .any(|phase| is_beside(plan, split, ring, *phase))
}

/// Whether it is so, and the ring has no coordinated phase or several.
pub(crate) fn has_wrong_count(plan: &Plan, split: Split, ring: Ring) -> bool
    ensures { result ≡ has_wrong_count (plan_of plan.now) split ring }
{
    is_beside_some(plan, split, ring) && coordinated_count(plan, split, ring) != 1
}

/// Whether the pattern is used, and its permissive time is not below its cycle.
pub(crate) fn permits_always(plan: &Plan, pattern: Pattern) -> bool
    ensures { result ≡ permits_always (plan_of plan.now) pattern }
{
    plan.is_used(pattern) && plan.cycle(pattern) <= plan.permissive_time(pattern)
}
