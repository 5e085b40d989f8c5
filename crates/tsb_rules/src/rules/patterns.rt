//! Rules K17 to K20 and K23: what a used pattern must be.
#![tactic(auto, unfolding(tsb_plan::specs::PlanOf::plan_of))]

ghost use Rattle.std.specs.Prelude.{◌≡◌, ◌==◌, ◌||◌, not, if◌then◌else◌, sum_by, Some, None};
ghost use Rattle.tsb_plan.specs.Parts.{is_coordinated, leads_and_lags, split_of, sequence_of};
ghost use Rattle.tsb_plan.specs.PlanOf.{plan_of};
ghost use Rattle.tsb_rules.specs.Asked.{pattern_meets};
ghost use Rattle.tsb_rules.specs.PatternRules.{each_pattern, names_sequence, is_whole, holds_phase, holds_phases, some_and, rings_agree_on_sides, fills, may_coordinate, ends_with, agrees_with_all, has_phases, is_coordinated_in, coordinated_count, has_one_in_each_ring, coordinates, has_coordinated, all_coordinate, coordinated_agree, side_sum};
ghost use Rattle.tsb_types.specs.Lists.{run_from};

use crate::rules::asked::{OfEnabled, OfPhase, Sought, each_enabled, each_phase, some_phase};
use crate::rules::sequences::is_blank;
use crate::rules::splits::{agreed_side_sum, has_phases, split_end};
use tsb_plan::Plan;
use tsb_types::{Pattern, Phase, Ring, Sequence, Split};

/// What a rule asks of each used pattern.
#[derive(Clone, Copy)]
pub(super) enum OfPattern {
    /// K17: it has an offset below its cycle, a split table, and a sequence that is not all zeros.
    Whole,
    /// K18: the split of each phase that it does not omit holds its minimum green, yellow change and red clearance.
    HoldsPhases,
    /// K19: the splits of a side have one sum in each ring that has phases there, and the sums of the sides add up to
    /// the cycle.
    FillsCycle,
    /// K20: it has coordinated phases. All are enabled, not omitted, on one side and pairwise concurrent, one of each
    /// ring that has phases there, and their splits end at one time unless it leads and lags.
    IsCoordinated,
    /// K23: its permissive time is below its cycle.
    PermissiveTimeEnds,
}

/// Whether a used pattern is as a rule asks.
fn pattern_meets(plan: &Plan, asked: OfPattern, pattern: Pattern) -> bool
    ensures { result ≡ pattern_meets asked (plan_of plan.now) pattern }
{
    match asked {
        OfPattern::Whole => is_whole(plan, pattern),
        OfPattern::HoldsPhases => pattern_holds_phases(plan, pattern),
        OfPattern::FillsCycle => pattern_fills_cycle(plan, pattern),
        OfPattern::IsCoordinated => pattern_is_coordinated(plan, pattern),
        OfPattern::PermissiveTimeEnds => plan.permissive_time(pattern) < plan.cycle(pattern),
    }
}

/// Whether each used pattern is as a rule asks.
pub(super) fn each_pattern(plan: &Plan, asked: OfPattern) -> bool
    ensures { result ≡ each_pattern (plan_of plan.now) (pattern_meets asked (plan_of plan.now)) }
{
    Pattern::all().iter().all(|pattern| !plan.is_used(*pattern)
        || pattern_meets(plan, asked, *pattern))
}

fn is_whole(plan: &Plan, pattern: Pattern) -> bool
    ensures { result ≡ is_whole (plan_of plan.now) pattern }
{
    plan.offset(pattern) < plan.cycle(pattern)
        && plan.split_of(pattern).is_some()
        && names_sequence(plan, pattern)
}

fn names_sequence(plan: &Plan, pattern: Pattern) -> bool
    ensures { result ≡ names_sequence (plan_of plan.now) pattern }
{
    match plan.sequence_of(pattern) {
        Some(sequence) => !is_blank(plan, sequence),
        None => false,
    }
}

fn pattern_holds_phases(plan: &Plan, pattern: Pattern) -> bool
    ensures { result ≡ some_and (holds_phases (plan_of plan.now)) (split_of (plan_of plan.now) pattern) }
{
    match plan.split_of(pattern) {
        Some(split) => holds_phases(plan, split),
        None => false,
    }
}

fn holds_phases(plan: &Plan, split: Split) -> bool
    ensures { result ≡ holds_phases (plan_of plan.now) split }
{
    each_enabled(plan, OfEnabled::HeldBy(split))
}

pub(super) fn holds_phase(plan: &Plan, split: Split, phase: Phase) -> bool
    ensures { result ≡ holds_phase (plan_of plan.now) split phase }
{
    plan.is_omitted(split, phase)
        || plan.minimum_green(phase) + plan.yellow_change(phase) + plan.red_clear(phase)
            <= plan.split_time(split, phase)
}

fn pattern_fills_cycle(plan: &Plan, pattern: Pattern) -> bool
    ensures { result ≡ some_and (fills (plan_of plan.now) pattern) (split_of (plan_of plan.now) pattern) }
{
    match plan.split_of(pattern) {
        Some(split) => fills(plan, pattern, split),
        None => false,
    }
}

fn fills(plan: &Plan, pattern: Pattern, split: Split) -> bool
    ensures { result ≡ fills (plan_of plan.now) pattern split }
{
    agreed_sum(plan, split) == Some(plan.cycle(pattern))
}

/// The sums of all sides, if the rings agree on each.
#[tactic(auto, unfolding(tsb_plan::specs::PlanOf::plan_of, tsb_types::specs::Lists::run_from))]
fn agreed_sum(plan: &Plan, split: Split) -> Option<u32>
    ensures { result ≡ (if rings_agree_on_sides (plan_of plan.now) split
        then Some (sum_by (side_sum (plan_of plan.now) split) (run_from 1 4)) else None) }
{
    let first = agreed_side_sum(plan, split, 1)?;
    let second = agreed_side_sum(plan, split, 2)?;
    let third = agreed_side_sum(plan, split, 3)?;
    let fourth = agreed_side_sum(plan, split, 4)?;
    Some(first + second + third + fourth)
}

fn pattern_is_coordinated(plan: &Plan, pattern: Pattern) -> bool
    ensures { result ≡ some_and (λ s. some_and (coordinated_agree (plan_of plan.now) (leads_and_lags (plan_of plan.now) pattern) s) (split_of (plan_of plan.now) pattern)) (sequence_of (plan_of plan.now) pattern) }
{
    match (plan.sequence_of(pattern), plan.split_of(pattern)) {
        (Some(sequence), Some(split)) => {
            coordinated_agree(plan, plan.leads_and_lags(pattern), sequence, split)
        }
        _ => false,
    }
}

/// Whether the split table has coordinated phases that agree by the sequence; `apart` says whether their splits may end
/// at different times.
fn coordinated_agree(plan: &Plan, apart: bool, sequence: Sequence, split: Split) -> bool
    ensures { result ≡ coordinated_agree (plan_of plan.now) apart sequence split }
{
    has_coordinated(plan, split) && all_coordinate(plan, apart, sequence, split)
}

fn has_coordinated(plan: &Plan, split: Split) -> bool
    ensures { result ≡ has_coordinated (plan_of plan.now) split }
{
    some_phase(plan, Sought::CoordinatedIn(split))
}

fn all_coordinate(plan: &Plan, apart: bool, sequence: Sequence, split: Split) -> bool
    ensures { result ≡ all_coordinate (plan_of plan.now) apart sequence split }
{
    each_phase(plan, OfPhase::CoordinatesIn(apart, sequence, split))
}

/// Whether the split table does not coordinate the phase, or it agrees with the others by the sequence.
pub(super) fn coordinates_in(
    plan: &Plan,
    apart: bool,
    sequence: Sequence,
    split: Split,
    phase: Phase,
) -> bool
    ensures { result ≡ (not (is_coordinated (plan_of plan.now) split phase)
        || coordinates (plan_of plan.now) apart sequence split phase) }
{
    !plan.is_coordinated(split, phase) || coordinates(plan, apart, sequence, split, phase)
}

fn coordinates(plan: &Plan, apart: bool, sequence: Sequence, split: Split, phase: Phase) -> bool
    ensures { result ≡ coordinates (plan_of plan.now) apart sequence split phase }
{
    may_coordinate(plan, split, phase)
        && agrees_with_all(plan, apart, sequence, split, phase)
        && has_one_in_each_ring(plan, split, phase)
}

fn may_coordinate(plan: &Plan, split: Split, phase: Phase) -> bool
    ensures { result ≡ may_coordinate (plan_of plan.now) split phase }
{
    plan.is_enabled(phase) && !plan.is_omitted(split, phase)
}

fn agrees_with_all(plan: &Plan, apart: bool, sequence: Sequence, split: Split, phase: Phase) -> bool
    ensures { result ≡ agrees_with_all (plan_of plan.now) apart sequence split phase }
{
    Phase::all().iter().all(|other| {
        !plan.is_coordinated(split, *other)
            || ends_with(plan, apart, sequence, split, phase, *other)
    })
}

/// Whether the two phases are of one side, the same or concurrent, and their splits end at one time unless they may end
/// apart.
fn ends_with(
    plan: &Plan,
    apart: bool,
    sequence: Sequence,
    split: Split,
    phase: Phase,
    other: Phase,
) -> bool
    ensures { result ≡ ends_with (plan_of plan.now) apart sequence split phase other }
{
    plan.side(phase) == plan.side(other)
        && (phase == other
            || plan.concurrency(phase).contains(other)
                && (apart
                    || split_end(plan, sequence, split, phase)
                        == split_end(plan, sequence, split, other)))
}

/// Whether each ring that has phases on the side of the phase has one coordinated phase.
#[tactic(auto, unfolding(tsb_plan::specs::PlanOf::plan_of, tsb_types::specs::Lists::run_from))]
fn has_one_in_each_ring(plan: &Plan, split: Split, phase: Phase) -> bool
    ensures { result ≡ has_one_in_each_ring (plan_of plan.now) split phase }
{
    let side = plan.side(phase);
    has_one_on(plan, split, Ring::of(1), side) && has_one_on(plan, split, Ring::of(2), side)
}

/// Whether the ring has no phases on the side, or it has one coordinated phase.
fn has_one_on(plan: &Plan, split: Split, ring: Ring, side: u32) -> bool
    ensures { result ≡ (not (has_phases (plan_of plan.now) ring side)
        || coordinated_count (plan_of plan.now) split ring == 1) }
{
    !has_phases(plan, ring, side) || coordinated_count(plan, split, ring) == 1
}

/// How many coordinated phases the ring has.
#[tactic(auto, unfolding(tsb_plan::specs::PlanOf::plan_of, crate::specs::PatternRules::coordinated_count))]
fn coordinated_count(plan: &Plan, split: Split, ring: Ring) -> u32
    ensures { result ≡ coordinated_count (plan_of plan.now) split ring }
{
    let phases = Phase::all();
    let mut count = 0;
    for phase in &phases {
        if is_coordinated_in(plan, split, ring, *phase) {
            count += 1;
        }
    }
    count
}

fn is_coordinated_in(plan: &Plan, split: Split, ring: Ring, phase: Phase) -> bool
    ensures { result ≡ is_coordinated_in (plan_of plan.now) split ring phase }
{
    plan.is_coordinated(split, phase) && plan.ring(phase) == u32::from(ring.number())
}
