//! Sums of splits, and when in the cycle a split ends. Times are in tenths of a second.
#![tactic(auto, unfolding(tsb_plan::specs::PlanOf::plan_of))]

ghost use Rattle.std.specs.Prelude.{◌≡◌, ℕ, ◌+◌, ◌*◌, ◌≤◌, ◌==◌, ◌&&◌, ◌||◌, not, nat_le, true, if◌then◌else◌, sum_by, length, Some, None, IfSome};
ghost use Rattle.tsb_types.specs.Lists.{run_from, up_to};
ghost use Rattle.tsb_rules.specs.PatternRules.{is_on, has_phases, split_on, split_sum, side_sum, split_before, split_end, rings_agree};
ghost use Rattle.tsb_plan.specs.PlanOf.{plan_of};

use crate::rules::asked::{Sought, some_phase};
use tsb_plan::Plan;
use tsb_types::{Phase, Ring, Sequence, Split};

/// Whether this is an enabled phase of the ring on the side.
pub(super) fn is_on(plan: &Plan, ring: Ring, side: u32, phase: Phase) -> bool
    ensures { result ≡ is_on (plan_of plan.now) ring side phase }
{
    plan.is_enabled(phase)
        && plan.ring(phase) == u32::from(ring.number())
        && plan.side(phase) == side
}

/// Whether the ring has an enabled phase on the side.
pub(super) fn has_phases(plan: &Plan, ring: Ring, side: u32) -> bool
    ensures { result ≡ has_phases (plan_of plan.now) ring side }
{
    some_phase(plan, Sought::OnSide(ring, side))
}

/// What the phase adds to the ring's splits on the side.
fn split_on(plan: &Plan, split: Split, ring: Ring, side: u32, phase: Phase) -> u32
    ensures value { result ≡ split_on (plan_of plan.now) split ring side phase }
    ensures range { result ≤ 2550 }
{
    if is_on(plan, ring, side, phase) {
        plan.split_time(split, phase)
    } else {
        0
    }
}

/// The sum of the ring's splits on the side. Omitted phases count.
#[tactic(auto, unfolding(tsb_plan::specs::PlanOf::plan_of, crate::specs::PatternRules::split_sum))]
fn split_sum(plan: &Plan, split: Split, ring: Ring, side: u32) -> u32
    ensures sum { result ≡ split_sum (plan_of plan.now) split ring side }
    ensures range { result ≤ 40800 }
{
    let phases = Phase::all();
    let mut sum = 0;
    for phase in &phases {
        sum += split_on(plan, split, ring, side, *phase);
    }
    sum
}

/// The sum of the side's splits, that of a ring that has phases there.
#[tactic(auto, unfolding(tsb_plan::specs::PlanOf::plan_of, crate::specs::PatternRules::side_sum))]
fn side_sum(plan: &Plan, split: Split, side: u32) -> u32
    ensures sum { result ≡ side_sum (plan_of plan.now) split side }
    ensures range { result ≤ 40800 }
{
    if has_phases(plan, Ring::of(1), side) {
        split_sum(plan, split, Ring::of(1), side)
    } else {
        split_sum(plan, split, Ring::of(2), side)
    }
}

/// The sums of sides 1 to `last`.
pub(super) fn sides_sum(plan: &Plan, split: Split, last: u32) -> u32
    requires { last ≤ 4 }
    ensures sum { result ≡ sum_by (side_sum (plan_of plan.now) split) (run_from 1 last) }
    ensures range { result ≤ 163200 }
{
    let mut sum = 0;
    for side in 1..last + 1 {
        sum += side_sum(plan, split, side);
    }
    sum
}

/// The sum of the side's splits, if the rings that have phases on the side have one sum there.
#[tactic(auto, unfolding(tsb_plan::specs::PlanOf::plan_of, crate::specs::PatternRules::side_sum))]
pub(super) fn agreed_side_sum(plan: &Plan, split: Split, side: u32) -> Option<u32>
    ensures sum { result ≡ (if rings_agree (plan_of plan.now) split side then Some (side_sum (plan_of plan.now) split side) else None) }
    ensures range { IfSome result (λ n. n ≤ 40800) }
{
    let (first, second) = (Ring::of(1), Ring::of(2));
    if !has_phases(plan, first, side) {
        return Some(split_sum(plan, split, second, side));
    }
    let sum = split_sum(plan, split, first, side);
    if has_phases(plan, second, side) && split_sum(plan, split, second, side) != sum {
        return None;
    }
    Some(sum)
}

/// What a listed phase adds to the splits on the side.
fn split_before(plan: &Plan, split: Split, side: u32, number: u16) -> u32
    ensures value { result ≡ split_before (plan_of plan.now) split side number }
    ensures range { result ≤ 2550 }
{
    match Phase::new(u32::from(number)) {
        Some(phase) => split_of_listed(plan, split, side, phase),
        None => 0,
    }
}

/// The same of a phase.
fn split_of_listed(plan: &Plan, split: Split, side: u32, phase: Phase) -> u32
    ensures value { result ≡ split_before (plan_of plan.now) split side phase }
    ensures range { result ≤ 2550 }
{
    if plan.is_enabled(phase) && plan.side(phase) == side {
        plan.split_time(split, phase)
    } else {
        0
    }
}

/// The splits on the side of the phases that are listed, from the first to this one.
fn splits_up_to(plan: &Plan, split: Split, side: u32, phase: Phase, places: &[u16]) -> u32
    requires { length places.now ≤ 16 }
    ensures sum { result ≡ sum_by (split_before (plan_of plan.now) split side) (up_to phase places.now) }
    ensures range { result ≤ 40800 }
{
    let mut sum = 0;
    for number in places {
        sum += split_before(plan, split, side, *number);
        if *number == u16::from(phase.number()) {
            return sum;
        }
    }
    sum
}

/// When in the cycle the split of a phase ends, in tenths of a second from the start of side 1 (profile):
/// the splits of its ring on its side, from the sequence's first phase to the phase itself, after the sums
/// of all lower sides. Omitted phases count.
#[tactic(auto, unfolding(tsb_plan::specs::PlanOf::plan_of, crate::specs::PatternRules::split_end))]
pub fn split_end(plan: &Plan, sequence: Sequence, split: Split, phase: Phase) -> u32
    ensures { result ≡ split_end (plan_of plan.now) sequence split phase }
{
    let side = plan.side(phase);
    let listed = match Ring::new(plan.ring(phase)) {
        Some(ring) => splits_up_to(plan, split, side, phase, plan.sequence(sequence, ring)),
        None => 0,
    };
    listed + sides_sum(plan, split, side.saturating_sub(1))
}
