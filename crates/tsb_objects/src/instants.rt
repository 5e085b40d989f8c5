//! Force-off instants, on the local counter. Times are in tenths of a second.
#![tactic(auto, unfolding(tsb_plan::specs::PlanOf::plan_of))]

ghost use Rattle.std.specs.Prelude.{◌≡◌, ℕ, ◌≤◌, ◌<◌, ◌*◌, ◌+◌, ◌%◌, true, Some, None, IfSome};
ghost use Rattle.tsb_plan.specs.Parts.{cycle, is_used};
ghost use Rattle.tsb_plan.specs.Plan.{yellow_change, red_clear};
ghost use Rattle.tsb_plan.specs.PlanOf.{plan_of};
ghost use Rattle.tsb_objects.specs.Instants.{end_of, end_within, instant_from, is_coordinated_in, coordinated_in_ring, first_coordinated, reference, force_off};

use tsb_plan::Plan;
use tsb_rules::split_end;
use tsb_types::{Pattern, Phase};

/// The ring whose coordinated phase instants are counted from.
const REFERENCE_RING: u32 = 1;

/// The cycle of a pattern that is used.
pub(crate) fn cycle_of(plan: &Plan, n: Pattern) -> u32
    requires used { is_used (plan_of plan.now) n ≡ true }
    ensures value { result ≡ cycle (plan_of plan.now) n }
    ensures some { 1 ≤ result }
    ensures range { result ≤ 2550 }
{
    plan.cycle(n)
}

/// Yellow change and red clearance of a phase.
fn clearance(plan: &Plan, p: Phase) -> u32
    ensures value { result ≡ yellow_change (plan_of plan.now) p + red_clear (plan_of plan.now) p }
    ensures range { result ≤ 510 }
{
    plan.yellow_change(p) + plan.red_clear(p)
}

/// When the split of a phase ends.
pub(crate) fn end_of(plan: &Plan, n: Pattern, p: Phase) -> u32
    ensures { result ≡ end_of (plan_of plan.now) n p }
{
    match plan.split_of(n) {
        Some(split) => split_end(plan, plan.sequence_in_effect(Some(n)), split, p),
        None => 0,
    }
}

/// When within the cycle of a pattern the split of a phase ends.
fn end_in_cycle(plan: &Plan, n: Pattern, p: Phase) -> u32
    requires used { is_used (plan_of plan.now) n ≡ true }
    ensures value { result ≡ end_of (plan_of plan.now) n p % cycle (plan_of plan.now) n }
    ensures range { result < 2550 }
{
    end_of(plan, n, p) % cycle_of(plan, n)
}

/// The force-off instant of a phase, counted from the end of the split of a coordinated phase within the cycle.
fn instant_from(plan: &Plan, n: Pattern, from: u32, p: Phase) -> u32
    requires used { is_used (plan_of plan.now) n ≡ true }
    requires range { from < 2550 }
    ensures value { (c : ℕ) → from ≡ end_of (plan_of plan.now) n c % cycle (plan_of plan.now) n →
        result ≡ instant_from (plan_of plan.now) n c p }
    ensures range { result < 2550 }
{
    let cycle = cycle_of(plan, n);
    let end = end_in_cycle(plan, n, p);
    let before = (from + clearance(plan, p)) % cycle;
    (end + (cycle - before)) % cycle
}

/// Whether a phase is a coordinated one of a pattern, and of the ring of that number.
fn is_coordinated_in(plan: &Plan, n: Pattern, ring: u32, p: Phase) -> bool
    ensures { result ≡ is_coordinated_in (plan_of plan.now) n ring p }
{
    plan.is_coordinated_now(Some(n), p) && plan.ring(p) == ring
}

/// The first coordinated phase of the ring of that number.
pub(crate) fn coordinated_in_ring(plan: &Plan, n: Pattern, ring: u32) -> Option<Phase>
    ensures { result ≡ coordinated_in_ring (plan_of plan.now) n ring }
{
    Phase::all()
        .iter()
        .copied()
        .find(|p| is_coordinated_in(plan, n, ring, *p))
}

/// The first coordinated phase, of whichever ring.
fn first_coordinated(plan: &Plan, n: Pattern) -> Option<Phase>
    ensures { result ≡ first_coordinated (plan_of plan.now) n }
{
    Phase::all()
        .iter()
        .copied()
        .find(|p| plan.is_coordinated_now(Some(n), *p))
}

/// The coordinated phase that instants are counted from: that of ring 1, or else the first.
pub(crate) fn reference(plan: &Plan, n: Pattern) -> Option<Phase>
    ensures { result ≡ reference (plan_of plan.now) n }
{
    match coordinated_in_ring(plan, n, REFERENCE_RING) {
        Some(c) => Some(c),
        None => first_coordinated(plan, n),
    }
}

/// What the instants of a pattern that is used are counted from: the end of the split of a coordinated phase, within
/// the cycle. None where it has no such phase.
pub(crate) fn counted_from(plan: &Plan, n: Pattern) -> Option<u32>
    requires used { is_used (plan_of plan.now) n ≡ true }
    ensures value { result ≡ end_within (plan_of plan.now) n (reference (plan_of plan.now) n) }
    ensures range { IfSome result (λ i. i < 2550) }
{
    match reference(plan, n) {
        None => None,
        Some(c) => Some(end_in_cycle(plan, n, c)),
    }
}

/// The force-off instant of a phase in a pattern that is used, by what the pattern's are counted from.
#[tactic(auto, unfolding(crate::specs::Instants::force_off))]
pub(crate) fn instant(plan: &Plan, n: Pattern, from: &Option<u32>, p: Phase) -> Option<u32>
    requires used { is_used (plan_of plan.now) n ≡ true }
    requires from { from.now ≡ end_within (plan_of plan.now) n (reference (plan_of plan.now) n) }
    requires range { IfSome from.now (λ i. i < 2550) }
    ensures value { result ≡ force_off (plan_of plan.now) (Some n) p }
    ensures range { IfSome result (λ i. i < 2550) }
{
    if !plan.is_enabled(p) {
        return None;
    }
    match from {
        None => None,
        Some(from) => Some(instant_from(plan, n, *from, p)),
    }
}
