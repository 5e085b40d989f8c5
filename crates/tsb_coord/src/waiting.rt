//! How long the local counter takes to the next tick at which coordination may ask something else: a force-off instant,
//! or the end of a permissive time, or of the time for a walk within a green.
ghost use Rattle.std.specs.Prelude.{◌≡◌, ◌≤◌, ◌<◌, ◌+◌, ◌%◌, ◌⊎◌, ℕ, true, false, Some, IfSome};
ghost use Rattle.tsb_objects.specs.tsb_plan.Parts.{cycle, is_used};
ghost use Rattle.tsb_objects.specs.Checked.{checked_plan};
ghost use Rattle.tsb_coord.specs.Coordinated.{force_off, agree, permissive_end, recycle_end};
ghost use Rattle.tsb_coord.specs.Due.{IsMet, IsEnded};

use crate::counting::cycle_of;
use tsb_objects::{Checked, Pattern, Phase};

/// How many ticks the local counter takes to reach an instant, one at least; a cycle where there is none.
#[inline(always)]
fn ticks_to(cycle: u32, local: u32, instant: &Option<u32>) -> u32
    requires local { local < cycle }
    requires small { cycle ≤ 2550 }
    requires below { IfSome instant.now (λ i. i < cycle) }
    ensures from_one { 1 ≤ result }
    ensures within { result ≤ cycle }
    ensures quiet { (k : ℕ) → k < result → 1 < result → agree (Some ((local + k) % cycle)) instant.now ≡ false }
    ensures met { (result ≡ cycle) ⊎ IsMet cycle local instant.now result }
{
    match instant {
        None => cycle,
        Some(instant) => {
            if local == *instant {
                1
            } else if local < *instant {
                *instant - local
            } else {
                *instant + cycle - local
            }
        }
    }
}

/// How many ticks the local counter takes to reach the end of a permissive time, or of the time for a walk, again, one
/// at least; a cycle where there is none, or it is there now.
#[inline(always)]
fn ticks_to_end(cycle: u32, local: u32, end: &Option<u32>) -> u32
    requires local { local < cycle }
    requires small { cycle ≤ 2550 }
    requires below { IfSome end.now (λ i. i < cycle) }
    ensures from_one { 1 ≤ result }
    ensures within { result ≤ cycle }
    ensures quiet { (k : ℕ) → 1 ≤ k → k < result → agree (Some ((local + k) % cycle)) end.now ≡ false }
    ensures met { (result ≡ cycle) ⊎ IsEnded cycle local end.now result }
{
    match end {
        None => cycle,
        Some(end) => {
            if local < *end {
                *end - local
            } else {
                *end + cycle - local
            }
        }
    }
}

/// How many ticks the local counter takes to reach the next force-off instant of a phase, one at least.
fn ticks_to_instant(plan: &Checked, n: Pattern, local: u32) -> u32
    requires used { is_used (checked_plan plan.now) n ≡ true }
    requires local { local < cycle (checked_plan plan.now) n }
    ensures from_one { 1 ≤ result }
    ensures within { result ≤ 2550 }
    ensures quiet { (p k : ℕ) → 1 ≤ p → p ≤ 16 → k < result → 1 < result →
        agree (Some ((local + k) % cycle (checked_plan plan.now) n)) (force_off (checked_plan plan.now) (Some n) p) ≡ false }
    ensures met { (result ≡ cycle (checked_plan plan.now) n)
        ⊎ ((p : ℕ) × IsMet (cycle (checked_plan plan.now) n) local (force_off (checked_plan plan.now) (Some n) p) result) }
{
    let cycle = cycle_of(plan, n);
    let mut ticks = cycle;
    for number in 1..17u8 {
        let at = plan.force_off(n, Phase::of(number));
        ticks = ticks.min(ticks_to(cycle, local, &at));
    }
    ticks
}

/// How many ticks the local counter takes to reach the end of a phase's permissive time, or of its time for a walk, one
/// at least; a cycle where it has neither, as all but coordinated phases.
#[inline(always)]
fn ticks_to_ends_of(plan: &Checked, n: Pattern, local: u32, p: Phase) -> u32
    requires used { is_used (checked_plan plan.now) n ≡ true }
    requires local { local < cycle (checked_plan plan.now) n }
    ensures from_one { 1 ≤ result }
    ensures within { result ≤ cycle (checked_plan plan.now) n }
    ensures permitted { (k : ℕ) → 1 ≤ k → k < result →
        agree (Some ((local + k) % cycle (checked_plan plan.now) n)) (permissive_end (checked_plan plan.now) (Some n) p) ≡ false }
    ensures recycled { (k : ℕ) → 1 ≤ k → k < result →
        agree (Some ((local + k) % cycle (checked_plan plan.now) n)) (recycle_end (checked_plan plan.now) (Some n) p) ≡ false }
    ensures met { (result ≡ cycle (checked_plan plan.now) n)
        ⊎ (IsEnded (cycle (checked_plan plan.now) n) local (permissive_end (checked_plan plan.now) (Some n) p) result
        ⊎ IsEnded (cycle (checked_plan plan.now) n) local (recycle_end (checked_plan plan.now) (Some n) p) result) }
{
    let cycle = cycle_of(plan, n);
    if !plan.coordinated(Some(n)).contains(p) {
        return cycle;
    }
    let permitted = ticks_to_end(cycle, local, &plan.permissive_end(n, p));
    let recycled = ticks_to_end(cycle, local, &plan.recycle_end(n, p));
    permitted.min(recycled)
}

/// How many ticks the local counter takes to reach the next end of a permissive time, or of the time for a walk of a
/// phase with pedestrian recycle, one at least; a cycle where there is none.
fn ticks_to_ends(plan: &Checked, n: Pattern, local: u32) -> u32
    requires used { is_used (checked_plan plan.now) n ≡ true }
    requires local { local < cycle (checked_plan plan.now) n }
    ensures from_one { 1 ≤ result }
    ensures within { result ≤ 2550 }
    ensures permitted { (p k : ℕ) → 1 ≤ p → p ≤ 16 → 1 ≤ k → k < result →
        agree (Some ((local + k) % cycle (checked_plan plan.now) n)) (permissive_end (checked_plan plan.now) (Some n) p) ≡ false }
    ensures recycled { (p k : ℕ) → 1 ≤ p → p ≤ 16 → 1 ≤ k → k < result →
        agree (Some ((local + k) % cycle (checked_plan plan.now) n)) (recycle_end (checked_plan plan.now) (Some n) p) ≡ false }
    ensures met { (result ≡ cycle (checked_plan plan.now) n)
        ⊎ (((p : ℕ) × IsEnded (cycle (checked_plan plan.now) n) local (permissive_end (checked_plan plan.now) (Some n) p) result)
        ⊎ ((p : ℕ) × IsEnded (cycle (checked_plan plan.now) n) local (recycle_end (checked_plan plan.now) (Some n) p) result)) }
{
    let mut ticks = cycle_of(plan, n);
    for number in 1..17u8 {
        ticks = ticks.min(ticks_to_ends_of(plan, n, local, Phase::of(number)));
    }
    ticks
}

/// How many ticks it takes to the next instant, or end of a permissive time or of the time for a walk, one at least.
pub(crate) fn ticks_to_next(plan: &Checked, n: Pattern, local: u32) -> u32
    requires used { is_used (checked_plan plan.now) n ≡ true }
    requires local { local < cycle (checked_plan plan.now) n }
    ensures from_one { 1 ≤ result }
    ensures within { result ≤ 2550 }
    ensures quiet { (p k : ℕ) → 1 ≤ p → p ≤ 16 → k < result → 1 < result →
        agree (Some ((local + k) % cycle (checked_plan plan.now) n)) (force_off (checked_plan plan.now) (Some n) p) ≡ false }
    ensures permitted { (p k : ℕ) → 1 ≤ p → p ≤ 16 → 1 ≤ k → k < result →
        agree (Some ((local + k) % cycle (checked_plan plan.now) n)) (permissive_end (checked_plan plan.now) (Some n) p) ≡ false }
    ensures recycled { (p k : ℕ) → 1 ≤ p → p ≤ 16 → 1 ≤ k → k < result →
        agree (Some ((local + k) % cycle (checked_plan plan.now) n)) (recycle_end (checked_plan plan.now) (Some n) p) ≡ false }
    ensures met { (result ≡ cycle (checked_plan plan.now) n)
        ⊎ (((p : ℕ) × IsMet (cycle (checked_plan plan.now) n) local (force_off (checked_plan plan.now) (Some n) p) result)
        ⊎ (((p : ℕ) × IsEnded (cycle (checked_plan plan.now) n) local (permissive_end (checked_plan plan.now) (Some n) p) result)
        ⊎ ((p : ℕ) × IsEnded (cycle (checked_plan plan.now) n) local (recycle_end (checked_plan plan.now) (Some n) p) result))) }
{
    ticks_to_instant(plan, n, local).min(ticks_to_ends(plan, n, local))
}
