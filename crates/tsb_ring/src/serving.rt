//! The phases that the rings serve, and those of a preempt's target.
ghost use Rattle.std.specs.Prelude.{◌≡◌, ℕ, ◌&&◌, not, true};
ghost use Rattle.tsb_objects.specs.Checked.{checked_plan};
ghost use Rattle.tsb_types.specs.Flow.{interval_of};
ghost use Rattle.tsb_types.specs.Intervals.{is_green, in_service};
ghost use Rattle.tsb_types.specs.Sets.{has};
ghost use Rattle.tsb_ring.specs.Layer.{may_leave, IsBound, IsUnready};
ghost use Rattle.tsb_ring.specs.Promises.{given_of};
ghost use Rattle.tsb_ring.specs.Rings.{in_ring, ring_numbered, serving};
ghost use Rattle.tsb_ring.specs.Wants.{is_targeted};

use crate::conditions::RingConditions;
use tsb_objects::{Checked, Phase, PhaseSet, Ring};

/// The phases of a ring.
#[inline(always)]
pub(crate) fn of_ring(plan: &Checked, r: Ring) -> PhaseSet
    ensures { (p : ℕ) → has result p ≡ in_ring (checked_plan plan.now) (ring_numbered r) p }
{
    r.known();
    plan.ring(r)
}

/// The phases that were in service.
#[inline(always)]
pub(crate) fn in_service(conditions: &RingConditions) -> PhaseSet
    ensures { (p : ℕ) → has result p ≡ in_service (interval_of conditions.now.intervals p) }
{
    let intervals = &conditions.intervals;
    intervals
        .green
        .union(intervals.yellow)
        .union(intervals.red_clear)
}

/// The ring's phase that was in service.
#[inline(always)]
pub(crate) fn serving(plan: &Checked, conditions: &RingConditions, r: Ring) -> Option<Phase>
    ensures { result ≡ serving (checked_plan plan.now) (given_of (checked_plan plan.now) conditions.now) (ring_numbered r) }
{
    of_ring(plan, r)
        .intersection(in_service(conditions))
        .first()
}

/// The phases of a ring that were in service.
#[inline(always)]
fn served(plan: &Checked, conditions: &RingConditions, r: Ring) -> PhaseSet
    ensures { (p : ℕ) → has result p ≡ (in_ring (checked_plan plan.now) (ring_numbered r) p && in_service (interval_of conditions.now.intervals p)) }
{
    of_ring(plan, r).intersection(in_service(conditions))
}

/// A preempt's target.
#[inline(always)]
pub(crate) fn target(conditions: &RingConditions) -> Option<PhaseSet>
    ensures { result ≡ conditions.now.orders.target }
{
    conditions.orders.target
}

/// The phases of a preempt's target that are in use.
#[inline(always)]
pub(crate) fn targeted(plan: &Checked, target: PhaseSet) -> PhaseSet
    ensures { (p : ℕ) → has result p ≡ is_targeted (checked_plan plan.now) (has target) p }
{
    plan.enabled().intersection(target)
}

/// The phases that may be left once they are in service: ready, and not among those that a preempt wants served.
#[inline(always)]
fn leaving(plan: &Checked, conditions: &RingConditions) -> PhaseSet
    ensures { (p : ℕ) → has result p ≡ may_leave (checked_plan plan.now) (given_of (checked_plan plan.now) conditions.now) p }
{
    let ready = conditions.timing.ready;
    match conditions.orders.target {
        Some(target) => ready.difference(targeted(plan, target)),
        None => ready,
    }
}

/// The phases that were Green and are not ready.
#[inline(always)]
fn unready(conditions: &RingConditions) -> PhaseSet
    ensures { (p : ℕ) → has result p ≡ (is_green (interval_of conditions.now.intervals p) && not (has conditions.now.timing.ready p)) }
{
    conditions
        .intervals
        .green
        .difference(conditions.timing.ready)
}

/// Whether a ring is bound to what it serves: it serves a phase, and none that it serves may be left.
#[inline(always)]
pub(crate) fn is_bound(plan: &Checked, conditions: &RingConditions, r: Ring) -> bool
    ensures { result ≡ true → IsBound (checked_plan plan.now) (given_of (checked_plan plan.now) conditions.now) (ring_numbered r) }
{
    let left = served(plan, conditions, r).intersection(leaving(plan, conditions));
    serving(plan, conditions, r).is_some() && left.is_empty()
}

/// Whether a ring waits with what it serves: it serves a phase, and all that it serves are Green and not ready.
#[inline(always)]
pub(crate) fn is_unready(plan: &Checked, conditions: &RingConditions, r: Ring) -> bool
    ensures { result ≡ true → IsUnready (checked_plan plan.now) (given_of (checked_plan plan.now) conditions.now) (ring_numbered r) }
{
    let others = served(plan, conditions, r).difference(unready(conditions));
    serving(plan, conditions, r).is_some() && others.is_empty()
}
