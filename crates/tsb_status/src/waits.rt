//! What a phase waits for.
ghost use Rattle.std.specs.Prelude.{◌≡◌, ◌&&◌, not};
ghost use Rattle.tsb_step.specs.tsb_plan.Plan.{is_concurrent};
ghost use Rattle.tsb_step.specs.tsb_types.Lists.{or_else};
ghost use Rattle.tsb_step.specs.Waits.{not_concurrent};
ghost use Rattle.tsb_objects.specs.Checked.{checked_plan};
ghost use Rattle.tsb_status.specs.WaitBy.{across_by, beside_by, clearing_by, committed_by, conflict_by, free_by, green_by, in_the_way_by, keeper_by, lacking_by, not_green_by, not_over_by, side_by, unwanted_by, wait_by, number_by, next_by};

use crate::found::{Circumstances, Next, RingFound, Served, Waiting};
use tsb_objects::{Checked, Phase, Preempt};
use tsb_step::Wait;

/// The number of a phase in service, if there is one.
fn number(served: &Option<Served>) -> Option<Phase>
    ensures { result ≡ number_by served.now }
{
    match served {
        None => None,
        Some(q) => Some(q.phase),
    }
}

/// The number of a phase that starts next, if there is one.
fn next(next: &Option<Next>) -> Option<Phase>
    ensures { result ≡ next_by next.now }
{
    match next {
        None => None,
        Some(c) => Some(c.phase),
    }
}

/// The first of two that there is.
fn first(one: Option<Phase>, two: Option<Phase>) -> Option<Phase>
    ensures { result ≡ or_else one two }
{
    match one {
        None => two,
        Some(p) => Some(p),
    }
}

/// A phase in service that is not over in the next tick.
fn not_over(served: &Option<Served>) -> Option<Served>
    ensures { result ≡ not_over_by served.now }
{
    match served {
        None => None,
        Some(q) => if q.is_over { None } else { Some(*q) },
    }
}

/// A phase in service that is not Green.
fn not_green(served: &Option<Served>) -> Option<Served>
    ensures { result ≡ not_green_by served.now }
{
    match served {
        None => None,
        Some(q) => if q.is_green { None } else { Some(*q) },
    }
}

/// A Green phase that lacked something.
fn lacking(served: &Option<Served>) -> Option<Phase>
    ensures { result ≡ lacking_by served.now }
{
    match served {
        None => None,
        Some(q) => if q.is_green && q.lack.is_some() {
            Some(q.phase)
        } else {
            None
        },
    }
}

/// A phase, if there is one, that is not concurrent with `p`.
fn apart(plan: &Checked, p: Phase, other: Option<Phase>) -> Option<Phase>
    ensures { result ≡ not_concurrent (checked_plan plan.now) p other }
{
    match other {
        None => None,
        Some(q) => if plan.plan().concurrency(p).contains(q) {
            None
        } else {
            Some(q)
        },
    }
}

/// Whether outside a crossing phase `q` may stay in service beside `p`.
fn goes_with(plan: &Checked, p: Phase, crosses: bool, q: Phase) -> bool
    ensures { result ≡ (not crosses && is_concurrent (checked_plan plan.now) p q) }
{
    !crosses && plan.plan().concurrency(p).contains(q)
}

/// The phase of the other ring that does not make way for `p`.
fn in_the_way(plan: &Checked, p: Phase, crosses: bool, served: &Option<Served>) -> Option<Served>
    ensures { result ≡ in_the_way_by (checked_plan plan.now) p crosses served.now }
{
    let found = not_over(served);
    match found {
        None => None,
        Some(q) => if goes_with(plan, p, crosses, q.phase) {
            None
        } else {
            Some(q)
        },
    }
}

/// The phase of the other ring that starts with it in a crossing, and whose red revert has not passed.
fn beside(crosses: bool, next: &Option<Next>) -> Option<Next>
    ensures { result ≡ beside_by crosses next.now }
{
    match next {
        None => None,
        Some(c) => if crosses && !c.is_reverted {
            Some(*c)
        } else {
            None
        },
    }
}

/// What a phase waits for whose ring has this phase in clearance.
fn clearing(q: &Served) -> Wait
    ensures { result ≡ clearing_by q.now }
{
    match q.trail {
        Some((o, left)) => Wait::Trails(q.phase, o, left),
        None => Wait::Clears(q.phase, q.left),
    }
}

/// What a phase waits for that starts once this phase of the other ring makes way.
fn across(q: &Served) -> Wait
    ensures { result ≡ across_by q.now }
{
    match q.trail {
        Some((o, left)) => Wait::Trails(q.phase, o, left),
        None => Wait::Across(q.phase, q.left),
    }
}

/// What a phase waits for that its ring is committed to.
fn committed_wait(
    plan: &Checked,
    p: &Waiting,
    own: &RingFound,
    other: &RingFound,
    crosses: bool,
) -> Wait
    ensures { result ≡ committed_by (checked_plan plan.now) p.now own.now other.now crosses }
{
    if let Some(q) = not_over(&own.served) {
        return clearing(&q);
    }
    if !p.is_reverted {
        return Wait::RedRevert(p.red_revert);
    }
    if let Some(q) = in_the_way(plan, p.phase, crosses, &other.served) {
        return across(&q);
    }
    match beside(crosses, &other.next) {
        None => Wait::Due,
        Some(c) => Wait::Beside(c.phase, c.red_revert),
    }
}

/// The preempt in service, if its stage does not have the phase.
fn unwanted(p: Phase, around: &Circumstances) -> Option<Preempt>
    ensures { result ≡ unwanted_by p around.now }
{
    match &around.service {
        None => None,
        Some(x) => if x.phases.contains(p) {
            None
        } else {
            Some(x.preempt)
        },
    }
}

/// The phase that keeps the barrier from being crossed.
fn keeper(own: &RingFound, other: &RingFound) -> Option<Phase>
    ensures { result ≡ keeper_by own.now other.now }
{
    first(
        next(&other.next),
        first(lacking(&own.served), lacking(&other.served)),
    )
}

/// A Green phase of its ring with what it lacked.
fn green(served: &Option<Served>) -> Option<Wait>
    ensures { result ≡ green_by served.now }
{
    let Some(q) = served else {
        return None;
    };
    if !q.is_green {
        return None;
    }
    match q.lack {
        None => None,
        Some(lack) => Some(Wait::Green(q.phase, lack)),
    }
}

/// The phase that the other ring serves, or starts next, and that is not concurrent with `p`.
fn conflict(plan: &Checked, p: Phase, other: &RingFound) -> Option<Phase>
    ensures { result ≡ conflict_by (checked_plan plan.now) p other.now }
{
    first(
        apart(plan, p, number(&other.served)),
        apart(plan, p, next(&other.next)),
    )
}

/// What a phase waits for by its side, its ring's green and the other ring.
fn side_wait(
    plan: &Checked,
    p: Phase,
    own: &RingFound,
    other: &RingFound,
    around: &Circumstances,
) -> Wait
    ensures { result ≡ side_by (checked_plan plan.now) p own.now other.now around.now }
{
    if plan.plan().side(p) != u32::from(around.side.number()) {
        return Wait::Barrier(keeper(own, other));
    }
    if let Some(wait) = green(&own.served) {
        return wait;
    }
    match conflict(plan, p, other) {
        None => Wait::Turn,
        Some(q) => Wait::Conflict(q),
    }
}

/// What a phase waits for that its ring is not committed to.
fn free_wait(
    plan: &Checked,
    p: &Waiting,
    own: &RingFound,
    other: &RingFound,
    around: &Circumstances,
) -> Wait
    ensures { result ≡ free_by (checked_plan plan.now) p.now own.now other.now around.now }
{
    if p.is_omitted && around.service.is_none() {
        return Wait::Omitted;
    }
    if let Some(n) = unwanted(p.phase, around) {
        return Wait::Preempted(n);
    }
    if let Some(c) = next(&own.next) {
        return Wait::Next(c);
    }
    if around.crosses {
        let keeps = first(
            number(&not_over(&own.served)),
            number(&not_over(&other.served)),
        );
        return Wait::Crossing(keeps);
    }
    if let Some(q) = not_green(&own.served) {
        return clearing(&q);
    }
    if !p.is_reverted {
        return Wait::RedRevert(p.red_revert);
    }
    side_wait(plan, p.phase, own, other, around)
}

/// What a phase waits for, of what was found of it, of its own ring and of the other: the first of the list that applies.
/// It is asked of a phase that is called and not Green.
pub fn wait(
    plan: &Checked,
    p: &Waiting,
    own: &RingFound,
    other: &RingFound,
    around: &Circumstances,
) -> Wait
    ensures { result ≡ wait_by (checked_plan plan.now) p.now own.now other.now around.now }
{
    if around.tripped {
        return Wait::Flash;
    }
    if next(&own.next) == Some(p.phase) {
        return committed_wait(plan, p, own, other, around.crosses);
    }
    free_wait(plan, p, own, other, around)
}
