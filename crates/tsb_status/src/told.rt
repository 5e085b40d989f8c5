//! What waits are found from, of phases as they are given.
ghost use Rattle.std.specs.Prelude.{◌≡◌, true, option_map, IfSome};
ghost use Rattle.tsb_step.specs.tsb_types.Intervals.{is_green};
ghost use Rattle.tsb_step.specs.tsb_types.Sets.{is_phase};
ghost use Rattle.tsb_objects.specs.Checked.{checked_plan};
ghost use Rattle.tsb_step.specs.tsb_plan.Plan.{red_revert};
ghost use Rattle.tsb_step.specs.Waits.{left as wait_left};
ghost use Rattle.tsb_status.specs.Told.{next_as, served_as, waiting_as};

use crate::found::{Next, Served, Waiting};
use crate::rings::PhaseFound;
use crate::times::{is_over, is_reverted, lack, left, until_over};
use tsb_objects::{Checked, Interval, Phase};
use tsb_phase::PhaseTimes;

/// A phase in service, as waits need it.
fn served_phase(plan: &Checked, q: &PhaseFound) -> Served
    ensures value { result ≡ served_as (checked_plan plan.now) q.now }
    ensures phase { is_phase result.phase ≡ true }
{
    q.phase.known();
    Served {
        phase: q.phase,
        is_green: matches!(q.times.interval, Interval::Green),
        is_over: is_over(plan, q.phase, &q.times) && q.holder.is_none(),
        left: until_over(plan, q.phase, &q.times),
        trail: if is_over(plan, q.phase, &q.times) {
            q.holder
        } else {
            None
        },
        lack: lack(plan, q.phase, &q.found, &q.times),
    }
}

/// The phase in service of a ring, if there is one, as waits need it.
pub fn served(plan: &Checked, q: &Option<PhaseFound>) -> Option<Served>
    ensures value { result ≡ option_map (served_as (checked_plan plan.now)) q.now }
    ensures phase { IfSome result (λ x. is_phase x.phase ≡ true) }
{
    match q {
        None => None,
        Some(q) => Some(served_phase(plan, q)),
    }
}

/// What is left of the red revert of a phase.
fn red_revert_left(plan: &Checked, p: Phase, x: &PhaseTimes) -> u32
    ensures { result ≡ wait_left (red_revert (checked_plan plan.now) p) x.now.red_revert }
{
    left(plan.plan().red_revert(p), x.red_revert)
}

/// A phase that a ring starts next, as waits need it.
pub fn next(plan: &Checked, p: Phase, x: &PhaseTimes) -> Next
    ensures value { result ≡ next_as (checked_plan plan.now) p x.now }
    ensures phase { is_phase p ≡ true }
{
    p.known();
    Next {
        phase: p,
        is_reverted: is_reverted(plan, p, x),
        red_revert: red_revert_left(plan, p, x),
    }
}

/// A phase that waits; `is_omitted` says whether the pattern that runs omits it.
pub fn waiting(plan: &Checked, phase: Phase, is_omitted: bool, x: &PhaseTimes) -> Waiting
    ensures value { result ≡ waiting_as (checked_plan plan.now) phase is_omitted x.now }
    ensures phase { is_phase phase ≡ true }
{
    phase.known();
    Waiting {
        phase,
        is_omitted,
        is_reverted: is_reverted(plan, phase, x),
        red_revert: red_revert_left(plan, phase, x),
    }
}
