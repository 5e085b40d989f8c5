//! How far behind its instant a phase is forced off, on the local counter: late, and in the permissive time. Times are
//! in tenths of a second.
#![tactic(auto, unfolding(tsb_plan::specs::PlanOf::plan_of))]

ghost use Rattle.std.specs.Prelude.{◌≡◌, ◌≤◌, ◌<◌, true, Some, IfSome};
ghost use Rattle.tsb_plan.specs.Parts.{is_used};
ghost use Rattle.tsb_plan.specs.PlanOf.{plan_of};
ghost use Rattle.tsb_objects.specs.Instants.{yields_to, late_end, yields_for};
ghost use Rattle.tsb_objects.specs.PatternTables.{AreInstants};

use crate::instants::{coordinated_in_ring, reference};
use crate::pattern_tables::instant_at;
use tsb_plan::Plan;
use tsb_types::{Pattern, Phase};

/// The coordinated phase up to whose instant a phase is forced off late.
fn yields_to(plan: &Plan, n: Pattern, p: Phase) -> Option<Phase>
    ensures { result ≡ yields_to (plan_of plan.now) n p }
{
    match coordinated_in_ring(plan, n, plan.ring(p)) {
        Some(c) => Some(c),
        None => reference(plan, n),
    }
}

/// The instant at which late force-off of a phase ends, in a pattern that is used, by the words of all instants; `None`
/// where it has no late force-off.
pub(crate) fn late_end(plan: &Plan, instants: &[u16; 256], n: Pattern, p: Phase) -> Option<u32>
    requires used { is_used (plan_of plan.now) n ≡ true }
    requires told { AreInstants (plan_of plan.now) instants.now }
    ensures value { result ≡ late_end (plan_of plan.now) (Some n) p }
    ensures range { IfSome result (λ i. i < 2550) }
{
    if !plan.forces_late() || plan.is_coordinated_now(Some(n), p) {
        return None;
    }
    match yields_to(plan, n, p) {
        None => None,
        Some(c) => instant_at(instants, n, c),
    }
}

/// For how long behind its instant a phase is forced off: the permissive time of a coordinated phase
/// (`patternPermissiveTime`), and 0 of any other.
pub(crate) fn yields_for(plan: &Plan, n: Pattern, p: Phase) -> u32
    ensures value { result ≡ yields_for (plan_of plan.now) n p }
    ensures range { result ≤ 2550 }
{
    if plan.is_coordinated_now(Some(n), p) {
        plan.permissive_time(n)
    } else {
        0
    }
}
