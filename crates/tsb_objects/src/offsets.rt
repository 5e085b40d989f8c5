//! What the offset of a pattern is counted to (`coordReference`, profile), and the offset at which its local counter is 0.
//! Times are in tenths of a second.
#![tactic(auto, unfolding(tsb_plan::specs::PlanOf::plan_of))]

ghost use Rattle.std.specs.Prelude.{◌≡◌, ◌<◌, true};
ghost use Rattle.tsb_plan.specs.Parts.{is_used, offset_reference, split_of};
ghost use Rattle.tsb_plan.specs.PlanOf.{plan_of};
ghost use Rattle.tsb_objects.specs.Instants.{split_in, time_from, moment_of, moment_in_ring, first_moment, last_moment, counted_to, offset_in_effect};

use crate::instants::{coordinated_in_ring, counted_from, cycle_of, end_of};
use tsb_plan::{OffsetReference, Plan};
use tsb_types::{Pattern, Phase};

/// A moment of a phase by its split.
#[derive(Clone, Copy, PartialEq, Eq)]
pub(crate) enum SplitMoment {
    /// Its green begins, with its split.
    GreenBegin,
    /// Its yellow begins.
    YellowBegin,
    /// Its red begins, and with it its red clearance.
    RedBegin,
}

/// The split of a phase; 0 without a split table.
fn split_in(plan: &Plan, n: Pattern, p: Phase) -> u32
    ensures { result ≡ split_in (plan_of plan.now) (split_of (plan_of plan.now) n) p }
{
    match plan.split_of(n) {
        Some(split) => plan.split_time(split, p),
        None => 0,
    }
}

/// How long before the end of its split a phase comes to the moment.
fn time_from(plan: &Plan, n: Pattern, moment: SplitMoment, p: Phase) -> u32
    ensures { result ≡ time_from moment (plan_of plan.now) n p }
{
    match moment {
        SplitMoment::GreenBegin => split_in(plan, n, p),
        SplitMoment::YellowBegin => plan.yellow_change(p) + plan.red_clear(p),
        SplitMoment::RedBegin => plan.red_clear(p),
    }
}

/// When a phase comes to the moment, from the begin of side 1's first split.
fn moment_of(plan: &Plan, n: Pattern, moment: SplitMoment, p: Phase) -> u32
    ensures { result ≡ moment_of moment (plan_of plan.now) n p }
{
    end_of(plan, n, p).saturating_sub(time_from(plan, n, moment, p))
}

/// When the coordinated phase of the ring of that number comes to the moment; none where the ring has no such phase.
fn moment_in_ring(plan: &Plan, n: Pattern, moment: SplitMoment, ring: u32) -> Option<u32>
    ensures { result ≡ moment_in_ring moment (plan_of plan.now) n ring }
{
    match coordinated_in_ring(plan, n, ring) {
        Some(c) => Some(moment_of(plan, n, moment, c)),
        None => None,
    }
}

/// When the first coordinated phase comes to the moment.
fn first_moment(plan: &Plan, n: Pattern, moment: SplitMoment) -> Option<u32>
    ensures { result ≡ first_moment moment (plan_of plan.now) n }
{
    match moment_in_ring(plan, n, moment, 1) {
        None => moment_in_ring(plan, n, moment, 2),
        Some(one) => match moment_in_ring(plan, n, moment, 2) {
            None => Some(one),
            Some(two) => Some(one.min(two)),
        },
    }
}

/// When the last coordinated phase comes to the moment.
fn last_moment(plan: &Plan, n: Pattern, moment: SplitMoment) -> Option<u32>
    ensures { result ≡ last_moment moment (plan_of plan.now) n }
{
    match moment_in_ring(plan, n, moment, 1) {
        None => moment_in_ring(plan, n, moment, 2),
        Some(one) => match moment_in_ring(plan, n, moment, 2) {
            None => Some(one),
            Some(two) => Some(one.max(two)),
        },
    }
}

/// What the offset of a pattern is counted to, from the begin of side 1's first split; none where it is local 0.
fn counted_to(plan: &Plan, n: Pattern) -> Option<u32>
    ensures { result ≡ counted_to (offset_reference (plan_of plan.now)) (plan_of plan.now) n }
{
    match plan.offset_reference() {
        OffsetReference::SplitEnd => None,
        OffsetReference::FirstGreen => first_moment(plan, n, SplitMoment::GreenBegin),
        OffsetReference::LastGreen => last_moment(plan, n, SplitMoment::GreenBegin),
        OffsetReference::FirstYellow => first_moment(plan, n, SplitMoment::YellowBegin),
        OffsetReference::LastYellow => last_moment(plan, n, SplitMoment::YellowBegin),
        OffsetReference::FirstRed => first_moment(plan, n, SplitMoment::RedBegin),
    }
}

/// How long after tick 0 the local counter of a pattern that is used is first 0: the offset of the plan, counted to what
/// `coordReference` says.
pub(crate) fn offset_in_effect(plan: &Plan, n: Pattern) -> u32
    requires used { is_used (plan_of plan.now) n ≡ true }
    ensures value { result ≡ offset_in_effect (plan_of plan.now) n }
    ensures range { result < 2550 }
{
    let Some(moment) = counted_to(plan, n) else {
        return plan.offset(n);
    };
    match counted_from(plan, n) {
        None => plan.offset(n),
        Some(end) => {
            let cycle = cycle_of(plan, n);
            (plan.offset(n) + end + (cycle - moment % cycle)) % cycle
        }
    }
}
