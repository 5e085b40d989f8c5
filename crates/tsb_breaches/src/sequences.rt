//! What of a sequence breaks a rule: K6 and K7.
#![tactic(auto, unfolding(tsb_plan::specs::PlanOf::plan_of))]

ghost use Rattle.std.specs.Prelude.{◌≡◌};
ghost use Rattle.tsb_types.specs.Lists.{among, first};
ghost use Rattle.tsb_plan.specs.PlanOf.{plan_of};
ghost use Rattle.tsb_plan.specs.Plan.{is_enabled, ring_of, side_of};
ghost use Rattle.tsb_rules.specs.SequenceRules.{is_blank, is_zeros};
ghost use Rattle.tsb_breaches.specs.Sequences.{listed, behind, lists_unused, lists_other_ring, lists_again, is_lower, lower_behind, falls, listed_next, leaves_gap, is_missing, is_first, is_other};

use tsb_plan::Plan;
use tsb_review::Listing;
use tsb_types::{Phase, Ring, Sequence};

/// What the sequence lists for the ring at the place, 0 for no phase.
pub(crate) fn listed(plan: &Plan, sequence: Sequence, ring: Ring, listing: Listing) -> u16
    ensures value { result ≡ listed (plan_of plan.now) sequence ring listing }
{
    plan.sequence(sequence, ring)[usize::from(listing.number()) - 1]
}

/// What it lists behind that place.
fn behind(plan: &Plan, sequence: Sequence, ring: Ring, listing: Listing) -> &[u16]
    ensures { result.now ≡ behind (plan_of plan.now) sequence ring listing }
{
    &plan.sequence(sequence, ring)[usize::from(listing.number())..]
}

/// Whether this is the number of an enabled phase.
fn is_enabled(plan: &Plan, number: u16) -> bool
    ensures { result ≡ is_enabled (plan_of plan.now) number }
{
    match Phase::new(u32::from(number)) {
        Some(phase) => plan.is_enabled(phase),
        None => false,
    }
}

/// Whether the number is one of these places.
fn is_among(number: u16, places: &[u16]) -> bool
    ensures { result ≡ among number places.now }
{
    places.iter().any(|other| *other == number)
}

/// Whether no place has a phase.
fn are_zeros(places: &[u16]) -> bool
    ensures { result ≡ is_zeros places.now }
{
    places.iter().all(|number| *number == 0)
}

/// Whether the sequence is all zeros.
pub(crate) fn is_blank(plan: &Plan, sequence: Sequence) -> bool
    ensures { result ≡ is_blank (plan_of plan.now) sequence }
{
    are_zeros(plan.sequence(sequence, Ring::of(1)))
        && are_zeros(plan.sequence(sequence, Ring::of(2)))
}

/// The side of the phase of this number; 0 where no phase has it.
fn side_of_number(plan: &Plan, number: u16) -> u32
    ensures { result ≡ side_of (plan_of plan.now) number }
{
    match Phase::new(u32::from(number)) {
        Some(phase) => plan.side(phase),
        None => 0,
    }
}

/// Whether a phase is listed that is not enabled.
pub(crate) fn lists_unused(plan: &Plan, sequence: Sequence, ring: Ring, listing: Listing) -> bool
    ensures { result ≡ lists_unused (plan_of plan.now) sequence ring listing }
{
    let number = listed(plan, sequence, ring, listing);
    number != 0 && !is_enabled(plan, number)
}

/// The ring of the phase of this number; 0 where no phase has it.
pub(crate) fn ring_of_number(plan: &Plan, number: u16) -> u32
    ensures { result ≡ ring_of (plan_of plan.now) number }
{
    match Phase::new(u32::from(number)) {
        Some(phase) => plan.ring(phase),
        None => 0,
    }
}

/// Whether an enabled phase is listed that is not of the ring.
pub(crate) fn lists_other_ring(
    plan: &Plan,
    sequence: Sequence,
    ring: Ring,
    listing: Listing,
) -> bool
    ensures { result ≡ lists_other_ring (plan_of plan.now) sequence ring listing }
{
    let number = listed(plan, sequence, ring, listing);
    number != 0
        && is_enabled(plan, number)
        && ring_of_number(plan, number) != u32::from(ring.number())
}

/// Whether the phase that is listed comes again behind it.
pub(crate) fn lists_again(plan: &Plan, sequence: Sequence, ring: Ring, listing: Listing) -> bool
    ensures { result ≡ lists_again (plan_of plan.now) sequence ring listing }
{
    let number = listed(plan, sequence, ring, listing);
    number != 0 && is_among(number, behind(plan, sequence, ring, listing))
}

/// Whether this is the number of a phase of a lower side.
fn is_lower(plan: &Plan, side: u32, number: u16) -> bool
    ensures { result ≡ is_lower (plan_of plan.now) side number }
{
    number != 0 && side_of_number(plan, number) < side
}

/// The first phase behind it that is of a lower side than what is listed.
pub(crate) fn lower_behind(
    plan: &Plan,
    sequence: Sequence,
    ring: Ring,
    listing: Listing,
) -> Option<u16>
    ensures { result ≡ lower_behind (plan_of plan.now) sequence ring listing }
{
    let side = side_of_number(plan, listed(plan, sequence, ring, listing));
    first_lower(plan, side, behind(plan, sequence, ring, listing))
}

/// The first of these that is the number of a phase of a lower side.
fn first_lower(plan: &Plan, side: u32, places: &[u16]) -> Option<u16>
    ensures { result ≡ first (is_lower (plan_of plan.now) side) places.now }
{
    places
        .iter()
        .copied()
        .find(|number| is_lower(plan, side, *number))
}

/// Whether there is one.
pub(crate) fn falls(plan: &Plan, sequence: Sequence, ring: Ring, listing: Listing) -> bool
    ensures { result ≡ falls (plan_of plan.now) sequence ring listing }
{
    lower_behind(plan, sequence, ring, listing).is_some()
}

/// What the sequence lists for the ring at the next place; 0 behind the last.
pub(crate) fn listed_next(plan: &Plan, sequence: Sequence, ring: Ring, listing: Listing) -> u16
    ensures { result ≡ listed_next (plan_of plan.now) sequence ring listing }
{
    if listing.number() < 16 {
        plan.sequence(sequence, ring)[usize::from(listing.number())]
    } else {
        0
    }
}

/// Whether no phase is listed, and one is at the next place.
pub(crate) fn leaves_gap(plan: &Plan, sequence: Sequence, ring: Ring, listing: Listing) -> bool
    ensures { result ≡ leaves_gap (plan_of plan.now) sequence ring listing }
{
    listed(plan, sequence, ring, listing) == 0 && listed_next(plan, sequence, ring, listing) != 0
}

/// Whether the phase is an enabled one of the ring, and not listed.
pub(crate) fn is_missing(plan: &Plan, sequence: Sequence, ring: Ring, phase: Phase) -> bool
    ensures { result ≡ is_missing (plan_of plan.now) sequence ring phase }
{
    plan.is_enabled(phase)
        && plan.ring(phase) == u32::from(ring.number())
        && !is_among(u16::from(phase.number()), plan.sequence(sequence, ring))
}

/// Whether this is sequence 1.
pub(crate) fn is_first(sequence: Sequence) -> bool
    ensures { result ≡ is_first sequence }
{
    sequence.number() == 1
}

/// Whether this is another sequence, and not all zeros.
pub(crate) fn is_other(plan: &Plan, sequence: Sequence) -> bool
    ensures { result ≡ is_other (plan_of plan.now) sequence }
{
    sequence.number() > 1 && !is_blank(plan, sequence)
}
