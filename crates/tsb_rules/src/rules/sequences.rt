//! Rules K6 and K7: what sequences list.
#![tactic(auto, unfolding(tsb_plan::specs::PlanOf::plan_of))]

ghost use Rattle.std.specs.Prelude.{◌≡◌, ℕ, ◌+◌, ◌*◌, ◌≤◌, ◌==◌, ◌&&◌, ◌||◌, not, nat_le, true};
ghost use Rattle.std.specs.List.{list_all};
ghost use Rattle.tsb_types.specs.Lists.{among};
ghost use Rattle.tsb_plan.specs.Plan.{is_enabled, ring_of, side_of, sequence as sequence_places};
ghost use Rattle.tsb_rules.specs.Asked.{each_listed, listed_meets};
ghost use Rattle.tsb_rules.specs.SequenceRules.{lists_only, lists_each, lists_once, rises, is_zeros, zeros_last, is_ordered, sequence_is_ordered, is_blank, first_sequence_is_ordered, other_sequences_are_ordered};
ghost use Rattle.tsb_plan.specs.PlanOf.{plan_of};

use tsb_plan::Plan;
use tsb_types::{Phase, Ring, Sequence};

/// What a rule asks of each phase that a sequence lists.
#[derive(Clone, Copy)]
enum OfListed {
    /// It is an enabled phase of this ring.
    IsOfRing(Ring),
    /// It is of this side or a higher one.
    IsFromSide(u32),
}

/// Whether a listed phase is as a rule asks.
fn listed_meets(plan: &Plan, asked: OfListed, number: u16) -> bool
    ensures { result ≡ listed_meets asked (plan_of plan.now) number }
{
    match asked {
        OfListed::IsOfRing(ring) => is_of_ring(plan, ring, number),
        OfListed::IsFromSide(side) => side <= side_of_number(plan, number),
    }
}

/// Whether each listed phase is as a rule asks.
fn each_listed(plan: &Plan, asked: OfListed, places: &[u16]) -> bool
    ensures { result ≡ each_listed places.now (listed_meets asked (plan_of plan.now)) }
{
    places.iter().all(|number| *number == 0 || listed_meets(plan, asked, *number))
}

/// K6: sequence 1 is ordered.
pub(super) fn first_sequence_is_ordered(plan: &Plan) -> bool
    ensures { result ≡ first_sequence_is_ordered (plan_of plan.now) }
{
    sequence_is_ordered(plan, Sequence::of(1))
}

/// K7: each of sequences 2 to 4 is all zeros or ordered.
pub(super) fn other_sequences_are_ordered(plan: &Plan) -> bool
    ensures { result ≡ other_sequences_are_ordered (plan_of plan.now) }
{
    is_blank_or_ordered(plan, Sequence::of(2))
        && is_blank_or_ordered(plan, Sequence::of(3))
        && is_blank_or_ordered(plan, Sequence::of(4))
}

fn is_blank_or_ordered(plan: &Plan, sequence: Sequence) -> bool
    ensures { result ≡ (is_blank (plan_of plan.now) sequence || sequence_is_ordered (plan_of plan.now) sequence) }
{
    is_blank(plan, sequence) || sequence_is_ordered(plan, sequence)
}

/// Whether the sequence is all zeros.
pub(super) fn is_blank(plan: &Plan, sequence: Sequence) -> bool
    ensures { result ≡ is_blank (plan_of plan.now) sequence }
{
    are_zeros(plan.sequence(sequence, Ring::of(1)))
        && are_zeros(plan.sequence(sequence, Ring::of(2)))
}

fn sequence_is_ordered(plan: &Plan, sequence: Sequence) -> bool
    ensures { result ≡ sequence_is_ordered (plan_of plan.now) sequence }
{
    is_ordered(plan, Ring::of(1), plan.sequence(sequence, Ring::of(1)))
        && is_ordered(plan, Ring::of(2), plan.sequence(sequence, Ring::of(2)))
}

/// Whether this lists each phase of the ring once and no other, sides in rising order, with zeros only
/// after the last.
fn is_ordered(plan: &Plan, ring: Ring, places: &[u16]) -> bool
    ensures { result ≡ is_ordered (plan_of plan.now) ring places.now }
{
    lists_only(plan, ring, places)
        && lists_each(plan, ring, places)
        && lists_once(places)
        && rises(plan, places)
        && zeros_last(places)
}

fn lists_only(plan: &Plan, ring: Ring, places: &[u16]) -> bool
    ensures { result ≡ lists_only (plan_of plan.now) ring places.now }
{
    each_listed(plan, OfListed::IsOfRing(ring), places)
}

/// Whether this is the number of an enabled phase of the ring.
fn is_of_ring(plan: &Plan, ring: Ring, number: u16) -> bool
    ensures { result ≡ (is_enabled (plan_of plan.now) number && ring_of (plan_of plan.now) number == ring) }
{
    match Phase::new(u32::from(number)) {
        Some(phase) => plan.is_enabled(phase) && plan.ring(phase) == u32::from(ring.number()),
        None => false,
    }
}

fn lists_each(plan: &Plan, ring: Ring, places: &[u16]) -> bool
    ensures { result ≡ lists_each (plan_of plan.now) ring places.now }
{
    Phase::all().iter().all(|phase| {
        !plan.is_enabled(*phase)
            || plan.ring(*phase) != u32::from(ring.number())
            || is_among(u16::from(phase.number()), places)
    })
}

fn is_among(number: u16, places: &[u16]) -> bool
    ensures { result ≡ among number places.now }
{
    places.iter().any(|other| *other == number)
}

fn lists_once(places: &[u16]) -> bool
    ensures { result ≡ lists_once places.now }
{
    for place in 0..places.len() {
        if places[place] != 0 && is_among(places[place], &places[place + 1..]) {
            return false;
        }
    }
    true
}

/// Whether no phase comes before one of a lower side.
fn rises(plan: &Plan, places: &[u16]) -> bool
    ensures { result ≡ rises (plan_of plan.now) places.now }
{
    for place in 0..places.len() {
        if !rises_from(plan, places[place], &places[place + 1..]) {
            return false;
        }
    }
    true
}

/// Whether no phase that is listed behind this number is of a lower side. A place without a phase has none to compare.
fn rises_from(plan: &Plan, number: u16, places: &[u16]) -> bool
    ensures { result ≡ list_all (λ q. q == 0 || nat_le (side_of (plan_of plan.now) number) (side_of (plan_of plan.now) q)) places.now }
{
    number == 0 || are_from_side(plan, side_of_number(plan, number), places)
}

/// The side of the phase of this number; 0 where no phase has it.
fn side_of_number(plan: &Plan, number: u16) -> u32
    ensures { result ≡ side_of (plan_of plan.now) number }
{
    match Phase::new(u32::from(number)) {
        Some(phase) => plan.side(phase),
        None => 0,
    }
}

/// Whether each phase that is listed is of this side or a higher one.
fn are_from_side(plan: &Plan, side: u32, places: &[u16]) -> bool
    ensures { result ≡ list_all (λ q. q == 0 || nat_le side (side_of (plan_of plan.now) q)) places.now }
{
    each_listed(plan, OfListed::IsFromSide(side), places)
}

fn zeros_last(places: &[u16]) -> bool
    ensures { result ≡ zeros_last places.now }
{
    for place in 0..places.len() {
        if places[place] == 0 {
            return are_zeros(&places[place + 1..]);
        }
    }
    true
}

fn are_zeros(places: &[u16]) -> bool
    ensures { result ≡ is_zeros places.now }
{
    places.iter().all(|number| *number == 0)
}
