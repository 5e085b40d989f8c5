//! The channels of a monitor, and the phases by which each is lit.
#![tactic(auto, unfolding(tsb_plan::specs::PlanOf::plan_of))]

ghost use Rattle.std.specs.Prelude.{◌≡◌, ℕ, ◌≤◌};
ghost use Rattle.std.specs.List.{list_any};
ghost use Rattle.tsb_plan.specs.Plan.{phases};
ghost use Rattle.tsb_plan.specs.PlanOf.{plan_of};
ghost use Rattle.tsb_types.specs.Sets.{has_number};
ghost use Rattle.tsb_card.specs.Card.{permits};
ghost use Rattle.tsb_card.specs.Pairs.{agree, channel, is_lit_beside, is_pair, is_permissive, is_unnamed, lights, lights_overlap, meets, names_none, usual};

use crate::card::{CHANNELS, Card};
use tsb_plan::{Object, Plan};
use tsb_types::{NumberSet, Overlap, Phase};

/// `channelControlType` of vehicles of a phase.
const VEHICLE: u32 = 2;

/// `channelControlType` of pedestrians of a phase.
const PEDESTRIAN: u32 = 3;

/// `channelControlType` of an overlap.
const OVERLAP: u32 = 4;

/// What a channel shows: its type and its source.
#[derive(Clone, Copy)]
pub struct Control {
    /// The type, 0 for none.
    kind: u32,
    /// The phase or overlap, 0 for none.
    source: u32,
}

/// Whether a plan does not name a channel: its type and its source are 0.
fn is_unnamed(plan: &Plan, channel: u8) -> bool
    requires from { 1 ≤ channel }
    requires to { channel ≤ 16 }
    ensures { result ≡ is_unnamed (plan_of plan.now) channel }
{
    let index = u32::from(channel);
    plan.at(Object::ChannelControlType, index) == 0
        && plan.at(Object::ChannelControlSource, index) == 0
}

/// Whether a plan names no channel.
fn names_none(plan: &Plan) -> bool
    ensures { result ≡ names_none (plan_of plan.now) }
{
    for channel in 1..CHANNELS + 1 {
        if !is_unnamed(plan, channel) {
            return false;
        }
    }
    true
}

/// What a channel usually shows: 1 to 8 those phases, 9 to 12 overlaps 1 to 4, 13 to 16 the crosswalks of 2, 4, 6 and 8.
fn usual(channel: u8) -> Control
    ensures { result ≡ usual channel }
{
    let number = u32::from(channel);
    if number <= 8 {
        Control {
            kind: VEHICLE,
            source: number,
        }
    } else if number <= 12 {
        Control {
            kind: OVERLAP,
            source: number - 8,
        }
    } else {
        Control {
            kind: PEDESTRIAN,
            source: 2 * (number - 12),
        }
    }
}

/// What a channel of a plan shows: what is usual, where the plan names no channel.
fn channel_of(plan: &Plan, is_usual: bool, number: u8) -> Control
    requires from { 1 ≤ number }
    requires to { number ≤ 16 }
    requires usual { is_usual ≡ names_none (plan_of plan.now) }
    ensures { result ≡ channel (plan_of plan.now) number }
{
    if is_usual {
        return usual(number);
    }
    let index = u32::from(number);
    Control {
        kind: plan.at(Object::ChannelControlType, index),
        source: plan.at(Object::ChannelControlSource, index),
    }
}

/// Whether a phase lights an overlap: it includes the phase, or is an arrow and the phase is its turn.
fn lights_overlap(plan: &Plan, overlap: Overlap, phase: Phase) -> bool
    ensures { result ≡ lights_overlap (plan_of plan.now) overlap phase }
{
    plan.included_phases(overlap).contains(phase)
        || plan.is_arrow(overlap) && plan.modifier_phases(overlap).contains(phase)
}

/// Whether a phase lights a channel.
fn lights(plan: &Plan, channel: &Control, phase: Phase) -> bool
    ensures { result ≡ lights (plan_of plan.now) channel.now phase }
{
    let is_source = channel.source == u32::from(phase.number());
    if channel.kind == VEHICLE {
        is_source && plan.is_enabled(phase)
    } else if channel.kind == PEDESTRIAN {
        is_source && plan.is_enabled(phase) && plan.walk(phase) != 0
    } else if channel.kind == OVERLAP {
        match Overlap::new(channel.source) {
            Some(overlap) => lights_overlap(plan, overlap, phase),
            None => false,
        }
    } else {
        false
    }
}

/// Whether two phases are equal or concurrent.
fn agree(plan: &Plan, phase: Phase, other: Phase) -> bool
    ensures { result ≡ agree (plan_of plan.now) phase other }
{
    phase == other || plan.concurrency(phase).contains(other)
}

/// Whether a phase lights a channel, and agrees with another phase.
fn is_lit_beside(plan: &Plan, channel: &Control, phase: Phase, other: Phase) -> bool
    ensures { result ≡ is_lit_beside (plan_of plan.now) channel.now phase other }
{
    lights(plan, channel, other) && agree(plan, phase, other)
}

/// Whether some phase lights a channel and agrees with another phase.
fn is_met(plan: &Plan, channel: &Control, phase: Phase) -> bool
    ensures { result ≡ list_any (is_lit_beside (plan_of plan.now) channel.now phase) (phases (plan_of plan.now)) }
{
    Phase::all()
        .iter()
        .any(|other| is_lit_beside(plan, channel, phase, *other))
}

/// Whether a phase lights one channel, and one that agrees with it lights the other.
fn meets(plan: &Plan, one: &Control, other: &Control, phase: Phase) -> bool
    ensures { result ≡ meets (plan_of plan.now) one.now other.now phase }
{
    lights(plan, one, phase) && is_met(plan, other, phase)
}

/// Whether two channels have to be permissive, by what they show.
fn may_meet(plan: &Plan, one: &Control, other: &Control) -> bool
    ensures { result ≡ list_any (meets (plan_of plan.now) one.now other.now) (phases (plan_of plan.now)) }
{
    Phase::all()
        .iter()
        .any(|phase| meets(plan, one, other, *phase))
}

/// Whether two channels have to be permissive.
fn is_pair(plan: &Plan, is_usual: bool, one: u8, other: u8) -> bool
    requires one_from { 1 ≤ one }
    requires one_to { one ≤ 16 }
    requires other_from { 1 ≤ other }
    requires other_to { other ≤ 16 }
    requires usual { is_usual ≡ names_none (plan_of plan.now) }
    ensures { result ≡ is_pair (plan_of plan.now) one other }
{
    may_meet(
        plan,
        &channel_of(plan, is_usual, one),
        &channel_of(plan, is_usual, other),
    )
}

/// The higher channels that have to be permissive with a channel.
fn row_of(plan: &Plan, is_usual: bool, lower: u8) -> NumberSet
    requires from { 1 ≤ lower }
    requires to { lower ≤ 16 }
    requires usual { is_usual ≡ names_none (plan_of plan.now) }
    ensures { (b : ℕ) → has_number result b ≡ is_permissive (plan_of plan.now) lower b }
{
    let mut row = NumberSet::empty();
    for higher in lower + 1..CHANNELS + 1 {
        row = row.with(higher, is_pair(plan, is_usual, lower, higher));
    }
    row
}

/// The card of a plan: two channels are permissive where a phase by which one is lit is one by which the other is, or
/// concurrent with it. The plan is meant to be one that meets the rules, so that concurrency goes both ways.
pub fn card_of(plan: &Plan) -> Card
    ensures { (a b : ℕ) → permits result a b ≡ is_permissive (plan_of plan.now) a b }
{
    let is_usual = names_none(plan);
    let mut rows = [NumberSet::empty(); CHANNELS as usize];
    for place in 0..CHANNELS {
        rows[usize::from(place)] = row_of(plan, is_usual, place + 1);
    }
    Card { rows }
}
