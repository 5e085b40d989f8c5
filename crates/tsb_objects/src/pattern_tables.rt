//! What a plan says of all its phases while a pattern runs, and in free operation.
#![tactic(auto, unfolding(tsb_plan::specs::PlanOf::plan_of))]

ghost use Rattle.std.specs.Prelude.{◌≡◌, ◌≢◌, ℕ, ◌+◌, ◌-◌, ◌*◌, ◌<◌, ◌≤◌, true, false, None, Some, IfSome, is_some, length, slice_index};
ghost use Rattle.tsb_objects.specs.PatternTables.{is_so, AreInEffect, AreInstants, AreEnds, AreWaitingPoints, AreOffsets, ArePatternTables, instant_in, late_until, end_behind, permissive_end_in};
ghost use Rattle.tsb_objects.specs.Instants.{force_off, late_end, is_from_to, yields_for, end_within, reference, instant_of, tick_before, waiting_point, offset_in_effect};
ghost use Rattle.tsb_plan.specs.Parts.{cycle, is_used, unless_zero};
ghost use Rattle.tsb_plan.specs.PlanOf.{plan_of};
ghost use Rattle.tsb_plan.specs.Running.{split_in_effect};
ghost use Rattle.tsb_types.specs.Sets.{has, names};

use crate::agreement::agree_for_patterns;
use crate::instants::{counted_from, instant, reference};
use crate::late_ends::{late_end, yields_for};
use crate::offsets::offset_in_effect;
use tsb_plan::Plan;
use tsb_types::{Pattern, Phase, PhaseSet};

/// The word of a phase without an instant: no local counter is so large.
pub(crate) const NEVER: u16 = 65535;

/// What a table of the pattern that runs asks of a phase.
#[derive(Clone, Copy)]
enum PatternQuestion {
    Coordinated,
    Omitted,
    MinimumRecall,
    MaximumRecall,
    PedestrianRecall,
    PedestrianRecycle,
}

/// What a plan says of all its phases while a pattern runs. In an array of 17 words, word 0 is for free operation and
/// word `n` for pattern `n`. Each is a list of phases, as `phaseConcurrency` has it.
#[derive(Clone, Copy)]
pub struct PatternTables {
    /// The coordinated phases (`splitCoordPhase`).
    pub(crate) coordinated: [u16; 17],
    /// The phases that are omitted (`splitMode`).
    pub(crate) omitted: [u16; 17],
    /// The phases with minimum recall in effect.
    pub(crate) minimum_recall: [u16; 17],
    /// The phases with maximum recall in effect.
    pub(crate) maximum_recall: [u16; 17],
    /// The phases with pedestrian recall in effect.
    pub(crate) pedestrian_recall: [u16; 17],
    /// The coordinated phases with pedestrian recycle (`phasePedestrianRecycle`).
    pub(crate) pedestrian_recycle: [u16; 17],
    /// The force-off instants of the phases, 16 for each pattern, or `NEVER`.
    pub(crate) instants: [u16; 256],
    /// For each of these the tick of the local counter after the last one at which the phase is forced off, or 0. It is
    /// counted on past the end of the cycle; at most 5,100.
    pub(crate) ends: [u16; 256],
    /// Where on its local counter each pattern waits while it comes into step (`coordCorrectionMode` 1).
    pub(crate) waiting_points: [u16; 16],
    /// The offset at which the local counter of each pattern is 0 (`patternOffsetTime`, `coordReference`).
    pub(crate) offsets: [u16; 16],
}

impl PatternTables {
    /// The tables of a plan.
    pub(crate) fn of(plan: &Plan) -> PatternTables
        ensures { ArePatternTables (plan_of plan.now) result }
    {
        let words = instants(plan);
        PatternTables {
            coordinated: in_effect(plan, PatternQuestion::Coordinated),
            omitted: in_effect(plan, PatternQuestion::Omitted),
            minimum_recall: in_effect(plan, PatternQuestion::MinimumRecall),
            maximum_recall: in_effect(plan, PatternQuestion::MaximumRecall),
            pedestrian_recall: in_effect(plan, PatternQuestion::PedestrianRecall),
            pedestrian_recycle: in_effect(plan, PatternQuestion::PedestrianRecycle),
            instants: words,
            ends: ends(plan, &words),
            waiting_points: waiting_points(plan, &words),
            offsets: offsets(plan),
        }
    }

    /// Makes them the tables of a plan, from those of the plan before it: they stay where both plans agree on what they
    /// are made from.
    pub(crate) fn renew(&mut self, before: &Plan, plan: &Plan)
        requires { ArePatternTables (plan_of before.now) self.old }
        ensures { ArePatternTables (plan_of plan.now) self.new }
    {
        if !agree_for_patterns(before, plan) {
            *self = PatternTables::of(plan);
        }
    }
}

/// The running pattern that word `k` is for; none for word 0.
fn runs_at(k: usize) -> Option<Pattern>
    requires { k < 17 }
    ensures { result ≡ unless_zero k }
{
    Pattern::new(k as u32)
}

/// Whether a phase passes the test while the pattern of word `k` runs.
fn is_so(plan: &Plan, k: usize, asked: PatternQuestion, phase: Phase) -> bool
    requires { k < 17 }
    ensures { result ≡ is_so asked (plan_of plan.now) (unless_zero k) phase }
{
    match asked {
        PatternQuestion::Coordinated => plan.is_coordinated_now(runs_at(k), phase),
        PatternQuestion::Omitted => plan.is_omitted_now(runs_at(k), phase),
        PatternQuestion::MinimumRecall => plan.is_on_minimum_recall(runs_at(k), phase),
        PatternQuestion::MaximumRecall => plan.is_on_maximum_recall(runs_at(k), phase),
        PatternQuestion::PedestrianRecall => plan.is_on_pedestrian_recall(runs_at(k), phase),
        PatternQuestion::PedestrianRecycle => {
            plan.recycles_walk(phase) && plan.is_coordinated_now(runs_at(k), phase)
        }
    }
}

/// The set with the phase if `on`, for a set that does not have it yet: it only adds.
#[inline(always)]
fn joined(set: PhaseSet, p: Phase, on: bool) -> PhaseSet
    requires { has set p ≡ false }
    ensures set { has result p ≡ on }
    ensures others { (q : ℕ) → q ≢ p → has result q ≡ has set q }
{
    if on { set.with(p, true) } else { set }
}

/// The phases that pass the test while the pattern of word `k` runs.
#[inline(always)]
fn phases_so(plan: &Plan, k: usize, asked: PatternQuestion) -> PhaseSet
    requires { k < 17 }
    ensures { (p : ℕ) → 1 ≤ p → p ≤ 16 → has result p ≡ is_so asked (plan_of plan.now) (unless_zero k) p }
{
    let mut set = PhaseSet::empty();
    for number in 1..17 {
        let phase = Phase::of(number);
        set = joined(set, phase, is_so(plan, k, asked, phase));
    }
    set
}

/// Whether a split table is in effect while the pattern of word `k` runs.
fn has_split(plan: &Plan, k: usize) -> bool
    requires { k < 17 }
    ensures { result ≡ is_some (split_in_effect (plan_of plan.now) (unless_zero k)) }
{
    match runs_at(k) {
        None => false,
        Some(n) => plan.split_of(n).is_some(),
    }
}

/// The phases that pass the test while the pattern of word `k` runs, as a list: without a split table those of free
/// operation, which the caller hands in.
#[inline(always)]
fn list_so(plan: &Plan, k: usize, asked: PatternQuestion, free: u16) -> u16
    requires word { k < 17 }
    requires free { (p : ℕ) → 1 ≤ p → p ≤ 16 → names free p ≡ is_so asked (plan_of plan.now) None p }
    ensures { (p : ℕ) → 1 ≤ p → p ≤ 16 → names result p ≡ is_so asked (plan_of plan.now) (unless_zero k) p }
{
    if has_split(plan, k) {
        phases_so(plan, k, asked).list()
    } else {
        free
    }
}

/// The phases that pass the test, in free operation and in each pattern. It is inlined, so that the compiler settles
/// the test before the loops.
#[inline(always)]
fn in_effect(plan: &Plan, asked: PatternQuestion) -> [u16; 17]
    ensures full { length result ≡ 17 }
    ensures told { AreInEffect (plan_of plan.now) asked result }
{
    let free = phases_so(plan, 0, asked).list();
    let mut words = [0; 17];
    for k in 0..17 {
        words[k] = list_so(plan, k, asked, free);
    }
    words
}

/// The force-off instant of a phase in a pattern that is used, as a word, by what the pattern's are counted from.
fn instant_word(plan: &Plan, n: Pattern, from: &Option<u32>, p: Phase) -> u16
    requires used { is_used (plan_of plan.now) n ≡ true }
    requires from { from.now ≡ end_within (plan_of plan.now) n (reference (plan_of plan.now) n) }
    requires range { IfSome from.now (λ i. i < 2550) }
    ensures { instant_in result ≡ force_off (plan_of plan.now) (Some n) p }
{
    match instant(plan, n, from, p) {
        Some(at) => at as u16,
        None => NEVER,
    }
}

/// How many words come before those of a pattern, in an array with 16 for each pattern.
#[inline(always)]
fn words_before(n: Pattern) -> usize
    ensures same { result ≡ 16 * (n - 1) }
    ensures within { result ≤ 240 }
{
    16 * (usize::from(n.number()) - 1)
}

/// Puts the force-off instants of all phases in a pattern that is used among those of each pattern.
fn put_instants(plan: &Plan, n: Pattern, words: &mut [u16; 256])
    requires used { is_used (plan_of plan.now) n ≡ true }
    ensures full { length words.new ≡ 256 }
    ensures told { (p : ℕ) → 1 ≤ p → p ≤ 16 →
        instant_in (slice_index words.new (16 * (n - 1) + (p - 1))) ≡ force_off (plan_of plan.now) (Some n) p }
    ensures others { (m p : ℕ) → m ≢ n → 1 ≤ m → 1 ≤ p → p ≤ 16 →
        slice_index words.new (16 * (m - 1) + (p - 1)) ≡ slice_index words.old (16 * (m - 1) + (p - 1)) }
{
    let from = counted_from(plan, n);
    let before = words_before(n);
    for number in 1..17u8 {
        words[before + (usize::from(number) - 1)] = instant_word(plan, n, &from, Phase::of(number));
    }
}

/// The force-off instants of all phases in each pattern. They have no meaning for a pattern that is not used.
fn instants(plan: &Plan) -> [u16; 256]
    ensures full { length result ≡ 256 }
    ensures told { AreInstants (plan_of plan.now) result }
{
    let mut words = [NEVER; 256];
    for number in 1..17u8 {
        let n = Pattern::of(number);
        if plan.is_used(n) {
            put_instants(plan, n, &mut words);
        }
    }
    words
}

/// A late end in that cycle, counted on from an instant: past the end of the cycle where it comes before it; 0 where
/// there is none.
fn late_until(cycle: u32, at: u32, late: &Option<u32>) -> u32
    requires small { cycle ≤ 2550 }
    requires below { IfSome late.now (λ i. i < 2550) }
    ensures value { result ≡ late_until cycle at late.now }
    ensures range { result < 5100 }
{
    match late {
        None => 0,
        Some(end) => { if *end < at { *end + cycle } else { *end } }
    }
}

/// The tick of the local counter after the last one at which a used pattern forces a phase off. It is found from the
/// words of all instants, and counts on past the cycle; 0 where the pattern never does.
fn end_word(plan: &Plan, instants: &[u16; 256], n: Pattern, p: Phase) -> u16
    requires used { is_used (plan_of plan.now) n ≡ true }
    requires told { AreInstants (plan_of plan.now) instants.now }
    ensures { result ≡ end_behind (cycle (plan_of plan.now) n) (force_off (plan_of plan.now) (Some n) p)
        (late_end (plan_of plan.now) (Some n) p) (yields_for (plan_of plan.now) n p) }
{
    match instant_at(instants, n, p) {
        None => 0,
        Some(at) => {
            let late = late_until(plan.cycle(n), at, &late_end(plan, instants, n, p));
            (at + yields_for(plan, n, p) + 1).max(late) as u16
        }
    }
}

/// Puts the ticks after the last ones at which a used pattern forces phases off among those of each pattern, by the
/// words of all instants.
fn put_ends(plan: &Plan, instants: &[u16; 256], n: Pattern, words: &mut [u16; 256])
    requires used { is_used (plan_of plan.now) n ≡ true }
    requires told { AreInstants (plan_of plan.now) instants.now }
    ensures full { length words.new ≡ 256 }
    ensures told { (p : ℕ) → 1 ≤ p → p ≤ 16 →
        slice_index words.new (16 * (n - 1) + (p - 1)) ≡ end_behind (cycle (plan_of plan.now) n)
        (force_off (plan_of plan.now) (Some n) p) (late_end (plan_of plan.now) (Some n) p) (yields_for (plan_of plan.now) n p) }
    ensures others { (m p : ℕ) → m ≢ n → 1 ≤ m → 1 ≤ p → p ≤ 16 →
        slice_index words.new (16 * (m - 1) + (p - 1)) ≡ slice_index words.old (16 * (m - 1) + (p - 1)) }
{
    let before = words_before(n);
    for number in 1..17u8 {
        words[before + (usize::from(number) - 1)] = end_word(plan, instants, n, Phase::of(number));
    }
}

/// The ticks after the last ones at which each pattern forces phases off, by the words of their instants. They have no
/// meaning for a pattern that is not used.
fn ends(plan: &Plan, instants: &[u16; 256]) -> [u16; 256]
    requires told { AreInstants (plan_of plan.now) instants.now }
    ensures full { length result ≡ 256 }
    ensures told { AreEnds (plan_of plan.now) result }
{
    let mut words = [0; 256];
    for number in 1..17u8 {
        let n = Pattern::of(number);
        if plan.is_used(n) {
            put_ends(plan, instants, n, &mut words);
        }
    }
    words
}

/// Where each pattern waits while its local counter comes into step, by the words of all instants.
fn waiting_points(plan: &Plan, instants: &[u16; 256]) -> [u16; 16]
    requires told { AreInstants (plan_of plan.now) instants.now }
    ensures full { length result ≡ 16 }
    ensures told { AreWaitingPoints (plan_of plan.now) result }
{
    let mut words = [0; 16];
    for k in 0..16usize {
        words[k] = waiting_word(plan, instants, Pattern::of(k as u8 + 1));
    }
    words
}

/// A tick before an instant, in that cycle; 0 where there is none.
fn tick_before(cycle: u32, instant: &Option<u32>) -> u32
    requires some { 1 < cycle }
    requires small { cycle ≤ 2550 }
    requires below { IfSome instant.now (λ i. i < 2550) }
    ensures value { result ≡ tick_before cycle instant.now }
    ensures below { result < cycle }
{
    match instant {
        None => 0,
        Some(at) => (*at + cycle - 1) % cycle,
    }
}

/// Where a pattern waits, as a word, by the words of all instants. It has no meaning for a pattern that is not used.
fn waiting_word(plan: &Plan, instants: &[u16; 256], n: Pattern) -> u16
    requires told { AreInstants (plan_of plan.now) instants.now }
    ensures { is_used (plan_of plan.now) n ≡ true → result ≡ waiting_point (plan_of plan.now) n }
{
    if !plan.is_used(n) {
        return 0;
    }
    match reference(plan, n) {
        None => 0,
        Some(c) => tick_before(plan.cycle(n), &instant_at(instants, n, c)) as u16,
    }
}

/// The offsets at which the local counters of the patterns are 0.
fn offsets(plan: &Plan) -> [u16; 16]
    ensures full { length result ≡ 16 }
    ensures told { AreOffsets (plan_of plan.now) result }
{
    let mut words = [0; 16];
    for k in 0..16usize {
        words[k] = offset_word(plan, Pattern::of(k as u8 + 1));
    }
    words
}

/// The offset at which the local counter of a pattern is 0, as a word. It has no meaning for a pattern that is not used.
fn offset_word(plan: &Plan, n: Pattern) -> u16
    ensures { is_used (plan_of plan.now) n ≡ true → result ≡ offset_in_effect (plan_of plan.now) n }
{
    if plan.is_used(n) {
        offset_in_effect(plan, n) as u16
    } else {
        0
    }
}

/// The instant of a phase in a pattern, from the words of all.
#[inline(always)]
pub(crate) fn instant_at(words: &[u16; 256], n: Pattern, p: Phase) -> Option<u32>
    ensures { result ≡ instant_in (slice_index words.now (16 * (n - 1) + (p - 1))) }
{
    let at = words[words_before(n) + (usize::from(p.number()) - 1)];
    if at == NEVER {
        None
    } else {
        Some(u32::from(at))
    }
}

/// The word of a pattern, of words with one for each.
#[inline(always)]
pub(crate) fn word_at(words: &[u16; 16], n: Pattern) -> u32
    ensures { result ≡ slice_index words.now (n - 1) }
{
    u32::from(words[usize::from(n.number()) - 1])
}

/// The tick of the local counter after the permissive time of a coordinated phase, from the words of all instants and
/// ends; none where the phase has no permissive time.
#[inline(always)]
pub(crate) fn permissive_end_at(
    instants: &[u16; 256],
    ends: &[u16; 256],
    n: Pattern,
    p: Phase,
    cycle: u32,
) -> Option<u32>
    requires some { 1 ≤ cycle }
    ensures { result ≡ permissive_end_in cycle (slice_index instants.now (16 * (n - 1) + (p - 1)))
        (slice_index ends.now (16 * (n - 1) + (p - 1))) }
{
    let place = words_before(n) + (usize::from(p.number()) - 1);
    let at = u32::from(instants[place]);
    let end = u32::from(ends[place]);
    if at + 1 < end {
        Some(end % cycle)
    } else {
        None
    }
}

/// Whether a phase with that instant and that end is forced off at that local counter: from the instant to the end, in this
/// cycle or from the last one on. A phase without an instant ends at 0, which leaves it out.
#[inline(always)]
fn is_forced(at: u16, end: u16, cycle: u32, local: u32) -> bool
    ensures { result ≡ is_from_to cycle local at end }
{
    let from_last = u64::from(local) + u64::from(cycle);
    (u32::from(at) <= local && local < u32::from(end)) || from_last < u64::from(end)
}

/// The phases that are forced off in a pattern with that cycle at that local counter, from the words of their instants
/// and ends.
#[inline(always)]
pub(crate) fn forced_in(
    instants: &[u16; 256],
    ends: &[u16; 256],
    n: Pattern,
    cycle: u32,
    local: u32,
) -> PhaseSet
    ensures { (p : ℕ) → 1 ≤ p → p ≤ 16 →
        has result p ≡ is_from_to cycle local (slice_index instants.now (16 * (n - 1) + (p - 1)))
        (slice_index ends.now (16 * (n - 1) + (p - 1))) }
{
    let first = words_before(n);
    let mut set = PhaseSet::empty();
    for number in 1..17u8 {
        let at = instants[first + (usize::from(number) - 1)];
        let end = ends[first + (usize::from(number) - 1)];
        set = joined(set, Phase::of(number), is_forced(at, end, cycle, local));
    }
    set
}
