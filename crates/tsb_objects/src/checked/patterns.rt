//! What a checked plan says of all its phases while a pattern runs: `runs` is the pattern that runs, and `None`
//! in free operation. Times are in tenths of a second.
#![tactic(auto, unfolding(tsb_plan::specs::PlanOf::plan_of, crate::specs::Checked::checked_plan))]

ghost use Rattle.std.specs.Prelude.{◌≡◌, ℕ, ◌<◌, ◌≤◌, ◌&&◌, not, true, Some, IfSome};
ghost use Rattle.tsb_objects.specs.Checked.{checked_plan};
ghost use Rattle.tsb_objects.specs.Instants.{force_off, permissive_end, forces_off, walk_and_clearance, is_left, may_recycle, recycle_end, waiting_point, offset_in_effect};
ghost use Rattle.tsb_plan.specs.Parts.{cycle, is_used, unless_zero};
ghost use Rattle.tsb_plan.specs.Running.{sequence_in_effect, is_coordinated_now, is_omitted_now, is_on_minimum_recall, is_on_maximum_recall, is_on_pedestrian_recall};
ghost use Rattle.tsb_types.specs.Sets.{has};

use crate::checked::Checked;
use crate::pattern_tables::{forced_in, instant_at, permissive_end_at, word_at};
use crate::recycle;
use tsb_types::{Pattern, Phase, PhaseSet, Sequence};

/// Which word of a table is for the pattern that runs.
#[inline(always)]
fn word_of(runs: Option<Pattern>) -> usize
    ensures runs { unless_zero result ≡ runs }
    ensures within { result < 17 }
{
    match runs {
        None => 0,
        Some(n) => usize::from(n.number()),
    }
}

impl Checked {
    /// The sequence in effect: the pattern's, or sequence 1 in free operation.
    #[inline(always)]
    pub fn sequence_in_effect(&self, runs: Option<Pattern>) -> Sequence
        ensures { result ≡ sequence_in_effect (checked_plan self.now) runs }
    {
        self.plan.sequence_in_effect(runs)
    }

    /// The coordinated phases of the pattern that runs (`splitCoordPhase`); none in free operation.
    #[inline(always)]
    pub fn coordinated(&self, runs: Option<Pattern>) -> PhaseSet
        ensures { (p : ℕ) → 1 ≤ p → p ≤ 16 → has result p ≡ is_coordinated_now (checked_plan self.now) runs p }
    {
        PhaseSet::from_list(self.pattern_tables.coordinated[word_of(runs)])
    }

    /// The phases that the split mode in effect omits (`splitMode`); none in free operation.
    #[inline(always)]
    pub fn omitted(&self, runs: Option<Pattern>) -> PhaseSet
        ensures { (p : ℕ) → 1 ≤ p → p ≤ 16 → has result p ≡ is_omitted_now (checked_plan self.now) runs p }
    {
        PhaseSet::from_list(self.pattern_tables.omitted[word_of(runs)])
    }

    /// The phases with minimum recall in effect: their own, that of their split mode, or as coordinated
    /// phases.
    #[inline(always)]
    pub fn on_minimum_recall(&self, runs: Option<Pattern>) -> PhaseSet
        ensures { (p : ℕ) → 1 ≤ p → p ≤ 16 → has result p ≡ is_on_minimum_recall (checked_plan self.now) runs p }
    {
        PhaseSet::from_list(self.pattern_tables.minimum_recall[word_of(runs)])
    }

    /// The phases with maximum recall in effect: their own, or that of their split mode.
    #[inline(always)]
    pub fn on_maximum_recall(&self, runs: Option<Pattern>) -> PhaseSet
        ensures { (p : ℕ) → 1 ≤ p → p ≤ 16 → has result p ≡ is_on_maximum_recall (checked_plan self.now) runs p }
    {
        PhaseSet::from_list(self.pattern_tables.maximum_recall[word_of(runs)])
    }

    /// The phases with pedestrian recall in effect: their own, or that of their split mode.
    #[inline(always)]
    pub fn on_pedestrian_recall(&self, runs: Option<Pattern>) -> PhaseSet
        ensures { (p : ℕ) → 1 ≤ p → p ≤ 16 → has result p ≡ is_on_pedestrian_recall (checked_plan self.now) runs p }
    {
        PhaseSet::from_list(self.pattern_tables.pedestrian_recall[word_of(runs)])
    }

    /// The force-off instant of a phase in a pattern that is used, on the local counter; none for a phase that is not
    /// in use.
    #[inline(always)]
    pub fn force_off(&self, n: Pattern, p: Phase) -> Option<u32>
        requires used { is_used (checked_plan self.now) n ≡ true }
        ensures value { result ≡ force_off (checked_plan self.now) (Some n) p }
        ensures below { IfSome result (λ i. i < cycle (checked_plan self.now) n) }
    {
        instant_at(&self.pattern_tables.instants, n, p)
    }

    /// The tick of the local counter behind the permissive time of a phase in a pattern that is used
    /// (`patternPermissiveTime`); none for a phase that is not coordinated, and where that time is 0.
    #[inline(always)]
    pub fn permissive_end(&self, n: Pattern, p: Phase) -> Option<u32>
        requires used { is_used (checked_plan self.now) n ≡ true }
        ensures value { result ≡ permissive_end (checked_plan self.now) (Some n) p }
        ensures below { IfSome result (λ i. i < cycle (checked_plan self.now) n) }
    {
        if !self.coordinated(Some(n)).contains(p) {
            return None;
        }
        permissive_end_at(
            &self.pattern_tables.instants,
            &self.pattern_tables.ends,
            n,
            p,
            self.plan.cycle(n),
        )
    }

    /// The phases that a pattern that is used forces off at that local counter: at their instant, late
    /// (`coordForceMode`), or in their permissive time (`patternPermissiveTime`).
    #[inline(always)]
    pub fn forced_at(&self, n: Pattern, local: u32) -> PhaseSet
        requires used { is_used (checked_plan self.now) n ≡ true }
        ensures { (p : ℕ) → 1 ≤ p → p ≤ 16 →
            has result p ≡ forces_off (checked_plan self.now) (Some n) (Some local) p }
    {
        forced_in(
            &self.pattern_tables.instants,
            &self.pattern_tables.ends,
            n,
            self.plan.cycle(n),
            local,
        )
    }

    /// The coordinated phases of the pattern that runs with pedestrian recycle (`phasePedestrianRecycle`).
    #[inline(always)]
    fn recycling(&self, runs: Option<Pattern>) -> PhaseSet
        ensures { (p : ℕ) → 1 ≤ p → p ≤ 16 → has result p ≡ may_recycle (checked_plan self.now) runs p }
    {
        PhaseSet::from_list(self.pattern_tables.pedestrian_recycle[word_of(runs)])
    }

    /// Whether a walk and the pedestrian clearance of a phase end by its instant where a pattern that is used has that
    /// local counter.
    fn has_time_to_walk(&self, n: Pattern, local: u32, p: Phase) -> bool
        requires used { is_used (checked_plan self.now) n ≡ true }
        ensures { result ≡ is_left (cycle (checked_plan self.now) n) (walk_and_clearance (checked_plan self.now) p)
            (Some local) (force_off (checked_plan self.now) (Some n) p) }
    {
        let time = recycle::walk_and_clearance(&self.plan, p);
        recycle::is_left(self.plan.cycle(n), time, local, &self.force_off(n, p))
    }

    /// The coordinated phases that a pattern that is used lets walk again within their green at that local counter
    /// (`phasePedestrianRecycle`): of those that it does not force off there, those with time for it up to their
    /// instant.
    #[inline(always)]
    pub fn recycled_at(&self, n: Pattern, local: u32, forced: PhaseSet) -> PhaseSet
        requires used { is_used (checked_plan self.now) n ≡ true }
        ensures { (p : ℕ) → 1 ≤ p → p ≤ 16 → has result p ≡ (may_recycle (checked_plan self.now) (Some n) p
            && (not (has forced p) && is_left (cycle (checked_plan self.now) n)
            (walk_and_clearance (checked_plan self.now) p) (Some local) (force_off (checked_plan self.now) (Some n) p))) }
    {
        let recycling = self.recycling(Some(n));
        if recycling.is_empty() {
            return recycling;
        }
        self.with_time_to_walk(n, local, recycling.difference(forced))
    }

    /// Those of some phases whose walk and pedestrian clearance end by their instant where a pattern that is used has
    /// that local counter.
    fn with_time_to_walk(&self, n: Pattern, local: u32, phases: PhaseSet) -> PhaseSet
        requires used { is_used (checked_plan self.now) n ≡ true }
        ensures { (p : ℕ) → 1 ≤ p → p ≤ 16 → has result p ≡ (has phases p && is_left (cycle (checked_plan self.now) n)
            (walk_and_clearance (checked_plan self.now) p) (Some local) (force_off (checked_plan self.now) (Some n) p)) }
    {
        let mut set = PhaseSet::empty();
        let mut rest = phases;
        while let Some(p) = rest.pop() {
            set = set.with(p, self.has_time_to_walk(n, local, p));
        }
        set
    }

    /// The first tick of the local counter from which no walk of a phase fits any more up to its instant, in a pattern
    /// that is used; none for all but coordinated phases with pedestrian recycle (`phasePedestrianRecycle`).
    pub fn recycle_end(&self, n: Pattern, p: Phase) -> Option<u32>
        requires used { is_used (checked_plan self.now) n ≡ true }
        ensures value { result ≡ recycle_end (checked_plan self.now) (Some n) p }
        ensures below { IfSome result (λ i. i < cycle (checked_plan self.now) n) }
    {
        if !self.recycling(Some(n)).contains(p) {
            return None;
        }
        match self.force_off(n, p) {
            None => None,
            Some(instant) => {
                let time = recycle::walk_and_clearance(&self.plan, p);
                Some(recycle::recycle_end(self.plan.cycle(n), time, instant))
            }
        }
    }

    /// Where on its local counter a pattern that is used waits while it comes into step by dwell
    /// (`coordCorrectionMode` 1): a tick before the instant of the coordinated phase that instants are counted from.
    pub fn waiting_point(&self, n: Pattern) -> u32
        requires used { is_used (checked_plan self.now) n ≡ true }
        ensures value { result ≡ waiting_point (checked_plan self.now) n }
        ensures below { result < cycle (checked_plan self.now) n }
    {
        word_at(&self.pattern_tables.waiting_points, n)
    }

    /// How long after tick 0 the local counter of a pattern that is used is first 0, in tenths of a second: its offset
    /// (`patternOffsetTime`), counted to what `coordReference` says.
    #[inline(always)]
    pub fn offset_in_effect(&self, n: Pattern) -> u32
        requires used { is_used (checked_plan self.now) n ≡ true }
        ensures { result ≡ offset_in_effect (checked_plan self.now) n }
    {
        word_at(&self.pattern_tables.offsets, n)
    }
}
