//! What a checked plan says of all its phases at once.
#![tactic(auto, unfolding(tsb_plan::specs::PlanOf::plan_of, crate::specs::Checked::checked_plan))]

ghost use Rattle.std.specs.Prelude.{◌≡◌, ℕ, ◌≤◌, ◌==◌, ◌&&◌, not};
ghost use Rattle.tsb_objects.specs.Checked.{checked_plan};
ghost use Rattle.tsb_rules.specs.Rules.{has_walk};
ghost use Rattle.tsb_plan.specs.Plan.{is_enabled, is_non_locking, has_soft_recall, has_dual_entry, ring_of, side_of, is_concurrent};
ghost use Rattle.tsb_types.specs.Lists.{some_passes, run_from};
ghost use Rattle.tsb_types.specs.Sets.{has};

use crate::checked::Checked;
use tsb_types::{NumberSet, Phase, PhaseSet, Ring, Side};

impl Checked {
    /// The phases that are in use (`phaseEnabled`).
    #[inline(always)]
    pub fn enabled(&self) -> PhaseSet
        ensures { (p : ℕ) → has result p ≡ is_enabled (checked_plan self.now) p }
    {
        self.phase_tables.enabled
    }

    /// The phases that do not lock their calls (`phaseNonLock`), in use or not.
    #[inline(always)]
    pub fn non_locking(&self) -> PhaseSet
        ensures { (p : ℕ) → has result p ≡ is_non_locking (checked_plan self.now) p }
    {
        self.phase_tables.non_locking
    }

    /// The phases with soft recall (`phaseSoftRecall`), in use or not.
    #[inline(always)]
    pub fn soft_recall(&self) -> PhaseSet
        ensures { (p : ℕ) → has result p ≡ has_soft_recall (checked_plan self.now) p }
    {
        self.phase_tables.soft_recall
    }

    /// The phases with dual entry (`phaseDualEntry`), in use or not.
    #[inline(always)]
    pub fn dual_entry(&self) -> PhaseSet
        ensures { (p : ℕ) → has result p ≡ has_dual_entry (checked_plan self.now) p }
    {
        self.phase_tables.dual_entry
    }

    /// The phases with a walk (`phaseWalk` over 0), in use or not.
    #[inline(always)]
    pub fn with_walk(&self) -> PhaseSet
        ensures { (p : ℕ) → has result p ≡ has_walk (checked_plan self.now) p }
    {
        self.phase_tables.with_walk
    }

    /// The phases of a ring (`phaseRing`), in use or not.
    #[inline(always)]
    pub fn ring(&self, r: Ring) -> PhaseSet
        ensures { (p : ℕ) → has result p ≡ (ring_of (checked_plan self.now) p == r) }
    {
        PhaseSet::from_list(self.phase_tables.rings[usize::from(r.number()) - 1])
    }

    /// The phases on a side of the barriers (`phaseSide`), in use or not.
    #[inline(always)]
    pub fn side(&self, d: Side) -> PhaseSet
        ensures { (p : ℕ) → has result p ≡ (side_of (checked_plan self.now) p == d) }
    {
        PhaseSet::from_list(self.phase_tables.sides[usize::from(d.number()) - 1])
    }

    /// The phases that name a phase as concurrent with them (`phaseConcurrency`): by rule K5 they are those
    /// that it names.
    #[inline(always)]
    pub fn concurrent_to(&self, q: Phase) -> PhaseSet
        ensures column { (p : ℕ) → has result p ≡ is_concurrent (checked_plan self.now) p q }
        ensures row { (p : ℕ) → has result p ≡ is_concurrent (checked_plan self.now) q p }
    {
        q.known();
        self.plan.concurrency(q)
    }

    /// The phases that are not concurrent with some other phase of a set (`phaseConcurrency`).
    #[inline(always)]
    pub fn in_conflict_with(&self, phases: PhaseSet) -> PhaseSet
        ensures { (p : ℕ) → 1 ≤ p → p ≤ 16 → has result p
            ≡ some_passes (λ q. has phases q && (not (q == p) && not (is_concurrent (checked_plan self.now) p q))) (run_from 1 16) }
    {
        let numbers = NumberSet::from_list(phases.list());
        self.union_tables.conflicts.of(numbers)
    }
}
