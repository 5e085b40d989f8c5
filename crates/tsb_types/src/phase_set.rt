//! Sets of phases.
ghost use Rattle.std.specs.Prelude.{◌≡◌, ◌≢◌, ℕ, ◌<◌, ◌≤◌, ◌&&◌, ◌||◌, not, true, false, None, IfSome};
ghost use Rattle.tsb_types.specs.Lists.{first, run_from};
ghost use Rattle.tsb_types.specs.Sets.{names, has, size};

use crate::number_set::NumberSet;
use crate::numbers::Phase;

/// A set of phases, one bit for each. Two sets with the same phases are equal.
///
/// `pop` goes over the phases in ascending order: `while let Some(phase) = rest.pop()` on a copy.
#[derive(Clone, Copy, PartialEq, Eq)]
pub struct PhaseSet {
    numbers: NumberSet,
}

impl PhaseSet {
    /// The empty set.
    pub fn empty() -> PhaseSet
        ensures { (p : ℕ) → has result p ≡ false }
    {
        PhaseSet {
            numbers: NumberSet::empty(),
        }
    }

    /// The phases that a list names, as `phaseConcurrency` has it: the sum of `2^(phase - 1)` over its
    /// phases (profile).
    pub fn from_list(list: u16) -> PhaseSet
        ensures { (p : ℕ) → has result p ≡ names list p }
    {
        PhaseSet {
            numbers: NumberSet::from_list(list),
        }
    }

    /// The set as a list: the sum of `2^(phase - 1)` over its phases (profile).
    pub fn list(self) -> u16
        ensures { (p : ℕ) → names result p ≡ has self p }
    {
        self.numbers.list()
    }

    /// Whether the set has no phase.
    pub fn is_empty(self) -> bool
        ensures none { result ≡ true → (p : ℕ) → has self p ≡ false }
        ensures some { result ≡ false → (p : ℕ) × (has self p ≡ true) }
    {
        self.numbers.is_empty()
    }

    /// Whether the set has the phase.
    pub fn contains(self, phase: Phase) -> bool
        ensures { result ≡ has self phase }
    {
        self.numbers.contains(phase.number())
    }

    /// The phases of both sets.
    pub fn intersection(self, other: PhaseSet) -> PhaseSet
        ensures { (p : ℕ) → has result p ≡ (has self p && has other p) }
    {
        PhaseSet {
            numbers: self.numbers.intersection(other.numbers),
        }
    }

    /// The phases of either set.
    pub fn union(self, other: PhaseSet) -> PhaseSet
        ensures { (p : ℕ) → has result p ≡ (has self p || has other p) }
    {
        PhaseSet {
            numbers: self.numbers.union(other.numbers),
        }
    }

    /// The phases of this set that the other does not have.
    pub fn difference(self, other: PhaseSet) -> PhaseSet
        ensures { (p : ℕ) → has result p ≡ (has self p && not (has other p)) }
    {
        PhaseSet {
            numbers: self.numbers.difference(other.numbers),
        }
    }

    /// The set with the phase if `on`, and otherwise without it. The others stay.
    pub fn with(self, phase: Phase, on: bool) -> PhaseSet
        ensures set { has result phase ≡ on }
        ensures others { (p : ℕ) → p ≢ phase → has result p ≡ has self p }
        ensures smaller { on ≡ false → has self phase ≡ true → size result < size self }
    {
        PhaseSet {
            numbers: self.numbers.with(phase.number(), on),
        }
    }

    /// The set with the phase if `on`, for a set that does not have it yet. The others stay. It only ever adds, so that
    /// a loop over all phases has no chain from one to the next.
    #[inline(always)]
    pub fn joined(self, phase: Phase, on: bool) -> PhaseSet
        requires { has self phase ≡ false }
        ensures set { has result phase ≡ on }
        ensures others { (p : ℕ) → p ≢ phase → has result p ≡ has self p }
    {
        if on { self.with(phase, true) } else { self }
    }

    /// Puts the phase into the set. The others stay.
    pub fn insert(&mut self, phase: Phase)
        ensures set { has self.new phase ≡ true }
        ensures others { (p : ℕ) → p ≢ phase → has self.new p ≡ has self.old p }
    {
        *self = self.with(phase, true);
    }

    /// The least phase of the set, or `None` where it has none.
    pub fn first(self) -> Option<Phase>
        ensures none { result ≡ None → (p : ℕ) → has self p ≡ false }
        ensures from { IfSome result (λ p. 1 ≤ p) }
        ensures within { IfSome result (λ p. p ≤ 16) }
        ensures had { IfSome result (λ p. has self p ≡ true) }
        ensures least { IfSome result (λ p. (q : ℕ) → q < p → has self q ≡ false) }
        ensures found { result ≡ first (has self) (run_from 1 16) }
    {
        match self.numbers.first() {
            Some(number) => Some(Phase::of(number)),
            None => None,
        }
    }

    /// Takes the least phase out of the set and gives it, or `None` where there is none.
    pub fn pop(&mut self) -> Option<Phase>
        ensures none { result ≡ None → (p : ℕ) → has self.old p ≡ false }
        ensures from { IfSome result (λ p. 1 ≤ p) }
        ensures within { IfSome result (λ p. p ≤ 16) }
        ensures had { IfSome result (λ p. has self.old p ≡ true) }
        ensures least { IfSome result (λ p. (q : ℕ) → q < p → has self.old q ≡ false) }
        ensures taken { IfSome result (λ p. has self.new p ≡ false) }
        ensures others { IfSome result (λ p. (q : ℕ) → q ≢ p → has self.new q ≡ has self.old q) }
        ensures empty { result ≡ None → self.new ≡ self.old }
        ensures smaller { IfSome result (λ p. size self.new < size self.old) }
    {
        match self.first() {
            Some(phase) => {
                *self = self.with(phase, false);
                Some(phase)
            }
            None => None,
        }
    }
}
