//! Unions of sets of phases, each found by two reads.

ghost use Rattle.std.specs.Prelude.{◌≡◌, ℕ, ◌+◌, ◌-◌, ◌<◌, ◌≤◌, ◌&&◌, Bool, length, slice_index};
ghost use Rattle.tsb_objects.specs.Unions.{AreUnions, AreOfEight, AreWideUnions};
ghost use Rattle.tsb_types.specs.Lists.{some_passes, run_from};
ghost use Rattle.tsb_types.specs.Sets.{names, has, has_detector, has_number};
ghost use Rattle.tsb_types.specs.declared.limits.TheConstants.{VEHICLE_DETECTORS};

use tsb_types::limits::VEHICLE_DETECTORS;
use tsb_types::{DetectorSet, NumberSet, PhaseSet};

/// How many sets there are of 8 numbers.
const SETS: u16 = 256;

/// The union of any of 16 sets of phases, which have the numbers 1 to 16. Each array has a word for each set of 8
/// numbers, as a list: the list of the phases in the set of one of these numbers.
#[derive(Clone, Copy)]
pub struct Unions {
    /// The unions of sets 1 to 8.
    low: [u16; 256],
    /// The unions of sets 9 to 16.
    high: [u16; 256],
}

impl Unions {
    /// The unions of these sets of phases, as lists.
    pub(crate) fn new(sets: &[u16; 16]) -> Unions
        ensures { (test : ℕ → ℕ → Bool) →
            ((n p : ℕ) → 1 ≤ n → n ≤ 16 → 1 ≤ p → p ≤ 16 → names (slice_index sets.now (n - 1)) p ≡ test n p) → AreUnions test result }
    {
        Unions {
            low: unions_of_eight(sets, 0),
            high: unions_of_eight(sets, 8),
        }
    }

    /// The phases that are in the set of one of these numbers.
    #[inline(always)]
    pub(crate) fn of(&self, numbers: NumberSet) -> PhaseSet
        ensures { (test : ℕ → ℕ → Bool) → AreUnions test self.now → (p : ℕ) → 1 ≤ p → p ≤ 16 →
            has result p ≡ some_passes (λ n. has_number numbers n && test n p) (run_from 1 16) }
    {
        let list = numbers.list();
        let low = self.low[usize::from(list % SETS)];
        let high = self.high[usize::from(list / SETS)];
        PhaseSet::from_list(low).union(PhaseSet::from_list(high))
    }
}

/// How many eights of vehicle detectors there are.
const EIGHTS: usize = VEHICLE_DETECTORS as usize / 8;

/// The union of any of as many sets of phases as there are vehicle detectors, which have their numbers.
#[derive(Clone, Copy)]
pub struct WideUnions {
    /// For detectors 1 to 8, for 9 to 16, and so on: a word for each set of the eight, as a list.
    eights: [[u16; 256]; EIGHTS],
}

impl WideUnions {
    /// The unions of these sets of phases, as lists.
    pub(crate) fn new(sets: &[u16; VEHICLE_DETECTORS as usize]) -> WideUnions
        ensures { (test : ℕ → ℕ → Bool) →
            ((d p : ℕ) → 1 ≤ d → d ≤ VEHICLE_DETECTORS → 1 ≤ p → p ≤ 16 → names (slice_index sets.now (d - 1)) p ≡ test d p) →
            AreWideUnions test result }
    {
        let mut eights = [[0; 256]; EIGHTS];
        for k in 0..EIGHTS {
            eights[k] = unions_of_eight(sets, 8 * k);
        }
        WideUnions { eights }
    }

    /// The phases that are in the set of one of these detectors.
    #[inline(always)]
    pub(crate) fn of(&self, detectors: DetectorSet) -> PhaseSet
        ensures { (test : ℕ → ℕ → Bool) → AreWideUnions test self.now → (p : ℕ) → 1 ≤ p → p ≤ 16 →
            has result p ≡ some_passes (λ d. has_detector detectors d && test d p) (run_from 1 VEHICLE_DETECTORS) }
    {
        let mut phases = PhaseSet::empty();
        let mut rest = detectors.list();
        for k in 0..EIGHTS {
            if rest == 0 {
                return phases;
            }
            let word = self.eights[k][(rest % 256) as usize];
            phases = phases.union(PhaseSet::from_list(word));
            rest /= 256;
        }
        phases
    }
}

/// For each set of numbers from 1 to 8, as a list, the phases in the set of one of them, as a list: number 1 stands for
/// the set after the first `before`. With each number the words so far are made once more, with its set besides.
fn unions_of_eight<const N: usize>(sets: &[u16; N], before: usize) -> [u16; 256]
    requires { before + 8 ≤ N }
    ensures full { length result ≡ 256 }
    ensures told { (k p : ℕ) → k < 256 →
        names (slice_index result k) p ≡ some_passes (λ n. names k n && names (slice_index sets.now (before + (n - 1))) p) (run_from 1 8) }
{
    let mut unions = [0; 256];
    let mut made = 1usize;
    for place in 0..8usize {
        let set = sets[before + place];
        for k in 0..made {
            unions[made + k] = unions[k] | set;
        }
        made *= 2;
    }
    unions
}
