//! Sets of vehicle detectors.
ghost use Rattle.std.specs.Prelude.{◌≡◌, ◌≢◌, ℕ, ◌<◌, ◌≤◌, ◌&&◌, ◌||◌, not, true, false, None, IfSome};
ghost use Rattle.tsb_types.specs.Sets.{names, has_detector, set_of_detectors, size_of_detectors};

use crate::numbers::Detector;

/// A set of vehicle detectors, one bit for each. Two sets with the same detectors are equal.
#[derive(Clone, Copy, PartialEq, Eq)]
pub struct DetectorSet {
    word: u64,
}

impl DetectorSet {
    /// The empty set.
    pub fn empty() -> DetectorSet
        ensures none { (n : ℕ) → has_detector result n ≡ false }
        ensures same { result ≡ set_of_detectors 0 }
    {
        DetectorSet { word: 0 }
    }

    /// The numbers that a list names. A list is the sum of `2^(number - 1)` over its numbers.
    pub fn from_list(list: u64) -> DetectorSet
        ensures named { (n : ℕ) → has_detector result n ≡ names list n }
        ensures same { result ≡ set_of_detectors list }
    {
        DetectorSet { word: list }
    }

    /// The set as a list: the sum of `2^(number - 1)` over its numbers.
    pub fn list(self) -> u64
        ensures { (n : ℕ) → names result n ≡ has_detector self n }
    {
        self.word
    }

    /// Whether the set has no number.
    pub fn is_empty(self) -> bool
        ensures none { result ≡ true → (n : ℕ) → has_detector self n ≡ false }
        ensures some { result ≡ false → (n : ℕ) × (has_detector self n ≡ true) }
    {
        self.first().is_none()
    }

    /// Whether the set has the number, 1 to 64.
    pub fn contains(self, number: u8) -> bool
        requires from_one { 1 ≤ number }
        requires within { number ≤ 64 }
        ensures { result ≡ has_detector self number }
    {
        let bit = number - 1;
        self.word >> bit & 1 == 1
    }

    /// The numbers of both sets.
    pub fn intersection(self, other: DetectorSet) -> DetectorSet
        ensures { (n : ℕ) → has_detector result n ≡ (has_detector self n && has_detector other n) }
    {
        DetectorSet {
            word: self.word & other.word,
        }
    }

    /// The numbers of either set.
    pub fn union(self, other: DetectorSet) -> DetectorSet
        ensures { (n : ℕ) → has_detector result n ≡ (has_detector self n || has_detector other n) }
    {
        DetectorSet {
            word: self.word | other.word,
        }
    }

    /// The numbers of this set that the other does not have.
    pub fn difference(self, other: DetectorSet) -> DetectorSet
        ensures { (n : ℕ) → has_detector result n ≡ (has_detector self n && not (has_detector other n)) }
    {
        DetectorSet {
            word: self.word & !other.word,
        }
    }

    /// The set with the number, 1 to 64, if `on`, and otherwise without it. The others stay.
    pub fn with(self, number: u8, on: bool) -> DetectorSet
        requires from_one { 1 ≤ number }
        requires within { number ≤ 64 }
        ensures set { has_detector result number ≡ on }
        ensures others { (n : ℕ) → n ≢ number → has_detector result n ≡ has_detector self n }
        ensures smaller { on ≡ false → has_detector self number ≡ true →
            size_of_detectors result < size_of_detectors self }
    {
        let bit = number - 1;
        if on {
            DetectorSet {
                word: self.word | 1u64 << bit,
            }
        } else {
            DetectorSet {
                word: self.word & !(1u64 << bit),
            }
        }
    }

    /// The set with the number, 1 to 64, if `on`, for a set that does not have it yet. The others stay. It only ever
    /// adds, so that a loop over all numbers has no chain from one to the next.
    #[inline(always)]
    pub fn joined(self, number: u8, on: bool) -> DetectorSet
        requires from_one { 1 ≤ number }
        requires within { number ≤ 64 }
        requires absent { has_detector self number ≡ false }
        ensures set { has_detector result number ≡ on }
        ensures others { (n : ℕ) → n ≢ number → has_detector result n ≡ has_detector self n }
    {
        if !on { self } else { self.with(number, true) }
    }

    /// The least number of the set, or `None` where it has none.
    pub fn first(self) -> Option<u8>
        ensures none { result ≡ None → (n : ℕ) → has_detector self n ≡ false }
        ensures from_one { IfSome result (λ n. 1 ≤ n) }
        ensures within { IfSome result (λ n. n ≤ 64) }
        ensures had { IfSome result (λ n. has_detector self n ≡ true) }
        ensures least { IfSome result (λ n. (m : ℕ) → m < n → has_detector self m ≡ false) }
    {
        if self.word == 0 {
            None
        } else {
            Some(self.word.trailing_zeros() as u8 + 1)
        }
    }

    /// Takes the detector of the least number out of the set and gives it, or `None` where there is none.
    #[inline(always)]
    pub fn pop_detector(&mut self) -> Option<Detector>
        ensures none { result ≡ None → (d : ℕ) → has_detector self.old d ≡ false }
        ensures from { IfSome result (λ d. 1 ≤ d) }
        ensures within { IfSome result (λ d. d ≤ 64) }
        ensures had { IfSome result (λ d. has_detector self.old d ≡ true) }
        ensures taken { IfSome result (λ d. has_detector self.new d ≡ false) }
        ensures others { IfSome result (λ d. (e : ℕ) → e ≢ d → has_detector self.new e ≡ has_detector self.old e) }
        ensures empty { result ≡ None → self.new ≡ self.old }
        ensures smaller { IfSome result (λ d. size_of_detectors self.new < size_of_detectors self.old) }
    {
        match self.first() {
            None => None,
            Some(number) => {
                *self = self.with(number, false);
                Some(Detector::of(number))
            }
        }
    }
}
