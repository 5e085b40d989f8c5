//! Sets of numbers from 1 to 16.
ghost use Rattle.std.specs.Prelude.{◌≡◌, ◌≢◌, ℕ, ◌<◌, ◌≤◌, ◌&&◌, ◌||◌, not, true, false, None, IfSome};
ghost use Rattle.tsb_types.specs.Sets.{names, has_number, set_of_list, size_of_numbers};

/// A set of numbers from 1 to 16, one bit for each. Two sets with the same numbers are equal.
#[derive(Clone, Copy, PartialEq, Eq)]
pub struct NumberSet {
    word: u16,
}

impl NumberSet {
    /// The empty set.
    pub fn empty() -> NumberSet
        ensures none { (n : ℕ) → has_number result n ≡ false }
        ensures same { result ≡ set_of_list 0 }
    {
        NumberSet { word: 0 }
    }

    /// The numbers that a list names. A list is the sum of `2^(number - 1)` over its numbers.
    pub fn from_list(list: u16) -> NumberSet
        ensures named { (n : ℕ) → has_number result n ≡ names list n }
        ensures same { result ≡ set_of_list list }
    {
        NumberSet { word: list }
    }

    /// The set as a list: the sum of `2^(number - 1)` over its numbers.
    pub fn list(self) -> u16
        ensures { (n : ℕ) → names result n ≡ has_number self n }
    {
        self.word
    }

    /// Whether the set has no number.
    pub fn is_empty(self) -> bool
        ensures none { result ≡ true → (n : ℕ) → has_number self n ≡ false }
        ensures some { result ≡ false → (n : ℕ) × (has_number self n ≡ true) }
    {
        self.first().is_none()
    }

    /// Whether the set has the number, 1 to 16.
    pub fn contains(self, number: u8) -> bool
        requires from_one { 1 ≤ number }
        requires within { number ≤ 16 }
        ensures { result ≡ has_number self number }
    {
        let bit = number - 1;
        self.word >> bit & 1 == 1
    }

    /// The numbers of both sets.
    pub fn intersection(self, other: NumberSet) -> NumberSet
        ensures { (n : ℕ) → has_number result n ≡ (has_number self n && has_number other n) }
    {
        NumberSet {
            word: self.word & other.word,
        }
    }

    /// The numbers of either set.
    pub fn union(self, other: NumberSet) -> NumberSet
        ensures { (n : ℕ) → has_number result n ≡ (has_number self n || has_number other n) }
    {
        NumberSet {
            word: self.word | other.word,
        }
    }

    /// The numbers of this set that the other does not have.
    pub fn difference(self, other: NumberSet) -> NumberSet
        ensures { (n : ℕ) → has_number result n ≡ (has_number self n && not (has_number other n)) }
    {
        NumberSet {
            word: self.word & !other.word,
        }
    }

    /// The set with the number, 1 to 16, if `on`, and otherwise without it. The others stay.
    pub fn with(self, number: u8, on: bool) -> NumberSet
        requires from_one { 1 ≤ number }
        requires within { number ≤ 16 }
        ensures set { has_number result number ≡ on }
        ensures others { (n : ℕ) → n ≢ number → has_number result n ≡ has_number self n }
        ensures smaller { on ≡ false → has_number self number ≡ true →
            size_of_numbers result < size_of_numbers self }
    {
        let bit = number - 1;
        if on {
            NumberSet {
                word: self.word | 1 << bit,
            }
        } else {
            NumberSet {
                word: self.word & !(1 << bit),
            }
        }
    }

    /// The set with the number, 1 to 16, if `on`, for a set that does not have it yet. The others stay. It only ever
    /// adds, so that a loop over all numbers has no chain from one to the next.
    #[inline(always)]
    pub fn joined(self, number: u8, on: bool) -> NumberSet
        requires from_one { 1 ≤ number }
        requires within { number ≤ 16 }
        requires absent { has_number self number ≡ false }
        ensures set { has_number result number ≡ on }
        ensures others { (n : ℕ) → n ≢ number → has_number result n ≡ has_number self n }
    {
        if !on { self } else { self.with(number, true) }
    }

    /// The least number of the set, or `None` where it has none.
    pub fn first(self) -> Option<u8>
        ensures none { result ≡ None → (n : ℕ) → has_number self n ≡ false }
        ensures from_one { IfSome result (λ n. 1 ≤ n) }
        ensures within { IfSome result (λ n. n ≤ 16) }
        ensures had { IfSome result (λ n. has_number self n ≡ true) }
        ensures least { IfSome result (λ n. (m : ℕ) → m < n → has_number self m ≡ false) }
    {
        if self.word == 0 {
            None
        } else {
            Some(self.word.trailing_zeros() as u8 + 1)
        }
    }
}
