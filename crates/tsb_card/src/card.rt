//! A card: pairs of channels.
ghost use Rattle.std.specs.Prelude.{◌≡◌, ℕ, ◌≤◌, ◌&&◌, ◌||◌, ◌==◌, false};
ghost use Rattle.tsb_card.specs.Card.{permits};

use tsb_types::NumberSet;

/// How many channels a monitor has.
pub const CHANNELS: u8 = 16;

/// A card: of each channel, the higher channels that are permissive with it.
#[derive(Clone, Copy)]
pub struct Card {
    pub(crate) rows: [NumberSet; CHANNELS as usize],
}

impl Card {
    /// A card on which no pair is permissive.
    pub(crate) fn blank() -> Card
        ensures { (a b : ℕ) → permits result a b ≡ false }
    {
        Card {
            rows: [NumberSet::empty(); CHANNELS as usize],
        }
    }

    /// Whether two channels are permissive, the lower one first.
    pub fn has(&self, lower: u8, higher: u8) -> bool
        requires lower_from { 1 ≤ lower }
        requires lower_to { lower ≤ 16 }
        requires higher_from { 1 ≤ higher }
        requires higher_to { higher ≤ 16 }
        ensures { result ≡ permits self.now lower higher }
    {
        self.rows[usize::from(lower) - 1].contains(higher)
    }

    /// The card on which two other channels are permissive too, the lower one first.
    pub(crate) fn with(self, lower: u8, higher: u8) -> Card
        requires lower_from { 1 ≤ lower }
        requires lower_to { lower ≤ 16 }
        requires higher_from { 1 ≤ higher }
        requires higher_to { higher ≤ 16 }
        ensures { (a b : ℕ) → permits result a b ≡ (permits self a b || (a == lower && b == higher)) }
    {
        let mut rows = self.rows;
        let place = usize::from(lower) - 1;
        let row = rows[place];
        rows[place] = row.with(higher, true);
        Card { rows }
    }
}
