//! Typed values that are kept in cells.
ghost use Rattle.std.specs.Prelude.{◌≡◌, ℕ, ◌+◌, ◌<◌, ◌≤◌, ◌^◌, ◌⊎◌, true, List, length};
ghost use Rattle.tsb_cells.specs.Row.{row_at};

use crate::bank::Bank;

/// A value kept in `W` cells. What the cells say of its timers depends on the tick at which they are read.
pub trait Layout<const W: usize>: Copy {
    /// The cells of a value, at a tick.
    ghost cells: { ℕ → Self → List ℕ };

    /// The value that a row of cells keeps, at a tick.
    ghost of: { ℕ → List ℕ → Self };

    /// The values that cells can keep at a tick.
    ghost IsBy: { ℕ → Self → Type 0 };

    /// The value that `row` keeps, read at tick `now`.
    fn of_cells(now: u32, row: &[u32; W]) -> Self
        requires { now + 1 < 2 ^ 32 }
        ensures { result ≡ of now row.now };

    /// The cells that keep the value, written at tick `now`.
    fn cells(self, now: u32) -> [u32; W]
        requires fits { now + 1 < 2 ^ 32 }
        requires by { IsBy now self }
        ensures { result ≡ cells now self };

    /// A value that is written and read at the same tick is the same.
    ghost of_its_cells: { (now : ℕ) (value : Self) → IsBy now value → of now (cells now value) ≡ value };

    /// A value takes `W` cells.
    ghost length_cells: { (now : ℕ) (value : Self) → length (cells now value) ≡ W };
}

impl<const N: usize> Bank<N> {
    ghost use Rattle.tsb_cells.specs.Bank.{cells_of, kept_of, is_open};

    /// The value in the `W` cells from `at` on, read at tick `now`. Whatever the cells hold, they give some value.
    pub fn load<const W: usize, L: Layout<W>>(&self, now: u32, at: usize) -> L
        requires room { at + W ≤ N }
        requires fits { now + 1 < 2 ^ 32 }
        ensures { result ≡ L.of now (row_at W (cells_of self.now) at) }
    {
        L::of_cells(now, &self.row(at))
    }

    /// Puts `value` into the `W` cells from `at` on, at tick `now`. All other cells stay as they are. The bank has to
    /// be open.
    pub fn store<const W: usize, L: Layout<W>>(&mut self, now: u32, at: usize, value: L)
        requires room { at + W ≤ N }
        requires fits { now + 1 < 2 ^ 32 }
        requires opened { is_open self.old ≡ true }
        requires by { L.IsBy now value }
        ensures row { row_at W (cells_of self.new) at ≡ L.cells now value }
        ensures stored { L.of now (row_at W (cells_of self.new) at) ≡ value }
        ensures others { (w k : ℕ) → (k + w ≤ at) ⊎ (at + W ≤ k) →
            row_at w (cells_of self.new) k ≡ row_at w (cells_of self.old) k }
        ensures kept { kept_of self.new ≡ kept_of self.old }
        ensures opened { is_open self.new ≡ true }
    {
        self.put_row(at, value.cells(now));
    }
}
