//! What can be opened, changed, closed with a record of the changes, and put back by that record.
ghost use Rattle.std.specs.Prelude.{◌≡◌, ℕ, List, Bool, true, false, ◌<◌, ◌≤◌, ◌∷◌, [], length};
ghost use Rattle.tsb_cells.specs.Diff.{diff, apply_diff, AreWithin};

use crate::diff::Diff;

/// A state that is kept in `N` cells.
///
/// Its cells change only between `open` and `close`. `close` gives the cells that differ, and `undo` puts their
/// old values back.
pub trait Reversible<const N: usize> {
    /// The cells now.
    ghost cells: { Self → List ℕ };

    /// The cells at the last `open`.
    ghost kept: { Self → List ℕ };

    /// Whether the cells may be written.
    ghost is_open: { Self → Bool };

    /// The rows of cells that the type allows.
    ghost allows: { List ℕ → Type 0 };

    /// Begins a change: from here on the cells may be written.
    fn open(&mut self)
        requires { is_open self.old ≡ false }
        ensures cells { cells self.new ≡ cells self.old }
        ensures kept { kept self.new ≡ cells self.old }
        ensures opened { is_open self.new ≡ true };

    /// Ends a change, and gives each cell that differs from what it held at `open`, with what it held.
    fn close(&mut self) -> Diff<N>
        requires { is_open self.old ≡ true }
        ensures changes { result.items ≡ diff (kept self.old) (cells self.old) }
        ensures in_range { AreWithin N result.items }
        ensures cells { cells self.new ≡ cells self.old }
        ensures closed { is_open self.new ≡ false };

    /// Puts the value of each entry back into its cell. The row that this gives has to be one that the type allows.
    fn undo(&mut self, changes: &[(u16, u32)])
        requires closed { is_open self.old ≡ false }
        requires in_range { AreWithin N changes.now }
        requires allowed { allows (apply_diff (cells self.old) changes.now) }
        ensures cells { cells self.new ≡ apply_diff (cells self.old) changes.now }
        ensures closed { is_open self.new ≡ false };

    /// Puts `old` back into the cell `at`, as `undo` does with one entry.
    fn undo_cell(&mut self, at: usize, old: u32)
        requires closed { is_open self.old ≡ false }
        requires in_range { at < N }
        requires allowed { allows (apply_diff (cells self.old) ((at, old) ∷ [])) }
        ensures cells { cells self.new ≡ apply_diff (cells self.old) ((at, old) ∷ []) }
        ensures closed { is_open self.new ≡ false };

    /// Each cell has a number of 16 bits.
    ghost indexed: { (s : Self) → N ≤ 65536 };

    /// A state has `N` cells, and keeps as many.
    ghost length_cells: { (s : Self) → length (cells s) ≡ N };

    ghost length_kept: { (s : Self) → length (kept s) ≡ N };

    /// A state's own rows are among those that the type allows.
    ghost cells_allowed: { (s : Self) → allows (cells s) };

    ghost kept_allowed: { (s : Self) → allows (kept s) };
}

/// Takes back what was changed since `open`, and closes.
pub fn abandon<const N: usize, R: Reversible<N>>(layer: &mut R)
    requires indexed { N ≤ 65536 }
    requires opened { R.is_open layer.old ≡ true }
    ensures cells { R.cells layer.new ≡ R.kept layer.old }
    ensures closed { R.is_open layer.new ≡ false }
{
    let changes = layer.close();
    layer.undo(changes.as_slice());
}
