//! The entries of one row of cells in a record: found, collected, put back.
ghost use Rattle.std.specs.Prelude.{◌≡◌, ◌≢◌, ℕ, ◌+◌, ◌≤◌, ◌&&◌, ◌∷◌, nat_le, nat_lt, true, false, [], List, length};
ghost use Rattle.tsb_cells.specs.Diff.{apply_diff, part};

use arrayvec::ArrayVec;
use tsb_cells::{Diff, Reversible};
use tsb_history::{Entries, Record};

/// Whether it is one of the `count` cells from `offset` on.
fn is_one_of(cell: u16, offset: u16, count: usize) -> bool
    requires { offset + count ≤ 65536 }
    ensures value { result ≡ (nat_le offset cell && nat_lt cell (offset + count)) }
    ensures from { result ≡ true → offset ≤ cell }
{
    offset <= cell && (cell as usize) < offset as usize + count
}

/// Whether one of these entries is of one of the `count` cells from `offset` on.
#[inline(always)]
pub fn touches(mut entries: Entries<'_>, offset: u16, count: usize) -> bool
    requires { offset + count ≤ 65536 }
    ensures untouched { result ≡ false → part offset count entries.entry ≡ [] }
    ensures touched { result ≡ true → part offset count entries.entry ≢ [] }
{
    while let Some((cell, _)) = entries.next() {
        if is_one_of(cell, offset, count) {
            return true;
        }
    }
    false
}

/// Those of these entries that are of the `N` cells from `offset` on, numbered from 0.
pub fn part_of<const N: usize>(mut entries: Entries<'_>, offset: u16) -> Diff<N>
    requires fits { offset + N ≤ 65536 }
    requires few { length (part offset N entries) ≤ N }
    ensures { result.items ≡ part offset N entries.entry }
{
    let mut part = ArrayVec::new();
    while let Some((cell, old)) = entries.next() {
        if is_one_of(cell, offset, N) {
            part.push((cell - offset, old));
        }
    }
    part
}

/// Puts back what one entry of a record says, if it is of a row whose `N` cells are those from `offset` on, and says
/// whether it is. The row has to be closed, and to take any values.
#[inline(always)]
pub fn undo_entry<const N: usize, R: Reversible<N>>(
    row: &mut R,
    cell: u16,
    old: u32,
    offset: u16,
) -> bool
    requires indexed { N ≤ 65536 }
    requires fits { offset + N ≤ 65536 }
    requires closed { R.is_open row.old ≡ false }
    requires free { (cells : List ℕ) → length cells ≡ N → R.allows cells }
    ensures cells { R.cells row.new ≡ apply_diff (R.cells row.old) (part offset N ((cell, old) ∷ [])) }
    ensures closed { R.is_open row.new ≡ false }
    ensures is { result ≡ (nat_le offset cell && nat_lt cell (offset + N)) }
    ensures other { result ≡ false → row.new ≡ row.old }
{
    if !is_one_of(cell, offset, N) {
        return false;
    }
    row.undo_cell(cell as usize - offset as usize, old);
    true
}

/// Puts back what the record says of a row whose `N` cells are those from `offset` on, and says whether it has an entry
/// of them. The row has to be closed, and to take any values. It builds no list of the entries.
#[inline(always)]
pub fn undo_part<const N: usize, R: Reversible<N>>(
    row: &mut R,
    change: &Record<'_>,
    offset: u16,
) -> bool
    requires indexed { N ≤ 65536 }
    requires fits { offset + N ≤ 65536 }
    requires closed { R.is_open row.old ≡ false }
    requires free { (cells : List ℕ) → length cells ≡ N → R.allows cells }
    ensures cells { R.cells row.new ≡ apply_diff (R.cells row.old) (part offset N change.now.entries) }
    ensures closed { R.is_open row.new ≡ false }
    ensures untouched { result ≡ false → row.new ≡ row.old }
    ensures touched { result ≡ true → part offset N change.now.entries ≢ [] }
{
    let mut touched = false;
    let mut entries = change.entries();
    while let Some((cell, old)) = entries.next() {
        if undo_entry(row, cell, old, offset) {
            touched = true;
        }
    }
    touched
}
