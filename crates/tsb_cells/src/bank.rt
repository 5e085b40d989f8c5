//! A row of cells that knows which part of it was written.
ghost use Rattle.std.specs.Prelude.{◌≡◌, ◌≢◌, ℕ, ◌+◌, ◌*◌, ◌/◌, ◌^◌, ◌<◌, ◌≤◌, ◌++◌, true, false, length, slice_index, slice_set, replicate, take, drop};
ghost use Rattle.arrayvec.specs.ArrayVec.{array_vec_len};
ghost use Rattle.tsb_cells.specs.Blocks.{is_unmarked, kept_in, block_changes};
ghost use Rattle.tsb_cells.specs.Diff.{diff, shifted};
ghost use Rattle.tsb_cells.specs.Row.{row_at, with_row};

use crate::diff::Diff;
use crate::reversible::Reversible;
use arrayvec::ArrayVec;

/// How many blocks a bank has at most: one for each bit of the word that marks those written.
const BLOCKS: usize = 64;

/// `N` cells, and what they held at the last `open`.
///
/// What the cells of a block held is kept when the first of them is written, and `written` marks the block. So `open`
/// copies nothing, `close` compares only the cells of these blocks, and an undo writes each cell once.
#[derive(Clone, Copy)]
pub struct Bank<const N: usize> {
    cells: [u32; N],
    /// What the cells of the blocks that `written` marks held at the last `open`.
    before: [u32; N],
    written: u64,
    is_open: bool,
    ghost indexed: { N ≤ 65536 },
    ghost cells_full: { length cells ≡ N },
    ghost before_full: { length before ≡ N },
    ghost kept_full: { length (kept_in N written cells before) ≡ N },
    ghost none_closed: { is_open ≡ false → written ≡ 0 },
    ghost same_closed: { is_open ≡ false → cells ≡ kept_in N written cells before },
}

impl<const N: usize> Bank<N> {
    ghost use Rattle.tsb_cells.specs.Bank.{cells_of, kept_of, is_open};

    /// A closed bank with 0 in each cell.
    pub fn new() -> Self
        requires { N ≤ 65536 }
        ensures cells { cells_of result ≡ replicate N 0 }
        ensures closed { is_open result ≡ false }
    {
        Bank {
            cells: [0; N],
            before: [0; N],
            written: 0,
            is_open: false,
        }
    }

    /// The value of the cell `at`.
    pub fn get(&self, at: usize) -> u32
        requires { at < N }
        ensures { result ≡ slice_index (cells_of self.now) at }
    {
        self.cells[at]
    }

    /// Puts `value` into the cell `at`. The bank has to be open.
    pub fn put(&mut self, at: usize, value: u32)
        requires in_range { at < N }
        requires opened { is_open self.old ≡ true }
        ensures cells { cells_of self.new ≡ slice_set (cells_of self.old) at value }
        ensures here { slice_index (cells_of self.new) at ≡ value }
        ensures others { (j : ℕ) → j ≢ at → slice_index (cells_of self.new) j ≡ slice_index (cells_of self.old) j }
        ensures kept { kept_of self.new ≡ kept_of self.old }
        ensures opened { is_open self.new ≡ true }
    {
        if self.cells[at] != value {
            self.keep_block(at / Self::block());
            self.cells[at] = value;
        }
    }

    /// The `W` cells from `at` on.
    pub fn row<const W: usize>(&self, at: usize) -> [u32; W]
        requires { at + W ≤ N }
        ensures { result ≡ row_at W (cells_of self.now) at }
    {
        let mut row = [0; W];
        let cells = &self.cells[..];
        row.copy_from_slice(&cells[at..at + W]);
        row
    }

    /// The `count` cells from `at` on, lent.
    pub fn part(&self, at: usize, count: usize) -> &[u32]
        requires { at + count ≤ N }
        ensures cells { result.now ≡ row_at count (cells_of self.now) at }
        ensures full { length result.now ≡ count }
    {
        let cells = &self.cells[..];
        &cells[at..at + count]
    }

    /// Puts `row` into the cells from `at` on. The bank has to be open.
    pub fn put_row<const W: usize>(&mut self, at: usize, row: [u32; W])
        requires in_range { at + W ≤ N }
        requires opened { is_open self.old ≡ true }
        ensures cells { cells_of self.new ≡ with_row (cells_of self.old) at row.entry }
        ensures kept { kept_of self.new ≡ kept_of self.old }
        ensures opened { is_open self.new ≡ true }
    {
        for k in 0..W {
            self.put(at + k, row[k]);
        }
    }

    /// Ends a change as `close` does, and adds each cell that differs to `out`, with what it held at `open`: the cell 0
    /// has the number `offset` there. It builds no list of its own.
    pub fn close_onto<const M: usize>(&mut self, out: &mut ArrayVec<(u16, u32), M>, offset: u16)
        requires opened { is_open self.old ≡ true }
        requires fits { offset + N ≤ 2 ^ 16 }
        requires room { array_vec_len out.old + N ≤ M }
        ensures changes { out.new.items ≡ out.old.items ++ shifted offset (diff (kept_of self.old) (cells_of self.old)) }
        ensures len { array_vec_len out.new ≤ array_vec_len out.old + N }
        ensures cells { cells_of self.new ≡ cells_of self.old }
        ensures closed { is_open self.new ≡ false }
    {
        let mut rest = self.written;
        while rest != 0 {
            let block = rest.trailing_zeros();
            self.add_block(block as usize, out, offset);
            rest &= !(1 << block);
        }
        self.written = 0;
        self.is_open = false;
    }

    /// How many cells stand in a block.
    #[inline(always)]
    fn block() -> usize
        ensures { result ≡ N / 64 + 1 }
    {
        N / BLOCKS + 1
    }

    /// Keeps what the cells of a block hold, and marks it, unless it is marked already.
    #[inline(always)]
    fn keep_block(&mut self, block: usize)
        requires opened { is_open self.old ≡ true }
        requires within { block < 64 }
        ensures marked { (k : ℕ) → k / (N / 64 + 1) ≡ block → is_unmarked N self.new.written k ≡ false }
        ensures cells { cells_of self.new ≡ cells_of self.old }
        ensures kept { kept_of self.new ≡ kept_of self.old }
        ensures opened { is_open self.new ≡ true }
    {
        if (self.written >> block) & 1 != 0 {
            return;
        }
        let first = block * Self::block();
        for k in 0..Self::block() {
            let i = first + k;
            if i < N {
                self.before[i] = self.cells[i];
            }
        }
        self.written |= 1 << block;
    }

    /// Adds each cell of the block `block` that differs from what is kept of it to `out`, with what is kept.
    #[inline(always)]
    fn add_block<const M: usize>(
        &self,
        block: usize,
        out: &mut ArrayVec<(u16, u32), M>,
        offset: u16,
    )
        requires within { block < 64 }
        requires fits { offset + N ≤ 2 ^ 16 }
        requires room { array_vec_len out.old + length (block_changes N block self.now.before self.now.cells) ≤ M }
        ensures { out.new.items ≡ out.old.items ++ shifted offset (block_changes N block self.now.before self.now.cells) }
    {
        let first = block * Self::block();
        for k in 0..Self::block() {
            let i = first + k;
            if i < N && self.before[i] != self.cells[i] {
                out.push((offset + i as u16, self.before[i]));
            }
        }
    }
}

impl<const N: usize> Reversible<N> for Bank<N> {
    ghost use Rattle.tsb_cells.specs.Bank.{kept_of};

    ghost cells = { λ b. b.cells };

    ghost kept = { λ b. kept_of b };

    ghost is_open = { λ b. b.is_open };

    ghost allows = { λ row. length row ≡ N };

    ghost indexed = { λ b. b.indexed };

    ghost length_cells = { λ b. b.cells_full };

    ghost length_kept = { λ b. b.kept_full };

    ghost cells_allowed = { λ b. b.cells_full };

    ghost kept_allowed = { λ b. b.kept_full };

    fn open(&mut self) {
        self.is_open = true;
    }

    fn close(&mut self) -> Diff<N> {
        let mut changes = ArrayVec::new();
        self.close_onto(&mut changes, 0);
        changes
    }

    fn undo(&mut self, changes: &[(u16, u32)]) {
        for (cell, old) in changes {
            self.undo_cell(*cell as usize, *old);
        }
    }

    #[inline(always)]
    fn undo_cell(&mut self, at: usize, old: u32) {
        self.cells[at] = old;
    }
}
