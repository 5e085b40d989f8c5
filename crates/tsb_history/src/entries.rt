ghost use Rattle.std.specs.Prelude.{◌≡◌, ◌+◌, ◌*◌, ◌≤◌, length};
ghost use Rattle.std.specs.Iterator.{YieldsFirst, item_count};
ghost use Rattle.tsb_history.specs.Bytes.{entries_at, entries_within};

use crate::bytes::{ENTRY, four, two};
use std::marker::Model;

/// The entries of a record in the order in which they were pushed, lent and not copied: each a cell
/// with the value that it had before. Callers see the list of those that are still to come.
#[derive(Drop)]
pub struct Entries<'a> {
    bytes: &'a [u8],
    at: usize,
    /// Where the last of them ends.
    end: usize,
}

impl<'a> Model for Entries<'a> {
    ghost use Rattle.std.specs.Prelude.{List, ℕ, length, ◌≡◌, ◌+◌, ◌*◌, ◌≤◌};
    ghost use Rattle.tsb_history.specs.Bytes.{entries_at, entries_within};

    ghost Value = { List (ℕ × ℕ) };

    ghost view = { λ a. entries_at (entries_within a.at a.end) a.bytes.now a.at };

    ghost invariant = { λ a. (a.at + 6 * entries_within a.at a.end ≡ a.end) × (a.end ≤ length a.bytes.now) };
}

impl<'a> Entries<'a> {
    // The entries from the place `at` up to `end`, which they fill.
    #[inline(always)]
    pub(crate) fn of(bytes: &'a [u8], at: usize, end: usize) -> Self
        requires whole { at + 6 * entries_within at end ≡ end }
        requires within { end ≤ length bytes.now }
        ensures { result ≡ entries_at (entries_within at end) bytes.now at }
    {
        Entries { bytes, at, end }
    }

    /// The same entries, to be gone through beside these.
    #[inline(always)]
    pub fn copy(&self) -> Entries<'a>
        ensures { result ≡ self.now }
    {
        Entries {
            bytes: self.bytes,
            at: self.at,
            end: self.end,
        }
    }
}

impl<'a> Iterator for Entries<'a> {
    type Item = (u16, u32);

    ghost next_gives = { YieldsFirst (λ s. s) };

    ghost remaining = { item_count (λ s. s) };

    #[inline(always)]
    fn next(&mut self) -> Option<(u16, u32)> {
        if self.at >= self.end {
            return None;
        }
        let entry = (two(self.bytes, self.at), four(self.bytes, self.at + 2));
        self.at += ENTRY;
        Some(entry)
    }
}
