ghost use Rattle.std.specs.Prelude.{◌≡◌, ◌+◌, ◌*◌, ◌<◌, ◌≤◌, ◌↔◌, [], IsTrue, length, slice_get};
ghost use Rattle.tsb_history.specs.Bytes.{entries_at};

use crate::bytes::{four, two};
use crate::entries::Entries;
use crate::kinds::Kind;
use std::marker::Model;

/// One record, lent by its history: what an input was, and each cell that it changed with the value
/// that the cell had before, in the order in which they were pushed.
#[derive(Drop)]
pub struct Record<'a> {
    kind: Kind,
    count: usize,
    bytes: &'a [u8],
    start: usize,
    /// Where the last of its entries ends.
    end: usize,
}

impl<'a> Model for Record<'a> {
    ghost use Rattle.std.specs.Prelude.{length, ◌≡◌, ◌+◌, ◌*◌, ◌≤◌, ◌<◌};
    ghost use Rattle.tsb_history.specs.History.{Change};
    ghost use Rattle.tsb_history.specs.Bytes.{entries_at};

    ghost Value = { Change };

    ghost view = { λ a. record { kind = a.kind; entries = entries_at a.count a.bytes.now a.start } };

    ghost invariant = { λ a. (a.count < 65536) × (a.start + 6 * a.count ≡ a.end) × (a.end ≤ length a.bytes.now) };
}

impl<'a> Record<'a> {
    // The record whose `count` entries begin at `start` and end at `end`.
    pub(crate) fn of(kind: Kind, count: usize, bytes: &'a [u8], start: usize, end: usize) -> Self
        requires few { count < 65536 }
        requires whole { start + 6 * count ≡ end }
        requires within { end ≤ length bytes.now }
        ensures { result ≡ record { kind = kind; entries = entries_at count bytes.now start } }
    {
        Record {
            kind,
            count,
            bytes,
            start,
            end,
        }
    }

    /// What the input was.
    pub fn kind(&self) -> Kind
        ensures { result ≡ self.now.kind }
    {
        self.kind
    }

    /// How many cells it changed, at most 65,535.
    pub fn len(&self) -> usize
        ensures count { result ≡ length self.now.entries }
        ensures few { result < 65536 }
    {
        self.count
    }

    /// Whether it changed no cell.
    pub fn is_empty(&self) -> bool
        ensures { IsTrue result ↔ (self.now.entries ≡ []) }
    {
        self.len() == 0
    }

    /// Its entries, in the order in which they were pushed.
    #[inline(always)]
    pub fn entries(&self) -> Entries<'a>
        ensures { result ≡ self.now.entries }
    {
        Entries::of(self.bytes, self.start, self.end)
    }

    /// The entry at an index from 0: the cell, and the value that it had before. `None` from
    /// `len()` on.
    pub fn entry(&self, index: usize) -> Option<(u16, u32)>
        ensures { result ≡ slice_get self.now.entries index }
    {
        if index < self.count {
            let place = self.start + 6 * index;
            Some((two(self.bytes, place), four(self.bytes, place + 2)))
        } else {
            None
        }
    }
}
