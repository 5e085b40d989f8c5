ghost use Rattle.std.specs.Prelude.{◌≡◌, ◌≤◌, drop, length};
ghost use Rattle.std.specs.Iterator.{YieldsFirst, item_count};
ghost use Rattle.tsb_history.specs.Bytes.{IsLaid, changes_at};
ghost use Rattle.tsb_history.specs.History.{quiet_ticks};

use crate::bytes::{QUIET, quiet_before, read_record};
use crate::record::Record;
use std::marker::Model;

/// The records of a history from the newest to the oldest, lent and not copied.
/// Callers see the list of those that are still to come.
#[derive(Drop)]
pub struct WalkBack<'a> {
    count: usize,
    bytes: &'a [u8],
    end: usize,
}

impl<'a> Model for WalkBack<'a> {
    ghost use Rattle.std.specs.Prelude.{List, length, ◌≤◌};
    ghost use Rattle.tsb_history.specs.History.{Change};
    ghost use Rattle.tsb_history.specs.Bytes.{changes_at, IsLaid};

    ghost Value = { List Change };

    ghost view = { λ a. changes_at a.count a.bytes.now a.end };

    ghost invariant = { λ a. (a.end ≤ length a.bytes.now) × IsLaid a.count a.bytes.now a.end };
}

impl<'a> WalkBack<'a> {
    // The `count` records that fill the bytes before `end`.
    pub(crate) fn of(count: usize, bytes: &'a [u8], end: usize) -> Self
        requires within { end ≤ length bytes.now }
        requires laid { IsLaid count bytes.now end }
        ensures { result ≡ changes_at count bytes.now end }
    {
        WalkBack { count, bytes, end }
    }

    /// Passes over the records that come next as long as they are those of quiet ticks, in which no cell changed, and
    /// says how many it passed.
    #[inline(always)]
    pub fn skip_quiet(&mut self) -> usize
        ensures count { result ≡ quiet_ticks self.old }
        ensures rest { self.new ≡ drop result self.old }
    {
        let quiet = quiet_before(self.count, self.bytes, self.end, self.count);
        if quiet == 0 {
            return 0;
        }
        self.end -= QUIET * quiet;
        self.count -= quiet;
        quiet
    }
}

impl<'a> Iterator for WalkBack<'a> {
    type Item = Record<'a>;

    ghost next_gives = { YieldsFirst (λ s. s) };

    ghost remaining = { item_count (λ s. s) };

    fn next(&mut self) -> Option<Record<'a>> {
        if self.count == 0 {
            return None;
        }
        let (change, start) = read_record(self.bytes, self.end);
        self.count -= 1;
        self.end = start;
        Some(change)
    }
}
