ghost use Rattle.std.specs.Prelude.{◌≡◌, ◌≢◌, ◌+◌, ◌<◌, ◌≤◌, ◌↔◌, ◌∷◌, [], All, Some, drop, length, min, OnOk, OnErr, IfOk, IsTrue};
ghost use Rattle.tsb_history.specs.Bytes.{bytes_of};
ghost use Rattle.tsb_history.specs.History.{newest, newest_at, newest_kind, newest_start, older, quiet_ticks, record_size, size_of, FitsRecord};

use crate::bytes::{QUIET, quiet_before, read_record, write_record};
use crate::kinds::Kind;
use crate::record::Record;
use crate::walk::WalkBack;
use std::alloc::{AllocError, Global};
use std::marker::Model;

/// For how many more bytes a history asks where it has to grow, so that it does not grow again at the next record.
const SPARE: usize = 2048;

/// The records of the inputs that were not undone. Callers see the list of the records, the newest
/// first, and for how many bytes of further records there is memory.
#[derive(Drop)]
pub struct History {
    count: usize,
    bytes: Vec<u8>,
}

impl Model for History {
    ghost use Rattle.std.specs.Prelude.{vec_len, vec_capacity, length, ◌-◌};
    ghost use Rattle.tsb_history.specs.History.{Recorded};
    ghost use Rattle.tsb_history.specs.Bytes.{changes_at, IsKept};

    ghost Value = { Recorded };

    ghost view = { λ a. record {
      records = changes_at a.count a.bytes.items (length a.bytes.items);
      room = vec_capacity a.bytes - vec_len a.bytes;
    } };

    ghost invariant = { λ a. IsKept a.count a.bytes.items };
}

impl History {
    /// A history with no records, and with room for none. It takes no memory.
    pub fn new(alloc: Global) -> Self
        ensures records { result.records ≡ [] }
        ensures room { result.room ≡ 0 }
    {
        History {
            count: 0,
            bytes: Vec::new(alloc),
        }
    }

    /// Makes room for a record of `cells` entries, at most 65,535. The records stay, whatever the
    /// answer, and the room is never less. An `Err` says that memory ran out, and leaves the history
    /// as it was; it comes only where the room was not there already.
    pub fn reserve(&mut self, cells: usize) -> Result<(), AllocError>
        requires { cells < 65536 }
        ensures ok { OnOk result (record_size cells ≤ self.new.room) }
        ensures room { self.old.room ≤ self.new.room }
        ensures same { self.new.records ≡ self.old.records }
        ensures err { OnErr result (self.new ≡ self.old) }
        ensures wanting { OnErr result (self.old.room < record_size cells) }
    {
        let size = 6 * cells + 3;
        if size <= self.bytes.capacity() - self.bytes.len() {
            return Ok(());
        }
        self.bytes.reserve(size + SPARE)
    }

    /// Puts a record on top: an input's kind, and its entries, each a cell with the value that the
    /// cell had before, in ascending order of the cells. There are at most 65,535, and a `reserve`
    /// has made room for them. It takes no more of the room than the bytes of the record.
    pub fn push(&mut self, kind: Kind, entries: &[(u16, u32)])
        requires room { record_size (length entries.now) ≤ self.old.room }
        requires few { length entries.now < 65536 }
        ensures records { self.new.records ≡ record { kind = kind; entries = entries.now } ∷ self.old.records }
        ensures room { self.old.room ≤ self.new.room + record_size (length entries.now) }
    {
        self.count += 1;
        write_record(&mut self.bytes, kind, entries);
    }

    /// The newest record, with the place of its first byte in `bytes`. There has to be one.
    #[inline(always)]
    pub fn newest(&self) -> (Record<'_>, usize)
        requires { self.now.records ≢ [] }
        ensures newest { newest_at self.now.records ≡ Some result }
        ensures fits { All FitsRecord self.now.records }
    {
        read_record(&self.bytes, self.bytes.len())
    }

    /// The newest record, or `None` where there is no record.
    pub fn last(&self) -> Option<Record<'_>>
        ensures newest { result ≡ newest self.now.records }
        ensures fits { All FitsRecord self.now.records }
    {
        if self.is_empty() {
            return None;
        }
        let (record, _) = self.newest();
        Some(record)
    }

    /// Takes the newest record away and gives its kind. `None` says that there is no record, and leaves the history as
    /// it was. It takes no memory, and gives none back: there is more room, by the bytes of the record.
    pub fn pop(&mut self) -> Option<Kind>
        ensures kind { result ≡ newest_kind self.old.records }
        ensures rest { self.new.records ≡ older self.old.records }
        ensures room { size_of self.new.records + self.new.room ≡ size_of self.old.records + self.old.room }
    {
        if self.is_empty() {
            return None;
        }
        let (record, start) = self.newest();
        let kind = record.kind();
        self.pop_from(start);
        Some(kind)
    }

    /// Takes the newest record away, as `pop` does. The caller has read it, and knows from `newest` where it begins, so
    /// that it is not looked for again.
    #[inline(always)]
    pub fn pop_from(&mut self, start: usize)
        requires start { newest_start self.old.records ≡ Some start }
        ensures rest { self.new.records ≡ older self.old.records }
        ensures room { size_of self.new.records + self.new.room ≡ size_of self.old.records + self.old.room }
    {
        self.bytes.truncate(start);
        self.count -= 1;
    }

    /// Takes the newest records away that are those of quiet ticks, in which no cell changed, `most` of them at most. It
    /// gives the number of those that it took. It takes no memory, and gives none back: their bytes become room.
    #[inline(always)]
    pub fn pop_quiet(&mut self, most: usize) -> usize
        ensures count { result ≡ min most (quiet_ticks self.old.records) }
        ensures rest { self.new.records ≡ drop result self.old.records }
        ensures room { size_of self.new.records + self.new.room ≡ size_of self.old.records + self.old.room }
    {
        let end = self.bytes.len();
        let quiet = quiet_before(self.count, &self.bytes, end, most);
        if quiet == 0 {
            return 0;
        }
        self.bytes.truncate(end - QUIET * quiet);
        self.count -= quiet;
        quiet
    }

    /// How many records there are. Each has at most 65,535 entries, with cells below 65,536 and old
    /// values below 2^32.
    pub fn len(&self) -> usize
        ensures count { result ≡ length self.now.records }
        ensures fits { All FitsRecord self.now.records }
    {
        self.count
    }

    /// Whether there is no record.
    pub fn is_empty(&self) -> bool
        ensures { IsTrue result ↔ (self.now.records ≡ []) }
    {
        self.count == 0
    }

    /// The bytes of the records, the oldest first. A record is its entries, then its kind in one
    /// byte, then the number of its entries in two; an entry is its cell in two bytes and the old
    /// value in four. All numbers have their least byte first.
    pub fn bytes(&self) -> &[u8]
        ensures bytes { result.now ≡ bytes_of self.now.records }
        ensures size { length result.now ≡ size_of self.now.records }
    {
        self.bytes.as_slice()
    }

    /// The records from the newest to the oldest.
    pub fn walk_back(&self) -> WalkBack<'_>
        ensures records { result ≡ self.now.records }
        ensures fits { All FitsRecord self.now.records }
    {
        WalkBack::of(self.count, self.bytes.as_slice(), self.bytes.len())
    }

    /// A history of the same records in memory of its own. An `Err` says that memory ran out. How
    /// much room it has is not said: reserve before a push.
    pub fn clone_in(&self, alloc: Global) -> Result<History, AllocError>
        ensures { IfOk result (λ h. h.records ≡ self.now.records) }
    {
        Ok(History {
            count: self.count,
            bytes: Vec::from_slice(alloc, self.bytes.as_slice())?,
        })
    }
}
