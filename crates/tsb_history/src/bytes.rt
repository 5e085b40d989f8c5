ghost use Rattle.std.specs.Prelude.{◌≡◌, ◌+◌, ◌*◌, ◌<◌, ◌≤◌, ◌++◌, All, length, min, vec_len, vec_capacity};
ghost use Rattle.tsb_history.specs.Bytes.{entry_bytes, record_bytes, two_at, four_at, IsLaid, IsRecordAt, start_at, change_at, changes_at};
ghost use Rattle.tsb_history.specs.History.{FitsEntry, is_quiet, quiet_ticks};

use crate::kinds::Kind;
use crate::record::Record;

// The number in the two bytes at a place, least first.
pub fn two(bytes: &[u8], at: usize) -> u16
    requires { at + 2 ≤ length bytes.now }
    ensures { result ≡ two_at bytes.now at }
{
    u16::from_le_bytes([bytes[at], bytes[at + 1]])
}

// The number in the four bytes at a place, least first.
pub fn four(bytes: &[u8], at: usize) -> u32
    requires { at + 4 ≤ length bytes.now }
    ensures { result ≡ four_at bytes.now at }
{
    u32::from_le_bytes([bytes[at], bytes[at + 1], bytes[at + 2], bytes[at + 3]])
}

fn write_entry(bytes: &mut Vec<u8>, cell: u16, old: u32)
    requires { vec_len bytes.old + 6 ≤ vec_capacity bytes.old }
    ensures items { bytes.new.items ≡ bytes.old.items ++ entry_bytes (cell, old) }
    ensures len { vec_len bytes.new ≡ vec_len bytes.old + 6 }
    ensures capacity { vec_capacity bytes.old ≤ vec_capacity bytes.new }
{
    let [c0, c1] = cell.to_le_bytes();
    let [o0, o1, o2, o3] = old.to_le_bytes();
    let _ = bytes.extend_from_slice(&[c0, c1, o0, o1, o2, o3]);
}

// Writes a record at the end, where there is room for it.
pub fn write_record(bytes: &mut Vec<u8>, kind: Kind, entries: &[(u16, u32)])
    requires room { vec_len bytes.old + 6 * length entries.now + 3 ≤ vec_capacity bytes.old }
    requires few { length entries.now < 65536 }
    ensures items { bytes.new.items ≡ bytes.old.items ++ record_bytes (record { kind = kind; entries = entries.now }) }
    ensures fits { All FitsEntry entries.now }
    ensures capacity { vec_capacity bytes.old ≤ vec_capacity bytes.new }
{
    for i in 0..entries.len() {
        let (cell, old) = entries[i];
        write_entry(bytes, cell, old);
    }
    let [low, high] = (entries.len() as u16).to_le_bytes();
    let _ = bytes.extend_from_slice(&[kind.code(), low, high]);
}

// The record that ends before a place, and where it begins.
#[inline(always)]
pub fn read_record(bytes: &[u8], end: usize) -> (Record<'_>, usize)
    requires within { end ≤ length bytes.now }
    requires whole { IsRecordAt bytes.now end }
    ensures change { result.0 ≡ change_at bytes.now end }
    ensures start { result.1 ≡ start_at bytes.now end }
{
    let count = two(bytes, end - 2) as usize;
    let start = end - (6 * count + 3);
    let kind = Kind::of_code(bytes[end - 3]);
    (Record::of(kind, count, bytes, start, end - 3), start)
}

// The bytes of the record of a quiet tick.
pub const QUIET: usize = 3;

// The bytes of an entry.
pub const ENTRY: usize = 6;

// Whether the record that ends before a place is that of a quiet tick.
#[inline(always)]
fn is_quiet(bytes: &[u8], end: usize) -> bool
    requires within { end ≤ length bytes.now }
    requires whole { IsRecordAt bytes.now end }
    ensures { result ≡ is_quiet (change_at bytes.now end) }
{
    // Most other records have entries.
    if two(bytes, end - 2) != 0 {
        return false;
    }
    matches!(Kind::of_code(bytes[end - 3]), Kind::Tick)
}

// How many of the `count` records that end before a place, the newest ones first, are those of quiet ticks; at most
// `most`. Each has `QUIET` bytes.
#[inline(always)]
pub fn quiet_before(count: usize, bytes: &[u8], end: usize, most: usize) -> usize
    requires within { end ≤ length bytes.now }
    requires laid { IsLaid count bytes.now end }
    ensures { result ≡ min most (quiet_ticks (changes_at count bytes.now end)) }
{
    // Where the newest is none of them, no more is looked at.
    if count == 0 || !is_quiet(bytes, end) {
        return 0;
    }
    let most = count.min(most);
    let mut quiet = 0;
    let mut at = end;
    while quiet < most && is_quiet(bytes, at) {
        quiet += 1;
        at -= QUIET;
    }
    quiet
}
