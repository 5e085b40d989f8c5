//! Records of inputs: how they are spelled, and how they are taken back.

use std::alloc::{AllocError, Global};
use std::test::Fail;
use tsb_history::{History, Kind};

/// Pushes a record, or answers that there is no memory for it.
fn push(history: &mut History, kind: Kind, entries: &[(u16, u32)]) -> Result<(), AllocError> {
    if entries.len() < 65_536 {
        history.reserve(entries.len())?;
        history.push(kind, entries);
    }
    Ok(())
}

/// What the records below spell.
const SPELLED: [u8; 21] = [
    0x00, 0x00, 0x00, 0x04, 0x00, 0x00, 0x05, 0x00, 0x01, 0x00, 0x00, 0x00, 0x2C, 0x01, 0x00, 0x00,
    0x01, 0x00, 0x00, 0x02, 0x00,
];

/// Three records; the first two have no change.
fn three(alloc: Global) -> Result<History, AllocError> {
    let mut history = History::new(alloc);
    push(&mut history, Kind::Tick, &[])?;
    push(&mut history, Kind::Reset, &[])?;
    push(&mut history, Kind::Tick, &[(5, 1), (300, 65536)])?;
    Ok(history)
}

/// A kind, how many changes there are, and the first two of them.
type Told = (Kind, usize, Option<(u16, u32)>, Option<(u16, u32)>);

/// The changes of the records, the newest first.
fn told(alloc: Global, history: &History) -> Result<Vec<Told>, AllocError> {
    let mut found = Vec::new(alloc);
    for record in history.walk_back() {
        found.push((
            record.kind(),
            record.len(),
            record.entry(0),
            record.entry(1),
        ))?;
    }
    Ok(found)
}

/// Whether those of the records that have no change say so.
fn tell_whether_they_are_empty(history: &History) -> bool {
    for record in history.walk_back() {
        if record.is_empty() != (record.len() == 0) {
            return false;
        }
    }
    true
}

/// The changes of the three records.
const TOLD: [Told; 3] = [
    (Kind::Tick, 2, Some((5, 1)), Some((300, 65536))),
    (Kind::Reset, 0, None, None),
    (Kind::Tick, 0, None, None),
];

/// Whether the records have these changes, the newest first.
fn tell(alloc: Global, history: &History, wanted: &[Told]) -> bool {
    match told(alloc, history) {
        Ok(found) => found.as_slice() == wanted,
        Err(_) => false,
    }
}

/// Whether the three records have their bytes and their changes.
fn are_spelled_and_told(alloc: Global, history: &History) -> bool {
    spells(history, &SPELLED)
        && tell(alloc, history, &TOLD)
        && tell_whether_they_are_empty(history)
        && newest(history) == Some((Kind::Tick, Some((300, 65536)), None))
}

#[test]
fn spells_and_walks_back(rt: HostRuntime) -> Result<(), Fail> {
    let history = three(rt.alloc())?;
    assert!(rt; are_spelled_and_told(rt.alloc(), &history));
    Ok(())
}

fn spells(history: &History, bytes: &[u8]) -> bool {
    history.bytes() == bytes
}

/// The kind of the newest record, with its second and third change.
fn newest(history: &History) -> Option<(Kind, Option<(u16, u32)>, Option<(u16, u32)>)> {
    let record = history.last()?;
    Some((record.kind(), record.entry(1), record.entry(2)))
}

/// Whether the three records are taken back, and nothing is left.
fn are_taken_back(history: &mut History) -> bool {
    history.len() == 3
        && history.pop() == Some(Kind::Tick)
        && spells(history, &SPELLED[..6])
        && history.pop() == Some(Kind::Reset)
        && history.pop() == Some(Kind::Tick)
        && history.pop() == None
        && history.is_empty()
}

#[test]
fn takes_back(rt: HostRuntime) -> Result<(), Fail> {
    let mut history = three(rt.alloc())?;
    assert!(rt; are_taken_back(&mut history));
    Ok(())
}

/// Records of quiet ticks before and after a reset and a tick that changed a cell, the newest last.
fn with_quiet_ticks(alloc: Global) -> Result<History, AllocError> {
    let mut history = History::new(alloc);
    push(&mut history, Kind::Tick, &[])?;
    push(&mut history, Kind::Reset, &[])?;
    push(&mut history, Kind::Tick, &[])?;
    push(&mut history, Kind::Tick, &[(0, 0)])?;
    for _i in 0..3 {
        push(&mut history, Kind::Tick, &[])?;
    }
    Ok(history)
}

/// Whether quiet ticks are taken away up to the number that is given, and up to the record of another input.
fn are_taken_at_once(history: &mut History) -> bool {
    history.pop_quiet(0) == 0
        && history.pop_quiet(2) == 2
        && history.len() == 5
        && history.pop_quiet(9) == 1
        && history.pop_quiet(9) == 0
        && history.pop() == Some(Kind::Tick)
        && history.pop_quiet(9) == 1
        && history.pop() == Some(Kind::Reset)
        && history.pop_quiet(1) == 1
        && history.pop_quiet(1) == 0
        && history.is_empty()
}

/// How many quiet ticks a walk passes, the kind of the record behind them, and how many it passes behind that.
fn passed(history: &History) -> (usize, Option<Kind>, usize) {
    let mut records = history.walk_back();
    let newest = records.skip_quiet();
    let behind = match records.next() {
        Some(record) => Some(record.kind()),
        None => None,
    };
    (newest, behind, records.skip_quiet())
}

#[test]
fn takes_quiet_ticks_at_once(rt: HostRuntime) -> Result<(), Fail> {
    let mut history = with_quiet_ticks(rt.alloc())?;
    assert!(rt; passed(&history) == (3, Some(Kind::Tick), 1));
    assert!(rt; are_taken_at_once(&mut history));
    Ok(())
}

/// Whether a copy of the history has the same records, and so many.
fn is_copied(alloc: Global, history: &History, count: usize) -> bool {
    match history.clone_in(alloc) {
        Ok(copy) => {
            copy.bytes() == history.bytes() && copy.len() == count && history.len() == count
        }
        Err(_) => false,
    }
}

#[test]
fn finds_memory(rt: HostRuntime) -> Result<(), Fail> {
    let mut history = History::new(rt.alloc());
    history.reserve(10)?;
    assert!(rt; history.pop() == None && is_copied(rt.alloc(), &history, 0));
    push(&mut history, Kind::Commit, &[(65535, 4294967295)])?;
    assert!(rt; is_copied(rt.alloc(), &history, 1));
    Ok(())
}

/// Whether a record of this kind spells the code of its kind, and is taken back.
fn keeps(history: &mut History, kind: Kind, code: u8) -> bool {
    push(history, kind, &[]).is_ok()
        && spells(history, &[code, 0, 0])
        && history.pop() == Some(kind)
}

#[test]
fn keeps_each_kind(rt: HostRuntime) {
    let kinds = [
        (0, Kind::Tick),
        (1, Kind::Pattern),
        (2, Kind::Switch),
        (3, Kind::Fault),
        (4, Kind::Reset),
        (5, Kind::Begin),
        (6, Kind::Set),
        (7, Kind::Verify),
        (8, Kind::Commit),
        (9, Kind::Abort),
        (10, Kind::Clock),
    ];
    let mut history = History::new(rt.alloc());
    for (code, kind) in kinds {
        assert!(rt; keeps(&mut history, kind, code));
    }
}
