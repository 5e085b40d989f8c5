//! What display lines show, what remains of them, and the events of their changes. Expected values are worked by hand
//! from the rules.

use std::alloc::{AllocError, Global};
use tsb_field_display::{Replay, Shown, Signals, events_between, read_line};
use tsb_types::NumberSet;

/// Phase 2 red and then green, with a walk, and overlap 1.
const RED: &[u8] = b"0000001 -R-R------------ -D-------------- R--- 0 ----";

const GREEN: &[u8] = b"0000002 -G-R------------ -W-------------- G--- 0 ----";

const CLEARING: &[u8] = b"0000045 -G-R------------ -C-------------- G--- 2 0759";

const YELLOW: &[u8] = b"0000101 -Y-R------------ -D-------------- Y--- 2 ----";

const FLASH: &[u8] = b"0000102 -F-F------------ ---------------- F--- 2 ----";

/// Phase 16 green, with overlap 4 yellow, at the last tick.
const LAST: &[u8] = b"6000000 ---------------G ---------------W ---Y 4 0000";

fn set(list: u16) -> NumberSet {
    NumberSet::from_list(list)
}

/// Code and parameter of each event of a change, with the ticks of all.
fn told(
    alloc: Global,
    before: Option<Shown>,
    line: &[u8],
) -> Result<Vec<(u32, u8, u8)>, AllocError> {
    let mut all = Vec::new(alloc);
    let Some(now) = read_line(line, false) else {
        return Ok(all);
    };
    let signals = match before {
        Some(shown) => shown.signals,
        None => Signals::nothing_lit(),
    };
    for event in events_between(&signals, &now).as_slice() {
        all.push((event.tick, event.code, event.parameter))?;
    }
    Ok(all)
}

/// Whether this is shown of the line in which a pedestrian phase clears.
fn shows_clearing(shown: &Shown) -> bool {
    let signals = &shown.signals;
    shown.tick == 45
        && signals.vehicles.greens == set(2)
        && signals.vehicles.yellows == set(0)
        && signals.vehicles.reds == set(8)
        && signals.vehicles.flashing == set(0)
        && signals.pedestrians.walks == set(0)
        && signals.pedestrians.clearances == set(2)
        && signals.pedestrians.dont_walks == set(0)
        && signals.overlaps.greens == set(1)
        && signals.preempt == Some(2)
}

/// Whether this is shown of the line at the last tick.
fn shows_last(shown: &Shown) -> bool {
    let signals = &shown.signals;
    shown.tick == 6_000_000
        && signals.vehicles.greens == set(32_768)
        && signals.pedestrians.walks == set(32_768)
        && signals.overlaps.yellows == set(8)
        && signals.preempt == Some(4)
}

#[test]
fn lines_show_their_heads(rt: HostRuntime) {
    let (Some(clearing), Some(last)) = (read_line(CLEARING, false), read_line(LAST, false)) else {
        panic!(rt; "nothing is shown");
    };
    assert!(rt; shows_clearing(&clearing) && shows_last(&last));
}

/// A wide line: overlaps 1 and 16 green, overlap 5 yellow, and preempt 8 in service.
const WIDE: &[u8] = b"0000045 -G-R------------ -C-------------- G--- 8 0759 G---Y----------G";

/// Whether this is shown of the wide line.
fn shows_wide(shown: &Shown) -> bool {
    let signals = &shown.signals;
    shown.tick == 45
        && signals.vehicles.greens == set(2)
        && signals.pedestrians.clearances == set(2)
        && signals.overlaps.greens == set(32_769)
        && signals.overlaps.yellows == set(16)
        && signals.preempt == Some(8)
}

#[test]
fn wide_lines_show_all_overlaps(rt: HostRuntime) {
    let Some(wide) = read_line(WIDE, true) else {
        panic!(rt; "nothing is shown");
    };
    assert!(rt; shows_wide(&wide));
    assert!(rt; read_line(WIDE, false).is_none() && read_line(CLEARING, true).is_none());
}

/// Answers that are no display lines.
const OTHERS: [&[u8]; 12] = [
    b"",
    b"ok",
    b"undone tick",
    b"tick 0000031",
    b"0000001 -R-R------------ -D-------------- R--- 0 ---- ",
    b"000000x -R-R------------ -D-------------- R--- 0 ----",
    b"0000001 -R-W------------ -D-------------- R--- 0 ----",
    b"0000001 -R-R------------ -G-------------- R--- 0 ----",
    b"0000001 -R-R------------ -D-------------- D--- 0 ----",
    b"0000001 -R-R------------ -D-------------- R--- 9 ----",
    b"0000001 -R-R------------ -D-------------- R--- 0 07--",
    b"0000001 -R-R-------------D--------------- R--- 0 ----",
];

/// Whether none of the answers shows anything.
fn show_nothing(all: &[&[u8]]) -> bool {
    for line in all {
        if read_line(line, false) != None {
            return false;
        }
    }
    true
}

#[test]
fn other_answers_show_nothing(rt: HostRuntime) {
    assert!(rt; show_nothing(&OTHERS));
}

/// Whether these are the ticks, codes and parameters of the events of a change between two lines.
fn tells(alloc: Global, before: &[u8], line: &[u8], wanted: &[(u32, u8, u8)]) -> bool {
    match told(alloc, read_line(before, false), line) {
        Ok(all) => all.as_slice() == wanted,
        Err(_) => false,
    }
}

/// Whether changes between signals have their events.
fn tells_of_signals(alloc: Global) -> bool {
    tells(alloc, b"", RED, &[])
        && tells(alloc, RED, GREEN, &[(2, 1, 2), (2, 21, 2), (2, 61, 1)])
        && tells(alloc, GREEN, CLEARING, &[(45, 22, 2), (45, 105, 2)])
        && tells(
            alloc,
            CLEARING,
            YELLOW,
            &[(101, 7, 2), (101, 8, 2), (101, 23, 2), (101, 63, 1)],
        )
}

/// Whether flash and the numbers at the end of their range have their events.
fn tells_of_flash_and_last(alloc: Global) -> bool {
    tells(
        alloc,
        YELLOW,
        FLASH,
        &[(102, 9, 2), (102, 64, 1), (102, 173, 6)],
    ) && tells(alloc, FLASH, RED, &[(1, 173, 2)])
        && tells(
            alloc,
            b"",
            LAST,
            &[
                (6_000_000, 1, 16),
                (6_000_000, 21, 16),
                (6_000_000, 63, 4),
                (6_000_000, 105, 4),
            ],
        )
        && tells(alloc, LAST, LAST, &[])
}

#[test]
fn changes_have_their_events(rt: HostRuntime) {
    assert!(rt; tells_of_signals(rt.alloc()) && tells_of_flash_and_last(rt.alloc()));
}

/// An arrow that is red beside a green phase.
const ARROW_RED: &[u8] = b"0000097 -G-------------- ---------------- R--- 0 ----";

/// It flashes yellow.
const ARROW_FLASHES: &[u8] = b"0000021 -G-------------- ---------------- P--- 0 ----";

/// It is yellow.
const ARROW_YELLOW: &[u8] = b"0000061 -G-------------- ---------------- Y--- 0 ----";

/// All heads flash red.
const ARROW_TRIPS: &[u8] = b"0000061 -F-------------- ---------------- F--- 0 ----";

/// Whether an arrow has its own events where it begins to flash yellow and ends, and those of an overlap.
fn tells_of_arrows(alloc: Global) -> bool {
    tells(alloc, ARROW_RED, ARROW_FLASHES, &[(21, 32, 1)])
        && tells(
            alloc,
            ARROW_FLASHES,
            ARROW_YELLOW,
            &[(61, 33, 1), (61, 63, 1)],
        )
        && tells(alloc, ARROW_YELLOW, ARROW_RED, &[(97, 64, 1)])
        && tells(alloc, ARROW_YELLOW, ARROW_FLASHES, &[(21, 32, 1)])
        && tells(
            alloc,
            ARROW_FLASHES,
            ARROW_TRIPS,
            &[(61, 7, 2), (61, 33, 1), (61, 64, 1), (61, 173, 6)],
        )
}

#[test]
fn arrows_have_their_events(rt: HostRuntime) {
    assert!(rt; tells_of_arrows(rt.alloc()));
}

fn at(tick: u32, line: &[u8]) -> Shown {
    Shown {
        tick,
        signals: match read_line(line, false) {
            Some(shown) => shown.signals,
            None => Signals::nothing_lit(),
        },
    }
}

/// Pushes these in turn.
fn push(replay: &mut Replay, all: &[Shown]) -> Result<(), AllocError> {
    for shown in all {
        replay.push(*shown)?;
    }
    Ok(())
}

/// Whether the replay has these changes, and this last tick.
fn has(replay: &Replay, changes: &[Shown], last: Option<u32>) -> bool {
    replay.changes() == changes && replay.last_tick() == last
}

/// Whether a replay in which nothing was shown keeps changes, and not what shows the same again.
fn keeps_changes(replay: &mut Replay) -> Result<bool, AllocError> {
    let is_empty = has(replay, &[], None);
    push(replay, &[at(1, RED), at(2, GREEN), at(3, GREEN)])?;
    push(replay, &[at(4, YELLOW), at(5, YELLOW)])?;
    let wanted = [at(1, RED), at(2, GREEN), at(4, YELLOW)];
    Ok(is_empty && has(replay, &wanted, Some(5)))
}

/// Whether that replay takes changes back where ticks go back.
fn takes_changes_back(replay: &mut Replay) -> Result<bool, AllocError> {
    push(replay, &[at(4, GREEN)])?;
    let is_kept = has(replay, &[at(1, RED), at(2, GREEN)], Some(4));
    push(replay, &[at(2, RED), at(3, FLASH)])?;
    let is_changed = has(replay, &[at(1, RED), at(3, FLASH)], Some(3));
    push(replay, &[at(0, RED)])?;
    Ok(is_kept && is_changed && has(replay, &[at(0, RED)], Some(0)))
}

#[test]
fn a_replay_keeps_the_changes_that_remain(rt: HostRuntime) -> Result<(), AllocError> {
    let mut replay = Replay::new(rt.alloc());
    assert!(rt; keeps_changes(&mut replay)? && takes_changes_back(&mut replay)?);
    Ok(())
}
