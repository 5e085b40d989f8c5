//! The events of a session as the text of an event log. Expected texts are worked by hand from the rules.

use std::alloc::Global;
use tsb_event_text::{Moment, read_moment};
use tsb_field_display::{EventsError, Shown, events_text, read_line};
use tsb_log_text::LogRow;
use tsb_types::{DetectorSet, NumberSet, Row};

const START: &[u8] = b"2026-11-22 07:00:00";

const RED: &[u8] = b"0000001 -R-R------------ -D-------------- R--- 0 ----";

const GREEN: &[u8] = b"0000002 -G-R------------ -W-------------- G--- 0 ----";

const CLEARING: &[u8] = b"0000045 -G-R------------ -C-------------- G--- 2 0759";

const YELLOW: &[u8] = b"0000101 -Y-R------------ -D-------------- Y--- 2 ----";

const FLASH: &[u8] = b"0000102 -F-F------------ ---------------- F--- 2 ----";

const RED_AGAIN: &[u8] = b"0000103 -R-R------------ -D-------------- R--- 0 ----";

const GREEN_AT_POWER_UP: &[u8] = b"0000000 -G-R------------ -D-------------- R--- 0 ----";

/// Each code of display lines.
const OF_DISPLAY: &[u8] = b"SignalID,Timestamp,EventCode,EventParam
7,2026-11-22 07:00:00.1,1,2
7,2026-11-22 07:00:00.1,21,2
7,2026-11-22 07:00:00.1,61,1
7,2026-11-22 07:00:04.4,22,2
7,2026-11-22 07:00:04.4,105,2
7,2026-11-22 07:00:10.0,7,2
7,2026-11-22 07:00:10.0,8,2
7,2026-11-22 07:00:10.0,23,2
7,2026-11-22 07:00:10.0,63,1
7,2026-11-22 07:00:10.1,9,2
7,2026-11-22 07:00:10.1,64,1
7,2026-11-22 07:00:10.1,173,6
7,2026-11-22 07:00:10.2,173,2
";

/// Each code of inputs. Tick 6,000,000 comes 6 days, 22 hours, 39 minutes and 59.9 seconds after tick 1.
const OF_INPUTS: &[u8] = b"SignalID,Timestamp,EventCode,EventParam
7,2026-11-22 07:00:00.0,82,1
7,2026-11-22 07:00:00.0,82,16
7,2026-11-22 07:00:00.0,90,8
7,2026-11-22 07:00:00.0,102,4
7,2026-11-22 07:00:00.2,81,1
7,2026-11-22 07:00:00.2,89,8
7,2026-11-22 07:00:00.2,102,1
7,2026-11-22 07:00:00.2,104,4
7,2026-11-29 05:39:59.9,81,16
7,2026-11-29 05:39:59.9,104,1
";

/// Events of heads and of inputs in one tick.
const OF_BOTH: &[u8] = b"SignalID,Timestamp,EventCode,EventParam
7,2026-11-22 07:00:04.3,82,3
7,2026-11-22 07:00:04.4,1,2
7,2026-11-22 07:00:04.4,22,2
7,2026-11-22 07:00:04.4,61,1
7,2026-11-22 07:00:04.4,81,3
7,2026-11-22 07:00:04.4,82,2
7,2026-11-22 07:00:04.4,90,2
7,2026-11-22 07:00:04.4,102,2
7,2026-11-22 07:00:04.4,105,2
7,2026-11-22 07:00:04.5,81,2
7,2026-11-22 07:00:04.5,89,2
7,2026-11-22 07:00:04.5,104,2
";

/// A device with a comma, with an event at power-up.
const OF_POWER_UP: &[u8] = b"SignalID,Timestamp,EventCode,EventParam
\"7,north\",2026-11-22 07:00:00.0,1,2
";

const HEADER_ALONE: &[u8] = b"SignalID,Timestamp,EventCode,EventParam
";

/// The time of tick 9,999,999, which is that of later ticks too.
const OF_THE_LAST: &[u8] = b"SignalID,Timestamp,EventCode,EventParam
7,9999-12-31 23:59:59.999999999,82,1
7,9999-12-31 23:59:59.999999999,81,1
";

/// A moment that a text names; one before the year 0 where it names none.
fn moment(text: &[u8]) -> Moment {
    match read_moment(text) {
        Some(moment) => moment,
        None => Moment { nanos: 0 },
    }
}

/// What a line shows; tick 77 with no head lit where it shows nothing.
fn shown(line: &[u8]) -> Shown {
    match read_line(line, false) {
        Some(shown) => shown,
        None => Shown {
            tick: 77,
            signals: tsb_field_display::Signals::nothing_lit(),
        },
    }
}

fn row(tick: u32, vehicles: u16, pedestrians: u16, preempts: u16) -> LogRow {
    LogRow {
        tick,
        row: Row {
            vehicles: DetectorSet::from_list(u64::from(vehicles)),
            pedestrians: NumberSet::from_list(pedestrians),
            preempts: NumberSet::from_list(preempts),
        },
    }
}

/// Whether this is the text of the events of these changes and rows, for a device, from a time on.
fn tells(
    alloc: Global,
    from: &[u8],
    device: &[u8],
    changes: &[Shown],
    rows: &[LogRow],
    wanted: &[u8],
) -> bool {
    match events_text(alloc, moment(from), device, changes, rows) {
        Ok(text) => text.as_slice() == wanted,
        Err(_) => false,
    }
}

/// Whether there is no text from this moment on, since its last year would be past.
fn is_late(alloc: Global, from: Moment) -> bool {
    matches!(
        events_text(alloc, from, b"7", &[], &[]),
        Err(EventsError::Late)
    )
}

#[test]
fn display_lines_are_told(rt: HostRuntime) {
    let changes = [
        shown(RED),
        shown(GREEN),
        shown(CLEARING),
        shown(YELLOW),
        shown(FLASH),
        shown(RED_AGAIN),
    ];
    assert!(rt; tells(rt.alloc(), START, b"7", &changes, &[], OF_DISPLAY));
}

#[test]
fn inputs_are_told(rt: HostRuntime) {
    let rows = [
        row(1, 32_769, 128, 8),
        row(3, 32_768, 0, 1),
        row(6_000_000, 0, 0, 0),
    ];
    assert!(rt; tells(rt.alloc(), START, b"7", &[], &rows, OF_INPUTS));
}

#[test]
fn both_are_told_in_one_order(rt: HostRuntime) {
    let changes = [shown(RED), shown(CLEARING)];
    let rows = [row(44, 4, 0, 0), row(45, 2, 2, 2), row(46, 0, 0, 0)];
    assert!(rt; tells(rt.alloc(), START, b"7", &changes, &rows, OF_BOTH));
}

#[test]
fn power_up_is_told_at_the_first_tick(rt: HostRuntime) {
    let changes = [shown(GREEN_AT_POWER_UP)];
    assert!(rt;
        tells(rt.alloc(), START, b"7,north", &changes, &[], OF_POWER_UP)
            && tells(rt.alloc(), START, b"7", &[], &[], HEADER_ALONE)
    );
}

#[test]
fn no_time_is_past_the_last_year(rt: HostRuntime) {
    let last = b"9999-12-20 10:13:20.199999999".as_slice();
    let rows = [row(9_999_999, 1, 0, 0), row(10_000_000, 0, 0, 0)];
    assert!(rt; tells(rt.alloc(), last, b"7", &[], &rows, OF_THE_LAST));
    let late = moment(b"9999-12-20 10:13:20.2");
    assert!(rt; is_late(rt.alloc(), late) && is_late(rt.alloc(), Moment { nanos: 0 }));
}
