//! Logs: rows in force, and the lines of faults.

use std::alloc::Global;
use tsb_log_text::{Log, LogError, LogRow, laws, lists_line, lists_of, read_log};
use tsb_types::{DetectorSet, NumberSet, Row};

const TEXT: &str =
    "# made by hand\r\n\n0000100 0010010000000000 00000000 0000\r\n   \n0000102 0000010000000000 00000000 0000\n0000151 0000000000000000 00000000 0000";

fn only(list: u16) -> Row {
    Row {
        vehicles: DetectorSet::from_list(u64::from(list)),
        pedestrians: NumberSet::empty(),
        preempts: NumberSet::empty(),
    }
}

/// Whether the log has this row at this tick. The place is that of the row that was found last.
fn has_row(log: &Log, tick: u32, row: Row, place: &mut usize) -> bool {
    log.row(tick, place) == row
}

/// Whether the log of the text has these rows in force.
fn has_rows(log: &Log) -> bool {
    let mut place = 0;
    for (tick, list) in [
        (99, 0),
        (100, 36),
        (101, 36),
        (102, 32),
        (150, 32),
        (151, 0),
        (6_000_000, 0),
    ] {
        if !has_row(log, tick, only(list), &mut place) {
            return false;
        }
    }
    has_row(log, 100, only(36), &mut 77) && has_row(log, 99, Row::all_off(), &mut place)
}

#[test]
fn rows_are_in_force_until_the_next(rt: HostRuntime) {
    let Ok(log) = read_log(rt.alloc(), TEXT.as_bytes()) else {
        panic!(rt; "no log");
    };
    assert!(rt; has_rows(&log));
    let empty = Log::empty(rt.alloc());
    assert!(rt; has_row(&empty, 100, Row::all_off(), &mut 77));
    laws::rows_are_in_force_to_the_next();
}

#[test]
fn digits_are_inputs(rt: HostRuntime) {
    let text = b"6000000 1000000000000001 10000001 1001".as_slice();
    let Ok(log) = read_log(rt.alloc(), text) else {
        panic!(rt; "no log");
    };
    let row = Row {
        vehicles: DetectorSet::from_list(0x8001),
        pedestrians: NumberSet::from_list(0x81),
        preempts: NumberSet::from_list(9),
    };
    assert!(rt; has_row(&log, 6_000_000, row, &mut 0));
    laws::digits_tell_their_inputs();
}

/// Whether these texts have these faults.
fn have_faults(alloc: Global) -> bool {
    says(
        alloc,
        b"0000100 0010010000000000 00000000 0000\n0000100 0010010000000000 00000000 0000\n",
        "log line 2: tick order",
    ) && says(
        alloc,
        b"0000000 0010010000000000 00000000 0000\n",
        "log line 1: malformed",
    ) && says(
        alloc,
        b"0000100 0010010000000000\n",
        "log line 1: malformed",
    ) && says(
        alloc,
        b"\n# a\n6000001 0010010000000000 00000000 0000\n",
        "log line 3: malformed",
    ) && says(
        alloc,
        b"0000100 0010010000000000 00000000 0000\r",
        "log line 1: malformed",
    )
}

#[test]
fn faults_name_their_line(rt: HostRuntime) {
    assert!(rt; have_faults(rt.alloc()));
    laws::logs_are_rows_that_rise();
}

/// The inputs of three lists.
fn inputs(vehicles: u16, pedestrians: u16, preempts: u16) -> Row {
    Row {
        vehicles: DetectorSet::from_list(u64::from(vehicles)),
        pedestrians: NumberSet::from_list(pedestrians),
        preempts: NumberSet::from_list(preempts),
    }
}

const LISTS: &str =
    "# by lists\r\n\n0000100 V3,6\n   \n0000102 V6\r\n0000120 V1-3,5,15-16 P2,8 E1-4\n0000150 P1 E4\n0000151";

/// Whether the log of the text by lists has these rows in force.
fn has_lists(log: &Log) -> bool {
    let mut place = 0;
    for (tick, row) in [
        (99, inputs(0, 0, 0)),
        (100, inputs(36, 0, 0)),
        (101, inputs(36, 0, 0)),
        (102, inputs(32, 0, 0)),
        (120, inputs(0xC017, 0x82, 15)),
        (150, inputs(0, 1, 8)),
        (151, inputs(0, 0, 0)),
    ] {
        if !has_row(log, tick, row, &mut place) {
            return false;
        }
    }
    true
}

#[test]
fn lists_are_inputs(rt: HostRuntime) {
    let Ok(log) = read_log(rt.alloc(), LISTS.as_bytes()) else {
        panic!(rt; "no log");
    };
    assert!(rt; has_lists(&log));
    laws::logs_have_one_form();
}

#[test]
fn lists_are_spelled_in_one_way(rt: HostRuntime) {
    for text in [
        b"V1".as_slice(),
        b"V1-64 P1-16 E1-8",
        b"P1,2,3-5,6-7",
        b"E4",
        b"V1 E1",
    ] {
        assert!(rt; lists_of(text).is_some());
    }
    for text in [
        b"".as_slice(),
        b" ",
        b"V",
        b"V1 ",
        b" V1",
        b"V1  P1",
        b"V1,",
        b"V,1",
        b"V1,,2",
        b"V0",
        b"V01",
        b"V65",
        b"P17",
        b"E9",
        b"V1-1",
        b"V2-1",
        b"V1-65",
        b"V1-2-3",
        b"V1-",
        b"V-2",
        b"V2,1",
        b"V1-3,3",
        b"V1,1",
        b"V1 V2",
        b"P1 V1",
        b"E1 P1",
        b"v1",
        b"X1",
        b"V1P1",
        b"V1 P1 E1 E2",
        b"V+1",
        b"V1\r",
        b"V99999999999",
    ] {
        assert!(rt; lists_of(text).is_none());
    }
}

/// Whether these texts have these faults.
fn have_faults_of_forms(alloc: Global) -> bool {
    says(
        alloc,
        b"# c\n0000100 V3\n0000101 0010010000000000 00000000 0000\n",
        "log line 3: malformed",
    ) && says(
        alloc,
        b"0000100 0010010000000000 00000000 0000\n0000101 V3\n",
        "log line 2: malformed",
    ) && says(
        alloc,
        b"0000100 0010010000000000 00000000 0000\n0000101\n",
        "log line 2: malformed",
    ) && says(alloc, b"0000100 V3\n\n0000100\n", "log line 3: tick order")
        && says(alloc, b"0000000 V3\n", "log line 1: malformed")
        && says(alloc, b"0000100 \n", "log line 1: malformed")
        && says(alloc, b"0000100V3\n", "log line 1: malformed")
        && says(alloc, b"000100 V3\n", "log line 1: malformed")
        && says(alloc, b"0000100 V3\n0000101 V65\n", "log line 2: malformed")
        && says(alloc, b"0000100\r", "log line 1: malformed")
}

#[test]
fn a_log_has_one_form(rt: HostRuntime) {
    assert!(rt; have_faults_of_forms(rt.alloc()));
}

#[test]
fn rows_are_written_by_lists(rt: HostRuntime) {
    for (tick, row, wanted) in [
        (1, inputs(0, 0, 0), b"0000001\n".as_slice()),
        (100, inputs(36, 0, 0), b"0000100 V3,6\n"),
        (6_000_000, inputs(3, 0, 0), b"6000000 V1-2\n"),
        (
            120,
            inputs(0xC017, 0x82, 15),
            b"0000120 V1-3,5,15-16 P2,8 E1-4\n",
        ),
        (7, inputs(0xFFFF, 0xFF, 15), b"0000007 V1-16 P1-8 E1-4\n"),
        (7, inputs(0, 0, 8), b"0000007 E4\n"),
        (
            7,
            inputs(0xDB6D, 0xDB, 11),
            b"0000007 V1,3-4,6-7,9-10,12-13,15-16 P1-2,4-5,7-8 E1-2,4\n",
        ),
    ] {
        assert!(rt; lists_line(LogRow { tick, row }).as_bytes() == wanted);
    }
    laws::rows_are_read_back();
}

fn says(alloc: Global, text: &[u8], message: &str) -> bool {
    match read_log(alloc, text) {
        Ok(_) => false,
        Err(fault) => is_printed(alloc, &fault, message),
    }
}

/// Whether the fault is printed as this line.
fn is_printed(alloc: Global, fault: &LogError, line: &str) -> bool {
    match format!(in alloc; "{fault}") {
        Ok(given) => given.as_str() == line,
        Err(_) => false,
    }
}

#[test]
fn each_fault_is_printed_as_its_line(rt: HostRuntime) {
    let faults = [
        (LogError::Memory, "memory"),
        (LogError::TooLarge, "log: too large"),
        (LogError::Malformed(3), "log line 3: malformed"),
        (LogError::TickOrder(2), "log line 2: tick order"),
    ];
    for (fault, line) in &faults {
        assert!(rt; is_printed(rt.alloc(), fault, line));
    }
}
