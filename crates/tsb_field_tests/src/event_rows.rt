//! Lines of event logs: fields, headers, times and rows. Expected values are worked by hand from the rules.

use tsb_event_text::{Columns, EventRow, Moment, Separator, event_row, header, read_moment};

/// The seconds from -9999-01-01 to 1970-01-01: 4,371,587 days.
const EPOCH: u128 = 377_705_116_800;

/// Those from 1970-01-01 to 2026-11-22 07:00:00: 56 years of 365 days, 14 leap days, 325 days and 7 hours.
const SEVEN: u128 = 1_795_330_800;

fn at(second: u128, nano: u128) -> Option<Moment> {
    let nanos = second.checked_mul(1_000_000_000)?.checked_add(nano)?;
    Some(Moment { nanos })
}

/// Whether the text names the moment of this second and nanosecond after 1970-01-01.
fn is_moment(text: &[u8], second: u128, nano: u128) -> bool {
    match EPOCH.checked_add(second) {
        Some(second) => read_moment(text) == at(second, nano) && at(second, nano).is_some(),
        None => false,
    }
}

/// Texts, each with the second and the nanosecond after 1970-01-01 that it names.
const MOMENTS: [(&[u8], u128, u128); 9] = [
    (b"1970-01-01 00:00:00", 0, 0),
    (b"2026-11-22 07:00:00", SEVEN, 0),
    (b"2026-11-22T07:00:00.1", SEVEN, 100_000_000),
    (b"2026-11-22 07:00:00.000000001", SEVEN, 1),
    (b"2026-11-22 07:00:59.05", SEVEN + 59, 50_000_000),
    (b"2026-11-22 23:59:59", SEVEN + 61_199, 0),
    (b"2026-11-23 00:00:00", SEVEN + 61_200, 0),
    (b"1972-02-29 00:00:00", 789 * 86_400, 0),
    (b"1972-03-01 00:00:00", 790 * 86_400, 0),
];

/// Whether all the texts name their moments.
fn are_moments(all: &[(&[u8], u128, u128)]) -> bool {
    for (text, second, nano) in all {
        if !is_moment(text, *second, *nano) {
            return false;
        }
    }
    true
}

#[test]
fn times_are_moments(rt: HostRuntime) {
    assert!(rt; are_moments(&MOMENTS));
}

/// Texts that name no moment.
const NO_TIMES: [&[u8]; 23] = [
    b"",
    b"2026-11-22",
    b"2026-11-22 07:00",
    b"2026-11-22 07:00:00.",
    b"2026-11-22 07:00:00.1234567890",
    b"2026-11-22 07:00:00Z",
    b"2026-11-22 07:00:00.1Z",
    b"2026-11-22 07:00:00+01:00",
    b"2026-11-22t07:00:00",
    b"2026/11/22 07:00:00",
    b"26-11-2022 07:00:00",
    b"2026-02-29 07:00:00",
    b"1900-02-29 07:00:00",
    b"2026-04-31 07:00:00",
    b"2026-00-22 07:00:00",
    b"2026-13-22 07:00:00",
    b"2026-11-00 07:00:00",
    b"2026-11-22 24:00:00",
    b"2026-11-22 07:60:00",
    b"2026-11-22 07:00:60",
    b" 2026-11-22 07:00:00",
    b"2026-11-22 07:00:00 ",
    b"2026-11-22 +7:00:00",
];

/// Whether none of the texts names a moment.
fn are_no_times(all: &[&[u8]]) -> bool {
    for text in all {
        if read_moment(text) != None {
            return false;
        }
    }
    true
}

#[test]
fn other_texts_are_no_times(rt: HostRuntime) {
    assert!(rt; are_no_times(&NO_TIMES));
}

/// Whether these columns, or none, are those of the header.
fn names(line: &[u8], wanted: Option<Columns>) -> bool {
    header(line) == wanted
}

/// Whether lines that lack a column or a quotation mark are no headers.
fn others_are_no_headers() -> bool {
    names(b"SignalID,EventCode,EventParam", None)
        && names(b"1001,2026-11-22 07:00:00,82,3", None)
        && names(b"SignalID,Timestamp,EventCode,\"EventParam", None)
}

#[test]
fn headers_name_all_four_columns(rt: HostRuntime) {
    let usual = Some(Columns::usual_of(b""));
    assert!(rt;
        names(b"SignalID,Timestamp,EventCode,EventParam", usual)
            && names(b"locationidentifier,TIMESTAMP,eventid,Parameter", usual)
    );
    let turned = Some(Columns {
        device: Some(4),
        time: 0,
        code: 2,
        parameter: 3,
        separator: Separator::Comma,
    });
    assert!(rt;
        names(
            b"Timestamp,Description,\"EventCode\",EventParam,DeviceId,SignalId",
            turned
        ) && others_are_no_headers()
    );
}

/// Whether the row is detector 3 on at a tenth of a second after seven, of our device or of another.
fn is_on(line: &[u8], columns: Columns, device: Option<&[u8]>, ours: bool) -> bool {
    match at(EPOCH + SEVEN, 100_000_000) {
        Some(moment) => {
            let row = EventRow {
                ours,
                moment,
                code: 82,
                parameter: 3,
            };
            event_row(line, columns, device) == Some(row)
        }
        None => false,
    }
}

/// Whether rows of the usual columns are read.
fn usual_rows_are_read(usual: Columns) -> bool {
    let line = b"1001,2026-11-22 07:00:00.1,82,3".as_slice();
    let quoted = b"\"Main, 5th\",\"2026-11-22T07:00:00.1\",\"82\",3,\"\",x".as_slice();
    is_on(line, usual, None, true)
        && is_on(line, usual, Some(b"1001"), true)
        && is_on(line, usual, Some(b"100"), false)
        && is_on(quoted, usual, Some(b"Main, 5th"), true)
}

#[test]
fn rows_are_read_by_their_columns(rt: HostRuntime) {
    assert!(rt; usual_rows_are_read(Columns::usual_of(b"")));
    let turned = Columns {
        device: Some(3),
        time: 0,
        code: 2,
        parameter: 1,
        separator: Separator::Comma,
    };
    let line = b"2026-11-22 07:00:00.100,3,82,1001".as_slice();
    assert!(rt; is_on(line, turned, Some(b"1001"), true));
}

/// Lines that are no rows of the usual columns.
const NO_ROWS: [&[u8]; 10] = [
    b"",
    b"1001,2026-11-22 07:00:00.1,82",
    b"1001,2026-11-22 07:00:00.1,82,",
    b"1001,2026-11-22 07:00:00.1,82,x",
    b"1001,2026-11-22 07:00:00.1,-82,3",
    b"1001,2026-11-22 07:00:00.1,82,4294967296",
    b"1001,2026-11-22,82,3",
    b"1001,2026-11-22 07:00:00.1,82,3,\"",
    b"1001,2026-11-22 07:00:00.1,\"82\"0,3",
    b"1001, 2026-11-22 07:00:00.1,82,3",
];

/// Whether none of the lines is a row of the usual columns.
fn are_no_rows(all: &[&[u8]]) -> bool {
    for text in all {
        if event_row(text, Columns::usual_of(b""), None) != None {
            return false;
        }
    }
    true
}

#[test]
fn other_lines_are_no_rows(rt: HostRuntime) {
    assert!(rt; are_no_rows(&NO_ROWS));
}
