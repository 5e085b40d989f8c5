//! Times and lines of events, written. Expected values are worked by hand from the rules.

use std::alloc::{AllocError, Global};
use tsb_event_text::{
    Columns, EventRow, Moment, can_be_written, event_line, event_row, read_moment, time_text,
};

/// The time of a moment that this time names; empty where it names none, or where it has none.
fn again(alloc: Global, time: &[u8]) -> Result<Vec<u8>, AllocError> {
    let mut text = Vec::new(alloc);
    if let Some(moment) = read_moment(time) {
        if let Some(time) = time_text(moment) {
            time.append_to(&mut text)?;
        }
    }
    Ok(text)
}

/// The line of an event at a time that a text names; empty where it names none.
fn line(
    alloc: Global,
    device: &[u8],
    time: &[u8],
    code: u32,
    parameter: u32,
) -> Result<Vec<u8>, AllocError> {
    if let Some(moment) = read_moment(time) {
        if let Some(time) = time_text(moment) {
            return event_line(alloc, device, &time, code, parameter);
        }
    }
    Ok(Vec::new(alloc))
}

/// Whether this is the time of the moment that the first names.
fn is_again(alloc: Global, time: &[u8], wanted: &[u8]) -> bool {
    match again(alloc, time) {
        Ok(text) => text.as_slice() == wanted,
        Err(_) => false,
    }
}

#[test]
fn times_have_few_digits(rt: HostRuntime) {
    for (time, wanted) in [
        (
            b"2026-11-22T07:00:00".as_slice(),
            b"2026-11-22 07:00:00.0".as_slice(),
        ),
        (b"2026-11-22 07:00:00.100", b"2026-11-22 07:00:00.1"),
        (b"2026-11-22 23:59:59.05", b"2026-11-22 23:59:59.05"),
        (
            b"1972-02-29 00:01:09.000000001",
            b"1972-02-29 00:01:09.000000001",
        ),
        (b"0000-01-01 00:00:00", b"0000-01-01 00:00:00.0"),
        (
            b"9999-12-31 23:59:59.999999999",
            b"9999-12-31 23:59:59.999999999",
        ),
    ] {
        assert!(rt; is_again(rt.alloc(), time, wanted));
    }
}

/// Whether a time is written for the moment.
fn is_written(nanos: u128) -> bool {
    time_text(Moment { nanos }).is_some()
}

#[test]
fn other_years_have_no_time(rt: HostRuntime) {
    let (Some(first), Some(last)) = (
        read_moment(b"0000-01-01 00:00:00"),
        read_moment(b"9999-12-31 23:59:59.999999999"),
    ) else {
        panic!(rt; "no moment");
    };
    assert!(rt; is_written(first.nanos) && !is_written(first.nanos.wrapping_sub(1)));
    assert!(rt; is_written(last.nanos) && !is_written(last.nanos.wrapping_add(1)));
}

/// A tenth of a second after seven.
const TIME: &[u8] = b"2026-11-22 07:00:00.1";

/// Whether this is the line of an event of the device at that time.
fn is_line(alloc: Global, device: &[u8], code: u32, parameter: u32, wanted: &[u8]) -> bool {
    match line(alloc, device, TIME, code, parameter) {
        Ok(text) => text.as_slice() == wanted,
        Err(_) => false,
    }
}

#[test]
fn lines_have_the_usual_columns(rt: HostRuntime) {
    for (device, code, parameter, wanted) in [
        (
            b"1001".as_slice(),
            82,
            3,
            b"1001,2026-11-22 07:00:00.1,82,3\n".as_slice(),
        ),
        (
            b"Main, 5th",
            0,
            4_294_967_295,
            b"\"Main, 5th\",2026-11-22 07:00:00.1,0,4294967295\n",
        ),
        (b"#7", 82, 3, b"\"#7\",2026-11-22 07:00:00.1,82,3\n"),
        (b"7#", 82, 3, b"7#,2026-11-22 07:00:00.1,82,3\n"),
        (b"", 1, 2, b",2026-11-22 07:00:00.1,1,2\n"),
    ] {
        assert!(rt; is_line(rt.alloc(), device, code, parameter, wanted));
    }
}

/// Whether the line of an event of the device is read as that event.
fn is_read_again(alloc: Global, device: &[u8]) -> Option<bool> {
    let time = b"2026-11-22 07:00:00.125".as_slice();
    let event = EventRow {
        ours: true,
        moment: read_moment(time)?,
        code: 82,
        parameter: 16,
    };
    let written = line(alloc, device, time, 82, 16).ok()?;
    let row = written.as_slice().strip_suffix(b"\n".as_slice())?;
    Some(event_row(row, Columns::usual_of(b""), Some(device)) == Some(event))
}

#[test]
fn lines_are_read_again(rt: HostRuntime) {
    for device in [b"Main, 5th".as_slice(), b"#7"] {
        assert!(rt; is_read_again(rt.alloc(), device) == Some(true));
    }
}

/// Whether devices with commas, blanks and marks can be written.
fn can_all_be_written() -> bool {
    can_be_written(b"")
        && can_be_written(b"Main, 5th")
        && can_be_written(b"-7 \t")
        && can_be_written(b"#7")
        && can_be_written(&[b'7'; 900])
}

/// Whether those with a quotation mark, a line's end or too many bytes can't.
fn can_none_be_written() -> bool {
    !can_be_written(b"a\"b")
        && !can_be_written(b"a\nb")
        && !can_be_written(b"a\r")
        && !can_be_written(&[b'7'; 901])
}

#[test]
fn devices_that_a_line_can_name(rt: HostRuntime) {
    assert!(rt; can_all_be_written() && can_none_be_written());
}
