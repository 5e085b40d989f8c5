//! The lines of what ends a filter, as the derived `Display` prints them. Expected lines are those of
//! docs/use/FIELD.md.

use std::alloc::Global;
use tsb_event_text::{Column, RowFault, SHOWN, Separator, ShownField, TimeForm};
use tsb_field_streams::{Disorder, FilterError};

/// The nanoseconds of a second.
const SECOND: u128 = 1_000_000_000;

/// 07:00:00 of the first day that moments count, in seconds.
const SEVEN: u128 = 25_200;

/// A field with these bytes, of which a fault shows 40 at most.
fn shown(field: &[u8]) -> ShownField {
    let first = &field[..field.len().min(SHOWN)];
    let mut bytes = [b' '; SHOWN];
    bytes[..first.len()].copy_from_slice(first);
    ShownField {
        bytes,
        count: first.len(),
    }
}

/// Whether the fault is printed as this line.
fn is_printed(alloc: Global, fault: FilterError, line: &str) -> bool {
    match format!(in alloc; "{fault}") {
        Ok(given) => given.as_str() == line,
        Err(_) => false,
    }
}

#[test]
fn each_end_is_printed_as_its_line(rt: HostRuntime) {
    let ends = [
        (FilterError::Memory, "memory"),
        (FilterError::Read, "read fault"),
        (FilterError::Write, "write fault"),
        (FilterError::TooLarge, "events: too large"),
        (
            FilterError::LongLine(4_294_967_295),
            "events line 4294967295: over 1000 bytes (is it a text with lines?)",
        ),
        (
            FilterError::TooManyRows(1_000_001),
            "events line 1000001: over 1000000 rows to sort: give a smaller --sort-within, or a --device",
        ),
        (FilterError::PastEnd, "events: past tick 6000000"),
        (FilterError::LogTooLarge, "log: too large"),
    ];
    for (end, line) in &ends {
        assert!(rt; is_printed(rt.alloc(), *end, line));
    }
}

/// A row whose time is the first of these moments, behind one with the second.
fn late(moment: u128, last: u128, column: usize, within: Option<u32>) -> FilterError {
    FilterError::TimeOrder(Disorder {
        line: 3,
        moment,
        last,
        column,
        within,
    })
}

/// The rows that are out of order, with their lines.
fn orders() -> [(FilterError, &'static str); 4] {
    let seven = SEVEN * SECOND;
    let day = 86_400 * SECOND;
    [
        (
            late(seven + 3_200_000_000, seven + 4_000_000_000, 1, None),
            "events line 3: time order: 07:00:03.2 after 07:00:04.0: sort by column 2",
        ),
        (
            late(seven + 3_200_000_000, seven + 64_000_000_000, 1, Some(60)),
            "events line 3: time order: 07:00:03.2 after 07:01:04.0: over 60 s late: give a larger --sort-within, or sort by column 2",
        ),
        (
            late(day - 1_000_000, day + 1, 0, None),
            "events line 3: time order: 23:59:59.999 after 00:00:00.000000001 of a later day: sort by column 1",
        ),
        (
            late(0, 1_234_567_000, usize::MAX, None),
            "events line 3: time order: 00:00:00.0 after 00:00:01.234567000: sort by column 18446744073709551616",
        ),
    ]
}

#[test]
fn a_row_out_of_order_is_printed_with_both_times(rt: HostRuntime) {
    for (fault, line) in &orders() {
        assert!(rt; is_printed(rt.alloc(), *fault, line));
    }
}

/// Why lines are no rows, with their lines.
fn times() -> [(RowFault, &'static str); 6] {
    [
        (
            RowFault::NoDay(shown(b"00:03.2")),
            "events line 2: time: \"00:03.2\" has no day (was it opened in a spreadsheet?)",
        ),
        (
            RowFault::NoSeconds(shown(b"11/22/2026 7:00")),
            "events line 2: time: \"11/22/2026 7:00\" has no seconds (was it opened in a spreadsheet?)",
        ),
        (
            RowFault::Ambiguous(shown(b"01/02/2026 07:00:00")),
            "events line 2: time: \"01/02/2026 07:00:00\" can be read in two ways: give --time-form month-first or --time-form day-first",
        ),
        (
            RowFault::OtherForm(
                TimeForm::MonthFirst,
                TimeForm::DayFirst,
                shown(b"22/11/2026 07:00:00"),
            ),
            "events line 2: time: \"22/11/2026 07:00:00\" is day-first, not month-first: one form a file, by the first row or --time-form",
        ),
        (
            RowFault::NoTime(TimeForm::YearFirst, shown(b"2026-02-30 07:00:00")),
            "events line 2: time: \"2026-02-30 07:00:00\" is no time as 2026-11-22 07:00:00.1",
        ),
        (
            RowFault::NoTime(TimeForm::Milliseconds, shown(b"soon")),
            "events line 2: time: \"soon\" is no time as 1795330800100",
        ),
    ]
}

/// The other causes.
fn causes() -> [(RowFault, &'static str); 12] {
    [
        (
            RowFault::NoNumber(Column::Code, shown(b"82.5")),
            "events line 2: code: \"82.5\" is no whole number up to 4294967295",
        ),
        (
            RowFault::Missing(Column::Code),
            "events line 2: code: the line ends before it",
        ),
        (
            RowFault::Parted(Separator::Comma, Separator::Semicolon),
            "events line 2: semicolons part its fields, and commas those above: one separator a file",
        ),
        (RowFault::Quote, "events line 2: a quote is out of place"),
        (
            RowFault::Lacks(Column::Device),
            "events line 2: header: no column is the device: name it SignalID, DeviceId, LocationIdentifier or LocationId",
        ),
        (
            RowFault::Lacks(Column::Time),
            "events line 2: header: no column is the time: name it Timestamp, DateTime or Time",
        ),
        (
            RowFault::Lacks(Column::Code),
            "events line 2: header: no column is the code: name it EventCode, EventId, EventType or Code",
        ),
        (
            RowFault::Lacks(Column::Parameter),
            "events line 2: header: no column is the parameter: name it EventParam, Parameter, Param or EventValue",
        ),
        (
            RowFault::Utf16,
            "events: UTF-16: convert by iconv -f utf-16 -t utf-8",
        ),
        (RowFault::Zip, "events: packed: unpack by unzip or gunzip"),
        (RowFault::Xml, "events: XML: export as CSV"),
        (
            RowFault::Binary,
            "events: binary: convert by the controller's own program",
        ),
    ]
}

#[test]
fn what_is_no_row_is_printed_with_its_cause(rt: HostRuntime) {
    for (why, line) in &times() {
        assert!(rt; is_printed(rt.alloc(), FilterError::Malformed(2, *why), line));
    }
    for (why, line) in &causes() {
        assert!(rt; is_printed(rt.alloc(), FilterError::Malformed(2, *why), line));
    }
}

#[test]
fn a_fault_shows_40_bytes_of_a_field(rt: HostRuntime) {
    let field = shown(b"a\"b\x7f\xc3\xa4 34567890123456789012345678901234567890");
    assert!(rt;
        is_printed(
            rt.alloc(),
            FilterError::Malformed(1, RowFault::NoNumber(Column::Parameter, field)),
            "events line 1: parameter: \"a?b??? 345678901234567890123456789012345\" is no whole number up to 4294967295",
        )
    );
}
