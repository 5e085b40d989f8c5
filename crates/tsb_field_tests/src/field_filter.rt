//! Lines of events and the rows of the log that they make known. Expected values are worked by hand from the rules.

use std::alloc::{AllocError, Global};
use tsb_event_text::{Column, Moment, RowFault, SHOWN, ShownField, TimeForm, read_moment};
use tsb_field_log::{InputKind, KnownRows, Street, Wire, wires};
use tsb_field_streams::{
    Channel, Channels, Devices, Disorder, Filter, FilterError, Gaps, Held, LeftOut, MOST_NAMED,
    RowOptions, Summary,
};
use tsb_log_text::row_line;

/// What a filter gives for lines from 07:00:00 on.
#[derive(Drop)]
struct Filtered {
    text: Vec<u8>,
    summary: Summary,
    fault: Option<FilterError>,
}

fn push_rows(text: &mut Vec<u8>, rows: KnownRows) -> Result<(), AllocError> {
    if let Some(row) = rows.first {
        text.extend_from_slice(row_line(row).as_bytes())?;
    }
    if let Some(row) = rows.second {
        text.extend_from_slice(row_line(row).as_bytes())?;
    }
    Ok(())
}

/// 07:00:00 of a day.
fn begin() -> Moment {
    match read_moment(b"2026-11-22 07:00:00") {
        Some(moment) => moment,
        None => Moment { nanos: 0 },
    }
}

fn said(
    alloc: Global,
    device: Option<&[u8]>,
    mapped: &[Wire],
    lines: &[&[u8]],
) -> Result<Filtered, AllocError> {
    let reading = RowOptions {
        from: begin(),
        times: None,
        zone: None,
        window: None,
    };
    let all = wires(alloc, mapped)?;
    let mut used = Vec::new(alloc);
    used.resize(all.len(), false)?;
    let street = Street::new(alloc, reading.from.nanos, &all)?;
    let held = Held::new(alloc, 0)?;
    let mut filter = Filter::new(reading, device, &all, used, street, held);
    let mut text = Vec::new(alloc);
    let mut number: u32 = 0;
    let mut fault = None;
    for line in lines {
        number = number.saturating_add(1);
        if fault.is_none() {
            match filter.take_line(number, *line) {
                Ok(rows) => push_rows(&mut text, rows)?,
                Err(error) => fault = Some(error),
            }
        }
    }
    let summary = filter.summary();
    if fault.is_none() {
        match filter.finish() {
            Ok(rows) => push_rows(&mut text, rows)?,
            Err(error) => fault = Some(error),
        }
    }
    Ok(Filtered {
        text,
        summary,
        fault,
    })
}

/// Whether nothing was left out.
fn is_whole(left_out: LeftOut) -> bool {
    left_out.of_other_devices == 0 && left_out.without_input == 0 && left_out.passed == 0
}

fn gives(alloc: Global, lines: &[&[u8]], log: &[u8]) -> bool {
    match said(alloc, None, &[], lines) {
        Ok(said) => {
            said.text.as_slice() == log && said.fault.is_none() && is_whole(said.summary.left_out)
        }
        Err(_) => false,
    }
}

fn fault_of(alloc: Global, lines: &[&[u8]]) -> Option<FilterError> {
    match said(alloc, None, &[], lines) {
        Ok(said) => said.fault,
        Err(_) => None,
    }
}

#[test]
fn a_car_is_on_from_tick_to_tick(rt: HostRuntime) {
    let log = b"0000011 0100000000000000 00000000 0000\n0000031 0000000000000000 00000000 0000\n";
    let rows = [
        b"7,2026-11-22 07:00:01,82,2".as_slice(),
        b"7,2026-11-22 07:00:03,81,2",
    ];
    let with_header = [
        b"# a detector on Main".as_slice(),
        b"EventParam,SignalID,EventCode,Timestamp",
        b"",
        b"2,7,82,2026-11-22T07:00:01.0",
        b"2,7,1,2026-11-22T07:00:02",
        b"2,7,81,2026-11-22T07:00:03",
    ];
    let marked = [
        b"\xef\xbb\xbfDeviceId,Timestamp,EventId,Parameter".as_slice(),
        b"7,2026-11-22 07:00:01,82,2",
        b"7,2026-11-22 07:00:03,81,2",
    ];
    for lines in [rows.as_slice(), with_header.as_slice(), marked.as_slice()] {
        assert!(rt; gives(rt.alloc(), lines, log));
    }
}

#[test]
fn no_pulse_is_lost(rt: HostRuntime) {
    let rows = [
        b"7,2026-11-22 07:00:00.25,90,8".as_slice(),
        b"7,2026-11-22 07:00:00.25,89,8",
    ];
    let log = b"0000003 0000000000000000 00000001 0000\n0000004 0000000000000000 00000000 0000\n";
    assert!(rt; gives(rt.alloc(), &rows, log));
}

#[test]
fn what_came_before_says_how_tick_1_begins(rt: HostRuntime) {
    let rows = [
        b"7,2026-11-22 06:59:00,102,1".as_slice(),
        b"7,2026-11-22 07:00:00.1,104,1",
    ];
    let log = b"0000001 0000000000000000 00000000 1000\n0000002 0000000000000000 00000000 0000\n";
    assert!(rt; gives(rt.alloc(), &rows, log));
}

/// Whether these lines give the log for device 7, with so much left out.
fn gives_with_left_out(
    alloc: Global,
    mapped: &[Wire],
    lines: &[&[u8]],
    log: &[u8],
    left_out: LeftOut,
) -> bool {
    match said(alloc, Some(b"7"), mapped, lines) {
        Ok(said) => {
            said.text.as_slice() == log && said.fault.is_none() && said.summary.left_out == left_out
        }
        Err(_) => false,
    }
}

#[test]
fn what_has_no_input_is_counted(rt: HostRuntime) {
    let mapped = [Wire {
        kind: InputKind::Vehicle,
        channel: 17,
        input: 3,
    }];
    let lines = [
        b"7,2026-11-22 07:00:00,82,17".as_slice(),
        b"8,2026-11-22 07:00:00,82,1",
        b"7,2026-11-22 07:00:00,82,18",
        b"7,2026-11-22 07:00:00,90,9",
        b"7,2026-11-22 07:00:00,102,5",
        b"8,2026-11-22 06:00:00,1,2",
    ];
    let log = b"0000001 0010000000000000 00000000 0000\n".as_slice();
    let counted = LeftOut {
        of_other_devices: 2,
        without_input: 3,
        passed: 0,
        found: true,
    };
    assert!(rt; gives_with_left_out(rt.alloc(), &mapped, &lines, log, counted));
}

/// Whether the lines have this fault, or none.
fn has_fault(alloc: Global, lines: &[&[u8]], wanted: Option<FilterError>) -> bool {
    fault_of(alloc, lines) == wanted
}

/// Whether faults of the lines after the first name them.
fn faults_have_lines(alloc: Global, first: &[u8]) -> bool {
    has_fault(
        alloc,
        &[first, b"7,2026-11-22 07:00:01,82"],
        Some(FilterError::Malformed(2, RowFault::Missing(Column::Parameter))),
    ) && has_fault(
        alloc,
        &[b"", first, b"7,2026-11-22 07:00:00.9,1,2"],
        Some(FilterError::TimeOrder(Disorder {
            line: 3,
            moment: begin().nanos + 900_000_000,
            last: begin().nanos + 1_000_000_000,
            column: 1,
            within: None,
        })),
    ) && has_fault(
        alloc,
        &[first, b"SignalID,Timestamp,EventCode"],
        Some(FilterError::Malformed(2, RowFault::Lacks(Column::Parameter))),
    ) && has_fault(
        alloc,
        &[first, b"SignalID,Timestamp,EventCode,EventParam"],
        None,
    )
}

/// Whether an event of an input past the last tick is a fault, and no other event is.
fn inputs_end_with_the_ticks(alloc: Global, first: &[u8]) -> bool {
    has_fault(
        alloc,
        &[first, b"7,2026-11-29 05:40:00,82,2"],
        Some(FilterError::PastEnd),
    ) && has_fault(alloc, &[first, b"7,2026-11-29 05:40:00,1,2"], None)
        && has_fault(alloc, &[], None)
}

#[test]
fn faults_name_their_lines(rt: HostRuntime) {
    let first = b"7,2026-11-22 07:00:01,82,2".as_slice();
    assert!(rt;
        faults_have_lines(rt.alloc(), first) && inputs_end_with_the_ticks(rt.alloc(), first)
    );
}

#[test]
fn a_line_has_at_most_1000_bytes(rt: HostRuntime) {
    let mut long = [b' '; 1001];
    long[0] = b'#';
    assert!(rt;
        has_fault(rt.alloc(), &[&long[..1000]], None)
            && has_fault(rt.alloc(), &[&long], Some(FilterError::LongLine(1)))
    );
}

/// Whether what was read of these lines is this.
fn reads(alloc: Global, lines: &[&[u8]], wanted: Summary) -> bool {
    match said(alloc, None, &[], lines) {
        Ok(said) => said.summary == wanted,
        Err(_) => false,
    }
}

/// What was read where rows of this form count, with the moments of the first and the last in seconds after 07:00:00.
fn of_rows(times: Option<TimeForm>, rows: u32, first: u128, last: u128) -> Summary {
    Summary {
        left_out: LeftOut {
            of_other_devices: 0,
            without_input: 0,
            passed: 0,
            found: true,
        },
        times,
        zoned: false,
        rows,
        first: begin().nanos + first * 1_000_000_000,
        last: begin().nanos + last * 1_000_000_000,
        gaps: Gaps {
            count: 0,
            begin: 0,
            end: 0,
        },
        devices: devices(b"7"),
        unwired: channels(&[]),
        channels: 0,
        heard: false,
    }
}

/// Devices of one byte each, in this order.
fn devices(of: &[u8]) -> Devices {
    let mut names = [ShownField {
        bytes: [b' '; SHOWN],
        count: 0,
    }; MOST_NAMED];
    for k in 0..of.len().min(MOST_NAMED) {
        names[k].bytes[0] = of[k];
        names[k].count = 1;
    }
    Devices {
        names,
        count: of.len().min(MOST_NAMED),
        more: of.len() > MOST_NAMED,
    }
}

/// Channels of vehicle detectors, in this order.
fn channels(of: &[u32]) -> Channels {
    let mut first = [Channel {
        kind: InputKind::Vehicle,
        number: 0,
    }; MOST_NAMED];
    for k in 0..of.len().min(MOST_NAMED) {
        first[k].number = of[k];
    }
    Channels {
        first,
        count: of.len().min(MOST_NAMED),
        more: of.len() > MOST_NAMED,
    }
}

/// Whether channels without an input are named once each, as they come.
fn channels_are_named(alloc: Global) -> bool {
    let rows = [
        b"7,2026-11-22 07:00:01,82,40".as_slice(),
        b"7,2026-11-22 07:00:01,81,17",
        b"7,2026-11-22 07:00:01,81,40",
        b"7,2026-11-22 07:00:01,1,50",
    ];
    let mut wanted = of_rows(Some(TimeForm::YearFirst), 4, 1, 1);
    wanted.left_out.without_input = 3;
    wanted.unwired = channels(&[40, 17]);
    reads(alloc, &rows, wanted)
}

/// Whether devices are named once each, as they come, and no more than there is room for.
fn devices_are_named(alloc: Global) -> bool {
    let rows = [
        b"7,2026-11-22 07:00:01,1,2".as_slice(),
        b"8,2026-11-22 07:00:01,1,2",
        b"7,2026-11-22 07:00:01,1,2",
        b" 8 ,2026-11-22 07:00:01,1,2",
        b"5,2026-11-22 07:00:01,1,2",
        b"4,2026-11-22 07:00:01,1,2",
        b"3,2026-11-22 07:00:01,1,2",
        b"2,2026-11-22 07:00:01,1,2",
        b"1,2026-11-22 07:00:01,1,2",
        b"0,2026-11-22 07:00:01,1,2",
        b"6,2026-11-22 07:00:01,1,2",
        b"9,2026-11-22 07:00:01,1,2",
    ];
    let mut eight = of_rows(Some(TimeForm::YearFirst), 10, 1, 1);
    eight.devices = devices(b"78543210");
    let mut more = of_rows(Some(TimeForm::YearFirst), 12, 1, 1);
    more.devices = devices(b"7854321069");
    reads(alloc, &rows[..10], eight) && reads(alloc, &rows, more)
}

/// Whether rows of any code count, and channels with events of inputs.
fn rows_and_channels_count(alloc: Global) -> bool {
    let rows = [
        b"7,2026-11-22 07:00:01,82,2".as_slice(),
        b"7,2026-11-22 07:00:02,1,2",
        b"7,2026-11-22 07:00:02,82,2",
        b"7,2026-11-22 07:00:03,90,2",
        b"7,2026-11-22 07:00:04,102,3",
    ];
    let mut wanted = of_rows(Some(TimeForm::YearFirst), 5, 1, 4);
    wanted.channels = 3;
    wanted.heard = true;
    reads(alloc, &rows, wanted)
}

/// Whether a zone is known of a row that counts, by its time's form, and of no other row.
fn zones_are_known(alloc: Global) -> bool {
    let first = b"7,2026-11-22 07:00:01,1,2".as_slice();
    let year = Some(TimeForm::YearFirst);
    let mut said = of_rows(year, 2, 1, 1);
    said.zoned = true;
    let seconds = of_rows(Some(TimeForm::Seconds), 1, 1, 1);
    reads(alloc, &[first, b"7,2026-11-22 07:00:01-23:59,1,2"], said)
        && reads(
            alloc,
            &[first, b"7,2026/11/22 07:00:01,1,2"],
            of_rows(year, 2, 1, 1),
        )
        && reads(alloc, &[b"7,1795330801,1,2"], seconds)
}

/// Whether a minute between rows is a gap, and of two as long the first is the longest.
fn gaps_have_a_minute(alloc: Global) -> bool {
    let rows = [
        b"7,2026-11-22 07:00:01,1,2".as_slice(),
        b"7,2026-11-22 07:01:00.999999999,1,2",
        b"7,2026-11-22 07:02:00.999999999,1,2",
        b"7,2026-11-22 07:04:01,1,2",
        b"7,2026-11-22 07:06:01.000000001,1,2",
    ];
    let mut wanted = of_rows(Some(TimeForm::YearFirst), 5, 1, 361);
    wanted.last += 1;
    wanted.gaps = Gaps {
        count: 3,
        begin: begin().nanos + 121_000_000_000 - 1,
        end: begin().nanos + 241_000_000_000,
    };
    reads(alloc, &rows, wanted)
}

/// Whether an event before tick 1 is of a channel and is not heard, and one as tick 1 begins is.
fn tick_1_begins_what_is_heard(alloc: Global) -> bool {
    let row = b"7,11/22/2026 07:00:00,1,2".as_slice();
    let before = b"7,11/22/2026 06:59:59.999999999,82,1".as_slice();
    let at = b"7,11/22/2026 07:00:00,81,1".as_slice();
    let mut wanted = of_rows(Some(TimeForm::MonthFirst), 2, 0, 0);
    wanted.first = begin().nanos - 1;
    wanted.channels = 1;
    let early = reads(alloc, &[before, row], wanted);
    wanted.heard = true;
    early && reads(alloc, &[before, at], wanted)
}

#[test]
fn what_was_read_is_counted(rt: HostRuntime) {
    assert!(rt; rows_and_channels_count(rt.alloc()) && gaps_have_a_minute(rt.alloc()));
    assert!(rt; tick_1_begins_what_is_heard(rt.alloc()) && devices_are_named(rt.alloc()));
    assert!(rt; zones_are_known(rt.alloc()) && channels_are_named(rt.alloc()));
    let mut nothing = of_rows(None, 0, 0, 0);
    nothing.first = 0;
    nothing.last = 0;
    nothing.devices = devices(b"");
    assert!(rt;
        reads(
            rt.alloc(),
            &[b"SignalID,Timestamp,EventCode,EventParam"],
            nothing
        )
    );
}
