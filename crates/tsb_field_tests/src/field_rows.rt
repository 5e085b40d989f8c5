//! Logs made from events of inputs: wires, rows and their lines. Expected values are worked by hand from the rules.

use std::alloc::{AllocError, Global};
use std::test::Fail;
use tsb_field_log::{InputEvent, InputKind, KnownRows, Street, Wire, is_wired, laws, wires};
use tsb_log_text::{LogRow, row_line};
use tsb_types::{DetectorSet, NumberSet, Row};

/// The moment at which tick 1 begins.
const START: u128 = 1_000_000_000;

/// Channel 21 of vehicle detectors leads to detector 3.
const WIRE: Wire = Wire {
    kind: InputKind::Vehicle,
    channel: 21,
    input: 3,
};

fn row(tick: u32, vehicles: u16, pedestrians: u16, preempts: u16) -> LogRow {
    LogRow {
        tick,
        row: Row {
            vehicles: DetectorSet::from_list(u64::from(vehicles)),
            pedestrians: NumberSet::from_list(pedestrians),
            preempts: NumberSet::from_list(preempts),
        },
    }
}

/// Channel 21 goes on or off at this moment.
fn goes(on: bool, nanos: u128) -> InputEvent {
    InputEvent {
        nanos,
        kind: InputKind::Vehicle,
        channel: 21,
        on,
    }
}

/// Whether this is the line of the row.
fn is_line(row: LogRow, wanted: &[u8]) -> bool {
    row_line(row).as_bytes() == wanted
}

/// Whether rows have their lines.
fn rows_have_lines() -> bool {
    is_line(
        row(1_234_567, 4, 0, 0),
        b"1234567 0010000000000000 00000000 0000\n",
    ) && is_line(
        row(42, 0x8001, 0x80, 9),
        b"0000042 1000000000000001 00000001 1001\n",
    ) && is_line(
        row(6_000_000, 0xffff, 0xff, 0xf),
        b"6000000 1111111111111111 11111111 1111\n",
    ) && is_line(row(1, 0, 0, 0), b"0000001 0000000000000000 00000000 0000\n")
}

#[test]
fn rows_have_39_bytes(rt: HostRuntime) {
    assert!(rt; rows_have_lines());
    laws::rows_add_up();
}

fn leads(wires: &[Wire], kind: InputKind, channel: u32) -> bool {
    is_wired(wires, kind, channel)
}

/// Whether of the channels of this kind just those up to `most` lead to an input.
fn leads_up_to(wires: &[Wire], kind: InputKind, most: u8) -> bool {
    for channel in 1..=most {
        if !leads(wires, kind, channel as u32) {
            return false;
        }
    }
    !leads(wires, kind, most as u32 + 1) && !leads(wires, kind, 0)
}

#[test]
fn channels_lead_to_their_own_inputs(rt: HostRuntime) -> Result<(), Fail> {
    let all = wires(rt.alloc(), &[])?;
    let all = all.as_slice();
    assert!(rt;
        all.len() == 28
            && leads_up_to(all, InputKind::Vehicle, 16)
            && leads_up_to(all, InputKind::Pedestrian, 8)
            && leads_up_to(all, InputKind::Preempt, 4)
    );
    Ok(())
}

/// This channel of preempts leads to this input.
fn preempt_wire(channel: u32, input: u8) -> Wire {
    Wire {
        kind: InputKind::Preempt,
        channel,
        input,
    }
}

/// Whether these wires, which begin with those that were mapped, end with those of preempts that were not.
fn are_mapped_and_own(all: &[Wire], mapped: &[Wire]) -> bool {
    let preempts = [preempt_wire(1, 1), preempt_wire(3, 3), preempt_wire(4, 4)];
    all.len() == 30 && all.starts_with(mapped) && &all[27..] == preempts.as_slice()
}

#[test]
fn mapped_channels_lead_only_there(rt: HostRuntime) -> Result<(), Fail> {
    let mapped = [WIRE, preempt_wire(2, 4), preempt_wire(2, 3)];
    let all = wires(rt.alloc(), mapped.as_slice())?;
    let all = all.as_slice();
    assert!(rt;
        are_mapped_and_own(all, mapped.as_slice())
            && leads(all, InputKind::Vehicle, 21)
            && !leads(all, InputKind::Pedestrian, 21)
            && leads(all, InputKind::Vehicle, 2)
    );
    Ok(())
}

fn write(text: &mut Vec<u8>, rows: KnownRows) -> Result<(), AllocError> {
    if let Some(row) = rows.first {
        text.extend_from_slice(row_line(row).as_bytes())?;
    }
    if let Some(row) = rows.second {
        text.extend_from_slice(row_line(row).as_bytes())?;
    }
    Ok(())
}

/// The log of events, all of which are within the ticks of a bench.
fn log(alloc: Global, events: &[InputEvent]) -> Result<Vec<u8>, AllocError> {
    let mut text = Vec::new(alloc);
    let mut street = Street::new(alloc, START, &[WIRE])?;
    for event in events {
        if let Some(rows) = street.push(*event) {
            write(&mut text, rows)?;
        }
    }
    write(&mut text, street.finish())?;
    Ok(text)
}

/// Whether the events of the channel, going on or off at these moments, give this log.
fn gives(alloc: Global, events: &[InputEvent], wanted: &[u8]) -> bool {
    match log(alloc, events) {
        Ok(text) => text.as_slice() == wanted,
        Err(_) => false,
    }
}

/// Whether an input that goes on and off is on in each tick that it was on in.
fn tells_the_ticks(alloc: Global) -> bool {
    gives(
        alloc,
        &[goes(true, 1_150_000_000), goes(false, 1_250_000_000)],
        b"0000002 0010000000000000 00000000 0000\n0000004 0000000000000000 00000000 0000\n",
    ) && gives(
        alloc,
        &[goes(true, 1_150_000_000), goes(false, 1_150_000_000)],
        b"0000002 0010000000000000 00000000 0000\n0000003 0000000000000000 00000000 0000\n",
    ) && gives(
        alloc,
        &[goes(true, 900_000_000), goes(false, 1_050_000_000)],
        b"0000001 0010000000000000 00000000 0000\n0000002 0000000000000000 00000000 0000\n",
    ) && gives(
        alloc,
        &[goes(true, START + 599_999_900_000_000)],
        b"6000000 0010000000000000 00000000 0000\n",
    )
}

#[test]
fn logs_tell_the_ticks_that_inputs_are_on(rt: HostRuntime) {
    assert!(rt; tells_the_ticks(rt.alloc()));
}

/// Whether the street refuses an event past the last tick, and has no row of it.
fn refuses_the_end(street: &mut Street) -> bool {
    let none = KnownRows {
        first: None,
        second: None,
    };
    street.push(goes(true, START + 600_000_000_000_000)) == None && street.finish() == none
}

#[test]
fn events_past_the_last_tick_are_refused(rt: HostRuntime) -> Result<(), Fail> {
    let mut street = Street::new(rt.alloc(), START, &[WIRE])?;
    assert!(rt; refuses_the_end(&mut street));
    Ok(())
}
