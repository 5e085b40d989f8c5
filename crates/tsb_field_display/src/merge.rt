//! The events of a session, in one order.
ghost use Rattle.std.specs.Prelude.{◌≡◌, ◌++◌, ◌≤◌, IfOk, OnOk, length, take, drop};
ghost use Rattle.tsb_field_display.specs.Events.{events_of_lines};
ghost use Rattle.tsb_field_display.specs.Inputs.{events_of_rows};
ghost use Rattle.tsb_field_display.specs.Merge.{ahead_of, comes_before, merged, not_ahead_of, session_events};

use crate::inputs::append_rows;
use crate::{Shown, Signals, events_between};
use std::alloc::{AllocError, Global};
use tsb_log_text::LogRow;
use tsb_types::Event;

/// The events of a session: those of the changes of its display lines, before the first of which nothing is lit, and
/// those of the rows of its log of inputs, before the first of which all inputs are off. Where the ticks of either rise
/// they are ordered by tick, then code, then parameter.
#[tactic(auto, unfolding(crate::specs::Merge::session_events))]
pub fn session_events(
    alloc: Global,
    changes: &[Shown],
    rows: &[LogRow],
) -> Result<Vec<Event>, AllocError>
    ensures { IfOk result (λ events. events.items ≡ session_events changes.now rows.now) }
{
    let mut display = Vec::new(alloc);
    append_changes(&mut display, changes)?;
    let mut inputs = Vec::new(alloc);
    append_rows(&mut inputs, rows)?;
    let mut events = Vec::new(alloc);
    append_merged(&mut events, &display, &inputs)?;
    Ok(events)
}

/// Adds the events of display lines to others. Before the first line nothing is lit.
fn append_changes(events: &mut Vec<Event>, changes: &[Shown]) -> Result<(), AllocError>
    ensures { OnOk result (events.new.items ≡ events.old.items ++ events_of_lines changes.now) }
{
    let mut before = Signals::nothing_lit();
    for line in changes {
        events.extend_from_slice(events_between(&before, line).as_slice())?;
        before = line.signals;
    }
    Ok(())
}

/// Adds two lists of events to others as one: an event of the second goes ahead of one of the first that it comes
/// before.
fn append_merged(
    events: &mut Vec<Event>,
    display: &[Event],
    inputs: &[Event],
) -> Result<(), AllocError>
    ensures { OnOk result (events.new.items ≡ events.old.items ++ merged display.now inputs.now) }
{
    let mut told = 0;
    for event in display {
        let rest = &inputs[told..];
        let count = count_ahead_of(event, rest);
        events.extend_from_slice(&rest[..count])?;
        events.push(*event)?;
        told += count;
    }
    events.extend_from_slice(&inputs[told..])
}

/// How many of the first of these events come before this one.
fn count_ahead_of(event: &Event, events: &[Event]) -> usize
    ensures within { result ≤ length events.now }
    ensures ahead { take result events.now ≡ ahead_of event.now events.now }
    ensures rest { drop result events.now ≡ not_ahead_of event.now events.now }
{
    let mut count = 0;
    while count < events.len() && comes_before(&events[count], event) {
        count += 1;
    }
    count
}

/// Whether one comes before the other: by tick, then code, then parameter.
fn comes_before(one: &Event, other: &Event) -> bool
    ensures { result ≡ comes_before one.now other.now }
{
    one.tick < other.tick
        || one.tick == other.tick
            && (one.code < other.code || one.code == other.code && one.parameter < other.parameter)
}
