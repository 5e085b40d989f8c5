//! The text of events.
ghost use Rattle.std.specs.Prelude.{◌≡◌, ◌++◌, IfOk, MatchResult, OnOk, List, ℕ};
ghost use Rattle.tsb_field_display.specs.declared.events_error.EventsError.TheVariants.{Late};
ghost use Rattle.tsb_field_display.specs.Texts.{AreLines, EventsWritten, IsLog, LogWritten};
ghost use Rattle.tsb_field_display.specs.Ticks.{AreWritten};

use crate::Shown;
use crate::events_error::EventsError;
use crate::merge::session_events;
use crate::times::{are_written, time_of_tick};
use std::alloc::{AllocError, Global};
use tsb_event_text::{Moment, append_event};
use tsb_log_text::LogRow;
use tsb_types::Event;

/// The line that names the columns.
const HEADER: &[u8] = b"SignalID,Timestamp,EventCode,EventParam\n";

/// The events of a session, as the text of a controller's event log: the header
/// `SignalID,Timestamp,EventCode,EventParam`, and then a line for each event, ended by a line feed. `from` is the
/// moment of tick 1; the time of tick t is t - 1 tenths of a second later. Tick 0, which a session that went back to
/// power-up shows, has the time `from` too, and a tick above 9,999,999, which no display line has, that of 9,999,999.
/// `device` names the controller in each line; the lines are read again where `tsb_event_text::can_be_written` holds of
/// it.
///
/// The events are those of `changes` (before the first nothing is lit) and those of `rows` of a log of inputs (before
/// the first all inputs are off): an input that goes on gives 82 (vehicle detector), 90 (pedestrian detector) or 102
/// (preempt input), one that goes off 81, 89 or 104, with its number as the parameter, at the row's tick. Where the
/// ticks of changes and those of rows rise they come by tick, then code, then parameter (Indiana enumerations).
///
/// `Late` where the time of tick 9,999,999, or `from`, has no year of four digits: it comes before any other error, and
/// nothing was made. `Memory` where memory runs out: what was made is gone.
pub fn events_text(
    alloc: Global,
    from: Moment,
    device: &[u8],
    changes: &[Shown],
    rows: &[LogRow],
) -> Result<Vec<u8>, EventsError>
    ensures { EventsWritten result from device.now changes.now rows.now }
{
    judge_times(from)?;
    match session_events(alloc, changes, rows) {
        Ok(events) => log_text(alloc, from, device, &events),
        Err(_) => Err(EventsError::Memory),
    }
}

/// These events, as the text of a controller's event log, as `events_text` has it: the header, and then a line for each
/// event, in their order.
///
/// `Late` where the time of tick 9,999,999, or `from`, has no year of four digits: it comes before any other error, and
/// nothing was made. `Memory` where memory runs out: what was made is gone.
pub fn log_text(
    alloc: Global,
    from: Moment,
    device: &[u8],
    events: &[Event],
) -> Result<Vec<u8>, EventsError>
    ensures { LogWritten result from device.now events.now }
{
    judge_times(from)?;
    match written(alloc, from, device, events) {
        Ok(text) => Ok(text),
        Err(_) => Err(EventsError::Memory),
    }
}

/// Whether each tick has a time. `Late` is its only error.
fn judge_times(from: Moment) -> Result<(), EventsError>
    ensures { MatchResult result (λ _. AreWritten from) (λ fault. (fault ≡ Late) × (AreWritten from → ⊥)) }
{
    if !are_written(from) {
        return Err(EventsError::Late);
    }
    Ok(())
}

/// The header and the lines of events.
fn written(
    alloc: Global,
    from: Moment,
    device: &[u8],
    events: &[Event],
) -> Result<Vec<u8>, AllocError>
    requires { AreWritten from }
    ensures { IfOk result (λ text. IsLog from device.now events.now text.items) }
{
    let mut text = Vec::new(alloc);
    text.extend_from_slice(HEADER)?;
    append_lines(&mut text, from, device, events)?;
    Ok(text)
}

/// Adds the lines of events to a text.
fn append_lines(
    text: &mut Vec<u8>,
    from: Moment,
    device: &[u8],
    events: &[Event],
) -> Result<(), AllocError>
    requires { AreWritten from }
    ensures { OnOk result ((lines : List ℕ) × (text.new.items ≡ text.old.items ++ lines) × AreLines from device.now events.now lines) }
{
    let mut tick = 0;
    let mut time = time_of_tick(from, tick);
    for event in events {
        if event.tick != tick {
            tick = event.tick;
            time = time_of_tick(from, tick);
        }
        append_event(
            text,
            device,
            &time,
            event.code as u32,
            event.parameter as u32,
        )?;
    }
    Ok(())
}
