//! The events of inputs. Their codes are those of the Indiana Traffic Signal Hi Resolution Data Logger Enumerations,
//! and their parameters are the numbers of the inputs.
ghost use Rattle.std.specs.Prelude.{◌≡◌, ◌++◌, OnOk};
ghost use Rattle.tsb_types.specs.Sets.{has_detector, has_number};
ghost use Rattle.tsb_types.specs.Events.{told, told_detectors};
ghost use Rattle.tsb_field_display.specs.Inputs.{events_of_row, events_of_rows, pedestrian_input_events, preempt_input_events, vehicle_input_events};

use std::alloc::AllocError;
use tsb_log_text::LogRow;
use tsb_types::event::{
    PEDESTRIAN_OFF, PEDESTRIAN_ON, PREEMPT_OFF, PREEMPT_ON, VEHICLE_OFF, VEHICLE_ON, begun,
};
use tsb_types::{DetectorSet, Event, NumberSet, Row};

/// Adds the events of the rows of a log to others. Before the first row all inputs are off.
pub(crate) fn append_rows(events: &mut Vec<Event>, rows: &[LogRow]) -> Result<(), AllocError>
    ensures { OnOk result (events.new.items ≡ events.old.items ++ events_of_rows rows.now) }
{
    let mut before = Row::all_off();
    for row in rows {
        append_row(events, &before, row)?;
        before = row.row;
    }
    Ok(())
}

/// Adds the events of a row that follows another to others: by their codes, and those of one code by their parameters.
#[tactic(auto, unfolding(crate::specs::Inputs::events_of_row))]
fn append_row(events: &mut Vec<Event>, before: &Row, now: &LogRow) -> Result<(), AllocError>
    ensures { OnOk result (events.new.items ≡ events.old.items ++ events_of_row before.now now.now) }
{
    append_vehicles(events, before, now)?;
    append_pedestrians(events, before, now)?;
    append_preempts(events, before, now)?;
    Ok(())
}

/// Adds the events of vehicle detectors to others.
fn append_vehicles(events: &mut Vec<Event>, before: &Row, now: &LogRow) -> Result<(), AllocError>
    ensures { OnOk result (events.new.items ≡ events.old.items ++ vehicle_input_events before.now now.now.tick now.now.row) }
{
    let was = before.vehicles;
    let is = now.row.vehicles;
    tell_detectors(events, now.tick, VEHICLE_OFF, was.difference(is))?;
    tell_detectors(events, now.tick, VEHICLE_ON, is.difference(was))?;
    Ok(())
}

/// Adds the events of pedestrian detectors to others.
fn append_pedestrians(events: &mut Vec<Event>, before: &Row, now: &LogRow) -> Result<(), AllocError>
    ensures { OnOk result (events.new.items ≡ events.old.items ++ pedestrian_input_events before.now now.now.tick now.now.row) }
{
    let was = before.pedestrians;
    let is = now.row.pedestrians;
    tell(events, now.tick, PEDESTRIAN_OFF, begun(is, was))?;
    tell(events, now.tick, PEDESTRIAN_ON, begun(was, is))?;
    Ok(())
}

/// Adds the events of preempt inputs to others.
fn append_preempts(events: &mut Vec<Event>, before: &Row, now: &LogRow) -> Result<(), AllocError>
    ensures { OnOk result (events.new.items ≡ events.old.items ++ preempt_input_events before.now now.now.tick now.now.row) }
{
    let was = before.preempts;
    let is = now.row.preempts;
    tell(events, now.tick, PREEMPT_ON, begun(was, is))?;
    tell(events, now.tick, PREEMPT_OFF, begun(is, was))?;
    Ok(())
}

/// Adds an event for each number of a set to others, the least first.
fn tell(events: &mut Vec<Event>, tick: u32, code: u8, numbers: NumberSet) -> Result<(), AllocError>
    ensures { OnOk result (events.new.items ≡ events.old.items ++ told tick code (has_number numbers)) }
{
    let mut rest = numbers;
    while let Some(number) = rest.first() {
        rest = rest.with(number, false);
        events.push(Event {
            tick,
            code,
            parameter: number,
        })?;
    }
    Ok(())
}

/// Adds an event for each detector of a set to others, the least first.
fn tell_detectors(
    events: &mut Vec<Event>,
    tick: u32,
    code: u8,
    detectors: DetectorSet,
) -> Result<(), AllocError>
    ensures { OnOk result (events.new.items ≡ events.old.items ++ told_detectors tick code (has_detector detectors)) }
{
    let mut rest = detectors;
    while let Some(number) = rest.first() {
        rest = rest.with(number, false);
        events.push(Event {
            tick,
            code,
            parameter: number,
        })?;
    }
    Ok(())
}
