//! The events of a change of what is shown.
ghost use Rattle.std.specs.Prelude.{◌≡◌, ◌+◌, ◌++◌, ◌≤◌};
ghost use Rattle.arrayvec.specs.ArrayVec.{array_vec_len};
ghost use Rattle.tsb_types.specs.Lists.{is};
ghost use Rattle.tsb_field_display.specs.Events.{arrow_events, events_of, flash_events, is_in_flash, overlap_events, pedestrian_events, preempt_events, vehicle_events};

use crate::shown::{Shown, Signals, same};
use arrayvec::ArrayVec;
use tsb_types::Event;
use tsb_types::event::{
    ARROW_BEGINS, ARROW_ENDS, CLEARANCE_BEGINS, DONT_WALK_BEGINS, FLASH, FLASH_CHANGES,
    GREEN_BEGINS, GREEN_ENDS, NO_FLASH, OVERLAP_GREEN_BEGINS, OVERLAP_RED_BEGINS,
    OVERLAP_YELLOW_BEGINS, PREEMPT_ENTERS, WALK_BEGINS, YELLOW_BEGINS, YELLOW_ENDS, begun, joined,
    tell,
};

/// The most events of one change.
pub const EVENTS: usize = 194;

/// The events of one change.
pub type Events = ArrayVec<Event, EVENTS>;

/// The events of a change: from what was shown before to what a line shows. They are ordered by code and then by
/// parameter. Where the line shows the same there is none, and only what differs is visited.
#[tactic(auto, unfolding(crate::specs::Events::events_of))]
pub fn events_between(before: &Signals, now: &Shown) -> Events
    ensures { result.items ≡ events_of before.now now.now }
{
    let mut events = Events::new();
    if same(before, &now.signals) {
        return events;
    }
    tell_vehicles(&mut events, before, now);
    tell_pedestrians(&mut events, before, now);
    tell_arrows(&mut events, before, now);
    tell_overlaps(&mut events, before, now);
    tell_preempt(&mut events, before, now);
    tell_flash(&mut events, before, now);
    events
}

/// Adds the events of vehicle heads.
fn tell_vehicles(events: &mut Events, before: &Signals, now: &Shown)
    requires { array_vec_len events.old + 64 ≤ 194 }
    ensures told { events.new.items ≡ events.old.items ++ vehicle_events before.now now.now.tick now.now.signals }
    ensures few { array_vec_len events.new ≤ array_vec_len events.old + 64 }
{
    let was = before.vehicles;
    let is = now.signals.vehicles;
    tell(events, now.tick, GREEN_BEGINS, begun(was.greens, is.greens));
    tell(events, now.tick, GREEN_ENDS, begun(is.greens, was.greens));
    tell(
        events,
        now.tick,
        YELLOW_BEGINS,
        begun(was.yellows, is.yellows),
    );
    tell(
        events,
        now.tick,
        YELLOW_ENDS,
        begun(is.yellows, was.yellows),
    );
}

/// Adds the events of pedestrian heads.
fn tell_pedestrians(events: &mut Events, before: &Signals, now: &Shown)
    requires { array_vec_len events.old + 48 ≤ 194 }
    ensures told { events.new.items ≡ events.old.items ++ pedestrian_events before.now now.now.tick now.now.signals }
    ensures few { array_vec_len events.new ≤ array_vec_len events.old + 48 }
{
    let was = before.pedestrians;
    let is = now.signals.pedestrians;
    let crossing_was = joined(was.walks, was.clearances);
    let crossing_is = joined(is.walks, is.clearances);
    tell(events, now.tick, WALK_BEGINS, begun(was.walks, is.walks));
    tell(
        events,
        now.tick,
        CLEARANCE_BEGINS,
        begun(was.clearances, is.clearances),
    );
    tell(
        events,
        now.tick,
        DONT_WALK_BEGINS,
        begun(crossing_is, crossing_was),
    );
}

/// Adds the events of arrows.
fn tell_arrows(events: &mut Events, before: &Signals, now: &Shown)
    requires { array_vec_len events.old + 32 ≤ 194 }
    ensures told { events.new.items ≡ events.old.items ++ arrow_events before.now now.now.tick now.now.signals }
    ensures few { array_vec_len events.new ≤ array_vec_len events.old + 32 }
{
    let was = before.overlaps.arrows;
    let is = now.signals.overlaps.arrows;
    tell(events, now.tick, ARROW_BEGINS, begun(was, is));
    tell(events, now.tick, ARROW_ENDS, begun(is, was));
}

/// Adds the events of overlaps.
fn tell_overlaps(events: &mut Events, before: &Signals, now: &Shown)
    requires { array_vec_len events.old + 48 ≤ 194 }
    ensures told { events.new.items ≡ events.old.items ++ overlap_events before.now now.now.tick now.now.signals }
    ensures few { array_vec_len events.new ≤ array_vec_len events.old + 48 }
{
    let was = before.overlaps;
    let is = now.signals.overlaps;
    let lit_was = joined(joined(was.greens, was.yellows), was.arrows);
    let lit_is = joined(joined(is.greens, is.yellows), is.arrows);
    tell(
        events,
        now.tick,
        OVERLAP_GREEN_BEGINS,
        begun(was.greens, is.greens),
    );
    tell(
        events,
        now.tick,
        OVERLAP_YELLOW_BEGINS,
        begun(was.yellows, is.yellows),
    );
    tell(events, now.tick, OVERLAP_RED_BEGINS, begun(lit_is, lit_was));
}

/// Adds the event of a preempt that enters service.
fn tell_preempt(events: &mut Events, before: &Signals, now: &Shown)
    requires { array_vec_len events.old + 1 ≤ 194 }
    ensures told { events.new.items ≡ events.old.items ++ preempt_events before.now.preempt now.now.tick now.now.signals.preempt }
    ensures few { array_vec_len events.new ≤ array_vec_len events.old + 1 }
{
    let Some(preempt) = now.signals.preempt else {
        return;
    };
    if !is_in_service(before.preempt, preempt) {
        events.push(Event {
            tick: now.tick,
            code: PREEMPT_ENTERS,
            parameter: preempt,
        });
    }
}

/// Whether it is this preempt that is in service.
fn is_in_service(shown: Option<u8>, preempt: u8) -> bool
    ensures { result ≡ is preempt shown }
{
    match shown {
        Some(other) => other == preempt,
        None => false,
    }
}

/// Adds the event of a flash that begins or ends.
fn tell_flash(events: &mut Events, before: &Signals, now: &Shown)
    requires { array_vec_len events.old + 1 ≤ 194 }
    ensures told { events.new.items ≡ events.old.items ++ flash_events (is_in_flash before.now) now.now.tick (is_in_flash now.now.signals) }
    ensures few { array_vec_len events.new ≤ array_vec_len events.old + 1 }
{
    let was = before.is_in_flash();
    let is = now.signals.is_in_flash();
    if is != was {
        events.push(Event {
            tick: now.tick,
            code: FLASH_CHANGES,
            parameter: if is { FLASH } else { NO_FLASH },
        });
    }
}
