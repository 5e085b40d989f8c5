//! Telling what an input changed of the selected pattern.
ghost use Rattle.std.specs.Prelude.{◌≡◌, ◌+◌, ◌-◌, ◌++◌, ◌≤◌, ◌<◌, slice_index};
ghost use Rattle.arrayvec.specs.ArrayVec.{array_vec_len};
ghost use Rattle.tsb_step.specs.Events.{if_differs, pattern_events, selection_events, split_events};
ghost use Rattle.tsb_events.specs.declared.tell.TheConstants.{EVENTS};
ghost use Rattle.tsb_events.specs.Seen.{selected_of};

use crate::seen::Selected;
use crate::tell::Events;
use tsb_types::Event;
use tsb_types::event::{CYCLE_CHANGES, FREE, OFFSET_CHANGES, PATTERN_CHANGES, SPLIT_CHANGES};

/// Adds the selected pattern, where another is selected, and cycle, offset and splits as far as these differ.
pub(crate) fn tell_pattern(events: &mut Events, tick: u32, was: &Selected, now: &Selected)
    requires { array_vec_len events.old + 19 ≤ EVENTS }
    ensures told { events.new.items ≡ events.old.items ++ pattern_events tick (selected_of was.now) (selected_of now.now) }
    ensures few { array_vec_len events.new ≤ array_vec_len events.old + 19 }
{
    tell_selection(events, tick, was, now);
    tell_value(events, tick, CYCLE_CHANGES, was.cycle, now.cycle);
    tell_value(events, tick, OFFSET_CHANGES, was.offset, now.offset);
    tell_splits(events, tick, was, now);
}

/// Adds the selected pattern, where another is selected.
fn tell_selection(events: &mut Events, tick: u32, was: &Selected, now: &Selected)
    requires { array_vec_len events.old + 1 ≤ EVENTS }
    ensures told { events.new.items ≡ events.old.items ++ selection_events tick (selected_of was.now) (selected_of now.now) }
    ensures few { array_vec_len events.new ≤ array_vec_len events.old + 1 }
{
    if was.pattern == now.pattern {
        return;
    }
    let number = match now.pattern {
        Some(pattern) => pattern.number(),
        None => FREE,
    };
    events.push(Event {
        tick,
        code: PATTERN_CHANGES,
        parameter: number,
    });
}

/// Adds the splits that differ, of phases 1 to 16.
fn tell_splits(events: &mut Events, tick: u32, was: &Selected, now: &Selected)
    requires { array_vec_len events.old + 16 ≤ EVENTS }
    ensures told { events.new.items ≡ events.old.items ++ split_events tick (selected_of was.now) (selected_of now.now) }
    ensures few { array_vec_len events.new ≤ array_vec_len events.old + 16 }
{
    for k in 0..16 {
        let code = SPLIT_CHANGES + k as u8;
        tell_value(events, tick, code, was.splits[k], now.splits[k]);
    }
}

/// Adds an event with a value that differs from the one before.
pub(crate) fn tell_value(events: &mut Events, tick: u32, code: u8, before: u8, value: u8)
    requires { array_vec_len events.old + 1 ≤ EVENTS }
    ensures told { events.new.items ≡ events.old.items ++ if_differs tick code before value }
    ensures few { array_vec_len events.new ≤ array_vec_len events.old + 1 }
{
    if before != value {
        events.push(Event {
            tick,
            code,
            parameter: value,
        });
    }
}
