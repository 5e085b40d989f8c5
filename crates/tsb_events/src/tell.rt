//! Telling the events of an input, group by group.
ghost use Rattle.std.specs.Prelude.{◌≡◌, ◌+◌, ◌*◌, ◌++◌, ◌≤◌, ◌&&◌, not};
ghost use Rattle.arrayvec.specs.ArrayVec.{array_vec_len};
ghost use Rattle.tsb_step.specs.tsb_types.Sets.{has_detector, has_number};
ghost use Rattle.tsb_step.specs.tsb_types.Events.{begins, either, told, told_detectors};
ghost use Rattle.tsb_types.specs.declared.limits.TheConstants.{VEHICLE_DETECTORS};
ghost use Rattle.tsb_step.specs.Events.{alarm_events, arrow_events, but_recalls, button_events, call_events, clearing_events, crossing_events, cycle_events, ending_events, exit_events, flash_events, green_events, leaves_dwell, once_green, other_events, overlap_events, pedestrian_events, pedestrian_calls_in, preempt_events, presence_events, request_events, requests, serving, tick_events, vehicle_calls_in, vehicle_events, vehicles_in, zero_events};
ghost use Rattle.tsb_events.specs.declared.tell.TheConstants.{EVENTS};
ghost use Rattle.tsb_events.specs.Seen.{found_of, selected_of, view_of};

use crate::pattern::{tell_pattern, tell_value};
use crate::seen::{Change, Found, Seen};
use arrayvec::ArrayVec;
use tsb_step::log_form::{LogForm, Noted};
use tsb_types::event::{
    ALARM_COMES, ALARM_GOES, ARROW_BEGINS, ARROW_ENDS, BARRIER_CROSSED, CALL_COMES, CALL_GOES,
    CLEARANCE_BEGINS, CONFLICT_BEGINS, CYCLE_STATE_CHANGES, CYCLE_ZERO, DONT_WALK_BEGINS,
    DWELL_BEGINS, EXIT_BEGINS, FLASH, FLASH_CHANGES, FORCE_OFF, GAP_OUT, GREEN_BEGINS, GREEN_ENDS,
    MAX_OUT, MINIMUM_COMPLETE, NO_FLASH, OVERLAP_GREEN_BEGINS, OVERLAP_OFF, OVERLAP_RED_BEGINS,
    OVERLAP_TRAIL_BEGINS, OVERLAP_YELLOW_BEGINS, PEDESTRIAN_CALL_COMES, PEDESTRIAN_OFF,
    PEDESTRIAN_ON, PHASE_OFF, PHASE_ON, PREEMPT_ENTERS, PREEMPT_OFF, PREEMPT_ON, PRESENCE_EXCEEDED,
    RED_CLEARANCE_BEGINS, RED_CLEARANCE_ENDS, TRACK_BEGINS, VEHICLE_OFF, VEHICLE_ON, WALK_BEGINS,
    YELLOW_BEGINS, YELLOW_ENDS, YIELD_POINT, begun, joined, tell, tell_detectors,
};
use tsb_types::limits::VEHICLE_DETECTORS;
use tsb_types::{DetectorSet, Event, NumberSet, Row};

/// The most events of one input: 16 of each of 36 codes, four more, and one for each vehicle detector of each of 4
/// codes.
pub const EVENTS: usize = 16 * 36 + 4 + 4 * VEHICLE_DETECTORS as usize;

/// The events of one input.
pub type Events = ArrayVec<Event, EVENTS>;

/// The events of tick `tick`, from what the log saw before it, what it sees after it, and what the tick found. They take
/// the place of those in `events`.
pub fn tick_events(events: &mut Events, tick: u32, was: &Seen, now: &Seen, found: &Found)
    ensures { events.new.items ≡ tick_events tick (found_of found.now) (view_of was.now) (view_of now.now) }
{
    events.clear();
    tell_greens(events, tick, was, now);
    tell_endings(events, tick, found);
    tell_clearings(events, tick, was, now);
    tell_pedestrians(events, tick, was, now);
    tell_crossing(events, tick, was, now);
    tell_arrows(events, tick, was, now);
    tell_calls(events, tick, &found.noted.form, was, now);
    tell_overlaps(events, tick, was, now);
    tell_vehicles(events, tick, &found.noted, &found.row, was, now);
    tell_alarms(events, tick, was, now);
    tell_buttons(events, tick, found);
    tell_requests(events, tick, &found.noted.row, &found.row, was, now);
    tell_preempts(events, tick, was, now);
    tell_presence(events, tick, found, was, now);
    tell_exits(events, tick, was, now);
    tell_counter(events, tick, found, was, now);
    tell(events, tick, YIELD_POINT, found.yields);
    tell_flash(events, tick, was, now);
}

/// The events of an input that is no tick, at tick number `tick`, from what the log has noted and saw before it, and
/// what it sees after it. They take the place of those in `events`.
pub fn other_events(
    events: &mut Events,
    tick: u32,
    noted: &Noted,
    was: &Seen,
    now: &Seen,
    change: &Change,
)
    ensures { events.new.items ≡ other_events tick noted.now (view_of was.now) (view_of now.now) (selected_of change.now.before) (selected_of change.now.after) }
{
    events.clear();
    tell_greens(events, tick, was, now);
    tell_clearings(events, tick, was, now);
    tell_pedestrians(events, tick, was, now);
    tell_arrows(events, tick, was, now);
    tell_calls(events, tick, &noted.form, was, now);
    tell_overlaps(events, tick, was, now);
    tell_vehicles(events, tick, noted, &noted.row, was, now);
    tell_alarms(events, tick, was, now);
    tell_requests(events, tick, &noted.row, &noted.row, was, now);
    tell_preempts(events, tick, was, now);
    tell_exits(events, tick, was, now);
    tell_pattern(events, tick, &change.before, &change.after);
    tell_cycle(events, tick, was, now);
    tell_flash(events, tick, was, now);
}

/// Adds an event for each number that is in a set now and was not.
fn tell_begun(events: &mut Events, tick: u32, code: u8, was: NumberSet, now: NumberSet)
    requires { array_vec_len events.old + 16 ≤ EVENTS }
    ensures told { events.new.items ≡ events.old.items ++ told tick code (begins (has_number was) (has_number now)) }
    ensures few { array_vec_len events.new ≤ array_vec_len events.old + 16 }
{
    tell(events, tick, code, begun(was, now));
}

/// Adds an event for each vehicle detector that is in a set now and was not.
fn tell_detectors_begun(
    events: &mut Events,
    tick: u32,
    code: u8,
    was: DetectorSet,
    now: DetectorSet,
)
    requires { array_vec_len events.old + VEHICLE_DETECTORS ≤ EVENTS }
    ensures told { events.new.items ≡ events.old.items ++ told_detectors tick code (begins (has_detector was) (has_detector now)) }
    ensures few { array_vec_len events.new ≤ array_vec_len events.old + VEHICLE_DETECTORS }
{
    tell_detectors(events, tick, code, now.difference(was));
}

/// Adds the greens that begin, and the conflicts that begin in a green.
fn tell_greens(events: &mut Events, tick: u32, was: &Seen, now: &Seen)
    requires { array_vec_len events.old + 48 ≤ EVENTS }
    ensures told { events.new.items ≡ events.old.items ++ green_events tick (view_of was.now) (view_of now.now) }
    ensures few { array_vec_len events.new ≤ array_vec_len events.old + 48 }
{
    tell_begun(events, tick, PHASE_ON, was.greens, now.greens);
    tell_begun(events, tick, GREEN_BEGINS, was.greens, now.greens);
    tell_begun(events, tick, CONFLICT_BEGINS, was.conflicts, now.conflicts);
}

/// Adds the greens whose minimum a tick completed, and those that it ended without a preempt, by what ended them.
fn tell_endings(events: &mut Events, tick: u32, found: &Found)
    requires { array_vec_len events.old + 64 ≤ EVENTS }
    ensures told { events.new.items ≡ events.old.items ++ ending_events tick (found_of found.now) }
    ensures few { array_vec_len events.new ≤ array_vec_len events.old + 64 }
{
    tell(events, tick, MINIMUM_COMPLETE, found.minimum);
    tell(events, tick, GAP_OUT, found.gap);
    tell(events, tick, MAX_OUT, found.maximum);
    tell(events, tick, FORCE_OFF, found.force_off);
}

/// The phases in service.
fn serving(seen: &Seen) -> NumberSet
    ensures { has_number result ≡ serving (view_of seen.now) }
{
    joined(joined(seen.greens, seen.yellows), seen.red_clearances)
}

/// The phases whose red clearance timed, or begins now.
fn timed(was: &Seen, now: &Seen) -> NumberSet
    ensures { has_number result ≡ either (view_of was.now).red_timings (begins (view_of was.now).red_clearances (view_of now.now).red_clearances) }
{
    joined(
        was.red_timings,
        begun(was.red_clearances, now.red_clearances),
    )
}

/// Adds the greens that end, the yellow changes and red clearances that begin and end, and the phases that are no
/// longer in service.
fn tell_clearings(events: &mut Events, tick: u32, was: &Seen, now: &Seen)
    requires { array_vec_len events.old + 96 ≤ EVENTS }
    ensures told { events.new.items ≡ events.old.items ++ clearing_events tick (view_of was.now) (view_of now.now) }
    ensures few { array_vec_len events.new ≤ array_vec_len events.old + 96 }
{
    tell_begun(events, tick, GREEN_ENDS, now.greens, was.greens);
    tell_begun(events, tick, YELLOW_BEGINS, was.yellows, now.yellows);
    tell_begun(events, tick, YELLOW_ENDS, now.yellows, was.yellows);
    tell_begun(
        events,
        tick,
        RED_CLEARANCE_BEGINS,
        was.red_clearances,
        now.red_clearances,
    );
    tell_begun(
        events,
        tick,
        RED_CLEARANCE_ENDS,
        now.red_timings,
        timed(was, now),
    );
    tell_begun(events, tick, PHASE_OFF, serving(now), serving(was));
}

/// Adds the walks and pedestrian clearances that begin, and the phases that have neither any more.
fn tell_pedestrians(events: &mut Events, tick: u32, was: &Seen, now: &Seen)
    requires { array_vec_len events.old + 48 ≤ EVENTS }
    ensures told { events.new.items ≡ events.old.items ++ pedestrian_events tick (view_of was.now) (view_of now.now) }
    ensures few { array_vec_len events.new ≤ array_vec_len events.old + 48 }
{
    let walking_was = joined(was.walks, was.clearances);
    let walking = joined(now.walks, now.clearances);
    tell_begun(events, tick, WALK_BEGINS, was.walks, now.walks);
    tell_begun(
        events,
        tick,
        CLEARANCE_BEGINS,
        was.clearances,
        now.clearances,
    );
    tell_begun(events, tick, DONT_WALK_BEGINS, walking, walking_was);
}

/// Adds a crossing of the barrier that is completed.
fn tell_crossing(events: &mut Events, tick: u32, was: &Seen, now: &Seen)
    requires { array_vec_len events.old + 1 ≤ EVENTS }
    ensures told { events.new.items ≡ events.old.items ++ crossing_events tick (view_of was.now) (view_of now.now) }
    ensures few { array_vec_len events.new ≤ array_vec_len events.old + 1 }
{
    if was.crosses && !now.crosses {
        events.push(Event {
            tick,
            code: BARRIER_CROSSED,
            parameter: now.side.number(),
        });
    }
}

/// Those of some calls that a log of this form has, where these phases are on recall.
fn but_recalls(form: &LogForm, calls: NumberSet, recalls: NumberSet) -> NumberSet
    ensures { has_number result ≡ but_recalls form.now (has_number calls) (has_number recalls) }
{
    if form.recalls {
        calls
    } else {
        calls.difference(recalls)
    }
}

/// The phases with a vehicle call that a log of this form has.
fn vehicle_calls(form: &LogForm, seen: &Seen) -> NumberSet
    ensures { has_number result ≡ vehicle_calls_in form.now (view_of seen.now) }
{
    but_recalls(form, seen.vehicle_calls, seen.recalls)
}

/// Those with a pedestrian call.
fn pedestrian_calls(form: &LogForm, seen: &Seen) -> NumberSet
    ensures { has_number result ≡ pedestrian_calls_in form.now (view_of seen.now) }
{
    but_recalls(form, seen.pedestrian_calls, seen.pedestrian_recalls)
}

/// Adds the calls that come, and the vehicle calls that go.
fn tell_calls(events: &mut Events, tick: u32, form: &LogForm, was: &Seen, now: &Seen)
    requires { array_vec_len events.old + 48 ≤ EVENTS }
    ensures told { events.new.items ≡ events.old.items ++ call_events tick form.now (view_of was.now) (view_of now.now) }
    ensures few { array_vec_len events.new ≤ array_vec_len events.old + 48 }
{
    let called_was = vehicle_calls(form, was);
    let called = vehicle_calls(form, now);
    tell_begun(events, tick, CALL_COMES, called_was, called);
    tell_begun(events, tick, CALL_GOES, called, called_was);
    let pedestrians_was = pedestrian_calls(form, was);
    let pedestrians = pedestrian_calls(form, now);
    tell_begun(
        events,
        tick,
        PEDESTRIAN_CALL_COMES,
        pedestrians_was,
        pedestrians,
    );
}

/// Adds the arrows that begin to flash, and those that end it.
fn tell_arrows(events: &mut Events, tick: u32, was: &Seen, now: &Seen)
    requires { array_vec_len events.old + 32 ≤ EVENTS }
    ensures told { events.new.items ≡ events.old.items ++ arrow_events tick (view_of was.now) (view_of now.now) }
    ensures few { array_vec_len events.new ≤ array_vec_len events.old + 32 }
{
    tell_begun(
        events,
        tick,
        ARROW_BEGINS,
        was.overlap_arrows,
        now.overlap_arrows,
    );
    tell_begun(
        events,
        tick,
        ARROW_ENDS,
        now.overlap_arrows,
        was.overlap_arrows,
    );
}

/// Adds what overlaps begin to show, and those that go off.
fn tell_overlaps(events: &mut Events, tick: u32, was: &Seen, now: &Seen)
    requires { array_vec_len events.old + 80 ≤ EVENTS }
    ensures told { events.new.items ≡ events.old.items ++ overlap_events tick (view_of was.now) (view_of now.now) }
    ensures few { array_vec_len events.new ≤ array_vec_len events.old + 80 }
{
    let steady_was = joined(was.overlap_greens, was.overlap_yellows);
    let lit_was = joined(steady_was, was.overlap_arrows);
    let steady = joined(now.overlap_greens, now.overlap_yellows);
    let lit = joined(steady, now.overlap_arrows);
    tell_begun(
        events,
        tick,
        OVERLAP_GREEN_BEGINS,
        was.overlap_greens,
        now.overlap_greens,
    );
    tell_begun(
        events,
        tick,
        OVERLAP_TRAIL_BEGINS,
        was.overlap_trails,
        now.overlap_trails,
    );
    tell_begun(
        events,
        tick,
        OVERLAP_YELLOW_BEGINS,
        was.overlap_yellows,
        now.overlap_yellows,
    );
    tell_begun(events, tick, OVERLAP_RED_BEGINS, lit, lit_was);
    tell_begun(
        events,
        tick,
        OVERLAP_OFF,
        was.overlaps_off,
        now.overlaps_off,
    );
}

/// The vehicle detectors that are on in a log of this form, where these inputs are on.
fn vehicles(form: &LogForm, row: &Row, seen: &Seen) -> DetectorSet
    ensures { has_detector result ≡ vehicles_in form.now row.now (view_of seen.now) }
{
    if form.outputs {
        seen.outputs
    } else {
        row.vehicles
    }
}

/// Adds the vehicle detectors that go off and on. The inputs of `row` are on after the input.
fn tell_vehicles(events: &mut Events, tick: u32, noted: &Noted, row: &Row, was: &Seen, now: &Seen)
    requires { array_vec_len events.old + 2 * VEHICLE_DETECTORS ≤ EVENTS }
    ensures told { events.new.items ≡ events.old.items ++ vehicle_events tick noted.now row.now (view_of was.now) (view_of now.now) }
    ensures few { array_vec_len events.new ≤ array_vec_len events.old + 2 * VEHICLE_DETECTORS }
{
    let on_was = vehicles(&noted.form, &noted.row, was);
    let on = vehicles(&noted.form, row, now);
    tell_detectors_begun(events, tick, VEHICLE_OFF, on, on_was);
    tell_detectors_begun(events, tick, VEHICLE_ON, on_was, on);
}

/// Adds the alarms of vehicle detectors that go and come.
fn tell_alarms(events: &mut Events, tick: u32, was: &Seen, now: &Seen)
    requires { array_vec_len events.old + 2 * VEHICLE_DETECTORS ≤ EVENTS }
    ensures told { events.new.items ≡ events.old.items ++ alarm_events tick (view_of was.now) (view_of now.now) }
    ensures few { array_vec_len events.new ≤ array_vec_len events.old + 2 * VEHICLE_DETECTORS }
{
    tell_detectors_begun(events, tick, ALARM_GOES, now.alarms, was.alarms);
    tell_detectors_begun(events, tick, ALARM_COMES, was.alarms, now.alarms);
}

/// Adds the pedestrian inputs that go off and on in a tick.
fn tell_buttons(events: &mut Events, tick: u32, found: &Found)
    requires { array_vec_len events.old + 32 ≤ EVENTS }
    ensures told { events.new.items ≡ events.old.items ++ button_events tick (found_of found.now) }
    ensures few { array_vec_len events.new ≤ array_vec_len events.old + 32 }
{
    let was = found.noted.row.pedestrians;
    let now = found.row.pedestrians;
    tell_begun(events, tick, PEDESTRIAN_OFF, now, was);
    tell_begun(events, tick, PEDESTRIAN_ON, was, now);
}

/// The preempts that are asked for, where these inputs are on.
fn requests(row: &Row, seen: &Seen) -> NumberSet
    ensures { has_number result ≡ requests row.now (view_of seen.now) }
{
    joined(row.preempts, seen.switches)
}

/// Adds the requests of preempts that come and go. The inputs of `last` were on before the input, and those of `row` are
/// on after it.
fn tell_requests(events: &mut Events, tick: u32, last: &Row, row: &Row, was: &Seen, now: &Seen)
    requires { array_vec_len events.old + 32 ≤ EVENTS }
    ensures told { events.new.items ≡ events.old.items ++ request_events tick last.now row.now (view_of was.now) (view_of now.now) }
    ensures few { array_vec_len events.new ≤ array_vec_len events.old + 32 }
{
    let asked_was = requests(last, was);
    let asked = requests(row, now);
    tell_begun(events, tick, PREEMPT_ON, asked_was, asked);
    tell_begun(events, tick, PREEMPT_OFF, asked, asked_was);
}

/// Preempts in a stage, once each phase of the stage is Green.
fn once_green(seen: &Seen, stage: NumberSet) -> NumberSet
    ensures { has_number result ≡ once_green (view_of seen.now) (has_number stage) }
{
    if seen.stage_is_green {
        stage
    } else {
        NumberSet::empty()
    }
}

/// Adds a preempt that enters service, and its track greens and its dwell greens as they are all there.
fn tell_preempts(events: &mut Events, tick: u32, was: &Seen, now: &Seen)
    requires { array_vec_len events.old + 48 ≤ EVENTS }
    ensures told { events.new.items ≡ events.old.items ++ preempt_events tick (view_of was.now) (view_of now.now) }
    ensures few { array_vec_len events.new ≤ array_vec_len events.old + 48 }
{
    tell_begun(events, tick, PREEMPT_ENTERS, was.preempts, now.preempts);
    let tracks_was = once_green(was, was.tracks);
    let tracks = once_green(now, now.tracks);
    let dwells_was = once_green(was, was.dwells);
    let dwells = once_green(now, now.dwells);
    tell_begun(events, tick, TRACK_BEGINS, tracks_was, tracks);
    tell_begun(events, tick, DWELL_BEGINS, dwells_was, dwells);
}

/// The preempt whose dwell a tick ended by its maximum presence.
fn exceeded(found: &Found, was: &Seen, now: &Seen) -> NumberSet
    ensures { has_number result ≡ (λ n. leaves_dwell (view_of was.now) (view_of now.now) n && not (found_of found.now).served) }
{
    if found.served {
        NumberSet::empty()
    } else if now.is_preempted {
        was.dwells.intersection(now.exits)
    } else {
        was.dwells
    }
}

/// Adds the dwell that a tick ended by its maximum presence.
fn tell_presence(events: &mut Events, tick: u32, found: &Found, was: &Seen, now: &Seen)
    requires { array_vec_len events.old + 16 ≤ EVENTS }
    ensures told { events.new.items ≡ events.old.items ++ presence_events tick (found_of found.now) (view_of was.now) (view_of now.now) }
    ensures few { array_vec_len events.new ≤ array_vec_len events.old + 16 }
{
    tell(events, tick, PRESENCE_EXCEEDED, exceeded(found, was, now));
}

/// Adds the exit greens of a preempt as they are all there.
fn tell_exits(events: &mut Events, tick: u32, was: &Seen, now: &Seen)
    requires { array_vec_len events.old + 16 ≤ EVENTS }
    ensures told { events.new.items ≡ events.old.items ++ exit_events tick (view_of was.now) (view_of now.now) }
    ensures few { array_vec_len events.new ≤ array_vec_len events.old + 16 }
{
    let exits_was = once_green(was, was.exits);
    let exits = once_green(now, now.exits);
    tell_begun(events, tick, EXIT_BEGINS, exits_was, exits);
}

/// Adds how the local counter goes, where it goes otherwise than before.
fn tell_cycle(events: &mut Events, tick: u32, was: &Seen, now: &Seen)
    requires { array_vec_len events.old + 1 ≤ EVENTS }
    ensures told { events.new.items ≡ events.old.items ++ cycle_events tick (view_of was.now) (view_of now.now) }
    ensures few { array_vec_len events.new ≤ array_vec_len events.old + 1 }
{
    let before = was.cycle.number();
    let after = now.cycle.number();
    tell_value(events, tick, CYCLE_STATE_CHANGES, before, after);
}

/// Adds local zero, where a tick comes to it.
fn tell_zero(events: &mut Events, tick: u32, found: &Found)
    requires { array_vec_len events.old + 1 ≤ EVENTS }
    ensures told { events.new.items ≡ events.old.items ++ zero_events tick (found_of found.now) }
    ensures few { array_vec_len events.new ≤ array_vec_len events.old + 1 }
{
    if found.zero {
        events.push(Event {
            tick,
            code: CYCLE_STATE_CHANGES,
            parameter: CYCLE_ZERO,
        });
    }
}

/// Adds how the local counter goes in a tick, where it goes otherwise than before, and local zero.
fn tell_counter(events: &mut Events, tick: u32, found: &Found, was: &Seen, now: &Seen)
    requires { array_vec_len events.old + 2 ≤ EVENTS }
    ensures told { events.new.items ≡ events.old.items ++ (cycle_events tick (view_of was.now) (view_of now.now) ++ zero_events tick (found_of found.now)) }
    ensures few { array_vec_len events.new ≤ array_vec_len events.old + 2 }
{
    tell_cycle(events, tick, was, now);
    tell_zero(events, tick, found);
}

/// Adds a flash by the monitor that begins or ends.
fn tell_flash(events: &mut Events, tick: u32, was: &Seen, now: &Seen)
    requires { array_vec_len events.old + 1 ≤ EVENTS }
    ensures told { events.new.items ≡ events.old.items ++ flash_events tick (view_of was.now) (view_of now.now) }
    ensures few { array_vec_len events.new ≤ array_vec_len events.old + 1 }
{
    if now.flashes != was.flashes {
        events.push(Event {
            tick,
            code: FLASH_CHANGES,
            parameter: if now.flashes { FLASH } else { NO_FLASH },
        });
    }
}
