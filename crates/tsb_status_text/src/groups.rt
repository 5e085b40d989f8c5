//! The line, and its groups of status objects.
ghost use Rattle.std.specs.Prelude.{◌≡◌, ◌≤◌, ◌+◌, ◌-◌, ◌++◌, get_or, length, option_map};
ghost use Rattle.tsb_types.specs.Sets.{has_detector, has_number};
ghost use Rattle.tsb_types.specs.declared.limits.TheConstants.{OVERLAPS, PREEMPTS, VEHICLE_DETECTORS};
ghost use Rattle.tsb_step.specs.declared.status.PreemptState.TheVariants.{NotActive};
ghost use Rattle.tsb_status.specs.Plain.{resting, ring_place, ring_status_of, status_of};
ghost use Rattle.tsb_status_text.specs.Alike.{TellsAllAlike};
ghost use Rattle.tsb_status_text.specs.Json.{more, numbers, optional, string};
ghost use Rattle.tsb_status_text.specs.Names.{preempt_name};
ghost use Rattle.tsb_lines.specs.ShortLines.{AddsShort};
ghost use Rattle.tsb_status_text.specs.declared.line.TheConstants.{LONGEST};
ghost use Rattle.tsb_status_text.specs.StatusText.{arrows_member, desk_text, detectors_text, end_text, is_not_active, overlaps_text, phases_text, preempts_text, rings_text, shown_preempts, status_text, waits_text};

use crate::line::{
    StatusLine, push_byte, push_detector_numbers, push_named, push_numbers, push_optional, separate,
};
use crate::names::{desk_name, flash_name, free_name, preempt_name};
use crate::rings::push_ring;
use crate::waits::push_waits;
use tsb_status::{RingStatus, Status};
use tsb_step::PreemptState;
use tsb_types::limits::{OVERLAPS, PREEMPTS, VEHICLE_DETECTORS};
use tsb_types::{DetectorSet, NumberSet, Station};

/// How many phases there are.
const PHASES: u8 = 16;

/// How many preempts a line has where no other is active.
const FEW_PREEMPTS: usize = 4;

/// The line of a status: one object of JSON, in ASCII, without spaces and without a line feed. Its names are those of
/// NTCIP 1202, group by group, so that `reds` of `phaseStatusGroup` is phaseStatusGroupReds; those that it has not are
/// "profile". A set is the list of its numbers, what is none is null, and times are in tenths of a second. It has at
/// most `LONGEST` bytes and takes no memory.
pub fn status_line(status: &Status) -> StatusLine
    ensures line { result ≡ status_text (status_of status.entry.now) }
    ensures alike { TellsAllAlike (status_of status.entry.now) result }
{
    let mut line = StatusLine::new();
    line.push(b"{\"tick\":");
    line.push_number(status.now);
    line.push(b",\"phaseStatusGroup\":");
    push_phases(&mut line, status);
    line.push(b",\"overlapStatusGroup\":");
    push_overlaps(&mut line, status);
    line.push(b",\"vehicleDetectorStatusGroup\":");
    push_detectors(&mut line, status);
    line.push(b",\"preemptState\":");
    push_preempts(&mut line, &status.preempts);
    line.push(b",\"coordPatternStatus\":");
    push_byte(&mut line, status.pattern);
    push_named(&mut line, b",\"localFreeStatus\":", free_name(status.free));
    push_optional(&mut line, b",\"localCounter\":", status.local);
    push_optional(&mut line, b",\"coordSyncStatus\":", status.sync);
    push_named(
        &mut line,
        b",\"unitFlashStatus\":",
        flash_name(status.flash),
    );
    line.push(b",\"desk\":");
    push_desk(&mut line, status);
    line.push(b",\"rings\":");
    push_rings(&mut line, &status.rings);
    line.push(b",\"waits\":");
    push_waits(&mut line, &status.waits);
    push_end(&mut line, status.time);
    line
}

/// Adds `globalTime`, where a clock is set, and the end of the line.
fn push_end(line: &mut StatusLine, time: Option<u32>)
    ensures { AddsShort LONGEST 25 line.old (end_text time) line.new }
{
    match time {
        None => line.push(b"}"),
        Some(seconds) => {
            line.push(b",\"globalTime\":");
            line.push_number(seconds);
            line.push(b"}");
        }
    }
}

/// Adds a set of vehicle detectors to a line, after a name.
fn push_detector_set(line: &mut StatusLine, name: &[u8], set: DetectorSet)
    ensures { AddsShort LONGEST (length name.now + 184) line.old (name.now ++ numbers (has_detector set) VEHICLE_DETECTORS) line.new }
{
    line.push(name);
    push_detector_numbers(line, set);
}

/// Adds a set of phases to a line, after a name.
fn push_set(line: &mut StatusLine, name: &[u8], set: NumberSet)
    ensures { AddsShort LONGEST (length name.now + 40) line.old (name.now ++ numbers (has_number set) 16) line.new }
{
    line.push(name);
    push_numbers(line, set, PHASES);
}

/// Adds a set of overlaps to a line, after a name.
fn push_overlap_set(line: &mut StatusLine, name: &[u8], set: NumberSet)
    ensures { AddsShort LONGEST (length name.now + 40) line.old (name.now ++ numbers (has_number set) OVERLAPS) line.new }
{
    line.push(name);
    push_numbers(line, set, OVERLAPS);
}

/// Adds preemptState of a preempt to a line.
fn push_preempt(line: &mut StatusLine, state: PreemptState)
    ensures { AddsShort LONGEST 19 line.old (string (preempt_name state)) line.new }
{
    push_named(line, b"", preempt_name(state));
}

/// Adds phaseStatusGroup to a line.
fn push_phases(line: &mut StatusLine, status: &Status)
    ensures { AddsShort LONGEST 515 line.old (phases_text (status_of status.entry.now)) line.new }
{
    push_set(line, b"{\"reds\":", status.reds);
    push_set(line, b",\"yellows\":", status.yellows);
    push_set(line, b",\"greens\":", status.greens);
    push_set(line, b",\"dontWalks\":", status.dont_walks);
    push_set(line, b",\"pedClears\":", status.pedestrian_clears);
    push_set(line, b",\"walks\":", status.walks);
    push_set(line, b",\"vehCalls\":", status.vehicle_calls);
    push_set(line, b",\"pedCalls\":", status.pedestrian_calls);
    push_set(line, b",\"phaseOns\":", status.phase_ons);
    push_set(line, b",\"phaseNexts\":", status.phase_nexts);
    line.push(b"}");
}

/// Adds the arrows that flash yellow to a line, where the plan has an arrow, and closes overlapStatusGroup.
fn push_arrows(line: &mut StatusLine, arrows: Option<NumberSet>)
    ensures { AddsShort LONGEST 60 line.old (more (arrows_member (option_map has_number arrows)) 125) line.new }
{
    match arrows {
        None => line.push(b"}"),
        Some(set) => {
            push_overlap_set(line, b",\"flashingYellows\":", set);
            line.push(b"}");
        }
    }
}

/// Adds overlapStatusGroup to a line.
fn push_overlaps(line: &mut StatusLine, status: &Status)
    ensures { AddsShort LONGEST 209 line.old (overlaps_text (status_of status.entry.now)) line.new }
{
    push_overlap_set(line, b"{\"reds\":", status.overlap_reds);
    push_overlap_set(line, b",\"yellows\":", status.overlap_yellows);
    push_overlap_set(line, b",\"greens\":", status.overlap_greens);
    push_arrows(line, status.overlap_arrows);
}

/// Adds vehicleDetectorStatusGroup to a line.
fn push_detectors(line: &mut StatusLine, status: &Status)
    ensures { AddsShort LONGEST 389 line.old (detectors_text (status_of status.entry.now)) line.new }
{
    push_detector_set(line, b"{\"active\":", status.active);
    push_detector_set(line, b",\"alarms\":", status.alarms);
    line.push(b"}");
}

/// Adds preemptState to a line: that of preempts 1 to 4, and of all of them where one of the others is active.
fn push_preempts(line: &mut StatusLine, states: &[PreemptState; PREEMPTS as usize])
    ensures { AddsShort LONGEST 161 line.old (preempts_text (λ n. get_or states.now (n - 1) NotActive)) line.new }
{
    line.push(b"[");
    let mut first = true;
    for k in 0..shown_preempts(states) {
        separate(line, first);
        push_preempt(line, states[k]);
        first = false;
    }
    line.push(b"]");
}

/// How many preempts a line has.
fn shown_preempts(states: &[PreemptState; PREEMPTS as usize]) -> usize
    ensures value { result ≡ shown_preempts (λ n. get_or states.now (n - 1) NotActive) }
    ensures within { result ≤ PREEMPTS }
{
    for k in FEW_PREEMPTS..PREEMPTS as usize {
        if !is_not_active(states[k]) {
            return PREEMPTS as usize;
        }
    }
    FEW_PREEMPTS
}

/// Whether a preempt is not active.
fn is_not_active(state: PreemptState) -> bool
    ensures { result ≡ is_not_active state }
{
    match state {
        PreemptState::NotActive => true,
        _ => false,
    }
}

/// Adds the number of the desk's owner to a line, or null where there is none.
fn push_owner(line: &mut StatusLine, owner: Option<Station>)
    ensures { AddsShort LONGEST 4 line.old (optional owner) line.new }
{
    match owner {
        None => line.push(b"null"),
        Some(station) => push_byte(line, station.number()),
    }
}

/// Adds the desk to a line.
fn push_desk(line: &mut StatusLine, status: &Status)
    ensures { AddsShort LONGEST 36 line.old (desk_text (status_of status.entry.now)) line.new }
{
    line.push(b"{\"owner\":");
    push_owner(line, status.owner);
    push_named(line, b",\"state\":", desk_name(status.desk));
    line.push(b"}");
}

/// Adds both rings to a line.
fn push_rings(line: &mut StatusLine, rings: &[RingStatus; 2])
    ensures { AddsShort LONGEST 541 line.old (rings_text (λ r. ring_status_of (get_or rings.now (ring_place r) resting))) line.new }
{
    line.push(b"[");
    push_ring(line, &rings[0]);
    line.push(b",");
    push_ring(line, &rings[1]);
    line.push(b"]");
}
