//! Events of a controller, by the Indiana Traffic Signal Hi Resolution Data Logger Enumerations of 2012.
ghost use Rattle.std.specs.Prelude.{◌≡◌, ◌+◌, ◌++◌, ◌≤◌};
ghost use Rattle.arrayvec.specs.ArrayVec.{array_vec_len};
ghost use Rattle.tsb_types.specs.declared.limits.TheConstants.{VEHICLE_DETECTORS};
ghost use Rattle.tsb_types.specs.Events.{begins, either, told, told_detectors};
ghost use Rattle.tsb_types.specs.Sets.{has_detector, has_number};

use crate::detector_set::DetectorSet;
use crate::number_set::NumberSet;
use arrayvec::ArrayVec;

/// An event of a controller's high-resolution log.
#[derive(Clone, Copy, Default, PartialEq, Eq)]
pub struct Event {
    /// The number of the tick at which it comes, at most 9,999,999; a tick is a tenth of a second.
    pub tick: u32,
    /// What happened: one of the codes below.
    pub code: u8,
    /// The phase, overlap, detector, preempt or side to which it happened, or the value that came.
    pub parameter: u8,
}

/// Phase on: a phase turns Green.
pub const PHASE_ON: u8 = 0;
/// Phase begin green: it comes with `PHASE_ON`.
pub const GREEN_BEGINS: u8 = 1;
/// Phase check: a conflict begins in a green, and its maximum begins to time.
pub const CONFLICT_BEGINS: u8 = 2;
/// Phase minimum complete: the minimum green of a green phase is over.
pub const MINIMUM_COMPLETE: u8 = 3;
/// Phase gap out: a green ends by its gap.
pub const GAP_OUT: u8 = 4;
/// Phase max out: a green ends by its maximum.
pub const MAX_OUT: u8 = 5;
/// Phase force off: a green ends by its force-off.
pub const FORCE_OFF: u8 = 6;
/// Phase green termination: a green ends, for whatever cause.
pub const GREEN_ENDS: u8 = 7;
/// Phase begin yellow clearance.
pub const YELLOW_BEGINS: u8 = 8;
/// Phase end yellow clearance.
pub const YELLOW_ENDS: u8 = 9;
/// Phase begin red clearance, where the plan gives one, or the phase waits for the other ring.
pub const RED_CLEARANCE_BEGINS: u8 = 10;
/// Phase end red clearance: its time is over.
pub const RED_CLEARANCE_ENDS: u8 = 11;
/// Phase inactive: it is no longer in service.
pub const PHASE_OFF: u8 = 12;
/// Pedestrian begin walk.
pub const WALK_BEGINS: u8 = 21;
/// Pedestrian begin clearance.
pub const CLEARANCE_BEGINS: u8 = 22;
/// Pedestrian begin solid don't walk: it was walk or clearance, and is neither.
pub const DONT_WALK_BEGINS: u8 = 23;
/// Barrier termination: a crossing is completed. The parameter is the side that is served from now on (profile).
pub const BARRIER_CROSSED: u8 = 31;
/// FYA begin permissive: an arrow begins to flash yellow. The parameter is its overlap.
pub const ARROW_BEGINS: u8 = 32;
/// FYA end permissive: it flashes yellow no longer, also where the monitor has the heads flash red.
pub const ARROW_ENDS: u8 = 33;
/// Phase call registered: the vehicle call of a phase that is not Green comes. None comes of a recall, but in the form of
/// a log that has recalls.
pub const CALL_COMES: u8 = 43;
/// Phase call dropped: it is served, or goes.
pub const CALL_GOES: u8 = 44;
/// Pedestrian call registered.
pub const PEDESTRIAN_CALL_COMES: u8 = 45;
/// Overlap begin green: neither a trailing green nor one that its phases take back.
pub const OVERLAP_GREEN_BEGINS: u8 = 61;
/// Overlap begin trailing green: its phases end, and it stays green.
pub const OVERLAP_TRAIL_BEGINS: u8 = 62;
/// Overlap begin yellow, also after an arrow's flashing yellow.
pub const OVERLAP_YELLOW_BEGINS: u8 = 63;
/// Overlap begin red clearance: it was green, yellow or flashing yellow, and is none of these.
pub const OVERLAP_RED_BEGINS: u8 = 64;
/// Overlap off: it is neither green, yellow nor flashing yellow, and no phase that it includes is in service, nor the
/// turn of an arrow (profile).
pub const OVERLAP_OFF: u8 = 65;
/// Vehicle detector off: its input, before the plan's delay and extension; in the form of a log that has outputs, what it
/// gives after them.
pub const VEHICLE_OFF: u8 = 81;
/// Vehicle detector on.
pub const VEHICLE_ON: u8 = 82;
/// Vehicle detector restored: its alarm goes.
pub const ALARM_GOES: u8 = 83;
/// Vehicle detector fault: an alarm comes, of whatever kind (profile).
pub const ALARM_COMES: u8 = 84;
/// Pedestrian detector off.
pub const PEDESTRIAN_OFF: u8 = 89;
/// Pedestrian detector on.
pub const PEDESTRIAN_ON: u8 = 90;
/// Preempt call input on, or the operator's switch in place of it.
pub const PREEMPT_ON: u8 = 102;
/// Preempt call input off.
pub const PREEMPT_OFF: u8 = 104;
/// Preempt entry started: a preempt enters service.
pub const PREEMPT_ENTERS: u8 = 105;
/// Preemption begin track clearance: all phases of its track stage are Green.
pub const TRACK_BEGINS: u8 = 106;
/// Preemption begin dwell service: all phases of its dwell are Green.
pub const DWELL_BEGINS: u8 = 107;
/// Preemption max presence exceeded: dwell ends by it, and would not end without it.
pub const PRESENCE_EXCEEDED: u8 = 110;
/// Preemption begin exit interval: all phases of its exit are Green.
pub const EXIT_BEGINS: u8 = 111;
/// Coord pattern change: the number of the selected pattern, or `FREE`.
pub const PATTERN_CHANGES: u8 = 131;
/// Cycle length change, in seconds; 0 in free operation (profile).
pub const CYCLE_CHANGES: u8 = 132;
/// Offset length change, in seconds.
pub const OFFSET_CHANGES: u8 = 133;
/// Split change of phase 1, in seconds; those of phases 2 to 16 follow it.
pub const SPLIT_CHANGES: u8 = 134;
/// Coord cycle state change: how the local counter of the pattern that runs goes, by the parameters below.
pub const CYCLE_STATE_CHANGES: u8 = 150;
/// Coordinated phase yield point: the local counter is at the force-off instant of a coordinated phase.
pub const YIELD_POINT: u8 = 151;
/// Unit flash status change: `FLASH` or `NO_FLASH`.
pub const FLASH_CHANGES: u8 = 173;

/// The parameter of `PATTERN_CHANGES` in free operation, as NTCIP 1202's coordPatternStatus has it.
pub const FREE: u8 = 254;
/// The parameter of `CYCLE_STATE_CHANGES` in free operation.
pub const CYCLE_FREE: u8 = 0;
/// That of a local counter that is in step.
pub const CYCLE_IN_STEP: u8 = 1;
/// That of one that comes into step by longer cycles: it loses ticks.
pub const CYCLE_ADDS: u8 = 2;
/// That of one that comes into step by shorter cycles: it gains ticks.
pub const CYCLE_SUBTRACTS: u8 = 3;
/// That of one that comes into step by waiting at one place of the cycle.
pub const CYCLE_DWELLS: u8 = 4;
/// That of one that is at local zero, where a cycle begins.
pub const CYCLE_ZERO: u8 = 5;
/// The parameter of `FLASH_CHANGES` where a flash begins: by the monitor, as in NTCIP 1202's unitFlashStatus.
pub const FLASH: u8 = 6;
/// The parameter of `FLASH_CHANGES` where a flash ends.
pub const NO_FLASH: u8 = 2;

/// Adds an event for each number of a set to others, the least first. There must be room for 16.
pub fn tell<const N: usize>(
    events: &mut ArrayVec<Event, N>,
    tick: u32,
    code: u8,
    numbers: NumberSet,
)
    requires { array_vec_len events.old + 16 ≤ N }
    ensures told { events.new.items ≡ events.old.items ++ told tick code (has_number numbers) }
    ensures few { array_vec_len events.new ≤ array_vec_len events.old + 16 }
{
    let mut rest = numbers;
    while let Some(number) = rest.first() {
        rest = rest.with(number, false);
        events.push(Event {
            tick,
            code,
            parameter: number,
        });
    }
}

/// Adds an event for each detector of a set to others, the least first. There must be room for as many as there are
/// vehicle detectors.
pub fn tell_detectors<const N: usize>(
    events: &mut ArrayVec<Event, N>,
    tick: u32,
    code: u8,
    detectors: DetectorSet,
)
    requires { array_vec_len events.old + VEHICLE_DETECTORS ≤ N }
    ensures told { events.new.items ≡ events.old.items ++ told_detectors tick code (has_detector detectors) }
    ensures few { array_vec_len events.new ≤ array_vec_len events.old + VEHICLE_DETECTORS }
{
    let mut rest = detectors;
    while let Some(number) = rest.first() {
        rest = rest.with(number, false);
        events.push(Event {
            tick,
            code,
            parameter: number,
        });
    }
}

/// The numbers that are in a set now and were not.
pub fn begun(before: NumberSet, now: NumberSet) -> NumberSet
    ensures { has_number result ≡ begins (has_number before) (has_number now) }
{
    now.difference(before)
}

/// The numbers of either set.
pub fn joined(one: NumberSet, other: NumberSet) -> NumberSet
    ensures { has_number result ≡ either (has_number one) (has_number other) }
{
    one.union(other)
}
