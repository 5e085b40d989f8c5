//! The status of a controller as a plain value, by the names of NTCIP 1202's status objects. Sets are of phases,
//! overlaps and vehicle detectors by their numbers; times are in tenths of a second.

use tsb_objects::limits::PREEMPTS;
use tsb_objects::{DetectorSet, NumberSet, Phase, Station};
use tsb_step::{FlashStatus, FreeStatus, PreemptState, RingPart, Wait};
use tsb_transact::DeskState;

/// The status of a ring: `ringStatus`, and what is left of each time that runs for its phase in service, 0 once it is
/// reached. `None` where a time does not run.
#[derive(Clone, Copy)]
pub struct RingStatus {
    /// The coded part of `ringStatus`.
    pub part: RingPart,
    /// The phase in service; none in flash.
    pub phase: Option<Phase>,
    /// The phase that the ring starts next: its commitment (profile).
    pub next: Option<Phase>,
    /// Of a green: of its initial time, or of the shorter one of the preempt that ends it; at most 2,550.
    pub initial_left: Option<u32>,
    /// Of a green: the gap in force, at most 255.
    pub gap: Option<u32>,
    /// Of a green: of that gap, all of it while an output of the phase is on.
    pub gap_left: Option<u32>,
    /// The maximum that acts on a green with a conflict, if one does, at most 2,550.
    pub maximum_left: Option<u32>,
    /// The walk; 0 where it rests in walk.
    pub walk_left: Option<u32>,
    /// The pedestrian clearance.
    pub clearance_left: Option<u32>,
    /// The yellow change.
    pub yellow_left: Option<u32>,
    /// The red clearance.
    pub red_clearance_left: Option<u32>,
    /// The ticks of a green in a pattern until the local counter is at its force-off instant, less than the cycle.
    /// Steps of the counter are counted; while it comes into step these are not ticks.
    pub force_off_in: Option<u32>,
}

/// What a state says. Choices where the standard is silent are in docs/work/DECISIONS.md, "What a status says".
#[derive(Clone, Copy)]
pub struct Status {
    /// The tick number, 0 to 6,000,000.
    pub now: u32,
    /// `phaseStatusGroupReds`.
    pub reds: NumberSet,
    /// `phaseStatusGroupYellows`.
    pub yellows: NumberSet,
    /// `phaseStatusGroupGreens`.
    pub greens: NumberSet,
    /// `phaseStatusGroupDontWalks`.
    pub dont_walks: NumberSet,
    /// `phaseStatusGroupPedClears`.
    pub pedestrian_clears: NumberSet,
    /// `phaseStatusGroupWalks`.
    pub walks: NumberSet,
    /// `phaseStatusGroupVehCalls`.
    pub vehicle_calls: NumberSet,
    /// `phaseStatusGroupPedCalls`.
    pub pedestrian_calls: NumberSet,
    /// `phaseStatusGroupPhaseOns`: phases in service.
    pub phase_ons: NumberSet,
    /// `phaseStatusGroupPhaseNexts`: phases that a ring is committed to.
    pub phase_nexts: NumberSet,
    /// `overlapStatusGroupReds`.
    pub overlap_reds: NumberSet,
    /// `overlapStatusGroupYellows`.
    pub overlap_yellows: NumberSet,
    /// `overlapStatusGroupGreens`.
    pub overlap_greens: NumberSet,
    /// Overlaps whose head flashes yellow; `None` where the plan has no arrow.
    pub overlap_arrows: Option<NumberSet>,
    /// `vehicleDetectorStatusGroupActive`.
    pub active: DetectorSet,
    /// `vehicleDetectorStatusGroupAlarms`.
    pub alarms: DetectorSet,
    /// `preemptState` of each preempt, from the first on.
    pub preempts: [PreemptState; PREEMPTS as usize],
    /// `coordPatternStatus`: the pattern that runs, 1 to 16, or 254 in free operation.
    pub pattern: u8,
    /// `localFreeStatus`.
    pub free: FreeStatus,
    /// The local counter (profile), less than the cycle; none in free operation.
    pub local: Option<u32>,
    /// `coordSyncStatus`, less than the cycle; none in free operation.
    pub sync: Option<u32>,
    /// `globalTime` (NTCIP 1201), in seconds since 1970-01-01 00:00 of the clock, which has no zone (profile); none where no
    /// clock is set.
    pub time: Option<u32>,
    /// `unitFlashStatus`.
    pub flash: FlashStatus,
    /// The station whose transaction is open (profile).
    pub owner: Option<Station>,
    /// How far the transaction is (NTCIP 1201, `dbCreateTransaction`).
    pub desk: DeskState,
    /// Rings 1 and 2.
    pub rings: [RingStatus; 2],
    /// What phases 1 to 16 wait for; none of one that is not called, or is Green (profile).
    pub waits: [Option<Wait>; 16],
}
