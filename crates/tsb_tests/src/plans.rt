//! What plans say.

use tsb_plan::*;
use tsb_types::{Detector, Overlap, Pattern, PedestrianDetector, Phase, Preempt, Sequence, Split};

fn id(object: Object, index: u32) -> ObjectId {
    ObjectId { object, index }
}

/// The built-in plan of eight phases with these values put into it, or `None` where it refuses one.
fn changed_quad(values: &[(Object, u32, u32)]) -> Option<Plan> {
    let mut plan = Plan::quad();
    for (object, index, value) in values {
        plan.put(id(*object, *index), *value).ok()?;
    }
    Some(plan)
}

/// Values of the built-in plan of eight phases.
const OF_QUAD: [(Object, u32, u32); 41] = [
    (Object::PhaseEnabled, 8, 1),
    (Object::PhaseEnabled, 9, 0),
    (Object::PhaseRing, 4, 1),
    (Object::PhaseRing, 5, 2),
    (Object::PhaseSide, 2, 1),
    (Object::PhaseSide, 7, 2),
    (Object::PhaseConcurrency, 1, 48),
    (Object::PhaseConcurrency, 4, 192),
    (Object::PhaseConcurrency, 6, 3),
    (Object::PhaseConcurrency, 8, 12),
    (Object::PhaseMinimumGreen, 8, 5),
    (Object::PhaseMaximum1, 1, 20),
    (Object::PhaseMaximum2, 1, 20),
    (Object::PhasePassage, 3, 20),
    (Object::PhaseMinimumGap, 3, 20),
    (Object::PhaseYellowChange, 5, 30),
    (Object::PhaseRedClear, 5, 10),
    (Object::PhaseWalk, 2, 4),
    (Object::PhasePedestrianClear, 2, 6),
    (Object::PhaseMinRecall, 6, 1),
    (Object::PhaseMinRecall, 1, 0),
    (Object::PhaseDualEntry, 8, 1),
    (Object::VehicleDetectorCallPhase, 8, 8),
    (Object::PedestrianDetectorCallPhase, 2, 2),
    (Object::OverlapIncludedPhases, 1, 3),
    (Object::UnitRedRevert, 1, 20),
    (Object::SequenceData, 4, 4),
    (Object::SequenceData, 17, 5),
    (Object::SequenceData, 20, 8),
    (Object::PatternCycleTime, 2, 80),
    (Object::PatternOffsetTime, 1, 0),
    (Object::PatternOffsetTime, 2, 79),
    (Object::PatternSplitNumber, 2, 1),
    (Object::PatternSequenceNumber, 1, 1),
    (Object::SplitTime, 2, 25),
    (Object::SplitTime, 7, 15),
    (Object::SplitCoordPhase, 6, 1),
    (Object::PreemptDwellPhase, 1, 132),
    (Object::PreemptDwellPhase, 2, 72),
    (Object::PreemptMinimumDuration, 1, 10),
    (Object::PreemptEnterPedClear, 2, 3),
];

/// Whether the plan has these values.
fn has_values(plan: &Plan, values: &[(Object, u32, u32)]) -> bool {
    for (object, index, value) in values {
        if plan.get(id(*object, *index)) != Ok(*value) {
            return false;
        }
    }
    true
}

#[test]
fn quad_has_its_values(rt: HostRuntime) {
    assert!(rt; has_values(&Plan::quad(), &OF_QUAD));
}

/// The changes that give the built-in plan a value of each object of phases and detectors.
const CHANGES: [(Object, u32, u32); 17] = [
    (Object::PhasePedRecall, 2, 1),
    (Object::PhaseSimGapDisable, 2, 1),
    (Object::PhaseRestInWalk, 2, 1),
    (Object::PhaseVariableInitial, 2, 1),
    (Object::PhaseMaximumInitial, 2, 20),
    (Object::PhaseAddedInitial, 2, 15),
    (Object::PhaseCarsBeforeReduction, 2, 9),
    (Object::PhaseTimeToReduce, 2, 7),
    (Object::PhaseDynamicMaxLimit, 2, 14),
    (Object::PhaseDynamicMaxStep, 2, 15),
    (Object::PhasePedestrianRecycle, 2, 1),
    (Object::VehicleDetectorDelay, 3, 20),
    (Object::VehicleDetectorExtend, 3, 50),
    (Object::VehicleDetectorNoActivity, 3, 1),
    (Object::VehicleDetectorMaxPresence, 3, 2),
    (Object::VehicleDetectorErraticCounts, 3, 30),
    (Object::VehicleDetectorFailTime, 3, 255),
];

/// Whether the plan gives phase 2 what it does not give phase 3.
fn tells_phases_apart(plan: &Plan) -> bool {
    let (second, third) = (Phase::of(2), Phase::of(3));
    plan.has_minimum_recall(second)
        && plan.has_pedestrian_recall(second)
        && plan.disables_simultaneous_gap(second)
        && plan.rests_in_walk(second)
        && plan.recycles_walk(second)
        && plan.has_variable_initial(second)
        && !plan.has_minimum_recall(third)
        && !plan.has_pedestrian_recall(third)
        && !plan.disables_simultaneous_gap(third)
        && !plan.rests_in_walk(third)
        && !plan.recycles_walk(third)
        && !plan.has_variable_initial(third)
}

/// Whether the plan returns the times of phase 2.
fn tells_of_times(plan: &Plan) -> bool {
    let second = Phase::of(2);
    plan.walk(second) == 40
        && plan.pedestrian_clear(second) == 60
        && plan.maximum_initial(second) == 200
        && plan.added_initial(second) == 15
        && plan.passage(second) == 20
        && plan.minimum_gap(second) == 20
        && plan.cars_before_reduction(second) == 9
        && plan.time_to_reduce(second) == 70
        && plan.dynamic_maximum_limit(second) == 140
        && plan.dynamic_maximum_step(second) == 15
}

/// Whether the plan returns the objects of detectors.
fn tells_of_detectors(plan: &Plan) -> bool {
    let detector = Detector::of(3);
    plan.call_phase(detector) == Some(Phase::of(3))
        && plan.call_phase(Detector::of(9)) == None
        && plan.detector_delay(detector) == 20
        && plan.detector_extend(detector) == 50
        && plan.no_activity(detector) == 600
        && plan.maximum_presence(detector) == 1200
        && plan.erratic_counts(detector) == 30
        && plan.fail_time(detector) == 2550
        && plan.pedestrian_call_phase(PedestrianDetector::of(2)) == Some(Phase::of(2))
        && plan.pedestrian_call_phase(PedestrianDetector::of(8)) == None
}

#[test]
fn plans_tell_of_phases_and_detectors(rt: HostRuntime) {
    let Some(plan) = changed_quad(&CHANGES) else {
        panic!(rt; "a value was refused");
    };
    assert!(rt; tells_phases_apart(&plan));
    assert!(rt; tells_of_times(&plan));
    assert!(rt; tells_of_detectors(&plan));
}

/// Whether the plan returns the objects of overlaps.
fn tells_of_overlaps(plan: &Plan) -> bool {
    let overlap = Overlap::of(1);
    plan.included_phases(overlap).list() == 3
        && plan.modifier_phases(overlap).list() == 32
        && plan.is_minus_green_yellow(overlap)
        && !plan.is_minus_green_yellow(Overlap::of(2))
        && !plan.overlaps_across_rings(overlap)
        && plan.overlaps_across_rings(Overlap::of(2))
}

/// Whether the plan returns the objects of patterns.
fn tells_of_patterns(plan: &Plan) -> bool {
    let (pattern, unused) = (Pattern::of(2), Pattern::of(3));
    plan.cycle(pattern) == 800
        && plan.offset(pattern) == 790
        && plan.offset_reference() == OffsetReference::LastYellow
        && plan.is_used(pattern)
        && !plan.is_used(unused)
        && plan.split_of(pattern) == Some(Split::of(1))
        && plan.split_of(unused) == None
        && plan.sequence_of(pattern) == Some(Sequence::of(1))
        && plan.sequence_of(unused) == None
}

/// The built-in plan of eight phases with these force and maximum modes and a few other values.
fn quad_in_modes(force: u32, maximum: u32) -> Option<Plan> {
    changed_quad(&[
        (Object::CoordForceMode, 1, force),
        (Object::CoordMaximumMode, 1, maximum),
        (Object::PhaseMaximum2, 3, 30),
        (Object::SplitTime, 4, 3),
        (Object::PatternPermissiveTime, 2, 15),
        (Object::PatternLeadLag, 2, 1),
    ])
}

/// Whether the plan of these modes returns its force mode: late, and floating.
fn tells_force_mode(force: u32, late: bool, floats: bool) -> bool {
    match quad_in_modes(force, 0) {
        Some(plan) => {
            plan.forces_late() == late
                && plan.floats() == floats
                && plan
                    .floating_time(Some(Pattern::of(2)), Phase::of(3))
                    .is_some()
                    == floats
        }
        None => false,
    }
}

/// Whether the plan with floating force-off returns the green after which it forces phases off. That is never for
/// coordinated phases, at once where the split is too short for the clearance, and none in free operation.
fn tells_of_floating(plan: &Plan) -> bool {
    let runs = Some(Pattern::of(2));
    plan.floating_time(runs, Phase::of(3)) == Some(110)
        && plan.floating_time(runs, Phase::of(4)) == Some(0)
        && plan.floating_time(runs, Phase::of(2)) == None
        && plan.floating_time(None, Phase::of(3)) == None
}

/// Whether this is the maximum of phase 3 by this maximum mode; a coordinated phase has none.
fn tells_maximum(mode: u32, maximum: Option<u32>) -> bool {
    match quad_in_modes(0, mode) {
        Some(plan) => {
            let runs = Some(Pattern::of(2));
            plan.pattern_maximum(runs, Phase::of(3)) == maximum
                && plan.pattern_maximum(runs, Phase::of(2)) == None
        }
        None => false,
    }
}

/// Whether the plan returns permissive times, lead and lag, pattern by pattern.
fn tells_patterns_apart(plan: &Plan) -> bool {
    let (first, second) = (Pattern::of(1), Pattern::of(2));
    plan.permissive_time(first) == 0
        && plan.permissive_time(second) == 150
        && !plan.leads_and_lags(first)
        && plan.leads_and_lags(second)
}

#[test]
fn plans_tell_how_greens_of_patterns_end(rt: HostRuntime) {
    let Some(plan) = quad_in_modes(2, 0) else {
        panic!(rt; "a value was refused");
    };
    assert!(rt; tells_of_floating(&plan) && tells_patterns_apart(&plan));
    assert!(rt; tells_force_mode(0, false, false));
    assert!(rt; tells_force_mode(1, true, false));
    assert!(rt; tells_force_mode(2, true, true));
    assert!(rt;
        tells_maximum(0, None) && tells_maximum(1, Some(200)) && tells_maximum(2, Some(300))
    );
}

/// Whether the plan with this mode and this limit returns this way into step.
fn tells_correction(mode: u32, limit: u32, wanted: CorrectionMode) -> bool {
    let values = [
        (Object::CoordCorrectionMode, 1, mode),
        (Object::CoordCorrectionLimit, 1, limit),
    ];
    match changed_quad(&values) {
        Some(plan) => plan.correction_mode() == wanted && plan.correction_limit() == limit,
        None => false,
    }
}

/// The short way and add only need a limit, and dwell does not.
#[test]
fn plans_tell_how_counters_come_into_step(rt: HostRuntime) {
    assert!(rt; tells_correction(0, 50, CorrectionMode::AtOnce));
    assert!(rt; tells_correction(1, 0, CorrectionMode::Dwell));
    assert!(rt; tells_correction(1, 17, CorrectionMode::Dwell));
    assert!(rt; tells_correction(2, 0, CorrectionMode::AtOnce));
    assert!(rt; tells_correction(2, 1, CorrectionMode::ShortWay));
    assert!(rt; tells_correction(3, 0, CorrectionMode::AtOnce));
    assert!(rt; tells_correction(3, 50, CorrectionMode::AddOnly));
}

/// Whether the plan returns the objects of splits.
fn tells_of_splits(plan: &Plan) -> bool {
    let split = Split::of(1);
    plan.split_time(split, Phase::of(2)) == 250
        && plan.split_mode(split, Phase::of(4)) == SplitMode::MaximumAndPedestrianRecall
        && plan.split_mode(Split::of(8), Phase::of(16)) == SplitMode::MaximumRecall
        && plan.is_omitted(split, Phase::of(3))
        && !plan.is_omitted(split, Phase::of(4))
        && plan.is_coordinated(split, Phase::of(6))
        && !plan.is_coordinated(split, Phase::of(5))
}

/// Whether the plan returns the objects of preempts.
fn tells_of_preempts(plan: &Plan) -> bool {
    let preempt = Preempt::of(1);
    plan.preempt_delay(preempt) == 6000
        && plan.minimum_duration(preempt) == 100
        && plan.preempt_maximum_presence(preempt) == 655_350
        && plan.preempt_minimum_green(preempt) == 20
        && plan.preempt_minimum_walk(preempt) == 20
        && plan.enter_pedestrian_clear(preempt) == 30
        && plan.track_green(preempt) == 30
        && !plan.chooses_anew(preempt)
        && plan.chooses_anew(Preempt::of(4))
        && plan.track_phases(preempt).list() == 34
        && plan.dwell_phases(preempt).list() == 132
        && plan.exit_phases(preempt).list() == 0x8001
}

#[test]
fn plans_tell_of_overlaps_patterns_and_preempts(rt: HostRuntime) {
    let values = [
        (Object::OverlapType, 1, 1),
        (Object::OverlapModifierPhases, 1, 32),
        (Object::SplitMode, 3, 5),
        (Object::SplitMode, 4, 4),
        (Object::SplitMode, 128, 2),
        (Object::PreemptDelay, 1, 600),
        (Object::PreemptMaximumPresence, 1, 65_535),
        (Object::PreemptTrackGreen, 1, 3),
        (Object::PreemptTrackPhase, 1, 34),
        (Object::PreemptExitPhase, 1, 0x8001),
        (Object::OverlapAcrossRings, 2, 1),
        (Object::PreemptChoosesAnew, 4, 1),
        (Object::CoordReference, 1, 4),
    ];
    let Some(plan) = changed_quad(&values) else {
        panic!(rt; "a value was refused");
    };
    assert!(rt; tells_of_overlaps(&plan) && tells_of_patterns(&plan));
    assert!(rt; tells_of_splits(&plan) && tells_of_preempts(&plan));
}
