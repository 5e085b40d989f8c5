//! Objects and their ranges, and plans by objects.

use tsb_plan::*;
use tsb_types::{Phase, Refusal, Ring, Sequence};

/// An object, an index and a value.
type Value = (Object, u32, u32);

/// The plan with these values put into it, or `None` where it refuses one.
fn changed(plan: Plan, values: &[Value]) -> Option<Plan> {
    let mut plan = plan;
    for (object, index, value) in values {
        let id = ObjectId {
            object: *object,
            index: *index,
        };
        plan.put(id, *value).ok()?;
    }
    Some(plan)
}

fn id(object: Object, index: u32) -> ObjectId {
    ObjectId { object, index }
}

/// Objects, each with how many indices it has and its greatest value.
const RANGES: [Value; 42] = [
    (Object::PhaseEnabled, 16, 1),
    (Object::PhaseSide, 16, 4),
    (Object::PhaseConcurrency, 16, 65_535),
    (Object::VehicleDetectorCallPhase, 64, 16),
    (Object::VehicleDetectorDelay, 64, 2550),
    (Object::PedestrianDetectorCallPhase, 16, 16),
    (Object::PatternOffsetTime, 16, 254),
    (Object::PatternSplitNumber, 16, 8),
    (Object::PatternSequenceNumber, 16, 4),
    (Object::SplitMode, 128, 5),
    (Object::SequenceData, 128, 16),
    (Object::PreemptDelay, 8, 600),
    (Object::PreemptMaximumPresence, 8, 65_535),
    (Object::UnitRedRevert, 1, 255),
    (Object::PhaseDynamicMaxStep, 16, 255),
    (Object::OverlapType, 16, 2),
    (Object::CoordForceMode, 1, 2),
    (Object::CoordMaximumMode, 1, 2),
    (Object::PatternPermissiveTime, 16, 255),
    (Object::PatternLeadLag, 16, 1),
    (Object::PhasePedestrianRecycle, 16, 1),
    (Object::CoordCorrectionMode, 1, 3),
    (Object::CoordCorrectionLimit, 1, 50),
    (Object::OverlapAcrossRings, 16, 1),
    (Object::PreemptChoosesAnew, 8, 1),
    (Object::CoordReference, 1, 5),
    (Object::TimeBaseScheduleMonth, 32, 8190),
    (Object::TimeBaseScheduleDay, 32, 254),
    (Object::TimeBaseScheduleDate, 64, 65_535),
    (Object::TimeBaseScheduleDayPlan, 32, 16),
    (Object::DayPlanHour, 256, 23),
    (Object::DayPlanMinute, 256, 59),
    (Object::DayPlanActionNumber, 256, 32),
    (Object::TimebaseAscPattern, 32, 254),
    (Object::OverlapArrowDelay, 16, 255),
    (Object::OverlapArrowPedestrian, 16, 1),
    (Object::OverlapTrailGreen, 16, 255),
    (Object::OverlapTrailYellow, 16, 255),
    (Object::OverlapTrailRed, 16, 255),
    (Object::ActionArrowOmit, 32, 65_535),
    (Object::ChannelControlSource, 16, 16),
    (Object::ChannelControlType, 16, 4),
];

/// Whether the object has so many indices and this greatest value, said in both ways.
fn has_range(object: Object, indices: u32, greatest: u32) -> bool {
    let range = range_of(object);
    range.indices == indices
        && range.greatest == greatest
        && object.indices() == indices
        && object.greatest() == greatest
}

/// Whether the objects have these ranges.
fn have_ranges(wanted: &[Value]) -> bool {
    for (object, indices, greatest) in wanted {
        if !has_range(*object, *indices, *greatest) {
            return false;
        }
    }
    true
}

#[test]
fn objects_have_their_ranges(rt: HostRuntime) {
    assert!(rt; have_ranges(&RANGES) && Object::ALL.len() == 87);
    laws::cells_are_told_apart();
    laws::values_are_told_apart();
}

/// What the built-in plan gives, as plan texts have it.
const TWO: [Value; 20] = [
    (Object::PhaseEnabled, 2, 1),
    (Object::PhaseEnabled, 4, 1),
    (Object::PhaseRing, 2, 1),
    (Object::PhaseRing, 4, 1),
    (Object::PhaseSide, 2, 1),
    (Object::PhaseSide, 4, 2),
    (Object::PhaseMinimumGreen, 2, 5),
    (Object::PhaseMinimumGreen, 4, 5),
    (Object::PhaseMaximum1, 2, 10),
    (Object::PhaseMaximum1, 4, 8),
    (Object::PhaseMaximum2, 2, 10),
    (Object::PhaseMaximum2, 4, 8),
    (Object::PhaseYellowChange, 2, 30),
    (Object::PhaseYellowChange, 4, 30),
    (Object::PhaseRedClear, 2, 10),
    (Object::PhaseRedClear, 4, 10),
    (Object::PhaseMaxRecall, 2, 1),
    (Object::PhaseMaxRecall, 4, 1),
    (Object::SequenceData, 1, 2),
    (Object::SequenceData, 2, 4),
];

/// Whether the plan has these values.
fn has_values(plan: &Plan, values: &[Value]) -> bool {
    for (object, index, value) in values {
        if plan.get(id(*object, *index)) != Ok(*value) {
            return false;
        }
    }
    true
}

fn got(plan: &Plan, object: Object, index: u32) -> Result<u32, Refusal> {
    plan.get(id(object, index))
}

fn put(plan: &mut Plan, object: Object, index: u32, value: u32) -> Result<(), Refusal> {
    plan.put(id(object, index), value)
}

/// Whether the plan refuses objects that are not there, and values that are out of range, and stays as it was.
fn refuses(plan: &mut Plan) -> bool {
    got(plan, Object::PhaseRing, 0) == Err(Refusal::NoSuchObject)
        && got(plan, Object::PhaseRing, 17) == Err(Refusal::NoSuchObject)
        && got(plan, Object::UnitMax2, 2) == Err(Refusal::NoSuchObject)
        && put(plan, Object::PhaseRing, 17, 3) == Err(Refusal::NoSuchObject)
        && put(plan, Object::PhaseRing, 16, 3) == Err(Refusal::OutOfRange)
        && *plan == Plan::two()
}

/// Whether the plan takes a value, and its other values stay.
fn takes(plan: &mut Plan) -> bool {
    put(plan, Object::PhaseRing, 16, 2) == Ok(())
        && got(plan, Object::PhaseRing, 16) == Ok(2)
        && got(plan, Object::PhaseRing, 15) == Ok(0)
        && got(plan, Object::PhaseSide, 1) == Ok(0)
}

#[test]
fn plans_keep_values(rt: HostRuntime) {
    let mut plan = Plan::two();
    assert!(rt; has_values(&plan, &TWO) && Some(plan) == changed(Plan::empty(), &TWO));
    assert!(rt; refuses(&mut plan) && takes(&mut plan));
}

/// Whether the built-in plan returns its phases.
fn two_tells_of_phases(plan: &Plan) -> bool {
    let (second, third, fourth) = (Phase::of(2), Phase::of(3), Phase::of(4));
    plan.is_enabled(second)
        && !plan.is_enabled(third)
        && plan.has_maximum_recall(fourth)
        && !plan.has_maximum_recall(third)
        && plan.ring(fourth) == 1
        && plan.side(fourth) == 2
        && plan.minimum_green(fourth) == 50
        && plan.maximum(fourth) == 80
        && plan.yellow_change(fourth) == 30
        && plan.red_clear(fourth) == 10
        && &plan.sequence(Sequence::of(1), Ring::of(1))[..3] == [2, 4, 0].as_slice()
}

/// Whether a plan with the changes below returns its phases.
fn changed_tells_of_phases(plan: &Plan) -> bool {
    let (second, fourth) = (Phase::of(2), Phase::of(4));
    plan.maximum(second) == 120
        && plan.time_before_reduction(second) == 70
        && plan.red_revert(second) == 20
        && plan.red_revert(fourth) == 21
        && plan.concurrency(second).list() == 0x8010
        && plan.sequence(Sequence::of(2), Ring::of(2))[0] == 9
        && plan.sequence(Sequence::of(4), Ring::of(2))[15] == 16
}

#[test]
fn plans_tell_of_phases(rt: HostRuntime) {
    let changes = [
        (Object::UnitMax2, 1, 1),
        (Object::PhaseMaximum2, 2, 12),
        (Object::PhaseTimeBeforeReduction, 2, 7),
        (Object::UnitRedRevert, 1, 20),
        (Object::PhaseRedRevert, 2, 19),
        (Object::PhaseRedRevert, 4, 21),
        (Object::PhaseConcurrency, 2, 0x8010),
        (Object::SequenceData, 49, 9),
        (Object::SequenceData, 128, 16),
    ];
    let two = Plan::two();
    let Some(plan) = changed(two, &changes) else {
        panic!(rt; "a value was refused");
    };
    assert!(rt; two_tells_of_phases(&two) && changed_tells_of_phases(&plan));
}
