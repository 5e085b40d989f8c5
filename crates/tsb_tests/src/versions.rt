//! Versions of plan texts.

use tsb_plan::*;

/// The indices and the greatest value of the object in the version.
fn range(version: Version, object: Object) -> Option<(u32, u32)> {
    let range = object.range_in(version)?;
    Some((range.indices, range.greatest))
}

/// Whether version 1 has so many indices of the object, with this greatest value.
fn has_range(object: Object, indices: u32, greatest: u32) -> bool {
    Version::One.has(object) && range(Version::One, object) == Some((indices, greatest))
}

/// The greatest value in version 2 of an object that it has: that of version 3, but of types of overlaps, as it has no
/// arrows.
fn greatest_in_2(object: Object) -> u32 {
    if object == Object::OverlapType {
        1
    } else {
        range_of(object).greatest
    }
}

/// Whether version 2 has the object, with at most the indices of version 3.
fn is_within(object: Object) -> bool {
    match range(Version::Two, object) {
        Some((indices, greatest)) => {
            indices <= range_of(object).indices && greatest == greatest_in_2(object)
        }
        None => false,
    }
}

/// Whether versions 2 and 3 have the object, version 3 with its whole range, and version 1 has not.
fn is_new(object: Object) -> bool {
    object.since() == Version::Two
        && !Version::One.has(object)
        && object.range_in(Version::One) == None
        && is_within(object)
        && object.range_in(Version::Three) == Some(range_of(object))
}

/// Whether version 3 alone has the object, with its whole range.
fn is_of_3_alone(object: Object) -> bool {
    object.since() == Version::Three
        && !Version::One.has(object)
        && !Version::Two.has(object)
        && object.range_in(Version::One) == None
        && object.range_in(Version::Two) == None
        && object.range_in(Version::Three) == Some(range_of(object))
}

/// What version 1 has less of.
const SMALLER: [(Object, u32, u32); 19] = [
    (Object::PhaseEnabled, 8, 1),
    (Object::PhaseRing, 8, 2),
    (Object::PhaseSide, 8, 2),
    (Object::PhaseConcurrency, 8, 255),
    (Object::PhaseCarsBeforeReduction, 8, 255),
    (Object::VehicleDetectorCallPhase, 16, 8),
    (Object::VehicleDetectorDelay, 16, 2550),
    (Object::PedestrianDetectorCallPhase, 8, 8),
    (Object::OverlapIncludedPhases, 4, 255),
    (Object::PatternSequenceNumber, 16, 4),
    (Object::SplitTime, 64, 255),
    (Object::SplitMode, 64, 5),
    (Object::SplitCoordPhase, 64, 1),
    (Object::SequenceData, 64, 8),
    (Object::PreemptDelay, 4, 600),
    (Object::PreemptTrackPhase, 4, 255),
    (Object::PreemptDwellPhase, 4, 255),
    (Object::PreemptExitPhase, 4, 255),
    (Object::UnitRedRevert, 1, 255),
];

/// What version 1 has none of, and versions 2 and 3 have.
const NEW: [Object; 11] = [
    Object::PhaseDynamicMaxLimit,
    Object::PhaseDynamicMaxStep,
    Object::OverlapType,
    Object::OverlapModifierPhases,
    Object::CoordForceMode,
    Object::CoordMaximumMode,
    Object::PatternPermissiveTime,
    Object::PatternLeadLag,
    Object::PhasePedestrianRecycle,
    Object::CoordCorrectionMode,
    Object::CoordCorrectionLimit,
];

/// What version 3 alone has.
const OF_3_ALONE: [Object; 19] = [
    Object::OverlapAcrossRings,
    Object::PreemptChoosesAnew,
    Object::CoordReference,
    Object::TimeBaseScheduleMonth,
    Object::TimeBaseScheduleDay,
    Object::TimeBaseScheduleDate,
    Object::TimeBaseScheduleDayPlan,
    Object::DayPlanHour,
    Object::DayPlanMinute,
    Object::DayPlanActionNumber,
    Object::TimebaseAscPattern,
    Object::OverlapArrowDelay,
    Object::OverlapArrowPedestrian,
    Object::OverlapTrailGreen,
    Object::OverlapTrailYellow,
    Object::OverlapTrailRed,
    Object::ActionArrowOmit,
    Object::ChannelControlSource,
    Object::ChannelControlType,
];

/// Whether version 1 has the objects with these indices and greatest values.
fn have_ranges(wanted: &[(Object, u32, u32)]) -> bool {
    for (object, indices, greatest) in wanted {
        if !has_range(*object, *indices, *greatest) {
            return false;
        }
    }
    true
}

/// Whether the objects came with version 2.
fn are_new(objects: &[Object]) -> bool {
    for object in objects {
        if !is_new(*object) {
            return false;
        }
    }
    true
}

/// Whether version 2 has all splits and sides, and fewer detectors, overlaps and preempts than version 3.
fn version_2_is_told() -> bool {
    range(Version::Two, Object::SplitTime) == Some((128, 255))
        && range(Version::Two, Object::PhaseSide) == Some((16, 4))
        && range(Version::Two, Object::VehicleDetectorDelay) == Some((16, 2550))
        && range(Version::Two, Object::PedestrianDetectorCallPhase) == Some((8, 16))
        && range(Version::Two, Object::OverlapType) == Some((4, 1))
        && range(Version::Two, Object::PreemptExitPhase) == Some((4, 65_535))
}

#[test]
fn version_1_is_smaller(rt: HostRuntime) {
    assert!(rt; have_ranges(&SMALLER) && are_new(&NEW) && version_2_is_told());
}

/// Whether indices of version 1 are translated.
fn indices_of_1_are_translated() -> bool {
    // Split table 1's phase 8, table 2's phase 1, and the last of all.
    let one = Version::One;
    one.translated(Object::SplitTime, 8) == 8
        && one.translated(Object::SplitMode, 9) == 17
        && one.translated(Object::SplitCoordPhase, 64) == 120
        // Place 3 of ring 1 in sequence 1, place 1 of ring 2, and place 8 of ring 2 in sequence 4.
        && one.translated(Object::SequenceData, 3) == 3
        && one.translated(Object::SequenceData, 9) == 17
        && one.translated(Object::SequenceData, 64) == 120
        && one.translated(Object::PhaseEnabled, 8) == 8
        && one.translated(Object::VehicleDetectorDelay, 16) == 16
}

/// Whether those of a later version are kept.
fn indices_are_kept(version: Version) -> bool {
    version.translated(Object::SplitTime, 17) == 17
        && version.translated(Object::SequenceData, 128) == 128
}

#[test]
fn indices_are_translated(rt: HostRuntime) {
    assert!(rt; indices_of_1_are_translated());
    assert!(rt; indices_are_kept(Version::Two) && indices_are_kept(Version::Three));
    version_laws::versions_say_the_same();
}

/// Whether version 3 has each object as a plan has it, and each that version 2 has.
fn is_whole_in_3(object: Object) -> bool {
    let whole = Some(range_of(object));
    object.range_in(Version::NEWEST) == whole && (!Version::Two.has(object) || is_within(object))
}

#[test]
fn version_3_has_all(rt: HostRuntime) {
    assert!(rt; Version::NEWEST == Version::Three);
    assert!(rt; Object::ALL.iter().all(|object| is_whole_in_3(*object)));
    assert!(rt; OF_3_ALONE.iter().all(|object| is_of_3_alone(*object)));
    assert!(rt;
        Version::One.number() == 1 && Version::Two.number() == 2 && Version::Three.number() == 3
    );
}

fn is_named(object: Object, name: &str) -> bool {
    object.name() == name
}

/// Whether the version has this object, or none, under the name.
fn finds(version: Version, name: &str, wanted: Option<Object>) -> bool {
    Object::named(version, name) == wanted
}

/// Whether objects have their names.
fn names_are() -> bool {
    is_named(Object::PhaseEnabled, "phaseEnabled")
        && is_named(Object::UnitMax2, "unitMax2")
        && is_named(Object::CoordCorrectionLimit, "coordCorrectionLimit")
        && is_named(Object::OverlapAcrossRings, "overlapAcrossRings")
        && is_named(Object::PreemptChoosesAnew, "preemptChoosesAnew")
        && is_named(Object::CoordReference, "coordReference")
        && is_named(Object::DayPlanHour, "dayPlanHour")
        && is_named(Object::TimebaseAscPattern, "timebaseAscPattern")
        && is_named(Object::OverlapTrailGreen, "overlapTrailGreen")
        && is_named(Object::ChannelControlType, "channelControlType")
}

/// Whether objects are found by their names, where the version has them.
fn names_are_found() -> bool {
    let (split, last) = (Object::SplitTime, Object::ChannelControlType);
    finds(Version::One, split.name(), Some(split))
        && finds(Version::Three, last.name(), Some(last))
        && finds(Version::Two, last.name(), None)
        && finds(Version::One, "overlapType", None)
        && finds(Version::Two, "overlaptype", None)
        && finds(Version::Two, "", None)
}

#[test]
fn objects_have_names(rt: HostRuntime) {
    assert!(rt; names_are() && names_are_found());
    version_laws::versions_say_the_same();
}

/// What a plan's structure is made of.
const STRUCTURAL: [Object; 9] = [
    Object::PhaseRing,
    Object::PhaseSide,
    Object::PhaseConcurrency,
    Object::PhaseEnabled,
    Object::OverlapIncludedPhases,
    Object::OverlapType,
    Object::OverlapModifierPhases,
    Object::OverlapAcrossRings,
    Object::OverlapTrailGreen,
];

/// Whether all these objects are structural.
fn are_structural(objects: &[Object]) -> bool {
    for object in objects {
        if !is_structural(*object) {
            return false;
        }
    }
    true
}

#[test]
fn structure_is_told(rt: HostRuntime) {
    assert!(rt; are_structural(&STRUCTURAL));
    assert!(rt; Object::ALL.iter().filter(|o| is_structural(**o)).count() == 9);
}
