//! The versions of plan texts: which objects each has, and how an index in one is found in a plan.
ghost use Rattle.std.specs.Prelude.{◌≡◌, true};
ghost use Rattle.tsb_plan.specs.Plan.{narrow_counts};
ghost use Rattle.tsb_plan.specs.Versions.{number_of, indices_by, greatest_of_two, includes, has_object, indices_in, greatest_in, range_in, has_index_in, is_in_rows, translated};

use crate::object::{NARROW_RANGES, Object, Range};

/// A version of plan texts.
#[derive(Clone, Copy, PartialEq, Eq)]
pub enum Version {
    /// Version 1: it knows phases 1 to 8 and sides 1 and 2, so some objects have fewer indices or values
    /// than in a plan, and those after `unitMax2` in the table are absent.
    One,
    /// Version 2: it knows 16 phases and 4 sides, and has the objects up to `coordCorrectionLimit` in the table, with the
    /// values that a plan has; only `overlapType` has but 0 and 1. It knows no more vehicle detectors, pedestrian
    /// detectors, overlaps and preempts than version 1: 16, 8, 4 and 4.
    Two,
    /// Version 3: it has all objects as a plan has them, those of version 2 and the ones that came later.
    Three,
}

impl Version {
    /// The last version, which has all objects as a plan has them.
    pub const NEWEST: Version = Version::Three;

    /// The number that texts of this version have.
    pub fn number(self) -> u32
        ensures { result ≡ number_of self }
    {
        match self {
            Version::One => 1,
            Version::Two => 2,
            Version::Three => 3,
        }
    }

    /// Whether texts of this version may name the object.
    pub fn has(self, object: Object) -> bool
        ensures { result ≡ has_object self object }
    {
        self.includes(object.since())
    }

    /// Whether this version has what there is since the other.
    fn includes(self, since: Version) -> bool
        ensures { result ≡ includes self since }
    {
        match self {
            Version::One => since == Version::One,
            Version::Two => since != Version::Three,
            Version::Three => true,
        }
    }

    /// The index at which a plan has what this version has at the index, which must be one that the version gives the
    /// object: 1 to `object.range_in(version)`'s `indices`. Only `splitTime`, `splitMode`, `splitCoordPhase` and
    /// `sequenceData` of version 1 are at another, since a table has 16 phases in a plan in place of 8, and a ring 16
    /// places.
    pub fn translated(self, object: Object, index: u32) -> u32
        requires { has_index_in self object index ≡ true }
        ensures { result ≡ translated self object index }
    {
        match self {
            Version::One if is_in_rows(object) => 16 * ((index - 1) / 8) + (index - 1) % 8 + 1,
            _ => index,
        }
    }

    /// How many indices the object has in this version, where it has the object.
    fn indices(self, object: Object) -> u32
        ensures { result ≡ indices_in self object }
    {
        match self {
            Version::One => NARROW_RANGES[object as usize].indices,
            Version::Two => narrow_indices(object),
            Version::Three => object.indices(),
        }
    }

    /// The greatest value of the object in this version, where it has the object.
    fn greatest(self, object: Object) -> u32
        ensures { result ≡ greatest_in self object }
    {
        match self {
            Version::One => NARROW_RANGES[object as usize].greatest,
            Version::Two => greatest_of_two(object),
            Version::Three => object.greatest(),
        }
    }
}

impl Object {
    /// The indices that the object has and the values that it takes in texts of the version, or `None`
    /// where the version has no such object.
    pub fn range_in(self, version: Version) -> Option<Range>
        ensures { result ≡ range_in version self }
    {
        if version.has(self) {
            Some(Range {
                indices: version.indices(self),
                greatest: version.greatest(self),
            })
        } else {
            None
        }
    }
}

/// Whether the index of the object counts rows, each of a table's phases or of a ring's places.
fn is_in_rows(object: Object) -> bool
    ensures { result ≡ is_in_rows object }
{
    matches!(
        object,
        Object::SplitTime | Object::SplitMode | Object::SplitCoordPhase | Object::SequenceData
    )
}

/// How many indices the object has where there are 16 vehicle detectors, 8 pedestrian detectors, 4 overlaps and 4
/// preempts.
fn narrow_indices(object: Object) -> u32
    ensures { result ≡ indices_by narrow_counts object }
{
    match object {
        Object::VehicleDetectorCallPhase
        | Object::VehicleDetectorDelay
        | Object::VehicleDetectorExtend
        | Object::VehicleDetectorNoActivity
        | Object::VehicleDetectorMaxPresence
        | Object::VehicleDetectorErraticCounts
        | Object::VehicleDetectorFailTime => 16,
        Object::PedestrianDetectorCallPhase => 8,
        Object::OverlapIncludedPhases
        | Object::OverlapType
        | Object::OverlapModifierPhases
        | Object::OverlapAcrossRings
        | Object::OverlapArrowDelay
        | Object::OverlapArrowPedestrian
        | Object::OverlapTrailGreen
        | Object::OverlapTrailYellow
        | Object::OverlapTrailRed
        | Object::PreemptDelay
        | Object::PreemptMinimumDuration
        | Object::PreemptMaximumPresence
        | Object::PreemptMinimumGreen
        | Object::PreemptMinimumWalk
        | Object::PreemptEnterPedClear
        | Object::PreemptTrackGreen
        | Object::PreemptTrackPhase
        | Object::PreemptDwellPhase
        | Object::PreemptExitPhase
        | Object::PreemptChoosesAnew => 4,
        _ => object.indices(),
    }
}

/// The greatest value of the object in version 2, where it has the object: overlaps are of no type 2 there.
fn greatest_of_two(object: Object) -> u32
    ensures { result ≡ greatest_of_two object }
{
    match object {
        Object::OverlapType => 1,
        _ => object.greatest(),
    }
}
