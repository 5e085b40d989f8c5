//! The units of values.
ghost use Rattle.std.specs.Prelude.{◌≡◌};
ghost use Rattle.tsb_plan_notes.specs.Units.{unit_of, unit_text};

use tsb_plan::Object;

/// What a value of an object counts.
#[derive(Clone, Copy)]
pub enum Unit {
    /// Seconds.
    Seconds,
    /// Tenths of a second.
    Tenths,
    /// Minutes.
    Minutes,
    /// A list of phases: the sum of 2^(phase-1).
    Phases,
    /// Numbers of phases, yes or no, and all else that is no time and no list.
    Plain,
}

/// The unit of an object's values, as NTCIP 1202 or the profile has it.
pub fn unit_of(object: Object) -> Unit
    ensures { result ≡ unit_of object }
{
    match object {
        Object::PhaseWalk
        | Object::PhasePedestrianClear
        | Object::PhaseMinimumGreen
        | Object::PhaseMaximum1
        | Object::PhaseMaximum2
        | Object::PhaseMaximumInitial
        | Object::PhaseTimeBeforeReduction
        | Object::PhaseTimeToReduce
        | Object::VehicleDetectorFailTime
        | Object::PatternCycleTime
        | Object::PatternOffsetTime
        | Object::SplitTime
        | Object::PreemptDelay
        | Object::PreemptMinimumDuration
        | Object::PreemptMaximumPresence
        | Object::PreemptMinimumGreen
        | Object::PreemptMinimumWalk
        | Object::PreemptEnterPedClear
        | Object::PreemptTrackGreen
        | Object::PhaseDynamicMaxLimit
        | Object::PatternPermissiveTime
        | Object::OverlapTrailGreen => Unit::Seconds,
        Object::PhasePassage
        | Object::PhaseYellowChange
        | Object::PhaseRedClear
        | Object::PhaseRedRevert
        | Object::PhaseAddedInitial
        | Object::PhaseMinimumGap
        | Object::VehicleDetectorDelay
        | Object::VehicleDetectorExtend
        | Object::UnitRedRevert
        | Object::PhaseDynamicMaxStep
        | Object::OverlapArrowDelay
        | Object::OverlapTrailYellow
        | Object::OverlapTrailRed => Unit::Tenths,
        Object::VehicleDetectorNoActivity | Object::VehicleDetectorMaxPresence => Unit::Minutes,
        Object::PhaseConcurrency
        | Object::OverlapIncludedPhases
        | Object::OverlapModifierPhases
        | Object::PreemptTrackPhase
        | Object::PreemptDwellPhase
        | Object::PreemptExitPhase => Unit::Phases,
        _ => Unit::Plain,
    }
}

/// What a line says of a unit.
pub(crate) fn unit_text(unit: Unit) -> &'static [u8]
    ensures { result.now ≡ unit_text unit }
{
    match unit {
        Unit::Seconds => b": seconds",
        Unit::Tenths => b": tenths of a second",
        Unit::Minutes => b": minutes",
        Unit::Phases => b": list of phases, a sum of 2^(phase-1)",
        Unit::Plain => b"",
    }
}
