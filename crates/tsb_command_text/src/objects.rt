//! Objects by the names that commands write.
ghost use Rattle.std.specs.Prelude.{◌≡◌, ◌==◌, ◌&&◌, nat_le};
ghost use Rattle.tsb_command_text.specs.Objects.{named_among};
ghost use Rattle.tsb_plan.specs.Names.{object_named};
ghost use Rattle.tsb_plan.specs.declared.version.TheConstants.Version.{NEWEST};

use crate::names::is;
use tsb_plan::Object;

/// The object of the newest version that has this name. It is looked for among those alone whose names are about as long.
pub(crate) fn object(word: &[u8]) -> Option<Object>
    ensures { result ≡ object_named NEWEST word.now }
{
    match word.len() {
        0..=11 => up_to_11(word),
        12..=13 => of_12_or_13(word),
        14 => of_14(word),
        15..=16 => of_15_or_16(word),
        17 => of_17(word),
        18..=19 => of_18_or_19(word),
        20 => of_20(word),
        21..=22 => of_21_or_22(word),
        _ => from_23(word),
    }
}

/// The first of these objects with the word as its name beside it.
macro_rules! first_named {
    ($word:ident, $($object:ident $name:literal)*) => {{
        $(
            if is($word, $name) {
                return Some(Object::$object);
            }
        )*
        None
    }};
}

/// The object that has this name, of those whose names have at most 11 bytes.
#[tactic(auto, unfolding(crate::specs::Objects::named_among, tsb_plan::specs::Objects::objects))]
fn up_to_11(word: &[u8]) -> Option<Object>
    ensures { result ≡ named_among (λ n. nat_le n 11) word.now }
{
    first_named! {
        word,
        PhaseRing   b"phaseRing"
        PhaseSide   b"phaseSide"
        PhaseWalk   b"phaseWalk"
        SplitTime   b"splitTime"
        SplitMode   b"splitMode"
        UnitMax2    b"unitMax2"
        OverlapType b"overlapType"
        DayPlanHour b"dayPlanHour"
    }
}

/// The object that has this name, of those whose names have 12 or 13 bytes.
#[tactic(auto, unfolding(crate::specs::Objects::named_among, tsb_plan::specs::Objects::objects))]
fn of_12_or_13(word: &[u8]) -> Option<Object>
    ensures { result ≡ named_among (λ n. nat_le 12 n && nat_le n 13) word.now }
{
    first_named! {
        word,
        PhaseEnabled  b"phaseEnabled"
        PhaseNonLock  b"phaseNonLock"
        PhaseMaximum1 b"phaseMaximum1"
        PhaseMaximum2 b"phaseMaximum2"
        PhasePassage  b"phasePassage"
        PhaseRedClear b"phaseRedClear"
        SequenceData  b"sequenceData"
        PreemptDelay  b"preemptDelay"
        UnitRedRevert b"unitRedRevert"
        DayPlanMinute b"dayPlanMinute"
    }
}

/// The object that has this name, of those whose names have 14 bytes.
#[tactic(auto, unfolding(crate::specs::Objects::named_among, tsb_plan::specs::Objects::objects))]
fn of_14(word: &[u8]) -> Option<Object>
    ensures { result ≡ named_among (λ n. n == 14) word.now }
{
    first_named! {
        word,
        PhaseMinRecall b"phaseMinRecall"
        PhaseMaxRecall b"phaseMaxRecall"
        PhasePedRecall b"phasePedRecall"
        PhaseDualEntry b"phaseDualEntry"
        PhaseRedRevert b"phaseRedRevert"
        CoordForceMode b"coordForceMode"
        PatternLeadLag b"patternLeadLag"
        CoordReference b"coordReference"
    }
}

/// The object that has this name, of those whose names have 15 or 16 bytes.
#[tactic(auto, unfolding(crate::specs::Objects::named_among, tsb_plan::specs::Objects::objects))]
fn of_15_or_16(word: &[u8]) -> Option<Object>
    ensures { result ≡ named_among (λ n. nat_le 15 n && nat_le n 16) word.now }
{
    first_named! {
        word,
        PhaseSoftRecall  b"phaseSoftRecall"
        PhaseRestInWalk  b"phaseRestInWalk"
        PhaseConcurrency b"phaseConcurrency"
        PhaseMinimumGap  b"phaseMinimumGap"
        PatternCycleTime b"patternCycleTime"
        SplitCoordPhase  b"splitCoordPhase"
        PreemptExitPhase b"preemptExitPhase"
        CoordMaximumMode b"coordMaximumMode"
        OverlapTrailRed  b"overlapTrailRed"
        ActionArrowOmit  b"actionArrowOmit"
    }
}

/// The object that has this name, of those whose names have 17 bytes.
#[tactic(auto, unfolding(crate::specs::Objects::named_among, tsb_plan::specs::Objects::objects))]
fn of_17(word: &[u8]) -> Option<Object>
    ensures { result ≡ named_among (λ n. n == 17) word.now }
{
    first_named! {
        word,
        PhaseMinimumGreen b"phaseMinimumGreen"
        PhaseTimeToReduce b"phaseTimeToReduce"
        PhaseYellowChange b"phaseYellowChange"
        PhaseAddedInitial b"phaseAddedInitial"
        PatternOffsetTime b"patternOffsetTime"
        PreemptTrackGreen b"preemptTrackGreen"
        PreemptTrackPhase b"preemptTrackPhase"
        PreemptDwellPhase b"preemptDwellPhase"
        OverlapArrowDelay b"overlapArrowDelay"
        OverlapTrailGreen b"overlapTrailGreen"
    }
}

/// The object that has this name, of those whose names have 18 or 19 bytes.
#[tactic(auto, unfolding(crate::specs::Objects::named_among, tsb_plan::specs::Objects::objects))]
fn of_18_or_19(word: &[u8]) -> Option<Object>
    ensures { result ≡ named_among (λ n. nat_le 18 n && nat_le n 19) word.now }
{
    first_named! {
        word,
        PhaseSimGapDisable  b"phaseSimGapDisable"
        PhaseMaximumInitial b"phaseMaximumInitial"
        PatternSplitNumber  b"patternSplitNumber"
        PreemptMinimumGreen b"preemptMinimumGreen"
        PreemptMinimumWalk  b"preemptMinimumWalk"
        PhaseDynamicMaxStep b"phaseDynamicMaxStep"
        CoordCorrectionMode b"coordCorrectionMode"
        OverlapAcrossRings  b"overlapAcrossRings"
        PreemptChoosesAnew  b"preemptChoosesAnew"
        TimeBaseScheduleDay b"timeBaseScheduleDay"
        DayPlanActionNumber b"dayPlanActionNumber"
        TimebaseAscPattern  b"timebaseAscPattern"
        OverlapTrailYellow  b"overlapTrailYellow"
        ChannelControlType  b"channelControlType"
    }
}

/// The object that has this name, of those whose names have 20 bytes.
#[tactic(auto, unfolding(crate::specs::Objects::named_among, tsb_plan::specs::Objects::objects))]
fn of_20(word: &[u8]) -> Option<Object>
    ensures { result ≡ named_among (λ n. n == 20) word.now }
{
    first_named! {
        word,
        PhaseVariableInitial b"phaseVariableInitial"
        PhasePedestrianClear b"phasePedestrianClear"
        VehicleDetectorDelay b"vehicleDetectorDelay"
        PreemptEnterPedClear b"preemptEnterPedClear"
        PhaseDynamicMaxLimit b"phaseDynamicMaxLimit"
        CoordCorrectionLimit b"coordCorrectionLimit"
        TimeBaseScheduleDate b"timeBaseScheduleDate"
        ChannelControlSource b"channelControlSource"
    }
}

/// The object that has this name, of those whose names have 21 or 22 bytes.
#[tactic(auto, unfolding(crate::specs::Objects::named_among, tsb_plan::specs::Objects::objects))]
fn of_21_or_22(word: &[u8]) -> Option<Object>
    ensures { result ≡ named_among (λ n. nat_le 21 n && nat_le n 22) word.now }
{
    first_named! {
        word,
        VehicleDetectorExtend  b"vehicleDetectorExtend"
        OverlapIncludedPhases  b"overlapIncludedPhases"
        PatternSequenceNumber  b"patternSequenceNumber"
        PreemptMinimumDuration b"preemptMinimumDuration"
        PreemptMaximumPresence b"preemptMaximumPresence"
        OverlapModifierPhases  b"overlapModifierPhases"
        PatternPermissiveTime  b"patternPermissiveTime"
        PhasePedestrianRecycle b"phasePedestrianRecycle"
        TimeBaseScheduleMonth  b"timeBaseScheduleMonth"
        OverlapArrowPedestrian b"overlapArrowPedestrian"
    }
}

/// The object that has this name, of those whose names have at least 23 bytes.
#[tactic(auto, unfolding(crate::specs::Objects::named_among, tsb_plan::specs::Objects::objects))]
fn from_23(word: &[u8]) -> Option<Object>
    ensures { result ≡ named_among (λ n. nat_le 23 n) word.now }
{
    first_named! {
        word,
        PhaseTimeBeforeReduction     b"phaseTimeBeforeReduction"
        PhaseCarsBeforeReduction     b"phaseCarsBeforeReduction"
        VehicleDetectorCallPhase     b"vehicleDetectorCallPhase"
        VehicleDetectorNoActivity    b"vehicleDetectorNoActivity"
        VehicleDetectorMaxPresence   b"vehicleDetectorMaxPresence"
        VehicleDetectorErraticCounts b"vehicleDetectorErraticCounts"
        VehicleDetectorFailTime      b"vehicleDetectorFailTime"
        PedestrianDetectorCallPhase  b"pedestrianDetectorCallPhase"
        TimeBaseScheduleDayPlan      b"timeBaseScheduleDayPlan"
    }
}
