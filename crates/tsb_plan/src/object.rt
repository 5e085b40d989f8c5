//! The objects of a plan, and the table of what there is to know of each.
ghost use Rattle.std.specs.Prelude.{◌≡◌};
ghost use Rattle.tsb_plan.specs.Objects.{indices, greatest, first_cell, is_structural, since};

use crate::version::Version;

/// An object of a plan: one of NTCIP 1202 section 2, by its name there, or one of the profile's own.
///
/// A variant's comment has the object's name, what its index counts, what its values are and in what unit, and their
/// range. Each object's least value is 0, which it has where a plan gives none. "Yes or no" is 1 or 0. A list of phases
/// is the sum of `2^(phase - 1)` over its phases (profile). The options that NTCIP 1202 has as the bits of one object
/// are objects of their own here (profile), and the ranges of detector, pattern and preempt objects are the profile's.
#[derive(Clone, Copy, PartialEq, Eq)]
pub enum Object {
    /// `phaseEnabled`: phase, yes or no; 0 to 1.
    PhaseEnabled,
    /// `phaseNonLock`: phase, yes or no; 0 to 1.
    PhaseNonLock,
    /// `phaseMinRecall`: phase, yes or no; 0 to 1.
    PhaseMinRecall,
    /// `phaseMaxRecall`: phase, yes or no; 0 to 1.
    PhaseMaxRecall,
    /// `phasePedRecall`: phase, yes or no; 0 to 1.
    PhasePedRecall,
    /// `phaseSoftRecall`: phase, yes or no; 0 to 1.
    PhaseSoftRecall,
    /// `phaseDualEntry`: phase, yes or no; 0 to 1.
    PhaseDualEntry,
    /// `phaseSimGapDisable`: phase, yes or no; 0 to 1.
    PhaseSimGapDisable,
    /// `phaseRestInWalk`: phase, yes or no; 0 to 1.
    PhaseRestInWalk,
    /// `phaseVariableInitial`: phase, yes or no, whether added initial counts (profile); 0 to 1.
    PhaseVariableInitial,
    /// `phaseRing`: phase, 1 or 2, 0 for none; 0 to 2.
    PhaseRing,
    /// `phaseSide`: phase, 1 to 4, 0 for none (profile); 0 to 4.
    PhaseSide,
    /// `phaseConcurrency`: phase, list of phases; 0 to 65,535.
    PhaseConcurrency,
    /// `phaseWalk`: phase, seconds; 0 to 255.
    PhaseWalk,
    /// `phasePedestrianClear`: phase, seconds; 0 to 255.
    PhasePedestrianClear,
    /// `phaseMinimumGreen`: phase, seconds; 0 to 255.
    PhaseMinimumGreen,
    /// `phaseMaximum1`: phase, seconds, in use unless unitMax2 is 1; 0 to 255.
    PhaseMaximum1,
    /// `phaseMaximum2`: phase, seconds, in use where unitMax2 is 1; 0 to 255.
    PhaseMaximum2,
    /// `phaseMaximumInitial`: phase, seconds; 0 to 255.
    PhaseMaximumInitial,
    /// `phaseTimeBeforeReduction`: phase, seconds; 0 to 255.
    PhaseTimeBeforeReduction,
    /// `phaseTimeToReduce`: phase, seconds; 0 to 255.
    PhaseTimeToReduce,
    /// `phasePassage`: phase, tenths of a second; 0 to 255.
    PhasePassage,
    /// `phaseYellowChange`: phase, tenths of a second; 0 to 255.
    PhaseYellowChange,
    /// `phaseRedClear`: phase, tenths of a second; 0 to 255.
    PhaseRedClear,
    /// `phaseRedRevert`: phase, tenths of a second; 0 to 255.
    PhaseRedRevert,
    /// `phaseAddedInitial`: phase, tenths of a second; 0 to 255.
    PhaseAddedInitial,
    /// `phaseMinimumGap`: phase, tenths of a second; 0 to 255.
    PhaseMinimumGap,
    /// `phaseCarsBeforeReduction`: phase, vehicles, 0 for never; 0 to 255.
    PhaseCarsBeforeReduction,
    /// `vehicleDetectorCallPhase`: vehicle detector, phase, 0 for none; 0 to 16.
    VehicleDetectorCallPhase,
    /// `vehicleDetectorDelay`: vehicle detector, tenths of a second; 0 to 2,550.
    VehicleDetectorDelay,
    /// `vehicleDetectorExtend`: vehicle detector, tenths of a second; 0 to 255.
    VehicleDetectorExtend,
    /// `vehicleDetectorNoActivity`: vehicle detector, minutes, 0 for never; 0 to 255.
    VehicleDetectorNoActivity,
    /// `vehicleDetectorMaxPresence`: vehicle detector, minutes, 0 for never; 0 to 255.
    VehicleDetectorMaxPresence,
    /// `vehicleDetectorErraticCounts`: vehicle detector, rises a minute, 0 for any number; 0 to 255.
    VehicleDetectorErraticCounts,
    /// `vehicleDetectorFailTime`: vehicle detector, seconds, 0 for off and 255 for on while it has
    /// failed; 0 to 255.
    VehicleDetectorFailTime,
    /// `pedestrianDetectorCallPhase`: pedestrian detector, phase, 0 for none; 0 to 16.
    PedestrianDetectorCallPhase,
    /// `overlapIncludedPhases`: overlap, list of phases; 0 to 65,535.
    OverlapIncludedPhases,
    /// `patternCycleTime`: pattern, seconds, 0 for a pattern that is not used; 0 to 255.
    PatternCycleTime,
    /// `patternOffsetTime`: pattern, seconds; 0 to 254.
    PatternOffsetTime,
    /// `patternSplitNumber`: pattern, split table; 0 to 8.
    PatternSplitNumber,
    /// `patternSequenceNumber`: pattern, sequence; 0 to 4.
    PatternSequenceNumber,
    /// `splitTime`: 16 (table - 1) + phase, seconds; 0 to 255.
    SplitTime,
    /// `splitMode`: 16 (table - 1) + phase, 0 none, 1 minimum recall, 2 maximum recall, 3 pedestrian
    /// recall, 4 maximum and pedestrian recall, 5 omitted (profile); 0 to 5.
    SplitMode,
    /// `splitCoordPhase`: 16 (table - 1) + phase, yes or no; 0 to 1.
    SplitCoordPhase,
    /// `sequenceData`: 32 (sequence - 1) + 16 (ring - 1) + place, phase, 0 for none; 0 to 16.
    SequenceData,
    /// `preemptDelay`: preempt, seconds; 0 to 600.
    PreemptDelay,
    /// `preemptMinimumDuration`: preempt, seconds; 0 to 65,535.
    PreemptMinimumDuration,
    /// `preemptMaximumPresence`: preempt, seconds, 0 for no limit; 0 to 65,535.
    PreemptMaximumPresence,
    /// `preemptMinimumGreen`: preempt, seconds; 0 to 255.
    PreemptMinimumGreen,
    /// `preemptMinimumWalk`: preempt, seconds; 0 to 255.
    PreemptMinimumWalk,
    /// `preemptEnterPedClear`: preempt, seconds; 0 to 255.
    PreemptEnterPedClear,
    /// `preemptTrackGreen`: preempt, seconds; 0 to 255.
    PreemptTrackGreen,
    /// `preemptTrackPhase`: preempt, list of phases; 0 to 65,535.
    PreemptTrackPhase,
    /// `preemptDwellPhase`: preempt, list of phases; 0 to 65,535.
    PreemptDwellPhase,
    /// `preemptExitPhase`: preempt, list of phases; 0 to 65,535.
    PreemptExitPhase,
    /// `unitRedRevert`: 1 alone, tenths of a second; 0 to 255.
    UnitRedRevert,
    /// `unitMax2`: 1 alone, yes or no, whether phaseMaximum2 is in use (profile); 0 to 1.
    UnitMax2,
    /// `phaseDynamicMaxLimit`: phase, seconds (profile), 0 for no dynamic maximum; 0 to 255.
    PhaseDynamicMaxLimit,
    /// `phaseDynamicMaxStep`: phase, tenths of a second (profile), 0 for no dynamic maximum; 0 to 255.
    PhaseDynamicMaxStep,
    /// `overlapType`: overlap, 0 normal, 1 minusGreenYellow, 2 flashing yellow arrow (profile); 0 to 2, and before
    /// version 3 0 to 1.
    OverlapType,
    /// `overlapModifierPhases`: overlap, list of phases; 0 to 65,535.
    OverlapModifierPhases,
    /// `coordForceMode`: 1 alone, 0 force-off at the instant, 1 late force-off, 2 floating force-off (profile); 0 to 2.
    CoordForceMode,
    /// `coordMaximumMode`: 1 alone, 0 no maximum in a pattern, 1 phaseMaximum1, 2 phaseMaximum2 (profile); 0 to 2.
    CoordMaximumMode,
    /// `patternPermissiveTime`: pattern, seconds (profile); 0 to 255.
    PatternPermissiveTime,
    /// `patternLeadLag`: pattern, yes or no, whether coordinated splits may end apart (profile); 0 to 1.
    PatternLeadLag,
    /// `phasePedestrianRecycle`: phase, yes or no, whether a coordinated phase may walk again (profile); 0 to 1.
    PhasePedestrianRecycle,
    /// `coordCorrectionMode`: 1 alone, 0 at once, 1 dwell, 2 short way, 3 add only (profile); 0 to 3.
    CoordCorrectionMode,
    /// `coordCorrectionLimit`: 1 alone, percent of the cycle (profile); 0 to 50.
    CoordCorrectionLimit,
    /// `overlapAcrossRings`: overlap, yes or no, whether the other ring's commitment counts too (profile); 0 to 1.
    OverlapAcrossRings,
    /// `preemptChoosesAnew`: preempt, yes or no, whether rings give up commitments that it does not want (profile); 0 to 1.
    PreemptChoosesAnew,
    /// `coordReference`: 1 alone, 0 end of split, 1 first green, 2 last green, 3 first yellow, 4 last yellow, 5 first
    /// red (profile); 0 to 5.
    CoordReference,
    /// `timeBaseScheduleMonth`: entry, sum of `2^month` over its months, January 1; 0 to 8,190.
    TimeBaseScheduleMonth,
    /// `timeBaseScheduleDay`: entry, sum of `2^day` over its weekdays, Sunday 1; 0 to 254.
    TimeBaseScheduleDay,
    /// `timeBaseScheduleDate`: 32 (half - 1) + entry, sum of `2^day` over its days of the month 1 to 15. Half 2 has that
    /// of `2^(day - 16)` over those from 16 on (profile); 0 to 65,535.
    TimeBaseScheduleDate,
    /// `timeBaseScheduleDayPlan`: entry, day plan, 0 for an entry that is not used; 0 to 16.
    TimeBaseScheduleDayPlan,
    /// `dayPlanHour`: 16 (day plan - 1) + event, hour; 0 to 23.
    DayPlanHour,
    /// `dayPlanMinute`: 16 (day plan - 1) + event, minute; 0 to 59.
    DayPlanMinute,
    /// `dayPlanActionNumber`: 16 (day plan - 1) + event, action, 0 for an event that is not used (profile); 0 to 32.
    DayPlanActionNumber,
    /// `timebaseAscPattern`: action, pattern, 254 for free operation, 0 for none; 0 to 254.
    TimebaseAscPattern,
    /// `overlapArrowDelay`: overlap, tenths of a second (profile); 0 to 255.
    OverlapArrowDelay,
    /// `overlapArrowPedestrian`: overlap, yes or no, whether crosswalks of included phases keep an arrow from flashing
    /// (profile); 0 to 1.
    OverlapArrowPedestrian,
    /// `overlapTrailGreen`: overlap, seconds, 0 for an overlap that does not trail; 0 to 255.
    OverlapTrailGreen,
    /// `overlapTrailYellow`: overlap, tenths of a second; 0 to 255.
    OverlapTrailYellow,
    /// `overlapTrailRed`: overlap, tenths of a second; 0 to 255.
    OverlapTrailRed,
    /// `actionArrowOmit`: action, list of overlaps whose arrows do not flash (profile); 0 to 65,535.
    ActionArrowOmit,
    /// `channelControlSource`: channel of the monitor, phase or overlap, 0 for none; 0 to 16.
    ChannelControlSource,
    /// `channelControlType`: channel of the monitor, 2 vehicles of a phase, 3 pedestrians of a phase, 4 overlap; 0 to 4.
    ChannelControlType,
}

/// THE TABLE OF OBJECTS, each row as the macro that is named takes it: the object, its name in plan texts,
/// its first cell, its number of indices and greatest value in a plan, those in version 1 of plan texts or
/// the first version that has it (`since 2`), and whether it is structural.
///
/// The order is that of the objects' cells in a plan. An object's first cell is after the cells of the one
/// before it.
macro_rules! table {
    ($column:ident) => {
        $column! {
            PhaseEnabled                "phaseEnabled"                    0 [16 1]      [8 1]       structural
            PhaseNonLock                "phaseNonLock"                   16 [16 1]      [8 1]       free
            PhaseMinRecall              "phaseMinRecall"                 32 [16 1]      [8 1]       free
            PhaseMaxRecall              "phaseMaxRecall"                 48 [16 1]      [8 1]       free
            PhasePedRecall              "phasePedRecall"                 64 [16 1]      [8 1]       free
            PhaseSoftRecall             "phaseSoftRecall"                80 [16 1]      [8 1]       free
            PhaseDualEntry              "phaseDualEntry"                 96 [16 1]      [8 1]       free
            PhaseSimGapDisable          "phaseSimGapDisable"            112 [16 1]      [8 1]       free
            PhaseRestInWalk             "phaseRestInWalk"               128 [16 1]      [8 1]       free
            PhaseVariableInitial        "phaseVariableInitial"          144 [16 1]      [8 1]       free
            PhaseRing                   "phaseRing"                     160 [16 2]      [8 2]       structural
            PhaseSide                   "phaseSide"                     176 [16 4]      [8 2]       structural
            PhaseConcurrency            "phaseConcurrency"              192 [16 65535]  [8 255]     structural
            PhaseWalk                   "phaseWalk"                     208 [16 255]    [8 255]     free
            PhasePedestrianClear        "phasePedestrianClear"          224 [16 255]    [8 255]     free
            PhaseMinimumGreen           "phaseMinimumGreen"             240 [16 255]    [8 255]     free
            PhaseMaximum1               "phaseMaximum1"                 256 [16 255]    [8 255]     free
            PhaseMaximum2               "phaseMaximum2"                 272 [16 255]    [8 255]     free
            PhaseMaximumInitial         "phaseMaximumInitial"           288 [16 255]    [8 255]     free
            PhaseTimeBeforeReduction    "phaseTimeBeforeReduction"      304 [16 255]    [8 255]     free
            PhaseTimeToReduce           "phaseTimeToReduce"             320 [16 255]    [8 255]     free
            PhasePassage                "phasePassage"                  336 [16 255]    [8 255]     free
            PhaseYellowChange           "phaseYellowChange"             352 [16 255]    [8 255]     free
            PhaseRedClear               "phaseRedClear"                 368 [16 255]    [8 255]     free
            PhaseRedRevert              "phaseRedRevert"                384 [16 255]    [8 255]     free
            PhaseAddedInitial           "phaseAddedInitial"             400 [16 255]    [8 255]     free
            PhaseMinimumGap             "phaseMinimumGap"               416 [16 255]    [8 255]     free
            PhaseCarsBeforeReduction    "phaseCarsBeforeReduction"      432 [16 255]    [8 255]     free
            VehicleDetectorCallPhase    "vehicleDetectorCallPhase"      448 [64 16]     [16 8]      free
            VehicleDetectorDelay        "vehicleDetectorDelay"          512 [64 2550]   [16 2550]   free
            VehicleDetectorExtend       "vehicleDetectorExtend"         576 [64 255]    [16 255]    free
            VehicleDetectorNoActivity   "vehicleDetectorNoActivity"     640 [64 255]    [16 255]    free
            VehicleDetectorMaxPresence  "vehicleDetectorMaxPresence"    704 [64 255]    [16 255]    free
            VehicleDetectorErraticCounts "vehicleDetectorErraticCounts"  768 [64 255]    [16 255]    free
            VehicleDetectorFailTime     "vehicleDetectorFailTime"       832 [64 255]    [16 255]    free
            PedestrianDetectorCallPhase "pedestrianDetectorCallPhase"   896 [16 16]     [8 8]       free
            OverlapIncludedPhases       "overlapIncludedPhases"         912 [16 65535]  [4 255]     structural
            PatternCycleTime            "patternCycleTime"              928 [16 255]    [16 255]    free
            PatternOffsetTime           "patternOffsetTime"             944 [16 254]    [16 254]    free
            PatternSplitNumber          "patternSplitNumber"            960 [16 8]      [16 8]      free
            PatternSequenceNumber       "patternSequenceNumber"         976 [16 4]      [16 4]      free
            SplitTime                   "splitTime"                     992 [128 255]   [64 255]    free
            SplitMode                   "splitMode"                    1120 [128 5]     [64 5]      free
            SplitCoordPhase             "splitCoordPhase"              1248 [128 1]     [64 1]      free
            SequenceData                "sequenceData"                 1376 [128 16]    [64 8]      free
            PreemptDelay                "preemptDelay"                 1504 [8 600]     [4 600]     free
            PreemptMinimumDuration      "preemptMinimumDuration"       1512 [8 65535]   [4 65535]   free
            PreemptMaximumPresence      "preemptMaximumPresence"       1520 [8 65535]   [4 65535]   free
            PreemptMinimumGreen         "preemptMinimumGreen"          1528 [8 255]     [4 255]     free
            PreemptMinimumWalk          "preemptMinimumWalk"           1536 [8 255]     [4 255]     free
            PreemptEnterPedClear        "preemptEnterPedClear"         1544 [8 255]     [4 255]     free
            PreemptTrackGreen           "preemptTrackGreen"            1552 [8 255]     [4 255]     free
            PreemptTrackPhase           "preemptTrackPhase"            1560 [8 65535]   [4 255]     free
            PreemptDwellPhase           "preemptDwellPhase"            1568 [8 65535]   [4 255]     free
            PreemptExitPhase            "preemptExitPhase"             1576 [8 65535]   [4 255]     free
            UnitRedRevert               "unitRedRevert"                1584 [1 255]     [1 255]     free
            UnitMax2                    "unitMax2"                     1585 [1 1]       [1 1]       free
            PhaseDynamicMaxLimit        "phaseDynamicMaxLimit"         1586 [16 255]    [since 2]   free
            PhaseDynamicMaxStep         "phaseDynamicMaxStep"          1602 [16 255]    [since 2]   free
            OverlapType                 "overlapType"                  1618 [16 2]      [since 2]   structural
            OverlapModifierPhases       "overlapModifierPhases"        1634 [16 65535]  [since 2]   structural
            CoordForceMode              "coordForceMode"               1650 [1 2]       [since 2]   free
            CoordMaximumMode            "coordMaximumMode"             1651 [1 2]       [since 2]   free
            PatternPermissiveTime       "patternPermissiveTime"        1652 [16 255]    [since 2]   free
            PatternLeadLag              "patternLeadLag"               1668 [16 1]      [since 2]   free
            PhasePedestrianRecycle      "phasePedestrianRecycle"       1684 [16 1]      [since 2]   free
            CoordCorrectionMode         "coordCorrectionMode"          1700 [1 3]       [since 2]   free
            CoordCorrectionLimit        "coordCorrectionLimit"         1701 [1 50]      [since 2]   free
            OverlapAcrossRings          "overlapAcrossRings"           1702 [16 1]      [since 3]   structural
            PreemptChoosesAnew          "preemptChoosesAnew"           1718 [8 1]       [since 3]   free
            CoordReference              "coordReference"               1726 [1 5]       [since 3]   free
            TimeBaseScheduleMonth       "timeBaseScheduleMonth"          1727 [32 8190] [since 3]   free
            TimeBaseScheduleDay         "timeBaseScheduleDay"            1759 [32 254] [since 3]   free
            TimeBaseScheduleDate        "timeBaseScheduleDate"           1791 [64 65535] [since 3]   free
            TimeBaseScheduleDayPlan     "timeBaseScheduleDayPlan"        1855 [32 16] [since 3]   free
            DayPlanHour                 "dayPlanHour"                    1887 [256 23] [since 3]   free
            DayPlanMinute               "dayPlanMinute"                  2143 [256 59] [since 3]   free
            DayPlanActionNumber         "dayPlanActionNumber"            2399 [256 32] [since 3]   free
            TimebaseAscPattern          "timebaseAscPattern"             2655 [32 254] [since 3]   free
            OverlapArrowDelay           "overlapArrowDelay"              2687 [16 255] [since 3]   free
            OverlapArrowPedestrian      "overlapArrowPedestrian"         2703 [16 1] [since 3]   free
            OverlapTrailGreen           "overlapTrailGreen"              2719 [16 255] [since 3]   structural
            OverlapTrailYellow          "overlapTrailYellow"             2735 [16 255] [since 3]   free
            OverlapTrailRed             "overlapTrailRed"                2751 [16 255] [since 3]   free
            ActionArrowOmit             "actionArrowOmit"                2767 [32 65535] [since 3]   free
            ChannelControlSource        "channelControlSource"           2799 [16 16] [since 3]   free
            ChannelControlType          "channelControlType"             2815 [16 4] [since 3]   free
        }
    };
}

/// The names of the table.
macro_rules! names {
    ($($object:ident $name:literal $cell:literal [$($range:tt)+] [$($narrow:tt)+] $change:ident)*) => {
        [$($name),*]
    };
}

/// The first cells of the table.
macro_rules! first_cells {
    ($($object:ident $name:literal $cell:literal [$($range:tt)+] [$($narrow:tt)+] $change:ident)*) => {
        [$($cell),*]
    };
}

/// The ranges of the table.
macro_rules! ranges {
    ($($object:ident $name:literal $cell:literal [$($range:tt)+] [$($narrow:tt)+] $change:ident)*) => {
        [$(range!($($range)+)),*]
    };
}

/// The first versions that have the rows of the table.
macro_rules! first_versions {
    ($($object:ident $name:literal $cell:literal [$($range:tt)+] [$($narrow:tt)+] $change:ident)*) => {
        [$(first_version!($($narrow)+)),*]
    };
}

/// The ranges of the table in version 1.
macro_rules! narrow_ranges {
    ($($object:ident $name:literal $cell:literal [$($range:tt)+] [$($narrow:tt)+] $change:ident)*) => {
        [$(narrow_range!([$($narrow)+] [$($range)+])),*]
    };
}

/// Which rows of the table are structural.
macro_rules! are_structural {
    ($($object:ident $name:literal $cell:literal [$($range:tt)+] [$($narrow:tt)+] $change:ident)*) => {
        [$(is_structural!($change)),*]
    };
}

/// The objects of the table.
macro_rules! objects {
    ($($object:ident $name:literal $cell:literal [$($range:tt)+] [$($narrow:tt)+] $change:ident)*) => {
        [$(Object::$object),*]
    };
}

/// How many objects the table has.
macro_rules! count {
    ($($object:ident $name:literal $cell:literal [$($range:tt)+] [$($narrow:tt)+] $change:ident)*) => {
        0 $(+ one!($object))*
    };
}

/// How many cells the objects of the table have together.
macro_rules! cells {
    ($($object:ident $name:literal $cell:literal [$indices:literal $most:literal] [$($narrow:tt)+] $change:ident)*) => {
        0 $(+ $indices)*
    };
}

/// 1, for anything.
macro_rules! one {
    ($object:ident) => {
        1
    };
}

/// A number of indices and a greatest value.
macro_rules! range {
    ($indices:literal $greatest:literal) => {
        Range {
            indices: $indices,
            greatest: $greatest,
        }
    };
}

/// The first version that has an object: version 1, where it has a range there.
macro_rules! first_version {
    (since 2) => {
        Version::Two
    };
    (since 3) => {
        Version::Three
    };
    ($($narrow:tt)+) => {
        Version::One
    };
}

/// The range in version 1, and the second, that in a plan, where version 1 has none.
macro_rules! narrow_range {
    ([since $version:literal] [$($range:tt)+]) => {
        range!($($range)+)
    };
    ([$($narrow:tt)+] [$($range:tt)+]) => {
        range!($($narrow)+)
    };
}

/// Whether an object is `structural`, or `free` to be changed while a phase is in service.
macro_rules! is_structural {
    (structural) => {
        true
    };
    (free) => {
        false
    };
}

// What there is to know of each object, a column of the table each, at the object's number: its place among all.

/// Its name, as NTCIP 1202 and plan texts have it.
pub(crate) const NAMES: [&'static str; Object::COUNT] = table!(names);

/// The plan's cell that holds its value at index 1; those at 2, 3, .. follow it.
const FIRST_CELLS: [usize; Object::COUNT] = table!(first_cells);

/// Its indices and values in a plan, with 16 phases and 4 sides, and in plan texts after version 1.
const RANGES: [Range; Object::COUNT] = table!(ranges);

/// The first version of plan texts that has it.
const FIRST_VERSIONS: [Version; Object::COUNT] = table!(first_versions);

/// Its indices and values in plan texts of version 1, with 8 phases and 2 sides; where these do not have it, those in a
/// plan.
pub(crate) const NARROW_RANGES: [Range; Object::COUNT] = table!(narrow_ranges);

/// Whether a commit that changes it is refused while a phase is in service (profile).
const ARE_STRUCTURAL: [bool; Object::COUNT] = table!(are_structural);

/// The cells of a plan, one for each object at each of its indices.
pub const PLAN_CELLS: usize = table!(cells);

impl Object {
    /// How many objects there are.
    pub const COUNT: usize = table!(count);

    /// All objects, in the order of their cells in a plan.
    pub const ALL: [Object; Object::COUNT] = table!(objects);

    /// How many indices the object has: they are 1 to this number.
    pub fn indices(self) -> u32
        ensures { result ≡ indices self }
    {
        RANGES[self as usize].indices
    }

    /// The greatest value that the object takes: it takes 0 to this number.
    pub fn greatest(self) -> u32
        ensures { result ≡ greatest self }
    {
        RANGES[self as usize].greatest
    }

    /// The first version of plan texts that has the object; later ones have it too.
    pub fn since(self) -> Version
        ensures { result ≡ since self }
    {
        FIRST_VERSIONS[self as usize]
    }

    /// The plan's cell that holds the object's value at index 1; those at 2, 3, .. follow it.
    #[tactic(auto, unfolding(crate::specs::Objects::first_cell, crate::specs::Objects::objects))]
    pub fn first_cell(self) -> usize
        ensures { result ≡ first_cell self }
    {
        FIRST_CELLS[self as usize]
    }
}

/// An object at an index: what a plan has a value for.
#[derive(Clone, Copy, PartialEq, Eq)]
pub struct ObjectId {
    /// Which object.
    pub object: Object,
    /// 1 to the object's number of indices. Any other names nothing, and calls refuse it.
    pub index: u32,
}

/// The indices that an object has and the values that it takes.
#[derive(Clone, Copy, PartialEq, Eq)]
pub struct Range {
    /// Its indices are 1 to this number.
    pub indices: u32,
    /// Its values are 0 to this number.
    pub greatest: u32,
}

/// The indices that the object has and the values that it takes.
pub fn range_of(object: Object) -> Range
    ensures { result ≡ record { indices = indices object; greatest = greatest object } }
{
    Range {
        indices: object.indices(),
        greatest: object.greatest(),
    }
}

/// Whether a commit that changes the object is refused while a phase is in service (profile): the object says which
/// phases there are, where they are placed, and which belong together.
pub fn is_structural(object: Object) -> bool
    ensures { result ≡ is_structural object }
{
    ARE_STRUCTURAL[object as usize]
}
