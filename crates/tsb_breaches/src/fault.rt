//! The ways in which a plan can break a rule, in order.
ghost use Rattle.std.specs.Prelude.{◌≡◌};
ghost use Rattle.tsb_breaches.specs.Breaches.{rule_of, shape};

use tsb_review::Shape;
use tsb_rules::Rule;

/// A way to break a rule. Each is named for its rule, and what it is where a rule can be broken in several ways.
///
/// They stand in the order in which a review gives them. "Phase" without more is an enabled phase, and a used pattern is
/// one whose cycle is not 0.
#[derive(Clone, Copy, PartialEq, Eq)]
pub enum RuleFault {
    /// No phase is enabled.
    K1,
    /// A phase is of no ring.
    K2Ring,
    /// A phase is on no side.
    K2Side,
    /// A phase that is not enabled has a concurrency list.
    K3,
    /// The concurrency list of a phase names one that is not enabled.
    K4Unused,
    /// The concurrency list of a phase names one of its own ring.
    K4Ring,
    /// The concurrency list of a phase names one of the other ring on another side.
    K4Side,
    /// The concurrency list of a phase, enabled or not, names one whose list does not name it.
    K5,
    /// Sequence 1 lists a phase that is not enabled.
    K6Unused,
    /// Sequence 1 lists for a ring a phase of another.
    K6Ring,
    /// Sequence 1 does not list a phase of a ring.
    K6Missing,
    /// Sequence 1 lists a phase again.
    K6Again,
    /// Sequence 1 lists a phase before one of a lower side.
    K6Side,
    /// Sequence 1 has a zero before a phase.
    K6Gap,
    /// Another sequence that is not all zeros lists a phase that is not enabled.
    K7Unused,
    /// Such a sequence lists for a ring a phase of another.
    K7Ring,
    /// Such a sequence does not list a phase of a ring.
    K7Missing,
    /// Such a sequence lists a phase again.
    K7Again,
    /// Such a sequence lists a phase before one of a lower side.
    K7Side,
    /// Such a sequence has a zero before a phase.
    K7Gap,
    /// The yellow of a phase is under 3 seconds.
    K8,
    /// The minimum gap of a phase is over its passage.
    K9,
    /// `phaseMaximum1` of a phase is under its minimum green.
    K10Maximum1,
    /// `phaseMaximum2` of a phase is under its minimum green.
    K10Maximum2,
    /// A phase with pedestrian recall has no walk.
    K11,
    /// A vehicle detector calls a phase that is not enabled.
    K12,
    /// A pedestrian detector calls a phase that is not enabled.
    K13Unused,
    /// A pedestrian detector calls a phase without walk.
    K13Walk,
    /// An overlap includes a phase that is not enabled.
    K14,
    /// The track list of a preempt names a phase that is not enabled.
    K15TrackUnused,
    /// The dwell list of a preempt names a phase that is not enabled.
    K15DwellUnused,
    /// The exit list of a preempt names a phase that is not enabled.
    K15ExitUnused,
    /// Two track phases of a preempt are not concurrent.
    K15Track,
    /// Two dwell phases of a preempt are not concurrent.
    K15Dwell,
    /// Two exit phases of a preempt are not concurrent.
    K15Exit,
    /// A preempt has track phases and no dwell phases.
    K16Track,
    /// A preempt has exit phases and no dwell phases.
    K16Exit,
    /// The offset of a used pattern is not below its cycle.
    K17Offset,
    /// A used pattern has no split table.
    K17Split,
    /// A used pattern has no sequence.
    K17Sequence,
    /// The sequence of a used pattern is all zeros.
    K17Blank,
    /// The split of a phase that is not omitted does not hold its minimum green, yellow and red clearance.
    K18,
    /// The splits of a side have another sum in ring 1 than in ring 2.
    K19Rings,
    /// The sums of the sides do not add up to the cycle.
    K19Cycle,
    /// No phase is coordinated.
    K20None,
    /// A coordinated phase is not enabled.
    K20Unused,
    /// A coordinated phase is omitted.
    K20Omitted,
    /// Two coordinated phases are on two sides.
    K20Sides,
    /// Two coordinated phases of one side are not concurrent.
    K20Apart,
    /// The splits of two coordinated phases that are concurrent end at two times, and the pattern does not lead and
    /// lag.
    K20Ends,
    /// A ring with phases on the side of a coordinated one has none itself, or several.
    K20Ring,
    /// A modifier phase of an overlap is not enabled.
    K21Unused,
    /// An overlap that is not of type 1 has modifier phases.
    K21Type,
    /// The dynamic maximum limit of a phase is not 0, and under its minimum green.
    K22,
    /// The permissive time of a used pattern is not below its cycle.
    K23,
    /// Two events of a day plan come at one minute.
    K24,
    /// An entry of the schedule names a day plan that has no event.
    K25,
    /// An event of a day plan names an action that is not defined.
    K26,
    /// An action asks for a pattern that there is not.
    K27Number,
    /// An action asks for a pattern that is not used.
    K27Unused,
    /// An arrow includes no phase.
    K28Empty,
    /// An arrow has no modifier phase, or several.
    K28Turns,
    /// The modifier phase of an arrow is a phase that it includes, or concurrent with it.
    K28Together,
    /// The trailing yellow of an overlap is over 0 and under 30, or 0 where it trails.
    K29Yellow,
    /// An overlap that trails is not normal.
    K29Type,
}

impl RuleFault {
    /// All of them, in order.
    pub const ALL: [RuleFault; 65] = [
        RuleFault::K1,
        RuleFault::K2Ring,
        RuleFault::K2Side,
        RuleFault::K3,
        RuleFault::K4Unused,
        RuleFault::K4Ring,
        RuleFault::K4Side,
        RuleFault::K5,
        RuleFault::K6Unused,
        RuleFault::K6Ring,
        RuleFault::K6Missing,
        RuleFault::K6Again,
        RuleFault::K6Side,
        RuleFault::K6Gap,
        RuleFault::K7Unused,
        RuleFault::K7Ring,
        RuleFault::K7Missing,
        RuleFault::K7Again,
        RuleFault::K7Side,
        RuleFault::K7Gap,
        RuleFault::K8,
        RuleFault::K9,
        RuleFault::K10Maximum1,
        RuleFault::K10Maximum2,
        RuleFault::K11,
        RuleFault::K12,
        RuleFault::K13Unused,
        RuleFault::K13Walk,
        RuleFault::K14,
        RuleFault::K15TrackUnused,
        RuleFault::K15DwellUnused,
        RuleFault::K15ExitUnused,
        RuleFault::K15Track,
        RuleFault::K15Dwell,
        RuleFault::K15Exit,
        RuleFault::K16Track,
        RuleFault::K16Exit,
        RuleFault::K17Offset,
        RuleFault::K17Split,
        RuleFault::K17Sequence,
        RuleFault::K17Blank,
        RuleFault::K18,
        RuleFault::K19Rings,
        RuleFault::K19Cycle,
        RuleFault::K20None,
        RuleFault::K20Unused,
        RuleFault::K20Omitted,
        RuleFault::K20Sides,
        RuleFault::K20Apart,
        RuleFault::K20Ends,
        RuleFault::K20Ring,
        RuleFault::K21Unused,
        RuleFault::K21Type,
        RuleFault::K22,
        RuleFault::K23,
        RuleFault::K24,
        RuleFault::K25,
        RuleFault::K26,
        RuleFault::K27Number,
        RuleFault::K27Unused,
        RuleFault::K28Empty,
        RuleFault::K28Turns,
        RuleFault::K28Together,
        RuleFault::K29Yellow,
        RuleFault::K29Type,
    ];

    /// The rule that is broken.
    pub fn rule(self) -> Rule
        ensures { result ≡ rule_of self }
    {
        match self {
            RuleFault::K1 => Rule::K1,
            RuleFault::K2Ring | RuleFault::K2Side => Rule::K2,
            RuleFault::K3 => Rule::K3,
            RuleFault::K4Unused | RuleFault::K4Ring | RuleFault::K4Side => Rule::K4,
            RuleFault::K5 => Rule::K5,
            RuleFault::K6Unused
            | RuleFault::K6Ring
            | RuleFault::K6Missing
            | RuleFault::K6Again
            | RuleFault::K6Side
            | RuleFault::K6Gap => Rule::K6,
            RuleFault::K7Unused
            | RuleFault::K7Ring
            | RuleFault::K7Missing
            | RuleFault::K7Again
            | RuleFault::K7Side
            | RuleFault::K7Gap => Rule::K7,
            RuleFault::K8 => Rule::K8,
            RuleFault::K9 => Rule::K9,
            RuleFault::K10Maximum1 | RuleFault::K10Maximum2 => Rule::K10,
            RuleFault::K11 => Rule::K11,
            RuleFault::K12 => Rule::K12,
            RuleFault::K13Unused | RuleFault::K13Walk => Rule::K13,
            RuleFault::K14 => Rule::K14,
            RuleFault::K15TrackUnused
            | RuleFault::K15DwellUnused
            | RuleFault::K15ExitUnused
            | RuleFault::K15Track
            | RuleFault::K15Dwell
            | RuleFault::K15Exit => Rule::K15,
            RuleFault::K16Track | RuleFault::K16Exit => Rule::K16,
            RuleFault::K17Offset
            | RuleFault::K17Split
            | RuleFault::K17Sequence
            | RuleFault::K17Blank => Rule::K17,
            RuleFault::K18 => Rule::K18,
            RuleFault::K19Rings | RuleFault::K19Cycle => Rule::K19,
            RuleFault::K20None
            | RuleFault::K20Unused
            | RuleFault::K20Omitted
            | RuleFault::K20Sides
            | RuleFault::K20Apart
            | RuleFault::K20Ends
            | RuleFault::K20Ring => Rule::K20,
            RuleFault::K21Unused | RuleFault::K21Type => Rule::K21,
            RuleFault::K22 => Rule::K22,
            RuleFault::K23 => Rule::K23,
            RuleFault::K24 => Rule::K24,
            RuleFault::K25 => Rule::K25,
            RuleFault::K26 => Rule::K26,
            RuleFault::K27Number | RuleFault::K27Unused => Rule::K27,
            RuleFault::K28Empty | RuleFault::K28Turns | RuleFault::K28Together => Rule::K28,
            RuleFault::K29Yellow | RuleFault::K29Type => Rule::K29,
        }
    }

    /// The kind of the places at which it is.
    pub fn shape(self) -> Shape
        ensures { result ≡ shape self }
    {
        match self {
            RuleFault::K1 => Shape::Unit,
            RuleFault::K2Ring
            | RuleFault::K2Side
            | RuleFault::K3
            | RuleFault::K8
            | RuleFault::K9
            | RuleFault::K10Maximum1
            | RuleFault::K10Maximum2
            | RuleFault::K11
            | RuleFault::K22 => Shape::Phase,
            RuleFault::K4Unused | RuleFault::K4Ring | RuleFault::K4Side | RuleFault::K5 =>
                Shape::Phases,
            RuleFault::K6Unused
            | RuleFault::K6Ring
            | RuleFault::K6Again
            | RuleFault::K6Side
            | RuleFault::K6Gap
            | RuleFault::K7Unused
            | RuleFault::K7Ring
            | RuleFault::K7Again
            | RuleFault::K7Side
            | RuleFault::K7Gap => Shape::Listing,
            RuleFault::K6Missing | RuleFault::K7Missing => Shape::SequencePhase,
            RuleFault::K12 => Shape::Detector,
            RuleFault::K13Unused | RuleFault::K13Walk => Shape::PedestrianDetector,
            RuleFault::K14 | RuleFault::K21Unused | RuleFault::K28Together => Shape::OverlapPhase,
            RuleFault::K15TrackUnused | RuleFault::K15DwellUnused | RuleFault::K15ExitUnused =>
                Shape::PreemptPhase,
            RuleFault::K15Track | RuleFault::K15Dwell | RuleFault::K15Exit => Shape::PreemptPhases,
            RuleFault::K16Track | RuleFault::K16Exit => Shape::Preempt,
            RuleFault::K17Offset
            | RuleFault::K17Split
            | RuleFault::K17Sequence
            | RuleFault::K17Blank
            | RuleFault::K19Cycle
            | RuleFault::K20None
            | RuleFault::K23 => Shape::Pattern,
            RuleFault::K18 | RuleFault::K20Unused | RuleFault::K20Omitted => Shape::PatternPhase,
            RuleFault::K19Rings => Shape::PatternSide,
            RuleFault::K20Sides | RuleFault::K20Apart | RuleFault::K20Ends => Shape::PatternPhases,
            RuleFault::K20Ring => Shape::PatternRing,
            RuleFault::K21Type
            | RuleFault::K28Empty
            | RuleFault::K28Turns
            | RuleFault::K29Yellow
            | RuleFault::K29Type => Shape::Overlap,
            RuleFault::K24 => Shape::DayEvents,
            RuleFault::K25 => Shape::Entry,
            RuleFault::K26 => Shape::DayEvent,
            RuleFault::K27Number | RuleFault::K27Unused => Shape::Action,
        }
    }
}
