//! The places for which advices are given, and at which a plan can break a rule.
ghost use Rattle.std.specs.Prelude.{◌≡◌, ◌≤◌};
ghost use Rattle.tsb_review.specs.Places.{firsts, seconds, thirds, place_of};

use tsb_types::limits::{OVERLAPS, PEDESTRIAN_DETECTORS, PREEMPTS, VEHICLE_DETECTORS};
use tsb_types::{
    Action, DayEvent, DayPlan, Detector, Entry, Number, Overlap, Pattern, PedestrianDetector,
    Phase, Preempt, Ring, Sequence, Side,
};

/// The number of a place in what a sequence has for a ring: 1 to 16.
pub type Listing = Number<11, 16>;

/// A part of a plan, or two or three: what an advice is given for, and where a rule can be broken.
#[derive(Clone, Copy, PartialEq, Eq)]
pub enum Place {
    /// The whole plan.
    Unit,
    /// A phase.
    Phase(Phase),
    /// Two phases, or a phase and one that its list names.
    Phases(Phase, Phase),
    /// A ring.
    Ring(Ring),
    /// A ring on a side of the barriers.
    RingSide(Ring, Side),
    /// A place in what a sequence has for a ring.
    Listing(Sequence, Ring, Listing),
    /// A phase in what a sequence has for a ring.
    SequencePhase(Sequence, Ring, Phase),
    /// A vehicle detector.
    Detector(Detector),
    /// A pedestrian detector.
    PedestrianDetector(PedestrianDetector),
    /// An overlap.
    Overlap(Overlap),
    /// A phase in an overlap.
    OverlapPhase(Overlap, Phase),
    /// A preempt.
    Preempt(Preempt),
    /// A phase in a preempt.
    PreemptPhase(Preempt, Phase),
    /// Two phases in a preempt.
    PreemptPhases(Preempt, Phase, Phase),
    /// A pattern.
    Pattern(Pattern),
    /// A phase in a pattern.
    PatternPhase(Pattern, Phase),
    /// Two phases in a pattern.
    PatternPhases(Pattern, Phase, Phase),
    /// A side in a pattern.
    PatternSide(Pattern, Side),
    /// A ring in a pattern.
    PatternRing(Pattern, Ring),
    /// An entry of the schedule.
    Entry(Entry),
    /// An event of a day plan.
    DayEvent(DayPlan, DayEvent),
    /// Two events of a day plan.
    DayEvents(DayPlan, DayEvent, DayEvent),
    /// An action of the schedule.
    Action(Action),
}

/// The kind of a place.
#[derive(Clone, Copy, PartialEq, Eq)]
pub enum Shape {
    /// The whole plan.
    Unit,
    /// A phase.
    Phase,
    /// Two phases, or a phase and one that its list names.
    Phases,
    /// A ring.
    Ring,
    /// A ring on a side of the barriers.
    RingSide,
    /// A place in what a sequence has for a ring.
    Listing,
    /// A phase in what a sequence has for a ring.
    SequencePhase,
    /// A vehicle detector.
    Detector,
    /// A pedestrian detector.
    PedestrianDetector,
    /// An overlap.
    Overlap,
    /// A phase in an overlap.
    OverlapPhase,
    /// A preempt.
    Preempt,
    /// A phase in a preempt.
    PreemptPhase,
    /// Two phases in a preempt.
    PreemptPhases,
    /// A pattern.
    Pattern,
    /// A phase in a pattern.
    PatternPhase,
    /// Two phases in a pattern.
    PatternPhases,
    /// A side in a pattern.
    PatternSide,
    /// A ring in a pattern.
    PatternRing,
    /// An entry of the schedule.
    Entry,
    /// An event of a day plan.
    DayEvent,
    /// Two events of a day plan.
    DayEvents,
    /// An action of the schedule.
    Action,
}

impl Shape {
    /// How many places of the kind there are by their first number.
    pub fn firsts(self) -> u8
        ensures value { result ≡ firsts self }
        ensures range { result ≤ 64 }
    {
        match self {
            Shape::Unit => 1,
            Shape::Ring | Shape::RingSide => 2,
            Shape::Listing | Shape::SequencePhase => 4,
            Shape::Overlap | Shape::OverlapPhase => OVERLAPS,
            Shape::Preempt | Shape::PreemptPhase | Shape::PreemptPhases => PREEMPTS,
            Shape::PedestrianDetector => PEDESTRIAN_DETECTORS,
            Shape::Phase | Shape::Phases => 16,
            Shape::Detector => VEHICLE_DETECTORS,
            Shape::Pattern | Shape::PatternPhase | Shape::PatternPhases => 16,
            Shape::PatternSide | Shape::PatternRing => 16,
            Shape::DayEvent | Shape::DayEvents => 16,
            Shape::Entry | Shape::Action => 32,
        }
    }

    /// How many there are by their second number: 1 where there is none.
    pub fn seconds(self) -> u8
        ensures value { result ≡ seconds self }
        ensures range { result ≤ 16 }
    {
        match self {
            Shape::Unit | Shape::Phase | Shape::Detector | Shape::PedestrianDetector => 1,
            Shape::Ring | Shape::Overlap | Shape::Preempt | Shape::Pattern => 1,
            Shape::Entry | Shape::Action => 1,
            Shape::Listing | Shape::SequencePhase | Shape::PatternRing => 2,
            Shape::RingSide | Shape::PatternSide => 4,
            Shape::Phases | Shape::OverlapPhase => 16,
            Shape::PreemptPhase | Shape::PreemptPhases => 16,
            Shape::PatternPhase | Shape::PatternPhases => 16,
            Shape::DayEvent | Shape::DayEvents => 16,
        }
    }

    /// How many there are by their third number: 1 where there is none.
    pub fn thirds(self) -> u8
        ensures value { result ≡ thirds self }
        ensures range { result ≤ 16 }
    {
        match self {
            Shape::Unit | Shape::Phase | Shape::Detector | Shape::PedestrianDetector => 1,
            Shape::Ring | Shape::Overlap | Shape::Preempt | Shape::Pattern => 1,
            Shape::RingSide | Shape::PatternSide | Shape::PatternRing => 1,
            Shape::Phases | Shape::OverlapPhase => 1,
            Shape::PreemptPhase | Shape::PatternPhase => 1,
            Shape::Entry | Shape::DayEvent | Shape::Action => 1,
            Shape::Listing | Shape::SequencePhase => 16,
            Shape::PreemptPhases | Shape::PatternPhases => 16,
            Shape::DayEvents => 16,
        }
    }
}

/// The place of a kind that has these three numbers. Going through the numbers in ascending order, the third fastest,
/// gives all places of the kind, each once: `firsts`, `seconds` and `thirds` say how many.
pub fn place_of(shape: Shape, first: u8, second: u8, third: u8) -> Place
    requires first_from { 1 ≤ first }
    requires first_to { first ≤ firsts shape }
    requires second_from { 1 ≤ second }
    requires second_to { second ≤ seconds shape }
    requires third_from { 1 ≤ third }
    requires third_to { third ≤ thirds shape }
    ensures { result ≡ place_of shape first second third }
{
    match shape {
        Shape::Unit => Place::Unit,
        Shape::Phase => Place::Phase(Phase::of(first)),
        Shape::Phases => Place::Phases(Phase::of(first), Phase::of(second)),
        Shape::Ring => Place::Ring(Ring::of(first)),
        Shape::RingSide => Place::RingSide(Ring::of(first), Side::of(second)),
        Shape::Listing => {
            Place::Listing(Sequence::of(first), Ring::of(second), Listing::of(third))
        }
        Shape::SequencePhase => {
            Place::SequencePhase(Sequence::of(first), Ring::of(second), Phase::of(third))
        }
        Shape::Detector => Place::Detector(Detector::of(first)),
        Shape::PedestrianDetector => Place::PedestrianDetector(PedestrianDetector::of(first)),
        Shape::Overlap => Place::Overlap(Overlap::of(first)),
        Shape::OverlapPhase => Place::OverlapPhase(Overlap::of(first), Phase::of(second)),
        Shape::Preempt => Place::Preempt(Preempt::of(first)),
        Shape::PreemptPhase => Place::PreemptPhase(Preempt::of(first), Phase::of(second)),
        Shape::PreemptPhases => {
            Place::PreemptPhases(Preempt::of(first), Phase::of(second), Phase::of(third))
        }
        Shape::Pattern => Place::Pattern(Pattern::of(first)),
        Shape::PatternPhase => Place::PatternPhase(Pattern::of(first), Phase::of(second)),
        Shape::PatternPhases => {
            Place::PatternPhases(Pattern::of(first), Phase::of(second), Phase::of(third))
        }
        Shape::PatternSide => Place::PatternSide(Pattern::of(first), Side::of(second)),
        Shape::PatternRing => Place::PatternRing(Pattern::of(first), Ring::of(second)),
        Shape::Entry => Place::Entry(Entry::of(first)),
        Shape::DayEvent => Place::DayEvent(DayPlan::of(first), DayEvent::of(second)),
        Shape::DayEvents => {
            Place::DayEvents(
                DayPlan::of(first),
                DayEvent::of(second),
                DayEvent::of(third),
            )
        }
        Shape::Action => Place::Action(Action::of(first)),
    }
}
