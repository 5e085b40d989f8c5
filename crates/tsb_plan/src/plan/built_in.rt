//! The plans that are built in.
#![tactic(auto, unfolding(crate::specs::PlanOf::plan_of))]

ghost use Rattle.std.specs.List.{list_all};
ghost use Rattle.std.specs.Prelude.{◌≡◌, true};
ghost use Rattle.tsb_plan.specs.PlanOf.{plan_of};

use crate::object::Object;
use crate::plan::Plan;

/// The built-in plan of two phases: an object, an index and a value each.
const TWO: [(Object, u32, u16); 20] = [
    (Object::PhaseEnabled, 2, 1),
    (Object::PhaseEnabled, 4, 1),
    (Object::PhaseRing, 2, 1),
    (Object::PhaseRing, 4, 1),
    (Object::PhaseSide, 2, 1),
    (Object::PhaseSide, 4, 2),
    (Object::PhaseMinimumGreen, 2, 5),
    (Object::PhaseMinimumGreen, 4, 5),
    (Object::PhaseMaximum1, 2, 10),
    (Object::PhaseMaximum1, 4, 8),
    (Object::PhaseMaximum2, 2, 10),
    (Object::PhaseMaximum2, 4, 8),
    (Object::PhaseYellowChange, 2, 30),
    (Object::PhaseYellowChange, 4, 30),
    (Object::PhaseRedClear, 2, 10),
    (Object::PhaseRedClear, 4, 10),
    (Object::PhaseMaxRecall, 2, 1),
    (Object::PhaseMaxRecall, 4, 1),
    (Object::SequenceData, 1, 2),
    (Object::SequenceData, 2, 4),
];

/// What the built-in plan of eight phases gives for phases, detectors, splits and places 1 to 8.
const QUAD_ROWS: [(Object, [u16; 8]); 20] = [
    (Object::PhaseEnabled, [1, 1, 1, 1, 1, 1, 1, 1]),
    (Object::PhaseRing, [1, 1, 1, 1, 2, 2, 2, 2]),
    (Object::PhaseSide, [1, 1, 2, 2, 1, 1, 2, 2]),
    (Object::PhaseConcurrency, [48, 48, 192, 192, 3, 3, 12, 12]),
    (Object::PhaseMinimumGreen, [5, 5, 5, 5, 5, 5, 5, 5]),
    (Object::PhaseMaximum1, [20, 20, 20, 20, 20, 20, 20, 20]),
    (Object::PhaseMaximum2, [20, 20, 20, 20, 20, 20, 20, 20]),
    (Object::PhasePassage, [20, 20, 20, 20, 20, 20, 20, 20]),
    (Object::PhaseMinimumGap, [20, 20, 20, 20, 20, 20, 20, 20]),
    (Object::PhaseYellowChange, [30, 30, 30, 30, 30, 30, 30, 30]),
    (Object::PhaseRedClear, [10, 10, 10, 10, 10, 10, 10, 10]),
    (Object::PhaseWalk, [0, 4, 0, 0, 0, 0, 0, 0]),
    (Object::PhasePedestrianClear, [0, 6, 0, 0, 0, 0, 0, 0]),
    (Object::PhaseMinRecall, [0, 1, 0, 0, 0, 1, 0, 0]),
    (Object::PhaseDualEntry, [0, 1, 0, 1, 0, 1, 0, 1]),
    (Object::VehicleDetectorCallPhase, [1, 2, 3, 4, 5, 6, 7, 8]),
    (
        Object::PedestrianDetectorCallPhase,
        [0, 2, 0, 0, 0, 0, 0, 0],
    ),
    (Object::SplitTime, [15, 25, 15, 25, 15, 25, 15, 25]),
    (Object::SplitCoordPhase, [0, 1, 0, 0, 0, 1, 0, 0]),
    (Object::SequenceData, [1, 2, 3, 4, 0, 0, 0, 0]),
];

/// The places of ring 2, the overlap, the patterns and the preempts of the built-in plan of eight phases: an object, an
/// index and a value each.
const QUAD_VALUES: [(Object, u32, u16); 22] = [
    (Object::SequenceData, 17, 5),
    (Object::SequenceData, 18, 6),
    (Object::SequenceData, 19, 7),
    (Object::SequenceData, 20, 8),
    (Object::OverlapIncludedPhases, 1, 3),
    (Object::UnitRedRevert, 1, 20),
    (Object::PatternCycleTime, 1, 80),
    (Object::PatternSplitNumber, 1, 1),
    (Object::PatternSequenceNumber, 1, 1),
    (Object::PatternCycleTime, 2, 80),
    (Object::PatternOffsetTime, 2, 79),
    (Object::PatternSplitNumber, 2, 1),
    (Object::PatternSequenceNumber, 2, 1),
    (Object::PreemptDwellPhase, 1, 132),
    (Object::PreemptMinimumGreen, 1, 2),
    (Object::PreemptMinimumWalk, 1, 2),
    (Object::PreemptEnterPedClear, 1, 3),
    (Object::PreemptMinimumDuration, 1, 10),
    (Object::PreemptDwellPhase, 2, 72),
    (Object::PreemptMinimumGreen, 2, 2),
    (Object::PreemptMinimumWalk, 2, 2),
    (Object::PreemptEnterPedClear, 2, 3),
];

impl Plan {
    ghost use Rattle.tsb_plan.specs.Plan.{with_values};
    ghost use Rattle.tsb_plan.specs.Quad.{row, with_rows, row_fits, quad};
    ghost use Rattle.tsb_plan.specs.Two.{two, fits};

    /// The built-in plan of two phases: 2 on side 1 and 4 on side 2 of ring 1, both on maximum recall,
    /// with 5 s of minimum green, 10 s and 8 s of maximum, 3 s of yellow and 1 s of red clearance.
    pub fn two() -> Plan
        ensures { plan_of result ≡ two }
    {
        Plan::empty().with_values(&TWO)
    }

    /// The built-in plan of eight phases: 1 to 4 in ring 1 and 5 to 8 in ring 2, 1, 2, 5 and 6 on side 1,
    /// each with a vehicle detector of its number, 2 and 6 on minimum recall, a walk on 2, an overlap of 1
    /// and 2, patterns 1 and 2 with a cycle of 80 s, preempts 1 for 3 and 8, and 2 for 4 and 7.
    pub fn quad() -> Plan
        ensures { plan_of result ≡ quad }
    {
        Plan::empty()
            .with_rows(&QUAD_ROWS)
            .with_values(&QUAD_VALUES)
    }

    /// The plan with each of these values in turn.
    fn with_values(self, values: &[(Object, u32, u16)]) -> Plan
        requires { list_all fits values.now ≡ true }
        ensures { plan_of result ≡ with_values (plan_of self) values.now }
    {
        let mut plan = self;
        for (object, index, value) in values {
            plan.set(*object, *index, *value);
        }
        plan
    }

    /// The plan with values of objects, each from index 1 on.
    fn with_rows(self, rows: &[(Object, [u16; 8])]) -> Plan
        requires { list_all row_fits rows.now ≡ true }
        ensures { plan_of result ≡ with_rows (plan_of self) rows.now }
    {
        let mut plan = self;
        for (object, values) in rows {
            plan = plan.with_row(*object, values);
        }
        plan
    }

    /// The plan with these values of an object, from index 1 on.
    fn with_row(self, object: Object, values: &[u16; 8]) -> Plan
        requires { list_all fits (row object 1 values.now) ≡ true }
        ensures { plan_of result ≡ with_values (plan_of self) (row object 1 values.now) }
    {
        let mut plan = self;
        for place in 0..values.len() {
            plan.set(object, place as u32 + 1, values[place]);
        }
        plan
    }
}
