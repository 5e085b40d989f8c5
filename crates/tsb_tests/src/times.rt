//! The gap and the initial time of a phase, by the calls that give them. Times are in tenths of a second.

use tsb_objects::{Checked, Object, ObjectId, Phase, Plan};
use tsb_phase::Phases;

/// The built-in plan of two phases with these values of phase 2, if it breaks no rule.
fn two_with(values: &[(Object, u32)]) -> Option<Checked> {
    let mut plan = Plan::two();
    for (object, value) in values {
        let id = ObjectId {
            object: *object,
            index: 2,
        };
        plan.put(id, *value).ok()?;
    }
    Checked::new(plan).ok()
}

/// Whether the gap is as wanted, each where it was reduced for so long.
fn gaps(plan: &Checked, wanted: &[(Option<u32>, u32)]) -> bool {
    for (reduced, gap) in wanted {
        if Phases::gap(plan, Phase::of(2), *reduced) != *gap {
            return false;
        }
    }
    true
}

/// Whether the initial time is as wanted, each where so many vehicles were counted.
fn initials(plan: &Checked, wanted: &[(u8, u32)]) -> bool {
    for (cars, initial) in wanted {
        if Phases::initial(plan, Phase::of(2), *cars) != *initial {
            return false;
        }
    }
    true
}

/// A passage time of 3.0 s, a minimum gap of 1.0 s and a time to reduce of 7 s.
const REDUCED: [(Option<u32>, u32); 8] = [
    (None, 30),
    (Some(0), 30),
    (Some(3), 30),
    (Some(4), 29),
    (Some(35), 20),
    (Some(69), 11),
    (Some(70), 10),
    (Some(200), 10),
];

/// The gap falls from the passage time to the minimum gap, in whole tenths.
#[test]
fn gaps_are_reduced(rt: HostRuntime) {
    let slowly = two_with(&[
        (Object::PhasePassage, 30),
        (Object::PhaseMinimumGap, 10),
        (Object::PhaseTimeToReduce, 7),
    ]);
    assert!(rt; matches!(&slowly, Some(plan) if gaps(plan, &REDUCED)));
    let at_once = two_with(&[
        (Object::PhasePassage, 30),
        (Object::PhaseMinimumGap, 10),
        (Object::PhaseTimeToReduce, 0),
    ]);
    assert!(rt; matches!(&at_once, Some(plan) if gaps(plan, &[(None, 30), (Some(0), 10)])));
}

/// A minimum green of 5 s, 1.5 s more for each vehicle, 20 s at most.
const ADDED: [(u8, u32); 5] = [(0, 50), (3, 50), (4, 60), (13, 195), (14, 200)];

/// The initial time grows with the vehicles that were counted, up to its greatest.
#[test]
fn initials_are_added_to(rt: HostRuntime) {
    let variable = two_with(&[
        (Object::PhaseMinimumGreen, 5),
        (Object::PhaseAddedInitial, 15),
        (Object::PhaseMaximumInitial, 20),
        (Object::PhaseVariableInitial, 1),
    ]);
    assert!(rt; matches!(&variable, Some(plan) if initials(plan, &ADDED)));
}
