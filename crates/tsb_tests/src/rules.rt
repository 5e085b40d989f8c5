//! Rules of plans, and checked plans.

use tsb_objects::*;
use tsb_rules::consistent;

/// An object, an index and a value.
type Value = (Object, u32, u32);

/// The plan with these values put into it, or `None` where it refuses one.
fn changed(plan: Plan, values: &[Value]) -> Option<Plan> {
    let mut plan = plan;
    for (object, index, value) in values {
        let id = ObjectId {
            object: *object,
            index: *index,
        };
        plan.put(id, *value).ok()?;
    }
    Some(plan)
}

fn id(object: Object, index: u32) -> ObjectId {
    ObjectId { object, index }
}

/// What `Checked::new` answers for the plan.
fn accepted(plan: Plan) -> Result<(), Rule> {
    Checked::new(plan)?;
    Ok(())
}

/// Whether both answer this for the plan with these values put into it.
fn is_judged(plan: Plan, values: &[Value], wanted: Result<(), Rule>) -> bool {
    match changed(plan, values) {
        Some(plan) => check(&plan) == wanted && accepted(plan) == wanted,
        None => false,
    }
}

/// The same for the built-in plan of two phases.
fn two_is_judged(values: &[Value], wanted: Result<(), Rule>) -> bool {
    is_judged(Plan::two(), values, wanted)
}

/// The same for the built-in plan of eight phases.
fn quad_is_judged(values: &[Value], wanted: Result<(), Rule>) -> bool {
    is_judged(Plan::quad(), values, wanted)
}

/// Changes to the built-in plan of two phases, each with the rule that it breaks.
const BREAKING: [(Rule, &[Value]); 17] = [
    (Rule::K8, &[(Object::PhaseYellowChange, 2, 29)]),
    (
        Rule::K1,
        &[(Object::PhaseEnabled, 2, 0), (Object::PhaseEnabled, 4, 0)],
    ),
    (Rule::K2, &[(Object::PhaseRing, 2, 0)]),
    (Rule::K2, &[(Object::PhaseSide, 4, 0)]),
    // Sequence 1 leaves a phase out, has it twice, before one of a lower side, or after a zero.
    (Rule::K6, &[(Object::SequenceData, 2, 0)]),
    (Rule::K6, &[(Object::SequenceData, 3, 4)]),
    (
        Rule::K6,
        &[(Object::SequenceData, 1, 4), (Object::SequenceData, 2, 2)],
    ),
    (
        Rule::K6,
        &[(Object::SequenceData, 2, 0), (Object::SequenceData, 3, 4)],
    ),
    // It has a phase that is not enabled, or one of the other ring.
    (
        Rule::K6,
        &[
            (Object::PhaseRing, 5, 1),
            (Object::PhaseSide, 5, 2),
            (Object::SequenceData, 3, 5),
        ],
    ),
    (Rule::K6, &[(Object::SequenceData, 17, 4)]),
    (Rule::K10, &[(Object::PhaseMaximum1, 2, 4)]),
    (Rule::K10, &[(Object::PhaseMaximum2, 4, 4)]),
    // Where two rules are broken, the first is reported.
    (
        Rule::K1,
        &[
            (Object::PhaseEnabled, 2, 0),
            (Object::PhaseEnabled, 4, 0),
            (Object::PhaseRing, 2, 0),
        ],
    ),
    (
        Rule::K2,
        &[(Object::PhaseRing, 2, 0), (Object::SequenceData, 2, 0)],
    ),
    (
        Rule::K6,
        &[
            (Object::PhaseYellowChange, 2, 0),
            (Object::SequenceData, 2, 0),
        ],
    ),
    (
        Rule::K8,
        &[
            (Object::PhaseYellowChange, 4, 0),
            (Object::PhaseMaximum1, 2, 0),
        ],
    ),
    (
        Rule::K10,
        &[(Object::PhasePassage, 2, 1), (Object::PhaseMaximum1, 2, 4)],
    ),
];

/// Whether each of the changes to the built-in plan of two phases breaks its rule.
fn break_two(cases: &[(Rule, &[Value])]) -> bool {
    for (rule, changes) in cases {
        if !two_is_judged(changes, Err(*rule)) {
            return false;
        }
    }
    true
}

#[test]
fn rules_are_judged_in_order(rt: HostRuntime) {
    assert!(rt; break_two(&BREAKING));
}

#[test]
fn changes_of_two_meet_the_rules(rt: HostRuntime) {
    let cases: [&[Value]; 8] = [
        &[
            (Object::PhaseRing, 4, 2),
            (Object::SequenceData, 2, 0),
            (Object::SequenceData, 17, 4),
        ],
        &[(Object::PhaseSide, 4, 1)],
        &[(Object::PhaseMaxRecall, 4, 0)],
        &[(Object::PhasePassage, 2, 1)],
        &[(Object::PhasePassage, 16, 1)],
        &[(Object::UnitRedRevert, 1, 1)],
        &[(Object::SequenceData, 33, 2), (Object::SequenceData, 34, 4)],
        &[(Object::OverlapType, 4, 1)],
    ];
    for changes in cases {
        assert!(rt; two_is_judged(changes, Ok(())));
    }
}

/// Whether the built-in plan of two phases is accepted, with its sets.
fn two_is_accepted() -> bool {
    match Checked::new(Plan::two()) {
        Ok(two) => {
            *two.plan() == Plan::two()
                && two.enabled().list() == 0x000A
                && two.on_maximum_recall(None).list() == 0x000A
        }
        Err(_) => false,
    }
}

/// Puts a phase of ring 1 into the plan, at a place in sequence 1 and on the side of the same number.
fn put_phase(plan: &mut Plan, phase: u32, side: u32) -> Result<(), Refusal> {
    for (object, value) in [
        (Object::PhaseEnabled, 1),
        (Object::PhaseRing, 1),
        (Object::PhaseSide, side),
        (Object::PhaseMinimumGreen, 5),
        (Object::PhaseMaximum1, 10),
        (Object::PhaseMaximum2, 10),
        (Object::PhaseYellowChange, 30),
        (Object::PhaseRedClear, 10),
        (Object::PhaseMaxRecall, 1),
    ] {
        plan.put(id(object, phase), value)?;
    }
    plan.put(id(Object::SequenceData, side), phase)
}

/// Four phases of ring 1, one on each side.
fn four_sides() -> Result<Plan, Refusal> {
    let mut four = Plan::empty();
    for (phase, side) in [(2, 1), (4, 2), (10, 3), (12, 4)] {
        put_phase(&mut four, phase, side)?;
    }
    Ok(four)
}

#[test]
fn plans_are_accepted(rt: HostRuntime) {
    // The least that the rules allow, and a phase of another number and side that is not in use.
    let least = [
        (Object::PhaseMaximum1, 2, 5),
        (Object::PhaseMaximum2, 2, 5),
        (Object::PhaseRing, 9, 2),
        (Object::PhaseSide, 9, 1),
        (Object::PhaseMaxRecall, 9, 1),
    ];
    assert!(rt; two_is_accepted() && two_is_judged(&[], Ok(())) && two_is_judged(&least, Ok(())));
    assert!(rt; four_sides().map(accepted) == Ok(Ok(())));
}

#[test]
fn splits_end_in_the_order_of_the_sequence(rt: HostRuntime) {
    let quad = Plan::quad();
    let (sequence, split) = (Sequence::of(1), Split::of(1));
    let wanted = [
        (1, 150),
        (2, 400),
        (3, 550),
        (4, 800),
        (5, 150),
        (6, 400),
        (7, 550),
        (8, 800),
    ];
    for (number, end) in wanted {
        let found = Phase::new(number).map(|phase| split_end(&quad, sequence, split, phase));
        assert!(rt; found == Some(end));
    }
}

#[test]
fn worked_plans_break_their_rules(rt: HostRuntime) {
    let cases: [(Result<(), Rule>, &[Value]); 4] = [
        (Err(Rule::K5), &[(Object::PhaseConcurrency, 1, 32)]),
        (
            Ok(()),
            &[
                (Object::PhaseConcurrency, 1, 32),
                (Object::PhaseConcurrency, 5, 2),
            ],
        ),
        (Err(Rule::K19), &[(Object::SplitTime, 3, 16)]),
        (Err(Rule::K8), &[(Object::PhaseYellowChange, 2, 29)]),
    ];
    for (rule, changes) in cases {
        assert!(rt; quad_is_judged(changes, rule));
    }
    consistent::concurrency_is_sound();
    consistent::sequences_list_rings();
    consistent::preempts_are_sound();
    consistent::coordinated_phases_agree();
}

/// Ring 2 has its coordinated phase before the other one of the side, as its sequence does.
const LED: [Value; 2] = [(Object::SequenceData, 17, 6), (Object::SequenceData, 18, 5)];

/// Whether the built-in plan of eight phases is judged so with `LED` and these values put into it.
fn led_is_judged(values: &[Value], wanted: Result<(), Rule>) -> bool {
    match changed(Plan::quad(), &LED) {
        Some(plan) => is_judged(plan, values, wanted),
        None => false,
    }
}

#[test]
fn coordinated_splits_end_together_or_lead_and_lag(rt: HostRuntime) {
    let both = [
        (Object::PatternLeadLag, 1, 1),
        (Object::PatternLeadLag, 2, 1),
    ];
    assert!(rt; led_is_judged(&[], Err(Rule::K20)));
    // Both patterns are used, and each has to say so.
    assert!(rt; led_is_judged(&both[..1], Err(Rule::K20)));
    assert!(rt; led_is_judged(&both[1..], Err(Rule::K20)));
    assert!(rt; led_is_judged(&both, Ok(())) && quad_is_judged(&both, Ok(())));
    // One coordinated phase in each ring is asked for even so.
    let alone = [both[0], both[1], (Object::SplitCoordPhase, 6, 0)];
    assert!(rt; led_is_judged(&alone, Err(Rule::K20)));
}

#[test]
fn permissive_times_end_within_the_cycle(rt: HostRuntime) {
    let cases: [(Result<(), Rule>, &[Value]); 5] = [
        (Err(Rule::K23), &[(Object::PatternPermissiveTime, 2, 80)]),
        (Ok(()), &[(Object::PatternPermissiveTime, 2, 79)]),
        (
            Err(Rule::K23),
            &[
                (Object::PatternPermissiveTime, 1, 255),
                (Object::PatternPermissiveTime, 2, 79),
            ],
        ),
        // A pattern that is not used may have any.
        (Ok(()), &[(Object::PatternPermissiveTime, 3, 255)]),
        (
            Err(Rule::K22),
            &[
                (Object::PatternPermissiveTime, 2, 80),
                (Object::PhaseDynamicMaxLimit, 1, 4),
            ],
        ),
    ];
    for (rule, changes) in cases {
        assert!(rt; quad_is_judged(changes, rule));
    }
    consistent::permissive_times_end();
}

/// Overlap 2 as the arrow of phase 1, which phase 2 of the same ring opposes.
const ARROW: [Value; 3] = [
    (Object::OverlapType, 2, 2),
    (Object::OverlapIncludedPhases, 2, 2),
    (Object::OverlapModifierPhases, 2, 1),
];

/// Changes to it, each with what is judged: it includes no phase, has no modifier phase, two, one that it includes,
/// one that may be green with an included phase, or one that is not enabled. An included phase may be of the other
/// ring.
const ARROWS: [(Result<(), Rule>, &[Value]); 8] = [
    (Ok(()), &[]),
    (Err(Rule::K28), &[(Object::OverlapIncludedPhases, 2, 0)]),
    (Err(Rule::K28), &[(Object::OverlapModifierPhases, 2, 0)]),
    (Err(Rule::K28), &[(Object::OverlapModifierPhases, 2, 5)]),
    (Err(Rule::K28), &[(Object::OverlapIncludedPhases, 2, 3)]),
    (Err(Rule::K28), &[(Object::OverlapIncludedPhases, 2, 0x22)]),
    (
        Err(Rule::K21),
        &[(Object::OverlapModifierPhases, 2, 0x0100)],
    ),
    (Ok(()), &[(Object::OverlapIncludedPhases, 2, 0x88)]),
];

#[test]
fn arrows_have_a_turn_of_their_own(rt: HostRuntime) {
    let Some(plan) = changed(Plan::quad(), &ARROW) else {
        panic!(rt; "the plan takes no arrow");
    };
    for (wanted, changes) in ARROWS {
        assert!(rt; is_judged(plan, changes, wanted));
    }
}

/// Changes to overlap 1, which goes with phases 1 and 2, each with what is judged.
const TRAILS: [(Result<(), Rule>, &[Value]); 7] = [
    (Err(Rule::K29), &[(Object::OverlapTrailGreen, 1, 1)]),
    (Err(Rule::K29), &[(Object::OverlapTrailYellow, 1, 29)]),
    (Ok(()), &[(Object::OverlapTrailYellow, 1, 30)]),
    (Ok(()), &[(Object::OverlapTrailRed, 1, 255)]),
    (
        Ok(()),
        &[
            (Object::OverlapTrailGreen, 1, 255),
            (Object::OverlapTrailYellow, 1, 30),
        ],
    ),
    (
        Err(Rule::K29),
        &[
            (Object::OverlapTrailGreen, 1, 1),
            (Object::OverlapTrailYellow, 1, 30),
            (Object::OverlapType, 1, 1),
        ],
    ),
    // Where both are broken, the first is reported.
    (
        Err(Rule::K28),
        &[
            (Object::OverlapTrailGreen, 1, 1),
            (Object::OverlapType, 1, 2),
        ],
    ),
];

#[test]
fn overlaps_that_trail_are_normal_and_have_a_yellow(rt: HostRuntime) {
    for (wanted, changes) in TRAILS {
        assert!(rt; quad_is_judged(changes, wanted));
    }
    consistent::arrows_are_sound();
    consistent::trails_are_sound();
}

#[test]
fn quad_meets_the_rules(rt: HostRuntime) {
    assert!(rt; quad_is_judged(&[], Ok(())));
}

/// Whether the checked plan has these phases in its rings, on its sides and at its inputs.
fn has_phases_of_quad(quad: &Checked) -> bool {
    quad.ring(Ring::of(1)).list() == 0x000F
        && quad.ring(Ring::of(2)).list() == 0x00F0
        && quad.side(Side::of(1)).list() == 0x0033
        && quad.side(Side::of(2)).list() == 0x00CC
        && quad.side(Side::of(4)).list() == 0
        && quad.concurrent_to(Phase::of(1)).list() == 0x0030
        && quad.phases_called_by(DetectorSet::from_list(0x0004)).list() == 0x0004
        && quad.walks_called_by(NumberSet::from_list(0x0002)).list() == 0x0002
}

/// Whether the checked plan has these phases in use, with what they are set to do.
fn has_settings_of_quad(quad: &Checked) -> bool {
    quad.enabled().list() == 0x00FF
        && quad.non_locking().list() == 0
        && quad.soft_recall().list() == 0
        && quad.dual_entry().list() == 0x00AA
        && quad.with_walk().list() == 0x0002
}

#[test]
fn tables_of_quad_are_its_sets(rt: HostRuntime) {
    let Ok(quad) = Checked::new(Plan::quad()) else {
        panic!(rt; "quad was refused");
    };
    assert!(rt; has_phases_of_quad(&quad) && has_settings_of_quad(&quad));
}

/// Whether the checked plan has these phases in free operation and in the pattern.
fn has_sets_of_quad(quad: &Checked, n: Pattern) -> bool {
    quad.coordinated(None).list() == 0
        && quad.coordinated(Some(n)).list() == 0x0022
        && quad.omitted(Some(n)).list() == 0
        && quad.on_minimum_recall(Some(n)).list() == 0x0022
        && quad.on_minimum_recall(None).list() == 0x0022
        && quad.on_maximum_recall(Some(n)).list() == 0
        && quad.on_pedestrian_recall(Some(n)).list() == 0
        && quad.sequence_in_effect(Some(n)) == Sequence::of(1)
}

/// Whether the pattern forces the phases of the checked plan off at these local times.
fn has_forces_of_quad(quad: &Checked, n: Pattern) -> bool {
    quad.plan().is_used(n)
        && quad.force_off(n, Phase::of(1)) == Some(510)
        && quad.force_off(n, Phase::of(9)) == None
        && quad.forced_at(n, 760).list() == 0x0022
        && quad.forced_at(n, 759).list() == 0
}

/// Whether its two coordinated phases have instants of their own, both counted from the end of ring 1's split.
fn leads_in_ring_2(plan: &Checked, n: Pattern) -> bool {
    plan.force_off(n, Phase::of(2)) == Some(760)
        && plan.force_off(n, Phase::of(6)) == Some(610)
        && plan.force_off(n, Phase::of(5)) == Some(760)
        && plan.forced_at(n, 760).list() == 0x0012
        && plan.forced_at(n, 610).list() == 0x0020
}

#[test]
fn instants_are_counted_from_ring_1(rt: HostRuntime) {
    let values = [
        LED[0],
        LED[1],
        (Object::PatternLeadLag, 1, 1),
        (Object::PatternLeadLag, 2, 1),
    ];
    let led = changed(Plan::quad(), &values).map(Checked::new);
    let Some(Ok(plan)) = led else {
        panic!(rt; "the plan was refused");
    };
    assert!(rt; leads_in_ring_2(&plan, Pattern::of(2)));
}

#[test]
fn tables_of_quad_are_of_its_patterns(rt: HostRuntime) {
    let Ok(quad) = Checked::new(Plan::quad()) else {
        panic!(rt; "quad was refused");
    };
    let n = Pattern::of(2);
    assert!(rt; has_sets_of_quad(&quad, n) && has_forces_of_quad(&quad, n));
}
