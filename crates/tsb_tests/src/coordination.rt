//! When patterns force phases off, worked by hand. Times are in tenths of a second, on the local counter of pattern 1
//! of the built-in plan of eight phases: a cycle of 800 with instants 510, 760, 110 and 360 of phases 1 to 4 and of 5
//! to 8, where 2 and 6 are coordinated.

use tsb_cells::Reversible;
use tsb_coord::{Coord, laws};
use tsb_objects::{Checked, Object, ObjectId, Pattern, Phase, Plan};

/// An object, an index and a value.
type Value = (Object, u32, u32);

/// The built-in plan of eight phases with these values, if it breaks no rule.
fn quad_with(values: &[Value]) -> Option<Checked> {
    let mut plan = Plan::quad();
    for (object, index, value) in values {
        let id = ObjectId {
            object: *object,
            index: *index,
        };
        plan.put(id, *value).ok()?;
    }
    Checked::new(plan).ok()
}

/// A permissive time of 10 seconds, from 760 up to 860, which is 60 of the next cycle.
const PERMISSIVE: [Value; 1] = [(Object::PatternPermissiveTime, 1, 10)];

/// The rings changed over, so that 5 to 8 are of ring 1, and 2 before 1 in ring 2: the split of 2 ends 15 seconds
/// before that of 6, which ends at local 0.
const LEADING: [Value; 18] = [
    (Object::PhaseRing, 1, 2),
    (Object::PhaseRing, 2, 2),
    (Object::PhaseRing, 3, 2),
    (Object::PhaseRing, 4, 2),
    (Object::PhaseRing, 5, 1),
    (Object::PhaseRing, 6, 1),
    (Object::PhaseRing, 7, 1),
    (Object::PhaseRing, 8, 1),
    (Object::SequenceData, 1, 5),
    (Object::SequenceData, 2, 6),
    (Object::SequenceData, 3, 7),
    (Object::SequenceData, 4, 8),
    (Object::SequenceData, 17, 2),
    (Object::SequenceData, 18, 1),
    (Object::SequenceData, 19, 3),
    (Object::SequenceData, 20, 4),
    (Object::PatternLeadLag, 1, 1),
    (Object::PatternLeadLag, 2, 1),
];

/// Whether pattern 1 forces these off, each list at its local time.
fn forces(plan: &Checked, wanted: &[(u32, u16)]) -> bool {
    let n = Pattern::of(1);
    for (local, phases) in wanted {
        if !plan.plan().is_used(n) || plan.forced_at(n, *local).list() != *phases {
            return false;
        }
    }
    true
}

/// Whether phases 1 to 8 have these instants in pattern 1.
fn has_instants(plan: &Checked, wanted: &[u32; 8]) -> bool {
    let n = Pattern::of(1);
    for number in 1..9u8 {
        let instant = wanted[usize::from(number) - 1];
        if !plan.plan().is_used(n) || plan.force_off(n, Phase::of(number)) != Some(instant) {
            return false;
        }
    }
    true
}

/// Phase 2 walks for 4 seconds and clears in 6, and may walk again: the last time at 660. So may 4, which is not
/// coordinated.
const RECYCLING: [Value; 2] = [
    (Object::PhasePedestrianRecycle, 2, 1),
    (Object::PhasePedestrianRecycle, 4, 1),
];

/// Whether pattern 1 lets these walk again, each list at its local time.
fn walks(plan: &Checked, wanted: &[(u32, u16)]) -> bool {
    let n = Pattern::of(1);
    for (local, phases) in wanted {
        if !plan.plan().is_used(n) {
            return false;
        }
        let forced = plan.forced_at(n, *local);
        if plan.recycled_at(n, *local, forced).list() != *phases {
            return false;
        }
    }
    true
}

/// Whether the time for a walk of the phase ends here in pattern 1.
fn has_recycle_end(plan: &Checked, phase: u8, wanted: Option<u32>) -> bool {
    let n = Pattern::of(1);
    if phase < 1 || phase > 16 || !plan.plan().is_used(n) {
        return false;
    }
    plan.recycle_end(n, Phase::of(phase)) == wanted
}

/// Whether the phase has this end of a permissive time in pattern 1.
fn has_end(plan: &Checked, phase: u8, wanted: Option<u32>) -> bool {
    let n = Pattern::of(1);
    if phase < 1 || phase > 16 || !plan.plan().is_used(n) {
        return false;
    }
    plan.permissive_end(n, Phase::of(phase)) == wanted
}

/// Whether what pattern 1 asks is due at these ticks, each after its tick.
fn is_due(plan: &Checked, wanted: &[(u32, u32)]) -> bool {
    let mut coord = Coord::new();
    coord.open();
    if coord.set_pattern(1, 0, plan).is_err() {
        return false;
    }
    let _changes = coord.close();
    for (now, due) in wanted {
        if *now > 1000 || coord.due(*now, plan) != *due {
            return false;
        }
    }
    true
}

/// Coordinated phases are forced off to the end of the permissive time, also past local 0; no others are.
#[test]
fn permissive_times_go_past_zero(rt: HostRuntime) {
    let wanted = [
        (0, 0x0022),
        (60, 0x0022),
        (61, 0),
        (510, 0x0011),
        (511, 0),
        (759, 0),
        (760, 0x0022),
        (799, 0x0022),
    ];
    let plan = quad_with(&PERMISSIVE);
    assert!(rt; matches!(&plan, Some(plan) if forces(plan, &wanted)));
    assert!(rt;
        matches!(&plan, Some(plan) if has_end(plan, 2, Some(61)) && has_end(plan, 1, None))
    );
    assert!(rt; matches!(&quad_with(&[]), Some(plan) if has_end(plan, 2, None)));
    laws::late_force_off_is_an_option();
}

/// Another tick is due where a permissive time has ended.
#[test]
fn coordination_is_due_behind_permissive_times(rt: HostRuntime) {
    let wanted = [
        (0, 61),
        (60, 61),
        (61, 110),
        (110, 111),
        (111, 360),
        (760, 761),
        (761, 861),
        (799, 861),
    ];
    assert!(rt; matches!(&quad_with(&PERMISSIVE), Some(plan) if is_due(plan, &wanted)));
    let without = [(0, 110), (110, 111), (760, 761), (761, 910)];
    assert!(rt; matches!(&quad_with(&[]), Some(plan) if is_due(plan, &without)));
}

/// A coordinated phase walks again where walk and clearance end by its instant, and not where it is forced off.
#[test]
fn walks_fit_up_to_instants(rt: HostRuntime) {
    let wanted = [
        (0, 0x0002),
        (660, 0x0002),
        (661, 0),
        (759, 0),
        (760, 0),
        (761, 0x0002),
        (799, 0x0002),
    ];
    let plan = quad_with(&RECYCLING);
    assert!(rt; matches!(&plan, Some(plan) if walks(plan, &wanted)));
    assert!(rt; matches!(&plan, Some(plan) if has_recycle_end(plan, 2, Some(661))));
    assert!(rt;
        matches!(&plan, Some(plan)
            if has_recycle_end(plan, 4, None) && has_recycle_end(plan, 6, None))
    );
    assert!(rt; matches!(&quad_with(&[]), Some(plan) if walks(plan, &[(0, 0), (761, 0)])));
}

/// None begins in the permissive time, up to 60 of the next cycle.
#[test]
fn permissive_times_hold_walks_back(rt: HostRuntime) {
    let values = [RECYCLING[0], RECYCLING[1], PERMISSIVE[0]];
    let wanted = [
        (0, 0),
        (60, 0),
        (61, 0x0002),
        (660, 0x0002),
        (661, 0),
        (799, 0),
    ];
    assert!(rt; matches!(&quad_with(&values), Some(plan) if walks(plan, &wanted)));
}

/// Another tick is due where a walk no longer fits.
#[test]
fn coordination_is_due_where_walks_fit_no_more(rt: HostRuntime) {
    let wanted = [
        (361, 510),
        (511, 661),
        (660, 661),
        (661, 760),
        (760, 761),
        (761, 910),
    ];
    assert!(rt; matches!(&quad_with(&RECYCLING), Some(plan) if is_due(plan, &wanted)));
}

/// Local 0 is the end of ring 1's coordinated split, and ring 2's coordinated phase has its own instant.
#[test]
fn coordinated_splits_end_apart(rt: HostRuntime) {
    let instants = [760, 610, 110, 360, 510, 760, 110, 360];
    let plan = quad_with(&LEADING);
    assert!(rt; matches!(&plan, Some(plan) if has_instants(plan, &instants)));
    let wanted = [(110, 0x0044), (610, 0x0002), (760, 0x0021), (761, 0)];
    assert!(rt; matches!(&plan, Some(plan) if forces(plan, &wanted)));
    laws::forced_phases_end_with_their_splits();
}

/// Late force-off of ring 2 ends at 610: that of phase 1, from 760 on, goes past local 0 to there.
#[test]
fn late_force_off_goes_past_zero(rt: HostRuntime) {
    let mut values = [(Object::CoordForceMode, 1, 1); 19];
    for k in 0..18usize {
        values[k] = LEADING[k];
    }
    let wanted = [
        (0, 0x0001),
        (110, 0x0045),
        (609, 0x00DD),
        (610, 0x00D2),
        (759, 0x00D0),
        (760, 0x0021),
        (799, 0x0001),
    ];
    assert!(rt; matches!(&quad_with(&values), Some(plan) if forces(plan, &wanted)));
}

/// The offset at which the local counter of pattern 2 is 0, in the plan that leads and lags with this reference.
fn offset_with(reference: u32) -> Option<u32> {
    let mut values = [(Object::CoordReference, 1, reference); 19];
    for k in 0..18usize {
        values[k] = LEADING[k];
    }
    let plan = quad_with(&values)?;
    Some(plan.offset_in_effect(Pattern::of(2)))
}

/// The offset of pattern 2 is 790. The split of 2 is from 0 to 250, that of 6 from 150 to 400, which is local 0; each has
/// 30 of yellow change and 10 of red clearance.
#[test]
fn offsets_are_counted_to_their_references(rt: HostRuntime) {
    let wanted = [790, 390, 240, 180, 30, 150];
    for reference in 0..6u32 {
        assert!(rt;
            offset_with(reference) == Some(wanted[reference as usize]),
            "reference {reference}"
        );
    }
    laws::offsets_are_counted_to_their_moments();
    laws::offsets_act_by_when_local_0_comes();
}
