//! How greens end in a pattern, on the built-in plan of eight phases, by the ticks in which they do. Pattern 1 has a
//! cycle of 80 s, in which phases 2 and 6 are coordinated. Cars come to phase 4 in each tick, so that no gap ends it, and
//! phases 2 and 6 are always called. Phase 4 has a split of 25 s, which is a green of 21 s.

use std::alloc::Global;
use tsb_bench::{Bench, Checked, Input, Plan, Row};
use tsb_objects::{Aspect, DetectorSet, NumberSet, Object, ObjectId, Phase};

/// The built-in plan of eight phases with these values at these indices, if it breaks no rule.
fn quad_with(values: &[(Object, u32, u32)]) -> Option<Checked> {
    let mut plan = Plan::quad();
    for (object, index, value) in values {
        let id = ObjectId {
            object: *object,
            index: *index,
        };
        plan.put(id, *value).ok()?;
    }
    Checked::new(plan).ok()
}

/// A tick with a car at phase 4.
fn driven() -> Input {
    Input::Tick(Row {
        vehicles: DetectorSet::from_list(0x0008),
        ..Row::all_off()
    })
}

/// The first tick that turns the phase Yellow, of 900 from power-up in pattern 1.
fn yellow_of(alloc: Global, phase: Phase, values: &[(Object, u32, u32)]) -> Option<u32> {
    let mut bench = Bench::power_up(alloc, quad_with(values)?).ok()?;
    bench.apply(Input::Pattern(1)).ok()?;
    for _ in 0..900u32 {
        bench.apply(driven()).ok()?;
        if bench.display().vehicle(phase) == Aspect::Yellow {
            return Some(bench.now());
        }
    }
    None
}

/// That of phase 2, which is coordinated.
fn ends_2(alloc: Global, values: &[(Object, u32, u32)]) -> Option<u32> {
    yellow_of(alloc, Phase::of(2), values)
}

/// That of phase 4, which is not.
fn ends_4(alloc: Global, values: &[(Object, u32, u32)]) -> Option<u32> {
    yellow_of(alloc, Phase::of(4), values)
}

/// The local counter is 750 at tick 0.
const LATE: (Object, u32, u32) = (Object::PatternOffsetTime, 1, 5);

/// The options, and a second maximum of 18 s of phase 4.
const LATE_FORCE_OFF: (Object, u32, u32) = (Object::CoordForceMode, 1, 1);

const FLOATING: (Object, u32, u32) = (Object::CoordForceMode, 1, 2);

const BY_MAXIMUM_1: (Object, u32, u32) = (Object::CoordMaximumMode, 1, 1);

const BY_MAXIMUM_2: (Object, u32, u32) = (Object::CoordMaximumMode, 1, 2);

const SECOND: (Object, u32, u32) = (Object::PhaseMaximum2, 4, 18);

/// Phases 2 and 6 are forced off in tick 10, at local 760, and end after their 5 s of minimum green in tick 51. They
/// clear for 4 s, and phase 4 is Green from tick 91 on. Its force-off instant, local 360, is in tick 410; its green has
/// lasted 21 s in tick 301; and phase 2 has waited for 20 s in tick 291, for 18 s in tick 271.
fn phase_4_ends(alloc: Global) -> bool {
    let by_cycle = ends_4(alloc, &[LATE]) == Some(410)
        && ends_4(alloc, &[LATE, LATE_FORCE_OFF]) == Some(410);
    let by_green = ends_4(alloc, &[LATE, FLOATING]) == Some(301);
    let by_maximum = ends_4(alloc, &[LATE, BY_MAXIMUM_1, SECOND]) == Some(291)
        && ends_4(alloc, &[LATE, BY_MAXIMUM_2, SECOND]) == Some(271);
    let by_first = ends_4(alloc, &[LATE, FLOATING, BY_MAXIMUM_1]) == Some(291);
    by_cycle && by_green && by_maximum && by_first
}

/// A green that is not coordinated ends by its force-off instant, by its length, or by the maximum that acts.
#[test]
fn greens_end_by_the_options(rt: HostRuntime) {
    assert!(rt; phase_4_ends(rt.alloc()));
}

/// Phase 4 waits from tick 1 on, and phase 2 has its force-off instant in tick 760, at local 760.
fn phase_2_waits(alloc: Global) -> bool {
    ends_2(alloc, &[]) == Some(760)
        && ends_2(alloc, &[FLOATING, BY_MAXIMUM_1]) == Some(760)
        && ends_2(alloc, &[FLOATING, BY_MAXIMUM_2]) == Some(760)
}

/// Neither its length nor a maximum ends the green of a coordinated phase.
#[test]
fn coordinated_greens_wait_for_their_instant(rt: HostRuntime) {
    assert!(rt; phase_2_waits(rt.alloc()));
}
