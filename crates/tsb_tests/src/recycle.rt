//! Walks within greens, by pedestrian recycle, on the built-in plan of eight phases. Pattern 1 has a cycle of 80 s that
//! begins at tick 0. Phase 2 is Green from tick 1 on and coordinated, with its force-off instant in tick 760. A walk of
//! 4 s and a pedestrian clearance of 6 s take 100 ticks. Phases 2 and 6 alone are called, so the green rests.

use std::alloc::Global;
use tsb_bench::{Bench, Checked, Input, Kind, Plan, Row, Watch};
use tsb_objects::{NumberSet, Object, ObjectId, PedestrianAspect, Phase};

/// An object, an index and a value.
type Value = (Object, u32, u32);

/// Phase 2 may walk again within its green.
const RECYCLE: Value = (Object::PhasePedestrianRecycle, 2, 1);

/// A bench at power-up in pattern 1, with these values of the plan, if it breaks no rule.
fn running(alloc: Global, values: &[Value]) -> Option<Bench> {
    let mut plan = Plan::quad();
    for (object, index, value) in values {
        let id = ObjectId {
            object: *object,
            index: *index,
        };
        plan.put(id, *value).ok()?;
    }
    let mut bench = Bench::power_up(alloc, Checked::new(plan).ok()?).ok()?;
    bench.apply(Input::Pattern(1)).ok()?;
    Some(bench)
}

/// A tick, with the button of phase 2 pressed or not, and preempt 1 on or not.
fn tick(button: bool, preempt: bool) -> Input {
    let pedestrians = if button { 0x02 } else { 0 };
    let preempts = if preempt { 0x01 } else { 0 };
    Input::Tick(Row {
        pedestrians: NumberSet::from_list(pedestrians),
        preempts: NumberSet::from_list(preempts),
        ..Row::all_off()
    })
}

/// Whether the list has the number.
fn has(list: &[u32], number: u32) -> bool {
    for it in list {
        if *it == number {
            return true;
        }
    }
    false
}

/// What the pedestrian head of phase 2 shows.
fn shown(bench: &Bench) -> PedestrianAspect {
    bench.display().pedestrian(Phase::of(2))
}

fn walks(bench: &Bench) -> bool {
    shown(bench) == PedestrianAspect::Walk
}

/// The tick in which the pedestrian part of phase 2 changed last.
fn changed(bench: &Bench) -> Option<u32> {
    bench.when(Watch::Ped(Phase::of(2)))
}

/// Takes a tick, and returns whether a walk of phase 2 begins in it.
fn begins(bench: &mut Bench, input: Input) -> Option<bool> {
    let before = walks(bench);
    bench.apply(input).ok()?;
    Some(walks(bench) && !before)
}

/// When buttons are pressed, when the preempt is on, and in which ticks walks begin.
#[derive(Clone, Copy)]
struct Case<'a> {
    pressed: &'a [u32],
    preempted: &'a [u32],
    begin: &'a [u32],
}

/// Whether walks begin in the ticks of the case and in no other of 900.
fn walks_begin(bench: &mut Bench, case: &Case) -> bool {
    for number in 1..901u32 {
        let input = tick(has(case.pressed, number), has(case.preempted, number));
        let begun = begins(bench, input);
        if begun != Some(has(case.begin, number)) {
            return false;
        }
        if begun == Some(true) && changed(bench) != Some(number) {
            return false;
        }
    }
    true
}

/// The same of a bench with these values.
fn walk_as_told(alloc: Global, values: &[Value], case: &Case) -> bool {
    match running(alloc, values) {
        Some(mut bench) => walks_begin(&mut bench, case),
        None => false,
    }
}

/// Buttons that are pressed in the green, in a walk, in its clearance, and where there is no time for a walk.
const PRESSED: [u32; 6] = [5, 20, 250, 340, 660, 720];

/// The first gives a walk at once, and the second is lost in it. The third is too: its clearance ends in tick 350, and
/// the fourth gives one in tick 351. That of tick 660 ends its clearance in the tick of the instant. The last is
/// remembered, up to the tick after the instant: from there it is 799 ticks to the next.
const BEGIN: [u32; 5] = [5, 250, 351, 660, 761];

#[test]
fn buttons_begin_walks_within_greens(rt: HostRuntime) {
    let case = Case {
        pressed: &PRESSED,
        preempted: &[],
        begin: &BEGIN,
    };
    assert!(rt; walk_as_told(rt.alloc(), &[RECYCLE], &case));
}

/// In tick 661 99 ticks are left.
#[test]
fn no_walk_begins_where_it_would_not_end_by_the_instant(rt: HostRuntime) {
    let case = Case {
        pressed: &[661],
        preempted: &[],
        begin: &[761],
    };
    assert!(rt; walk_as_told(rt.alloc(), &[RECYCLE], &case));
}

/// Without the object no walk begins within a green, nor of another phase.
#[test]
fn without_recycle_a_walk_begins_with_a_green_alone(rt: HostRuntime) {
    let case = Case {
        pressed: &PRESSED,
        preempted: &[],
        begin: &[],
    };
    assert!(rt; walk_as_told(rt.alloc(), &[], &case));
    let other = (Object::PhasePedestrianRecycle, 6, 1);
    assert!(rt; walk_as_told(rt.alloc(), &[other], &case));
}

/// By pedestrian recall a walk begins with the green and a tick after each clearance, as long as there is time.
#[test]
fn recalled_walks_begin_again_and_again(rt: HostRuntime) {
    let case = Case {
        pressed: &[],
        preempted: &[],
        begin: &[1, 102, 203, 304, 405, 506, 607, 761, 862],
    };
    let recall = (Object::PhasePedRecall, 2, 1);
    assert!(rt; walk_as_told(rt.alloc(), &[RECYCLE, recall], &case));
}

/// In its permissive time, up to tick 810, the coordinated phase is forced off.
#[test]
fn no_walk_begins_in_the_permissive_time(rt: HostRuntime) {
    let case = Case {
        pressed: &[700],
        preempted: &[],
        begin: &[811],
    };
    let permissive = (Object::PatternPermissiveTime, 1, 5);
    assert!(rt; walk_as_told(rt.alloc(), &[RECYCLE, permissive], &case));
}

/// Preempt 1 dwells on phases 2 and 6 for 10 s, from tick 50 on: a walk begins in the tick in which it ends.
#[test]
fn no_walk_begins_while_a_preempt_is_in_service(rt: HostRuntime) {
    let case = Case {
        pressed: &[55],
        preempted: &[50],
        begin: &[150],
    };
    let dwell = (Object::PreemptDwellPhase, 1, 0x22);
    assert!(rt; walk_as_told(rt.alloc(), &[RECYCLE, dwell], &case));
}

/// Takes ticks with the button of phase 2 pressed in the first, up to the one of this number.
fn press_and_run_to(bench: &mut Bench, number: u32) -> Option<()> {
    bench.apply(tick(true, false)).ok()?;
    for _ in bench.now()..number {
        bench.apply(tick(false, false)).ok()?;
    }
    Some(())
}

/// Whether the bench is at this tick, with this on the pedestrian head of phase 2, and its pedestrian part changed last
/// in this one.
fn is_at(bench: &Bench, number: u32, aspect: PedestrianAspect, last: u32) -> bool {
    bench.now() == number && shown(bench) == aspect && changed(bench) == Some(last)
}

/// A walk within the green has begun in tick 102.
fn walks_since_102(bench: &Bench) -> bool {
    is_at(bench, 102, PedestrianAspect::Walk, 102)
}

/// The clearance before it ended in tick 101.
fn waits_since_101(bench: &Bench) -> bool {
    is_at(bench, 101, PedestrianAspect::DontWalk, 101)
}

/// The button is pressed in tick 1, for a walk with the green, and in tick 60, in its clearance.
fn runs_to_102(bench: &mut Bench) -> bool {
    press_and_run_to(bench, 59) == Some(()) && press_and_run_to(bench, 102) == Some(())
}

/// Takes a tick with all inputs off.
fn steps(bench: &mut Bench) -> bool {
    bench.apply(tick(false, false)) == Ok(())
}

/// Whether the tick in which the walk began is taken back and taken again, and so from within the clearance.
fn goes_back_and_forth(bench: &mut Bench) -> bool {
    runs_to_102(bench)
        && walks_since_102(bench)
        && bench.undo() == Ok(Kind::Tick)
        && waits_since_101(bench)
        && steps(bench)
        && walks_since_102(bench)
        && bench.seek(100) == Ok(())
        && is_at(bench, 100, PedestrianAspect::Clearance, 41)
        && steps(bench)
        && waits_since_101(bench)
        && steps(bench)
        && walks_since_102(bench)
}

/// The undo of the tick in which a walk began gives the call back.
#[test]
fn an_undo_gives_the_call_of_a_walk_back(rt: HostRuntime) {
    let Some(mut bench) = running(rt.alloc(), &[RECYCLE]) else {
        panic!(rt; "no bench");
    };
    assert!(rt; goes_back_and_forth(&mut bench));
}
