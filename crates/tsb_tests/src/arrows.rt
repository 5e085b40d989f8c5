//! Arrows that flash yellow and overlaps that trail, worked by hand on the built-in plan of two phases, and both
//! are called at all times. Phase 2 is Green from tick 1 on, for 10.0 s, so Yellow from tick 101 on. Phase 4 is Green
//! for 8.0 s.

use std::alloc::Global;
use tsb_bench::{Bench, Checked, Input, Kind, Lamp, Plan, Refusal, Row};
use tsb_objects::{Aspect, NumberSet, Object, ObjectId, Overlap, Phase, SignalColor};

/// An object, an index and a value.
pub(crate) type Value = (Object, u32, u32);

/// Overlap 1 is the arrow of phase 4, which turns, and phase 2 opposes it. It flashes 2.0 s after the green of 2. The
/// yellows are 3.5 s and 4.0 s, so phase 2 is red from tick 136 on. Phase 4 is Green from tick 146 on, Yellow from
/// tick 226 on and red from tick 266 on. Phase 2 is Green from tick 276 on.
pub(crate) const ARROW: [Value; 6] = [
    (Object::OverlapType, 1, 2),
    (Object::OverlapIncludedPhases, 1, 2),
    (Object::OverlapModifierPhases, 1, 8),
    (Object::OverlapArrowDelay, 1, 20),
    (Object::PhaseYellowChange, 2, 35),
    (Object::PhaseYellowChange, 4, 40),
];

/// Overlap 1 goes with phase 2, and trails for 6.0 s, with 3.6 s of yellow and 1.5 s of red clearance.
pub(crate) const TRAIL: [Value; 4] = [
    (Object::OverlapIncludedPhases, 1, 2),
    (Object::OverlapTrailGreen, 1, 6),
    (Object::OverlapTrailYellow, 1, 36),
    (Object::OverlapTrailRed, 1, 15),
];

/// The plan with these values, if it takes them.
fn changed(plan: Plan, values: &[Value]) -> Option<Plan> {
    let mut plan = plan;
    for (object, index, value) in values {
        let id = ObjectId {
            object: *object,
            index: *index,
        };
        plan.put(id, *value).ok()?;
    }
    Some(plan)
}

/// A bench at power-up with these values of a plan, if it breaks no rule.
pub(crate) fn running(alloc: Global, plan: Plan, values: &[Value]) -> Option<Bench> {
    let plan = changed(plan, values)?;
    Bench::power_up(alloc, Checked::new(plan).ok()?).ok()
}

/// The same with more values after these.
fn running_with(alloc: Global, plan: Plan, values: &[Value], more: &[Value]) -> Option<Bench> {
    running(alloc, changed(plan, values)?, more)
}

/// A tick in which these buttons are pressed.
fn tick(pressed: u16) -> Input {
    Input::Tick(Row {
        pedestrians: NumberSet::from_list(pressed),
        ..Row::all_off()
    })
}

/// What the head of overlap 1 shows.
fn head(bench: &Bench) -> Aspect {
    bench.display().overlap(Overlap::of(1))
}

/// What the head shows from a tick on.
type Change = (u32, Aspect);

/// What the head shows in a tick by its changes: the last of those up to it, and red before.
fn shown_at(changes: &[Change], number: u32) -> Aspect {
    let mut shown = Aspect::Red;
    for (from, aspect) in changes {
        if *from <= number {
            shown = *aspect;
        }
    }
    shown
}

/// Takes ticks up to the one of this number, and returns whether the head shows in each what the changes say.
fn shows_up_to(bench: &mut Bench, number: u32, changes: &[Change]) -> bool {
    for _ in bench.now()..number {
        let is_taken = bench.apply(tick(0)).is_ok();
        if !is_taken || head(bench) != shown_at(changes, bench.now()) {
            return false;
        }
    }
    true
}

/// Goes back to the tick of this number, and returns whether the head shows in each what the changes say.
fn shows_back_to(bench: &mut Bench, number: u32, changes: &[Change]) -> bool {
    for _ in number..bench.now() {
        let is_back = bench.back(1).is_ok();
        if !is_back || head(bench) != shown_at(changes, bench.now()) {
            return false;
        }
    }
    true
}

/// Whether an input is taken.
fn takes(bench: &mut Bench, input: Input) -> bool {
    bench.apply(input) == Ok(())
}

/// Whether the newest input, of this kind, is taken back.
fn takes_back(bench: &mut Bench, kind: Kind) -> bool {
    bench.undo() == Ok(kind)
}

/// Whether a phase is Green by its head.
fn is_green(bench: &Bench, number: u32) -> bool {
    match Phase::new(number) {
        Some(phase) => bench.display().vehicle(phase) == Aspect::Green,
        None => false,
    }
}

/// What the arrow shows: it flashes 20 ticks after the green of phase 2 began, has the yellow of that phase, is green
/// with its turn, and has the yellow of that.
const FLASHES: [Change; 7] = [
    (21, Aspect::FlashingYellow),
    (101, Aspect::Yellow),
    (136, Aspect::Red),
    (146, Aspect::Green),
    (226, Aspect::Yellow),
    (266, Aspect::Red),
    (296, Aspect::FlashingYellow),
];

/// Whether the arrow shows it on the way there, back, and there again.
fn flashes(bench: &mut Bench) -> bool {
    shows_up_to(bench, 300, &FLASHES)
        && shows_back_to(bench, 0, &FLASHES)
        && shows_up_to(bench, 300, &FLASHES)
}

#[test]
fn an_arrow_flashes_with_the_green_that_opposes_its_turn(rt: HostRuntime) {
    let Some(mut bench) = running(rt.alloc(), Plan::two(), &ARROW) else {
        panic!(rt; "no bench");
    };
    assert!(rt; flashes(&mut bench));
}

/// What the arrow shows that is omitted from tick 51 on, up to tick 300: it has the whole yellow of phase 2, which
/// stays green, and is green with its turn.
const OMITTED: [Change; 7] = [
    (21, Aspect::FlashingYellow),
    (51, Aspect::Yellow),
    (86, Aspect::Red),
    (146, Aspect::Green),
    (226, Aspect::Yellow),
    (266, Aspect::Red),
    (301, Aspect::FlashingYellow),
];

/// Whether it shows it, and the list is given back with the input.
fn is_omitted(bench: &mut Bench) -> bool {
    shows_up_to(bench, 50, &OMITTED)
        && takes(bench, Input::Omit(1))
        && head(bench) == Aspect::FlashingYellow
        && bench.omitted_arrows().list() == 1
        && shows_up_to(bench, 300, &OMITTED)
        && takes(bench, Input::Omit(0))
        && shows_up_to(bench, 310, &OMITTED)
        && shows_back_to(bench, 300, &OMITTED)
        && takes_back(bench, Kind::Omit)
        && bench.omitted_arrows().list() == 1
        && shows_back_to(bench, 50, &OMITTED)
        && takes_back(bench, Kind::Omit)
        && bench.omitted_arrows().list() == 0
        && shows_up_to(bench, 300, &FLASHES)
}

#[test]
fn an_arrow_that_is_omitted_does_not_flash(rt: HostRuntime) {
    let Some(mut bench) = running(rt.alloc(), Plan::two(), &ARROW) else {
        panic!(rt; "no bench");
    };
    assert!(rt; is_omitted(&mut bench));
}

/// Whether a list of 16 overlaps is taken, and none of more.
fn lists_are_of_overlaps(bench: &mut Bench) -> bool {
    takes(bench, Input::Omit(65_535))
        && bench.apply(Input::Omit(65_536)) == Err(Refusal::OutOfRange)
        && bench.omitted_arrows().list() == 65_535
}

#[test]
fn a_list_of_arrows_is_of_16_overlaps(rt: HostRuntime) {
    let Some(mut bench) = running(rt.alloc(), Plan::two(), &ARROW) else {
        panic!(rt; "no bench");
    };
    assert!(rt; lists_are_of_overlaps(&mut bench));
}

/// The fault that lights this lamp.
fn fault(lamp: Lamp) -> Input {
    Input::Fault(Some(lamp))
}

/// Whether the green of the arrow in the green of phase 2 trips, and flashing yellow does not. After it all is red,
/// and no arrow is omitted.
fn green_arrow_trips(bench: &mut Bench) -> bool {
    let arrow = Overlap::of(1);
    shows_up_to(bench, 15, &FLASHES)
        && takes(bench, Input::Omit(2))
        && takes(bench, fault(Lamp::Arrow(arrow)))
        && takes(bench, tick(0))
        && bench.tripped().is_none()
        && takes(bench, fault(Lamp::Overlap(arrow, SignalColor::Green)))
        && bench.tripped().is_some()
        && head(bench) == Aspect::FlashingRed
        && takes(bench, Input::Fault(None))
        && takes(bench, Input::Reset)
        && bench.tripped().is_none()
        && bench.omitted_arrows().list() == 0
        && head(bench) == Aspect::Red
        && takes_back(bench, Kind::Reset)
        && bench.omitted_arrows().list() == 2
}

#[test]
fn the_monitor_takes_a_green_arrow_for_its_turn(rt: HostRuntime) {
    let Some(mut bench) = running(rt.alloc(), Plan::two(), &ARROW) else {
        panic!(rt; "no bench");
    };
    assert!(rt; green_arrow_trips(&mut bench));
}

/// Overlap 1 of the built-in plan of eight phases as the arrow of phase 1, which phase 2 opposes. It does not flash
/// while the crosswalk of that shows walk or clearance. A walk takes 4 s and a clearance 6 s, and may begin within the
/// green.
const CROSSED: [Value; 5] = [
    (Object::OverlapType, 1, 2),
    (Object::OverlapIncludedPhases, 1, 2),
    (Object::OverlapModifierPhases, 1, 1),
    (Object::OverlapArrowPedestrian, 1, 1),
    (Object::PhasePedestrianRecycle, 2, 1),
];

/// Whether the head of a plan with these values shows what the changes say, up to tick 300, in pattern 1. Phases 2 and
/// 6 alone are called, so their green rests. The button of phase 2 is pressed in tick 5.
fn shows_with_a_walk(alloc: Global, values: &[Value], changes: &[Change]) -> bool {
    let Some(mut bench) = running_with(alloc, Plan::quad(), &CROSSED, values) else {
        return false;
    };
    takes(&mut bench, Input::Pattern(1))
        && shows_up_to(&mut bench, 4, changes)
        && takes(&mut bench, tick(2))
        && head(&bench) == shown_at(changes, 5)
        && shows_up_to(&mut bench, 300, changes)
}

/// The walk begins in tick 5, so its clearance ends in tick 104. A yellow of 12.0 s is whole, and ends later.
#[test]
fn an_arrow_waits_for_the_crosswalk_that_it_crosses(rt: HostRuntime) {
    let waits = [
        (1, Aspect::FlashingYellow),
        (5, Aspect::Yellow),
        (35, Aspect::Red),
        (105, Aspect::FlashingYellow),
    ];
    assert!(rt; shows_with_a_walk(rt.alloc(), &[], &waits));
    let long = [
        (1, Aspect::FlashingYellow),
        (5, Aspect::Yellow),
        (125, Aspect::FlashingYellow),
    ];
    let yellow = (Object::PhaseYellowChange, 2, 120);
    assert!(rt; shows_with_a_walk(rt.alloc(), &[yellow], &long));
    let crosses = (Object::OverlapArrowPedestrian, 1, 0);
    assert!(rt; shows_with_a_walk(rt.alloc(), &[crosses], &waits[..1]));
}

/// What the overlap shows that trails: its green ends in tick 160, its yellow in tick 196, and its red clearance in
/// tick 211. Phase 4 has its green, yellow and red clearance after that, of 80, 30 and 10 ticks.
const TRAILS: [Change; 4] = [
    (1, Aspect::Green),
    (161, Aspect::Yellow),
    (197, Aspect::Red),
    (332, Aspect::Green),
];

/// Whether the head shows up to this tick and in the next what the changes say, and phase 4 starts in that.
fn starts_after(bench: &mut Bench, number: u32, changes: &[Change]) -> bool {
    shows_up_to(bench, number, changes)
        && !is_green(bench, 4)
        && takes(bench, tick(0))
        && head(bench) == shown_at(changes, bench.now())
        && is_green(bench, 4)
}

/// Whether the overlap shows it, and phase 4 waits for it.
fn trails(bench: &mut Bench) -> bool {
    starts_after(bench, 211, &TRAILS)
        && shows_up_to(bench, 340, &TRAILS)
        && shows_back_to(bench, 0, &TRAILS)
        && shows_up_to(bench, 340, &TRAILS)
}

#[test]
fn an_overlap_trails_and_others_wait(rt: HostRuntime) {
    let Some(mut bench) = running(rt.alloc(), Plan::two(), &TRAIL) else {
        panic!(rt; "no bench");
    };
    assert!(rt; trails(&mut bench));
}

/// Without red clearance phase 4 starts as the yellow ends.
#[test]
fn an_overlap_may_have_no_red_clearance(rt: HostRuntime) {
    let none = [(Object::OverlapTrailRed, 1, 0)];
    let Some(mut bench) = running_with(rt.alloc(), Plan::two(), &TRAIL, &none) else {
        panic!(rt; "no bench");
    };
    assert!(rt; starts_after(&mut bench, 196, &TRAILS));
}

/// Whether the overlap shows what the changes say with preempt 1 switched on after this tick, and phase 4 starts in
/// the tick after that last one. The preempt dwells on phase 4.
fn is_preempted(alloc: Global, number: u32, last: u32, changes: &[Change]) -> bool {
    let dwell = [(Object::PreemptDwellPhase, 1, 8)];
    let Some(mut bench) = running_with(alloc, Plan::two(), &TRAIL, &dwell) else {
        return false;
    };
    shows_up_to(&mut bench, number, changes)
        && takes(&mut bench, Input::Switch(1, true))
        && starts_after(&mut bench, last, changes)
}

/// A trailing green that has begun ends in the tick of the preempt, and no other begins. Yellow and red clearance are
/// whole, of 36 and 15 ticks.
#[test]
fn a_preempt_ends_a_trailing_green(rt: HostRuntime) {
    let trailing = [
        (1, Aspect::Green),
        (110, Aspect::Yellow),
        (146, Aspect::Red),
    ];
    assert!(rt; is_preempted(rt.alloc(), 109, 160, &trailing));
    let green = [(1, Aspect::Green), (60, Aspect::Yellow), (96, Aspect::Red)];
    assert!(rt; is_preempted(rt.alloc(), 59, 110, &green));
}
