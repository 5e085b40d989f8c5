//! How the local counter comes into step where one pattern follows another, worked by hand from docs/use/MANUAL.md.
//! Times are in ticks. Patterns 1 and 2 of the built-in plan of eight phases have a cycle of 800 and offsets 0 and 790.
//! So in step the counter of pattern 2 is 10 more than the tick number, within the cycle. Phases 2 and 6 are
//! coordinated and have their instants at 760, so the counter waits at 759. Instants of others are 510, 110 and 360.

use std::alloc::Global;
use tsb_bench::{Bench, Input, Kind, Row};
use tsb_cells::Reversible;
use tsb_coord::{Coord, laws};
use tsb_objects::{Checked, Object, ObjectId, Plan, Refusal};

/// An object, an index and a value.
type Value = (Object, u32, u32);

/// The modes, by their numbers.
const DWELL: u32 = 1;

const SHORT_WAY: u32 = 2;

const ADD_ONLY: u32 = 3;

/// The built-in plan of eight phases with these values, if it breaks no rule.
fn quad_with(values: &[Value]) -> Option<Checked> {
    let mut plan = Plan::quad();
    for (object, index, value) in values {
        let id = ObjectId {
            object: *object,
            index: *index,
        };
        plan.put(id, *value).ok()?;
    }
    Checked::new(plan).ok()
}

/// That plan with a mode, a limit in percent, and an offset of pattern 2 in seconds.
fn quad_by(mode: u32, limit: u32, offset: u32) -> Option<Checked> {
    quad_with(&[
        (Object::CoordCorrectionMode, 1, mode),
        (Object::CoordCorrectionLimit, 1, limit),
        (Object::PatternOffsetTime, 2, offset),
    ])
}

/// A pattern that is selected at tick 0, another one, and the tick in which that is selected.
type Selections = (u32, u32, u32);

/// Pattern 2 behind pattern 1, and pattern 1 behind pattern 2.
const SECOND: Selections = (1, 2, 100);

const FIRST: Selections = (2, 1, 100);

/// Whether the local counter is this in these ticks, behind these selections.
fn counts(plan: Option<Checked>, selections: Selections, wanted: &[(u32, u32)]) -> bool {
    let (Some(plan), (first, second, at)) = (plan, selections) else {
        return false;
    };
    let mut coord = Coord::new();
    coord.open();
    if coord.set_pattern(first, 0, &plan).is_err() || at > 5000 {
        return false;
    }
    if coord.set_pattern(second, at, &plan).is_err() {
        return false;
    }
    let _changes = coord.close();
    for (tick, local) in wanted {
        if *tick > 5000 || coord.local(*tick, &plan) != Some(*local) {
            return false;
        }
    }
    true
}

/// What is asked in a tick: the list of the phases that are forced off, that of those that may walk again, and in which
/// tick another answer is due.
type Orders = (u32, (u16, u16, u32));

/// Whether coordination asks this in these ticks, behind these selections.
fn asks(plan: Option<Checked>, selections: Selections, wanted: &[Orders]) -> bool {
    let (Some(plan), (first, second, at)) = (plan, selections) else {
        return false;
    };
    let mut coord = Coord::new();
    coord.open();
    if coord.set_pattern(first, 0, &plan).is_err() || at > 5000 {
        return false;
    }
    if coord.set_pattern(second, at, &plan).is_err() {
        return false;
    }
    let _changes = coord.close();
    for (tick, orders) in wanted {
        if *tick > 5000 {
            return false;
        }
        let found = coord.orders(*tick, &plan);
        let due = coord.due(*tick, &plan);
        if (found.forced.list(), found.recycle.list(), due) != *orders {
            return false;
        }
    }
    true
}

/// With mode 0, and by the short way or add only without a limit, it is in step in the next tick.
#[test]
fn counters_jump_without_a_mode(rt: HostRuntime) {
    for (mode, limit) in [(0, 50), (SHORT_WAY, 0), (ADD_ONLY, 0)] {
        let wanted = [(100, 110), (101, 111), (789, 799), (790, 0)];
        assert!(rt; counts(quad_by(mode, limit, 79), SECOND, &wanted));
    }
}

/// It is 10 ahead of pattern 1. By 50 percent it loses a tick in each three, and is in step in tick 130; by 17 percent
/// it loses 17 of 117, the first in tick 107 and the tenth in tick 169: 17 times 7 and 69 are 119 and 1173.
#[test]
fn slower_counters_stand_still(rt: HostRuntime) {
    let by_50 = [
        (100, 110),
        (101, 111),
        (102, 112),
        (103, 112),
        (106, 114),
        (129, 130),
        (130, 130),
        (131, 131),
    ];
    let by_17 = [
        (106, 116),
        (107, 116),
        (168, 169),
        (169, 169),
        (170, 170),
        (900, 100),
    ];
    for mode in [SHORT_WAY, ADD_ONLY] {
        assert!(rt; counts(quad_by(mode, 50, 79), FIRST, &by_50));
        assert!(rt; counts(quad_by(mode, 17, 79), FIRST, &by_17));
    }
    laws::counters_come_into_step();
}

/// It is 790 ahead of pattern 2, so 10 short of a cycle. By 50 percent it takes two steps in each of 10 ticks; by 17
/// percent it gains 17 of 83, the first in tick 105 and the tenth in tick 149.
#[test]
fn faster_counters_take_two_steps(rt: HostRuntime) {
    let by_50 = [
        (100, 100),
        (101, 102),
        (109, 118),
        (110, 120),
        (111, 121),
        (900, 110),
    ];
    let by_17 = [
        (104, 104),
        (105, 106),
        (106, 107),
        (148, 157),
        (149, 159),
        (150, 160),
        (790, 0),
    ];
    assert!(rt; counts(quad_by(SHORT_WAY, 50, 79), SECOND, &by_50));
    assert!(rt; counts(quad_by(SHORT_WAY, 17, 79), SECOND, &by_17));
}

/// Add only it has to lose all 790: by 50 percent in 2,370 ticks.
#[test]
fn counters_that_only_lose_go_round(rt: HostRuntime) {
    let wanted = [
        (100, 100),
        (103, 102),
        (400, 300),
        (2469, 80),
        (2470, 80),
        (2471, 81),
    ];
    assert!(rt; counts(quad_by(ADD_ONLY, 50, 79), SECOND, &wanted));
}

/// 400 ahead, which is half a cycle, it goes slower; 410 ahead it goes faster.
#[test]
fn the_short_way_from_half_a_cycle_is_slower(rt: HostRuntime) {
    let slower = [(101, 101), (102, 102), (103, 102), (1300, 100)];
    let faster = [(101, 102), (102, 104), (490, 80), (491, 81)];
    assert!(rt; counts(quad_by(SHORT_WAY, 50, 40), SECOND, &slower));
    assert!(rt; counts(quad_by(SHORT_WAY, 50, 41), SECOND, &faster));
}

/// It goes on to 759, in tick 759, and waits there for all 790 ticks; by 10 percent for 80 in each cycle; by 1 percent
/// for 8, and where it is 10 ahead for 2 more a cycle later.
#[test]
fn counters_dwell_before_the_instant(rt: HostRuntime) {
    let whole = [
        (101, 101),
        (758, 758),
        (759, 759),
        (1549, 759),
        (1550, 760),
        (1590, 0),
    ];
    let by_10 = [
        (759, 759),
        (839, 759),
        (840, 760),
        (879, 799),
        (880, 0),
        (1639, 759),
        (1719, 759),
        (1720, 760),
    ];
    let by_1 = [
        (749, 759),
        (757, 759),
        (758, 760),
        (1557, 759),
        (1559, 759),
        (1560, 760),
        (2360, 760),
    ];
    assert!(rt; counts(quad_by(DWELL, 0, 79), SECOND, &whole));
    assert!(rt; counts(quad_by(DWELL, 10, 79), SECOND, &by_10));
    assert!(rt; counts(quad_by(DWELL, 1, 79), FIRST, &by_1));
}

/// Pattern 1 is at 759 in tick 759. Where pattern 2 is selected there it waits from there on. A tick later it goes
/// round first.
#[test]
fn counters_dwell_where_they_are_selected(rt: HostRuntime) {
    let there = [(759, 759), (760, 759), (1549, 759), (1550, 760)];
    let behind = [
        (760, 760),
        (761, 761),
        (1559, 759),
        (2349, 759),
        (2350, 760),
    ];
    assert!(rt; counts(quad_by(DWELL, 0, 79), (1, 2, 759), &there));
    assert!(rt; counts(quad_by(DWELL, 0, 79), (1, 2, 760), &behind));
}

/// Whether pattern 2 is in step at once behind free operation.
fn counts_behind_free_operation(plan: &Checked) -> bool {
    let mut coord = Coord::new();
    coord.open();
    let first = coord.set_pattern(1, 0, plan);
    let none = coord.set_pattern(0, 50, plan);
    let second = coord.set_pattern(2, 100, plan);
    let _changes = coord.close();
    first.is_ok() && none.is_ok() && second.is_ok() && coord.local(101, plan) == Some(111)
}

/// Whether the ticks are counted anew where the pattern that runs is selected again: 2 of each 3 that it needs to lose
/// one are not enough.
fn counts_anew(plan: &Checked) -> bool {
    let mut coord = Coord::new();
    coord.open();
    let second = coord.set_pattern(2, 0, plan);
    let first = coord.set_pattern(1, 100, plan);
    let again = coord.set_pattern(1, 102, plan);
    let once_more = coord.set_pattern(1, 104, plan);
    let _changes = coord.close();
    let taken = second.is_ok() && first.is_ok() && again.is_ok() && once_more.is_ok();
    taken
        && coord.local(104, plan) == Some(114)
        && coord.local(106, plan) == Some(116)
        && coord.local(107, plan) == Some(116)
        && coord.local(134, plan) == Some(134)
}

/// Whether a pattern that is not used is refused and leaves all as it was: in tick 130 it is in step, as before.
fn leaves_what_is_refused(plan: &Checked) -> bool {
    let mut coord = Coord::new();
    coord.open();
    let second = coord.set_pattern(2, 0, plan);
    let first = coord.set_pattern(1, 100, plan);
    let _changes = coord.close();
    coord.open();
    let refused = coord.set_pattern(3, 110, plan);
    let changes = coord.close();
    second.is_ok()
        && first.is_ok()
        && refused == Err(Refusal::NoSuchPattern)
        && changes.is_empty()
        && coord.local(129, plan) == Some(130)
        && coord.local(131, plan) == Some(131)
}

#[test]
fn selections_begin_anew(rt: HostRuntime) {
    let Some(plan) = quad_by(ADD_ONLY, 50, 79) else {
        panic!(rt; "no plan");
    };
    assert!(rt; counts_behind_free_operation(&plan));
    assert!(rt; counts_anew(&plan));
    assert!(rt; leaves_what_is_refused(&plan));
}

/// Whether a selection writes its pattern, its tick and how far the counter is ahead: here pattern 2 is selected in
/// tick 100, 790 ahead, and pattern 1 in tick 100 after it, in step.
fn writes_three_cells(plan: &Checked) -> bool {
    let mut coord = Coord::new();
    coord.open();
    let first = coord.set_pattern(1, 7, plan);
    let begun = coord.close();
    coord.open();
    let second = coord.set_pattern(2, 100, plan);
    let changes = coord.close();
    let ahead = coord.local(103, plan);
    coord.open();
    let back = coord.set_pattern(1, 100, plan);
    let returned = coord.close();
    let in_step = coord.local(103, plan);
    let taken = first.is_ok() && second.is_ok() && back.is_ok();
    let counted = ahead == Some(102) && in_step == Some(103);
    taken
        && counted
        && begun.as_slice() == [(0, 0)].as_slice()
        && changes.as_slice() == [(0, 1), (1, 0), (2, 0)].as_slice()
        && returned.as_slice() == [(0, 2), (1, 100), (2, 790)].as_slice()
}

/// A selection that is in step writes its pattern alone; another one the tick and the ticks ahead as well.
#[test]
fn selections_are_kept_in_three_cells(rt: HostRuntime) {
    let Some(plan) = quad_by(ADD_ONLY, 50, 79) else {
        panic!(rt; "no plan");
    };
    assert!(rt; writes_three_cells(&plan));
}

/// Pattern 2 is selected at 751. It takes two steps in each tick, and in tick 756 the first of them is 760: phases 2
/// and 6 are forced off then, as by one that is there. It is in step in tick 761, and up to the next tick each is due.
#[test]
fn forces_off_at_the_first_of_two_steps(rt: HostRuntime) {
    let wanted = [
        (755, (0, 0, 756)),
        (756, (0x22, 0, 757)),
        (757, (0, 0, 758)),
        (761, (0, 0, 762)),
        (762, (0, 0, 900)),
        (900, (0x44, 0, 901)),
    ];
    let patterns = (1, 2, 751);
    assert!(rt; asks(quad_by(SHORT_WAY, 50, 79), patterns, &wanted));
    assert!(rt;
        counts(
            quad_by(SHORT_WAY, 50, 79),
            patterns,
            &[(755, 759), (756, 761), (761, 771)]
        )
    );
}

/// Pattern 1 is selected in tick 99 at 109, so that phases 3 and 7 are forced off in tick 100, at 110. Selected in tick
/// 98 at 108, the counter is at 110 in tick 101, and they are forced off in both ticks.
#[test]
fn forces_off_where_it_stands_still(rt: HostRuntime) {
    let once = [
        (100, (0x44, 0, 101)),
        (101, (0, 0, 102)),
        (102, (0, 0, 103)),
    ];
    let twice = [
        (99, (0, 0, 100)),
        (100, (0x44, 0, 101)),
        (101, (0x44, 0, 102)),
        (102, (0, 0, 103)),
    ];
    assert!(rt; asks(quad_by(ADD_ONLY, 50, 79), (2, 1, 99), &once));
    assert!(rt; asks(quad_by(ADD_ONLY, 50, 79), (2, 1, 98), &twice));
}

/// A plan by which phase 2 may walk again, with this mode and a limit of 50 percent.
fn recycling(mode: u32) -> Option<Checked> {
    quad_with(&[
        (Object::CoordCorrectionMode, 1, mode),
        (Object::CoordCorrectionLimit, 1, 50),
        (Object::PhasePedestrianRecycle, 2, 1),
    ])
}

/// It is in step in tick 130, and phase 2 may walk again from the next tick on: in step at once from tick 101 on.
#[test]
fn walks_wait_until_it_was_in_step(rt: HostRuntime) {
    let later = [
        (101, (0, 0, 102)),
        (130, (0, 0, 131)),
        (131, (0, 0x02, 360)),
    ];
    let at_once = [(101, (0, 0x02, 110)), (130, (0, 0x02, 360))];
    assert!(rt; asks(recycling(ADD_ONLY), FIRST, &later));
    assert!(rt; asks(recycling(0), FIRST, &at_once));
}

/// A bench in pattern 2 at tick 100, by a plan with add only and a limit of 50 percent.
fn running(alloc: Global) -> Option<Bench> {
    let mut bench = Bench::power_up(alloc, quad_by(ADD_ONLY, 50, 79)?).ok()?;
    bench.apply(Input::Pattern(2)).ok()?;
    for _ in 0..100u32 {
        bench.apply(Input::Tick(Row::all_off())).ok()?;
    }
    Some(bench)
}

/// Whether so many ticks are taken, and leave the local counter there.
fn runs(bench: &mut Bench, ticks: u32, local: u32) -> bool {
    for _ in 0..ticks {
        if bench.apply(Input::Tick(Row::all_off())).is_err() {
            return false;
        }
    }
    bench.local() == Some(local)
}

/// Whether so many ticks are taken back, and leave the local counter there.
fn runs_back(bench: &mut Bench, ticks: u32, local: u32) -> bool {
    for _ in 0..ticks {
        if bench.undo() != Ok(Kind::Tick) {
            return false;
        }
    }
    bench.local() == Some(local)
}

/// Whether the newest record is of a selection and has these entries alone: cells, and what was in them before.
fn records(bench: &Bench, entries: [(u16, u32); 3]) -> bool {
    let Some(record) = bench.history().last() else {
        return false;
    };
    record.kind() == Kind::Pattern
        && record.len() == 3
        && record.entry(0) == Some(entries[0])
        && record.entry(1) == Some(entries[1])
        && record.entry(2) == Some(entries[2])
}

/// Whether the selection of pattern 1 in tick 100, 10 ahead, writes the pattern, the tick and the ticks ahead.
fn selects_and_records(bench: &mut Bench) -> bool {
    bench.local() == Some(110)
        && bench.apply(Input::Pattern(1)) == Ok(())
        && bench.local() == Some(110)
        && records(bench, [(3305, 2), (3306, 0), (3307, 0)])
}

/// Whether the selection and the ticks after it are taken back, and taken again: no tick writes anything for it.
fn goes_back_and_forth(bench: &mut Bench) -> bool {
    runs(bench, 3, 112)
        && runs(bench, 27, 130)
        && runs(bench, 1, 131)
        && runs_back(bench, 1, 130)
        && runs_back(bench, 28, 112)
        && runs_back(bench, 2, 110)
        && bench.undo() == Ok(Kind::Pattern)
        && runs(bench, 2, 112)
        && runs_back(bench, 2, 110)
        && selects_and_records(bench)
        && runs(bench, 3, 112)
}

/// Whether a pattern that is not used is refused, and leaves the counter on its way and the records as they were.
fn refuses_a_pattern(bench: &mut Bench) -> bool {
    let records = bench.history().len();
    bench.apply(Input::Pattern(3)) == Err(Refusal::NoSuchPattern)
        && bench.history().len() == records
        && runs(bench, 27, 130)
        && runs(bench, 1, 131)
}

/// The undo of a selection gives the old pattern and its counter back.
#[test]
fn a_selection_is_taken_back(rt: HostRuntime) {
    let Some(mut bench) = running(rt.alloc()) else {
        panic!(rt; "no bench");
    };
    assert!(rt; selects_and_records(&mut bench));
    assert!(rt; goes_back_and_forth(&mut bench));
    assert!(rt; refuses_a_pattern(&mut bench));
}
