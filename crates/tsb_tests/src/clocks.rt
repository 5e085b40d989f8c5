//! Local counters by a clock, worked by hand. In the built-in plan of eight phases patterns 1 and 2 have a cycle of 800
//! ticks, and pattern 1 has no offset. 7:00:10 is 252,100 tenths after midnight, which are 315 cycles and 100 ticks.

use std::alloc::Global;
use tsb_bench::{Bench, Input, Kind, Row};
use tsb_cells::Reversible;
use tsb_coord::{Coord, laws};
use tsb_objects::{Checked, Plan};
use tsb_types::ClockTime;

/// 2026-11-22, counted from 1999-12-24.
const DAY: u32 = 9830;

/// Ten seconds after seven, in tenths of a second.
const SEVEN_AND_TEN: u32 = 252_100;

/// The built-in plan of eight phases.
fn quad() -> Option<Checked> {
    Checked::new(Plan::quad()).ok()
}

/// Coordination with pattern 1, selected at tick 0, and a clock that is set at this tick.
fn clocked(plan: &Checked, tick: u32) -> Option<Coord> {
    let time = ClockTime::new(DAY, SEVEN_AND_TEN)?;
    if tick > 5000 {
        return None;
    }
    let mut coord = Coord::new();
    coord.open();
    coord.set_pattern(1, 0, plan).ok()?;
    coord.set_clock(time, tick, plan);
    let _changes = coord.close();
    Some(coord)
}

/// Whether the local counter is this in a tick, where a clock is set at another.
fn counts(plan: &Checked, set: u32, tick: u32, local: u32) -> bool {
    match clocked(plan, set) {
        Some(coord) => tick <= 5000 && coord.local(tick, plan) == Some(local),
        None => false,
    }
}

#[test]
fn counters_count_from_midnight(rt: HostRuntime) {
    laws::counters_count_from_midnight();
    let Some(plan) = quad() else {
        panic!(rt; "no plan");
    };
    assert!(rt; counts(&plan, 0, 0, 100) && counts(&plan, 0, 1, 101) && counts(&plan, 0, 700, 0));
    assert!(rt; counts(&plan, 250, 250, 100) && counts(&plan, 250, 251, 101));
}

/// What a bench shows of the local counter after a tick.
fn local_after(bench: &mut Bench) -> Option<u32> {
    bench.apply(Input::Tick(Row::all_off())).ok()?;
    bench.local()
}

/// Whether a clock moves the counter of a bench, and is taken back.
fn is_taken_back(bench: &mut Bench, time: ClockTime) -> bool {
    bench.apply(Input::Pattern(1)).is_ok()
        && local_after(bench) == Some(1)
        && bench.apply(Input::Clock(time)).is_ok()
        && local_after(bench) == Some(101)
        && bench.undo() == Ok(Kind::Tick)
        && bench.undo() == Ok(Kind::Clock)
        && bench.local() == Some(1)
}

fn powered_up(alloc: Global) -> Option<Bench> {
    Bench::power_up(alloc, quad()?).ok()
}

#[test]
fn a_clock_is_taken_back(rt: HostRuntime) {
    let (Some(mut bench), Some(time)) = (powered_up(rt.alloc()), ClockTime::new(DAY, SEVEN_AND_TEN))
    else {
        panic!(rt; "no bench");
    };
    assert!(rt; is_taken_back(&mut bench, time));
}
