//! Events of arrows that flash yellow and of overlaps that trail, on the plans of `arrows`, whose times are worked
//! there. Codes are those of the event logs: 32 and 33 as flashing yellow begins and ends, 61 as a green begins, 62 as
//! a trailing green does, 63 as a yellow does, 64 as that ends; and 65 as an overlap is neither lit nor has a phase in
//! service.

use crate::arrows::{ARROW, TRAIL, Value, running};
use std::alloc::Global;
use tsb_bench::{Bench, Events, Input, Noted, Plan, Row};
use tsb_types::Event;

/// The tick of an event, and its code.
type Told = (u32, u8);

/// Whether it is an event of overlap 1.
fn is_of_overlap(event: &Event) -> bool {
    let is_code = matches!(event.code, 32 | 33 | 61..=65);
    is_code && event.parameter == 1
}

/// Those of the wanted events that are left after these, if the overlap's among these are the first of them.
fn left_after<'a>(events: &[Event], wanted: &'a [Told]) -> Option<&'a [Told]> {
    let mut left = wanted;
    for event in events {
        if is_of_overlap(event) {
            let (first, rest) = left.split_first()?;
            if *first != (event.tick, event.code) {
                return None;
            }
            left = rest;
        }
    }
    Some(left)
}

/// Whether a bench has these events of overlap 1, and no other, in its ticks up to one.
fn tells_up_to(bench: &mut Bench, number: u32, wanted: &[Told]) -> bool {
    let mut events = Events::new();
    let mut left = wanted;
    for _ in bench.now()..number {
        let noted = Noted::usual_after(Row::all_off());
        let is_taken = bench.apply_telling(Input::Tick(Row::all_off()), &noted, &mut events);
        let told = left_after(&events, left);
        match told {
            Some(rest) if is_taken.is_ok() => left = rest,
            _ => return false,
        }
    }
    left.is_empty()
}

/// The same of a bench at power-up with these values of the built-in plan of two phases.
fn two_tells_up_to(alloc: Global, values: &[Value], number: u32, wanted: &[Told]) -> bool {
    match running(alloc, Plan::two(), values) {
        Some(mut bench) => tells_up_to(&mut bench, number, wanted),
        None => false,
    }
}

#[test]
fn arrows_tell_when_they_flash(rt: HostRuntime) {
    let wanted = [
        (21, 32),
        (101, 33),
        (101, 63),
        (136, 64),
        (146, 61),
        (226, 63),
        (266, 64),
        (296, 32),
    ];
    assert!(rt; two_tells_up_to(rt.alloc(), &ARROW, 300, &wanted));
}

/// Phase 2 stays in red clearance up to tick 211, in which the overlap has its red clearance.
#[test]
fn trails_tell_their_greens(rt: HostRuntime) {
    let wanted = [
        (1, 61),
        (101, 62),
        (161, 63),
        (197, 64),
        (212, 65),
        (332, 61),
    ];
    assert!(rt; two_tells_up_to(rt.alloc(), &TRAIL, 340, &wanted));
}
