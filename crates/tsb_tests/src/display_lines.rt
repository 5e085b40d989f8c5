//! Display lines, letter by letter.

use std::process::Abort;
use tsb_display_text::{LineMaker, line, line_bytes};
use tsb_heads::{Commitments, Display};
use tsb_objects::{
    Checked, Intervals, NumberSet, Object, ObjectId, OverlapLights, Pedestrians, PhaseSet, Plan,
    Preempt,
};

/// The built-in plan of eight phases.
fn quad(rt: &impl Abort) -> Checked {
    match Checked::new(Plan::quad()) {
        Ok(plan) => plan,
        Err(_) => panic!(rt; "the plan is not consistent"),
    }
}

/// What the heads show while the phases of the list `green` are Green and those of `yellow` are Yellow, pedestrians
/// walk with those of `walk` and clear with those of `clearance`, and no commitment is made.
fn shown(
    plan: &Checked,
    green: u16,
    yellow: u16,
    walk: u16,
    clearance: u16,
    tripped: bool,
) -> Display {
    let intervals = Intervals {
        green: PhaseSet::from_list(green),
        yellow: PhaseSet::from_list(yellow),
        red_clear: PhaseSet::empty(),
    };
    let pedestrians = Pedestrians {
        walk: PhaseSet::from_list(walk),
        clearance: PhaseSet::from_list(clearance),
    };
    Display::new(
        &intervals,
        &pedestrians,
        Commitments {
            ring_1: None,
            ring_2: None,
        },
        &OverlapLights::none(),
        tripped,
        plan,
    )
}

/// Whether this is the line of a tick at which the heads show this.
fn tells(
    tick: u32,
    display: &Display,
    preempt: Option<Preempt>,
    local: Option<u32>,
    wanted: &str,
) -> bool {
    line(tick, display, preempt, local).as_str() == wanted
}

/// Whether lines show what the heads of the plan show.
fn tells_all(plan: &Checked) -> bool {
    tells(
        1,
        &shown(plan, 34, 0, 2, 0, false),
        None,
        None,
        "0000001 RGRRRGRR-------- -W-------------- G--- 0 ----",
    ) && tells(
        70,
        &shown(plan, 34, 0, 0, 2, false),
        Some(Preempt::of(2)),
        None,
        "0000070 RGRRRGRR-------- -C-------------- G--- 2 ----",
    ) && tells(
        760,
        &shown(plan, 0, 34, 0, 0, false),
        None,
        Some(760),
        "0000760 RYRRRYRR-------- -D-------------- Y--- 0 0760",
    ) && tells(
        6_000_000,
        &shown(plan, 0, 0, 0, 0, false),
        None,
        Some(0),
        "6000000 RRRRRRRR-------- -D-------------- R--- 0 0000",
    )
}

#[test]
fn tells_what_heads_show(rt: HostRuntime) {
    assert!(rt; tells_all(&quad(&rt)));
}

#[test]
fn tells_flash(rt: HostRuntime) {
    let plan = quad(&rt);
    let flashing = shown(&plan, 34, 0, 2, 0, true);
    let bytes = line_bytes(251, &flashing, Some(Preempt::of(1)), None);
    assert!(rt; bytes == *b"0000251 FFFFFFFF-------- ---------------- F--- 1 ----");
}

/// Whether the maker's line of a tick at which the heads show this is the one that is wanted.
fn makes(
    lines: &mut LineMaker,
    tick: u32,
    display: &Display,
    preempt: Option<Preempt>,
    wanted: &[u8],
) -> bool {
    lines.make(false, tick, display, preempt, None);
    lines.as_bytes() == wanted
}

/// Whether a maker writes heads that stay, heads that change, and again those before.
fn makes_all(plan: &Checked) -> bool {
    let green = shown(plan, 34, 0, 2, 0, false);
    let mut lines = LineMaker::new(&green);
    let yellow = shown(plan, 0, 34, 0, 0, false);
    let flash = shown(plan, 34, 0, 2, 0, true);
    makes(
        &mut lines,
        1,
        &green,
        None,
        b"0000001 RGRRRGRR-------- -W-------------- G--- 0 ----",
    ) && makes(
        &mut lines,
        2,
        &green,
        Some(Preempt::of(3)),
        b"0000002 RGRRRGRR-------- -W-------------- G--- 3 ----",
    ) && makes(
        &mut lines,
        3,
        &yellow,
        None,
        b"0000003 RYRRRYRR-------- -D-------------- Y--- 0 ----",
    ) && makes(
        &mut lines,
        4,
        &green,
        None,
        b"0000004 RGRRRGRR-------- -W-------------- G--- 0 ----",
    ) && makes(
        &mut lines,
        5,
        &flash,
        None,
        b"0000005 FFFFFFFF-------- ---------------- F--- 0 ----",
    )
}

#[test]
fn lines_made_one_after_another_tell_their_heads(rt: HostRuntime) {
    assert!(rt; makes_all(&quad(&rt)));
}

/// The built-in plan of eight phases, in which overlaps 2 to 4 are arrows of phase 1, which phase 2 opposes.
fn with_arrows() -> Option<Checked> {
    let mut plan = Plan::quad();
    for index in 2..5u32 {
        for (object, value) in [
            (Object::OverlapType, 2),
            (Object::OverlapIncludedPhases, 2),
            (Object::OverlapModifierPhases, 1),
        ] {
            plan.put(ObjectId { object, index }, value).ok()?;
        }
    }
    Checked::new(plan).ok()
}

/// What the heads show in the green of phases 2 and 6, with overlap 2 flashing and overlap 3 yellow.
fn arrows_shown(plan: &Checked, tripped: bool) -> Display {
    Display::new(
        &Intervals {
            green: PhaseSet::from_list(34),
            yellow: PhaseSet::empty(),
            red_clear: PhaseSet::empty(),
        },
        &Pedestrians {
            walk: PhaseSet::empty(),
            clearance: PhaseSet::empty(),
        },
        Commitments {
            ring_1: None,
            ring_2: None,
        },
        &OverlapLights {
            green: NumberSet::empty(),
            flashing: NumberSet::from_list(2),
            yellow: NumberSet::from_list(4),
        },
        tripped,
        plan,
    )
}

/// Whether lines show arrows, in flash too.
fn tells_arrows(plan: &Checked) -> bool {
    tells(
        21,
        &arrows_shown(plan, false),
        None,
        None,
        "0000021 RGRRRGRR-------- -D-------------- GPYR 0 ----",
    ) && tells(
        22,
        &arrows_shown(plan, true),
        None,
        None,
        "0000022 FFFFFFFF-------- ---------------- FFFF 0 ----",
    )
}

#[test]
fn tells_arrows_that_flash(rt: HostRuntime) {
    let Some(plan) = with_arrows() else {
        panic!(rt; "the plan was refused");
    };
    assert!(rt; tells_arrows(&plan));
}
