//! The commands that are played.

use std::alloc::{AllocError, Global};
use tsb_bench::{Cmd, Input};
use tsb_objects::{Lamp, Object, ObjectId, Phase, Row, SignalColor, Station, Watch};
use tsb_types::ClockTime;

/// Inputs of every kind but ticks and clocks, none of them refused on the built-in plan of eight phases.
fn inputs() -> [Input; 13] {
    let (first, second) = (Station::of(1), Station::of(2));
    let maximum = ObjectId {
        object: Object::PhaseMaximum1,
        index: 2,
    };
    [
        Input::Pattern(1),
        Input::Pattern(0),
        Input::Switch(1, true),
        Input::Switch(1, false),
        Input::Fault(Some(Lamp::Phase(Phase::of(3), SignalColor::Green))),
        Input::Reset,
        Input::Fault(None),
        Input::Begin(first),
        Input::Set(first, maximum, 30),
        Input::Verify(first),
        Input::Commit(first),
        Input::Begin(second),
        Input::Abort(second),
    ]
}

/// 2026-11-22 at seven.
fn at_seven() -> Option<ClockTime> {
    ClockTime::new(9830, 252_000)
}

/// When phase 2 changed last, asked before and after 40 ticks are taken back; then one more input is taken back.
fn way_back() -> [Cmd; 4] {
    [
        Cmd::When(Watch::Interval(Phase::of(2))),
        Cmd::Back(40),
        Cmd::When(Watch::Interval(Phase::of(2))),
        Cmd::Undo,
    ]
}

/// Adds this many ticks to the commands.
fn put_ticks(commands: &mut Vec<Cmd>, ticks: usize) -> Result<(), AllocError> {
    for _ in 0..ticks {
        commands.push(Cmd::Apply(Input::Tick(Row::all_off())))?;
    }
    Ok(())
}

/// The commands without the one of this number, from 1 on, if there is one: ticks, the way back, and inputs of each kind
/// three times.
pub fn commands(alloc: Global, left_out: u32) -> Result<Vec<Cmd>, AllocError> {
    let mut commands = Vec::new(alloc);
    put_ticks(&mut commands, 100)?;
    for command in way_back() {
        commands.push(command)?;
    }
    for _round in 0..3 {
        put_ticks(&mut commands, 2)?;
        for input in inputs() {
            commands.push(Cmd::Apply(input))?;
        }
        if let Some(time) = at_seven() {
            commands.push(Cmd::Apply(Input::Clock(time)))?;
        }
    }
    let place = left_out as usize;
    if 0 < place && place <= commands.len() {
        let _ = commands.remove(place - 1);
    }
    Ok(commands)
}
