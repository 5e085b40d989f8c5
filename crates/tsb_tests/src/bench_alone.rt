//! A caller of tsb_bench alone: it gives out all that an input, a command and a watch name.

use std::alloc::{AllocError, Global};
use std::test::Fail;
use tsb_bench::{
    Answer, Bench, Checked, Cmd, Detector, DetectorSet, Input, Lamp, NumberSet, Object, ObjectId,
    Overlap, PedestrianColor, Phase, Plan, Refusal, Row, SignalColor, Station, Watch, play,
};

/// Vehicle detector 3, the walk button of phase 2 and preempt 3 are on, which has no dwell phases and so never requests.
fn row() -> Row {
    Row {
        vehicles: DetectorSet::from_list(0x0004),
        pedestrians: NumberSet::from_list(0x0002),
        preempts: NumberSet::from_list(0x0004),
    }
}

/// An input of each kind, and a lamp of each head.
fn inputs() -> [Input; 13] {
    let station = Station::of(1);
    let maximum = ObjectId {
        object: Object::PhaseMaximum1,
        index: 2,
    };
    [
        Input::Tick(row()),
        Input::Pattern(1),
        Input::Switch(1, false),
        Input::Fault(Some(Lamp::Phase(Phase::of(2), SignalColor::Green))),
        Input::Fault(Some(Lamp::Pedestrian(Phase::of(2), PedestrianColor::Walk))),
        Input::Fault(Some(Lamp::Overlap(Overlap::of(1), SignalColor::Red))),
        Input::Fault(None),
        Input::Reset,
        Input::Begin(station),
        Input::Set(station, maximum, 30),
        Input::Verify(station),
        Input::Commit(station),
        Input::Abort(station),
    ]
}

/// What may be watched, one of each.
fn watches() -> [Watch; 7] {
    [
        Watch::Interval(Phase::of(2)),
        Watch::Ped(Phase::of(2)),
        Watch::Call(Phase::of(3)),
        Watch::Output(Detector::of(3)),
        Watch::Alarm(Detector::of(3)),
        Watch::Stage,
        Watch::Trip,
    ]
}

/// A command for each input, then one for each watch.
fn commands(alloc: Global) -> Result<Vec<Cmd>, AllocError> {
    let mut commands = Vec::new(alloc);
    for input in inputs() {
        commands.push(Cmd::Apply(input))?;
    }
    for watch in watches() {
        commands.push(Cmd::When(watch))?;
    }
    Ok(commands)
}

/// The bench after the commands on the plan of eight phases, and what it answers.
fn played(alloc: Global, commands: &[Cmd]) -> Option<(Bench, Vec<Answer>)> {
    let plan = Checked::new(Plan::quad()).ok()?;
    play(alloc, plan, commands).ok()
}

/// How many of the answers are this one.
fn count_of(answers: &[Answer], wanted: Answer) -> usize {
    let mut count: usize = 0;
    for answer in answers {
        if *answer == wanted {
            count = count.saturating_add(1);
        }
    }
    count
}

/// Whether all inputs but the last are taken: the commit has closed the transaction that the abort would give up. The
/// maximum of phase 2 is then 30 s. Its interval, its pedestrian part, the call of phase 3 and output 3 have changed at
/// tick 1, and nothing else that is watched.
fn are_answered(alloc: Global, commands: &[Cmd]) -> bool {
    match played(alloc, commands) {
        Some((bench, answers)) => {
            answers.len() == 20
                && count_of(&answers, Answer::Took) == 12
                && answers[12] == Answer::Refused(Refusal::NotOpen)
                && count_of(&answers, Answer::Changed(Some(1))) == 4
                && count_of(&answers, Answer::Changed(None)) == 3
                && bench.plan().maximum(Phase::of(2)) == 300
        }
        None => false,
    }
}

#[test]
fn one_crate_makes_every_input(rt: HostRuntime) -> Result<(), Fail> {
    let commands = commands(rt.alloc())?;
    assert!(rt; are_answered(rt.alloc(), &commands));
    Ok(())
}
