//! The bench: every kind of input, taken and taken back, and what a plan of two phases shows meanwhile.

use std::alloc::Global;
use tsb_bench::{
    Answer, Bench, Checked, Cmd, Input, Kind, Lamp, Nothing, ObjectId, Plan, Refusal, Row, Station,
    Trip, Watch, answer, play,
};
use tsb_objects::{Aspect, Object, Phase, Rule, SignalColor};
use tsb_types::ClockTime;

fn tick() -> Input {
    Input::Tick(Row::all_off())
}

/// Sets the yellow change of phase 2, in tenths of a second.
fn yellow(tenths: u32) -> Input {
    let id = ObjectId {
        object: Object::PhaseYellowChange,
        index: 2,
    };
    Input::Set(Station::of(1), id, tenths)
}

/// Inputs of every kind, none of them refused where the others came before it.
fn each_kind(time: ClockTime) -> [Input; 12] {
    let station = Station::of(1);
    [
        Input::Begin(station),
        yellow(35),
        Input::Verify(station),
        Input::Commit(station),
        Input::Begin(station),
        Input::Abort(station),
        Input::Pattern(0),
        Input::Switch(1, false),
        Input::Fault(None),
        Input::Reset,
        Input::Clock(time),
        tick(),
    ]
}

/// A bench at power-up, with the built-in plan of two phases.
fn powered_up(alloc: Global) -> Option<Bench> {
    let plan = Checked::new(Plan::two()).ok()?;
    Bench::power_up(alloc, plan).ok()
}

fn copied(alloc: Global, bench: &Bench) -> Option<Bench> {
    bench.clone_in(alloc).ok()
}

fn taken(bench: &mut Bench, input: Input) -> Result<(), Refusal> {
    bench.apply(input)
}

fn undone(bench: &mut Bench) -> Result<Kind, Nothing> {
    bench.undo()
}

fn sought(bench: &mut Bench, number: u32) -> Result<(), Nothing> {
    bench.seek(number)
}

fn number_of(bench: &Bench) -> u32 {
    bench.now()
}

/// The number of the tick, and what the heads of phases 2 and 4 show.
fn shown(bench: &Bench) -> (u32, Aspect, Aspect) {
    let display = bench.display();
    (
        number_of(bench),
        display.vehicle(Phase::of(2)),
        display.vehicle(Phase::of(4)),
    )
}

/// Takes ticks up to the one of this number, or to the first that is refused.
fn run_to(bench: &mut Bench, number: u32) {
    for _ in number_of(bench)..number {
        if taken(bench, tick()).is_err() {
            break;
        }
    }
}

/// Whether all these are taken.
fn takes(bench: &mut Bench, inputs: &[Input]) -> bool {
    for input in inputs {
        if taken(bench, *input) != Ok(()) {
            return false;
        }
    }
    true
}

/// Whether all these are taken back in turn.
fn takes_back(bench: &mut Bench, kinds: &[Kind]) -> bool {
    for kind in kinds {
        if undone(bench) != Ok(*kind) {
            return false;
        }
    }
    true
}

/// What a bench with the built-in plan of two phases answers, and the bench after that.
fn played(alloc: Global, commands: &[Cmd]) -> Option<(Bench, Vec<Answer>)> {
    let plan = Checked::new(Plan::two()).ok()?;
    play(alloc, plan, commands).ok()
}

#[test]
fn plays(rt: HostRuntime) {
    assert!(rt; plays_all(rt.alloc()));
}

fn plays_all(alloc: Global) -> bool {
    let commands = [
        Cmd::Undo,
        Cmd::Apply(tick()),
        Cmd::Apply(Input::Begin(Station::of(1))),
        Cmd::Apply(Input::Begin(Station::of(2))),
        Cmd::Back(2),
        Cmd::Seek(1),
        Cmd::When(Watch::Interval(Phase::of(2))),
        Cmd::Undo,
        Cmd::Undo,
        Cmd::When(Watch::Interval(Phase::of(2))),
        Cmd::Undo,
    ];
    match played(alloc, &commands) {
        Some((bench, answers)) => answers_all(&answers) && number_of(&bench) == 0,
        None => false,
    }
}

fn answers_all(answers: &[Answer]) -> bool {
    let wanted = [
        Answer::Nothing,
        Answer::Took,
        Answer::Took,
        Answer::Refused(Refusal::Busy(Station::of(1))),
        Answer::Nothing,
        Answer::Moved,
        Answer::Changed(Some(1)),
        Answer::Undone(Kind::Begin),
        Answer::Undone(Kind::Tick),
        Answer::Changed(None),
        Answer::Nothing,
    ];
    answers == wanted.as_slice()
}

/// Phase 2 has 10 seconds of green, phase 4 has 8, each with 3 of yellow and 1 of red clearance.
const SHOWN: [(u32, Aspect, Aspect); 12] = [
    (0, Aspect::Red, Aspect::Red),
    (1, Aspect::Green, Aspect::Red),
    (100, Aspect::Green, Aspect::Red),
    (101, Aspect::Yellow, Aspect::Red),
    (130, Aspect::Yellow, Aspect::Red),
    (131, Aspect::Red, Aspect::Red),
    (140, Aspect::Red, Aspect::Red),
    (141, Aspect::Red, Aspect::Green),
    (220, Aspect::Red, Aspect::Green),
    (221, Aspect::Red, Aspect::Yellow),
    (251, Aspect::Red, Aspect::Red),
    (261, Aspect::Green, Aspect::Red),
];

/// Whether the bench shows all that it is to show, each at its tick.
fn runs(bench: &mut Bench) -> bool {
    for wanted in &SHOWN {
        run_to(bench, wanted.0);
        if shown(bench) != *wanted {
            return false;
        }
    }
    true
}

/// Whether the bench shows all of it again on the way back.
fn winds_back(bench: &mut Bench) -> bool {
    for wanted in SHOWN.iter().rev() {
        if sought(bench, wanted.0) != Ok(()) || shown(bench) != *wanted {
            return false;
        }
    }
    true
}

/// Whether the bench can be wound back, and a copy of it stays where it is.
fn winds_back_alone(alloc: Global, bench: &mut Bench) -> bool {
    match copied(alloc, bench) {
        Some(copy) => winds_back(bench) && shown(&copy) == (261, Aspect::Green, Aspect::Red),
        None => false,
    }
}

/// Whether the bench shows what it is to show, there and back, and neither goes back from power-up nor forth by a seek.
fn shows(alloc: Global, bench: &mut Bench) -> bool {
    undone(bench) == Err(Nothing)
        && runs(bench)
        && sought(bench, 262) == Err(Nothing)
        && winds_back_alone(alloc, bench)
}

#[test]
fn shows_and_winds_back(rt: HostRuntime) {
    let Some(mut bench) = powered_up(rt.alloc()) else {
        panic!(rt; "no memory");
    };
    assert!(rt; shows(rt.alloc(), &mut bench));
}

fn yellow_of(bench: &Bench) -> u32 {
    bench.plan().yellow_change(Phase::of(2))
}

/// Who edits at the desk, and how many edits there are.
fn desk_of(bench: &Bench) -> (Option<Station>, usize) {
    (bench.desk().owner(), bench.desk().edits().len())
}

/// The kinds of the inputs of each kind, from the last one back to the commit.
const BACK_TO_COMMIT: [Kind; 9] = [
    Kind::Tick,
    Kind::Clock,
    Kind::Reset,
    Kind::Fault,
    Kind::Switch,
    Kind::Pattern,
    Kind::Abort,
    Kind::Begin,
    Kind::Commit,
];

/// The kinds of those up to the commit.
const BACK_TO_BEGIN: [Kind; 4] = [Kind::Commit, Kind::Verify, Kind::Set, Kind::Begin];

/// Whether inputs of each kind are taken and taken back, with the commit taken once more in between.
fn takes_and_takes_back(bench: &mut Bench, time: ClockTime) -> bool {
    takes(bench, &each_kind(time))
        && yellow_of(bench) == 35
        && takes_back(bench, &BACK_TO_COMMIT)
        && yellow_of(bench) == 30
        && desk_of(bench) == (Some(Station::of(1)), 1)
        && answer(bench, Cmd::Apply(Input::Commit(Station::of(1)))) == Answer::Took
        && yellow_of(bench) == 35
        && takes_back(bench, &BACK_TO_BEGIN)
        && desk_of(bench) == (None, 0)
        && undone(bench) == Err(Nothing)
}

/// A commit changes the plan, and its undo gives it back with the edits, which may then be committed again.
#[test]
fn takes_back_each_kind(rt: HostRuntime) {
    let (Some(mut bench), Some(time)) = (powered_up(rt.alloc()), ClockTime::new(9830, 252_000))
    else {
        panic!(rt; "no memory");
    };
    assert!(rt; takes_and_takes_back(&mut bench, time) && takes_and_takes_back(&mut bench, time));
}

/// What a station is answered that edits a yellow change, has it verified and commits it, where it breaks a rule.
const NOT_VERIFIED: [Answer; 4] = [
    Answer::Took,
    Answer::Took,
    Answer::Took,
    Answer::Refused(Refusal::NotVerified),
];

/// Whether a plan that breaks a rule is kept out.
fn keeps_out(alloc: Global) -> bool {
    let station = Station::of(1);
    let commands = [
        Cmd::Apply(Input::Begin(station)),
        Cmd::Apply(yellow(29)),
        Cmd::Apply(Input::Verify(station)),
        Cmd::Apply(Input::Commit(station)),
    ];
    match played(alloc, &commands) {
        Some((bench, answers)) => {
            answers.as_slice() == NOT_VERIFIED.as_slice() && is_two_against(&bench, Rule::K8)
        }
        None => false,
    }
}

/// Edits that break a rule are not verified, and not committed.
#[test]
fn keeps_plans_that_break_a_rule_out(rt: HostRuntime) {
    assert!(rt; keeps_out(rt.alloc()));
}

/// Whether the edits at the desk break this rule, and the plan in effect is the built-in one.
fn is_two_against(bench: &Bench, rule: Rule) -> bool {
    bench.desk().rule() == Some(rule) && *bench.plan() == Plan::two()
}

/// The ticks up to 1,000 in which the plan of two phases starts or ends a green, or ends a yellow.
const CHANGES: [u32; 22] = [
    1, 101, 131, 141, 221, 251, 261, 361, 391, 401, 481, 511, 521, 621, 651, 661, 741, 771, 781,
    881, 911, 921,
];

/// Whether the records are of so many ticks, and just those of `CHANGES` have entries, the newest first.
fn records_changes(bench: &Bench) -> bool {
    let mut tick = number_of(bench);
    let mut left = CHANGES.len();
    for record in bench.history().walk_back() {
        if record.kind() != Kind::Tick || tick == 0 {
            return false;
        }
        let changes = 0 < left && CHANGES[left - 1] == tick;
        if record.is_empty() == changes {
            return false;
        }
        if changes {
            left -= 1;
        }
        tick -= 1;
    }
    tick == 0 && left == 0
}

/// The bytes that records of 1,000 ticks take, with as many entries as theirs.
fn has_bytes_of_entries(bench: &Bench) -> bool {
    let mut entries = 0;
    for record in bench.history().walk_back() {
        entries += record.len().min(1000);
    }
    bench.history().bytes().len() == 3000 + 6 * entries
}

/// Whether 1,000 ticks leave 1,000 records, 22 of them with entries.
fn writes_changes_alone(bench: &mut Bench) -> bool {
    run_to(bench, 1000);
    number_of(bench) == 1000
        && bench.history().len() == 1000
        && records_changes(bench)
        && has_bytes_of_entries(bench)
}

/// Quiet ticks write nothing but that they came.
#[test]
fn quiet_ticks_write_nothing(rt: HostRuntime) {
    let Some(mut bench) = powered_up(rt.alloc()) else {
        panic!(rt; "no memory");
    };
    assert!(rt; writes_changes_alone(&mut bench));
}

/// A lamp on the vehicle head of a phase.
fn lamp(phase: u8, color: SignalColor) -> Input {
    Input::Fault(Some(Lamp::Phase(Phase::of(phase), color)))
}

/// Whether a green lamp trips the bench in this tick, until a reset.
fn trips_at(bench: &mut Bench, tick: u32) -> bool {
    let conflict = Trip::Conflict(Phase::of(2), Phase::of(4));
    taken(bench, lamp(4, SignalColor::Green)) == Ok(())
        && bench.tripped() == Some((conflict, tick))
        && taken(bench, Input::Tick(Row::all_off())) == Ok(())
        && bench.tripped() == Some((conflict, tick))
        && taken(bench, Input::Reset) == Ok(())
        && bench.tripped() == None
}

/// Whether a red lamp on a green head trips it as that, and the undo takes the trip back.
fn trips_by_red(bench: &mut Bench) -> bool {
    taken(bench, lamp(2, SignalColor::Red)) == Ok(())
        && bench.tripped() == Some((Trip::GreenToRed(Phase::of(2)), 60))
        && undone(bench) == Ok(Kind::Fault)
        && bench.tripped() == None
}

/// Whether a bench says why and when it tripped.
fn tells_trips(bench: &mut Bench) -> bool {
    run_to(bench, 60);
    bench.tripped() == None && trips_by_red(bench) && trips_at(bench, 60)
}

/// A bench says why the monitor tripped it, and when.
#[test]
fn tells_why_and_when_it_tripped(rt: HostRuntime) {
    let Some(mut bench) = powered_up(rt.alloc()) else {
        panic!(rt; "no memory");
    };
    assert!(rt; tells_trips(&mut bench));
}
