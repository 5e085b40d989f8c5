//! Long runs with ample memory. A call that may answer `Memory` does not do so at any length, not beyond 65,536 and not
//! beyond 1,000,000. The built programs are run through all 6,000,000 ticks besides (`tools/programs/run_program.py`).

use std::alloc::{AllocError, Global};
use std::test::Fail;
use tsb_bench::{Answer, Bench, Cmd, Input, Kind, Nothing, play};
use tsb_history::History;
use tsb_log_text::{Log, LogError, read_log};
use tsb_objects::{
    Checked, DetectorSet, Lamp, NumberSet, Object, ObjectId, Phase, Plan, Row, SignalColor, Station,
};

/// More than a million.
const MANY: u32 = 1_100_000;

/// How many rows a long log has. The built programs read one of 1,100,000 (`tools/programs/run_program.py`).
const ROWS: u32 = 70_000;

/// How many rounds of inputs there are.
const ROUNDS: usize = 2000;

/// A tick with all inputs on.
fn busy_tick() -> Input {
    Input::Tick(Row {
        vehicles: DetectorSet::from_list(0xFFFF),
        pedestrians: NumberSet::from_list(0x00FF),
        preempts: NumberSet::from_list(0x000F),
    })
}

/// Inputs of every kind, none of them refused on the built-in plan of eight phases. The lamp trips the monitor where a
/// phase that is not concurrent with phase 3 has right of way.
fn round() -> [Input; 15] {
    let (first, second) = (Station::of(1), Station::of(2));
    let maximum = ObjectId {
        object: Object::PhaseMaximum1,
        index: 2,
    };
    [
        busy_tick(),
        Input::Tick(Row::all_off()),
        Input::Pattern(1),
        Input::Pattern(0),
        Input::Switch(1, true),
        Input::Switch(1, false),
        Input::Fault(Some(Lamp::Phase(Phase::of(3), SignalColor::Green))),
        Input::Reset,
        Input::Fault(None),
        Input::Begin(first),
        Input::Set(first, maximum, 30),
        Input::Verify(first),
        Input::Commit(first),
        Input::Begin(second),
        Input::Abort(second),
    ]
}

/// Rounds of inputs, as commands.
fn rounds(alloc: Global) -> Result<Vec<Cmd>, AllocError> {
    let mut commands = Vec::new(alloc);
    for _round in 0..ROUNDS {
        for input in round() {
            commands.push(Cmd::Apply(input))?;
        }
    }
    Ok(commands)
}

/// What a bench answers, and the bench after that.
fn played(alloc: Global, plan: Plan, commands: &[Cmd]) -> Option<(Bench, Vec<Answer>)> {
    let plan = Checked::new(plan).ok()?;
    play(alloc, plan, commands).ok()
}

fn copied(alloc: Global, bench: &Bench) -> Option<Bench> {
    bench.clone_in(alloc).ok()
}

fn undone(bench: &mut Bench) -> Result<Kind, Nothing> {
    bench.undo()
}

/// Whether there are so many answers, and each says that the input was taken.
fn all_are_taken(answers: &[Answer], count: usize) -> bool {
    for answer in answers {
        if *answer != Answer::Took {
            return false;
        }
    }
    answers.len() == count
}

/// Whether the bench can be taken back by the rounds, and no further.
fn is_taken_back(bench: &mut Bench) -> bool {
    let kinds = [
        Kind::Abort,
        Kind::Begin,
        Kind::Commit,
        Kind::Verify,
        Kind::Set,
        Kind::Begin,
        Kind::Fault,
        Kind::Reset,
        Kind::Fault,
        Kind::Switch,
        Kind::Switch,
        Kind::Pattern,
        Kind::Pattern,
        Kind::Tick,
        Kind::Tick,
    ];
    for _round in 0..ROUNDS {
        for kind in &kinds {
            if undone(bench) != Ok(*kind) {
                return false;
            }
        }
    }
    undone(bench) == Err(Nothing)
}

/// Whether the bench is at this tick, where phase 2 has this maximum, in tenths of a second.
fn is_at(bench: &Bench, number: u32, maximum: u32) -> bool {
    bench.now() == number && bench.plan().maximum(Phase::of(2)) == maximum
}

/// Whether a copy of the bench can be taken back by the rounds.
fn copy_is_taken_back(alloc: Global, bench: &mut Bench) -> bool {
    match copied(alloc, bench) {
        Some(mut copy) => {
            is_taken_back(bench)
                && is_taken_back(&mut copy)
                && is_at(&copy, 0, 200)
                && *copy.plan() == Plan::quad()
        }
        None => false,
    }
}

/// Whether each of the commands of the rounds is taken, and taken back by the bench and by a copy of it.
fn takes_rounds(alloc: Global, commands: &[Cmd]) -> bool {
    match played(alloc, Plan::quad(), commands) {
        Some((mut bench, answers)) => {
            all_are_taken(&answers, 30_000)
                && is_at(&bench, 4000, 300)
                && copy_is_taken_back(alloc, &mut bench)
        }
        None => false,
    }
}

/// Each input of the rounds is taken, and taken back by the bench and by a copy of it.
#[test]
fn rounds_are_taken_and_taken_back(rt: HostRuntime) -> Result<(), Fail> {
    let commands = rounds(rt.alloc())?;
    assert!(rt; takes_rounds(rt.alloc(), &commands));
    Ok(())
}

/// Many ticks, as commands.
fn many_ticks(alloc: Global) -> Result<Vec<Cmd>, AllocError> {
    let mut commands = Vec::new(alloc);
    for _ in 0..MANY {
        commands.push(Cmd::Apply(Input::Tick(Row::all_off())))?;
    }
    Ok(commands)
}

/// Whether a copy of the bench is at the last of many ticks, and can be wound back.
fn copy_is_wound_back(alloc: Global, bench: &Bench) -> bool {
    match copied(alloc, bench) {
        Some(mut copy) => copy.now() == MANY && is_wound_back(&mut copy),
        None => false,
    }
}

/// Whether the bench can be wound back to power-up, and no further.
fn is_wound_back(bench: &mut Bench) -> bool {
    bench.seek(0) == Ok(()) && undone(bench) == Err(Nothing)
}

/// Whether each of the commands is taken, and the bench they leave can be copied with its history.
fn takes_ticks(alloc: Global, commands: &[Cmd]) -> bool {
    match played(alloc, Plan::two(), commands) {
        Some((bench, answers)) => {
            all_are_taken(&answers, commands.len()) && copy_is_wound_back(alloc, &bench)
        }
        None => false,
    }
}

/// A `play` of many ticks answers each, and the bench it leaves can be copied with its history.
#[test]
fn many_commands_are_answered(rt: HostRuntime) -> Result<(), Fail> {
    let commands = many_ticks(rt.alloc())?;
    assert!(rt; takes_ticks(rt.alloc(), &commands));
    Ok(())
}

/// A history of many records of one change each.
fn long_history(alloc: Global) -> Result<History, AllocError> {
    let mut history = History::new(alloc);
    for value in 0..MANY {
        history.reserve(1)?;
        history.push(Kind::Tick, &[(5, value)]);
    }
    Ok(history)
}

#[test]
fn a_long_history_is_copied(rt: HostRuntime) -> Result<(), Fail> {
    let history = long_history(rt.alloc())?;
    let copy = history.clone_in(rt.alloc())?;
    assert!(rt; copy.len() == 1_100_000 && copy.bytes() == history.bytes());
    Ok(())
}

/// The text of a log with many rows, one for each tick, in which vehicle input 1 is on at odd ticks.
fn many_rows(alloc: Global) -> Result<Vec<u8>, AllocError> {
    let mut row = *b"0000000 0000000000000000 00000000 0000\n";
    let mut text = Vec::new(alloc);
    for tick in 1..=ROWS {
        let mut rest = tick;
        for k in 0..7 {
            row[6 - k] = b'0' + (rest % 10) as u8;
            rest /= 10;
        }
        row[8] = b'0' + (tick % 2) as u8;
        text.extend_from_slice(&row)?;
    }
    Ok(text)
}

/// Whether the log has the many rows.
fn has_many_rows(log: &Log) -> bool {
    let mut place = 0;
    for tick in [1, 2, 65_536, 65_537, ROWS - 1, ROWS] {
        if log.row(tick, &mut place).vehicles.list() != u64::from(tick % 2) {
            return false;
        }
    }
    true
}

fn fault_of(alloc: Global, text: &[u8]) -> Option<LogError> {
    read_log(alloc, text).err()
}

/// A log of many rows is read whole, and a fault in a line after them is reported.
#[test]
fn many_rows_are_read(rt: HostRuntime) -> Result<(), Fail> {
    let mut text = many_rows(rt.alloc())?;
    let Ok(log) = read_log(rt.alloc(), &text) else {
        panic!(rt; "no log");
    };
    assert!(rt; has_many_rows(&log));
    let length = text.len();
    text.extend_from_slice(b"0000001 0000000000000000 00000000 0000\n")?;
    let twice = fault_of(rt.alloc(), &text);
    text.truncate(length);
    text.extend_from_slice(b"what\n")?;
    let other = fault_of(rt.alloc(), &text);
    assert!(rt;
        matches!(
            (twice, other),
            (
                Some(LogError::TickOrder(70_001)),
                Some(LogError::Malformed(70_001)),
            )
        )
    );
    Ok(())
}
