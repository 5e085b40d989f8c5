//! Command lines, each with the command that it is.

use tsb_command_text::{Command, Reading, read_command, reading_of};
use tsb_plan::{Object, ObjectId};
use tsb_types::{
    ClockTime, Detector, Lamp, Overlap, PedestrianColor, Phase, SignalColor, Station, Watch,
};

/// Whether the line is this command, or none.
fn is(line: &[u8], wanted: Option<Command>) -> bool {
    read_command(line) == wanted
}

/// Whether the lines that move a bench are commands.
fn moves_are_commands() -> bool {
    is(b"step 12", Some(Command::Step(12)))
        && is(b" back  007 ", Some(Command::Back(7)))
        && is(b"seek 0", Some(Command::Seek(0)))
        && is(b"undo", Some(Command::Undo))
        && is(b"show", Some(Command::Show))
        && is(b"reset", Some(Command::Reset))
        && is(b"quit", Some(Command::Quit))
        && is(b"when stage", Some(Command::When(Watch::Stage)))
        && is(b"when trip", Some(Command::When(Watch::Trip)))
}

#[test]
fn lines_of_one_and_two_words_are_commands(rt: HostRuntime) {
    assert!(rt; moves_are_commands() && inputs_are_commands(Station::of(2)));
}

/// Whether the lines that change what a bench does are commands, among them those of station 2.
fn inputs_are_commands(two: Station) -> bool {
    is(b"begin 01", Some(Command::Begin(Station::of(1))))
        && is(b"verify 2", Some(Command::Verify(two)))
        && is(b"commit 2", Some(Command::Commit(two)))
        && is(b"abort 2", Some(Command::Abort(two)))
        && is(b"pattern 4294967295", Some(Command::Pattern(4_294_967_295)))
        && is(b"fault none", Some(Command::Fault(None)))
        && is(b"omit 5", Some(Command::Omit(5)))
        && is(b"omit 65536", Some(Command::Omit(65_536)))
}

/// The command that sets the clock to this time of a day, which is counted from 1999-12-24.
fn set_to(day: u32, tenths: u32) -> Option<Command> {
    Some(Command::Clock(ClockTime::new(day, tenths)?))
}

/// Whether the lines of dates that there are set a clock.
fn dates_set_a_clock() -> bool {
    is(b"clock 2000-01-01 00:00:00", set_to(8, 0))
        && is(b"clock 2026-11-22 07:00:00", set_to(9830, 252_000))
        && is(b"clock 2028-02-29 23:59:59.9", set_to(10_294, 863_999))
        && is(b"clock 2099-12-31 23:59:59.9", set_to(36_532, 863_999))
}

/// Whether lines of other dates and times are none.
fn other_dates_do_not() -> bool {
    is(b"clock 1999-12-31 00:00:00", None)
        && is(b"clock 2100-01-01 00:00:00", None)
        && is(b"clock 2026-02-29 00:00:00", None)
        && is(b"clock 2026-04-31 00:00:00", None)
        && is(b"clock 2026-13-01 00:00:00", None)
        && is(b"clock 2026-11-22 24:00:00", None)
        && is(b"clock 2026-11-22 07:60:00", None)
        && is(b"clock 2026-11-22 07:00:60", None)
        && is(b"clock 2026-11-22 07:00:00.12", None)
        && is(b"clock 2026-11-22T07:00:00", None)
        && is(b"clock 2026-11-22", None)
}

#[test]
fn dates_and_times_set_a_clock(rt: HostRuntime) {
    assert!(rt; dates_set_a_clock());
    assert!(rt; other_dates_do_not());
}

/// Whether lines ask when something was seen last.
fn watches_are_commands(six: Phase) -> bool {
    is(
        b"when interval 6",
        Some(Command::When(Watch::Interval(six))),
    ) && is(b"when ped 6", Some(Command::When(Watch::Ped(six))))
        && is(b"when call 6", Some(Command::When(Watch::Call(six))))
        && is(
            b"when output 16",
            Some(Command::When(Watch::Output(Detector::of(16)))),
        )
        && is(
            b"when alarm 1",
            Some(Command::When(Watch::Alarm(Detector::of(1)))),
        )
}

/// Whether a line is the fault of this lamp.
fn is_fault(line: &[u8], lamp: Lamp) -> bool {
    is(line, Some(Command::Fault(Some(lamp))))
}

/// Whether lines switch preempts, turn lamps on and set values.
fn switches_are_commands(six: Phase) -> bool {
    let id = ObjectId {
        object: Object::PhaseMaximum1,
        index: 9,
    };
    is(b"preempt 3 on", Some(Command::Preempt(3, true)))
        && is(b"preempt 9 off", Some(Command::Preempt(9, false)))
        && is_fault(
            b"fault P16 Y",
            Lamp::Phase(Phase::of(16), SignalColor::Yellow),
        )
        && is_fault(
            b"fault O16 R",
            Lamp::Overlap(Overlap::of(16), SignalColor::Red),
        )
        && is_fault(b"fault O3 P", Lamp::Arrow(Overlap::of(3)))
        && is_fault(
            b"fault W6 C",
            Lamp::Pedestrian(six, PedestrianColor::Clearance),
        )
        && is(
            b"set 1 phaseMaximum1 9 30",
            Some(Command::Set(Station::of(1), id, 30)),
        )
}

#[test]
fn lines_of_more_words_are_commands(rt: HostRuntime) {
    assert!(rt; watches_are_commands(Phase::of(6)) && switches_are_commands(Phase::of(6)));
}

/// Lines that are no commands.
const OTHERS: [&[u8]; 17] = [
    b"step",
    b"step 99999999999",
    b"step x",
    b"STEP 1",
    b"step\t1",
    b"set 1 phaseWalk 2",
    b"begin 5",
    b"fault W1 G",
    b"fault P03 G",
    b"fault O17 R",
    b"fault P1 P",
    b"fault O17 P",
    b"omit",
    b"omit 1,3",
    b"when ped 17",
    b"# quit",
    b"",
];

/// Whether none of the lines is a command.
fn are_none(lines: &[&[u8]]) -> bool {
    for line in lines {
        if !is(line, None) {
            return false;
        }
    }
    true
}

#[test]
fn other_lines_are_none(rt: HostRuntime) {
    assert!(rt; are_none(&OTHERS));
}

fn reads(line: &[u8], wanted: Reading) -> bool {
    reading_of(line) == wanted
}

/// Whether a line of 200 bytes is read, and one of 201 is bad whatever it says.
fn lines_end_at_200_bytes() -> bool {
    let mut line = [b' '; 201];
    line[0] = b's';
    line[1] = b't';
    line[2] = b'e';
    line[3] = b'p';
    line[199] = b'1';
    let is_read = reads(&line[..200], Reading::Do(Command::Step(1)));
    line[199] = b' ';
    line[200] = b'1';
    let is_bad = reads(&line, Reading::Bad);
    line[0] = b'#';
    let is_skipped = reads(&line[..200], Reading::Skip);
    is_read && is_bad && is_skipped && reads(&line, Reading::Bad)
}

/// Whether spaces about a word are passed over.
fn spaces_are_passed_over() -> bool {
    reads(b"  ", Reading::Skip)
        && reads(b" # quit", Reading::Bad)
        && reads(b" quit ", Reading::Do(Command::Quit))
}

#[test]
fn lines_of_over_200_bytes_are_bad(rt: HostRuntime) {
    assert!(rt; lines_end_at_200_bytes() && spaces_are_passed_over());
}
