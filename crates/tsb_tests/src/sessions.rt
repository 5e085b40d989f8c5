//! Sessions: whole texts of commands and answers, whatever the reader's pieces, each shown before more is read.

use std::alloc::Global;
use std::cell::Cell;
use std::io::{self, Read, Write};
use tsb_text::{
    Bench, Checked, Log, Plan, SessionError, Watched, line, read_log, read_plan, session,
};

/// Gives its bytes in pieces, and fails at one of its reads.
#[derive(Drop)]
struct Pieces<'a> {
    left: &'a [u8],
    piece: usize,
    fails_at: usize,
}

impl Read for Pieces<'_> {
    fn read(&mut self, buf: &mut [u8]) -> io::Result<usize> {
        if self.fails_at == 0 {
            return Err(io::Error::from(io::ErrorKind::Interrupted));
        }
        self.fails_at -= 1;
        let count = self.piece.min(buf.len()).min(self.left.len());
        let (now, later) = self.left.split_at(count);
        buf[..count].copy_from_slice(now);
        self.left = later;
        Ok(count)
    }
}

/// How many bytes a terminal was given, and how many of them it shows: those given before the last flush.
#[derive(Drop)]
struct Screen {
    given: Cell<usize>,
    shown: Cell<usize>,
}

impl Write for &Screen {
    fn write(&mut self, buf: &[u8]) -> io::Result<usize> {
        self.given.set(self.given.get().saturating_add(buf.len()));
        Ok(buf.len())
    }

    fn flush(&mut self) -> io::Result<()> {
        self.shown.set(self.given.get());
        Ok(())
    }
}

/// Somebody who types a line over and over, and stops where the answer to the last one is not shown.
#[derive(Drop)]
struct Typist<'a> {
    screen: &'a Screen,
    line: &'a [u8],
    answer: usize,
    typed: usize,
    lines: usize,
}

impl Read for Typist<'_> {
    fn read(&mut self, buf: &mut [u8]) -> io::Result<usize> {
        let count = self.line.len();
        let late = self.screen.shown.get() != self.typed.saturating_mul(self.answer);
        if late || self.typed >= self.lines || buf.len() < count {
            return Ok(0);
        }
        self.typed += 1;
        buf[..count].copy_from_slice(self.line);
        Ok(count)
    }
}

const INPUT: &[u8] =
    b"step 2\r\n\n# none\n   \n # a comment begins its line\nback 1\nwhat\nstep\nstep x\nstep 4294967296\nstep 1 1\nstep 0000000001\nstep 00000000001\nstep 0\nshow\nshow it\n\tshow\n  undo  \nseek 5\nback  1\nundo\nundo it\nSTEP 1\nshow\r\r\nbegin 5\nfault W1 G\nset 1 phaseWalk 2\nstep 99999999999\nseek 0\nshow";

const OUTPUT: &[u8] = b"0000001 -G-R------------ ---------------- ---- 0 ----
0000002 -G-R------------ ---------------- ---- 0 ----
bad command
0000001 -G-R------------ ---------------- ---- 0 ----
bad command
bad command
bad command
bad command
bad command
0000002 -G-R------------ ---------------- ---- 0 ----
bad command
0000002 -G-R------------ ---------------- ---- 0 ----
bad command
bad command
undone tick
nothing
0000000 -R-R------------ ---------------- ---- 0 ----
nothing
bad command
bad command
bad command
bad command
bad command
bad command
bad command
0000000 -R-R------------ ---------------- ---- 0 ----
0000000 -R-R------------ ---------------- ---- 0 ----
";

/// Runs a session with the built-in plan of two phases and an empty log.
fn talk<R: Read, W: Write>(
    alloc: Global,
    reader: &mut R,
    writer: &mut W,
) -> Option<Result<(), SessionError>> {
    let plan = Checked::new(Plan::two()).ok()?;
    let mut reader = Watched::new(reader);
    let mut writer = Watched::new(writer);
    Some(session(
        alloc,
        plan,
        &Log::empty(alloc),
        true,
        &mut reader,
        &mut writer,
    ))
}

/// Whether the session of a reader and a writer ends with the commands.
fn ends<R: Read, W: Write>(alloc: Global, reader: &mut R, writer: &mut W) -> bool {
    matches!(talk(alloc, reader, writer), Some(Ok(())))
}

/// Whether the answer to these commands is this.
fn answers(alloc: Global, commands: &[u8], text: &[u8]) -> bool {
    let mut reader = commands;
    let mut out = Vec::new(alloc);
    ends(alloc, &mut reader, &mut out) && out.as_slice() == text
}

/// Whether the answers are the same where the commands come in such pieces.
fn answers_in_pieces(alloc: Global, piece: usize) -> bool {
    let mut out = Vec::new(alloc);
    let mut reader = Pieces {
        left: INPUT,
        piece,
        fails_at: 1000,
    };
    ends(alloc, &mut reader, &mut out) && out.as_slice() == OUTPUT
}

#[test]
fn answers_whatever_the_pieces(rt: HostRuntime) {
    for piece in 1..40 {
        assert!(rt; answers_in_pieces(rt.alloc(), piece));
    }
}

/// Whether somebody who types a line 20 times sees an answer of so many bytes each time, before more is typed.
fn is_shown_before_each_read(alloc: Global, line: &[u8], answer: usize) -> bool {
    let screen = Screen {
        given: Cell::new(0),
        shown: Cell::new(0),
    };
    let mut typist = Typist {
        screen: &screen,
        line,
        answer,
        typed: 0,
        lines: 20,
    };
    let has_ended = ends(alloc, &mut typist, &mut &screen);
    has_ended && typist.typed == 20 && screen.shown.get() == answer.saturating_mul(20)
}

/// Each answer is written and flushed before more is read, be it short or longer than what is written at once.
#[test]
fn answers_are_shown_before_each_read(rt: HostRuntime) {
    for (line, answer) in [
        (b"show\n".as_slice(), 54),
        (b"what\n", 12),
        (b"step 200\n", 10_800),
        (b"# none\n", 0),
    ] {
        assert!(rt; is_shown_before_each_read(rt.alloc(), line, answer));
    }
}

/// Whether the answer to these commands, of so many bytes, is shown once the session has ended.
fn is_shown_at_the_end(alloc: Global, commands: &[u8], answer: usize) -> bool {
    let screen = Screen {
        given: Cell::new(0),
        shown: Cell::new(0),
    };
    let mut reader = commands;
    ends(alloc, &mut reader, &mut &screen) && screen.shown.get() == answer
}

/// The last answers are flushed as well: those to a line without a line feed, those before `quit`, and those of
/// commands that end with a line feed.
#[test]
fn the_last_answers_are_shown(rt: HostRuntime) {
    for (commands, answer) in [
        (b"show".as_slice(), 54),
        (b"show\nshow", 108),
        (b"show\nquit\nshow\n", 54),
        (b"show\nquit", 54),
        (b"what\n", 12),
    ] {
        assert!(rt; is_shown_at_the_end(rt.alloc(), commands, answer));
    }
}

/// Whether what follows `quit` is not answered.
fn ends_at_quit(alloc: Global) -> bool {
    answers(
        alloc,
        b"step 1\nundo\nundo\nquit\nstep 1\n",
        b"0000001 -G-R------------ ---------------- ---- 0 ----\nundone tick\nnothing\n",
    ) && answers(alloc, b"quit", b"")
        && answers(alloc, b"", b"")
        && answers(alloc, b"show it\r\nquit\r\nshow\r\n", b"bad command\n")
}

/// Whether what follows `quit` is not read.
fn leaves_what_follows_quit(alloc: Global) -> bool {
    let mut out = Vec::new(alloc);
    let mut reader = Pieces {
        left: b"quit\nshow\n",
        piece: 5,
        fails_at: 1,
    };
    ends(alloc, &mut reader, &mut out) && reader.left.len() == 5
}

/// What follows `quit` is neither answered nor read.
#[test]
fn quit_ends_a_session(rt: HostRuntime) {
    assert!(rt; ends_at_quit(rt.alloc()) && leaves_what_follows_quit(rt.alloc()));
}

/// What is shown at power-up.
const POWER_UP: &[u8] = b"0000000 -R-R------------ ---------------- ---- 0 ----\n";

#[test]
fn no_step_has_no_line(rt: HostRuntime) {
    assert!(rt; answers(rt.alloc(), b"step 0\nback 0\n", POWER_UP));
}

/// Display lines have a seventh field, of overlaps 1 to 16, from `lines wide` on up to `lines narrow`.
#[test]
fn lines_are_wide_or_narrow(rt: HostRuntime) {
    for (commands, text) in [
        (
            b"lines narrow\nshow\n".as_slice(),
            b"ok\n0000000 -R-R------------ ---------------- ---- 0 ----\n".as_slice(),
        ),
        (
            b"lines wide\nshow\n",
            b"ok\n0000000 -R-R------------ ---------------- ---- 0 ---- ----------------\n",
        ),
        (
            b"lines wide\nlines narrow\nshow\n",
            b"ok\nok\n0000000 -R-R------------ ---------------- ---- 0 ----\n",
        ),
        (
            b"lines wide\nundo\nseek 0\n",
            b"ok\nnothing\n0000000 -R-R------------ ---------------- ---- 0 ---- ----------------\n",
        ),
        (
            b"lines\nlines broad\nlines wide 1\n",
            b"bad command\nbad command\nbad command\n",
        ),
    ] {
        assert!(rt; answers(rt.alloc(), commands, text));
    }
}

/// A carriage return belongs to a line's end only where a line feed follows it.
#[test]
fn the_last_line_keeps_its_return(rt: HostRuntime) {
    for (commands, text) in [
        (b"show\r\n".as_slice(), POWER_UP),
        (b"show", POWER_UP),
        (b"show\r", b"bad command\n"),
        (b"\r", b"bad command\n"),
        (b"\r\n", b""),
    ] {
        assert!(rt; answers(rt.alloc(), commands, text));
    }
}

/// Whether the answer to these commands is this, with the built-in plan of eight phases and a log.
fn answers_on_quad(alloc: Global, log: &[u8], commands: &[u8], text: &[u8]) -> bool {
    let (Ok(plan), Ok(log)) = (Checked::new(Plan::quad()), read_log(alloc, log)) else {
        return false;
    };
    let mut reader = Watched::new(commands);
    let mut writer = Watched::new(Vec::new(alloc));
    match session(alloc, plan, &log, true, &mut reader, &mut writer) {
        Ok(()) => writer.device().as_slice() == text,
        Err(_) => false,
    }
}

/// The expected answers are those of an independent implementation.
#[test]
fn transactions_are_answered(rt: HostRuntime) {
    let commands = b"show\nbegin 1\nbegin 2\nset 2 phaseMaximum1 9 30\nset 1 phaseMaximum1 17 30
set 1 phaseMaximum1 2 300\nset 1 phaseYellowChange 2 20\ncommit 1\nverify 1\nset 1 phaseYellowChange 2 40
verify 1\ncommit 1\nverify 1\nabort 1\nbegin 3\nabort 3\nundo\nundo\nundo\nundo\nundo\nundo\nundo\nundo\nundo\n"
        .as_slice();
    let answers = b"0000000 RRRRRRRR-------- -D-------------- R--- 0 ----
ok\nrefused E4 Busy 1\nrefused E5 NotOwner\nrefused E2 NoSuchObject
refused E3 OutOfRange\nok\nrefused E7 NotVerified\nrule K8\nok
ok\nok\nrefused E6 NotOpen\nrefused E6 NotOpen\nok\nok
undone abort\nundone begin\nundone commit\nundone verify\nundone set\nundone verify\nundone set\nundone begin\nnothing\n"
        .as_slice();
    assert!(rt; answers_on_quad(rt.alloc(), b"", commands, answers));
}

/// The expected answers are those of an independent implementation.
#[test]
fn switches_and_faults_are_answered(rt: HostRuntime) {
    let log = b"0000002 1010000000000000 01000000 0000\n".as_slice();
    let commands =
        b"step 1\npattern 1\npattern 2\npattern 3\npattern 17\nwhen trip\nwhen interval 2\nwhen stage
preempt 1 on\nstep 2\nwhen stage\nwhen interval 2\npreempt 3 on\npreempt 5 on\nfault P3 G\nstep 1\nwhen trip
reset\nshow\nfault none\nstep 1\nwhen trip\nundo\nundo\nundo\nundo\nundo\nwhen trip\n"
            .as_slice();
    let answers = b"0000001 RGRRRGRR-------- -D-------------- G--- 0 ----
ok\nok\nrefused E9 NoSuchPattern\nrefused E9 NoSuchPattern\nnever\ntick 0000001\nnever
ok
0000002 RGRRRGRR-------- -D-------------- G--- 1 0012
0000003 RGRRRGRR-------- -D-------------- G--- 1 0013
tick 0000002\ntick 0000001\nrefused E10 NoSuchPreempt\nrefused E10 NoSuchPreempt\nok
0000004 FFFFFFFF-------- ---------------- F--- 1 0014
tick 0000003\nok
0000004 RRRRRRRR-------- -D-------------- R--- 0 ----
ok
0000005 RRRRRRRR-------- -D-------------- R--- 1 ----
tick 0000004\nundone tick\nundone fault\nundone reset\nundone tick\nundone fault\nnever\n"
        .as_slice();
    assert!(rt; answers_on_quad(rt.alloc(), log, commands, answers));
}

/// A row holds from its tick on. The expected answers are those of an independent implementation.
#[test]
fn ticks_take_the_rows_of_the_log(rt: HostRuntime) {
    let log =
        b"0000002 1010000000000000 01000000 0000\n0000004 0000000000000000 00000000 0000\n".as_slice();
    let commands =
        b"when output 1\nstep 3\nwhen output 1\nwhen output 2\nwhen output 3\nwhen call 3\nwhen call 1
when alarm 1\nwhen ped 2\nback 1\nwhen output 3\nback 1\nwhen output 3\nseek 9\nwhen interval 2\n"
            .as_slice();
    let answers = b"never
0000001 RGRRRGRR-------- -D-------------- G--- 0 ----
0000002 RGRRRGRR-------- -D-------------- G--- 0 ----
0000003 RGRRRGRR-------- -D-------------- G--- 0 ----
tick 0000002\nnever\ntick 0000002\ntick 0000002\ntick 0000002
never\nnever
0000002 RGRRRGRR-------- -D-------------- G--- 0 ----
tick 0000002
0000001 RGRRRGRR-------- -D-------------- G--- 0 ----
never\nnothing\ntick 0000001\n"
        .as_slice();
    assert!(rt; answers_on_quad(rt.alloc(), log, commands, answers));
}

/// A walk within a green, by pedestrian recycle, worked by hand: the button of phase 2 is pressed in tick 3 of its
/// green. The undo of that tick gives back what was before it.
#[test]
fn walks_within_greens_are_answered(rt: HostRuntime) {
    let log =
        b"0000003 0000000000000000 01000000 0000\n0000004 0000000000000000 00000000 0000\n".as_slice();
    let commands = b"pattern 1\nstep 2\nwhen ped 2\nstep 1\nwhen ped 2\nseek 1
begin 1\nset 1 phasePedestrianRecycle 2 1\nverify 1\ncommit 1\nstep 2\nwhen ped 2\nundo\nshow\nwhen ped 2\nstep 2\nwhen ped 2\n"
        .as_slice();
    let answers = b"ok
0000001 RGRRRGRR-------- -D-------------- G--- 0 0001
0000002 RGRRRGRR-------- -D-------------- G--- 0 0002
never
0000003 RGRRRGRR-------- -D-------------- G--- 0 0003
never
0000001 RGRRRGRR-------- -D-------------- G--- 0 0001
ok\nok\nok\nok
0000002 RGRRRGRR-------- -D-------------- G--- 0 0002
0000003 RGRRRGRR-------- -W-------------- G--- 0 0003
tick 0000003
undone tick
0000002 RGRRRGRR-------- -D-------------- G--- 0 0002
never
0000003 RGRRRGRR-------- -W-------------- G--- 0 0003
0000004 RGRRRGRR-------- -W-------------- G--- 0 0004
tick 0000003
"
        .as_slice();
    assert!(rt; answers_on_quad(rt.alloc(), log, commands, answers));
}

/// A local counter that comes into step, worked by hand: in tick 3, local 13, pattern 1 follows pattern 2, and the
/// counter is 10 ahead. It loses a tick in each three. A pattern that is not used is refused, and an undo of the
/// selection gives pattern 2 back.
#[test]
fn counters_that_come_into_step_are_answered(rt: HostRuntime) {
    let commands = b"begin 1\nset 1 coordCorrectionMode 1 4\nset 1 coordCorrectionLimit 1 51
set 1 coordCorrectionMode 1 3\nset 1 coordCorrectionLimit 1 50\nverify 1\ncommit 1
pattern 2\nstep 3\npattern 1\nshow\nstep 4\npattern 3\nstep 2\nundo\nundo\nundo\nundo\nundo\nundo\nundo\nshow\nstep 1\n"
        .as_slice();
    let answers = b"ok\nrefused E3 OutOfRange\nrefused E3 OutOfRange\nok\nok\nok\nok
ok
0000001 RGRRRGRR-------- -D-------------- G--- 0 0011
0000002 RGRRRGRR-------- -D-------------- G--- 0 0012
0000003 RGRRRGRR-------- -D-------------- G--- 0 0013
ok
0000003 RGRRRGRR-------- -D-------------- G--- 0 0013
0000004 RGRRRGRR-------- -D-------------- G--- 0 0014
0000005 RGRRRGRR-------- -D-------------- G--- 0 0015
0000006 RGRRRGRR-------- -D-------------- G--- 0 0015
0000007 RGRRRGRR-------- -D-------------- G--- 0 0016
refused E9 NoSuchPattern
0000008 RGRRRGRR-------- -D-------------- G--- 0 0017
0000009 RGRRRGRR-------- -D-------------- G--- 0 0017
undone tick\nundone tick\nundone tick\nundone tick\nundone tick\nundone tick\nundone pattern
0000003 RGRRRGRR-------- -D-------------- G--- 0 0013
0000004 RGRRRGRR-------- -D-------------- G--- 0 0014
"
        .as_slice();
    assert!(rt; answers_on_quad(rt.alloc(), b"", commands, answers));
}

/// `step`, this many spaces, and `1`, with this after it.
fn answers_spaced(alloc: Global, spaces: usize, end: &[u8], text: &[u8]) -> bool {
    let mut line = [b' '; 300];
    line[..4].copy_from_slice(b"step");
    let last = 4 + spaces.min(200);
    line[last] = b'1';
    let whole = last + 1 + end.len().min(2);
    line[last + 1..whole].copy_from_slice(&end[..whole - last - 1]);
    answers(alloc, &line[..whole], text)
}

/// A line has at most 200 bytes, without its end.
#[test]
fn long_lines_are_bad(rt: HostRuntime) {
    let stepped = b"0000001 -G-R------------ ---------------- ---- 0 ----\n".as_slice();
    let bad = b"bad command\n".as_slice();
    for (spaces, end, text) in [
        (195, b"".as_slice(), stepped),
        (196, b"", bad),
        (195, b"\n", stepped),
        (196, b"\n", bad),
        (195, b"\r\n", stepped),
        (196, b"\r\n", bad),
        (195, b"\r", bad),
        (195, b"\rx", bad),
    ] {
        assert!(rt; answers_spaced(rt.alloc(), spaces, end, text));
    }
}

/// Whether this is the answer to a line of so many bytes, blank after the first.
fn answers_blank(alloc: Global, first: u8, length: usize, text: &[u8]) -> bool {
    let mut line = [b' '; 5000];
    line[0] = first;
    answers(alloc, &line[..length.min(5000)], text)
}

/// A long line is bad also where it is blank or a comment.
#[test]
fn long_blanks_and_comments_are_bad(rt: HostRuntime) {
    for (first, length, wanted) in [
        (b' ', 200, b"".as_slice()),
        (b' ', 201, b"bad command\n"),
        (b'#', 200, b""),
        (b'#', 201, b"bad command\n"),
        (b'#', 5000, b"bad command\n"),
    ] {
        assert!(rt; answers_blank(rt.alloc(), first, length, wanted));
    }
}

/// The text of the built-in plan of two phases.
const TWO: &[u8] =
    br#"{"version":1,"phaseEnabled":{"2":1,"4":1},"phaseRing":{"2":1,"4":1},"phaseSide":{"2":1,"4":2},"phaseMinimumGreen":{"2":5,"4":5},"phaseMaximum1":{"2":10,"4":8},"phaseMaximum2":{"2":10,"4":8},"phaseYellowChange":{"2":30,"4":30},"phaseRedClear":{"2":10,"4":10},"phaseMaxRecall":{"2":1,"4":1},"sequenceData":{"1":2,"2":4}}"#;

/// What a session with the plan and the log of these texts answers, if it reads both and ends with the commands.
fn answered(alloc: Global, plan: &[u8], log: &[u8], commands: &[u8]) -> Option<Vec<u8>> {
    let plan = read_plan(alloc, plan).ok()?;
    let log = read_log(alloc, log).ok()?;
    let mut reader = Watched::new(commands);
    let mut out = Vec::new(alloc);
    session(
        alloc,
        plan,
        &log,
        true,
        &mut reader,
        &mut Watched::new(&mut out),
    )
    .ok()?;
    Some(out)
}

#[test]
fn a_session_runs_a_plan_and_a_log(rt: HostRuntime) {
    let rows = b"0000100 0010010000000000 00000000 0000\n0000102 0000010000000000 00000000 0000\n";
    let Some(out) = answered(rt.alloc(), TWO, rows, b"step 101\n") else {
        panic!(rt; "no answer");
    };
    assert!(rt;
        out.as_slice().ends_with(
            b"0000100 -G-R------------ ---------------- ---- 0 ----
0000101 -Y-R------------ ---------------- ---- 0 ----
"
        )
    );
}

/// Whether the line of a bench at power-up is the one that a session shows.
fn is_line_of_power_up(alloc: Global) -> bool {
    let Ok(plan) = Checked::new(Plan::two()) else {
        return false;
    };
    match Bench::power_up(alloc, plan) {
        Ok(bench) => {
            line(&bench).as_str() == "0000000 -R-R------------ ---------------- ---- 0 ----"
        }
        Err(_) => false,
    }
}

#[test]
fn a_line_is_that_of_the_state(rt: HostRuntime) {
    assert!(rt; is_line_of_power_up(rt.alloc()));
}

#[test]
fn faults_have_lines(rt: HostRuntime) {
    for (fault, text) in [
        (SessionError::Memory, "memory"),
        (SessionError::Read, "read fault"),
        (SessionError::Write, "write fault"),
        (SessionError::TooLarge, "commands: too large"),
    ] {
        assert!(rt; has_line(rt.alloc(), fault, text));
    }
}

/// Whether this is what the fault prints.
fn has_line(alloc: Global, fault: SessionError, text: &str) -> bool {
    let mut line = Vec::new(alloc);
    write!(line, "{fault}").is_ok() && line.as_slice() == text.as_bytes()
}
