//! Sessions whose reader or writer fails once, at each of its calls in turn, and would go on after that.

use std::alloc::Global;
use std::io::{self, ErrorKind, Read, Write};
use tsb_text::{Checked, Log, Plan, SessionError, Watched, session};

const INPUT: &[u8] =
    b"step 2\nshow\r\n\n# none\nback 1\nwhat\nundo\nundo\nundo\nbegin 1\npattern 3\nstep 3\nabort 1\nwhen interval 2\nshow";

const OUTPUT: &[u8] = b"0000001 -G-R------------ ---------------- ---- 0 ----
0000002 -G-R------------ ---------------- ---- 0 ----
0000002 -G-R------------ ---------------- ---- 0 ----
0000001 -G-R------------ ---------------- ---- 0 ----
bad command
undone tick
nothing
nothing
ok
refused E9 NoSuchPattern
0000001 -G-R------------ ---------------- ---- 0 ----
0000002 -G-R------------ ---------------- ---- 0 ----
0000003 -G-R------------ ---------------- ---- 0 ----
ok
tick 0000001
0000003 -G-R------------ ---------------- ---- 0 ----
";

/// What a call does in place of what was asked.
#[derive(Clone, Copy)]
enum Odd {
    Fails(ErrorKind),
    /// It gives or takes no byte.
    IsIdle,
}

const FAILURES: [Odd; 4] = [
    Odd::Fails(ErrorKind::Interrupted),
    Odd::Fails(ErrorKind::WouldBlock),
    Odd::Fails(ErrorKind::BrokenPipe),
    Odd::Fails(ErrorKind::OutOfMemory),
];

/// How many calls there are before the odd one, or that it has been.
#[derive(Clone, Copy)]
struct Count {
    left: Option<usize>,
    odd: Odd,
}

impl Count {
    /// This many calls before the odd one.
    fn of(calls: usize, odd: Odd) -> Count {
        Count {
            left: Some(calls),
            odd,
        }
    }

    /// None is odd.
    fn none() -> Count {
        Count {
            left: None,
            odd: Odd::IsIdle,
        }
    }

    /// Counts a call, and says what it does if it is the odd one.
    fn next(&mut self) -> Option<Odd> {
        match self.left {
            None => None,
            Some(0) => {
                self.left = None;
                Some(self.odd)
            }
            Some(calls) => {
                self.left = Some(calls - 1);
                None
            }
        }
    }
}

/// Gives its bytes in pieces.
#[derive(Drop)]
struct Pieces<'a> {
    left: &'a [u8],
    piece: usize,
    reads: Count,
}

impl Read for Pieces<'_> {
    fn read(&mut self, buf: &mut [u8]) -> io::Result<usize> {
        match self.reads.next() {
            Some(Odd::Fails(kind)) => return Err(io::Error::from(kind)),
            Some(Odd::IsIdle) => return Ok(0),
            None => {}
        }
        let count = self.piece.min(buf.len()).min(self.left.len());
        let (now, later) = self.left.split_at(count);
        buf[..count].copy_from_slice(now);
        self.left = later;
        Ok(count)
    }
}

/// Takes bytes in pieces, as far as they are those of `OUTPUT`.
#[derive(Drop)]
struct Taker {
    taken: usize,
    is_prefix: bool,
    piece: usize,
    writes: Count,
    flushes: Count,
}

impl Taker {
    /// One that takes this many bytes at a time.
    fn of(piece: usize) -> Taker {
        Taker {
            taken: 0,
            is_prefix: true,
            piece,
            writes: Count::none(),
            flushes: Count::none(),
        }
    }
}

impl Write for Taker {
    fn write(&mut self, buf: &[u8]) -> io::Result<usize> {
        match self.writes.next() {
            Some(Odd::Fails(kind)) => return Err(io::Error::from(kind)),
            Some(Odd::IsIdle) => return Ok(0),
            None => {}
        }
        let count = self.piece.min(buf.len());
        let wanted = &OUTPUT[self.taken.min(OUTPUT.len())..];
        self.is_prefix = self.is_prefix && wanted.starts_with(&buf[..count]);
        self.taken = self.taken.saturating_add(count);
        Ok(count)
    }

    fn flush(&mut self) -> io::Result<()> {
        match self.flushes.next() {
            Some(Odd::Fails(kind)) => Err(io::Error::from(kind)),
            _ => Ok(()),
        }
    }
}

/// Runs a session with the built-in plan of two phases and an empty log.
fn talk<R: Read, W: Write>(
    alloc: Global,
    reader: &mut R,
    writer: &mut W,
) -> Option<Result<(), SessionError>> {
    let plan = Checked::new(Plan::two()).ok()?;
    let mut reader = Watched::new(reader);
    let mut writer = Watched::new(writer);
    Some(session(
        alloc,
        plan,
        &Log::empty(alloc),
        true,
        &mut reader,
        &mut writer,
    ))
}

/// How many bytes the answers to these commands have, if `OUTPUT` begins with them.
fn answered(alloc: Global, commands: &[u8]) -> Option<usize> {
    let mut reader = commands;
    let mut writer = Taker::of(usize::MAX);
    match talk(alloc, &mut reader, &mut writer) {
        Some(Ok(())) if writer.is_prefix => Some(writer.taken),
        _ => None,
    }
}

/// The whole lines among the first bytes of the commands.
fn whole_lines(count: usize) -> &'static [u8] {
    let mut end = 0;
    for place in 0..count.min(INPUT.len()) {
        if INPUT[place] == b'\n' {
            end = place + 1;
        }
    }
    &INPUT[..end.min(INPUT.len())]
}

/// How a session went whose reader or writer is odd at one of its calls.
#[derive(Clone, Copy, PartialEq, Eq)]
enum Outcome {
    Right,
    /// The session was over before that call, with all answered.
    Over,
    Wrong,
}

/// `Right` or `Over` where all of it holds.
fn outcome_of(is_over: bool, holds: bool) -> Outcome {
    match (holds, is_over) {
        (true, true) => Outcome::Over,
        (true, false) => Outcome::Right,
        (false, _) => Outcome::Wrong,
    }
}

fn is_done(ended: &Option<Result<(), SessionError>>) -> bool {
    matches!(ended, Some(Ok(())))
}

fn is_read_fault(ended: &Option<Result<(), SessionError>>) -> bool {
    matches!(ended, Some(Err(SessionError::Read)))
}

fn is_write_fault(ended: &Option<Result<(), SessionError>>) -> bool {
    matches!(ended, Some(Err(SessionError::Write)))
}

/// The outcome of a session with a reader that fails after so many reads.
fn read_fails(alloc: Global, piece: usize, odd: Odd, calls: usize) -> Outcome {
    let read = calls.saturating_mul(piece).min(INPUT.len());
    let mut writer = Taker::of(usize::MAX);
    let mut reader = Pieces {
        left: INPUT,
        piece,
        reads: Count::of(calls, odd),
    };
    let ended = talk(alloc, &mut reader, &mut writer);
    if reader.reads.left.is_some() {
        return outcome_of(true, is_done(&ended));
    }
    let answers = writer.is_prefix && Some(writer.taken) == answered(alloc, whole_lines(read));
    let is_left = reader.left.len() == INPUT.len() - read;
    outcome_of(false, answers && is_left && is_read_fault(&ended))
}

/// Whether sessions go right whose reader fails, at each of its reads.
fn reads_fail(alloc: Global, piece: usize, odd: Odd) -> bool {
    for calls in 0..=INPUT.len() {
        match read_fails(alloc, piece, odd, calls) {
            Outcome::Right => {}
            Outcome::Over => break,
            Outcome::Wrong => return false,
        }
    }
    true
}

/// A reader fails at each of its reads. All lines that were read until then are answered, and nothing is read after it.
#[test]
fn a_read_that_fails_ends_a_session(rt: HostRuntime) {
    for piece in [1, 7, 4096] {
        for odd in FAILURES {
            assert!(rt; reads_fail(rt.alloc(), piece, odd));
        }
    }
}

/// Whether a session ends where its reader gives no byte, after so many reads.
fn ends_at(alloc: Global, calls: usize) -> bool {
    let mut writer = Taker::of(usize::MAX);
    let mut reader = Pieces {
        left: INPUT,
        piece: 1,
        reads: Count::of(calls, Odd::IsIdle),
    };
    let ended = talk(alloc, &mut reader, &mut writer);
    is_done(&ended) && reader.left.len().saturating_add(calls) == INPUT.len()
}

/// A reader gives no byte, at each of its reads: that is the end of the commands.
#[test]
fn a_read_of_nothing_is_the_end(rt: HostRuntime) {
    for calls in 0..=INPUT.len() {
        assert!(rt; ends_at(rt.alloc(), calls));
    }
}

/// The outcome of a session with a writer that is odd after so many writes.
fn write_fails(alloc: Global, piece: usize, odd: Odd, calls: usize) -> Outcome {
    let mut writer = Taker::of(piece);
    writer.writes = Count::of(calls, odd);
    let mut reader = INPUT;
    let ended = talk(alloc, &mut reader, &mut writer);
    if writer.writes.left.is_some() {
        let is_whole = writer.is_prefix && writer.taken == OUTPUT.len();
        return outcome_of(true, is_whole && is_done(&ended));
    }
    outcome_of(false, writer.is_prefix && is_write_fault(&ended))
}

/// Whether sessions go right whose writer is odd, at each of its writes.
fn writes_fail(alloc: Global, piece: usize, odd: Odd) -> bool {
    for calls in 0..=OUTPUT.len() {
        match write_fails(alloc, piece, odd, calls) {
            Outcome::Right => {}
            Outcome::Over => break,
            Outcome::Wrong => return false,
        }
    }
    true
}

/// A writer fails or takes no byte, at each of its writes. What it took is a prefix of the answers.
#[test]
fn a_write_that_fails_ends_a_session(rt: HostRuntime) {
    for piece in [1, 7, 4096] {
        for odd in FAILURES {
            assert!(rt; writes_fail(rt.alloc(), piece, odd));
        }
        assert!(rt; writes_fail(rt.alloc(), piece, Odd::IsIdle));
    }
}

/// The outcome of a session with a writer that fails after so many flushes.
fn flush_fails(alloc: Global, odd: Odd, calls: usize) -> Outcome {
    let mut writer = Taker::of(usize::MAX);
    writer.flushes = Count::of(calls, odd);
    let mut reader = Pieces {
        left: INPUT,
        piece: 1,
        reads: Count::none(),
    };
    let ended = talk(alloc, &mut reader, &mut writer);
    if writer.flushes.left.is_some() {
        let is_whole = writer.is_prefix && writer.taken == OUTPUT.len();
        return outcome_of(true, is_whole && is_done(&ended));
    }
    outcome_of(false, writer.is_prefix && is_write_fault(&ended))
}

/// Whether sessions go right whose writer fails, at each of its flushes.
fn flushes_fail(alloc: Global, odd: Odd) -> bool {
    for calls in 0..=2 * INPUT.len() {
        match flush_fails(alloc, odd, calls) {
            Outcome::Right => {}
            Outcome::Over => break,
            Outcome::Wrong => return false,
        }
    }
    true
}

/// A writer does not pass on what it took, at each of its flushes.
#[test]
fn a_flush_that_fails_ends_a_session(rt: HostRuntime) {
    for odd in FAILURES {
        assert!(rt; flushes_fail(rt.alloc(), odd));
    }
}
