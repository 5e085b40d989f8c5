//! What is kept of all that a session answers. Expected values are worked by hand from the rules.

use std::alloc::Global;
use std::io::{self, ErrorKind, Read, Write};
use tsb_field_display::{ReplayError, Shown, Signals, Watched, read_line, read_replay};

const RED: &[u8] = b"0000001 -R-R------------ -D-------------- R--- 0 ----";

const GREEN: &[u8] = b"0000002 -G-R------------ -W-------------- G--- 0 ----";

/// It shows the same as the green line before it.
const STILL_GREEN: &[u8] = b"0000003 -G-R------------ -W-------------- G--- 0 0010";

const YELLOW: &[u8] = b"0000004 -Y-R------------ -D-------------- Y--- 0 ----";

/// Lines that end with a line feed, or with a carriage return and a line feed, or with nothing, and other answers
/// between.
const ANSWERS: &[u8] = b"ok
0000001 -R-R------------ -D-------------- R--- 0 ----

0000002 -G-R------------ -W-------------- G--- 0 ----\r
refused E9 NoSuchPattern
tick 0000001
bad command\r
0000003 -G-R------------ -W-------------- G--- 0 0010
0000009 -F-R------------ -D-------------- Y--- 0 ---- and more behind the line
0000004 -Y-R------------ -D-------------- Y--- 0 ----";

/// What a call does in place of what was asked.
#[derive(Clone, Copy)]
enum Odd {
    Fails(ErrorKind),
    /// It gives no byte.
    IsIdle,
}

/// Gives its bytes in pieces. One of its reads may be odd, after so many others; those after it go on.
#[derive(Drop)]
struct Pieces<'a> {
    left: &'a [u8],
    piece: usize,
    odd: Option<(usize, Odd)>,
}

impl Read for Pieces<'_> {
    fn read(&mut self, buf: &mut [u8]) -> io::Result<usize> {
        match self.odd {
            None => {}
            Some((0, odd)) => {
                self.odd = None;
                return match odd {
                    Odd::Fails(kind) => Err(io::Error::from(kind)),
                    Odd::IsIdle => Ok(0),
                };
            }
            Some((calls, odd)) => self.odd = Some((calls - 1, odd)),
        }
        let count = self.piece.min(buf.len()).min(self.left.len());
        let (now, later) = self.left.split_at(count);
        buf[..count].copy_from_slice(now);
        self.left = later;
        Ok(count)
    }
}

/// What a line shows, at this tick.
fn at(tick: u32, line: &[u8]) -> Shown {
    Shown {
        tick,
        signals: match read_line(line, false) {
            Some(shown) => shown.signals,
            None => Signals::nothing_lit(),
        },
    }
}

/// Whether these changes, with this last tick, are kept of what a reader gives.
fn keeps<R: Read>(alloc: Global, reader: &mut R, changes: &[Shown], last: Option<u32>) -> bool {
    match read_replay(alloc, false, &mut Watched::new(reader)) {
        Ok(replay) => replay.changes() == changes && replay.last_tick() == last,
        Err(_) => false,
    }
}

/// What is kept of the answers.
fn of_answers() -> [Shown; 3] {
    [at(1, RED), at(2, GREEN), at(4, YELLOW)]
}

/// Whether it is kept, and the answers are read to their end.
fn keeps_the_answers(alloc: Global) -> bool {
    let mut reader = ANSWERS;
    keeps(alloc, &mut reader, &of_answers(), Some(4)) && reader.is_empty()
}

#[test]
fn display_lines_among_answers_are_kept(rt: HostRuntime) {
    assert!(rt; keeps_the_answers(rt.alloc()));
}

/// Whether nothing is kept of any of these answers.
fn keeps_nothing(alloc: Global, all: &[&[u8]]) -> bool {
    for answers in all {
        let mut reader = *answers;
        if !keeps(alloc, &mut reader, &[], None) {
            return false;
        }
    }
    true
}

#[test]
fn no_answer_leaves_no_line(rt: HostRuntime) {
    let others: [&[u8]; 5] = [b"", b"\n", b"\r\n\r\n", b"ok\nnothing", b"undone tick\r"];
    assert!(rt; keeps_nothing(rt.alloc(), &others));
}

/// Whether a line is among what a reader gives, or none where that can't be read.
fn has_line<R: Read>(alloc: Global, reader: &mut R) -> Option<bool> {
    let replay = read_replay(alloc, false, &mut Watched::new(reader)).ok()?;
    Some(replay.last_tick().is_some())
}

#[test]
fn one_return_is_no_part_of_a_line(rt: HostRuntime) {
    let ends: [(&[u8], bool); 10] = [
        (b"", true),
        (b"\n", true),
        (b"\r\n", true),
        (b"\r", true),
        (b"\r\r", false),
        (b"\r\r\n", false),
        (b"\r\r\r\n", false),
        (b" ", false),
        (b" \r\n", false),
        (b"\r \n", false),
    ];
    for (end, is_read) in ends {
        assert!(rt; has_line(rt.alloc(), &mut STILL_GREEN.chain(end)) == Some(is_read));
    }
}

#[test]
fn a_display_line_may_stand_behind_none(rt: HostRuntime) {
    let fronts: [(&[u8], bool); 4] = [
        (b"\n", true),
        (b"ok\n", true),
        (b"\r", false),
        (
            b"0000001 -R-R------------ -D-------------- R--- 0 ----",
            false,
        ),
    ];
    for (front, is_read) in fronts {
        assert!(rt; has_line(rt.alloc(), &mut front.chain(GREEN)) == Some(is_read));
    }
}

#[test]
fn lines_that_go_back_take_lines_back(rt: HostRuntime) {
    let mut reader: &[u8] = b"0000001 -R-R------------ -D-------------- R--- 0 ----
0000002 -G-R------------ -W-------------- G--- 0 ----
0000003 -Y-R------------ -D-------------- Y--- 0 ----
0000001 -R-R------------ -D-------------- R--- 0 ----
0000002 -R-R------------ -D-------------- R--- 0 ----
0000003 -G-R------------ -W-------------- G--- 0 ----
";
    let changes = [at(1, RED), at(3, GREEN)];
    assert!(rt; keeps(rt.alloc(), &mut reader, &changes, Some(3)));
}

/// Whether a line of so many bytes between two display lines is skipped.
fn skips_between(alloc: Global, length: u64) -> bool {
    let mut reader = RED
        .chain(b"\n".as_slice())
        .chain(io::repeat(b'-').take(length))
        .chain(b"\n".as_slice())
        .chain(YELLOW);
    keeps(alloc, &mut reader, &[at(1, RED), at(4, YELLOW)], Some(4))
}

/// Whether a display line with so many more bytes is no display line.
fn skips_behind(alloc: Global, length: u64) -> bool {
    let mut reader = RED.chain(io::repeat(b'-').take(length));
    keeps(alloc, &mut reader, &[], None)
}

/// A line that is longer than one read, and than all that is held of a line.
#[test]
fn a_long_line_is_skipped(rt: HostRuntime) {
    for length in [1, 54, 55, 56, 4096, 10_000] {
        assert!(rt; skips_between(rt.alloc(), length) && skips_behind(rt.alloc(), length));
    }
}

/// Whether the answers are kept where they come in such pieces.
fn keeps_pieces(alloc: Global, piece: usize) -> bool {
    let mut reader = Pieces {
        left: ANSWERS,
        piece,
        odd: None,
    };
    keeps(alloc, &mut reader, &of_answers(), Some(4)) && reader.left.is_empty()
}

#[test]
fn pieces_are_read_as_the_whole(rt: HostRuntime) {
    for piece in [1, 2, 7, 53, 54, 4096] {
        assert!(rt; keeps_pieces(rt.alloc(), piece));
    }
}

/// Answers, with a reader that is odd after so many reads of a byte.
fn odd_after(calls: usize, odd: Odd) -> Pieces<'static> {
    Pieces {
        left: ANSWERS,
        piece: 1,
        odd: Some((calls, odd)),
    }
}

/// Whether a reader that fails after so many reads ends the reading there.
fn ends_the_reading(alloc: Global, calls: usize, kind: ErrorKind) -> bool {
    let mut reader = odd_after(calls, Odd::Fails(kind));
    matches!(
        read_replay(alloc, false, &mut Watched::new(&mut reader)),
        Err(ReplayError::Read)
    ) && reader.left.len().saturating_add(calls) == ANSWERS.len()
}

/// A reader fails at each of its reads, and nothing is read after it.
#[test]
fn a_read_that_fails_ends_the_reading(rt: HostRuntime) {
    for kind in [
        ErrorKind::Interrupted,
        ErrorKind::WouldBlock,
        ErrorKind::BrokenPipe,
        ErrorKind::OutOfMemory,
    ] {
        for calls in 0..=ANSWERS.len() {
            assert!(rt; ends_the_reading(rt.alloc(), calls, kind));
        }
    }
}

/// Whether a reader that gives no byte after so many reads ends the answers there.
fn ends_the_answers(alloc: Global, calls: usize) -> bool {
    let mut front = &ANSWERS[..calls.min(ANSWERS.len())];
    let mut reader = odd_after(calls, Odd::IsIdle);
    match read_replay(alloc, false, &mut Watched::new(&mut front)) {
        Ok(whole) => {
            keeps(alloc, &mut reader, whole.changes(), whole.last_tick())
                && reader.left.len().saturating_add(calls) == ANSWERS.len()
        }
        Err(_) => false,
    }
}

/// A reader gives no byte, at each of its reads: that is the end of the answers.
#[test]
fn a_read_of_nothing_is_the_end(rt: HostRuntime) {
    for calls in 0..=ANSWERS.len() {
        assert!(rt; ends_the_answers(rt.alloc(), calls));
    }
}

/// Whether this is what the fault prints.
fn prints(alloc: Global, fault: ReplayError, text: &str) -> bool {
    let mut line = Vec::new(alloc);
    write!(line, "{fault}").is_ok() && line.as_slice() == text.as_bytes()
}

#[test]
fn faults_have_texts(rt: HostRuntime) {
    assert!(rt;
        prints(rt.alloc(), ReplayError::Memory, "memory")
            && prints(rt.alloc(), ReplayError::Read, "read fault")
    );
}
