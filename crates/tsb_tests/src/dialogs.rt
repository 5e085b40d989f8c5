//! Dialogs: readers and writers that work a byte at a time or fail, long lines and texts, and as much as may be read.

use std::alloc::Global;
use std::io::{self, ErrorKind, Read, Write};
use tsb_dialog::{Answers, DialogError, Flow, KEPT, LIMIT, Pending, Watched, WriteError, converse};
use tsb_lines::seven_digits;

/// Answers a line with its number, the line and this text. A line `over` ends the dialog.
#[derive(Drop)]
struct Echo<'a> {
    end: &'a [u8],
}

impl Answers for Echo<'_> {
    ghost State = { Unit {0} };

    ghost stands = { λ echo now. Unit {0} };

    ghost says = { λ now number line text flow left. Unit {0} };

    fn answer<W: Write>(
        &mut self,
        number: u32,
        line: &[u8],
        pending: &mut Pending,
        writer: &mut Watched<W>,
    ) -> Result<Flow, WriteError> {
        pending.say(writer, &seven_digits(number))?;
        pending.add(writer, line)?;
        pending.add(writer, self.end)?;
        if line == b"over".as_slice() {
            return Ok(Flow::Over);
        }
        Ok(Flow::On)
    }
}

/// Gives this many bytes at a time, and fails once it has given so many.
#[derive(Drop)]
struct Source<'a> {
    left: &'a [u8],
    piece: usize,
    good: usize,
}

impl<'a> Source<'a> {
    /// One that never fails.
    fn new(bytes: &'a [u8], piece: usize) -> Source<'a> {
        Source {
            left: bytes,
            piece,
            good: usize::MAX,
        }
    }
}

impl Read for Source<'_> {
    fn read(&mut self, buf: &mut [u8]) -> io::Result<usize> {
        if self.good == 0 {
            return Err(io::Error::from(ErrorKind::Interrupted));
        }
        let most = self.piece.min(self.good).min(buf.len());
        let count = most.min(self.left.len());
        let (now, later) = self.left.split_at(count);
        buf[..count].copy_from_slice(now);
        self.left = later;
        self.good -= count;
        Ok(count)
    }
}

/// What a writer does that takes no more.
#[derive(Clone, Copy)]
enum Full {
    Fails,
    TakesNothing,
}

/// Keeps what it takes, this many bytes at a time, and takes no more than so many.
#[derive(Drop)]
struct Sink {
    taken: Vec<u8>,
    piece: usize,
    room: usize,
    full: Full,
    flushes: bool,
}

impl Sink {
    /// One that never fails.
    fn new(alloc: Global, piece: usize) -> Sink {
        Sink {
            taken: Vec::new(alloc),
            piece,
            room: usize::MAX,
            full: Full::Fails,
            flushes: true,
        }
    }
}

impl Write for Sink {
    fn write(&mut self, buf: &[u8]) -> io::Result<usize> {
        let count = self.piece.min(self.room).min(buf.len());
        if count == 0 {
            return match self.full {
                Full::Fails => Err(io::Error::from(ErrorKind::BrokenPipe)),
                Full::TakesNothing => Ok(0),
            };
        }
        match self.taken.extend_from_slice(&buf[..count]) {
            Ok(()) => {
                self.room -= count;
                Ok(count)
            }
            Err(_) => Err(io::Error::from(ErrorKind::OutOfMemory)),
        }
    }

    fn flush(&mut self) -> io::Result<()> {
        if self.flushes {
            Ok(())
        } else {
            Err(io::Error::from(ErrorKind::BrokenPipe))
        }
    }
}

/// Four lines: one ends with a return, one is empty, and the last has no line feed.
const LINES: &[u8] = b"one\ntwo\r\n\nlast\r";

/// Their numbers, and they themselves without their ends. The last line is answered as it is.
const ECHOED: &[u8] = b"0000001\none\n0000002\ntwo\n0000003\n\n0000004\nlast\r\n";

/// How a dialog ends in which lines are echoed.
fn echo_lines(source: &mut Source, sink: &mut Sink, limit: usize) -> Result<(), DialogError> {
    let mut reader = Watched::new(source);
    let mut writer = Watched::new(sink);
    converse(
        &mut Echo { end: b"\n" },
        limit.min(LIMIT),
        &mut reader,
        &mut writer,
    )
}

/// Whether these lines are echoed so, by pieces of these lengths.
fn is_echoed(alloc: Global, pieces: (usize, usize), lines: &[u8], echoed: &[u8]) -> bool {
    let mut source = Source::new(lines, pieces.0);
    let mut sink = Sink::new(alloc, pieces.1);
    let is_done = echo_lines(&mut source, &mut sink, LIMIT) == Ok(());
    is_done && sink.taken.as_slice() == echoed && source.left.is_empty()
}

/// Lines are answered by their numbers, whatever the pieces of the reader and the writer.
#[test]
fn lines_are_answered(rt: HostRuntime) {
    for pieces in [(1, 1), (1, 5000), (5000, 1), (3, 2), (5000, 5000)] {
        assert!(rt; is_echoed(rt.alloc(), pieces, LINES, ECHOED));
    }
    for (lines, echoed) in [
        (b"".as_slice(), b"0000001\n\n".as_slice()),
        (b"one\n", b"0000001\none\n0000002\n\n"),
        (b"\r\r\n", b"0000001\n\r\n0000002\n\n"),
    ] {
        assert!(rt; is_echoed(rt.alloc(), (1, 1), lines, echoed));
    }
}

/// How many bytes are left after a line that ends the dialog, read by pieces of this length.
fn left_over(alloc: Global, piece: usize) -> Option<usize> {
    let mut source = Source::new(b"one\nover\nthree\n", piece);
    let mut sink = Sink::new(alloc, 5000);
    let ended = echo_lines(&mut source, &mut sink, LIMIT);
    let is_right = sink.taken.as_slice() == b"0000001\none\n0000002\nover\n".as_slice();
    (ended == Ok(()) && is_right).then_some(source.left.len())
}

/// A line ends a dialog, and nothing is read after the piece that has its line feed.
#[test]
fn a_line_ends_a_dialog(rt: HostRuntime) {
    for (piece, left) in [(1, 6), (5, 5), (9, 6), (5000, 0)] {
        assert!(rt;
            left_over(rt.alloc(), piece) == Some(left),
            "pieces of {piece}"
        );
    }
}

/// Whether all whole lines before a failed read are answered.
fn is_read_so_far(alloc: Global, piece: usize, good: usize, echoed: &[u8]) -> bool {
    let mut source = Source::new(LINES, piece);
    source.good = good;
    let mut sink = Sink::new(alloc, 1);
    let ended = echo_lines(&mut source, &mut sink, LIMIT);
    ended == Err(DialogError::Read) && sink.taken.as_slice() == echoed
}

/// A reader fails after so many bytes.
#[test]
fn a_read_fails(rt: HostRuntime) {
    let wanted = [
        (0..4, b"".as_slice()),
        (4..9, b"0000001\none\n"),
        (9..10, b"0000001\none\n0000002\ntwo\n"),
        (10..16, b"0000001\none\n0000002\ntwo\n0000003\n\n"),
    ];
    for (counts, echoed) in wanted {
        for good in counts {
            assert!(rt; is_read_so_far(rt.alloc(), 1, good, echoed), "after {good}");
            assert!(rt;
                is_read_so_far(rt.alloc(), 5000, good, echoed),
                "after {good}"
            );
        }
    }
}

/// Whether a writer that takes so many bytes was given the first ones of the answers.
fn is_written_so_far(alloc: Global, piece: usize, room: usize, full: Full) -> bool {
    let mut source = Source::new(LINES, 1);
    let mut sink = Sink::new(alloc, piece);
    sink.room = room;
    sink.full = full;
    let ended = echo_lines(&mut source, &mut sink, LIMIT);
    let wanted = if room < ECHOED.len() {
        Err(DialogError::Write)
    } else {
        Ok(())
    };
    ended == wanted && sink.taken.as_slice() == &ECHOED[..room.min(ECHOED.len())]
}

/// A writer fails, or takes nothing, after so many bytes.
#[test]
fn a_write_fails(rt: HostRuntime) {
    for room in 0..=ECHOED.len() {
        for piece in [1, 7, 5000] {
            assert!(rt;
                is_written_so_far(rt.alloc(), piece, room, Full::Fails),
                "after {room}"
            );
            assert!(rt;
                is_written_so_far(rt.alloc(), piece, room, Full::TakesNothing),
                "after {room}"
            );
        }
    }
}

/// Whether a writer that passes nothing on was given the first answer alone.
fn is_not_passed_on(alloc: Global) -> bool {
    let mut source = Source::new(LINES, 4);
    let mut sink = Sink::new(alloc, 1);
    sink.flushes = false;
    let ended = echo_lines(&mut source, &mut sink, LIMIT);
    ended == Err(DialogError::Write) && sink.taken.as_slice() == b"0000001\none\n".as_slice()
}

#[test]
fn a_flush_fails(rt: HostRuntime) {
    assert!(rt; is_not_passed_on(rt.alloc()));
}

/// Whether a line of this many bytes is answered as its first 202, as the first line and as the last.
fn is_cut(alloc: Global, count: usize) -> bool {
    let mut lines = [b'x'; 5001];
    let count = count.min(5000);
    lines[count] = b'\n';
    let (Some(ended), Some(last)) = (lines.get(..count + 1), lines.get(..count)) else {
        return false;
    };
    let kept = count.min(KEPT);
    let wanted = [b'x'; KEPT];
    let mut sink = Sink::new(alloc, 1);
    let is_done = echo_lines(&mut Source::new(ended, 1), &mut sink, LIMIT) == Ok(());
    let is_first = is_answer(&sink.taken, &wanted[..kept], b"0000002\n\n");
    let mut sink = Sink::new(alloc, 1);
    let is_last_done = echo_lines(&mut Source::new(last, 5000), &mut sink, LIMIT) == Ok(());
    is_done && is_first && is_last_done && is_answer(&sink.taken, &wanted[..kept], b"")
}

/// Whether this is the answer to the line with number 1, and this text after it.
fn is_answer(taken: &Vec<u8>, line: &[u8], after: &[u8]) -> bool {
    match taken.as_slice().strip_prefix(b"0000001\n") {
        Some(rest) => match rest.strip_prefix(line) {
            Some(rest) => rest.strip_prefix(b"\n") == Some(after),
            None => false,
        },
        None => false,
    }
}

/// A line keeps 202 bytes.
#[test]
fn long_lines_are_cut(rt: HostRuntime) {
    assert!(rt; KEPT == 202);
    for count in [201, 202, 203, 300, 5000] {
        assert!(rt; is_cut(rt.alloc(), count), "{count} bytes");
    }
}

/// How a dialog of `LINES` ends where this many bytes may be read, by pieces of this length; and how many of its bytes
/// were read.
fn limited(
    alloc: Global,
    limit: usize,
    piece: usize,
    echoed: &[u8],
) -> (Result<(), DialogError>, usize) {
    let mut source = Source::new(LINES, piece);
    let mut sink = Sink::new(alloc, 5000);
    let ended = echo_lines(&mut source, &mut sink, limit);
    let read = LINES.len() - source.left.len().min(LINES.len());
    if sink.taken.as_slice() == echoed {
        (ended, read)
    } else {
        (Err(DialogError::Write), read)
    }
}

/// `LINES` has 15 bytes. One byte is read past the most that may be; before a reader that gives one at a time all whole
/// lines within the limit are answered, and those of earlier pieces before another.
#[test]
fn as_much_is_read_as_may_be(rt: HostRuntime) {
    let three = b"0000001\none\n0000002\ntwo\n0000003\n\n".as_slice();
    let large = Err(DialogError::TooLarge);
    for (limit, piece, echoed, ended, read) in [
        (15, 1, ECHOED, Ok(()), 15),
        (15, 5000, ECHOED, Ok(()), 15),
        (14, 1, three, large, 15),
        (10, 1, three, large, 11),
        (9, 1, b"0000001\none\n0000002\ntwo\n", large, 10),
        (0, 1, b"", large, 1),
        (0, 5000, b"", large, 1),
    ] {
        let found = limited(rt.alloc(), limit, piece, echoed);
        assert!(rt; found == (ended, read), "{limit} bytes");
    }
}

/// Whether texts of 5,000 bytes are said whole, more than wait at once among them.
fn are_long_texts_said(alloc: Global, piece: usize) -> bool {
    let text = [b'y'; 5000];
    let mut source = Source::new(b"one\ntwo\nover\n", 5000);
    let mut sink = Sink::new(alloc, piece);
    let mut answers = Echo { end: &text };
    let mut reader = Watched::new(&mut source);
    let mut writer = Watched::new(&mut sink);
    let is_done = converse(&mut answers, LIMIT, &mut reader, &mut writer) == Ok(());
    let mut rest = sink.taken.as_slice();
    for head in [
        b"0000001\none".as_slice(),
        b"0000002\ntwo",
        b"0000003\nover",
    ] {
        let Some(after) = rest.strip_prefix(head) else {
            return false;
        };
        let Some(after) = after.strip_prefix(&text) else {
            return false;
        };
        rest = after;
    }
    is_done && rest.is_empty()
}

#[test]
fn long_texts_are_said(rt: HostRuntime) {
    for piece in [1, 4096, 100_000] {
        assert!(rt; are_long_texts_said(rt.alloc(), piece));
    }
}

/// Whether a read and whether a write has failed, and whether all was passed on, after a dialog with a reader that
/// gives so many bytes and a writer that takes so many.
fn seen_after(alloc: Global, good: usize, room: usize, flushes: bool) -> (bool, bool, bool) {
    let mut source = Source::new(LINES, 4);
    source.good = good;
    let mut sink = Sink::new(alloc, 1);
    sink.room = room;
    sink.flushes = flushes;
    let mut reader = Watched::new(source);
    let mut writer = Watched::new(sink);
    let _ = converse(&mut Echo { end: b"\n" }, LIMIT, &mut reader, &mut writer);
    (
        reader.has_failed(),
        writer.has_failed(),
        writer.is_flushed(),
    )
}

/// What became of the calls is seen at the end.
#[test]
fn the_device_that_failed_is_seen(rt: HostRuntime) {
    let all = usize::MAX;
    for (good, room, flushes, wanted) in [
        (all, all, true, (false, false, true)),
        (5, all, true, (true, false, true)),
        (all, 3, true, (false, true, false)),
        (all, all, false, (false, true, false)),
    ] {
        assert!(rt;
            seen_after(rt.alloc(), good, room, flushes) == wanted,
            "{good} {room}"
        );
    }
}

/// Whether a write has failed, and whether all was passed on, after a write of three bytes and a flush through the traits.
fn seen_by_traits(alloc: Global, room: usize, full: Full, flushes: bool) -> (bool, bool) {
    let mut sink = Sink::new(alloc, 5000);
    sink.room = room;
    sink.full = full;
    sink.flushes = flushes;
    let mut writer = Watched::new(sink);
    let _ = writer.write(b"one");
    let was_flushed = writer.is_flushed();
    let _ = writer.flush();
    (writer.has_failed(), !was_flushed && writer.is_flushed())
}

/// Calls through the traits are seen as well.
#[test]
fn calls_through_traits_are_seen(rt: HostRuntime) {
    for (room, full, flushes, wanted) in [
        (5, Full::Fails, true, (false, true)),
        (0, Full::Fails, true, (true, true)),
        (0, Full::TakesNothing, true, (true, true)),
        (5, Full::Fails, false, (true, false)),
    ] {
        assert!(rt;
            seen_by_traits(rt.alloc(), room, full, flushes) == wanted,
            "{room}"
        );
    }
    let mut source = Source::new(b"one", 2);
    source.good = 2;
    let mut reader = Watched::new(source);
    let mut room = [0; 4];
    assert!(rt; reader.read(&mut room).ok() == Some(2) && !reader.has_failed());
    assert!(rt; reader.read(&mut room).is_err() && reader.has_failed());
}
