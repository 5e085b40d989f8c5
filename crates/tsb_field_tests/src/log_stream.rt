//! Streams of events and the logs that are written from them. Expected values are worked by hand from the rules.

use std::alloc::Global;
use std::io::{self, ErrorKind, Read, Write};
use tsb_event_text::{Column, Moment, RowFault, SHOWN, ShownField, read_moment};
use tsb_field_display::Watched;
use tsb_field_log::{InputKind, Wire};
use tsb_field_streams::{Disorder, FilterError, LeftOut, RowOptions, Summary};

/// Gives a text in pieces of this many bytes, and may fail after its last.
#[derive(Drop)]
struct Pieces {
    left: &'static [u8],
    most: usize,
    end: Option<ErrorKind>,
}

impl Read for Pieces {
    fn read(&mut self, buf: &mut [u8]) -> io::Result<usize> {
        if self.left.is_empty() {
            return match self.end {
                Some(kind) => Err(io::Error::from(kind)),
                None => Ok(0),
            };
        }
        let count = buf.len().min(self.left.len()).min(self.most);
        buf[..count].copy_from_slice(&self.left[..count]);
        self.left = &self.left[count..];
        Ok(count)
    }
}

/// Keeps this many bytes, and then fails.
#[derive(Drop)]
struct Narrow {
    taken: Vec<u8>,
    room: usize,
}

impl Write for Narrow {
    fn write(&mut self, buf: &[u8]) -> io::Result<usize> {
        if self.room == 0 {
            return Err(io::Error::from(ErrorKind::BrokenPipe));
        }
        let count = buf.len().min(self.room).min(7);
        self.room -= count;
        self.taken.write(&buf[..count])
    }

    fn flush(&mut self) -> io::Result<()> {
        Ok(())
    }
}

/// Takes all bytes, and never passes them on.
#[derive(Drop)]
struct Stuck;

impl Write for Stuck {
    fn write(&mut self, buf: &[u8]) -> io::Result<usize> {
        Ok(buf.len())
    }

    fn flush(&mut self) -> io::Result<()> {
        Err(io::Error::from(ErrorKind::BrokenPipe))
    }
}

/// 07:00:00 of a day.
fn begin() -> Moment {
    match read_moment(b"2026-11-22 07:00:00") {
        Some(moment) => moment,
        None => Moment { nanos: 0 },
    }
}

/// How rows are read where words say no more than when tick 1 begins.
fn usual() -> RowOptions {
    RowOptions {
        from: begin(),
        times: None,
        zone: None,
        window: None,
    }
}

fn whole(text: &'static [u8]) -> Pieces {
    Pieces {
        left: text,
        most: usize::MAX,
        end: None,
    }
}

/// Reads events up to their end, and writes their log, by devices that are watched.
fn log<R: Read, W: Write>(
    alloc: Global,
    reading: RowOptions,
    device: Option<&[u8]>,
    mapped: &[Wire],
    reader: &mut R,
    writer: &mut W,
) -> Result<Summary, FilterError> {
    let mut input = Watched::new(reader);
    let mut output = Watched::new(writer);
    tsb_field_streams::log(alloc, reading, device, mapped, &mut input, &mut output)
}

/// What is written for a text, and how it ends.
fn written(
    alloc: Global,
    device: Option<&[u8]>,
    mapped: &[Wire],
    mut reader: Pieces,
) -> (Vec<u8>, Result<Summary, FilterError>) {
    let mut text = Vec::new(alloc);
    let ended = log(alloc, usual(), device, mapped, &mut reader, &mut text);
    (text, ended)
}

/// Whether nothing was left out.
fn is_whole(left_out: LeftOut) -> bool {
    left_out.of_other_devices == 0 && left_out.without_input == 0 && left_out.passed == 0
}

/// Whether a text gives this log, with nothing left out.
fn gives(alloc: Global, reader: Pieces, wanted: &[u8]) -> bool {
    let (text, ended) = written(alloc, None, &[], reader);
    match ended {
        Ok(summary) => text.as_slice() == wanted && is_whole(summary.left_out),
        Err(_) => false,
    }
}

/// Whether a text ends with this fault, and this much written.
fn ends(alloc: Global, reader: Pieces, wanted: &[u8], fault: FilterError) -> bool {
    let (text, ended) = written(alloc, None, &[], reader);
    text.as_slice() == wanted && ended == Err(fault)
}

/// Detector 2 from tick 11 to 20, detector 3 in tick 31.
const EVENTS: &[u8] = b"SignalID,Timestamp,EventCode,EventParam
7,2026-11-22 07:00:01.0,82,2
7,2026-11-22 07:00:02.0,81,2
7,2026-11-22 07:00:03.0,82,3
7,2026-11-22 07:00:03.0,81,3
";

const LOG: &[u8] = b"0000011 0100000000000000 00000000 0000
0000021 0000000000000000 00000000 0000
0000031 0010000000000000 00000000 0000
0000032 0000000000000000 00000000 0000
";

/// Whether a text in pieces of this many bytes gives the log of the events.
fn gives_in_pieces(alloc: Global, most: usize) -> bool {
    let reader = Pieces {
        left: EVENTS,
        most,
        end: None,
    };
    gives(alloc, reader, LOG)
}

#[test]
fn pieces_of_any_size_give_one_log(rt: HostRuntime) {
    for most in [1, 2, 3, 7, 39, 4096] {
        assert!(rt; gives_in_pieces(rt.alloc(), most), "{most}");
    }
}

/// The log of detector 1 on from tick 1.
const ON: &[u8] = b"0000001 1000000000000000 00000000 0000\n";

/// Texts that give that log. After the first line a mark is a part of the device's name.
const OF_ON: [&[u8]; 7] = [
    b"7,2026-11-22 07:00:00,82,1",
    b"7,2026-11-22 07:00:00,82,1\n",
    b"7,2026-11-22 07:00:00,82,1\r\n",
    b"\xef\xbb\xbf7,2026-11-22 07:00:00,82,1\n",
    b"\n\n# a remark\n  \n7,2026-11-22T07:00:00,82,1\n\n",
    b"\xef\xbb\xbf\r\n7,2026-11-22 07:00:00,82,1\n",
    b"\n\xef\xbb\xbf7,2026-11-22 07:00:00,82,1\n",
];

/// A field of at most 40 bytes, as a fault shows it.
fn shown(field: &[u8]) -> ShownField {
    let mut bytes = [b' '; SHOWN];
    bytes[..field.len()].copy_from_slice(field);
    ShownField {
        bytes,
        count: field.len(),
    }
}

/// Whether all the texts give the log.
fn all_give(alloc: Global, texts: &[&'static [u8]], wanted: &[u8]) -> bool {
    for text in texts {
        if !gives(alloc, whole(text), wanted) {
            return false;
        }
    }
    true
}

#[test]
fn lines_end_as_lines_do(rt: HostRuntime) {
    assert!(rt; all_give(rt.alloc(), &OF_ON, ON) && gives(rt.alloc(), whole(b""), b""));
    // A return at the end of a last line without a line feed is a byte of the line.
    let text = b"7,2026-11-22 07:00:00,82,1\r".as_slice();
    let fault = RowFault::NoNumber(Column::Parameter, shown(b"1\r"));
    assert!(rt;
        ends(
            rt.alloc(),
            whole(text),
            b"",
            FilterError::Malformed(1, fault)
        )
    );
}

/// A remark of this many bytes, with this end, and then a row.
fn remark(alloc: Global, length: usize, end: &[u8]) -> Vec<u8> {
    let mut text = Vec::new(alloc);
    let _ = text.resize(length, b'#');
    let _ = text.extend_from_slice(end);
    let _ = text.extend_from_slice(b"7,2026-11-22 07:00:00,82,1\n");
    text
}

/// Whether the row after a remark of this many bytes is read, or the remark is too long.
fn remark_is_read(alloc: Global, length: usize, end: &[u8]) -> Option<bool> {
    let text = remark(alloc, length, end);
    let mut reader = text.as_slice();
    let mut out = Vec::new(alloc);
    match log_of(alloc, &mut reader, &mut out) {
        Ok(_) if out.as_slice() == ON => Some(true),
        Err(FilterError::LongLine(1)) if out.is_empty() => Some(false),
        _ => None,
    }
}

#[test]
fn lines_have_1000_bytes_at_most(rt: HostRuntime) {
    for length in [999, 1000, 1001, 1002, 5000] {
        let wanted = Some(length <= 1000);
        assert!(rt;
            remark_is_read(rt.alloc(), length, b"\n") == wanted,
            "{length}"
        );
        assert!(rt;
            remark_is_read(rt.alloc(), length, b"\r\n") == wanted,
            "{length}"
        );
    }
}

fn log_of<R: Read, W: Write>(
    alloc: Global,
    reader: &mut R,
    writer: &mut W,
) -> Result<Summary, FilterError> {
    log(alloc, usual(), None, &[], reader, writer)
}

/// Whether a text whose first row alone is known ends with this fault.
fn ends_after_a_row(alloc: Global, text: &'static [u8], fault: FilterError) -> bool {
    let known = b"0000011 0100000000000000 00000000 0000\n".as_slice();
    ends(alloc, whole(text), known, fault)
}

/// Whether what is known before a fault is written.
fn is_written_before_faults(alloc: Global) -> bool {
    ends_after_a_row(
        alloc,
        b"7,2026-11-22 07:00:01,82,2\n7,2026-11-22 07:00:02,81,2\n7,2026-11-22 07:00:01,82,2\n",
        FilterError::TimeOrder(Disorder {
            line: 3,
            moment: begin().nanos + 1_000_000_000,
            last: begin().nanos + 2_000_000_000,
            column: 1,
            within: None,
        }),
    ) && ends_after_a_row(
        alloc,
        b"7,2026-11-22 07:00:01,82,2\n7,2026-11-22 07:00:02,81,2\n7,2026-12-22 07:00:01,82,2\n",
        FilterError::PastEnd,
    ) && ends_after_a_row(
        alloc,
        b"7,2026-11-22 07:00:01,82,2\n7,2026-11-22 07:00:02,81,2\n7,2026-11-22 07:00:02,81",
        FilterError::Malformed(3, RowFault::Missing(Column::Parameter)),
    )
}

/// Whether a text gives this log where rows may be so many seconds late.
fn sorts(alloc: Global, seconds: u32, text: &'static [u8], wanted: &[u8]) -> bool {
    let mut reading = usual();
    reading.window = Some(seconds);
    let mut log_text = Vec::new(alloc);
    match log(alloc, reading, None, &[], &mut whole(text), &mut log_text) {
        Ok(summary) => is_whole(summary.left_out) && log_text.as_slice() == wanted,
        Err(_) => false,
    }
}

/// How a text ends where rows may be so many seconds late.
fn sorted_end(alloc: Global, seconds: u32, text: &'static [u8]) -> Option<FilterError> {
    let mut reading = usual();
    reading.window = Some(seconds);
    let mut log_text = Vec::new(alloc);
    match log(alloc, reading, None, &[], &mut whole(text), &mut log_text) {
        Ok(_) => None,
        Err(error) => Some(error),
    }
}

/// A car on detector 2, told 2 s late, from tick 11 to tick 30.
const LATE_CAR: &[u8] = b"7,2026-11-22 07:00:03,81,2\n7,2026-11-22 07:00:01,82,2\n";

#[test]
fn rows_are_sorted_within_a_window(rt: HostRuntime) {
    let wanted =
        b"0000011 0100000000000000 00000000 0000\n0000031 0000000000000000 00000000 0000\n";
    assert!(rt; sorts(rt.alloc(), 2, LATE_CAR, wanted));
    assert!(rt; sorts(rt.alloc(), 3600, LATE_CAR, wanted));
    assert!(rt;
        sorted_end(rt.alloc(), 1, LATE_CAR)
            == Some(FilterError::TimeOrder(Disorder {
                line: 2,
                moment: begin().nanos + 1_000_000_000,
                last: begin().nanos + 3_000_000_000,
                column: 1,
                within: Some(1),
            }))
    );
}

#[test]
fn what_is_known_before_a_fault_is_written(rt: HostRuntime) {
    assert!(rt; is_written_before_faults(rt.alloc()));
}

/// Whether what is known before a read fails so is written.
fn is_written_before_a_failure(alloc: Global, kind: ErrorKind) -> bool {
    let reader = Pieces {
        left: b"7,2026-11-22 07:00:01,82,2\n7,2026-11-22 07:00:02,81,2\n7,2026",
        most: 5,
        end: Some(kind),
    };
    let known = b"0000011 0100000000000000 00000000 0000\n".as_slice();
    ends(alloc, reader, known, FilterError::Read)
}

#[test]
fn a_read_that_fails_ends_it(rt: HostRuntime) {
    assert!(rt;
        is_written_before_a_failure(rt.alloc(), ErrorKind::UnexpectedEof)
            && is_written_before_a_failure(rt.alloc(), ErrorKind::Interrupted)
    );
}

/// Whether a writer that fails after so many bytes has those of the log.
fn leaves_a_prefix(alloc: Global, room: usize) -> bool {
    let mut writer = Narrow {
        taken: Vec::new(alloc),
        room,
    };
    let ended = log_of(alloc, &mut whole(EVENTS), &mut writer);
    ended == Err(FilterError::Write) && writer.taken.as_slice() == &LOG[..room.min(LOG.len())]
}

#[test]
fn a_write_that_fails_leaves_a_prefix(rt: HostRuntime) {
    for room in 0..LOG.len() {
        assert!(rt; leaves_a_prefix(rt.alloc(), room), "{room}");
    }
    assert!(rt; log_of(rt.alloc(), &mut whole(EVENTS), &mut Stuck) == Err(FilterError::Write));
}

/// Whether the events of device 7 and this wire give the log, with so much left out.
fn gives_with_left_out(
    alloc: Global,
    wire: Wire,
    text: &'static [u8],
    wanted: &[u8],
    left_out: LeftOut,
) -> bool {
    let (out, ended) = written(alloc, Some(b"7"), &[wire], whole(text));
    match ended {
        Ok(summary) => out.as_slice() == wanted && summary.left_out == left_out,
        Err(_) => false,
    }
}

#[test]
fn what_is_left_out_is_counted(rt: HostRuntime) {
    let text =
        b"7,2026-11-22 07:00:00,82,40\n8,2026-11-22 07:00:00,82,1\n7,2026-11-22 07:00:00,82,17\n7,2026-11-22 07:00:00,1,2\n".as_slice();
    let wire = Wire {
        kind: InputKind::Vehicle,
        channel: 40,
        input: 5,
    };
    let log = b"0000001 0000100000000000 00000000 0000\n".as_slice();
    let counted = LeftOut {
        of_other_devices: 1,
        without_input: 1,
        passed: 0,
        found: true,
    };
    assert!(rt; gives_with_left_out(rt.alloc(), wire, text, log, counted));
}
