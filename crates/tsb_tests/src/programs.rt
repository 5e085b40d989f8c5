//! What programs share: files and writers that fail, at each of their bytes.

use std::alloc::{AllocError, Global};
use std::io::{self, ErrorKind, Read, Write};
use tsb_log_text::LogError;
use tsb_program::{
    ExitStatus, FileCause, FileError, Files, ReadError, RefusedLog, Watched, line_of, log_of,
    read_file, tell, write_line,
};
use tsb_types::Row;

const ROW: &[u8] = b"0000100 0010010000000000 00000000 0000\n";

/// Its second row has the tick of the first.
const TWICE: &[u8] =
    b"0000100 0010010000000000 00000000 0000\n0000100 0000000000000000 00000000 0000\n";

const LINE: &[u8] = b"plan ok\n";

const STATUSES: [(ExitStatus, u8); 4] = [
    (ExitStatus::Done, 0),
    (ExitStatus::Refused, 1),
    (ExitStatus::BadWords, 2),
    (ExitStatus::Failed, 3),
];

/// Gives a text in pieces of this many bytes, and then ends or fails.
#[derive(Clone, Copy, Drop)]
struct Pieces {
    left: &'static [u8],
    piece: usize,
    end: Option<ErrorKind>,
}

impl Read for Pieces {
    fn read(&mut self, buf: &mut [u8]) -> io::Result<usize> {
        if let (true, Some(kind)) = (self.left.is_empty(), self.end) {
            return Err(io::Error::from(kind));
        }
        let count = self.piece.min(buf.len()).min(self.left.len());
        let (now, later) = self.left.split_at(count);
        buf[..count].copy_from_slice(now);
        self.left = later;
        Ok(count)
    }
}

/// Files that all have the same bytes, or none that opens.
#[derive(Drop)]
enum Shelf {
    Opens(Pieces),
    Fails(ErrorKind),
}

impl Files for Shelf {
    type Reader = Pieces;

    fn open(&self, _path: &str) -> io::Result<Pieces> {
        match self {
            Shelf::Opens(pieces) => Ok(*pieces),
            Shelf::Fails(kind) => Err(io::Error::from(*kind)),
        }
    }
}

/// Files with this text.
fn whole(left: &'static [u8], piece: usize) -> Shelf {
    let end = None;
    Shelf::Opens(Pieces { left, piece, end })
}

/// Files that fail after the last byte of this text.
fn torn(left: &'static [u8], kind: ErrorKind) -> Shelf {
    let end = Some(kind);
    let piece = 7;
    Shelf::Opens(Pieces { left, piece, end })
}

/// Whether these are the first bytes of a file, at most this many.
fn gives(alloc: Global, files: &Shelf, most: usize, wanted: &[u8]) -> bool {
    match read_file(alloc, files, "file", most) {
        Ok(read) => read.as_slice() == wanted,
        Err(_) => false,
    }
}

/// Whether a file gives neither bytes nor a log, for this fault.
fn fails(alloc: Global, files: &Shelf, fault: FileError) -> bool {
    let is_unread = matches!(read_file(alloc, files, "file", 1000), Err(it) if it == fault);
    is_unread && matches!(log_of(alloc, files, "file"), Err(ReadError::Failed(it)) if it == fault)
}

/// Whether a file is read to so many bytes, whatever its pieces, and what follows them is left alone.
fn is_read_to(alloc: Global, most: usize) -> bool {
    let wanted = &ROW[..most.min(ROW.len())];
    let failing = torn(wanted, ErrorKind::UnexpectedEof);
    gives(alloc, &whole(ROW, 1), most, wanted)
        && gives(alloc, &whole(ROW, 7), most, wanted)
        && gives(alloc, &whole(ROW, 4096), most, wanted)
        && (most > ROW.len() || gives(alloc, &failing, most, wanted))
}

/// A file is read to its end or to a number of bytes, whatever its pieces; what follows them is left alone.
#[test]
fn a_file_is_read_to_so_many_bytes(rt: HostRuntime) {
    for most in 0..ROW.len() + 2 {
        assert!(rt; is_read_to(rt.alloc(), most), "{most}");
    }
}

/// Whether a file has this fault where it fails after each of its bytes.
fn fails_at_each_byte(alloc: Global, kind: ErrorKind, fault: FileError) -> bool {
    for count in 0..=ROW.len() {
        if !fails(alloc, &torn(&ROW[..count], kind), fault) {
            return false;
        }
    }
    true
}

/// A file fails where it is opened, or after each of its bytes. A lack of memory is reported as such.
#[test]
fn a_file_that_fails_gives_its_fault(rt: HostRuntime) {
    for (kind, fault) in [
        (ErrorKind::NotFound, FileError::Read(FileCause::NoSuchFile)),
        (
            ErrorKind::PermissionDenied,
            FileError::Read(FileCause::NotPermitted),
        ),
        (ErrorKind::UnexpectedEof, FileError::Read(FileCause::Other)),
        (ErrorKind::OutOfMemory, FileError::Memory),
    ] {
        assert!(rt; fails(rt.alloc(), &Shelf::Fails(kind), fault));
        assert!(rt; fails_at_each_byte(rt.alloc(), kind, fault));
    }
}

/// Whether a file with a row gives its log.
fn gives_its_log(alloc: Global) -> bool {
    match log_of(alloc, &whole(ROW, 7), "log") {
        Ok(log) => {
            log.row(99, &mut 0) == Row::all_off() && log.row(100, &mut 0).vehicles.list() == 36
        }
        Err(_) => false,
    }
}

/// Whether a file whose second row has the tick of the first is refused.
fn is_refused(alloc: Global) -> bool {
    matches!(
        log_of(alloc, &whole(TWICE, 7), "log"),
        Err(ReadError::Refused(RefusedLog {
            why: LogError::TickOrder(2),
            clue: None
        }))
    )
}

#[test]
fn a_file_gives_a_log_or_its_fault(rt: HostRuntime) {
    assert!(rt; gives_its_log(rt.alloc()) && is_refused(rt.alloc()));
    let Ok(line) = line_of(rt.alloc(), LogError::TickOrder(2)) else {
        panic!(rt; "no line");
    };
    assert!(rt; line.as_str() == "log line 2: tick order\n");
}

/// Whether a file's fault is printed as this line, alone and as why the file gives no log.
fn is_printed(alloc: Global, fault: FileError, line: &str) -> bool {
    let why: ReadError<RefusedLog> = ReadError::Failed(fault);
    is_text(format!(in alloc; "{fault}"), line) && is_text(format!(in alloc; "{why}"), line)
}

/// Whether a text was made, and is this one.
fn is_text(made: Result<String, AllocError>, text: &str) -> bool {
    match made {
        Ok(made) => made.as_str() == text,
        Err(_) => false,
    }
}

/// A second line names the cause of a read that failed, with the name of the file.
#[test]
fn each_fault_of_a_file_is_printed_as_its_line(rt: HostRuntime) {
    let faults = [
        (FileError::Memory, "memory"),
        (FileError::Read(FileCause::NoSuchFile), "read fault"),
        (FileError::Read(FileCause::NotPermitted), "read fault"),
        (FileError::Read(FileCause::Folder), "read fault"),
        (FileError::Read(FileCause::Other), "read fault"),
    ];
    for (fault, line) in &faults {
        assert!(rt; is_printed(rt.alloc(), *fault, line));
    }
    let why = LogError::Malformed(3);
    let refused: ReadError<RefusedLog> = ReadError::Refused(RefusedLog { why, clue: None });
    assert!(rt; is_text(format!(in rt.alloc(); "{refused}"), "log line 3: malformed"));
}

/// Keeps what it takes until it is flushed, as a buffered writer does.
#[derive(Drop)]
struct Buffered {
    kept: Vec<u8>,
    passed_on: Vec<u8>,
}

impl Write for Buffered {
    fn write(&mut self, buf: &[u8]) -> io::Result<usize> {
        self.kept.write(buf)
    }

    fn flush(&mut self) -> io::Result<()> {
        self.passed_on.write_all(self.kept.as_slice())?;
        self.kept.clear();
        Ok(())
    }
}

/// A writer that has taken nothing.
fn nothing_taken(alloc: Global) -> Buffered {
    Buffered {
        kept: Vec::new(alloc),
        passed_on: Vec::new(alloc),
    }
}

/// Whether a line is passed on.
fn is_written(alloc: Global) -> bool {
    let mut output = Watched::new(nothing_taken(alloc));
    write_line(&mut output, LINE).is_ok() && output.device().passed_on.as_slice() == LINE
}

/// Whether a line is passed on with a status, which has this number.
fn is_told(alloc: Global, status: ExitStatus, number: u8) -> bool {
    let mut errors = Watched::new(nothing_taken(alloc));
    tell(&mut errors, status, LINE) == number && errors.device().passed_on.as_slice() == LINE
}

/// What a writer did not pass on is not written.
#[test]
fn a_line_is_passed_on(rt: HostRuntime) {
    assert!(rt; is_written(rt.alloc()));
    for (status, number) in STATUSES {
        assert!(rt; is_told(rt.alloc(), status, number));
    }
}

/// Takes this many bytes, and no more.
#[derive(Drop)]
struct Narrow {
    taken: Vec<u8>,
    room: usize,
}

impl Write for Narrow {
    fn write(&mut self, buf: &[u8]) -> io::Result<usize> {
        if self.room == 0 {
            return Err(io::Error::from(ErrorKind::BrokenPipe));
        }
        let count = buf.len().min(self.room).min(3);
        self.room -= count;
        self.taken.write(&buf[..count])
    }

    fn flush(&mut self) -> io::Result<()> {
        Ok(())
    }
}

/// Takes all bytes, and never passes them on.
#[derive(Drop)]
struct Stuck;

impl Write for Stuck {
    fn write(&mut self, buf: &[u8]) -> io::Result<usize> {
        Ok(buf.len())
    }

    fn flush(&mut self) -> io::Result<()> {
        Err(io::Error::from(ErrorKind::BrokenPipe))
    }
}

/// A writer that takes so many bytes.
fn with_room(alloc: Global, room: usize) -> Narrow {
    Narrow {
        taken: Vec::new(alloc),
        room,
    }
}

/// Whether a writer that takes so many bytes of a line has them, and the line is written only if those are all.
fn is_written_in_part(alloc: Global, room: usize) -> bool {
    let mut output = Watched::new(with_room(alloc, room));
    let is_whole = write_line(&mut output, LINE).is_ok();
    is_whole == (room == LINE.len())
        && output.device().taken.as_slice() == &LINE[..room.min(LINE.len())]
}

/// Whether a status has its number where its line is not written.
fn has_number(alloc: Global, status: ExitStatus, number: u8) -> bool {
    let mut errors = Watched::new(with_room(alloc, 3));
    tell(&mut errors, status, LINE) == number
        && tell(&mut Watched::new(Stuck), status, LINE) == number
}

/// Whether each status has its number there.
fn have_numbers(alloc: Global) -> bool {
    for (status, number) in &STATUSES {
        if !has_number(alloc, *status, *number) {
            return false;
        }
    }
    true
}

/// Where a line can't be written, its first bytes are, and only the status shows it.
#[test]
fn a_writer_that_fails_is_told_of(rt: HostRuntime) {
    for room in 0..=LINE.len() {
        assert!(rt; is_written_in_part(rt.alloc(), room), "{room}");
    }
    assert!(rt; write_line(&mut Watched::new(Stuck), LINE).is_err() && have_numbers(rt.alloc()));
}
