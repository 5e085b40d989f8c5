//! Where files come from.

ghost use Rattle.std.specs.Prelude.{◌≡◌, ◌≢◌, ℕ, List, Option, None, Result, IfErr, IfOk, true, ⊤};
ghost use Rattle.std.specs.Io.Take.{take_inner, take_limit};
ghost use Rattle.std.specs.IoError.{error_kind};
ghost use Rattle.std.specs.declared.io.Error.{Error};
ghost use Rattle.tsb_program.specs.Failures.{failure_of, failure_text};
ghost use Rattle.tsb_program.specs.Read.{IsBlamed, IsFront, file_fault};

use crate::failure::Failure;
use std::alloc::Global;
use std::fs::File;
use std::io::{self, ErrorKind, Read, Take};
use thiserror::Error;
use tsb_lines::Watched;

/// A source of files.
pub trait Files {
    /// An open file.
    type Reader: Read + Drop;

    // The bytes of the file at this path, where they are known.
    ghost bytes: { Self → List ℕ → Option (List ℕ) } = { λ _ _. None };

    // What may come of opening the file at this path.
    ghost may_open: { Self → List ℕ → Result Self.Reader Error → Type 0 } = { λ _ _ _. ⊤ };

    /// The file at this path, to be read.
    fn open(&self, path: &str) -> io::Result<Self::Reader>
        ensures bytes { IfOk result (λ reader. Self.Reader.remaining reader ≡ bytes self.now path.now) }
        ensures opened { may_open self.now path.now result };
}

/// The files of the machine.
#[derive(Drop)]
pub struct Disk<'a> {
    pub rt: &'a HostRuntime,
}

impl Files for Disk<'_> {
    type Reader = File;

    fn open(&self, path: &str) -> io::Result<File> {
        File::open(self.rt, path)
    }
}

/// What a machine says of a file that it does not open or read.
#[derive(Clone, Copy, Debug, PartialEq, Eq)]
pub enum FileCause {
    /// There is none of that name.
    NoSuchFile,
    /// It may not be read.
    NotPermitted,
    /// It is a folder.
    Folder,
    /// Anything else.
    Other,
}

/// Why a file was not read. Each is printed as the line of what failed: of a read a second line names the file and its
/// cause (`fail_file`).
#[derive(Clone, Copy, Debug, PartialEq, Eq, Error)]
#[error("{}", self.line())]
pub enum FileError {
    /// There was no memory for it.
    Memory,
    /// It could not be opened or read.
    Read(FileCause),
}

impl FileError {
    /// What failed.
    pub fn failure(self) -> Failure
        ensures { result ≡ failure_of self }
    {
        match self {
            FileError::Memory => Failure::Memory,
            FileError::Read(_) => Failure::Read,
        }
    }

    /// The line of what failed, without its end.
    pub fn line(&self) -> &'static str
        ensures { result.now ≡ failure_text (failure_of self.now) }
    {
        self.failure().line()
    }
}

impl From<io::Error> for FileError {
    ghost from_gives = { λ error fault. fault ≡ file_fault (error_kind error) };

    fn from(error: io::Error) -> FileError {
        match error.kind() {
            ErrorKind::OutOfMemory => FileError::Memory,
            ErrorKind::NotFound => FileError::Read(FileCause::NoSuchFile),
            ErrorKind::PermissionDenied => FileError::Read(FileCause::NotPermitted),
            ErrorKind::IsADirectory => FileError::Read(FileCause::Folder),
            _ => FileError::Read(FileCause::Other),
        }
    }
}

/// The first bytes of the file at this path, at most `most` of them. A fault of the file is that of opening it, or of a
/// read of it.
pub fn read_file<F: Files>(
    alloc: Global,
    files: &F,
    path: &str,
    most: usize,
) -> Result<Vec<u8>, FileError>
    ensures bytes { IfOk result (λ read. IsFront (F.bytes files.now path.now) most read.items) }
    ensures blame { IfErr result (IsBlamed (F.may_open files.now path.now)) }
{
    match files.open(path) {
        Ok(reader) => read_opened(alloc, &mut Watched::new(reader).take(most as u64)),
        Err(fault) => Err(FileError::from(fault)),
    }
}

/// What a file gives up to a limit. Reads that are interrupted are tried again.
fn read_opened<R: Read + Drop>(
    alloc: Global,
    file: &mut Take<Watched<R>>,
) -> Result<Vec<u8>, FileError>
    ensures bytes { IfOk result (λ read.
        IsFront (R.remaining (take_inner file.old).device) (take_limit file.old) read.items) }
    ensures blame { IfErr result (λ fault. fault ≢ FileError.Memory → (take_inner file.new).failed ≡ true) }
{
    let mut bytes = Vec::new(alloc);
    match file.read_to_end(&mut bytes) {
        Ok(_) => Ok(bytes),
        Err(fault) if file.get_ref().has_failed() => Err(FileError::from(fault)),
        Err(_) => Err(FileError::Memory),
    }
}
