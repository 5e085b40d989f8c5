//! Files that are read, and what they give.
ghost use Rattle.std.specs.Prelude.{◌≡◌, IfErr, Some, vec_items};
ghost use Rattle.tsb_program.specs.Lines.{refused_log};
ghost use Rattle.tsb_program.specs.Read.{BlamesFile, LogIn, LogRead, PlanFound, PlanIn, PlanPlaced, PlanRead, clue_of, log_made, placed, plan_made};

use crate::clue::{LogClue, PlanClue, log_clue, log_clue_text, plan_clue};
use crate::files::{FileError, Files, read_file};
use std::alloc::Global;
use std::fmt::{self, Display};
use thiserror::Error;
use tsb_log_text::{LIMIT, Log, LogError, read_log};
use tsb_objects::Checked;
use tsb_plan_text::{LIMIT as PLAN_LIMIT, PlanError, read_plan};

/// Why a file gives nothing. Each is printed as what it has is.
#[derive(Debug, Drop, Error)]
#[error_bound(T: Display)]
pub enum ReadError<T> {
    /// It was not read, or there was no memory for it.
    #[error(transparent)]
    Failed(FileError),
    /// It was refused.
    #[error(transparent)]
    Refused(T),
}

/// Why the text of an input log is refused, and what a second line says of it. It is printed as both lines.
#[derive(Clone, Copy, Debug)]
pub struct RefusedLog {
    pub why: LogError,
    /// `None` where the fault says all there is to say.
    pub clue: Option<LogClue>,
}

impl Display for RefusedLog {
    ghost output = { λ refused. Some (refused_log refused) };

    fn fmt<W: fmt::Write>(&self, f: &mut fmt::Formatter<W>) -> fmt::Result {
        match self.clue {
            None => write!(f, "{}", self.why.line()),
            Some(clue) => write!(f, "{}\n{}", self.why.line(), log_clue_text(clue)),
        }
    }
}

/// Why a file gives no plan, and what a second line says of its text.
#[derive(Drop)]
pub struct PlanFault {
    pub why: ReadError<PlanError>,
    /// `None` where the fault says all there is to say, or where there is no text.
    pub clue: Option<PlanClue>,
}

/// The log in the file at this path. Where it is too large, one byte more than the longest log has is read.
pub fn log_of<F: Files>(alloc: Global, files: &F, path: &str) -> Result<Log, ReadError<RefusedLog>>
    ensures read { LogRead result (F.bytes files.now path.now) }
    ensures blame { IfErr result (BlamesFile (F.may_open files.now path.now)) }
{
    log_in(alloc, read_file(alloc, files, path, LIMIT + 1))
}

/// The log in what was read of a file.
fn log_in(alloc: Global, read: Result<Vec<u8>, FileError>) -> Result<Log, ReadError<RefusedLog>>
    ensures { LogIn vec_items read result }
{
    match read {
        Ok(text) => log_made(read_log(alloc, &text), &text),
        Err(fault) => Err(ReadError::Failed(fault)),
    }
}

/// What reading a log's text gave, with what a second line says of the text.
fn log_made(answer: Result<Log, LogError>, text: &[u8]) -> Result<Log, ReadError<RefusedLog>>
    ensures { result ≡ log_made answer text.now }
{
    match answer {
        Ok(log) => Ok(log),
        Err(LogError::Memory) => Err(ReadError::Failed(FileError::Memory)),
        Err(why) => {
            let clue = log_clue(&why, text);
            Err(ReadError::Refused(RefusedLog { why, clue }))
        }
    }
}

/// The plan in the file at this path. Where it is too large, one byte more than the longest plan has is read.
pub fn plan_of<F: Files>(
    alloc: Global,
    files: &F,
    path: &str,
) -> Result<Checked, ReadError<PlanError>>
    ensures read { PlanRead result (F.bytes files.now path.now) }
    ensures blame { IfErr result (BlamesFile (F.may_open files.now path.now)) }
{
    plan_in(alloc, read_file(alloc, files, path, PLAN_LIMIT + 1))
}

/// The plan in what was read of a file.
fn plan_in(alloc: Global, read: Result<Vec<u8>, FileError>) -> Result<Checked, ReadError<PlanError>>
    ensures { PlanIn vec_items read result }
{
    match read {
        Ok(text) => plan_made(read_plan(alloc, &text)),
        Err(fault) => Err(ReadError::Failed(fault)),
    }
}

/// What reading a plan's text gave.
fn plan_made(answer: Result<Checked, PlanError>) -> Result<Checked, ReadError<PlanError>>
    ensures { result ≡ plan_made answer }
{
    match answer {
        Ok(plan) => Ok(plan),
        Err(PlanError::Memory) => Err(ReadError::Failed(FileError::Memory)),
        Err(fault) => Err(ReadError::Refused(fault)),
    }
}

/// The plan in the file at this path, as `plan_of` gives it, or why there is none and what its text looks like.
pub fn plan_or_place<F: Files>(alloc: Global, files: &F, path: &str) -> Result<Checked, PlanFault>
    ensures read { PlanFound result (F.bytes files.now path.now) }
    ensures blame { IfErr result (λ fault. BlamesFile (F.may_open files.now path.now) fault.why) }
{
    plan_placed(alloc, read_file(alloc, files, path, PLAN_LIMIT + 1))
}

/// The plan in what was read of a file, or why there is none.
fn plan_placed(alloc: Global, read: Result<Vec<u8>, FileError>) -> Result<Checked, PlanFault>
    ensures { PlanPlaced vec_items read result }
{
    match read {
        Ok(text) => placed(plan_made(read_plan(alloc, &text)), &text),
        Err(fault) => Err(PlanFault {
            why: ReadError::Failed(fault),
            clue: None,
        }),
    }
}

/// What a text gave, with what a second line says of it.
fn placed(found: Result<Checked, ReadError<PlanError>>, text: &[u8]) -> Result<Checked, PlanFault>
    ensures { result ≡ placed found text.now }
{
    match found {
        Ok(plan) => Ok(plan),
        Err(why) => {
            let clue = clue_of(&why, text);
            Err(PlanFault { why, clue })
        }
    }
}

/// What a second line says of a text that is refused.
fn clue_of(why: &ReadError<PlanError>, text: &[u8]) -> Option<PlanClue>
    ensures { result ≡ clue_of why.now text.now }
{
    match why {
        ReadError::Refused(fault) => plan_clue(fault, text),
        ReadError::Failed(_) => None,
    }
}
