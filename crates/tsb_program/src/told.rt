//! Second lines: what is said of a plan's text, and which file was not read.
ghost use Rattle.std.specs.Prelude.{◌≡◌, ◌++◌, ◌≤◌, length, IfOk, OnErr, OnOk, true};
ghost use Rattle.tsb_lines.specs.Writes.{AppendsFront};
ghost use Rattle.tsb_program.specs.Clues.{plan_clue_line};
ghost use Rattle.tsb_program.specs.Told.{cause_text, file_line, plan_lines, shown};
ghost use Rattle.tsb_lines.specs.Seen.{GoesOut, seen};

use crate::clue::{PlanClue, plan_clue};
use crate::files::FileCause;
use crate::lines::{line_of, write_line};
use arrayvec::ArrayVec;
use std::alloc::{AllocError, Global};
use std::io::Write;
use tsb_lines::{ShortLine, Watched, WriteError};
use tsb_plan_notes::{TOLD, place_text};
use tsb_plan_text::PlanError;
use tsb_words::shown::safe;

/// How many bytes of the name of a file are told at most.
const SHOWN: usize = 200;

/// The greatest length of the line of a file, in bytes.
const FILE_LINE: usize = 240;

/// The greatest length of the line of a place, in bytes, or of another second line of a plan.
const PLACE_LINE: usize = TOLD + 6;

/// The line of a fault of a plan with this text, and a second line with what is said of the text, if something is. The
/// error is that memory ran out.
pub fn plan_lines(alloc: Global, fault: PlanError, text: &[u8]) -> Result<Vec<u8>, AllocError>
    ensures { IfOk result (λ lines. lines.items ≡ plan_lines fault text.now) }
{
    let clue = plan_clue(&fault, text);
    let line = line_of(alloc, fault.line())?;
    let mut lines = Vec::new(alloc);
    lines.extend_from_slice(line.as_bytes())?;
    lines.extend_from_slice(plan_clue_line(clue).as_bytes())?;
    Ok(lines)
}

/// Writes two texts, and has the writer pass them on. At an error the first bytes of both may have gone out.
pub(crate) fn write_both<W: Write>(
    writer: &mut Watched<W>,
    first: &[u8],
    second: &[u8],
) -> Result<(), WriteError>
    ensures whole { OnOk result (GoesOut (seen W.contents writer.old) (seen W.contents writer.new) (first.now ++ second.now)) }
    ensures front { AppendsFront (W.contents writer.old.device) (W.contents writer.new.device) (first.now ++ second.now) }
    ensures blame { OnErr result (writer.new.failed ≡ true) }
{
    match writer.write_text(first) {
        Ok(()) => write_line(writer, second),
        Err(fault) => Err(fault),
    }
}

/// The line of a file that was not read.
pub(crate) fn file_line(path: &str, cause: FileCause) -> ShortLine<FILE_LINE>
    ensures { result ≡ file_line path.now cause }
{
    let mut text = ShortLine::new();
    text.push(b"file \"");
    text.push(&shown(path.as_bytes()));
    text.push(b"\"");
    text.push(cause_text(cause));
    text
}

/// Why a file was not read, and the end of its line.
fn cause_text(cause: FileCause) -> &'static [u8]
    ensures text { result.now ≡ cause_text cause }
    ensures short { length result.now ≤ 16 }
{
    match cause {
        FileCause::NoSuchFile => b": no such file\n",
        FileCause::NotPermitted => b": not permitted\n",
        FileCause::Folder => b": a folder\n",
        FileCause::Other => b"\n",
    }
}

/// The line of what is said of a plan's text: nothing where there is nothing to say.
pub(crate) fn plan_clue_line(clue: Option<PlanClue>) -> ShortLine<PLACE_LINE>
    ensures { result ≡ plan_clue_line clue }
{
    let mut text = ShortLine::new();
    match clue {
        None => {}
        Some(PlanClue::Place(place)) => {
            text.push(b"plan ");
            text.push(place_text(place).as_bytes());
            text.push(b"\n");
        }
        Some(PlanClue::Marked) => {
            text.push(b"plan line 1, column 1: a byte order mark: save the text without it\n")
        }
        Some(PlanClue::InputLog) => text.push(
            b"plan line 1, column 1: it looks like an input log\n",
        ),
    }
    text
}

/// The name of a file as it is told: its first 200 bytes, with `?` for a double quote and for all that is no printed
/// character of ASCII.
fn shown(name: &[u8]) -> ArrayVec<u8, SHOWN>
    ensures text { result.items ≡ shown name.now }
    ensures short { length result.items ≤ SHOWN }
{
    let front = &name[..SHOWN.min(name.len())];
    let mut text = ArrayVec::new();
    for byte in front {
        text.push(safe(*byte));
    }
    text
}
