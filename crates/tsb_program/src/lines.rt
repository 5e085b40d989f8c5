//! Lines that a program writes.
ghost use Rattle.std.specs.Prelude.{◌≡◌, ◌++◌, ◌∷◌, ◌≤◌, [], length, IfOk, IfSome, OnErr, OnOk, string_bytes, true};
ghost use Rattle.tsb_lines.specs.Writes.{AppendsFront};
ghost use Rattle.tsb_program.specs.Statuses.{number};
ghost use Rattle.tsb_lines.specs.Seen.{GoesOut, Tells, seen};

use crate::status::ExitStatus;
use std::alloc::{AllocError, Global};
use std::fmt::Display;
use std::io::Write;
use tsb_lines::{ShortLine, Watched, WriteError};

/// The greatest length of a line of what failed, with its end, in bytes.
const ENDED: usize = 26;

/// Writes a line of faults, has the writer pass it on, and gives the number of the status. Where the line can't be
/// written, nobody can be told of it.
pub fn tell<E: Write>(errors: &mut Watched<E>, status: ExitStatus, line: &[u8]) -> u8
    ensures status { result ≡ number status }
    ensures line { Tells (seen E.contents errors.old) (seen E.contents errors.new) line.now }
{
    let _ = write_line(errors, line);
    status.number()
}

/// Writes a line or a whole text, and has the writer pass it on. At an error its first bytes may have gone out.
pub fn write_line<W: Write>(writer: &mut Watched<W>, line: &[u8]) -> Result<(), WriteError>
    ensures whole { OnOk result (GoesOut (seen W.contents writer.old) (seen W.contents writer.new) line.now) }
    ensures front { AppendsFront (W.contents writer.old.device) (W.contents writer.new.device) line.now }
    ensures blame { OnErr result (writer.new.failed ≡ true) }
    ensures well { OnOk result (writer.new.failed ≡ writer.old.failed) }
{
    match writer.write_text(line) {
        Ok(()) => writer.pass_on(),
        Err(fault) => Err(fault),
    }
}

/// A text of at most 25 bytes and the end of its line.
pub(crate) fn with_end(text: &str) -> ShortLine<ENDED>
    requires { length text.now ≤ 25 }
    ensures { result ≡ text.now ++ 10 ∷ [] }
{
    let mut line = ShortLine::new();
    line.push(text.as_bytes());
    line.push(b"\n");
    line
}

/// The line of a fault. The error is that memory ran out.
pub fn line_of<T: Display + Drop>(alloc: Global, fault: T) -> Result<String, AllocError>
    ensures { IfOk result (λ line. IfSome (T.output fault) (λ text. string_bytes line ≡ text ++ 10 ∷ [])) }
{
    format!(in alloc; "{fault}\n")
}
