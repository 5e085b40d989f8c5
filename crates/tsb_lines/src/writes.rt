//! Texts, written a piece at a time.
ghost use Rattle.std.specs.Prelude.{OnOk};
ghost use Rattle.std.specs.Io.KnownBytes.{Appends, Keeps};
ghost use Rattle.tsb_lines.specs.Writes.{AppendsFront};

use std::io::Write;

/// A write failed, was interrupted or took no byte, or the writer did not pass on what it had taken.
#[derive(Clone, Copy, PartialEq, Eq)]
pub struct WriteError;

/// Writes a text. At an error its first bytes may have gone out.
pub fn write_text<W: Write>(writer: &mut W, text: &[u8]) -> Result<(), WriteError>
    ensures whole { OnOk result (Appends (W.contents writer.old) (W.contents writer.new) text.now) }
    ensures front { AppendsFront (W.contents writer.old) (W.contents writer.new) text.now }
{
    let mut gone = 0;
    while gone < text.len() {
        match writer.write(&text[gone..]) {
            Ok(0) => return Err(WriteError),
            Ok(count) => gone += count,
            Err(_) => return Err(WriteError),
        }
    }
    Ok(())
}

/// Has a writer pass on what it has taken.
pub fn pass_on<W: Write>(writer: &mut W) -> Result<(), WriteError>
    ensures { Keeps (W.contents writer.old) (W.contents writer.new) }
{
    match writer.flush() {
        Ok(()) => Ok(()),
        Err(_) => Err(WriteError),
    }
}
