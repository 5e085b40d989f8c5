//! What is printed of a line that is no command, or that is refused.
ghost use Rattle.std.specs.Prelude.{◌≡◌};
ghost use Rattle.tsb_text.specs.recording.Faults.{fault_line};

use crate::LineFault;
use crate::faults::TOLD;
use tsb_lines::ShortLine;

/// What is told of a line by its number, with its line feed: its own text, and what is wrong with it.
pub(crate) fn fault_line(number: u32, line: &[u8], fault: LineFault) -> ShortLine<TOLD>
    ensures { result ≡ fault_line number line.now fault }
{
    crate::fault_line(b"command ", number, line, fault)
}
