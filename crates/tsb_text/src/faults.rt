//! Lines that are no command, or that are refused, and what is told of them.
ghost use Rattle.std.specs.Prelude.{◌≡◌, ◌≤◌, length};
ghost use Rattle.tsb_text.specs.declared.faults.TheConstants.{START};
ghost use Rattle.tsb_text.specs.Faults.{fault_line, fault_words, shown, shown_byte};

use crate::lines::refused_line;
use arrayvec::ArrayVec;
use tsb_lines::ShortLine;
use tsb_objects::Refusal;

/// What a run does after a line that is no command, or that is refused.
#[derive(Clone, Copy)]
pub enum OnFault {
    /// It ends: the run is strict.
    Stop,
    /// It goes on with the next line.
    GoOn,
}

/// What is wrong with a line.
#[derive(Clone, Copy, PartialEq, Eq)]
pub enum LineFault {
    /// It is no command.
    BadCommand,
    /// It is refused, and left all as it was; of a `step` the ticks before the refused one were taken.
    Refused(Refusal),
}

/// How many bytes of a line are told at most.
const SHOWN: usize = 200;

/// The greatest length of what is told of a line, with its line feed, in bytes.
pub const TOLD: usize = 287;

/// The greatest length of what stands before the number of a line, in bytes.
const START: usize = 9;

/// What is told of a line by its number, behind these words, with its line feed: its own text, and what is wrong with it.
pub fn fault_line(start: &[u8], number: u32, line: &[u8], fault: LineFault) -> ShortLine<TOLD>
    requires { length start.now ≤ START }
    ensures { result ≡ fault_line start.now number line.now fault }
{
    let mut text = ShortLine::new();
    text.push(start);
    text.push_number(number);
    text.push(b": ");
    text.push(&shown(line));
    text.push(b": ");
    text.push(fault_words(fault));
    text.push(b"\n");
    text
}

/// What is wrong with a line, in the words of a session's answer.
pub fn fault_words(fault: LineFault) -> &'static [u8]
    ensures words { result.now ≡ fault_words fault }
    ensures short { length result.now ≤ 63 }
{
    match fault {
        LineFault::BadCommand => b"bad command",
        LineFault::Refused(refusal) => refused_line(refusal),
    }
}

/// A line as it is told: its first 200 bytes, with `?` for each that is no printable ASCII.
fn shown(line: &[u8]) -> ArrayVec<u8, SHOWN>
    ensures text { result.items ≡ shown line.now }
    ensures short { length result.items ≤ 200 }
{
    let front = &line[..SHOWN.min(line.len())];
    let mut text = ArrayVec::new();
    for byte in front {
        text.push(shown_byte(*byte));
    }
    text
}

/// A byte as it is told: what a terminal might take for a control is `?`.
fn shown_byte(byte: u8) -> u8
    ensures { result ≡ shown_byte byte }
{
    match byte {
        b' '..=b'~' => byte,
        _ => b'?',
    }
}
