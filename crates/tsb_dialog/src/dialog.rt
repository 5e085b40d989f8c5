//! Dialogs: lines in, answers out.
ghost use Rattle.std.specs.Prelude.{◌≡◌, ◌∷◌, ◌++◌, ◌+◌, ◌<◌, ◌≤◌, [], ℕ, List, false, length, OnOk, true};
ghost use Rattle.tsb_lines.specs.Lines.{HasNoFeed};
ghost use Rattle.tsb_dialog.specs.Blame.{AfterCalls, Blames};
ghost use Rattle.tsb_dialog.specs.Ended.{Ended};
ghost use Rattle.tsb_dialog.specs.declared.dialog.TheConstants.{KEPT, LIMIT};
ghost use Rattle.tsb_dialog.specs.Going.{Fed, Finished, as_dialog};
ghost use Rattle.tsb_dialog.specs.Heard.{Heard};
ghost use Rattle.tsb_dialog.specs.Said.{Said};

use crate::answers::{Answers, Flow};
use crate::error::DialogError;
use crate::pending::Pending;
use std::io::{Read, Write};
use tsb_lines::{KeptLine, Watched, WriteError, cut_at_feed, without_return};

/// The most bytes that a dialog may be given leave to read: 1 GiB.
pub const LIMIT: usize = 1_073_741_824;

/// How many bytes of a line are kept: a longer line is answered as these alone would be, whatever they are.
pub const KEPT: usize = 202;

/// How many bytes one read asks for.
const CHUNK: usize = 4096;

/// A dialog between two bytes: what is kept of the line that is not whole yet, the number of that line, and the answers
/// on their way out.
#[derive(Drop)]
struct Dialog {
    line: KeptLine<KEPT>,
    number: u32,
    pending: Pending,
}

impl Dialog {
    /// A dialog before its first byte.
    fn new() -> Dialog
        ensures line { result.line ≡ [] }
        ensures number { result.number ≡ 1 }
        ensures waits { result.pending ≡ [] }
    {
        Dialog {
            line: KeptLine::new(),
            number: 1,
            pending: Pending::new(),
        }
    }

    /// Takes the rest of a line, up to its line feed, and has the line answered. A line of which nothing is kept yet is
    /// answered as it stands there.
    fn feed_line<A: Answers, W: Write>(
        &mut self,
        answers: &mut A,
        rest: &[u8],
        writer: &mut Watched<W>,
    ) -> Result<Flow, WriteError>
        requires one { HasNoFeed rest.now }
        requires number { self.old.number < 4294967295 }
        ensures fed { (from now : A.State) (bytes text : List ℕ) → A.stands answers.old now → Heard KEPT A.says from bytes text self.old.number now self.old.line
            → Fed KEPT A.stands A.says from (bytes ++ (rest.now ++ 10 ∷ [])) text result answers.new self.new.number self.new.line
            (W.contents writer.old.device) (W.contents writer.new.device) self.old.pending self.new.pending }
        ensures number { self.new.number ≤ self.old.number + 1 }
        ensures blame { writer.old.failed ≡ false → AfterCalls result writer.new.failed }
    {
        let number = self.number;
        self.number += 1;
        if self.line.last().is_empty() {
            let line = without_return(&rest[..rest.len().min(KEPT)]);
            return answers.answer(number, line, &mut self.pending, writer);
        }
        self.line.extend(rest);
        let flow = answers.answer(number, self.line.ended(), &mut self.pending, writer)?;
        self.line.clear();
        Ok(flow)
    }

    /// Takes these bytes, up to a line that ends the dialog.
    fn feed_all<A: Answers, W: Write>(
        &mut self,
        answers: &mut A,
        bytes: &[u8],
        writer: &mut Watched<W>,
    ) -> Result<Flow, WriteError>
        requires { self.old.number + length bytes.now < 4294967296 }
        ensures fed { (from now : A.State) (before text : List ℕ) → A.stands answers.old now → Heard KEPT A.says from before text self.old.number now self.old.line
            → Fed KEPT A.stands A.says from (before ++ bytes.now) text result answers.new self.new.number self.new.line
            (W.contents writer.old.device) (W.contents writer.new.device) self.old.pending self.new.pending }
        ensures number { self.new.number ≤ self.old.number + length bytes.now }
        ensures blame { writer.old.failed ≡ false → AfterCalls result writer.new.failed }
    {
        let mut left = bytes;
        while let Some((rest, next)) = cut_at_feed(left) {
            match self.feed_line(answers, rest, writer)? {
                Flow::On => left = next,
                Flow::Over => return Ok(Flow::Over),
            }
        }
        self.line.extend(left);
        Ok(Flow::On)
    }

    /// Answers what follows the last line feed, at the end of the input, writes all that waits, and has the writer pass it
    /// on.
    fn finish<A: Answers, W: Write>(
        &mut self,
        answers: &mut A,
        writer: &mut Watched<W>,
    ) -> Result<(), WriteError>
        ensures finished { (from now : A.State) (bytes text : List ℕ) → A.stands answers.old now → Heard KEPT A.says from bytes text self.old.number now self.old.line
            → Finished KEPT A.stands A.says from bytes text result answers.new
            (W.contents writer.old.device) (W.contents writer.new.device) self.old.pending self.new.pending }
        ensures flushed { OnOk result (writer.new.flushed ≡ true) }
        ensures blame { writer.old.failed ≡ false → AfterCalls result writer.new.failed }
    {
        let _ = answers.answer(self.number, self.line.last(), &mut self.pending, writer)?;
        self.send(writer)
    }

    /// Writes all that waits, and has the writer pass it on.
    fn send<W: Write>(&mut self, writer: &mut Watched<W>) -> Result<(), WriteError>
        ensures said { Said (W.contents writer.old.device) (W.contents writer.new.device) self.old.pending self.new.pending [] }
        ensures ok { OnOk result (self.new.pending ≡ []) }
        ensures flushed { OnOk result (writer.new.flushed ≡ true) }
        ensures blame { writer.old.failed ≡ false → AfterCalls result writer.new.failed }
        ensures rest { (self.new.line ≡ self.old.line) × (self.new.number ≡ self.old.number) }
    {
        self.pending.send(writer)
    }

    /// Reads lines and has them answered, up to one that ends the dialog or the end of what is read.
    fn run<A: Answers, R: Read, W: Write>(
        &mut self,
        answers: &mut A,
        limit: usize,
        reader: &mut Watched<R>,
        writer: &mut Watched<W>,
    ) -> Result<(), DialogError>
        requires limited { limit ≤ LIMIT }
        requires line { self.old.line ≡ [] }
        requires number { self.old.number ≡ 1 }
        requires waits { self.old.pending ≡ [] }
        requires reads { reader.old.failed ≡ false }
        requires writes { writer.old.failed ≡ false }
        requires flushed { writer.old.flushed ≡ true }
        ensures ended { (from : A.State) → A.stands answers.old from
            → Ended KEPT limit A.stands A.says from result answers.new (R.remaining reader.old.device) (R.remaining reader.new.device) (W.contents writer.old.device) (W.contents writer.new.device) }
        ensures blame { Blames result reader.new.failed writer.new.failed writer.new.flushed }
    {
        let mut chunk = [0; CHUNK];
        let mut left = limit;
        loop {
            let most = left.min(CHUNK).max(1);
            let room = &mut chunk[..most];
            let count = match self.pending.read(reader, writer, room) {
                Ok(count) => count,
                Err(_) => return Err(DialogError::Read),
            };
            if count == 0 {
                return as_dialog(self.finish(answers, writer));
            }
            if left < count {
                return Err(DialogError::TooLarge);
            }
            left -= count;
            let flow = match self.feed_all(answers, &room[..count], writer) {
                Ok(flow) => flow,
                Err(_) => return Err(DialogError::Write),
            };
            let sent = self.send(writer);
            match flow {
                Flow::On => {
                    if sent.is_err() {
                        return Err(DialogError::Write);
                    }
                }
                Flow::Over => return as_dialog(sent),
            }
        }
    }
}

/// What a dialog ends with after this.
fn as_dialog(sent: Result<(), WriteError>) -> Result<(), DialogError>
    ensures { result ≡ as_dialog sent }
{
    match sent {
        Ok(()) => Ok(()),
        Err(_) => Err(DialogError::Write),
    }
}

/// Reads lines and has each answered, up to one that ends the dialog or the end of what is read. At most `limit`
/// bytes are read.
///
/// What was said goes out and is passed on before each read, and at the end. A fault ends the dialog; what was written
/// until then begins what may be said. `Read` is answered exactly where a read has failed, and `Write` exactly where a
/// write or a flush has. `TooLarge` comes where there is a byte after the first `limit`, once the whole lines within
/// them were answered.
pub fn converse<A: Answers, R: Read, W: Write>(
    answers: &mut A,
    limit: usize,
    reader: &mut Watched<R>,
    writer: &mut Watched<W>,
) -> Result<(), DialogError>
    requires limited { limit ≤ LIMIT }
    requires reads { reader.old.failed ≡ false }
    requires writes { writer.old.failed ≡ false }
    requires flushed { writer.old.flushed ≡ true }
    ensures ended { (from : A.State) → A.stands answers.old from
        → Ended KEPT limit A.stands A.says from result answers.new (R.remaining reader.old.device) (R.remaining reader.new.device) (W.contents writer.old.device) (W.contents writer.new.device) }
    ensures blame { Blames result reader.new.failed writer.new.failed writer.new.flushed }
{
    let mut dialog = Dialog::new();
    dialog.run(answers, limit, reader, writer)
}
