//! Reading the display lines among what a session answers.
ghost use Rattle.std.specs.Prelude.{◌≡◌, ◌∷◌, ◌++◌, [], ℕ, Bool, Err, List, MatchResult, OnOk, Option, false};
ghost use Rattle.std.specs.Io.KnownBytes.{IsAtEnd};
ghost use Rattle.tsb_lines.specs.Lines.{HasNoFeed};
ghost use Rattle.tsb_field_display.specs.Stream.{GoesOn, Going, ReplayRead, Stand, StandsAt, with_bytes, with_line, start};

use crate::error::ReplayError;
use crate::reading::read_line;
use crate::replay::Replay;
use std::alloc::{AllocError, Global};
use std::io::Read;
use tsb_display_text::WIDE;
use tsb_lines::{KeptLine, Watched, cut_at_feed};

/// How many bytes of a line are kept: those of a wide display line, the carriage return after them, and one more, by
/// which a longer line is known.
const KEPT: usize = WIDE + 2;

/// How many bytes one read asks for.
const CHUNK: usize = 4096;

/// What is known after some bytes: the replay of the lines that have ended, and the bytes of the line that has not,
/// or the first bytes of a long one.
#[derive(Drop)]
struct DisplayStream {
    replay: Replay,
    /// Whether wide lines are read.
    is_wide: bool,
    line: KeptLine<KEPT>,
}

impl DisplayStream {
    /// A stream before its first byte.
    fn new(alloc: Global, is_wide: bool) -> DisplayStream
        ensures { StandsAt (start is_wide) result }
    {
        DisplayStream {
            replay: Replay::new(alloc),
            is_wide,
            line: KeptLine::new(),
        }
    }

    /// Takes the end of a line.
    fn end_line(&mut self) -> Result<(), AllocError>
        ensures { (s : Stand) → StandsAt s self.old → OnOk result (StandsAt (with_line s) self.new) }
    {
        if let Some(shown) = read_line(self.line.ended(), self.is_wide) {
            self.replay.push(shown)?;
        }
        self.line.clear();
        Ok(())
    }

    /// Takes the rest of a line, up to its line feed.
    fn feed_line(&mut self, rest: &[u8]) -> Result<(), AllocError>
        requires { HasNoFeed rest.now }
        ensures { (s : Stand) → StandsAt s self.old → OnOk result (StandsAt (with_bytes s (rest.now ++ 10 ∷ [])) self.new) }
    {
        self.line.extend(rest);
        self.end_line()
    }

    /// Takes these bytes.
    fn feed_all(&mut self, bytes: &[u8]) -> Result<(), AllocError>
        ensures { (s : Stand) → StandsAt s self.old → OnOk result (StandsAt (with_bytes s bytes.now) self.new) }
    {
        let mut left = bytes;
        while let Some((rest, next)) = cut_at_feed(left) {
            self.feed_line(rest)?;
            left = next;
        }
        if !left.is_empty() {
            self.line.extend(left);
        }
        Ok(())
    }

    /// Takes what one read gives, and says whether there may be more.
    fn take_read<R: Read>(
        &mut self,
        reader: &mut Watched<R>,
        chunk: &mut [u8; CHUNK],
    ) -> Result<bool, ReplayError>
        ensures { (is_wide : Bool) (input : Option (List ℕ)) (reads : ℕ) → Going is_wide reader.old.failed input (R.remaining reader.old.device) self.old reads → MatchResult result
            (λ more. GoesOn is_wide more reader.new.failed input (R.remaining reader.new.device) self.new reads)
            (λ e. ReplayRead is_wide (Err e) reader.new.failed input (R.remaining reader.new.device)) }
    {
        let count = match reader.read_once(chunk) {
            Ok(count) => count,
            Err(_) => return Err(ReplayError::Read),
        };
        let Ok(()) = self.feed_all(&chunk[..count]) else {
            return Err(ReplayError::Memory);
        };
        Ok(count != 0)
    }

    /// Ends the last line, which no line feed ends, and gives the replay.
    fn finish(mut self) -> Result<Replay, ReplayError>
        ensures { (is_wide failed : Bool) (input left : Option (List ℕ)) (reads : ℕ) → Going is_wide failed input left self reads → IsAtEnd left → ReplayRead is_wide result failed input left }
    {
        let Ok(()) = self.end_line() else {
            return Err(ReplayError::Memory);
        };
        Ok(self.replay)
    }
}

/// Reads what a session answers, up to its end, and keeps what remains of its display lines, or of its wide ones. Other
/// lines are skipped, however long. What follows the last line feed is a line too, and one carriage return at the end of
/// a line is not part of it.
///
/// `Read` comes exactly where a read fails or is interrupted, or after 2^64 - 1 reads, and `Memory` where there is none
/// to keep a change. Nothing is read after either, and what was read until then is lost.
#[tactic(auto, using(crate::proofs::StreamLemmas::going_start))]
pub fn read_replay<R: Read>(
    alloc: Global,
    is_wide: bool,
    reader: &mut Watched<R>,
) -> Result<Replay, ReplayError>
    requires reads { reader.old.failed ≡ false }
    ensures { ReplayRead is_wide result reader.new.failed (R.remaining reader.old.device) (R.remaining reader.new.device) }
{
    let mut stream = DisplayStream::new(alloc, is_wide);
    let mut chunk = [0; CHUNK];
    for _read in 0..u64::MAX {
        if !stream.take_read(reader, &mut chunk)? {
            return stream.finish();
        }
    }
    Err(ReplayError::Read)
}
