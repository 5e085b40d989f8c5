//! Writes that are watched.
ghost use Rattle.std.specs.Prelude.{◌≡◌, ◌<◌, ◌≤◌, IfOk, MatchResult, OnErr, OnOk, false, length, take, true};
ghost use Rattle.std.specs.Io.{WritesAtMost};
ghost use Rattle.std.specs.Io.KnownBytes.{Appends, Keeps, WriteAppends};
ghost use Rattle.tsb_lines.specs.Writes.{AppendsFront};

use crate::WriteError;
use crate::watched::Watched;
use std::io::{self, Write};

impl<W: Write> Watched<W> {
    /// One write, of at least one byte.
    pub fn write_once(&mut self, bytes: &[u8]) -> Result<usize, WriteError>
        ensures count { IfOk result (λ n. (0 < n) × (n ≤ length bytes.now)) }
        ensures bytes { MatchResult result
            (λ n. Appends (W.contents self.old.device) (W.contents self.new.device) (take n bytes.now))
            (λ e. Keeps (W.contents self.old.device) (W.contents self.new.device)) }
        ensures blame { OnErr result (self.new.failed ≡ true) }
        ensures well { OnOk result (self.new.failed ≡ self.old.failed) }
        ensures flushed { self.new.flushed ≡ false }
    {
        self.flushed = false;
        match self.device.write(bytes) {
            Ok(0) => {}
            Ok(count) => return Ok(count),
            Err(_) => {}
        }
        self.failed = true;
        Err(WriteError)
    }

    /// Has the writer pass on what it took.
    pub fn pass_on(&mut self) -> Result<(), WriteError>
        ensures bytes { Keeps (W.contents self.old.device) (W.contents self.new.device) }
        ensures blame { OnErr result (self.new.failed ≡ true) }
        ensures well { OnOk result (self.new.failed ≡ self.old.failed) }
        ensures flushed { OnOk result (self.new.flushed ≡ true) }
    {
        match self.device.flush() {
            Ok(()) => {
                self.flushed = true;
                Ok(())
            }
            Err(_) => {
                self.failed = true;
                Err(WriteError)
            }
        }
    }

    /// Writes a text. At an error its first bytes may have gone out.
    pub fn write_text(&mut self, text: &[u8]) -> Result<(), WriteError>
        ensures whole { OnOk result (Appends (W.contents self.old.device) (W.contents self.new.device) text.now) }
        ensures front { AppendsFront (W.contents self.old.device) (W.contents self.new.device) text.now }
        ensures blame { OnErr result (self.new.failed ≡ true) }
        ensures well { OnOk result (self.new.failed ≡ self.old.failed) }
    {
        let mut gone = 0;
        while gone < text.len() {
            match self.write_once(&text[gone..]) {
                Ok(count) => gone += count,
                Err(fault) => return Err(fault),
            }
        }
        Ok(())
    }
}

impl<W: Write> Write for Watched<W> {
    ghost contents = { λ watched. W.contents watched.device };

    fn write(&mut self, buf: &[u8]) -> io::Result<usize> {
        self.flushed = false;
        let count = self.device.write(buf);
        if !matches!(count, Ok(1..)) {
            self.failed = true;
        }
        count
    }

    fn flush(&mut self) -> io::Result<()> {
        let passed = self.device.flush();
        if passed.is_ok() {
            self.flushed = true;
        } else {
            self.failed = true;
        }
        passed
    }
}
