//! Answers on their way out.
#![tactic(auto)]

ghost use Rattle.std.specs.Prelude.{◌≡◌, ◌∷◌, ◌++◌, ◌+◌, ◌<◌, ◌≤◌, [], ℕ, List, false, length, OnOk, OnErr, true};
ghost use Rattle.std.specs.Io.{ReadsAtMost};
ghost use Rattle.std.specs.Io.KnownBytes.{ReadConsumes};
ghost use Rattle.arrayvec.specs.ArrayVec.{array_vec_len};
ghost use Rattle.tsb_dialog.specs.Blame.{AfterCalls};
ghost use Rattle.tsb_dialog.specs.Said.{Said, Wrote, with_feed};

use arrayvec::ArrayVec;
use std::io::{self, Read, Write};
use std::marker::Model;
use tsb_lines::{Watched, WriteError};

/// How many bytes of answers are put together before they are written.
const ROOM: usize = 8192;

/// Answers that were said and have not gone out yet.
#[derive(Drop)]
pub struct Pending {
    /// What was said since the room was empty.
    bytes: ArrayVec<u8, ROOM>,
    /// How many of the bytes have gone out.
    gone: usize,
}

impl Model for Pending {
    ghost use Rattle.std.specs.Prelude.{ℕ, List, drop, length, ◌≤◌};

    ghost Value = { List ℕ };

    ghost view = { λ a. drop a.gone a.bytes.items };

    ghost invariant = { λ a. a.gone ≤ length a.bytes.items };
}

/// Puts a text, for which there is room, behind what a room has.
#[inline(always)]
fn put(room: &mut ArrayVec<u8, ROOM>, text: &[u8])
    requires { array_vec_len room.old + length text.now ≤ ROOM }
    ensures { room.new.items ≡ room.old.items ++ text.now }
{
    let _ = room.try_extend_from_slice(text);
}

/// Puts a line and its line feed behind what a room has.
#[inline(always)]
fn put_line(room: &mut ArrayVec<u8, ROOM>, line: &[u8])
    requires { array_vec_len room.old + length line.now < ROOM }
    ensures { room.new.items ≡ room.old.items ++ with_feed line.now }
{
    put(room, line);
    room.push(b'\n');
}

impl Pending {
    /// The greatest length of a line with its line feed, in bytes.
    const LINE: usize = 72;

    /// Nothing was said.
    pub fn new() -> Pending
        ensures { result ≡ [] }
    {
        Pending {
            bytes: ArrayVec::new(),
            gone: 0,
        }
    }

    /// Says a line of at most 71 bytes, and its line feed. Where there is no room for it, what waits is written first;
    /// where that fails, the line was not said.
    pub fn say<W: Write>(&mut self, writer: &mut Watched<W>, line: &[u8]) -> Result<(), WriteError>
        requires { length line.now ≤ 71 }
        ensures ok { OnOk result (Said (W.contents writer.old.device) (W.contents writer.new.device) self.old self.new (with_feed line.now)) }
        ensures fault { OnErr result (Said (W.contents writer.old.device) (W.contents writer.new.device) self.old self.new []) }
        ensures blame { writer.old.failed ≡ false → AfterCalls result writer.new.failed }
    {
        if self.bytes.remaining_capacity() < Self::LINE {
            self.write_out(writer)?;
            self.gone = 0;
            self.bytes.clear();
            put_line(&mut self.bytes, line);
            return Ok(());
        }
        put_line(&mut self.bytes, line);
        Ok(())
    }

    /// Says a text of any length, as it is: no line feed is added. Where there is no room, what waits is written; where
    /// that fails, a first part of the text may have been said.
    pub fn add<W: Write>(&mut self, writer: &mut Watched<W>, text: &[u8]) -> Result<(), WriteError>
        ensures ok { OnOk result (Said (W.contents writer.old.device) (W.contents writer.new.device) self.old self.new text.now) }
        ensures front { Wrote (W.contents writer.old.device) (W.contents writer.new.device) self.old self.new (λ said. (rest : List ℕ) × (text.now ≡ said ++ rest)) }
        ensures blame { writer.old.failed ≡ false → AfterCalls result writer.new.failed }
    {
        if text.len() <= self.bytes.remaining_capacity() {
            put(&mut self.bytes, text);
            return Ok(());
        }
        for byte in text {
            self.push(writer, *byte)?;
        }
        Ok(())
    }

    /// Says one byte. Where there is no room for it, what waits is written first; where that fails, it was not said.
    fn push<W: Write>(&mut self, writer: &mut Watched<W>, byte: u8) -> Result<(), WriteError>
        ensures ok { OnOk result (Said (W.contents writer.old.device) (W.contents writer.new.device) self.old self.new (byte ∷ [])) }
        ensures fault { OnErr result (Said (W.contents writer.old.device) (W.contents writer.new.device) self.old self.new []) }
        ensures blame { writer.old.failed ≡ false → AfterCalls result writer.new.failed }
    {
        if self.bytes.is_full() {
            self.write_out(writer)?;
            self.gone = 0;
            self.bytes.clear();
            self.bytes.push(byte);
            return Ok(());
        }
        self.bytes.push(byte);
        Ok(())
    }

    /// Writes all that waits.
    pub(crate) fn write_out<W: Write>(&mut self, writer: &mut Watched<W>) -> Result<(), WriteError>
        ensures said { Said (W.contents writer.old.device) (W.contents writer.new.device) self.old self.new [] }
        ensures ok { OnOk result (self.new ≡ []) }
        ensures blame { writer.old.failed ≡ false → AfterCalls result writer.new.failed }
    {
        while self.gone < self.bytes.len() {
            match writer.write_once(&self.bytes.as_slice()[self.gone..]) {
                Ok(count) => self.gone += count,
                Err(fault) => return Err(fault),
            }
        }
        Ok(())
    }

    /// Writes all that waits, and has the writer pass it on.
    pub(crate) fn send<W: Write>(&mut self, writer: &mut Watched<W>) -> Result<(), WriteError>
        ensures said { Said (W.contents writer.old.device) (W.contents writer.new.device) self.old self.new [] }
        ensures ok { OnOk result (self.new ≡ []) }
        ensures flushed { OnOk result (writer.new.flushed ≡ true) }
        ensures blame { writer.old.failed ≡ false → AfterCalls result writer.new.failed }
    {
        match self.write_out(writer) {
            Ok(()) => writer.pass_on(),
            Err(fault) => Err(fault),
        }
    }

    /// Reads, once all that was said has gone out to the writer and was passed on.
    pub(crate) fn read<R: Read, W>(
        &self,
        reader: &mut Watched<R>,
        writer: &Watched<W>,
        room: &mut [u8],
    ) -> io::Result<usize>
        requires sent { self.now ≡ [] }
        requires flushed { writer.now.flushed ≡ true }
        ensures bound { ReadsAtMost result room.new }
        ensures bytes { ReadConsumes (R.remaining reader.old.device) (R.remaining reader.new.device) result room.new }
        ensures blame { reader.old.failed ≡ false → AfterCalls result reader.new.failed }
    {
        let _ = writer;
        reader.read_once(room)
    }
}
