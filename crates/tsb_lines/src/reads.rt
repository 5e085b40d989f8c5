//! Reads that are watched.
ghost use Rattle.std.specs.Prelude.{◌≡◌, OnErr, OnOk, true};
ghost use Rattle.std.specs.Io.{ReadsAtMost};
ghost use Rattle.std.specs.Io.KnownBytes.{ReadConsumes};

use crate::watched::Watched;
use std::io::{self, Read};

impl<R: Read> Watched<R> {
    /// One read.
    pub fn read_once(&mut self, room: &mut [u8]) -> io::Result<usize>
        ensures bound { ReadsAtMost result room.new }
        ensures bytes { ReadConsumes (R.remaining self.old.device) (R.remaining self.new.device) result room.new }
        ensures blame { OnErr result (self.new.failed ≡ true) }
        ensures well { OnOk result (self.new.failed ≡ self.old.failed) }
    {
        let count = self.device.read(room);
        if count.is_err() {
            self.failed = true;
        }
        count
    }
}

impl<R: Read> Read for Watched<R> {
    ghost remaining = { λ watched. R.remaining watched.device };

    fn read(&mut self, buf: &mut [u8]) -> io::Result<usize> {
        self.read_once(buf)
    }
}
