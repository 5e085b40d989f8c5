//! The line that a reader keeps until its end comes.
ghost use Rattle.std.specs.Prelude.{◌≡◌, ◌≢◌, [], ◌∷◌, ◌++◌};
ghost use Rattle.tsb_lines.specs.Lines.{HasNoFeed, kept, without_return};

use crate::lines::without_return;
use arrayvec::ArrayVec;
use std::marker::Model;

/// The bytes of a line that no line feed has ended yet: the first `MOST` of a long one. Clauses see them as a list.
#[derive(Drop)]
pub struct KeptLine<const MOST: usize> {
    bytes: ArrayVec<u8, MOST>,
}

impl<const MOST: usize> Model for KeptLine<MOST> {
    ghost use Rattle.std.specs.Prelude.{ℕ, List};
    ghost use Rattle.tsb_lines.specs.Lines.{HasNoFeed};

    ghost Value = { List ℕ };

    ghost view = { λ line. line.bytes.items };

    ghost invariant = { λ line. HasNoFeed line.bytes.items };
}

impl<const MOST: usize> KeptLine<MOST> {
    /// A line before its first byte.
    pub fn new() -> KeptLine<MOST>
        ensures { result ≡ [] }
    {
        KeptLine {
            bytes: ArrayVec::new(),
        }
    }

    /// Takes one more byte, which is not a line feed. Where `MOST` are kept the line stays as it is.
    #[inline(always)]
    pub fn push(&mut self, byte: u8)
        requires { byte ≢ 10 }
        ensures kept { self.new ≡ kept MOST (self.old ++ byte ∷ []) }
        ensures one { HasNoFeed (self.old ++ byte ∷ []) }
    {
        if !self.bytes.is_full() {
            self.bytes.push(byte);
        }
    }

    /// Takes bytes without a line feed. A line that gets longer than `MOST` keeps its first ones.
    pub fn extend(&mut self, bytes: &[u8])
        requires { HasNoFeed bytes.now }
        ensures kept { self.new ≡ kept MOST (self.old ++ bytes.now) }
        ensures one { HasNoFeed (self.old ++ bytes.now) }
    {
        let room = self.bytes.remaining_capacity().min(bytes.len());
        let _ = self.bytes.try_extend_from_slice(&bytes[..room]);
    }

    /// The bytes as they are, which is the last line of a text where no line feed ends it.
    pub fn last(&self) -> &[u8]
        ensures line { result.now ≡ self.now }
        ensures one { HasNoFeed self.now }
    {
        &self.bytes
    }

    /// The line that a line feed ends: the bytes without one carriage return at their end.
    pub fn ended(&self) -> &[u8]
        ensures line { result.now ≡ without_return self.now }
        ensures one { HasNoFeed self.now }
    {
        without_return(&self.bytes)
    }

    /// Begins the next line.
    pub fn clear(&mut self)
        ensures { self.new ≡ [] }
    {
        self.bytes.clear();
    }
}
