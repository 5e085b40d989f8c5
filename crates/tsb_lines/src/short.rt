//! A line that is put together part by part.
ghost use Rattle.std.specs.Prelude.{◌≡◌, ◌+◌, ◌++◌, ◌∷◌, ◌≤◌, [], decimal, length};
ghost use Rattle.tsb_lines.specs.ShortLines.{Adds};

use arrayvec::ArrayVec;
use itoa::Buffer;
use std::marker::Model;

/// A line of at most `MOST` bytes. A part that is added goes into it as far as there is room. Clauses see the line as the
/// list of its bytes.
#[derive(Drop)]
pub struct ShortLine<const MOST: usize> {
    bytes: ArrayVec<u8, MOST>,
}

impl<const MOST: usize> Model for ShortLine<MOST> {
    ghost use Rattle.std.specs.Prelude.{ℕ, ◌≤◌, List, length};

    ghost Value = { List ℕ };

    ghost view = { λ line. line.bytes.items };

    ghost invariant = { λ line. length line.bytes.items ≤ MOST };
}

impl<const MOST: usize> ShortLine<MOST> {
    /// A line without a byte.
    pub fn new() -> ShortLine<MOST>
        ensures { result ≡ [] }
    {
        ShortLine {
            bytes: ArrayVec::new(),
        }
    }

    /// Adds bytes, as many as there is room for.
    pub fn push(&mut self, bytes: &[u8])
        ensures line { Adds MOST self.old bytes.now self.new }
        ensures whole { length self.old + length bytes.now ≤ MOST → self.new ≡ self.old ++ bytes.now }
        ensures len { length self.old + length bytes.now ≤ MOST → length self.new ≡ length self.old + length bytes.now }
    {
        let room = self.bytes.remaining_capacity().min(bytes.len());
        let _fits = self.bytes.try_extend_from_slice(&bytes[..room]);
    }

    /// Adds a number in decimal digits, as many as there is room for.
    pub fn push_number(&mut self, number: u32)
        ensures line { Adds MOST self.old (decimal number) self.new }
        ensures whole { length self.old + length (decimal number) ≤ MOST → self.new ≡ self.old ++ decimal number }
        ensures len { length self.old + length (decimal number) ≤ MOST → length self.new ≡ length self.old + length (decimal number) }
        ensures short { length (decimal number) ≤ 10 }
    {
        let mut buffer = Buffer::new();
        self.push(buffer.format(number).as_bytes());
    }

    /// The bytes of the line.
    #[inline(always)]
    pub fn as_bytes(&self) -> &[u8]
        ensures bytes { result.now ≡ self.now }
        ensures fits { length result.now ≤ MOST }
    {
        &self.bytes
    }
}
