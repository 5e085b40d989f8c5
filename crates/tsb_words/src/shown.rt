//! Words as lines show them.
ghost use Rattle.std.specs.Prelude.{◌≡◌, ◌≤◌, length};
ghost use Rattle.tsb_words.specs.Shown.{safe, shown};

use arrayvec::ArrayVec;

/// How many bytes of a word are shown at most.
pub const SHOWN_BYTES: usize = 40;

/// A word as it is shown: its first 40 bytes, with `?` for a double quote and for all that is no printed character of
/// ASCII.
pub fn shown(word: &[u8]) -> ArrayVec<u8, SHOWN_BYTES>
    ensures text { result.items ≡ shown word.now }
    ensures short { length result.items ≤ SHOWN_BYTES }
{
    let front = &word[..SHOWN_BYTES.min(word.len())];
    let mut text = ArrayVec::new();
    for byte in front {
        text.push(safe(*byte));
    }
    text
}

/// A byte as it is shown: `?` for a double quote and for all that is no printed character of ASCII.
pub fn safe(byte: u8) -> u8
    ensures { result ≡ safe byte }
{
    if byte < b' ' || byte > b'~' || byte == b'"' {
        b'?'
    } else {
        byte
    }
}
