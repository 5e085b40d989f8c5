//! Wires as words spell them.
ghost use Rattle.std.specs.Prelude.{◌≡◌, [], map, option_map, unwrap_or};
ghost use Rattle.tsb_words.specs.Wires.{Adds, input_of, parts_of, wire_of, wire_with, wires_of};

use crate::error::WordsError;
use memchr::memchr;
use tsb_field_log::{InputKind, Wire};
use tsb_lines::number;

/// Adds the wires of an option, if it came.
pub(crate) fn add_option(
    wires: &mut Vec<Wire>,
    kind: InputKind,
    words: Option<&[&str]>,
) -> Result<(), WordsError>
    ensures { Adds (wires_of kind (unwrap_or (option_map (λ words. map (λ word. word.now) words.now) words.entry) [])) wires.old.items wires.new.items result }
{
    match words {
        Some(words) => add_wires(wires, kind, words),
        None => Ok(()),
    }
}

/// Adds the wires of a kind that words spell, each after those before. At an error some of them may have been added.
fn add_wires(wires: &mut Vec<Wire>, kind: InputKind, words: &[&str]) -> Result<(), WordsError>
    ensures { Adds (wires_of kind (map (λ word. word.now) words.now)) wires.old.items wires.new.items result }
{
    for word in words {
        let Some(wire) = wire(kind, word.as_bytes()) else {
            return Err(WordsError::Bad);
        };
        if wires.push(wire).is_err() {
            return Err(WordsError::Memory);
        }
    }
    Ok(())
}

/// The wire that a word spells, `CHANNEL=INPUT`.
pub(crate) fn wire(kind: InputKind, word: &[u8]) -> Option<Wire>
    ensures { result ≡ wire_of kind word.now }
{
    let (channel, input) = parts(word)?;
    wire_between(kind, channel, input)
}

/// The wire of a channel and an input that digits spell.
fn wire_between(kind: InputKind, channel: &[u8], input: &[u8]) -> Option<Wire>
    ensures { result ≡ wire_with kind (channel.now, input.now) }
{
    let channel = number(channel)?;
    let input = input_number(kind, input)?;
    Some(Wire {
        kind,
        channel,
        input,
    })
}

/// What comes before the first `=` of a word, and what follows it.
pub(crate) fn parts(word: &[u8]) -> Option<(&[u8], &[u8])>
    ensures { option_map (λ parts. (parts.0.now, parts.1.now)) result ≡ parts_of word.now }
{
    let end = memchr(b'=', word)?;
    Some((&word[..end], &word[end + 1..]))
}

/// The input of a kind that digits spell, where a bench has it.
fn input_number(kind: InputKind, digits: &[u8]) -> Option<u8>
    ensures { result ≡ input_of kind digits.now }
{
    let input = number(digits)?;
    if input < 1 || input > kind.most() as u32 {
        return None;
    }
    Some(input as u8)
}
