//! Reading a card.
ghost use Rattle.std.specs.Prelude.{◌≡◌, IfSome, option_map, true};
ghost use Rattle.tsb_card.specs.Pairs.{is_listed};
ghost use Rattle.tsb_card.specs.Reading.{Gives, Stepped, pair_of, pair_with, pairs_of, parts_of};

use crate::card::{CHANNELS, Card};
use memchr::memchr;
use tsb_lines::{is_skipped, next_line, number};

/// The most bytes that the text of a card may have: 64 KiB.
pub const LIMIT: usize = 65_536;

/// Why a text is no card.
#[derive(Clone, Copy, PartialEq, Eq)]
pub enum CardFault {
    /// The text has over `LIMIT` bytes.
    TooLarge,
    /// This line, counted from 1, is the first that is no pair. Lines that are skipped count too.
    Malformed(u32),
}

/// What comes before the first hyphen of a line, and what follows it.
fn parts(line: &[u8]) -> Option<(&[u8], &[u8])>
    ensures { option_map (λ parts. (parts.0.now, parts.1.now)) result ≡ parts_of line.now }
{
    let end = memchr(b'-', line)?;
    Some((&line[..end], &line[end + 1..]))
}

/// The pair that two numbers name: channels 1 to 16, the lower one first.
fn pair_with(lower: &[u8], higher: &[u8]) -> Option<(u8, u8)>
    ensures pair { result ≡ pair_with (lower.now, higher.now) }
    ensures listed { IfSome result (λ pair. is_listed pair.0 pair.1 ≡ true) }
{
    let lower = number(lower)?;
    let higher = number(higher)?;
    if 1 <= lower && lower < higher && higher <= u32::from(CHANNELS) {
        Some((lower as u8, higher as u8))
    } else {
        None
    }
}

/// The pair of a line: two channels, the lower one first, with a hyphen between them.
fn pair_of(line: &[u8]) -> Option<(u8, u8)>
    ensures pair { result ≡ pair_of line.now }
    ensures listed { IfSome result (λ pair. is_listed pair.0 pair.1 ≡ true) }
{
    let (lower, higher) = parts(line)?;
    pair_with(lower, higher)
}

/// The card with the pair of a line, which is line `number` of a text, or as it is where the line is skipped.
fn taken(card: Card, number: u32, line: &[u8]) -> Result<Card, CardFault>
    ensures { Stepped result card number line.now }
{
    if is_skipped(line) {
        return Ok(card);
    }
    match pair_of(line) {
        Some((lower, higher)) => Ok(card.with(lower, higher)),
        None => Err(CardFault::Malformed(number)),
    }
}

/// The card of a text: a pair a line, as `2-6`. Lines that are blank or begin with `#` are skipped. `TooLarge` over `LIMIT`
/// bytes, and else the first line that is no pair.
pub fn read_card(text: &[u8]) -> Result<Card, CardFault>
    ensures { Gives result (pairs_of text.now) }
{
    if text.len() > LIMIT {
        return Err(CardFault::TooLarge);
    }
    let mut card = Card::blank();
    let mut count = 1;
    let mut rest = text;
    loop {
        let (line, behind) = next_line(rest);
        card = taken(card, count, line)?;
        let Some(more) = behind else {
            return Ok(card);
        };
        rest = more;
        count += 1;
    }
}
