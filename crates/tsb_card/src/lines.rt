//! The lines of a card, and of what one has otherwise than another.
ghost use Rattle.std.specs.Prelude.{◌≡◌, ℕ, ◌≤◌, ◌<◌, length, if◌then◌else◌, []};
ghost use Rattle.tsb_lines.specs.Seen.{seen};
ghost use Rattle.tsb_card.specs.Card.{permits};
ghost use Rattle.tsb_card.specs.Lines.{Wrote, card_line, card_text, is_otherwise, other_line, others_text, pair_line, row_text, some_in_row, some_pair, what_of};

use crate::card::{CHANNELS, Card};
use std::io::Write;
use tsb_lines::{ShortLine, Watched, WriteError};

/// The most bytes that there is room for in a line.
const ROW: usize = 32;

/// The bytes of a line.
type Row = ShortLine<ROW>;

/// The line of a pair, with what comes before it.
fn pair_line(before: &[u8], lower: u8, higher: u8) -> Row
    requires { length before.now ≤ 9 }
    ensures { result ≡ pair_line before.now lower higher }
{
    let mut line = Row::new();
    line.push(before);
    line.push_number(u32::from(lower));
    line.push(b"-");
    line.push_number(u32::from(higher));
    line.push(b"\n");
    line
}

/// The line of a pair where it is permissive, and otherwise nothing.
fn card_line(card: &Card, lower: u8, higher: u8) -> Row
    requires lower_from { 1 ≤ lower }
    requires lower_to { lower ≤ 16 }
    requires higher_from { 1 ≤ higher }
    requires higher_to { higher ≤ 16 }
    ensures { result ≡ card_line (permits card.now) lower higher }
{
    if card.has(lower, higher) {
        pair_line(b"", lower, higher)
    } else {
        Row::new()
    }
}

/// Writes a card: a line for each permissive pair, by its lower channel and then by its higher one. At an error the first
/// bytes of the lines may have gone out, and a write has failed.
pub fn write_card<W: Write>(card: &Card, output: &mut Watched<W>) -> Result<(), WriteError>
    ensures { Wrote result (seen W.contents output.old) (seen W.contents output.new) (card_text (permits card.now)) }
{
    for lower in 1..CHANNELS + 1 {
        match write_row(card, lower, output) {
            Ok(()) => {}
            Err(fault) => return Err(fault),
        }
    }
    Ok(())
}

/// Writes the pairs of a card with a channel as their lower one.
fn write_row<W: Write>(card: &Card, lower: u8, output: &mut Watched<W>) -> Result<(), WriteError>
    requires from { 1 ≤ lower }
    requires to { lower ≤ 16 }
    ensures { Wrote result (seen W.contents output.old) (seen W.contents output.new) (row_text (card_line (permits card.now)) lower) }
{
    for higher in lower + 1..CHANNELS + 1 {
        match output.write_text(card_line(card, lower, higher).as_bytes()) {
            Ok(()) => {}
            Err(fault) => return Err(fault),
        }
    }
    Ok(())
}

/// Whether a pair is permissive on one of two cards alone.
fn is_otherwise(wanted: &Card, found: &Card, lower: u8, higher: u8) -> bool
    requires lower_from { 1 ≤ lower }
    requires lower_to { lower ≤ 16 }
    requires higher_from { 1 ≤ higher }
    requires higher_to { higher ≤ 16 }
    ensures { result ≡ is_otherwise (permits wanted.now) (permits found.now) lower higher }
{
    wanted.has(lower, higher) != found.has(lower, higher)
}

/// Whether a card has a pair otherwise than it should: permissive where it should not be, or not where it should.
pub fn differs(wanted: &Card, found: &Card) -> bool
    ensures { result ≡ some_pair (is_otherwise (permits wanted.now) (permits found.now)) }
{
    for lower in 1..CHANNELS + 1 {
        if differs_in_row(wanted, found, lower) {
            return true;
        }
    }
    false
}

/// Whether it has one with a channel as its lower one.
fn differs_in_row(wanted: &Card, found: &Card, lower: u8) -> bool
    requires from { 1 ≤ lower }
    requires to { lower ≤ 16 }
    ensures { result ≡ some_in_row (is_otherwise (permits wanted.now) (permits found.now)) lower }
{
    for higher in lower + 1..CHANNELS + 1 {
        if is_otherwise(wanted, found, lower, higher) {
            return true;
        }
    }
    false
}

/// What is said of a pair that one of two cards alone has.
fn what_of(is_found: bool) -> &'static [u8]
    ensures what { result.now ≡ what_of is_found }
    ensures short { length result.now ≤ 9 }
{
    if is_found { b"too many " } else { b"missing " }
}

/// The line of a pair that one of two cards alone has, and otherwise nothing.
fn other_line(wanted: &Card, found: &Card, lower: u8, higher: u8) -> Row
    requires lower_from { 1 ≤ lower }
    requires lower_to { lower ≤ 16 }
    requires higher_from { 1 ≤ higher }
    requires higher_to { higher ≤ 16 }
    ensures { result ≡ other_line (permits wanted.now) (permits found.now) lower higher }
{
    if is_otherwise(wanted, found, lower, higher) {
        pair_line(what_of(found.has(lower, higher)), lower, higher)
    } else {
        Row::new()
    }
}

/// Writes what a card has otherwise than it should: a line for each pair that is permissive and should not be, and for each
/// that should be and is not, in the order of pairs. At an error the first bytes of the lines may have gone out, and a
/// write has failed.
pub fn write_differences<W: Write>(
    wanted: &Card,
    found: &Card,
    output: &mut Watched<W>,
) -> Result<(), WriteError>
    ensures { Wrote result (seen W.contents output.old) (seen W.contents output.new) (others_text (permits wanted.now) (permits found.now)) }
{
    for lower in 1..CHANNELS + 1 {
        match write_other_row(wanted, found, lower, output) {
            Ok(()) => {}
            Err(fault) => return Err(fault),
        }
    }
    Ok(())
}

/// Writes what it has otherwise of pairs with a channel as their lower one.
fn write_other_row<W: Write>(
    wanted: &Card,
    found: &Card,
    lower: u8,
    output: &mut Watched<W>,
) -> Result<(), WriteError>
    requires from { 1 ≤ lower }
    requires to { lower ≤ 16 }
    ensures { Wrote result (seen W.contents output.old) (seen W.contents output.new) (row_text (other_line (permits wanted.now) (permits found.now)) lower) }
{
    for higher in lower + 1..CHANNELS + 1 {
        match output.write_text(other_line(wanted, found, lower, higher).as_bytes()) {
            Ok(()) => {}
            Err(fault) => return Err(fault),
        }
    }
    Ok(())
}
