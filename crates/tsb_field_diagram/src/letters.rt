//! The letters that say why greens ended.
ghost use Rattle.std.specs.Prelude.{◌≡◌, ◌≤◌, ◌<◌, ◌++◌, ◌^◌, OnOk, length};
ghost use Rattle.tsb_field_diagram.specs.Letters.{end_text, ends_text, is_drawn, is_head, letter_among, letter_end, letter_foot, letter_in, letter_of, letter_text, letters_text, meaning_text};

use crate::axis::{LEFT, WIDTH};
use crate::band::{BAND, Band, BandKind};
use crate::ends::{GreenEnd, Why};
use crate::line::line_top;
use crate::write::{append, append_attribute};
use std::alloc::AllocError;

/// Adds to a text the letters of ends of greens and what they mean: nothing where there are none.
#[tactic(auto, unfolding(crate::specs::Letters::ends_text))]
pub(crate) fn append_ends(
    text: &mut Vec<u8>,
    bands: &[Band],
    seconds: u32,
    last: u32,
    ends: &[GreenEnd],
) -> Result<(), AllocError>
    requires some { 1 ≤ seconds }
    requires most { seconds ≤ 86400 }
    ensures { OnOk result (text.new.items ≡ text.old.items ++ ends_text bands.now seconds last ends.now) }
{
    if ends.is_empty() {
        return Ok(());
    }
    append(text, meaning())?;
    append_letters(text, bands, seconds, last, ends)?;
    append(text, b"</g>\n")
}

/// What the letters mean, and how they are drawn.
#[tactic(auto, unfolding(crate::specs::Letters::meaning_text))]
fn meaning() -> &'static [u8]
    ensures { result.now ≡ meaning_text }
{
    b"<text x=\"140\" y=\"60\">The letter at the end of a green: G gap out, M max out, F force-off</text>\n<g text-anchor=\"end\" font-weight=\"bold\" stroke=\"#fff\" stroke-width=\"2\" paint-order=\"stroke\">\n"
}

/// Adds the letters of ends to a text.
fn append_letters(
    text: &mut Vec<u8>,
    bands: &[Band],
    seconds: u32,
    last: u32,
    ends: &[GreenEnd],
) -> Result<(), AllocError>
    requires some { 1 ≤ seconds }
    requires most { seconds ≤ 86400 }
    ensures { OnOk result (text.new.items ≡ text.old.items ++ letters_text bands.now seconds last ends.now) }
{
    for given in ends {
        append_end(text, bands, seconds, last, *given)?;
    }
    Ok(())
}

/// Adds the letter of an end to a text, where the last tick of its green is one of the picture.
#[tactic(auto, unfolding(crate::specs::Letters::end_text))]
fn append_end(
    text: &mut Vec<u8>,
    bands: &[Band],
    seconds: u32,
    last: u32,
    given: GreenEnd,
) -> Result<(), AllocError>
    requires some { 1 ≤ seconds }
    requires most { seconds ≤ 86400 }
    ensures { OnOk result (text.new.items ≡ text.old.items ++ end_text bands.now seconds last given) }
{
    if !is_drawn(last, given.tick) {
        return Ok(());
    }
    append_among(text, seconds, given, bands)
}

/// Whether the last tick of a green that ends at a tick is one of the picture.
fn is_drawn(last: u32, tick: u32) -> bool
    ensures { result ≡ is_drawn last tick }
{
    2 <= tick && u64::from(tick) <= u64::from(last) + 1
}

/// Adds the letter of an end to a text, in the bands of the head of its phase.
fn append_among(
    text: &mut Vec<u8>,
    seconds: u32,
    given: GreenEnd,
    bands: &[Band],
) -> Result<(), AllocError>
    requires some { 1 ≤ seconds }
    requires most { seconds ≤ 86400 }
    ensures { OnOk result (text.new.items ≡ text.old.items ++ letter_among (length bands.now) seconds given 0 bands.now) }
{
    for (place, band) in bands.iter().enumerate() {
        append_in(text, bands.len(), seconds, given, place, *band)?;
    }
    Ok(())
}

/// Adds the letter of an end to a text in the band at this place, where that is the head of its phase.
#[tactic(auto, unfolding(crate::specs::Letters::letter_in))]
fn append_in(
    text: &mut Vec<u8>,
    count: usize,
    seconds: u32,
    given: GreenEnd,
    place: usize,
    band: Band,
) -> Result<(), AllocError>
    requires some { 1 ≤ seconds }
    requires most { seconds ≤ 86400 }
    ensures { OnOk result (text.new.items ≡ text.old.items ++ letter_in count seconds given place band) }
{
    if is_head(band.kind) && u32::from(band.number) == given.phase {
        append_letter(text, count, seconds, given, place)?;
    }
    Ok(())
}

/// Whether bands of this kind are of heads of phases.
fn is_head(kind: BandKind) -> bool
    ensures { result ≡ is_head kind }
{
    match kind {
        BandKind::Vehicle => true,
        _ => false,
    }
}

/// Adds the letter of an end to a text, in the band at this place.
fn append_letter(
    text: &mut Vec<u8>,
    count: usize,
    seconds: u32,
    given: GreenEnd,
    place: usize,
) -> Result<(), AllocError>
    requires some { 1 ≤ seconds }
    requires most { seconds ≤ 86400 }
    ensures { OnOk result (text.new.items ≡ text.old.items ++ letter_text count seconds given place) }
{
    append_attribute(text, b"<text x=\"", letter_end(seconds, given.tick))?;
    append_attribute(
        text,
        b" y=\"",
        letter_foot(count, seconds, place, given.tick),
    )?;
    append(text, b">")?;
    append(text, letter_of(given.why))?;
    append(text, b"</text>\n")
}

/// How far from the left the letter of a green that ends at a tick itself ends: a unit before its green.
fn letter_end(seconds: u32, tick: u32) -> u128
    requires some { 1 ≤ seconds }
    requires most { seconds ≤ 86400 }
    ensures { result ≡ letter_end seconds tick }
{
    let ticks = 10 * seconds;
    let within = u128::from(tick.saturating_sub(2) % ticks);
    (LEFT - 1) + (within + 1) * WIDTH / u128::from(ticks)
}

/// How far from the top it is, in the band at this place among so many.
fn letter_foot(count: usize, seconds: u32, place: usize, tick: u32) -> u128
    requires some { 1 ≤ seconds }
    requires most { seconds ≤ 86400 }
    ensures { result ≡ letter_foot count seconds place tick }
{
    let line = tick.saturating_sub(2) / (10 * seconds);
    line_top(count, line) + (BAND * place as u128 + 12)
}

/// The letter of why a green ended.
fn letter_of(why: Why) -> &'static [u8]
    ensures { result.now ≡ letter_of why }
{
    match why {
        Why::Gap => b"G",
        Why::Maximum => b"M",
        Why::ForceOff => b"F",
    }
}
