//! How a flashing yellow arrow is drawn, and what the diagram says of it: only where one is ever shown.
ghost use Rattle.std.specs.Prelude.{◌≡◌, ◌++◌, OnOk};
ghost use Rattle.tsb_field_diagram.specs.ArrowKey.{class_text, has_arrow, key_text, name_text, pattern_text, sample_text, shows_arrow};

use crate::band::{Band, BandMark, mark_in_change};
use crate::bars::is_same;
use crate::page::append_pattern;
use crate::write::{append, append_named};
use std::alloc::AllocError;
use tsb_field_display::Shown;

/// Adds to a text how an arrow is drawn and what it is called, where some band ever shows one.
pub(crate) fn append_arrow_key(
    text: &mut Vec<u8>,
    bands: &[Band],
    seconds: u32,
    changes: &[Shown],
) -> Result<(), AllocError>
    ensures { OnOk result (text.new.items ≡ text.old.items ++ key_text bands.now seconds changes.now) }
{
    if !has_arrow(bands, changes) {
        return Ok(());
    }
    append(text, class())?;
    append_stripes(text, seconds)?;
    append_sample(text, seconds)?;
    append(text, name())
}

/// Whether some band ever shows an arrow.
fn has_arrow(bands: &[Band], changes: &[Shown]) -> bool
    ensures { result ≡ has_arrow changes.now bands.now }
{
    bands.iter().any(|band| shows_arrow(*band, changes))
}

/// Whether a band ever shows an arrow.
fn shows_arrow(band: Band, changes: &[Shown]) -> bool
    ensures { result ≡ shows_arrow changes.now band }
{
    changes.iter().any(|change| is_same(mark_in_change(band, change), BandMark::Arrow))
}

/// Adds the pattern of an arrow to a text: yellow that is broken and striped.
fn append_stripes(text: &mut Vec<u8>, seconds: u32) -> Result<(), AllocError>
    ensures { OnOk result (text.new.items ≡ text.old.items ++ pattern_text seconds) }
{
    append_pattern(
        text,
        b"<pattern id=\"q\" width=\"10\" height=\"12\" patternUnits=\"userSpaceOnUse\" patternTransform=\"scale(",
        seconds,
        b"e-2 1)\"><rect width=\"7\" height=\"12\" fill=\"#fd4\"/><rect width=\"2\" height=\"12\"/></pattern>\n",
    )
}

/// Adds the shape that the legend has of an arrow to a text.
fn append_sample(text: &mut Vec<u8>, seconds: u32) -> Result<(), AllocError>
    ensures { OnOk result (text.new.items ≡ text.old.items ++ sample_text seconds) }
{
    append_named(
        text,
        b"<svg x=\"140\" y=\"48\" width=\"1000\" height=\"16\" preserveAspectRatio=\"none\" viewBox=\"0 0 ",
        10 * u128::from(seconds),
    )?;
    append(
        text,
        b" 16\"><rect class=\"q\" height=\"8\" y=\"4\" x=\"55%\" width=\"3%\"/></svg>\n",
    )
}

/// The class of its shape.
#[tactic(auto, unfolding(crate::specs::ArrowKey::class_text))]
fn class() -> &'static [u8]
    ensures { result.now ≡ class_text }
{
    b"<style>.q{fill:url(#q)}</style>\n"
}

/// Its name.
#[tactic(auto, unfolding(crate::specs::ArrowKey::name_text))]
fn name() -> &'static [u8]
    ensures { result.now ≡ name_text }
{
    b"<text x=\"725\" y=\"60\">flashing yellow arrow</text>\n"
}
