//! The bars of a band in a line of a diagram.
ghost use Rattle.std.specs.Prelude.{◌≡◌, ℕ, ◌++◌, ◌+◌, ◌-◌, OnOk};
ghost use Rattle.tsb_field_diagram.specs.declared.band.Band.{Band};
ghost use Rattle.tsb_field_diagram.specs.declared.band.BandMark.{BandMark};
ghost use Rattle.tsb_field_diagram.specs.Bands.{mark_in_change, mark_in_row, tick_of_change, tick_of_row};
ghost use Rattle.tsb_field_diagram.specs.Bars.{bar_text, bars_of, bars_text, before_tick, from_tick, inset_of, is_same, number_of, shape_of};

use crate::band::{BAND, Band, BandMark, mark_in_change, mark_in_row};
use crate::write::{append, append_attribute};
use std::alloc::AllocError;
use tsb_field_display::Shown;
use tsb_log_text::LogRow;

/// What is in force from a tick on, until the next of its kind.
pub(crate) trait InForce {
    /// The tick from which it is in force.
    ghost tick_of: { Self → ℕ };

    /// What a band shows of it.
    ghost mark_of: { Band → Self → BandMark };

    /// The tick from which it is in force.
    fn tick(&self) -> u32
        ensures { result ≡ tick_of self.now };

    /// What a band shows of it.
    fn mark(&self, band: Band) -> BandMark
        ensures { result ≡ mark_of band self.now };
}

impl InForce for Shown {
    ghost tick_of = { tick_of_change };

    ghost mark_of = { mark_in_change };

    fn tick(&self) -> u32 {
        self.tick
    }

    fn mark(&self, band: Band) -> BandMark {
        mark_in_change(band, self)
    }
}

impl InForce for LogRow {
    ghost tick_of = { tick_of_row };

    ghost mark_of = { mark_in_row };

    fn tick(&self) -> u32 {
        self.tick
    }

    fn mark(&self, band: Band) -> BandMark {
        mark_in_row(band, self)
    }
}

/// What is in force at a tick, or else the first, and all after it.
pub(crate) fn from_tick<T: InForce>(items: &[T], first: u64) -> &[T]
    ensures { result.now ≡ from_tick T.tick_of first items.now }
{
    let mut from = 0;
    while items.len() - from > 1 && u64::from(items[from + 1].tick()) <= first {
        from += 1;
    }
    &items[from..]
}

/// What comes before a tick.
pub(crate) fn before_tick<T: InForce>(items: &[T], end: u64) -> &[T]
    ensures { result.now ≡ before_tick T.tick_of end items.now }
{
    for (index, item) in items.iter().enumerate() {
        if u64::from(item.tick()) >= end {
            return &items[..index];
        }
    }
    items
}

/// Adds the bars of a band to a text, by what is in force in a line.
pub(crate) fn append_bars<T: InForce>(
    text: &mut Vec<u8>,
    place: usize,
    band: Band,
    first: u64,
    end: u64,
    items: &[T],
) -> Result<(), AllocError>
    ensures { OnOk result (text.new.items ≡ text.old.items ++ bars_text place (bars_of T.tick_of (T.mark_of band) first end items.now)) }
{
    if items.is_empty() {
        return Ok(());
    }
    let earliest = &items[0];
    let mut begin = u64::max(first, u64::from(earliest.tick()));
    let mut now = earliest.mark(band);
    for item in &items[1..] {
        let next = item.mark(band);
        if !is_same(next, now) {
            append_bar(text, place, begin, u64::from(item.tick()), now)?;
            begin = u64::from(item.tick());
            now = next;
        }
    }
    append_bar(text, place, begin, end, now)?;
    Ok(())
}

/// Whether two marks are the same.
pub(crate) fn is_same(one: BandMark, other: BandMark) -> bool
    ensures { result ≡ is_same one other }
{
    number_of(one) == number_of(other)
}

/// A mark, as a number.
fn number_of(mark: BandMark) -> u8
    ensures { result ≡ number_of mark }
{
    match mark {
        BandMark::Dark => 0,
        BandMark::Green => 1,
        BandMark::Yellow => 2,
        BandMark::Red => 3,
        BandMark::Flashing => 4,
        BandMark::Walk => 5,
        BandMark::Clearance => 6,
        BandMark::DontWalk => 7,
        BandMark::Served => 8,
        BandMark::On => 9,
        BandMark::Arrow => 10,
    }
}

/// Adds a bar to a text: nothing where the band is dark.
fn append_bar(
    text: &mut Vec<u8>,
    place: usize,
    begin: u64,
    end: u64,
    mark: BandMark,
) -> Result<(), AllocError>
    ensures { OnOk result (text.new.items ≡ text.old.items ++ bar_text place begin end mark) }
{
    if is_same(mark, BandMark::Dark) {
        return Ok(());
    }
    append_attribute(text, shape_of(mark), u128::from(begin))?;
    append_attribute(text, b" y=\"", BAND * place as u128 + inset_of(mark))?;
    append_attribute(text, b" width=\"", u128::from(end.saturating_sub(begin)))?;
    append(text, b"/>\n")
}

/// A shape of a mark, up to where it begins.
fn shape_of(mark: BandMark) -> &'static [u8]
    ensures { result.now ≡ shape_of mark }
{
    match mark {
        BandMark::Dark => b"",
        BandMark::Green => b"<rect class=\"g\" height=\"12\" x=\"",
        BandMark::Yellow => b"<rect class=\"y\" height=\"12\" x=\"",
        BandMark::Red => b"<rect class=\"r\" height=\"3\" x=\"",
        BandMark::Flashing => b"<rect class=\"f\" height=\"6\" x=\"",
        BandMark::Walk => b"<rect class=\"w\" height=\"8\" x=\"",
        BandMark::Clearance => b"<rect class=\"c\" height=\"8\" x=\"",
        BandMark::DontWalk => b"<rect class=\"d\" height=\"1\" x=\"",
        BandMark::Served => b"<rect class=\"p\" height=\"8\" x=\"",
        BandMark::On => b"<rect class=\"o\" height=\"4\" x=\"",
        BandMark::Arrow => b"<rect class=\"q\" height=\"8\" x=\"",
    }
}

/// How far a shape of a mark is below the top of its band.
fn inset_of(mark: BandMark) -> u128
    ensures { result ≡ inset_of mark }
{
    match mark {
        BandMark::Dark => 0,
        BandMark::Green | BandMark::Yellow => 2,
        BandMark::Red => 7,
        BandMark::Flashing => 5,
        BandMark::Walk | BandMark::Clearance | BandMark::Served | BandMark::Arrow => 4,
        BandMark::DontWalk => 8,
        BandMark::On => 6,
    }
}
