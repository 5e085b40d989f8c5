//! The lines of a diagram.
ghost use Rattle.std.specs.Prelude.{◌≡◌, ◌≤◌, ◌<◌, ◌++◌, ◌*◌, ◌^◌, OnOk};
ghost use Rattle.tsb_field_diagram.specs.Lines.{all_lines, band_text, bands_text, end_tick, first_tick, frame_text, head_text, height_of, label_text, labels_text, line_clock, line_count, line_height, line_text, line_top, name_of, plot_text};

use crate::axis::{append_axis, begin_of};
use crate::band::{BAND, Band, BandKind};
use crate::bars::{append_bars, before_tick, from_tick};
use crate::write::{append, append_attribute, append_clock, append_named, append_number};
use std::alloc::AllocError;
use tsb_field_display::Shown;
use tsb_log_text::LogRow;

/// How far from the top the lines begin.
pub(crate) const TOP: u128 = 64;

/// How ticks are laid out in lines.
#[derive(Clone, Copy)]
pub(crate) struct Scale {
    /// The time of day at which tick 1 begins, in tenths of a second, or `None` where time counts from tick 1.
    pub(crate) clock: Option<u32>,
    /// How many seconds a line shows, 1 to 86,400.
    pub(crate) seconds: u32,
    /// The last tick that is drawn, 0 where none is.
    pub(crate) last: u32,
}

/// Adds the lines of a diagram to a text.
pub(crate) fn append_lines(
    text: &mut Vec<u8>,
    bands: &[Band],
    scale: Scale,
    changes: &[Shown],
    rows: &[LogRow],
) -> Result<(), AllocError>
    requires some { 1 ≤ scale.seconds }
    requires most { scale.seconds ≤ 86400 }
    ensures { OnOk result (text.new.items ≡ text.old.items ++ all_lines bands.now scale changes.now rows.now) }
{
    let mut changes = changes;
    let mut rows = rows;
    let count = line_count(scale.seconds, scale.last);
    for line in 0..count {
        let first = first_tick(scale.seconds, line);
        changes = from_tick(changes, first);
        rows = from_tick(rows, first);
        append_line(text, bands, scale, line, changes, rows)?;
    }
    Ok(())
}

/// How many lines there are.
pub(crate) fn line_count(seconds: u32, last: u32) -> u32
    requires some { 1 ≤ seconds }
    requires most { seconds ≤ 86400 }
    ensures { result ≡ line_count seconds last }
{
    if last == 0 {
        0
    } else {
        (last - 1) / (10 * seconds) + 1
    }
}

/// How high a line is.
pub(crate) fn line_height(bands: usize) -> u128
    ensures same { result ≡ line_height bands }
    ensures fits { result < 2 ^ 69 }
{
    BAND * bands as u128 + 36
}

/// How far from the top a line is.
pub(crate) fn line_top(bands: usize, line: u32) -> u128
    ensures same { result ≡ line_top bands line }
    ensures fits { result < 2 ^ 102 }
{
    TOP + u128::from(line) * line_height(bands)
}

/// Adds the clock of a line to a text.
fn append_line_clock(
    text: &mut Vec<u8>,
    clock: Option<u32>,
    seconds: u32,
    line: u32,
) -> Result<(), AllocError>
    requires { seconds ≤ 86400 }
    ensures { OnOk result (text.new.items ≡ text.old.items ++ line_clock clock seconds line) }
{
    append_clock(text, clock, u128::from(begin_of(clock, seconds, line) / 10))
}

/// The first tick of a line.
fn first_tick(seconds: u32, line: u32) -> u64
    requires { seconds ≤ 86400 }
    ensures same { result ≡ first_tick seconds line }
    ensures fits { result < 2 ^ 63 }
{
    u64::from(line) * (10 * u64::from(seconds)) + 1
}

/// The tick after the last one of a line: the last line ends with the last tick.
fn end_tick(seconds: u32, last: u32, line: u32) -> u64
    requires { seconds ≤ 86400 }
    ensures { result ≡ end_tick seconds last line }
{
    let first = first_tick(seconds, line);
    u64::min(first + 10 * u64::from(seconds), u64::from(last) + 1)
}

/// Adds a line to a text, by what is in force from its first tick on.
fn append_line(
    text: &mut Vec<u8>,
    bands: &[Band],
    scale: Scale,
    line: u32,
    changes: &[Shown],
    rows: &[LogRow],
) -> Result<(), AllocError>
    requires some { 1 ≤ scale.seconds }
    requires most { scale.seconds ≤ 86400 }
    ensures { OnOk result (text.new.items ≡ text.old.items ++ line_text bands.now scale line changes.now rows.now) }
{
    append_head(text, bands.len(), scale.clock, scale.seconds, line)?;
    append_labels(text, bands)?;
    append_axis(text, bands.len(), scale.clock, scale.seconds, line)?;
    append_plot(text, bands, scale, line, changes, rows)?;
    append(text, b"</svg>\n")
}

/// Adds the head of a line to a text: where the line is, and its clock.
fn append_head(
    text: &mut Vec<u8>,
    bands: usize,
    clock: Option<u32>,
    seconds: u32,
    line: u32,
) -> Result<(), AllocError>
    requires { seconds ≤ 86400 }
    ensures { OnOk result (text.new.items ≡ text.old.items ++ head_text bands clock seconds line) }
{
    append_attribute(text, b"<svg width=\"1160\" height=\"", line_height(bands))?;
    append_attribute(text, b" y=\"", line_top(bands, line))?;
    append(text, b">\n<text class=\"b\" x=\"4\" y=\"12\">")?;
    append_line_clock(text, clock, seconds, line)?;
    append(text, b"</text>\n")
}

/// Adds the labels of bands to a text.
fn append_labels(text: &mut Vec<u8>, bands: &[Band]) -> Result<(), AllocError>
    ensures { OnOk result (text.new.items ≡ text.old.items ++ labels_text 0 bands.now) }
{
    for (place, band) in bands.iter().enumerate() {
        append_label(text, place, *band)?;
    }
    Ok(())
}

/// Adds the label of a band to a text.
fn append_label(text: &mut Vec<u8>, place: usize, band: Band) -> Result<(), AllocError>
    ensures { OnOk result (text.new.items ≡ text.old.items ++ label_text place band) }
{
    append_attribute(
        text,
        b"<text class=\"l\" x=\"132\" y=\"",
        BAND * place as u128 + 12,
    )?;
    append(text, b">")?;
    append_name(text, band.kind, u128::from(band.number))?;
    append(text, b"</text>\n")
}

/// Adds the name of a band to a text.
fn append_name(text: &mut Vec<u8>, kind: BandKind, number: u128) -> Result<(), AllocError>
    ensures { OnOk result (text.new.items ≡ text.old.items ++ name_of kind number) }
{
    match kind {
        BandKind::Preempt => append_named(text, b"preempt ", number),
        BandKind::Flash => append(text, b"flash"),
        BandKind::Vehicle => append_number(text, number),
        BandKind::Pedestrian => {
            append_number(text, number)?;
            append(text, b" ped")
        }
        BandKind::Overlap => append_named(text, b"overlap ", number),
        BandKind::VehicleInput => append_named(text, b"detector ", number),
        BandKind::PedestrianInput => append_named(text, b"ped detector ", number),
        BandKind::PreemptInput => append_named(text, b"preempt input ", number),
    }
}

/// Adds the bars of a line to a text, by what is in force from its first tick on.
fn append_plot(
    text: &mut Vec<u8>,
    bands: &[Band],
    scale: Scale,
    line: u32,
    changes: &[Shown],
    rows: &[LogRow],
) -> Result<(), AllocError>
    requires { scale.seconds ≤ 86400 }
    ensures { OnOk result (text.new.items ≡ text.old.items ++ plot_text bands.now scale line changes.now rows.now) }
{
    let first = first_tick(scale.seconds, line);
    let end = end_tick(scale.seconds, scale.last, line);
    let changes = before_tick(changes, end);
    let rows = before_tick(rows, end);
    append_frame(text, bands.len(), first, scale.seconds)?;
    append_bands(text, bands, first, end, changes, rows)?;
    append(text, b"</svg>\n")?;
    Ok(())
}

/// Adds the frame of the bars of a line to a text. A tick is one unit wide in it.
fn append_frame(
    text: &mut Vec<u8>,
    bands: usize,
    first: u64,
    seconds: u32,
) -> Result<(), AllocError>
    ensures { OnOk result (text.new.items ≡ text.old.items ++ frame_text (height_of bands) first (10 * seconds)) }
{
    let height = BAND * bands as u128;
    append_frame_of(text, height, u128::from(first), 10 * u128::from(seconds))
}

/// Adds a frame of this height to a text. So many units from the first on are drawn 1000 units wide in it.
pub(crate) fn append_frame_of(
    text: &mut Vec<u8>,
    height: u128,
    first: u128,
    units: u128,
) -> Result<(), AllocError>
    ensures { OnOk result (text.new.items ≡ text.old.items ++ frame_text height first units) }
{
    append_attribute(
        text,
        b"<svg x=\"140\" width=\"1000\" preserveAspectRatio=\"none\" height=\"",
        height,
    )?;
    append_named(text, b" viewBox=\"", first)?;
    append_named(text, b" 0 ", units)?;
    append_named(text, b" ", height)?;
    append(text, b"\">\n")
}

/// Adds the bars of bands to a text, by what is in force in a line.
fn append_bands(
    text: &mut Vec<u8>,
    bands: &[Band],
    first: u64,
    end: u64,
    changes: &[Shown],
    rows: &[LogRow],
) -> Result<(), AllocError>
    ensures { OnOk result (text.new.items ≡ text.old.items ++ bands_text first end changes.now rows.now 0 bands.now) }
{
    for (place, band) in bands.iter().enumerate() {
        append_bars(text, place, *band, first, end, changes)?;
        append_bars(text, place, *band, first, end, rows)?;
    }
    Ok(())
}
