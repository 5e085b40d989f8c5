//! A diagram as a whole.
ghost use Rattle.std.specs.Prelude.{◌≡◌, ◌≤◌, ◌++◌, IfOk, OnOk};
ghost use Rattle.tsb_types.specs.Lists.{or_number};
ghost use Rattle.tsb_field_diagram.specs.Text.{named_text};
ghost use Rattle.tsb_field_diagram.specs.Page.{bands_until, classes_text, clearance_text, clock_of, diagram_text, flash_text, legend_text, line_seconds, names_text, opening_text, page_head, page_height, picture_text, scale_of, shapes_text, style_text, titles_text, yellow_text};

use crate::arrow_key::append_arrow_key;
use crate::band::Band;
use crate::bars::before_tick;
use crate::ends::GreenEnd;
use crate::letters::append_ends;
use crate::line::{Scale, append_lines, line_count, line_top};
use crate::lit::bands;
use crate::title::append_title;
use crate::write::{append, append_named};
use std::alloc::{AllocError, Global};
use std::marker::Model;
use tsb_event_text::Moment;
use tsb_field_display::Shown;
use tsb_log_text::LogRow;

/// The most seconds of a line: a day.
const DAY: u32 = 86_400;

/// The nanoseconds of a tenth of a second.
const TENTH: u128 = 100_000_000;

/// The tenths of a second that a day has.
const TENTHS: u128 = 864_000;

/// How a diagram is laid out.
#[derive(Drop)]
pub struct DiagramForm<'a> {
    /// UTF-8 text above the lines. What has a meaning in XML is escaped. A character that XML forbids becomes `?`, such
    /// as U+FFFE, U+FFFF and each control but the tab and ends of lines.
    pub title: &'a [u8],
    /// How many seconds a line shows, 1 to 86,400: 0 is taken as 1, and more as 86,400.
    pub seconds_per_line: u32,
    /// The moment at which tick 1 begins, where the axis has the time of day; `None` where it begins at time 0.
    pub from: Option<Moment>,
}

impl<'a> Model for DiagramForm<'a> {
    ghost use Rattle.tsb_field_diagram.specs.Given.{Form};

    ghost Value = { Form };

    ghost view = { λ form. record { title = form.title.now; seconds = form.seconds_per_line; from = form.from } };
}

/// What a diagram draws of a session. A tick is a tenth of a second.
#[derive(Drop)]
pub struct DiagramSession<'a> {
    /// The first display line and those that show something other than the line before, whose ticks rise. What one
    /// shows holds up to the next, and what the last one shows up to the last tick.
    pub changes: &'a [Shown],
    /// The last tick. Where it is `None` or 0, the picture has no lines.
    pub last_tick: Option<u32>,
    /// The rows of a log of inputs, whose ticks rise. An input that is on in a row is on until the next row. There may be
    /// none.
    pub rows: &'a [LogRow],
    /// Ends of greens, each with a letter at the end of its green: G, M or F.
    pub ends: &'a [GreenEnd],
}

impl<'a> Model for DiagramSession<'a> {
    ghost use Rattle.tsb_field_diagram.specs.Given.{Session};

    ghost Value = { Session };

    ghost view = { λ session. record {
      changes = session.changes.now;
      last = session.last_tick;
      rows = session.rows.now;
      ends = session.ends.now;
    } };
}

/// The phase diagram of a session, as a picture in SVG. The error is that memory ran out.
///
/// Each line has from top to bottom what is ever lit, or on up to the last tick: the preempts in service, flash, the head
/// of each phase with its pedestrian head below it, the overlaps, vehicle detectors, pedestrian detectors and preempt
/// inputs. Below them it has an axis of seconds, with the clock at minutes. A bar begins at its tick and is its ticks
/// wide. Where a head is dark there is no bar. Where there are ends of greens, a line below the legend says what their
/// letters mean, and where some arrow ever flashes, how that is drawn. The form of the picture is "profile".
pub fn diagram_text(
    alloc: Global,
    form: &DiagramForm<'_>,
    session: &DiagramSession<'_>,
) -> Result<Vec<u8>, AllocError>
    ensures { IfOk result (λ text. text.items ≡ diagram_text form.now session.now) }
{
    let last = session.last_tick.unwrap_or(0);
    let scale = scale_of(form, last);
    let bands = bands_until(alloc, session, last)?;
    let mut text = Vec::new(alloc);
    append_picture(&mut text, form.title, &bands, scale, session)?;
    Ok(text)
}

/// How the lines of a diagram are laid out, up to this tick.
fn scale_of(form: &DiagramForm<'_>, last: u32) -> Scale
    ensures same { result ≡ scale_of form.now last }
    ensures some { 1 ≤ result.seconds }
    ensures most { result.seconds ≤ 86400 }
{
    Scale {
        clock: clock_of(form.from),
        seconds: line_seconds(form.seconds_per_line),
        last,
    }
}

/// The bands of what is ever lit, or on up to this tick.
fn bands_until(
    alloc: Global,
    session: &DiagramSession<'_>,
    last: u32,
) -> Result<Vec<Band>, AllocError>
    ensures { IfOk result (λ bands. bands.items ≡ bands_until session.now last) }
{
    let rows = before_tick(session.rows, u64::from(last) + 1);
    bands(alloc, session.changes, rows)
}

/// The time of day at which tick 1 begins, in tenths of a second, where its moment is known.
fn clock_of(from: Option<Moment>) -> Option<u32>
    ensures { result ≡ clock_of from }
{
    match from {
        None => None,
        Some(moment) => Some((moment.nanos / TENTH % TENTHS) as u32),
    }
}

/// The seconds of a line: 1 to a day.
fn line_seconds(asked: u32) -> u32
    ensures same { result ≡ line_seconds asked }
    ensures some { 1 ≤ result }
    ensures most { result ≤ 86400 }
{
    u32::min(u32::max(asked, 1), DAY)
}

/// Adds the diagram of these bands to a text.
fn append_picture(
    text: &mut Vec<u8>,
    title: &[u8],
    bands: &[Band],
    scale: Scale,
    session: &DiagramSession<'_>,
) -> Result<(), AllocError>
    requires some { 1 ≤ scale.seconds }
    requires most { scale.seconds ≤ 86400 }
    ensures { OnOk result (text.new.items ≡ text.old.items ++ picture_text title.now bands.now scale session.now) }
{
    let height = page_height(bands.len(), scale.seconds, scale.last);
    append_page_head(text, title, scale.seconds, height)?;
    append_arrow_key(text, bands, scale.seconds, session.changes)?;
    append_lines(text, bands, scale, session.changes, session.rows)?;
    append_ends(text, bands, scale.seconds, scale.last, session.ends)?;
    append(text, b"</svg>\n")
}

/// How high the picture is.
fn page_height(bands: usize, seconds: u32, last: u32) -> u128
    requires some { 1 ≤ seconds }
    requires most { seconds ≤ 86400 }
    ensures { result ≡ page_height bands seconds last }
{
    line_top(bands, line_count(seconds, last))
}

/// Adds all that comes before the lines to a text.
fn append_page_head(
    text: &mut Vec<u8>,
    title: &[u8],
    seconds: u32,
    height: u128,
) -> Result<(), AllocError>
    ensures { OnOk result (text.new.items ≡ text.old.items ++ page_head title.now seconds height) }
{
    append_opening(text, height)?;
    append_titles(text, title)?;
    append_classes(text, seconds)?;
    append_legend(text, seconds)
}

/// Adds the head of the picture to a text.
pub(crate) fn append_opening(text: &mut Vec<u8>, height: u128) -> Result<(), AllocError>
    ensures { OnOk result (text.new.items ≡ text.old.items ++ opening_text height) }
{
    append_named(
        text,
        b"<svg xmlns=\"http://www.w3.org/2000/svg\" font-family=\"sans-serif\" font-size=\"11\" width=\"1160\" height=\"",
        height,
    )?;
    append_named(text, b"\" viewBox=\"0 0 1160 ", height)?;
    append(text, b"\">\n")
}

/// Adds the title to a text.
pub(crate) fn append_titles(text: &mut Vec<u8>, title: &[u8]) -> Result<(), AllocError>
    ensures { OnOk result (text.new.items ≡ text.old.items ++ titles_text title.now) }
{
    append(text, b"<title>")?;
    append_title(text, title)?;
    append(
        text,
        b"</title>\n<rect width=\"100%\" height=\"100%\" fill=\"#fff\"/>\n<text class=\"t\" x=\"4\" y=\"20\">",
    )?;
    append_title(text, title)?;
    append(text, b"</text>\n")
}

/// Adds the classes and patterns of shapes to a text.
fn append_classes(text: &mut Vec<u8>, seconds: u32) -> Result<(), AllocError>
    ensures { OnOk result (text.new.items ≡ text.old.items ++ classes_text seconds) }
{
    append(text, style())?;
    append_flash(text, seconds)?;
    append_yellow(text, seconds)?;
    append_clearance(text, seconds)
}

/// Adds a pattern to a text, with the seconds of a line between these two parts.
pub(crate) fn append_pattern(
    text: &mut Vec<u8>,
    first: &[u8],
    seconds: u32,
    rest: &[u8],
) -> Result<(), AllocError>
    ensures { OnOk result (text.new.items ≡ text.old.items ++ (named_text first.now seconds ++ rest.now)) }
{
    append_named(text, first, u128::from(seconds))?;
    append(text, rest)
}

/// Adds the pattern of what flashes to a text.
fn append_flash(text: &mut Vec<u8>, seconds: u32) -> Result<(), AllocError>
    ensures { OnOk result (text.new.items ≡ text.old.items ++ flash_text seconds) }
{
    append_pattern(
        text,
        b"<pattern id=\"f\" width=\"10\" height=\"12\" patternUnits=\"userSpaceOnUse\" patternTransform=\"scale(",
        seconds,
        b"e-2 1)\"><rect width=\"5\" height=\"12\" fill=\"#c00\"/></pattern>\n",
    )
}

/// Adds the pattern of yellow to a text.
fn append_yellow(text: &mut Vec<u8>, seconds: u32) -> Result<(), AllocError>
    ensures { OnOk result (text.new.items ≡ text.old.items ++ yellow_text seconds) }
{
    append_pattern(
        text,
        b"<pattern id=\"h\" width=\"6\" height=\"6\" patternUnits=\"userSpaceOnUse\" patternTransform=\"scale(",
        seconds,
        b"e-2 1) rotate(45)\"><rect width=\"6\" height=\"6\" fill=\"#fd4\"/><rect width=\"2\" height=\"6\"/></pattern>\n",
    )
}

/// Adds the pattern of clearance to a text.
fn append_clearance(text: &mut Vec<u8>, seconds: u32) -> Result<(), AllocError>
    ensures { OnOk result (text.new.items ≡ text.old.items ++ clearance_text seconds) }
{
    append_pattern(
        text,
        b"<pattern id=\"i\" width=\"4\" height=\"4\" patternUnits=\"userSpaceOnUse\" patternTransform=\"scale(",
        seconds,
        b"e-2 1) rotate(-45)\"><rect width=\"4\" height=\"4\" fill=\"#fff\"/><rect width=\"2\" height=\"4\" fill=\"#06c\"/></pattern>\n",
    )
}

/// Adds the legend to a text.
fn append_legend(text: &mut Vec<u8>, seconds: u32) -> Result<(), AllocError>
    ensures { OnOk result (text.new.items ≡ text.old.items ++ legend_text seconds) }
{
    append_named(
        text,
        b"<svg x=\"140\" y=\"32\" width=\"1000\" height=\"16\" preserveAspectRatio=\"none\" viewBox=\"0 0 ",
        10 * u128::from(seconds),
    )?;
    append(text, b" 16\">\n")?;
    append(text, shapes())?;
    append(text, names())
}

/// The classes of its shapes.
#[tactic(auto, unfolding(crate::specs::Page::style_text))]
fn style() -> &'static [u8]
    ensures { result.now ≡ style_text }
{
    b"<style>.g{fill:#1a7f37}.y{fill:url(#h)}.r{fill:#c00}.f{fill:url(#f)}.w{fill:#06c}.c{fill:url(#i)}.d{fill:#888}.p{fill:#639}.o{fill:#000}.a{stroke:#bbb}.b{font-weight:bold}.k{text-anchor:middle}.l{text-anchor:end}.t{font-size:16px;font-weight:bold}</style>\n"
}

/// The shapes of the legend.
#[tactic(auto, unfolding(crate::specs::Page::shapes_text))]
fn shapes() -> &'static [u8]
    ensures { result.now ≡ shapes_text }
{
    b"<rect class=\"g\" height=\"12\" y=\"2\" x=\"0%\" width=\"3%\"/><rect class=\"y\" height=\"12\" y=\"2\" x=\"11%\" width=\"3%\"/><rect class=\"r\" height=\"3\" y=\"7\" x=\"22%\" width=\"3%\"/><rect class=\"f\" height=\"6\" y=\"5\" x=\"33%\" width=\"3%\"/><rect class=\"w\" height=\"8\" y=\"4\" x=\"44%\" width=\"3%\"/><rect class=\"c\" height=\"8\" y=\"4\" x=\"55%\" width=\"3%\"/><rect class=\"d\" height=\"1\" y=\"8\" x=\"66%\" width=\"3%\"/><rect class=\"p\" height=\"8\" y=\"4\" x=\"77%\" width=\"3%\"/><rect class=\"o\" height=\"4\" y=\"6\" x=\"88%\" width=\"3%\"/></svg>\n"
}

/// Their names.
#[tactic(auto, unfolding(crate::specs::Page::names_text))]
fn names() -> &'static [u8]
    ensures { result.now ≡ names_text }
{
    b"<text x=\"175\" y=\"44\">green</text><text x=\"285\" y=\"44\">yellow</text><text x=\"395\" y=\"44\">red</text><text x=\"505\" y=\"44\">flashing red</text><text x=\"615\" y=\"44\">walk</text><text x=\"725\" y=\"44\">clearance</text><text x=\"835\" y=\"44\">don't walk</text><text x=\"945\" y=\"44\">preempt</text><text x=\"1055\" y=\"44\">input on</text>\n"
}
