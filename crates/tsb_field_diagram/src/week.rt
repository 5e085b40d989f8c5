//! What is in force in a week, as a picture.
ghost use Rattle.std.specs.Prelude.{◌≡◌, ◌<◌, ◌+◌, ◌*◌, ◌/◌, ◌++◌, IfOk, OnOk, drop, length, map};
ghost use Rattle.tsb_field_diagram.specs.Lines.{place_of};
ghost use Rattle.tsb_field_diagram.specs.Week.{action_text, begin_in_day, between_text, day_text, days_text, end_before, end_in_day, fill_of, hour_place, hour_text, hours_text, label_between, least_minutes, middle_text, minute_text, of_each, pattern_text, tip_text, week_band, week_drawing, week_head, week_label, week_plot, week_shape, week_style};

use crate::axis::{append_grid, place_of};
use crate::line::append_frame_of;
use crate::page::{append_opening, append_titles};
use crate::write::{append, append_attribute, append_named, append_number, append_two_digits};
use std::alloc::{AllocError, Global};

/// The minutes of a week, and of a day.
const WEEK: u32 = 10_080;

const DAY: u32 = 1_440;

/// The seconds of a day.
const DAY_SECONDS: u32 = 86_400;

/// How high the picture is, and its seven rows together.
const HEIGHT: u128 = 292;

const ROWS: u128 = 224;

/// How many bands of a diagram are as high as the seven rows.
const BANDS: usize = 14;

/// How high the row of a day is.
const ROW: u128 = 32;

/// How many fills the patterns have.
const FILLS: u32 = 8;

/// What is in force in a week from a minute on, until the next of its kind begins or the week is over.
#[derive(Clone, Copy)]
pub struct WeekBand {
    /// The minute of the week with which it begins, 0 to 10,079.
    pub minute: u32,
    /// The action, 0 for none.
    pub action: u32,
    /// The pattern that it selects, 0 for free.
    pub pattern: u32,
}

/// What is in force in a week, as a picture in SVG. The error is that memory ran out.
///
/// `title` is UTF-8 text, as that of a diagram. `days` has the labels of the seven days, in ASCII without what has a
/// meaning in XML. `bands` begin in rising order, and one begins with each midnight. Each day is a row, with an axis of
/// hours from 0 to 24 below all. A band begins at its minute and is its minutes wide. Its fill is that of its pattern,
/// and its label names it, unless it is too narrow for that. A viewer shows its pattern, times and action. The
/// form of the picture is "profile".
pub fn draw_week(
    alloc: Global,
    title: &[u8],
    days: &[&[u8]],
    bands: &[WeekBand],
) -> Result<Vec<u8>, AllocError>
    ensures { IfOk result (λ text. text.items ≡ week_drawing title.now (map (λ day. day.now) days.now) bands.now) }
{
    let mut text = Vec::new(alloc);
    append_week(&mut text, title, days, bands)?;
    Ok(text)
}

/// Adds the picture of a week to a text.
fn append_week(
    text: &mut Vec<u8>,
    title: &[u8],
    days: &[&[u8]],
    bands: &[WeekBand],
) -> Result<(), AllocError>
    ensures { OnOk result (text.new.items ≡ text.old.items ++ week_drawing title.now (map (λ day. day.now) days.now) bands.now) }
{
    append_week_head(text, title)?;
    append_days(text, days)?;
    append_hours(text)?;
    append_plot(text, bands)?;
    append_labels(text, bands)?;
    append(text, b"</svg>\n</svg>\n")
}

/// Adds all that comes before the days to a text.
fn append_week_head(text: &mut Vec<u8>, title: &[u8]) -> Result<(), AllocError>
    ensures { OnOk result (text.new.items ≡ text.old.items ++ week_head title.now) }
{
    append_opening(text, HEIGHT)?;
    append_titles(text, title)?;
    append(text, week_style())?;
    append(text, b"<svg width=\"1160\" height=\"260\" y=\"32\">\n")
}

/// The classes of its shapes.
#[tactic(auto, unfolding(crate::specs::Week::week_style))]
fn week_style() -> &'static [u8]
    ensures { result.now ≡ week_style }
{
    b"<style>.p0{fill:#ddd}.p1{fill:#7ad}.p2{fill:#ed8}.p3{fill:#fab}.p4{fill:#4b9}.p5{fill:#e86}.p6{fill:#9df}.p7{fill:#bc3}.p8{fill:#aa0}svg svg rect{stroke:#555;vector-effect:non-scaling-stroke}.a{stroke:#bbb}.k{text-anchor:middle;pointer-events:none}.l{text-anchor:end}.t{font-size:16px;font-weight:bold}</style>\n"
}

/// Adds the labels of days to a text.
fn append_days(text: &mut Vec<u8>, days: &[&[u8]]) -> Result<(), AllocError>
    ensures { OnOk result (text.new.items ≡ text.old.items ++ days_text 0 (map (λ day. day.now) days.now)) }
{
    for (place, day) in days.iter().enumerate() {
        append_day(text, place, day)?;
    }
    Ok(())
}

/// Adds the label of a day to a text.
fn append_day(text: &mut Vec<u8>, place: usize, day: &[u8]) -> Result<(), AllocError>
    ensures { OnOk result (text.new.items ≡ text.old.items ++ day_text place day.now) }
{
    append_attribute(
        text,
        b"<text class=\"l\" x=\"132\" y=\"",
        ROW * place as u128 + 20,
    )?;
    append(text, b">")?;
    append(text, day)?;
    append(text, b"</text>\n")
}

/// Adds the axis of hours to a text.
fn append_hours(text: &mut Vec<u8>) -> Result<(), AllocError>
    ensures { OnOk result (text.new.items ≡ text.old.items ++ hours_text) }
{
    for hour in 0..25u32 {
        append_hour(text, hour)?;
    }
    Ok(())
}

/// Adds the mark of an hour to a text.
fn append_hour(text: &mut Vec<u8>, hour: u32) -> Result<(), AllocError>
    ensures { OnOk result (text.new.items ≡ text.old.items ++ hour_text hour) }
{
    let place = hour_place(hour);
    append_grid(text, BANDS, place)?;
    append_attribute(text, b"<text class=\"k\" x=\"", place)?;
    append(text, b" y=\"240\">")?;
    append_number(text, u128::from(hour))?;
    append(text, b"</text>\n")
}

/// How far from the left an hour is.
fn hour_place(hour: u32) -> u128
    ensures { result ≡ hour_place hour }
{
    place_of(DAY_SECONDS, 0, 3600 * u128::from(hour))
}

/// Adds bands to a text, with their frame.
fn append_plot(text: &mut Vec<u8>, bands: &[WeekBand]) -> Result<(), AllocError>
    ensures { OnOk result (text.new.items ≡ text.old.items ++ week_plot bands.now) }
{
    append_frame_of(text, ROWS, 0, u128::from(DAY))?;
    append_bands(text, bands)?;
    append(text, b"</svg>\n")
}

/// Adds bands to a text.
fn append_bands(text: &mut Vec<u8>, bands: &[WeekBand]) -> Result<(), AllocError>
    ensures { OnOk result (text.new.items ≡ text.old.items ++ of_each week_band bands.now) }
{
    for (index, band) in bands.iter().enumerate() {
        append_band(text, *band, end_at(bands, index))?;
    }
    Ok(())
}

/// Adds the labels of bands to a text.
fn append_labels(text: &mut Vec<u8>, bands: &[WeekBand]) -> Result<(), AllocError>
    ensures { OnOk result (text.new.items ≡ text.old.items ++ of_each week_label bands.now) }
{
    for (index, band) in bands.iter().enumerate() {
        append_label(text, *band, end_at(bands, index))?;
    }
    Ok(())
}

/// The minute of the week with which the band at an index ends.
fn end_at(bands: &[WeekBand], index: usize) -> u32
    requires { index < length bands.now }
    ensures { result ≡ end_before (drop (index + 1) bands.now) }
{
    if bands.len() - index > 1 {
        bands[index + 1].minute
    } else {
        WEEK
    }
}

/// The minute of its day with which a band begins.
fn begin_in_day(band: WeekBand) -> u32
    ensures same { result ≡ begin_in_day band }
    ensures within { result < 1440 }
{
    band.minute % DAY
}

/// A minute of the week, counted from the midnight of a band's day.
fn end_in_day(band: WeekBand, end: u32) -> u32
    ensures { result ≡ end_in_day band end }
{
    end.saturating_sub(band.minute - begin_in_day(band))
}

/// How far from the top something is in the row of a band's day.
fn height_in_row(band: WeekBand, inset: u128) -> u128
    requires { inset < 32 }
    ensures { result ≡ 32 * (band.minute / 1440) + inset }
{
    ROW * u128::from(band.minute / DAY) + inset
}

/// Adds a band to a text that ends with a minute of the week.
fn append_band(text: &mut Vec<u8>, band: WeekBand, end: u32) -> Result<(), AllocError>
    ensures { OnOk result (text.new.items ≡ text.old.items ++ week_band band end) }
{
    append_between(text, band, begin_in_day(band), end_in_day(band, end))
}

/// Adds a band between these minutes of its day to a text.
fn append_between(
    text: &mut Vec<u8>,
    band: WeekBand,
    begin: u32,
    end: u32,
) -> Result<(), AllocError>
    ensures { OnOk result (text.new.items ≡ text.old.items ++ between_text band begin end) }
{
    append_shape(text, band, begin, end)?;
    append(text, b" height=\"24\"><title>")?;
    append_tip(text, band, begin, end)?;
    append(text, b"</title></rect>\n")
}

/// Adds the shape of a band to a text, up to its title.
fn append_shape(text: &mut Vec<u8>, band: WeekBand, begin: u32, end: u32) -> Result<(), AllocError>
    ensures { OnOk result (text.new.items ≡ text.old.items ++ week_shape band begin end) }
{
    append_attribute(text, b"<rect class=\"p", u128::from(fill_of(band.pattern)))?;
    append_attribute(text, b" x=\"", u128::from(begin))?;
    append_attribute(text, b" y=\"", height_in_row(band, 4))?;
    append_attribute(text, b" width=\"", u128::from(end.saturating_sub(begin)))
}

/// The number of the fill of a pattern: 0 for free.
fn fill_of(pattern: u32) -> u32
    ensures { result ≡ fill_of pattern }
{
    if pattern == 0 {
        0
    } else {
        (pattern - 1) % FILLS + 1
    }
}

/// Adds what a viewer shows of a band to a text.
fn append_tip(text: &mut Vec<u8>, band: WeekBand, begin: u32, end: u32) -> Result<(), AllocError>
    ensures { OnOk result (text.new.items ≡ text.old.items ++ tip_text band begin end) }
{
    append_pattern(text, band.pattern)?;
    append(text, b", ")?;
    append_minute(text, begin)?;
    append(text, b" to ")?;
    append_minute(text, end)?;
    append(text, b", ")?;
    append_action(text, band.action)
}

/// Adds a minute of a day to a text, as hour and minute.
fn append_minute(text: &mut Vec<u8>, minute: u32) -> Result<(), AllocError>
    ensures { OnOk result (text.new.items ≡ text.old.items ++ minute_text minute) }
{
    append_two_digits(text, u128::from(minute / 60))?;
    append(text, b":")?;
    append_two_digits(text, u128::from(minute % 60))
}

/// Adds what is in force to a text: a pattern, or 0 for free.
fn append_pattern(text: &mut Vec<u8>, pattern: u32) -> Result<(), AllocError>
    ensures { OnOk result (text.new.items ≡ text.old.items ++ pattern_text pattern) }
{
    if pattern == 0 {
        append(text, b"free")
    } else {
        append_named(text, b"pattern ", u128::from(pattern))
    }
}

/// Adds an action to a text, 0 for none.
fn append_action(text: &mut Vec<u8>, action: u32) -> Result<(), AllocError>
    ensures { OnOk result (text.new.items ≡ text.old.items ++ action_text action) }
{
    if action == 0 {
        append(text, b"no action")
    } else {
        append_named(text, b"action ", u128::from(action))
    }
}

/// Adds the label of a band that ends with a minute of the week to a text.
fn append_label(text: &mut Vec<u8>, band: WeekBand, end: u32) -> Result<(), AllocError>
    ensures { OnOk result (text.new.items ≡ text.old.items ++ week_label band end) }
{
    append_label_between(text, band, begin_in_day(band), end_in_day(band, end))
}

/// Adds the label of a band between these minutes of its day to a text: nothing where the band is too narrow.
fn append_label_between(
    text: &mut Vec<u8>,
    band: WeekBand,
    begin: u32,
    end: u32,
) -> Result<(), AllocError>
    requires { begin < 1440 }
    ensures { OnOk result (text.new.items ≡ text.old.items ++ label_between band begin end) }
{
    if end.saturating_sub(begin) < least_minutes(band.pattern) {
        return Ok(());
    }
    append_middle(text, band, begin, end)
}

/// How many minutes a band of a pattern has at least that is wide enough for its label.
fn least_minutes(pattern: u32) -> u32
    ensures { result ≡ least_minutes pattern }
{
    if pattern == 0 { 40 } else { 90 }
}

/// Adds a label in the middle between these minutes of its day to a text.
fn append_middle(text: &mut Vec<u8>, band: WeekBand, begin: u32, end: u32) -> Result<(), AllocError>
    ensures { OnOk result (text.new.items ≡ text.old.items ++ middle_text band begin end) }
{
    append_attribute(text, b"<text class=\"k\" x=\"", middle_of(begin, end))?;
    append_attribute(text, b" y=\"", height_in_row(band, 20))?;
    append(text, b">")?;
    append_pattern(text, band.pattern)?;
    append(text, b"</text>\n")
}

/// How far from the left the middle between two minutes of a day is.
fn middle_of(begin: u32, end: u32) -> u128
    ensures { result ≡ place_of 86400 0 (30 * (begin + end)) }
{
    place_of(DAY_SECONDS, 0, 30 * (u128::from(begin) + u128::from(end)))
}
