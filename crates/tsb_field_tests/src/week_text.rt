//! The picture of a week. The expected text was worked by hand: hour h is at 140 + h * 1000 / 24, and a label at the middle
//! of its band.

use std::alloc::Global;
use tsb_field_diagram::{WeekBand, draw_week};

/// The labels of the seven days.
const DAYS: [&[u8]; 7] = [
    b"2026-12-06 Sun",
    b"2026-12-07 Mon",
    b"2026-12-08 Tue",
    b"2026-12-09 Wed",
    b"2026-12-10 Thu",
    b"2026-12-11 Fri",
    b"2026-12-12 Sat",
];

/// A band from a minute of the week on, with its action and pattern.
fn band(minute: u32, action: u32, pattern: u32) -> WeekBand {
    WeekBand {
        minute,
        action,
        pattern,
    }
}

/// What is in force, with bands of 89 and 90 minutes, of 39 and 40 minutes where it is free, and of the last minute.
fn bands() -> [WeekBand; 13] {
    [
        band(0, 0, 0),
        band(600, 2, 2),
        band(689, 3, 9),
        band(779, 1, 0),
        band(818, 32, 16),
        band(1440, 32, 16),
        band(2880, 32, 16),
        band(4280, 1, 0),
        band(4320, 1, 0),
        band(5760, 1, 0),
        band(7200, 1, 0),
        band(8640, 1, 0),
        band(10_079, 4, 3),
    ]
}

/// The picture of them.
const PICTURE: &[u8] =
    b"<svg xmlns=\"http://www.w3.org/2000/svg\" font-family=\"sans-serif\" font-size=\"11\" width=\"1160\" height=\"292\" viewBox=\"0 0 1160 292\">
<title>Week &amp; day</title>
<rect width=\"100%\" height=\"100%\" fill=\"#fff\"/>
<text class=\"t\" x=\"4\" y=\"20\">Week &amp; day</text>
<style>.p0{fill:#ddd}.p1{fill:#7ad}.p2{fill:#ed8}.p3{fill:#fab}.p4{fill:#4b9}.p5{fill:#e86}.p6{fill:#9df}.p7{fill:#bc3}.p8{fill:#aa0}svg svg rect{stroke:#555;vector-effect:non-scaling-stroke}.a{stroke:#bbb}.k{text-anchor:middle;pointer-events:none}.l{text-anchor:end}.t{font-size:16px;font-weight:bold}</style>
<svg width=\"1160\" height=\"260\" y=\"32\">
<text class=\"l\" x=\"132\" y=\"20\">2026-12-06 Sun</text>
<text class=\"l\" x=\"132\" y=\"52\">2026-12-07 Mon</text>
<text class=\"l\" x=\"132\" y=\"84\">2026-12-08 Tue</text>
<text class=\"l\" x=\"132\" y=\"116\">2026-12-09 Wed</text>
<text class=\"l\" x=\"132\" y=\"148\">2026-12-10 Thu</text>
<text class=\"l\" x=\"132\" y=\"180\">2026-12-11 Fri</text>
<text class=\"l\" x=\"132\" y=\"212\">2026-12-12 Sat</text>
<line class=\"a\" x1=\"140\" x2=\"140\" y2=\"228\"/><text class=\"k\" x=\"140\" y=\"240\">0</text>
<line class=\"a\" x1=\"181\" x2=\"181\" y2=\"228\"/><text class=\"k\" x=\"181\" y=\"240\">1</text>
<line class=\"a\" x1=\"223\" x2=\"223\" y2=\"228\"/><text class=\"k\" x=\"223\" y=\"240\">2</text>
<line class=\"a\" x1=\"265\" x2=\"265\" y2=\"228\"/><text class=\"k\" x=\"265\" y=\"240\">3</text>
<line class=\"a\" x1=\"306\" x2=\"306\" y2=\"228\"/><text class=\"k\" x=\"306\" y=\"240\">4</text>
<line class=\"a\" x1=\"348\" x2=\"348\" y2=\"228\"/><text class=\"k\" x=\"348\" y=\"240\">5</text>
<line class=\"a\" x1=\"390\" x2=\"390\" y2=\"228\"/><text class=\"k\" x=\"390\" y=\"240\">6</text>
<line class=\"a\" x1=\"431\" x2=\"431\" y2=\"228\"/><text class=\"k\" x=\"431\" y=\"240\">7</text>
<line class=\"a\" x1=\"473\" x2=\"473\" y2=\"228\"/><text class=\"k\" x=\"473\" y=\"240\">8</text>
<line class=\"a\" x1=\"515\" x2=\"515\" y2=\"228\"/><text class=\"k\" x=\"515\" y=\"240\">9</text>
<line class=\"a\" x1=\"556\" x2=\"556\" y2=\"228\"/><text class=\"k\" x=\"556\" y=\"240\">10</text>
<line class=\"a\" x1=\"598\" x2=\"598\" y2=\"228\"/><text class=\"k\" x=\"598\" y=\"240\">11</text>
<line class=\"a\" x1=\"640\" x2=\"640\" y2=\"228\"/><text class=\"k\" x=\"640\" y=\"240\">12</text>
<line class=\"a\" x1=\"681\" x2=\"681\" y2=\"228\"/><text class=\"k\" x=\"681\" y=\"240\">13</text>
<line class=\"a\" x1=\"723\" x2=\"723\" y2=\"228\"/><text class=\"k\" x=\"723\" y=\"240\">14</text>
<line class=\"a\" x1=\"765\" x2=\"765\" y2=\"228\"/><text class=\"k\" x=\"765\" y=\"240\">15</text>
<line class=\"a\" x1=\"806\" x2=\"806\" y2=\"228\"/><text class=\"k\" x=\"806\" y=\"240\">16</text>
<line class=\"a\" x1=\"848\" x2=\"848\" y2=\"228\"/><text class=\"k\" x=\"848\" y=\"240\">17</text>
<line class=\"a\" x1=\"890\" x2=\"890\" y2=\"228\"/><text class=\"k\" x=\"890\" y=\"240\">18</text>
<line class=\"a\" x1=\"931\" x2=\"931\" y2=\"228\"/><text class=\"k\" x=\"931\" y=\"240\">19</text>
<line class=\"a\" x1=\"973\" x2=\"973\" y2=\"228\"/><text class=\"k\" x=\"973\" y=\"240\">20</text>
<line class=\"a\" x1=\"1015\" x2=\"1015\" y2=\"228\"/><text class=\"k\" x=\"1015\" y=\"240\">21</text>
<line class=\"a\" x1=\"1056\" x2=\"1056\" y2=\"228\"/><text class=\"k\" x=\"1056\" y=\"240\">22</text>
<line class=\"a\" x1=\"1098\" x2=\"1098\" y2=\"228\"/><text class=\"k\" x=\"1098\" y=\"240\">23</text>
<line class=\"a\" x1=\"1140\" x2=\"1140\" y2=\"228\"/><text class=\"k\" x=\"1140\" y=\"240\">24</text>
<svg x=\"140\" width=\"1000\" preserveAspectRatio=\"none\" height=\"224\" viewBox=\"0 0 1440 224\">
<rect class=\"p0\" x=\"0\" y=\"4\" width=\"600\" height=\"24\"><title>free, 00:00 to 10:00, no action</title></rect>
<rect class=\"p2\" x=\"600\" y=\"4\" width=\"89\" height=\"24\"><title>pattern 2, 10:00 to 11:29, action 2</title></rect>
<rect class=\"p1\" x=\"689\" y=\"4\" width=\"90\" height=\"24\"><title>pattern 9, 11:29 to 12:59, action 3</title></rect>
<rect class=\"p0\" x=\"779\" y=\"4\" width=\"39\" height=\"24\"><title>free, 12:59 to 13:38, action 1</title></rect>
<rect class=\"p8\" x=\"818\" y=\"4\" width=\"622\" height=\"24\"><title>pattern 16, 13:38 to 24:00, action 32</title></rect>
<rect class=\"p8\" x=\"0\" y=\"36\" width=\"1440\" height=\"24\"><title>pattern 16, 00:00 to 24:00, action 32</title></rect>
<rect class=\"p8\" x=\"0\" y=\"68\" width=\"1400\" height=\"24\"><title>pattern 16, 00:00 to 23:20, action 32</title></rect>
<rect class=\"p0\" x=\"1400\" y=\"68\" width=\"40\" height=\"24\"><title>free, 23:20 to 24:00, action 1</title></rect>
<rect class=\"p0\" x=\"0\" y=\"100\" width=\"1440\" height=\"24\"><title>free, 00:00 to 24:00, action 1</title></rect>
<rect class=\"p0\" x=\"0\" y=\"132\" width=\"1440\" height=\"24\"><title>free, 00:00 to 24:00, action 1</title></rect>
<rect class=\"p0\" x=\"0\" y=\"164\" width=\"1440\" height=\"24\"><title>free, 00:00 to 24:00, action 1</title></rect>
<rect class=\"p0\" x=\"0\" y=\"196\" width=\"1439\" height=\"24\"><title>free, 00:00 to 23:59, action 1</title></rect>
<rect class=\"p3\" x=\"1439\" y=\"196\" width=\"1\" height=\"24\"><title>pattern 3, 23:59 to 24:00, action 4</title></rect>
</svg>
<text class=\"k\" x=\"348\" y=\"20\">free</text>
<text class=\"k\" x=\"649\" y=\"20\">pattern 9</text>
<text class=\"k\" x=\"924\" y=\"20\">pattern 16</text>
<text class=\"k\" x=\"640\" y=\"52\">pattern 16</text>
<text class=\"k\" x=\"626\" y=\"84\">pattern 16</text>
<text class=\"k\" x=\"1126\" y=\"84\">free</text>
<text class=\"k\" x=\"640\" y=\"116\">free</text>
<text class=\"k\" x=\"640\" y=\"148\">free</text>
<text class=\"k\" x=\"640\" y=\"180\">free</text>
<text class=\"k\" x=\"639\" y=\"212\">free</text>
</svg>
</svg>
";

/// The picture of no day and no band, after its head.
const NOTHING: &[u8] = b"<svg width=\"1160\" height=\"260\" y=\"32\">
<line class=\"a\" x1=\"140\" x2=\"140\" y2=\"228\"/><text class=\"k\" x=\"140\" y=\"240\">0</text>
<line class=\"a\" x1=\"181\" x2=\"181\" y2=\"228\"/><text class=\"k\" x=\"181\" y=\"240\">1</text>
<line class=\"a\" x1=\"223\" x2=\"223\" y2=\"228\"/><text class=\"k\" x=\"223\" y=\"240\">2</text>
<line class=\"a\" x1=\"265\" x2=\"265\" y2=\"228\"/><text class=\"k\" x=\"265\" y=\"240\">3</text>
<line class=\"a\" x1=\"306\" x2=\"306\" y2=\"228\"/><text class=\"k\" x=\"306\" y=\"240\">4</text>
<line class=\"a\" x1=\"348\" x2=\"348\" y2=\"228\"/><text class=\"k\" x=\"348\" y=\"240\">5</text>
<line class=\"a\" x1=\"390\" x2=\"390\" y2=\"228\"/><text class=\"k\" x=\"390\" y=\"240\">6</text>
<line class=\"a\" x1=\"431\" x2=\"431\" y2=\"228\"/><text class=\"k\" x=\"431\" y=\"240\">7</text>
<line class=\"a\" x1=\"473\" x2=\"473\" y2=\"228\"/><text class=\"k\" x=\"473\" y=\"240\">8</text>
<line class=\"a\" x1=\"515\" x2=\"515\" y2=\"228\"/><text class=\"k\" x=\"515\" y=\"240\">9</text>
<line class=\"a\" x1=\"556\" x2=\"556\" y2=\"228\"/><text class=\"k\" x=\"556\" y=\"240\">10</text>
<line class=\"a\" x1=\"598\" x2=\"598\" y2=\"228\"/><text class=\"k\" x=\"598\" y=\"240\">11</text>
<line class=\"a\" x1=\"640\" x2=\"640\" y2=\"228\"/><text class=\"k\" x=\"640\" y=\"240\">12</text>
<line class=\"a\" x1=\"681\" x2=\"681\" y2=\"228\"/><text class=\"k\" x=\"681\" y=\"240\">13</text>
<line class=\"a\" x1=\"723\" x2=\"723\" y2=\"228\"/><text class=\"k\" x=\"723\" y=\"240\">14</text>
<line class=\"a\" x1=\"765\" x2=\"765\" y2=\"228\"/><text class=\"k\" x=\"765\" y=\"240\">15</text>
<line class=\"a\" x1=\"806\" x2=\"806\" y2=\"228\"/><text class=\"k\" x=\"806\" y=\"240\">16</text>
<line class=\"a\" x1=\"848\" x2=\"848\" y2=\"228\"/><text class=\"k\" x=\"848\" y=\"240\">17</text>
<line class=\"a\" x1=\"890\" x2=\"890\" y2=\"228\"/><text class=\"k\" x=\"890\" y=\"240\">18</text>
<line class=\"a\" x1=\"931\" x2=\"931\" y2=\"228\"/><text class=\"k\" x=\"931\" y=\"240\">19</text>
<line class=\"a\" x1=\"973\" x2=\"973\" y2=\"228\"/><text class=\"k\" x=\"973\" y=\"240\">20</text>
<line class=\"a\" x1=\"1015\" x2=\"1015\" y2=\"228\"/><text class=\"k\" x=\"1015\" y=\"240\">21</text>
<line class=\"a\" x1=\"1056\" x2=\"1056\" y2=\"228\"/><text class=\"k\" x=\"1056\" y=\"240\">22</text>
<line class=\"a\" x1=\"1098\" x2=\"1098\" y2=\"228\"/><text class=\"k\" x=\"1098\" y=\"240\">23</text>
<line class=\"a\" x1=\"1140\" x2=\"1140\" y2=\"228\"/><text class=\"k\" x=\"1140\" y=\"240\">24</text>
<svg x=\"140\" width=\"1000\" preserveAspectRatio=\"none\" height=\"224\" viewBox=\"0 0 1440 224\">
</svg>
</svg>
</svg>
";

/// Whether this is the picture of these days and bands, or the end of it.
fn draws(alloc: Global, days: &[&[u8]], bands: &[WeekBand], picture: &[u8]) -> bool {
    match draw_week(alloc, b"Week & day", days, bands) {
        Ok(text) => text.as_slice().ends_with(picture),
        Err(_) => false,
    }
}

#[test]
fn a_week_is_drawn(rt: HostRuntime) {
    assert!(rt; draws(rt.alloc(), &DAYS, &bands(), PICTURE));
}

#[test]
fn nothing_is_drawn(rt: HostRuntime) {
    assert!(rt; draws(rt.alloc(), &[], &[], NOTHING));
}
