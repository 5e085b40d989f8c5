//! The phase diagram of a session. Expected texts are those of a program that draws tick by tick.

use std::alloc::{AllocError, Global};
use tsb_event_text::{Moment, read_moment};
use tsb_field_diagram::{
    DiagramForm, DiagramSession, EndsError, GreenEnd, Why, diagram_text, read_ends,
};
use tsb_field_display::{Replay, Shown, read_line};
use tsb_log_text::LogRow;
use tsb_types::{DetectorSet, NumberSet, Row};

const RED: &[u8] = b"0000001 -R-R------------ -D-------------- R--- 0 ----";

const GREEN: &[u8] = b"0000002 -G-R------------ -W-------------- G--- 0 ----";

const CLEARING: &[u8] = b"0000045 -G-R------------ -C-------------- G--- 2 0759";

const YELLOW: &[u8] = b"0000101 -Y-R------------ -D-------------- Y--- 2 ----";

const FLASH: &[u8] = b"0000102 -F-F------------ ---------------- F--- 2 ----";

/// An arrow that is red, flashes, and is yellow, beside a phase that stays green.
const ARROW: [&[u8]; 3] = [
    b"0000001 -G-------------- ---------------- R--- 0 ----",
    b"0000021 -G-------------- ---------------- P--- 0 ----",
    b"0000061 -G-------------- ---------------- Y--- 0 ----",
];

const DARK: &[u8] = b"0000005 ---------------- ---------------- ---- 0 ----";

/// The diagram of no line, with a title that has to be escaped.
const EMPTY: &[u8] =
    b"<svg xmlns=\"http://www.w3.org/2000/svg\" font-family=\"sans-serif\" font-size=\"11\" width=\"1160\" height=\"64\" viewBox=\"0 0 1160 64\">
<title>&lt;&quot;a&#39;b&quot;&gt;?\t&amp;</title>
<rect width=\"100%\" height=\"100%\" fill=\"#fff\"/>
<text class=\"t\" x=\"4\" y=\"20\">&lt;&quot;a&#39;b&quot;&gt;?\t&amp;</text>
<style>.g{fill:#1a7f37}.y{fill:url(#h)}.r{fill:#c00}.f{fill:url(#f)}.w{fill:#06c}.c{fill:url(#i)}.d{fill:#888}.p{fill:#639}.o{fill:#000}.a{stroke:#bbb}.b{font-weight:bold}.k{text-anchor:middle}.l{text-anchor:end}.t{font-size:16px;font-weight:bold}</style>
<pattern id=\"f\" width=\"10\" height=\"12\" patternUnits=\"userSpaceOnUse\" patternTransform=\"scale(60e-2 1)\"><rect width=\"5\" height=\"12\" fill=\"#c00\"/></pattern>
<pattern id=\"h\" width=\"6\" height=\"6\" patternUnits=\"userSpaceOnUse\" patternTransform=\"scale(60e-2 1) rotate(45)\"><rect width=\"6\" height=\"6\" fill=\"#fd4\"/><rect width=\"2\" height=\"6\"/></pattern>
<pattern id=\"i\" width=\"4\" height=\"4\" patternUnits=\"userSpaceOnUse\" patternTransform=\"scale(60e-2 1) rotate(-45)\"><rect width=\"4\" height=\"4\" fill=\"#fff\"/><rect width=\"2\" height=\"4\" fill=\"#06c\"/></pattern>
<svg x=\"140\" y=\"32\" width=\"1000\" height=\"16\" preserveAspectRatio=\"none\" viewBox=\"0 0 600 16\">
<rect class=\"g\" height=\"12\" y=\"2\" x=\"0%\" width=\"3%\"/><rect class=\"y\" height=\"12\" y=\"2\" x=\"11%\" width=\"3%\"/><rect class=\"r\" height=\"3\" y=\"7\" x=\"22%\" width=\"3%\"/><rect class=\"f\" height=\"6\" y=\"5\" x=\"33%\" width=\"3%\"/><rect class=\"w\" height=\"8\" y=\"4\" x=\"44%\" width=\"3%\"/><rect class=\"c\" height=\"8\" y=\"4\" x=\"55%\" width=\"3%\"/><rect class=\"d\" height=\"1\" y=\"8\" x=\"66%\" width=\"3%\"/><rect class=\"p\" height=\"8\" y=\"4\" x=\"77%\" width=\"3%\"/><rect class=\"o\" height=\"4\" y=\"6\" x=\"88%\" width=\"3%\"/></svg>
<text x=\"175\" y=\"44\">green</text><text x=\"285\" y=\"44\">yellow</text><text x=\"395\" y=\"44\">red</text><text x=\"505\" y=\"44\">flashing red</text><text x=\"615\" y=\"44\">walk</text><text x=\"725\" y=\"44\">clearance</text><text x=\"835\" y=\"44\">don't walk</text><text x=\"945\" y=\"44\">preempt</text><text x=\"1055\" y=\"44\">input on</text>
</svg>
";

/// Two lines of ten seconds, after the legend.
const TWO_LINES: &[u8] = b"<svg width=\"1160\" height=\"180\" y=\"64\">
<text class=\"b\" x=\"4\" y=\"12\">0:00:00</text>
<text class=\"l\" x=\"132\" y=\"12\">preempt 2</text>
<text class=\"l\" x=\"132\" y=\"28\">flash</text>
<text class=\"l\" x=\"132\" y=\"44\">2</text>
<text class=\"l\" x=\"132\" y=\"60\">2 ped</text>
<text class=\"l\" x=\"132\" y=\"76\">4</text>
<text class=\"l\" x=\"132\" y=\"92\">overlap 1</text>
<text class=\"l\" x=\"132\" y=\"108\">detector 2</text>
<text class=\"l\" x=\"132\" y=\"124\">ped detector 1</text>
<text class=\"l\" x=\"132\" y=\"140\">preempt input 2</text>
<line class=\"a\" x1=\"140\" x2=\"140\" y2=\"148\"/><text class=\"k\" x=\"140\" y=\"160\">0:00:00</text>
<line class=\"a\" x1=\"240\" x2=\"240\" y2=\"148\"/><text class=\"k\" x=\"240\" y=\"160\">1</text>
<line class=\"a\" x1=\"340\" x2=\"340\" y2=\"148\"/><text class=\"k\" x=\"340\" y=\"160\">2</text>
<line class=\"a\" x1=\"440\" x2=\"440\" y2=\"148\"/><text class=\"k\" x=\"440\" y=\"160\">3</text>
<line class=\"a\" x1=\"540\" x2=\"540\" y2=\"148\"/><text class=\"k\" x=\"540\" y=\"160\">4</text>
<line class=\"a\" x1=\"640\" x2=\"640\" y2=\"148\"/><text class=\"k\" x=\"640\" y=\"160\">5</text>
<line class=\"a\" x1=\"740\" x2=\"740\" y2=\"148\"/><text class=\"k\" x=\"740\" y=\"160\">6</text>
<line class=\"a\" x1=\"840\" x2=\"840\" y2=\"148\"/><text class=\"k\" x=\"840\" y=\"160\">7</text>
<line class=\"a\" x1=\"940\" x2=\"940\" y2=\"148\"/><text class=\"k\" x=\"940\" y=\"160\">8</text>
<line class=\"a\" x1=\"1040\" x2=\"1040\" y2=\"148\"/><text class=\"k\" x=\"1040\" y=\"160\">9</text>
<svg x=\"140\" width=\"1000\" preserveAspectRatio=\"none\" height=\"144\" viewBox=\"1 0 100 144\">
<rect class=\"p\" height=\"8\" x=\"45\" y=\"4\" width=\"56\"/>
<rect class=\"r\" height=\"3\" x=\"1\" y=\"39\" width=\"1\"/>
<rect class=\"g\" height=\"12\" x=\"2\" y=\"34\" width=\"99\"/>
<rect class=\"d\" height=\"1\" x=\"1\" y=\"56\" width=\"1\"/>
<rect class=\"w\" height=\"8\" x=\"2\" y=\"52\" width=\"43\"/>
<rect class=\"c\" height=\"8\" x=\"45\" y=\"52\" width=\"56\"/>
<rect class=\"r\" height=\"3\" x=\"1\" y=\"71\" width=\"100\"/>
<rect class=\"r\" height=\"3\" x=\"1\" y=\"87\" width=\"1\"/>
<rect class=\"g\" height=\"12\" x=\"2\" y=\"82\" width=\"99\"/>
<rect class=\"o\" height=\"4\" x=\"40\" y=\"102\" width=\"20\"/>
<rect class=\"o\" height=\"4\" x=\"60\" y=\"118\" width=\"41\"/>
<rect class=\"o\" height=\"4\" x=\"60\" y=\"134\" width=\"41\"/>
</svg>
</svg>
<svg width=\"1160\" height=\"180\" y=\"244\">
<text class=\"b\" x=\"4\" y=\"12\">0:00:10</text>
<text class=\"l\" x=\"132\" y=\"12\">preempt 2</text>
<text class=\"l\" x=\"132\" y=\"28\">flash</text>
<text class=\"l\" x=\"132\" y=\"44\">2</text>
<text class=\"l\" x=\"132\" y=\"60\">2 ped</text>
<text class=\"l\" x=\"132\" y=\"76\">4</text>
<text class=\"l\" x=\"132\" y=\"92\">overlap 1</text>
<text class=\"l\" x=\"132\" y=\"108\">detector 2</text>
<text class=\"l\" x=\"132\" y=\"124\">ped detector 1</text>
<text class=\"l\" x=\"132\" y=\"140\">preempt input 2</text>
<line class=\"a\" x1=\"140\" x2=\"140\" y2=\"148\"/><text class=\"k\" x=\"140\" y=\"160\">10</text>
<line class=\"a\" x1=\"240\" x2=\"240\" y2=\"148\"/><text class=\"k\" x=\"240\" y=\"160\">11</text>
<line class=\"a\" x1=\"340\" x2=\"340\" y2=\"148\"/><text class=\"k\" x=\"340\" y=\"160\">12</text>
<line class=\"a\" x1=\"440\" x2=\"440\" y2=\"148\"/><text class=\"k\" x=\"440\" y=\"160\">13</text>
<line class=\"a\" x1=\"540\" x2=\"540\" y2=\"148\"/><text class=\"k\" x=\"540\" y=\"160\">14</text>
<line class=\"a\" x1=\"640\" x2=\"640\" y2=\"148\"/><text class=\"k\" x=\"640\" y=\"160\">15</text>
<line class=\"a\" x1=\"740\" x2=\"740\" y2=\"148\"/><text class=\"k\" x=\"740\" y=\"160\">16</text>
<line class=\"a\" x1=\"840\" x2=\"840\" y2=\"148\"/><text class=\"k\" x=\"840\" y=\"160\">17</text>
<line class=\"a\" x1=\"940\" x2=\"940\" y2=\"148\"/><text class=\"k\" x=\"940\" y=\"160\">18</text>
<line class=\"a\" x1=\"1040\" x2=\"1040\" y2=\"148\"/><text class=\"k\" x=\"1040\" y=\"160\">19</text>
<svg x=\"140\" width=\"1000\" preserveAspectRatio=\"none\" height=\"144\" viewBox=\"101 0 100 144\">
<rect class=\"p\" height=\"8\" x=\"101\" y=\"4\" width=\"30\"/>
<rect class=\"f\" height=\"6\" x=\"102\" y=\"21\" width=\"29\"/>
<rect class=\"y\" height=\"12\" x=\"101\" y=\"34\" width=\"1\"/>
<rect class=\"f\" height=\"6\" x=\"102\" y=\"37\" width=\"29\"/>
<rect class=\"d\" height=\"1\" x=\"101\" y=\"56\" width=\"1\"/>
<rect class=\"r\" height=\"3\" x=\"101\" y=\"71\" width=\"1\"/>
<rect class=\"f\" height=\"6\" x=\"102\" y=\"69\" width=\"29\"/>
<rect class=\"y\" height=\"12\" x=\"101\" y=\"82\" width=\"1\"/>
<rect class=\"f\" height=\"6\" x=\"102\" y=\"85\" width=\"29\"/>
<rect class=\"o\" height=\"4\" x=\"101\" y=\"118\" width=\"4\"/>
<rect class=\"o\" height=\"4\" x=\"101\" y=\"134\" width=\"4\"/>
</svg>
</svg>
</svg>
";

/// How an arrow is drawn and what it is called, and a line in which one flashes for four seconds.
const ARROW_LINE: &[u8] = b"<style>.q{fill:url(#q)}</style>
<pattern id=\"q\" width=\"10\" height=\"12\" patternUnits=\"userSpaceOnUse\" patternTransform=\"scale(10e-2 1)\"><rect width=\"7\" height=\"12\" fill=\"#fd4\"/><rect width=\"2\" height=\"12\"/></pattern>
<svg x=\"140\" y=\"48\" width=\"1000\" height=\"16\" preserveAspectRatio=\"none\" viewBox=\"0 0 100 16\"><rect class=\"q\" height=\"8\" y=\"4\" x=\"55%\" width=\"3%\"/></svg>
<text x=\"725\" y=\"60\">flashing yellow arrow</text>
<svg width=\"1160\" height=\"68\" y=\"64\">
<text class=\"b\" x=\"4\" y=\"12\">0:00:00</text>
<text class=\"l\" x=\"132\" y=\"12\">2</text>
<text class=\"l\" x=\"132\" y=\"28\">overlap 1</text>
<line class=\"a\" x1=\"140\" x2=\"140\" y2=\"36\"/><text class=\"k\" x=\"140\" y=\"48\">0:00:00</text>
<line class=\"a\" x1=\"240\" x2=\"240\" y2=\"36\"/><text class=\"k\" x=\"240\" y=\"48\">1</text>
<line class=\"a\" x1=\"340\" x2=\"340\" y2=\"36\"/><text class=\"k\" x=\"340\" y=\"48\">2</text>
<line class=\"a\" x1=\"440\" x2=\"440\" y2=\"36\"/><text class=\"k\" x=\"440\" y=\"48\">3</text>
<line class=\"a\" x1=\"540\" x2=\"540\" y2=\"36\"/><text class=\"k\" x=\"540\" y=\"48\">4</text>
<line class=\"a\" x1=\"640\" x2=\"640\" y2=\"36\"/><text class=\"k\" x=\"640\" y=\"48\">5</text>
<line class=\"a\" x1=\"740\" x2=\"740\" y2=\"36\"/><text class=\"k\" x=\"740\" y=\"48\">6</text>
<line class=\"a\" x1=\"840\" x2=\"840\" y2=\"36\"/><text class=\"k\" x=\"840\" y=\"48\">7</text>
<line class=\"a\" x1=\"940\" x2=\"940\" y2=\"36\"/><text class=\"k\" x=\"940\" y=\"48\">8</text>
<line class=\"a\" x1=\"1040\" x2=\"1040\" y2=\"36\"/><text class=\"k\" x=\"1040\" y=\"48\">9</text>
<svg x=\"140\" width=\"1000\" preserveAspectRatio=\"none\" height=\"32\" viewBox=\"1 0 100 32\">
<rect class=\"g\" height=\"12\" x=\"1\" y=\"2\" width=\"100\"/>
<rect class=\"r\" height=\"3\" x=\"1\" y=\"23\" width=\"20\"/>
<rect class=\"q\" height=\"8\" x=\"21\" y=\"20\" width=\"40\"/>
<rect class=\"y\" height=\"12\" x=\"61\" y=\"18\" width=\"40\"/>
</svg>
</svg>
</svg>
";

/// A line in which nothing is lit, after the legend.
const DARK_LINE: &[u8] = b"<svg width=\"1160\" height=\"36\" y=\"64\">
<text class=\"b\" x=\"4\" y=\"12\">0:00:00</text>
<line class=\"a\" x1=\"140\" x2=\"140\" y2=\"4\"/><text class=\"k\" x=\"140\" y=\"16\">0:00:00</text>
<line class=\"a\" x1=\"223\" x2=\"223\" y2=\"4\"/><text class=\"k\" x=\"223\" y=\"16\">5</text>
<line class=\"a\" x1=\"306\" x2=\"306\" y2=\"4\"/><text class=\"k\" x=\"306\" y=\"16\">10</text>
<line class=\"a\" x1=\"390\" x2=\"390\" y2=\"4\"/><text class=\"k\" x=\"390\" y=\"16\">15</text>
<line class=\"a\" x1=\"473\" x2=\"473\" y2=\"4\"/><text class=\"k\" x=\"473\" y=\"16\">20</text>
<line class=\"a\" x1=\"556\" x2=\"556\" y2=\"4\"/><text class=\"k\" x=\"556\" y=\"16\">25</text>
<line class=\"a\" x1=\"640\" x2=\"640\" y2=\"4\"/><text class=\"k\" x=\"640\" y=\"16\">30</text>
<line class=\"a\" x1=\"723\" x2=\"723\" y2=\"4\"/><text class=\"k\" x=\"723\" y=\"16\">35</text>
<line class=\"a\" x1=\"806\" x2=\"806\" y2=\"4\"/><text class=\"k\" x=\"806\" y=\"16\">40</text>
<line class=\"a\" x1=\"890\" x2=\"890\" y2=\"4\"/><text class=\"k\" x=\"890\" y=\"16\">45</text>
<line class=\"a\" x1=\"973\" x2=\"973\" y2=\"4\"/><text class=\"k\" x=\"973\" y=\"16\">50</text>
<line class=\"a\" x1=\"1056\" x2=\"1056\" y2=\"4\"/><text class=\"k\" x=\"1056\" y=\"16\">55</text>
<svg x=\"140\" width=\"1000\" preserveAspectRatio=\"none\" height=\"0\" viewBox=\"1 0 600 0\">
</svg>
</svg>
</svg>
";

/// A line of ten seconds from 23:59:55.5 on: each second is placed by tenths, and a minute after midnight is one of its
/// day.
const MIDNIGHT: &[u8] = b"<svg width=\"1160\" height=\"36\" y=\"64\">
<text class=\"b\" x=\"4\" y=\"12\">23:59:55</text>
<line class=\"a\" x1=\"190\" x2=\"190\" y2=\"4\"/><text class=\"k\" x=\"190\" y=\"16\">56</text>
<line class=\"a\" x1=\"290\" x2=\"290\" y2=\"4\"/><text class=\"k\" x=\"290\" y=\"16\">57</text>
<line class=\"a\" x1=\"390\" x2=\"390\" y2=\"4\"/><text class=\"k\" x=\"390\" y=\"16\">58</text>
<line class=\"a\" x1=\"490\" x2=\"490\" y2=\"4\"/><text class=\"k\" x=\"490\" y=\"16\">59</text>
<line class=\"a\" x1=\"590\" x2=\"590\" y2=\"4\"/><text class=\"k\" x=\"590\" y=\"16\">00:00:00</text>
<line class=\"a\" x1=\"690\" x2=\"690\" y2=\"4\"/><text class=\"k\" x=\"690\" y=\"16\">1</text>
<line class=\"a\" x1=\"790\" x2=\"790\" y2=\"4\"/><text class=\"k\" x=\"790\" y=\"16\">2</text>
<line class=\"a\" x1=\"890\" x2=\"890\" y2=\"4\"/><text class=\"k\" x=\"890\" y=\"16\">3</text>
<line class=\"a\" x1=\"990\" x2=\"990\" y2=\"4\"/><text class=\"k\" x=\"990\" y=\"16\">4</text>
<line class=\"a\" x1=\"1090\" x2=\"1090\" y2=\"4\"/><text class=\"k\" x=\"1090\" y=\"16\">5</text>
<svg x=\"140\" width=\"1000\" preserveAspectRatio=\"none\" height=\"0\" viewBox=\"1 0 100 0\">
</svg>
</svg>
</svg>
";

/// The letters of three lines of a second, each with four bands: one at the first tick of the second line, in the first
/// band, and one at the last tick of the picture, in the third.
const LETTERS: &[u8] =
    b"<text x=\"140\" y=\"60\">The letter at the end of a green: G gap out, M max out, F force-off</text>
<g text-anchor=\"end\" font-weight=\"bold\" stroke=\"#fff\" stroke-width=\"2\" paint-order=\"stroke\">
<text x=\"239\" y=\"176\">M</text>
<text x=\"639\" y=\"308\">F</text>
</g>
</svg>
";

/// An event log as `record` writes it, with lines that are passed over, and rows before seven o'clock and of other codes.
const LOG: &[u8] = b"SignalID,Timestamp,EventCode,EventParam
# a comment

1001,2026-11-22 06:59:59.9,4,2
1001,2026-11-22 07:00:00.0,1,2\r
1001,2026-11-22 07:00:17.0,4,2\r
1001,2026-11-22 07:00:17.0,7,2
1001,2026-11-22 07:00:17.1,5,6
1001,2026-11-22 07:00:20.0,6,4";

/// The replay of the display lines among these lines.
fn replay(alloc: Global, lines: &[&[u8]]) -> Result<Replay, AllocError> {
    let mut replay = Replay::new(alloc);
    for line in lines {
        if let Some(shown) = read_line(line, false) {
            replay.push(shown)?;
        }
    }
    Ok(replay)
}

/// A row of a log.
fn row(tick: u32, vehicles: u16, pedestrians: u16, preempts: u16) -> LogRow {
    LogRow {
        tick,
        row: Row {
            vehicles: DetectorSet::from_list(u64::from(vehicles)),
            pedestrians: NumberSet::from_list(pedestrians),
            preempts: NumberSet::from_list(preempts),
        },
    }
}

/// What comes after this many lines of a text.
fn behind_lines(text: &[u8], count: u32) -> &[u8] {
    let mut lines: u32 = 0;
    for (index, byte) in text.iter().enumerate() {
        if lines == count {
            return &text[index..];
        }
        if *byte == b'\n' {
            lines = lines.saturating_add(1);
        }
    }
    &[]
}

/// What comes after the legend of a diagram with the title "Main": the legend ends with the eleventh line.
fn lines_of(
    alloc: Global,
    seconds: u32,
    changes: &[Shown],
    last: u32,
    rows: &[LogRow],
) -> Result<Vec<u8>, AllocError> {
    let form = form_of(b"Main", seconds);
    let session = DiagramSession {
        changes,
        last_tick: Some(last),
        rows,
        ends: &[],
    };
    let text = diagram_text(alloc, &form, &session)?;
    Vec::from_slice(alloc, behind_lines(text.as_slice(), 11))
}

/// Lines of so many seconds under this title, by time from tick 1.
fn form_of(title: &[u8], seconds_per_line: u32) -> DiagramForm<'_> {
    DiagramForm {
        title,
        seconds_per_line,
        from: None,
    }
}

/// Nothing that is lit or on, up to this tick if there is one.
fn nothing_until(last_tick: Option<u32>) -> DiagramSession<'static> {
    DiagramSession {
        changes: &[],
        last_tick,
        rows: &[],
        ends: &[],
    }
}

/// Whether the diagram of no change, up to this tick if there is one, is its title and its legend.
fn is_empty(alloc: Global, last: Option<u32>) -> bool {
    let form = form_of(b"<\"a'b\">\x01\t&", 60);
    match diagram_text(alloc, &form, &nothing_until(last)) {
        Ok(text) => text.as_slice() == EMPTY,
        Err(_) => false,
    }
}

#[test]
fn a_diagram_of_no_line_has_a_title_and_a_legend(rt: HostRuntime) {
    assert!(rt; is_empty(rt.alloc(), None) && is_empty(rt.alloc(), Some(0)));
}

/// Whether this is the second line of a diagram with the title.
fn has_title(alloc: Global, title: &[u8], line: &[u8]) -> bool {
    match diagram_text(alloc, &form_of(title, 60), &nothing_until(None)) {
        Ok(text) => behind_lines(text.as_slice(), 1).starts_with(line),
        Err(_) => false,
    }
}

#[test]
fn a_character_that_xml_forbids_is_told_as_one_sign(rt: HostRuntime) {
    let forbidden = b"\xEF\xBF\xBEa\xEF\xBF\xBF\xEF\xBF\xBE".as_slice();
    assert!(rt; has_title(rt.alloc(), forbidden, b"<title>?a??</title>\n"));
    let near = b"\xEF\xBF\xBD\xEF\xBE\xBF\xEF\xBF".as_slice();
    let line = b"<title>\xEF\xBF\xBD\xEF\xBE\xBF\xEF\xBF</title>\n".as_slice();
    assert!(rt; has_title(rt.alloc(), near, line));
}

/// Whether these are the lines of a diagram of the changes.
fn draws(
    alloc: Global,
    seconds: u32,
    replay: &Replay,
    last: u32,
    rows: &[LogRow],
    wanted: &[u8],
) -> bool {
    match lines_of(alloc, seconds, replay.changes(), last, rows) {
        Ok(text) => text.as_slice() == wanted,
        Err(_) => false,
    }
}

#[test]
fn lines_break_and_bars_are_their_ticks(rt: HostRuntime) -> Result<(), AllocError> {
    let replay = replay(rt.alloc(), &[RED, GREEN, CLEARING, YELLOW, FLASH])?;
    let rows = [row(40, 2, 0, 0), row(60, 0, 1, 2), row(105, 0, 0, 0)];
    assert!(rt; draws(rt.alloc(), 10, &replay, 130, &rows, TWO_LINES));
    Ok(())
}

#[test]
fn an_arrow_that_flashes_is_in_the_key(rt: HostRuntime) -> Result<(), AllocError> {
    let replay = replay(rt.alloc(), &ARROW)?;
    assert!(rt; draws(rt.alloc(), 10, &replay, 100, &[], ARROW_LINE));
    Ok(())
}

#[test]
fn what_is_dark_has_no_band(rt: HostRuntime) -> Result<(), AllocError> {
    let replay = replay(rt.alloc(), &[DARK])?;
    assert!(rt; draws(rt.alloc(), 60, &replay, 20, &[], DARK_LINE));
    Ok(())
}

/// Whether lines of so many seconds are lines of so many others.
fn are_alike(alloc: Global, replay: &Replay, seconds: u32, others: u32) -> bool {
    match lines_of(alloc, seconds, replay.changes(), 25, &[]) {
        Ok(text) => draws(alloc, others, replay, 25, &[], text.as_slice()),
        Err(_) => false,
    }
}

#[test]
fn no_seconds_are_one_and_many_are_a_day(rt: HostRuntime) -> Result<(), AllocError> {
    let replay = replay(rt.alloc(), &[RED, GREEN])?;
    assert!(rt;
        are_alike(rt.alloc(), &replay, 1, 0) && are_alike(rt.alloc(), &replay, 86_400, u32::MAX)
    );
    Ok(())
}

/// The moment that this text names.
fn moment(text: &[u8]) -> Moment {
    read_moment(text).unwrap_or(Moment { nanos: 0 })
}

/// Whether a diagram of ten seconds from this moment on, of nothing that is lit, has these lines.
fn has_clock(alloc: Global, replay: &Replay, from: Moment, wanted: &[u8]) -> bool {
    let form = DiagramForm {
        title: b"Main",
        seconds_per_line: 10,
        from: Some(from),
    };
    let session = DiagramSession {
        changes: replay.changes(),
        last_tick: Some(20),
        rows: &[],
        ends: &[],
    };
    match diagram_text(alloc, &form, &session) {
        Ok(text) => behind_lines(text.as_slice(), 11) == wanted,
        Err(_) => false,
    }
}

#[test]
fn the_axis_has_the_time_of_day(rt: HostRuntime) -> Result<(), AllocError> {
    let replay = replay(rt.alloc(), &[DARK])?;
    let from = moment(b"2026-11-22 23:59:55.5");
    assert!(rt; has_clock(rt.alloc(), &replay, from, MIDNIGHT));
    Ok(())
}

/// An end of a green.
fn end(tick: u32, phase: u32, why: Why) -> GreenEnd {
    GreenEnd { tick, phase, why }
}

/// Whether a diagram of these ends ends so.
fn has_letters(alloc: Global, replay: &Replay, ends: &[GreenEnd], wanted: &[u8]) -> bool {
    let session = DiagramSession {
        changes: replay.changes(),
        last_tick: Some(25),
        rows: &[],
        ends,
    };
    match diagram_text(alloc, &form_of(b"Main", 1), &session) {
        Ok(text) => text.as_slice().ends_with(wanted),
        Err(_) => false,
    }
}

#[test]
fn a_letter_stands_where_its_green_ends(rt: HostRuntime) -> Result<(), AllocError> {
    let replay = replay(rt.alloc(), &[RED, GREEN])?;
    let ends = [
        end(1, 2, Why::Gap),
        end(12, 2, Why::Maximum),
        end(12, 9, Why::Gap),
        end(26, 4, Why::ForceOff),
        end(27, 4, Why::Gap),
    ];
    assert!(rt; has_letters(rt.alloc(), &replay, &ends, LETTERS));
    assert!(rt; has_letters(rt.alloc(), &replay, &[], b"</svg>\n</svg>\n</svg>\n"));
    Ok(())
}

/// Whether a diagram up to tick 25 has a band of an input that comes on at this tick.
fn has_band(alloc: Global, replay: &Replay, tick: u32) -> bool {
    let rows = [row(tick, 4, 0, 0)];
    let session = DiagramSession {
        changes: replay.changes(),
        last_tick: Some(25),
        rows: &rows,
        ends: &[],
    };
    match diagram_text(alloc, &form_of(b"Main", 60), &session) {
        Ok(text) => text
            .as_slice()
            .windows(10)
            .any(|part| part == b"detector 3".as_slice()),
        Err(_) => false,
    }
}

#[test]
fn an_input_that_comes_on_later_has_no_band(rt: HostRuntime) -> Result<(), AllocError> {
    let replay = replay(rt.alloc(), &[RED, GREEN])?;
    assert!(rt; has_band(rt.alloc(), &replay, 25) && !has_band(rt.alloc(), &replay, 26));
    Ok(())
}

/// Whether a text has these ends from seven o'clock on.
fn tells(alloc: Global, text: &[u8], wanted: &[GreenEnd]) -> bool {
    match read_ends(alloc, moment(b"2026-11-22 07:00:00"), text) {
        Ok(ends) => ends.as_slice() == wanted,
        Err(_) => false,
    }
}

#[test]
fn codes_say_why_greens_ended(rt: HostRuntime) {
    let ends = [
        end(171, 2, Why::Gap),
        end(172, 6, Why::Maximum),
        end(201, 4, Why::ForceOff),
    ];
    assert!(rt; tells(rt.alloc(), LOG, &ends) && tells(rt.alloc(), b"", &[]));
}

/// The number of the first line of a text that is no row, or 0.
fn malformed(alloc: Global, text: &[u8]) -> u32 {
    match read_ends(alloc, moment(b"2026-11-22 07:00:00"), text) {
        Err(EndsError::Malformed(line, _)) => line,
        _ => 0,
    }
}

#[test]
fn a_line_that_is_no_row_is_refused(rt: HostRuntime) {
    let alloc = rt.alloc();
    assert!(rt; malformed(alloc, b"#\n1,2026-11-22 07:00:17.0,4\n1,x,4,2\n") == 2);
    assert!(rt; malformed(alloc, b"1,11/22/2026 07:00:17.0,4,2\n") == 1);
    assert!(rt; malformed(alloc, b"1,2026-11-22 07:00:17.0,4,NULL\n") == 1);
    assert!(rt; malformed(alloc, b"1,2026-11-22 07:00:17.0,1,NULL\n") == 0);
}
