//! The words of the command line of `tsb_field`. Expected values are worked by hand from the rules.

use std::alloc::Global;
use tsb_event_text::{TimeForm, Zone, read_moment};
use tsb_field_log::{InputKind, Wire};
use tsb_words::WordsError;
use tsb_words::field_files::{Asked, Manner, RecordManner, read_words};

/// How `log` reads events where words don't say.
const PLAIN: Manner = Manner {
    times: None,
    zone: None,
    window: None,
    counts: false,
    may_be_empty: false,
};

fn wire(kind: InputKind, channel: u32, input: u8) -> Wire {
    Wire {
        kind,
        channel,
        input,
    }
}

/// Whether the words ask for a log from this time on, of this device and these wires.
fn ask_for_log(
    alloc: Global,
    words: &[&str],
    time: &[u8],
    wanted: Option<&str>,
    mapped: &[Wire],
) -> bool {
    match read_words(alloc, words) {
        Ok(Asked::Log(asked)) => {
            Some(asked.from) == read_moment(time)
                && asked.device == wanted
                && asked.wires.as_slice() == mapped
                && asked.manner == PLAIN
                && asked.as_outputs == None
        }
        _ => false,
    }
}

#[test]
fn log_words_name_wires(rt: HostRuntime) {
    let words = [
        "tsb_field",
        "log",
        "--preempt",
        "2=4",
        "--vehicle=12=3",
        "--pedestrian",
        "0=8",
        "--from",
        "2026-11-22T07:00:00.1",
        "--vehicle",
        "4294967295=16",
    ];
    let wires = [
        wire(InputKind::Vehicle, 12, 3),
        wire(InputKind::Vehicle, 4_294_967_295, 16),
        wire(InputKind::Pedestrian, 0, 8),
        wire(InputKind::Preempt, 2, 4),
    ];
    let time = b"2026-11-22 07:00:00.1".as_slice();
    assert!(rt; ask_for_log(rt.alloc(), &words, time, None, &wires));
}

#[test]
fn log_words_name_a_device(rt: HostRuntime) {
    let words = [
        "tsb_field",
        "log",
        "--device=-7",
        "--from=2026-11-22 07:00:00",
    ];
    let time = b"2026-11-22T07:00:00".as_slice();
    assert!(rt; ask_for_log(rt.alloc(), &words, time, Some("-7"), &[]));
}

/// Whether the words ask for a log beside this plan.
fn ask_beside(alloc: Global, words: &[&str], plan: &str) -> bool {
    match read_words(alloc, words) {
        Ok(Asked::Log(asked)) => {
            asked.device == None && asked.as_outputs == Some(plan) && asked.manner == PLAIN
        }
        _ => false,
    }
}

#[test]
fn log_words_name_a_plan(rt: HostRuntime) {
    let from = "--from=2026-11-22 07:00:00";
    let words = ["tsb_field", "log", "--as-outputs", "plan.json", from];
    assert!(rt; ask_beside(rt.alloc(), &words, "plan.json"));
    let words = ["tsb_field", "log", from, "--as-outputs=-a b"];
    assert!(rt; ask_beside(rt.alloc(), &words, "-a b"));
    let none = ["tsb_field", "log", from, "--as-outputs"];
    let two = ["tsb_field", "log", from, "--as-outputs=a", "--as-outputs=a"];
    assert!(rt; are_bad(rt.alloc(), &[&none, &two]));
}

/// Whether the words ask for the events of device 1001 from this time on, with those of `a.log`, of wide lines or not.
fn ask_for_events(alloc: Global, words: &[&str], time: &[u8], is_wide: bool) -> bool {
    match read_words(alloc, words) {
        Ok(Asked::Events(asked)) => {
            Some(asked.from) == read_moment(time)
                && asked.device == "1001"
                && asked.log == Some("a.log")
                && asked.is_wide == is_wide
        }
        _ => false,
    }
}

#[test]
fn events_words(rt: HostRuntime) {
    let words = [
        "tsb_field",
        "events",
        "--log",
        "a.log",
        "--device",
        "1001",
        "--from",
        "2026-11-22T07:00:00",
    ];
    let time = b"2026-11-22 07:00:00".as_slice();
    assert!(rt; ask_for_events(rt.alloc(), &words, time, false));
    let from = "--from=2026-11-22T07:00:00";
    let wide = [
        "tsb_field",
        "events",
        "--wide",
        "--log=a.log",
        "--device=1001",
        from,
    ];
    assert!(rt; ask_for_events(rt.alloc(), &wide, time, true));
}

/// Whether the words ask for a record of this device from this time on, on this plan and log, in this manner.
fn ask_for_record(
    alloc: Global,
    words: &[&str],
    time: &[u8],
    name: &str,
    files: (&str, &str),
    wanted: RecordManner,
) -> bool {
    match read_words(alloc, words) {
        Ok(Asked::Record(asked)) => {
            Some(asked.from) == read_moment(time)
                && asked.device == name
                && (asked.plan, asked.log) == files
                && asked.manner == wanted
        }
        _ => false,
    }
}

/// How a record is made where words say nothing of it.
const USUAL: RecordManner = RecordManner {
    goes_on: false,
    recalls: false,
    outputs: false,
    no_clock: false,
};

#[test]
fn record_words(rt: HostRuntime) {
    let words = [
        "tsb_field",
        "record",
        "a.json",
        "--device=1001",
        "--from",
        "2026-11-22T07:00:00",
        "a.log",
    ];
    let time = b"2026-11-22 07:00:00".as_slice();
    let files = ("a.json", "a.log");
    assert!(rt; ask_for_record(rt.alloc(), &words, time, "1001", files, USUAL));
}

#[test]
fn record_words_that_go_on(rt: HostRuntime) {
    let words = [
        "tsb_field",
        "record",
        FROM,
        "--device=1001",
        "a.json",
        "--go-on",
        "a.log",
    ];
    let time = b"2026-11-22 07:00:00".as_slice();
    let files = ("a.json", "a.log");
    let wanted = RecordManner {
        goes_on: true,
        ..USUAL
    };
    assert!(rt; ask_for_record(rt.alloc(), &words, time, "1001", files, wanted));
}

#[test]
fn record_words_of_a_form(rt: HostRuntime) {
    let words = [
        "tsb_field",
        "record",
        FROM,
        "--device=1001",
        "--outputs",
        "a.json",
        "a.log",
        "--recalls",
    ];
    let time = b"2026-11-22 07:00:00".as_slice();
    let files = ("a.json", "a.log");
    let wanted = RecordManner {
        recalls: true,
        outputs: true,
        ..USUAL
    };
    assert!(rt; ask_for_record(rt.alloc(), &words, time, "1001", files, wanted));
}

#[test]
fn record_words_without_a_clock(rt: HostRuntime) {
    let words = [
        "tsb_field",
        "record",
        "--no-clock",
        FROM,
        "--device=1001",
        "a.json",
        "a.log",
    ];
    let time = b"2026-11-22 07:00:00".as_slice();
    let files = ("a.json", "a.log");
    let wanted = RecordManner {
        no_clock: true,
        ..USUAL
    };
    assert!(rt; ask_for_record(rt.alloc(), &words, time, "1001", files, wanted));
}

/// Whether the words ask for a diagram with this log, title and width.
fn ask_for_diagram(
    alloc: Global,
    words: &[&str],
    rows: Option<&str>,
    name: Option<&str>,
    width: Option<u32>,
) -> bool {
    match read_words(alloc, words) {
        Ok(Asked::Diagram(asked)) => {
            let bare = asked.from.is_none() && asked.events.is_none();
            asked.log == rows && asked.title == name && asked.seconds_per_line == width && bare
        }
        _ => false,
    }
}

/// Whether the words ask for a diagram from this moment on, with the ends of greens of this file.
fn ask_for_ends(alloc: Global, words: &[&str], moment: &[u8], file: Option<&str>) -> bool {
    match read_words(alloc, words) {
        Ok(Asked::Diagram(asked)) => asked.from == read_moment(moment) && asked.events == file,
        _ => false,
    }
}

#[test]
fn diagram_words_of_a_moment(rt: HostRuntime) {
    let moment = b"2026-11-22 07:00:00".as_slice();
    let from = ["tsb_field", "diagram", "--from", "2026-11-22 07:00:00"];
    assert!(rt; ask_for_ends(rt.alloc(), &from, moment, None));
    let events = ["tsb_field", "diagram", "--events=a.csv", FROM];
    assert!(rt; ask_for_ends(rt.alloc(), &events, moment, Some("a.csv")));
    let alone = ["tsb_field", "diagram", "--events=a.csv"];
    assert!(rt; read_words(rt.alloc(), &alone).is_err());
}

#[test]
fn diagram_words(rt: HostRuntime) {
    let words = [
        "tsb_field",
        "diagram",
        "--title",
        "Main and 5th",
        "--seconds-per-line=86400",
        "--log=b.log",
    ];
    let title = Some("Main and 5th");
    assert!(rt; ask_for_diagram(rt.alloc(), &words, Some("b.log"), title, Some(86_400)));
    let alone = ["tsb_field", "diagram"];
    assert!(rt; ask_for_diagram(rt.alloc(), &alone, None, None, None));
}

/// Whether the words ask for a review of this plan.
fn ask_for_review(alloc: Global, words: &[&str], file: &str) -> bool {
    match read_words(alloc, words) {
        Ok(Asked::Review { plan }) => plan == file,
        _ => false,
    }
}

#[test]
fn review_words(rt: HostRuntime) {
    assert!(rt; ask_for_review(rt.alloc(), &["tsb_field", "review", "a.json"], "a.json"));
    let hyphen = ["tsb_field", "review", "--", "-a.json"];
    assert!(rt; ask_for_review(rt.alloc(), &hyphen, "-a.json"));
}

/// Whether the words ask for the week of this plan from 2026-11-22 on, 9,830 days after 1999-12-24, as a picture or not.
fn ask_for_week(alloc: Global, words: &[&str], file: &str, picture: bool) -> bool {
    match read_words(alloc, words) {
        Ok(Asked::Schedule { plan, week, svg }) => {
            plan == file && week.number() == 9_830 * 864_000 && svg == picture
        }
        _ => false,
    }
}

#[test]
fn schedule_words(rt: HostRuntime) {
    let behind = ["tsb_field", "schedule", "a.json", "--week", "2026-11-22"];
    assert!(rt; ask_for_week(rt.alloc(), &behind, "a.json", false));
    let before = ["tsb_field", "schedule", "--week=2026-11-22", "a.json"];
    assert!(rt; ask_for_week(rt.alloc(), &before, "a.json", false));
    let picture = [
        "tsb_field",
        "schedule",
        "--svg",
        "--week=2026-11-22",
        "a.json",
    ];
    assert!(rt; ask_for_week(rt.alloc(), &picture, "a.json", true));
}

/// Whether the words ask for the worksheet of this plan.
fn ask_for_worksheet(alloc: Global, words: &[&str], file: &str) -> bool {
    match read_words(alloc, words) {
        Ok(Asked::Worksheet { plan }) => plan == file,
        _ => false,
    }
}

#[test]
fn worksheet_words(rt: HostRuntime) {
    assert!(rt; ask_for_worksheet(rt.alloc(), &["tsb_field", "worksheet", "a.json"], "a.json"));
    let hyphen = ["tsb_field", "worksheet", "--", "-a.json"];
    assert!(rt; ask_for_worksheet(rt.alloc(), &hyphen, "-a.json"));
}

/// Whether the words ask for the card of this plan, beside no other.
fn ask_for_card(alloc: Global, words: &[&str], file: &str) -> bool {
    match read_words(alloc, words) {
        Ok(
            Asked::Card {
                plan,
                against: None,
            },
        ) => plan == file,
        _ => false,
    }
}

/// Whether the words ask for the card of this plan beside this one.
fn ask_for_cards(alloc: Global, words: &[&str], file: &str, card: &str) -> bool {
    match read_words(alloc, words) {
        Ok(
            Asked::Card {
                plan,
                against: Some(other),
            },
        ) => plan == file && other == card,
        _ => false,
    }
}

#[test]
fn card_words(rt: HostRuntime) {
    assert!(rt; ask_for_card(rt.alloc(), &["tsb_field", "card", "a.json"], "a.json"));
    let beside = ["tsb_field", "card", "a.json", "--against", "a.txt"];
    assert!(rt; ask_for_cards(rt.alloc(), &beside, "a.json", "a.txt"));
}

const FROM: &str = "--from=2026-11-22T07:00:00";

/// Words that ask for nothing.
const BAD: [&[&str]; 43] = [
    &["tsb_field"],
    &["tsb_field", "help"],
    &["tsb_field", "log"],
    &["tsb_field", "log", "--help"],
    &["tsb_field", "log", "--from", "2026-11-22"],
    &["tsb_field", "log", FROM, FROM],
    &["tsb_field", "log", FROM, "--log=a"],
    &["tsb_field", "log", FROM, "--device", "-7"],
    &["tsb_field", "log", FROM, "more"],
    &["tsb_field", "log", FROM, "--vehicle=1=65"],
    &["tsb_field", "log", FROM, "--vehicle=1=0"],
    &["tsb_field", "log", FROM, "--vehicle=1"],
    &["tsb_field", "log", FROM, "--vehicle==1"],
    &["tsb_field", "log", FROM, "--pedestrian=1=17"],
    &["tsb_field", "log", FROM, "--preempt=1=9"],
    &["tsb_field", "log", FROM, "--vehicle=4294967296=1"],
    &["tsb_field", "record", FROM, "--device=1", "a.json"],
    &["tsb_field", "record", FROM, "a.json", "a.log"],
    &[
        "tsb_field",
        "record",
        FROM,
        "--device=a\"b",
        "a.json",
        "a.log",
    ],
    &[
        "tsb_field",
        "record",
        FROM,
        "--device=1",
        "--go-on=true",
        "a.json",
        "a.log",
    ],
    &[
        "tsb_field",
        "record",
        FROM,
        "--device=1",
        "--go-on",
        "--go-on",
        "a.json",
        "a.log",
    ],
    &["tsb_field", "events", FROM, "--device=1", "--go-on"],
    &["tsb_field", "events", FROM, "--device=1", "--no-clock"],
    &["tsb_field", "log", FROM, "--no-clock"],
    &["tsb_field", "events", FROM],
    &["tsb_field", "events", FROM, "--device=a\"b"],
    &["tsb_field", "events", "--device=1"],
    &["tsb_field", "diagram", "--seconds-per-line=0"],
    &["tsb_field", "diagram", "--seconds-per-line=86401"],
    &["tsb_field", "review"],
    &["tsb_field", "review", "a.json", "a.log"],
    &["tsb_field", "review", "--log=a.log", "a.json"],
    &["tsb_field", "schedule", "a.json"],
    &["tsb_field", "schedule", "--week=2026-11-22"],
    &["tsb_field", "schedule", "--week=2026-02-29", "a.json"],
    &["tsb_field", "schedule", "--week=1999-12-31", "a.json"],
    &["tsb_field", "worksheet"],
    &["tsb_field", "worksheet", "a.json", "a.log"],
    &["tsb_field", "worksheet", "--week=2026-11-22", "a.json"],
    &["tsb_field", "card"],
    &["tsb_field", "card", "a.json", "b.json"],
    &["tsb_field", "card", "--against=a", "--against=b", "a.json"],
    &["tsb_field", "worksheet", "--against=a", "a.json"],
];

/// Whether all these words are bad.
fn are_bad(alloc: Global, all: &[&[&str]]) -> bool {
    for words in all {
        if !matches!(read_words(alloc, words), Err(WordsError::Bad)) {
            return false;
        }
    }
    true
}

#[test]
fn other_words_are_bad(rt: HostRuntime) {
    assert!(rt; are_bad(rt.alloc(), &BAD));
}

/// Whether these words behind those of a log ask for this manner, or none where it is `None`.
fn ask_for_manner(alloc: Global, more: &[&str], wanted: Option<Manner>) -> bool {
    let mut words = Vec::new(alloc);
    let begin = ["tsb_field", "log", "--from", "2026-11-22 07:00:00"];
    if words.extend_from_slice(&begin).is_err() || words.extend_from_slice(more).is_err() {
        return false;
    }
    match read_words(alloc, words.as_slice()) {
        Ok(Asked::Log(asked)) => Some(asked.manner) == wanted,
        Err(WordsError::Bad) => wanted.is_none(),
        _ => false,
    }
}

/// Forms of times, each with its word.
const FORMS: [(&str, TimeForm); 5] = [
    ("--time-form=year-first", TimeForm::YearFirst),
    ("--time-form=month-first", TimeForm::MonthFirst),
    ("--time-form=day-first", TimeForm::DayFirst),
    ("--time-form=seconds", TimeForm::Seconds),
    ("--time-form=milliseconds", TimeForm::Milliseconds),
];

/// Whether each form has its word.
fn forms_are_named(alloc: Global) -> bool {
    for (word, form) in FORMS {
        let mut wanted = PLAIN;
        wanted.times = Some(form);
        if !ask_for_manner(alloc, &[word], Some(wanted)) {
            return false;
        }
    }
    true
}

/// Words by which rows are sorted, each with the seconds that a row may be late.
const WINDOWS: [(&str, u32); 4] = [
    ("--sort", 60),
    ("--sort-within=1", 1),
    ("--sort-within=0060", 60),
    ("--sort-within=3600", 3600),
];

/// Whether each window has its words, also behind `--sort`.
fn windows_are_named(alloc: Global) -> bool {
    for (word, seconds) in WINDOWS {
        let mut wanted = PLAIN;
        wanted.window = Some(seconds);
        if !ask_for_manner(alloc, &[word], Some(wanted)) {
            return false;
        }
        if word != "--sort" && !ask_for_manner(alloc, &["--sort", word], Some(wanted)) {
            return false;
        }
    }
    true
}

/// Words that name no manner.
const NO_MANNERS: [[&str; 2]; 11] = [
    ["--sort-within=0", "--sort"],
    ["--sort-within", "3601"],
    ["--sort=60", "--count"],
    ["--time-form", "plain"],
    ["--time-form", "Year-First"],
    ["--time-form", ""],
    ["--zone", "7"],
    ["--zone=+24:00", "--count"],
    ["--count", "--count"],
    ["--count=true", "--allow-empty"],
    ["--allow-empty", "--allow-empty"],
];

#[test]
fn log_words_name_a_manner(rt: HostRuntime) {
    assert!(rt; forms_are_named(rt.alloc()));
    assert!(rt; windows_are_named(rt.alloc()));
    let all = ["--allow-empty", "--zone=-07:00", "--count"];
    let wanted = Manner {
        times: None,
        zone: Some(Zone { east: 0, west: 420 }),
        window: None,
        counts: true,
        may_be_empty: true,
    };
    assert!(rt; ask_for_manner(rt.alloc(), &all, Some(wanted)));
    for words in NO_MANNERS {
        assert!(rt; ask_for_manner(rt.alloc(), &words, None));
    }
}
