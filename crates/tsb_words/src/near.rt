//! The right word that was perhaps meant by a wrong one.
ghost use Rattle.std.specs.Prelude.{◌≡◌, ◌≤◌, length, map, option_map, take};
ghost use Rattle.tsb_words.specs.Near.{field_near, first_word, front_of, hint, is_joined, is_slip, is_slip_apart, is_turned, live_near, near, near_in, words_of};

use crate::field_files::parts;
use std::convert::AsStr;
use tsb_lines::ShortLine;

/// How many bytes of a right word are shown at most; all have fewer.
const SHOWN: usize = 40;

/// The greatest length of the line of a hint, in bytes.
const HINT: usize = 80;

/// The options of `tsb_live`.
const LIVE: [&str; 3] = ["--strict", "--version", "--help"];

/// The commands of `tsb_field`, and its own options.
const COMMANDS: [&str; 10] = [
    "log",
    "record",
    "events",
    "diagram",
    "review",
    "schedule",
    "worksheet",
    "card",
    "--version",
    "--help",
];

/// The options of `log`.
const LOG: [&str; 13] = [
    "--from",
    "--device",
    "--as-outputs",
    "--time-form",
    "--zone",
    "--count",
    "--allow-empty",
    "--sort",
    "--sort-within",
    "--vehicle",
    "--pedestrian",
    "--preempt",
    "--help",
];

/// The options of `record`.
const RECORD: [&str; 7] = [
    "--go-on",
    "--recalls",
    "--outputs",
    "--no-clock",
    "--from",
    "--device",
    "--help",
];

/// The options of `events`.
const EVENTS: [&str; 5] = ["--log", "--wide", "--from", "--device", "--help"];

/// The options of `diagram`.
const DIAGRAM: [&str; 7] = [
    "--log",
    "--wide",
    "--title",
    "--seconds-per-line",
    "--from",
    "--events",
    "--help",
];

/// The options of `review`.
const REVIEW: [&str; 1] = ["--help"];

/// The options of `schedule`.
const SCHEDULE: [&str; 3] = ["--week", "--svg", "--help"];

/// The options of `worksheet`.
const WORKSHEET: [&str; 1] = ["--help"];

/// The options of `card`.
const CARD: [&str; 2] = ["--against", "--help"];

/// The right word that was perhaps meant by a wrong one of `tsb_live`: one from which a word differs by a slip of the
/// hand. That is a letter too much, too few or another, or two that have changed places. The first of all words is the
/// program's name. What comes after `--` is the name of a file.
pub fn live_near<S: AsStr>(words: &[S]) -> Option<&'static str>
    ensures { option_map (λ right. right.now) result ≡ live_near (map S.text words.now) }
{
    let (_name, rest) = words.split_first()?;
    near_in(&LIVE, rest)
}

/// The same of `tsb_field`: of commands for the first word, and of the options of that command for those after it.
pub fn field_near<S: AsStr>(words: &[S]) -> Option<&'static str>
    ensures { option_map (λ right. right.now) result ≡ field_near (map S.text words.now) }
{
    let (_name, rest) = words.split_first()?;
    let (command, options) = rest.split_first()?;
    match near(&COMMANDS, command.as_str().as_bytes()) {
        Some(right) => Some(right),
        None => near_in(words_of(command.as_str()), options),
    }
}

/// The first of these words.
pub(crate) fn first_word<S: AsStr>(words: &[S]) -> Option<&[u8]>
    ensures { option_map (λ text. text.now) result ≡ first_word (map S.text words.now) }
{
    let [next, ..] = words else {
        return None;
    };
    Some(next.as_str().as_bytes())
}

/// The line that asks whether this right word was meant.
pub fn hint(right: &str) -> ShortLine<HINT>
    ensures { result ≡ hint right.now }
{
    let mut line = ShortLine::new();
    line.push(b"did you mean ");
    line.push(shown(right.as_bytes()));
    line.push(b"? --help lists the words\n");
    line
}

/// A right word as it is shown.
fn shown(right: &[u8]) -> &[u8]
    ensures text { result.now ≡ take SHOWN right.now }
    ensures short { length result.now ≤ SHOWN }
{
    &right[..SHOWN.min(right.len())]
}

/// The options of the command of this name: none where there is no such command.
pub(crate) fn words_of(command: &str) -> &'static [&'static str]
    ensures { map (λ right. right.now) result.now ≡ words_of command.now }
{
    if command == "log" {
        &LOG
    } else if command == "record" {
        &RECORD
    } else if command == "events" {
        &EVENTS
    } else if command == "diagram" {
        &DIAGRAM
    } else if command == "review" {
        &REVIEW
    } else if command == "schedule" {
        &SCHEDULE
    } else if command == "worksheet" {
        &WORKSHEET
    } else if command == "card" {
        &CARD
    } else {
        &[]
    }
}

/// The right word that was perhaps meant by the first word that is near one, among the words before `--`.
fn near_in<S: AsStr>(right: &[&'static str], words: &[S]) -> Option<&'static str>
    ensures { option_map (λ right. right.now) result ≡ near_in (map (λ right. right.now) right.now) (map S.text words.now) }
{
    for word in words {
        if word.as_str() == "--" {
            return None;
        }
        if let Some(found) = near(right, front_of(word.as_str().as_bytes())) {
            return Some(found);
        }
    }
    None
}

/// A word up to a first `=`, behind which an option has its value.
pub(crate) fn front_of(word: &[u8]) -> &[u8]
    ensures { result.now ≡ front_of word.now }
{
    match parts(word) {
        Some((front, _value)) => front,
        None => word,
    }
}

/// The first of these right words from which a word differs by a slip.
fn near(right: &[&'static str], word: &[u8]) -> Option<&'static str>
    ensures { option_map (λ right. right.now) result ≡ near (map (λ right. right.now) right.now) word.now }
{
    for text in right {
        if is_slip(text.as_bytes(), word) {
            return Some(*text);
        }
    }
    None
}

/// Whether a word differs from a right one by a slip.
pub(crate) fn is_slip(right: &[u8], word: &[u8]) -> bool
    ensures { result ≡ is_slip right.now word.now }
{
    let mut left = right;
    let mut other = word;
    while let [x, xs @ ..] = left {
        let [y, ys @ ..] = other else {
            return xs.is_empty();
        };
        if *x != *y {
            return is_slip_apart(*x, xs, *y, ys);
        }
        left = xs;
        other = ys;
    }
    other.len() == 1
}

/// Whether a word differs from a right one by a slip, where their first letters differ.
fn is_slip_apart(x: u8, xs: &[u8], y: u8, ys: &[u8]) -> bool
    ensures { result ≡ is_slip_apart x xs.now y ys.now }
{
    xs == ys || is_joined(y, ys, xs) || is_joined(x, xs, ys) || is_turned(x, xs, y, ys)
}

/// Whether a text is this letter and these behind it.
fn is_joined(first: u8, rest: &[u8], whole: &[u8]) -> bool
    ensures { result ≡ is_joined first rest.now whole.now }
{
    let [letter, more @ ..] = whole else {
        return false;
    };
    *letter == first && more == rest
}

/// Whether the letters behind two first ones begin with the other of them, and go on alike.
fn is_turned(x: u8, xs: &[u8], y: u8, ys: &[u8]) -> bool
    ensures { result ≡ is_turned x xs.now y ys.now }
{
    let [after_x, xs @ ..] = xs else {
        return false;
    };
    let [after_y, ys @ ..] = ys else {
        return false;
    };
    *after_x == y && *after_y == x && xs == ys
}
