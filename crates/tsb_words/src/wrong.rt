//! What is wrong with words of `tsb_field`, where one word of them says it.
ghost use Rattle.std.specs.Prelude.{◌≡◌, map, option_map};
ghost use Rattle.tsb_words.specs.Wrong.{bare_or_none, device_of, field_wrong, given, has_name, has_option, is_command, is_flag, is_once, is_option, is_taken, is_text, joined_value, lacking, near_form, needs_from, next_value, other_value_of, right_near, seen_wrong, value_given, value_of, value_wrong, writes_device, wrong_at, wrong_in};

mod line;

use crate::field_files::{midnight_of, parts, seconds, window, wire};
use crate::near::{first_word, front_of, is_slip, words_of};
pub use line::{LONGEST_WRONG, WrongLine, wrong_line};
use std::convert::AsStr;
use tsb_event_text::{
    TimeForm, can_be_written, read_moment, time_form_named, time_form_word, zone_named,
};
use tsb_field_log::InputKind;

/// What an option of `tsb_field` takes.
#[derive(Clone, Copy)]
pub enum OptionValue {
    /// A moment: `YYYY-MM-DD HH:MM:SS`.
    Time,
    /// A date: `YYYY-MM-DD`.
    Date,
    /// A form of times: its word.
    Form,
    /// A zone: an offset, or `Z`.
    Zone,
    /// How many seconds a row may be late, 1 to `MOST_WINDOW`.
    Window,
    /// How many seconds a line of a diagram shows, 1 to `MOST_SECONDS`.
    Seconds,
    /// A wire to an input of this kind.
    Wire(InputKind),
    /// A device that a line of events can name.
    Device,
    /// Any text, or the name of a file.
    Text,
    /// Nothing: the option is a flag.
    Nothing,
}

/// What is wrong with words of `tsb_field`.
#[derive(Clone, Copy)]
pub enum WrongWord<'a> {
    /// There is no command of this name.
    Command(&'a [u8]),
    /// The command has no option of this name.
    Unknown(&'a [u8]),
    /// The option of this name, which takes this, has no value.
    Bare(&'a [u8], OptionValue),
    /// The option of this name, which takes this, has this value.
    Value(&'a [u8], OptionValue, &'a [u8]),
    /// The option of this name has this value, which is a slip of the hand away from that right one.
    Slip(&'a [u8], &'a [u8], &'static str),
    /// The option of this name comes twice.
    Twice(&'a [u8]),
    /// The option of this name, which takes this, has to be given and is not.
    Missing(&'a [u8], OptionValue),
    /// The files are not those that the command of this name names.
    Files(&'a str),
}

/// The forms of times that words name.
const FORMS: [TimeForm; 5] = [
    TimeForm::YearFirst,
    TimeForm::MonthFirst,
    TimeForm::DayFirst,
    TimeForm::Seconds,
    TimeForm::Milliseconds,
];

/// What is wrong with words that `tsb_field` refuses; the first is the program's name. It is the first word before `--`
/// with which something is wrong, or else what is missing. `None` where there is no word but the name, and where `--help`
/// is among others: then the usage says more. "profile"
pub fn field_wrong<'a, S: AsStr>(words: &'a [S]) -> Option<WrongWord<'a>>
    ensures { option_map seen_wrong result ≡ field_wrong (map S.text words.now) }
{
    let (_name, rest) = words.split_first()?;
    let (command, options) = rest.split_first()?;
    let command = command.as_str();
    if !is_command(command) {
        return Some(WrongWord::Command(command.as_bytes()));
    }
    if has_option(b"--help", options) {
        return None;
    }
    match wrong_in(command, options) {
        Some(wrong) => Some(wrong),
        None => Some(lacking(command, options)),
    }
}

/// Whether there is a command of this name.
fn is_command(command: &str) -> bool
    ensures { result ≡ is_command command.now }
{
    !words_of(command).is_empty()
}

/// What is wrong with the first of these words, before `--`, with which something is.
fn wrong_in<'a, S: AsStr>(command: &str, words: &'a [S]) -> Option<WrongWord<'a>>
    ensures { option_map seen_wrong result ≡ wrong_in command.now (map S.text words.now) }
{
    let mut rest = words;
    while let [word, behind @ ..] = rest {
        if word.as_str() == "--" {
            return None;
        }
        if let Some(wrong) = wrong_at(command, word.as_str(), behind) {
            return Some(wrong);
        }
        rest = behind;
    }
    None
}

/// What is wrong with a word, before these, if something is.
fn wrong_at<'a, S: AsStr>(command: &str, word: &'a str, behind: &'a [S]) -> Option<WrongWord<'a>>
    ensures { option_map seen_wrong result ≡ wrong_at command.now word.now (map S.text behind.now) }
{
    let name = front_of(word.as_bytes());
    if !is_option(name) {
        return None;
    }
    if !has_name(words_of(command), name) {
        return Some(WrongWord::Unknown(name));
    }
    let takes = value_of(command, name);
    if is_once(takes) && has_option(name, behind) {
        return Some(WrongWord::Twice(name));
    }
    let value = value_given(takes, joined_value(word), next_value(behind));
    value_wrong(name, takes, value)
}

/// Whether a word is an option: it has a byte after a first hyphen.
fn is_option(word: &[u8]) -> bool
    ensures { result ≡ is_option word.now }
{
    let [first, rest @ ..] = word else {
        return false;
    };
    *first == b'-' && !rest.is_empty()
}

/// Whether one of these texts is this name.
fn has_name(rights: &[&'static str], name: &[u8]) -> bool
    ensures { result ≡ has_name (map (λ right. right.now) rights.now) name.now }
{
    for right in rights {
        if right.as_bytes() == name {
            return true;
        }
    }
    false
}

/// Whether an option of this name is among these words, before `--`.
fn has_option<S: AsStr>(name: &[u8], words: &[S]) -> bool
    ensures { result ≡ has_option name.now (map S.text words.now) }
{
    for word in words {
        if word.as_str() == "--" {
            return false;
        }
        if front_of(word.as_str().as_bytes()) == name {
            return true;
        }
    }
    false
}

/// What an option of this name takes, where the command of that name has it.
fn value_of(command: &str, name: &[u8]) -> OptionValue
    ensures { result ≡ value_of command.now name.now }
{
    if name == b"--from".as_slice() {
        OptionValue::Time
    } else if name == b"--week".as_slice() {
        OptionValue::Date
    } else if name == b"--time-form".as_slice() {
        OptionValue::Form
    } else if name == b"--zone".as_slice() {
        OptionValue::Zone
    } else if name == b"--sort-within".as_slice() {
        OptionValue::Window
    } else if name == b"--seconds-per-line".as_slice() {
        OptionValue::Seconds
    } else if name == b"--device".as_slice() {
        device_of(command)
    } else {
        other_value_of(name)
    }
}

/// What `--device` takes: where events are written, one that a line of them can name.
fn device_of(command: &str) -> OptionValue
    ensures { result ≡ device_of command.now }
{
    if writes_device(command) {
        OptionValue::Device
    } else {
        OptionValue::Text
    }
}

/// Whether the command of this name writes events of a device.
fn writes_device(command: &str) -> bool
    ensures { result ≡ writes_device command.now }
{
    command == "record" || command == "events"
}

/// What an option of this name takes that is none of times, seconds or devices.
fn other_value_of(name: &[u8]) -> OptionValue
    ensures { result ≡ other_value_of name.now }
{
    if name == b"--vehicle".as_slice() {
        OptionValue::Wire(InputKind::Vehicle)
    } else if name == b"--pedestrian".as_slice() {
        OptionValue::Wire(InputKind::Pedestrian)
    } else if name == b"--preempt".as_slice() {
        OptionValue::Wire(InputKind::Preempt)
    } else if is_text(name) {
        OptionValue::Text
    } else {
        OptionValue::Nothing
    }
}

/// Whether an option of this name takes any text.
fn is_text(name: &[u8]) -> bool
    ensures { result ≡ is_text name.now }
{
    name == b"--as-outputs".as_slice()
        || name == b"--log".as_slice()
        || name == b"--title".as_slice()
        || name == b"--events".as_slice()
        || name == b"--against".as_slice()
}

/// Whether an option that takes this may come once alone.
fn is_once(takes: OptionValue) -> bool
    ensures { result ≡ is_once takes }
{
    match takes {
        OptionValue::Wire(_) => false,
        _ => true,
    }
}

/// Whether an option that takes this is a flag.
fn is_flag(takes: OptionValue) -> bool
    ensures { result ≡ is_flag takes }
{
    match takes {
        OptionValue::Nothing => true,
        _ => false,
    }
}

/// What comes after the first `=` of a word, if it has one.
fn joined_value(word: &str) -> Option<&[u8]>
    ensures { option_map (λ text. text.now) result ≡ joined_value word.now }
{
    let (_front, value) = parts(word.as_bytes())?;
    Some(value)
}

/// The first of these words, where it is no option: a value that begins with a hyphen comes after `=`.
fn next_value<S: AsStr>(words: &[S]) -> Option<&[u8]>
    ensures { option_map (λ text. text.now) result ≡ next_value (map S.text words.now) }
{
    let word = first_word(words)?;
    if is_option(word) {
        return None;
    }
    Some(word)
}

/// The value of an option that takes this: what comes after its `=`, or else the next word, which a flag passes over.
fn value_given<'a>(
    takes: OptionValue,
    joined: Option<&'a [u8]>,
    next: Option<&'a [u8]>,
) -> Option<&'a [u8]>
    ensures { option_map (λ text. text.now) result
        ≡ value_given takes (option_map (λ text. text.now) joined.entry) (option_map (λ text. text.now) next.entry) }
{
    match joined {
        Some(value) => Some(value),
        None => { if is_flag(takes) { None } else { next } }
    }
}

/// What is wrong with the value of an option, if something is.
fn value_wrong<'a>(
    name: &'a [u8],
    takes: OptionValue,
    value: Option<&'a [u8]>,
) -> Option<WrongWord<'a>>
    ensures { option_map seen_wrong result ≡ value_wrong name.now takes (option_map (λ text. text.now) value.entry) }
{
    match value {
        Some(value) => given(name, takes, value),
        None => bare_or_none(name, takes),
    }
}

/// That an option has no value, where it is no flag.
fn bare_or_none<'a>(name: &'a [u8], takes: OptionValue) -> Option<WrongWord<'a>>
    ensures { option_map seen_wrong result ≡ bare_or_none name.now takes }
{
    if is_flag(takes) {
        None
    } else {
        Some(WrongWord::Bare(name, takes))
    }
}

/// What is wrong with an option that has this value, if something is.
fn given<'a>(name: &'a [u8], takes: OptionValue, value: &'a [u8]) -> Option<WrongWord<'a>>
    ensures { option_map seen_wrong result ≡ given name.now takes value.now }
{
    if is_taken(takes, value) {
        return None;
    }
    match right_near(takes, value) {
        Some(right) => Some(WrongWord::Slip(name, value, right)),
        None => Some(WrongWord::Value(name, takes, value)),
    }
}

/// Whether an option that takes this can have that value.
fn is_taken(takes: OptionValue, value: &[u8]) -> bool
    ensures { result ≡ is_taken takes value.now }
{
    match takes {
        OptionValue::Time => read_moment(value).is_some(),
        OptionValue::Date => midnight_of(value).is_some(),
        OptionValue::Form => time_form_named(value).is_some(),
        OptionValue::Zone => zone_named(value).is_some(),
        OptionValue::Window => window(value).is_some(),
        OptionValue::Seconds => seconds(value).is_some(),
        OptionValue::Wire(kind) => wire(kind, value).is_some(),
        OptionValue::Device => can_be_written(value),
        OptionValue::Text => true,
        OptionValue::Nothing => false,
    }
}

/// The right value of an option that takes this that was perhaps meant by that one.
fn right_near(takes: OptionValue, value: &[u8]) -> Option<&'static str>
    ensures { option_map (λ right. right.now) result ≡ right_near takes value.now }
{
    match takes {
        OptionValue::Form => near_form(&FORMS, value),
        _ => None,
    }
}

/// The word of the first of these forms of times from which a word differs by a slip.
fn near_form(forms: &[TimeForm], word: &[u8]) -> Option<&'static str>
    ensures { option_map (λ right. right.now) result ≡ near_form forms.now word.now }
{
    for form in forms {
        let right = time_form_word(*form);
        if is_slip(right.as_bytes(), word) {
            return Some(right);
        }
    }
    None
}

/// What these words lack: an option that has to be given, or else the files of the command.
fn lacking<'a, S: AsStr>(command: &'a str, words: &'a [S]) -> WrongWord<'a>
    ensures { seen_wrong result ≡ lacking command.now (map S.text words.now) }
{
    if needs_from(command, words) && !has_option(b"--from", words) {
        return WrongWord::Missing(b"--from", OptionValue::Time);
    }
    if writes_device(command) && !has_option(b"--device", words) {
        return WrongWord::Missing(b"--device", OptionValue::Device);
    }
    if command == "schedule" && !has_option(b"--week", words) {
        return WrongWord::Missing(b"--week", OptionValue::Date);
    }
    WrongWord::Files(command)
}

/// Whether `--from` has to be given: in each command but `review`, `schedule`, `worksheet` and `card`, and in `diagram`
/// where there is `--events`.
fn needs_from<S: AsStr>(command: &str, words: &[S]) -> bool
    ensures { result ≡ needs_from command.now (map S.text words.now) }
{
    if command == "diagram" {
        return has_option(b"--events", words);
    }
    command != "review" && command != "schedule" && command != "worksheet" && command != "card"
}
