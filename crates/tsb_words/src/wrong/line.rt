//! The line that says what is wrong with words, part by part. It takes no memory.
ghost use Rattle.std.specs.Prelude.{◌≡◌, ◌≤◌, ◌++◌, codes, length};
ghost use Rattle.tsb_lines.specs.ShortLines.{AddsShort};
ghost use Rattle.tsb_words.specs.Shown.{shown};
ghost use Rattle.tsb_words.specs.Wrong.{device_text, files_text, input_name, quoted, seconds_text, seen_wrong, taken_text, wire_text, wrong_line, wrong_text};

use crate::field_files::{MOST_SECONDS, MOST_WINDOW};
use crate::shown::shown;
use crate::wrong::{OptionValue, WrongWord};
use tsb_event_text::LONGEST_DEVICE;
use tsb_field_log::InputKind;
use tsb_lines::ShortLine;

/// How many bytes there is room for in the line: more than any has.
pub const LONGEST_WRONG: usize = 256;

/// The line of what is wrong with words, or its first parts.
pub type WrongLine = ShortLine<LONGEST_WRONG>;

/// The line that says what is wrong with words, with its end. It shows the first bytes of each word (`shown`).
pub fn wrong_line(wrong: WrongWord<'_>) -> WrongLine
    ensures { result ≡ wrong_line (seen_wrong wrong.entry) }
{
    let mut line = WrongLine::new();
    push_wrong(&mut line, wrong);
    line.push(b"\n");
    line
}

/// Adds what is wrong with words.
fn push_wrong(line: &mut WrongLine, wrong: WrongWord<'_>)
    ensures { AddsShort LONGEST_WRONG 240 line.old (wrong_text (seen_wrong wrong.entry)) line.new }
{
    match wrong {
        WrongWord::Command(name) => push_no_command(line, name),
        WrongWord::Unknown(name) => push_unknown(line, name),
        WrongWord::Bare(name, takes) => push_bare(line, name, takes),
        WrongWord::Value(name, takes, value) => push_value(line, name, takes, value),
        WrongWord::Slip(name, value, right) => push_slip(line, name, value, right),
        WrongWord::Twice(name) => push_of(line, name, b" comes twice"),
        WrongWord::Missing(name, takes) => push_lack(line, name, b" has to be given: ", takes),
        WrongWord::Files(command) => push_said(line, files_text(command)),
    }
}

/// Adds words.
fn push_said(line: &mut WrongLine, words: &[u8])
    requires { length words.now ≤ 100 }
    ensures some { AddsShort LONGEST_WRONG 100 line.old words.now line.new }
    ensures many { AddsShort LONGEST_WRONG 240 line.old words.now line.new }
{
    line.push(words);
}

/// Adds a word as it is shown.
fn push_word(line: &mut WrongLine, word: &[u8])
    ensures { AddsShort LONGEST_WRONG 40 line.old (shown word.now) line.new }
{
    line.push(&shown(word));
}

/// Adds that there is no command of this name.
fn push_no_command(line: &mut WrongLine, name: &[u8])
    ensures { AddsShort LONGEST_WRONG 240 line.old
        (codes "there is no command \"" ++ (shown name.now ++ codes "\": log, record, events, diagram, review, schedule, worksheet or card")) line.new }
{
    line.push(b"there is no command \"");
    push_word(line, name);
    line.push(b"\": log, record, events, diagram, review, schedule, worksheet or card");
}

/// Adds that a command has no option of this name.
fn push_unknown(line: &mut WrongLine, name: &[u8])
    ensures { AddsShort LONGEST_WRONG 240 line.old
        (shown name.now ++ codes ": the command has no such option; --help after it lists all") line.new }
{
    push_of(
        line,
        name,
        b": the command has no such option; --help after it lists all",
    );
}

/// Adds that an option has no value, and what it takes.
fn push_bare(line: &mut WrongLine, name: &[u8], takes: OptionValue)
    ensures { AddsShort LONGEST_WRONG 240 line.old
        (shown name.now ++ (codes " has no value (one that begins with a hyphen comes after =): " ++ taken_text takes)) line.new }
{
    push_lack(
        line,
        name,
        b" has no value (one that begins with a hyphen comes after =): ",
        takes,
    );
}

/// Adds the name of an option, and words.
fn push_of(line: &mut WrongLine, name: &[u8], words: &[u8])
    requires { length words.now ≤ 70 }
    ensures { AddsShort LONGEST_WRONG 240 line.old (shown name.now ++ words.now) line.new }
{
    push_word(line, name);
    line.push(words);
}

/// Adds the name of an option, words, and what the option takes.
fn push_lack(line: &mut WrongLine, name: &[u8], words: &[u8], takes: OptionValue)
    requires { length words.now ≤ 70 }
    ensures { AddsShort LONGEST_WRONG 240 line.old (shown name.now ++ (words.now ++ taken_text takes)) line.new }
{
    push_word(line, name);
    line.push(words);
    push_taken(line, takes);
}

/// Adds the name of an option, its value, and what the option takes.
fn push_value(line: &mut WrongLine, name: &[u8], takes: OptionValue, value: &[u8])
    ensures { AddsShort LONGEST_WRONG 240 line.old (shown name.now ++ (quoted value.now ++ taken_text takes)) line.new }
{
    push_word(line, name);
    push_quoted(line, value);
    push_taken(line, takes);
}

/// Adds the name of an option, its value, and the right one that was perhaps meant.
fn push_slip(line: &mut WrongLine, name: &[u8], value: &[u8], right: &str)
    ensures { AddsShort LONGEST_WRONG 240 line.old
        (shown name.now ++ (quoted value.now ++ (codes "did you mean " ++ (shown right.now ++ codes "?")))) line.new }
{
    push_word(line, name);
    push_quoted(line, value);
    line.push(b"did you mean ");
    push_word(line, right.as_bytes());
    line.push(b"?");
}

/// Adds a value in double quotes.
fn push_quoted(line: &mut WrongLine, value: &[u8])
    ensures { AddsShort LONGEST_WRONG 50 line.old (quoted value.now) line.new }
{
    line.push(b" \"");
    push_word(line, value);
    line.push(b"\": ");
}

/// Adds what an option takes.
fn push_taken(line: &mut WrongLine, takes: OptionValue)
    ensures { AddsShort LONGEST_WRONG 100 line.old (taken_text takes) line.new }
{
    match takes {
        OptionValue::Time => push_said(
            line,
            b"a time is YYYY-MM-DD HH:MM:SS, such as \"2026-11-22 07:00:00\"",
        ),
        OptionValue::Date => push_said(
            line,
            b"a date is YYYY-MM-DD, such as 2026-11-22, of the years 2000 to 2099",
        ),
        OptionValue::Form => push_said(
            line,
            b"a form is year-first, month-first, day-first, seconds or milliseconds",
        ),
        OptionValue::Zone => push_said(line, b"a zone is an offset such as -07:00, or Z"),
        OptionValue::Window => push_seconds(line, MOST_WINDOW),
        OptionValue::Seconds => push_seconds(line, MOST_SECONDS),
        OptionValue::Wire(kind) => push_wire(line, kind),
        OptionValue::Device => push_device(line),
        OptionValue::Text => push_said(line, b"a name or a text has to follow"),
        OptionValue::Nothing => push_said(line, b"it takes no value"),
    }
}

/// Adds how many seconds an option takes at most.
fn push_seconds(line: &mut WrongLine, most: u32)
    ensures { AddsShort LONGEST_WRONG 100 line.old (seconds_text most) line.new }
{
    line.push(b"a number of seconds is 1 to ");
    line.push_number(most);
}

/// Adds what a wire to an input of this kind is.
fn push_wire(line: &mut WrongLine, kind: InputKind)
    ensures { AddsShort LONGEST_WRONG 100 line.old (wire_text kind) line.new }
{
    line.push(input_name(kind));
    line.push(b" from 1 to ");
    line.push_number(kind.most() as u32);
}

/// What a wire to an input of this kind is, up to the input's number.
fn input_name(kind: InputKind) -> &'static [u8]
    ensures text { result.now ≡ input_name kind }
    ensures short { length result.now ≤ 40 }
{
    match kind {
        InputKind::Preempt => b"CHANNEL=INPUT, with an input",
        _ => b"CHANNEL=DETECTOR, with a detector",
    }
}

/// Adds what a device is that a line of events can name.
fn push_device(line: &mut WrongLine)
    ensures { AddsShort LONGEST_WRONG 100 line.old device_text line.new }
{
    line.push(b"a device has no double quote, no end of a line and at most ");
    line.push_number(LONGEST_DEVICE as u32);
    line.push(b" bytes");
}

/// Which files the command of this name names.
fn files_text(command: &str) -> &'static [u8]
    ensures text { result.now ≡ files_text command.now }
    ensures short { length result.now ≤ 100 }
{
    if command == "log" {
        b"log names no file: it reads an event log from standard input"
    } else if command == "record" {
        b"record names two files, PLAN and LOG"
    } else if command == "review" {
        b"review names one file, PLAN"
    } else if command == "schedule" {
        b"schedule names one file, PLAN"
    } else if command == "worksheet" {
        b"worksheet names one file, PLAN"
    } else if command == "card" {
        b"card names one file, PLAN"
    } else {
        b"this command names files by options alone: it reads what `tsb run` answers from standard input"
    }
}
