//! The command of a line.
ghost use Rattle.std.specs.Prelude.{◌≡◌};
ghost use Rattle.tsb_command_text.specs.Commands.{command_in, command_of, command_of_five, command_of_one, command_of_three, command_of_two, on_or_off, watch_of_one, watch_of_two};
ghost use Rattle.tsb_command_text.specs.Readings.{lines_in, lines_of_two, reading};
ghost use Rattle.tsb_lines.specs.Words.{words_of};

use crate::clock::read_clock;
use crate::command::{Command, Reading};
use crate::lamps::{detector, lamp, phase, station};
use crate::names::is;
use crate::objects::object;
use tsb_lines::{is_skipped, next_word, number};
use tsb_plan::ObjectId;
use tsb_types::Watch;

/// The most bytes that a line may have, its end not counted.
pub const LINE: usize = 200;

/// What a line asks. The line is given without its end.
pub fn reading_of(line: &[u8]) -> Reading
    ensures { result ≡ reading line.now }
{
    if line.len() > LINE {
        return Reading::Bad;
    }
    if is_skipped(line) {
        return Reading::Skip;
    }
    if let Some(is_wide) = lines_of(line) {
        return Reading::Lines(is_wide);
    }
    match of_words(line) {
        None => Reading::Bad,
        Some(command) => Reading::Do(command),
    }
}

/// How a line lays out display lines, if it does.
fn lines_of(line: &[u8]) -> Option<bool>
    ensures { result ≡ lines_in (words_of line.now) }
{
    let (name, rest) = next_word(line)?;
    let (word, rest) = next_word(rest)?;
    if next_word(rest).is_some() {
        return None;
    }
    lines_by(name, word)
}

/// How these words lay out display lines, if they do: `true` for `lines wide`, `false` for `lines narrow`.
#[tactic(auto, unfolding(crate::specs::Readings::lines_of_two))]
pub(crate) fn lines_by(name: &[u8], word: &[u8]) -> Option<bool>
    ensures { result ≡ lines_of_two name.now word.now }
{
    if !is(name, b"lines") {
        return None;
    }
    let is_wide = is(word, b"wide");
    if is_wide || is(word, b"narrow") {
        return Some(is_wide);
    }
    None
}

/// The command of a line. The line is given without its end. `None` where it is not a command: also where the line is
/// blank, a comment, or longer than `LINE` bytes.
pub fn read_command(line: &[u8]) -> Option<Command>
    ensures { result ≡ command_of line.now }
{
    if line.len() > LINE {
        return None;
    }
    of_words(line)
}

/// The command that the words of a line are, however long it is.
fn of_words(line: &[u8]) -> Option<Command>
    ensures { result ≡ command_in (words_of line.now) }
{
    let (name, rest) = next_word(line)?;
    let Some((first, rest)) = next_word(rest) else {
        return of_one(name);
    };
    let Some((second, rest)) = next_word(rest) else {
        return of_two(name, first);
    };
    let Some((third, rest)) = next_word(rest) else {
        return of_three(name, first, second);
    };
    let (fourth, rest) = next_word(rest)?;
    if next_word(rest).is_some() {
        return None;
    }
    of_five(name, first, second, third, fourth)
}

#[tactic(auto, unfolding(crate::specs::Commands::command_of_one))]
fn of_one(name: &[u8]) -> Option<Command>
    ensures { result ≡ command_of_one name.now }
{
    if is(name, b"undo") {
        return Some(Command::Undo);
    }
    if is(name, b"show") {
        return Some(Command::Show);
    }
    if is(name, b"reset") {
        return Some(Command::Reset);
    }
    if is(name, b"quit") {
        return Some(Command::Quit);
    }
    None
}

#[tactic(auto, unfolding(crate::specs::Commands::command_of_two))]
fn of_two(name: &[u8], word: &[u8]) -> Option<Command>
    ensures { result ≡ command_of_two name.now word.now }
{
    if is(name, b"step") {
        return Some(Command::Step(number(word)?));
    }
    if is(name, b"back") {
        return Some(Command::Back(number(word)?));
    }
    if is(name, b"seek") {
        return Some(Command::Seek(number(word)?));
    }
    if is(name, b"pattern") {
        return Some(Command::Pattern(number(word)?));
    }
    if is(name, b"omit") {
        return Some(Command::Omit(number(word)?));
    }
    if is(name, b"when") {
        return Some(Command::When(watch_by_one(word)?));
    }
    if is(name, b"begin") {
        return Some(Command::Begin(station(word)?));
    }
    if is(name, b"verify") {
        return Some(Command::Verify(station(word)?));
    }
    if is(name, b"commit") {
        return Some(Command::Commit(station(word)?));
    }
    if is(name, b"abort") {
        return Some(Command::Abort(station(word)?));
    }
    if is(name, b"fault") && is(word, b"none") {
        return Some(Command::Fault(None));
    }
    None
}

#[tactic(auto, unfolding(crate::specs::Commands::command_of_three))]
fn of_three(name: &[u8], first: &[u8], second: &[u8]) -> Option<Command>
    ensures { result ≡ command_of_three name.now first.now second.now }
{
    if is(name, b"when") {
        return Some(Command::When(watch_by_two(first, second)?));
    }
    if is(name, b"preempt") {
        return Some(Command::Preempt(number(first)?, turned_on(second)?));
    }
    if is(name, b"fault") {
        return Some(Command::Fault(Some(lamp(first, second)?)));
    }
    if is(name, b"clock") {
        return Some(Command::Clock(read_clock(first, second)?));
    }
    None
}

#[tactic(auto, unfolding(crate::specs::Commands::command_of_five))]
fn of_five(
    name: &[u8],
    station_word: &[u8],
    object_word: &[u8],
    index: &[u8],
    value: &[u8],
) -> Option<Command>
    ensures { result ≡ command_of_five name.now station_word.now object_word.now index.now value.now }
{
    if !is(name, b"set") {
        return None;
    }
    let station = station(station_word)?;
    let object = object(object_word)?;
    let index = number(index)?;
    Some(Command::Set(station, ObjectId { object, index }, number(value)?))
}

fn watch_by_one(word: &[u8]) -> Option<Watch>
    ensures { result ≡ watch_of_one word.now }
{
    if is(word, b"stage") {
        return Some(Watch::Stage);
    }
    if is(word, b"trip") {
        return Some(Watch::Trip);
    }
    None
}

fn watch_by_two(word: &[u8], number: &[u8]) -> Option<Watch>
    ensures { result ≡ watch_of_two word.now number.now }
{
    if is(word, b"interval") {
        return Some(Watch::Interval(phase(number)?));
    }
    if is(word, b"ped") {
        return Some(Watch::Ped(phase(number)?));
    }
    if is(word, b"call") {
        return Some(Watch::Call(phase(number)?));
    }
    if is(word, b"output") {
        return Some(Watch::Output(detector(number)?));
    }
    if is(word, b"alarm") {
        return Some(Watch::Alarm(detector(number)?));
    }
    None
}

/// What a word says of a switch: `true` for `on`, `false` for `off`, `None` for any other word.
pub fn turned_on(word: &[u8]) -> Option<bool>
    ensures { result ≡ on_or_off word.now }
{
    if is(word, b"on") {
        return Some(true);
    }
    if is(word, b"off") {
        return Some(false);
    }
    None
}
