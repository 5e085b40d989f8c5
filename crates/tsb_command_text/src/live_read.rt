//! What a line asks.
ghost use Rattle.std.specs.Prelude.{◌≡◌, ◌≤◌, length};
ghost use Rattle.tsb_lines.specs.Words.{words_of};
ghost use Rattle.tsb_command_text.specs.LiveCommands.{live_command_in, input_of_two, number_to, own_in, own_of_one, own_of_three, own_of_two};
ghost use Rattle.tsb_command_text.specs.LiveReadings.{live_reading};

use crate::clock::{read_clock, read_time};
use crate::live_command::{Aim, LiveCommand, LiveReading};
use crate::read::lines_by;
use crate::{LINE, read_command, turned_on};
use tsb_lines::{is_skipped, next_word, number};
use tsb_log_text::{RowInput, inputs_in};
use tsb_types::Number;

/// What a line asks. The line is given without its end, and is bad where it has over `LINE` bytes.
#[tactic(auto, unfolding(crate::specs::LiveReadings::live_reading))]
pub fn live_reading_of(line: &[u8]) -> LiveReading
    ensures { result ≡ live_reading line.now }
{
    if line.len() > LINE {
        return LiveReading::Bad;
    }
    if is_skipped(line) {
        return LiveReading::Skip;
    }
    if let Some(row) = inputs_in(line) {
        return LiveReading::Tick(row);
    }
    match live_command(line) {
        None => LiveReading::Bad,
        Some(command) => LiveReading::Ask(command),
    }
}

/// The command of a line.
fn live_command(line: &[u8]) -> Option<LiveCommand>
    requires { length line.now ≤ 200 }
    ensures { result ≡ live_command_in (words_of line.now) }
{
    if let Some(command) = own_command(line) {
        return Some(command);
    }
    Some(LiveCommand::Session(read_command(line)?))
}

/// The command of a line that is asked live alone.
fn own_command(line: &[u8]) -> Option<LiveCommand>
    ensures { result ≡ own_in (words_of line.now) }
{
    let (name, rest) = next_word(line)?;
    let Some((first, rest)) = next_word(rest) else {
        return own_of_one(name);
    };
    let Some((second, rest)) = next_word(rest) else {
        return own_of_two(name, first);
    };
    if next_word(rest).is_some() {
        return None;
    }
    own_of_three(name, first, second)
}

#[tactic(auto, unfolding(crate::specs::LiveCommands::own_of_one))]
fn own_of_one(name: &[u8]) -> Option<LiveCommand>
    ensures { result ≡ own_of_one name.now }
{
    if name == b"status".as_slice() {
        return Some(LiveCommand::Status);
    }
    if name == b"plan".as_slice() {
        return Some(LiveCommand::Plan);
    }
    if name == b"edits".as_slice() {
        return Some(LiveCommand::Edits);
    }
    if name == b"save".as_slice() {
        return Some(LiveCommand::Save);
    }
    if name == b"help".as_slice() {
        return Some(LiveCommand::Help);
    }
    None
}

#[tactic(auto, unfolding(crate::specs::LiveCommands::own_of_two))]
fn own_of_two(name: &[u8], word: &[u8]) -> Option<LiveCommand>
    ensures { result ≡ own_of_two name.now word.now }
{
    if name == b"changes".as_slice() {
        return Some(LiveCommand::Changes(number(word)?));
    }
    if name == b"goto".as_slice() {
        return Some(LiveCommand::GoTo(Aim::Time(read_time(word)?)));
    }
    if name == b"tick".as_slice() {
        return Some(LiveCommand::TickAt(Aim::Time(read_time(word)?)));
    }
    if name == b"events".as_slice() {
        return Some(LiveCommand::Events(turned_on(word)?));
    }
    if name == b"echo".as_slice() {
        return Some(LiveCommand::Echo(turned_on(word)?));
    }
    if name == b"lines".as_slice() {
        return Some(LiveCommand::Lines(lines_by(name, word)?));
    }
    None
}

#[tactic(auto, unfolding(crate::specs::LiveCommands::own_of_three))]
fn own_of_three(name: &[u8], first: &[u8], second: &[u8]) -> Option<LiveCommand>
    ensures { result ≡ own_of_three name.now first.now second.now }
{
    if name == b"when".as_slice() {
        return Some(LiveCommand::When(input_of_two(first, second)?));
    }
    if name == b"goto".as_slice() {
        return Some(LiveCommand::GoTo(Aim::Moment(read_clock(first, second)?)));
    }
    if name == b"tick".as_slice() {
        return Some(LiveCommand::TickAt(Aim::Moment(read_clock(first, second)?)));
    }
    None
}

/// The input of rows that these words name.
fn input_of_two(word: &[u8], number: &[u8]) -> Option<RowInput>
    ensures { result ≡ input_of_two word.now number.now }
{
    if word == b"input".as_slice() {
        return Some(RowInput::Vehicle(number_to(number)?));
    }
    if word == b"button".as_slice() {
        return Some(RowInput::Pedestrian(number_to(number)?));
    }
    if word == b"preempt".as_slice() {
        return Some(RowInput::Preempt(number_to(number)?));
    }
    None
}

/// The number that a word is, if a thing of this kind can have it.
fn number_to<const KIND: u8, const MOST: u8>(word: &[u8]) -> Option<Number<KIND, MOST>>
    ensures { result ≡ number_to MOST word.now }
{
    Number::new(number(word)?)
}
